//! The models of a finished reading, with the numbers of a table for its symbols.
ghost use Rattle.std.specs.Prelude.{◌≡◌, ◌≤◌, ◌<◌, ◌+◌, ◌^◌, ◌++◌, map, length, option_map, IfOk, OnOk, IfSome, neg_ℤ};
ghost use Rattle.std.specs.List.{AllByRecursion, flat_map};
ghost use Rattle.crs_model.specs.SeenModels as view;
ghost use Rattle.crs_parse.specs.Meant as meant;
ghost use Rattle.crs_model.specs.Renaming as renamed;
ghost use Rattle.crs_parse.specs.Faults as faults;
ghost use Rattle.crs_parse.specs.HeldStatements as held;
ghost use Rattle.crs_parse.specs.SeenReading as see;
ghost use Rattle.crs_grammar.specs.SeenStatements as seen;

use crate::builder::{self, Closed, Reading, VariableSet, Written};
use crs_base::{List, Sym, Symbols};
use crs_grammar as written;
use crs_grammar::{Distance, Emission, Event, Shift};
use crs_model::{
    Anchor, Body, Chronicle, Emit, EventDef, Kind, Models, Name, Pattern, Term, VarSet, Window,
};
use crs_stn::Bound;
use std::alloc::{AllocError, Global};

/// The number of a text that the table holds.
#[tactic(auto, using(crate::proofs::Places::found_text))]
fn symbol(symbols: &Symbols, text: &[u8]) -> Sym
    requires { held.IsHeld symbols.now.texts text.now }
    ensures { renamed.text_in symbols.now.texts result ≡ text.now }
{
    match symbols.find(text) {
        Some(s) => s,
        None => unreachable!(),
    }
}

/// The place of a text among others, or their count where it is none of them.
fn place(texts: &[&[u8]], text: &[u8]) -> usize
    ensures value { result ≡ meant.place_in (map (λ t. t.now) texts.now) text.now }
    ensures within { result ≤ length texts.now }
{
    for (i, t) in texts.iter().enumerate() {
        if text == *t {
            return i;
        }
    }
    texts.len()
}

fn term(symbols: &Symbols, variables: &[&[u8]], term: written::Term<'_>) -> Term
    requires few { length variables.now ≤ 16 }
    requires held { held.IsHeldTerm symbols.now.texts (seen.term_of term) }
    ensures { renamed.renamed_term (renamed.text_in symbols.now.texts) (view.term_of result) ≡ meant.term_of (map (λ t. t.now) variables.now) (seen.term_of term.entry) }
{
    match term {
        written::Term::Value(s) => Term::Value(symbol(symbols, s)),
        written::Term::Variable(x) => Term::Var(place(variables, x) as u8),
        written::Term::Any => Term::Any,
    }
}

fn terms(
    alloc: Global,
    symbols: &Symbols,
    variables: &[&[u8]],
    terms: &[written::Term<'_>],
) -> Result<List<Term>, AllocError>
    requires few { length variables.now ≤ 16 }
    requires held { held.AreHeldTerms symbols.now.texts (map seen.term_of terms.now) }
    ensures { IfOk result (λ ts. map (renamed.renamed_term (renamed.text_in symbols.now.texts)) (map view.term_of ts) ≡ map (meant.term_of (map (λ t. t.now) variables.now)) (map seen.term_of terms.now)) }
{
    let mut out = List::new(alloc);
    for t in terms {
        out.push(term(symbols, variables, *t))?;
    }
    Ok(out)
}

fn change(
    symbols: &Symbols,
    variables: &[&[u8]],
    change: &Option<(written::Term<'_>, written::Term<'_>)>,
) -> Option<(Term, Term)>
    requires few { length variables.now ≤ 16 }
    requires held { IfSome (seen.change_of change.now) (λ c. held.IsHeldTerm symbols.now.texts c.0 × held.IsHeldTerm symbols.now.texts c.1) }
    ensures { option_map (λ c. (renamed.renamed_term (renamed.text_in symbols.now.texts) (view.term_of c.0), renamed.renamed_term (renamed.text_in symbols.now.texts) (view.term_of c.1))) result ≡ meant.change_of (map (λ t. t.now) variables.now) (seen.change_of change.now) }
{
    match change {
        Some((old, new)) => Some((
            term(symbols, variables, *old),
            term(symbols, variables, *new),
        )),
        None => None,
    }
}

fn pattern(
    alloc: Global,
    symbols: &Symbols,
    variables: &[&[u8]],
    pattern: &written::Pattern<'_>,
) -> Result<Pattern, AllocError>
    requires few { length variables.now ≤ 16 }
    requires held { held.IsHeldPattern symbols.now.texts (seen.pattern_of pattern.now) }
    ensures { IfOk result (λ p. renamed.renamed_pattern (renamed.text_in symbols.now.texts) (view.pattern_of p) ≡ meant.pattern_of (map (λ t. t.now) variables.now) (seen.pattern_of pattern.now)) }
{
    Ok(Pattern {
        name: symbol(symbols, pattern.name),
        terms: terms(alloc, symbols, variables, &pattern.terms)?,
        change: change(symbols, variables, &pattern.change),
    })
}

fn level(level: Option<u64>) -> u8
    requires { meant.level_of level ≤ 7 }
    ensures { result ≡ meant.level_of level }
{
    match level {
        Some(n) => n as u8,
        None => 0,
    }
}

fn event(
    alloc: Global,
    symbols: &Symbols,
    variables: &[&[u8]],
    event: &Event<'_>,
) -> Result<EventDef, AllocError>
    requires few { length variables.now ≤ 16 }
    requires held { held.IsHeldEvent symbols.now.texts (seen.event_of event.now) }
    ensures { IfOk result (λ e. renamed.renamed_event (renamed.text_in symbols.now.texts) (view.event_of e) ≡ meant.event_of (map (λ t. t.now) variables.now) (seen.event_of event.now)) }
{
    Ok(EventDef {
        pattern: pattern(alloc, symbols, variables, &event.pattern)?,
        point: symbol(symbols, event.point),
        level: level(event.level),
    })
}

fn events(
    alloc: Global,
    symbols: &Symbols,
    variables: &[&[u8]],
    events: &[Event<'_>],
) -> Result<List<EventDef>, AllocError>
    requires few { length variables.now ≤ 16 }
    requires held { AllByRecursion (held.IsHeldEvent symbols.now.texts) (map seen.event_of events.now) }
    ensures { IfOk result (λ es. map (renamed.renamed_event (renamed.text_in symbols.now.texts)) (map view.event_of es) ≡ map (meant.event_of (map (λ t. t.now) variables.now)) (map seen.event_of events.now)) }
{
    let mut out = List::new(alloc);
    for e in events {
        out.push(event(alloc, symbols, variables, e)?)?;
    }
    Ok(out)
}

fn numbers(alloc: Global, symbols: &Symbols, texts: &[&[u8]]) -> Result<List<Sym>, AllocError>
    requires { held.AreHeld symbols.now.texts (map (λ t. t.now) texts.now) }
    ensures { IfOk result (λ ss. map (renamed.text_in symbols.now.texts) ss ≡ map (λ t. t.now) texts.now) }
{
    let mut out = List::new(alloc);
    for t in texts {
        out.push(symbol(symbols, t))?;
    }
    Ok(out)
}

fn offset(shift: Shift) -> i64
    requires { faults.shift_size (seen.shift_of shift) ≤ 2 ^ 40 }
    ensures { result ≡ meant.offset_of (seen.shift_of shift) }
{
    match shift {
        Shift::Here => 0,
        Shift::Later(n) => n as i64,
        Shift::Earlier(n) => -(n as i64),
    }
}

fn anchor(points: &[&[u8]], anchor: written::Anchor<'_>) -> Anchor
    requires few { length points.now ≤ 24 }
    requires near { faults.shift_size (seen.shift_of anchor.shift) ≤ 2 ^ 40 }
    ensures { view.anchor_of result ≡ meant.anchor_of (map (λ t. t.now) points.now) (seen.anchor_of anchor.entry) }
{
    Anchor {
        event: place(points, anchor.point) as u8,
        offset: offset(anchor.shift),
    }
}

fn body(
    alloc: Global,
    symbols: &Symbols,
    variables: &[&[u8]],
    body: &written::Body<'_>,
) -> Result<Body, AllocError>
    requires few { length variables.now ≤ 16 }
    requires held { held.IsHeldBody symbols.now.texts (seen.body_of body.now) }
    ensures { IfOk result (λ b. renamed.renamed_body (renamed.text_in symbols.now.texts) (view.body_of b) ≡ meant.body_of (map (λ t. t.now) variables.now) (seen.body_of body.now)) }
{
    match body {
        written::Body::NoEvent(p) => Ok(Body::NoEvent(pattern(alloc, symbols, variables, p)?)),
        written::Body::Occurs(least, most, p) => Ok(Body::Occurs {
            least: *least as u32,
            most: count(*most),
            pattern: pattern(alloc, symbols, variables, p)?,
        }),
        written::Body::Hold(name, held, value) => Ok(Body::Hold {
            name: symbol(symbols, name),
            terms: terms(alloc, symbols, variables, held)?,
            value: term(symbols, variables, *value),
        }),
    }
}

fn count(most: Option<u64>) -> Option<u32>
    requires { IfSome most (λ m. m ≤ 4294967295) }
    ensures { result ≡ most }
{
    match most {
        Some(n) => Some(n as u32),
        None => None,
    }
}

fn window(
    alloc: Global,
    symbols: &Symbols,
    variables: &[&[u8]],
    points: &[&[u8]],
    window: &written::Window<'_>,
) -> Result<Window, AllocError>
    requires few { length variables.now ≤ 16 }
    requires few_points { length points.now ≤ 24 }
    requires held { held.IsHeldWindow symbols.now.texts (seen.window_of window.now) }
    ensures { IfOk result (λ w. renamed.renamed_window (renamed.text_in symbols.now.texts) (view.window_of w) ≡ meant.window_of (map (λ t. t.now) variables.now) (map (λ t. t.now) points.now) (seen.window_of window.now)) }
{
    Ok(Window {
        body: body(alloc, symbols, variables, &window.body)?,
        from: anchor(points, window.from),
        to: anchor(points, window.to),
    })
}

fn windows(
    alloc: Global,
    symbols: &Symbols,
    variables: &[&[u8]],
    points: &[&[u8]],
    windows: &[written::Window<'_>],
) -> Result<List<Window>, AllocError>
    requires few { length variables.now ≤ 16 }
    requires few_points { length points.now ≤ 24 }
    requires held { AllByRecursion (held.IsHeldWindow symbols.now.texts) (map seen.window_of windows.now) }
    ensures { IfOk result (λ ws. map (renamed.renamed_window (renamed.text_in symbols.now.texts)) (map view.window_of ws) ≡ map (meant.window_of (map (λ t. t.now) variables.now) (map (λ t. t.now) points.now)) (map seen.window_of windows.now)) }
{
    let mut out = List::new(alloc);
    for w in windows {
        out.push(window(alloc, symbols, variables, points, w)?)?;
    }
    Ok(out)
}

fn emits(
    alloc: Global,
    symbols: &Symbols,
    variables: &[&[u8]],
    points: &[&[u8]],
    emits: &[Emission<'_>],
) -> Result<List<Emit>, AllocError>
    requires few { length variables.now ≤ 16 }
    requires few_points { length points.now ≤ 24 }
    requires held { AllByRecursion (held.IsHeldEmission symbols.now.texts) (map seen.emission_of emits.now) }
    ensures { IfOk result (λ es. map (renamed.renamed_emit (renamed.text_in symbols.now.texts)) (map view.emit_of es) ≡ map (meant.emit_of (map (λ t. t.now) variables.now) (map (λ t. t.now) points.now)) (map seen.emission_of emits.now)) }
{
    let mut out = List::new(alloc);
    for e in emits {
        let pattern = pattern(alloc, symbols, variables, &e.pattern)?;
        let event = place(points, e.point) as u8;
        out.push(Emit { pattern, event })?;
    }
    Ok(out)
}

fn most(high: Option<i128>) -> Option<i64>
    requires { IfSome high held.IsNear }
    ensures { result ≡ high }
{
    match high {
        Some(z) => Some(z as i64),
        None => None,
    }
}

fn negated(low: Option<i128>) -> Option<i64>
    requires { IfSome low held.IsNear }
    ensures { result ≡ option_map neg_ℤ low }
{
    match low {
        Some(z) => Some(-z as i64),
        None => None,
    }
}

fn bounds(
    alloc: Global,
    points: &[&[u8]],
    distances: &[Distance<'_>],
) -> Result<List<Bound>, AllocError>
    requires few { length points.now ≤ 24 }
    requires near { AllByRecursion held.AreNear (map seen.distance_of distances.now) }
    ensures { IfOk result (λ bs. bs ≡ flat_map (meant.bounds_of (map (λ t. t.now) points.now)) (map seen.distance_of distances.now)) }
{
    let mut out = List::new(alloc);
    for d in distances {
        let from = place(points, d.from) as u8;
        let to = place(points, d.to) as u8;
        let most = most(d.high);
        out.push(Bound { from, to, most })?;
        let most = negated(d.low);
        out.push(Bound {
            from: to,
            to: from,
            most,
        })?;
    }
    Ok(out)
}

fn sets(
    alloc: Global,
    symbols: &Symbols,
    variables: &[&[u8]],
    sets: &[VariableSet<'_>],
) -> Result<List<VarSet>, AllocError>
    requires few { length variables.now ≤ 16 }
    requires held { AllByRecursion (held.IsHeldSet symbols.now.texts) (map see.set_of sets.now) }
    ensures { IfOk result (λ ss. map (renamed.renamed_set (renamed.text_in symbols.now.texts)) (map view.set_of ss) ≡ map (meant.set_of (map (λ t. t.now) variables.now)) (map see.set_of sets.now)) }
{
    let mut out = List::new(alloc);
    for s in sets {
        let variable = place(variables, s.variable) as u8;
        let values = numbers(alloc, symbols, &s.values)?;
        out.push(VarSet { variable, values })?;
    }
    Ok(out)
}

fn differs(
    alloc: Global,
    variables: &[&[u8]],
    differs: &[(&[u8], &[u8])],
) -> Result<List<(u8, u8)>, AllocError>
    requires few { length variables.now ≤ 16 }
    ensures { IfOk result (λ ds. ds ≡ map (meant.differ_of (map (λ t. t.now) variables.now)) (map (λ d. (d.0.now, d.1.now)) differs.now)) }
{
    let mut out = List::new(alloc);
    for d in differs {
        let left = place(variables, d.0) as u8;
        let right = place(variables, d.1) as u8;
        out.push((left, right))?;
    }
    Ok(out)
}

/// The points of the events, and then the free ones.
fn points<'a>(alloc: Global, c: &Written<'a>) -> Result<Vec<&'a [u8]>, AllocError>
    ensures { IfOk result (λ ps. map (λ t. t.now) ps.items ≡ meant.points_of (see.written_of c.now)) }
{
    let mut out = Vec::new(alloc);
    for e in &c.events {
        out.push(e.point)?;
    }
    push_all(&mut out, &c.free)?;
    Ok(out)
}

fn push_all<'a>(out: &mut Vec<&'a [u8]>, texts: &[&'a [u8]]) -> Result<(), AllocError>
    ensures { OnOk result (map (λ t. t.now) out.new.items ≡ map (λ t. t.now) out.old.items ++ map (λ t. t.now) texts.now) }
{
    for t in texts {
        out.push(*t)?;
    }
    Ok(())
}

/// What stands on a chronicle's points: its bounds, its windows and its emits.
fn on_points(
    alloc: Global,
    symbols: &Symbols,
    c: &Written<'_>,
) -> Result<(List<Bound>, List<Window>, List<Emit>), AllocError>
    requires { held.IsHeldChronicle symbols.now.texts (see.written_of c.now) }
    ensures bounds { IfOk result (λ x. x.0 ≡ flat_map (meant.bounds_of (meant.points_of (see.written_of c.now))) (see.written_of c.now).bounds) }
    ensures windows { IfOk result (λ x. map (renamed.renamed_window (renamed.text_in symbols.now.texts)) (map view.window_of x.1) ≡ map (meant.window_of (see.written_of c.now).variables (meant.points_of (see.written_of c.now))) (see.written_of c.now).windows) }
    ensures emits { IfOk result (λ x. map (renamed.renamed_emit (renamed.text_in symbols.now.texts)) (map view.emit_of x.2) ≡ map (meant.emit_of (see.written_of c.now).variables (meant.points_of (see.written_of c.now))) (see.written_of c.now).emits) }
{
    let points = points(alloc, c)?;
    let bounds = bounds(alloc, &points, &c.bounds)?;
    let windows = windows(alloc, symbols, &c.variables, &points, &c.windows)?;
    let emits = emits(alloc, symbols, &c.variables, &points, &c.emits)?;
    Ok((bounds, windows, emits))
}

/// What stands on a chronicle's variables alone: their values, and which of them differ.
fn on_variables(
    alloc: Global,
    symbols: &Symbols,
    c: &Written<'_>,
) -> Result<(List<VarSet>, List<(u8, u8)>), AllocError>
    requires { held.IsHeldChronicle symbols.now.texts (see.written_of c.now) }
    ensures sets { IfOk result (λ x. map (renamed.renamed_set (renamed.text_in symbols.now.texts)) (map view.set_of x.0) ≡ map (meant.set_of (see.written_of c.now).variables) (see.written_of c.now).sets) }
    ensures differs { IfOk result (λ x. x.1 ≡ map (meant.differ_of (see.written_of c.now).variables) (see.written_of c.now).differs) }
{
    let sets = sets(alloc, symbols, &c.variables, &c.sets)?;
    let differs = differs(alloc, &c.variables, &c.differs)?;
    Ok((sets, differs))
}

fn chronicle(alloc: Global, symbols: &Symbols, closed: &Closed<'_>) -> Result<Chronicle, AllocError>
    requires { held.IsHeldChronicle symbols.now.texts (see.closed_of closed.now).1 }
    ensures { IfOk result (λ c. renamed.renamed_chronicle (renamed.text_in symbols.now.texts) (view.chronicle_of c) ≡ meant.chronicle_of (see.closed_of closed.now)) }
{
    let c = &closed.chronicle;
    let events = events(alloc, symbols, &c.variables, &c.events)?;
    let free = numbers(alloc, symbols, &c.free)?;
    let variables = numbers(alloc, symbols, &c.variables)?;
    let (sets, differs) = on_variables(alloc, symbols, c)?;
    let (bounds, windows, emits) = on_points(alloc, symbols, c)?;
    Ok(Chronicle {
        name: symbol(symbols, c.name),
        prompt: c.prompt,
        line: closed.line,
        events,
        free,
        bounds,
        variables,
        sets,
        differs,
        windows,
        emits,
    })
}

fn chronicles(
    alloc: Global,
    symbols: &Symbols,
    done: &[Closed<'_>],
) -> Result<List<Chronicle>, AllocError>
    requires { AllByRecursion (λ d. held.IsHeldChronicle symbols.now.texts d.1) (map see.closed_of done.now) }
    ensures { IfOk result (λ cs. map (renamed.renamed_chronicle (renamed.text_in symbols.now.texts)) (map view.chronicle_of cs) ≡ map meant.chronicle_of (map see.closed_of done.now)) }
{
    let mut out = List::new(alloc);
    for d in done {
        out.push(chronicle(alloc, symbols, d)?)?;
    }
    Ok(out)
}

fn kind(alloc: Global, symbols: &Symbols, kind: &builder::Kind<'_>) -> Result<Kind, AllocError>
    requires { held.IsHeldKind symbols.now.texts (see.kind_of kind.now) }
    ensures { IfOk result (λ k. renamed.renamed_kind (renamed.text_in symbols.now.texts) (view.kind_of k) ≡ meant.kind_of (see.kind_of kind.now)) }
{
    match kind {
        builder::Kind::Message | builder::Kind::Derived => Ok(Kind::Message),
        builder::Kind::Attribute(None) => Ok(Kind::Attribute { values: None }),
        builder::Kind::Attribute(Some(values)) => Ok(Kind::Attribute {
            values: Some(numbers(alloc, symbols, values)?),
        }),
    }
}

/// Whether it is a derived name.
fn is_derived(kind: &builder::Kind<'_>) -> bool
    ensures { result ≡ faults.is_derived (see.kind_of kind.now) }
{
    matches!(kind, builder::Kind::Derived)
}

/// Adds a name, where it is a derived one or not as wanted.
fn push_name(
    alloc: Global,
    symbols: &Symbols,
    derived: bool,
    out: &mut List<Name>,
    n: &builder::Name<'_>,
) -> Result<(), AllocError>
    requires { held.IsHeldName symbols.now.texts (see.name_of n.now) }
    ensures { OnOk result (map (renamed.renamed_name (renamed.text_in symbols.now.texts)) (map view.name_of out.new) ≡ map (renamed.renamed_name (renamed.text_in symbols.now.texts)) (map view.name_of out.old) ++ map meant.name_of (meant.that derived (see.name_of n.now))) }
{
    if is_derived(&n.kind) == derived {
        let name = symbol(symbols, n.name);
        let kind = kind(alloc, symbols, &n.kind)?;
        let arity = n.arity as u8;
        out.push(Name { name, arity, kind })?;
    }
    Ok(())
}

/// The derived names, or the others.
fn names(
    alloc: Global,
    symbols: &Symbols,
    derived: bool,
    names: &[builder::Name<'_>],
) -> Result<List<Name>, AllocError>
    requires { AllByRecursion (held.IsHeldName symbols.now.texts) (map see.name_of names.now) }
    ensures { IfOk result (λ ns. map (renamed.renamed_name (renamed.text_in symbols.now.texts)) (map view.name_of ns) ≡ map meant.name_of (meant.names_that derived (map see.name_of names.now))) }
{
    let mut out = List::new(alloc);
    for n in names {
        push_name(alloc, symbols, derived, &mut out, n)?;
    }
    Ok(out)
}

/// The models of a finished reading.
pub fn models(alloc: Global, symbols: &Symbols, reading: &Reading<'_>) -> Result<Models, AllocError>
    requires { held.IsHeldReading symbols.now.texts (see.reading_of symbols.now.texts reading.now) }
    ensures { IfOk result (λ m. renamed.renamed_models (renamed.text_in symbols.now.texts) (view.models_of m) ≡ meant.models_in (see.reading_of symbols.now.texts reading.now)) }
{
    Ok(Models {
        names: names(alloc, symbols, false, &reading.names)?,
        derived: names(alloc, symbols, true, &reading.names)?,
        chronicles: chronicles(alloc, symbols, &reading.done)?,
    })
}
