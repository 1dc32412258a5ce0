//! The canonical text of models.
ghost use Rattle.std.specs.Prelude.{true, false, ◌≡◌, ◌<◌, ◌∷◌, [], ◌++◌, map, length, option_map, IfOk, IfSome, OnOk, neg_ℤ};
ghost use Rattle.std.specs.List.{AllByRecursion, flat_map};
ghost use Rattle.crs_base.specs.Symbols.{text_at};
ghost use Rattle.crs_model.specs.Renaming as renamed;
ghost use Rattle.crs_model.specs.SeenModels as view;
ghost use Rattle.crs_grammar.specs.Canon.{statement_line, statements_text};
ghost use Rattle.crs_grammar.specs.Forms as forms;
ghost use Rattle.crs_grammar.specs.Forms.{Sign, Gap};
ghost use Rattle.crs_print.specs.CanonicalText as from;
ghost use Rattle.crs_print.specs.Said as said;
ghost use Rattle.crs_grammar.specs.Statements.{Happens, Point, Between, Among, Differ, Over, Begin, Message, Attribute};

use crs_base::{List, Sym, Symbols, Text, push_bytes, push_integer, push_number};
use crs_model::{
    Anchor, Body, Chronicle, Emit, EventDef, Kind, Models, Name, Pattern, Term, VarSet, Window,
};
use crs_stn::Bound;
use std::alloc::{AllocError, Global};

/// The text of the symbol at a place of a list, or no bytes past its end.
fn text_of<'s>(symbols: &'s Symbols, list: &[Sym], place: u8) -> &'s [u8]
    requires { renamed.AreKnown symbols.now.texts list.now }
    ensures { result.now ≡ text_at (map (renamed.text_in symbols.now.texts) list.now) place }
{
    match list.get(place as usize) {
        Some(s) => symbols.text(*s),
        None => b"",
    }
}

fn put_term(
    out: &mut Vec<u8>,
    symbols: &Symbols,
    variables: &[Sym],
    term: Term,
) -> Result<(), AllocError>
    requires variables { renamed.AreKnown symbols.now.texts variables.now }
    requires has { said.HasTerm symbols.now.texts term }
    ensures { OnOk result (out.new.items ≡ out.old.items ++ said.text_of (forms.term_form (said.term symbols.now.texts variables.now term))) }
{
    match term {
        Term::Value(s) => push_bytes(out, symbols.text(s)),
        Term::Var(v) => {
            push_bytes(out, b"?")?;
            push_bytes(out, text_of(symbols, variables, v))
        }
        Term::Any => push_bytes(out, b"*"),
    }
}

/// Terms, each behind a comma.
fn put_more_terms(
    out: &mut Vec<u8>,
    symbols: &Symbols,
    variables: &[Sym],
    terms: &[Term],
) -> Result<(), AllocError>
    requires variables { renamed.AreKnown symbols.now.texts variables.now }
    requires has { said.HaveTerms symbols.now.texts terms.now }
    ensures { OnOk result (out.new.items ≡ out.old.items ++ flat_map (λ t. 44 ∷ 32 ∷ said.text_of (forms.term_form t)) (said.terms symbols.now.texts variables.now terms.now)) }
{
    for t in terms {
        push_bytes(out, b", ")?;
        put_term(out, symbols, variables, *t)?;
    }
    Ok(())
}

/// Terms parted by commas.
fn put_listed_terms(
    out: &mut Vec<u8>,
    symbols: &Symbols,
    variables: &[Sym],
    first: Term,
    rest: &[Term],
) -> Result<(), AllocError>
    requires variables { renamed.AreKnown symbols.now.texts variables.now }
    requires first { said.HasTerm symbols.now.texts first }
    requires rest { said.HaveTerms symbols.now.texts rest.now }
    ensures { OnOk result (out.new.items ≡ out.old.items ++ said.text_of (forms.listed forms.term_form (said.term symbols.now.texts variables.now first ∷ said.terms symbols.now.texts variables.now rest.now))) }
{
    put_term(out, symbols, variables, first)?;
    put_more_terms(out, symbols, variables, rest)?;
    Ok(())
}

/// Nothing, or terms in brackets.
fn put_terms(
    out: &mut Vec<u8>,
    symbols: &Symbols,
    variables: &[Sym],
    terms: &[Term],
) -> Result<(), AllocError>
    requires variables { renamed.AreKnown symbols.now.texts variables.now }
    requires has { said.HaveTerms symbols.now.texts terms.now }
    ensures { OnOk result (out.new.items ≡ out.old.items ++ said.text_of (forms.terms_form (said.terms symbols.now.texts variables.now terms.now))) }
{
    if let [first, rest @ ..] = terms {
        push_bytes(out, b"[")?;
        put_listed_terms(out, symbols, variables, *first, rest)?;
        push_bytes(out, b"]")?;
    }
    Ok(())
}

fn put_pair(
    out: &mut Vec<u8>,
    symbols: &Symbols,
    variables: &[Sym],
    old: Term,
    new: Term,
) -> Result<(), AllocError>
    requires variables { renamed.AreKnown symbols.now.texts variables.now }
    requires old { said.HasTerm symbols.now.texts old }
    requires new { said.HasTerm symbols.now.texts new }
    ensures { OnOk result (out.new.items ≡ out.old.items ++ said.text_of (forms.change_form (Some (said.term symbols.now.texts variables.now old, said.term symbols.now.texts variables.now new)))) }
{
    push_bytes(out, b": (")?;
    put_term(out, symbols, variables, old)?;
    push_bytes(out, b", ")?;
    put_term(out, symbols, variables, new)?;
    push_bytes(out, b")")
}

fn put_change(
    out: &mut Vec<u8>,
    symbols: &Symbols,
    variables: &[Sym],
    change: Option<(Term, Term)>,
) -> Result<(), AllocError>
    requires variables { renamed.AreKnown symbols.now.texts variables.now }
    requires has { IfSome change (λ c. said.HasTerm symbols.now.texts c.0 × said.HasTerm symbols.now.texts c.1) }
    ensures { OnOk result (out.new.items ≡ out.old.items ++ said.text_of (forms.change_form (said.change symbols.now.texts variables.now change))) }
{
    if let Some((old, new)) = change {
        put_pair(out, symbols, variables, old, new)?;
    }
    Ok(())
}

fn put_pattern(
    out: &mut Vec<u8>,
    symbols: &Symbols,
    variables: &[Sym],
    pattern: &Pattern,
) -> Result<(), AllocError>
    requires variables { renamed.AreKnown symbols.now.texts variables.now }
    requires has { said.HasPattern symbols.now.texts pattern.now }
    ensures { OnOk result (out.new.items ≡ out.old.items ++ said.text_of (forms.pattern_form (said.pattern symbols.now.texts variables.now pattern.now))) }
{
    push_bytes(out, symbols.text(pattern.name))?;
    put_terms(out, symbols, variables, pattern.terms.as_slice())?;
    put_change(out, symbols, variables, pattern.change)
}

fn put_level(out: &mut Vec<u8>, level: u8) -> Result<(), AllocError>
    ensures { OnOk result (out.new.items ≡ out.old.items ++ said.text_of (forms.level_form (from.level_from level))) }
{
    if level > 0 {
        push_bytes(out, b" level ")?;
        push_number(out, level as u64)?;
    }
    Ok(())
}

fn put_event(
    out: &mut Vec<u8>,
    symbols: &Symbols,
    variables: &[Sym],
    event: &EventDef,
) -> Result<(), AllocError>
    requires variables { renamed.AreKnown symbols.now.texts variables.now }
    requires has { said.HasPattern symbols.now.texts event.now.pattern }
    requires point { said.Has symbols.now.texts event.now.point }
    ensures { OnOk result (out.new.items ≡ out.old.items ++ statement_line (Happens (said.event symbols.now.texts variables.now event.now))) }
{
    push_bytes(out, b"  event(")?;
    put_pattern(out, symbols, variables, &event.pattern)?;
    push_bytes(out, b", ")?;
    push_bytes(out, symbols.text(event.point))?;
    push_bytes(out, b")")?;
    put_level(out, event.level)?;
    push_bytes(out, b"\n")
}

/// Symbols, each behind a comma.
fn put_more_values(out: &mut Vec<u8>, symbols: &Symbols, values: &[Sym]) -> Result<(), AllocError>
    requires { renamed.AreKnown symbols.now.texts values.now }
    ensures { OnOk result (out.new.items ≡ out.old.items ++ flat_map (λ v. 44 ∷ 32 ∷ said.text_of (forms.symbol_form v)) (said.texts_of symbols.now.texts values.now)) }
{
    for v in values {
        push_bytes(out, b", ")?;
        push_bytes(out, symbols.text(*v))?;
    }
    Ok(())
}

/// Symbols parted by commas.
fn put_listed(
    out: &mut Vec<u8>,
    symbols: &Symbols,
    first: Sym,
    rest: &[Sym],
) -> Result<(), AllocError>
    requires first { said.Has symbols.now.texts first }
    requires rest { renamed.AreKnown symbols.now.texts rest.now }
    ensures { OnOk result (out.new.items ≡ out.old.items ++ said.text_of (forms.listed forms.symbol_form (renamed.text_in symbols.now.texts first ∷ said.texts_of symbols.now.texts rest.now))) }
{
    push_bytes(out, symbols.text(first))?;
    put_more_values(out, symbols, rest)?;
    Ok(())
}

/// Symbols in brackets.
fn put_values(out: &mut Vec<u8>, symbols: &Symbols, values: &[Sym]) -> Result<(), AllocError>
    requires { renamed.AreKnown symbols.now.texts values.now }
    ensures { OnOk result (out.new.items ≡ out.old.items ++ said.text_of (forms.values_form (said.texts_of symbols.now.texts values.now))) }
{
    match values {
        [] => push_bytes(out, b"()"),
        [first, rest @ ..] => {
            push_bytes(out, b"(")?;
            put_listed(out, symbols, *first, rest)?;
            push_bytes(out, b")")
        }
    }
}

fn put_shift(out: &mut Vec<u8>, offset: i64) -> Result<(), AllocError>
    ensures { OnOk result (out.new.items ≡ out.old.items ++ said.text_of (forms.shift_form (from.shift_from offset))) }
{
    if offset > 0 {
        push_bytes(out, b" + ")?;
        push_number(out, offset.unsigned_abs())
    } else if offset < 0 {
        push_bytes(out, b" - ")?;
        push_number(out, offset.unsigned_abs())
    } else {
        Ok(())
    }
}

fn put_anchor(
    out: &mut Vec<u8>,
    symbols: &Symbols,
    points: &[Sym],
    anchor: Anchor,
) -> Result<(), AllocError>
    requires { renamed.AreKnown symbols.now.texts points.now }
    ensures { OnOk result (out.new.items ≡ out.old.items ++ said.text_of (forms.anchor_form (said.anchor symbols.now.texts points.now anchor))) }
{
    push_bytes(out, text_of(symbols, points, anchor.event))?;
    put_shift(out, anchor.offset)
}

/// The range of a window, and the end of the statement.
fn put_span(
    out: &mut Vec<u8>,
    symbols: &Symbols,
    points: &[Sym],
    from: Anchor,
    to: Anchor,
) -> Result<(), AllocError>
    requires { renamed.AreKnown symbols.now.texts points.now }
    ensures { OnOk result (out.new.items ≡ out.old.items ++ said.text_of (forms.span_form (said.anchor symbols.now.texts points.now from) (said.anchor symbols.now.texts points.now to))) }
{
    push_bytes(out, b", (")?;
    put_anchor(out, symbols, points, from)?;
    push_bytes(out, b", ")?;
    put_anchor(out, symbols, points, to)?;
    push_bytes(out, b"))")
}

fn put_most(out: &mut Vec<u8>, most: Option<u32>) -> Result<(), AllocError>
    ensures { OnOk result (out.new.items ≡ out.old.items ++ said.text_of (forms.most_part most ∷ [])) }
{
    match most {
        Some(n) => push_number(out, n as u64),
        None => push_bytes(out, b"inf"),
    }
}

fn put_low(out: &mut Vec<u8>, most: Option<i64>) -> Result<(), AllocError>
    ensures { OnOk result (out.new.items ≡ out.old.items ++ said.text_of (forms.low_part (option_map neg_ℤ most) ∷ [])) }
{
    match most {
        Some(z) => push_integer(out, -(z as i128)),
        None => push_bytes(out, b"-inf"),
    }
}

fn put_high(out: &mut Vec<u8>, most: Option<i64>) -> Result<(), AllocError>
    ensures { OnOk result (out.new.items ≡ out.old.items ++ said.text_of (forms.high_part most ∷ [])) }
{
    match most {
        Some(z) => push_integer(out, z as i128),
        None => push_bytes(out, b"inf"),
    }
}

/// What a window wants, up to its range.
fn put_body(
    out: &mut Vec<u8>,
    symbols: &Symbols,
    variables: &[Sym],
    body: &Body,
) -> Result<(), AllocError>
    requires variables { renamed.AreKnown symbols.now.texts variables.now }
    requires has { renamed.IsBodyOf (said.Has symbols.now.texts) (view.body_of body.now) }
    ensures { OnOk result (out.new.items ≡ out.old.items ++ said.text_of (forms.body_form (said.body symbols.now.texts variables.now body.now))) }
{
    match body {
        Body::NoEvent(pattern) => {
            push_bytes(out, b"noevent(")?;
            put_pattern(out, symbols, variables, pattern)
        }
        Body::Occurs {
            least,
            most,
            pattern,
        } => {
            push_bytes(out, b"occurs((")?;
            push_number(out, *least as u64)?;
            push_bytes(out, b", ")?;
            put_most(out, *most)?;
            push_bytes(out, b"), ")?;
            put_pattern(out, symbols, variables, pattern)
        }
        Body::Hold { name, terms, value } => {
            push_bytes(out, b"hold(")?;
            push_bytes(out, symbols.text(*name))?;
            put_terms(out, symbols, variables, terms.as_slice())?;
            push_bytes(out, b": ")?;
            put_term(out, symbols, variables, *value)
        }
    }
}

fn put_window(
    out: &mut Vec<u8>,
    symbols: &Symbols,
    variables: &[Sym],
    points: &[Sym],
    window: &Window,
) -> Result<(), AllocError>
    requires variables { renamed.AreKnown symbols.now.texts variables.now }
    requires points { renamed.AreKnown symbols.now.texts points.now }
    requires has { renamed.IsBodyOf (said.Has symbols.now.texts) (view.body_of window.now.body) }
    ensures { OnOk result (out.new.items ≡ out.old.items ++ statement_line (Over (said.window symbols.now.texts variables.now points.now window.now))) }
{
    push_bytes(out, b"  ")?;
    put_body(out, symbols, variables, &window.body)?;
    put_span(out, symbols, points, window.from, window.to)?;
    push_bytes(out, b"\n")
}

/// The ends of a bound, and the end of the statement.
fn put_ends(out: &mut Vec<u8>, low: Option<i64>, high: Option<i64>) -> Result<(), AllocError>
    ensures { OnOk result (out.new.items ≡ out.old.items ++ said.text_of (forms.low_part (option_map neg_ℤ low) ∷ Sign 44 ∷ Gap ∷ forms.high_part high ∷ Sign 93 ∷ [])) }
{
    put_low(out, low)?;
    push_bytes(out, b", ")?;
    put_high(out, high)?;
    push_bytes(out, b"]")
}

fn put_distance(
    out: &mut Vec<u8>,
    symbols: &Symbols,
    points: &[Sym],
    high: Bound,
    low: Bound,
) -> Result<(), AllocError>
    requires { renamed.AreKnown symbols.now.texts points.now }
    ensures { OnOk result (out.new.items ≡ out.old.items ++ statement_line (Between (said.distance symbols.now.texts points.now high low))) }
{
    push_bytes(out, b"  ")?;
    push_bytes(out, text_of(symbols, points, high.to))?;
    push_bytes(out, b" - ")?;
    push_bytes(out, text_of(symbols, points, high.from))?;
    push_bytes(out, b" in [")?;
    put_ends(out, low.most, high.most)?;
    push_bytes(out, b"\n")
}

fn put_set(
    out: &mut Vec<u8>,
    symbols: &Symbols,
    variables: &[Sym],
    set: &VarSet,
) -> Result<(), AllocError>
    requires variables { renamed.AreKnown symbols.now.texts variables.now }
    requires values { renamed.AreKnown symbols.now.texts set.now.values }
    ensures { OnOk result (out.new.items ≡ out.old.items ++ statement_line (Among (text_at (said.texts_of symbols.now.texts variables.now) set.now.variable) (said.texts_of symbols.now.texts set.now.values))) }
{
    push_bytes(out, b"  ?")?;
    push_bytes(out, text_of(symbols, variables, set.variable))?;
    push_bytes(out, b" in ")?;
    put_values(out, symbols, set.values.as_slice())?;
    push_bytes(out, b"\n")
}

fn put_differ(
    out: &mut Vec<u8>,
    symbols: &Symbols,
    variables: &[Sym],
    left: u8,
    right: u8,
) -> Result<(), AllocError>
    requires { renamed.AreKnown symbols.now.texts variables.now }
    ensures { OnOk result (out.new.items ≡ out.old.items ++ statement_line (Differ (text_at (said.texts_of symbols.now.texts variables.now) left) (text_at (said.texts_of symbols.now.texts variables.now) right))) }
{
    push_bytes(out, b"  ?")?;
    push_bytes(out, text_of(symbols, variables, left))?;
    push_bytes(out, b" != ?")?;
    push_bytes(out, text_of(symbols, variables, right))?;
    push_bytes(out, b"\n")
}

fn put_events(
    out: &mut Vec<u8>,
    symbols: &Symbols,
    variables: &[Sym],
    events: &[EventDef],
) -> Result<(), AllocError>
    requires variables { renamed.AreKnown symbols.now.texts variables.now }
    requires points { AllByRecursion (λ e. said.Has symbols.now.texts e.point) (map view.event_of events.now) }
    requires patterns { AllByRecursion (λ e. renamed.IsPatternOf (said.Has symbols.now.texts) e.pattern) (map view.event_of events.now) }
    ensures { OnOk result (out.new.items ≡ out.old.items ++ flat_map statement_line (said.events symbols.now.texts variables.now events.now)) }
{
    for e in events {
        put_event(out, symbols, variables, e)?;
    }
    Ok(())
}

fn put_point(out: &mut Vec<u8>, symbols: &Symbols, name: Sym) -> Result<(), AllocError>
    requires { said.Has symbols.now.texts name }
    ensures { OnOk result (out.new.items ≡ out.old.items ++ statement_line (Point (renamed.text_in symbols.now.texts name))) }
{
    push_bytes(out, b"  point ")?;
    push_bytes(out, symbols.text(name))?;
    push_bytes(out, b"\n")
}

fn put_free(out: &mut Vec<u8>, symbols: &Symbols, free: &[Sym]) -> Result<(), AllocError>
    requires { renamed.AreKnown symbols.now.texts free.now }
    ensures { OnOk result (out.new.items ≡ out.old.items ++ flat_map statement_line (said.free symbols.now.texts free.now)) }
{
    for p in free {
        put_point(out, symbols, *p)?;
    }
    Ok(())
}

fn put_distances(
    out: &mut Vec<u8>,
    symbols: &Symbols,
    points: &[Sym],
    bounds: &[Bound],
) -> Result<(), AllocError>
    requires { renamed.AreKnown symbols.now.texts points.now }
    ensures { OnOk result (out.new.items ≡ out.old.items ++ flat_map statement_line (said.distances symbols.now.texts points.now bounds.now)) }
{
    let mut left = bounds;
    while let [high, low, rest @ ..] = left {
        put_distance(out, symbols, points, *high, *low)?;
        left = rest;
    }
    Ok(())
}

fn put_sets(
    out: &mut Vec<u8>,
    symbols: &Symbols,
    variables: &[Sym],
    sets: &[VarSet],
) -> Result<(), AllocError>
    requires variables { renamed.AreKnown symbols.now.texts variables.now }
    requires sets { AllByRecursion (λ s. AllByRecursion (said.Has symbols.now.texts) s.values) (map view.set_of sets.now) }
    ensures { OnOk result (out.new.items ≡ out.old.items ++ flat_map statement_line (said.sets symbols.now.texts variables.now sets.now)) }
{
    for s in sets {
        put_set(out, symbols, variables, s)?;
    }
    Ok(())
}

fn put_differs(
    out: &mut Vec<u8>,
    symbols: &Symbols,
    variables: &[Sym],
    differs: &[(u8, u8)],
) -> Result<(), AllocError>
    requires { renamed.AreKnown symbols.now.texts variables.now }
    ensures { OnOk result (out.new.items ≡ out.old.items ++ flat_map statement_line (said.differs symbols.now.texts variables.now differs.now)) }
{
    for d in differs {
        put_differ(out, symbols, variables, d.0, d.1)?;
    }
    Ok(())
}

fn put_windows(
    out: &mut Vec<u8>,
    symbols: &Symbols,
    variables: &[Sym],
    points: &[Sym],
    windows: &[Window],
) -> Result<(), AllocError>
    requires variables { renamed.AreKnown symbols.now.texts variables.now }
    requires points { renamed.AreKnown symbols.now.texts points.now }
    requires windows { AllByRecursion (λ w. renamed.IsBodyOf (said.Has symbols.now.texts) w.body) (map view.window_of windows.now) }
    ensures { OnOk result (out.new.items ≡ out.old.items ++ flat_map statement_line (said.windows symbols.now.texts variables.now points.now windows.now)) }
{
    for w in windows {
        put_window(out, symbols, variables, points, w)?;
    }
    Ok(())
}

fn put_emit(
    out: &mut Vec<u8>,
    symbols: &Symbols,
    variables: &[Sym],
    points: &[Sym],
    e: &Emit,
) -> Result<(), AllocError>
    requires variables { renamed.AreKnown symbols.now.texts variables.now }
    requires points { renamed.AreKnown symbols.now.texts points.now }
    requires pattern { said.HasPattern symbols.now.texts e.now.pattern }
    ensures { OnOk result (out.new.items ≡ out.old.items ++ statement_line (said.emit symbols.now.texts variables.now points.now e.now)) }
{
    push_bytes(out, b"  emit(")?;
    put_pattern(out, symbols, variables, &e.pattern)?;
    push_bytes(out, b", ")?;
    push_bytes(out, text_of(symbols, points, e.event))?;
    push_bytes(out, b")\n")
}

fn put_emits(
    out: &mut Vec<u8>,
    symbols: &Symbols,
    variables: &[Sym],
    points: &[Sym],
    emits: &[Emit],
) -> Result<(), AllocError>
    requires variables { renamed.AreKnown symbols.now.texts variables.now }
    requires points { renamed.AreKnown symbols.now.texts points.now }
    requires emits { AllByRecursion (λ e. renamed.IsPatternOf (said.Has symbols.now.texts) e.pattern) (map view.emit_of emits.now) }
    ensures { OnOk result (out.new.items ≡ out.old.items ++ flat_map statement_line (said.emits symbols.now.texts variables.now points.now emits.now)) }
{
    for e in emits {
        put_emit(out, symbols, variables, points, e)?;
    }
    Ok(())
}

fn put_plain_begin(out: &mut Vec<u8>, symbols: &Symbols, name: Sym) -> Result<(), AllocError>
    requires { said.Has symbols.now.texts name }
    ensures { OnOk result (out.new.items ≡ out.old.items ++ statement_line (Begin (record { prompt = false; name = renamed.text_in symbols.now.texts name }))) }
{
    push_bytes(out, b"chronicle ")?;
    push_bytes(out, symbols.text(name))?;
    push_bytes(out, b" {\n")
}

fn put_prompt_begin(out: &mut Vec<u8>, symbols: &Symbols, name: Sym) -> Result<(), AllocError>
    requires { said.Has symbols.now.texts name }
    ensures { OnOk result (out.new.items ≡ out.old.items ++ statement_line (Begin (record { prompt = true; name = renamed.text_in symbols.now.texts name }))) }
{
    push_bytes(out, b"prompt ")?;
    put_plain_begin(out, symbols, name)
}

fn put_begin(
    out: &mut Vec<u8>,
    symbols: &Symbols,
    prompt: bool,
    name: Sym,
) -> Result<(), AllocError>
    requires { said.Has symbols.now.texts name }
    ensures { OnOk result (out.new.items ≡ out.old.items ++ statement_line (Begin (record { prompt = prompt; name = renamed.text_in symbols.now.texts name }))) }
{
    if prompt {
        put_prompt_begin(out, symbols, name)
    } else {
        put_plain_begin(out, symbols, name)
    }
}

/// The points of the events, and then the free ones.
fn points(alloc: Global, events: &[EventDef], free: &[Sym]) -> Result<Vec<Sym>, AllocError>
    ensures { IfOk result (λ ps. ps.items ≡ map (λ e. e.point) events.now ++ free.now) }
{
    let mut out = Vec::new(alloc);
    for e in events {
        out.push(e.point)?;
    }
    out.extend_from_slice(free)?;
    Ok(out)
}

fn put_message(out: &mut Vec<u8>, name: &[u8], arity: u8) -> Result<(), AllocError>
    ensures { OnOk result (out.new.items ≡ out.old.items ++ statement_line (Message name.now arity)) }
{
    push_bytes(out, b"message ")?;
    push_bytes(out, name)?;
    push_bytes(out, b" ")?;
    push_number(out, arity as u64)?;
    push_bytes(out, b"\n")
}

fn put_attribute(
    out: &mut Vec<u8>,
    symbols: &Symbols,
    name: &[u8],
    arity: u8,
    values: &Option<List<Sym>>,
) -> Result<(), AllocError>
    requires { IfSome values.now (renamed.AreKnown symbols.now.texts) }
    ensures { OnOk result (out.new.items ≡ out.old.items ++ statement_line (Attribute name.now arity (option_map (said.texts_of symbols.now.texts) values.now))) }
{
    push_bytes(out, b"attribute ")?;
    push_bytes(out, name)?;
    push_bytes(out, b" ")?;
    push_number(out, arity as u64)?;
    put_listing(out, symbols, values)?;
    push_bytes(out, b"\n")
}

/// Nothing, or the values of an attribute.
fn put_listing(
    out: &mut Vec<u8>,
    symbols: &Symbols,
    values: &Option<List<Sym>>,
) -> Result<(), AllocError>
    requires { IfSome values.now (renamed.AreKnown symbols.now.texts) }
    ensures { OnOk result (out.new.items ≡ out.old.items ++ said.text_of (forms.values_in_form (option_map (said.texts_of symbols.now.texts) values.now))) }
{
    match values {
        None => Ok(()),
        Some(values) => {
            push_bytes(out, b" in ")?;
            put_values(out, symbols, values.as_slice())
        }
    }
}

fn put_name(out: &mut Vec<u8>, symbols: &Symbols, name: &Name) -> Result<(), AllocError>
    requires { renamed.IsNameOf (said.Has symbols.now.texts) (view.name_of name.now) }
    ensures { OnOk result (out.new.items ≡ out.old.items ++ statement_line (said.name symbols.now.texts name.now)) }
{
    let text = symbols.text(name.name);
    match &name.kind {
        Kind::Message => put_message(out, text, name.arity),
        Kind::Attribute { values } => put_attribute(out, symbols, text, name.arity, values),
    }
}

fn put_names(out: &mut Vec<u8>, symbols: &Symbols, names: &[Name]) -> Result<(), AllocError>
    requires { AllByRecursion (renamed.IsNameOf (said.Has symbols.now.texts)) (map view.name_of names.now) }
    ensures { OnOk result (out.new.items ≡ out.old.items ++ flat_map statement_line (said.names symbols.now.texts names.now)) }
{
    for n in names {
        put_name(out, symbols, n)?;
    }
    Ok(())
}

fn put_derived(out: &mut Vec<u8>, symbols: &Symbols, name: &Name) -> Result<(), AllocError>
    requires { said.Has symbols.now.texts name.now.name }
    ensures { OnOk result (out.new.items ≡ out.old.items ++ statement_line (said.derived symbols.now.texts name.now)) }
{
    push_bytes(out, b"derived ")?;
    push_bytes(out, symbols.text(name.name))?;
    push_bytes(out, b" ")?;
    push_number(out, name.arity as u64)?;
    push_bytes(out, b"\n")
}

fn put_all_derived(out: &mut Vec<u8>, symbols: &Symbols, names: &[Name]) -> Result<(), AllocError>
    requires { AllByRecursion (renamed.IsNameOf (said.Has symbols.now.texts)) (map view.name_of names.now) }
    ensures { OnOk result (out.new.items ≡ out.old.items ++ flat_map statement_line (said.all_derived symbols.now.texts names.now)) }
{
    for n in names {
        put_derived(out, symbols, n)?;
    }
    Ok(())
}

fn put_chronicle(
    alloc: Global,
    out: &mut Vec<u8>,
    symbols: &Symbols,
    c: &Chronicle,
) -> Result<(), AllocError>
    requires { renamed.IsChronicleOf (said.Has symbols.now.texts) (view.chronicle_of c.now) }
    ensures { OnOk result (out.new.items ≡ out.old.items ++ statements_text (said.chronicle symbols.now.texts c.now)) }
{
    let events = c.events.as_slice();
    let free = c.free.as_slice();
    let variables = c.variables.as_slice();
    let points = points(alloc, events, free)?;
    put_begin(out, symbols, c.prompt, c.name)?;
    put_events(out, symbols, variables, events)?;
    put_free(out, symbols, free)?;
    put_distances(out, symbols, &points, c.bounds.as_slice())?;
    put_sets(out, symbols, variables, c.sets.as_slice())?;
    put_differs(out, symbols, variables, c.differs.as_slice())?;
    put_windows(out, symbols, variables, &points, c.windows.as_slice())?;
    put_emits(out, symbols, variables, &points, c.emits.as_slice())?;
    push_bytes(out, b"}\n")?;
    Ok(())
}

fn put_chronicles(
    alloc: Global,
    out: &mut Vec<u8>,
    symbols: &Symbols,
    chronicles: &[Chronicle],
) -> Result<(), AllocError>
    requires { AllByRecursion (renamed.IsChronicleOf (said.Has symbols.now.texts)) (map view.chronicle_of chronicles.now) }
    ensures { OnOk result (out.new.items ≡ out.old.items ++ statements_text (said.chronicles symbols.now.texts chronicles.now)) }
{
    for c in chronicles {
        put_chronicle(alloc, out, symbols, c)?;
    }
    Ok(())
}

/// The canonical text of models: declared names, derived names and then chronicles, each in order.
pub fn print_models(alloc: Global, models: &Models, symbols: &Symbols) -> Result<Text, AllocError>
    requires { renamed.AreModelsOf (λ s. s.0 < length symbols.now.texts) (view.models_of models.now) }
    ensures { IfOk result (λ t. t ≡ from.models_text (renamed.renamed_models (renamed.text_in symbols.now.texts) (view.models_of models.now))) }
{
    let mut out = Vec::new(alloc);
    put_names(&mut out, symbols, models.names.as_slice())?;
    put_all_derived(&mut out, symbols, models.derived.as_slice())?;
    put_chronicles(alloc, &mut out, symbols, models.chronicles.as_slice())?;
    Ok(Text::from_vec(out))
}
