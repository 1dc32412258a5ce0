//! Plans: the least bounds of a chronicle, its reach, and the first that is inconsistent.
ghost use Rattle.std.specs.Prelude.{◌≡◌, ◌<◌, ◌≤◌, ℕ, List, [], ◌∷◌, length, map, Some, None, IfOk};
ghost use Rattle.std.specs.List.{AllByRecursion};
ghost use Rattle.crs_stn.specs.Bound.{IsWithin};
ghost use Rattle.crs_model.specs.declared.models.Kind.TheVariants.{Message};
ghost use Rattle.crs_model.specs.ProperModels.{IsProperBody, IsProperAnchor, IsProperChronicle, AreProper};
ghost use Rattle.crs_model.specs.SeenModels.{name_of, chronicle_of, window_of, models_of};
ghost use Rattle.crs_compile.specs.Minimal.{IsPrintable};

use crs_base::{List, Sym, Symbols, Text, is_symbol};
use crs_compile::{compile, minimal_text};
use crs_model::{
    Anchor, Body, Chronicle, EventDef, Kind, ModelRefused, ModelWord, Models, Name, Pattern, Window,
};
use crs_stn::Bound;
use std::alloc::{AllocError, Global};
use std::process::Abort;
use std::test::Fail;

fn at_most(from: u8, to: u8, most: i64) -> Bound
    ensures { result ≡ record { from = from; to = to; most = Some most } }
{
    Bound {
        from,
        to,
        most: Some(most),
    }
}

fn message(name: Sym) -> Name
    ensures name { result.name ≡ name }
    ensures plain { (result.arity ≡ 0) × (result.kind ≡ Message) }
{
    Name {
        name,
        arity: 0,
        kind: Kind::Message,
    }
}

/// `message a 0` and `message b 0`.
fn two_messages(alloc: Global) -> Result<List<Name>, AllocError>
    ensures symbols { IfOk result (λ names. map (λ n. n.name.0) names ≡ 1 ∷ 2 ∷ []) }
    ensures plain { IfOk result (AllByRecursion (λ n. (n.arity ≡ 0) × (n.kind ≡ Message))) }
{
    let mut names = List::new(alloc);
    names.push(message(Sym(1)))?;
    names.push(message(Sym(2)))?;
    Ok(names)
}

fn pattern(alloc: Global, name: Sym) -> Pattern
    ensures name { result.name ≡ name }
    ensures terms { result.terms ≡ [] }
    ensures change { result.change ≡ None }
{
    Pattern {
        name,
        terms: List::new(alloc),
        change: None,
    }
}

fn event(alloc: Global, name: Sym, point: Sym) -> EventDef
    ensures name { result.pattern.name ≡ name }
    ensures terms { result.pattern.terms ≡ [] }
    ensures change { result.pattern.change ≡ None }
    ensures point { result.point ≡ point }
    ensures level { result.level ≡ 0 }
{
    EventDef {
        pattern: pattern(alloc, name),
        point,
        level: 0,
    }
}

/// `event(a, t1)` and `event(b, t2)`.
fn two_events(alloc: Global) -> Result<List<EventDef>, AllocError>
    ensures symbols { IfOk result (λ events. map (λ v. v.pattern.name.0) events ≡ 1 ∷ 2 ∷ []) }
    ensures points { IfOk result (λ events. map (λ v. v.point.0) events ≡ 3 ∷ 4 ∷ []) }
    ensures levels { IfOk result (AllByRecursion (λ v. v.level ≤ 7)) }
    ensures plain { IfOk result (AllByRecursion (λ v. (v.pattern.terms ≡ []) × (v.pattern.change ≡ None))) }
{
    let mut events = List::new(alloc);
    events.push(event(alloc, Sym(1), Sym(3)))?;
    events.push(event(alloc, Sym(2), Sym(4)))?;
    Ok(events)
}

/// `point z`.
fn one_point(alloc: Global) -> Result<List<Sym>, AllocError>
    ensures { IfOk result (λ free. map (λ s. s.0) free ≡ 5 ∷ []) }
{
    let mut free = List::new(alloc);
    free.push(Sym(5))?;
    Ok(free)
}

fn listed(alloc: Global, bounds: &[Bound]) -> Result<List<Bound>, AllocError>
    ensures { IfOk result (λ list. list ≡ bounds.now) }
{
    let mut list = List::new(alloc);
    for bound in bounds {
        list.push(*bound)?;
    }
    Ok(list)
}

/// Two events and a free point with these bounds and windows, closed at this line.
fn chronicle(
    alloc: Global,
    names: &List<Name>,
    line: u32,
    bounds: &[Bound],
    windows: List<Window>,
) -> Result<Chronicle, AllocError>
    requires symbols { map (λ n. n.name.0) names.now ≡ 1 ∷ 2 ∷ [] }
    requires plain { AllByRecursion (λ n. (n.arity ≡ 0) × (n.kind ≡ Message)) names.now }
    requires few { length bounds.now ≤ 4 }
    requires bounds { IsWithin 3 bounds.now }
    requires windows_few { length windows ≤ 1 }
    requires windows { AllByRecursion (λ w. IsProperBody (map name_of names.now) 0 w.body × IsProperAnchor 2 w.from × IsProperAnchor 2 w.to) (map window_of windows) }
    ensures proper { IfOk result (λ c. IsProperChronicle (map name_of names.now) (chronicle_of c)) }
    ensures quiet { IfOk result (λ c. c.emits ≡ []) }
    ensures printable { (texts : List (List ℕ)) → 5 < length texts → IfOk result (λ c. IsPrintable texts (chronicle_of c)) }
{
    Ok(Chronicle {
        name: Sym(0),
        prompt: false,
        line,
        events: two_events(alloc)?,
        free: one_point(alloc)?,
        bounds: listed(alloc, bounds)?,
        variables: List::new(alloc),
        sets: List::new(alloc),
        differs: List::new(alloc),
        windows,
        emits: List::new(alloc),
    })
}

/// The models of two messages and these chronicles.
fn together(alloc: Global, names: List<Name>, chronicles: List<Chronicle>) -> Models
    requires symbols { map (λ n. n.name.0) names ≡ 1 ∷ 2 ∷ [] }
    requires plain { AllByRecursion (λ n. (n.arity ≡ 0) × (n.kind ≡ Message)) names }
    requires few { length chronicles ≤ 64 }
    requires quiet { AllByRecursion (λ c. c.emits ≡ []) chronicles }
    requires proper { AllByRecursion (IsProperChronicle (map name_of names)) (map chronicle_of chronicles) }
    ensures chronicles { result.chronicles ≡ chronicles }
    ensures proper { AreProper (models_of result) }
{
    Models {
        names,
        derived: List::new(alloc),
        chronicles,
    }
}

/// The models of one chronicle.
fn alone(alloc: Global, names: List<Name>, chronicle: Chronicle) -> Result<Models, AllocError>
    requires symbols { map (λ n. n.name.0) names ≡ 1 ∷ 2 ∷ [] }
    requires plain { AllByRecursion (λ n. (n.arity ≡ 0) × (n.kind ≡ Message)) names }
    requires proper { IsProperChronicle (map name_of names) (chronicle_of chronicle) }
    requires quiet { chronicle.emits ≡ [] }
    ensures chronicles { IfOk result (λ models. models.chronicles ≡ chronicle ∷ []) }
    ensures proper { IfOk result (λ models. AreProper (models_of models)) }
{
    let mut chronicles = List::new(alloc);
    chronicles.push(chronicle)?;
    Ok(together(alloc, names, chronicles))
}

/// The text of the least bounds of the models of one chronicle.
fn text_of(alloc: Global, models: Models, symbols: &Symbols) -> Result<Text, Fail>
    requires proper { AreProper (models_of models) }
    requires printable { AllByRecursion (IsPrintable symbols.now.texts) (map chronicle_of models.chronicles) }
{
    let plans = compile(alloc, models)?;
    Ok(minimal_text(alloc, &plans, symbols)?)
}

/// The symbols `f`, `a`, `b`, `t1`, `t2` and `z`.
fn six_symbols(alloc: Global) -> Result<Symbols, Fail> {
    let mut symbols = Symbols::new(alloc, 6)?;
    let texts: [&[u8]; 6] = [b"f", b"a", b"b", b"t1", b"t2", b"z"];
    for text in texts {
        if is_symbol(text) {
            symbols.intern(text)?;
        }
    }
    Ok(symbols)
}

/// The models of one chronicle of two events and a free point, with these bounds.
fn bounded(alloc: Global, bounds: &[Bound]) -> Result<Models, AllocError>
    requires few { length bounds.now ≤ 4 }
    requires bounds { IsWithin 3 bounds.now }
    ensures proper { IfOk result (λ models. AreProper (models_of models)) }
    ensures printable { (texts : List (List ℕ)) → 5 < length texts → IfOk result (λ models. AllByRecursion (IsPrintable texts) (map chronicle_of models.chronicles)) }
{
    let names = two_messages(alloc)?;
    let one = chronicle(alloc, &names, 8, bounds, List::new(alloc))?;
    alone(alloc, names, one)
}

/// The text of the least bounds of these models.
fn least_bounds(rt: &impl Abort, alloc: Global, bounds: &[Bound]) -> Result<Text, Fail>
    requires few { length bounds.now ≤ 4 }
    requires bounds { IsWithin 3 bounds.now }
{
    let models = bounded(alloc, bounds)?;
    let symbols = six_symbols(alloc)?;
    assert!(rt; symbols.len() == 6);
    text_of(alloc, models, &symbols)
}

#[test]
fn two_events_near_a_free_point(rt: HostRuntime) -> Result<(), Fail> {
    // t1 - z in [0, 3], t2 - z in [0, 3]
    let bounds = [
        at_most(2, 0, 3),
        at_most(0, 2, 0),
        at_most(2, 1, 3),
        at_most(1, 2, 0),
    ];
    let text = least_bounds(&rt, rt.alloc(), &bounds)?;
    assert!(rt;
        text.bytes()
            == b"chronicle f reach 3\n  t2 - t1 in [-3, 3]\n  z - t1 in [-3, 0]\n  z - t2 in [-3, 0]\n  earliest t1=0 t2=0 z=0\n".as_slice()
    );
    Ok(())
}

#[test]
fn two_events_far_from_a_free_point(rt: HostRuntime) -> Result<(), Fail> {
    // t2 - t1 in [-inf, 5]
    let text = least_bounds(&rt, rt.alloc(), &[at_most(0, 1, 5)])?;
    assert!(rt;
        text.bytes()
            == b"chronicle f reach inf\n  t2 - t1 in [-inf, 5]\n  z - t1 in [-inf, inf]\n  z - t2 in [-inf, inf]\n  earliest t1=0 t2=0 z=0\n".as_slice()
    );
    Ok(())
}

/// `noevent(b, (t1 - 7, t1 + 10))`.
fn early_window(alloc: Global, names: &List<Name>) -> Result<List<Window>, AllocError>
    requires symbols { map (λ n. n.name.0) names.now ≡ 1 ∷ 2 ∷ [] }
    requires plain { AllByRecursion (λ n. (n.arity ≡ 0) × (n.kind ≡ Message)) names.now }
    ensures few { IfOk result (λ windows. length windows ≤ 1) }
    ensures proper { IfOk result (λ windows. AllByRecursion (λ w. IsProperBody (map name_of names.now) 0 w.body × IsProperAnchor 2 w.from × IsProperAnchor 2 w.to) (map window_of windows)) }
{
    let mut windows = List::new(alloc);
    windows.push(Window {
        body: Body::NoEvent(pattern(alloc, Sym(2))),
        from: Anchor {
            event: 0,
            offset: -7,
        },
        to: Anchor {
            event: 0,
            offset: 10,
        },
    })?;
    Ok(windows)
}

#[test]
fn a_window_reaches_back(rt: HostRuntime) -> Result<(), Fail> {
    let alloc = rt.alloc();
    // t2 - t1 in [1, 2]
    let bounds = [at_most(0, 1, 2), at_most(1, 0, -1)];
    let names = two_messages(alloc)?;
    let windows = early_window(alloc, &names)?;
    let early = chronicle(alloc, &names, 8, &bounds, windows)?;
    let models = alone(alloc, names, early)?;
    let plans = compile(alloc, models)?;
    assert!(rt; plans.reach == Some(9));
    Ok(())
}

/// A chronicle without dates that meet its bounds, closed at this line.
fn inconsistent(alloc: Global, names: &List<Name>, line: u32) -> Result<Chronicle, AllocError>
    requires symbols { map (λ n. n.name.0) names.now ≡ 1 ∷ 2 ∷ [] }
    requires plain { AllByRecursion (λ n. (n.arity ≡ 0) × (n.kind ≡ Message)) names.now }
    ensures proper { IfOk result (λ c. IsProperChronicle (map name_of names.now) (chronicle_of c)) }
    ensures quiet { IfOk result (λ c. c.emits ≡ []) }
{
    // t2 - t1 in [5, 10], and t2 - t1 in [0, 4]
    let bounds = [
        at_most(0, 1, 10),
        at_most(1, 0, -5),
        at_most(0, 1, 4),
        at_most(1, 0, 0),
    ];
    chronicle(alloc, names, line, &bounds, List::new(alloc))
}

/// A chronicle without bounds, and two inconsistent ones.
fn three_chronicles(alloc: Global, names: &List<Name>) -> Result<List<Chronicle>, AllocError>
    requires symbols { map (λ n. n.name.0) names.now ≡ 1 ∷ 2 ∷ [] }
    requires plain { AllByRecursion (λ n. (n.arity ≡ 0) × (n.kind ≡ Message)) names.now }
    ensures few { IfOk result (λ chronicles. length chronicles ≤ 64) }
    ensures proper { IfOk result (λ chronicles. AllByRecursion (IsProperChronicle (map name_of names.now)) (map chronicle_of chronicles)) }
    ensures quiet { IfOk result (λ chronicles. AllByRecursion (λ c. c.emits ≡ []) chronicles) }
{
    let mut chronicles = List::new(alloc);
    chronicles.push(chronicle(alloc, names, 5, &[], List::new(alloc))?)?;
    chronicles.push(inconsistent(alloc, names, 9)?)?;
    chronicles.push(inconsistent(alloc, names, 14)?)?;
    Ok(chronicles)
}

#[test]
fn the_first_inconsistent_chronicle_is_named(rt: HostRuntime) -> Result<(), Fail> {
    let alloc = rt.alloc();
    let names = two_messages(alloc)?;
    let chronicles = three_chronicles(alloc, &names)?;
    let refused = ModelRefused::At {
        line: 9,
        word: ModelWord::Inconsistent,
    };
    match compile(alloc, together(alloc, names, chronicles)) {
        Ok(_plans) => assert!(rt; false),
        Err(why) => assert!(rt; why == refused),
    }
    Ok(())
}

/// The models of an empty text.
fn no_models(alloc: Global) -> Models
    ensures chronicles { result.chronicles ≡ [] }
    ensures proper { AreProper (models_of result) }
{
    Models {
        names: List::new(alloc),
        derived: List::new(alloc),
        chronicles: List::new(alloc),
    }
}

#[test]
fn no_chronicles_reach_nowhere(rt: HostRuntime) -> Result<(), Fail> {
    let alloc = rt.alloc();
    let plans = compile(alloc, no_models(alloc))?;
    assert!(rt; plans.reach == Some(0));
    Ok(())
}

#[test]
fn no_chronicles_have_no_bounds(rt: HostRuntime) -> Result<(), Fail> {
    let alloc = rt.alloc();
    let symbols = Symbols::new(alloc, 0)?;
    let text = text_of(alloc, no_models(alloc), &symbols)?;
    assert!(rt; text.bytes().is_empty());
    Ok(())
}
