//! Engines: answers in order, refusals, the end and the delay.
ghost use Rattle.std.specs.Prelude.{◌≡◌, ◌<◌, ◌≤◌, length, IsTrue, IfOk};
ghost use Rattle.std.specs.List.{AllByRecursion};
ghost use Rattle.crs_base.specs.Symbols.{is_symbol};
ghost use Rattle.crs_model.specs.Plans.{IsProper};
ghost use Rattle.crs_model.specs.Reach.{IsReachOfAll};
ghost use Rattle.crs_engine.specs.Engines.{reaches_of};

use crate::fixtures::{entry, plan};
use crs_base::{List, Steps, Symbols};
use crs_engine::{Engine, Refused, ranks_of};
use crs_model::{Kind, Name, Plans, Recognition};
use std::alloc::{AllocError, Global};
use std::marker::Brand;
use std::rc::Rc;
use std::sync::ledger::{Blank, Ledger};
use std::test::Fail;

/// The names of the two events.
const A: u32 = 0;

const B: u32 = 1;

/// What an engine is asked, and what it is to answer.
#[derive(Clone, Copy)]
enum Step {
    /// Entries may come this many ticks late.
    Delay(u32),
    /// What comes of an event of this date and name.
    Event(u32, u32, Result<(), Refused>),
    /// What would come of an event of this date.
    Date(u32, Result<(), Refused>),
    /// How many recognitions are new where the clock moves on to this date.
    Clock(u32, Result<usize, Refused>),
    /// How many recognitions are new where all entries are settled.
    Finish(Result<usize, Refused>),
    /// The recognition at this place of the last answer: its chronicle and the dates of its events.
    Told(usize, u32, u64, u64),
    /// How many partial instances are held.
    Kept(u64),
    /// How many entries the history has.
    History(usize),
    /// Whether as many entries were accepted as may be.
    Full(bool),
    /// The horizon.
    Horizon(u64),
    /// How many plans there are.
    Plans(usize),
}

/// Two equal plans.
fn plans(alloc: Global) -> Result<Plans, AllocError>
    ensures proper { IfOk result (λ p. AllByRecursion (λ r. IsProper r.value) p.plans) }
    ensures few { IfOk result (λ p. length p.plans ≤ 64) }
    ensures reach { IfOk result (λ p. IsReachOfAll (reaches_of p) p.reach) }
{
    let mut plans = List::new(alloc);
    plans.push(plan(alloc, A, B, 1)?)?;
    plans.push(plan(alloc, A, B, 1)?)?;
    Ok(Plans {
        names: List::new(alloc),
        derived: List::new(alloc),
        plans,
        reach: Some(5),
    })
}

/// Takes in the next entry.
fn feed(
    engine: &mut Engine,
    alloc: Global,
    date: u32,
    name: u32,
) -> Result<Result<(), Refused>, AllocError> {
    let next = entry(alloc, engine.accepted(), date as u64, name)?;
    Ok(engine.accept(next))
}

/// Has the new recognitions as the last answer, and tells how many they are.
fn count_new(
    new: Result<List<Recognition>, Refused>,
    answer: &mut List<Recognition>,
) -> Result<usize, Refused> {
    *answer = new?;
    Ok(answer.len())
}

/// Whether the answer has at this place a recognition of the chronicle, from one date to another.
fn tells(answer: &List<Recognition>, place: usize, chronicle: u32, from: u64, to: u64) -> bool {
    match answer.get(place) {
        None => false,
        Some(told) => {
            told.chronicle == chronicle
                && told.entries.get(0).is_some_and(|e| e.date == from)
                && told.entries.get(1).is_some_and(|e| e.date == to)
        }
    }
}

/// Takes one step, and says whether the engine answers as it is to.
fn meets<L: Ledger>(
    alloc: Global,
    engine: &mut Engine,
    answer: &mut List<Recognition>,
    counter: &mut Steps<L>,
    step: &Step,
) -> Result<bool, AllocError> {
    match *step {
        Step::Delay(d) => {
            engine.set_delay(d as u64);
            Ok(true)
        }
        Step::Event(date, name, came) => Ok(feed(engine, alloc, date, name)? == came),
        Step::Date(date, came) => Ok(engine.test_date(date as u64) == came),
        Step::Clock(t, count) => {
            let new = engine.clock(t as u64, counter);
            Ok(count_new(new, answer) == count)
        }
        Step::Finish(count) => {
            let new = engine.finish(counter);
            Ok(count_new(new, answer) == count)
        }
        Step::Told(place, chronicle, from, to) => Ok(tells(answer, place, chronicle, from, to)),
        Step::Kept(count) => Ok(engine.kept() == count),
        Step::History(count) => Ok(engine.history().len() == count),
        Step::Full(full) => Ok(engine.is_full() == full),
        Step::Horizon(date) => Ok(engine.horizon() == date),
        Step::Plans(count) => Ok(engine.plans().plans.len() == count),
    }
}

/// The place of the first step at which the engine answers otherwise.
fn first_unmet_by<L: Ledger>(
    alloc: Global,
    engine: &mut Engine,
    counter: &mut Steps<L>,
    steps: &[Step],
) -> Result<Option<usize>, AllocError> {
    let mut answer = List::new(alloc);
    for (place, step) in steps.iter().enumerate() {
        if !meets(alloc, engine, &mut answer, counter, step)? {
            return Ok(Some(place));
        }
    }
    Ok(None)
}

/// The same of an engine and a counter of its own.
fn first_unmet_apart<L: Ledger>(
    blank: Blank,
    alloc: Global,
    mut engine: Engine,
    steps: &[Step],
) -> Result<Option<usize>, AllocError>
    requires name { blank.name ≡ L.name }
    requires parts { blank.parts ≡ L.parts }
    requires some { 0 < L.parts }
{
    first_unmet_by(alloc, &mut engine, &mut Steps::<L>::new(blank), steps)
}

/// The same of a new engine of two equal plans, which accepts at most `limit` entries.
fn first_unmet(alloc: Global, limit: u32, steps: &[Step]) -> Result<Option<usize>, AllocError> {
    let engine = Engine::new(alloc, plans(alloc)?, false, limit)?;
    first_unmet_apart::<Brand>(Blank::new(1), alloc, engine, steps)
}

#[test]
fn recognises_in_order(rt: HostRuntime) -> Result<(), Fail> {
    let steps = &[
        Step::Event(4, B, Ok(())),
        Step::Event(2, A, Ok(())),
        Step::Event(1, A, Ok(())),
        Step::Kept(2),
        Step::Clock(5, Ok(4)),
        Step::Told(0, 0, 1, 4),
        Step::Told(1, 0, 2, 4),
        Step::Told(2, 1, 1, 4),
        Step::Told(3, 1, 2, 4),
        Step::Kept(6),
        Step::History(3),
        // b at 6: a at 1 and 2 wait no longer than 6 and 7
        Step::Event(6, B, Ok(())),
        Step::Kept(6),
        Step::Clock(7, Ok(4)),
        Step::Told(0, 0, 1, 6),
        Step::Told(1, 0, 2, 6),
        Step::Kept(4),
        // a at 1 lies further back than the reach
        Step::History(3),
    ];
    assert_eq!(rt; first_unmet(rt.alloc(), 9, steps)?, None);
    Ok(())
}

#[test]
fn the_end_comes_once(rt: HostRuntime) -> Result<(), Fail> {
    let steps = &[
        Step::Event(4, B, Ok(())),
        Step::Event(2, A, Ok(())),
        Step::Event(1, A, Ok(())),
        Step::Finish(Ok(4)),
        Step::Finish(Ok(0)),
        Step::Kept(2),
    ];
    assert_eq!(rt; first_unmet(rt.alloc(), 9, steps)?, None);
    Ok(())
}

/// What comes of an event at 4 once the horizon is at 5.
const LATE: Refused = Refused::Late {
    date: 4,
    horizon: 5,
};

#[test]
fn refuses_what_is_late_back_or_too_much(rt: HostRuntime) -> Result<(), Fail> {
    let steps = &[
        Step::Event(4, B, Ok(())),
        Step::Event(2, A, Ok(())),
        Step::Event(1, A, Ok(())),
        Step::Clock(5, Ok(4)),
        Step::Date(4, Err(LATE)),
        Step::Event(4, A, Err(LATE)),
        Step::Event(5, A, Ok(())),
        Step::Full(true),
        Step::Event(6, A, Err(Refused::Full { limit: 4 })),
        Step::Clock(4, Err(Refused::Back { t: 4, last: 5 })),
    ];
    assert_eq!(rt; first_unmet(rt.alloc(), 4, steps)?, None);
    Ok(())
}

#[test]
fn the_horizon_lags_by_the_delay(rt: HostRuntime) -> Result<(), Fail> {
    let steps = &[
        Step::Delay(3),
        Step::Clock(2, Ok(0)),
        Step::Horizon(0),
        Step::Clock(7, Ok(0)),
        Step::Horizon(4),
        Step::Plans(2),
    ];
    assert_eq!(rt; first_unmet(rt.alloc(), 4, steps)?, None);
    Ok(())
}

/// A plan of two events, the other up to 5 ticks later, or at the same date.
fn close_plans(alloc: Global) -> Result<Plans, AllocError>
    ensures proper { IfOk result (λ p. AllByRecursion (λ r. IsProper r.value) p.plans) }
    ensures few { IfOk result (λ p. length p.plans ≤ 64) }
    ensures reach { IfOk result (λ p. IsReachOfAll (reaches_of p) p.reach) }
{
    let mut plans = List::new(alloc);
    plans.push(plan(alloc, A, B, 0)?)?;
    Ok(Plans {
        names: List::new(alloc),
        derived: List::new(alloc),
        plans,
        reach: Some(5),
    })
}

/// The ranks of the two names.
fn ranks_with(alloc: Global, one: u32, other: u32) -> Result<Rc<Vec<u32>>, AllocError> {
    let mut ranks = Vec::new(alloc);
    ranks.push(one)?;
    ranks.push(other)?;
    Ok(Rc::new(alloc, ranks)?)
}

/// The place of the first step that isn't met where the names have these ranks.
fn first_unmet_with(
    alloc: Global,
    one: u32,
    other: u32,
    steps: &[Step],
) -> Result<Option<usize>, AllocError> {
    let ranks = ranks_with(alloc, one, other)?;
    let engine = Engine::with_ranks(alloc, close_plans(alloc)?, false, 9, ranks)?;
    first_unmet_apart::<Brand>(Blank::new(1), alloc, engine, steps)
}

#[test]
fn ranks_decide_no_answer(rt: HostRuntime) -> Result<(), Fail> {
    let alloc = rt.alloc();
    // the other event comes first at 4, and last at 6
    let steps = &[
        Step::Event(4, B, Ok(())),
        Step::Event(4, A, Ok(())),
        Step::Event(6, A, Ok(())),
        Step::Event(6, B, Ok(())),
        Step::Clock(20, Ok(3)),
    ];
    assert_eq!(rt; first_unmet_with(alloc, 0, 0, steps)?, None);
    assert_eq!(rt; first_unmet_with(alloc, 1, 2, steps)?, None);
    assert_eq!(rt; first_unmet_with(alloc, 2, 1, steps)?, None);
    Ok(())
}

/// Declares the next name, whose text is this.
fn declare(
    names: &mut List<Name>,
    symbols: &mut Symbols,
    text: &[u8],
    arity: u8,
    kind: Kind,
) -> Result<(), Fail>
    requires { IsTrue (is_symbol text.now) }
{
    let name = symbols.intern(text)?;
    names.push(Name { name, arity, kind })?;
    Ok(())
}

/// The ranks of a message with an argument, and of a message and an attribute without.
fn ranks_of_three(
    alloc: Global,
    names: &mut List<Name>,
    symbols: &mut Symbols,
) -> Result<Rc<Vec<u32>>, Fail> {
    declare(names, symbols, b"n", 1, Kind::Message)?;
    declare(names, symbols, b"n1", 0, Kind::Message)?;
    declare(names, symbols, b"n2", 0, Kind::Attribute { values: None })?;
    Ok(ranks_of(alloc, names.as_slice(), &[], symbols)?)
}

/// The same with a table of its own.
fn ranks_apart(alloc: Global) -> Result<Rc<Vec<u32>>, Fail> {
    let mut names = List::new(alloc);
    let mut symbols = Symbols::new(alloc, 9)?;
    ranks_of_three(alloc, &mut names, &mut symbols)
}

#[test]
fn names_are_ranked_by_the_texts_of_their_entries(rt: HostRuntime) -> Result<(), Fail> {
    let ranks = ranks_apart(rt.alloc())?;
    // n1, then n2:(..), then n[..]
    assert!(rt; ranks.as_slice() == [3, 1, 2].as_slice());
    Ok(())
}
