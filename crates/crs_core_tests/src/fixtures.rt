//! A plan of two events, and entries without arguments.
ghost use Rattle.std.specs.Prelude.{◌≡◌, ◌≤◌, Some, IfOk, pos};
ghost use Rattle.crs_model.specs.Plans.{IsProper};
ghost use Rattle.crs_core_tests.specs.Fixtures.{IsPlain, IsFixture, spaced};

use crs_base::{Entry, List, Sym, SymList, Text};
use crs_model::{Chronicle, EventDef, Pattern, Plan};
use crs_stn::{Bound, Network};
use std::alloc::{AllocError, Global};
use std::rc::Rc;

/// An event of this name and level, without arguments.
pub(crate) fn event(alloc: Global, name: u32, level: u8) -> EventDef
    requires { level ≤ 7 }
    ensures { IsPlain result }
{
    EventDef {
        pattern: Pattern {
            name: Sym(name),
            terms: List::new(alloc),
            change: None,
        },
        point: Sym(name),
        level,
    }
}

/// That the second event comes from `least` to 5 ticks after the first.
fn bounds(alloc: Global, least: u8) -> Result<List<Bound>, AllocError>
    ensures { IfOk result (λ bounds. bounds ≡ spaced least) }
{
    let mut bounds = List::new(alloc);
    bounds.push(Bound {
        from: 0,
        to: 1,
        most: Some(5),
    })?;
    bounds.push(Bound {
        from: 1,
        to: 0,
        most: Some(-(least as i64)),
    })?;
    Ok(bounds)
}

/// The one event, and the other from `least` to 5 ticks later.
fn one_then_other(
    alloc: Global,
    one: EventDef,
    other: EventDef,
    least: u8,
) -> Result<Chronicle, AllocError>
    requires one { IsPlain one }
    requires other { IsPlain other }
    ensures { IfOk result (IsFixture least) }
{
    let mut events = List::new(alloc);
    events.push(one)?;
    events.push(other)?;
    let bounds = bounds(alloc, least)?;
    Ok(Chronicle {
        name: Sym(2),
        prompt: false,
        line: 1,
        events,
        free: List::new(alloc),
        bounds,
        variables: List::new(alloc),
        sets: List::new(alloc),
        differs: List::new(alloc),
        windows: List::new(alloc),
        emits: List::new(alloc),
    })
}

/// A plan of the one event, and the other from `least` to 5 ticks later.
pub(crate) fn plan_of(
    alloc: Global,
    one: EventDef,
    other: EventDef,
    least: u8,
) -> Result<Rc<Plan>, AllocError>
    requires one { IsPlain one }
    requires other { IsPlain other }
    ensures proper { IfOk result (λ r. IsProper r.value) }
    ensures reach { IfOk result (λ r. r.value.reach ≡ Some (pos 5)) }
{
    let chronicle = one_then_other(alloc, one, other, least)?;
    match Network::close(alloc, 2, chronicle.bounds.as_slice()) {
        Ok(network) => Ok(Rc::new(
            alloc,
            Plan {
                chronicle,
                network,
                reach: Some(5),
                lag: Some(0),
            },
        )?),
        Err(_) => Err(AllocError),
    }
}

/// A plan of two events of level 0 and of these names, the other from `least` to 5 ticks later.
pub(crate) fn plan(alloc: Global, one: u32, other: u32, least: u8) -> Result<Rc<Plan>, AllocError>
    ensures proper { IfOk result (λ r. IsProper r.value) }
    ensures reach { IfOk result (λ r. r.value.reach ≡ Some (pos 5)) }
{
    plan_of(alloc, event(alloc, one, 0), event(alloc, other, 0), least)
}

/// An entry of this name, without arguments.
pub(crate) fn entry(alloc: Global, arrival: u32, date: u64, name: u32) -> Result<Entry, AllocError>
    ensures arrival { IfOk result (λ e. e.arrival ≡ arrival) }
    ensures date { IfOk result (λ e. e.date ≡ date) }
{
    Ok(Entry {
        arrival,
        date,
        name: Sym(name),
        args: SymList::from_slice(&[]),
        change: None,
        text: Text::new(alloc, b"")?,
    })
}

/// An entry of this name, without arguments, to be shared.
pub(crate) fn shared(
    alloc: Global,
    arrival: u32,
    date: u64,
    name: u32,
) -> Result<Rc<Entry>, AllocError>
    ensures { IfOk result (λ r. r.value.date ≡ date) }
{
    Ok(Rc::new(alloc, entry(alloc, arrival, date, name)?)?)
}
