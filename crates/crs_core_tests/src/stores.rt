//! Stores, by the numbers of what they hold and answer.
ghost use Rattle.std.specs.Prelude.{◌≡◌, ◌<◌, ◌≤◌, ◌^◌, []};
ghost use Rattle.crs_history.specs.Histories.{lowest};

use crate::fixtures::{plan, shared};
use crs_base::{Entry, List, Steps};
use crs_history::History;
use crs_model::{Mark, Recognition};
use crs_store::{Coming, Store};
use std::alloc::{AllocError, Global};
use std::marker::Brand;
use std::rc::Rc;
use std::sync::ledger::{Blank, Ledger};
use std::test::Fail;

/// What a store is given or asked, and what it is to answer. It is told of each entry and of each mark
/// with a history of that entry alone, or of none.
#[derive(Clone, Copy)]
enum Step {
    /// An event of this date and name is offered.
    Event(u32, u32),
    /// The same, where the store is told what comes next: an event of the same date and of this name,
    /// if any, and then those from a date on.
    Until(u32, u32, Option<u32>, u32),
    /// A mark of this date: how many recognitions are new at it, and how many instances are held then.
    Mark(u32, usize, usize),
    /// How many instances are held.
    Held(usize),
    /// Whether the instance at this place is lent.
    Lent(usize, bool),
}

/// Offers the entry.
fn offer<L: Ledger>(
    history: &mut History,
    store: &mut Store,
    counter: &mut Steps<L>,
    entry: &Rc<Entry>,
) -> Result<bool, AllocError>
    requires new { history.old ≡ record { entries = []; floor = lowest } }
    requires date { entry.now.value.date < 2 ^ 40 }
{
    history.push(entry.clone()?)?;
    Ok(store.offer(history, entry, counter).is_ok())
}

/// Offers the entry, where these come next, and others from a date on.
fn offer_until<L: Ledger>(
    history: &mut History,
    store: &mut Store,
    counter: &mut Steps<L>,
    entry: &Rc<Entry>,
    ahead: &[Rc<Entry>],
    beyond: u64,
) -> Result<bool, AllocError>
    requires new { history.old ≡ record { entries = []; floor = lowest } }
    requires date { entry.now.value.date < 2 ^ 40 }
    requires beyond { beyond ≤ 2 ^ 42 }
{
    history.push(entry.clone()?)?;
    let coming = Coming {
        until: entry.date,
        ahead,
        beyond,
        behind: false,
    };
    Ok(store.offer_until(history, entry, &coming, counter).is_ok())
}

/// An entry of this date and name, if a name is given.
fn ahead_of(
    alloc: Global,
    arrival: u32,
    date: u32,
    name: Option<u32>,
) -> Result<Vec<Rc<Entry>>, AllocError> {
    let mut ahead = Vec::new(alloc);
    if let Some(name) = name {
        ahead.push(shared(alloc, arrival, date as u64, name)?)?;
    }
    Ok(ahead)
}

/// Whether the first recognition, if there is one, is of chronicle 3 and of this mark.
fn begins_well(answer: &List<Recognition>, mark: Mark) -> bool {
    match answer.get(0) {
        None => true,
        Some(first) => first.chronicle == 3 && first.mark == mark,
    }
}

/// How many recognitions are new at this date, with the store's number and the mark.
fn new_at(history: &History, store: &mut Store, date: u32) -> Option<usize> {
    let mark = Mark::Clock(date as u64);
    match store.advance(history, date as u64, mark) {
        Ok(answer) if begins_well(&answer, mark) => Some(answer.len()),
        _ => None,
    }
}

/// Takes one step, and says whether the store answers as it is to.
fn meets<L: Ledger>(
    alloc: Global,
    history: &mut History,
    store: &mut Store,
    counter: &mut Steps<L>,
    arrival: u32,
    step: &Step,
) -> Result<bool, AllocError>
    requires { history.old ≡ record { entries = []; floor = lowest } }
{
    match *step {
        Step::Event(date, name) => {
            let entry = shared(alloc, arrival, date as u64, name)?;
            offer(history, store, counter, &entry)
        }
        Step::Until(date, name, next, beyond) => {
            let entry = shared(alloc, arrival, date as u64, name)?;
            let ahead = ahead_of(alloc, arrival.wrapping_add(1), date, next)?;
            offer_until(history, store, counter, &entry, &ahead, beyond as u64)
        }
        Step::Mark(date, new, held) => {
            Ok(new_at(history, store, date) == Some(new) && store.held() == held)
        }
        Step::Held(held) => Ok(store.held() == held),
        Step::Lent(place, lent) => Ok(store.instance(place).is_some() == lent),
    }
}

/// The same over a new history.
fn meets_alone<L: Ledger>(
    alloc: Global,
    store: &mut Store,
    counter: &mut Steps<L>,
    arrival: u32,
    step: &Step,
) -> Result<bool, AllocError> {
    let mut history = History::new(alloc);
    meets(alloc, &mut history, store, counter, arrival, step)
}

/// The place of the first step at which the store answers otherwise.
fn first_unmet_by<L: Ledger>(
    alloc: Global,
    store: &mut Store,
    counter: &mut Steps<L>,
    steps: &[Step],
) -> Result<Option<u32>, AllocError> {
    let mut place = 0;
    for step in steps {
        if !meets_alone(alloc, store, counter, place, step)? {
            return Ok(Some(place));
        }
        place = place.wrapping_add(1);
    }
    Ok(None)
}

/// The same of a store and a counter of its own.
fn first_unmet_apart<L: Ledger>(
    blank: Blank,
    alloc: Global,
    mut store: Store,
    steps: &[Step],
) -> Result<Option<u32>, AllocError>
    requires name { blank.name ≡ L.name }
    requires parts { blank.parts ≡ L.parts }
    requires some { 0 < L.parts }
{
    first_unmet_by(alloc, &mut store, &mut Steps::<L>::new(blank), steps)
}

/// The same of a new store of chronicle 3, whose plan has two events of these names, the other from
/// `least` to 5 ticks later.
fn first_unmet(
    alloc: Global,
    one: u32,
    other: u32,
    least: u8,
    steps: &[Step],
) -> Result<Option<u32>, AllocError> {
    let store = Store::new(alloc, plan(alloc, one, other, least)?, 3, false)?;
    first_unmet_apart::<Brand>(Blank::new(1), alloc, store, steps)
}

#[test]
fn holds_what_can_still_be_recognised(rt: HostRuntime) -> Result<(), Fail> {
    let steps = &[
        Step::Mark(0, 0, 1),
        Step::Event(1, 0),
        Step::Event(2, 0),
        Step::Event(4, 1),
        Step::Mark(5, 2, 3),
        Step::Event(6, 1),
        Step::Mark(7, 2, 2),
        Step::Mark(7, 0, 2),
    ];
    assert_eq!(rt; first_unmet(rt.alloc(), 0, 1, 1, steps)?, None);
    Ok(())
}

#[test]
fn gives_no_entry_to_two_events(rt: HostRuntime) -> Result<(), Fail> {
    let steps = &[
        Step::Event(1, 0),
        Step::Mark(2, 0, 2),
        Step::Event(2, 0),
        Step::Mark(3, 1, 3),
    ];
    assert_eq!(rt; first_unmet(rt.alloc(), 0, 0, 0, steps)?, None);
    Ok(())
}

#[test]
fn takes_the_place_of_one_that_is_over(rt: HostRuntime) -> Result<(), Fail> {
    let steps = &[
        Step::Event(1, 0),
        Step::Mark(2, 0, 2),
        Step::Event(3, 7),
        Step::Mark(7, 0, 1),
        Step::Event(8, 0),
        Step::Mark(9, 0, 2),
        Step::Event(9, 1),
        Step::Mark(10, 1, 2),
        Step::Mark(14, 0, 1),
    ];
    assert_eq!(rt; first_unmet(rt.alloc(), 0, 1, 1, steps)?, None);
    Ok(())
}

#[test]
fn holds_no_fork_that_the_next_entries_leave_no_hope(rt: HostRuntime) -> Result<(), Fail> {
    let awaited = &[Step::Until(10, 1, Some(0), 12), Step::Held(2)];
    assert_eq!(rt; first_unmet(rt.alloc(), 0, 1, 0, awaited)?, None);
    let another = &[Step::Until(10, 1, Some(1), 12), Step::Held(1)];
    assert_eq!(rt; first_unmet(rt.alloc(), 0, 1, 0, another)?, None);
    Ok(())
}

#[test]
fn answers_once_what_has_no_place(rt: HostRuntime) -> Result<(), Fail> {
    let placed = &[
        Step::Event(1, 0),
        Step::Event(3, 1),
        Step::Held(3),
        Step::Lent(2, true),
        Step::Mark(5, 1, 2),
        Step::Mark(6, 0, 2),
    ];
    assert_eq!(rt; first_unmet(rt.alloc(), 0, 1, 1, placed)?, None);
    let kept = &[
        Step::Event(1, 0),
        Step::Until(3, 1, None, 3),
        Step::Held(3),
        Step::Lent(2, false),
        Step::Mark(5, 1, 2),
        Step::Mark(6, 0, 2),
    ];
    assert_eq!(rt; first_unmet(rt.alloc(), 0, 1, 1, kept)?, None);
    Ok(())
}
