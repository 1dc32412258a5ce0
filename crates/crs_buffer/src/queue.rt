//! Entries in a set, and behind all of them those of a queue.
ghost use Rattle.std.specs.Prelude.{true, filter, Some, ◌≡◌, ◌≤◌, ◌<◌, ◌-◌, ◌++◌, [], ◌∷◌, length, drop, take, OnOk, OnErr, IfSome, IsNone, ◌↔◌, slice_get, option_copied, option_to_list};
ghost use Rattle.std.specs.List.{AllByRecursion, insert};
ghost use Rattle.std.specs.List.Sorted.{IsStrictlySortedBy};
ghost use Rattle.std.specs.BTreeSet.{insert_key};
ghost use Rattle.std.specs.declared.cmp.Ordering.TheVariants.{Less, Equal, Greater};
ghost use Rattle.crs_buffer.specs.HeldOrder.{held_cmp};
ghost use Rattle.crs_buffer.specs.Queues.{ComesAfter, ComesBefore, IsTaken, arrived_otherwise};

use crate::held::Held;
use std::alloc::AllocError;
use std::cmp::Ordering;
use std::collections::{BTreeSet, VecDeque};

/// How far from the end of the queue an entry may be put in.
const NEAR: usize = 16;

/// Whether the entry comes before the one at a place of the queue.
#[inline(always)]
fn is_before(held: &Held, queue: &VecDeque<Held>, place: usize) -> bool
    requires { place < length queue.now.items }
    ensures { result ≡ true → (q : _) → slice_get queue.now.items place ≡ Some q → held_cmp held.now q ≡ Less }
{
    match queue.get(place) {
        Some(other) => held.cmp(other).is_lt(),
        None => false,
    }
}

/// A place of the queue from which on all come after the entry: the first such, or one that is
/// `NEAR` from the end.
#[inline(always)]
pub(crate) fn place_of(queue: &VecDeque<Held>, held: &Held) -> usize
    ensures within { result ≤ length queue.now.items }
    ensures after { ComesBefore held.now (drop result queue.now.items) }
{
    let mut place = queue.len();
    let mut left = NEAR;
    while left > 0 && place > 0 {
        if !is_before(held, queue, place - 1) {
            return place;
        }
        place -= 1;
        left -= 1;
    }
    place
}

/// The order of the entry to the one that comes before the place of the queue. Greater where there
/// is none.
#[inline(always)]
pub(crate) fn compare_before(
    set: &BTreeSet<Held>,
    queue: &VecDeque<Held>,
    place: usize,
    held: &Held,
) -> Ordering
    requires sorted { IsStrictlySortedBy held_cmp (set.now.keys ++ queue.now.items) }
    requires within { place ≤ length queue.now.items }
    ensures greater { result ≡ Greater → ComesAfter held.now (set.now.keys ++ take place queue.now.items) }
    ensures equal { result ≡ Equal → IsTaken held.now (set.now.keys ++ queue.now.items) }
{
    if place > 0 {
        return match queue.get(place - 1) {
            Some(other) => held.cmp(other),
            None => Ordering::Greater,
        };
    }
    match set.last() {
        Some(other) => held.cmp(other),
        None => Ordering::Greater,
    }
}

/// Inserts the entry into the queue. Two of five entries of a log that is nearly sorted come last, and to
/// push takes a third of what an insertion does.
#[inline(always)]
fn insert_at(queue: &mut VecDeque<Held>, place: usize, held: Held) -> Result<(), AllocError>
    requires within { place ≤ length queue.old.items }
    ensures ok { OnOk result (queue.new.items ≡ insert queue.old.items place held) }
    ensures err { OnErr result (queue.new.items ≡ queue.old.items) }
{
    if place == queue.len() {
        let Ok(()) = queue.push_back(held) else {
            return Err(AllocError);
        };
        return Ok(());
    }
    let Ok(()) = queue.insert(place, held) else {
        return Err(AllocError);
    };
    Ok(())
}

/// Puts the entry in at a place of the queue, where it comes behind all before that and before all
/// behind it.
#[inline(always)]
pub(crate) fn put_at(
    set: &mut BTreeSet<Held>,
    queue: &mut VecDeque<Held>,
    place: usize,
    held: Held,
) -> Result<(), AllocError>
    requires within { place ≤ length queue.old.items }
    requires behind { ComesAfter held (set.old.keys ++ take place queue.old.items) }
    requires before { ComesBefore held (drop place queue.old.items) }
    ensures ok { OnOk result (set.new.keys ++ queue.new.items ≡ insert_key held_cmp (set.old.keys ++ queue.old.items) held) }
    ensures err { OnErr result (set.new.keys ++ queue.new.items ≡ set.old.keys ++ queue.old.items) }
{
    insert_at(queue, place, held)
}

/// Moves the first entry of the queue into the set.
fn move_first(set: &mut BTreeSet<Held>, queue: &mut VecDeque<Held>) -> Result<(), AllocError>
    requires sorted { IsStrictlySortedBy held_cmp (set.old.keys ++ queue.old.items) }
    ensures same { set.new.keys ++ queue.new.items ≡ set.old.keys ++ queue.old.items }
    ensures less { OnOk result (length queue.new.items ≡ length queue.old.items - 1) }
{
    let Some(first) = queue.pop_front() else {
        return Ok(());
    };
    match set.insert(first) {
        Ok(_) => Ok(()),
        Err(failed) => {
            queue.push_front_reserved(failed.value);
            Err(AllocError)
        }
    }
}

/// Moves the queue into the set.
fn spill(set: &mut BTreeSet<Held>, queue: &mut VecDeque<Held>) -> Result<(), AllocError>
    requires sorted { IsStrictlySortedBy held_cmp (set.old.keys ++ queue.old.items) }
    ensures same { set.new.keys ++ queue.new.items ≡ set.old.keys ++ queue.old.items }
    ensures empty { OnOk result (queue.new.items ≡ []) }
{
    while queue.len() > 0 {
        move_first(set, queue)?;
    }
    Ok(())
}

/// Moves the queue into the set, if the place isn't its first.
fn spill_past(
    set: &mut BTreeSet<Held>,
    queue: &mut VecDeque<Held>,
    place: usize,
    held: &Held,
) -> Result<(), AllocError>
    requires sorted { IsStrictlySortedBy held_cmp (set.old.keys ++ queue.old.items) }
    requires before { ComesBefore held.now (drop place queue.old.items) }
    ensures same { set.new.keys ++ queue.new.items ≡ set.old.keys ++ queue.old.items }
    ensures before { OnOk result (ComesBefore held.now queue.new.items) }
{
    if place == 0 {
        return Ok(());
    }
    spill(set, queue)
}

/// Puts the entry into the set. It comes before all of the queue from the place on, and where that
/// isn't the first one the queue is moved into the set.
pub(crate) fn put_before(
    set: &mut BTreeSet<Held>,
    queue: &mut VecDeque<Held>,
    place: usize,
    held: Held,
) -> Result<(), AllocError>
    requires sorted { IsStrictlySortedBy held_cmp (set.old.keys ++ queue.old.items) }
    requires before { ComesBefore held (drop place queue.old.items) }
    ensures ok { OnOk result (set.new.keys ++ queue.new.items ≡ insert_key held_cmp (set.old.keys ++ queue.old.items) held) }
    ensures err { OnErr result (set.new.keys ++ queue.new.items ≡ set.old.keys ++ queue.old.items) }
{
    spill_past(set, queue, place, &held)?;
    let Ok(_) = set.insert(held) else {
        return Err(AllocError);
    };
    Ok(())
}

/// The first entry of all.
pub(crate) fn first_of<'a>(set: &'a BTreeSet<Held>, queue: &'a VecDeque<Held>) -> Option<&'a Held>
    ensures { option_copied result ≡ slice_get (set.now.keys ++ queue.now.items) 0 }
{
    match set.first() {
        Some(held) => Some(held),
        None => queue.front(),
    }
}

/// Takes the first entry of all out.
pub(crate) fn take_first(set: &mut BTreeSet<Held>, queue: &mut VecDeque<Held>) -> Option<Held>
    ensures taken { set.old.keys ++ queue.old.items ≡ option_to_list result ++ set.new.keys ++ queue.new.items }
    ensures none { IsNone result → set.old.keys ++ queue.old.items ≡ [] }
{
    match set.pop_first() {
        Some(held) => Some(held),
        None => queue.pop_front(),
    }
}

/// Drops those with this arrival number from the set.
fn drop_from_set(set: &mut BTreeSet<Held>, arrival: u32)
    ensures { set.new.keys ≡ filter (arrived_otherwise arrival) set.old.keys }
{
    set.retain(|held| held.entry.arrival != arrival);
}

/// Drops those with this arrival number from the queue.
fn drop_from_queue(queue: &mut VecDeque<Held>, arrival: u32)
    ensures { queue.new.items ≡ filter (arrived_otherwise arrival) queue.old.items }
{
    queue.retain(|held| held.entry.arrival != arrival);
}

/// Drops those with this arrival number, in a walk over all.
pub(crate) fn drop_arrival(set: &mut BTreeSet<Held>, queue: &mut VecDeque<Held>, arrival: u32)
    ensures { set.new.keys ++ queue.new.items ≡ filter (arrived_otherwise arrival) (set.old.keys ++ queue.old.items) }
{
    drop_from_set(set, arrival);
    drop_from_queue(queue, arrival);
}
