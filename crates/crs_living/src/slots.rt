//! Instances in places.
ghost use Rattle.std.specs.Prelude.{◌≡◌, ◌≢◌, ◌<◌, ◌^◌, [], length, IfOk, IfSome, IfNone, slice_get, slice_index_or};
ghost use Rattle.std.specs.Option.{option_copied};
ghost use Rattle.crs_base.specs.Seen.{entry_of};
ghost use Rattle.crs_instance.specs.Instances.{IsOf};
ghost use Rattle.crs_living.specs.Judgings.{IsPassing, IsAbleBy, IsPassedBy, IsFollowedBy};
ghost use Rattle.crs_living.specs.Slots.{slot_at, handle_at, members, Becomes, WentOrStayed, Opens, Puts, Removes, Renumbers, Changes};

use crate::judging::Passing;
use crate::windows::{follow, go_on_to, is_able};
use crs_agenda::Handle;
use crs_base::Entry;
use crs_instance::Instance;
use std::alloc::{AllocError, Global};
use std::marker::Model;

/// Instances in places. A place gets another serial number where its instance goes, so that the
/// handle of that can be told from the handle of what comes there next.
#[derive(Drop)]
pub struct Slots {
    slots: Vec<Option<Instance>>,
    serials: Vec<u32>,
    /// Places that may be empty, to be taken next.
    spare: Vec<u32>,
    count: usize,
}

impl Model for Slots {
    ghost use Rattle.crs_living.specs.Slots.{SlotsState, IsSlots};

    ghost Value = { SlotsState };

    ghost view = { λ s. record { slots = s.slots.items; serials = s.serials.items } };

    ghost invariant = { λ s. IsSlots (record { slots = s.slots.items; serials = s.serials.items }) s.count };
}

/// Gives the place another serial number, and notes that it is free.
fn raise(serials: &mut Vec<u32>, spare: &mut Vec<u32>, place: u32)
    requires { place < length serials.old.items }
    ensures len { length serials.new.items ≡ length serials.old.items }
    ensures others { (q : _) → q ≢ place → slice_index_or serials.new.items q 0 ≡ slice_index_or serials.old.items q 0 }
    ensures raised { slice_index_or serials.new.items place 0 ≢ slice_index_or serials.old.items place 0 }
{
    let serial = serials[place as usize];
    serials[place as usize] = serial.wrapping_add(1);
    let _ = spare.push(place);
}

/// Settles the entry in the windows of the instance, if there is one, and passes the dates up to
/// the entry's. Whether it went, as it can't be recognised any more then.
fn follow_slot(slot: &mut Option<Instance>, passing: &Passing<'_>, entry: &Entry) -> bool
    requires passing { IsPassing passing.now }
    requires of { IfSome slot.old (IsOf passing.now.judging.plan.now) }
    requires at { passing.now.judging.h ≡ entry.now.date }
    ensures became { Becomes (IsFollowedBy passing.now (entry_of entry.now)) (IsAbleBy passing.now.judging) slot.old slot.new }
    ensures gone { WentOrStayed slot.old slot.new result }
{
    let Some(instance) = slot else {
        return false;
    };
    follow(passing, instance, entry);
    if is_able(&passing.judging, instance) {
        return false;
    }
    *slot = None;
    true
}

/// Passes the dates in the windows of the instance, if there is one. Whether it went, as
/// it can't be recognised any more then.
fn pass_slot(slot: &mut Option<Instance>, passing: &Passing<'_>) -> bool
    requires passing { IsPassing passing.now }
    requires of { IfSome slot.old (IsOf passing.now.judging.plan.now) }
    ensures became { Becomes (IsPassedBy passing.now) (IsAbleBy passing.now.judging) slot.old slot.new }
    ensures gone { WentOrStayed slot.old slot.new result }
{
    let Some(instance) = slot else {
        return false;
    };
    go_on_to(passing, instance);
    if is_able(&passing.judging, instance) {
        return false;
    }
    *slot = None;
    true
}

/// The instance of this number, from 0, of those that are there.
fn nth_of(slots: &[Option<Instance>], n: usize) -> Option<&Instance>
    ensures { option_copied result ≡ slice_get (members slots.now) n }
{
    let mut left = n;
    for slot in slots {
        if let Some(instance) = slot {
            if left == 0 {
                return Some(instance);
            }
            left -= 1;
        }
    }
    None
}

impl Slots {
    /// No place has an instance.
    pub fn new(alloc: Global) -> Slots
        ensures { result.slots ≡ [] }
    {
        Slots {
            slots: Vec::new(alloc),
            serials: Vec::new(alloc),
            spare: Vec::new(alloc),
            count: 0,
        }
    }

    /// How many instances there are.
    pub fn len(&self) -> usize
        ensures count { result ≡ length (members self.now.slots) }
        ensures small { result < 2 ^ 63 }
    {
        self.count
    }

    /// How many places there are.
    pub fn places(&self) -> usize
        ensures { result ≡ length self.now.slots }
    {
        self.slots.len()
    }

    /// The serial numbers of all places.
    pub fn serials(&self) -> &[u32]
        ensures all { result.now ≡ self.now.serials }
        ensures len { length self.now.serials ≡ length self.now.slots }
    {
        self.serials.as_slice()
    }

    /// The handle of what stands in the place.
    pub fn handle(&self, place: u32) -> Handle
        requires { place < length self.now.slots }
        ensures { result ≡ handle_at self.now place }
    {
        Handle {
            place,
            serial: self.serials[place as usize],
        }
    }

    /// What stands in the place, if something does.
    pub fn get(&self, place: u32) -> Option<&Instance>
        ensures { option_copied result ≡ slot_at self.now place }
    {
        match self.slots.as_slice().get(place as usize) {
            None => None,
            Some(slot) => slot.as_ref(),
        }
    }

    /// The instance of this number, from 0 in the order of places. None exactly where there are no
    /// more than that.
    pub fn nth(&self, n: usize) -> Option<&Instance>
        ensures { option_copied result ≡ slice_get (members self.now.slots) n }
    {
        nth_of(self.slots.as_slice(), n)
    }

    /// An empty place from those that were given free, where there is one.
    fn spare_place(&mut self) -> Option<u32>
        ensures some { IfSome result (λ p. Opens self.old self.new p) }
        ensures none { IfNone result (self.new ≡ self.old) }
    {
        let place = self.spare.pop()?;
        if (place as usize) < self.slots.len() && self.slots[place as usize].is_none() {
            Some(place)
        } else {
            None
        }
    }

    /// A new empty place behind the others.
    fn open_place(&mut self) -> Result<u32, AllocError>
        ensures { IfOk result (λ p. Opens self.old self.new p) }
    {
        let place = self.slots.len();
        if place >= u32::MAX as usize {
            return Err(AllocError);
        }
        self.serials.push(0)?;
        if self.slots.push(None).is_err() {
            let _ = self.serials.pop();
            return Err(AllocError);
        }
        Ok(place as u32)
    }

    /// An empty place.
    fn empty_place(&mut self) -> Result<u32, AllocError>
        ensures { IfOk result (λ p. Opens self.old self.new p) }
    {
        match self.spare_place() {
            Some(place) => Ok(place),
            None => self.open_place(),
        }
    }

    /// Puts the instance into an empty place.
    pub fn put(&mut self, instance: Instance) -> Result<u32, AllocError>
        ensures { IfOk result (λ p. Puts self.old self.new p instance) }
    {
        let place = self.empty_place()?;
        self.slots[place as usize] = Some(instance);
        self.count += 1;
        Ok(place)
    }

    /// Settles the entry in the windows of what stands in the place, and passes the dates up to
    /// its date. What can't be recognised any more then goes.
    pub(crate) fn follow_at(&mut self, passing: &Passing<'_>, place: u32, entry: &Entry)
        requires passing { IsPassing passing.now }
        requires of { IfSome (slot_at self.old place) (IsOf passing.now.judging.plan.now) }
        requires at { passing.now.judging.h ≡ entry.now.date }
        ensures { Changes (IsFollowedBy passing.now (entry_of entry.now)) (IsAbleBy passing.now.judging) self.old self.new place }
    {
        let at = place as usize;
        if at >= self.slots.len() {
            return;
        }
        if follow_slot(&mut self.slots[at], passing, entry) {
            self.count -= 1;
            raise(&mut self.serials, &mut self.spare, place);
        }
    }

    /// Passes the dates in the windows of what stands in the place. What can't be recognised any more
    /// then goes.
    pub(crate) fn pass_at(&mut self, passing: &Passing<'_>, place: u32)
        requires passing { IsPassing passing.now }
        requires of { IfSome (slot_at self.old place) (IsOf passing.now.judging.plan.now) }
        ensures { Changes (IsPassedBy passing.now) (IsAbleBy passing.now.judging) self.old self.new place }
    {
        let at = place as usize;
        if at >= self.slots.len() {
            return;
        }
        if pass_slot(&mut self.slots[at], passing) {
            self.count -= 1;
            raise(&mut self.serials, &mut self.spare, place);
        }
    }

    /// Gives what stands in the place another handle: what waits by the one it had is stale.
    pub fn renew(&mut self, place: u32)
        ensures { Renumbers self.old self.new place }
    {
        let at = place as usize;
        if at >= self.serials.len() {
            return;
        }
        self.serials[at] = self.serials[at].wrapping_add(1);
    }

    /// Takes the instance out of its place, which becomes free.
    pub fn remove(&mut self, place: u32)
        ensures { Removes self.old self.new place }
    {
        let at = place as usize;
        if at >= self.slots.len() {
            return;
        }
        if self.slots[at].is_some() {
            self.slots[at] = None;
            self.count -= 1;
            raise(&mut self.serials, &mut self.spare, place);
        }
    }
}
