ghost use Rattle.std.specs.Prelude.{◌≡◌, ◌≢◌, ◌<◌, ◌≤◌, ◌^◌, ℕ, IfOk, IfSome, IsSomeAnd, IsTrue, ◌++◌, OnOk, pos, ◌≤ℤ◌, ◌+ℤ◌, option_map, false};
ghost use Rattle.std.specs.Option.{option_copied, option_to_list};
ghost use Rattle.crs_base.specs.Seen.{entry_of};
ghost use Rattle.crs_model.specs.Partial.{at, put};
ghost use Rattle.crs_instance.specs.Instances.{seen_entry};
ghost use Rattle.crs_instance.specs.EntryLinks.{partial_of, AreLinked, AreEarly, AreListed, IsLink, seen_entries, known_in};

use crate::span::Span;
use crs_base::{Entry, List};
use crs_model::{Anchor, Binding};
use std::alloc::{AllocError, Global};
use std::rc::Rc;

/// What the bound events' entries tell: the symbols of variables, and the dates that are left to each
/// point. The spans stay a vector: with eight of them held in place a fork makes one allocation less,
/// but to make, move and drop the larger links takes more than that, 4 % of all instructions with one
/// point, where eight points gain 1 %. Two in place take 1 % more with either.
#[derive(Drop)]
pub(crate) struct Known {
    pub(crate) binding: Binding,
    pub(crate) spans: Vec<Span>,
}

/// The bound events with their entries, the last bound one first, each with what they tell up to it.
#[derive(Drop)]
pub(crate) enum Links {
    End {
        known: Known,
    },
    Link {
        known: Known,
        event: u8,
        entry: Rc<Entry>,
        rest: Rc<Links>,
    },
}

/// What all the entries tell.
pub(crate) fn known_of(links: &Links) -> &Known
    ensures { result.now ≡ known_in links.now }
{
    match links {
        Links::End { known } => known,
        Links::Link { known, .. } => known,
    }
}

/// The entry of the event, where it is bound.
pub(crate) fn entry_at(links: &Links, event: u8) -> Option<&Rc<Entry>>
    ensures entry { (n : ℕ) → AreLinked n links.now → seen_entry (option_copied result) ≡ at (partial_of n links.now) event }
    ensures early { AreEarly links.now → IfSome (option_copied result) (λ r. r.value.date < 2 ^ 40) }
{
    let mut here = links;
    while let Links::Link {
        event: bound,
        entry,
        rest,
        ..
    } = here
    {
        if *bound == event {
            return Some(entry);
        }
        here = rest;
    }
    None
}

/// Whether some event is bound to the entry of this arrival number.
pub(crate) fn gives(links: &Links, arrival: u32) -> bool
    ensures present { IsTrue result → (n : ℕ) → AreLinked n links.now → (f : ℕ) × IsSomeAnd (at (partial_of n links.now) f) (λ y. y.arrival ≡ arrival) }
    ensures absent { result ≡ false → (n f : ℕ) → AreLinked n links.now → IfSome (at (partial_of n links.now) f) (λ y. y.arrival ≢ arrival) }
{
    let mut here = links;
    while let Links::Link { entry, rest, .. } = here {
        if entry.arrival == arrival {
            return true;
        }
        here = rest;
    }
    false
}

/// The date that is the offset after the date of the event. None where the event is unbound.
pub(crate) fn date_of(links: &Links, anchor: Anchor) -> Option<i64>
    requires early { AreEarly links.now }
    requires not_large { anchor.offset ≤ℤ pos (2 ^ 40) }
    requires not_small { pos 0 ≤ℤ (anchor.offset +ℤ pos (2 ^ 40)) }
    ensures { (n : ℕ) → AreLinked n links.now → result ≡ option_map (λ x. pos x.date +ℤ anchor.offset) (at (partial_of n links.now) anchor.event) }
{
    match entry_at(links, anchor.event) {
        None => None,
        Some(entry) => Some(entry.date as i64 + anchor.offset),
    }
}

/// The entries of all events, in event order, where each is bound.
pub(crate) fn listed(alloc: Global, links: &Links, count: u8) -> Result<List<Rc<Entry>>, AllocError>
    ensures { IfOk result (λ es. AreLinked count links.now → AreListed (partial_of count links.now) es) }
{
    let mut all = List::new(alloc);
    for event in 0..count {
        push_some(&mut all, entry_at(links, event))?;
    }
    Ok(all)
}

/// The entry of the event `here`, where the event is bound to this entry too.
#[inline(always)]
fn entry_with<'a>(
    links: &'a Links,
    here: u8,
    event: u8,
    entry: &'a Rc<Entry>,
) -> Option<&'a Rc<Entry>>
    ensures { (n : ℕ) → here < n → AreLinked n links.now → seen_entry (option_copied result) ≡ at (put (partial_of n links.now) event (entry_of entry.now.value)) here }
{
    if here == event {
        Some(entry)
    } else {
        entry_at(links, here)
    }
}

/// The entries of all events, in event order, where the event is bound to this entry too.
pub(crate) fn listed_with(
    alloc: Global,
    links: &Links,
    count: u8,
    event: u8,
    entry: &Rc<Entry>,
) -> Result<List<Rc<Entry>>, AllocError>
    ensures { IfOk result (λ es. AreLinked count links.now → AreListed (put (partial_of count links.now) event (entry_of entry.now.value)) es) }
{
    let mut all = List::new(alloc);
    for here in 0..count {
        push_some(&mut all, entry_with(links, here, event, entry))?;
    }
    Ok(all)
}

fn push_some(entries: &mut List<Rc<Entry>>, entry: Option<&Rc<Entry>>) -> Result<(), AllocError>
    ensures { OnOk result (seen_entries entries.new ≡ seen_entries entries.old ++ option_to_list (seen_entry (option_copied entry.entry))) }
{
    match entry {
        None => Ok(()),
        Some(entry) => {
            entries.push(entry.clone()?)?;
            Ok(())
        }
    }
}

/// The links and one more.
pub(crate) fn linked(
    alloc: Global,
    links: &Rc<Links>,
    event: u8,
    entry: Rc<Entry>,
    known: Known,
) -> Result<Rc<Links>, AllocError>
    ensures { IfOk result (λ r. (n : ℕ) → IsLink n links.now.value event entry.value known r.value) }
{
    let rest = links.clone()?;
    Ok(Rc::new(
        alloc,
        Links::Link {
            known,
            event,
            entry,
            rest,
        },
    )?)
}
