// The entries that a claim cites, and their binding.
ghost use Rattle.std.specs.Prelude.{◌≡◌, ◌≢◌, ◌<◌, ◌≤◌, ◌↔◌, IsTrue, IfOk, option_map, length, map};
ghost use Rattle.std.specs.List.{AllByRecursion};
ghost use Rattle.crs_base.specs.Seen.{entry_of};
ghost use Rattle.crs_model.specs.SeenModels.{event_of, chronicle_of, pattern_of};
ghost use Rattle.crs_model.specs.Matching.{PatternIs};
ghost use Rattle.crs_model.specs.Bindings.{PatternIsBelow, IsMet};
ghost use Rattle.crs_audit.specs.Cited.{AreApart, IsFoundAt, ArePushed, IsCitedBy};
ghost use Rattle.crs_audit.specs.Fit.{AreEqual, IsBindingOf};

use crate::run::Stand;
use crs_base::{Entry, List, Steps};
use crs_model::{Binding, Chronicle, EventDef, Pattern, allowed, bind_if_fits};
use std::alloc::{AllocError, Global};
use std::marker::Brand;
use std::rc::Rc;
use std::sync::ledger::{Blank, Ledger};

/// Whether the number is none of these.
fn is_apart(number: u32, others: &[u32]) -> bool
    ensures { IsTrue result ↔ AllByRecursion (λ n. number ≢ n) others.now }
{
    match others.split_first() {
        None => true,
        Some((other, rest)) => number != *other && is_apart(number, rest),
    }
}

/// Whether no number stands twice.
fn are_apart(numbers: &[u32]) -> bool
    ensures { IsTrue result ↔ AreApart numbers.now }
{
    match numbers.split_first() {
        None => true,
        Some((first, rest)) => is_apart(*first, rest) && are_apart(rest),
    }
}

/// The entry of a number, where it was accepted by the mark, and is settled there unless the chronicle
/// is prompt.
fn available<'a>(
    all: &'a [Rc<Entry>],
    at: Stand,
    prompt: bool,
    number: u32,
) -> Option<&'a Rc<Entry>>
    ensures { IsFoundAt (map (λ e. entry_of e.value) all.entry.now) at prompt number (option_map (λ e. entry_of e.now.value) result) }
{
    if at.accepted <= number {
        return None;
    }
    match all.get(number as usize) {
        Some(entry) if prompt || entry.date < at.horizon => Some(entry),
        _ => None,
    }
}

/// Adds the entries of these numbers. False where one isn't available at the mark.
fn push_cited(
    out: &mut List<Rc<Entry>>,
    all: &[Rc<Entry>],
    at: Stand,
    prompt: bool,
    numbers: &[u32],
) -> Result<bool, AllocError>
    ensures { IfOk result (ArePushed (map (λ e. entry_of e.value) all.now) at prompt numbers.now (map (λ e. entry_of e.value) out.old) (map (λ e. entry_of e.value) out.new)) }
{
    let Some((number, rest)) = numbers.split_first() else {
        return Ok(true);
    };
    let Some(entry) = available(all, at, prompt, *number) else {
        return Ok(false);
    };
    out.push(entry.clone()?)?;
    push_cited(out, all, at, prompt, rest)
}

/// The entries with these arrival numbers. None where they aren't one for each event, one stands
/// twice, or one isn't that of an entry that the chronicle may take at the mark.
pub fn cited(
    alloc: Global,
    all: &[Rc<Entry>],
    at: Stand,
    prompt: bool,
    events: usize,
    numbers: &[u32],
) -> Result<Option<List<Rc<Entry>>>, AllocError>
    ensures { IfOk result (λ entries. IsCitedBy (map (λ e. entry_of e.value) all.now) at prompt events numbers.now (option_map (map (λ e. entry_of e.value)) entries)) }
{
    if numbers.len() != events || !are_apart(numbers) {
        return Ok(None);
    }
    let mut entries = List::new(alloc);
    if push_cited(&mut entries, all, at, prompt, numbers)? {
        Ok(Some(entries))
    } else {
        Ok(None)
    }
}

/// The binding becomes the least one beyond it that makes the pattern equal to the entry, with a step
/// counter of its own. False where there is none.
fn bind_with<L: Ledger>(
    blank: Blank,
    binding: &mut Binding,
    pattern: &Pattern,
    entry: &Entry,
) -> bool
    requires name { blank.name ≡ L.name }
    requires parts { blank.parts ≡ L.parts }
    requires some { 0 < L.parts }
    requires below { PatternIsBelow (length binding.old) (pattern_of pattern.now) }
    ensures { IsMet (λ look. PatternIs look (pattern_of pattern.now) (entry_of entry.now)) binding.old binding.new result }
{
    bind_if_fits(binding, pattern, entry, &mut Steps::<L>::new(blank))
}

/// The binding becomes the least one beyond it that makes the event's pattern equal to the entry.
/// False where there is none.
fn bind_one(binding: &mut Binding, event: &EventDef, entry: &Rc<Entry>) -> bool
    requires { PatternIsBelow (length binding.old) (event_of event.now).pattern }
    ensures { IsMet (λ look. PatternIs look (event_of event.now).pattern (entry_of entry.now.value)) binding.old binding.new result }
{
    bind_with::<Brand>(Blank::new(1), binding, &event.pattern, entry)
}

/// Binds the variables so that each event's pattern equals its entry. False where that can't be.
fn bind_all(binding: &mut Binding, events: &[EventDef], entries: &[Rc<Entry>]) -> bool
    requires { AllByRecursion (λ v. PatternIsBelow (length binding.old) v.pattern) (map event_of events.now) }
    ensures { IsMet (AreEqual (map event_of events.now) (map (λ e. entry_of e.value) entries.now)) binding.old binding.new result }
{
    match events.split_first() {
        None => entries.is_empty(),
        Some((event, others)) => match entries.split_first() {
            None => false,
            Some((entry, rest)) => {
                if !bind_one(binding, event, entry) {
                    return false;
                }
                bind_all(binding, others, rest)
            }
        },
    }
}

/// The least binding of the entries. None where they have none.
pub fn binding_of(chronicle: &Chronicle, entries: &[Rc<Entry>]) -> Option<Binding>
    requires few { length chronicle.now.variables ≤ 16 }
    requires below { AllByRecursion (λ v. PatternIsBelow (length chronicle.now.variables) v.pattern) (map event_of chronicle.now.events) }
    ensures { IsBindingOf (chronicle_of chronicle.now) (map (λ e. entry_of e.value) entries.now) result }
{
    let mut binding = Binding::new(chronicle.variables.len() as u8);
    if !bind_all(&mut binding, chronicle.events.as_slice(), entries) {
        return None;
    }
    if allowed(chronicle, &binding) {
        Some(binding)
    } else {
        None
    }
}
