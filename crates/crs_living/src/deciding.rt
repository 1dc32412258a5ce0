//! What comes of an instance whose level is done with: the events of the next levels are looked up
//! among the entries that are there, in each way that they can be.
ghost use Rattle.std.specs.Prelude.{◌≡◌, ◌<◌, ◌≤◌, ◌^◌, ◌++◌, ◌↔◌, ◌≤ℤ◌, pos, true, false, [], ◌∷◌, length, OnOk, IfSome, IsTrue};
ghost use Rattle.crs_base.specs.Seen.{entry_of};
ghost use Rattle.crs_base.specs.Words.{IsIn};
ghost use Rattle.crs_instance.specs.Instances.{IsOf, window_at};
ghost use Rattle.crs_focus.specs.PlanLevels.{levels_in, AreToDecide, KeepsAwaited};
ghost use Rattle.crs_living.specs.Scans.{IsScan};
ghost use Rattle.crs_living.specs.Scannings.{Adds, IsKeptIfAble, IsDecided, IsDecidedAt, AreDecidedWith};

use crate::judging::{Judging, Passing};
use crate::windows::{begin_windows, can_go_on, carry_windows, go_on_to, has_lost, is_able};
use crs_base::{Entry, Steps};
use crs_focus::{awaited_events, candidates_with, next_level};
use crs_history::History;
use crs_instance::{Dated, Fork, Instance};
use crs_model::{Plan, Progress};
use crs_watch::known_of;
use std::alloc::{AllocError, Global};
use std::rc::Rc;
use std::sync::ledger::Ledger;

/// What stays the same through a scan: the instance from which it began, the entry that completed
/// its level, which is the last of the history where levels are read, the date at which the instance
/// was judged last, and the one at which what comes of it is judged.
#[derive(Drop)]
pub struct Scan<'a> {
    pub alloc: Global,
    pub plan: &'a Plan,
    pub focus: bool,
    pub parent: &'a Instance,
    pub history: &'a History,
    pub entry: &'a Entry,
    pub since: u64,
    pub until: u64,
}

/// The event that is decided on, its level, and the events of the level that are left after it.
#[derive(Drop)]
struct Choice<'a> {
    event: u8,
    level: u8,
    rest: &'a Vec<u8>,
}

impl<'a> Scan<'a> {
    /// The dates that pass for what comes of it.
    fn passing(&self) -> Passing<'a>
        requires { IsScan self.now }
        ensures { result ≡ record { judging = record { plan = self.now.plan; focus = self.now.focus; h = self.now.until }; history = self.now.history; since = self.now.since } }
    {
        Passing {
            judging: Judging {
                plan: self.plan,
                focus: self.focus,
                h: self.until,
            },
            history: self.history,
            since: self.since,
        }
    }
}

/// Adds what an instance became, with the progress of its windows, where it is able to be recognised
/// at the date `until`.
fn keep_if_able(
    scan: &Scan<'_>,
    mut next: Instance,
    out: &mut Vec<Instance>,
) -> Result<(), AllocError>
    requires scan { IsScan scan.now }
    requires next { IsOf scan.now.plan.now next }
    ensures { OnOk result (Adds scan.now.plan.now scan.now.focus scan.now.until (IsKeptIfAble scan.now.plan.now scan.now.focus scan.now.history.now (entry_of scan.now.entry.now) scan.now.since scan.now.until scan.now.parent.now next) out.old.items out.new.items) }
{
    let passing = scan.passing();
    begin_windows(&passing, scan.parent, &mut next);
    go_on_to(&passing, &mut next);
    if is_able(&passing.judging, &next) {
        out.push(next)?;
    }
    Ok(())
}

/// Adds what the parent becomes, with the progress of its windows, where it is able to be recognised at
/// the date `until`. Where a window is lost then, nothing is made of it: that takes 54 % off all
/// instructions where each fork is lost at its birth, and a quarter where four of five are.
pub fn keep_fork(
    scan: &Scan<'_>,
    fork: Fork<'_>,
    progress: &mut Vec<Progress>,
    out: &mut Vec<Instance>,
) -> Result<(), AllocError>
    requires scan { IsScan scan.now }
    requires fork { IsOf scan.now.plan.now fork }
    ensures { OnOk result (Adds scan.now.plan.now scan.now.focus scan.now.until (IsKeptIfAble scan.now.plan.now scan.now.focus scan.now.history.now (entry_of scan.now.entry.now) scan.now.since scan.now.until scan.now.parent.now fork.entry) out.old.items out.new.items) }
{
    let passing = scan.passing();
    carry_windows(&passing, scan.parent, &fork, progress)?;
    if has_lost(&passing.judging, &fork, progress.as_slice()) {
        return Ok(());
    }
    let next = fork.make(progress.as_slice())?;
    if can_go_on(&passing.judging, &next) {
        out.push(next)?;
    }
    Ok(())
}

/// Whether the event can still come at or after the date.
fn can_be_left(instance: &Instance, event: u8, until: u64) -> bool
    requires event { event < length instance.now.windows }
    requires small { until ≤ 2 ^ 42 }
    ensures { IsTrue result ↔ IfSome (window_at instance.now.windows event).most (λ m. pos until ≤ℤ m) }
{
    match instance.date_window(event).most {
        None => true,
        Some(most) => until as i64 <= most,
    }
}

/// So many entries of an event are counted: what has more needn't be told apart.
const MOST: usize = 8;

/// How many entries are there that the event may be bound to, as far as its name and its dates tell, up to
/// `MOST`.
fn how_many(scan: &Scan<'_>, next: &Instance, event: u8) -> usize
    requires scan { IsScan scan.now }
    requires next { IsOf scan.now.plan.now next.now }
    requires event { event < length scan.now.plan.now.chronicle.events }
{
    let pattern = &scan.plan.chronicle.events.as_slice()[event as usize].pattern;
    let known = known_of(pattern.terms.as_slice(), next.binding());
    let window = next.date_window(event);
    let mut found = candidates_with(scan.history, pattern.name, &known, window, scan.entry);
    for count in 0..MOST {
        if found.next().is_none() {
            return count;
        }
    }
    MOST
}

/// The place of the event of which the fewest entries are there, the last of such. None where there is
/// no event.
fn fewest(scan: &Scan<'_>, next: &Instance, todo: &[u8]) -> Option<usize>
    requires scan { IsScan scan.now }
    requires next { IsOf scan.now.plan.now next.now }
    requires todo { (f : _) → IsIn f todo.now → f < length scan.now.plan.now.chronicle.events }
    ensures some { IfSome result (λ p. p < length todo.now) }
{
    if todo.is_empty() {
        return None;
    }
    let mut place = 0;
    let mut few = MOST;
    for i in 0..todo.len() {
        let count = how_many(scan, next, todo[i]);
        if count <= few {
            few = count;
            place = i;
        }
    }
    Some(place)
}

/// Puts the event of which the fewest entries are there behind the others, so that it is decided on first:
/// it leaves the least to try, and nothing where it has none and can't be left. A level of nine events, of
/// which one never came and each other six times, took 5,000 times the instructions.
fn put_fewest_last(scan: &Scan<'_>, next: &Instance, todo: &mut Vec<u8>) -> Result<(), AllocError>
    requires scan { IsScan scan.now }
    requires next { IsOf scan.now.plan.now next.now }
    requires todo { (f : _) → IsIn f todo.old.items → f < length scan.now.plan.now.chronicle.events }
    ensures { OnOk result (KeepsAwaited todo.old.items todo.new.items) }
{
    if todo.len() < 2 {
        return Ok(());
    }
    let Some(place) = fewest(scan, next, todo.as_slice()) else {
        return Ok(());
    };
    let event = todo.remove(place);
    todo.push(event)?;
    Ok(())
}

/// Adds what comes of an instance, where some events of a level are still to be decided on: each
/// is bound to an entry that is there, or left for one that comes at or after `until`.
#[cycle(deciding)]
pub fn decide<L: Ledger>(
    scan: &Scan<'_>,
    next: Instance,
    level: u8,
    mut todo: Vec<u8>,
    steps: &mut Steps<L>,
    out: &mut Vec<Instance>,
) -> Result<(), AllocError>
    requires scan { IsScan scan.now }
    requires next { IsOf scan.now.plan.now next }
    requires todo { AreToDecide (levels_in scan.now.plan.now scan.now.focus) next.partial level todo.items }
    requires levels { scan.now.focus ≡ false → todo.items ≡ [] }
    ensures decided { OnOk result (Adds scan.now.plan.now scan.now.focus scan.now.until (IsDecided scan.now.plan.now scan.now.focus scan.now.history.now (entry_of scan.now.entry.now) scan.now.since scan.now.until scan.now.parent.now next level todo.items) out.old.items out.new.items) }
    ensures cost { scan.now.focus ≡ false → todo.items ≡ [] → steps.new ≡ steps.old }
{
    let Some(event) = todo.pop() else {
        return decide_higher(scan, next, level, steps, out);
    };
    let choice = Choice {
        event,
        level,
        rest: &todo,
    };
    decide_at(scan, &next, &choice, steps, out)?;
    if can_be_left(&next, event, scan.until) {
        decide(scan, next, level, todo, steps, out)?;
    }
    Ok(())
}

/// The same, where all events of the level were decided on.
#[cycle(deciding)]
fn decide_higher<L: Ledger>(
    scan: &Scan<'_>,
    next: Instance,
    level: u8,
    steps: &mut Steps<L>,
    out: &mut Vec<Instance>,
) -> Result<(), AllocError>
    requires scan { IsScan scan.now }
    requires next { IsOf scan.now.plan.now next }
    ensures decided { OnOk result (Adds scan.now.plan.now scan.now.focus scan.now.until (IsDecided scan.now.plan.now scan.now.focus scan.now.history.now (entry_of scan.now.entry.now) scan.now.since scan.now.until scan.now.parent.now next level []) out.old.items out.new.items) }
    ensures cost { scan.now.focus ≡ false → steps.new ≡ steps.old }
{
    let Some(higher) = next_level(scan.plan, scan.focus, &next, level) else {
        return keep_if_able(scan, next, out);
    };
    let mut todo = awaited_events(scan.alloc, scan.plan, scan.focus, &next)?;
    put_fewest_last(scan, &next, &mut todo)?;
    decide(scan, next, higher, todo, steps, out)
}

/// The same, where the event is bound to each entry that it can be bound to.
#[cycle(deciding)]
fn decide_at<L: Ledger>(
    scan: &Scan<'_>,
    next: &Instance,
    choice: &Choice<'_>,
    steps: &mut Steps<L>,
    out: &mut Vec<Instance>,
) -> Result<(), AllocError>
    requires scan { IsScan scan.now }
    requires next { IsOf scan.now.plan.now next.now }
    requires todo { AreToDecide (levels_in scan.now.plan.now scan.now.focus) next.now.partial choice.now.level (choice.now.rest.now.items ++ choice.now.event ∷ []) }
    requires read { scan.now.focus ≡ true }
    ensures decided { OnOk result (Adds scan.now.plan.now scan.now.focus scan.now.until (IsDecidedAt scan.now.plan.now scan.now.focus scan.now.history.now (entry_of scan.now.entry.now) scan.now.since scan.now.until scan.now.parent.now next.now choice.now.level choice.now.rest.now.items choice.now.event) out.old.items out.new.items) }
{
    let event = choice.event;
    let pattern = &scan.plan.chronicle.events.as_slice()[event as usize].pattern;
    let known = known_of(pattern.terms.as_slice(), next.binding());
    let window = next.date_window(event);
    for candidate in candidates_with(scan.history, pattern.name, &known, window, scan.entry) {
        decide_with(scan, next, choice, candidate, steps, out)?;
    }
    Ok(())
}

/// The same, where the event is bound to the candidate.
#[cycle(deciding)]
fn decide_with<L: Ledger>(
    scan: &Scan<'_>,
    next: &Instance,
    choice: &Choice<'_>,
    candidate: &Rc<Entry>,
    steps: &mut Steps<L>,
    out: &mut Vec<Instance>,
) -> Result<(), AllocError>
    requires scan { IsScan scan.now }
    requires next { IsOf scan.now.plan.now next.now }
    requires todo { AreToDecide (levels_in scan.now.plan.now scan.now.focus) next.now.partial choice.now.level (choice.now.rest.now.items ++ choice.now.event ∷ []) }
    requires read { scan.now.focus ≡ true }
    requires early { candidate.now.value.date < 2 ^ 40 }
    requires held { IsIn (entry_of candidate.now.value) scan.now.history.now.entries }
    ensures decided { OnOk result (Adds scan.now.plan.now scan.now.focus scan.now.until (AreDecidedWith scan.now.plan.now scan.now.focus scan.now.history.now (entry_of scan.now.entry.now) scan.now.since scan.now.until scan.now.parent.now next.now choice.now.level choice.now.rest.now.items choice.now.event (entry_of candidate.now.value ∷ [])) out.old.items out.new.items) }
{
    let Some(fork) = next.fork(scan.plan, choice.event, candidate, steps) else {
        return Ok(());
    };
    let bound = fork.make(next.all_progress())?;
    let todo = Vec::from_slice(scan.alloc, choice.rest.as_slice())?;
    decide(scan, bound, choice.level, todo, steps, out)
}
