ghost use Rattle.std.specs.Prelude.{◌≡◌, ◌+◌, ◌<◌, ◌≤◌, ◌^◌, ◌↔◌, length, replicate, IfOk, OnErr, IsTrue, None, Some, is_some, pos, ◌+ℤ◌, ◌≤ℤ◌, option_map, slice_set, true, false, cond};
ghost use Rattle.std.specs.List.{list_all};
ghost use Rattle.std.specs.Option.{option_copied};
ghost use Rattle.crs_model.specs.Partial.{at, put, CanGoOn};
ghost use Rattle.crs_model.specs.Bits.{HasBits};
ghost use Rattle.crs_model.specs.Plans.{chronicle, IsProper};
ghost use Rattle.crs_base.specs.declared.symbols.Sym.{Sym};
ghost use Rattle.crs_base.specs.Entry.{Entry as LogEntry};
ghost use Rattle.crs_base.specs.Seen.{entry_of};
ghost use Rattle.crs_model.specs.SeenModels.{pattern_of, chronicle_of};
ghost use Rattle.crs_model.specs.Bindings.{PatternIsBelow};
ghost use Rattle.crs_model.specs.Steps.{flat};
ghost use Rattle.crs_model.specs.Levels.{level_in};
ghost use Rattle.crs_model.specs.declared.plan.Plan.{Plan};
ghost use Rattle.crs_instance.specs.Instances.{no_progress as none_yet, progress_at, seen_entry, IsBoundBy, IsOf, IsInside, IsAnswered, IsForked, IsDeadline, AreAllEntries, window_at};
ghost use Rattle.crs_instance.specs.Spans.{no_span, windows_of};
ghost use Rattle.crs_instance.specs.Waits.{OthersCanCome, AnotherIsLate};

use crate::bits::{are_all_set, with_bit};
use crate::dated::Dated;
use crate::fit::Fit;
use crate::fork::Fork;
use crate::links::{Known, Links, date_of, entry_at, gives, known_of, linked, listed, listed_with};
use crate::narrowing::{is_inside, is_not_before};
use crate::span::{NO_LEAST, NO_MOST, Span, most_at};
use crate::waiting::{deadline_of_level, earliest_deadline, others_can_be_from};
use crs_base::{Entry, List, Steps};
use crs_model::{
    Anchor, Binding, Chronicle, DateWindow, Pattern, Plan, Progress, allowed, bind_if_fits,
    is_set_at,
};
use std::alloc::{AllocError, Global};
use std::marker::Model;
use std::rc::Rc;
use std::sync::ledger::Ledger;

/// What is told of an instance whose events are all bound: its entries, in event order, and the symbols
/// of its variables.
#[derive(Drop)]
pub struct Completed {
    pub entries: List<Rc<Entry>>,
    pub binding: Binding,
}

/// A partial instance of a chronicle: some of its events bound to entries, with the symbols that
/// this gives to variables, and the dates that it leaves to each point. What one instance has of
/// this is shared with those that are made from it. Bit e of `bound` is set where event e is bound,
/// and `last` is the last date at which each unbound event can still come, or `NO_MOST`.
#[derive(Drop)]
pub struct Instance {
    links: Rc<Links>,
    progress: Vec<Progress>,
    bound: u16,
    count: u8,
    last: i64,
    alloc: Global,
}

impl Model for Instance {
    ghost use Rattle.crs_instance.specs.Instances.{InstanceState};
    ghost use Rattle.crs_instance.specs.EntryLinks.{partial_of, known_in};
    ghost use Rattle.crs_instance.specs.Spans.{windows_of, end_of};
    ghost use Rattle.crs_instance.specs.Stored.{IsStored};

    ghost Value = { InstanceState };

    ghost view = { λ i. record { partial = partial_of i.count i.links.value; binding = (known_in i.links.value).binding; windows = windows_of (known_in i.links.value).spans.items; progress = i.progress.items } };

    ghost invariant = { λ i. IsStored i.count i.bound i.links.value (windows_of (known_in i.links.value).spans.items) (end_of i.last) };
}

/// As many spans without ends.
fn no_spans(alloc: Global, count: usize) -> Result<Vec<Span>, AllocError>
    ensures { IfOk result (λ v. v.items ≡ replicate count no_span) }
{
    let mut spans = Vec::new(alloc);
    for _i in 0..count {
        spans.push(Span {
            least: NO_LEAST,
            most: NO_MOST,
        })?;
    }
    Ok(spans)
}

/// As many times the progress of a window that hasn't begun.
fn no_progress(alloc: Global, count: usize) -> Result<Vec<Progress>, AllocError>
    ensures { IfOk result (λ v. v.items ≡ replicate count none_yet) }
{
    let mut progress = Vec::new(alloc);
    for _i in 0..count {
        progress.push(Progress {
            count: 0,
            broken: false,
        })?;
    }
    Ok(progress)
}

/// Whether the entry fits the pattern and the chronicle allows the binding with the pattern's
/// variables, which is then written: what is left in it otherwise is not to be used. It takes one step.
/// No binding is handed back, since a fork that moves it once more takes some 20 instructions more.
#[inline(always)]
pub fn matched<L: Ledger>(
    chronicle: &Chronicle,
    pattern: &Pattern,
    binding: &mut Binding,
    entry: &Entry,
    steps: &mut Steps<L>,
) -> bool
    requires { PatternIsBelow (length binding.old) (pattern_of pattern.now) }
    ensures bound { IsBoundBy (chronicle_of chronicle.now) (pattern_of pattern.now) binding.old (entry_of entry.now) (cond result (Some binding.new) None) }
    ensures step { steps.new ≡ steps.old + 1 }
{
    if !bind_if_fits(binding, pattern, entry, steps) {
        return false;
    }
    allowed(chronicle, binding)
}

/// The same progress. Most chronicles have no windows: that nothing is then copied saves their forks
/// some 20 instructions. It stays a vector, since the progress of two windows held in place makes each
/// instance larger: with one window that takes 1 % of all instructions less, but with none 1 % more.
fn copied(alloc: Global, progress: &[Progress]) -> Result<Vec<Progress>, AllocError>
    ensures { IfOk result (λ v. v.items ≡ progress.now) }
{
    if progress.is_empty() {
        return Ok(Vec::new(alloc));
    }
    Vec::from_slice(alloc, progress)
}

/// The progress of the window of this number, where there is one.
pub fn progress_in(all: &[Progress], window: u8) -> Progress
    ensures { result ≡ progress_at all.now window }
{
    match all.get(window as usize) {
        None => Progress {
            count: 0,
            broken: false,
        },
        Some(progress) => *progress,
    }
}

impl Dated for Instance {
    ghost seen = { λ i. i };

    fn binding(&self) -> &Binding {
        &self.known().binding
    }

    fn date_from(&self, anchor: Anchor) -> Option<i64> {
        date_of(&self.links, anchor)
    }
}

impl Instance {
    ghost use Rattle.crs_instance.specs.Completing.{IsCompleted, IsTakenBy};

    /// Nothing is bound.
    pub fn root(alloc: Global, plan: &Plan) -> Result<Instance, AllocError>
        requires { IsProper plan.now }
        ensures of { IfOk result (λ i. IsOf plan.now i) }
        ensures none { IfOk result (λ i. i.partial ≡ replicate (length plan.now.chronicle.events) None) }
    {
        let events = plan.chronicle.events.len();
        let binding = Binding::new(plan.chronicle.variables.len() as u8);
        let spans = no_spans(alloc, events + plan.chronicle.free.len())?;
        let known = Known { binding, spans };
        let links = Rc::new(alloc, Links::End { known })?;
        let progress = no_progress(alloc, plan.chronicle.windows.len())?;
        Ok(Instance {
            links,
            progress,
            bound: 0,
            count: events as u8,
            last: NO_MOST,
            alloc,
        })
    }

    /// What the bound events' entries tell.
    pub(crate) fn known(&self) -> &Known
        ensures binding { result.now.binding ≡ self.now.binding }
        ensures windows { windows_of result.now.spans.items ≡ self.now.windows }
    {
        known_of(&self.links)
    }

    /// Whether the event can be bound to the entry too: the pattern's variables are then written into
    /// the binding. It takes one step.
    #[inline(always)]
    fn takes<L: Ledger>(
        &self,
        plan: &Plan,
        event: u8,
        entry: &Entry,
        binding: &mut Binding,
        steps: &mut Steps<L>,
    ) -> bool
        requires proper { IsProper plan.now }
        requires of { IsOf plan.now self.now }
        requires event { event < length plan.now.chronicle.events }
        requires unbound { at self.now.partial event ≡ None }
        requires date { entry.now.date < 2 ^ 40 }
        requires binding { binding.old ≡ self.now.binding }
        ensures taken { IsTakenBy plan.now self.now event (entry_of entry.now) (cond result (Some binding.new) None) }
        ensures step { steps.new ≡ steps.old + 1 }
    {
        let known = self.known();
        if !is_inside(known.spans[event as usize], entry.date) {
            steps.tick();
            return false;
        }
        if gives(&self.links, entry.arrival) {
            steps.tick();
            return false;
        }
        let pattern = &plan.chronicle.events.as_slice()[event as usize].pattern;
        matched(&plan.chronicle, pattern, binding, entry, steps)
    }

    /// The instance with the event bound to the entry too, with the progress that its windows have.
    fn forked<L: Ledger>(
        &self,
        plan: &Plan,
        event: u8,
        entry: &Rc<Entry>,
        steps: &mut Steps<L>,
    ) -> Result<Option<Instance>, AllocError>
        requires proper { IsProper plan.now }
        requires of { IsOf plan.now self.now }
        requires event { event < length plan.now.chronicle.events }
        requires unbound { at self.now.partial event ≡ None }
        requires date { entry.now.value.date < 2 ^ 40 }
        ensures fork { IfOk result (IsForked plan.now self.now event (entry_of entry.now.value)) }
        ensures step { steps.new ≡ steps.old + 1 }
    {
        let Some(fork) = self.fork(plan, event, entry, steps) else {
            return Ok(None);
        };
        Ok(Some(fork.make(self.progress.as_slice())?))
    }

    /// Binds the event to the entry, where the bound events can still be part of an assignment that
    /// meets the bounds. It takes one step. After No and after a refusal the instance is as it was.
    pub fn bind<L: Ledger>(
        &mut self,
        plan: &Plan,
        event: u8,
        entry: Rc<Entry>,
        steps: &mut Steps<L>,
    ) -> Result<Fit, AllocError>
        requires proper { IsProper plan.now }
        requires of { IsOf plan.now self.old }
        requires event { event < length plan.now.chronicle.events }
        requires unbound { at self.old.partial event ≡ None }
        requires date { entry.value.date < 2 ^ 40 }
        ensures ok { IfOk result (IsAnswered plan.now self.old event (entry_of entry.value) self.new) }
        ensures err { OnErr result (self.new ≡ self.old) }
        ensures step { steps.new ≡ steps.old + 1 }
    {
        match self.forked(plan, event, &entry, steps)? {
            None => Ok(Fit::No),
            Some(next) => {
                *self = next;
                Ok(Fit::Yes)
            }
        }
    }

    /// What the instance becomes where the event is bound to the entry too. None exactly where the
    /// bound events could then be part of no assignment that meets the bounds. It takes one step, and
    /// no memory.
    pub fn fork<'a, L: Ledger>(
        &'a self,
        plan: &'a Plan,
        event: u8,
        entry: &'a Rc<Entry>,
        steps: &mut Steps<L>,
    ) -> Option<Fork<'a>>
        requires proper { IsProper plan.now }
        requires of { IsOf plan.now self.now }
        requires event { event < length plan.now.chronicle.events }
        requires unbound { at self.now.partial event ≡ None }
        requires date { entry.now.value.date < 2 ^ 40 }
        ensures fork { IsForked plan.now self.now event (entry_of entry.now.value) result }
        ensures step { steps.new ≡ steps.old + 1 }
    {
        let mut binding = self.binding().copy();
        if !self.takes(plan, event, entry, &mut binding, steps) {
            return None;
        }
        Some(Fork::new(plan, self, event, entry, binding))
    }

    /// The instance with the event bound to the entry too, of which so much is known, and with this
    /// progress of its windows.
    pub(crate) fn grown(
        &self,
        event: u8,
        entry: Rc<Entry>,
        known: Known,
        progress: &[Progress],
    ) -> Result<Instance, AllocError>
        requires event { event < length self.now.partial }
        requires unbound { at self.now.partial event ≡ None }
        requires date { entry.value.date < 2 ^ 40 }
        requires spans { length self.now.partial ≤ length known.spans.items }
        ensures { IfOk result (λ i. i ≡ record { partial = put self.now.partial event (entry_of entry.value); binding = known.binding; windows = windows_of known.spans.items; progress = progress.now }) }
    {
        let bound = with_bit(self.bound, event);
        let last = earliest_deadline(bound, self.count, known.spans.as_slice());
        let links = linked(self.alloc, &self.links, event, entry, known)?;
        let progress = copied(self.alloc, progress)?;
        Ok(Instance {
            links,
            progress,
            bound,
            count: self.count,
            last,
            alloc: self.alloc,
        })
    }

    /// Where its vectors and links take memory.
    pub(crate) fn alloc(&self) -> Global {
        self.alloc
    }

    /// Whether no other event than this one is unbound.
    pub fn lacks_only(&self, event: u8) -> bool
        requires within { event < length self.now.partial }
        requires unbound { at self.now.partial event ≡ None }
        ensures { (x : LogEntry Sym) → result ≡ list_all (λ o. is_some o) (put self.now.partial event x) }
    {
        are_all_set(with_bit(self.bound, event), self.count)
    }

    /// What `fork` makes of an instance that lacks only this event: its entries and its binding alone,
    /// without its date windows and the progress of its windows. It takes one step, and no memory before
    /// it is known that there is such an instance.
    pub fn complete<L: Ledger>(
        &self,
        plan: &Plan,
        event: u8,
        entry: &Rc<Entry>,
        steps: &mut Steps<L>,
    ) -> Result<Option<Completed>, AllocError>
        requires proper { IsProper plan.now }
        requires of { IsOf plan.now self.now }
        requires event { event < length plan.now.chronicle.events }
        requires unbound { at self.now.partial event ≡ None }
        requires whole { list_all (λ o. is_some o) (put self.now.partial event (entry_of entry.now.value)) ≡ true }
        requires date { entry.now.value.date < 2 ^ 40 }
        ensures completed { IfOk result (IsCompleted plan.now self.now event (entry_of entry.now.value)) }
        ensures step { steps.new ≡ steps.old + 1 }
    {
        let mut binding = self.binding().copy();
        if !self.takes(plan, event, entry, &mut binding, steps) {
            return Ok(None);
        }
        let entries = listed_with(self.alloc, &self.links, self.count, event, entry)?;
        Ok(Some(Completed { entries, binding }))
    }

    /// Whether the bounds and the bound events' dates leave this date to the event.
    pub fn can_come(&self, event: u8, date: u64) -> bool
        requires event { event < length self.now.windows }
        requires date { date < 2 ^ 40 }
        ensures { IsTrue result ↔ IsInside (window_at self.now.windows event) (pos date) }
    {
        is_inside(self.known().spans[event as usize], date)
    }

    /// Whether the other unbound events of the event's level can still come at `h` or after, where
    /// the event comes at this date.
    pub fn can_wait_with(&self, plan: &Plan, event: u8, date: u64, focus: bool, h: u64) -> bool
        requires proper { IsProper plan.now }
        requires of { IsOf plan.now self.now }
        requires event { event < length plan.now.chronicle.events }
        requires unbound { at self.now.partial event ≡ None }
        requires date { date < 2 ^ 40 }
        requires horizon { h ≤ 2 ^ 42 }
        ensures yes { result ≡ true → IsInside (window_at self.now.windows event) (pos date) → OthersCanCome plan.now (level_in (chronicle plan.now).events focus) self.now.partial event date h }
        ensures no { result ≡ false → AnotherIsLate plan.now (level_in (chronicle plan.now).events focus) self.now.partial event date h }
    {
        others_can_be_from(
            self.bound,
            self.known().spans.as_slice(),
            plan,
            event,
            date,
            focus,
            h,
        )
    }

    /// The least and the greatest date that the bounds and the bound events' dates leave to the
    /// point.
    pub fn date_window(&self, p: u8) -> DateWindow
        requires { p < length self.now.windows }
        ensures { result ≡ window_at self.now.windows p }
    {
        self.known().spans[p as usize].window()
    }

    /// The last date at which each unbound event of the level can still come, in ticks, where there
    /// is one. Without focus every event counts as of level 0.
    pub fn deadline(&self, plan: &Plan, level: u8, focus: bool) -> Option<i64>
        requires { IsOf plan.now self.now }
        ensures { IsDeadline (level_in (chronicle plan.now).events focus) level self.now result }
    {
        if !focus {
            return if level == 0 { most_at(self.last) } else { None };
        }
        let events = plan.chronicle.events.as_slice();
        most_at(deadline_of_level(
            self.bound,
            self.count,
            self.known().spans.as_slice(),
            events,
            level,
        ))
    }

    /// Whether dates that meet the bounds exist with each unbound event at or after the date `h`.
    pub fn can_go_on(&self, h: u64) -> bool
        requires { h ≤ 2 ^ 42 }
        ensures { (plan : Plan) → IsProper plan → IsOf plan self.now → IsTrue result ↔ CanGoOn (chronicle plan) flat self.now.partial h }
    {
        is_not_before(self.last, h)
    }

    /// The entry that the event is bound to, or None where it is unbound or there is none of that
    /// number.
    pub fn entry(&self, event: u8) -> Option<&Rc<Entry>>
        ensures { seen_entry (option_copied result) ≡ at self.now.partial event }
    {
        if event < self.count {
            if !is_set_at(self.bound, event) {
                return None;
            }
        }
        entry_at(&self.links, event)
    }

    /// Whether the event is bound.
    pub fn is_bound(&self, event: u8) -> bool
        requires { event < length self.now.partial }
        ensures { result ≡ is_some (at self.now.partial event) }
    {
        is_set_at(self.bound, event)
    }

    /// What is known of the window of this number, where there is one.
    pub fn progress(&self, window: u8) -> Progress
        ensures { result ≡ progress_at self.now.progress window }
    {
        progress_in(self.progress.as_slice(), window)
    }

    /// What is known of each window.
    pub fn all_progress(&self) -> &[Progress]
        ensures { result.now ≡ self.now.progress }
    {
        self.progress.as_slice()
    }

    /// Writes down what is known of the window of this number.
    pub fn set_progress(&mut self, window: u8, progress: Progress)
        requires { window < length self.old.progress }
        ensures { self.new ≡ record self.old { progress = slice_set self.old.progress window progress } }
    {
        self.progress[window as usize] = progress;
    }

    /// The number whose bit e, from the least, is set exactly where event e is bound.
    pub fn bound(&self) -> u16
        ensures { HasBits self.now.partial result }
    {
        self.bound
    }

    /// The entries of all events, in event order. None where some event is unbound.
    pub fn all_entries(&self) -> Result<Option<List<Rc<Entry>>>, AllocError>
        ensures { IfOk result (AreAllEntries self.now.partial) }
    {
        if !self.is_whole() {
            return Ok(None);
        }
        let entries = listed(self.alloc, &self.links, self.count)?;
        Ok(Some(entries))
    }

    /// Whether each event is bound.
    pub fn is_whole(&self) -> bool
        ensures { result ≡ list_all (λ o. is_some o) self.now.partial }
    {
        are_all_set(self.bound, self.count)
    }

    /// An equal instance, made by sharing this one's parts. This one is unchanged, and a later change
    /// of the one leaves the other as it was.
    pub fn share(&self) -> Result<Instance, AllocError>
        ensures { IfOk result (λ i. i ≡ self.now) }
    {
        let links = self.links.clone()?;
        let progress = copied(self.alloc, self.progress.as_slice())?;
        Ok(Instance {
            links,
            progress,
            bound: self.bound,
            count: self.count,
            last: self.last,
            alloc: self.alloc,
        })
    }

    /// Whether the two have their bound entries in the same memory, with all that these tell: the
    /// symbols of the variables and the date windows. It is so of an instance and what `share` makes
    /// of it, until one of them binds an event. No clause says where something stands in memory: who
    /// counts memory asks here.
    pub fn shares_all(&self, other: &Instance) -> bool {
        Rc::ptr_eq(&self.links, &other.links)
    }

    /// Whether this one has the entries that it bound before its last one where the other one has all
    /// of its own, so that they take memory once. It is so of what `fork` makes and the instance that
    /// it is made from. False where nothing is bound.
    pub fn shares_rest(&self, other: &Instance) -> bool {
        match &*self.links {
            Links::End { .. } => false,
            Links::Link { rest, .. } => Rc::ptr_eq(rest, &other.links),
        }
    }
}
