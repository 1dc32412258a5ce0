ghost use Rattle.std.specs.Prelude.{◌≡◌, ◌+◌, ◌*◌, ◌<◌, ◌≤◌, ◌^◌, ◌↔◌, ◌⊎◌, [], ◌∷◌, length, replicate, None, take, slice_get, IsTrue, OnOk, IfOk, IfSome, Err, true, false, map, All};
ghost use Rattle.std.specs.Option.{option_copied};
ghost use Rattle.crs_base.specs.Seen.{entry_of};
ghost use Rattle.crs_history.specs.Histories.{EndsWith};
ghost use Rattle.crs_model.specs.Plans.{IsProper, chronicle};
ghost use Rattle.crs_model.specs.Levels.{reads_levels};
ghost use Rattle.crs_instance.specs.Instances.{InstanceState, IsOf};
ghost use Rattle.crs_store.specs.Found.{founds, held_in};
ghost use Rattle.crs_living.specs.Parts.{AllOf};
ghost use Rattle.crs_store.specs.Stores.{KeepsPlaces, Stands, IsStore, IsSameStore, IsOffered, IsOfferedAt, IsOfferedUntil, PassesOver, IsOfferedPrompt, IsOfferedPromptAhead, IsSettledWith, IsSettledComing};
ghost use Rattle.crs_store.specs.Sweeps.{TakesInSome, TakesPromptSome};
ghost use Rattle.crs_store.specs.Answers.{IsAdvanced, MovesOn};
ghost use Rattle.crs_waiting.specs.Hooks.{AreHooks};
ghost use Rattle.crs_waiting.specs.Orders.{AreOrdered, IsOvertaken};
ghost use Rattle.crs_store.specs.Moments.{IsComingFrom, IsMoment, IsPromptMoment, IsHorizon};
ghost use Rattle.crs_living.specs.Slots.{members};
ghost use Rattle.crs_store.specs.Tidy.{IsTidyHolding};
ghost use Rattle.crs_store.specs.declared.refused.StoreRefused.TheVariants.{Stopped, Memory};

use crate::found::{Born, answered};
use crate::holding::{Holding, follow, hold, hold_all, no_holding, pass};
use crate::moment::{Arrival, Birth, Coming, Horizon, Moment, PromptMoment};
use crate::order::put_in_order;
use crate::refused::StoreRefused;
use crate::ripening::take_ripe;
use crate::scanning::candidates::forks;
use crs_base::{Entry, List, Steps};
use crs_history::History;
use crs_instance::Instance;
use crs_living::Judging;
use crs_model::{Mark, Plan, Recognition};
use crs_waiting::{Chart, Hooks};
use std::alloc::{AllocError, Global};
use std::marker::Model;
use std::rc::Rc;
use std::sync::ledger::Ledger;

/// The partial instances of one chronicle that can still be recognised.
#[derive(Drop)]
pub struct Store {
    plan: Rc<Plan>,
    number: u32,
    focus: bool,
    hooks: Hooks,
    holding: Holding,
    date: u64,
    stopped: bool,
    /// Filled anew at each entry, where it keeps its memory.
    places: Vec<u32>,
    /// So are its instances; its recognitions are those since the last mark.
    born: Born,
    alloc: Global,
}

impl Model for Store {
    ghost use Rattle.std.specs.Prelude.{◌≡◌, false, length};
    ghost use Rattle.crs_store.specs.Found.{held_in};
    ghost use Rattle.crs_waiting.specs.Hooks.{AreHooks};
    ghost use Rattle.crs_waiting.specs.Orders.{AreOrdered};
    ghost use Rattle.crs_living.specs.Slots.{members};
    ghost use Rattle.crs_store.specs.Stores.{StoreState, IsStore};
    ghost use Rattle.crs_store.specs.Tidy.{IsTidyHolding};

    ghost Value = { StoreState };

    ghost view = { λ s. record { plan = s.plan.value; number = s.number; focus = s.focus; ranks = s.hooks.ranks.value.items; held = held_in s.plan.value s.holding.slots s.born.found.items; placed = length (members s.holding.slots.slots); date = s.date; stopped = s.stopped } };

    ghost invariant = { λ s. IsStore (record { plan = s.plan.value; number = s.number; focus = s.focus; ranks = s.hooks.ranks.value.items; held = held_in s.plan.value s.holding.slots s.born.found.items; placed = length (members s.holding.slots.slots); date = s.date; stopped = s.stopped }) × AreHooks s.plan.value s.hooks.events.items s.hooks.windows.items × AreOrdered s.plan.value s.focus s.hooks.ranks.value.items s.hooks.events.items × (s.stopped ≡ false → IsTidyHolding s.plan.value s.focus s.hooks s.holding s.date) };
}

/// Whether what an entry completes becomes its recognition at once: that is so where the chronicle has no
/// windows, if it may be so at all.
#[inline(always)]
fn makes_found(plan: &Plan, finds: bool) -> bool
    ensures windowless { IsTrue result → length plan.now.chronicle.windows ≡ 0 }
    ensures asked { finds ≡ false → result ≡ false }
{
    finds && plan.chronicle.windows.len() == 0
}

/// Takes in the entry, and judges all at the date `until`: adds what comes of the instances by it, and
/// drops what can't be recognised any more. What comes of them may be left out where the entries ahead
/// and those from `beyond` on leave it no hope.
fn take_in<L: Ledger>(
    moment: &Moment<'_>,
    holding: &mut Holding,
    steps: &mut Steps<L>,
    places: &mut Vec<u32>,
    born: &mut Born,
) -> Result<(), AllocError>
    requires moment { IsMoment moment.now }
    requires tidy { IsTidyHolding moment.now.plan.now moment.now.focus moment.now.hooks.now holding.old moment.now.since }
    requires kept { AllOf moment.now.plan.now (founds moment.now.plan.now born.old.found.items) }
    ensures tidy { OnOk result (IsTidyHolding moment.now.plan.now moment.now.focus moment.now.hooks.now holding.new moment.now.until) }
    ensures kept { OnOk result (AllOf moment.now.plan.now (founds moment.now.plan.now born.new.found.items)) }
    ensures taken { OnOk result (TakesInSome moment.now.plan.now moment.now.focus (IsOvertaken moment.now.plan.now moment.now.focus moment.now.hooks.now.events.items moment.now.behind (entry_of moment.now.entry.now.value)) moment.now.history.now (entry_of moment.now.entry.now.value) moment.now.until moment.now.since (map (λ r. entry_of r.value) moment.now.ahead.now) moment.now.beyond (held_in moment.now.plan.now holding.old.slots born.old.found.items) (held_in moment.now.plan.now holding.new.slots born.new.found.items)) }
    ensures placed { OnOk result (moment.now.finds ≡ false → born.new.found.items ≡ born.old.found.items) }
    ensures cost { moment.now.focus ≡ false → steps.new ≤ steps.old + 2 * length moment.now.plan.now.chronicle.events * length (members holding.old.slots.slots) }
{
    let chart = Chart {
        plan: moment.plan,
        hooks: moment.hooks,
        focus: moment.focus,
    };
    follow(
        holding,
        &chart,
        moment.history,
        moment.entry,
        moment.since,
        places,
    )?;
    let arrival = Arrival {
        alloc: moment.alloc,
        plan: moment.plan,
        hooks: moment.hooks,
        skips: moment.behind,
        finds: makes_found(moment.plan, moment.finds),
        focus: moment.focus,
        history: moment.history,
        entry: moment.entry,
        since: moment.entry.date,
        until: moment.until,
    };
    forks(
        &arrival,
        &holding.slots,
        &mut holding.waiting,
        steps,
        places,
        born,
    )?;
    let until = moment.until;
    pass(
        holding,
        &chart,
        moment.history,
        moment.entry.date,
        until,
        places,
    )?;
    let birth = Birth {
        ahead: moment.ahead,
        beyond: moment.beyond,
        finds: moment.finds,
        h: until,
    };
    hold_all(holding, &chart, born, &birth)?;
    Ok(())
}

/// Adds what comes of the instances of a prompt chronicle by the entry, which isn't settled yet: all
/// stays judged at the date at which it is. What the entries ahead and those from `beyond` on leave no
/// hope may be left out: it takes a fifth off a prompt drill, whose instances wait for all their events.
fn take_prompt<L: Ledger>(
    moment: &PromptMoment<'_>,
    holding: &mut Holding,
    steps: &mut Steps<L>,
    places: &mut Vec<u32>,
    born: &mut Born,
) -> Result<(), AllocError>
    requires moment { IsPromptMoment moment.now }
    requires tidy { IsTidyHolding moment.now.plan.now moment.now.focus moment.now.hooks.now holding.old moment.now.since }
    requires kept { AllOf moment.now.plan.now (founds moment.now.plan.now born.old.found.items) }
    ensures tidy { OnOk result (IsTidyHolding moment.now.plan.now moment.now.focus moment.now.hooks.now holding.new moment.now.since) }
    ensures kept { OnOk result (AllOf moment.now.plan.now (founds moment.now.plan.now born.new.found.items)) }
    ensures taken { OnOk result (TakesPromptSome moment.now.plan.now moment.now.focus moment.now.history.now (entry_of moment.now.entry.now.value) moment.now.since (map (λ r. entry_of r.value) moment.now.ahead.now) moment.now.beyond (held_in moment.now.plan.now holding.old.slots born.old.found.items) (held_in moment.now.plan.now holding.new.slots born.new.found.items)) }
    ensures placed { OnOk result (moment.now.finds ≡ false → born.new.found.items ≡ born.old.found.items) }
    ensures cost { steps.new ≤ steps.old + 2 * length moment.now.plan.now.chronicle.events * length (members holding.old.slots.slots) }
{
    let arrival = Arrival {
        alloc: moment.alloc,
        plan: moment.plan,
        hooks: moment.hooks,
        skips: false,
        finds: makes_found(moment.plan, moment.finds),
        focus: moment.focus,
        history: moment.history,
        entry: moment.entry,
        since: moment.since,
        until: moment.since,
    };
    forks(
        &arrival,
        &holding.slots,
        &mut holding.waiting,
        steps,
        places,
        born,
    )?;
    let chart = Chart {
        plan: moment.plan,
        hooks: moment.hooks,
        focus: moment.focus,
    };
    let since = moment.since;
    let early = Birth {
        ahead: moment.ahead,
        beyond: moment.beyond,
        finds: moment.finds,
        h: since,
    };
    hold_all(holding, &chart, born, &early)?;
    Ok(())
}

/// Whether nothing was kept for the mark, nothing is done, and nothing is due before `h`. Where many
/// chronicles wait for one log, most are so at most marks: seen before all else, it leaves some 115
/// instructions of the 230 that a store takes at such a mark. Of a store that waits for dates this is so
/// between them: seen here, that takes 3 % off a load with many instances alive and 0.3 % off the drill.
#[inline(always)]
fn is_quiet(holding: &Holding, born: &Born, h: u64) -> bool
    ensures found { IsTrue result → born.now.found.items ≡ [] }
    ensures ripe { IsTrue result → holding.now.ripe.items ≡ [] }
    ensures due { IsTrue result → All (λ t. h ≤ t.date) holding.now.dues.pairs }
    ensures len { length holding.now.slots.serials ≡ length holding.now.slots.slots }
{
    // says that each place has a serial number: no code comes of it
    let _ = holding.slots.serials();
    if !born.found.is_empty() {
        return false;
    }
    if !holding.ripe.is_empty() {
        return false;
    }
    !holding.dues.may_be_due(h)
}

/// Moves the instances on to `h`: answers the recognitions, and keeps those that can wait. It isn't
/// inlined, so that a mark at which nothing happens stays short.
#[inline(never)]
fn move_on(
    to: &Horizon<'_>,
    holding: &mut Holding,
    found: &mut Vec<Recognition>,
    places: &mut Vec<u32>,
) -> Result<List<Recognition>, AllocError>
    requires to { IsHorizon to.now }
    requires tidy { IsTidyHolding to.now.plan.now to.now.focus to.now.hooks.now holding.old to.now.since }
    requires kept { AllOf to.now.plan.now (founds to.now.plan.now found.old.items) }
    ensures tidy { IfOk result (λ _. IsTidyHolding to.now.plan.now to.now.focus to.now.hooks.now holding.new to.now.h) }
    ensures none { IfOk result (λ _. found.new.items ≡ []) }
    ensures moved { IfOk result (MovesOn to.now.plan.now to.now.focus to.now.history.now to.now.since to.now.h to.now.number to.now.mark (held_in to.now.plan.now holding.old.slots found.old.items) (held_in to.now.plan.now holding.new.slots found.new.items)) }
{
    let chart = Chart {
        plan: to.plan,
        hooks: to.hooks,
        focus: to.focus,
    };
    pass(holding, &chart, to.history, to.since, to.h, places)?;
    let judging = Judging {
        plan: to.plan,
        focus: to.focus,
        h: to.h,
    };
    let ripe = take_ripe(
        to.alloc,
        &judging,
        &mut holding.slots,
        &mut holding.ripe,
        to.number,
        to.mark,
    )?;
    let mut all = answered(found, ripe, to)?;
    put_in_order(&mut all);
    Ok(List::from_vec(all))
}

/// Holds nothing any more. It is kept apart, since what drops all that is held is long, and would keep
/// the calls that end so from being inlined.
#[cold]
#[inline(never)]
fn let_go(alloc: Global, holding: &mut Holding, found: &mut Vec<Recognition>)
    ensures places { members holding.new.slots.slots ≡ [] }
    ensures found { found.new.items ≡ [] }
{
    *holding = no_holding(alloc);
    *found = Vec::new(alloc);
}

/// Whether levels are read: those of a prompt chronicle aren't.
fn reads_levels(plan: &Plan, focus: bool) -> bool
    ensures { result ≡ reads_levels (chronicle plan.now) focus }
{
    focus && !plan.chronicle.prompt
}

/// What is held at first: the root alone.
fn first_holding(
    alloc: Global,
    plan: &Plan,
    focus: bool,
    hooks: &Hooks,
) -> Result<Holding, AllocError>
    requires proper { IsProper plan.now }
    requires hooks { AreHooks plan.now hooks.now.events.items hooks.now.windows.items }
    requires order { AreOrdered plan.now focus hooks.now.ranks.value.items hooks.now.events.items }
    ensures tidy { IfOk result (λ holding. IsTidyHolding plan.now focus hooks.now holding 0) }
    ensures root { IfOk result (λ holding. (i : InstanceState) × (members holding.slots.slots ≡ i ∷ []) × IsOf plan.now i × (i.partial ≡ replicate (length plan.now.chronicle.events) None)) }
{
    let mut holding = no_holding(alloc);
    let root = Instance::root(alloc, plan)?;
    let chart = Chart { plan, hooks, focus };
    hold(&mut holding, &chart, root, 0)?;
    Ok(holding)
}

impl Store {
    /// A store of the chronicle of this number, counted from 0 in file order. Nothing is bound yet.
    /// Without focus, and where the chronicle is prompt, every event counts as of level 0.
    pub fn new(alloc: Global, plan: Rc<Plan>, number: u32, focus: bool) -> Result<Store, AllocError>
        requires proper { IsProper plan.value }
        ensures plan { IfOk result (λ s. s.plan ≡ plan.value) }
        ensures number { IfOk result (λ s. s.number ≡ number) }
        ensures focus { IfOk result (λ s. s.focus ≡ reads_levels (chronicle plan.value) focus) }
        ensures ranks { IfOk result (λ s. s.ranks ≡ []) }
        ensures running { IfOk result (λ s. s.stopped ≡ false) }
        ensures placed { IfOk result (λ s. s.placed ≡ length s.held) }
        ensures stands { IfOk result (λ s. Stands s [] [] [] 0 0) }
    {
        let ranks = Rc::new(alloc, Vec::new(alloc))?;
        let levels = reads_levels(&plan, focus);
        let hooks = Hooks::of(alloc, &plan, levels, ranks, false)?;
        Store::with_hooks(alloc, plan, number, levels, hooks)
    }

    /// The same, where entries come by their dates and, at one date, by the ranks of their names: a
    /// name's rank stands at the place of its number, and is 0 where there is none. What the ranks say
    /// decides no answer. An instance then waits for an event only once the one that comes before it is
    /// bound, so that less stands in the index; where `offer_until` isn't told that an entry comes in
    /// that order, all instances are looked at.
    pub fn with_ranks(
        alloc: Global,
        plan: Rc<Plan>,
        number: u32,
        focus: bool,
        ranks: Rc<Vec<u32>>,
    ) -> Result<Store, AllocError>
        requires proper { IsProper plan.value }
        ensures plan { IfOk result (λ s. s.plan ≡ plan.value) }
        ensures number { IfOk result (λ s. s.number ≡ number) }
        ensures focus { IfOk result (λ s. s.focus ≡ reads_levels (chronicle plan.value) focus) }
        ensures ranks { IfOk result (λ s. s.ranks ≡ ranks.value.items) }
        ensures running { IfOk result (λ s. s.stopped ≡ false) }
        ensures placed { IfOk result (λ s. s.placed ≡ length s.held) }
        ensures stands { IfOk result (λ s. Stands s [] [] [] 0 0) }
    {
        let levels = reads_levels(&plan, focus);
        let hooks = Hooks::of(alloc, &plan, levels, ranks, true)?;
        Store::with_hooks(alloc, plan, number, levels, hooks)
    }

    /// A store with these hooks, which reads levels or not.
    fn with_hooks(
        alloc: Global,
        plan: Rc<Plan>,
        number: u32,
        focus: bool,
        hooks: Hooks,
    ) -> Result<Store, AllocError>
        requires proper { IsProper plan.value }
        requires hooks { AreHooks plan.value hooks.events.items hooks.windows.items }
        requires order { AreOrdered plan.value focus hooks.ranks.value.items hooks.events.items }
        requires flat { plan.value.chronicle.prompt ≡ true → focus ≡ false }
        ensures plan { IfOk result (λ s. s.plan ≡ plan.value) }
        ensures number { IfOk result (λ s. s.number ≡ number) }
        ensures focus { IfOk result (λ s. s.focus ≡ focus) }
        ensures ranks { IfOk result (λ s. s.ranks ≡ hooks.ranks.value.items) }
        ensures running { IfOk result (λ s. s.stopped ≡ false) }
        ensures placed { IfOk result (λ s. s.placed ≡ length s.held) }
        ensures stands { IfOk result (λ s. Stands s [] [] [] 0 0) }
    {
        let holding = first_holding(alloc, &plan, focus, &hooks)?;
        let found = Vec::new(alloc);
        let instances = Vec::new(alloc);
        Ok(Store {
            plan,
            number,
            focus,
            hooks,
            holding,
            date: 0,
            stopped: false,
            places: Vec::new(alloc),
            born: Born {
                instances,
                found,
                progress: Vec::new(alloc),
            },
            alloc,
        })
    }

    /// Takes in an entry, whose key is after those of the entries that were taken in before, and
    /// which is the last of the history. One that is dated before these is passed over. After
    /// `Memory` nothing is held, and the store answers only `Stopped`.
    pub fn offer<L: Ledger>(
        &mut self,
        history: &History,
        entry: &Rc<Entry>,
        steps: &mut Steps<L>,
    ) -> Result<(), StoreRefused>
        requires last { self.old.stopped ≡ false → EndsWith (entry_of entry.now.value) history.now.entries }
        requires date { entry.now.value.date < 2 ^ 40 }
        ensures stopped { (result ≡ Err Stopped) ↔ IsTrue self.old.stopped }
        ensures raised { IsTrue self.new.stopped ↔ (IsTrue self.old.stopped ⊎ (result ≡ Err Memory)) }
        ensures same { IsSameStore self.old self.new }
        ensures placed { OnOk result (KeepsPlaces self.old self.new) }
        ensures stands { OnOk result (IsOffered self.old history.now (entry_of entry.now.value) self.new) }
        ensures cost { self.old.focus ≡ false → steps.new ≤ steps.old + 2 * length self.old.plan.chronicle.events * length self.old.held }
    {
        let coming = Coming {
            until: entry.date,
            ahead: &[],
            beyond: entry.date,
            behind: false,
        };
        self.take(history, entry, &coming, false, steps)
    }

    /// Takes in an entry as `offer` does, and judges all that is held at the date until which nothing
    /// comes. What those that come can't complete it may leave out. An entry for which the chronicle
    /// doesn't look may as well be passed over (`pass_over`). What is done by it and has no windows it may
    /// keep without a place: that is counted by `held`, and not lent by `instance`, until the next mark
    /// answers it.
    pub fn offer_until<L: Ledger>(
        &mut self,
        history: &History,
        entry: &Rc<Entry>,
        coming: &Coming<'_>,
        steps: &mut Steps<L>,
    ) -> Result<(), StoreRefused>
        requires last { self.old.stopped ≡ false → EndsWith (entry_of entry.now.value) history.now.entries }
        requires date { entry.now.value.date < 2 ^ 40 }
        requires coming { IsComingFrom entry.now.value.date coming.now }
        ensures stopped { (result ≡ Err Stopped) ↔ IsTrue self.old.stopped }
        ensures raised { IsTrue self.new.stopped ↔ (IsTrue self.old.stopped ⊎ (result ≡ Err Memory)) }
        ensures same { IsSameStore self.old self.new }
        ensures stands { OnOk result (IsOfferedUntil self.old history.now (entry_of entry.now.value) coming.now.until (map (λ r. entry_of r.value) coming.now.ahead.now) coming.now.beyond coming.now.behind self.new) }
        ensures cost { self.old.focus ≡ false → steps.new ≤ steps.old + 2 * length self.old.plan.chronicle.events * length self.old.held }
    {
        self.take(history, entry, coming, true, steps)
    }

    /// Takes in an entry of any name, and judges all that is held at the date until which nothing comes.
    /// Each that is held gets a place, unless `finds` is true.
    fn take<L: Ledger>(
        &mut self,
        history: &History,
        entry: &Rc<Entry>,
        coming: &Coming<'_>,
        finds: bool,
        steps: &mut Steps<L>,
    ) -> Result<(), StoreRefused>
        requires last { self.old.stopped ≡ false → EndsWith (entry_of entry.now.value) history.now.entries }
        requires date { entry.now.value.date < 2 ^ 40 }
        requires coming { IsComingFrom entry.now.value.date coming.now }
        ensures stopped { (result ≡ Err Stopped) ↔ IsTrue self.old.stopped }
        ensures raised { IsTrue self.new.stopped ↔ (IsTrue self.old.stopped ⊎ (result ≡ Err Memory)) }
        ensures same { IsSameStore self.old self.new }
        ensures placed { OnOk result (finds ≡ false → KeepsPlaces self.old self.new) }
        ensures stands { OnOk result (IsOfferedAt self.old history.now (entry_of entry.now.value) coming.now.until (map (λ r. entry_of r.value) coming.now.ahead.now) coming.now.beyond coming.now.behind self.new) }
        ensures cost { self.old.focus ≡ false → steps.new ≤ steps.old + 2 * length self.old.plan.chronicle.events * length self.old.held }
    {
        if self.stopped {
            return Err(StoreRefused::Stopped);
        }
        if entry.date < self.date {
            return Ok(());
        }
        let moment = Moment {
            alloc: self.alloc,
            plan: &self.plan,
            hooks: &self.hooks,
            focus: self.focus,
            history,
            entry,
            since: self.date,
            until: coming.until,
            ahead: coming.ahead,
            beyond: coming.beyond,
            behind: coming.behind,
            finds,
        };
        match take_in(
            &moment,
            &mut self.holding,
            steps,
            &mut self.places,
            &mut self.born,
        ) {
            Ok(()) => {
                self.date = coming.until;
                Ok(())
            }
            Err(_) => {
                let_go(self.alloc, &mut self.holding, &mut self.born.found);
                self.stopped = true;
                Err(StoreRefused::Memory)
            }
        }
    }

    /// Does nothing, at no cost. What it ensures is that nothing need be done at an entry for which the
    /// chronicle doesn't look: the store stands for it too, as it is.
    #[inline(always)]
    pub fn pass_over(&self)
        ensures { PassesOver self.now }
    {
        let _ = &self.plan;
    }

    /// Whether the chronicle is prompt.
    pub fn is_prompt(&self) -> bool
        ensures { result ≡ self.now.plan.chronicle.prompt }
    {
        self.plan.chronicle.prompt
    }

    /// Takes in an entry of a prompt chronicle, which isn't dated before the last horizon and isn't
    /// settled yet. After `Memory` nothing is held, and the store answers only `Stopped`.
    pub fn offer_prompt<L: Ledger>(
        &mut self,
        history: &History,
        entry: &Rc<Entry>,
        steps: &mut Steps<L>,
    ) -> Result<(), StoreRefused>
        requires prompt { self.old.plan.chronicle.prompt ≡ true }
        requires date { entry.now.value.date < 2 ^ 40 }
        ensures stopped { (result ≡ Err Stopped) ↔ IsTrue self.old.stopped }
        ensures raised { IsTrue self.new.stopped ↔ (IsTrue self.old.stopped ⊎ (result ≡ Err Memory)) }
        ensures same { IsSameStore self.old self.new }
        ensures placed { OnOk result (KeepsPlaces self.old self.new) }
        ensures stands { OnOk result (IsOfferedPrompt self.old history.now (entry_of entry.now.value) self.new) }
        ensures cost { steps.new ≤ steps.old + 2 * length self.old.plan.chronicle.events * length self.old.held }
    {
        self.take_early(history, entry, &[], 0, false, steps)
    }

    /// Takes in an entry as `offer_prompt` does. Where it is told of those that come next, `ahead`, before
    /// all that are dated at or after `beyond`, it may leave out what they can't complete. `beyond` is not
    /// after the horizon of the next mark, nor after 2^42. What is done by it may be without a place, as with
    /// `offer_until`.
    pub fn offer_prompt_ahead<L: Ledger>(
        &mut self,
        history: &History,
        entry: &Rc<Entry>,
        ahead: &[Rc<Entry>],
        beyond: u64,
        steps: &mut Steps<L>,
    ) -> Result<(), StoreRefused>
        requires prompt { self.old.plan.chronicle.prompt ≡ true }
        requires date { entry.now.value.date < 2 ^ 40 }
        requires near { beyond ≤ 2 ^ 42 }
        ensures stopped { (result ≡ Err Stopped) ↔ IsTrue self.old.stopped }
        ensures raised { IsTrue self.new.stopped ↔ (IsTrue self.old.stopped ⊎ (result ≡ Err Memory)) }
        ensures same { IsSameStore self.old self.new }
        ensures stands { OnOk result (IsOfferedPromptAhead self.old history.now (entry_of entry.now.value) (map (λ r. entry_of r.value) ahead.now) beyond self.new) }
        ensures cost { steps.new ≤ steps.old + 2 * length self.old.plan.chronicle.events * length self.old.held }
    {
        self.take_early(history, entry, ahead, beyond, true, steps)
    }

    /// Takes in an entry of a prompt chronicle that isn't settled yet. Each that is held gets a place, unless
    /// `finds` is true.
    fn take_early<L: Ledger>(
        &mut self,
        history: &History,
        entry: &Rc<Entry>,
        ahead: &[Rc<Entry>],
        beyond: u64,
        finds: bool,
        steps: &mut Steps<L>,
    ) -> Result<(), StoreRefused>
        requires prompt { self.old.plan.chronicle.prompt ≡ true }
        requires date { entry.now.value.date < 2 ^ 40 }
        requires near { beyond ≤ 2 ^ 42 }
        ensures stopped { (result ≡ Err Stopped) ↔ IsTrue self.old.stopped }
        ensures raised { IsTrue self.new.stopped ↔ (IsTrue self.old.stopped ⊎ (result ≡ Err Memory)) }
        ensures same { IsSameStore self.old self.new }
        ensures placed { OnOk result (finds ≡ false → KeepsPlaces self.old self.new) }
        ensures stands { OnOk result (IsOfferedPromptAhead self.old history.now (entry_of entry.now.value) (map (λ r. entry_of r.value) ahead.now) beyond self.new) }
        ensures cost { steps.new ≤ steps.old + 2 * length self.old.plan.chronicle.events * length self.old.held }
    {
        if self.stopped {
            return Err(StoreRefused::Stopped);
        }
        if entry.date < self.date {
            return Ok(());
        }
        let moment = PromptMoment {
            alloc: self.alloc,
            plan: &self.plan,
            hooks: &self.hooks,
            focus: self.focus,
            history,
            entry,
            since: self.date,
            ahead,
            beyond,
            finds,
        };
        match take_prompt(
            &moment,
            &mut self.holding,
            steps,
            &mut self.places,
            &mut self.born,
        ) {
            Ok(()) => Ok(()),
            Err(_) => {
                let_go(self.alloc, &mut self.holding, &mut self.born.found);
                self.stopped = true;
                Err(StoreRefused::Memory)
            }
        }
    }

    /// Settles an entry that a prompt chronicle took in before, which is the last of the history: its
    /// windows are judged at the entry's date. After `Memory` nothing is held, and the store answers
    /// only `Stopped`.
    pub fn settle(&mut self, history: &History, entry: &Rc<Entry>) -> Result<(), StoreRefused>
        requires date { entry.now.value.date < 2 ^ 40 }
        ensures stopped { (result ≡ Err Stopped) ↔ IsTrue self.old.stopped }
        ensures raised { IsTrue self.new.stopped ↔ (IsTrue self.old.stopped ⊎ (result ≡ Err Memory)) }
        ensures same { IsSameStore self.old self.new }
        ensures placed { OnOk result (KeepsPlaces self.old self.new) }
        ensures stands { OnOk result (IsSettledWith self.old history.now (entry_of entry.now.value) self.new) }
        ensures coming { OnOk result (IsSettledComing self.old history.now (entry_of entry.now.value) self.new) }
    {
        if self.stopped {
            return Err(StoreRefused::Stopped);
        }
        if entry.date < self.date {
            return Ok(());
        }
        let chart = Chart {
            plan: &self.plan,
            hooks: &self.hooks,
            focus: self.focus,
        };
        match follow(
            &mut self.holding,
            &chart,
            history,
            entry,
            self.date,
            &mut self.places,
        ) {
            Ok(()) => {
                self.date = entry.date;
                Ok(())
            }
            Err(_) => {
                let_go(self.alloc, &mut self.holding, &mut self.born.found);
                self.stopped = true;
                Err(StoreRefused::Memory)
            }
        }
    }

    /// Moves on to the horizon `h`, and answers what is newly recognised, with this mark; nothing at
    /// one before the last. After `Memory` nothing is held, and the store answers only `Stopped`.
    pub fn advance(
        &mut self,
        history: &History,
        h: u64,
        mark: Mark,
    ) -> Result<List<Recognition>, StoreRefused>
        requires { h ≤ 2 ^ 42 }
        ensures stopped { (result ≡ Err Stopped) ↔ IsTrue self.old.stopped }
        ensures raised { IsTrue self.new.stopped ↔ (IsTrue self.old.stopped ⊎ (result ≡ Err Memory)) }
        ensures same { IsSameStore self.old self.new }
        ensures placed { IfOk result (λ _. self.old.date ≤ h → self.new.placed ≡ length self.new.held) }
        ensures advanced { IfOk result (λ a. IsAdvanced self.old history.now h mark self.new a) }
    {
        if self.stopped {
            return Err(StoreRefused::Stopped);
        }
        if h < self.date {
            return Ok(List::new(self.alloc));
        }
        if is_quiet(&self.holding, &self.born, h) {
            self.date = h;
            return Ok(List::new(self.alloc));
        }
        let to = Horizon {
            alloc: self.alloc,
            plan: &self.plan,
            hooks: &self.hooks,
            focus: self.focus,
            history,
            since: self.date,
            h,
            number: self.number,
            mark,
        };
        match move_on(
            &to,
            &mut self.holding,
            &mut self.born.found,
            &mut self.places,
        ) {
            Ok(found) => {
                self.date = h;
                Ok(found)
            }
            Err(_) => {
                let_go(self.alloc, &mut self.holding, &mut self.born.found);
                self.stopped = true;
                Err(StoreRefused::Memory)
            }
        }
    }

    /// How many instances are held, with and without a place.
    pub fn held(&self) -> usize
        ensures count { result ≡ length self.now.held }
    {
        self.holding.slots.len() + self.born.found.len()
    }

    /// The instance at a place, from 0. None exactly where the place is not below the number of those
    /// that have one: what is recognised since the last mark, by an entry of `offer_until` or of
    /// `offer_prompt_ahead`, may have none.
    pub fn instance(&self, i: usize) -> Option<&Instance>
        ensures place { option_copied result ≡ slice_get (take self.now.placed self.now.held) i }
        ensures of { IfSome (option_copied result) (IsOf self.now.plan) }
    {
        self.holding.slots.nth(i)
    }
}
