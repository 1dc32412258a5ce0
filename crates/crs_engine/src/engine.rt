ghost use Rattle.std.specs.Prelude.{◌≡◌, ◌<◌, ◌≤◌, ◌-◌, ◌^◌, ◌↔◌, ◌⊎◌, [], length, IsTrue, IsSome, OnOk, IfOk, Err, true, false, List as Items};
ghost use Rattle.std.specs.List.{AllByRecursion};
ghost use Rattle.crs_base.specs.declared.symbols.Sym.{Sym};
ghost use Rattle.crs_base.specs.Entry.{Entry as LogEntry};
ghost use Rattle.crs_base.specs.Seen.{entry_of};
ghost use Rattle.crs_model.specs.Order.{put_in_order};
ghost use Rattle.crs_model.specs.Plans.{IsProper};
ghost use Rattle.crs_model.specs.declared.recognition.Mark.TheVariants.{Clock, Finish};
ghost use Rattle.crs_engine.specs.Engines.{EngineState, StandsFor, IsNewEngine, HasAccepted, HasMoved, kept_of, reaches_of, floor_at};
ghost use Rattle.crs_model.specs.Reach.{IsReachOfAll};
ghost use Rattle.crs_engine.specs.EngineRefusals.{test_refusal, accept_refusal, clock_refusal, finish_refusal, answer_by, IsRefusedAs};
ghost use Rattle.crs_engine.specs.Marks.{AfterMark};
ghost use Rattle.crs_engine.specs.declared.refused.Refused.{Refused};
ghost use Rattle.crs_engine.specs.declared.refused.Refused.TheVariants.{Memory};

use crate::concerned::{Names, concerned_of};
use crate::entries::Entries;
use crate::looked_up::looked_up;
use crate::moving::{forget_behind, hold, mark_all};
use crate::refused::Refused;
use crate::starting::{has_prompt, stores_of};
use crate::sums::kept_by;
use crs_base::{Entry, List, Steps};
use crs_buffer::Buffer;
use crs_history::History;
use crs_model::{Mark, Plans, Recognition};
use crs_store::Store;
use std::alloc::{AllocError, Global};
use std::marker::Model;
use std::rc::Rc;
use std::sync::ledger::Ledger;

/// The horizon and the clock after the end, in ticks: 2^42, above every date.
const END: u64 = 4_398_046_511_104;

/// The recogniser of some plans over one stream of entries. Dates, the clock and the horizon are
/// ticks of the log's clock.
#[derive(Drop)]
pub struct Engine {
    plans: Plans,
    stores: Vec<Store>,
    names: Names,
    entries: Entries,
    /// Those of the waiting entries that were accepted since the last mark, where some chronicle is
    /// prompt.
    fresh: Buffer,
    delay: u64,
    last: u64,
    horizon: u64,
    accepted: u32,
    /// How many entries were accepted by the last mark.
    marked: u32,
    limit: u32,
    focus: bool,
    /// Whether some chronicle is prompt.
    prompt: bool,
    stopped: bool,
}

impl Model for Engine {
    ghost use Rattle.std.specs.List.{AllByRecursion};
    ghost use Rattle.crs_engine.specs.Engines.{EngineState, IsEngine};
    ghost use Rattle.crs_engine.specs.Concerns.{AreKept};
    ghost use Rattle.crs_engine.specs.Moves.{HasRanks};

    ghost Value = { EngineState };

    ghost view = { λ e. record { plans = e.plans; stores = e.stores.items; history = e.entries.history; waiting = e.entries.buffer; fresh = e.fresh; delay = e.delay; last = e.last; horizon = e.horizon; accepted = e.accepted; marked = e.marked; limit = e.limit; focus = e.focus; stopped = e.stopped } };

    ghost invariant = { λ e. IsEngine (record { plans = e.plans; stores = e.stores.items; history = e.entries.history; waiting = e.entries.buffer; fresh = e.fresh; delay = e.delay; last = e.last; horizon = e.horizon; accepted = e.accepted; marked = e.marked; limit = e.limit; focus = e.focus; stopped = e.stopped }) × AreKept e.plans e.prompt e.names.concerned × AllByRecursion (HasRanks e.names.ranks.value.items) e.stores.items };
}

impl Engine {
    /// An engine that accepted nothing, and will accept at most `limit` entries. Without focus every
    /// event counts as of level 0.
    pub fn new(alloc: Global, plans: Plans, focus: bool, limit: u32) -> Result<Engine, AllocError>
        requires proper { AllByRecursion (λ r. IsProper r.value) plans.plans }
        requires few { length plans.plans ≤ 64 }
        requires reach { IsReachOfAll (reaches_of plans) plans.reach }
        ensures new { IfOk result (IsNewEngine plans focus limit) }
        ensures stands { IfOk result (λ e. StandsFor e [] []) }
    {
        let ranks = Rc::new(alloc, Vec::new(alloc))?;
        Engine::with_ranks(alloc, plans, focus, limit, ranks)
    }

    /// The same, where the ranks of names are told, by their numbers, in whose order entries of one date
    /// come (`ranks_of`). What they say decides no answer, but how long a run takes.
    pub fn with_ranks(
        alloc: Global,
        plans: Plans,
        focus: bool,
        limit: u32,
        ranks: Rc<Vec<u32>>,
    ) -> Result<Engine, AllocError>
        requires proper { AllByRecursion (λ r. IsProper r.value) plans.plans }
        requires few { length plans.plans ≤ 64 }
        requires reach { IsReachOfAll (reaches_of plans) plans.reach }
        ensures new { IfOk result (IsNewEngine plans focus limit) }
        ensures stands { IfOk result (λ e. StandsFor e [] []) }
    {
        let stores = stores_of(alloc, plans.plans.as_slice(), focus, &ranks)?;
        let prompt = has_prompt(plans.plans.as_slice());
        let concerned = concerned_of(alloc, plans.plans.as_slice())?;
        let places = looked_up(alloc, plans.plans.as_slice(), focus)?;
        let history = History::with_look_ups(alloc, places);
        let buffer = Buffer::new(alloc);
        let fresh = Buffer::new(alloc);
        let entries = Entries {
            buffer,
            due: Vec::new(alloc),
            history,
            spare: Vec::new(alloc),
            alloc,
        };
        Ok(Engine {
            plans,
            stores,
            names: Names { concerned, ranks },
            entries,
            fresh,
            delay: 0,
            last: 0,
            horizon: 0,
            accepted: 0,
            marked: 0,
            limit,
            focus,
            prompt,
            stopped: false,
        })
    }

    pub fn plans(&self) -> &Plans
        ensures { result.now ≡ self.now.plans }
    {
        &self.plans
    }

    /// Entries dated before it are settled.
    pub fn horizon(&self) -> u64
        ensures { result ≡ self.now.horizon }
    {
        self.horizon
    }

    /// How many entries were accepted.
    pub fn accepted(&self) -> u32
        ensures { result ≡ self.now.accepted }
    {
        self.accepted
    }

    /// Whether as many entries were accepted as may be.
    pub fn is_full(&self) -> bool
        ensures { IsTrue result ↔ (self.now.accepted ≡ self.now.limit) }
    {
        self.accepted == self.limit
    }

    /// How many partial instances are held, or 2^64 - 1 where there are more.
    pub fn kept(&self) -> u64
        ensures { result ≡ kept_of self.now }
    {
        kept_by(self.stores.as_slice())
    }

    /// The settled entries that are still needed.
    pub fn history(&self) -> &History
        ensures { result.now ≡ self.now.history }
    {
        &self.entries.history
    }

    /// How many ticks the horizon lags behind the clock, from the next clock on.
    pub fn set_delay(&mut self, d: u64)
        requires small { d ≤ 2 ^ 41 }
        ensures value { self.new ≡ record self.old { delay = d } }
        ensures stands { (settled : Items (LogEntry Sym)) (waiting : Items (LogEntry Sym)) → StandsFor self.old settled waiting → StandsFor self.new settled waiting }
    {
        self.delay = d;
    }

    /// Whether an entry of this date comes too late.
    pub fn test_date(&self, date: u64) -> Result<(), Refused>
        ensures { result ≡ answer_by (test_refusal self.now date) }
    {
        if self.stopped {
            return Err(Refused::Stopped);
        }
        if date < self.horizon {
            return Err(Refused::Late {
                date,
                horizon: self.horizon,
            });
        }
        Ok(())
    }

    /// Takes in the next entry.
    #[inline(always)]
    pub fn accept(&mut self, entry: Entry) -> Result<(), Refused>
        requires next { entry.arrival ≡ self.old.accepted }
        requires date { entry.date < 2 ^ 40 }
        ensures refused { IsRefusedAs (accept_refusal self.old entry.date) result }
        ensures unchanged { IsSome (accept_refusal self.old entry.date) → self.new ≡ self.old }
        ensures raised { IsTrue self.new.stopped ↔ (IsTrue self.old.stopped ⊎ (result ≡ Err Memory)) }
        ensures wanting { result ≡ Err Memory → self.new ≡ record self.old { stopped = true } }
        ensures accepted { OnOk result (HasAccepted self.old self.new) }
        ensures stands { OnOk result ((settled : Items (LogEntry Sym)) (waiting : Items (LogEntry Sym)) → StandsFor self.old settled waiting → StandsFor self.new settled (put_in_order (entry_of entry) waiting)) }
    {
        if self.stopped {
            return Err(Refused::Stopped);
        }
        if entry.date < self.horizon {
            return Err(Refused::Late {
                date: entry.date,
                horizon: self.horizon,
            });
        }
        if self.accepted == self.limit {
            return Err(Refused::Full { limit: self.limit });
        }
        match hold(
            self.entries.alloc,
            &mut self.entries.buffer,
            &mut self.fresh,
            &mut self.entries.spare,
            self.prompt,
            entry,
        ) {
            Ok(()) => {
                self.accepted += 1;
                Ok(())
            }
            Err(_) => {
                self.stopped = true;
                Err(Refused::Memory)
            }
        }
    }

    /// Moves the clock on, and answers what is newly recognised, with this clock as the mark. The
    /// horizon is the delay before it, and stays where that would be earlier than it was.
    pub fn clock<L: Ledger>(
        &mut self,
        t: u64,
        steps: &mut Steps<L>,
    ) -> Result<List<Recognition>, Refused>
        requires { t < 2 ^ 40 }
        ensures refused { IsRefusedAs (clock_refusal self.old t) result }
        ensures unchanged { IsSome (clock_refusal self.old t) → self.new ≡ self.old }
        ensures raised { IsTrue self.new.stopped ↔ (IsTrue self.old.stopped ⊎ (result ≡ Err Memory)) }
        ensures moved { OnOk result (HasMoved self.old self.new t (t - self.old.delay)) }
        ensures forgets { OnOk result (self.new.history.floor ≡ floor_at self.old.plans.reach self.new.horizon) }
        ensures marked { IfOk result (λ answer. (settled : Items (LogEntry Sym)) (waiting : Items (LogEntry Sym)) → StandsFor self.old settled waiting → AfterMark self.old self.new (Clock t) settled waiting answer) }
    {
        if self.stopped {
            return Err(Refused::Stopped);
        }
        if t < self.last {
            return Err(Refused::Back { t, last: self.last });
        }
        let h = self.horizon.max(t.saturating_sub(self.delay));
        self.mark(t, h, Mark::Clock(t), steps)
    }

    /// Settles all entries, and answers what is newly recognised. From then on each date is late,
    /// each clock is back, and a further call answers nothing.
    pub fn finish<L: Ledger>(&mut self, steps: &mut Steps<L>) -> Result<List<Recognition>, Refused>
        ensures refused { IsRefusedAs (finish_refusal self.old) result }
        ensures unchanged { IsSome (finish_refusal self.old) → self.new ≡ self.old }
        ensures raised { IsTrue self.new.stopped ↔ (IsTrue self.old.stopped ⊎ (result ≡ Err Memory)) }
        ensures moved { OnOk result (HasMoved self.old self.new (2 ^ 42) (2 ^ 42)) }
        ensures forgets { OnOk result (self.new.history.floor ≡ floor_at self.old.plans.reach self.new.horizon) }
        ensures marked { IfOk result (λ answer. (settled : Items (LogEntry Sym)) (waiting : Items (LogEntry Sym)) → StandsFor self.old settled waiting → AfterMark self.old self.new Finish settled waiting answer) }
        ensures again { self.old.horizon ≡ 2 ^ 42 → IfOk result (λ answer. (settled : Items (LogEntry Sym)) (waiting : Items (LogEntry Sym)) → StandsFor self.old settled waiting → answer ≡ []) }
    {
        if self.stopped {
            return Err(Refused::Stopped);
        }
        self.mark(END, END, Mark::Finish, steps)
    }

    /// Takes a mark, and forgets what is then no longer needed.
    fn mark<L: Ledger>(
        &mut self,
        t: u64,
        h: u64,
        mark: Mark,
        steps: &mut Steps<L>,
    ) -> Result<List<Recognition>, Refused>
        requires running { self.old.stopped ≡ false }
        requires forward { self.old.horizon ≤ h }
        requires small { h ≤ 2 ^ 42 }
        ensures refused { (r : Refused) → result ≡ Err r → r ≡ Memory }
        ensures raised { IsTrue self.new.stopped ↔ (result ≡ Err Memory) }
        ensures moved { OnOk result (HasMoved self.old self.new t h) }
        ensures forgets { OnOk result (self.new.history.floor ≡ floor_at self.old.plans.reach self.new.horizon) }
        ensures marked { IfOk result (λ answer. (settled : Items (LogEntry Sym)) (waiting : Items (LogEntry Sym)) → StandsFor self.old settled waiting → AfterMark self.old self.new mark settled waiting answer) }
    {
        let answer = self.move_on(t, h, mark, steps)?;
        self.forget();
        Ok(answer)
    }

    /// Forgets what lies further before the horizon than the reach, where that is finite.
    fn forget(&mut self)
        ensures same { self.new ≡ record self.old { history = self.new.history } }
        ensures floor { self.new.history.floor ≡ floor_at self.old.plans.reach self.old.horizon }
        ensures stands { (settled : Items (LogEntry Sym)) (waiting : Items (LogEntry Sym)) → StandsFor self.old settled waiting → StandsFor self.new settled waiting }
    {
        if let Some(reach) = self.plans.reach {
            let entries = &mut self.entries;
            forget_behind(
                &mut entries.history,
                self.horizon,
                reach,
                &mut entries.spare,
            );
        }
    }

    /// Moves the clock on to `t`, and the horizon to `h`.
    fn move_on<L: Ledger>(
        &mut self,
        t: u64,
        h: u64,
        mark: Mark,
        steps: &mut Steps<L>,
    ) -> Result<List<Recognition>, Refused>
        requires running { self.old.stopped ≡ false }
        requires forward { self.old.horizon ≤ h }
        requires small { h ≤ 2 ^ 42 }
        ensures refused { (r : Refused) → result ≡ Err r → r ≡ Memory }
        ensures raised { IsTrue self.new.stopped ↔ (result ≡ Err Memory) }
        ensures moved { OnOk result (HasMoved self.old self.new t h) }
        ensures marked { IfOk result (λ answer. (settled : Items (LogEntry Sym)) (waiting : Items (LogEntry Sym)) → StandsFor self.old settled waiting → AfterMark self.old self.new mark settled waiting answer) }
    {
        match mark_all(
            &mut self.stores,
            &self.names,
            &mut self.entries,
            &mut self.fresh,
            h,
            mark,
            steps,
        ) {
            Ok(answer) => {
                self.last = t;
                self.horizon = h;
                self.marked = self.accepted;
                Ok(answer)
            }
            Err(_) => {
                self.stopped = true;
                Err(Refused::Memory)
            }
        }
    }
}
