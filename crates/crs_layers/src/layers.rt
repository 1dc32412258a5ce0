ghost use Rattle.std.specs.Prelude.{◌≡◌, ◌<◌, ◌≤◌, ◌↔◌, ◌⊎◌, ◌^◌, false, [], length, map, IsTrue, IsSome, IfOk, OnOk, Err};
ghost use Rattle.std.specs.List.{AllByRecursion};
ghost use Rattle.crs_base.specs.Seen.{entry_of};
ghost use Rattle.crs_model.specs.Hierarchy.{AreInOrder};
ghost use Rattle.crs_model.specs.Plans.{IsProper, chronicle};
ghost use Rattle.crs_model.specs.ShortLags.{HaveShortLags};
ghost use Rattle.crs_model.specs.declared.recognition.Mark.TheVariants.{Clock, Finish};
ghost use Rattle.crs_log.specs.Items.{Clock as ClockItem, Finish as FinishItem};
ghost use Rattle.crs_engine.specs.Engines.{plans_of};
ghost use Rattle.crs_engine.specs.EngineRefusals.{answer_by, IsRefusedAs};
ghost use Rattle.crs_engine.specs.declared.refused.Refused.{Refused as Refusal};
ghost use Rattle.crs_engine.specs.declared.refused.Refused.TheVariants.{Memory};
ghost use Rattle.crs_layers.specs.Halts.{AreNew, test_refusal, accept_refusal, clock_refusal, finish_refusal};
ghost use Rattle.crs_layers.specs.LayerStates.{horizon_in, accepted_in, is_full_in, kept_in};
ghost use Rattle.crs_layers.specs.Passing.{IsTimely};
ghost use Rattle.crs_layers.specs.Standing.{StandAtStart, KnowSymbols};
ghost use Rattle.crs_layers.specs.Takes.{GoOnBy, TakeDelay, TakeEntry, TakeMark, item_of};

use crate::accepting::{log_all, set_delays};
use crate::advancing::{clock_at, is_end, mark_all};
use crate::layer::{Layer, is_some_full, kept_by};
use crate::marked::Marked;
use crate::starting::layers_of;
use crs_base::{Entry, List, Steps, Symbols};
use crs_engine::Refused;
use crs_model::{Mark, Plans, strata_of};
use std::alloc::{AllocError, Global};
use std::marker::Model;
use std::rc::Rc;
use std::sync::ledger::Ledger;

/// The recogniser of some plans over one stream of entries, stratum by stratum. There is at least one.
/// Dates, clocks and horizons are ticks of the log's clock.
#[derive(Drop)]
pub struct Layers {
    plans: Plans,
    layers: Vec<Layer>,
    focus: bool,
    limit: u32,
    last: u64,
    ended: bool,
    stopped: bool,
    alloc: Global,
}

impl Model for Layers {
    ghost use Rattle.crs_layers.specs.LayerStates.{LayersState};
    ghost use Rattle.crs_layers.specs.Standing.{AreLayers};

    ghost Value = { LayersState };

    ghost view = { λ x. record { plans = x.plans; layers = x.layers.items; focus = x.focus; limit = x.limit; last = x.last; ended = x.ended; stopped = x.stopped } };

    ghost invariant = { λ x. AreLayers (record { plans = x.plans; layers = x.layers.items; focus = x.focus; limit = x.limit; last = x.last; ended = x.ended; stopped = x.stopped }) };
}

impl Layers {
    /// Strata that accepted nothing, and will each accept at most `limit` entries. Without focus every
    /// event counts as of level 0.
    pub fn new(alloc: Global, plans: Plans, focus: bool, limit: u32) -> Result<Layers, AllocError>
        requires proper { AllByRecursion (λ r. IsProper r.value) plans.plans }
        requires few { length plans.plans ≤ 64 }
        requires in_order { AreInOrder (map (λ r. chronicle r.value) plans.plans) }
        requires lags { HaveShortLags (plans_of plans) }
        ensures new { IfOk result (AreNew plans focus limit) }
        ensures stands { IfOk result StandAtStart }
    {
        let ranks = Rc::new(alloc, Vec::new(alloc))?;
        Layers::with_ranks(alloc, plans, focus, limit, ranks)
    }

    /// The same, where the ranks of names are told, by their numbers, in whose order entries of one date
    /// come (`ranks_of` of crs_engine). What they say decides no answer, but how long a run takes.
    pub fn with_ranks(
        alloc: Global,
        plans: Plans,
        focus: bool,
        limit: u32,
        ranks: Rc<Vec<u32>>,
    ) -> Result<Layers, AllocError>
        requires proper { AllByRecursion (λ r. IsProper r.value) plans.plans }
        requires few { length plans.plans ≤ 64 }
        requires in_order { AreInOrder (map (λ r. chronicle r.value) plans.plans) }
        requires lags { HaveShortLags (plans_of plans) }
        ensures new { IfOk result (AreNew plans focus limit) }
        ensures stands { IfOk result StandAtStart }
    {
        let strata = strata_of(alloc, plans.plans.as_slice())?;
        let layers = layers_of(
            alloc,
            plans.plans.as_slice(),
            strata.as_slice(),
            focus,
            limit,
            &ranks,
        )?;
        Ok(Layers {
            plans,
            layers,
            focus,
            limit,
            last: 0,
            ended: false,
            stopped: false,
            alloc,
        })
    }

    /// All plans that were handed in.
    pub fn plans(&self) -> &Plans
        ensures { result.now ≡ self.now.plans }
    {
        &self.plans
    }

    /// Logged entries dated before it are late: the horizon of stratum 0.
    pub fn horizon(&self) -> u64
        ensures { result ≡ horizon_in self.now }
    {
        match self.layers.as_slice().split_first() {
            None => 0,
            Some((first, _)) => first.engine.horizon(),
        }
    }

    /// How many logged entries were accepted.
    pub fn accepted(&self) -> u32
        ensures { result ≡ accepted_in self.now }
    {
        match self.layers.as_slice().split_first() {
            None => 0,
            Some((first, _)) => first.engine.accepted(),
        }
    }

    /// Whether some stratum has accepted as many entries as may be.
    pub fn is_full(&self) -> bool
        ensures { result ≡ is_full_in self.now }
    {
        is_some_full(self.layers.as_slice())
    }

    /// How many partial instances are held, or 2^64 - 1 where there are more.
    pub fn kept(&self) -> u64
        ensures { result ≡ kept_in self.now }
    {
        kept_by(self.layers.as_slice())
    }

    /// Whether an entry of this date comes too late.
    pub fn test_date(&self, date: u64) -> Result<(), Refused>
        ensures { result ≡ answer_by (test_refusal self.now date) }
    {
        if self.stopped {
            return Err(Refused::Stopped);
        }
        let horizon = self.horizon();
        if date < horizon {
            return Err(Refused::Late { date, horizon });
        }
        Ok(())
    }

    /// How many ticks the horizon of stratum 0 lags behind the clock, from the next clock on. The
    /// horizons of the higher strata lag as much more as they lie behind it.
    pub fn set_delay(&mut self, d: u64)
        requires small { d < 2 ^ 40 }
        ensures goes_on { GoOnBy 0 self.old self.new }
        ensures stands { TakeDelay self.old self.new d }
    {
        set_delays(&mut self.layers, d);
    }

    /// Takes in the next logged entry. A late entry, and one that is too much for some stratum, leave
    /// all as it was; after want of memory each further call answers `Stopped`.
    #[inline(always)]
    pub fn accept(&mut self, entry: Entry) -> Result<(), Refused>
        requires next { entry.arrival ≡ accepted_in self.old }
        requires date { entry.date < 2 ^ 40 }
        ensures refused { IsRefusedAs (accept_refusal self.old entry.date) result }
        ensures unchanged { IsSome (accept_refusal self.old entry.date) → self.new ≡ self.old }
        ensures raised { IsTrue self.new.stopped ↔ (IsTrue self.old.stopped ⊎ (result ≡ Err Memory)) }
        ensures goes_on { OnOk result (GoOnBy 1 self.old self.new) }
        ensures stands { OnOk result (TakeEntry self.old self.new (entry_of entry)) }
    {
        self.test_date(entry.date)?;
        if self.is_full() {
            return Err(Refused::Full { limit: self.limit });
        }
        match log_all(self.alloc, &mut self.layers, entry) {
            Ok(()) => Ok(()),
            Err(_) => {
                self.stopped = true;
                Err(Refused::Memory)
            }
        }
    }

    /// Moves the clock on to `t`, and answers what is newly recognised, with this clock as the mark: the
    /// recognitions of one chronicle after another, in the order of all plans, and of each in key order.
    /// The strata move on from the lowest, and each recognition gives its entries to all strata above.
    /// Their texts are made of the table's. After want of memory each further call answers `Stopped`.
    pub fn clock<L: Ledger>(
        &mut self,
        t: u64,
        symbols: &Symbols,
        steps: &mut Steps<L>,
    ) -> Result<Marked, Refused>
        requires date { t < 2 ^ 40 }
        requires known { KnowSymbols symbols.now.texts self.old }
        ensures refused { IsRefusedAs (clock_refusal self.old t) result }
        ensures unchanged { IsSome (clock_refusal self.old t) → self.new ≡ self.old }
        ensures raised { IsTrue self.new.stopped ↔ (IsTrue self.old.stopped ⊎ (result ≡ Err Memory)) }
        ensures goes_on { OnOk result (GoOnBy 0 self.old self.new) }
        ensures stands { IfOk result (λ m. TakeMark symbols.now.texts (ClockItem t) (Clock t) self.old self.new m.list m.flood) }
    {
        if self.stopped {
            return Err(Refused::Stopped);
        }
        if t < self.last {
            return Err(Refused::Back { t, last: self.last });
        }
        self.mark(symbols, Mark::Clock(t), steps)
    }

    /// Settles all entries in all strata, and answers what is newly recognised. From then on each date
    /// is late, each clock is back, and a further call answers nothing.
    pub fn finish<L: Ledger>(
        &mut self,
        symbols: &Symbols,
        steps: &mut Steps<L>,
    ) -> Result<Marked, Refused>
        requires known { KnowSymbols symbols.now.texts self.old }
        ensures refused { IsRefusedAs (finish_refusal self.old) result }
        ensures unchanged { IsSome (finish_refusal self.old) → self.new ≡ self.old }
        ensures raised { IsTrue self.new.stopped ↔ (IsTrue self.old.stopped ⊎ (result ≡ Err Memory)) }
        ensures goes_on { OnOk result (GoOnBy 0 self.old self.new) }
        ensures stands { IfOk result (λ m. TakeMark symbols.now.texts FinishItem Finish self.old self.new m.list m.flood) }
        ensures again { IsTrue self.old.ended → IfOk result (λ m. m.list ≡ []) }
    {
        if self.stopped {
            return Err(Refused::Stopped);
        }
        if self.ended {
            return Ok(Marked {
                list: List::new(self.alloc),
                flood: false,
            });
        }
        self.mark(symbols, Mark::Finish, steps)
    }

    // Moves the strata on to a mark that isn't before the last clock.
    fn mark<L: Ledger>(
        &mut self,
        symbols: &Symbols,
        mark: Mark,
        steps: &mut Steps<L>,
    ) -> Result<Marked, Refused>
        requires running { self.old.stopped ≡ false }
        requires not_ended { self.old.ended ≡ false }
        requires timely { IsTimely mark self.old.last }
        requires known { KnowSymbols symbols.now.texts self.old }
        ensures refused { (r : Refusal) → result ≡ Err r → r ≡ Memory }
        ensures raised { IsTrue self.new.stopped ↔ (result ≡ Err Memory) }
        ensures goes_on { OnOk result (GoOnBy 0 self.old self.new) }
        ensures stands { IfOk result (λ m. TakeMark symbols.now.texts (item_of mark) mark self.old self.new m.list m.flood) }
    {
        match mark_all(self.alloc, &mut self.layers, symbols, mark, steps) {
            Ok(marked) => {
                let clock = clock_at(mark);
                let ended = is_end(mark);
                self.last = clock;
                self.ended = ended;
                Ok(marked)
            }
            Err(_) => {
                self.stopped = true;
                Err(Refused::Memory)
            }
        }
    }
}
