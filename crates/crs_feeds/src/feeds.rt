ghost use Rattle.std.specs.Prelude.{◌≡◌, ◌<◌, ◌≤◌, ◌^◌, ◌↔◌, ◌⊎◌, [], length, get_or, set, IsTrue, IsSome, OnOk, IfOk, Err, false, List as Items};
ghost use Rattle.std.specs.List.{AllByRecursion};
ghost use Rattle.crs_base.specs.declared.symbols.Sym.{Sym};
ghost use Rattle.crs_base.specs.Entry.{Entry as LogEntry};
ghost use Rattle.crs_base.specs.Seen.{entry_of};
ghost use Rattle.crs_model.specs.Order.{put_in_order};
ghost use Rattle.crs_model.specs.Plans.{IsProper};
ghost use Rattle.crs_model.specs.Reach.{IsReachOfAll};
ghost use Rattle.crs_engine.specs.Engines.{StandsFor, HasAccepted, reaches_of};
ghost use Rattle.crs_engine.specs.EngineRefusals.{answer_by, IsRefusedAs};
ghost use Rattle.crs_engine.specs.declared.refused.Refused.{Refused};
ghost use Rattle.crs_engine.specs.declared.refused.Refused.TheVariants.{Memory};
ghost use Rattle.crs_feeds.specs.Merged.{new_feed, common, clocked, closed};
ghost use Rattle.crs_log.specs.Items.{Delay, Clock, Finish};
ghost use Rattle.crs_feeds.specs.Standing.{StandAtStart, TakeItem, TakeMark, TakeEntry};
ghost use Rattle.crs_feeds.specs.States.{FeedsState, HasTicked, AreNewFeeds, IsRise, test_refusal, accept_refusal, clock_refusal, finish_refusal};

use crate::clocks::{least, new_clocks};
use crate::feed::Feed;
use crate::rising::{Rise, follow, has_stopped};
use crs_base::{Entry, Steps};
use crs_engine::{Engine, Refused};
use crs_model::Plans;
use std::alloc::{AllocError, Global};
use std::marker::Model;
use std::sync::ledger::Ledger;

/// The recogniser of some plans over several logs at once. Each feed has clocks of its own, and
/// entries are settled by the least of all horizons. Feeds are numbered from 0.
#[derive(Drop)]
pub struct Feeds {
    engine: Engine,
    feeds: Vec<Feed>,
}

impl Model for Feeds {
    ghost use Rattle.crs_log.specs.Items.{Delay, Clock, Finish};
    ghost use Rattle.crs_feeds.specs.Standing.{StandAtStart, TakeItem, TakeMark, TakeEntry};
    ghost use Rattle.crs_feeds.specs.States.{FeedsState, AreFeeds};

    ghost Value = { FeedsState };

    ghost view = { λ f. record { engine = f.engine; feeds = f.feeds.items } };

    ghost invariant = { λ f. AreFeeds (record { engine = f.engine; feeds = f.feeds.items }) };
}

impl Feeds {
    /// One to eight feeds that gave nothing, over an engine that will accept at most `limit` entries
    /// of all of them. Without focus every event counts as of level 0.
    pub fn new(
        alloc: Global,
        plans: Plans,
        focus: bool,
        limit: u32,
        feeds: u8,
    ) -> Result<Feeds, AllocError>
        requires proper { AllByRecursion (λ r. IsProper r.value) plans.plans }
        requires few { length plans.plans ≤ 64 }
        requires reach { IsReachOfAll (reaches_of plans) plans.reach }
        requires least { 1 ≤ feeds }
        requires most { feeds ≤ 8 }
        ensures new { IfOk result (AreNewFeeds plans focus limit feeds) }
        ensures stands { IfOk result (λ f. StandsFor f.engine [] []) }
        ensures behind { IfOk result StandAtStart }
    {
        let clocks = new_clocks(alloc, feeds)?;
        let engine = Engine::new(alloc, plans, focus, limit)?;
        Ok(Feeds {
            engine,
            feeds: clocks,
        })
    }

    /// The plans that recognition goes by.
    pub fn plans(&self) -> &Plans
        ensures { result.now ≡ self.now.engine.plans }
    {
        self.engine.plans()
    }

    /// Entries dated before it, in ticks, are settled: the least horizon of all feeds.
    pub fn horizon(&self) -> u64
        ensures { result ≡ common self.now.feeds }
    {
        least(self.feeds.as_slice())
    }

    /// How many entries were accepted of all feeds.
    pub fn accepted(&self) -> u32
        ensures { result ≡ self.now.engine.accepted }
    {
        self.engine.accepted()
    }

    /// Whether as many entries were accepted as may be.
    pub fn is_full(&self) -> bool
        ensures { IsTrue result ↔ (self.now.engine.accepted ≡ self.now.engine.limit) }
    {
        self.engine.is_full()
    }

    /// Whether an `end` of the feed was accepted.
    pub fn ended(&self, feed: u8) -> bool
        requires { feed < length self.now.feeds }
        ensures { result ≡ (get_or self.now.feeds feed new_feed).ended }
    {
        self.feeds[feed as usize].ended
    }

    /// How many ticks the feed's horizon lags behind its clock, from its next clock on. Its horizon
    /// stays where it is.
    pub fn set_delay(&mut self, feed: u8, d: u64)
        requires number { feed < length self.old.feeds }
        requires open { (get_or self.old.feeds feed new_feed).ended ≡ false }
        requires small { d < 2 ^ 40 }
        ensures value { self.new ≡ record self.old { feeds = set self.old.feeds feed (record (get_or self.old.feeds feed new_feed) { delay = d }) } }
        ensures behind { TakeItem self.old self.new feed (Delay d) }
    {
        let clocks = self.feeds[feed as usize];
        self.feeds[feed as usize] = Feed { delay: d, ..clocks };
    }

    /// Whether an entry of this date, in ticks, comes too late for the feed.
    pub fn test_date(&self, feed: u8, date: u64) -> Result<(), Refused>
        requires number { feed < length self.now.feeds }
        requires open { (get_or self.now.feeds feed new_feed).ended ≡ false }
        ensures { result ≡ answer_by (test_refusal self.now (get_or self.now.feeds feed new_feed) date) }
    {
        let horizon = self.feeds[feed as usize].horizon;
        if has_stopped(&self.engine, horizon) {
            return Err(Refused::Stopped);
        }
        if date < horizon {
            return Err(Refused::Late { date, horizon });
        }
        Ok(())
    }

    /// Takes in the next entry of a feed. A late entry, and one that is too much, leave all as it was;
    /// after want of memory each further call answers `Stopped`.
    pub fn accept(&mut self, feed: u8, entry: Entry) -> Result<(), Refused>
        requires number { feed < length self.old.feeds }
        requires open { (get_or self.old.feeds feed new_feed).ended ≡ false }
        requires next { entry.arrival ≡ self.old.engine.accepted }
        requires date { entry.date < 2 ^ 40 }
        ensures refused { IsRefusedAs (accept_refusal self.old (get_or self.old.feeds feed new_feed) entry.date) result }
        ensures unchanged { IsSome (accept_refusal self.old (get_or self.old.feeds feed new_feed) entry.date) → self.new ≡ self.old }
        ensures raised { IsTrue self.new.engine.stopped ↔ (IsTrue self.old.engine.stopped ⊎ (result ≡ Err Memory)) }
        ensures feeds { self.new.feeds ≡ self.old.feeds }
        ensures accepted { OnOk result (HasAccepted self.old.engine self.new.engine) }
        ensures stands { OnOk result ((settled : Items (LogEntry Sym)) (waiting : Items (LogEntry Sym)) → StandsFor self.old.engine settled waiting → StandsFor self.new.engine settled (put_in_order (entry_of entry) waiting)) }
        ensures behind { OnOk result (TakeEntry self.old self.new feed (entry_of entry)) }
    {
        self.test_date(feed, entry.date)?;
        self.engine.accept(entry)
    }

    /// Moves the clock of a feed on, to a date in ticks. Where the common horizon rises, what is newly
    /// recognised is the answer, and else none. A clock before the feed's last one leaves all as it
    /// was; after want of memory each further call answers `Stopped`.
    pub fn clock<L: Ledger>(
        &mut self,
        feed: u8,
        t: u64,
        steps: &mut Steps<L>,
    ) -> Result<Option<Rise>, Refused>
        requires number { feed < length self.old.feeds }
        requires open { (get_or self.old.feeds feed new_feed).ended ≡ false }
        requires date { t < 2 ^ 40 }
        ensures refused { IsRefusedAs (clock_refusal self.old (get_or self.old.feeds feed new_feed) t) result }
        ensures unchanged { IsSome (clock_refusal self.old (get_or self.old.feeds feed new_feed) t) → self.new ≡ self.old }
        ensures raised { IsTrue self.new.engine.stopped ↔ (IsTrue self.old.engine.stopped ⊎ (result ≡ Err Memory)) }
        ensures moved { OnOk result (HasTicked self.old self.new feed (clocked t (get_or self.old.feeds feed new_feed))) }
        ensures risen { IfOk result (IsRise self.old self.new) }
        ensures behind { IfOk result (TakeMark self.old self.new feed (Clock t)) }
    {
        let clocks = self.feeds[feed as usize];
        if has_stopped(&self.engine, clocks.horizon) {
            return Err(Refused::Stopped);
        }
        if t < clocks.last {
            return Err(Refused::Back {
                t,
                last: clocks.last,
            });
        }
        self.feeds[feed as usize] = clocks.clocked(t);
        follow(&mut self.engine, self.feeds.as_slice(), steps)
    }

    /// Ends a feed: its horizon is then above every date. The answer is as of `clock`; after want of
    /// memory each further call answers `Stopped`.
    pub fn finish<L: Ledger>(
        &mut self,
        feed: u8,
        steps: &mut Steps<L>,
    ) -> Result<Option<Rise>, Refused>
        requires number { feed < length self.old.feeds }
        requires open { (get_or self.old.feeds feed new_feed).ended ≡ false }
        ensures refused { IsRefusedAs (finish_refusal self.old) result }
        ensures unchanged { IsSome (finish_refusal self.old) → self.new ≡ self.old }
        ensures raised { IsTrue self.new.engine.stopped ↔ (IsTrue self.old.engine.stopped ⊎ (result ≡ Err Memory)) }
        ensures moved { OnOk result (HasTicked self.old self.new feed (closed (get_or self.old.feeds feed new_feed))) }
        ensures risen { IfOk result (IsRise self.old self.new) }
        ensures behind { IfOk result (TakeMark self.old self.new feed Finish) }
    {
        let clocks = self.feeds[feed as usize];
        if has_stopped(&self.engine, clocks.horizon) {
            return Err(Refused::Stopped);
        }
        self.feeds[feed as usize] = clocks.closed();
        follow(&mut self.engine, self.feeds.as_slice(), steps)
    }
}
