// The engine follows the common horizon.
ghost use Rattle.std.specs.Prelude.{◌≡◌, ◌<◌, ◌≤◌, ◌↔◌, IsTrue, OnOk, IfOk, Err, false, length};
ghost use Rattle.std.specs.List.{AllByRecursion};
ghost use Rattle.crs_engine.specs.declared.refused.Refused.{Refused};
ghost use Rattle.crs_engine.specs.declared.refused.Refused.TheVariants.{Memory};
ghost use Rattle.crs_feeds.specs.Merged.{common};
ghost use Rattle.crs_feeds.specs.States.{IsFeed, IsAt, IsSameEngine, HasRisen};

use crate::clocks::{have_all_ended, least};
use crate::feed::Feed;
use crs_base::{List, Steps};
use crs_engine::{Engine, Refused};
use crs_model::{Mark, Recognition};
use std::sync::ledger::Ledger;

/// What a rise of the common horizon brings.
#[derive(Drop)]
pub struct Rise {
    /// The common horizon, or the end where all feeds have ended.
    pub mark: Mark,
    /// What is newly recognised, chronicle by chronicle, each in key order.
    pub list: List<Recognition>,
}

/// Whether the engine has stopped, as any date tells that isn't before its horizon.
pub(crate) fn has_stopped(engine: &Engine, date: u64) -> bool
    requires { engine.now.stopped ≡ false → engine.now.horizon ≤ date }
    ensures { result ≡ engine.now.stopped }
{
    engine.test_date(date).is_err()
}

/// Moves the engine on to the common horizon, where it is above the engine's.
pub(crate) fn follow<L: Ledger>(
    engine: &mut Engine,
    feeds: &[Feed],
    steps: &mut Steps<L>,
) -> Result<Option<Rise>, Refused>
    requires running { engine.old.stopped ≡ false }
    requires at { IsAt engine.old engine.old.horizon }
    requires each { AllByRecursion IsFeed feeds.now }
    requires some { 0 < length feeds.now }
    requires later { engine.old.horizon ≤ common feeds.now }
    ensures refused { (r : Refused) → result ≡ Err r → r ≡ Memory }
    ensures raised { IsTrue engine.new.stopped ↔ (result ≡ Err Memory) }
    ensures same { OnOk result (IsSameEngine engine.old engine.new) }
    ensures at { OnOk result (IsAt engine.new (common feeds.now)) }
    ensures risen { IfOk result (HasRisen engine.old engine.new feeds.now) }
{
    let h = least(feeds);
    if h == engine.horizon() {
        return Ok(None);
    }
    if have_all_ended(feeds) {
        let list = engine.finish(steps)?;
        return Ok(Some(Rise {
            mark: Mark::Finish,
            list,
        }));
    }
    let list = engine.clock(h, steps)?;
    Ok(Some(Rise {
        mark: Mark::Clock(h),
        list,
    }))
}
