// Strata move on to a mark.
ghost use Rattle.std.specs.Prelude.{◌≡◌, ◌<◌, ◌≤◌, ◌++◌, false, IfOk, Err, List as Items};
ghost use Rattle.crs_engine.specs.declared.refused.Refused.{Refused};
ghost use Rattle.crs_engine.specs.declared.refused.Refused.TheVariants.{Memory};
ghost use Rattle.crs_model.specs.declared.recognition.Recognition.{Recognition as Found};
ghost use Rattle.crs_layers.specs.Accepting.{IsSameLayer};
ghost use Rattle.crs_layers.specs.Gathering.{GathersAll};
ghost use Rattle.crs_layers.specs.Marks.{clock_of, ends, IsInTime, HasMarked};
ghost use Rattle.crs_layers.specs.Passing.{Passing, AreReadyFor, HavePassed};
ghost use Rattle.std.specs.List.{AllZip};

use crate::accepting::NoMemory;
use crate::gathering::gathered;
use crate::giving::{either, give_found};
use crate::layer::Layer;
use crate::marked::Marked;
use crs_base::{List, Steps, Symbols};
use crs_engine::{Engine, Refused};
use crs_model::{Mark, Recognition};
use std::alloc::Global;
use std::sync::ledger::Ledger;

// The clock at the end: above the date of each entry and of each window's end.
const END: u64 = 4_398_046_511_104;

/// The clock of a mark. That of the end is above each date.
pub(crate) fn clock_at(mark: Mark) -> u64
    ensures { result ≡ clock_of mark }
{
    match mark {
        Mark::Clock(t) => t,
        Mark::Finish => END,
    }
}

/// Whether a mark is the end.
pub(crate) fn is_end(mark: Mark) -> bool
    ensures { result ≡ ends mark }
{
    match mark {
        Mark::Clock(_) => false,
        Mark::Finish => true,
    }
}

/// Moves an engine on to a mark that isn't before its last clock, and answers what is new at it.
pub(crate) fn mark_one<L: Ledger>(
    engine: &mut Engine,
    mark: Mark,
    steps: &mut Steps<L>,
) -> Result<List<Recognition>, Refused>
    requires running { engine.old.stopped ≡ false }
    requires in_time { IsInTime mark engine.old }
    ensures refused { (r : Refused) → result ≡ Err r → r ≡ Memory }
    ensures marked { IfOk result (HasMarked mark engine.old engine.new) }
{
    match mark {
        Mark::Clock(t) => engine.clock(t, steps),
        Mark::Finish => engine.finish(steps),
    }
}

/// Moves strata on to a mark, from the lowest on, and gives those above each one what is new in it gives.
/// Behind the answers that are there stands then what is new in each stratum. True where some stratum
/// has no room for all that it is given.
pub(crate) fn mark_from<L: Ledger>(
    alloc: Global,
    layers: &mut [Layer],
    symbols: &Symbols,
    mark: Mark,
    steps: &mut Steps<L>,
    answers: &mut Vec<List<Recognition>>,
) -> Result<bool, NoMemory>
    requires ready { (w : Passing) × AreReadyFor symbols.now.texts mark w layers.old }
    ensures same { AllZip IsSameLayer layers.old layers.new }
    ensures passed { IfOk result (λ flood. (more : Items (Items Found)) × (answers.new.items ≡ answers.old.items ++ more) × ((w : Passing) → AreReadyFor symbols.now.texts mark w layers.old → HavePassed symbols.now.texts mark w layers.new more flood)) }
{
    match layers.split_first_mut() {
        None => Ok(false),
        Some((first, above)) => {
            let Ok(answer) = mark_one(&mut first.engine, mark, steps) else {
                return Err(NoMemory);
            };
            let flood = give_found(
                alloc,
                above,
                symbols,
                first.engine.plans(),
                answer.as_slice(),
            )?;
            let Ok(()) = answers.push(answer) else {
                return Err(NoMemory);
            };
            let more = mark_from(alloc, above, symbols, mark, steps, answers)?;
            Ok(either(flood, more))
        }
    }
}

/// Moves all strata on to a mark, and answers what is new over all.
pub(crate) fn mark_all<L: Ledger>(
    alloc: Global,
    layers: &mut [Layer],
    symbols: &Symbols,
    mark: Mark,
    steps: &mut Steps<L>,
) -> Result<Marked, NoMemory>
    requires ready { (w : Passing) × AreReadyFor symbols.now.texts mark w layers.old }
    ensures same { AllZip IsSameLayer layers.old layers.new }
    ensures passed { IfOk result (λ m. (answers : Items (Items Found)) × GathersAll layers.new answers m.list × ((w : Passing) → AreReadyFor symbols.now.texts mark w layers.old → HavePassed symbols.now.texts mark w layers.new answers m.flood)) }
{
    let mut answers = Vec::new(alloc);
    let flood = mark_from(alloc, layers, symbols, mark, steps, &mut answers)?;
    let list = gathered(alloc, layers, answers)?;
    Ok(Marked { list, flood })
}
