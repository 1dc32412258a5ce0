// What a log is read with.
ghost use Rattle.std.specs.Prelude.{◌≡◌, true, IfOk, IfErr};
ghost use Rattle.crs_outcomes.specs.ModelTexts.{IsRunFaultyText};
ghost use Rattle.crs_commands.specs.Prepared.{IsPrepared};
ghost use Rattle.crs_outcomes.specs.ReadPlans.{ArePlansIn, AreLonePlans};

use crs_base::Symbols;
use crs_engine::ranks_of;
use crs_layers::Layers;
use crs_model::{ModelRefused, Plans};
use crs_outcomes::{Limits, read_lone_plans, read_plans};
use crs_session::{Counts, Session};
use std::alloc::Global;

/// The plans of the models that a text means for a run. With cite no chronicle may give entries.
fn read_run_plans(
    alloc: Global,
    text: &[u8],
    cite: bool,
    symbols: u32,
    seed: u64,
) -> Result<(Plans, Symbols), ModelRefused>
    ensures ok { IfOk result (λ read. ArePlansIn symbols text.now read.0 read.1 × (cite ≡ true → AreLonePlans read.0)) }
    ensures refused { IfErr result (IsRunFaultyText cite symbols text.now) }
{
    if cite {
        return read_lone_plans(alloc, text, symbols, seed);
    }
    read_plans(alloc, text, symbols, seed)
}

/// A session at the start of a log, with the models that the text means. With focus the levels of
/// events are read, and with cite the entries of recognitions are cited. The table that the log's
/// symbols will go into hashes them from the seed.
pub fn prepare(
    alloc: Global,
    text: &[u8],
    focus: bool,
    cite: bool,
    limits: Limits,
    seed: u64,
) -> Result<Session, ModelRefused>
    ensures ok { IfOk result (IsPrepared focus cite limits.symbols limits.entries text.now) }
    ensures refused { IfErr result (IsRunFaultyText cite limits.symbols text.now) }
{
    let (plans, symbols) = read_run_plans(alloc, text, cite, limits.symbols, seed)?;
    let ranks = ranks_of(
        alloc,
        plans.names.as_slice(),
        plans.derived.as_slice(),
        &symbols,
    )?;
    let layers = Layers::with_ranks(alloc, plans, focus, limits.entries, ranks)?;
    let peak = layers.kept();
    Ok(Session {
        layers,
        symbols,
        entries: limits.entries,
        cite,
        ended: false,
        counts: Counts {
            refused: 0,
            recognitions: 0,
            peak,
        },
    })
}
