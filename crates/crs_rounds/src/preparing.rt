// What several logs are read with.
ghost use Rattle.std.specs.Prelude.{◌≤◌, IfOk, IfErr};
ghost use Rattle.crs_outcomes.specs.ModelTexts.{IsFaultyText};
ghost use Rattle.crs_rounds.specs.PreparedMerged.{IsPreparedMerged};

use crate::merged::MergedSession;
use crs_feeds::Feeds;
use crs_model::ModelRefused;
use crs_outcomes::{Limits, read_lone_plans};
use std::alloc::Global;

/// A session at the start of one to eight logs, with the models that the text means. With focus the
/// levels of events are read. The table that the logs' symbols will go into hashes them from the seed.
pub fn prepare_merged(
    alloc: Global,
    text: &[u8],
    focus: bool,
    limits: Limits,
    seed: u64,
    feeds: u8,
) -> Result<MergedSession, ModelRefused>
    requires least { 1 ≤ feeds }
    requires most { feeds ≤ 8 }
    ensures ok { IfOk result (IsPreparedMerged limits.symbols limits.entries feeds text.now) }
    ensures refused { IfErr result (IsFaultyText limits.symbols text.now) }
{
    let (plans, symbols) = read_lone_plans(alloc, text, limits.symbols, seed)?;
    let feeds = Feeds::new(alloc, plans, focus, limits.entries, feeds)?;
    Ok(MergedSession {
        feeds,
        symbols,
        entries: limits.entries,
        refused: false,
    })
}
