// The command over several logs.
ghost use Rattle.std.specs.Prelude.{◌≡◌, ◌<◌, ◌≤◌, ◌+◌, ◌^◌, ℕ, List as Items, [], true, false, length, map};
ghost use Rattle.crs_desk.specs.Desk.{Told};
ghost use Rattle.crs_rounds.specs.FeedOutcomes.{FollowsFeeds, RunsFeeds};
ghost use Rattle.crs_rounds.specs.MergedSession.{IsReadyMerged, StandsBehind, feeds_of};
ghost use Rattle.crs_outcomes.specs.Most.{most_of};
ghost use Rattle.crs_rounds.specs.Sources.{AreAt, AreSourcesAt, HaveStopped};
ghost use Rattle.crs_outcomes.specs.Status.{HasCauses};
ghost use Rattle.crs_frames.specs.Frames.{Frame};

use crate::merged::MergedSession;
use crate::preparing::prepare_merged;
use crate::rounds::take_rounds;
use crate::source::Source;
use crate::sources::open_all;
use crs_desk::Desk;
use crs_outcomes::{
    Limits, MODELS_LIMIT, MODELS_TOO_LONG, Status, end_status, load, refuse, write_text,
};
use std::alloc::Global;
use std::mem::forget;

/// Reads the models, and then the logs, of which there are one to eight, with the levels of events
/// read or not. The memory that the run still has at its end is left to the end of the process.
pub fn recognise_feeds<D: Desk>(
    alloc: Global,
    desk: &mut D,
    models: &str,
    logs: &[&str],
    limits: Limits,
    focus: bool,
) -> Status
    requires inputs { D.inputs desk.old < 2 ^ 31 }
    requires least { 1 ≤ length logs.now }
    requires most { length logs.now ≤ 8 }
    ensures words { result ≡ Status.Words → ⊥ }
    ensures causes { HasCauses (D.in_faults desk.old) (D.in_faults desk.new) (D.out_faults desk.old) (D.out_faults desk.new) result }
    ensures least { D.inputs desk.old ≤ D.inputs desk.new }
    ensures most { D.inputs desk.new ≤ D.inputs desk.old + 9 }
    ensures told { D.tells ≡ true → RunsFeeds (D.inputs desk.old) (D.inputs desk.new) (most_of limits) (D.told desk.old) models.now (map (λ n. n.now) logs.now) result (D.told desk.new) }
{
    let text = match load(alloc, desk, models, MODELS_LIMIT, MODELS_TOO_LONG) {
        Ok(text) => text,
        Err(status) => return status,
    };
    let feeds = logs.len() as u8;
    match prepare_merged(alloc, text.as_slice(), focus, limits, desk.seed(), feeds) {
        Ok(mut session) => {
            let status = follow_all(alloc, desk, logs, limits.bytes, &mut session);
            // the process ends behind a run, and gives all memory back at once
            forget(session);
            status
        }
        Err(refused) => refuse(alloc, desk, refused),
    }
}

/// Opens the logs, and takes their lines in rounds.
fn follow_all<D: Desk>(
    alloc: Global,
    desk: &mut D,
    logs: &[&str],
    limit: u64,
    session: &mut MergedSession,
) -> Status
    requires inputs { D.inputs desk.old ≤ 2 ^ 31 }
    requires most { length logs.now ≤ 8 }
    requires ready { IsReadyMerged session.old }
    requires count { feeds_of session.old ≡ length logs.now }
    requires clean { session.old.refused ≡ false }
    ensures words { result ≡ Status.Words → ⊥ }
    ensures causes { HasCauses (D.in_faults desk.old) (D.in_faults desk.new) (D.out_faults desk.old) (D.out_faults desk.new) result }
    ensures least { D.inputs desk.old ≤ D.inputs desk.new }
    ensures most { D.inputs desk.new ≤ D.inputs desk.old + length logs.now }
    ensures told { D.tells ≡ true → (f : Frame) → StandsBehind f session.old []
        → FollowsFeeds (D.inputs desk.old) (D.inputs desk.new) f limit (D.told desk.old) (map (λ n. n.now) logs.now) result (D.told desk.new) }
{
    match open_all(alloc, desk, logs) {
        Ok(mut sources) => read_all_feeds(alloc, desk, &mut sources, limit, session),
        Err(status) => status,
    }
}

/// Takes the lines of logs that were just opened, in rounds, and writes what is pending at the end.
fn read_all_feeds<D: Desk>(
    alloc: Global,
    desk: &mut D,
    sources: &mut Vec<Source>,
    limit: u64,
    session: &mut MergedSession,
) -> Status
    requires sources { AreSourcesAt (D.inputs desk.old) limit 0 0 sources.old.items }
    requires ready { IsReadyMerged session.old }
    requires count { length sources.old.items ≡ feeds_of session.old }
    requires few { length sources.old.items ≤ 8 }
    ensures inputs { D.inputs desk.new ≡ D.inputs desk.old }
    ensures words { result ≡ Status.Words → ⊥ }
    ensures causes { HasCauses (D.in_faults desk.old) (D.in_faults desk.new) (D.out_faults desk.old) (D.out_faults desk.new) result }
    ensures told { D.tells ≡ true → (f : Frame) (base : ℕ) (old : Told) (names : Items (Items ℕ)) → AreAt f base limit old names 0 0 sources.old.items session.old [] (D.told desk.old)
        → HaveStopped f base limit old names sources.new.items result (D.told desk.new) }
{
    let mut out = Vec::new(alloc);
    match take_rounds(alloc, desk, sources, limit, session, &mut out) {
        Ok(()) => write_text(desk, out.as_slice(), end_status(session.refused)),
        Err(status) => status,
    }
}
