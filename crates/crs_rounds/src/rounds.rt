// The rounds in which the lines of several logs are taken.
ghost use Rattle.std.specs.Prelude.{◌≡◌, ◌<◌, ◌≤◌, ◌+◌, ◌||◌, ℕ, List as Items, [], true, length, set, IfOk, IfErr, OnOk};
ghost use Rattle.crs_desk.specs.Desk.{Told};
ghost use Rattle.crs_rounds.specs.MergedSession.{IsReadyMerged, feeds_of};
ghost use Rattle.crs_rounds.specs.Sources.{AreAt, AreSourcesAt, Flushes, IsSourceAt, TakesHeld, TakesTurn, TakesRound, TakesRounds, source_at};
ghost use Rattle.crs_outcomes.specs.Status.{HasCauses};
ghost use Rattle.crs_frames.specs.Frames.{Frame};
ghost use Rattle.crs_rounds.specs.declared.source.Source.{Source as SourceValue};

use crate::merged::MergedSession;
use crate::merging::take_feed_line;
use crate::source::Source;
use crate::sources::read_more;
use crs_base::Token;
use crs_desk::{Desk, DeskError, write_all};
use crs_outcomes::Status;
use std::alloc::{AllocError, Global};

/// Takes the next line that a log holds whole. The answer is whether there is one.
fn take_held(
    alloc: Global,
    source: &mut Source,
    feed: u8,
    session: &mut MergedSession,
    tokens: &mut Vec<Token>,
    out: &mut Vec<u8>,
) -> Result<bool, AllocError>
    requires ready { IsReadyMerged session.old }
    requires feed { feed < feeds_of session.old }
    requires limit { source.old.lines.limit ≡ 4096 }
    ensures taken { source.new.taken ≡ source.old.taken }
    ensures input { source.new.input ≡ source.old.input }
    ensures held { IfOk result (TakesHeld source.old source.new feed session.old session.new out.old.items out.new.items) }
{
    match source.lines.next_line() {
        None => Ok(false),
        Some(line) => {
            take_feed_line(alloc, session, feed, line, tokens, out)?;
            Ok(true)
        }
    }
}

/// Writes what is pending, and nothing is then.
fn flush<D: Desk>(desk: &mut D, out: &mut Vec<u8>) -> Result<(), Status>
    ensures inputs { D.inputs desk.new ≡ D.inputs desk.old }
    ensures reading { D.in_faults desk.old ≤ D.in_faults desk.new }
    ensures writing { D.out_faults desk.old ≤ D.out_faults desk.new }
    ensures words { IfErr result (λ status. status ≡ Status.Words → ⊥) }
    ensures causes { IfErr result (HasCauses (D.in_faults desk.old) (D.in_faults desk.new) (D.out_faults desk.old) (D.out_faults desk.new)) }
    ensures empty { out.new.items ≡ [] }
    ensures told { D.tells ≡ true → Flushes (D.told desk.old) out.old.items result (D.told desk.new) }
{
    let wrote = write_all(desk, out.as_slice());
    out.clear();
    match wrote {
        Ok(()) => Ok(()),
        Err(DeskError::Failed) => Err(Status::WriteFault),
        Err(DeskError::Memory) => Err(Status::Memory),
    }
}

/// A feed's turn: its next line is taken. Its log is read only while it holds no whole line, and what
/// is pending is written before each read. The answer is whether the feed gave a line.
fn take_turn<D: Desk>(
    alloc: Global,
    desk: &mut D,
    source: &mut Source,
    feed: u8,
    limit: u64,
    session: &mut MergedSession,
    tokens: &mut Vec<Token>,
    out: &mut Vec<u8>,
) -> Result<bool, Status>
    requires source { (k : ℕ) × IsSourceAt (D.inputs desk.old) limit k source.old }
    requires ready { IsReadyMerged session.old }
    requires feed { feed < feeds_of session.old }
    ensures inputs { D.inputs desk.new ≡ D.inputs desk.old }
    ensures reading { D.in_faults desk.old ≤ D.in_faults desk.new }
    ensures writing { D.out_faults desk.old ≤ D.out_faults desk.new }
    ensures words { IfErr result (λ status. status ≡ Status.Words → ⊥) }
    ensures causes { IfErr result (HasCauses (D.in_faults desk.old) (D.in_faults desk.new) (D.out_faults desk.old) (D.out_faults desk.new)) }
    ensures ready { OnOk result (IsReadyMerged session.new) }
    ensures count { OnOk result (feeds_of session.new ≡ feeds_of session.old) }
    ensures source { IfOk result (λ gave. (k : ℕ) → IsSourceAt (D.inputs desk.old) limit k source.old → IsSourceAt (D.inputs desk.old) limit (k + 1) source.new × (gave ≡ true → k < limit)) }
    ensures told { D.tells ≡ true → (f : Frame) (base : ℕ) (old : Told) (names : Items (Items ℕ)) (round : ℕ) (ss : Items SourceValue) → feed < length names → source_at ss feed ≡ source.old
        → AreAt f base limit old names round feed ss session.old out.old.items (D.told desk.old)
        → TakesTurn f base limit old names round feed (set ss feed source.new) result session.new out.new.items (D.told desk.new) }
{
    loop {
        match take_held(alloc, source, feed, session, tokens, out) {
            Ok(true) => return Ok(true),
            Ok(false) => {}
            Err(_) => return Err(Status::Memory),
        }
        if source.finished {
            return Ok(false);
        }
        if let Err(status) = flush(desk, out) {
            return Err(status);
        }
        if let Err(status) = read_more(desk, source, limit) {
            return Err(status);
        }
    }
}

fn is_either(one: bool, other: bool) -> bool
    ensures { result ≡ (one || other) }
{
    one || other
}

/// A round: each feed's turn, in order. The answer is whether some feed gave a line.
fn take_round<D: Desk>(
    alloc: Global,
    desk: &mut D,
    sources: &mut Vec<Source>,
    limit: u64,
    session: &mut MergedSession,
    tokens: &mut Vec<Token>,
    out: &mut Vec<u8>,
) -> Result<bool, Status>
    requires sources { (k : ℕ) × AreSourcesAt (D.inputs desk.old) limit k 0 sources.old.items }
    requires ready { IsReadyMerged session.old }
    requires count { length sources.old.items ≡ feeds_of session.old }
    requires few { length sources.old.items ≤ 8 }
    ensures inputs { D.inputs desk.new ≡ D.inputs desk.old }
    ensures reading { D.in_faults desk.old ≤ D.in_faults desk.new }
    ensures writing { D.out_faults desk.old ≤ D.out_faults desk.new }
    ensures words { IfErr result (λ status. status ≡ Status.Words → ⊥) }
    ensures causes { IfErr result (HasCauses (D.in_faults desk.old) (D.in_faults desk.new) (D.out_faults desk.old) (D.out_faults desk.new)) }
    ensures ready { OnOk result (IsReadyMerged session.new) }
    ensures count { OnOk result (feeds_of session.new ≡ feeds_of session.old) }
    ensures length { length sources.new.items ≡ length sources.old.items }
    ensures sources { IfOk result (λ some. (k : ℕ) → AreSourcesAt (D.inputs desk.old) limit k 0 sources.old.items → AreSourcesAt (D.inputs desk.old) limit (k + 1) 0 sources.new.items × (some ≡ true → k < limit)) }
    ensures told { D.tells ≡ true → (f : Frame) (base : ℕ) (old : Told) (names : Items (Items ℕ)) (round : ℕ) → AreAt f base limit old names round 0 sources.old.items session.old out.old.items (D.told desk.old)
        → TakesRound f base limit old names round sources.new.items result session.new out.new.items (D.told desk.new) }
{
    let mut some = false;
    let mut feed = 0;
    while feed < sources.len() {
        let source = &mut sources[feed];
        let gave = match take_turn(alloc, desk, source, feed as u8, limit, session, tokens, out) {
            Ok(gave) => gave,
            Err(status) => return Err(status),
        };
        some = is_either(some, gave);
        feed += 1;
    }
    Ok(some)
}

/// Takes the lines of all logs, round by round, until no log has one left.
pub fn take_rounds<D: Desk>(
    alloc: Global,
    desk: &mut D,
    sources: &mut Vec<Source>,
    limit: u64,
    session: &mut MergedSession,
    out: &mut Vec<u8>,
) -> Result<(), Status>
    requires sources { AreSourcesAt (D.inputs desk.old) limit 0 0 sources.old.items }
    requires ready { IsReadyMerged session.old }
    requires count { length sources.old.items ≡ feeds_of session.old }
    requires few { length sources.old.items ≤ 8 }
    ensures inputs { D.inputs desk.new ≡ D.inputs desk.old }
    ensures reading { D.in_faults desk.old ≤ D.in_faults desk.new }
    ensures writing { D.out_faults desk.old ≤ D.out_faults desk.new }
    ensures words { IfErr result (λ status. status ≡ Status.Words → ⊥) }
    ensures causes { IfErr result (HasCauses (D.in_faults desk.old) (D.in_faults desk.new) (D.out_faults desk.old) (D.out_faults desk.new)) }
    ensures told { D.tells ≡ true → (f : Frame) (base : ℕ) (old : Told) (names : Items (Items ℕ)) → AreAt f base limit old names 0 0 sources.old.items session.old out.old.items (D.told desk.old)
        → TakesRounds f base limit old names sources.new.items result session.new out.new.items (D.told desk.new) }
{
    let mut tokens = Vec::new(alloc);
    let mut round: u64 = 0;
    loop {
        let some = match take_round(alloc, desk, sources, limit, session, &mut tokens, out) {
            Ok(some) => some,
            Err(status) => return Err(status),
        };
        if !some {
            return Ok(());
        }
        round += 1;
    }
}
