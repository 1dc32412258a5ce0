// Drills: runs over made logs.
ghost use Rattle.std.specs.Prelude.{◌≡◌, ◌≤◌, true, IfOk, OnOk};
ghost use Rattle.crs_drill.specs.Drill.{drill_text};
ghost use Rattle.crs_commands.specs.Drills.{Drills, SumsUp};
ghost use Rattle.crs_outcomes.specs.Most.{most_of};
ghost use Rattle.crs_session.specs.Session.{IsReady, Represents, IsUncounted};
ghost use Rattle.crs_outcomes.specs.Status.{HasCauses};
ghost use Rattle.crs_commands.specs.Summing.{TakesLog, IsSummed, WritesSummary};
ghost use Rattle.crs_frames.specs.Frames.{Frame};
ghost use Rattle.crs_session.specs.Texts.{start_of};

use crate::log::summary_of;
use crate::models::prepare;
use crs_base::LINE_LIMIT;
use crs_desk::Desk;
use crs_drill::{drill_models, make_log};
use crs_log::Lines;
use crs_outcomes::{Limits, Status, end_status, refuse, write_text};
use crs_report::{Summary, push_summary_line};
use crs_session::{Session, take_piece, take_rest};
use std::alloc::{AllocError, Global};

/// The most bytes of a made log that are taken at once.
const PIECE: usize = 4096;

/// Runs the models of drills over the log of so many lines that the seed gives, with the levels of
/// events read or not, and writes the summary line.
pub fn drill<D: Desk>(
    alloc: Global,
    desk: &mut D,
    focus: bool,
    seed: u32,
    lines: u32,
    limits: Limits,
) -> Status
    requires least { 1 ≤ seed }
    requires most { seed ≤ 2147483646 }
    requires lines { lines ≤ 1000000 }
    ensures inputs { D.inputs desk.new ≡ D.inputs desk.old }
    ensures words { result ≡ Status.Words → ⊥ }
    ensures causes { HasCauses (D.in_faults desk.old) (D.in_faults desk.new) (D.out_faults desk.old) (D.out_faults desk.new) result }
    ensures told { D.tells ≡ true → Drills focus (most_of limits) seed lines (D.told desk.old) result (D.told desk.new) }
{
    // nobody else chooses the symbols of a made log, so any seed will do
    match prepare(alloc, drill_models(), focus, false, limits, 0) {
        Ok(mut session) => sum_up(alloc, desk, &mut session, seed, lines, limits.bytes),
        Err(refused) => refuse(alloc, desk, refused),
    }
}

/// Takes the lines of the made log, where it has fewer bytes than the limit, and writes the summary
/// line.
fn sum_up<D: Desk>(
    alloc: Global,
    desk: &mut D,
    session: &mut Session,
    seed: u32,
    lines: u32,
    limit: u64,
) -> Status
    requires least { 1 ≤ seed }
    requires most { seed ≤ 2147483646 }
    requires lines { lines ≤ 1000000 }
    requires ready { IsReady session.old }
    requires uncounted { IsUncounted session.old }
    ensures inputs { D.inputs desk.new ≡ D.inputs desk.old }
    ensures words { result ≡ Status.Words → ⊥ }
    ensures causes { HasCauses (D.in_faults desk.old) (D.in_faults desk.new) (D.out_faults desk.old) (D.out_faults desk.new) result }
    ensures told { D.tells ≡ true → (f : Frame) → Represents f session.old (start_of f) → SumsUp session.old.layers.focus f limit (drill_text seed lines) (D.told desk.old) result (D.told desk.new) }
{
    let Ok(log) = make_log(alloc, seed, lines) else {
        return Status::Memory;
    };
    if limit <= log.len() as u64 {
        return Status::TooLong;
    }
    match summary_over(alloc, session, log.as_slice()) {
        Ok(summary) => write_summary(alloc, desk, &summary),
        Err(_) => Status::Memory,
    }
}

/// The numbers of a run over a log that is held whole.
fn summary_over(alloc: Global, session: &mut Session, log: &[u8]) -> Result<Summary, AllocError>
    requires ready { IsReady session.old }
    requires uncounted { IsUncounted session.old }
    ensures { IfOk result (IsSummed session.old log.now) }
{
    take_log(alloc, session, log)?;
    Ok(summary_of(session))
}

/// Takes each line of a log that is held whole, piece by piece, and drops what is to be written for
/// it.
fn take_log(alloc: Global, session: &mut Session, log: &[u8]) -> Result<(), AllocError>
    requires { IsReady session.old }
    ensures { OnOk result (TakesLog log.now session.old session.new) }
{
    let mut lines = Lines::new(alloc, LINE_LIMIT)?;
    let mut rest = log;
    while !rest.is_empty() {
        let (piece, behind) = rest.split_at(rest.len().min(PIECE));
        take_piece(alloc, session, &mut lines, piece)?;
        rest = behind;
    }
    take_rest(alloc, session, &mut lines)?;
    Ok(())
}

/// Writes the line of a run's numbers.
fn write_summary<D: Desk>(alloc: Global, desk: &mut D, summary: &Summary) -> Status
    ensures inputs { D.inputs desk.new ≡ D.inputs desk.old }
    ensures words { result ≡ Status.Words → ⊥ }
    ensures causes { HasCauses (D.in_faults desk.old) (D.in_faults desk.new) (D.out_faults desk.old) (D.out_faults desk.new) result }
    ensures told { D.tells ≡ true → WritesSummary summary.now (D.told desk.old) result (D.told desk.new) }
{
    let mut line = Vec::new(alloc);
    match push_summary_line(&mut line, summary) {
        Ok(()) => write_text(desk, line.as_slice(), end_status(summary.refused > 0)),
        Err(_) => Status::Memory,
    }
}
