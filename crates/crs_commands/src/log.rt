// A log, read in pieces.
ghost use Rattle.std.specs.Prelude.{◌≡◌, ◌<◌, ◌+◌, ◌^◌, ◌++◌, ℕ, List as Items, true, false, length, map, IfOk, OnOk};
ghost use Rattle.std.specs.List.{AllByRecursion};
ghost use Rattle.crs_desk.specs.Desk.{stream_at};
ghost use Rattle.crs_report.specs.Listeners.{notice_of, members_after};
ghost use Rattle.crs_session.specs.Session.{IsReady, Represents, IsUncounted};
ghost use Rattle.crs_frames.specs.Frames.{Frame};
ghost use Rattle.crs_session.specs.Texts.{start_of};
ghost use Rattle.crs_commands.specs.Logs.{tail_of, summary_of, IsSummaryOf, IsTailOf, HasReadLog, TellsPiece, TakesEnd, Finishes};
ghost use Rattle.crs_outcomes.specs.Status.{HasCauses};
ghost use Rattle.crs_session.specs.Written.{HasEntry};

use crs_base::LINE_LIMIT;
use crs_desk::{Desk, DeskError, write_all};
use crs_log::Lines;
use crs_outcomes::{Status, end_status, write_text};
use crs_report::{Listener, Summary, push_pages, push_summary_line, tell_each};
use crs_session::{Output, Session, take_piece, take_rest};
use std::alloc::{AllocError, Global};

/// Tells the listeners of the recognitions of an output, and answers its text.
fn tell(listeners: &mut Vec<Box<dyn Listener>>, output: Output) -> Result<Vec<u8>, AllocError>
    requires { AllByRecursion HasEntry output.found }
    ensures text { IfOk result (λ v. v.items ≡ output.text) }
    ensures heard { OnOk result (map (λ b. (kind b, figures b)) listeners.new.items ≡ members_after (map notice_of output.found) (map (λ b. (kind b, figures b)) listeners.old.items)) }
{
    tell_each(listeners, output.found())?;
    Ok(output.into_text())
}

/// The text of the lines that a piece completes. The listeners are told of the recognitions in it.
fn tell_piece(
    alloc: Global,
    session: &mut Session,
    lines: &mut Lines,
    listeners: &mut Vec<Box<dyn Listener>>,
    piece: &[u8],
) -> Result<Vec<u8>, AllocError>
    requires ready { IsReady session.old }
    requires limit { lines.old.limit ≡ 4096 }
    requires open { lines.old.finished ≡ false }
    requires room { lines.old.fed + length piece.now < 2 ^ 64 }
    ensures { IfOk result (λ v. TellsPiece lines.old lines.new session.old session.new (map (λ b. (kind b, figures b)) listeners.old.items) (map (λ b. (kind b, figures b)) listeners.new.items) piece.now v.items) }
{
    let output = take_piece(alloc, session, lines, piece)?;
    let text = tell(listeners, output)?;
    Ok(text)
}

/// The numbers of a run whose log was read to its end.
pub fn summary_of(session: &Session) -> Summary
    ensures { result ≡ summary_of session.now }
{
    Summary {
        entries: session.layers.accepted() as u64,
        refused: session.counts.refused,
        recognitions: session.counts.recognitions,
        kept: session.layers.kept(),
        peak: session.counts.peak,
    }
}

/// Writes the summary line of a log that was read to its end, where it is asked for.
fn push_summary(session: &Session, summary: bool, out: &mut Vec<u8>) -> Result<(), AllocError>
    ensures { OnOk result ((line : Items ℕ) × IsSummaryOf summary session.now line × (out.new.items ≡ out.old.items ++ line)) }
{
    if !summary {
        return Ok(());
    }
    push_summary_line(out, &summary_of(session))
}

/// Writes what stands behind the text of a log that was read to its end: the summary line, where
/// it is asked for, and the listeners' pages.
fn push_tail(
    session: &Session,
    summary: bool,
    listeners: &[Box<dyn Listener>],
    out: &mut Vec<u8>,
) -> Result<(), AllocError>
    ensures { OnOk result ((tail : Items ℕ) × IsTailOf summary (map (λ b. (kind b, figures b)) listeners.now) session.now tail × (out.new.items ≡ out.old.items ++ tail)) }
{
    push_summary(session, summary, out)?;
    push_pages(out, listeners)?;
    Ok(())
}

/// The text of a last line that has no line feed, and what stands behind it.
fn take_end(
    alloc: Global,
    session: &mut Session,
    lines: &mut Lines,
    summary: bool,
    listeners: &mut Vec<Box<dyn Listener>>,
) -> Result<Vec<u8>, AllocError>
    requires ready { IsReady session.old }
    requires limit { lines.old.limit ≡ 4096 }
    ensures { IfOk result (λ v. TakesEnd summary (map (λ b. (kind b, figures b)) listeners.old.items) lines.old session.old session.new v.items) }
{
    let output = take_rest(alloc, session, lines)?;
    let mut text = tell(listeners, output)?;
    push_tail(session, summary, listeners.as_slice(), &mut text)?;
    Ok(text)
}

/// Writes the text of a last line that has no line feed, and what stands behind it.
fn finish<D: Desk>(
    alloc: Global,
    desk: &mut D,
    session: &mut Session,
    mut lines: Lines,
    summary: bool,
    listeners: &mut Vec<Box<dyn Listener>>,
) -> Status
    requires ready { IsReady session.old }
    requires limit { lines.limit ≡ 4096 }
    ensures inputs { D.inputs desk.new ≡ D.inputs desk.old }
    ensures words { result ≡ Status.Words → ⊥ }
    ensures causes { HasCauses (D.in_faults desk.old) (D.in_faults desk.new) (D.out_faults desk.old) (D.out_faults desk.new) result }
    ensures told { D.tells ≡ true → Finishes summary (map (λ b. (kind b, figures b)) listeners.old.items) (D.told desk.old) session.old lines result (D.told desk.new) }
{
    let Ok(text) = take_end(alloc, session, &mut lines, summary, listeners) else {
        return Status::Memory;
    };
    let refused = session.counts.refused > 0;
    write_text(desk, text.as_slice(), end_status(refused))
}

/// Reads a log that was just opened to its end, and writes the text of its lines before each next
/// read; behind the last, where a summary is asked for, the summary line, and then the pages of the
/// listeners, who are told of each recognition that is printed.
pub fn read_log<D: Desk>(
    alloc: Global,
    desk: &mut D,
    log: u32,
    limit: u64,
    session: &mut Session,
    summary: bool,
    listeners: &mut Vec<Box<dyn Listener>>,
) -> Status
    requires opened { log < D.inputs desk.old }
    requires fresh { D.tells ≡ true → (stream_at (D.told desk.old).left log).taken ≡ 0 }
    requires ready { IsReady session.old }
    requires uncounted { IsUncounted session.old }
    ensures inputs { D.inputs desk.new ≡ D.inputs desk.old }
    ensures words { result ≡ Status.Words → ⊥ }
    ensures causes { HasCauses (D.in_faults desk.old) (D.in_faults desk.new) (D.out_faults desk.old) (D.out_faults desk.new) result }
    ensures told { D.tells ≡ true → (f : Frame) → Represents f session.old (start_of f) → HasReadLog (tail_of session.old.layers.focus summary (map (λ b. (kind b, figures b)) listeners.old.items)) f (D.told desk.old) log limit result (D.told desk.new) }
{
    let Ok(mut lines) = Lines::new(alloc, LINE_LIMIT) else {
        return Status::Memory;
    };
    let mut taken = 0;
    let mut buf = [0u8; 4096];
    while taken < limit {
        let room = (limit - taken).min(4096) as usize;
        let count = match desk.read(log, &mut buf[..room]) {
            Ok(count) => count,
            Err(DeskError::Failed) => return Status::ReadFault,
            Err(DeskError::Memory) => return Status::Memory,
        };
        if count == 0 {
            return finish(alloc, desk, session, lines, summary, listeners);
        }
        taken += count as u64;
        let Ok(text) = tell_piece(alloc, session, &mut lines, listeners, &buf[..count]) else {
            return Status::Memory;
        };
        match write_all(desk, text.as_slice()) {
            Ok(()) => {}
            Err(DeskError::Failed) => return Status::WriteFault,
            Err(DeskError::Memory) => return Status::Memory,
        }
    }
    Status::TooLong
}
