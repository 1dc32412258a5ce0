// The lines of a log, as its pieces bring them.
ghost use Rattle.std.specs.Prelude.{◌≡◌, ◌<◌, ◌+◌, ◌^◌, false, length, IfOk, OnOk};
ghost use Rattle.crs_session.specs.Session.{IsReady};
ghost use Rattle.crs_session.specs.Taking.{TakesLines, TakesPiece, TakesRest};

use crate::output::Output;
use crate::session::Session;
use crate::step::{Room, take_line};
use crs_log::Lines;
use std::alloc::{AllocError, Global};

/// Takes each line that is held whole, and adds what it brings to the output.
fn take_lines(
    alloc: Global,
    session: &mut Session,
    lines: &mut Lines,
    out: &mut Output,
) -> Result<(), AllocError>
    requires ready { IsReady session.old }
    requires limit { lines.old.limit ≡ 4096 }
    ensures { OnOk result (TakesLines lines.old lines.new session.old session.new out.old out.new) }
{
    let mut room = Room::new(alloc);
    while let Some(line) = lines.next_line() {
        take_line(alloc, session, line, &mut room, out)?;
    }
    Ok(())
}

/// What is written for the lines that a piece completes.
pub fn take_piece(
    alloc: Global,
    session: &mut Session,
    lines: &mut Lines,
    piece: &[u8],
) -> Result<Output, AllocError>
    requires ready { IsReady session.old }
    requires limit { lines.old.limit ≡ 4096 }
    requires open { lines.old.finished ≡ false }
    requires room { lines.old.fed + length piece.now < 2 ^ 64 }
    ensures { IfOk result (TakesPiece lines.old lines.new session.old session.new piece.now) }
{
    lines.feed(piece)?;
    let mut output = Output::new(alloc);
    take_lines(alloc, session, lines, &mut output)?;
    Ok(output)
}

/// What is written for a last line that has no line feed.
pub fn take_rest(
    alloc: Global,
    session: &mut Session,
    lines: &mut Lines,
) -> Result<Output, AllocError>
    requires ready { IsReady session.old }
    requires limit { lines.old.limit ≡ 4096 }
    ensures { IfOk result (TakesRest lines.old session.old session.new) }
{
    lines.finish();
    let mut output = Output::new(alloc);
    take_lines(alloc, session, lines, &mut output)?;
    Ok(output)
}
