//! How the tests of whole runs write down a run, and compare it with what is wanted.
ghost use Rattle.std.specs.Prelude.{◌≡◌, ◌<◌, ◌≤◌, ◌+◌, ◌^◌, IfOk};
ghost use Rattle.crs_desk.specs.Memory.{memory_inputs};

use crs_desk::MemoryDesk;
use crs_report::{CountByModel, FirstLast, FirstN, Listener, LongestSpan};
use crs_top::{Limits, STANDARD, Status, run_with};
use std::alloc::{AllocError, Global};
use std::process::Abort;
use std::test::Fail;

/// One event, and another from one to five ticks later.
pub(crate) const MODELS: &str =
    "message a 0\nmessage b 0\nchronicle c {\n  event(a, t1)\n  event(b, t2)\n  t2 - t1 in [1, 5]\n}\n";

/// The text with a line end in place of each slash.
pub(crate) fn lines_of(alloc: Global, text: &str) -> Result<Vec<u8>, AllocError> {
    let mut lines = Vec::new(alloc);
    for byte in text.bytes() {
        lines.push(if byte == b'/' { b'\n' } else { byte })?;
    }
    Ok(lines)
}

pub(crate) fn words_in(alloc: Global, line: &str) -> Result<Vec<String>, AllocError> {
    let mut words = Vec::new(alloc);
    for word in line.split(' ') {
        words.push(String::from_str(alloc, word)?)?;
    }
    Ok(words)
}

/// A desk that holds the models alone.
pub(crate) fn models_alone(alloc: Global, models: &[u8]) -> Result<MemoryDesk, AllocError>
    ensures { IfOk result (λ d. memory_inputs d ≡ 0) }
{
    let mut desk = MemoryDesk::new(alloc);
    desk.add_file("m", models)?;
    Ok(desk)
}

/// A desk that holds the models and a log of these bytes.
pub(crate) fn desk_of(alloc: Global, models: &str, log: &[u8]) -> Result<MemoryDesk, AllocError>
    ensures { IfOk result (λ d. memory_inputs d ≡ 0) }
{
    let mut desk = models_alone(alloc, models.as_bytes())?;
    desk.add_file("l", log)?;
    Ok(desk)
}

/// A listener in a box.
pub(crate) fn boxed<L: Listener>(
    alloc: Global,
    listener: Result<L, AllocError>,
) -> Result<Box<L>, AllocError> {
    Ok(Box::new(alloc, listener?)?)
}

/// One listener of each kind, in the order in which the program hands them in.
fn listeners(alloc: Global) -> Result<Vec<Box<dyn Listener>>, AllocError> {
    let mut listeners: Vec<Box<dyn Listener>> = Vec::new(alloc);
    listeners.push(boxed(alloc, CountByModel::new(alloc))?)?;
    listeners.push(boxed(alloc, FirstLast::new(alloc))?)?;
    listeners.push(boxed(alloc, LongestSpan::new(alloc))?)?;
    listeners.push(boxed(alloc, FirstN::new(alloc, 10))?)?;
    Ok(listeners)
}

/// Runs the words over a desk.
pub(crate) fn run(
    alloc: Global,
    words: &str,
    limits: Limits,
    desk: &mut MemoryDesk,
) -> Result<Status, AllocError>
    requires { memory_inputs desk.old < 2 ^ 31 }
    ensures { memory_inputs desk.new ≤ memory_inputs desk.old + 9 }
{
    let words = words_in(alloc, words)?;
    let listeners = listeners(alloc)?;
    Ok(run_with(alloc, words.as_slice(), limits, desk, listeners))
}

/// Fails where a run over a desk has another status or another output, which is written with slashes
/// for line ends.
pub(crate) fn ends_so(
    rt: &impl Abort,
    alloc: Global,
    words: &str,
    limits: Limits,
    desk: &mut MemoryDesk,
    status: Status,
    output: &str,
) -> Result<(), Fail>
    requires { memory_inputs desk.old < 2 ^ 30 }
    ensures { memory_inputs desk.new ≤ memory_inputs desk.old + 9 }
{
    let ended = run(alloc, words, limits, desk)?;
    assert!(rt; ended == status, "{output}: {ended:?}");
    let lines = lines_of(alloc, output)?;
    assert!(rt; desk.written() == lines.as_slice(), "{output}");
    Ok(())
}

/// The same of a row: a log and its output, parted by a bar, with slashes for line ends. A piece of no
/// bytes stands for reads of any length.
pub(crate) fn row_ends_so(
    rt: &impl Abort,
    alloc: Global,
    words: &str,
    models: &str,
    piece: usize,
    status: Status,
    row: &str,
) -> Result<(), Fail> {
    let (log, output) = row.split_once('|').ok_or("row")?;
    let log = lines_of(alloc, log)?;
    let mut desk = desk_of(alloc, models, &log)?;
    if 0 < piece {
        desk.set_piece(piece);
    }
    ends_so(rt, alloc, words, STANDARD, &mut desk, status, output)
}

/// The same of rows, one a line.
pub(crate) fn rows_end_so(
    rt: &impl Abort,
    alloc: Global,
    words: &str,
    models: &str,
    piece: usize,
    status: Status,
    rows: &str,
) -> Result<(), Fail> {
    for row in rows.lines() {
        row_ends_so(rt, alloc, words, models, piece, status, row)?;
    }
    Ok(())
}
