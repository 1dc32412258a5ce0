//! How a run over strata is written down, and compared with what is wanted.
ghost use Rattle.std.specs.Prelude.{◌≡◌, IfOk};
ghost use Rattle.crs_desk.specs.Memory.{memory_inputs};

use crate::rows::lines_behind;
use crs_desk::MemoryDesk;
use crs_report::{CountByModel, FirstLast, FirstN, Listener, LongestSpan};
use crs_top::{Limits, STANDARD, Status, run_with};
use std::alloc::{AllocError, Global};
use std::process::Abort;
use std::test::Fail;

/// The names of all rows, with slashes for line ends.
const NAMES: &str =
    "message a 0/message b 0/message c 0/derived p 0/derived q 0/derived r 0/derived s 0/derived u 0/derived v 0/derived w 0/derived x 0/";

/// The words of a run, the first chronicles of its models, its limit of entries, and its status.
#[derive(Clone, Copy)]
pub(crate) struct Wanted<'a> {
    pub(crate) words: &'a str,
    pub(crate) low: &'a str,
    pub(crate) entries: u32,
    pub(crate) status: Status,
}

/// A desk that holds models and a log.
fn desk_of(alloc: Global, models: &[u8], log: &[u8]) -> Result<MemoryDesk, AllocError>
    ensures { IfOk result (λ d. memory_inputs d ≡ 0) }
{
    let mut desk = MemoryDesk::new(alloc);
    desk.add_file("m", models)?;
    desk.add_file("l", log)?;
    Ok(desk)
}

fn words_in(alloc: Global, line: &str) -> Result<Vec<String>, AllocError> {
    let mut words = Vec::new(alloc);
    for word in line.split(' ') {
        words.push(String::from_str(alloc, word)?)?;
    }
    Ok(words)
}

/// A listener in a box.
fn boxed<L: Listener>(
    alloc: Global,
    listener: Result<L, AllocError>,
) -> Result<Box<L>, AllocError> {
    Ok(Box::new(alloc, listener?)?)
}

/// One listener of each kind.
fn listeners(alloc: Global) -> Result<Vec<Box<dyn Listener>>, AllocError> {
    let mut listeners: Vec<Box<dyn Listener>> = Vec::new(alloc);
    listeners.push(boxed(alloc, CountByModel::new(alloc))?)?;
    listeners.push(boxed(alloc, FirstLast::new(alloc))?)?;
    listeners.push(boxed(alloc, LongestSpan::new(alloc))?)?;
    listeners.push(boxed(alloc, FirstN::new(alloc, 10))?)?;
    Ok(listeners)
}

/// The models of a row: the names, the first chronicles and the rest.
fn models_of(alloc: Global, low: &str, rest: &str) -> Result<Vec<u8>, Fail> {
    let names = lines_behind(alloc, b"", NAMES)?;
    let low = lines_behind(alloc, &names, low)?;
    lines_behind(alloc, &low, rest)
}

/// Fails where a row, the rest of the models, a log and its output, ends in another way.
fn row_ends_so(rt: &impl Abort, alloc: Global, wanted: Wanted<'_>, row: &str) -> Result<(), Fail> {
    let (rest, behind) = row.split_once('|').ok_or("row")?;
    let (log, output) = behind.split_once('|').ok_or("row")?;
    let models = models_of(alloc, wanted.low, rest)?;
    let log = lines_behind(alloc, b"", log)?;
    let output = lines_behind(alloc, b"", output)?;
    let words = words_in(alloc, wanted.words)?;
    let listeners = listeners(alloc)?;
    let limits = Limits {
        entries: wanted.entries,
        ..STANDARD
    };
    let mut desk = desk_of(alloc, &models, &log)?;
    let ended = run_with(alloc, words.as_slice(), limits, &mut desk, listeners);
    assert!(rt; ended == wanted.status, "{row}: {ended:?}");
    assert!(rt; desk.written() == output.as_slice(), "{row}");
    Ok(())
}

/// The same of rows, one a line.
pub(crate) fn rows_end_so(
    rt: &impl Abort,
    alloc: Global,
    wanted: Wanted<'_>,
    rows: &str,
) -> Result<(), Fail> {
    for row in rows.lines() {
        row_ends_so(rt, alloc, wanted, row)?;
    }
    Ok(())
}
