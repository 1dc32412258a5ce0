//! Runs over several logs at once: the rounds, their text and their statuses.
ghost use Rattle.std.specs.Prelude.{◌≡◌, IfOk};
ghost use Rattle.crs_desk.specs.Memory.{memory_inputs};

use crate::rows::{MODELS, ends_so, lines_of, models_alone};
use crs_desk::MemoryDesk;
use crs_top::{Limits, STANDARD, Status};
use std::alloc::{AllocError, Global};
use std::process::Abort;
use std::test::Fail;

/// The names of the logs of a test.
const NAMES: [&str; 3] = ["1", "2", "3"];

/// A desk that holds the models and logs, which are parted by a plus sign and have slashes for line
/// ends.
fn desk_of_logs(alloc: Global, logs: &str) -> Result<MemoryDesk, AllocError>
    ensures { IfOk result (λ d. memory_inputs d ≡ 0) }
{
    let mut desk = models_alone(alloc, MODELS.as_bytes())?;
    for (name, log) in NAMES.iter().zip(logs.split('+')) {
        let log = lines_of(alloc, log)?;
        desk.add_file(name, &log)?;
    }
    Ok(desk)
}

/// The words of `feeds` over as many logs as the text has.
fn words_for(logs: &str) -> &'static str {
    match logs.split('+').count() {
        1 => "feeds m 1",
        2 => "feeds m 1 2",
        _ => "feeds m 1 2 3",
    }
}

/// Fails where a row's logs, parted from the output by a bar, have another output or status.
fn row_ends_so(
    rt: &impl Abort,
    alloc: Global,
    limits: Limits,
    piece: usize,
    status: Status,
    row: &str,
) -> Result<(), Fail> {
    let (logs, output) = row.split_once('|').ok_or("row")?;
    let mut desk = desk_of_logs(alloc, logs)?;
    if 0 < piece {
        desk.set_piece(piece);
    }
    ends_so(
        rt,
        alloc,
        words_for(logs),
        limits,
        &mut desk,
        status,
        output,
    )
}

/// The same of rows, one a line, with reads of any length and of one byte each.
fn rows_end_so(rt: &impl Abort, alloc: Global, status: Status, rows: &str) -> Result<(), Fail> {
    for row in rows.lines() {
        row_ends_so(rt, alloc, STANDARD, 0, status, row)?;
        row_ends_so(rt, alloc, STANDARD, 1, status, row)?;
    }
    Ok(())
}

#[test]
fn what_is_new_is_told_at_each_rise(rt: HostRuntime) -> Result<(), Fail> {
    rows_end_so(
        &rt,
        rt.alloc(),
        Status::Done,
        "delay 1/10 a/clock 14/end/+12 b/clock 13/clock 20/|c at 13 t1=10 t2=12/
12 b/clock 13/clock 20/+delay 1/10 a/clock 14/end/|c at 13 t1=10 t2=12/
10 a/end/+12 b/end/|c at end t1=10 t2=12/
10 a/clock 20/+12 b/|
10 a/12 b/clock 20/|c at 20 t1=10 t2=12/
10 a/clock 20/+/+12 b/clock 20/|
",
    )
}

#[test]
fn blank_lines_comments_and_refused_lines_are_turns(rt: HostRuntime) -> Result<(), Fail> {
    rows_end_so(
        &rt,
        rt.alloc(),
        Status::Refusals,
        "clock 9/5 a/+|feed 1 line 2 late 5 9/
//clock 9/5 a/+clock 3/2 b/|feed 2 line 2 late 2 3/feed 1 line 4 late 5 9/
# one/x/+x/x/x|feed 2 line 1 form/feed 1 line 2 form/feed 2 line 2 form/feed 2 line 3 form/
end/clock 1/+clock 4/clock 3/|feed 1 line 2 order/feed 2 line 2 back 3 4/
x+x/x+x|feed 1 line 1 form/feed 2 line 1 form/feed 3 line 1 form/feed 2 line 2 form/
",
    )
}

#[test]
fn a_log_is_too_long_in_its_turn(rt: HostRuntime) -> Result<(), Fail> {
    let limits = Limits {
        bytes: 4,
        ..STANDARD
    };
    let alloc = rt.alloc();
    row_ends_so(
        &rt,
        alloc,
        limits,
        0,
        Status::Refusals,
        "x/+x/|feed 1 line 1 form/feed 2 line 1 form/",
    )?;
    row_ends_so(
        &rt,
        alloc,
        limits,
        0,
        Status::TooLong,
        "x/+x/x/|feed 1 line 1 form/feed 2 line 1 form/feed 2 line 2 form/",
    )?;
    row_ends_so(
        &rt,
        alloc,
        limits,
        0,
        Status::TooLong,
        "x/y/+x/|feed 1 line 1 form/feed 2 line 1 form/feed 1 line 2 form/",
    )?;
    row_ends_so(
        &rt,
        alloc,
        limits,
        0,
        Status::TooLong,
        "x/+xxxxx|feed 1 line 1 form/",
    )
}

#[test]
fn what_fails_leaves_the_text_before_its_turn(rt: HostRuntime) -> Result<(), Fail> {
    let alloc = rt.alloc();
    for open in 1..4 {
        let mut desk = desk_of_logs(alloc, "x/+x/")?;
        desk.fail_open(open)?;
        ends_so(
            &rt,
            alloc,
            "feeds m 1 2",
            STANDARD,
            &mut desk,
            Status::ReadFault,
            "",
        )?;
    }
    let mut desk = desk_of_logs(alloc, "x/+x/")?;
    desk.fail_read("2", 1)?;
    ends_so(
        &rt,
        alloc,
        "feeds m 1 2",
        STANDARD,
        &mut desk,
        Status::ReadFault,
        "feed 1 line 1 form/",
    )?;
    let mut desk = desk_of_logs(alloc, "x/+x/")?;
    desk.fail_read("1", 2)?;
    ends_so(
        &rt,
        alloc,
        "feeds m 1 2",
        STANDARD,
        &mut desk,
        Status::ReadFault,
        "feed 1 line 1 form/feed 2 line 1 form/",
    )?;
    let mut desk = desk_of_logs(alloc, "x/+x/")?;
    desk.fail_write(1)?;
    ends_so(
        &rt,
        alloc,
        "feeds m 1 2",
        STANDARD,
        &mut desk,
        Status::WriteFault,
        "",
    )
}
