//! Runs of texts that are cut, of bytes of no form, of numbers and counts at their limits, and of a flood.
use crate::rows::{MODELS, ends_so, lines_of, models_alone, row_ends_so, rows_end_so};
use crs_top::{STANDARD, Status};
use std::alloc::Global;
use std::process::Abort;
use std::test::Fail;

/// The log of two entries and a clock, cut by more and more bytes.
#[test]
fn cut_logs(rt: HostRuntime) -> Result<(), Fail> {
    let alloc = rt.alloc();
    let done = "10 a/12 b/clock 13|c at 13 t1=10 t2=12/
10 a/12 b/clock 1|
10 a/12 b/|
10 a/12 b|
10 a|
";
    let refused = "10 a/12 b/clock |line 3 form/
10 a/12 b/clock|line 3 form/
10 a/12 b/c|line 3 form/
10 a/12 |line 2 form/
10 a/1|line 2 form/
10 |line 1 form/
";
    for piece in [1, 4096] {
        rows_end_so(&rt, alloc, "run m l", MODELS, piece, Status::Done, done)?;
        rows_end_so(
            &rt,
            alloc,
            "run m l",
            MODELS,
            piece,
            Status::Refusals,
            refused,
        )?;
    }
    Ok(())
}

#[test]
fn bytes_and_numbers_of_no_form(rt: HostRuntime) -> Result<(), Fail> {
    let alloc = rt.alloc();
    let mut desk = models_alone(alloc, MODELS.as_bytes())?;
    desk.add_file("l", b"\x00\xff\n")?;
    let told = "line 1 form/";
    ends_so(
        &rt,
        alloc,
        "run m l",
        STANDARD,
        &mut desk,
        Status::Refusals,
        told,
    )?;
    // one beyond the greatest date, at each place of a number
    let refused = "1099511627776 a/|line 1 form/
clock 1099511627776/|line 1 form/
delay 1099511627776/|line 1 form/
00000000000000000001 a/|line 1 form/
";
    rows_end_so(&rt, alloc, "run m l", MODELS, 0, Status::Refusals, refused)?;
    let greatest =
        "1099511627774 a/1099511627775 b/clock 1099511627775/end/|c at end t1=1099511627774 t2=1099511627775/";
    row_ends_so(&rt, alloc, "run m l", MODELS, 0, Status::Done, greatest)
}

/// Twenty equal entries, each an event with each other: 380 lines.
#[test]
fn a_flood_of_equal_entries(rt: HostRuntime) -> Result<(), Fail> {
    let alloc = rt.alloc();
    let models =
        "message a 0\nchronicle twin {\n  event(a, t1)\n  event(a, t2)\n  t2 - t1 in [0, 5]\n}\n";
    let mut row = String::new(alloc);
    for _ in 0..20 {
        row.push_str("5 a/")?;
    }
    row.push_str("clock 6/|")?;
    for _ in 0..380 {
        row.push_str("twin at 6 t1=5 t2=5/")?;
    }
    row.push_str("summary entries 20 refused 0 recognitions 380 kept 21 peak 21/")?;
    row_ends_so(
        &rt,
        alloc,
        "run --summary m l",
        models,
        16,
        Status::Done,
        row.as_str(),
    )
}

/// A text, and between its two halves so many equal pieces, but for a star, which is the piece's number.
fn filled(alloc: Global, halves: &str, piece: &str, count: u32) -> Result<String, Fail> {
    let (before, after) = halves.split_once('|').ok_or("halves")?;
    let mut text = String::from_str(alloc, before)?;
    for number in 0..count {
        let (head, tail) = piece.split_once('*').unwrap_or((piece, ""));
        text.push_str(head)?;
        if head.len() < piece.len() {
            let number = format!(in alloc; "{number}")?;
            text.push_str(number.as_str())?;
        }
        text.push_str(tail)?;
    }
    text.push_str(after)?;
    Ok(text)
}

/// Runs filled models, whose line ends are slashes, over a log of one clock: they are accepted where no
/// output is wanted.
fn models_end_so(
    rt: &impl Abort,
    alloc: Global,
    halves: &str,
    (piece, count): (&str, u32),
    output: &str,
) -> Result<(), Fail> {
    let models = filled(alloc, halves, piece, count)?;
    let models = lines_of(alloc, models.as_str())?;
    let mut desk = models_alone(alloc, models.as_slice())?;
    desk.add_file("l", b"clock 1\n")?;
    let status = if output.is_empty() {
        Status::Done
    } else {
        Status::Rejected
    };
    ends_so(rt, alloc, "run m l", STANDARD, &mut desk, status, output)
}

#[test]
fn models_at_their_limits_and_one_beyond(rt: HostRuntime) -> Result<(), Fail> {
    for (halves, piece, most, output) in [
        ("|", "message m* 0/", 256, "model line 257 limit/"),
        (
            "message a 0/chronicle c {/|}/",
            "event(a, t*)/",
            16,
            "model line 19 limit/",
        ),
        (
            "message a 0/|",
            "chronicle c* {/event(a, t)/}/",
            64,
            "model line 194 limit/",
        ),
        ("|/message a 0/", "#", 4096, "model line 1 limit/"),
        ("message | 0/", "a", 64, "model line 1 form/"),
    ] {
        models_end_so(&rt, rt.alloc(), halves, (piece, most), "")?;
        models_end_so(&rt, rt.alloc(), halves, (piece, most + 1), output)?;
    }
    Ok(())
}

#[test]
fn levels_at_their_limit_and_one_beyond(rt: HostRuntime) -> Result<(), Fail> {
    let alloc = rt.alloc();
    let seven = "message a 0/chronicle c {/event(a, t1) level 7/}/|";
    models_end_so(&rt, alloc, seven, ("", 0), "")?;
    let eight = "message a 0/chronicle c {/event(a, t1) level 8/|";
    models_end_so(&rt, alloc, eight, ("", 0), "model line 3 limit/")
}
