//! Whole runs of the command that checks an output: each status, each word, failing calls and limits.
ghost use Rattle.std.specs.Prelude.{◌≡◌, ◌<◌, ◌≤◌, ◌+◌, ◌^◌, IfOk};
ghost use Rattle.crs_desk.specs.Memory.{memory_inputs};

use crate::audits::{FREE, MODELS, QUIET, lines_of};
use crs_desk::MemoryDesk;
use crs_top::{Limits, STANDARD, Status, run_with};
use std::alloc::{AllocError, Global};
use std::process::Abort;
use std::test::Fail;

/// A log of which the last line is refused.
const LOG: &str = "10 a/12 b/clock 13/11 a/";

/// The line of its recognition.
const LINE: &str = "c at 13 t1=10 t2=12 cites 0 1/";

fn words_in(alloc: Global, line: &str) -> Result<Vec<String>, AllocError> {
    let mut words = Vec::new(alloc);
    for word in line.split(' ') {
        words.push(String::from_str(alloc, word)?)?;
    }
    Ok(words)
}

/// A desk that holds models, a log and an output, with slashes for line ends.
fn desk_of(alloc: Global, models: &str, log: &str, output: &str) -> Result<MemoryDesk, AllocError>
    ensures { IfOk result (λ d. memory_inputs d ≡ 0) }
{
    let mut desk = MemoryDesk::new(alloc);
    desk.add_file("m", lines_of(alloc, models)?.as_slice())?;
    desk.add_file("l", lines_of(alloc, log)?.as_slice())?;
    desk.add_file("o", lines_of(alloc, output)?.as_slice())?;
    Ok(desk)
}

/// Fails where a command over a desk has another status, or writes other lines.
fn ends_so(
    rt: &impl Abort,
    alloc: Global,
    words: &str,
    limits: Limits,
    desk: &mut MemoryDesk,
    status: Status,
    written: &str,
) -> Result<(), Fail>
    requires { memory_inputs desk.old < 2 ^ 30 }
    ensures { memory_inputs desk.new ≤ memory_inputs desk.old + 9 }
{
    let words = words_in(alloc, words)?;
    let ended = run_with(alloc, words.as_slice(), limits, desk, Vec::new(alloc));
    assert!(rt; ended == status, "{written}: {ended:?}");
    let lines = lines_of(alloc, written)?;
    assert!(rt; desk.written() == lines.as_slice(), "{written}");
    Ok(())
}

/// The same of the check of an output, with calls that move one byte and with calls that move all.
fn audit_ends_so(
    rt: &impl Abort,
    alloc: Global,
    models: &str,
    log: &str,
    row: (&str, Status, &str),
) -> Result<(), Fail> {
    let (output, status, written) = row;
    let mut desk = desk_of(alloc, models, log, output)?;
    ends_so(
        rt,
        alloc,
        "audit m l o",
        STANDARD,
        &mut desk,
        status,
        written,
    )?;
    let mut desk = desk_of(alloc, models, log, output)?;
    desk.set_piece(1);
    ends_so(
        rt,
        alloc,
        "audit m l o",
        STANDARD,
        &mut desk,
        status,
        written,
    )
}

#[test]
fn a_cited_run_is_sound(rt: HostRuntime) -> Result<(), Fail> {
    let alloc = rt.alloc();
    let written = "c at 13 t1=10 t2=12 cites 0 1/line 4 late 11 13/";
    let mut desk = desk_of(alloc, MODELS, LOG, "")?;
    ends_so(
        &rt,
        alloc,
        "run --cite m l",
        STANDARD,
        &mut desk,
        Status::Refusals,
        written,
    )?;
    audit_ends_so(
        &rt,
        alloc,
        MODELS,
        LOG,
        (written, Status::Done, "audit ok 1/"),
    )
}

#[test]
fn each_word(rt: HostRuntime) -> Result<(), Fail> {
    let alloc = rt.alloc();
    for (output, written) in [
        ("c at 13 t1=10 t2=12/", "audit line 1 form/"),
        ("d at 13 t1=10 t2=12 cites 0 1/", "audit line 1 chronicle/"),
        ("c at 12 t1=10 t2=12 cites 0 1/", "audit line 1 mark/"),
        ("c at 13 t1=10 t2=12 cites 0 2/", "audit line 1 entry/"),
        ("c at 13 t1=10 t2=12 cites 1 0/", "audit line 1 fit/"),
        ("c at 13 t1=10 t2=11 cites 0 1/", "audit line 1 text/"),
        (
            "c at 13 t1=10 t2=12 cites 0 1/line 4 late 11 13/c at 13 t1=10 t2=12 cites 0 1/",
            "audit line 3 twice/",
        ),
    ] {
        let row = (output, Status::Rejected, written);
        audit_ends_so(&rt, alloc, MODELS, LOG, row)?;
    }
    let row = (
        "c at 20 t1=10 t2=13 cites 0 1/",
        Status::Rejected,
        "audit line 1 bounds/",
    );
    audit_ends_so(&rt, alloc, FREE, "10 a/13 b/clock 20/", row)?;
    let row = (
        "c at 20 t1=10 t2=13 cites 0 2/",
        Status::Rejected,
        "audit line 1 window/",
    );
    audit_ends_so(&rt, alloc, QUIET, "10 a/12 x/13 b/clock 20/", row)
}

#[test]
fn outputs_that_claim_nothing(rt: HostRuntime) -> Result<(), Fail> {
    let alloc = rt.alloc();
    for output in ["", "/", "line 6 late 12 13/", "audit ok 1", "c  at 13/"] {
        let row = (output, Status::Done, "audit ok 0/");
        audit_ends_so(&rt, alloc, MODELS, LOG, row)?;
    }
    Ok(())
}

#[test]
fn refused_models(rt: HostRuntime) -> Result<(), Fail> {
    let alloc = rt.alloc();
    let row = (LINE, Status::Rejected, "model line 2 twice/");
    audit_ends_so(&rt, alloc, "message a 0/message a 1/", LOG, row)
}

/// A name that no file has can't be opened.
#[test]
fn each_name_is_opened(rt: HostRuntime) -> Result<(), Fail> {
    let alloc = rt.alloc();
    for words in ["audit x l o", "audit m x o", "audit m l x"] {
        let mut desk = desk_of(alloc, MODELS, LOG, LINE)?;
        ends_so(
            &rt,
            alloc,
            words,
            STANDARD,
            &mut desk,
            Status::ReadFault,
            "",
        )?;
    }
    Ok(())
}

/// A name that stands twice is read twice: the log as its own output claims nothing.
#[test]
fn a_log_as_its_own_output(rt: HostRuntime) -> Result<(), Fail> {
    let alloc = rt.alloc();
    let mut desk = desk_of(alloc, MODELS, LOG, LINE)?;
    ends_so(
        &rt,
        alloc,
        "audit m l l",
        STANDARD,
        &mut desk,
        Status::Done,
        "audit ok 0/",
    )
}

#[test]
fn each_open_fails_in_turn(rt: HostRuntime) -> Result<(), Fail> {
    let alloc = rt.alloc();
    for open in 1..5 {
        let mut desk = desk_of(alloc, MODELS, LOG, LINE)?;
        desk.fail_open(open)?;
        let (status, written) = if open < 4 {
            (Status::ReadFault, "")
        } else {
            (Status::Done, "audit ok 1/")
        };
        ends_so(
            &rt,
            alloc,
            "audit m l o",
            STANDARD,
            &mut desk,
            status,
            written,
        )?;
    }
    Ok(())
}

/// Of each input a first read brings all bytes, and a second one meets the end.
#[test]
fn each_read_fails_in_turn(rt: HostRuntime) -> Result<(), Fail> {
    let alloc = rt.alloc();
    for name in ["m", "l", "o"] {
        for read in 1..4 {
            let mut desk = desk_of(alloc, MODELS, LOG, LINE)?;
            desk.fail_read(name, read)?;
            let (status, written) = if read < 3 {
                (Status::ReadFault, "")
            } else {
                (Status::Done, "audit ok 1/")
            };
            ends_so(
                &rt,
                alloc,
                "audit m l o",
                STANDARD,
                &mut desk,
                status,
                written,
            )?;
        }
    }
    Ok(())
}

/// Nine bytes are written, three at a time, and a write that fails leaves those before it.
#[test]
fn each_write_fails_in_turn(rt: HostRuntime) -> Result<(), Fail> {
    let alloc = rt.alloc();
    for (write, status, written) in [
        (1, Status::WriteFault, ""),
        (2, Status::WriteFault, "audit "),
        (3, Status::Done, "audit ok 1/"),
    ] {
        let mut desk = desk_of(alloc, MODELS, LOG, LINE)?;
        desk.set_piece(6);
        desk.fail_write(write)?;
        ends_so(
            &rt,
            alloc,
            "audit m l o",
            STANDARD,
            &mut desk,
            status,
            written,
        )?;
    }
    Ok(())
}

/// Of three events the limit accepts two, so that the third one has no number.
#[test]
fn the_limit_of_entries_is_that_of_the_run(rt: HostRuntime) -> Result<(), Fail> {
    let alloc = rt.alloc();
    let log = "10 a/12 b/13 b/clock 20/";
    let output = "c at 20 t1=10 t2=13 cites 0 2/";
    for (entries, status, written) in [
        (2, Status::Rejected, "audit line 1 entry/"),
        (3, Status::Done, "audit ok 1/"),
    ] {
        let limits = Limits {
            entries,
            ..STANDARD
        };
        let mut desk = desk_of(alloc, MODELS, log, output)?;
        ends_so(
            &rt,
            alloc,
            "audit m l o",
            limits,
            &mut desk,
            status,
            written,
        )?;
    }
    Ok(())
}

/// A name and an attribute's values are six symbols with the models' own; a seventh isn't accepted.
#[test]
fn the_limit_of_symbols_is_that_of_the_run(rt: HostRuntime) -> Result<(), Fail> {
    let alloc = rt.alloc();
    let models = "message a 1/chronicle c {/  event(a[?x], t)/}/";
    let output = "c at 20 t=10 ?x=v cites 0/c at 20 t=11 ?x=w cites 1/";
    for (symbols, status, written) in [
        (5, Status::Rejected, "audit line 2 entry/"),
        (6, Status::Done, "audit ok 2/"),
    ] {
        let limits = Limits {
            symbols,
            ..STANDARD
        };
        let mut desk = desk_of(alloc, models, "10 a[v]/11 a[w]/clock 20/", output)?;
        ends_so(
            &rt,
            alloc,
            "audit m l o",
            limits,
            &mut desk,
            status,
            written,
        )?;
    }
    Ok(())
}

/// A log of one byte more than 2^26 isn't read, and the output isn't opened then. It is one long line.
#[test]
fn logs_have_a_limit(rt: HostRuntime) -> Result<(), Fail> {
    let alloc = rt.alloc();
    let mut desk = desk_of(alloc, MODELS, LOG, LINE)?;
    desk.add_file("long", vec![in alloc; b'x'; (1 << 26) + 1]?.as_slice())?;
    desk.fail_open(3)?;
    ends_so(
        &rt,
        alloc,
        "audit m long o",
        STANDARD,
        &mut desk,
        Status::TooLong,
        "",
    )
}
