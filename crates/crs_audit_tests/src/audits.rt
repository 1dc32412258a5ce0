//! Audits of outputs that are worked by hand.
use crs_audit::{AuditRefused, audit, audit_line, audit_ok_line};
use crs_base::{Symbols, Text};
use crs_compile::compile;
use crs_parse::read_models;
use std::alloc::{AllocError, Global};
use std::process::Abort;
use std::test::Fail;

/// The text with a line end in place of each slash.
pub(crate) fn lines_of(alloc: Global, text: &str) -> Result<Vec<u8>, AllocError> {
    let mut bytes = Vec::new(alloc);
    for b in text.as_bytes() {
        bytes.push(if *b == b'/' { b'\n' } else { *b })?;
    }
    Ok(bytes)
}

/// The line of the audit of an output by models and a log.
fn answer(alloc: Global, models: &str, log: &str, output: &str) -> Result<Text, Fail> {
    let models = lines_of(alloc, models)?;
    let log = lines_of(alloc, log)?;
    let output = lines_of(alloc, output)?;
    let mut symbols = Symbols::new(alloc, 100)?;
    let models = read_models(alloc, models.as_slice(), &mut symbols)?;
    let plans = compile(alloc, models)?;
    let told = audit(
        alloc,
        &plans,
        &mut symbols,
        100,
        log.as_slice(),
        output.as_slice(),
    );
    match told {
        Ok(claims) => Ok(audit_ok_line(alloc, claims)?),
        Err(AuditRefused::At { line, word }) => Ok(audit_line(alloc, line, word)?),
        Err(AuditRefused::Memory) => Err(AllocError)?,
    }
}

/// Each row is an output and the answer of its audit, with slashes for line ends.
fn rows_answer_so(
    rt: &impl Abort,
    alloc: Global,
    models: &str,
    log: &str,
    rows: &[(&str, &str)],
) -> Result<(), Fail> {
    for (output, wanted) in rows {
        let text = answer(alloc, models, log, output)?;
        let wanted = lines_of(alloc, wanted)?;
        assert!(rt; text.bytes() == wanted.as_slice());
    }
    Ok(())
}

/// Two events, at most five ticks apart.
pub(crate) const MODELS: &str =
    "message a 0/message b 0/chronicle c {/  event(a, t1)/  event(b, t2)/  t2 - t1 in [1, 5]/}/";

#[test]
fn a_line_and_its_changes(rt: HostRuntime) -> Result<(), Fail> {
    let rows = [
        ("c at 13 t1=10 t2=12 cites 0 1/", "audit ok 1/"),
        ("c at 13 t1=10 t2=12 cites 0 1", "audit ok 1/"),
        ("c at 13 t1=10 t2=12 cites 1 0/", "audit line 1 fit/"),
        ("c at 12 t1=10 t2=12 cites 0 1/", "audit line 1 mark/"),
        ("c at end t1=10 t2=12 cites 0 1/", "audit line 1 mark/"),
        ("c at 13 t1=10 t2=11 cites 0 1/", "audit line 1 text/"),
        ("c at 13 t1=10 t2=12 cites 00 1/", "audit line 1 text/"),
        ("c at 13 cites 0 1/c at 13 cites 0/", "audit line 1 text/"),
        (
            "c at 13 t1=10 t2=12 cites 0 1/c at 13 t1=10 t2=12 cites 0 1/",
            "audit line 2 twice/",
        ),
        ("c at 13 t1=10 t2=12 cites 0 2/", "audit line 1 entry/"),
        ("c at 13 t1=10 t2=12 cites 0 0/", "audit line 1 entry/"),
        ("c at 13 t1=10 t2=12 cites 0/", "audit line 1 entry/"),
        ("d at 13 t1=10 t2=12 cites 0 1/", "audit line 1 chronicle/"),
        ("line 6 late 12 13/", "audit ok 0/"),
        ("", "audit ok 0/"),
    ];
    rows_answer_so(&rt, rt.alloc(), MODELS, "10 a/12 b/clock 13/", &rows)
}

#[test]
fn forms_of_claims(rt: HostRuntime) -> Result<(), Fail> {
    let rows = [
        ("c  at 13 cites 0 1/", "audit ok 0/"),
        ("line 1 form//c at 13 t1=10 t2=12/", "audit line 3 form/"),
        ("c at 13 t1=10 t2=12 cites/", "audit line 1 form/"),
        ("c at 13 t1=10 t2=12 cites 0  1/", "audit line 1 form/"),
        ("c at 13 t1=10\tt2=12 cites 0 1/", "audit line 1 form/"),
        ("c at x cites 0 1/", "audit line 1 form/"),
        ("c at 1099511627776 cites 0 1/", "audit line 1 form/"),
        ("c at 13 cites 4294967296 1/", "audit line 1 form/"),
        ("? at 13 cites 0 1/", "audit line 1 form/"),
    ];
    rows_answer_so(&rt, rt.alloc(), MODELS, "10 a/12 b/clock 13/", &rows)
}

#[test]
fn the_last_mark_of_a_number_counts(rt: HostRuntime) -> Result<(), Fail> {
    let rows = [
        ("c at 13 t1=10 t2=12 cites 0 1/", "audit ok 1/"),
        ("c at 12 t1=10 t2=12 cites 0 1/", "audit line 1 entry/"),
    ];
    let log = "delay 2/10 a/clock 12/12 b/clock 13/delay 0/clock 13/";
    rows_answer_so(&rt, rt.alloc(), MODELS, log, &rows)
}

/// The same, from all entries that had arrived.
const PROMPT: &str =
    "message a 0/message b 0/prompt chronicle c {/  event(a, t1)/  event(b, t2)/  t2 - t1 in [1, 5]/}/";

#[test]
fn prompt_chronicles_take_what_had_arrived(rt: HostRuntime) -> Result<(), Fail> {
    let log = "delay 20/10 a/12 b/clock 13/11 b/clock 14/";
    let rows = [
        ("c at 13 t1=10 t2=12 cites 0 1/", "audit ok 1/"),
        ("c at 13 t1=10 t2=11 cites 0 2/", "audit line 1 entry/"),
        ("c at 14 t1=10 t2=11 cites 0 2/", "audit ok 1/"),
    ];
    rows_answer_so(&rt, rt.alloc(), PROMPT, log, &rows)?;
    let late = [("c at 13 t1=10 t2=12 cites 0 1/", "audit line 1 entry/")];
    rows_answer_so(&rt, rt.alloc(), MODELS, log, &late)
}

/// A free point between two events.
pub(crate) const FREE: &str =
    "message a 0/message b 0/chronicle c {/  event(a, t1)/  event(b, t2)/  point p/  p - t1 in [2, 3]/  t2 - p in [2, 3]/}/";

#[test]
fn free_points_have_dates(rt: HostRuntime) -> Result<(), Fail> {
    let log = "10 a/13 b/14 b/16 b/17 b/clock 20/";
    let rows = [
        ("c at 20 t1=10 t2=13 cites 0 1/", "audit line 1 bounds/"),
        (
            "c at 20 t1=10 t2=14 cites 0 2/c at 20 t1=10 t2=16 cites 0 3/",
            "audit ok 2/",
        ),
        ("c at 20 t1=10 t2=17 cites 0 4/", "audit line 1 bounds/"),
    ];
    rows_answer_so(&rt, rt.alloc(), FREE, log, &rows)
}

/// No `x` from an `a` up to a `b`, whose date isn't in the window.
pub(crate) const QUIET: &str =
    "message a 0/message b 0/message x 0/chronicle c {/  event(a, t1)/  event(b, t2)/  t2 - t1 in [1, 9]/  noevent(x, (t1, t2))/}/";

#[test]
fn windows_end_before_their_end(rt: HostRuntime) -> Result<(), Fail> {
    let log = "10 a/12 b/12 x/13 b/clock 20/";
    let rows = [
        ("c at 20 t1=10 t2=12 cites 0 1/", "audit ok 1/"),
        ("c at 20 t1=10 t2=13 cites 0 3/", "audit line 1 window/"),
    ];
    rows_answer_so(&rt, rt.alloc(), QUIET, log, &rows)
}
