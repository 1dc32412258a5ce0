//! Hints: the place and the sentence that are told of a mistake in a log, and what is told of a log
//! that brings nothing.
use crs_log_hints::{LogWord, RunWatch, Silence, is_near, log_hint};
use std::alloc::{AllocError, Global};
use std::process::Abort;
use std::test::Fail;

/// Fails where the hint at a line that is refused with a word isn't told: its place, and a piece of the
/// sentence.
fn is_told(
    rt: &impl Abort,
    word: LogWord,
    line: &[u8],
    place: Option<usize>,
    piece: &str,
) -> Result<(), Fail> {
    let hint = log_hint(line, word);
    assert!(rt; hint.line == line);
    assert!(rt; hint.sentence.contains(piece), "{piece}: {}", hint.sentence);
    assert!(rt; hint.column == place, "{piece}");
    Ok(())
}

/// Rows of the place that is told, the refused line, and a piece of the sentence.
fn all_are_told(rt: &impl Abort, word: LogWord, rows: &str) -> Result<(), Fail> {
    for row in rows.lines() {
        let (place, others) = row.split_once(" | ").ok_or("row")?;
        let (line, piece) = others.split_once(" | ").ok_or("row")?;
        is_told(rt, word, line.as_bytes(), place.parse().ok(), piece)?;
    }
    Ok(())
}

const OF_DATES: &str = "0 | 2026-11-29T02:41:56 a | no calendar date
0 | 2026-11-29 02:41:56 a | no calendar date
0 | 29/11/2026 a | no calendar date
0 | 29-Nov-2026 a | no calendar date
0 | Nov 29 02:41:56 host a | no calendar date
2 |   02:41:56 a | no calendar date
0 | 10.5 a | a smaller tick
0 | -5 a | begin at 0
0 | 1764383000123 a | a nearer zero
0 | 12345678901234567890 a | a nearer zero
0 | 10s a | without a unit
6 | clock 10.5 | a smaller tick
6 | clock 2026-11-29 | no calendar date
6 | delay 5s | without a unit
5 | clock | one number: clock NUMBER
5 | clock: 12 | one number: clock NUMBER";

const OF_FORM: &str = "10 | 10 a[unit 1] | without blanks
5 | 10 a[\"u\"] | without quotes
3 | 10 'a' | without quotes
5 | 10 a[] | no brackets are written
6 | 10 a[u | the ']' is missing
7 | 10 a[u,] | an argument is wanted
4 | 10 a(u) | arguments stand in '[..]'
4 | 10 a=5 | its old and its new value
7 | 10 v : on | its old and its new value
9 | 10 v: (on) | the new value
5 | 10 a b | nothing may stand behind an event
5 | 10 a # why | a comment stands on a line of its own
4 | 10 a; | without a ';'
0 | Clock 12 | with small letters
0 | clok 14 | the words of a log are 'clock'
0 | END | with small letters
4 | end 5 | nothing may stand behind 'end'
8 | clock 5 6 | nothing may stand behind a statement
0 | a 10 | the date stands in front
2 | 10 | a name is wanted
2 | 10,a | a table is written as a log
0 | what,date,name,args,old,new | 'crs import' writes it
0 | event,10,a,,, | 'crs import' writes it
0 | {\"date\": 10} | this is JSON
0 | <34>10 a | without a priority
0 | pressure is high | a line is DATE NAME
3 | 10 xxxxxxxxxxxxxxxxxxxxxxxxxxxxxxxxxxxxxxxxxxxxxxxxxxxxxxxxxxxxxxxxx | at most 64 bytes";

const OF_PLACES: &str = "2 | 4 a[x] | another number of arguments";

#[test]
fn mistakes_in_dates(rt: HostRuntime) -> Result<(), Fail> {
    all_are_told(&rt, LogWord::Form, OF_DATES)
}

#[test]
fn mistakes_in_statements(rt: HostRuntime) -> Result<(), Fail> {
    all_are_told(&rt, LogWord::Form, OF_FORM)?;
    all_are_told(&rt, LogWord::Arity, OF_PLACES)
}

#[test]
fn files_that_are_no_log(rt: HostRuntime) -> Result<(), Fail> {
    is_told(&rt, LogWord::Form, b"\x1f\x8b\x08", Some(0), "gzip -dc")?;
    is_told(&rt, LogWord::Long, b"\x28\xb5\x2f\xfd", Some(0), "zstd -dc")?;
    is_told(&rt, LogWord::Form, b"BZh91AY", Some(0), "bzip2 -dc")?;
    is_told(&rt, LogWord::Form, b"\xfd7zXZ", Some(0), "xz -dc")?;
    is_told(
        &rt,
        LogWord::Form,
        b"\xef\xbb\xbf10 a",
        Some(0),
        "byte order mark",
    )?;
    is_told(&rt, LogWord::Form, b"\xff\xfe1", Some(0), "UTF-16")?;
    let hint = log_hint(b"10 \xc3\xa9t\xc3\xa9", LogWord::Form);
    assert!(rt; hint.column == Some(3) && hint.byte == Some(0xc3));
    Ok(())
}

#[test]
fn words_behind_the_form(rt: HostRuntime) -> Result<(), Fail> {
    let late = LogWord::Late {
        date: 9,
        horizon: 10,
    };
    is_told(&rt, late, b" 9 a", Some(1), "a greater 'delay'")?;
    let high = LogWord::Late {
        date: 1_764_383_000,
        horizon: 1_000_000_000_000,
    };
    is_told(&rt, high, b"1764383000 a", Some(0), "far higher")?;
    let back = LogWord::Back {
        clock: 19,
        last: 20,
    };
    is_told(&rt, back, b"clock 19", Some(6), "never go back")?;
    is_told(
        &rt,
        LogWord::Value,
        b"4 v: (open, ajar)",
        Some(12),
        "doesn't have this one",
    )?;
    is_told(&rt, LogWord::Order, b"2 a", Some(0), "behind 'end'")?;
    is_told(&rt, LogWord::Long, b"# long", None, "4096")?;
    is_told(&rt, LogWord::Full, b"2 a", None, "2^32 - 1")?;
    is_told(&rt, LogWord::Values, b"2 a[x]", None, "2^20")
}

#[test]
fn names_that_are_near(rt: HostRuntime) {
    for (a, b) in [
        ("low_volt", "low_vlot"),
        ("low_volt", "low_vol"),
        ("low_volt", "low-volt"),
        ("low_volt", "llow_volt"),
        ("low_volt", "LOW_VOLT"),
    ] {
        assert!(rt; is_near(a.as_bytes(), b.as_bytes()), "{b}");
        assert!(rt; is_near(b.as_bytes(), a.as_bytes()), "{b}");
    }
    assert!(rt; !is_near(b"low_volt", b"high_volt"));
    assert!(rt; !is_near(b"low_volt", b"low_v"));
}

/// A run over one log, whose models and whose log came in pieces.
fn watched(alloc: Global, pieces: &[&str]) -> Result<RunWatch, AllocError> {
    let mut watch = RunWatch::new(alloc, 1)?;
    watch.read(0, b"message a 0\nattribute valve 1 in (on, off)\n")?;
    for piece in pieces {
        watch.read(1, piece.as_bytes())?;
    }
    watch.finish()?;
    Ok(watch)
}

#[test]
fn the_refused_line_is_found(rt: HostRuntime) -> Result<(), Fail> {
    let alloc = rt.alloc();
    let mut watch = RunWatch::new(alloc, 2)?;
    watch.read(0, b"message a 0\n")?;
    watch.read(1, b"10 a\n11 a\nclo")?;
    watch.read(2, b"1 b\n")?;
    watch.read(1, b"ck 1.5\r\n12 a")?;
    assert!(rt; watch.wrote(b"line at 12 t=10\n", 4)?.is_none());
    assert!(rt; watch.wrote(b" at 12 t=10\n", 12)?.is_none());
    let Some(refused) = watch.wrote(b"c at 5 t=1\nfeed 1 line 3 form\n", 30)? else {
        return Err("none".into());
    };
    assert!(rt; refused.log == 0 && refused.number == 3 && refused.word == LogWord::Form);
    assert!(rt; refused.line.as_slice() == b"clock 1.5".as_slice());
    assert!(rt; watch.wrote(b"feed 1 line 4 form\n", 19)?.is_none());
    Ok(())
}

#[test]
fn logs_that_bring_nothing(rt: HostRuntime) -> Result<(), Fail> {
    let alloc = rt.alloc();
    let watch = watched(alloc, &["10 valve[x]: (on, off)\n", "12 ", "a\n"])?;
    assert!(rt;
        matches!(
            watch.silence(),
            Some(Silence::NoMark {
                log: 0,
                is_whole: true
            })
        )
    );
    let watch = watched(alloc, &["10 a\ncl", "ock 12"])?;
    assert!(rt; watch.silence().is_none());
    let watch = watched(alloc, &["# none\n10 vavle[x]: (on, off)\nend\n"])?;
    let Some(
        Silence::NoName {
            number,
            name,
            near,
            ..
        },
    ) = watch.silence()
    else {
        return Err("none".into());
    };
    assert!(rt; number == 2 && name == b"vavle".as_slice());
    assert!(rt; near == Some(b"valve".as_slice()));
    Ok(())
}
