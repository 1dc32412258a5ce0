//! Runs of each command: worked logs, words, limits, printed models, drills and pages.
ghost use Rattle.std.specs.Prelude.{◌≡◌, IfOk};
ghost use Rattle.crs_desk.specs.Memory.{memory_inputs};

use crate::rows::{
    MODELS, boxed, desk_of, ends_so, lines_of, models_alone, row_ends_so, rows_end_so, words_in,
};
use crs_desk::MemoryDesk;
use crs_report::{CountByModel, FirstLast, FirstN, Listener, LongestSpan};
use crs_top::{Limits, STANDARD, Status, run_with};
use std::alloc::{AllocError, Global};
use std::process::Abort;
use std::test::Fail;

const USAGE: &str =
    "usage: crs run [--focus] [--summary] [--cite] [--tally KINDS] MODELS LOG\n       crs model [--minimal] MODELS\n       crs drill [--focus] SEED N\n       crs import CSV\n       crs feeds [--focus] MODELS LOG..\n       crs audit MODELS LOG OUTPUT\n";

#[test]
fn worked_logs(rt: HostRuntime) -> Result<(), Fail> {
    let alloc = rt.alloc();
    let done = "|
10 a/12 b/clock 13/|c at 13 t1=10 t2=12/
10 a/12 b/clock 13|c at 13 t1=10 t2=12/
delay 2/12 b/10 a/clock 14/clock 15/|c at 15 t1=10 t2=12/
1 a/3 b/end/|c at end t1=1 t2=3/
1 a/2 a/4 b/clock 5/6 b/clock 7/|c at 5 t1=1 t2=4/c at 5 t1=2 t2=4/c at 7 t1=1 t2=6/c at 7 t1=2 t2=6/
delay 2/10 a/clock 13/delay 9/12 b/clock 14/delay 0/clock 14/|c at 14 t1=10 t2=12/
";
    let refusals =
        "delay 2/10 a/12 b/clock 14/clock 15/12 b/13 b/clock 16/|c at 15 t1=10 t2=12/line 6 late 12 13/c at 16 t1=10 t2=13/
clock 20/clock 19/clock 20/|line 2 back 19 20/
1 a/delay 2/end/2 a/|line 4 order/
end/delay 2/clock 3/end/|line 2 order/line 3 order/line 4 order/
delay 2/10 a/clock 13/delay 9/10 b/|line 5 late 10 11/
delay 1/10 a/11 b[x]/11 b/clock 13/|line 3 arity/c at 13 t1=10 t2=11/
";
    for piece in [1, 4096] {
        rows_end_so(&rt, alloc, "run m l", MODELS, piece, Status::Done, done)?;
        rows_end_so(
            &rt,
            alloc,
            "run m l",
            MODELS,
            piece,
            Status::Refusals,
            refusals,
        )?;
    }
    Ok(())
}

#[test]
fn cited_entries(rt: HostRuntime) -> Result<(), Fail> {
    let alloc = rt.alloc();
    let row = "10 a/12 b/clock 13/11 a/|c at 13 t1=10 t2=12 cites 0 1/line 4 late 11 13/";
    for words in ["run --cite m l", "run --cite --focus m l"] {
        row_ends_so(&rt, alloc, words, MODELS, 0, Status::Refusals, row)?;
    }
    Ok(())
}

/// Two events of one name.
const TWIN: &str =
    "message a 0\nchronicle twin {\n  event(a, t1)\n  event(a, t2)\n  t2 - t1 in [0, 5]\n}\n";

/// An event that no other follows within ten ticks.
const QUIET: &str =
    "message a 0\nmessage b 0\nchronicle q {\nevent(a, t1)\nnoevent(b, (t1 + 1, t1 + 10))\n}\n";

/// Two events near a free point.
const FREE: &str =
    "message a 0\nmessage b 0\nchronicle f {\nevent(a, t1)\nevent(b, t2)\npoint z\nt1 - z in [0, 3]\nt2 - z in [0, 3]\n}\n";

#[test]
fn worked_logs_of_other_models(rt: HostRuntime) -> Result<(), Fail> {
    let alloc = rt.alloc();
    let rows = [
        (
            TWIN,
            "5 a/5 a/clock 6/|twin at 6 t1=5 t2=5/twin at 6 t1=5 t2=5/",
        ),
        (
            QUIET,
            "1 a/clock 10/clock 11/20 a/29 b/40 a/50 b/clock 60/|q at 11 t1=1/q at 60 t1=40/",
        ),
        (FREE, "0 a/3 b/4 b/clock 5/|f at 5 t1=0 t2=3/"),
    ];
    for (models, row) in rows {
        row_ends_so(&rt, alloc, "run m l", models, 1, Status::Done, row)?;
        row_ends_so(&rt, alloc, "run m l", models, 4096, Status::Done, row)?;
    }
    Ok(())
}

#[test]
fn worked_logs_of_refused_models(rt: HostRuntime) -> Result<(), Fail> {
    let alloc = rt.alloc();
    let rows = [
        (
            "message a 0\nchronicle c {\nevent(a, t1)\nevent(a, t2)\nevent(a, t3)\nt2 - t1 in [5, 10]\nt3 - t2 in [5, 10]\nt3 - t1 in [0, 8]\n}\n",
            "1 a/|model line 9 inconsistent/",
        ),
        ("message a 0\nmessage a 1\n", "|model line 2 twice/"),
    ];
    for (models, row) in rows {
        row_ends_so(&rt, alloc, "run m l", models, 1, Status::Rejected, row)?;
        row_ends_so(&rt, alloc, "run m l", models, 4096, Status::Rejected, row)?;
    }
    Ok(())
}

#[test]
fn long_line(rt: HostRuntime) -> Result<(), Fail> {
    let alloc = rt.alloc();
    let mut log = vec![in alloc; b'x'; 4097]?;
    log.extend_from_slice(b"\n3 unknown\n4 a[x]\n5 a\n6 b\nclock 7\n")?;
    ends_so(
        &rt,
        alloc,
        "run m l",
        STANDARD,
        &mut desk_of(alloc, MODELS, &log)?,
        Status::Refusals,
        "line 1 long/line 3 arity/c at 7 t1=5 t2=6/",
    )
}

/// Runs a row at small limits: of symbols, of entries and of bytes.
fn ends_at(
    rt: &impl Abort,
    alloc: Global,
    models: &str,
    limits: (u32, u32, u64),
    status: Status,
    row: &str,
) -> Result<(), Fail> {
    let (symbols, entries, bytes) = limits;
    let limits = Limits {
        symbols,
        entries,
        bytes,
    };
    let (log, output) = row.split_once('|').ok_or("row")?;
    let log = lines_of(alloc, log)?;
    let mut desk = desk_of(alloc, models, &log)?;
    ends_so(rt, alloc, "run m l", limits, &mut desk, status, output)
}

#[test]
fn small_limits(rt: HostRuntime) -> Result<(), Fail> {
    let alloc = rt.alloc();
    let lone = "message a 1\nchronicle c {\nevent(a[?x], t1)\n}\n";
    let full = "1 a/3 b/clock 4/|line 2 full 1/";
    ends_at(&rt, alloc, MODELS, (9, 1, 99), Status::Refusals, full)?;
    let values = "1 a[p]/1 a[c]/clock 2/|line 1 values 4/c at 2 t1=1 ?x=c/";
    ends_at(&rt, alloc, lone, (4, 9, 99), Status::Refusals, values)?;
    let whole = "1 a/3 b/clock 4/|c at 4 t1=1 t2=3/";
    ends_at(&rt, alloc, MODELS, (9, 9, 17), Status::Done, whole)?;
    ends_at(&rt, alloc, MODELS, (9, 9, 16), Status::TooLong, whole)?;
    let none = "1 a/3 b/clock 4/|";
    ends_at(&rt, alloc, MODELS, (9, 9, 12), Status::TooLong, none)?;
    let limit = "1 a/|model line 5 limit/";
    ends_at(&rt, alloc, MODELS, (4, 9, 99), Status::Rejected, limit)?;
    Ok(())
}

#[test]
fn missing_files(rt: HostRuntime) -> Result<(), Fail> {
    let alloc = rt.alloc();
    let mut desk = MemoryDesk::new(alloc);
    ends_so(
        &rt,
        alloc,
        "run m l",
        STANDARD,
        &mut desk,
        Status::ReadFault,
        "",
    )?;
    ends_so(
        &rt,
        alloc,
        "run m",
        STANDARD,
        &mut desk,
        Status::Words,
        USAGE,
    )
}

/// Runs the words over models alone.
fn prints(
    rt: &impl Abort,
    alloc: Global,
    words: &str,
    models: &str,
    status: Status,
    output: &str,
) -> Result<(), Fail> {
    let mut desk = models_alone(alloc, models.as_bytes())?;
    ends_so(rt, alloc, words, STANDARD, &mut desk, status, output)
}

#[test]
fn printed_models(rt: HostRuntime) -> Result<(), Fail> {
    let quiet =
        "message a 0\n# quiet\nchronicle q {\nevent(a , t1) level 0\nnoevent( a,(t1 + 1,t1+ 010))\n}";
    for (words, models, output) in [
        ("model m", MODELS, MODELS),
        (
            "model --minimal m",
            MODELS,
            "chronicle c reach 5/  t2 - t1 in [1, 5]/  earliest t1=0 t2=1/",
        ),
        (
            "model --minimal m",
            FREE,
            "chronicle f reach 3/  t2 - t1 in [-3, 3]/  z - t1 in [-3, 0]/  z - t2 in [-3, 0]/  earliest t1=0 t2=0 z=0/",
        ),
        (
            "model m",
            quiet,
            "message a 0/chronicle q {/  event(a, t1)/  noevent(a, (t1 + 1, t1 + 10))/}/",
        ),
        ("model m", "", ""),
    ] {
        prints(&rt, rt.alloc(), words, models, Status::Done, output)?;
    }
    Ok(())
}

#[test]
fn models_that_are_not_printed(rt: HostRuntime) -> Result<(), Fail> {
    let alloc = rt.alloc();
    let round =
        "message a 0\nmessage b 0\nchronicle c {\nevent(a, t1)\nevent(b, t2)\nt2 - t1 in [1, 5]\nt1 - t2 in [0, 9]\n}\n";
    let inconsistent = "model line 8 inconsistent/";
    for words in ["model m", "model --minimal m", "run m l"] {
        prints(&rt, alloc, words, round, Status::Rejected, inconsistent)?;
    }
    let limit = "model line 1 limit/";
    prints(
        &rt,
        alloc,
        "model m",
        "message a 9\n",
        Status::Rejected,
        limit,
    )?;
    prints(&rt, alloc, "model l", MODELS, Status::ReadFault, "")
}

#[test]
fn other_words(rt: HostRuntime) -> Result<(), Fail> {
    for words in [
        "model m m",
        "model --minimal",
        "model -x",
        "run m",
        "run --summaries m l",
        "models m",
    ] {
        prints(&rt, rt.alloc(), words, MODELS, Status::Words, USAGE)?;
    }
    Ok(())
}

#[test]
fn summaries(rt: HostRuntime) -> Result<(), Fail> {
    let alloc = rt.alloc();
    let words = "run --summary m l";
    let done = "|summary entries 0 refused 0 recognitions 0 kept 1 peak 1/
delay 2/10 a/12 b/clock 14/clock 15/|c at 15 t1=10 t2=12/summary entries 2 refused 0 recognitions 1 kept 2 peak 2/
";
    rows_end_so(&rt, alloc, words, MODELS, 0, Status::Done, done)?;
    let refusals =
        "1 a[x]/1 a/clock 2/clock 1/clock 7/end|line 1 arity/line 4 back 1 2/summary entries 1 refused 2 recognitions 0 kept 1 peak 2/";
    row_ends_so(&rt, alloc, words, MODELS, 0, Status::Refusals, refusals)
}

/// Events of three levels.
const LEVELS: &str =
    "message often 0\nmessage mid 0\nmessage rare 0\nchronicle lv {\nevent(often, t1) level 2\nevent(mid, t2) level 1\nevent(rare, t3)\nt3 - t1 in [0, 10]\nt2 - t3 in [0, 90]\n}\n";

#[test]
fn levels(rt: HostRuntime) -> Result<(), Fail> {
    for (words, status, row) in [
        (
            "run --summary m l",
            Status::Done,
            "5 often/8 often/12 rare/clock 13/102 mid/clock 103/|lv at 103 t1=5 t2=102 t3=12/lv at 103 t1=8 t2=102 t3=12/summary entries 4 refused 0 recognitions 2 kept 1 peak 5/",
        ),
        (
            "run --focus --summary m l",
            Status::Done,
            "5 often/8 often/12 rare/clock 13/102 mid/clock 103/|lv at 103 t1=5 t2=102 t3=12/lv at 103 t1=8 t2=102 t3=12/summary entries 4 refused 0 recognitions 2 kept 1 peak 2/",
        ),
        (
            "run --focus m l",
            Status::Refusals,
            "12 rare/12 often/clock 13/12 mid/|line 4 late 12 13/",
        ),
        (
            "run --focus --summary m l",
            Status::Refusals,
            "12 rare/12 often/clock 13/12 mid/|line 4 late 12 13/summary entries 2 refused 1 recognitions 0 kept 2 peak 2/",
        ),
        (
            "run --focus m l",
            Status::Done,
            "12 mid/12 often/12 rare/clock 13/|lv at 13 t1=12 t2=12 t3=12/",
        ),
    ] {
        row_ends_so(&rt, rt.alloc(), words, LEVELS, 0, status, row)?;
    }
    Ok(())
}

#[test]
fn models_without_levels(rt: HostRuntime) -> Result<(), Fail> {
    let alloc = rt.alloc();
    let battery =
        "message heater_on 1\nmessage heater_off 1\nmessage low_volt 2\nattribute charge 1 in (full, part, low)\nchronicle drain {\n  event(heater_on[?b], t1)\n  event(charge[?b]: (part, low), t2)\n  t2 - t1 in [1, 60]\n  noevent(heater_off[?b], (t1, t2))\n}\nchronicle undervolt {\n  event(low_volt[?b, ?p], t1)\n  event(low_volt[?b, ?p], t2)\n  t2 - t1 in [10, 30]\n  hold(charge[?b]: low, (t1, t2 + 5))\n}\n";
    let day =
        b"# battery unit, day 112\ndelay 5\n100 charge[b1]: (full, part)\n100 charge[b2]: (full, part)\n110 heater_on[b1]\n112 heater_on[b2]\nclock 115\n120 heater_off[b2]\n131 charge[b1]: (part, low)\n129 telemetry[frame7]\nclock 135\n140 charge[b2]: (part, low)\n142 low_volt[b1,p1]\n138 low_volt[b1,p2]\nclock 145\n139 low_volt[b1,p1]\n\n150 heater_on[b1]\n152 low_volt[b1,p1]\n155 low_volt[b1,p2]\nclock 160\n160 charge[b1]: (low, part)\n161 low_volt[b1,p1]\nclock 166\n170 charge[b1]: (part, low)\n171 charge[b1]: (broken)\n172 charge[b1]: (low, empty)\nclock 180\n200 heater_off[b1]\nend\n";
    let told =
        "drain at 145 t1=110 t2=131 ?b=b1\nline 16 late 139 140\nundervolt at 166 t1=138 t2=155 ?b=b1 ?p=p2\nundervolt at 166 t1=142 t2=152 ?b=b1 ?p=p1\nline 26 form\nline 27 value\ndrain at 180 t1=110 t2=170 ?b=b1\ndrain at 180 t1=150 t2=170 ?b=b1\nsummary entries 16 refused 3 recognitions 5 kept 2 peak 9\n";
    let tallied = format!(in alloc;
        "{told}tally count 3 2\ntally span 110 170\ntally longest 60 0 110\ntally fewer 5\n"
    )?;
    for (words, output) in [
        ("run --summary m l", told),
        ("run m l --summary --focus", told),
        (
            "run --summary --tally count,span,longest,fewer m l",
            tallied.as_str(),
        ),
    ] {
        let mut desk = desk_of(alloc, battery, day)?;
        ends_so(
            &rt,
            alloc,
            words,
            STANDARD,
            &mut desk,
            Status::Refusals,
            output,
        )?;
    }
    Ok(())
}

/// Runs the words over a log, and compares the output with what listeners of all kinds write behind it.
fn has_pages(
    rt: &impl Abort,
    alloc: Global,
    words: &str,
    log: &[u8],
    pages: &str,
) -> Result<(), Fail> {
    let words = words_in(alloc, words)?;
    let mut listeners: Vec<Box<dyn Listener>> = Vec::new(alloc);
    listeners.push(boxed(alloc, FirstN::new(alloc, 0))?)?;
    listeners.push(boxed(alloc, CountByModel::new(alloc))?)?;
    listeners.push(boxed(alloc, FirstLast::new(alloc))?)?;
    listeners.push(boxed(alloc, LongestSpan::new(alloc))?)?;
    listeners.push(boxed(alloc, FirstN::new(alloc, 10))?)?;
    let mut desk = desk_of(alloc, MODELS, log)?;
    desk.set_piece(7);
    let _ = run_with(alloc, words.as_slice(), STANDARD, &mut desk, listeners);
    assert!(rt; desk.written() == pages.as_bytes(), "{pages}");
    Ok(())
}

#[test]
fn pages(rt: HostRuntime) -> Result<(), Fail> {
    let one = b"delay 2\n10 a\n12 b\nclock 14\nclock 15\n".as_slice();
    let four = b"1 a\n2 a\n4 b\nclock 5\n6 b\nclock 7\n".as_slice();
    for (words, log, pages) in [
        (
            "run --tally fewer m l",
            b"".as_slice(),
            "tally fewer 0\ntally fewer 10\n",
        ),
        (
            "run --tally count,span,longest m l",
            b"".as_slice(),
            "tally count\ntally span\ntally longest\n",
        ),
        ("run m l", one, "c at 15 t1=10 t2=12\n"),
        (
            "run m --tally=fewer,count l --summary",
            one,
            "c at 15 t1=10 t2=12\nsummary entries 2 refused 0 recognitions 1 kept 2 peak 2\ntally count 1\ntally fewer 9\n",
        ),
        (
            "run --tally count,span,longest,fewer m l",
            four,
            "c at 5 t1=1 t2=4\nc at 5 t1=2 t2=4\nc at 7 t1=1 t2=6\nc at 7 t1=2 t2=6\ntally count 4\ntally span 1 6\ntally longest 5 0 1\ntally fewer 6\n",
        ),
        ("run --tally odd m l", one, USAGE),
    ] {
        has_pages(&rt, rt.alloc(), words, log, pages)?;
    }
    Ok(())
}

/// Runs a drill whose write of this number fails.
fn drills_so(
    rt: &impl Abort,
    alloc: Global,
    words: &str,
    limits: Limits,
    write: u64,
    status: Status,
    output: &str,
) -> Result<(), Fail> {
    let mut desk = MemoryDesk::new(alloc);
    desk.set_piece(10);
    desk.fail_write(write)?;
    ends_so(rt, alloc, words, limits, &mut desk, status, output)
}

#[test]
fn drills(rt: HostRuntime) -> Result<(), Fail> {
    let rows = "drill 7 2|summary entries 2 refused 0 recognitions 0 kept 2 peak 2/
drill 7 0|summary entries 0 refused 0 recognitions 0 kept 2 peak 2/
drill --focus 7 2|summary entries 2 refused 0 recognitions 0 kept 2 peak 2/
drill 7 2000|summary entries 2000 refused 0 recognitions 168 kept 2 peak 94/
drill --focus 7 2000|summary entries 2000 refused 0 recognitions 168 kept 2 peak 15/
";
    for row in rows.lines() {
        let (words, output) = row.split_once('|').ok_or("row")?;
        drills_so(&rt, rt.alloc(), words, STANDARD, 99, Status::Done, output)?;
    }
    Ok(())
}

#[test]
fn drills_that_end_early(rt: HostRuntime) -> Result<(), Fail> {
    let alloc = rt.alloc();
    let small = Limits {
        symbols: 99,
        entries: 9,
        bytes: 32,
    };
    let one = Limits {
        bytes: 33,
        entries: 1,
        ..small
    };
    let few = Limits {
        symbols: 9,
        ..small
    };
    for (words, limits, write, status, output) in [
        ("drill 7 2", small, 99, Status::TooLong, ""),
        (
            "drill 7 2",
            one,
            99,
            Status::Refusals,
            "summary entries 1 refused 1 recognitions 0 kept 2 peak 2/",
        ),
        (
            "drill 7 2",
            few,
            99,
            Status::Rejected,
            "model line 10 limit/",
        ),
        ("drill 7 2", STANDARD, 2, Status::WriteFault, "summary en"),
        ("drill 0 5", STANDARD, 99, Status::Words, USAGE),
    ] {
        drills_so(&rt, alloc, words, limits, write, status, output)?;
    }
    Ok(())
}
