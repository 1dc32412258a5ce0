//! Runs over strata. Each row is the rest of the models, a log and its output, parted by bars, with
//! slashes for line ends.
use crate::desk::{Wanted, rows_end_so};
use crs_top::Status;
use std::alloc::Global;
use std::process::Abort;
use std::test::Fail;

/// A chronicle that gives an entry, dated as the first of its two events: its lag is 5.
const LOW: &str = "chronicle low {/event(a, t1)/event(b, t2)/t2 - t1 in [1, 5]/emit(p, t1)/}/";

/// Rows behind `LOW`, or behind the names alone, that end with status 0.
fn all_end_so(
    rt: &impl Abort,
    alloc: Global,
    words: &str,
    low: &str,
    rows: &str,
) -> Result<(), Fail> {
    let wanted = Wanted {
        words,
        low,
        entries: u32::MAX,
        status: Status::Done,
    };
    rows_end_so(rt, alloc, wanted, rows)
}

/// The same of a run of the words and of one with levels.
fn both_end_so(rt: &impl Abort, alloc: Global, low: &str, rows: &str) -> Result<(), Fail> {
    for words in ["run m l", "run --focus m l"] {
        all_end_so(rt, alloc, words, low, rows)?;
    }
    Ok(())
}

#[test]
fn an_entry_is_dated_as_its_event(rt: HostRuntime) -> Result<(), Fail> {
    // at the first and at the last date at which the other event may come; two equal entries
    let low =
        "chronicle up {/event(p, t)/}/|10 a/15 b/clock 15/clock 16/|low at 16 t1=10 t2=15/up at 16 t=10/
chronicle up {/event(p, t)/}/|10 a/11 b/clock 12/clock 15/clock 16/|low at 12 t1=10 t2=11/up at 16 t=10/
chronicle up {/event(p, t)/}/chronicle twin {/event(p, t1)/event(p, t2)/t2 - t1 in [0, 0]/}/|10 a/12 b/12 b/clock 16/|low at 16 t1=10 t2=12/low at 16 t1=10 t2=12/up at 16 t=10/up at 16 t=10/twin at 16 t1=10 t2=10/twin at 16 t1=10 t2=10/
";
    // at each of three events; at the one in the middle; with a window that ends behind the last event
    let rows =
        "chronicle low {/event(a, t1)/event(b, t2)/event(c, t3)/t2 - t1 in [1, 3]/t3 - t2 in [1, 3]/emit(p, t1)/emit(q, t2)/emit(r, t3)/}/chronicle up {/event(p, t)/}/chronicle uq {/event(q, t)/}/chronicle ur {/event(r, t)/}/|10 a/12 b/15 c/clock 16/clock 17/clock 19/clock 22/|low at 16 t1=10 t2=12 t3=15/up at 17 t=10/uq at 19 t=12/ur at 22 t=15/
chronicle low {/event(a, t1)/event(b, t2)/event(c, t3)/t2 - t1 in [1, 5]/t3 - t2 in [0, 2]/emit(p, t2)/}/chronicle up {/event(p, t)/}/|10 a/12 c/12 b/clock 13/clock 14/clock 15/|low at 13 t1=10 t2=12 t3=12/up at 15 t=12/
chronicle low {/event(a, t1)/event(b, t2)/t2 - t1 in [1, 5]/noevent(c, (t1, t2 + 3))/emit(p, t1)/}/chronicle up {/event(p, t)/}/|10 a/15 b/20 a/22 b/24 c/30 a/31 b/clock 32/clock 34/clock 37/clock 38/|low at 32 t1=10 t2=15/up at 32 t=10/low at 34 t1=30 t2=31/up at 38 t=30/
chronicle low {/event(a, t1)/event(b, t2)/t2 - t1 in [1, 5]/noevent(c, (t1, t2 + 3))/emit(p, t1)/}/chronicle up {/event(p, t)/}/|10 a/15 b/clock 17/clock 18/|low at 18 t1=10 t2=15/up at 18 t=10/
chronicle low {/event(a, t1)/event(b, t2)/t2 - t1 in [1, 5]/emit(p, t1)/emit(p, t2)/}/chronicle pair {/event(p, t1)/event(p, t2)/t2 - t1 in [1, 20]/}/|10 a/12 b/clock 15/clock 18/|low at 15 t1=10 t2=12/pair at 18 t1=10 t2=12/
";
    both_end_so(&rt, rt.alloc(), LOW, low)?;
    both_end_so(&rt, rt.alloc(), "", rows)
}

#[test]
fn names_that_no_chronicle_gives_or_uses(rt: HostRuntime) -> Result<(), Fail> {
    // never used; lines of the log with a derived name
    let low = "|10 a/12 b/clock 13/|low at 13 t1=10 t2=12/
chronicle up {/event(p, t)/}/|10 p/10 a/11 p/12 b/5 p/clock 16/end/|low at 16 t1=10 t2=12/up at 16 t=10/
";
    // never given, and looked for by an event and a window
    let rows =
        "chronicle low {/event(a, t)/noevent(p, (t, t + 5))/emit(q, t)/}/chronicle none {/event(p, t)/}/chronicle up {/event(q, t)/}/|10 a/clock 14/clock 15/clock 20/|low at 15 t=10/up at 15 t=10/
";
    both_end_so(&rt, rt.alloc(), LOW, low)?;
    both_end_so(&rt, rt.alloc(), "", rows)
}

#[test]
fn windows_over_given_entries(rt: HostRuntime) -> Result<(), Fail> {
    let rows =
        "chronicle alone {/event(c, t)/noevent(p, (t - 5, t + 5))/}/|10 a/12 b/14 c/20 c/clock 21/clock 29/clock 30/|low at 21 t1=10 t2=12/alone at 30 t=20/
chronicle many {/event(c, t)/occurs((2, 2), p, (t - 5, t))/}/|10 a/11 a/12 b/12 c/15 c/16 c/clock 17/clock 20/clock 21/|low at 17 t1=10 t2=12/low at 17 t1=11 t2=12/many at 20 t=12/many at 21 t=15/
";
    both_end_so(&rt, rt.alloc(), LOW, rows)
}

#[test]
fn marks(rt: HostRuntime) -> Result<(), Fail> {
    // the end alone; none; equal clocks; delays that change
    let rows =
        "chronicle up {/event(p, t)/}/chronicle pair {/event(p, t1)/event(p, t2)/t2 - t1 in [1, 20]/}/|10 a/12 b/20 a/21 b/end/|low at end t1=10 t2=12/low at end t1=20 t2=21/up at end t=10/up at end t=20/pair at end t1=10 t2=20/
chronicle up {/event(p, t)/}/chronicle pair {/event(p, t1)/event(p, t2)/t2 - t1 in [1, 20]/}/|10 a/12 b/20 a/21 b/|
chronicle up {/event(p, t)/}/|10 a/12 b/clock 16/clock 16/16 a/17 b/clock 16/clock 22/clock 22/|low at 16 t1=10 t2=12/up at 16 t=10/low at 22 t1=16 t2=17/up at 22 t=16/
chronicle up {/event(p, t)/}/|delay 2/12 b/10 a/clock 14/clock 15/delay 9/clock 18/delay 0/clock 18/|low at 15 t1=10 t2=12/up at 18 t=10/
";
    both_end_so(&rt, rt.alloc(), LOW, rows)
}

#[test]
fn prompt_chronicles_of_each_stratum(rt: HostRuntime) -> Result<(), Fail> {
    // in the upper one; in the lowest; in both, and with a window
    let low =
        "prompt chronicle up {/event(p, t)/}/|delay 4/12 b/10 a/clock 16/clock 17/clock 21/|low at 17 t1=10 t2=12/up at 17 t=10/
";
    let rows =
        "prompt chronicle low {/event(a, t1)/event(b, t2)/t2 - t1 in [1, 5]/emit(p, t1)/}/chronicle up {/event(p, t)/}/|delay 4/12 b/clock 12/10 a/clock 13/clock 19/clock 20/|low at 13 t1=10 t2=12/up at 20 t=10/
prompt chronicle low {/event(a, t1)/event(b, t2)/t2 - t1 in [1, 5]/emit(p, t1)/}/prompt chronicle up {/event(p, t)/}/prompt chronicle pair {/event(p, t1)/event(p, t2)/t2 - t1 in [1, 20]/}/|delay 4/12 b/clock 12/10 a/clock 13/20 a/22 b/clock 23/|low at 13 t1=10 t2=12/up at 13 t=10/low at 23 t1=20 t2=22/up at 23 t=20/pair at 23 t1=10 t2=20/
prompt chronicle low {/event(a, t1)/event(b, t2)/t2 - t1 in [1, 5]/emit(p, t1)/}/prompt chronicle up {/event(p, t)/noevent(c, (t, t + 3))/}/|delay 4/12 b/10 a/clock 13/clock 21/clock 22/|low at 13 t1=10 t2=12/up at 22 t=10/
";
    both_end_so(&rt, rt.alloc(), LOW, low)?;
    both_end_so(&rt, rt.alloc(), "", rows)
}

#[test]
fn one_two_three_and_eight_strata(rt: HostRuntime) -> Result<(), Fail> {
    let rows =
        "chronicle c0 {/event(a, t)/event(b, s)/s - t in [0, 2]/emit(p, t)/}/|10 a/10 b/clock 11/clock 30/|c0 at 11 t=10 s=10/
chronicle c0 {/event(a, t)/event(b, s)/s - t in [0, 2]/emit(p, t)/}/chronicle c1 {/event(p, t)/event(b, s)/s - t in [0, 2]/emit(q, t)/}/|10 a/10 b/clock 11/clock 12/clock 13/|c0 at 11 t=10 s=10/c1 at 13 t=10 s=10/
chronicle c0 {/event(a, t)/event(b, s)/s - t in [0, 2]/emit(p, t)/}/chronicle c1 {/event(p, t)/event(b, s)/s - t in [0, 2]/emit(q, t)/}/chronicle c2 {/event(q, t)/event(b, s)/s - t in [0, 2]/emit(r, t)/}/|10 a/10 b/clock 11/clock 13/clock 14/clock 15/|c0 at 11 t=10 s=10/c1 at 13 t=10 s=10/c2 at 15 t=10 s=10/
chronicle c0 {/event(a, t)/event(b, s)/s - t in [0, 2]/emit(p, t)/}/chronicle c1 {/event(p, t)/event(b, s)/s - t in [0, 2]/emit(q, t)/}/chronicle c2 {/event(q, t)/event(b, s)/s - t in [0, 2]/emit(r, t)/}/chronicle c3 {/event(r, t)/event(b, s)/s - t in [0, 2]/emit(s, t)/}/chronicle c4 {/event(s, t)/event(b, s)/s - t in [0, 2]/emit(u, t)/}/chronicle c5 {/event(u, t)/event(b, s)/s - t in [0, 2]/emit(v, t)/}/chronicle c6 {/event(v, t)/event(b, s)/s - t in [0, 2]/emit(w, t)/}/chronicle c7 {/event(w, t)/event(b, s)/s - t in [0, 2]/emit(x, t)/}/|10 a/10 b/clock 11/clock 24/clock 25/|c0 at 11 t=10 s=10/c1 at 24 t=10 s=10/c2 at 24 t=10 s=10/c3 at 24 t=10 s=10/c4 at 24 t=10 s=10/c5 at 24 t=10 s=10/c6 at 24 t=10 s=10/c7 at 25 t=10 s=10/
";
    both_end_so(&rt, rt.alloc(), "", rows)
}

#[test]
fn listeners_are_told_in_the_order_of_the_lines(rt: HostRuntime) -> Result<(), Fail> {
    // of two equal spans the first line's is the longest: at one mark that is the upper stratum's, which
    // stands before it in the file
    let rows =
        "chronicle up {/event(p, t)/event(c, s)/s - t in [2, 4]/}/chronicle flat {/event(a, t)/event(c, s)/s - t in [2, 4]/}/|10 a/12 b/13 c/end/|low at end t1=10 t2=12/up at end t=10 s=13/flat at end t=10 s=13/tally count 1 1 1/tally span 10 13/tally longest 3 1 10/tally fewer 7/
chronicle up {/event(p, t)/event(c, s)/s - t in [2, 4]/}/chronicle flat {/event(a, t)/event(c, s)/s - t in [2, 4]/}/|10 a/12 b/13 c/clock 14/clock 19/|low at 14 t1=10 t2=12/flat at 14 t=10 s=13/up at 19 t=10 s=13/tally count 1 1 1/tally span 10 13/tally longest 3 2 10/tally fewer 7/
";
    let words = "run --tally count,span,longest,fewer m l";
    all_end_so(&rt, rt.alloc(), words, LOW, rows)
}

#[test]
fn numbers_of_runs(rt: HostRuntime) -> Result<(), Fail> {
    let rows =
        "chronicle pair {/event(p, t1)/event(p, t2)/t2 - t1 in [1, 20]/}/|10 a/12 b/20 a/21 b/clock 22/clock 26/|low at 22 t1=10 t2=12/low at 22 t1=20 t2=21/pair at 26 t1=10 t2=20/summary entries 4 refused 0 recognitions 3 kept 4 peak 4/
chronicle pair {/event(p, t1) level 1/event(c, t2)/t2 - t1 in [1, 20]/}/|10 a/12 b/20 a/21 b/clock 22/clock 26/27 c/clock 32/clock 33/|low at 22 t1=10 t2=12/low at 22 t1=20 t2=21/pair at 33 t1=10 t2=27/pair at 33 t1=20 t2=27/summary entries 5 refused 0 recognitions 4 kept 4 peak 4/
";
    all_end_so(&rt, rt.alloc(), "run --summary m l", LOW, rows)?;
    let rows =
        "chronicle pair {/event(p, t1) level 1/event(c, t2)/t2 - t1 in [1, 20]/}/|10 a/12 b/20 a/21 b/clock 22/clock 26/27 c/clock 32/clock 33/|low at 22 t1=10 t2=12/low at 22 t1=20 t2=21/pair at 33 t1=10 t2=27/pair at 33 t1=20 t2=27/summary entries 5 refused 0 recognitions 4 kept 2 peak 3/
";
    all_end_so(&rt, rt.alloc(), "run --focus --summary m l", LOW, rows)
}

#[test]
fn entries_that_do_not_fit(rt: HostRuntime) -> Result<(), Fail> {
    // of two given entries none fits, and a logged one doesn't where the other stratum has room; one of
    // two fits, and none behind logged ones; both fit
    let tables = [
        (
            4,
            "chronicle pair {/event(p, t1)/event(p, t2)/t2 - t1 in [1, 20]/}/|10 a/12 b/20 a/21 b/clock 22/clock 26/|low at 22 t1=10 t2=12/low at 22 t1=20 t2=21/line 5 flood 4/summary entries 4 refused 1 recognitions 2 kept 2 peak 3/
chronicle x {/event(a, t)/emit(q, t)/}/chronicle up {/event(p, t)/}/|10 a/12 b/clock 13/30 a/clock 40/|low at 13 t1=10 t2=12/x at 13 t=10/line 4 full 4/up at 40 t=10/summary entries 2 refused 1 recognitions 3 kept 3 peak 4/
",
        ),
        (
            5,
            "chronicle up {/event(p, t)/}/|10 a/12 b/20 a/21 b/clock 22/30 c/clock 26/end/|low at 22 t1=10 t2=12/low at 22 t1=20 t2=21/up at 22 t=10/line 5 flood 5/line 6 full 5/summary entries 4 refused 2 recognitions 3 kept 2 peak 3/
chronicle up {/event(p, t)/}/|10 a/12 b/20 a/21 b/22 c/23 c/clock 26/end/|line 6 full 5/low at 26 t1=10 t2=12/low at 26 t1=20 t2=21/line 7 flood 5/summary entries 5 refused 2 recognitions 2 kept 2 peak 2/
",
        ),
        (
            6,
            "chronicle up {/event(p, t)/}/|10 a/12 b/20 a/21 b/clock 26/30 c/clock 40/end/|low at 26 t1=10 t2=12/low at 26 t1=20 t2=21/up at 26 t=10/up at 26 t=20/line 6 full 6/summary entries 4 refused 1 recognitions 4 kept 2 peak 2/
",
        ),
    ];
    for (entries, rows) in tables {
        let wanted = Wanted {
            words: "run --summary m l",
            low: LOW,
            entries,
            status: Status::Refusals,
        };
        rows_end_so(&rt, rt.alloc(), wanted, rows)?;
    }
    Ok(())
}

#[test]
fn commands_that_take_no_emits(rt: HostRuntime) -> Result<(), Fail> {
    let alloc = rt.alloc();
    for words in ["run --cite m l", "feeds m l l", "audit m l l"] {
        let wanted = Wanted {
            words,
            low: "chronicle none {/event(p, t)/}/",
            entries: u32::MAX,
            status: Status::Rejected,
        };
        let rows = "chronicle low {/event(a, t)/emit(q, t)/}/|1 a/end/|model line 18 hierarchy/
";
        rows_end_so(&rt, alloc, wanted, rows)?;
    }
    Ok(())
}
