//! Lags and strata, and the first chronicle with which lags are too long.
use crate::rows::{check_rows, emit_line, lines_behind, told};
use std::alloc::Global;
use std::test::Fail;

/// Eight lines, in a chronicle.
const BOUNDED: &[u8] = b"message a 0
message b 0
derived p 0
derived q 0
chronicle low {
event(a, t1)
event(b, t2)
t2 - t1 in [1, 5]
";

#[test]
fn a_lag_reaches_to_the_last_event_and_window(rt: HostRuntime) -> Result<(), Fail> {
    let rows = "0 | 0: }/
5 | 0: emit(p, t1)/}/
0 | 0: emit(p, t2)/}/
5 | 0: emit(p, t2)/emit(q, t1)/}/
5 | 0: emit(q, t1)/emit(q, t2)/}/
15 | 0: event(a, t0)/t1 - t0 in [0, 10]/emit(p, t0)/}/
5 | 0: event(a, t0)/t1 - t0 in [0, 10]/emit(p, t1)/}/
7 | 0: noevent(a, (t1, t2 + 3))/emit(p, t1)/}/
2 | 0: noevent(a, (t1, t2 + 3))/emit(p, t2)/}/
9 | 0: occurs((1, 2), b, (t2, t1 + 10))/emit(p, t1)/}/
8 | 0: occurs((1, 2), b, (t2, t1 + 10))/emit(p, t2)/}/
5 | 0: noevent(a, (t1, t2))/emit(p, t1)/}/
0 | 0: noevent(a, (t1 - 9, t1 - 4))/emit(p, t2)/}/
0 | 0: noevent(a, (t1, t2 + 3))/}/
";
    check_rows(&rt, rt.alloc(), BOUNDED, rows)
}

/// Seven lines, in a chronicle.
const UNBOUNDED: &[u8] = b"message a 0
message b 0
derived p 0
derived q 0
chronicle low {
event(a, t1)
event(b, t2)
";

#[test]
fn lags_that_are_too_long_are_refused(rt: HostRuntime) -> Result<(), Fail> {
    let rows = "0 | 0: }/
9 Lag: emit(p, t1)/}/
9 Lag: emit(p, t2)/}/
10 Lag: t2 - t1 in [1, inf]/emit(p, t1)/}/
0 | 0: t2 - t1 in [1, inf]/emit(p, t2)/}/
11 Lag: t2 - t1 in [1, inf]/emit(p, t2)/emit(q, t1)/}/
11 Lag: t2 - t1 in [1, inf]/noevent(a, (t1, t2 + 1))/emit(p, t1)/}/
1099511627776 | 0: t2 - t1 in [0, 1099511627776]/emit(p, t1)/}/
11 Lag: t2 - t1 in [0, 1099511627776]/noevent(a, (t1, t2 + 2))/emit(p, t1)/}/
1099511627776 | 0: t2 - t1 in [0, 1099511627776]/noevent(a, (t1, t2 + 1))/emit(p, t1)/}/
13 Inconsistent: emit(p, t1)/}/chronicle high {/event(p, t)/t - t in [1, 1]/}/
";
    check_rows(&rt, rt.alloc(), UNBOUNDED, rows)
}

/// Eleven lines, of a chronicle whose lag is half of what all lags may sum up to.
const HALF: &[u8] = b"message a 0
message b 0
derived p 0
derived q 0
derived r 0
chronicle low {
event(a, t1)
event(b, t2)
t2 - t1 in [0, 549755813888]
emit(p, t1)
}
";

#[test]
fn lags_are_summed_over_strata(rt: HostRuntime) -> Result<(), Fail> {
    let rows =
        "549755813888 549755813888 | 0 1: chronicle c {/event(p, t1)/event(p, t2)/t2 - t1 in [0, 549755813888]/emit(q, t1)/}/
17 Lag: chronicle c {/event(p, t1)/event(p, t2)/t2 - t1 in [0, 549755813889]/emit(q, t1)/}/
549755813888 1099511627776 | 0 0: chronicle c {/event(a, t1)/event(b, t2)/t2 - t1 in [0, 1099511627776]/emit(p, t1)/}/
549755813888 549755813889 | 0 0: chronicle c {/event(a, t1)/event(b, t2)/t2 - t1 in [0, 549755813889]/emit(q, t1)/}/
549755813888 0 | 0 1: chronicle c {/event(p, t1)/event(p, t2)/t2 - t1 in [0, 1099511627776]/}/
549755813888 0 0 | 0 1 2: chronicle c {/event(p, t)/emit(q, t)/}/chronicle d {/event(q, t)/}/
549755813888 0 549755813888 | 0 1 0: chronicle c {/event(p, t)/}/chronicle d {/event(a, t1)/event(b, t2)/t2 - t1 in [0, 549755813888]/emit(q, t1)/}/
21 Lag: chronicle c {/event(p, t)/emit(q, t)/}/chronicle d {/event(q, t1)/event(b, t2)/t2 - t1 in [0, 549755813889]/emit(r, t1)/}/
";
    check_rows(&rt, rt.alloc(), HALF, rows)
}

#[test]
fn strata_come_of_what_is_emitted_and_used(rt: HostRuntime) -> Result<(), Fail> {
    let rows = "0 | 0: event(p, t)/}/
0 | 0: event(a, t)/emit(p, t)/}/
0 0 | 0 1: event(a, t)/emit(p, t)/}/chronicle d {/event(p, t)/}/
0 0 | 0 1: event(a, t)/emit(p, t)/}/chronicle d {/event(a, t)/noevent(p, (t, t + 5))/}/
0 0 | 0 1: event(a, t)/emit(p, t)/}/chronicle d {/event(a, t)/occurs((1, inf), p, (t, t + 5))/}/
0 0 | 0 0: event(a, t)/emit(p, t)/}/chronicle d {/event(q, t)/}/
0 0 0 | 0 1 2: event(a, t)/emit(p, t)/}/chronicle d {/event(p, t)/emit(q, t)/}/chronicle e {/event(a, s)/event(q, t)/}/
0 0 0 | 0 0 1: event(a, t)/emit(p, t)/}/chronicle d {/event(a, t)/emit(q, t)/}/chronicle e {/event(p, s)/event(q, t)/}/
0 0 0 | 0 1 2: event(a, t)/emit(p, t)/}/chronicle d {/event(p, t)/emit(q, t)/}/chronicle e {/event(p, s)/event(q, t)/}/
0 0 0 | 0 1 2: event(a, t)/emit(p, t)/}/chronicle d {/event(p, t)/emit(q, t)/}/chronicle e {/event(q, s)/noevent(p, (s, s + 1))/}/
";
    check_rows(
        &rt,
        rt.alloc(),
        b"message a 0\nderived p 0\nderived q 0\nchronicle c {\n",
        rows,
    )
}

/// Chronicles of which each uses what the one above it emits.
fn chain(alloc: Global, count: u32) -> Result<String, Fail> {
    let mut text = String::from_str(alloc, "derived d0 0\n")?;
    for number in 0..count {
        let next = number.saturating_add(1);
        let lines = format!(in alloc;
            "derived d{next} 0\nchronicle c{number} {{\nevent(d{number}, t)\nevent(d{number}, s)\ns - t in [0, 2]\nemit(d{next}, t)\n}}\n"
        )?;
        text.push_str(lines.as_str())?;
    }
    Ok(text)
}

#[test]
fn strata_are_as_many_as_storeys(rt: HostRuntime) -> Result<(), Fail> {
    let alloc = rt.alloc();
    let text = chain(alloc, 8)?;
    assert!(rt; told(alloc, text.as_bytes())?.as_str() == "2 2 2 2 2 2 2 2 | 0 1 2 3 4 5 6 7");
    Ok(())
}

#[test]
fn the_first_chronicle_that_emits_is_found(rt: HostRuntime) -> Result<(), Fail> {
    let alloc = rt.alloc();
    let none = lines_behind(alloc, BOUNDED, "}/")?;
    assert!(rt; emit_line(alloc, &none)? == None);
    let first = lines_behind(alloc, BOUNDED, "emit(p, t1)/}/chronicle d {/event(p, t)/}/")?;
    assert!(rt; emit_line(alloc, &first)? == Some(10));
    let second = lines_behind(alloc, BOUNDED, "}/chronicle d {/event(a, t)/emit(p, t)/}/")?;
    assert!(rt; emit_line(alloc, &second)? == Some(13));
    assert!(rt; emit_line(alloc, b"derived p 0\n")? == None);
    Ok(())
}
