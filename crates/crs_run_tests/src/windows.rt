//! Runs of models with windows: what is counted, what holds, and when it is judged.
use crate::rows::rows_end_so;
use crs_top::Status;
use std::alloc::Global;
use std::process::Abort;
use std::test::Fail;

/// Rows of one model that end with status 0, read byte by byte and in one piece.
fn all_end_so(rt: &impl Abort, alloc: Global, models: &str, rows: &str) -> Result<(), Fail> {
    for piece in [1, 4096] {
        rows_end_so(rt, alloc, "run m l", models, piece, Status::Done, rows)?;
    }
    Ok(())
}

/// An event that no other follows within ten ticks. The window of an `a` at 3 is 4 to 12.
#[test]
fn an_entry_that_is_forbidden(rt: HostRuntime) -> Result<(), Fail> {
    let models =
        "message a 0\nmessage b 0\nchronicle q {\nevent(a, t1)\nnoevent(b, (t1 + 1, t1 + 10))\n}\n";
    let rows = "3 a/clock 12/clock 13/|q at 13 t1=3/
3 a/12 b/clock 12/clock 13/|
3 a/13 b/clock 12/clock 13/|q at 13 t1=3/
3 b/3 a/clock 13/|q at 13 t1=3/
3 a/4 b/clock 13/|
";
    all_end_so(&rt, rt.alloc(), models, rows)
}

/// One or two entries between two events: the date of the second event is outside.
#[test]
fn entries_that_are_counted(rt: HostRuntime) -> Result<(), Fail> {
    let models =
        "message a 0\nmessage b 0\nmessage z 0\nchronicle o {\nevent(a, t1)\nevent(z, t2)\nt2 - t1 in [1, 20]\noccurs((1, 2), b, (t1, t2))\n}\n";
    let rows = "10 a/20 z/clock 21/|
10 a/11 b/20 z/clock 21/|o at 21 t1=10 t2=20/
10 a/11 b/12 b/20 z/clock 21/|o at 21 t1=10 t2=20/
10 a/11 b/12 b/13 b/20 z/clock 21/|
10 a/11 b/12 b/20 b/20 z/clock 21/|o at 21 t1=10 t2=20/
9 b/10 a/20 z/clock 21/|
10 b/10 a/20 z/clock 21/|o at 21 t1=10 t2=20/
";
    all_end_so(&rt, rt.alloc(), models, rows)
}

/// Two entries in the window where one is the most.
#[test]
fn counts_above_their_most(rt: HostRuntime) -> Result<(), Fail> {
    let models =
        "message a 0\nmessage b 0\nmessage z 0\nchronicle o {\nevent(a, t1)\nevent(z, t2)\nt2 - t1 in [1, 20]\noccurs((0, 1), b, (t1, t2))\n}\n";
    let rows = "10 a/11 b/12 b/20 z/clock 21/|
10 a/11 b/20 z/clock 21/|o at 21 t1=10 t2=20/
10 a/20 z/clock 21/|o at 21 t1=10 t2=20/
";
    all_end_so(&rt, rt.alloc(), models, rows)
}

/// The entry of an event is counted as any other: at 10 it is the first of two.
#[test]
fn events_that_are_counted_too(rt: HostRuntime) -> Result<(), Fail> {
    let models =
        "message b 0\nmessage z 0\nchronicle o {\nevent(b, t1)\nevent(z, t2)\nt2 - t1 in [1, 20]\noccurs((0, 1), b, (t1, t2))\n}\n";
    let rows = "10 b/12 b/20 z/clock 21/|o at 21 t1=12 t2=20/
10 b/20 z/clock 21/|o at 21 t1=10 t2=20/
";
    all_end_so(&rt, rt.alloc(), models, rows)
}

/// A valve that is open while it burns. What two changes of one date bring is no value.
#[test]
fn a_value_that_holds_between_events(rt: HostRuntime) -> Result<(), Fail> {
    let models =
        "attribute valve 1 in (open, closed)\nmessage burn 1\nchronicle h {\nevent(burn[?s], t1)\nevent(burn[?s], t2)\nt2 - t1 in [5, 5]\nhold(valve[?s]: open, (t1, t2))\n}\n";
    let rows = "10 burn[s1]/15 burn[s1]/clock 16/|
8 valve[s1]: (closed, open)/10 burn[s1]/15 burn[s1]/clock 16/|h at 16 t1=10 t2=15 ?s=s1/
8 valve[s1]: (closed, open)/8 valve[s1]: (open, closed)/10 burn[s1]/15 burn[s1]/clock 16/|
8 valve[s1]: (closed, open)/15 valve[s1]: (open, closed)/10 burn[s1]/15 burn[s1]/clock 16/|h at 16 t1=10 t2=15 ?s=s1/
8 valve[s2]: (closed, open)/10 burn[s1]/15 burn[s1]/clock 16/|
8 valve[s1]: (closed, open)/14 valve[s1]: (open, closed)/10 burn[s1]/15 burn[s1]/clock 16/|
";
    all_end_so(&rt, rt.alloc(), models, rows)
}

/// The window begins at the date of the event: a change of that date has come by then, whatever its
/// place in the log.
#[test]
fn a_value_that_holds_from_an_event_on(rt: HostRuntime) -> Result<(), Fail> {
    let models =
        "message a 0\nattribute v 0\nchronicle s {\nevent(a, t1)\nhold(v: on, (t1, t1 + 5))\n}\n";
    let rows = "3 a/3 v: (off, on)/clock 8/|s at 8 t1=3/
3 a/clock 8/|
3 a/4 v: (off, on)/clock 8/|
1 v: (on, off)/3 a/3 v: (off, on)/8 v: (on, off)/clock 9/|s at 9 t1=3/
1 v: (off, on)/3 a/7 v: (on, off)/clock 9/|
";
    all_end_so(&rt, rt.alloc(), models, rows)
}

/// Windows of no dates: nothing is in them, and they are judged at their ends all the same.
#[test]
fn windows_that_are_empty(rt: HostRuntime) -> Result<(), Fail> {
    let models =
        "message a 0\nmessage b 0\nchronicle e1 {\nevent(a, t1)\nnoevent(b, (t1 + 5, t1 + 2))\n}\nchronicle e2 {\nevent(a, t1)\noccurs((1, inf), b, (t1 + 5, t1 + 2))\n}\n";
    let rows = "3 a/4 b/6 b/clock 4/clock 5/|e1 at 5 t1=3/
";
    all_end_so(&rt, rt.alloc(), models, rows)
}
