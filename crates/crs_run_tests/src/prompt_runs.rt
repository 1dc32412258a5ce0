//! Runs of prompt chronicles: told at the first mark behind the entries, once their windows are settled.
use crate::rows::{row_ends_so, rows_end_so};
use crs_top::Status;
use std::alloc::Global;
use std::process::Abort;
use std::test::Fail;

/// Both events as soon as they are accepted.
const PROMPT: &str =
    "message a 0\nmessage b 0\nprompt chronicle p {\nevent(a, t1)\nevent(b, t2)\nt2 - t1 in [1, 5]\n}\n";

/// Two events of one name.
const TWIN: &str =
    "message a 0\nprompt chronicle twin {\nevent(a, t1)\nevent(a, t2)\nt2 - t1 in [0, 5]\n}\n";

/// Rows of one model that end with status 0, read byte by byte and in one piece.
fn all_end_so(
    rt: &impl Abort,
    alloc: Global,
    words: &str,
    models: &str,
    rows: &str,
) -> Result<(), Fail> {
    for piece in [1, 4096] {
        rows_end_so(rt, alloc, words, models, piece, Status::Done, rows)?;
    }
    Ok(())
}

#[test]
fn told_at_the_first_mark_behind_the_entries(rt: HostRuntime) -> Result<(), Fail> {
    // an entry before the first mark, marks with one clock, no mark, the end as the only one, and events
    // whose entries come against the order of their dates
    let rows = "delay 5/12 b/clock 12/10 a/clock 13/|p at 13 t1=10 t2=12/
delay 5/10 a/clock 10/12 b/clock 12/clock 20/|p at 12 t1=10 t2=12/
delay 5/10 a/clock 12/12 b/clock 12/clock 12/|p at 12 t1=10 t2=12/
10 a/12 b/|
10 a/12 b/end/|p at end t1=10 t2=12/
delay 9/12 b/clock 12/11 a/clock 13/10 a/clock 14/|p at 13 t1=11 t2=12/p at 14 t1=10 t2=12/
delay 2/10 a/clock 13/delay 9/12 b/clock 14/|p at 14 t1=10 t2=12/
";
    for words in ["run m l", "run --focus m l"] {
        all_end_so(&rt, rt.alloc(), words, PROMPT, rows)?;
    }
    Ok(())
}

#[test]
fn instances_of_entries_that_are_not_settled(rt: HostRuntime) -> Result<(), Fail> {
    // no mark: nothing is looked for; at `clock 12` the horizon is 10, and the entry 12 alone waits too
    let rows =
        "delay 2/10 a/12 b/clock 12/clock 15/|p at 12 t1=10 t2=12/summary entries 2 refused 0 recognitions 1 kept 2 peak 3/
delay 5/10 a/12 b/|summary entries 2 refused 0 recognitions 0 kept 1 peak 1/
delay 5/10 a/clock 10/12 b/clock 12/|p at 12 t1=10 t2=12/summary entries 2 refused 0 recognitions 1 kept 3 peak 3/
10 a/12 b/end/|p at end t1=10 t2=12/summary entries 2 refused 0 recognitions 1 kept 1 peak 1/
";
    for words in ["run --summary m l", "run --focus --summary m l"] {
        all_end_so(&rt, rt.alloc(), words, PROMPT, rows)?;
    }
    Ok(())
}

#[test]
fn a_late_line_between_two_marks(rt: HostRuntime) -> Result<(), Fail> {
    let row = "delay 2/10 a/clock 14/11 b/13 b/clock 15/|line 4 late 11 12/p at 15 t1=10 t2=13/";
    for piece in [1, 4096] {
        row_ends_so(
            &rt,
            rt.alloc(),
            "run m l",
            PROMPT,
            piece,
            Status::Refusals,
            row,
        )?;
    }
    Ok(())
}

#[test]
fn three_events_against_the_order_of_their_dates(rt: HostRuntime) -> Result<(), Fail> {
    let models =
        "message a 0\nmessage b 0\nmessage d 0\nprompt chronicle r {\nevent(a, t1)\nevent(b, t2)\nevent(d, t3)\nt2 - t1 in [1, 5]\nt3 - t2 in [1, 5]\n}\n";
    let rows = "delay 9/14 d/clock 14/12 b/clock 15/10 a/clock 16/|r at 16 t1=10 t2=12 t3=14/
delay 9/14 d/12 b/10 a/clock 14/|r at 14 t1=10 t2=12 t3=14/
delay 9/14 d/clock 14/10 a/clock 15/12 b/clock 16/clock 30/|r at 16 t1=10 t2=12 t3=14/
";
    all_end_so(&rt, rt.alloc(), "run m l", models, rows)
}

#[test]
fn equal_entries_and_one_that_fits_two_events(rt: HostRuntime) -> Result<(), Fail> {
    let alloc = rt.alloc();
    // no entry is two events; two equal ones are told in both orders
    let rows = "delay 5/5 a/clock 6/|summary entries 1 refused 0 recognitions 0 kept 3 peak 3/
delay 5/5 a/clock 6/7 a/clock 8/|twin at 8 t1=5 t2=7/summary entries 2 refused 0 recognitions 1 kept 5 peak 5/
delay 5/5 a/5 a/clock 6/|twin at 6 t1=5 t2=5/twin at 6 t1=5 t2=5/summary entries 2 refused 0 recognitions 2 kept 5 peak 5/
delay 5/5 a/clock 6/5 a/clock 7/|twin at 7 t1=5 t2=5/twin at 7 t1=5 t2=5/summary entries 2 refused 0 recognitions 2 kept 5 peak 5/
";
    all_end_so(&rt, alloc, "run --summary m l", TWIN, rows)?;
    let rows = "delay 5/10 a/12 b/12 b/clock 12/|p at 12 t1=10 t2=12/p at 12 t1=10 t2=12/
delay 5/10 a/12 b/clock 12/12 b/clock 12/clock 13/|p at 12 t1=10 t2=12/p at 12 t1=10 t2=12/
";
    all_end_so(&rt, alloc, "run m l", PROMPT, rows)
}

/// The window of an `a` at 3 is 4 to 12, and it is settled once the horizon is 13.
#[test]
fn windows_are_judged_when_they_are_settled(rt: HostRuntime) -> Result<(), Fail> {
    let models =
        "message a 0\nmessage b 0\nprompt chronicle q {\nevent(a, t1)\nnoevent(b, (t1 + 1, t1 + 10))\n}\n";
    let rows = "delay 2/3 a/clock 3/clock 14/clock 15/|q at 15 t1=3/
3 a/clock 12/|
3 a/clock 13/|q at 13 t1=3/
3 a/clock 14/|q at 14 t1=3/
delay 9/3 a/clock 22/|q at 22 t1=3/
3 a/end/|q at end t1=3/
3 a/12 b/clock 12/clock 13/|
3 a/13 b/clock 13/|q at 13 t1=3/
delay 2/3 a/12 b/clock 13/clock 15/|
delay 9/3 a/clock 12/3 b/clock 22/|q at 22 t1=3/
delay 9/3 a/clock 12/4 b/clock 22/|
";
    all_end_so(&rt, rt.alloc(), "run m l", models, rows)
}

/// A window that ends at 12, and a last event that comes before, at and behind the mark of that horizon.
#[test]
fn a_window_ends_around_the_mark_of_the_last_event(rt: HostRuntime) -> Result<(), Fail> {
    let models =
        "message a 0\nmessage b 0\nmessage d 0\nprompt chronicle w {\nevent(a, t1)\nevent(b, t2)\nt2 - t1 in [1, 9]\nnoevent(d, (t1, t1 + 2))\n}\n";
    let rows = "delay 5/10 a/15 b/clock 16/clock 17/|w at 17 t1=10 t2=15/
delay 5/10 a/15 b/clock 17/|w at 17 t1=10 t2=15/
delay 5/10 a/15 b/clock 18/|w at 18 t1=10 t2=15/
delay 5/10 a/clock 17/15 b/clock 18/|w at 18 t1=10 t2=15/
delay 5/10 a/11 d/15 b/clock 16/clock 17/|
delay 5/10 a/12 d/15 b/clock 17/|w at 17 t1=10 t2=15/
delay 5/10 a/clock 16/11 d/15 b/clock 17/|
delay 5/10 a/10 d/clock 17/15 b/clock 18/|
";
    all_end_so(&rt, rt.alloc(), "run m l", models, rows)
}

/// The value from 3 to 7: a change that is not settled yet counts once it is, whenever it came.
#[test]
fn a_value_that_changes_among_unsettled_entries(rt: HostRuntime) -> Result<(), Fail> {
    let models =
        "message a 0\nattribute v 0\nprompt chronicle s {\nevent(a, t1)\nhold(v: on, (t1, t1 + 5))\n}\n";
    let rows = "delay 4/1 v: (off, on)/3 a/clock 4/6 v: (on, off)/clock 8/clock 12/|
delay 4/1 v: (off, on)/3 a/clock 4/8 v: (on, off)/clock 11/clock 12/|s at 12 t1=3/
delay 4/3 a/clock 4/1 v: (off, on)/clock 12/|s at 12 t1=3/
delay 4/3 a/clock 7/3 v: (off, on)/clock 12/|s at 12 t1=3/
delay 4/3 a/clock 7/4 v: (off, on)/clock 12/|
delay 4/1 v: (off, on)/3 a/5 v: (on, off)/5 v: (off, on)/clock 12/|
delay 4/1 v: (off, on)/3 a/5 v: (on, on)/clock 12/|s at 12 t1=3/
delay 4/3 a/clock 7/clock 8/clock 12/|
";
    all_end_so(&rt, rt.alloc(), "run m l", models, rows)
}

/// The prompt chronicle and the other have the same events: which stands first is told first at a mark.
#[test]
fn a_prompt_chronicle_beside_another(rt: HostRuntime) -> Result<(), Fail> {
    let alloc = rt.alloc();
    let prompt = "prompt chronicle p {\nevent(a, t1)\nevent(b, t2)\nt2 - t1 in [1, 5]\n}\n";
    let settled = "chronicle c {\nevent(a, t1)\nevent(b, t2)\nt2 - t1 in [1, 5]\n}\n";
    let told =
        "delay 2/10 a/12 b/clock 12/clock 15/|p at 12 t1=10 t2=12/c at 15 t1=10 t2=12/summary entries 2 refused 0 recognitions 2 kept 4 peak 4/";
    for (first, second, end) in [
        (
            prompt,
            settled,
            "10 a/12 b/end/|p at end t1=10 t2=12/c at end t1=10 t2=12/summary entries 2 refused 0 recognitions 2 kept 2 peak 2/",
        ),
        (
            settled,
            prompt,
            "10 a/12 b/end/|c at end t1=10 t2=12/p at end t1=10 t2=12/summary entries 2 refused 0 recognitions 2 kept 2 peak 2/",
        ),
    ] {
        let models = format!(in alloc; "message a 0\nmessage b 0\n{first}{second}")?;
        all_end_so(&rt, alloc, "run --summary m l", models.as_str(), told)?;
        all_end_so(&rt, alloc, "run --summary m l", models.as_str(), end)?;
    }
    Ok(())
}

#[test]
fn a_prompt_chronicle_of_the_name_of_another_is_refused(rt: HostRuntime) -> Result<(), Fail> {
    for models in [
        "message a 0\nprompt chronicle c {\nevent(a, t1)\n}\nchronicle c {\nevent(a, t1)\n}\n",
        "message a 0\nchronicle c {\nevent(a, t1)\n}\nprompt chronicle c {\nevent(a, t1)\n}\n",
    ] {
        let row = "1 a/clock 2/|model line 5 twice/";
        row_ends_so(&rt, rt.alloc(), "run m l", models, 0, Status::Rejected, row)?;
    }
    Ok(())
}

/// With and without focusing a prompt chronicle waits for all its events at once.
#[test]
fn levels_of_a_prompt_chronicle_are_not_read(rt: HostRuntime) -> Result<(), Fail> {
    let models =
        "message often 0\nmessage mid 0\nmessage rare 0\nprompt chronicle lv {\nevent(often, t1) level 2\nevent(mid, t2) level 1\nevent(rare, t3)\nt3 - t1 in [0, 10]\nt2 - t3 in [0, 90]\n}\n";
    let rows =
        "5 often/8 often/12 rare/clock 13/102 mid/clock 103/|lv at 103 t1=5 t2=102 t3=12/lv at 103 t1=8 t2=102 t3=12/summary entries 4 refused 0 recognitions 2 kept 1 peak 5/
delay 3/5 often/12 rare/clock 13/14 mid/clock 14/|lv at 14 t1=5 t2=14 t3=12/summary entries 3 refused 0 recognitions 1 kept 7 peak 7/
delay 3/14 mid/clock 14/|summary entries 1 refused 0 recognitions 0 kept 2 peak 2/
";
    for words in ["run --summary m l", "run --focus --summary m l"] {
        all_end_so(&rt, rt.alloc(), words, models, rows)?;
    }
    Ok(())
}
