//! Runs in which the delay changes: each clock lags by the delay in force, and the horizon never falls.
use crate::rows::{MODELS, rows_end_so};
use crs_top::Status;
use std::alloc::Global;
use std::process::Abort;
use std::test::Fail;

/// Rows of the two events that end with this status, read byte by byte and in one piece.
fn all_end_so(rt: &impl Abort, alloc: Global, status: Status, rows: &str) -> Result<(), Fail> {
    for piece in [1, 4096] {
        rows_end_so(rt, alloc, "run m l", MODELS, piece, status, rows)?;
    }
    Ok(())
}

#[test]
fn the_next_clock_lags_by_the_new_delay(rt: HostRuntime) -> Result<(), Fail> {
    let alloc = rt.alloc();
    // among the rows: the delay behind the first entry, two delays in a row, one between two equal
    // clocks, and one behind the last clock, which moves nothing
    let done = "delay 2/10 a/clock 13/delay 9/12 b/clock 14/delay 0/clock 14/|c at 14 t1=10 t2=12/
10 a/delay 2/12 b/clock 14/clock 15/|c at 15 t1=10 t2=12/
delay 9/delay 2/10 a/12 b/clock 14/clock 15/|c at 15 t1=10 t2=12/
10 a/12 b/delay 3/clock 13/delay 0/clock 13/|c at 13 t1=10 t2=12/
10 a/12 b/clock 13/delay 5/|c at 13 t1=10 t2=12/
delay 9/10 a/12 b/clock 13/delay 0/|
delay 9/10 a/12 b/clock 13/delay 0/end/|c at end t1=10 t2=12/
";
    all_end_so(&rt, alloc, Status::Done, done)?;
    let refusals =
        "delay 2/delay 1099511627776/10 a/12 b/clock 14/clock 15/|line 2 form/c at 15 t1=10 t2=12/
delay 9/10 a/12 b/clock 13/delay 0/4 a/3 a/|line 7 late 3 4/
";
    all_end_so(&rt, alloc, Status::Refusals, refusals)
}

#[test]
fn the_horizon_never_falls(rt: HostRuntime) -> Result<(), Fail> {
    let alloc = rt.alloc();
    // what was settled stays so, whatever the delay is then, and a clock is judged by the clock before
    let rows = "delay 2/10 a/clock 13/delay 9/10 b/|line 5 late 10 11/
10 a/clock 13/delay 9/clock 14/12 b/11 a/clock 15/|line 5 late 12 13/line 6 late 11 13/
10 a/12 b/clock 13/delay 9/clock 13/11 b/|c at 13 t1=10 t2=12/line 6 late 11 13/
10 a/12 b/clock 13/delay 9/clock 12/|c at 13 t1=10 t2=12/line 5 back 12 13/
";
    all_end_so(&rt, alloc, Status::Refusals, rows)?;
    // an entry dated at the horizon is not late, and waits there while the clocks lag behind it
    let row = "10 a/clock 13/delay 9/clock 14/13 b/clock 22/delay 7/clock 22/|c at 22 t1=10 t2=13/";
    all_end_so(&rt, alloc, Status::Done, row)
}

#[test]
fn delays_of_nothing_and_of_all_in_turn(rt: HostRuntime) -> Result<(), Fail> {
    let alloc = rt.alloc();
    let refusals =
        "delay 1099511627775/10 a/12 b/clock 20/delay 0/13 b/clock 21/delay 1099511627775/20 b/clock 22/22 b/delay 0/clock 23/|c at 21 t1=10 t2=12/c at 21 t1=10 t2=13/line 9 late 20 21/
";
    all_end_so(&rt, alloc, Status::Refusals, refusals)?;
    let done =
        "delay 1099511627775/10 a/12 b/clock 1099511627775/0 a/delay 0/clock 1099511627775/|c at 1099511627775 t1=10 t2=12/
";
    all_end_so(&rt, alloc, Status::Done, done)
}

#[test]
fn no_delay_behind_the_end(rt: HostRuntime) -> Result<(), Fail> {
    let rows = "1 a/delay 2/end/2 a/|line 4 order/
10 a/12 b/end/delay 3/|c at end t1=10 t2=12/line 4 order/
delay 4/end/delay 4/clock 9/|line 3 order/line 4 order/
";
    all_end_so(&rt, rt.alloc(), Status::Refusals, rows)
}
