//! Runs of which one call on the outside fails: each open, each read and each write in turn.
ghost use Rattle.std.specs.Prelude.{◌≡◌, IfOk};
ghost use Rattle.crs_desk.specs.Memory.{memory_inputs};

use crate::rows::{MODELS, desk_of, ends_so, lines_of, run};
use crs_desk::MemoryDesk;
use crs_top::{STANDARD, Status};
use std::alloc::{AllocError, Global};
use std::process::Abort;
use std::test::Fail;

/// A log of 36 bytes, of which each clock ends a piece of 16.
const LOG: &[u8] = b"1 a\n3 b\nclock 4\n5 a\n6 b\nclock 7\n8 a\n";

/// What a run over that log writes.
const TOLD: &str = "c at 4 t1=1 t2=3/c at 7 t1=1 t2=6/c at 7 t1=5 t2=6/";

/// A desk of that log that moves 16 bytes at a time.
fn desk(alloc: Global) -> Result<MemoryDesk, AllocError>
    ensures { IfOk result (λ d. memory_inputs d ≡ 0) }
{
    let mut desk = desk_of(alloc, MODELS, LOG)?;
    desk.set_piece(16);
    Ok(desk)
}

#[test]
fn each_open_fails_in_turn(rt: HostRuntime) -> Result<(), Fail> {
    let alloc = rt.alloc();
    for (open, status, told) in [
        (1, Status::ReadFault, ""),
        (2, Status::ReadFault, ""),
        (3, Status::Done, TOLD),
    ] {
        let mut desk = desk(alloc)?;
        desk.fail_open(open)?;
        ends_so(&rt, alloc, "run m l", STANDARD, &mut desk, status, told)?;
    }
    Ok(())
}

/// The models are 90 bytes, so that the seventh read of them meets their end.
#[test]
fn each_read_of_the_models_fails_in_turn(rt: HostRuntime) -> Result<(), Fail> {
    let alloc = rt.alloc();
    for read in 1..9 {
        let mut desk = desk(alloc)?;
        desk.fail_read("m", read)?;
        let (status, told) = if read < 8 {
            (Status::ReadFault, "")
        } else {
            (Status::Done, TOLD)
        };
        ends_so(&rt, alloc, "run m l", STANDARD, &mut desk, status, told)?;
    }
    Ok(())
}

/// The fourth read of the log meets its end: what was told of the lines before a failing read stays.
#[test]
fn each_read_of_the_log_fails_in_turn(rt: HostRuntime) -> Result<(), Fail> {
    let alloc = rt.alloc();
    for (read, status, told) in [
        (1, Status::ReadFault, ""),
        (2, Status::ReadFault, "c at 4 t1=1 t2=3/"),
        (3, Status::ReadFault, TOLD),
        (4, Status::ReadFault, TOLD),
        (5, Status::Done, TOLD),
    ] {
        let mut desk = desk(alloc)?;
        desk.fail_read("l", read)?;
        ends_so(&rt, alloc, "run m l", STANDARD, &mut desk, status, told)?;
    }
    Ok(())
}

/// Runs the words with a failing write: a run that ends by it has written a front part of the output, of
/// no more than the writes before it could take. True where the run had no such write, and wrote all.
fn is_over(
    rt: &impl Abort,
    alloc: Global,
    words: &str,
    write: u64,
    output: &[u8],
) -> Result<bool, Fail> {
    let mut desk = desk(alloc)?;
    desk.fail_write(write)?;
    let ended = run(alloc, words, STANDARD, &mut desk)?;
    if ended == Status::Done {
        assert!(rt; desk.written() == output, "{write}");
        return Ok(true);
    }
    assert!(rt; ended == Status::WriteFault, "{write}: {ended:?}");
    assert!(rt; output.starts_with(desk.written()), "{write}");
    let most = write.saturating_sub(1).saturating_mul(16);
    assert!(rt; desk.written().len() as u64 <= most, "{write}");
    Ok(false)
}

/// Fails each write in turn, up to the first run that has none of that number. It comes behind as many
/// runs as the output has pieces of 16 bytes, or behind some more, since a piece may be cut shorter.
fn writes_fail_in_turn(
    rt: &impl Abort,
    alloc: Global,
    words: &str,
    pieces: u64,
    output: &str,
) -> Result<(), Fail> {
    let output = lines_of(alloc, output)?;
    let mut over = 0;
    for write in 1..40 {
        if is_over(rt, alloc, words, write, &output)? {
            over = write;
            break;
        }
    }
    assert!(rt; pieces < over, "{over}");
    Ok(())
}

#[test]
fn each_write_fails_in_turn(rt: HostRuntime) -> Result<(), Fail> {
    writes_fail_in_turn(&rt, rt.alloc(), "run m l", 4, TOLD)
}

#[test]
fn each_write_of_summary_and_pages_fails_in_turn(rt: HostRuntime) -> Result<(), Fail> {
    let told =
        "c at 4 t1=1 t2=3/c at 7 t1=1 t2=6/c at 7 t1=5 t2=6/summary entries 5 refused 0 recognitions 3 kept 2 peak 2/tally count 3/";
    writes_fail_in_turn(&rt, rt.alloc(), "run --summary --tally count m l", 8, told)
}
