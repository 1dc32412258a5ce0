ghost use Rattle.std.specs.Prelude.{◌≡◌, ◌<◌, ◌^◌, IfOk, map, string_bytes};
ghost use Rattle.crs_desk.specs.Calm.{calm_inputs, calm_told};
ghost use Rattle.crs_top.specs.CommandOutcomes.{CompletesCommand};
ghost use Rattle.crs_top.specs.Most.{most_of};
ghost use Rattle.crs_words.specs.Commands.{command_of};

use crs_desk::CalmDesk;
use crs_top::{Limits, STANDARD, Status, run_with};
use std::alloc::{AllocError, Global};
use std::process::Abort;
use std::test::Fail;

const MODELS: &str =
    "message a 0\nmessage b 0\nchronicle c {\n  event(a, t1)\n  event(b, t2)\n  t2 - t1 in [1, 5]\n}\n";

fn words_of(alloc: Global) -> Result<Vec<String>, AllocError> {
    let mut words = Vec::new(alloc);
    for word in ["run", "m", "l"] {
        words.push(String::from_str(alloc, word)?)?;
    }
    Ok(words)
}

fn desk_of(alloc: Global, models: &str) -> Result<CalmDesk, AllocError>
    ensures { IfOk result (λ d. calm_inputs d ≡ 0) }
{
    let mut desk = CalmDesk::new(alloc);
    desk.add_file("m", models.as_bytes())?;
    Ok(desk)
}

// Runs over a calm desk: no fault can come between the input and the status.
fn run_calmly(alloc: Global, words: &[String], limits: Limits, desk: &mut CalmDesk) -> Status
    requires { calm_inputs desk.old < 2 ^ 31 }
    ensures { CompletesCommand (most_of limits) (calm_told desk.old) (command_of (map string_bytes words.now)) ⊥ result }
{
    run_with(alloc, words, limits, desk, Vec::new(alloc))
}

/// Fails where a run over a calm desk has another status or another output.
fn ends_so(
    rt: &impl Abort,
    alloc: Global,
    limits: Limits,
    desk: &mut CalmDesk,
    status: Status,
    output: &str,
) -> Result<(), Fail>
    requires { calm_inputs desk.old ≡ 0 }
{
    let words = words_of(alloc)?;
    let ended = run_calmly(alloc, words.as_slice(), limits, desk);
    assert_eq!(rt; ended, status);
    assert!(rt; desk.written() == output.as_bytes());
    Ok(())
}

/// A desk that reads in pieces, and gives this seed.
fn seeded_desk(alloc: Global, seed: u64) -> Result<CalmDesk, AllocError>
    ensures { IfOk result (λ d. calm_inputs d ≡ 0) }
{
    let mut desk = desk_of(alloc, MODELS)?;
    desk.add_file("l", b"10 a\n12 b\nclock 13\n14 b\nclock 15")?;
    desk.set_piece(3);
    desk.set_seed(seed);
    Ok(desk)
}

#[test]
fn accepted_models(rt: HostRuntime) -> Result<(), Fail> {
    let alloc = rt.alloc();
    let output = "c at 13 t1=10 t2=12\nc at 15 t1=10 t2=14\n";
    // the same bytes from each seed
    for seed in [0, 1, u64::MAX] {
        let mut desk = seeded_desk(alloc, seed)?;
        ends_so(&rt, alloc, STANDARD, &mut desk, Status::Done, output)?;
    }
    Ok(())
}

#[test]
fn a_missing_log_is_an_empty_one(rt: HostRuntime) -> Result<(), Fail> {
    let alloc = rt.alloc();
    let mut desk = desk_of(alloc, MODELS)?;
    ends_so(&rt, alloc, STANDARD, &mut desk, Status::Done, "")
}

#[test]
fn refused_models(rt: HostRuntime) -> Result<(), Fail> {
    let alloc = rt.alloc();
    let few = Limits {
        symbols: 4,
        entries: 9,
        bytes: 99,
    };
    for (models, limits, output) in [
        (
            "message a 0\nmessage a 1\n",
            STANDARD,
            "model line 2 twice\n",
        ),
        (MODELS, few, "model line 5 limit\n"),
    ] {
        let mut desk = desk_of(alloc, models)?;
        desk.add_file("l", b"1 a\n")?;
        ends_so(&rt, alloc, limits, &mut desk, Status::Rejected, output)?;
    }
    Ok(())
}
