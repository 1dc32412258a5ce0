//! Command lines: which command some words ask for, with which settings, and the usage text.
use crs_words::{Command, read_words, usage_text};
use std::alloc::{AllocError, Global};
use std::process::Abort;
use std::test::Fail;

fn words_of(alloc: Global, text: &str) -> Result<Vec<String>, AllocError> {
    let mut words = Vec::new(alloc);
    for word in text.split(' ') {
        words.push(String::from_str(alloc, word)?)?;
    }
    Ok(words)
}

fn cite_word(cite: bool) -> &'static str {
    if cite { "cited " } else { "" }
}

fn run_word(focus: bool, summary: bool) -> &'static str {
    match (focus, summary) {
        (false, false) => "run",
        (false, true) => "summary",
        (true, false) => "focus",
        (true, true) => "focus summary",
    }
}

fn drill_word(focus: bool) -> &'static str {
    if focus { "focus" } else { "drill" }
}

fn shown_run(
    alloc: Global,
    word: &str,
    cite: bool,
    kinds: [bool; 4],
    models: &str,
    log: &str,
) -> Result<String, AllocError> {
    let cited = cite_word(cite);
    match kinds.contains(&true) {
        true => format!(in alloc; "{cited}{word} {kinds:?} {models} {log}"),
        false => format!(in alloc; "{cited}{word} {models} {log}"),
    }
}

fn shown_feeds(
    alloc: Global,
    focus: bool,
    models: &str,
    logs: &[&str],
) -> Result<String, AllocError> {
    let word = if focus { "focus feeds" } else { "feeds" };
    let mut text = format!(in alloc; "{word} {models}")?;
    for log in logs {
        text.push_str(" ")?;
        text.push_str(log)?;
    }
    Ok(text)
}

fn shown_drill(alloc: Global, word: &str, seed: u32, lines: u32) -> Result<String, AllocError> {
    format!(in alloc; "{word} {seed} {lines}")
}

fn shown_command(alloc: Global, command: Command<'_>) -> Result<String, AllocError> {
    match command {
        Command::Run {
            focus,
            summary,
            cite,
            tally,
            models,
            log,
        } => shown_run(
            alloc,
            run_word(focus, summary),
            cite,
            tally.kinds(),
            models,
            log,
        ),
        Command::Print { listing, models } => format!(in alloc; "{listing:?} {models}"),
        Command::Drill { focus, seed, lines } => {
            shown_drill(alloc, drill_word(focus), seed, lines)
        }
        Command::Import { table } => format!(in alloc; "import {table}"),
        Command::Audit {
            models,
            log,
            output,
        } => format!(in alloc; "audit {models} {log} {output}"),
        Command::Feeds {
            focus,
            models,
            logs,
        } => shown_feeds(alloc, focus, models, logs.as_slice()),
    }
}

/// What words that are parted by single spaces ask for.
fn shown(alloc: Global, text: &str) -> Result<String, AllocError> {
    let words = words_of(alloc, text)?;
    match read_words(alloc, words.as_slice())? {
        None => String::from_str(alloc, "none"),
        Some(command) => shown_command(alloc, command),
    }
}

/// Fails where the words before the bar of a line ask for something else than what stands behind it.
fn are_commands(rt: &impl Abort, alloc: Global, rows: &str) -> Result<(), Fail> {
    for row in rows.lines() {
        let (words, want) = row.split_once(" | ").ok_or("row")?;
        let shown = shown(alloc, words)?;
        assert!(rt; shown.as_str() == want, "{words}: {shown}");
    }
    Ok(())
}

#[test]
fn positions_and_options_are_told_apart(rt: HostRuntime) -> Result<(), Fail> {
    are_commands(
        &rt,
        rt.alloc(),
        " | none
run | none
run m | none
run m l | run m l
run m l x | none
run --unknown m l | none
run -x l | none
run -- -m l | run -m l
run m -- -l | run m -l
run -- --minimal l | run --minimal l
run m l -- | run m l
run - l | run - l
run  l | run  l
run --help | none
run --version m l | none
Run m l | none
help | none
--help | none
",
    )
}

#[test]
fn options_of_runs_stand_once(rt: HostRuntime) -> Result<(), Fail> {
    are_commands(
        &rt,
        rt.alloc(),
        "run --summary m l | summary m l
run m --summary l | summary m l
run m l --summary | summary m l
run --summary m l --summary | none
run --summary=x m l | none
run --summary m | none
run -- --summary l | run --summary l
run --focus m l | focus m l
run m --focus l | focus m l
run m --summary l --focus | focus summary m l
run --focus m --focus l | none
run --focus=x m l | none
run --focus m | none
run -- --focus l | run --focus l
--focus run m l | none
run --cite m l | cited run m l
run m --cite l --summary | cited summary m l
run --cite m l --cite | none
run --cite=x m l | none
",
    )
}

#[test]
fn a_tally_names_its_kinds(rt: HostRuntime) -> Result<(), Fail> {
    are_commands(
        &rt,
        rt.alloc(),
        "run --tally count m l | run [true, false, false, false] m l
run m --tally=fewer,span l --summary | summary [false, true, false, true] m l
run m l --tally longest,count,fewer,span | run [true, true, true, true] m l
run --tally m l | none
run m l --tally | none
run m l --tally= | none
run --tally  m l | none
run --tally - m l | none
run --tally -- m l | none
run --tally --summary m l | none
run --tally odd m l | none
run --tally Count m l | none
run --tally count, m l | none
run --tally ,count m l | none
run --tally count,,span m l | none
run --tally count,span,count m l | none
run --tally count --tally span m l | none
model --tally count m | none
",
    )
}

#[test]
fn models_are_printed_in_two_ways(rt: HostRuntime) -> Result<(), Fail> {
    are_commands(
        &rt,
        rt.alloc(),
        "model m | Canonical m
model --minimal m | Minimal m
model m --minimal | Minimal m
model --minimal --minimal m | none
model --minimal=x m | none
model --mini m | none
--minimal model m | none
model | none
model m l | none
model --focus m | none
",
    )
}

#[test]
fn a_drill_has_a_seed_and_a_length(rt: HostRuntime) -> Result<(), Fail> {
    are_commands(
        &rt,
        rt.alloc(),
        "drill 7 2 | drill 7 2
drill 007 0 | drill 7 0
drill 2147483646 1000000 | drill 2147483646 1000000
drill 0000000000000000001 1 | drill 1 1
drill | none
drill 7 | none
drill 7 2 3 | none
drill 0 5 | none
drill 2147483647 1 | none
drill 1 1000001 | none
drill +1 1 | none
drill 1 -1 | none
drill  1 | none
drill 00000000000000000001 1 | none
drill x 1 | none
drill --focus 1 1 | focus 1 1
drill 1 --focus 1 | focus 1 1
drill 1 1 --focus | focus 1 1
drill --focus 1 1 --focus | none
drill --focus=x 1 1 | none
drill --focus 1 | none
drill -- --focus 1 | none
drill --summary 1 1 | none
",
    )
}

#[test]
fn an_import_has_a_table(rt: HostRuntime) -> Result<(), Fail> {
    are_commands(
        &rt,
        rt.alloc(),
        "import --focus t | none
import t | import t
import | none
import a b | none
import --minimal t | none
",
    )
}

#[test]
fn an_audit_has_models_a_log_and_an_output(rt: HostRuntime) -> Result<(), Fail> {
    are_commands(
        &rt,
        rt.alloc(),
        "audit m l o | audit m l o
audit -- -m -l -o | audit -m -l -o
audit m - o | audit m - o
audit m l | none
audit m l o p | none
audit --cite m l o | none
audit | none
",
    )
}

#[test]
fn feeds_have_one_to_eight_logs(rt: HostRuntime) -> Result<(), Fail> {
    are_commands(
        &rt,
        rt.alloc(),
        "feeds m a | feeds m a
feeds m a b | feeds m a b
feeds --focus m a b | focus feeds m a b
feeds m a --focus b | focus feeds m a b
feeds m a b --focus | focus feeds m a b
feeds m -- --focus | feeds m --focus
feeds m 1 2 3 4 5 6 7 8 | feeds m 1 2 3 4 5 6 7 8
feeds m 1 2 3 4 5 6 7 8 9 | none
feeds m | none
feeds | none
feeds --focus m | none
feeds --focus m a --focus | none
feeds --focus=x m a | none
feeds --summary m a | none
",
    )
}

#[test]
fn the_usage_text_has_a_line_for_each_command(rt: HostRuntime) {
    let text = b"usage: crs run [--focus] [--summary] [--cite] [--tally KINDS] MODELS LOG\n\
        \x20      crs model [--minimal] MODELS\n\
        \x20      crs drill [--focus] SEED N\n\
        \x20      crs import CSV\n\
        \x20      crs feeds [--focus] MODELS LOG..\n\
        \x20      crs audit MODELS LOG OUTPUT\n\
        ";
    assert!(rt; usage_text() == text.as_slice());
}
