// What is wrong in refused models, in a table, or with a claim of an output: they are read once more
// for that.
ghost use Rattle.std.specs.Prelude.{◌<◌, ◌≤◌, ◌+◌, ◌-◌, ◌^◌};

use crs_audit::{AuditRefused, AuditWord, audit};
use crs_base::Symbols;
use crs_compile::compile;
use crs_desk::{Desk, ReadAllError, read_all};
use crs_hints::{claim_hint, hint_of, table_hint};
use crs_model::limits::SIZE_LIMIT;
use crs_model::{ModelRefused, ModelWord, Plans, first_emit_line};
use crs_parse::read_models;
use crs_telling::tell_hint;
use crs_top::{CHECKED_LIMIT, STANDARD, plans_for_audit};
use crs_words::Command;
use std::alloc::Global;
use std::rt::Files;
use std::{fs, io};

// The first chronicle that emits entries. Commands that take accepted models refuse no others.
fn emit_refusal(plans: &Plans) -> Option<(u32, ModelWord)> {
    let line = first_emit_line(plans.plans.as_slice())?;
    Some((line, ModelWord::Hierarchy))
}

// Why a models text is refused: its first faulty line, and the word for it.
fn refusal_of(alloc: Global, text: &[u8]) -> Option<(u32, ModelWord)> {
    let mut symbols = Symbols::new(alloc, STANDARD.symbols).ok()?;
    let refused = match read_models(alloc, text, &mut symbols) {
        Ok(models) => match compile(alloc, models) {
            Ok(plans) => return emit_refusal(&plans),
            Err(refused) => refused,
        },
        Err(refused) => refused,
    };
    match refused {
        ModelRefused::At { line, word } => Some((line, word)),
        ModelRefused::Memory => None,
    }
}

// Reads an input whole, at most so many bytes.
fn read_again<D: Desk>(
    alloc: Global,
    desk: &mut D,
    name: &str,
    limit: usize,
) -> Result<Vec<u8>, ReadAllError>
    requires inputs { D.inputs desk.old < 2 ^ 32 - 1 }
    requires limit { limit < 2 ^ 62 }
    ensures { D.inputs desk.new ≤ D.inputs desk.old + 1 }
{
    match desk.open(name) {
        Ok(input) => read_all(alloc, desk, input, limit),
        Err(_) => Err(ReadAllError::Failed),
    }
}

// Says what is wrong in refused models, which are read once more for that. It says nothing where
// that can't be done: a pipe has given its bytes, and to open it again might wait forever.
fn explain_models<R: Files + Eprint + AllocGlobal, D: Desk>(
    rt: &R,
    desk: &mut D,
    name: &str,
) -> Option<io::Result<()>>
    requires { D.inputs desk.old < 2 ^ 31 }
    ensures { D.inputs desk.new ≤ D.inputs desk.old + 1 }
{
    if !are_files(rt, &[name]) {
        return None;
    }
    let alloc = rt.alloc();
    let text = match read_again(alloc, desk, name, SIZE_LIMIT) {
        Ok(text) => text,
        Err(ReadAllError::Long) => {
            let hint = hint_of(alloc, b"", 0, ModelWord::Size).ok()?;
            return Some(tell_hint(rt, name, 0, &hint));
        }
        Err(ReadAllError::Failed | ReadAllError::Memory) => return None,
    };
    let (number, word) = refusal_of(alloc, &text)?;
    let hint = hint_of(alloc, &text, number, word).ok()?;
    Some(tell_hint(rt, name, number as u64, &hint))
}

// Why an output is refused: its first faulty line, and the word for it.
fn fault_of(
    alloc: Global,
    text: &[u8],
    log: &[u8],
    output: &[u8],
    seed: u64,
) -> Option<(u64, AuditWord)> {
    let Ok((plans, mut symbols)) = plans_for_audit(alloc, text, STANDARD.symbols, seed) else {
        return None;
    };
    match audit(alloc, &plans, &mut symbols, STANDARD.entries, log, output) {
        Err(AuditRefused::At { line, word }) => Some((line, word)),
        Ok(_) | Err(AuditRefused::Memory) => None,
    }
}

// Whether each name is a file, whose bytes can be read once more: a pipe has given them.
fn are_files(rt: &impl Files, names: &[&str]) -> bool {
    for name in names {
        match fs::metadata(rt, name) {
            Ok(told) if told.is_file() && *name != "-" => {}
            _ => return false,
        }
    }
    true
}

// Says what is wrong with the first faulty claim of an output, which is checked once more for that.
// It says nothing where that can't be done.
fn explain_claim<R: Files + Eprint + AllocGlobal, D: Desk>(
    rt: &R,
    desk: &mut D,
    models: &str,
    log: &str,
    output: &str,
) -> Option<io::Result<()>>
    requires { D.inputs desk.old < 2 ^ 31 }
{
    if !are_files(rt, &[models, log, output]) {
        return None;
    }
    let alloc = rt.alloc();
    let text = read_again(alloc, desk, models, SIZE_LIMIT).ok()?;
    let log = read_again(alloc, desk, log, CHECKED_LIMIT).ok()?;
    let claims = read_again(alloc, desk, output, CHECKED_LIMIT).ok()?;
    let (number, word) = fault_of(alloc, &text, &log, &claims, desk.seed())?;
    let hint = claim_hint(&claims, number, word);
    Some(tell_hint(rt, output, number, &hint))
}

// Says what is wrong with the first record of a table.
fn explain_table<R: Files + Eprint + AllocGlobal, D: Desk>(
    rt: &R,
    desk: &mut D,
    table: &str,
) -> Option<io::Result<()>>
    requires { D.inputs desk.old < 2 ^ 31 }
{
    if !are_files(rt, &[table]) {
        return None;
    }
    let text = read_again(rt.alloc(), desk, table, CHECKED_LIMIT).ok()?;
    let hint = table_hint(&text)?;
    Some(tell_hint(rt, table, 1, &hint))
}

// Says what is wrong in the models that a command names, where they are what is refused, or else with
// a table or a claim of an output.
pub fn explain_rejected<R: Files + Eprint + AllocGlobal, D: Desk>(
    rt: &R,
    desk: &mut D,
    command: &Option<Command<'_>>,
)
    requires { D.inputs desk.old < 2 ^ 30 }
{
    let _ = match command {
        Some(
            Command::Run { models, .. }
            | Command::Print { models, .. }
            | Command::Feeds { models, .. },
        ) => explain_models(rt, desk, models),
        Some(Command::Import { table }) => explain_table(rt, desk, table),
        Some(
            Command::Audit {
                models,
                log,
                output,
            },
        ) => match explain_models(rt, desk, models) {
            None => explain_claim(rt, desk, models, log, output),
            told => told,
        },
        Some(Command::Drill { .. }) | None => None,
    };
}
