// What words ask for.
ghost use Rattle.std.specs.Prelude.{◌≡◌, IfOk, true, map, option_map, option_and_then, string_bytes, codes};
ghost use Rattle.clap.specs.Words.{app_of, found_of, rows_of, first_of, all_of, is_simple_and_free};
ghost use Rattle.crs_words.specs.Apps.{run_app, model_app, drill_app, import_app, audit_app, feeds_app};
ghost use Rattle.crs_words.specs.Kinds.{tally_of};
ghost use Rattle.crs_words.specs.Commands.{command_of, command_seen, rows_in, read_by, run_in, model_in, drill_in, import_in, audit_in, feeds_in, is_given, is_one_to_eight, number_within};

use crate::apps::{
    audit_command, drill_command, feeds_command, import_command, model_command, run_command,
};
use crate::command::{Command, Listing, Tally};
use crate::kinds::tally_of;
use crate::numbers::number_within;
use clap::ArgMatches;
use clap::error::ErrorKind;
use std::alloc::{AllocError, Global};

/// The command of the words behind the program's name. None exactly where they are no command.
pub fn read_words<'a>(alloc: Global, words: &'a [String]) -> Result<Option<Command<'a>>, AllocError>
    ensures { IfOk result (λ r. option_map command_seen r ≡ command_of (map string_bytes words.entry.now)) }
{
    let Some(name) = words.first() else {
        return Ok(None);
    };
    if name.as_str() == "run" {
        read_run(alloc, words)
    } else if name.as_str() == "model" {
        read_model(alloc, words)
    } else if name.as_str() == "drill" {
        read_drill(alloc, words)
    } else if name.as_str() == "import" {
        read_import(alloc, words)
    } else if name.as_str() == "audit" {
        read_audit(alloc, words)
    } else if name.as_str() == "feeds" {
        read_feeds(alloc, words)
    } else {
        Ok(None)
    }
}

/// What clap finds in the words. None exactly where it finds a fault in them.
fn matches_of<'a>(
    command: clap::Command<'a>,
    words: &'a [String],
) -> Result<Option<ArgMatches<'a>>, AllocError>
    requires { is_simple_and_free (app_of command) ≡ true }
    ensures { IfOk result (λ m. option_map (λ f. rows_of (found_of f)) m ≡ rows_in (app_of command.entry) (map string_bytes words.entry.now)) }
{
    match command.try_get_matches_from(words) {
        Ok(matches) => Ok(Some(matches)),
        Err(error) if error.kind() == ErrorKind::OutOfMemory => Err(AllocError),
        Err(_) => Ok(None),
    }
}

/// The word at a position, or at an option that takes one.
fn word_of<'a>(matches: &ArgMatches<'a>, id: &str) -> Option<&'a str>
    ensures { option_map (λ t. t.now) result ≡ first_of id.now (rows_of (found_of matches.now)) }
{
    matches.get_str(id)
}

/// Whether a flag was given.
fn is_given(matches: &ArgMatches<'_>, id: &str) -> bool
    ensures { result ≡ is_given id.now (rows_of (found_of matches.now)) }
{
    match word_of(matches, id) {
        Some(text) => text == "true",
        None => false,
    }
}

/// Reads the words of `run`, the first of which is its name.
fn read_run<'a>(alloc: Global, words: &'a [String]) -> Result<Option<Command<'a>>, AllocError>
    ensures { IfOk result (λ r. option_map command_seen r ≡ read_by run_app run_in (map string_bytes words.entry.now)) }
{
    let command = run_command(alloc)?;
    let Some(matches) = matches_of(command, words)? else {
        return Ok(None);
    };
    let tally = tally_of(alloc, word_of(&matches, "tally"))?;
    Ok(run_of(&matches, tally))
}

/// What is asked of `run`, with the pages of these listeners. None where their kinds are no kinds.
fn run_of<'a>(matches: &ArgMatches<'a>, tally: Option<Tally>) -> Option<Command<'a>>
    requires { tally ≡ tally_of (first_of (codes "tally") (rows_of (found_of matches.now))) }
    ensures { option_map command_seen result ≡ run_in (rows_of (found_of matches.now)) }
{
    let focus = is_given(matches, "focus");
    let summary = is_given(matches, "summary");
    let cite = is_given(matches, "cite");
    let tally = tally?;
    let models = word_of(matches, "models")?;
    let log = word_of(matches, "log")?;
    Some(Command::Run {
        focus,
        summary,
        cite,
        tally,
        models,
        log,
    })
}

/// Reads the words of `model`, the first of which is its name.
fn read_model<'a>(alloc: Global, words: &'a [String]) -> Result<Option<Command<'a>>, AllocError>
    ensures { IfOk result (λ r. option_map command_seen r ≡ read_by model_app model_in (map string_bytes words.entry.now)) }
{
    let command = model_command(alloc)?;
    let Some(matches) = matches_of(command, words)? else {
        return Ok(None);
    };
    Ok(model_of(&matches))
}

/// What is asked of `model`.
fn model_of<'a>(matches: &ArgMatches<'a>) -> Option<Command<'a>>
    ensures { option_map command_seen result ≡ model_in (rows_of (found_of matches.now)) }
{
    let listing = if is_given(matches, "minimal") {
        Listing::Minimal
    } else {
        Listing::Canonical
    };
    let models = word_of(matches, "models")?;
    Some(Command::Print { listing, models })
}

/// Reads the words of `drill`, the first of which is its name.
fn read_drill<'a>(alloc: Global, words: &'a [String]) -> Result<Option<Command<'a>>, AllocError>
    ensures { IfOk result (λ r. option_map command_seen r ≡ read_by drill_app drill_in (map string_bytes words.entry.now)) }
{
    let command = drill_command(alloc)?;
    let Some(matches) = matches_of(command, words)? else {
        return Ok(None);
    };
    Ok(drill_of(&matches))
}

/// What is asked of `drill`.
fn drill_of<'a>(matches: &ArgMatches<'_>) -> Option<Command<'a>>
    ensures { option_map command_seen result ≡ drill_in (rows_of (found_of matches.now)) }
{
    let focus = is_given(matches, "focus");
    let seed = number_of(matches, "seed", 1, 2147483646)?;
    let lines = number_of(matches, "lines", 0, 1000000)?;
    Some(Command::Drill { focus, seed, lines })
}

/// The number of a position's word, where it is between these, both included.
fn number_of(matches: &ArgMatches<'_>, id: &str, low: u32, high: u32) -> Option<u32>
    ensures { result ≡ option_and_then (number_within low high) (first_of id.now (rows_of (found_of matches.now))) }
{
    let word = word_of(matches, id)?;
    number_within(word, low, high)
}

/// Reads the words of `import`, the first of which is its name.
fn read_import<'a>(alloc: Global, words: &'a [String]) -> Result<Option<Command<'a>>, AllocError>
    ensures { IfOk result (λ r. option_map command_seen r ≡ read_by import_app import_in (map string_bytes words.entry.now)) }
{
    let command = import_command(alloc)?;
    let Some(matches) = matches_of(command, words)? else {
        return Ok(None);
    };
    Ok(import_of(&matches))
}

/// What is asked of `import`.
fn import_of<'a>(matches: &ArgMatches<'a>) -> Option<Command<'a>>
    ensures { option_map command_seen result ≡ import_in (rows_of (found_of matches.now)) }
{
    let table = word_of(matches, "table")?;
    Some(Command::Import { table })
}

/// Reads the words of `audit`, the first of which is its name.
fn read_audit<'a>(alloc: Global, words: &'a [String]) -> Result<Option<Command<'a>>, AllocError>
    ensures { IfOk result (λ r. option_map command_seen r ≡ read_by audit_app audit_in (map string_bytes words.entry.now)) }
{
    let command = audit_command(alloc)?;
    let Some(matches) = matches_of(command, words)? else {
        return Ok(None);
    };
    Ok(audit_of(&matches))
}

/// What is asked of `audit`.
fn audit_of<'a>(matches: &ArgMatches<'a>) -> Option<Command<'a>>
    ensures { option_map command_seen result ≡ audit_in (rows_of (found_of matches.now)) }
{
    let models = word_of(matches, "models")?;
    let log = word_of(matches, "log")?;
    let output = word_of(matches, "output")?;
    Some(Command::Audit {
        models,
        log,
        output,
    })
}

/// Reads the words of `feeds`, the first of which is its name.
fn read_feeds<'a>(alloc: Global, words: &'a [String]) -> Result<Option<Command<'a>>, AllocError>
    ensures { IfOk result (λ r. option_map command_seen r ≡ read_by feeds_app feeds_in (map string_bytes words.entry.now)) }
{
    let command = feeds_command(alloc)?;
    let Some(matches) = matches_of(command, words)? else {
        return Ok(None);
    };
    feeds_of(alloc, &matches)
}

/// The words at a position that may be there several times.
fn words_of<'m, 'a>(matches: &'m ArgMatches<'a>, id: &str) -> Option<&'m [&'a str]>
    ensures { option_map (λ s. map (λ v. v.now) s.now) result ≡ all_of id.now (rows_of (found_of matches.now)) }
{
    matches.get_strs(id)
}

/// What is asked of `feeds`.
fn feeds_of<'a>(alloc: Global, matches: &ArgMatches<'a>) -> Result<Option<Command<'a>>, AllocError>
    ensures { IfOk result (λ r. option_map command_seen r ≡ feeds_in (rows_of (found_of matches.now))) }
{
    let focus = is_given(matches, "focus");
    let Some(models) = word_of(matches, "models") else {
        return Ok(None);
    };
    let Some(names) = words_of(matches, "log") else {
        return Ok(None);
    };
    if !is_one_to_eight(names.len()) {
        return Ok(None);
    }
    let logs = copied(alloc, names)?;
    Ok(Some(Command::Feeds {
        focus,
        models,
        logs,
    }))
}

/// Whether so many logs are as many as may be read at once.
fn is_one_to_eight(count: usize) -> bool
    ensures { result ≡ is_one_to_eight count }
{
    1 <= count && count <= 8
}

/// The same words, in a list of their own.
fn copied<'a>(alloc: Global, words: &[&'a str]) -> Result<Vec<&'a str>, AllocError>
    ensures { IfOk result (λ v. v.items ≡ words.now) }
{
    let mut list = Vec::new(alloc);
    for word in words {
        list.push(*word)?;
    }
    Ok(list)
}
