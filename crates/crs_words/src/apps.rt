// The commands as clap is told of them.
ghost use Rattle.std.specs.Prelude.{◌≡◌, IfOk, false};
ghost use Rattle.clap.specs.Words.{app_of, rule_of};
ghost use Rattle.crs_words.specs.Apps.{plain_app, flag, valued, position, positions, run_options, run_app, model_app, drill_app, import_app, audit_app, feeds_app};

use clap::{Arg, ArgAction, Command};
use std::alloc::{AllocError, Global};

/// An option that takes no value.
fn flag_of<'a>(alloc: Global, id: &'a str) -> Arg<'a>
    ensures rule { rule_of result ≡ flag id.entry.now }
    ensures local { result.global ≡ false }
{
    Arg::new(alloc, id).long(id).action(ArgAction::SetTrue)
}

/// An option that takes a value.
fn valued_of<'a>(alloc: Global, id: &'a str) -> Arg<'a>
    ensures rule { rule_of result ≡ valued id.entry.now }
    ensures local { result.global ≡ false }
{
    Arg::new(alloc, id).long(id).action(ArgAction::Set)
}

/// A position that must be there.
fn position_of<'a>(alloc: Global, id: &'a str) -> Arg<'a>
    ensures rule { rule_of result ≡ position id.entry.now }
    ensures local { result.global ≡ false }
{
    Arg::new(alloc, id).required(true).action(ArgAction::Set)
}

/// A last position that must be there, and may be there several times.
fn positions_of<'a>(alloc: Global, id: &'a str) -> Arg<'a>
    ensures rule { rule_of result ≡ positions id.entry.now }
    ensures local { result.global ≡ false }
{
    Arg::new(alloc, id).required(true).action(ArgAction::Append)
}

/// A command with no help and no version.
fn plain_command<'a>(alloc: Global, name: &'a str) -> Command<'a>
    ensures { app_of result ≡ plain_app name.entry.now }
{
    Command::new(alloc, name)
        .disable_help_flag(true)
        .disable_version_flag(true)
}

/// `run [--focus] [--summary] [--cite] [--tally KINDS]`
fn run_options<'a>(alloc: Global) -> Result<Command<'a>, AllocError>
    ensures { IfOk result (λ c. app_of c ≡ run_options) }
{
    let command = plain_command(alloc, "run")
        .arg(flag_of(alloc, "focus"))?
        .arg(flag_of(alloc, "summary"))?
        .arg(flag_of(alloc, "cite"))?
        .arg(valued_of(alloc, "tally"))?;
    Ok(command)
}

/// `run [--focus] [--summary] [--cite] [--tally KINDS] MODELS LOG`
pub(crate) fn run_command<'a>(alloc: Global) -> Result<Command<'a>, AllocError>
    ensures { IfOk result (λ c. app_of c ≡ run_app) }
{
    let command = run_options(alloc)?
        .arg(position_of(alloc, "models"))?
        .arg(position_of(alloc, "log"))?;
    Ok(command)
}

/// `model [--minimal] MODELS`
pub(crate) fn model_command<'a>(alloc: Global) -> Result<Command<'a>, AllocError>
    ensures { IfOk result (λ c. app_of c ≡ model_app) }
{
    let command = plain_command(alloc, "model")
        .arg(flag_of(alloc, "minimal"))?
        .arg(position_of(alloc, "models"))?;
    Ok(command)
}

/// `drill [--focus] SEED N`
pub(crate) fn drill_command<'a>(alloc: Global) -> Result<Command<'a>, AllocError>
    ensures { IfOk result (λ c. app_of c ≡ drill_app) }
{
    let command = plain_command(alloc, "drill")
        .arg(flag_of(alloc, "focus"))?
        .arg(position_of(alloc, "seed"))?
        .arg(position_of(alloc, "lines"))?;
    Ok(command)
}

/// `feeds [--focus] MODELS LOG..`
pub(crate) fn feeds_command<'a>(alloc: Global) -> Result<Command<'a>, AllocError>
    ensures { IfOk result (λ c. app_of c ≡ feeds_app) }
{
    let command = plain_command(alloc, "feeds")
        .arg(flag_of(alloc, "focus"))?
        .arg(position_of(alloc, "models"))?
        .arg(positions_of(alloc, "log"))?;
    Ok(command)
}

/// `import CSV`
pub(crate) fn import_command<'a>(alloc: Global) -> Result<Command<'a>, AllocError>
    ensures { IfOk result (λ c. app_of c ≡ import_app) }
{
    let command = plain_command(alloc, "import").arg(position_of(alloc, "table"))?;
    Ok(command)
}

/// `audit MODELS LOG OUTPUT`
pub(crate) fn audit_command<'a>(alloc: Global) -> Result<Command<'a>, AllocError>
    ensures { IfOk result (λ c. app_of c ≡ audit_app) }
{
    let command = plain_command(alloc, "audit")
        .arg(position_of(alloc, "models"))?
        .arg(position_of(alloc, "log"))?
        .arg(position_of(alloc, "output"))?;
    Ok(command)
}
