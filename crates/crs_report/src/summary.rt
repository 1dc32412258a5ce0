ghost use Rattle.std.specs.Prelude.{◌≡◌, ◌++◌, OnOk, IfOk, decimal};
ghost use Rattle.crs_report.specs.Summaries.{lines_text, held_text, summary_line};

use crs_base::{Text, push_bytes, push_number};
use std::alloc::{AllocError, Global};

/// The numbers of a run. Each stands still at 2^64 - 1.
#[derive(Clone, Copy, Debug, PartialEq, Eq)]
pub struct Summary {
    /// The accepted entries.
    pub entries: u64,
    /// The refused lines of the log.
    pub refused: u64,
    /// The printed recognitions.
    pub recognitions: u64,
    /// The partial instances that are held at the end of the log.
    pub kept: u64,
    /// The greatest number of partial instances that were held, at the start or after any line.
    pub peak: u64,
}

/// Writes a word and a number behind it.
fn push_count(out: &mut Vec<u8>, word: &[u8], n: u64) -> Result<(), AllocError>
    ensures { OnOk result (out.new.items ≡ out.old.items ++ (word.now ++ decimal n)) }
{
    push_bytes(out, word)?;
    push_number(out, n)
}

/// Writes what became of the log's lines.
fn push_lines(out: &mut Vec<u8>, summary: &Summary) -> Result<(), AllocError>
    ensures { OnOk result (out.new.items ≡ out.old.items ++ lines_text summary.now) }
{
    push_count(out, b" entries ", summary.entries)?;
    push_count(out, b" refused ", summary.refused)?;
    push_count(out, b" recognitions ", summary.recognitions)
}

/// Writes how many partial instances were held.
fn push_held(out: &mut Vec<u8>, summary: &Summary) -> Result<(), AllocError>
    ensures { OnOk result (out.new.items ≡ out.old.items ++ held_text summary.now) }
{
    push_count(out, b" kept ", summary.kept)?;
    push_count(out, b" peak ", summary.peak)
}

/// Writes the summary line behind what is there.
pub fn push_summary_line(out: &mut Vec<u8>, summary: &Summary) -> Result<(), AllocError>
    ensures { OnOk result (out.new.items ≡ out.old.items ++ summary_line summary.now) }
{
    push_bytes(out, b"summary")?;
    push_lines(out, summary)?;
    push_held(out, summary)?;
    push_bytes(out, b"\n")
}

/// The summary line.
pub fn summary_line(alloc: Global, summary: &Summary) -> Result<Text, AllocError>
    ensures { IfOk result (λ text. text ≡ summary_line summary.now) }
{
    let mut out = Vec::new(alloc);
    push_summary_line(&mut out, summary)?;
    Ok(Text::from_vec(out))
}
