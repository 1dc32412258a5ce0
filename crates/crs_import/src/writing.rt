ghost use Rattle.std.specs.Prelude.{◌≡◌, ◌∷◌, [], ◌++◌, OnOk, codes, decimal, option_map};
ghost use Rattle.crs_base.specs.Entry.{args_text, change_text, canonical};
ghost use Rattle.crs_import.specs.Records.{args_of, line_text, with_comma};
ghost use Rattle.crs_import.specs.SeenTables.{line_seen};

use crate::rows::Statement;
use crs_base::{push_bytes, push_number};
use std::alloc::AllocError;

/// Writes a byte of a list of arguments, where a comma stands for each `;`.
fn push_comma_for(out: &mut Vec<u8>, b: u8) -> Result<(), AllocError>
    ensures { OnOk result (out.new.items ≡ out.old.items ++ with_comma b ∷ []) }
{
    out.push(if b == b';' { b',' } else { b })?;
    Ok(())
}

/// Writes arguments that are parted by `;`.
fn push_args(out: &mut Vec<u8>, args: &[u8]) -> Result<(), AllocError>
    ensures { OnOk result (out.new.items ≡ out.old.items ++ args_text (args_of args.now)) }
{
    if args.is_empty() {
        return Ok(());
    }
    push_bytes(out, b"[")?;
    for b in args {
        push_comma_for(out, *b)?;
    }
    push_bytes(out, b"]")?;
    Ok(())
}

/// Writes an old and a new value.
fn push_change(out: &mut Vec<u8>, change: &Option<(&[u8], &[u8])>) -> Result<(), AllocError>
    ensures { OnOk result (out.new.items ≡ out.old.items ++ change_text (option_map (λ c. (c.0.now, c.1.now)) change.now)) }
{
    let Some((old, new)) = change else {
        return Ok(());
    };
    push_bytes(out, b":(")?;
    push_bytes(out, old)?;
    push_bytes(out, b",")?;
    push_bytes(out, new)?;
    push_bytes(out, b")")
}

/// Writes a line with a word and a number.
fn push_mark(out: &mut Vec<u8>, word: &[u8], date: u64) -> Result<(), AllocError>
    ensures { OnOk result (out.new.items ≡ out.old.items ++ (word.now ++ decimal date ++ codes "\n")) }
{
    push_bytes(out, word)?;
    push_number(out, date)?;
    push_bytes(out, b"\n")
}

/// Writes a line.
pub(crate) fn push_statement(out: &mut Vec<u8>, line: &Statement<'_>) -> Result<(), AllocError>
    ensures { OnOk result (out.new.items ≡ out.old.items ++ line_text (line_seen line.now)) }
{
    match line {
        Statement::Event {
            date,
            name,
            args,
            change,
        } => {
            push_number(out, *date)?;
            push_bytes(out, b" ")?;
            push_bytes(out, name)?;
            push_args(out, args)?;
            push_change(out, change)?;
            push_bytes(out, b"\n")
        }
        Statement::Clock { date } => push_mark(out, b"clock ", *date),
        Statement::Delay { date } => push_mark(out, b"delay ", *date),
        Statement::End => push_bytes(out, b"end\n"),
    }
}
