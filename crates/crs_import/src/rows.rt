ghost use Rattle.std.specs.Prelude.{◌≡◌, ◌≤◌, ◌+◌, ◌∷◌, [], ◌&&◌, nat_le, length, take, drop, Ok, Err, MatchResult};
ghost use Rattle.std.specs.List.{list_all};
ghost use Rattle.crs_base.specs.Symbols.{is_symbol};
ghost use Rattle.crs_import.specs.Records.{date_of, parts, args_of, are_args, is_empty, has_no_name, event_line, change_line, clock_line, delay_line, end_line, line_of};
ghost use Rattle.crs_import.specs.SeenTables.{fields_seen, line_seen};

use crate::RowWord;
use crs_base::{is_symbol, number};

/// The fields of a record.
#[derive(Clone, Copy)]
pub(crate) struct Row<'a> {
    pub(crate) what: &'a [u8],
    pub(crate) date: &'a [u8],
    pub(crate) name: &'a [u8],
    pub(crate) args: &'a [u8],
    pub(crate) old: &'a [u8],
    pub(crate) new: &'a [u8],
}

/// A line of a log. Arguments are parted by `;`.
#[derive(Clone, Copy)]
pub(crate) enum Statement<'a> {
    Event {
        date: u64,
        name: &'a [u8],
        args: &'a [u8],
        change: Option<(&'a [u8], &'a [u8])>,
    },
    Clock {
        date: u64,
    },
    Delay {
        date: u64,
    },
    End,
}

/// A number of at most 2^40 - 1.
fn date(field: &[u8]) -> Option<u64>
    ensures { result ≡ date_of field.now }
{
    match number(field) {
        Some(n) if n < 1 << 40 => Some(n),
        _ => None,
    }
}

/// How many bytes stand before the first `;`.
#[tactic(auto, using(crate::proofs::Parts::first_part, crate::proofs::Parts::only_part))]
fn part_len(text: &[u8]) -> usize
    ensures bound { result ≤ length text.now }
    ensures last { (result ≡ length text.now) → parts text.now ≡ text.now ∷ [] }
    ensures more { result + 1 ≤ length text.now → parts text.now ≡ take result text.now ∷ parts (drop (result + 1) text.now) }
{
    for (i, b) in text.iter().enumerate() {
        if *b == b';' {
            return i;
        }
    }
    text.len()
}

/// Whether these are at most `room` symbols, parted by `;`.
fn are_symbols(text: &[u8], room: u32) -> bool
    ensures { result ≡ (nat_le (length (parts text.now)) room && list_all is_symbol (parts text.now)) }
{
    let n = part_len(text);
    let (part, _) = text.split_at(n);
    if room == 0 || !is_symbol(part) {
        return false;
    }
    if n == text.len() {
        return true;
    }
    let (_, rest) = text.split_at(n + 1);
    are_symbols(rest, room - 1)
}

/// Whether it is empty, or 1 to 8 symbols parted by `;`.
fn are_args(field: &[u8]) -> bool
    ensures { result ≡ are_args (args_of field.now) }
{
    field.is_empty() || are_symbols(field, 8)
}

fn is_empty(field: &[u8]) -> bool
    ensures { result ≡ is_empty field.now }
{
    match field {
        [] => true,
        _ => false,
    }
}

/// Whether all behind the date is empty.
fn has_no_name(row: &Row<'_>) -> bool
    ensures { result ≡ has_no_name (fields_seen row.now) }
{
    is_empty(row.name) && is_empty(row.args) && is_empty(row.old) && is_empty(row.new)
}

/// What an `event` says.
fn read_event<'a>(row: &Row<'a>) -> Result<Statement<'a>, RowWord>
    ensures { MatchResult result (λ s. event_line (fields_seen row.now) ≡ Ok (line_seen s)) (λ w. event_line (fields_seen row.now) ≡ Err w) }
{
    let Some(date) = date(row.date) else {
        return Err(RowWord::Date);
    };
    if !is_symbol(row.name) {
        return Err(RowWord::Name);
    }
    if !are_args(row.args) {
        return Err(RowWord::Args);
    }
    if !is_empty(row.old) || !is_empty(row.new) {
        return Err(RowWord::Extra);
    }
    Ok(Statement::Event {
        date,
        name: row.name,
        args: row.args,
        change: None,
    })
}

/// What a `change` says.
fn read_change<'a>(row: &Row<'a>) -> Result<Statement<'a>, RowWord>
    ensures { MatchResult result (λ s. change_line (fields_seen row.now) ≡ Ok (line_seen s)) (λ w. change_line (fields_seen row.now) ≡ Err w) }
{
    let Some(date) = date(row.date) else {
        return Err(RowWord::Date);
    };
    if !is_symbol(row.name) {
        return Err(RowWord::Name);
    }
    if !are_args(row.args) {
        return Err(RowWord::Args);
    }
    if !is_symbol(row.old) || !is_symbol(row.new) {
        return Err(RowWord::Change);
    }
    Ok(Statement::Event {
        date,
        name: row.name,
        args: row.args,
        change: Some((row.old, row.new)),
    })
}

/// What a `clock` says.
fn read_clock<'a>(row: &Row<'a>) -> Result<Statement<'a>, RowWord>
    ensures { MatchResult result (λ s. clock_line (fields_seen row.now) ≡ Ok (line_seen s)) (λ w. clock_line (fields_seen row.now) ≡ Err w) }
{
    let Some(date) = date(row.date) else {
        return Err(RowWord::Date);
    };
    if !has_no_name(row) {
        return Err(RowWord::Extra);
    }
    Ok(Statement::Clock { date })
}

/// What a `delay` says.
fn read_delay<'a>(row: &Row<'a>) -> Result<Statement<'a>, RowWord>
    ensures { MatchResult result (λ s. delay_line (fields_seen row.now) ≡ Ok (line_seen s)) (λ w. delay_line (fields_seen row.now) ≡ Err w) }
{
    let Some(date) = date(row.date) else {
        return Err(RowWord::Date);
    };
    if !has_no_name(row) {
        return Err(RowWord::Extra);
    }
    Ok(Statement::Delay { date })
}

/// What an `end` says.
fn read_end<'a>(row: &Row<'a>) -> Result<Statement<'a>, RowWord>
    ensures { MatchResult result (λ s. end_line (fields_seen row.now) ≡ Ok (line_seen s)) (λ w. end_line (fields_seen row.now) ≡ Err w) }
{
    if !is_empty(row.date) || !has_no_name(row) {
        return Err(RowWord::Extra);
    }
    Ok(Statement::End)
}

/// The line that a record stands for, or what is wrong with it.
pub(crate) fn read_row<'a>(row: &Row<'a>) -> Result<Statement<'a>, RowWord>
    ensures { MatchResult result (λ s. line_of (fields_seen row.now) ≡ Ok (line_seen s)) (λ w. line_of (fields_seen row.now) ≡ Err w) }
{
    if row.what == b"event".as_slice() {
        read_event(row)
    } else if row.what == b"change".as_slice() {
        read_change(row)
    } else if row.what == b"clock".as_slice() {
        read_clock(row)
    } else if row.what == b"delay".as_slice() {
        read_delay(row)
    } else if row.what == b"end".as_slice() {
        read_end(row)
    } else {
        Err(RowWord::What)
    }
}
