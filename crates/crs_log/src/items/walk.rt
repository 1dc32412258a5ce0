//! Most lines of a log are events. Such a line is read straight into the places of its parts, in one
//! walk and without a list of tokens; the tokens tell what each other line is.
ghost use Rattle.std.specs.Prelude.{◌≡◌, ◌<◌, ◌≤◌, ◌+◌, [], ◌∷◌, List, ℕ, Some, true, drop, length, IfOk, IfSome, option_map};
ghost use Rattle.std.specs.List.{prefix_len};
ghost use Rattle.crs_base.specs.Symbols.{is_symbol_byte};
ghost use Rattle.crs_base.specs.Numbers.{is_digit};
ghost use Rattle.crs_base.specs.Tokens.{Mark};
ghost use Rattle.crs_log.specs.Dates.{AreDigitsTo, IsDateTo};
ghost use Rattle.crs_log.specs.SeenItems.{happens_seen};
ghost use Rattle.crs_log.specs.ItemOf.{Is, what_of};
ghost use Rattle.crs_log.specs.Places.{tokens_from, is_plain_mark, Stands, IsSymbolAt, AreArgumentsAt, IsChangeOf};

use super::numbers::DATES;
use super::parts::end_of;
use super::{Raw, Span, Spans};
use crs_base::{is_blank, is_symbol_byte};
use std::alloc::AllocError;

/// The first place from `at` on where no blank stands.
fn behind_blanks(line: &[u8], at: usize) -> usize
    requires { at ≤ length line.now }
    ensures tokens { tokens_from line.now result ≡ tokens_from line.now at }
    ensures onward { at ≤ result }
    ensures within { result ≤ length line.now }
{
    let mut i = at;
    while i < line.len() && is_blank(line[i]) {
        i += 1;
    }
    i
}

/// The first place from `at` on where no symbol byte stands.
fn word_end(line: &[u8], at: usize) -> usize
    requires { at ≤ length line.now }
    ensures value { result ≡ at + prefix_len is_symbol_byte (drop at line.now) }
    ensures within { result ≤ length line.now }
{
    let mut i = at;
    while i < line.len() && is_symbol_byte(line[i]) {
        i += 1;
    }
    i
}

/// Whether only blanks stand from a place on.
fn ends(line: &[u8], at: usize) -> bool
    requires { at ≤ length line.now }
    ensures { result ≡ true → tokens_from line.now at ≡ Some [] }
{
    behind_blanks(line, at) == line.len()
}

/// Where a mark ends that stands behind the blanks at a place.
fn mark(line: &[u8], at: usize, mark: u8) -> Option<usize>
    requires mark { is_plain_mark mark ≡ true }
    requires within { at ≤ length line.now }
    ensures { IfSome result (Stands line.now at (Mark mark)) }
{
    let i = behind_blanks(line, at);
    if i < line.len() && line[i] == mark {
        Some(i + 1)
    } else {
        None
    }
}

/// The symbol that stands behind the blanks at a place.
fn symbol(line: &[u8], at: usize) -> Option<Span>
    requires short { length line.now ≤ 4096 }
    requires within { at ≤ length line.now }
    ensures { IfSome result (IsSymbolAt line.now at) }
{
    let start = behind_blanks(line, at);
    let len = word_end(line, start) - start;
    if 1 <= len && len <= 64 {
        Some(Span {
            start: start as u16,
            len: len as u8,
        })
    } else {
        None
    }
}

/// Reads the arguments behind their bracket, and tells where they end.
#[inline(always)]
fn arguments(line: &[u8], at: usize, args: &mut Spans) -> Result<Option<usize>, AllocError>
    requires short { length line.now ≤ 4096 }
    requires within { at ≤ length line.now }
    requires none { args.old ≡ [] }
    ensures { IfOk result (λ o. IfSome o (AreArgumentsAt line.now (option_map (λ ts. Mark 91 ∷ ts) (tokens_from line.now at)) args.new)) }
{
    let mut i = at;
    while let Some(span) = symbol(line, i) {
        args.push(span)?;
        if let Some(end) = mark(line, end_of(span), b']') {
            return Ok(Some(end));
        }
        let Some(next) = mark(line, end_of(span), b',') else {
            return Ok(None);
        };
        i = next;
    }
    Ok(None)
}

/// Reads the arguments at a place, where there are some, and tells where they end.
#[inline(always)]
fn arguments_at(line: &[u8], at: usize, args: &mut Spans) -> Result<Option<usize>, AllocError>
    requires short { length line.now ≤ 4096 }
    requires within { at ≤ length line.now }
    requires none { args.old ≡ [] }
    ensures { IfOk result (λ o. IfSome o (AreArgumentsAt line.now (tokens_from line.now at) args.new)) }
{
    match mark(line, at, b'[') {
        Some(behind) => arguments(line, behind, args),
        None => Ok(Some(at)),
    }
}

/// The two values of a change behind its colon, where the line ends with it.
fn change(line: &[u8], at: usize) -> Option<(Span, Span)>
    requires short { length line.now ≤ 4096 }
    requires within { at ≤ length line.now }
    ensures { IfSome result (λ c. IsChangeOf line.now (option_map (λ ts. Mark 58 ∷ ts) (tokens_from line.now at)) (Some c)) }
{
    let Some(first) = mark(line, at, b'(') else {
        return None;
    };
    let Some(old) = symbol(line, first) else {
        return None;
    };
    let Some(second) = mark(line, end_of(old), b',') else {
        return None;
    };
    let Some(new) = symbol(line, second) else {
        return None;
    };
    let Some(end) = mark(line, end_of(new), b')') else {
        return None;
    };
    if ends(line, end) {
        Some((old, new))
    } else {
        None
    }
}

/// The change at a place, or none where the line ends there.
#[inline(always)]
fn change_at(line: &[u8], at: usize) -> Option<Option<(Span, Span)>>
    requires short { length line.now ≤ 4096 }
    requires within { at ≤ length line.now }
    ensures { IfSome result (IsChangeOf line.now (tokens_from line.now at)) }
{
    match mark(line, at, b':') {
        Some(behind) => match change(line, behind) {
            Some(c) => Some(Some(c)),
            None => None,
        },
        None => { if ends(line, at) { Some(None) } else { None } }
    }
}

/// A date, and where the word ends that it is.
#[derive(Clone, Copy, Drop)]
struct Dated {
    date: u64,
    end: usize,
}

/// Whether the byte is a digit.
fn is_digit(b: u8) -> bool
    ensures { result ≡ is_digit b }
{
    b'0' <= b && b <= b'9'
}

/// The number of the digits with which the line begins, up to 19 of them, and where they end.
#[inline(always)]
fn digits(line: &[u8]) -> Dated
    ensures { AreDigitsTo line.now result.date result.end }
{
    let mut date: u64 = 0;
    let mut end = 0;
    while end < line.len() && end < 19 && is_digit(line[end]) {
        date = 10 * date + (line[end] - b'0') as u64;
        end += 1;
    }
    Dated { date, end }
}

/// The date that the first word of the line is, where nothing stands before it. Its digits are read
/// once: to find the word and then read it takes 40 instructions more, 3 % of a line that is passed over.
#[inline(always)]
fn date_in_front(line: &[u8]) -> Option<Dated>
    ensures date { IfSome result (λ d. IsDateTo line.now d.date d.end) }
    ensures range { IfSome result (λ d. d.date < DATES) }
{
    let dated = digits(line);
    if dated.end == 0 || DATES <= dated.date {
        return None;
    }
    if dated.end < line.len() && is_symbol_byte(line[dated.end]) {
        return None;
    }
    Some(dated)
}

/// Whether the line is seen to be an event which begins with its date: then its parts are written. Else it
/// may be any item, and what is written is not to be used. No `Raw` is handed back, since to clear, move
/// and match it takes some 60 instructions a line.
#[inline(always)]
pub fn read_event(line: &[u8], raw: &mut Raw) -> Result<bool, AllocError>
    requires { length line.now ≤ 4096 }
    ensures value { IfOk result (λ b. b ≡ true → what_of line.now ≡ Is (happens_seen line.now raw.new)) }
    ensures range { IfOk result (λ b. b ≡ true → raw.new.date < DATES) }
{
    let Some(dated) = date_in_front(line) else {
        return Ok(false);
    };
    let Some(name) = symbol(line, dated.end) else {
        return Ok(false);
    };
    raw.args.clear();
    let Some(at) = arguments_at(line, end_of(name), &mut raw.args)? else {
        return Ok(false);
    };
    let Some(change) = change_at(line, at) else {
        return Ok(false);
    };
    raw.date = dated.date;
    raw.name = name;
    raw.change = change;
    Ok(true)
}
