ghost use Rattle.std.specs.Prelude.{◌≡◌, ◌≤◌, length, IfOk, OnOk, option_map, cond, Some, None};
ghost use Rattle.std.specs.List.{prefix_len};
ghost use Rattle.crs_base.specs.Symbols.{is_symbol_byte};
ghost use Rattle.crs_base.specs.Tokens.{tokens_of, is_log_mark, is_model_mark, behind_equals, behind_mark};
ghost use Rattle.crs_base.specs.SeenTokens.{marks_of, word_at, tokens_seen, AreWordsIn};

use crate::lines::is_blank;
use crate::symbols::is_symbol_byte;
use std::alloc::{AllocError, Global};

/// A word or a mark of a line.
#[derive(Clone, Copy)]
pub enum Token {
    /// A run of symbol bytes, which can be as long as the line.
    Word { start: u16, len: u16 },
    /// A mark by its first byte: `!=` is `Mark(b'!')`.
    Mark(u8),
}

/// Whose marks a line is read with.
#[derive(Clone, Copy)]
pub enum Marks {
    Log,
    Model,
}

fn is_log_mark(b: u8) -> bool
    ensures { result ≡ is_log_mark b }
{
    matches!(b, b'[' | b']' | b'(' | b')' | b',' | b':')
}

fn is_model_mark(b: u8) -> bool
    ensures { result ≡ is_model_mark b }
{
    matches!(
        b,
        b'{' | b'}' | b'(' | b')' | b'[' | b']' | b',' | b':' | b'+' | b'*' | b'?' | b'!'
    )
}

fn is_mark(marks: Marks, b: u8) -> bool
    ensures { result ≡ marks_of marks b }
{
    match marks {
        Marks::Log => is_log_mark(b),
        Marks::Model => is_model_mark(b),
    }
}

/// How many symbol bytes stand in front.
fn word_len(bytes: &[u8]) -> usize
    ensures value { result ≡ prefix_len is_symbol_byte bytes.now }
    ensures bound { result ≤ length bytes.now }
{
    for (i, b) in bytes.iter().enumerate() {
        if !is_symbol_byte(*b) {
            return i;
        }
    }
    bytes.len()
}

/// What stands behind a `=` in front.
fn behind_equals(bytes: &[u8]) -> Option<&[u8]>
    ensures { option_map (λ b. b.now) result ≡ behind_equals bytes.now }
{
    match bytes {
        [b'=', rest @ ..] => Some(rest),
        _ => None,
    }
}

/// What stands behind a mark, given its first byte and the bytes behind that.
fn behind_mark(mark: u8, bytes: &[u8]) -> Option<&[u8]>
    ensures { option_map (λ b. b.now) result ≡ behind_mark mark bytes.now }
{
    if mark == b'!' {
        behind_equals(bytes)
    } else {
        Some(bytes)
    }
}

/// Replaces what the vector holds by the words and marks of a line. The answer tells whether each
/// byte is of one, and otherwise the vector holds those in front of the first byte that is of none.
pub fn fill_tokens(line: &[u8], marks: Marks, out: &mut Vec<Token>) -> Result<bool, AllocError>
    requires { length line.now ≤ 4096 }
    ensures words { OnOk result (AreWordsIn line.now out.new.items) }
    ensures tokens { IfOk result (λ whole. cond whole (Some (tokens_seen line.now out.new.items)) None ≡ tokens_of (marks_of marks) line.now) }
{
    out.clear();
    let mut rest = line;
    while let Some((first, more)) = rest.split_first() {
        if is_symbol_byte(*first) {
            let len = 1 + word_len(more);
            let (_, behind) = rest.split_at(len);
            out.push(Token::Word {
                start: (line.len() - rest.len()) as u16,
                len: len as u16,
            })?;
            rest = behind;
        } else if is_blank(*first) {
            rest = more;
        } else if is_mark(marks, *first)
            && let Some(behind) = behind_mark(*first, more)
        {
            out.push(Token::Mark(*first))?;
            rest = behind;
        } else {
            return Ok(false);
        }
    }
    Ok(true)
}

/// The words and marks of a line, or `None` where some byte is of neither.
pub fn read_tokens(
    alloc: Global,
    line: &[u8],
    marks: Marks,
) -> Result<Option<Vec<Token>>, AllocError>
    requires { length line.now ≤ 4096 }
    ensures { IfOk result (λ o. option_map (λ v. tokens_seen line.now v.items) o ≡ tokens_of (marks_of marks) line.now) }
{
    let mut out = Vec::new(alloc);
    if fill_tokens(line, marks, &mut out)? {
        Ok(Some(out))
    } else {
        Ok(None)
    }
}

/// The bytes of a word, given its place in its line.
pub fn word_bytes(line: &[u8], start: u16, len: u16) -> &[u8]
    ensures { result.now ≡ word_at line.now start len }
{
    if start as usize > line.len() {
        return &[];
    }
    let (_, rest) = line.split_at(start as usize);
    if len as usize > rest.len() {
        return rest;
    }
    let (front, _) = rest.split_at(len as usize);
    front
}
