ghost use Rattle.std.specs.Prelude.{◌≡◌, [], List, ℕ, map, ◌+◌, IfOk, IfSome, option_map, ◌&&◌, true};
ghost use Rattle.crs_base.specs.SeenTokens.{token_of, tokens_seen, IsWordIn, AreWordsIn};
ghost use Rattle.crs_base.specs.Symbols.{is_symbol, is_symbol_byte};
ghost use Rattle.std.specs.List.{list_all};
ghost use Rattle.crs_log.specs.SeenItems.{text_of, change_in, IsWithin, parted_seen, pair_in};
ghost use Rattle.crs_log.specs.ItemOf.{symbol_of, is_mark, more_of, args_of, change_of, led_by, pair_of};

use super::{Span, Spans};
use crs_base::{Token, word_bytes};
use std::alloc::AllocError;

/// The bytes of a span of the line, as of the name of an event that was read from it.
pub fn span_text<'a>(line: &'a [u8], span: Span) -> &'a [u8]
    ensures { result.now ≡ text_of line.now span }
{
    word_bytes(line, span.start, span.len as u16)
}

/// Where a span ends.
pub fn end_of(span: Span) -> usize
    ensures { result ≡ span.start + span.len }
{
    span.start as usize + span.len as usize
}

/// Whether symbol bytes are a symbol, which they are unless they are none or too many.
fn is_symbol_word(word: &[u8]) -> bool
    requires { list_all is_symbol_byte word.now ≡ true }
    ensures { result ≡ is_symbol word.now }
{
    1 <= word.len() && word.len() <= 64
}

/// The symbol that a token is.
pub fn symbol(line: &[u8], token: Token) -> Option<Span>
    requires { IsWordIn line.now token }
    ensures text { option_map (text_of line.now) result ≡ symbol_of (token_of line.now token) }
    ensures within { IfSome result (IsWithin line.now) }
{
    match token {
        Token::Word { start, len } => {
            let word = word_bytes(line, start, len);
            if !is_symbol_word(word) {
                return None;
            }
            Some(Span {
                start,
                len: word.len() as u8,
            })
        }
        Token::Mark(_) => None,
    }
}

fn is_mark(mark: u8, token: Token) -> bool
    ensures { (line : List ℕ) → result ≡ is_mark mark (token_of line token) }
{
    match token {
        Token::Word { start: _, len: _ } => false,
        Token::Mark(m) => m == mark,
    }
}

/// Reads the arguments behind the first one, and gives the tokens behind them.
fn more<'a>(
    line: &[u8],
    tokens: &'a [Token],
    args: &mut Spans,
) -> Result<Option<&'a [Token]>, AllocError>
    requires { AreWordsIn line.now tokens.now }
    ensures words { IfOk result (λ o. IfSome o (λ b. AreWordsIn line.now b.now)) }
    ensures args { IfOk result (λ o. option_map (λ b. parted_seen line.now args.new b.now) o ≡ option_map (led_by (map (text_of line.now) args.old)) (more_of (tokens_seen line.now tokens.now))) }
{
    let mut rest = tokens;
    while let Some((first, behind)) = rest.split_first() {
        if is_mark(b']', *first) {
            return Ok(Some(behind));
        }
        if !is_mark(b',', *first) {
            return Ok(None);
        }
        let Some((second, after)) = behind.split_first() else {
            return Ok(None);
        };
        let Some(span) = symbol(line, *second) else {
            return Ok(None);
        };
        args.push(span)?;
        rest = after;
    }
    Ok(None)
}

/// Reads the arguments, and gives the tokens behind them.
pub fn arguments<'a>(
    line: &[u8],
    tokens: &'a [Token],
    args: &mut Spans,
) -> Result<Option<&'a [Token]>, AllocError>
    requires none { args.old ≡ [] }
    requires words { AreWordsIn line.now tokens.now }
    ensures words { IfOk result (λ o. IfSome o (λ b. AreWordsIn line.now b.now)) }
    ensures args { IfOk result (λ o. option_map (λ b. parted_seen line.now args.new b.now) o ≡ args_of (tokens_seen line.now tokens.now)) }
{
    let Some((first, behind)) = tokens.split_first() else {
        return Ok(Some(tokens));
    };
    let Some((second, after)) = behind.split_first() else {
        return Ok(Some(tokens));
    };
    if !is_mark(b'[', *first) {
        return Ok(Some(tokens));
    }
    let Some(span) = symbol(line, *second) else {
        return Ok(None);
    };
    args.push(span)?;
    more(line, after, args)
}

/// Whether these are the marks of a change.
fn change_marks(a: Token, b: Token, c: Token, d: Token) -> bool
    ensures { (line : List ℕ) → result ≡ (is_mark 58 (token_of line a) && is_mark 40 (token_of line b) && is_mark 44 (token_of line c) && is_mark 41 (token_of line d)) }
{
    is_mark(b':', a) && is_mark(b'(', b) && is_mark(b',', c) && is_mark(b')', d)
}

fn pair(old: Option<Span>, new: Option<Span>) -> Option<Option<(Span, Span)>>
    ensures { (line : List ℕ) → option_map (option_map (pair_in line)) result ≡ pair_of (option_map (text_of line) old) (option_map (text_of line) new) }
{
    match (old, new) {
        (Some(old), Some(new)) => Some(Some((old, new))),
        _ => None,
    }
}

/// The two values of a change, where the tokens are one.
pub fn change(line: &[u8], tokens: &[Token]) -> Option<Option<(Span, Span)>>
    requires { AreWordsIn line.now tokens.now }
    ensures { option_map (change_in line.now) result ≡ change_of (tokens_seen line.now tokens.now) }
{
    match tokens {
        [] => Some(None),
        [a, b, old, c, new, d] => {
            if change_marks(*a, *b, *c, *d) {
                pair(symbol(line, *old), symbol(line, *new))
            } else {
                None
            }
        }
        _ => None,
    }
}
