ghost use Rattle.std.specs.Prelude.{bytes_eq, codes, ◌≡◌, ◌<◌, ◌≤◌, length, IfOk, IfErr, IfSome};
ghost use Rattle.crs_base.specs.SeenTokens.{tokens_seen, AreWordsIn};
ghost use Rattle.crs_log.specs.SeenItems.{what_seen, what_from, IsFormOrMemory, IsInRange, IsRead, Refuses};
ghost use Rattle.crs_log.specs.ItemOf.{statement_of, what_is, what_of};

use super::events::event;
use super::numbers::lone_number;
use super::walk::read_event;
use super::{Item, ItemRefused, Raw};
use crs_base::{Marks, Token, fill_tokens, passed_over, word_bytes};
use std::alloc::{AllocError, Global};

fn is_delay(word: &[u8]) -> bool
    ensures { result ≡ bytes_eq word.now (codes "delay") }
{
    matches!(word, [b'd', b'e', b'l', b'a', b'y'])
}

fn is_clock(word: &[u8]) -> bool
    ensures { result ≡ bytes_eq word.now (codes "clock") }
{
    matches!(word, [b'c', b'l', b'o', b'c', b'k'])
}

/// The item that tokens are.
fn statement(alloc: Global, line: &[u8], tokens: &[Token]) -> Result<Option<Item>, AllocError>
    requires { AreWordsIn line.now tokens.now }
    ensures value { IfOk result (λ o. what_from line.now o ≡ what_is (statement_of (tokens_seen line.now tokens.now))) }
    ensures range { IfOk result (λ o. IfSome o IsInRange) }
{
    let Some((first, behind)) = tokens.split_first() else {
        return Ok(None);
    };
    let Token::Word { start, len } = *first else {
        return Ok(None);
    };
    let word = word_bytes(line, start, len);
    let Some((second, rest)) = behind.split_first() else {
        if word == b"end".as_slice() {
            return Ok(Some(Item::Finish));
        }
        return Ok(None);
    };
    if is_delay(word) {
        return Ok(lone_number(line, *second, rest).map(|n| Item::Delay(n)));
    }
    if is_clock(word) {
        return Ok(lone_number(line, *second, rest).map(|n| Item::Clock(n)));
    }
    match event(alloc, line, word, *second, rest)? {
        Some(raw) => Ok(Some(Item::Event(raw))),
        None => Ok(None),
    }
}

/// What a line of at most 4096 bytes is.
#[inline(always)]
fn read_what(alloc: Global, line: &[u8], tokens: &mut Vec<Token>) -> Result<Item, ItemRefused>
    requires { length line.now ≤ 4096 }
    ensures exact { IfOk result (λ item. what_seen line.now item ≡ what_of line.now) }
    ensures range { IfOk result IsInRange }
    ensures err { IfErr result (Refuses line.now) }
{
    let mut raw = Raw::new(alloc);
    match read_event(line, &mut raw) {
        Ok(true) => Ok(Item::Event(raw)),
        Ok(false) => read_other(alloc, line, tokens),
        Err(_) => Err(ItemRefused::Memory),
    }
}

/// The item that a line of at most 4096 bytes is, by its tokens: those that are no events are few. The
/// vector is room for the line's tokens: what it holds before does not matter.
pub fn read_other(alloc: Global, line: &[u8], tokens: &mut Vec<Token>) -> Result<Item, ItemRefused>
    requires { length line.now ≤ 4096 }
    ensures exact { IfOk result (λ item. what_seen line.now item ≡ what_of line.now) }
    ensures range { IfOk result IsInRange }
    ensures err { IfErr result (Refuses line.now) }
{
    if passed_over(line) {
        return Ok(Item::Blank);
    }
    let Ok(whole) = fill_tokens(line, Marks::Log, tokens) else {
        return Err(ItemRefused::Memory);
    };
    if !whole {
        return Err(ItemRefused::Form);
    }
    match statement(alloc, line, tokens.as_slice()) {
        Ok(Some(item)) => Ok(item),
        Ok(None) => Err(ItemRefused::Form),
        Err(_) => Err(ItemRefused::Memory),
    }
}

/// The item that a line of at most 4096 bytes is. The vector is room for the line's tokens: what it
/// holds before does not matter.
#[inline(always)]
pub fn read_item(alloc: Global, line: &[u8], tokens: &mut Vec<Token>) -> Result<Item, ItemRefused>
    requires { length line.now ≤ 4096 }
    ensures item { IfOk result (IsRead line.now) }
    ensures exact { IfOk result (λ item. what_seen line.now item ≡ what_of line.now) }
    ensures range { IfOk result IsInRange }
    ensures err { IfErr result (IsFormOrMemory line.now) }
{
    read_what(alloc, line, tokens)
}
