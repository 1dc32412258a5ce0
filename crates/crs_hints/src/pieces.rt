// The words, marks and other bytes of a line, with their places.
use crs_base::{is_blank, is_symbol_byte};
use std::alloc::{AllocError, Global};

/// What stands at a place of a line.
#[derive(Clone, Copy)]
pub enum Kind<'a> {
    /// A run of symbol bytes, which can be as long as the line.
    Word(&'a [u8]),
    /// A mark by its first byte: `!=` is `Mark(b'!')`.
    Mark(u8),
    /// A byte that is of no word and no mark.
    Other(u8),
}

/// A word, a mark or another byte of a line.
#[derive(Clone, Copy)]
pub struct Piece<'a> {
    /// How many bytes stand before it.
    pub start: usize,
    pub kind: Kind<'a>,
}

impl<'a> Piece<'a> {
    /// Its bytes, where it is a word.
    pub fn word(&self) -> Option<&'a [u8]> {
        match self.kind {
            Kind::Word(word) => Some(word),
            _ => None,
        }
    }

    /// Whether it is a byte of no word and no mark.
    pub fn is_other(&self) -> bool {
        matches!(self.kind, Kind::Other(_))
    }

    /// Whether it is this mark.
    pub fn is_mark(&self, wanted: u8) -> bool {
        matches!(self.kind, Kind::Mark(mark) if mark == wanted)
    }

    /// Whether it is this word.
    pub fn is_word(&self, wanted: &[u8]) -> bool {
        matches!(self.kind, Kind::Word(word) if word == wanted)
    }
}

/// The symbol bytes in front.
fn word_in(bytes: &[u8]) -> &[u8] {
    match bytes.iter().position(|b| !is_symbol_byte(*b)) {
        Some(len) => bytes.get(..len).unwrap_or(bytes),
        None => bytes,
    }
}

/// What the bytes begin with, of which the first is given.
fn kind_of<'a>(first: u8, bytes: &'a [u8]) -> Kind<'a> {
    if is_symbol_byte(first) {
        return Kind::Word(word_in(bytes));
    }
    match first {
        b'{' | b'}' | b'(' | b')' | b'[' | b']' | b',' | b':' | b'+' | b'*' | b'?' => {
            Kind::Mark(first)
        }
        b'!' if bytes.get(1) == Some(&b'=') => Kind::Mark(first),
        _ => Kind::Other(first),
    }
}

/// Whether a piece begins with a byte, given the one before it.
fn begins(before: u8, byte: u8) -> bool {
    if is_symbol_byte(byte) {
        !is_symbol_byte(before)
    } else {
        !is_blank(byte) && !(before == b'!' && byte == b'=')
    }
}

/// The pieces of a line.
pub fn pieces<'a>(alloc: Global, line: &'a [u8]) -> Result<Vec<Piece<'a>>, AllocError> {
    let mut out = Vec::new(alloc);
    let mut before = b' ';
    for (start, byte) in line.iter().enumerate() {
        if begins(before, *byte) {
            let rest = line.get(start..).unwrap_or(line);
            let kind = kind_of(*byte, rest);
            out.push(Piece { start, kind })?;
        }
        before = *byte;
    }
    Ok(out)
}
