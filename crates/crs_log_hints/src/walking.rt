// Going through a line of a log, up to the first place where it can't go on.
use crs_base::{is_blank, is_symbol, is_symbol_byte};

/// Where a line can't go on.
#[derive(Clone, Copy)]
pub struct Stop {
    /// How many bytes of the line are left at that place.
    pub left: usize,
    /// What is wanted there.
    pub sentence: &'static str,
    /// The byte that stands there, where the sentence speaks of bytes.
    pub byte: Option<u8>,
}

/// What is left of a line behind a part of its statement.
pub type Rest<'a> = Result<&'a [u8], Stop>;

const LONG_NAME: &str = "a name or value has at most 64 bytes";

const STRANGE_BYTE: &str =
    "names, arguments and values have the letters A-Z and a-z, digits, '_', '.' and '-' alone";

/// The bytes from a place on.
pub fn from_place(bytes: &[u8], place: usize) -> &[u8] {
    bytes.get(place..).unwrap_or(b"")
}

/// What stands behind the blanks in front.
pub fn skip_blanks(rest: &[u8]) -> &[u8] {
    match rest.iter().position(|byte| !is_blank(*byte)) {
        Some(place) => from_place(rest, place),
        None => b"",
    }
}

/// The run of symbol bytes in front, which may be empty, and what stands behind it.
pub fn take_word(rest: &[u8]) -> (&[u8], &[u8]) {
    let len = match rest.iter().position(|byte| !is_symbol_byte(*byte)) {
        Some(place) => place,
        None => rest.len(),
    };
    match rest.split_at_checked(len) {
        Some(parts) => parts,
        None => (rest, b""),
    }
}

/// The stop in front of what is left, where the sentence says what is wanted.
pub fn stop_before(rest: &[u8], sentence: &'static str) -> Stop {
    Stop {
        left: rest.len(),
        sentence,
        byte: None,
    }
}

/// The stop at a place where a word or a mark is wanted, and another byte may stand.
pub fn stop_at(rest: &[u8], sentence: &'static str) -> Stop {
    match rest.first() {
        Some(b'"' | b'\'') => stop_before(rest, "names, arguments and values stand without quotes"),
        Some(b'#') => stop_before(rest, "a comment stands on a line of its own"),
        Some(b';') => stop_before(rest, "a statement has a line of its own, without a ';'"),
        Some(byte) if *byte >= 128 || *byte < 32 || b"/@%&$!?*\\|~^`<>{}".contains(byte) => Stop {
            byte: Some(*byte),
            ..stop_before(rest, STRANGE_BYTE)
        },
        _ => stop_before(rest, sentence),
    }
}

/// Passes over a mark.
pub fn mark<'a>(rest: &'a [u8], wanted: u8, sentence: &'static str) -> Rest<'a> {
    let rest = skip_blanks(rest);
    match rest {
        [byte, more @ ..] if *byte == wanted => Ok(more),
        _ => Err(stop_at(rest, sentence)),
    }
}

/// Whether this byte comes next behind the blanks.
pub fn is_next(rest: &[u8], wanted: u8) -> bool {
    skip_blanks(rest).first() == Some(&wanted)
}

/// Passes over a name, an argument or a value.
pub fn symbol<'a>(rest: &'a [u8], sentence: &'static str) -> Rest<'a> {
    let rest = skip_blanks(rest);
    let (word, more) = take_word(rest);
    if word.is_empty() {
        Err(stop_at(rest, sentence))
    } else if is_symbol(word) {
        Ok(more)
    } else {
        Err(stop_before(rest, LONG_NAME))
    }
}

/// Nothing is left.
pub fn end(rest: &[u8], sentence: &'static str) -> Result<(), Stop> {
    let rest = skip_blanks(rest);
    if rest.is_empty() {
        Ok(())
    } else {
        Err(stop_at(rest, sentence))
    }
}
