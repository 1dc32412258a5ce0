// Which line of which log the first refusal in an output speaks of.
use crate::log_lines::LogWord;
use crate::walking::from_place;
use crs_base::{first_line, number};

/// A refusal in an output.
#[derive(Clone, Copy)]
pub struct Refusal {
    /// The log's place among those of the command, from 0 on.
    pub log: usize,
    /// The line's number, from 1 on.
    pub number: u64,
    pub word: LogWord,
}

/// The bytes up to the first blank, and what stands behind that.
fn next_word(rest: &[u8]) -> (&[u8], &[u8]) {
    match rest.iter().position(|byte| *byte == b' ') {
        Some(place) => (
            rest.get(..place).unwrap_or(rest),
            from_place(rest, place.saturating_add(1)),
        ),
        None => (rest, b""),
    }
}

/// The two numbers behind a word.
fn two_numbers(rest: &[u8]) -> Option<(u64, u64)> {
    let (first, rest) = next_word(rest);
    let (second, _) = next_word(rest);
    Some((number(first)?, number(second)?))
}

/// The word of a refusal, with what stands behind it.
fn word_of(rest: &[u8]) -> Option<LogWord> {
    let (word, rest) = next_word(rest);
    match word {
        b"long" => Some(LogWord::Long),
        b"form" => Some(LogWord::Form),
        b"order" => Some(LogWord::Order),
        b"back" => {
            let (clock, last) = two_numbers(rest)?;
            Some(LogWord::Back { clock, last })
        }
        b"late" => {
            let (date, horizon) = two_numbers(rest)?;
            Some(LogWord::Late { date, horizon })
        }
        b"arity" => Some(LogWord::Arity),
        b"value" => Some(LogWord::Value),
        b"full" => Some(LogWord::Full),
        b"values" => Some(LogWord::Values),
        _ => None,
    }
}

/// The refusal behind the word `line` of an output's line.
fn behind_line(log: usize, rest: &[u8]) -> Option<Refusal> {
    let (digits, rest) = next_word(rest);
    Some(Refusal {
        log,
        number: number(digits)?,
        word: word_of(rest)?,
    })
}

/// The refusal behind the word `feed` of an output's line.
fn behind_feed(rest: &[u8]) -> Option<Refusal> {
    let (digits, rest) = next_word(rest);
    let log = number(digits)?.checked_sub(1)? as usize;
    match next_word(rest) {
        (b"line", rest) => behind_line(log, rest),
        _ => None,
    }
}

/// The refusal that a line of an output is, if it is one.
fn refusal_of(line: &[u8]) -> Option<Refusal> {
    match line {
        [b'l', b'i', b'n', b'e', b' ', rest @ ..] => behind_line(0, rest),
        [b'f', b'e', b'e', b'd', b' ', rest @ ..] => behind_feed(rest),
        _ => None,
    }
}

/// The first refusal in whole lines of an output.
pub fn first_refusal(text: &[u8]) -> Option<Refusal> {
    let mut rest = text;
    while !rest.is_empty() {
        let (line, more) = first_line(rest);
        if let Some(refusal) = refusal_of(line.raw) {
            return Some(refusal);
        }
        rest = more;
    }
    None
}
