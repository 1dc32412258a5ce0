// The statements of a log, gone through up to the first place where one can't go on.
use crate::dates::{date_sentence, is_date};
use crate::names::is_near;
use crate::walking::{
    Rest, Stop, end, is_next, mark, skip_blanks, stop_at, stop_before, symbol, take_word,
};

const CHANGE: &str = "a change has its old and its new value in brackets: NAME: (OLD, NEW)";

const NO_STATEMENT: &str =
    "a line is DATE NAME, DATE NAME[ARGUMENT, ..], 'clock NUMBER', 'delay NUMBER' or 'end'";

const BEHIND: &str = "nothing may stand behind a statement";

/// The stop in front of a number that is none, with the sentence of what stands there.
fn stop_at_number(rest: &[u8], sentence: &'static str) -> Stop {
    match date_sentence(rest) {
        Some(known) => stop_before(rest, known),
        None => stop_at(rest, sentence),
    }
}

/// A number from 0 to 2^40 - 1, and the end of its statement.
fn last_number(rest: &[u8], sentence: &'static str) -> Result<(), Stop> {
    let rest = skip_blanks(rest);
    let (word, more) = take_word(rest);
    if !is_date(word) {
        return Err(stop_at_number(rest, sentence));
    }
    if date_sentence(rest).is_some() {
        return Err(stop_at_number(rest, sentence));
    }
    end(more, BEHIND)
}

/// At most `most` arguments, up to a `]`.
fn arguments<'a>(most: usize, rest: &'a [u8]) -> Rest<'a> {
    if most == 0 {
        return Err(stop_before(rest, "an argument is wanted here"));
    }
    let rest = symbol(rest, "an argument is wanted here")?;
    if is_next(rest, b',') {
        let rest = mark(rest, b',', "a ',' is wanted here")?;
        arguments(most - 1, rest)
    } else {
        mark(
            rest,
            b']',
            "a ',' or the ']' is missing: an argument is one word without blanks",
        )
    }
}

/// The arguments behind a `[`.
fn bracketed<'a>(rest: &'a [u8]) -> Rest<'a> {
    if is_next(rest, b']') {
        return Err(stop_before(
            skip_blanks(rest),
            "without arguments no brackets are written",
        ));
    }
    arguments(rest.len(), rest)
}

/// A change behind its `:`, and the end of its statement.
fn change(rest: &[u8]) -> Result<(), Stop> {
    let rest = mark(rest, b'(', CHANGE)?;
    let rest = symbol(rest, CHANGE)?;
    let rest = mark(
        rest,
        b',',
        "a ',' and the new value are wanted here: NAME: (OLD, NEW)",
    )?;
    let rest = symbol(rest, CHANGE)?;
    let rest = mark(
        rest,
        b')',
        "the ')' of the change is missing: NAME: (OLD, NEW)",
    )?;
    end(rest, "nothing may stand behind a change")
}

/// What stands behind a name and its arguments.
fn behind_name(rest: &[u8], is_bare: bool) -> Result<(), Stop> {
    let rest = skip_blanks(rest);
    match rest {
        [] => Ok(()),
        [b':', more @ ..] => change(more),
        [b'(', ..] if is_bare => Err(stop_before(
            rest,
            "arguments stand in '[..]', and a change behind a ':': NAME[ARGUMENT], NAME: (OLD, NEW)",
        )),
        [b'(', ..] => Err(stop_before(rest, "a ':' is missing in front of the change")),
        [b'=', ..] => Err(stop_before(rest, CHANGE)),
        _ => Err(stop_at(
            rest,
            "nothing may stand behind an event: arguments stand in brackets, NAME[ARGUMENT, ..]",
        )),
    }
}

/// An event behind its date.
fn event(rest: &[u8]) -> Result<(), Stop> {
    if is_next(rest, b',') {
        return Err(stop_before(
            skip_blanks(rest),
            "a blank stands behind the date; a table is written as a log by 'crs import'",
        ));
    }
    let rest = symbol(rest, "a name is wanted behind the date: DATE NAME")?;
    let rest = skip_blanks(rest);
    match rest {
        [b'[', more @ ..] => behind_name(bracketed(more)?, false),
        _ => behind_name(rest, true),
    }
}

/// Whether it is the word of a statement but for capitals or one letter.
fn is_nearly_known(word: &[u8]) -> bool {
    is_near(word, b"clock") || is_near(word, b"delay") || is_near(word, b"end")
}

/// Whether a date comes next.
fn is_date_next(rest: &[u8]) -> bool {
    let (word, _) = take_word(skip_blanks(rest));
    is_date(word)
}

/// A line whose first word is no date and begins no statement.
fn unknown(line: &[u8], word: &[u8], rest: &[u8]) -> Stop {
    if let Some(known) = date_sentence(line) {
        return stop_before(line, known);
    }
    if is_nearly_known(word) {
        return stop_before(
            line,
            "the words of a log are 'clock', 'delay' and 'end', with small letters",
        );
    }
    if !word.is_empty() && is_date_next(rest) {
        return stop_before(line, "the date stands in front: DATE NAME");
    }
    stop_at(line, NO_STATEMENT)
}

/// Goes through the statement of a line.
pub fn statement(line: &[u8]) -> Result<(), Stop> {
    let line = skip_blanks(line);
    let (word, rest) = take_word(line);
    if word == b"clock".as_slice() {
        last_number(rest, "a clock has one number: clock NUMBER")
    } else if word == b"delay".as_slice() {
        last_number(rest, "a delay has one number: delay NUMBER")
    } else if word == b"end".as_slice() {
        end(rest, "nothing may stand behind 'end'")
    } else if is_date(word) && date_sentence(line).is_none() {
        event(rest)
    } else {
        Err(unknown(line, word, rest))
    }
}
