// What people write for a date that is no number below 2^40.
use crate::walking::{from_place, take_word};
use crs_base::number;

/// The first number that no date has: 2^40.
const DATES_END: u64 = 1 << 40;

const CIVIL: &str =
    "a date is a number of ticks, no calendar date: write the seconds since 1970, as 'date +%s' does";

const FRACTION: &str = "a date is a whole number: take a smaller tick, as a millisecond";

const NEGATIVE: &str = "dates begin at 0, so count from an earlier zero";

const HIGH: &str =
    "dates are below 2^40, and milliseconds since 1970 are above it since November 2004: count from a nearer zero";

const UNIT: &str = "a date has digits alone, without a unit";

/// Whether it is the date of an item: a number below 2^40.
pub fn is_date(word: &[u8]) -> bool {
    match number(word) {
        Some(n) => n < DATES_END,
        None => false,
    }
}

/// Whether each byte is a digit.
fn are_digits(word: &[u8]) -> bool {
    word.iter().all(|byte| byte.is_ascii_digit())
}

/// Whether a word begins as `2026-11-29` or `29-Nov-2026` does: digits, a dash, and more behind it.
fn is_calendar_day(word: &[u8]) -> bool {
    match word.iter().position(|byte| *byte == b'-') {
        Some(place) => place > 0 && are_digits(word.get(..place).unwrap_or(b"-")),
        None => false,
    }
}

/// Whether a word is the short name of a month or of a day of the week.
fn is_calendar_name(word: &[u8]) -> bool {
    let names = b"jan feb mar apr may jun jul aug sep oct nov dec mon tue wed thu fri sat sun";
    word.len() == 3
        && names
            .split(|byte| *byte == b' ')
            .any(|name| word.eq_ignore_ascii_case(name))
}

/// Whether a digit stands in front.
fn begins_with_digit(rest: &[u8]) -> bool {
    match rest.first() {
        Some(byte) => byte.is_ascii_digit(),
        None => false,
    }
}

/// Whether `:` or `/` and a digit come next, as behind the hours of a time of day.
fn goes_on_as_time(rest: &[u8]) -> bool {
    match rest {
        [b':' | b'/', more @ ..] => begins_with_digit(more),
        _ => false,
    }
}

/// What is wrong with digits that are no date: they are a number of 2^40 or more.
fn of_digits(word: &[u8]) -> Option<&'static str> {
    if are_digits(word) { Some(HIGH) } else { None }
}

/// What is wrong with a word that begins with a digit and is no number.
fn of_digit_word(word: &[u8]) -> &'static str {
    match word.iter().position(|byte| !byte.is_ascii_digit()) {
        Some(place) => match from_place(word, place) {
            [b'.', ..] => FRACTION,
            _ => UNIT,
        },
        None => HIGH,
    }
}

/// What is wrong with the date in front of a line, where something like one stands there.
pub fn date_sentence(rest: &[u8]) -> Option<&'static str> {
    let (word, more) = take_word(rest);
    match word {
        [] => None,
        [b'-', digits @ ..] if begins_with_digit(digits) => Some(NEGATIVE),
        _ if is_calendar_day(word) || is_calendar_name(word) => Some(CIVIL),
        _ if !begins_with_digit(word) => None,
        _ if goes_on_as_time(more) => Some(CIVIL),
        _ if is_date(word) => None,
        _ => Some(of_digits(word).unwrap_or(of_digit_word(word))),
    }
}
