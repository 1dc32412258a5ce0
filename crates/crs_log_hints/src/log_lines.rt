ghost use Rattle.std.specs.Prelude.{◌≡◌, ◌≤◌, length, IfSome};

use crate::files::file_sentence;
use crate::statements::statement;
use crate::walking::{Stop, skip_blanks, take_word};

/// The word for which a line of a log was refused. Dates are ticks of the log's clock.
#[derive(Clone, Copy, Debug, PartialEq, Eq, Drop)]
pub enum LogWord {
    Long,
    Form,
    Order,
    Back { clock: u64, last: u64 },
    Late { date: u64, horizon: u64 },
    Arity,
    Value,
    Full,
    Values,
}

/// What may be wrong in a refused line of a log.
#[derive(Clone, Copy, Debug)]
pub struct LogHint<'a> {
    /// One plain sentence, without a full stop.
    pub sentence: &'static str,
    /// The byte that can't stand there, where the sentence speaks of bytes.
    pub byte: Option<u8>,
    /// How many bytes of the line stand before the first place that can't stand there, where that
    /// can be told. It is the line's length where something is missing at its end.
    pub column: Option<usize>,
    /// The line's bytes.
    pub line: &'a [u8],
}

/// How many bytes of a line stand in front of what is left of it.
fn column_of(line: &[u8], left: usize) -> usize
    ensures { result ≤ length line.now }
{
    line.len().saturating_sub(left)
}

/// The column of the first word.
fn first_word(line: &[u8]) -> Option<usize>
    ensures { IfSome result (λ c. c ≤ length line.now) }
{
    Some(column_of(line, skip_blanks(line).len()))
}

/// The column of the second word: a name, or the number of a clock.
fn second_word(line: &[u8]) -> Option<usize>
    ensures { IfSome result (λ c. c ≤ length line.now) }
{
    let (_, rest) = take_word(skip_blanks(line));
    Some(column_of(line, skip_blanks(rest).len()))
}

/// The column of the new value of a change: what stands behind the last comma.
fn new_value(line: &[u8]) -> Option<usize>
    ensures { IfSome result (λ c. c ≤ length line.now) }
{
    let place = line.iter().rposition(|byte| *byte == b',')?;
    let rest = line.get(place..)?;
    let rest = rest.get(1..)?;
    Some(column_of(line, skip_blanks(rest).len()))
}

/// Whether a number is so far above another one that it is hardly of the same clock.
fn is_far_above(high: u64, low: u64) -> bool {
    low.saturating_mul(4).saturating_add(1_000_000) < high
}

/// What is said of an event before the horizon.
fn late_sentence(date: u64, horizon: u64) -> &'static str {
    if is_far_above(horizon, date) {
        "a clock above is far higher than this date, and all events before it are late now: is its unit another, or has it a digit too many"
    } else {
        "this is dated before the last clock less the delay: a greater 'delay' lets events come later"
    }
}

/// What is said of a clock before the last one.
fn back_sentence(clock: u64, last: u64) -> &'static str {
    if is_far_above(last, clock) {
        "a clock above is far higher than this one, and clocks never go back: is its unit another, or has it a digit too many"
    } else {
        "clocks never go back: behind a clock the same one or a later one comes"
    }
}

/// The sentence of a word.
fn word_sentence(word: LogWord) -> &'static str {
    match word {
        LogWord::Long => "a line has at most 4096 bytes",
        LogWord::Form => "this is no statement of a log",
        LogWord::Order => "nothing may stand behind 'end'",
        LogWord::Back { clock, last } => back_sentence(clock, last),
        LogWord::Late { date, horizon } => late_sentence(date, horizon),
        LogWord::Arity => {
            "the models declare this name with another number of arguments; and an attribute wants a change, a message none"
        }
        LogWord::Value => "the models' list of this attribute's values doesn't have this one",
        LogWord::Full => "a run accepts at most 2^32 - 1 entries",
        LogWord::Values => "models and log have at most 2^20 distinct symbols",
    }
}

/// The column of what a word speaks of, where the word alone tells it.
fn word_column(line: &[u8], word: LogWord) -> Option<usize>
    ensures { IfSome result (λ c. c ≤ length line.now) }
{
    match word {
        LogWord::Order | LogWord::Late { .. } => first_word(line),
        LogWord::Back { .. } | LogWord::Arity => second_word(line),
        LogWord::Value => new_value(line),
        _ => None,
    }
}

/// The hint of a line that is no statement.
fn form_hint<'a>(line: &'a [u8]) -> LogHint<'a>
    ensures column { IfSome result.column (λ c. c ≤ length line.entry.now) }
    ensures line { result.line.now ≡ line.entry.now }
{
    match statement(line) {
        Err(
            Stop {
                left,
                sentence,
                byte,
            },
        ) => LogHint {
            sentence,
            byte,
            column: Some(column_of(line, left)),
            line,
        },
        Ok(()) => word_hint(line, LogWord::Form),
    }
}

/// The hint of a word alone.
fn word_hint<'a>(line: &'a [u8], word: LogWord) -> LogHint<'a>
    ensures column { IfSome result.column (λ c. c ≤ length line.entry.now) }
    ensures line { result.line.now ≡ line.entry.now }
{
    LogHint {
        sentence: word_sentence(word),
        byte: None,
        column: word_column(line, word),
        line,
    }
}

/// The hint of a file that is no log.
fn file_hint<'a>(line: &'a [u8]) -> Option<LogHint<'a>>
    ensures { IfSome result (λ hint. IfSome hint.column (λ c. c ≤ length line.entry.now) × (hint.line.now ≡ line.entry.now)) }
{
    let sentence = file_sentence(line)?;
    Some(LogHint {
        sentence,
        byte: None,
        column: Some(0),
        line,
    })
}

/// What may be wrong in a line of a log that was refused with this word. It looks at this line alone.
pub fn log_hint<'a>(line: &'a [u8], word: LogWord) -> LogHint<'a>
    ensures column { IfSome result.column (λ c. c ≤ length line.entry.now) }
    ensures line { result.line.now ≡ line.entry.now }
{
    match word {
        LogWord::Form => match file_hint(line) {
            Some(hint) => hint,
            None => form_hint(line),
        },
        LogWord::Long => match file_hint(line) {
            Some(hint) => hint,
            None => word_hint(line, word),
        },
        _ => word_hint(line, word),
    }
}
