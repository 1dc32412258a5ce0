use crate::circles::{Circle, circle_at};
use crate::faults::{column_of, large_level, pattern_word, sentence_at, sentence_of};
use crate::pieces::{Piece, pieces};
use crate::statements::{LEVEL, is_declared, statement};
use crate::walking::Stop;
use crs_base::{RawLine, first_line, is_long, line_bytes};
use crs_model::ModelWord;
use std::alloc::{AllocError, Global};

/// What may be wrong in a refused line.
#[derive(Clone, Copy, Debug)]
pub struct Hint<'a> {
    /// One plain sentence, without a full stop.
    pub sentence: &'static str,
    /// The byte that can't stand there, where the sentence speaks of bytes.
    pub byte: Option<u8>,
    /// How many bytes of the line stand before the first place that can't stand there, where that
    /// can be told. It is the line's length where something is missing at its end.
    pub column: Option<usize>,
    /// The chronicles of a name that is emitted, and used where it can't be.
    pub circle: Option<Circle<'a>>,
    /// The line's bytes, or none where the text has no such line.
    pub line: &'a [u8],
}

const MARKED: &str = "a byte order mark stands in front: save the file without one, as plain UTF-8";

/// The line with a number from 1 on.
pub(crate) fn nth_line<'a>(text: &'a [u8], number: u64) -> Option<RawLine<'a>> {
    let mut rest = text;
    for _ in 1..number {
        if rest.is_empty() {
            return None;
        }
        let (_, more) = first_line(rest);
        rest = more;
    }
    if number == 0 || rest.is_empty() {
        return None;
    }
    let (line, _) = first_line(rest);
    Some(line)
}

/// The hint of a line that is no statement.
fn form_hint<'a>(line: &'a [u8], found: &[Piece<'a>]) -> Hint<'a> {
    if line.starts_with(b"\xef\xbb\xbf") {
        return Hint {
            sentence: MARKED,
            ..word_hint(line, ModelWord::Form, Some(0))
        };
    }
    match statement(found) {
        Err(
            Stop {
                column,
                sentence,
                byte,
            },
        ) => Hint {
            sentence,
            byte,
            column: Some(column.unwrap_or(line.len())),
            circle: None,
            line,
        },
        Ok(()) => Hint {
            sentence: misplaced(found),
            byte: None,
            column: found.first().map(|piece| piece.start),
            circle: None,
            line,
        },
    }
}

/// Why a statement can't stand where it does.
fn misplaced(found: &[Piece<'_>]) -> &'static str {
    match found {
        [piece, ..] if piece.is_mark(b'}') => "a '}' ends a chronicle, and none is open here",
        [piece, ..] if is_declaration(piece) => {
            "this stands outside chronicles; the '}' of the one above is missing"
        }
        _ => "this stands inside a chronicle, between 'chronicle NAME {' and '}'",
    }
}

/// Whether a statement outside chronicles begins with this.
fn is_declaration(piece: &Piece<'_>) -> bool {
    match piece.word() {
        Some(word) => is_declared(word),
        None => false,
    }
}

/// The hint of a word alone.
fn word_hint<'a>(line: &'a [u8], word: ModelWord, column: Option<usize>) -> Hint<'a> {
    Hint {
        sentence: sentence_of(word),
        byte: None,
        column,
        circle: None,
        line,
    }
}

/// The hint of what is above a limit: its level, where that is too large.
fn limit_hint<'a>(line: &'a [u8], found: &[Piece<'a>]) -> Hint<'a> {
    let word = ModelWord::Limit;
    match large_level(found) {
        Some(column) => Hint {
            sentence: LEVEL,
            byte: None,
            column: Some(column),
            circle: None,
            line,
        },
        None => word_hint(line, word, column_of(found, word)),
    }
}

/// The hint where the text has no such line: it is too long, or ends inside a chronicle.
fn endless_hint<'a>(word: ModelWord) -> Hint<'a> {
    let hint = word_hint(b"", word, None);
    match word {
        ModelWord::Form => Hint {
            sentence: "the text ends inside a chronicle: its '}' is missing",
            ..hint
        },
        _ => hint,
    }
}

/// The hint of a name that goes round: both chronicles, the one that emits it and the one that uses it.
fn emit_hint<'a>(
    alloc: Global,
    text: &'a [u8],
    number: u32,
    line: &'a [u8],
    found: &[Piece<'a>],
) -> Result<Hint<'a>, AllocError> {
    let word = ModelWord::Emit;
    let hint = word_hint(line, word, column_of(found, word));
    let Some(name) = pattern_word(found) else {
        return Ok(hint);
    };
    let circle = circle_at(alloc, text, number, name)?;
    Ok(Hint { circle, ..hint })
}

/// What may be wrong in the line with this number, which was refused with this word. It looks at
/// this line alone, and at nothing of it where it is longer than a line may be; for the word `emit`
/// also at the lines above, as the name's other use stands there.
pub fn hint_of<'a>(
    alloc: Global,
    text: &'a [u8],
    number: u32,
    word: ModelWord,
) -> Result<Hint<'a>, AllocError> {
    let Some(raw) = nth_line(text, number as u64) else {
        return Ok(endless_hint(word));
    };
    let line = line_bytes(raw);
    if is_long(raw) {
        return Ok(Hint {
            sentence: "a line has at most 4096 bytes",
            byte: None,
            column: None,
            circle: None,
            line,
        });
    }
    let found = pieces(alloc, line)?;
    match word {
        ModelWord::Form => Ok(form_hint(line, &found)),
        ModelWord::Limit => Ok(limit_hint(line, &found)),
        ModelWord::Emit => emit_hint(alloc, text, number, line, &found),
        _ => Ok(Hint {
            sentence: sentence_at(&found, word),
            ..word_hint(line, word, column_of(&found, word))
        }),
    }
}
