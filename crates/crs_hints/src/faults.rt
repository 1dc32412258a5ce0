// What each word of refused models means, and the place of the line that it speaks of.
use crate::pieces::{Kind, Piece};
use crs_base::{integer, number};
use crs_model::ModelWord;
use crs_model::limits::{ARITY_LIMIT, LEVEL_LIMIT, TICK_LIMIT};

/// The sentence of a word.
pub fn sentence_of(word: ModelWord) -> &'static str {
    match word {
        ModelWord::Size => "a models text has at most 2^20 bytes",
        ModelWord::Form => "this is no statement here",
        ModelWord::Twice =>
            "this is there already: a name, a point, or a variable's list of values",
        ModelWord::Name => {
            "no line above declares this name, or a hold names a message or a derived name"
        }
        ModelWord::Arity => {
            "the arguments aren't as many as declared, or a message has a change, or an attribute none"
        }
        ModelWord::Value => "the attribute's declared list doesn't have this value",
        ModelWord::Variable => "no event above has this variable",
        ModelWord::Point => {
            "a point isn't declared above by an event or by 'point'; a window wants points of events"
        }
        ModelWord::Bound => {
            "a number is above its limit (2^40, for occurs 2^32 - 1), or the low end is above the high one"
        }
        ModelWord::Window => "a hold has no '*': it is about one value of one attribute",
        ModelWord::Limit => "this is longer or more than a models text may have",
        ModelWord::Emit => { "what a chronicle emits is used by later chronicles alone" }
        ModelWord::Events => "a chronicle has at least one event, and this one has none",
        ModelWord::Unbound =>
            "a window or an emit of this chronicle has a variable that no event has",
        ModelWord::Lag => {
            "an entry of this chronicle's emits can come too long after its date: more than 2^40 ticks, or no matter how long"
        }
        ModelWord::Inconsistent => "no dates meet all bounds of this chronicle",
        ModelWord::Hierarchy => "this command takes no chronicles that emit entries",
    }
}

/// The sentence of a word that speaks of an `emit`, where there is one of its own.
fn emit_sentence_of(word: ModelWord) -> Option<&'static str> {
    match word {
        ModelWord::Name => {
            Some("an emit wants a derived name, which a line above declares: derived NAME NUMBER")
        }
        ModelWord::Arity => Some(
            "the arguments aren't as many as declared, or there is a change, which no derived name has",
        ),
        ModelWord::Point => Some("an emit wants the point of an event above, whose date it takes"),
        ModelWord::Window => Some("an emit has no '*': each argument of an entry is a symbol"),
        _ => None,
    }
}

/// The sentence of a word that was given at this line.
pub fn sentence_at(line: &[Piece<'_>], word: ModelWord) -> &'static str {
    match line {
        _ if word == ModelWord::Point && joined_point(line).is_some() => {
            "this is one name: blanks part a point from its offset, as in t1 - 3"
        }
        [piece, ..] if piece.is_word(b"emit") => {
            emit_sentence_of(word).unwrap_or(sentence_of(word))
        }
        _ => sentence_of(word),
    }
}

/// The first place of a mark.
fn place_of(line: &[Piece<'_>], mark: u8) -> Option<usize> {
    line.iter().position(|piece| piece.is_mark(mark))
}

/// The start of the piece at a place.
fn start_at(line: &[Piece<'_>], place: usize) -> Option<usize> {
    line.get(place).map(|piece| piece.start)
}

/// The first piece behind the last comma.
fn behind_last_comma(line: &[Piece<'_>]) -> Option<usize> {
    let mut is_behind = false;
    let mut start = None;
    for piece in line {
        if is_behind {
            start = Some(piece.start);
        }
        is_behind = piece.is_mark(b',');
    }
    start
}

/// What is declared: a name, a point, or a list of values.
fn declared(line: &[Piece<'_>]) -> Option<usize> {
    match line {
        [piece, ..] if piece.is_mark(b'?') => Some(piece.start),
        [piece, ..] if piece.is_word(b"event") => behind_last_comma(line),
        _ => start_at(line, 1),
    }
}

/// The name of the pattern.
fn pattern_name(line: &[Piece<'_>]) -> Option<usize> {
    match line {
        [piece, ..] if piece.is_word(b"occurs") => start_at(line, 8),
        _ => start_at(line, 2),
    }
}

/// The name of the pattern, as it is written.
pub fn pattern_word<'a>(line: &[Piece<'a>]) -> Option<&'a [u8]> {
    match line {
        [piece, ..] if piece.is_word(b"occurs") => line.get(8)?.word(),
        _ => line.get(2)?.word(),
    }
}

/// The new value of a change, or the value of a hold.
fn new_value(line: &[Piece<'_>]) -> Option<usize> {
    let (_, value) = line.split_at_checked(place_of(line, b':')?)?;
    match value {
        [_, piece, ..] if piece.is_mark(b'(') => behind_last_comma(up_to_bracket(value)),
        _ => start_at(value, 1),
    }
}

/// The pieces in front of the first `)`.
fn up_to_bracket<'t, 'a>(line: &'t [Piece<'a>]) -> &'t [Piece<'a>] {
    match place_of(line, b')') {
        Some(place) => line.get(..place).unwrap_or(line),
        None => line,
    }
}

/// Whether a word is a point and an offset without a blank between, as `t1-3`.
fn is_joined(piece: &Piece<'_>) -> bool {
    let Some(word) = piece.word() else {
        return false;
    };
    match word.iter().rposition(|byte| *byte == b'-') {
        Some(place) => place > 0 && number(word.get(place + 1..).unwrap_or(b"")).is_some(),
        None => false,
    }
}

/// Where a point of a window, or of a bound, is one name with its offset.
fn joined_point(line: &[Piece<'_>]) -> Option<usize> {
    let window = match line.iter().rposition(|piece| piece.is_mark(b'(')) {
        Some(place) => line.get(place..).unwrap_or(line),
        None => line,
    };
    window
        .iter()
        .find(|piece| is_joined(piece))
        .map(|piece| piece.start)
}

/// Whether it is a number whose size is above that of every bound.
fn is_too_large(piece: &Piece<'_>) -> bool {
    match piece.kind {
        Kind::Word(word) => match integer(word) {
            Some(n) => n.unsigned_abs() > TICK_LIMIT as u128,
            None => false,
        },
        _ => false,
    }
}

/// The number of arguments, where it is too large.
fn large_arity(line: &[Piece<'_>]) -> Option<usize> {
    let piece = line.get(2)?;
    if number(piece.word()?)? > ARITY_LIMIT {
        Some(piece.start)
    } else {
        None
    }
}

/// The level of an event, where it is too large.
pub fn large_level(line: &[Piece<'_>]) -> Option<usize> {
    match line {
        [first, .., keyword, piece] if first.is_word(b"event") && keyword.is_word(b"level") => {
            if number(piece.word()?)? > LEVEL_LIMIT {
                Some(piece.start)
            } else {
                None
            }
        }
        _ => None,
    }
}

/// How many bytes stand before what a word speaks of, where the line alone tells it.
pub fn column_of(line: &[Piece<'_>], word: ModelWord) -> Option<usize> {
    match word {
        ModelWord::Twice => declared(line),
        ModelWord::Name | ModelWord::Arity | ModelWord::Emit => pattern_name(line),
        ModelWord::Value => new_value(line),
        ModelWord::Variable if place_of(line, b'!').is_none() => start_at(line, 0),
        ModelWord::Bound => {
            let place = line.iter().position(is_too_large)?;
            start_at(line, place)
        }
        ModelWord::Window => start_at(line, place_of(line, b'*')?),
        ModelWord::Point => joined_point(line),
        ModelWord::Limit => large_arity(line),
        _ => None,
    }
}
