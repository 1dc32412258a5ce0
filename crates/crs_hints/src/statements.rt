// The statements of models.
use crate::pieces::{Kind, Piece};
use crate::walking::{
    Stop, count, end, held, is_next, is_number, keyword, limit, mark, name, named, pattern,
    stop_before, values, window,
};

const BEHIND: &str = "nothing may stand behind a statement: each has a line of its own";

const BOUND: &str = "a bound wants a list of two numbers behind 'in': t2 - t1 in [LOW, HIGH]";

const BOUND_END: &str =
    "a bound's ends are whole numbers without a unit, or -inf on the left, inf on the right";

const DIFFERENCE: &str = "blanks stand on both sides of a bound's '-': t2 - t1 in [LOW, HIGH]";

const TWO_POINTS: &str = "a bound is between two points: t2 - t1 in [LOW, HIGH]";

const EVENT: &str = "an event is written event(PATTERN, POINT)";

/// What a level is.
pub const LEVEL: &str = "a level is a number from 0 to 7";

const NO_EVENT: &str = "this is written noevent(PATTERN, (FROM, TO))";

const OCCURS: &str = "this is written occurs((LOW, HIGH), PATTERN, (FROM, TO))";

const HOLD: &str = "a hold wants a value behind a ':': hold(NAME: VALUE, (FROM, TO))";

const EMIT: &str = "an emit is written emit(PATTERN, POINT)";

const VALUES: &str = "a list of values stands in round brackets: in (VALUE, VALUE)";

const PROMPT: &str = "the word before 'chronicle' is 'prompt', or none: prompt chronicle NAME {";

const NO_STATEMENT: &str = "no statement begins so";

/// The words with which statements begin.
const KEYWORDS: [&[u8]; 11] = [
    b"message",
    b"attribute",
    b"prompt",
    b"derived",
    b"chronicle",
    b"event",
    b"noevent",
    b"occurs",
    b"hold",
    b"emit",
    b"point",
];

/// Whether a word begins a statement outside chronicles.
pub fn is_declared(word: &[u8]) -> bool {
    word == b"message".as_slice()
        || word == b"attribute".as_slice()
        || word == b"prompt".as_slice()
        || word == b"derived".as_slice()
        || word == b"chronicle".as_slice()
}

fn message(rest: &[Piece<'_>]) -> Result<(), Stop> {
    let rest = name(rest, "a message's name is wanted here: message NAME NUMBER")?;
    let rest = count(
        rest,
        "a message wants its number of arguments: message NAME NUMBER",
    )?;
    end(rest, BEHIND)
}

fn derived(rest: &[Piece<'_>]) -> Result<(), Stop> {
    let rest = name(rest, "a derived name is wanted here: derived NAME NUMBER")?;
    let rest = count(
        rest,
        "a derived name wants its number of arguments: derived NAME NUMBER",
    )?;
    end(rest, BEHIND)
}

/// Values in brackets, and nothing behind them.
fn listed(rest: &[Piece<'_>]) -> Result<(), Stop> {
    let rest = mark(rest, b'(', VALUES)?;
    let rest = values(rest.len(), rest)?;
    end(rest, BEHIND)
}

fn attribute(rest: &[Piece<'_>]) -> Result<(), Stop> {
    let rest = name(
        rest,
        "an attribute's name is wanted here: attribute NAME NUMBER",
    )?;
    let rest = count(
        rest,
        "an attribute wants its number of arguments: attribute NAME NUMBER",
    )?;
    match rest {
        [piece, more @ ..] if piece.is_word(b"in") => listed(more),
        _ => end(
            rest,
            "behind an attribute stands 'in (VALUE, VALUE)' or nothing",
        ),
    }
}

/// Whether `prompt` and a name stand next, where a chronicle's name alone does.
fn is_prompt_behind(rest: &[Piece<'_>]) -> bool {
    match rest {
        [piece, other, ..] => piece.is_word(b"prompt") && other.word().is_some(),
        _ => false,
    }
}

/// A chronicle, behind the word `chronicle`.
fn chronicle(rest: &[Piece<'_>]) -> Result<(), Stop> {
    if is_prompt_behind(rest) {
        return Err(stop_before(rest, PROMPT));
    }
    let rest = name(rest, "a chronicle's name is wanted here: chronicle NAME {")?;
    let rest = mark(rest, b'{', "a '{' is wanted behind a chronicle's name")?;
    end(rest, BEHIND)
}

/// A prompt chronicle, behind its first word.
fn prompt(rest: &[Piece<'_>]) -> Result<(), Stop> {
    match rest {
        [piece, more @ ..] if piece.is_word(b"chronicle") => chronicle(more),
        _ => Err(stop_before(
            rest,
            "behind 'prompt' a chronicle begins: prompt chronicle NAME {",
        )),
    }
}

fn point(rest: &[Piece<'_>]) -> Result<(), Stop> {
    let rest = name(rest, "a point's name is wanted here: point NAME")?;
    end(rest, BEHIND)
}

/// A level, or nothing.
fn level(rest: &[Piece<'_>]) -> Result<(), Stop> {
    match rest {
        [piece, more @ ..] if piece.is_word(b"level") => {
            let rest = count(more, LEVEL)?;
            end(rest, BEHIND)
        }
        _ => end(rest, "behind an event stands 'level NUMBER' or nothing"),
    }
}

fn event(rest: &[Piece<'_>]) -> Result<(), Stop> {
    let rest = mark(rest, b'(', EVENT)?;
    let rest = pattern(rest)?;
    let rest = mark(
        rest,
        b',',
        "a ',' and the event's point are wanted here: event(PATTERN, POINT)",
    )?;
    let rest = name(rest, "an event's point is a name: event(PATTERN, POINT)")?;
    let rest = mark(
        rest,
        b')',
        "the event's ')' is missing: event(PATTERN, POINT)",
    )?;
    level(rest)
}

fn noevent(rest: &[Piece<'_>]) -> Result<(), Stop> {
    let rest = mark(rest, b'(', NO_EVENT)?;
    let rest = pattern(rest)?;
    window(rest)
}

fn occurs(rest: &[Piece<'_>]) -> Result<(), Stop> {
    let rest = mark(rest, b'(', OCCURS)?;
    let rest = mark(
        rest,
        b'(',
        "two numbers in round brackets are wanted: occurs((LOW, HIGH), PATTERN, (FROM, TO))",
    )?;
    let rest = count(rest, OCCURS)?;
    let rest = mark(rest, b',', OCCURS)?;
    let rest = match rest {
        [piece, more @ ..] if piece.is_word(b"inf") => more,
        _ => count(rest, OCCURS)?,
    };
    let rest = mark(rest, b')', OCCURS)?;
    let rest = mark(rest, b',', OCCURS)?;
    let rest = pattern(rest)?;
    window(rest)
}

fn hold(rest: &[Piece<'_>]) -> Result<(), Stop> {
    let rest = mark(rest, b'(', HOLD)?;
    let rest = named(rest)?;
    let rest = mark(rest, b':', HOLD)?;
    let rest = held(rest)?;
    window(rest)
}

fn emit(rest: &[Piece<'_>]) -> Result<(), Stop> {
    let rest = mark(rest, b'(', EMIT)?;
    let rest = pattern(rest)?;
    let rest = mark(rest, b',', EMIT)?;
    let rest = name(rest, EMIT)?;
    let rest = mark(rest, b')', EMIT)?;
    end(rest, BEHIND)
}

/// A bound, behind its first point.
fn bound(rest: &[Piece<'_>]) -> Result<(), Stop> {
    let rest = keyword(rest, b"-", DIFFERENCE)?;
    let rest = name(rest, TWO_POINTS)?;
    let rest = keyword(rest, b"in", BOUND)?;
    let rest = mark(rest, b'[', BOUND)?;
    let rest = limit(rest, b"-inf", BOUND_END)?;
    let rest = mark(
        rest,
        b',',
        "a ',' is wanted between a bound's ends: [LOW, HIGH]",
    )?;
    let rest = limit(rest, b"inf", BOUND_END)?;
    let rest = mark(rest, b']', "the bound's ']' is missing: [LOW, HIGH]")?;
    end(rest, BEHIND)
}

/// A statement of a variable, behind its `?`.
fn variable(rest: &[Piece<'_>]) -> Result<(), Stop> {
    let rest = name(rest, "a variable's name stands right behind its '?'")?;
    match rest {
        [piece, more @ ..] if piece.is_word(b"in") => listed(more),
        [piece, more @ ..] if piece.is_mark(b'!') => {
            let rest = mark(more, b'?', "a variable is wanted behind '!=': ?x != ?y")?;
            let rest = name(rest, "a variable's name stands right behind its '?'")?;
            end(rest, BEHIND)
        }
        _ => Err(stop_before(
            rest,
            "behind a variable stands 'in (VALUE, VALUE)' or '!= ?OTHER'",
        )),
    }
}

/// A statement outside chronicles, behind its first word.
fn declared(word: &[u8], rest: &[Piece<'_>]) -> Result<(), Stop> {
    if word == b"message".as_slice() {
        message(rest)
    } else if word == b"attribute".as_slice() {
        attribute(rest)
    } else if word == b"prompt".as_slice() {
        prompt(rest)
    } else if word == b"derived".as_slice() {
        derived(rest)
    } else {
        chronicle(rest)
    }
}

/// Whether the word is a statement's first but for capitals.
fn has_capitals(word: &[u8]) -> bool {
    KEYWORDS.iter().any(|k| word.eq_ignore_ascii_case(k))
}

/// Whether it is a word with a `-` in front.
fn is_negative(piece: &Piece<'_>) -> bool {
    match piece.kind {
        Kind::Word(word) => word.first() == Some(&b'-'),
        _ => false,
    }
}

/// Whether a `-` comes next, as in a bound.
fn is_dash_next(rest: &[Piece<'_>]) -> bool {
    match rest {
        [piece, ..] => piece.is_word(b"-"),
        [] => false,
    }
}

/// A line whose first word begins no statement, nor a bound with blanks around its `-`.
fn unknown(word: &[u8], line: &[Piece<'_>], rest: &[Piece<'_>]) -> Stop {
    if has_capitals(word) {
        return stop_before(line, "the words of statements have small letters");
    }
    match rest {
        [piece, ..] if piece.is_word(b"in") && word.contains(&b'-') => stop_before(
            line, DIFFERENCE,
        ),
        [piece, more @ ..] if piece.is_word(b"in") && !is_next(more, b'(') => {
            stop_before(rest, TWO_POINTS)
        }
        [piece, ..] if piece.is_mark(b'(') => stop_before(
            line,
            "no statement begins so: there are event(..), noevent(..), occurs(..), hold(..) and emit(..)",
        ),
        [piece, ..] if piece.is_other() => {
            stop_before(rest, "a bound is written t2 - t1 in [LOW, HIGH]")
        }
        [piece, ..] if is_negative(piece) => stop_before(rest, DIFFERENCE),
        [piece, ..] if piece.is_word(b"chronicle") => stop_before(line, PROMPT),
        [_, piece] if is_number(piece) => stop_before(
            line,
            "no statement begins so: a name is declared by message, attribute or derived",
        ),
        _ => stop_before(line, NO_STATEMENT),
    }
}

/// A statement that begins with a word.
fn worded(word: &[u8], line: &[Piece<'_>], rest: &[Piece<'_>]) -> Result<(), Stop> {
    if is_dash_next(rest) {
        bound(rest)
    } else if is_declared(word) && !is_next(rest, b'(') {
        declared(word, rest)
    } else if word == b"event".as_slice() {
        event(rest)
    } else if word == b"noevent".as_slice() {
        noevent(rest)
    } else if word == b"occurs".as_slice() {
        occurs(rest)
    } else if word == b"hold".as_slice() {
        hold(rest)
    } else if word == b"emit".as_slice() {
        emit(rest)
    } else if word == b"point".as_slice() {
        point(rest)
    } else {
        Err(unknown(word, line, rest))
    }
}

/// Goes through the statement of a line, as one of either place.
pub fn statement(line: &[Piece<'_>]) -> Result<(), Stop> {
    match line {
        [piece, rest @ ..] if piece.is_mark(b'}') => end(rest, "a '}' has a line of its own"),
        [piece, rest @ ..] if piece.is_mark(b'?') => variable(rest),
        [piece, ..] if piece.is_mark(b'{') => Err(stop_before(
            line,
            "a '{' stands on the line of its chronicle: chronicle NAME {",
        )),
        [piece, rest @ ..] => match piece.kind {
            Kind::Word(word) => worded(word, line, rest),
            _ => Err(stop_before(line, NO_STATEMENT)),
        },
        [] => Ok(()),
    }
}
