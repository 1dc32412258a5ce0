// Going through the parts of a statement, up to the first place where it can't go on.
use crate::pieces::{Kind, Piece};
use crs_base::{integer, is_symbol, number};

/// Where a statement can't go on.
#[derive(Clone, Copy, Debug)]
pub struct Stop {
    /// How many bytes of the line stand before that place, or None at the line's end.
    pub column: Option<usize>,
    /// What is wanted there.
    pub sentence: &'static str,
    /// The byte that stands there, where the sentence speaks of bytes.
    pub byte: Option<u8>,
}

/// What is left of a line behind a part of its statement.
pub type Rest<'t, 'a> = Result<&'t [Piece<'a>], Stop>;

const LONG_NAME: &str = "a name or value has at most 64 bytes";

const STRANGE_BYTE: &str = "names, values and numbers have letters, digits, '_', '.' and '-' alone";

const TERM: &str = "a name, a ?VARIABLE or * is wanted here";

const CHANGE: &str = "a change is written with its old and its new value: NAME: (OLD, NEW)";

const ANCHOR: &str = "a window's end is an event's point, or one with + NUMBER or - NUMBER";

/// The stop at a byte that is of no word and no mark.
fn stop_at_byte(column: usize, byte: u8, sentence: &'static str) -> Stop {
    let (sentence, byte) = match byte {
        b'#' => ("a comment stands on a line of its own", None),
        b'/' => (
            "a comment begins with '#', and stands on a line of its own",
            None,
        ),
        b';' => ("a statement is written on one line, without a ';'", None),
        b'"' | b'\'' => ("names and values stand without quotes", None),
        b'<' | b'=' | b'>' | b'!' => (sentence, None),
        _ => (STRANGE_BYTE, Some(byte)),
    };
    Stop {
        column: Some(column),
        sentence,
        byte,
    }
}

/// The stop in front of what is left, where the sentence says what is wanted.
pub fn stop_before(rest: &[Piece<'_>], sentence: &'static str) -> Stop {
    match rest {
        [] => Stop {
            column: None,
            sentence,
            byte: None,
        },
        [piece, ..] => stop_at(piece, sentence),
    }
}

/// The stop at a piece.
fn stop_at(piece: &Piece<'_>, sentence: &'static str) -> Stop {
    match piece.kind {
        Kind::Other(byte) => stop_at_byte(piece.start, byte, sentence),
        Kind::Word(_) | Kind::Mark(_) => Stop {
            column: Some(piece.start),
            sentence,
            byte: None,
        },
    }
}

/// Whether this mark comes next.
pub fn is_next(rest: &[Piece<'_>], mark: u8) -> bool {
    match rest {
        [piece, ..] => piece.is_mark(mark),
        [] => false,
    }
}

/// Passes over a mark.
pub fn mark<'t, 'a>(rest: &'t [Piece<'a>], wanted: u8, sentence: &'static str) -> Rest<'t, 'a> {
    match rest {
        [piece, more @ ..] if piece.is_mark(wanted) => Ok(more),
        _ => Err(stop_before(rest, sentence)),
    }
}

/// Passes over a word.
pub fn keyword<'t, 'a>(
    rest: &'t [Piece<'a>],
    wanted: &[u8],
    sentence: &'static str,
) -> Rest<'t, 'a> {
    match rest {
        [piece, more @ ..] if piece.is_word(wanted) => Ok(more),
        _ => Err(stop_before(rest, sentence)),
    }
}

/// Passes over a name or a value.
pub fn name<'t, 'a>(rest: &'t [Piece<'a>], sentence: &'static str) -> Rest<'t, 'a> {
    match rest {
        [piece, more @ ..] if is_name(piece) => Ok(more),
        [piece, ..] if piece.word().is_some() => Err(stop_before(rest, LONG_NAME)),
        _ => Err(stop_before(rest, sentence)),
    }
}

fn is_name(piece: &Piece<'_>) -> bool {
    match piece.kind {
        Kind::Word(word) => is_symbol(word),
        _ => false,
    }
}

/// Passes over a number.
pub fn count<'t, 'a>(rest: &'t [Piece<'a>], sentence: &'static str) -> Rest<'t, 'a> {
    match rest {
        [piece, more @ ..] if is_number(piece) => Ok(more),
        _ => Err(stop_before(rest, sentence)),
    }
}

/// Whether it is a number.
pub fn is_number(piece: &Piece<'_>) -> bool {
    match piece.kind {
        Kind::Word(word) => number(word).is_some(),
        _ => false,
    }
}

/// Passes over a whole number, or the word for none.
pub fn limit<'t, 'a>(
    rest: &'t [Piece<'a>],
    infinite: &[u8],
    sentence: &'static str,
) -> Rest<'t, 'a> {
    match rest {
        [piece, more @ ..] if piece.is_word(infinite) || is_integer(piece) => Ok(more),
        _ => Err(stop_before(rest, sentence)),
    }
}

fn is_integer(piece: &Piece<'_>) -> bool {
    match piece.kind {
        Kind::Word(word) => integer(word).is_some(),
        _ => false,
    }
}

/// Nothing is left.
pub fn end(rest: &[Piece<'_>], sentence: &'static str) -> Result<(), Stop> {
    match rest {
        [] => Ok(()),
        _ => Err(stop_before(rest, sentence)),
    }
}

fn term<'t, 'a>(rest: &'t [Piece<'a>]) -> Rest<'t, 'a> {
    match rest {
        [piece, more @ ..] if piece.is_mark(b'*') => Ok(more),
        [piece, more @ ..] if piece.is_mark(b'?') => {
            name(more, "a variable's name stands right behind its '?'")
        }
        _ => name(rest, TERM),
    }
}

/// At most `most` terms, up to a `]`.
fn terms<'t, 'a>(most: usize, rest: &'t [Piece<'a>]) -> Rest<'t, 'a> {
    if most == 0 {
        return Err(stop_before(rest, TERM));
    }
    let rest = term(rest)?;
    match rest {
        [piece, more @ ..] if piece.is_mark(b',') => terms(most - 1, more),
        _ => mark(rest, b']', "a ',' or the ']' of the arguments is missing"),
    }
}

/// At most `most` values, up to a `)`.
pub fn values<'t, 'a>(most: usize, rest: &'t [Piece<'a>]) -> Rest<'t, 'a> {
    if most == 0 {
        return Err(stop_before(rest, "a value is wanted here"));
    }
    let rest = name(rest, "a value is wanted here")?;
    match rest {
        [piece, more @ ..] if piece.is_mark(b',') => values(most - 1, more),
        _ => mark(rest, b')', "a ',' or the ')' of the values is missing"),
    }
}

/// The terms behind a `[`, up to its `]`.
fn arguments<'t, 'a>(rest: &'t [Piece<'a>]) -> Rest<'t, 'a> {
    if is_next(rest, b']') {
        return Err(stop_before(
            rest,
            "a name has terms in its brackets: without arguments no brackets are written",
        ));
    }
    terms(rest.len(), rest)
}

/// Passes over a name and its arguments, if it has any.
pub fn named<'t, 'a>(rest: &'t [Piece<'a>]) -> Rest<'t, 'a> {
    let rest = name(rest, "the name of a message or an attribute is wanted here")?;
    match rest {
        [piece, more @ ..] if piece.is_mark(b'[') => arguments(more),
        _ => Ok(rest),
    }
}

fn change<'t, 'a>(rest: &'t [Piece<'a>]) -> Rest<'t, 'a> {
    let rest = mark(rest, b'(', CHANGE)?;
    let rest = term(rest)?;
    let rest = mark(rest, b',', CHANGE)?;
    let rest = term(rest)?;
    mark(
        rest,
        b')',
        "the ')' of the change is missing: NAME: (OLD, NEW)",
    )
}

/// Passes over a pattern.
pub fn pattern<'t, 'a>(rest: &'t [Piece<'a>]) -> Rest<'t, 'a> {
    let rest = named(rest)?;
    match rest {
        [piece, more @ ..] if piece.is_mark(b':') => change(more),
        [piece, ..] if piece.is_mark(b'(') => Err(stop_before(
            rest,
            "a ':' is missing before the change, or arguments want '[': NAME[TERM]: (OLD, NEW)",
        )),
        _ => Ok(rest),
    }
}

/// Passes over a value that isn't a change.
pub fn held<'t, 'a>(rest: &'t [Piece<'a>]) -> Rest<'t, 'a> {
    if is_next(rest, b'(') {
        return Err(stop_before(
            rest,
            "a hold has one value without brackets: hold(NAME: VALUE, (FROM, TO))",
        ));
    }
    term(rest)
}

fn anchor<'t, 'a>(rest: &'t [Piece<'a>]) -> Rest<'t, 'a> {
    let rest = name(rest, ANCHOR)?;
    match rest {
        [piece, more @ ..] if piece.is_mark(b'+') || piece.is_word(b"-") => count(more, ANCHOR),
        [piece, ..] if piece.word().is_some() => Err(stop_before(
            rest,
            "a '+' or a '-' with a blank behind it is wanted between a point and a number",
        )),
        _ => Ok(rest),
    }
}

/// A window, and the end of its statement.
pub fn window(rest: &[Piece<'_>]) -> Result<(), Stop> {
    let rest = mark(
        rest,
        b',',
        "a ',' and the window are wanted here: (FROM, TO)",
    )?;
    let rest = mark(rest, b'(', "a window stands in round brackets: (FROM, TO)")?;
    let rest = anchor(rest)?;
    let rest = mark(rest, b',', "a window has two ends: (FROM, TO)")?;
    let rest = anchor(rest)?;
    let rest = mark(rest, b')', "the ')' of the window is missing: (FROM, TO)")?;
    let rest = mark(rest, b')', "the statement's last ')' is missing")?;
    end(rest, "nothing may stand behind the statement's last ')'")
}
