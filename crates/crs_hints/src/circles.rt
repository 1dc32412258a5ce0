// Which chronicles a name goes round between: the one that emits it, and the first one that uses it.
use crate::faults::pattern_word;
use crate::pieces::{Piece, pieces};
use crs_base::{first_line, line_bytes};
use std::alloc::{AllocError, Global};

/// A chronicle that emits a name, and the first one that uses it: the same, or one above.
#[derive(Clone, Copy, Debug)]
pub struct Circle<'a> {
    /// The name of the chronicle that emits.
    pub emitter: &'a [u8],
    /// The name of the chronicle that uses.
    pub user: &'a [u8],
}

/// What some lines say of a name.
#[derive(Clone, Copy)]
struct Seen<'a> {
    /// The chronicle that was begun last.
    open: &'a [u8],
    /// The first chronicle that uses the name.
    user: Option<&'a [u8]>,
}

/// The name of the chronicle that a line begins.
fn begun<'a>(line: &[Piece<'a>]) -> Option<&'a [u8]> {
    match line {
        [first, rest @ ..] if first.is_word(b"prompt") => begun_plainly(rest),
        _ => begun_plainly(line),
    }
}

/// The name of a chronicle, from the word `chronicle` on.
fn begun_plainly<'a>(line: &[Piece<'a>]) -> Option<&'a [u8]> {
    match line {
        [first, name, brace, ..] if first.is_word(b"chronicle") && brace.is_mark(b'{') => {
            name.word()
        }
        _ => None,
    }
}

/// The name that a line uses: that of the pattern of an event or of a window.
fn used<'a>(line: &[Piece<'a>]) -> Option<&'a [u8]> {
    match line {
        [first, bracket, ..] if bracket.is_mark(b'(') && wants_pattern(first) => pattern_word(line),
        _ => None,
    }
}

/// Whether a statement that begins so says what entries are wanted.
fn wants_pattern(first: &Piece<'_>) -> bool {
    first.is_word(b"event") || first.is_word(b"noevent") || first.is_word(b"occurs")
}

/// What the lines with one more say of a name.
fn with_line<'a>(seen: Seen<'a>, line: &[Piece<'a>], name: &[u8]) -> Seen<'a> {
    if let Some(open) = begun(line) {
        return Seen { open, ..seen };
    }
    match (seen.user, used(line)) {
        (None, Some(word)) if word == name => Seen {
            user: Some(seen.open),
            ..seen
        },
        _ => seen,
    }
}

/// The chronicle in which the line with this number stands, and the first one up to it that uses
/// the name, where there is one.
pub fn circle_at<'a>(
    alloc: Global,
    text: &'a [u8],
    number: u32,
    name: &[u8],
) -> Result<Option<Circle<'a>>, AllocError> {
    let mut seen = Seen {
        open: b"",
        user: None,
    };
    let mut rest = text;
    for _ in 0..number {
        if rest.is_empty() {
            break;
        }
        let (raw, more) = first_line(rest);
        let line = pieces(alloc, line_bytes(raw))?;
        seen = with_line(seen, &line, name);
        rest = more;
    }
    Ok(match seen.user {
        Some(user) => Some(Circle {
            emitter: seen.open,
            user,
        }),
        None => None,
    })
}
