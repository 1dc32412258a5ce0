//! How something is told on standard error: the file's name, a line's number, a sentence, and the line
//! with a caret under a place of it.

use crs_base::is_blank;
use crs_hints::{Circle, Hint};
use crs_log_hints::LogHint;
use std::alloc::{AllocError, Global};
use std::io;

/// How many bytes of a refused line are shown.
const SHOWN: usize = 100;

/// What is said of a line, or of a file where the number is 0.
#[derive(Clone, Copy)]
struct Told<'a> {
    name: &'a str,
    number: u64,
    sentence: &'a str,
    byte: Option<u8>,
    column: Option<usize>,
    line: &'a [u8],
}

/// Bytes as they can be shown: what isn't printable is a '?'.
pub(crate) fn shown(alloc: Global, line: &[u8]) -> Result<String, AllocError> {
    let mut text = String::new(alloc);
    for byte in line.iter().take(SHOWN) {
        let is_shown = is_blank(*byte) || byte.is_ascii_graphic();
        text.push(if is_shown { *byte as char } else { '?' })?;
    }
    Ok(text)
}

/// A caret under a column of a line. It stands behind the tabs that the line has.
fn caret(alloc: Global, line: &[u8], column: usize) -> Result<String, AllocError> {
    let mut text = String::new(alloc);
    for byte in line.iter().take(column) {
        text.push(if *byte == b'\t' { '\t' } else { ' ' })?;
    }
    text.push('^')?;
    Ok(text)
}

/// Adds a control character as it is written in a text of a program.
fn push_escaped(text: &mut String, control: char) -> Result<(), AllocError> {
    for part in control.escape_default() {
        text.push(part)?;
    }
    Ok(())
}

/// A file's name as it can be shown on a terminal: control characters are escaped.
pub fn shown_name(alloc: Global, name: &str) -> Result<String, AllocError> {
    if name == "-" {
        return String::from_str(alloc, "standard input");
    }
    let mut text = String::new(alloc);
    for letter in name.chars() {
        if letter.is_control() {
            push_escaped(&mut text, letter)?;
        } else {
            text.push(letter)?;
        }
    }
    Ok(text)
}

/// Says a sentence about a file, or something about the words.
pub(crate) fn say_of(
    rt: &(impl Eprint + AllocGlobal),
    name: &str,
    sentence: &str,
) -> io::Result<()> {
    let name = shown_name(rt.alloc(), name)?;
    eprintln!(rt; "crs: {name}: {sentence}")
}

/// The sentence of a refusal, behind the file's name and the line's number.
fn say(rt: &(impl Eprint + AllocGlobal), told: &Told<'_>) -> io::Result<()> {
    let name = shown_name(rt.alloc(), told.name)?;
    let number = told.number;
    let sentence = told.sentence;
    match told.byte {
        _ if number == 0 => eprintln!(rt; "crs: {name}: {sentence}"),
        None => eprintln!(rt; "crs: {name}: line {number}: {sentence}"),
        Some(byte) if byte.is_ascii_graphic() => {
            eprintln!(rt;
                "crs: {name}: line {number}: {sentence}, no '{}'",
                byte as char
            )
        }
        Some(byte) => eprintln!(rt; "crs: {name}: line {number}: {sentence}, no byte {byte}"),
    }
}

/// The refused line, and a caret under the place that the hint tells.
fn show_line(rt: &(impl Eprint + AllocGlobal), told: &Told<'_>) -> io::Result<()> {
    if told.line.is_empty() {
        return Ok(());
    }
    let text = shown(rt.alloc(), told.line)?;
    eprintln!(rt; "  {text}")?;
    match told.column {
        Some(column) if column <= SHOWN => {
            let mark = caret(rt.alloc(), told.line, column)?;
            eprintln!(rt; "  {mark}")
        }
        _ => Ok(()),
    }
}

/// Says what is wrong in a line, and shows it.
fn tell(rt: &(impl Eprint + AllocGlobal), told: &Told<'_>) -> io::Result<()> {
    say(rt, told)?;
    show_line(rt, told)
}

/// The sentence of a name that goes round between chronicles, which are named.
fn circle_sentence(
    alloc: Global,
    sentence: &str,
    circle: &Circle<'_>,
) -> Result<String, AllocError> {
    let emitter = shown(alloc, circle.emitter)?;
    if circle.emitter == circle.user {
        return format!(in alloc; "{sentence}, and '{emitter}' uses it itself");
    }
    let user = shown(alloc, circle.user)?;
    format!(in alloc; "{sentence}, and '{user}' above '{emitter}' uses it")
}

/// Tells a hint at a line of models, of a table or of an output.
pub fn tell_hint(
    rt: &(impl Eprint + AllocGlobal),
    name: &str,
    number: u64,
    hint: &Hint<'_>,
) -> io::Result<()> {
    let told = Told {
        name,
        number,
        sentence: hint.sentence,
        byte: hint.byte,
        column: hint.column,
        line: hint.line,
    };
    match &hint.circle {
        None => tell(rt, &told),
        Some(circle) => {
            let sentence = circle_sentence(rt.alloc(), hint.sentence, circle)?;
            let told = Told {
                sentence: sentence.as_str(),
                ..told
            };
            tell(rt, &told)
        }
    }
}

/// Tells a hint at a line of a log.
pub(crate) fn tell_log_hint(
    rt: &(impl Eprint + AllocGlobal),
    name: &str,
    number: u64,
    hint: &LogHint<'_>,
) -> io::Result<()> {
    let told = Told {
        name,
        number,
        sentence: hint.sentence,
        byte: hint.byte,
        column: hint.column,
        line: hint.line,
    };
    tell(rt, &told)
}
