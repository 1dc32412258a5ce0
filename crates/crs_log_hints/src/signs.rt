// Whether a log has what a recognition wants: a mark, and an event with a declared name.
use crate::dates::is_date;
use crate::held::HeldLines;
use crate::names::is_near;
use crate::statements::statement;
use crate::walking::{skip_blanks, take_word};
use crs_base::{first_line, is_symbol, line_bytes};
use std::alloc::{AllocError, Global};

/// In how many lines of a log a mark is looked for, and in how many of its events a declared name:
/// to look at all costs what a run over undeclared names costs.
const LINES_LIMIT: u64 = 4000;

const EVENTS_LIMIT: u32 = 1000;

/// What a log, or all of them, hasn't, so that nothing can be recognised. Logs are counted from 0.
#[derive(Clone, Copy)]
pub enum Silence<'a> {
    /// The log has no `clock` and no `end`.
    NoMark {
        log: usize,
        /// Whether all of its lines were looked at, and not the first ones alone.
        is_whole: bool,
    },
    /// No event has a declared name.
    NoName {
        /// The first name that was met, and where.
        log: usize,
        number: u64,
        name: &'a [u8],
        /// A declared name that is nearly the same.
        near: Option<&'a [u8]>,
        /// Whether all events were looked at, and not the first ones alone.
        is_whole: bool,
    },
}

/// The first name that isn't declared, and where it stands.
#[derive(Drop)]
struct Stranger {
    log: usize,
    number: u64,
    name: Vec<u8>,
}

/// Which names the models declare, and whether an event has one of them.
#[derive(Drop)]
pub struct Names {
    declared: Vec<Vec<u8>>,
    stranger: Option<Stranger>,
    /// Whether a line begins as an event with a declared name does.
    is_named: bool,
    /// Whether such a line is a statement.
    is_met: bool,
    events: u32,
}

/// What was seen of the lines of a log.
#[derive(Drop)]
pub struct Marks {
    is_met: bool,
    lines: u64,
}

/// The name that a line of models declares for logs.
fn declared_name(line: &[u8]) -> Option<&[u8]> {
    let (word, rest) = take_word(skip_blanks(line));
    if word != b"message".as_slice() && word != b"attribute".as_slice() {
        return None;
    }
    let (name, _) = take_word(skip_blanks(rest));
    if is_symbol(name) { Some(name) } else { None }
}

/// A copy of a name.
fn copied(alloc: Global, name: &[u8]) -> Result<Vec<u8>, AllocError> {
    let mut copy = Vec::new(alloc);
    copy.extend_from_slice(name)?;
    Ok(copy)
}

/// The names that models declare for logs.
fn declared_names(alloc: Global, models: &[u8]) -> Result<Vec<Vec<u8>>, AllocError> {
    let mut names = Vec::new(alloc);
    let mut rest = models;
    while !rest.is_empty() {
        let (line, more) = first_line(rest);
        if let Some(name) = declared_name(line_bytes(line)) {
            names.push(copied(alloc, name)?)?;
        }
        rest = more;
    }
    Ok(names)
}

/// The name of an event.
fn event_name(line: &[u8]) -> Option<&[u8]> {
    let (date, rest) = take_word(skip_blanks(line));
    let (name, _) = take_word(skip_blanks(rest));
    if is_date(date) && is_symbol(name) {
        Some(name)
    } else {
        None
    }
}

/// Whether a line is `end`, or `clock` with a number.
fn is_mark(line: &[u8]) -> bool {
    let (word, rest) = take_word(skip_blanks(line));
    if word == b"end".as_slice() {
        return skip_blanks(rest).is_empty();
    }
    let (number, rest) = take_word(skip_blanks(rest));
    word == b"clock".as_slice() && is_date(number) && skip_blanks(rest).is_empty()
}

/// Whether one of the lines is a mark.
fn has_mark(lines: &[u8]) -> bool {
    let mut rest = lines;
    while !rest.is_empty() {
        let (line, more) = first_line(rest);
        if is_mark(line_bytes(line)) {
            return true;
        }
        rest = more;
    }
    false
}

impl Names {
    /// Of models without names.
    pub fn new(alloc: Global) -> Names {
        Names {
            declared: Vec::new(alloc),
            stranger: None,
            is_named: false,
            is_met: false,
            events: 0,
        }
    }

    /// Reads the names of models.
    pub fn declare(&mut self, alloc: Global, models: &[u8]) -> Result<(), AllocError> {
        self.declared = declared_names(alloc, models)?;
        Ok(())
    }

    /// Whether nothing more is looked for.
    pub fn are_known(&self) -> bool {
        self.is_met || self.events > EVENTS_LIMIT
    }

    /// Whether an event with a declared name was met, that may have been accepted.
    pub fn is_met(&self) -> bool {
        self.is_met
    }

    /// Whether a name is declared.
    fn is_declared(&self, name: &[u8]) -> bool {
        self.declared.iter().any(|known| known.as_slice() == name)
    }

    /// Looks at a line that begins as an event with this name does.
    fn meet(
        &mut self,
        alloc: Global,
        log: usize,
        number: u64,
        line: &[u8],
        name: &[u8],
    ) -> Result<(), AllocError> {
        self.events = self.events.saturating_add(1);
        if self.is_declared(name) {
            self.is_named = true;
            self.is_met = statement(line).is_ok();
        } else if self.stranger.is_none() {
            let name = copied(alloc, name)?;
            self.stranger = Some(Stranger { log, number, name });
        }
        Ok(())
    }

    /// The declared name that is nearly the same.
    fn near(&self, name: &[u8]) -> Option<&[u8]> {
        for known in &self.declared {
            if is_near(known.as_slice(), name) {
                return Some(known.as_slice());
            }
        }
        None
    }

    /// What is told where no event with a declared name was met.
    pub fn silence(&self, is_whole: bool) -> Option<Silence<'_>> {
        match &self.stranger {
            Some(stranger) if !self.is_named => Some(Silence::NoName {
                log: stranger.log,
                number: stranger.number,
                name: stranger.name.as_slice(),
                near: self.near(stranger.name.as_slice()),
                is_whole: is_whole && self.events <= EVENTS_LIMIT,
            }),
            _ => None,
        }
    }
}

impl Marks {
    /// Of a log of which nothing was read.
    pub fn new() -> Marks {
        Marks {
            is_met: false,
            lines: 0,
        }
    }

    /// Whether all lines so far were looked at.
    pub fn is_whole(&self) -> bool {
        self.lines <= LINES_LIMIT
    }

    /// Whether a mark was met.
    pub fn is_met(&self) -> bool {
        self.is_met
    }

    /// Whether a mark was met, or stands in the last lines.
    pub fn is_marked(&self, held: &HeldLines) -> bool {
        self.is_met || has_mark(held.ended())
    }
}

/// Looks at a line of a log.
fn look_at_line(
    alloc: Global,
    names: &mut Names,
    marks: &mut Marks,
    log: usize,
    number: u64,
    line: &[u8],
) -> Result<(), AllocError> {
    marks.lines = marks.lines.saturating_add(1);
    match line.first() {
        Some(b'c' | b'e' | b' ' | b'\t') if !marks.is_met && is_mark(line) => {
            marks.is_met = true;
            Ok(())
        }
        _ if names.are_known() => Ok(()),
        _ => match event_name(line) {
            Some(name) => names.meet(alloc, log, number, line, name),
            None => Ok(()),
        },
    }
}

/// Looks at the lines that a piece of a log ends.
pub fn look_at(
    alloc: Global,
    names: &mut Names,
    marks: &mut Marks,
    log: usize,
    held: &HeldLines,
) -> Result<(), AllocError> {
    let mut rest = held.ended();
    let mut number = held.number();
    if held.goes_on() && !rest.is_empty() {
        let line = held.line(alloc, number)?;
        look_at_line(alloc, names, marks, log, number, line.as_slice())?;
        let (_, more) = first_line(rest);
        rest = more;
        number = number.saturating_add(1);
    }
    while !rest.is_empty() {
        let (line, more) = first_line(rest);
        look_at_line(alloc, names, marks, log, number, line_bytes(line))?;
        rest = more;
        number = number.saturating_add(1);
    }
    Ok(())
}

/// Looks at the last line of a log, where no line feed ends it.
pub fn look_at_last(
    alloc: Global,
    names: &mut Names,
    marks: &mut Marks,
    log: usize,
    held: &HeldLines,
) -> Result<(), AllocError> {
    let number = held.last_number();
    let line = held.last_line(alloc)?;
    look_at_line(alloc, names, marks, log, number, line.as_slice())
}
