// What is seen of a run from its reads and its writes.
use crate::held::HeldLines;
use crate::log_lines::LogWord;
use crate::refusals::{Refusal, first_refusal};
use crate::signs::{Marks, Names, Silence, look_at, look_at_last};
use std::alloc::{AllocError, Global};

/// The first line of a log that was refused.
#[derive(Drop)]
pub struct RefusedLine {
    /// The log's place among those of the command, from 0 on.
    pub log: usize,
    /// The line's number, from 1 on.
    pub number: u64,
    pub word: LogWord,
    /// Its bytes, or none where they aren't there any more.
    pub line: Vec<u8>,
}

/// A log of the run.
#[derive(Drop)]
struct LogWatch {
    held: HeldLines,
    marks: Marks,
}

/// A run that is watched. It is told of each piece that was read and of each text that is written,
/// and holds the last piece of each log, the names that the models declare, and no more.
#[derive(Drop)]
pub struct RunWatch {
    alloc: Global,
    /// The models, until a log is read.
    models: Vec<u8>,
    names: Names,
    logs: Vec<LogWatch>,
    /// How many bytes of a text that was looked at are still to be written.
    pending: usize,
    /// Whether a line of recognition or refusal was written.
    has_spoken: bool,
    has_refused: bool,
}

/// Whether a text begins with the figures of a run, so that nothing was recognised or refused.
fn begins_with_figures(text: &[u8]) -> bool {
    text.starts_with(b"summary entries ") || text.starts_with(b"tally ")
}

impl LogWatch {
    /// Whether something is still looked for in the log.
    fn is_open(&self, names: &Names) -> bool {
        self.marks.is_whole() && !(names.are_known() && self.marks.is_met())
    }
}

impl RunWatch {
    /// A run over so many logs, of which nothing was read.
    pub fn new(alloc: Global, count: usize) -> Result<RunWatch, AllocError> {
        let mut logs = Vec::new(alloc);
        for _ in 0..count {
            logs.push(LogWatch {
                held: HeldLines::new(alloc),
                marks: Marks::new(),
            })?;
        }
        Ok(RunWatch {
            alloc,
            models: Vec::new(alloc),
            names: Names::new(alloc),
            logs,
            pending: 0,
            has_spoken: false,
            has_refused: false,
        })
    }

    /// Takes a piece that was read of an input: of the models where it is the first one, else of a
    /// log.
    pub fn read(&mut self, input: u32, piece: &[u8]) -> Result<(), AllocError> {
        match (input as usize).checked_sub(1) {
            None => self.models.extend_from_slice(piece),
            Some(log) => {
                self.declare()?;
                self.read_log(log, piece)
            }
        }
    }

    /// Reads what the models declare, where that isn't done yet.
    fn declare(&mut self) -> Result<(), AllocError> {
        if self.models.is_empty() {
            return Ok(());
        }
        self.names.declare(self.alloc, self.models.as_slice())?;
        self.models = Vec::new(self.alloc);
        Ok(())
    }

    /// Takes a piece of a log. At its end there is none, and the last line stays.
    fn read_log(&mut self, log: usize, piece: &[u8]) -> Result<(), AllocError> {
        let Some(watch) = self.logs.get_mut(log) else {
            return Ok(());
        };
        let is_open = watch.is_open(&self.names);
        if piece.is_empty() || (self.has_refused && !is_open) {
            return Ok(());
        }
        watch.held.feed(piece)?;
        if is_open {
            look_at(
                self.alloc,
                &mut self.names,
                &mut watch.marks,
                log,
                &watch.held,
            )?;
        }
        Ok(())
    }

    /// Takes a text that is handed to the output, and how many bytes of it were written. It answers
    /// the first refused line of the run, once.
    pub fn wrote(&mut self, text: &[u8], count: usize) -> Result<Option<RefusedLine>, AllocError> {
        let is_new = self.pending == 0;
        self.pending = text.len().saturating_sub(count);
        if !is_new || text.is_empty() {
            return Ok(None);
        }
        self.has_spoken = self.has_spoken || !begins_with_figures(text);
        if self.has_refused {
            return Ok(None);
        }
        match first_refusal(text) {
            Some(refusal) => self.refuse(refusal),
            None => Ok(None),
        }
    }

    /// The line that a refusal speaks of.
    fn refuse(&mut self, refusal: Refusal) -> Result<Option<RefusedLine>, AllocError> {
        self.has_refused = true;
        let line = match self.logs.get(refusal.log) {
            Some(watch) => watch.held.line(self.alloc, refusal.number)?,
            None => Vec::new(self.alloc),
        };
        Ok(Some(RefusedLine {
            log: refusal.log,
            number: refusal.number,
            word: refusal.word,
            line,
        }))
    }

    /// Looks at the last line of each log that lacks its line feed. It is called once all was read.
    pub fn finish(&mut self) -> Result<(), AllocError> {
        for (log, watch) in self.logs.iter_mut().enumerate() {
            if watch.is_open(&self.names) {
                look_at_last(
                    self.alloc,
                    &mut self.names,
                    &mut watch.marks,
                    log,
                    &watch.held,
                )?;
            }
        }
        Ok(())
    }

    /// The first log in which no mark was met.
    fn unmarked(&self) -> Option<Silence<'_>> {
        for (log, watch) in self.logs.iter().enumerate() {
            let is_whole = watch.marks.is_whole();
            if !watch.marks.is_marked(&watch.held) && (is_whole || !self.has_spoken) {
                return Some(Silence::NoMark { log, is_whole });
            }
        }
        None
    }

    /// Whether all lines of all logs were looked at.
    fn is_whole(&self) -> bool {
        self.logs.iter().all(|watch| watch.marks.is_whole())
    }

    /// Why nothing may have been recognised, once all was read. Where the first lines alone were
    /// looked at, it is told only of a run that wrote no line.
    pub fn silence(&self) -> Option<Silence<'_>> {
        if self.names.is_met() {
            return self.unmarked();
        }
        match self.names.silence(self.is_whole()) {
            Some(
                Silence::NoName {
                    is_whole: false,
                    ..
                },
            ) if self.has_spoken => None,
            told => told,
        }
    }
}
