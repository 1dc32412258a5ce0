//! The desk that is handed to a command, and what is told of the logs that it reads.

ghost use Rattle.std.specs.Prelude.{◌≡◌};

use crate::telling::{say_of, shown, shown_name, tell_log_hint};
use crs_desk::{Desk, DeskError};
use crs_log_hints::{RefusedLine, RunWatch, Silence, log_hint};
use crs_words::Command;
use std::alloc::{AllocError, Global};
use std::io;

/// A desk that does what another one does, and tells what is wrong in the logs that a command reads.
#[derive(Drop)]
pub struct Watched<'a, D: Desk + Drop, R: Eprint + AllocGlobal + Drop> {
    desk: D,
    rt: R,
    /// The names of the logs.
    logs: Vec<&'a str>,
    /// None where no log is recognised, or memory is wanting.
    watch: Option<RunWatch>,
}

/// The names of the logs that a command recognises.
pub fn log_names<'a>(
    alloc: Global,
    command: &Option<Command<'a>>,
) -> Result<Vec<&'a str>, AllocError> {
    let mut names = Vec::new(alloc);
    match command {
        Some(Command::Run { log, .. }) => names.push(*log)?,
        Some(Command::Feeds { logs, .. }) => names.extend_from_slice(logs.as_slice())?,
        _ => {}
    }
    Ok(names)
}

/// A watch over so many logs.
fn watch_of(alloc: Global, count: usize) -> Option<RunWatch> {
    match count {
        0 => None,
        _ => RunWatch::new(alloc, count).ok(),
    }
}

impl<'a, D: Desk + Drop, R: Eprint + AllocGlobal + Drop> Watched<'a, D, R> {
    /// A desk over another one, for a command over the logs of these names.
    pub fn new(desk: D, rt: R, logs: Vec<&'a str>) -> Watched<'a, D, R>
        ensures { D.inputs result.desk ≡ D.inputs desk }
    {
        let watch = watch_of(rt.alloc(), logs.len());
        Watched {
            desk,
            rt,
            logs,
            watch,
        }
    }

    /// The desk below.
    pub fn inner(&self) -> &D {
        &self.desk
    }

    /// The name of a log, counted from 0.
    fn log_name(&self, log: usize) -> &'a str {
        self.logs.get(log).copied().unwrap_or("a log")
    }

    /// Tells what is wrong with the first refused line.
    fn tell_refused(&self, refused: &RefusedLine) -> io::Result<()> {
        let hint = log_hint(refused.line.as_slice(), refused.word);
        let name = self.log_name(refused.log);
        tell_log_hint(&self.rt, name, refused.number, &hint)
    }

    /// Tells why nothing may have been recognised.
    fn tell_silence(&self, silence: &Silence<'_>) -> io::Result<()> {
        match silence {
            Silence::NoMark { log, is_whole } => {
                let name = self.log_name(*log);
                say_of(&self.rt, name, no_mark(*is_whole))
            }
            Silence::NoName {
                log,
                number,
                name,
                near,
                is_whole,
            } => {
                let alloc = self.rt.alloc();
                let file = shown_name(alloc, self.log_name(*log))?;
                let name = shown(alloc, name)?;
                let events = if *is_whole {
                    "no event"
                } else {
                    "none of the first events"
                };
                let rt = &self.rt;
                match near {
                    Some(near) => {
                        let near = shown(alloc, near)?;
                        eprintln!(rt;
                            "crs: {file}: {events} has a name that the models declare: line {number} has '{name}', and '{near}' is declared"
                        )
                    }
                    None => {
                        eprintln!(rt;
                            "crs: {file}: {events} has a name that the models declare: line {number} has '{name}'"
                        )
                    }
                }
            }
        }
    }

    /// Tells why nothing may have been recognised, where the command has read its logs to their ends.
    /// Nothing more is watched behind this.
    pub fn end(&mut self, is_whole: bool)
        ensures { D.inputs self.new.desk ≡ D.inputs self.old.desk }
    {
        let Some(mut watch) = self.watch.take() else {
            return;
        };
        if is_whole
            && watch.finish().is_ok()
            && let Some(silence) = watch.silence()
        {
            let _ = self.tell_silence(&silence);
        }
    }

    /// Watches what was read.
    fn saw(&mut self, input: u32, piece: &[u8])
        ensures { self.new.desk ≡ self.old.desk }
    {
        if let Some(watch) = &mut self.watch
            && watch.read(input, piece).is_err()
        {
            self.watch = None;
        }
    }

    /// Watches what was written.
    fn wrote(&mut self, text: &[u8], count: usize)
        ensures { self.new.desk ≡ self.old.desk }
    {
        let Some(watch) = &mut self.watch else {
            return;
        };
        match watch.wrote(text, count) {
            Ok(None) => {}
            Ok(Some(refused)) => {
                let _ = self.tell_refused(&refused);
            }
            Err(_) => self.watch = None,
        }
    }
}

/// What is said of a log without marks.
fn no_mark(is_whole: bool) -> &'static str {
    if is_whole {
        "no 'clock' and no 'end' came in this log, and recognitions come at these alone"
    } else {
        "no 'clock' and no 'end' came in the first lines and the last ones of this log, and recognitions come at these alone"
    }
}

impl<'a, D: Desk + Drop, R: Eprint + AllocGlobal + Drop> Desk for Watched<'a, D, R> {
    ghost in_faults = { λ d. D.in_faults d.desk };

    ghost out_faults = { λ d. D.out_faults d.desk };

    ghost inputs = { λ d. D.inputs d.desk };

    ghost tells = { D.tells };

    ghost told = { λ d. D.told d.desk };

    ghost places = { λ d e. D.places d.desk e };

    fn open(&mut self, name: &str) -> Result<u32, DeskError> {
        self.desk.open(name)
    }

    fn read(&mut self, input: u32, buf: &mut [u8]) -> Result<usize, DeskError> {
        let count = self.desk.read(input, buf)?;
        self.saw(input, &buf[..count]);
        Ok(count)
    }

    fn write(&mut self, bytes: &[u8]) -> Result<usize, DeskError> {
        let count = self.desk.write(bytes)?;
        self.wrote(bytes, count);
        Ok(count)
    }

    fn seed(&self) -> u64 {
        self.desk.seed()
    }
}
