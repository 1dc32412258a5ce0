// Files and standard output, which tell no contents.
ghost use Rattle.std.specs.Prelude.{◌≡◌, ◌<◌, ◌≤◌, ◌+◌, ◌^◌, length, IfOk};

use crate::{Desk, DeskError};
use std::io::{self, ErrorKind, Input, Print, Read};
use std::random::RandomSource;
use std::rt::{Clock, Files};
use std::time::Duration;
use std::{fs, thread};

const SLOTS: usize = 16;

/// The name of standard input.
const STANDARD_INPUT: &str = "-";

/// How many milliseconds are waited before a call is made again that would have to wait.
const PAUSE: u64 = 5;

/// A call of the outside that failed.
#[derive(Clone, Copy)]
pub struct Fault {
    /// The number of the input, which is the next one where it could not be opened, or None for
    /// standard output.
    pub input: Option<u32>,
    /// What the system said, where it said anything.
    pub error: Option<io::Error>,
}

/// What an input reads.
#[derive(Drop)]
enum Source<F: Drop> {
    File(F),
    /// Standard input, of which each input of its name reads what is left.
    Standard,
}

/// The files of the system as inputs, standard input by the name `-`, and standard output.
///
/// It opens at most sixteen inputs, which stay open; a further open is `Failed`. A count of faults stands still at its last value.
#[derive(Drop)]
pub struct RealDesk<R: Files + Input + Print + Clock + RandomSource + Drop> {
    rt: R,
    inputs: [Option<Source<R::File>>; SLOTS],
    count: u32,
    in_faults: u64,
    out_faults: u64,
    seed: u64,
    fault: Option<Fault>,
    ghost few: { count ≤ 16 },
}

/// A random number, or 0 where the system gives none.
fn random_seed(rt: &impl RandomSource) -> u64 {
    let mut bytes = [0; 8];
    match rt.fill_bytes(&mut bytes) {
        Ok(()) => u64::from_le_bytes(bytes),
        Err(_) => 0,
    }
}

impl<R: Files + Input + Print + Clock + RandomSource + Drop> RealDesk<R> {
    /// A desk that has opened nothing. Its seed is random.
    pub fn new(rt: R) -> RealDesk<R>
        ensures inputs { ⟦<RealDesk<R> as Desk>⟧.inputs result ≡ 0 }
        ensures reading { ⟦<RealDesk<R> as Desk>⟧.in_faults result ≡ 0 }
        ensures writing { ⟦<RealDesk<R> as Desk>⟧.out_faults result ≡ 0 }
    {
        let seed = random_seed(&rt);
        RealDesk {
            rt,
            seed,
            fault: None,
            inputs: [
                None, None, None, None, None, None, None, None, None, None, None, None, None, None,
                None, None,
            ],
            count: 0,
            in_faults: 0,
            out_faults: 0,
        }
    }
}

/// Whether a call is made again that failed so. One that would have to wait is made after a pause.
fn is_tried_again(clock: &impl Clock, error: io::Error) -> bool {
    match error.kind() {
        ErrorKind::Interrupted => true,
        ErrorKind::WouldBlock => {
            thread::sleep(clock, Duration::from_millis(PAUSE));
            true
        }
        _ => false,
    }
}

/// Reads some bytes. A read that is only interrupted, or would have to wait, is made again.
fn read_some<F: Read>(clock: &impl Clock, file: &mut F, buf: &mut [u8]) -> io::Result<usize>
    ensures { IfOk result (λ n. n ≤ length buf.new) }
{
    for _ in 0..u64::MAX {
        match file.read(buf) {
            Err(error) if is_tried_again(clock, error) => {}
            answer => return answer,
        }
    }
    Err(io::Error::from(ErrorKind::Interrupted))
}

/// Writes some bytes. A write that is only interrupted, or would have to wait, is made again.
fn write_some<R: Print + Clock>(rt: &R, bytes: &[u8]) -> io::Result<usize>
    ensures { IfOk result (λ n. n ≤ length bytes.now) }
{
    for _ in 0..u64::MAX {
        match rt.write_some(bytes) {
            Err(error) if is_tried_again(rt, error) => {}
            answer => return answer,
        }
    }
    Err(io::Error::from(ErrorKind::Interrupted))
}

/// Opens what a name stands for.
fn open_source<R: Files>(rt: &R, name: &str) -> io::Result<Source<R::File>> {
    if name == STANDARD_INPUT {
        return Ok(Source::Standard);
    }
    let file = fs::open(rt, name)?;
    Ok(Source::File(file))
}

/// Reads some bytes of a source.
fn read_source<R: Files + Input + Clock>(
    rt: &R,
    source: &mut Source<R::File>,
    buf: &mut [u8],
) -> io::Result<usize>
    ensures { IfOk result (λ n. n ≤ length buf.new) }
{
    match source {
        Source::File(file) => read_some(rt, file, buf),
        Source::Standard => read_some(rt, &mut rt.reader(), buf),
    }
}

impl<R: Files + Input + Print + Clock + RandomSource + Drop> RealDesk<R> {
    /// The last call that failed, if one did.
    pub fn fault(&self) -> Option<Fault> {
        self.fault
    }
}

impl<R: Files + Input + Print + Clock + RandomSource + Drop> Desk for RealDesk<R> {
    ghost use Rattle.std.specs.Prelude.{false, []};
    ghost use Rattle.std.proofs.lemmas.Bool.{false≢true};

    ghost in_faults = { λ d. d.in_faults };

    ghost out_faults = { λ d. d.out_faults };

    ghost inputs = { λ d. d.count };

    ghost tells = { false };

    ghost told = { λ _. record { files = []; opened = []; left = []; written = []; turns = [] } };

    ghost places = { λ d e. absurd (false≢true e) };

    fn open(&mut self, name: &str) -> Result<u32, DeskError> {
        let number = self.count;
        let opened = if (number as usize) < SLOTS {
            open_source(&self.rt, name)
        } else {
            Err(io::Error::from(ErrorKind::Other))
        };
        match opened {
            Ok(source) => {
                self.inputs[number as usize] = Some(source);
                self.count = number + 1;
                Ok(number)
            }
            Err(error) => {
                self.fault = Some(Fault {
                    input: Some(number),
                    error: Some(error),
                });
                self.in_faults = self.in_faults.saturating_add(1);
                Err(DeskError::Failed)
            }
        }
    }

    fn read(&mut self, input: u32, buf: &mut [u8]) -> Result<usize, DeskError> {
        let mut said = None;
        if let Some(source) = &mut self.inputs[input as usize] {
            match read_source(&self.rt, source, buf) {
                Ok(count) => return Ok(count),
                Err(error) => said = Some(error),
            }
        }
        self.fault = Some(Fault {
            input: Some(input),
            error: said,
        });
        self.in_faults = self.in_faults.saturating_add(1);
        Err(DeskError::Failed)
    }

    fn seed(&self) -> u64 {
        self.seed
    }

    // Standard output that takes no byte is a fault: the caller would try forever.
    fn write(&mut self, bytes: &[u8]) -> Result<usize, DeskError> {
        let said = match write_some(&self.rt, bytes) {
            Ok(count) if count > 0 => return Ok(count),
            Ok(_) => None,
            Err(error) => Some(error),
        };
        self.fault = Some(Fault {
            input: None,
            error: said,
        });
        self.out_faults = self.out_faults.saturating_add(1);
        Err(DeskError::Failed)
    }
}
