// A desk in memory whose calls fail at nothing but want of memory.
ghost use Rattle.std.specs.Prelude.{◌-◌, ◌≡◌, ◌<◌, ◌≤◌, ◌+◌, ◌^◌, ◌∷◌, ◌++◌, [], length, vec_len, min};
ghost use Rattle.std.specs.Prelude.{IfOk, IfErr, OnOk, OnErr, Some, None, true};
ghost use Rattle.crs_desk.specs.declared.desk.DeskError.TheVariants.{Memory};

use crate::file::{self, File};
use crate::{Desk, DeskError, Turn, schedule};
use std::alloc::{AllocError, Global};

/// The bytes of an input that was opened, and how many of them were read.
#[derive(Drop)]
pub struct Source {
    bytes: Vec<u8>,
    at: usize,
    ghost within: { at ≤ vec_len bytes },
}

/// A desk whose files are in memory and whose calls fail at nothing but want of memory.
///
/// Both its counts of faults are 0 for ever. A name that it lacks opens as an empty input.
/// A call that ran out of memory changes nothing.
#[derive(Drop)]
pub struct CalmDesk {
    alloc: Global,
    files: Vec<File>,
    opened: Vec<Vec<u8>>,
    sources: Vec<Source>,
    written: Vec<u8>,
    turns: Vec<Turn>,
    piece: Option<usize>,
    seed: u64,
    ghost few: { vec_len sources ≤ 2 ^ 32 - 1 },
    ghost moves: { (n : _) → piece ≡ Some n → 0 < n },
}

impl CalmDesk {
    ghost use Rattle.crs_desk.specs.Calm.{calm_told, calm_inputs, calm_piece};

    /// A desk without files.
    pub fn new(alloc: Global) -> CalmDesk
        ensures inputs { calm_inputs result ≡ 0 }
        ensures told { calm_told result ≡ record { files = []; opened = []; left = []; written = []; turns = [] } }
        ensures piece { calm_piece result ≡ None }
    {
        CalmDesk {
            alloc,
            files: Vec::new(alloc),
            opened: Vec::new(alloc),
            sources: Vec::new(alloc),
            written: Vec::new(alloc),
            turns: Vec::new(alloc),
            piece: None,
            seed: 0,
        }
    }

    /// Adds a file. Where the name is there already, the bytes that it had first are the ones that are read.
    pub fn add_file(&mut self, name: &str, bytes: &[u8]) -> Result<(), AllocError>
        ensures inputs { calm_inputs self.new ≡ calm_inputs self.old }
        ensures ok { OnOk result (calm_told self.new ≡ (let t = calm_told self.old in
            record t { files = t.files ++ (name.now, bytes.now) ∷ [] })) }
        ensures err { OnErr result (calm_told self.new ≡ calm_told self.old) }
        ensures piece { calm_piece self.new ≡ calm_piece self.old }
    {
        let name = Vec::from_slice(self.alloc, name.as_bytes())?;
        let bytes = Vec::from_slice(self.alloc, bytes)?;
        self.files.push(File { name, bytes })?;
        Ok(())
    }

    /// The bytes that were written so far.
    pub fn written(&self) -> &[u8]
        ensures { result.now ≡ (calm_told self.now).written }
    {
        &self.written
    }

    /// From now on a read or a write moves at most so many bytes.
    pub fn set_piece(&mut self, n: usize)
        requires { 1 ≤ n }
        ensures inputs { calm_inputs self.new ≡ calm_inputs self.old }
        ensures told { calm_told self.new ≡ calm_told self.old }
        ensures piece { calm_piece self.new ≡ Some n }
    {
        self.piece = Some(n);
    }

    /// From now on hash tables are seeded from this number, which is 0 at first.
    pub fn set_seed(&mut self, seed: u64)
        ensures inputs { calm_inputs self.new ≡ calm_inputs self.old }
        ensures told { calm_told self.new ≡ calm_told self.old }
        ensures piece { calm_piece self.new ≡ calm_piece self.old }
    {
        self.seed = seed;
    }
}

impl Desk for CalmDesk {
    ghost use Rattle.std.specs.Prelude.{length, true};
    ghost use Rattle.crs_desk.specs.Desk.{Opens, Reads, Writes, stream_at};
    ghost use Rattle.crs_desk.specs.Calm.{calm_told, calm_inputs, calm_piece, calm_faults, sources_counted};
    ghost use Rattle.crs_desk.specs.FailingCalls.{moved_of};

    ghost in_faults = { calm_faults };

    ghost out_faults = { calm_faults };

    ghost inputs = { calm_inputs };

    ghost tells = { true };

    ghost told = { calm_told };

    ghost places = { λ d _. sources_counted d };

    fn open(&mut self, name: &str) -> Result<u32, DeskError>
        requires { calm_inputs self.old < 2 ^ 32 - 1 }
        ensures number { IfOk result (λ n. n ≡ calm_inputs self.old) }
        ensures ok { OnOk result (calm_inputs self.new ≡ calm_inputs self.old + 1) }
        ensures err { OnErr result (calm_inputs self.new ≡ calm_inputs self.old) }
        ensures calm { IfErr result (λ e. e ≡ Memory) }
        ensures told { Opens (calm_told self.old) name.now result (calm_told self.new) }
        ensures piece { calm_piece self.new ≡ calm_piece self.old }
    {
        let number = self.sources.len() as u32;
        self.sources.reserve(1)?;
        let listed = Vec::from_slice(self.alloc, name.as_bytes())?;
        let bytes = match file::bytes_of(&self.files, name.as_bytes()) {
            Some(bytes) => bytes.to_vec(self.alloc)?,
            None => Vec::new(self.alloc),
        };
        self.opened.push(listed)?;
        self.sources.push(Source { bytes, at: 0 })?;
        Ok(number)
    }

    fn read(&mut self, input: u32, buf: &mut [u8]) -> Result<usize, DeskError>
        requires opened { input < calm_inputs self.old }
        requires room { 0 < length buf.old }
        ensures inputs { calm_inputs self.new ≡ calm_inputs self.old }
        ensures calm { IfErr result (λ e. e ≡ Memory) }
        ensures told { Reads (calm_told self.old) input result buf.new (calm_told self.new) }
        ensures most { IfOk result (λ n. n ≤ length buf.new) }
        ensures count { IfOk result (λ n. n ≡ moved_of (calm_piece self.old)
            (min (length buf.new) (length (stream_at (calm_told self.old).left input).rest))) }
        ensures piece { calm_piece self.new ≡ calm_piece self.old }
    {
        let from = &mut self.sources[input as usize];
        self.turns.push(Turn {
            input,
            taken: from.at,
            written: self.written.len(),
            room: buf.len(),
        })?;
        let left = &from.bytes[from.at..];
        let count = schedule::moved(self.piece, buf.len().min(left.len()));
        buf[..count].copy_from_slice(&left[..count]);
        from.at += count;
        Ok(count)
    }

    fn write(&mut self, bytes: &[u8]) -> Result<usize, DeskError>
        requires { 0 < length bytes.now }
        ensures inputs { calm_inputs self.new ≡ calm_inputs self.old }
        ensures calm { IfErr result (λ e. e ≡ Memory) }
        ensures told { Writes (calm_told self.old) bytes.now result (calm_told self.new) }
        ensures least { IfOk result (λ n. 0 < n) }
        ensures most { IfOk result (λ n. n ≤ length bytes.now) }
        ensures count { IfOk result (λ n. n ≡ moved_of (calm_piece self.old) (length bytes.now)) }
        ensures piece { calm_piece self.new ≡ calm_piece self.old }
    {
        let count = schedule::moved(self.piece, bytes.len());
        self.written.extend_from_slice(&bytes[..count])?;
        Ok(count)
    }

    fn seed(&self) -> u64 {
        self.seed
    }
}
