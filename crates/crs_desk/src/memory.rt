// A desk in memory, which tells all its contents.
ghost use Rattle.std.specs.Prelude.{◌-◌, ◌≡◌, ◌<◌, ◌≤◌, ◌+◌, ◌^◌, ◌∷◌, ◌++◌, [], length, IfOk, OnOk, OnErr, Some, true, vec_len, min};

use crate::file::{self, File};
use crate::schedule::{self, FailingRead};
use crate::{Desk, DeskError, Turn};
use std::alloc::{AllocError, Global};

/// An input that was opened.
#[derive(Drop)]
pub struct Input {
    name: Vec<u8>,
    bytes: Vec<u8>,
    at: usize,
    reads: u64,
    ghost within: { at ≤ vec_len bytes },
}

/// A desk for tests, whose files are in memory and whose calls fail as it is told.
///
/// Calls are counted from 1. One that ran out of memory is not counted and changes nothing.
#[derive(Drop)]
pub struct MemoryDesk {
    alloc: Global,
    files: Vec<File>,
    opened: Vec<Vec<u8>>,
    inputs: Vec<Input>,
    written: Vec<u8>,
    turns: Vec<Turn>,
    in_faults: u64,
    out_faults: u64,
    piece: Option<usize>,
    opens: u64,
    writes: u64,
    failing_opens: Vec<u64>,
    failing_reads: Vec<FailingRead>,
    failing_writes: Vec<u64>,
    ghost few: { vec_len inputs ≤ 2 ^ 32 - 1 },
    ghost moves: { (n : _) → piece ≡ Some n → 0 < n },
}

impl MemoryDesk {
    ghost use Rattle.crs_desk.specs.Memory.{memory_told, memory_inputs, memory_schedule, memory_in_faults, memory_out_faults, IsScheduled};
    ghost use Rattle.crs_desk.specs.FailingCalls.{untouched};

    /// A desk without files.
    pub fn new(alloc: Global) -> MemoryDesk
        ensures inputs { memory_inputs result ≡ 0 }
        ensures told { memory_told result ≡ record { files = []; opened = []; left = []; written = []; turns = [] } }
        ensures schedule { memory_schedule result ≡ untouched }
        ensures reading { memory_in_faults result ≡ 0 }
        ensures writing { memory_out_faults result ≡ 0 }
    {
        MemoryDesk {
            alloc,
            files: Vec::new(alloc),
            opened: Vec::new(alloc),
            inputs: Vec::new(alloc),
            written: Vec::new(alloc),
            turns: Vec::new(alloc),
            in_faults: 0,
            out_faults: 0,
            piece: None,
            opens: 0,
            writes: 0,
            failing_opens: Vec::new(alloc),
            failing_reads: Vec::new(alloc),
            failing_writes: Vec::new(alloc),
        }
    }

    /// Adds a file. Where the name is there already, the bytes that it had first are the ones that are read.
    pub fn add_file(&mut self, name: &str, bytes: &[u8]) -> Result<(), AllocError>
        ensures inputs { memory_inputs self.new ≡ memory_inputs self.old }
        ensures ok { OnOk result (memory_told self.new ≡ (let t = memory_told self.old in record t { files = t.files ++ (name.now, bytes.now) ∷ [] })) }
        ensures err { OnErr result (memory_told self.new ≡ memory_told self.old) }
        ensures schedule { memory_schedule self.new ≡ memory_schedule self.old }
        ensures reading { memory_in_faults self.new ≡ memory_in_faults self.old }
        ensures writing { memory_out_faults self.new ≡ memory_out_faults self.old }
    {
        let name = Vec::from_slice(self.alloc, name.as_bytes())?;
        let bytes = Vec::from_slice(self.alloc, bytes)?;
        self.files.push(File { name, bytes })?;
        Ok(())
    }

    /// The bytes that were written so far.
    pub fn written(&self) -> &[u8]
        ensures { result.now ≡ (memory_told self.now).written }
    {
        &self.written
    }

    /// From now on a read or a write moves at most so many bytes.
    pub fn set_piece(&mut self, n: usize)
        requires { 1 ≤ n }
        ensures { IsScheduled self.old self.new (record (memory_schedule self.old) { piece = Some n }) }
    {
        self.piece = Some(n);
    }

    /// The n-th open, counted from 1, fails.
    pub fn fail_open(&mut self, n: u64) -> Result<(), AllocError>
        ensures ok { OnOk result (IsScheduled self.old self.new (let s = memory_schedule self.old in record s { failing_opens = s.failing_opens ++ n ∷ [] })) }
        ensures err { OnErr result (IsScheduled self.old self.new (memory_schedule self.old)) }
    {
        self.failing_opens.push(n)?;
        Ok(())
    }

    /// The n-th read of an input of that name, counted from 1, fails. Where the name is opened more than once, each input has its own count.
    pub fn fail_read(&mut self, name: &str, n: u64) -> Result<(), AllocError>
        ensures ok { OnOk result (IsScheduled self.old self.new (let s = memory_schedule self.old in record s { failing_reads = s.failing_reads ++ (name.now, n) ∷ [] })) }
        ensures err { OnErr result (IsScheduled self.old self.new (memory_schedule self.old)) }
    {
        let name = Vec::from_slice(self.alloc, name.as_bytes())?;
        self.failing_reads.push(FailingRead { name, call: n })?;
        Ok(())
    }

    /// The n-th write, counted from 1, fails.
    pub fn fail_write(&mut self, n: u64) -> Result<(), AllocError>
        ensures ok { OnOk result (IsScheduled self.old self.new (let s = memory_schedule self.old in record s { failing_writes = s.failing_writes ++ n ∷ [] })) }
        ensures err { OnErr result (IsScheduled self.old self.new (memory_schedule self.old)) }
    {
        self.failing_writes.push(n)?;
        Ok(())
    }
}

impl Desk for MemoryDesk {
    ghost use Rattle.std.specs.Prelude.{length, true};
    ghost use Rattle.crs_desk.specs.Desk.{HasCause, Opens, Reads, Writes, stream_at};
    ghost use Rattle.crs_desk.specs.Memory.{memory_told, memory_inputs, memory_schedule, memory_in_faults, memory_out_faults, inputs_counted};
    ghost use Rattle.crs_desk.specs.FailingCalls.{raised_by, moved_of, open_fails, read_fails, write_fails, FailsWhere, after_open, after_read, after_write};

    ghost in_faults = { memory_in_faults };

    ghost out_faults = { memory_out_faults };

    ghost inputs = { memory_inputs };

    ghost tells = { true };

    ghost told = { memory_told };

    ghost places = { λ d _. inputs_counted d };

    fn open(&mut self, name: &str) -> Result<u32, DeskError>
        requires { memory_inputs self.old < 2 ^ 32 - 1 }
        ensures number { IfOk result (λ n. n ≡ memory_inputs self.old) }
        ensures ok { OnOk result (memory_inputs self.new ≡ memory_inputs self.old + 1) }
        ensures err { OnErr result (memory_inputs self.new ≡ memory_inputs self.old) }
        ensures cause { HasCause (memory_in_faults self.old) (memory_in_faults self.new) result }
        ensures told { Opens (memory_told self.old) name.now result (memory_told self.new) }
        ensures fails { FailsWhere (open_fails (memory_schedule self.old) (memory_told self.old) name.now) result }
        ensures schedule { memory_schedule self.new ≡ after_open (memory_schedule self.old) name.now result }
        ensures reading { memory_in_faults self.new ≡ raised_by result (memory_in_faults self.old) }
        ensures writing { memory_out_faults self.new ≡ memory_out_faults self.old }
    {
        let number = self.inputs.len() as u32;
        self.inputs.reserve(1)?;
        let listed = Vec::from_slice(self.alloc, name.as_bytes())?;
        let call = self.opens.saturating_add(1);
        let fails = self.failing_opens.contains(&call);
        let bytes = match file::bytes_of(&self.files, name.as_bytes()) {
            Some(bytes) if !fails => bytes.to_vec(self.alloc)?,
            _ => {
                self.opened.push(listed)?;
                self.opens = call;
                self.in_faults = self.in_faults.saturating_add(1);
                return Err(DeskError::Failed);
            }
        };
        let name = Vec::from_slice(self.alloc, name.as_bytes())?;
        self.opened.push(listed)?;
        self.opens = call;
        self.inputs.push(Input {
            name,
            bytes,
            at: 0,
            reads: 0,
        })?;
        Ok(number)
    }

    fn read(&mut self, input: u32, buf: &mut [u8]) -> Result<usize, DeskError>
        requires opened { input < memory_inputs self.old }
        requires room { 0 < length buf.old }
        ensures inputs { memory_inputs self.new ≡ memory_inputs self.old }
        ensures cause { HasCause (memory_in_faults self.old) (memory_in_faults self.new) result }
        ensures told { Reads (memory_told self.old) input result buf.new (memory_told self.new) }
        ensures fails { FailsWhere (read_fails (memory_schedule self.old) input) result }
        ensures most { IfOk result (λ n. n ≤ length buf.new) }
        ensures count { IfOk result (λ n. n ≡ moved_of (memory_schedule self.old).piece (min (length buf.new) (length (stream_at (memory_told self.old).left input).rest))) }
        ensures schedule { memory_schedule self.new ≡ after_read (memory_schedule self.old) input result }
        ensures reading { memory_in_faults self.new ≡ raised_by result (memory_in_faults self.old) }
        ensures writing { memory_out_faults self.new ≡ memory_out_faults self.old }
    {
        let from = &mut self.inputs[input as usize];
        let call = from.reads.saturating_add(1);
        let fails = schedule::is_failing(&self.failing_reads, &from.name, call);
        self.turns.push(Turn {
            input,
            taken: from.at,
            written: self.written.len(),
            room: buf.len(),
        })?;
        from.reads = call;
        if fails {
            self.in_faults = self.in_faults.saturating_add(1);
            return Err(DeskError::Failed);
        }
        let left = &from.bytes[from.at..];
        let count = schedule::moved(self.piece, buf.len().min(left.len()));
        buf[..count].copy_from_slice(&left[..count]);
        from.at += count;
        Ok(count)
    }

    fn write(&mut self, bytes: &[u8]) -> Result<usize, DeskError>
        requires { 0 < length bytes.now }
        ensures inputs { memory_inputs self.new ≡ memory_inputs self.old }
        ensures cause { HasCause (memory_out_faults self.old) (memory_out_faults self.new) result }
        ensures told { Writes (memory_told self.old) bytes.now result (memory_told self.new) }
        ensures fails { FailsWhere (write_fails (memory_schedule self.old)) result }
        ensures least { IfOk result (λ n. 0 < n) }
        ensures most { IfOk result (λ n. n ≤ length bytes.now) }
        ensures count { IfOk result (λ n. n ≡ moved_of (memory_schedule self.old).piece (length bytes.now)) }
        ensures schedule { memory_schedule self.new ≡ after_write (memory_schedule self.old) result }
        ensures reading { memory_in_faults self.new ≡ memory_in_faults self.old }
        ensures writing { memory_out_faults self.new ≡ raised_by result (memory_out_faults self.old) }
    {
        let call = self.writes.saturating_add(1);
        if self.failing_writes.contains(&call) {
            self.writes = call;
            self.out_faults = self.out_faults.saturating_add(1);
            return Err(DeskError::Failed);
        }
        let count = schedule::moved(self.piece, bytes.len());
        self.written.extend_from_slice(&bytes[..count])?;
        self.writes = call;
        Ok(count)
    }
}
