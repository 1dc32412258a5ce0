ghost use Rattle.std.specs.Prelude.{◌≡◌, ◌<◌, ◌≤◌, ◌+◌, ◌-◌, ◌^◌, ℕ, Bool, true, length, IfOk, OnOk, OnErr};
ghost use Rattle.crs_desk.specs.declared.desk.DeskError.TheVariants.{Memory};
ghost use Rattle.crs_desk.specs.Desk.{Told, HasCause, Opens, Reads, Writes};

use std::alloc::{AllocError, AllocFailed};
use thiserror::Error;

/// Why a call on the outside did nothing.
#[derive(Clone, Copy, Debug, PartialEq, Eq, Drop, Error)]
pub enum DeskError {
    /// The outside failed, and a count of faults rose.
    #[error("Failed")]
    Failed,
    /// Memory ran out.
    #[error("Memory")]
    Memory,
}

impl From<AllocError> for DeskError {
    ghost from_gives = { λ _ e. e ≡ Memory };

    fn from(_: AllocError) -> Self {
        DeskError::Memory
    }
}

impl<T: Drop> From<AllocFailed<T>> for DeskError {
    ghost from_gives = { λ _ e. e ≡ Memory };

    fn from(_: AllocFailed<T>) -> Self {
        DeskError::Memory
    }
}

/// The outside: inputs that are opened by name and read, and one output that is written.
///
/// A desk counts what failed. One that tells its contents also says which bytes came and went.
pub trait Desk {
    /// How often an open or a read has failed.
    ghost in_faults: { Self → ℕ };

    /// How often a write has failed.
    ghost out_faults: { Self → ℕ };

    /// How many inputs were opened. Their numbers are those below this one.
    ghost inputs: { Self → ℕ };

    /// Whether desks of this type tell their contents.
    ghost tells: { Bool };

    /// The contents, where they are told.
    ghost told: { Self → Told };

    /// Opens an input, and answers its number.
    fn open(&mut self, name: &str) -> Result<u32, DeskError>
        requires { inputs self.old < 2 ^ 32 - 1 }
        ensures number { IfOk result (λ n. n ≡ inputs self.old) }
        ensures ok { OnOk result (inputs self.new ≡ inputs self.old + 1) }
        ensures err { OnErr result (inputs self.new ≡ inputs self.old) }
        ensures reading { HasCause (in_faults self.old) (in_faults self.new) result }
        ensures writing { out_faults self.old ≤ out_faults self.new }
        ensures told { tells ≡ true → Opens (told self.old) name.now result (told self.new) };

    /// Reads the next bytes of an input into the front of the buffer. The answer 0 means its end.
    fn read(&mut self, input: u32, buf: &mut [u8]) -> Result<usize, DeskError>
        requires opened { input < inputs self.old }
        requires room { 0 < length buf.old }
        ensures count { IfOk result (λ n. n ≤ length buf.new) }
        ensures inputs { inputs self.new ≡ inputs self.old }
        ensures reading { HasCause (in_faults self.old) (in_faults self.new) result }
        ensures writing { out_faults self.old ≤ out_faults self.new }
        ensures told { tells ≡ true → Reads (told self.old) input result buf.new (told self.new) };

    /// Writes at least one byte, a front of the bytes, or fails and writes none.
    fn write(&mut self, bytes: &[u8]) -> Result<usize, DeskError>
        requires { 0 < length bytes.now }
        ensures least { IfOk result (λ n. 0 < n) }
        ensures most { IfOk result (λ n. n ≤ length bytes.now) }
        ensures inputs { inputs self.new ≡ inputs self.old }
        ensures reading { in_faults self.old ≤ in_faults self.new }
        ensures writing { HasCause (out_faults self.old) (out_faults self.new) result }
        ensures told { tells ≡ true → Writes (told self.old) bytes.now result (told self.new) };

    /// A number from which hash tables are seeded, so that who writes a log can't choose texts that
    /// collide. Nothing that is written depends on it.
    fn seed(&self) -> u64 {
        0
    }

    /// Each input that was opened has its place in what is told.
    ghost places: { (d : Self) → tells ≡ true → length (told d).left ≡ inputs d };
}
