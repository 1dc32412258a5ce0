// Reading and writing as a whole.
ghost use Rattle.std.specs.Prelude.{◌≡◌, ◌<◌, ◌≤◌, ◌+◌, ◌^◌, length, true, IfOk};
ghost use Rattle.crs_desk.specs.Desk.{HasCause, WritesAll};
ghost use Rattle.crs_desk.specs.ReadAll.{ReadsAll, ReadAllCause};
ghost use Rattle.crs_desk.specs.declared.whole.ReadAllError.TheVariants.{Memory as OutOfMemory};

use crate::{Desk, DeskError};
use std::alloc::{AllocError, Global};
use thiserror::Error;

/// Why an input was not read whole.
#[derive(Clone, Copy, Debug, PartialEq, Eq, Drop, Error)]
pub enum ReadAllError {
    /// A read failed.
    #[error("Failed")]
    Failed,
    /// More bytes were left than the limit. One more than the limit was taken.
    #[error("Long")]
    Long,
    /// Memory ran out.
    #[error("Memory")]
    Memory,
}

impl From<AllocError> for ReadAllError {
    ghost from_gives = { λ _ e. e ≡ OutOfMemory };

    fn from(_: AllocError) -> Self {
        ReadAllError::Memory
    }
}

/// Writes all the bytes. After an error a front of them was written, and no write was tried again.
pub fn write_all<D: Desk>(desk: &mut D, bytes: &[u8]) -> Result<(), DeskError>
    ensures inputs { D.inputs desk.new ≡ D.inputs desk.old }
    ensures reading { D.in_faults desk.old ≤ D.in_faults desk.new }
    ensures writing { HasCause (D.out_faults desk.old) (D.out_faults desk.new) result }
    ensures told { D.tells ≡ true → WritesAll (D.told desk.old) bytes.now result (D.told desk.new) }
{
    let mut done = 0;
    while done < bytes.len() {
        let (_, rest) = bytes.split_at(done);
        let count = desk.write(rest)?;
        done += count;
    }
    Ok(())
}

/// Reads all that is left of an input, at most `limit` bytes.
///
/// It takes no byte more than one past the limit, and reads no more once a read failed or met the end. After an error the bytes that were read are gone.
pub fn read_all<D: Desk>(
    alloc: Global,
    desk: &mut D,
    input: u32,
    limit: usize,
) -> Result<Vec<u8>, ReadAllError>
    requires opened { input < D.inputs desk.old }
    requires limit { limit < 2 ^ 62 }
    ensures inputs { D.inputs desk.new ≡ D.inputs desk.old }
    ensures reading { ReadAllCause (D.in_faults desk.old) (D.in_faults desk.new) result }
    ensures writing { D.out_faults desk.old ≤ D.out_faults desk.new }
    ensures length { IfOk result (λ v. length v.items ≤ limit) }
    ensures told { D.tells ≡ true → ReadsAll (D.told desk.old) input limit result (D.told desk.new) }
{
    let mut bytes = Vec::new(alloc);
    let mut buf = [0u8; 4096];
    while bytes.len() <= limit {
        let room = (limit + 1 - bytes.len()).min(4096);
        let count = match desk.read(input, &mut buf[..room]) {
            Ok(count) => count,
            Err(DeskError::Failed) => return Err(ReadAllError::Failed),
            Err(DeskError::Memory) => return Err(ReadAllError::Memory),
        };
        if count == 0 {
            return Ok(bytes);
        }
        bytes.extend_from_slice(&buf[..count])?;
    }
    Err(ReadAllError::Long)
}
