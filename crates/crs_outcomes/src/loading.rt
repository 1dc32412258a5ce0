// An input: read whole, and refused.
ghost use Rattle.std.specs.Prelude.{◌≡◌, ◌<◌, ◌≤◌, ◌+◌, ◌-◌, ◌^◌, true, IfErr};
ghost use Rattle.crs_desk.specs.ReadAll.{ReadAllCause};
ghost use Rattle.crs_outcomes.specs.Loads.{ReadsWhole, Loads, Refuses};
ghost use Rattle.crs_outcomes.specs.Writing.{Says};
ghost use Rattle.crs_outcomes.specs.Status.{HasCauses, IsWritten};

use crate::status::Status;
use crs_desk::{Desk, DeskError, ReadAllError, read_all, write_all};
use crs_model::ModelRefused;
use crs_report::model_line;
use std::alloc::Global;

/// The most bytes of a models text.
pub const MODELS_LIMIT: usize = 1 << 20;

/// The refusal of a models text that has more.
pub const MODELS_TOO_LONG: &[u8] = b"model line 0 size\n";

/// Opens an input and reads it whole. It takes no byte more than one past the limit, and an input
/// that has more bytes is an error. Nothing is written.
pub fn read_whole<D: Desk>(
    alloc: Global,
    desk: &mut D,
    name: &str,
    limit: usize,
) -> Result<Vec<u8>, ReadAllError>
    requires inputs { D.inputs desk.old < 2 ^ 32 - 1 }
    requires limit { limit < 2 ^ 62 }
    ensures least { D.inputs desk.old ≤ D.inputs desk.new }
    ensures most { D.inputs desk.new ≤ D.inputs desk.old + 1 }
    ensures reading { ReadAllCause (D.in_faults desk.old) (D.in_faults desk.new) result }
    ensures writing { D.out_faults desk.old ≤ D.out_faults desk.new }
    ensures told { D.tells ≡ true → ReadsWhole (D.inputs desk.old) (D.inputs desk.new) limit (D.told desk.old) name.now result (D.told desk.new) }
{
    match desk.open(name) {
        Ok(input) => read_all(alloc, desk, input, limit),
        Err(DeskError::Failed) => Err(ReadAllError::Failed),
        Err(DeskError::Memory) => Err(ReadAllError::Memory),
    }
}

/// Opens an input and reads it whole. An error is the status with which the call ends; where there
/// are more bytes than the limit, that refusal is written.
pub fn load<D: Desk>(
    alloc: Global,
    desk: &mut D,
    name: &str,
    limit: usize,
    refusal: &[u8],
) -> Result<Vec<u8>, Status>
    requires inputs { D.inputs desk.old < 2 ^ 31 }
    requires limit { limit < 2 ^ 62 }
    ensures least { D.inputs desk.old ≤ D.inputs desk.new }
    ensures most { D.inputs desk.new ≤ D.inputs desk.old + 1 }
    ensures reading { D.in_faults desk.old ≤ D.in_faults desk.new }
    ensures writing { D.out_faults desk.old ≤ D.out_faults desk.new }
    ensures words { IfErr result (λ status. status ≡ Status.Words → ⊥) }
    ensures causes { IfErr result (HasCauses (D.in_faults desk.old) (D.in_faults desk.new) (D.out_faults desk.old) (D.out_faults desk.new)) }
    ensures told { D.tells ≡ true → Loads (D.inputs desk.old) (D.inputs desk.new) limit refusal.now (D.told desk.old) name.now result (D.told desk.new) }
{
    match read_whole(alloc, desk, name, limit) {
        Ok(text) => Ok(text),
        Err(ReadAllError::Failed) => Err(Status::ReadFault),
        Err(ReadAllError::Memory) => Err(Status::Memory),
        Err(ReadAllError::Long) => Err(write_text(desk, refusal, Status::Rejected)),
    }
}

/// Writes the line of refused models.
pub fn refuse<D: Desk>(alloc: Global, desk: &mut D, refused: ModelRefused) -> Status
    ensures inputs { D.inputs desk.new ≡ D.inputs desk.old }
    ensures words { result ≡ Status.Words → ⊥ }
    ensures causes { HasCauses (D.in_faults desk.old) (D.in_faults desk.new) (D.out_faults desk.old) (D.out_faults desk.new) result }
    ensures told { D.tells ≡ true → Refuses (D.told desk.old) refused result (D.told desk.new) }
{
    let ModelRefused::At { line, word } = refused else {
        return Status::Memory;
    };
    let Ok(text) = model_line(alloc, line, word) else {
        return Status::Memory;
    };
    write_text(desk, text.bytes(), Status::Rejected)
}

/// Writes a text, and answers the status that is given once all of it is written.
pub fn write_text<D: Desk>(desk: &mut D, text: &[u8], done: Status) -> Status
    ensures inputs { D.inputs desk.new ≡ D.inputs desk.old }
    ensures reading { D.in_faults desk.old ≤ D.in_faults desk.new }
    ensures writing { D.out_faults desk.old ≤ D.out_faults desk.new }
    ensures ends { IsWritten (D.out_faults desk.old) (D.out_faults desk.new) done result }
    ensures told { D.tells ≡ true → Says done (D.told desk.old) text.now result (D.told desk.new) }
{
    match write_all(desk, text) {
        Ok(()) => done,
        Err(DeskError::Failed) => Status::WriteFault,
        Err(DeskError::Memory) => Status::Memory,
    }
}
