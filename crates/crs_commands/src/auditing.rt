// Outputs, checked by their models and logs.
ghost use Rattle.std.specs.Prelude.{◌≡◌, ◌<◌, ◌≤◌, ◌+◌, ◌-◌, ◌^◌, true, IfOk, IfErr};
ghost use Rattle.crs_audit.specs.Audited.{CanAudit, ground_in};
ghost use Rattle.crs_commands.specs.AuditOutcomes.{AreAuditPlans, Audits, LoadsChecked, SaysAudit};
ghost use Rattle.crs_outcomes.specs.ModelTexts.{IsFaultyText};
ghost use Rattle.crs_outcomes.specs.Most.{most_of};
ghost use Rattle.crs_outcomes.specs.Status.{HasCauses};

use crs_audit::{AuditRefused, audit, audit_line, audit_ok_line};
use crs_base::Symbols;
use crs_desk::{Desk, ReadAllError};
use crs_model::{ModelRefused, Plans};
use crs_outcomes::{
    Limits, MODELS_LIMIT, MODELS_TOO_LONG, Status, load, read_lone_plans, read_whole, refuse,
    write_text,
};
use std::alloc::Global;

/// The most bytes of a log by which an output is checked, and of the output.
pub const CHECKED_LIMIT: usize = 1 << 26;

/// Reads the models, the log and the output, and writes the line of the audit of the output.
pub fn audit_output<D: Desk>(
    alloc: Global,
    desk: &mut D,
    models: &str,
    log: &str,
    output: &str,
    limits: Limits,
) -> Status
    requires { D.inputs desk.old < 2 ^ 31 }
    ensures words { result ≡ Status.Words → ⊥ }
    ensures causes { HasCauses (D.in_faults desk.old) (D.in_faults desk.new) (D.out_faults desk.old) (D.out_faults desk.new) result }
    ensures least { D.inputs desk.old ≤ D.inputs desk.new }
    ensures most { D.inputs desk.new ≤ D.inputs desk.old + 3 }
    ensures told { D.tells ≡ true → Audits (D.inputs desk.old) (D.inputs desk.new) (most_of limits) (D.told desk.old) models.now log.now output.now result (D.told desk.new) }
{
    let text = match load(alloc, desk, models, MODELS_LIMIT, MODELS_TOO_LONG) {
        Ok(text) => text,
        Err(status) => return status,
    };
    let (plans, symbols) = match plans_for_audit(
        alloc,
        text.as_slice(),
        limits.symbols,
        desk.seed(),
    ) {
        Ok(read) => read,
        Err(refused) => return refuse(alloc, desk, refused),
    };
    let log = match load_checked(alloc, desk, log) {
        Ok(log) => log,
        Err(status) => return status,
    };
    let output = match load_checked(alloc, desk, output) {
        Ok(output) => output,
        Err(status) => return status,
    };
    write_audit(
        alloc,
        desk,
        &plans,
        symbols,
        limits.entries,
        log.as_slice(),
        output.as_slice(),
    )
}

/// The plans of the models that the text means, and the table of their symbols, which holds at most
/// `limit` symbols and hashes them from the seed.
pub fn plans_for_audit(
    alloc: Global,
    text: &[u8],
    limit: u32,
    seed: u64,
) -> Result<(Plans, Symbols), ModelRefused>
    ensures ok { IfOk result (λ read. AreAuditPlans limit text.now read.0 read.1) }
    ensures refused { IfErr result (IsFaultyText limit text.now) }
{
    read_lone_plans(alloc, text, limit, seed)
}

/// Opens a log or an output and reads it whole. An error is the status with which the call ends,
/// and nothing is written.
fn load_checked<D: Desk>(alloc: Global, desk: &mut D, name: &str) -> Result<Vec<u8>, Status>
    requires { D.inputs desk.old < 2 ^ 32 - 1 }
    ensures least { D.inputs desk.old ≤ D.inputs desk.new }
    ensures most { D.inputs desk.new ≤ D.inputs desk.old + 1 }
    ensures reading { D.in_faults desk.old ≤ D.in_faults desk.new }
    ensures writing { D.out_faults desk.old ≤ D.out_faults desk.new }
    ensures words { IfErr result (λ status. status ≡ Status.Words → ⊥) }
    ensures causes { IfErr result (HasCauses (D.in_faults desk.old) (D.in_faults desk.new) (D.out_faults desk.old) (D.out_faults desk.new)) }
    ensures told { D.tells ≡ true → LoadsChecked (D.inputs desk.old) (D.inputs desk.new) (D.told desk.old) name.now result (D.told desk.new) }
{
    match read_whole(alloc, desk, name, CHECKED_LIMIT) {
        Ok(bytes) => Ok(bytes),
        Err(ReadAllError::Failed) => Err(Status::ReadFault),
        Err(ReadAllError::Memory) => Err(Status::Memory),
        Err(ReadAllError::Long) => Err(Status::TooLong),
    }
}

/// Checks the output by the log, and writes the line that says what was found.
fn write_audit<D: Desk>(
    alloc: Global,
    desk: &mut D,
    plans: &Plans,
    mut symbols: Symbols,
    entries: u32,
    log: &[u8],
    output: &[u8],
) -> Status
    requires { CanAudit plans.now symbols }
    ensures inputs { D.inputs desk.new ≡ D.inputs desk.old }
    ensures words { result ≡ Status.Words → ⊥ }
    ensures causes { HasCauses (D.in_faults desk.old) (D.in_faults desk.new) (D.out_faults desk.old) (D.out_faults desk.new) result }
    ensures told { D.tells ≡ true → SaysAudit (ground_in plans.now entries symbols log.now) output.now (D.told desk.old) result (D.told desk.new) }
{
    match audit(alloc, plans, &mut symbols, entries, log, output) {
        Ok(claims) => {
            let Ok(text) = audit_ok_line(alloc, claims) else {
                return Status::Memory;
            };
            write_text(desk, text.bytes(), Status::Done)
        }
        Err(AuditRefused::At { line, word }) => {
            let Ok(text) = audit_line(alloc, line, word) else {
                return Status::Memory;
            };
            write_text(desk, text.bytes(), Status::Rejected)
        }
        Err(AuditRefused::Memory) => Status::Memory,
    }
}
