// Logs that are opened together, and the next bytes of one of them.
ghost use Rattle.std.specs.Prelude.{◌≡◌, ◌<◌, ◌≤◌, ◌+◌, ◌-◌, ◌^◌, ◌++◌, ℕ, List as Items, [], ◌∷◌, true, false, length, map, IfOk, IfErr, OnOk};
ghost use Rattle.crs_rounds.specs.Sources.{IsFilled, IsSourceAt, ReadsSource, closed, new_source, new_sources};
ghost use Rattle.crs_rounds.specs.Opening.{OpensAll};
ghost use Rattle.crs_outcomes.specs.Status.{HasCauses};

use crate::source::Source;
use crs_base::LINE_LIMIT;
use crs_desk::{Desk, DeskError};
use crs_log::Lines;
use crs_outcomes::Status;
use std::alloc::{AllocError, Global};

/// Adds a log that was just opened.
fn push_source(alloc: Global, sources: &mut Vec<Source>, input: u32) -> Result<(), AllocError>
    ensures { OnOk result (sources.new.items ≡ sources.old.items ++ new_source input ∷ []) }
{
    let lines = Lines::new(alloc, LINE_LIMIT)?;
    sources.push(Source {
        input,
        taken: 0,
        lines,
        finished: false,
    })?;
    Ok(())
}

/// Opens the logs in the order of their names. An error is the status with which the call ends.
pub fn open_all<D: Desk>(alloc: Global, desk: &mut D, names: &[&str]) -> Result<Vec<Source>, Status>
    requires { D.inputs desk.old + length names.now < 2 ^ 32 - 1 }
    ensures least { D.inputs desk.old ≤ D.inputs desk.new }
    ensures most { D.inputs desk.new ≤ D.inputs desk.old + length names.now }
    ensures reading { D.in_faults desk.old ≤ D.in_faults desk.new }
    ensures writing { D.out_faults desk.old ≤ D.out_faults desk.new }
    ensures words { IfErr result (λ status. status ≡ Status.Words → ⊥) }
    ensures causes { IfErr result (HasCauses (D.in_faults desk.old) (D.in_faults desk.new) (D.out_faults desk.old) (D.out_faults desk.new)) }
    ensures all { OnOk result (D.inputs desk.new ≡ D.inputs desk.old + length names.now) }
    ensures new { IfOk result (λ sources. sources.items ≡ new_sources (D.inputs desk.old) (map (λ n. n.now) names.now)) }
    ensures told { D.tells ≡ true → OpensAll (D.inputs desk.old) (D.inputs desk.new) (D.told desk.old) (map (λ n. n.now) names.now) result (D.told desk.new) }
{
    let mut sources = Vec::new(alloc);
    for name in names {
        let input = match desk.open(name) {
            Ok(input) => input,
            Err(DeskError::Failed) => return Err(Status::ReadFault),
            Err(DeskError::Memory) => return Err(Status::Memory),
        };
        let Ok(()) = push_source(alloc, &mut sources, input) else {
            return Err(Status::Memory);
        };
    }
    Ok(sources)
}

/// Gives a source the bytes that came, of which none are the end of its log. Where memory is wanting,
/// they count as taken all the same.
fn fill(source: &mut Source, piece: &[u8]) -> Result<(), AllocError>
    requires ended { source.old.lines.finished ≡ source.old.finished }
    requires going { source.old.finished ≡ false }
    requires fed { source.old.lines.fed ≡ source.old.taken }
    requires room { source.old.taken + length piece.now < 2 ^ 64 }
    ensures filled { OnOk result (IsFilled piece.now source.old source.new) }
    ensures input { source.new.input ≡ source.old.input }
    ensures taken { source.new.taken ≡ source.old.taken + length piece.now }
{
    if piece.is_empty() {
        source.lines.finish();
        source.finished = true;
        return Ok(());
    }
    source.taken += piece.len() as u64;
    source.lines.feed(piece)
}

/// Reads the next bytes of a log, or meets its end. An error is the status with which the call ends.
pub fn read_more<D: Desk>(desk: &mut D, source: &mut Source, limit: u64) -> Result<(), Status>
    requires opened { source.old.input < D.inputs desk.old }
    requires ended { source.old.lines.finished ≡ source.old.finished }
    requires going { source.old.finished ≡ false }
    requires fed { source.old.lines.fed ≡ source.old.taken }
    ensures inputs { D.inputs desk.new ≡ D.inputs desk.old }
    ensures reading { D.in_faults desk.old ≤ D.in_faults desk.new }
    ensures writing { D.out_faults desk.old ≤ D.out_faults desk.new }
    ensures words { IfErr result (λ status. status ≡ Status.Words → ⊥) }
    ensures causes { IfErr result (HasCauses (D.in_faults desk.old) (D.in_faults desk.new) (D.out_faults desk.old) (D.out_faults desk.new)) }
    ensures filled { OnOk result ((piece : Items ℕ) × (source.old.taken + length piece ≤ limit) × (source.old.taken < limit) × IsFilled piece source.old source.new) }
    ensures told { D.tells ≡ true → ReadsSource limit (D.told desk.old) source.old result source.new (D.told desk.new) }
{
    if source.taken >= limit {
        return Err(Status::TooLong);
    }
    let mut buf = [0u8; 4096];
    let room = (limit - source.taken).min(4096) as usize;
    let count = match desk.read(source.input, &mut buf[..room]) {
        Ok(count) => count,
        Err(DeskError::Failed) => return Err(Status::ReadFault),
        Err(DeskError::Memory) => return Err(Status::Memory),
    };
    match fill(source, &buf[..count]) {
        Ok(()) => Ok(()),
        Err(_) => Err(Status::Memory),
    }
}
