// Runs: the models, and then the log.
ghost use Rattle.std.specs.Prelude.{◌≡◌, ◌<◌, ◌≤◌, ◌+◌, ◌-◌, ◌^◌, true, map};
ghost use Rattle.crs_commands.specs.Logs.{tail_of};
ghost use Rattle.crs_commands.specs.RunOutcomes.{Runs, Follows};
ghost use Rattle.crs_frames.specs.Frames.{Frame};
ghost use Rattle.crs_outcomes.specs.Most.{most_of};
ghost use Rattle.crs_outcomes.specs.Status.{HasCauses};
ghost use Rattle.crs_session.specs.Session.{IsReady, Represents, IsUncounted};
ghost use Rattle.crs_session.specs.Texts.{start_of};

use crate::log::read_log;
use crate::models::prepare;
use crs_desk::{Desk, DeskError};
use crs_outcomes::{Limits, MODELS_LIMIT, MODELS_TOO_LONG, Status, load, refuse};
use crs_report::Listener;
use crs_session::Session;
use std::alloc::Global;
use std::mem::forget;

/// Reads the models, and then the log, with the levels of events read or not. The memory that the run
/// still has at its end is left to the end of the process.
pub fn recognise<D: Desk>(
    alloc: Global,
    desk: &mut D,
    models: &str,
    log: &str,
    limits: Limits,
    focus: bool,
    summary: bool,
    cite: bool,
    listeners: &mut Vec<Box<dyn Listener>>,
) -> Status
    requires { D.inputs desk.old < 2 ^ 31 }
    ensures words { result ≡ Status.Words → ⊥ }
    ensures causes { HasCauses (D.in_faults desk.old) (D.in_faults desk.new) (D.out_faults desk.old) (D.out_faults desk.new) result }
    ensures least { D.inputs desk.old ≤ D.inputs desk.new }
    ensures most { D.inputs desk.new ≤ D.inputs desk.old + 2 }
    ensures told { D.tells ≡ true → Runs (D.inputs desk.old) (D.inputs desk.new) cite (tail_of focus summary (map (λ b. (kind b, figures b)) listeners.old.items)) (most_of limits) (D.told desk.old) models.now log.now result (D.told desk.new) }
{
    let text = match load(alloc, desk, models, MODELS_LIMIT, MODELS_TOO_LONG) {
        Ok(text) => text,
        Err(status) => return status,
    };
    match prepare(alloc, text.as_slice(), focus, cite, limits, desk.seed()) {
        Ok(mut session) => {
            let status = follow(
                alloc,
                desk,
                log,
                limits.bytes,
                &mut session,
                summary,
                listeners,
            );
            // The process ends behind a run, and gives all memory back at once. Piece by piece, with
            // 10,000 instances alive, that took a tenth of all instructions.
            forget(session);
            status
        }
        Err(refused) => refuse(alloc, desk, refused),
    }
}

/// Opens a log and reads it to its end.
fn follow<D: Desk>(
    alloc: Global,
    desk: &mut D,
    log: &str,
    limit: u64,
    session: &mut Session,
    summary: bool,
    listeners: &mut Vec<Box<dyn Listener>>,
) -> Status
    requires inputs { D.inputs desk.old < 2 ^ 32 - 1 }
    requires ready { IsReady session.old }
    requires uncounted { IsUncounted session.old }
    ensures words { result ≡ Status.Words → ⊥ }
    ensures causes { HasCauses (D.in_faults desk.old) (D.in_faults desk.new) (D.out_faults desk.old) (D.out_faults desk.new) result }
    ensures least { D.inputs desk.old ≤ D.inputs desk.new }
    ensures most { D.inputs desk.new ≤ D.inputs desk.old + 1 }
    ensures told { D.tells ≡ true → (f : Frame) → Represents f session.old (start_of f)
        → Follows (D.inputs desk.old) (D.inputs desk.new) (tail_of session.old.layers.focus summary (map (λ b. (kind b, figures b)) listeners.old.items)) f limit (D.told desk.old) log.now result (D.told desk.new) }
{
    let input = match desk.open(log) {
        Ok(input) => input,
        Err(DeskError::Failed) => return Status::ReadFault,
        Err(DeskError::Memory) => return Status::Memory,
    };
    read_log(alloc, desk, input, limit, session, summary, listeners)
}
