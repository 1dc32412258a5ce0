// The top call.
ghost use Rattle.std.specs.Prelude.{◌≡◌, ◌<◌, ◌≤◌, ◌+◌, ◌^◌, ◌⊎◌, true, None, map, string_bytes};
ghost use Rattle.crs_desk.specs.Desk.{Rose};
ghost use Rattle.crs_words.specs.Commands.{command_of};
ghost use Rattle.crs_outcomes.specs.Most.{most_of, standard};
ghost use Rattle.crs_outcomes.specs.Status.{HasCauses};
ghost use Rattle.crs_top.specs.CommandOutcomes.{Does, CompletesCommand, IsUnrefused};

use crs_commands::{audit_output, drill, import_table, print, recognise};
use crs_desk::Desk;
use crs_outcomes::{Limits, STANDARD, Status, write_text};
use crs_report::{Listener, keep_kinds};
use crs_rounds::recognise_feeds;
use crs_words::{Command, read_words, usage_text};
use std::alloc::Global;

/// Runs the command that the words ask for, at the program's limits.
///
/// A run tells the listeners of each recognition that it prints, and writes the pages of those that
/// stay last. First it drops those whose kind the words don't ask for.
///
/// What `run` and `feeds` hold at their end they leave to the end of the process: a caller that goes on
/// keeps that memory.
pub fn run_program<D: Desk>(
    alloc: Global,
    words: &[String],
    desk: &mut D,
    listeners: Vec<Box<dyn Listener>>,
) -> Status
    requires { D.inputs desk.old < 2 ^ 31 }
    ensures words { result ≡ Status.Words → command_of (map string_bytes words.now) ≡ None }
    ensures no_command { command_of (map string_bytes words.now) ≡ None → (result ≡ Status.Words) ⊎ (result ≡ Status.WriteFault) ⊎ (result ≡ Status.Memory) }
    ensures causes { HasCauses (D.in_faults desk.old) (D.in_faults desk.new) (D.out_faults desk.old) (D.out_faults desk.new) result }
    ensures least { D.inputs desk.old ≤ D.inputs desk.new }
    ensures most { D.inputs desk.new ≤ D.inputs desk.old + 9 }
    ensures told { D.tells ≡ true → Does (D.inputs desk.old) (D.inputs desk.new) standard (map (λ b. (kind b, figures b)) listeners.items) (D.told desk.old) (command_of (map string_bytes words.now)) result (D.told desk.new) }
    ensures complete { D.tells ≡ true → CompletesCommand standard (D.told desk.old) (command_of (map string_bytes words.now))
        (Rose (D.in_faults desk.old) (D.in_faults desk.new) ⊎ Rose (D.out_faults desk.old) (D.out_faults desk.new)) result }
    ensures unrefused { D.tells ≡ true → IsUnrefused (D.told desk.old) (command_of (map string_bytes words.now)) result (D.told desk.new) }
{
    run_with(alloc, words, STANDARD, desk, listeners)
}

/// Runs the command that the words ask for.
pub fn run_with<D: Desk>(
    alloc: Global,
    words: &[String],
    limits: Limits,
    desk: &mut D,
    mut listeners: Vec<Box<dyn Listener>>,
) -> Status
    requires { D.inputs desk.old < 2 ^ 31 }
    ensures words { result ≡ Status.Words → command_of (map string_bytes words.now) ≡ None }
    ensures no_command { command_of (map string_bytes words.now) ≡ None → (result ≡ Status.Words) ⊎ (result ≡ Status.WriteFault) ⊎ (result ≡ Status.Memory) }
    ensures causes { HasCauses (D.in_faults desk.old) (D.in_faults desk.new) (D.out_faults desk.old) (D.out_faults desk.new) result }
    ensures least { D.inputs desk.old ≤ D.inputs desk.new }
    ensures most { D.inputs desk.new ≤ D.inputs desk.old + 9 }
    ensures told { D.tells ≡ true → Does (D.inputs desk.old) (D.inputs desk.new) (most_of limits) (map (λ b. (kind b, figures b)) listeners.items) (D.told desk.old) (command_of (map string_bytes words.now)) result (D.told desk.new) }
    ensures complete { D.tells ≡ true → CompletesCommand (most_of limits) (D.told desk.old) (command_of (map string_bytes words.now))
        (Rose (D.in_faults desk.old) (D.in_faults desk.new) ⊎ Rose (D.out_faults desk.old) (D.out_faults desk.new)) result }
{
    match read_words(alloc, words) {
        Err(_) => Status::Memory,
        Ok(None) => write_text(desk, usage_text(), Status::Words),
        Ok(
            Some(
                Command::Run {
                    focus,
                    summary,
                    cite,
                    tally,
                    models,
                    log,
                },
            ),
        ) => {
            keep_kinds(&mut listeners, &tally.kinds());
            recognise(
                alloc,
                desk,
                models,
                log,
                limits,
                focus,
                summary,
                cite,
                &mut listeners,
            )
        }
        Ok(Some(Command::Print { listing, models })) => {
            print(alloc, desk, models, listing, limits.symbols)
        }
        Ok(Some(Command::Drill { focus, seed, lines })) => {
            drill(alloc, desk, focus, seed, lines, limits)
        }
        Ok(
            Some(
                Command::Feeds {
                    focus,
                    models,
                    logs,
                },
            ),
        ) => recognise_feeds(alloc, desk, models, logs.as_slice(), limits, focus),
        Ok(Some(Command::Import { table })) => import_table(alloc, desk, table),
        Ok(
            Some(
                Command::Audit {
                    models,
                    log,
                    output,
                },
            ),
        ) => audit_output(alloc, desk, models, log, output, limits),
    }
}
