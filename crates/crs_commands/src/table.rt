// Tables, written as logs.
ghost use Rattle.std.specs.Prelude.{◌≡◌, ◌<◌, ◌≤◌, ◌+◌, ◌^◌, true};
ghost use Rattle.crs_commands.specs.Imports.{Imports, RefusesTable};
ghost use Rattle.crs_outcomes.specs.Status.{HasCauses};

use crs_desk::Desk;
use crs_import::{ImportRefused, import, refusal_line};
use crs_outcomes::{Status, load, write_text};
use std::alloc::Global;

/// The most bytes of a table.
const TABLE_LIMIT: usize = 1 << 26;

/// The refusal of a table that has more.
const TABLE_TOO_LONG: &[u8] = b"table record 0 size\n";

/// Reads a table, and writes it as a log.
pub fn import_table<D: Desk>(alloc: Global, desk: &mut D, table: &str) -> Status
    requires { D.inputs desk.old < 2 ^ 31 }
    ensures words { result ≡ Status.Words → ⊥ }
    ensures causes { HasCauses (D.in_faults desk.old) (D.in_faults desk.new) (D.out_faults desk.old) (D.out_faults desk.new) result }
    ensures least { D.inputs desk.old ≤ D.inputs desk.new }
    ensures most { D.inputs desk.new ≤ D.inputs desk.old + 1 }
    ensures told { D.tells ≡ true → Imports (D.inputs desk.old) (D.inputs desk.new) (D.told desk.old) table.now result (D.told desk.new) }
{
    let bytes = match load(alloc, desk, table, TABLE_LIMIT, TABLE_TOO_LONG) {
        Ok(bytes) => bytes,
        Err(status) => return status,
    };
    match import(alloc, bytes.as_slice()) {
        Ok(log) => write_text(desk, log.as_slice(), Status::Done),
        Err(refused) => refuse_table(alloc, desk, refused),
    }
}

/// Writes the line of a refused table.
fn refuse_table<D: Desk>(alloc: Global, desk: &mut D, refused: ImportRefused) -> Status
    ensures inputs { D.inputs desk.new ≡ D.inputs desk.old }
    ensures words { result ≡ Status.Words → ⊥ }
    ensures causes { HasCauses (D.in_faults desk.old) (D.in_faults desk.new) (D.out_faults desk.old) (D.out_faults desk.new) result }
    ensures told { D.tells ≡ true → RefusesTable (D.told desk.old) refused result (D.told desk.new) }
{
    if refused == ImportRefused::Memory {
        return Status::Memory;
    }
    let Ok(text) = refusal_line(alloc, refused) else {
        return Status::Memory;
    };
    write_text(desk, text.bytes(), Status::Rejected)
}
