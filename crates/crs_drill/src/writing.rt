ghost use Rattle.std.specs.Prelude.{◌≡◌, ◌++◌, OnOk};
ghost use Rattle.crs_drill.specs.Drill.{line_text};

use crs_base::{push_bytes, push_number};
use std::alloc::AllocError;

/// Writes the line of an entry.
pub(crate) fn push_entry(
    out: &mut Vec<u8>,
    date: u64,
    kind: u32,
    unit: u32,
) -> Result<(), AllocError>
    ensures { OnOk result (out.new.items ≡ out.old.items ++ line_text date kind unit) }
{
    push_number(out, date)?;
    push_bytes(out, b" m")?;
    push_number(out, kind as u64)?;
    push_bytes(out, b"[u")?;
    push_number(out, unit as u64)?;
    push_bytes(out, b"]\n")
}
