// Lines of a log, and of what is recognised in it.
ghost use Rattle.std.specs.Prelude.{◌≡◌, ◌++◌, ℕ, List as Items, OnOk, flat_map};
ghost use Rattle.crs_frames.specs.TableTexts.{ArePrintable, is_blank_what, line_in};
ghost use Rattle.crs_log.specs.SeenItems.{what_seen};

use crs_base::Symbols;
use crs_log::Item;
use crs_model::{Plans, Recognition};
use crs_report::push_line_of;
use std::alloc::AllocError;

/// Writes the lines of recognitions, in order, in which their entries are cited or not.
pub fn push_lines(
    out: &mut Vec<u8>,
    plans: &Plans,
    symbols: &Symbols,
    answer: &[Recognition],
    cite: bool,
) -> Result<(), AllocError>
    requires { ArePrintable plans.now symbols.now.texts answer.now }
    ensures { OnOk result (out.new.items ≡ out.old.items ++ flat_map (line_in cite plans.now symbols.now.texts) answer.now) }
{
    for r in answer {
        push_line_of(out, plans, symbols, r, cite)?;
    }
    Ok(())
}

/// Whether the line is blank or a comment.
pub fn is_blank(item: &Item) -> bool
    ensures { (line : Items ℕ) → result ≡ is_blank_what (what_seen line item.now) }
{
    matches!(item, Item::Blank)
}
