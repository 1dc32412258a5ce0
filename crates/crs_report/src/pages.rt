// The lines of listeners.
ghost use Rattle.std.specs.Prelude.{◌≡◌, ◌++◌, map, flat_map, OnOk, IfOk};
ghost use Rattle.crs_report.specs.Listeners.{kind_word, figure_text, page_line, page_of};

use crate::listener::Listener;
use crs_base::{Text, push_bytes, push_number};
use std::alloc::{AllocError, Global};

/// Writes the word of a kind, or the number of one that is the caller's own.
fn push_kind(out: &mut Vec<u8>, kind: u32) -> Result<(), AllocError>
    ensures { OnOk result (out.new.items ≡ out.old.items ++ kind_word kind) }
{
    match kind {
        0 => push_bytes(out, b"count"),
        1 => push_bytes(out, b"span"),
        2 => push_bytes(out, b"longest"),
        3 => push_bytes(out, b"fewer"),
        _ => push_number(out, kind as u64),
    }
}

/// Writes figures, each behind a blank.
fn push_figures(out: &mut Vec<u8>, figures: &[u64]) -> Result<(), AllocError>
    ensures { OnOk result (out.new.items ≡ out.old.items ++ flat_map figure_text figures.now) }
{
    for figure in figures {
        push_bytes(out, b" ")?;
        push_number(out, *figure)?;
    }
    Ok(())
}

/// The line of a listener of this kind with these figures.
pub fn page_line(alloc: Global, kind: u32, figures: &[u64]) -> Result<Text, AllocError>
    ensures { IfOk result (λ text. text ≡ page_line kind figures.now) }
{
    let mut out = Vec::new(alloc);
    push_bytes(&mut out, b"tally ")?;
    push_kind(&mut out, kind)?;
    push_figures(&mut out, figures)?;
    push_bytes(&mut out, b"\n")?;
    Ok(Text::from_vec(out))
}

/// Writes the page of a listener.
fn push_page(out: &mut Vec<u8>, listener: &Box<dyn Listener>) -> Result<(), AllocError>
    ensures { OnOk result (out.new.items ≡ out.old.items ++ page_line (kind listener.now) (figures listener.now)) }
{
    let page = listener.page()?;
    push_bytes(out, page.bytes())
}

/// Writes the pages of listeners, in order, behind what is there.
pub fn push_pages(out: &mut Vec<u8>, listeners: &[Box<dyn Listener>]) -> Result<(), AllocError>
    ensures { OnOk result (out.new.items ≡ out.old.items ++ flat_map page_of (map (λ b. (kind b, figures b)) listeners.now)) }
{
    for listener in listeners {
        push_page(out, listener)?;
    }
    Ok(())
}
