ghost use Rattle.std.specs.Prelude.{◌≡◌, ◌<◌, ◌∷◌, ◌++◌, map, IfOk, OnOk, List, ℕ};
ghost use Rattle.crs_log.specs.SeenItems.{text_of, event_seen, change_in};
ghost use Rattle.crs_base.specs.Entry.{canonical, args_text, more_text, change_text};
ghost use Rattle.crs_log.specs.Known.{texts_of};

use super::whole::whole_head;
use crate::items::parts::span_text;
use crate::items::{Raw, Span};
use crate::putting::put;
use crs_base::Text;
use smallvec::SmallVec;
use std::alloc::{AllocError, Global};

/// Writes a byte and the text of a span.
fn push_part(
    line: &[u8],
    mark: u8,
    span: Span,
    out: &mut SmallVec<u8, 24>,
) -> Result<(), AllocError>
    ensures { OnOk result (out.new.items ≡ out.old.items ++ mark ∷ text_of line.now span) }
{
    put(out, mark)?;
    out.extend_from_slice(span_text(line, span))
}

/// Writes the arguments behind the first one.
fn push_more(line: &[u8], args: &[Span], out: &mut SmallVec<u8, 24>) -> Result<(), AllocError>
    ensures { OnOk result (out.new.items ≡ out.old.items ++ more_text (map (text_of line.now) args.now)) }
{
    for arg in args {
        push_part(line, b',', *arg, out)?;
    }
    put(out, b']')?;
    Ok(())
}

fn push_args(line: &[u8], args: &[Span], out: &mut SmallVec<u8, 24>) -> Result<(), AllocError>
    ensures { OnOk result (out.new.items ≡ out.old.items ++ args_text (map (text_of line.now) args.now)) }
{
    let Some((first, more)) = args.split_first() else {
        return Ok(());
    };
    push_part(line, b'[', *first, out)?;
    push_more(line, more, out)
}

fn push_change(
    line: &[u8],
    change: Option<(Span, Span)>,
    out: &mut SmallVec<u8, 24>,
) -> Result<(), AllocError>
    ensures { OnOk result (out.new.items ≡ out.old.items ++ change_text (change_in line.now change)) }
{
    let Some((old, new)) = change else {
        return Ok(());
    };
    put(out, b':')?;
    push_part(line, b'(', old, out)?;
    push_part(line, b',', new, out)?;
    put(out, b')')?;
    Ok(())
}

/// How many bytes the text of a change takes.
fn change_len(change: Option<(Span, Span)>) -> usize {
    match change {
        Some((old, new)) => old.len as usize + new.len as usize + 4,
        None => 0,
    }
}

/// How many bytes the canonical text takes, or fewer where that is many.
fn text_len(raw: &Raw) -> usize {
    let mut len = raw.name.len as usize + 1;
    for arg in raw.args.as_slice() {
        len = len.saturating_add(arg.len as usize + 1);
    }
    len.saturating_add(change_len(raw.change))
}

/// The canonical text of an event.
#[inline(always)]
pub fn canonical_text(alloc: Global, line: &[u8], raw: &Raw) -> Result<Text, AllocError>
    ensures { IfOk result (λ t. t ≡ canonical (text_of line.now raw.now.name) (map (text_of line.now) raw.now.args) (change_in line.now raw.now.change)) }
{
    match (whole_head(line, raw), raw.change) {
        (Some(text), None) => Text::new(alloc, text),
        (Some(head), Some(_)) => changed_text(alloc, line, head, raw.change),
        (None, _) => parted_text(alloc, line, raw),
    }
}

/// The same of an event with a change, whose name and arguments stand so in the line. To put these together
/// too took 1 % of a load that changes values, and 5 % of one that does nothing else.
fn changed_text(
    alloc: Global,
    line: &[u8],
    head: &[u8],
    change: Option<(Span, Span)>,
) -> Result<Text, AllocError>
    ensures { IfOk result (λ t. t ≡ head.now ++ change_text (change_in line.now change)) }
{
    let len = head.len().saturating_add(change_len(change));
    let mut out = SmallVec::with_capacity(alloc, len)?;
    out.extend_from_slice(head)?;
    push_change(line, change, &mut out)?;
    Ok(Text::from_small(out))
}

/// The same, put together from its parts.
fn parted_text(alloc: Global, line: &[u8], raw: &Raw) -> Result<Text, AllocError>
    ensures { IfOk result (λ t. t ≡ canonical (text_of line.now raw.now.name) (map (text_of line.now) raw.now.args) (change_in line.now raw.now.change)) }
{
    let mut out = SmallVec::with_capacity(alloc, text_len(raw))?;
    out.extend_from_slice(span_text(line, raw.name))?;
    push_args(line, raw.args.as_slice(), &mut out)?;
    push_change(line, raw.change, &mut out)?;
    Ok(Text::from_small(out))
}

/// The spans of the arguments and of the two values.
pub fn value_spans(alloc: Global, raw: &Raw) -> Result<SmallVec<Span, 10>, AllocError>
    ensures texts { (line : List ℕ) → IfOk result (λ v. map (text_of line) v.items ≡ texts_of (event_seen line raw.now)) }
{
    let mut spans = SmallVec::from_slice(alloc, raw.args.as_slice())?;
    if let Some((old, new)) = raw.change {
        put(&mut spans, old)?;
        put(&mut spans, new)?;
    }
    Ok(spans)
}
