ghost use Rattle.std.specs.Prelude.{◌≡◌, ◌<◌, ◌≤◌, ◌+◌, length, map, IfOk, OnOk, OnErr, List, ℕ, true, false, bytes_eq, take, ◌||◌};
ghost use Rattle.std.specs.List.{list_any};
ghost use Rattle.crs_base.specs.Symbols.{is_symbol, is_known, with_text, with_texts};
ghost use Rattle.crs_log.specs.SeenItems.{text_of};
ghost use Rattle.crs_model.specs.Renaming.{text_in};
ghost use Rattle.crs_model.specs.Renaming.{AreKnown};
ghost use Rattle.crs_log.specs.Items.{AreSymbols};
ghost use Rattle.crs_log.specs.Known.{new_texts, one_if_new};

use crate::items::Span;
use crate::items::parts::span_text;
use crate::putting::put;
use crs_base::{Sym, SymList, SymRefused, Symbols};
use smallvec::SmallVec;
use std::alloc::{AllocError, Global};

/// Whether one of the spans has this text.
fn stands_in(line: &[u8], spans: &[Span], text: &[u8]) -> bool
    ensures { result ≡ list_any (bytes_eq text.now) (map (text_of line.now) spans.now) }
{
    for span in spans {
        if text == span_text(line, *span) {
            return true;
        }
    }
    false
}

/// Whether a text is in the table or has one of the spans.
fn is_met(line: &[u8], before: &[Span], text: &[u8], symbols: &Symbols) -> bool
    ensures { result ≡ (is_known symbols.now.texts text.now || list_any (bytes_eq text.now) (map (text_of line.now) before.now)) }
{
    symbols.find(text).is_some() || stands_in(line, before, text)
}

/// Counts a span whose text is new.
fn one_if_new(line: &[u8], before: &[Span], span: Span, symbols: &Symbols) -> usize
    ensures { result ≡ one_if_new (with_texts symbols.now.texts (map (text_of line.now) before.now)) (text_of line.now span) }
{
    if is_met(line, before, span_text(line, span), symbols) {
        0
    } else {
        1
    }
}

/// How many texts the spans have that aren't in the table, each counted once.
fn new_count(line: &[u8], spans: &[Span], symbols: &Symbols) -> usize
    requires { length spans.now ≤ 4096 }
    ensures { result ≡ length (new_texts symbols.now.texts (map (text_of line.now) spans.now)) }
{
    let mut count = 0usize;
    for (i, span) in spans.iter().enumerate() {
        let (before, _) = spans.split_at(i);
        count += one_if_new(line, before, *span, symbols);
    }
    count
}

/// Whether the texts that aren't in the table are more than `room`. The spans are counted one by one
/// only where the table is nearly full.
#[inline(always)]
pub fn are_beyond(line: &[u8], spans: &[Span], symbols: &Symbols, room: u32) -> bool
    requires { length spans.now ≤ 4096 }
    ensures yes { result ≡ true → room < length (new_texts symbols.now.texts (map (text_of line.now) spans.now)) }
    ensures no { result ≡ false → length (new_texts symbols.now.texts (map (text_of line.now) spans.now)) ≤ room }
{
    let most = room as usize;
    if spans.len() <= most {
        return false;
    }
    let count = new_count(line, spans, symbols);
    most < count
}

/// The number of a text for which there is room.
fn intern_one(text: &[u8], symbols: &mut Symbols) -> Result<Sym, AllocError>
    requires symbol { is_symbol text.now ≡ true }
    requires room { is_known symbols.old.texts text.now ≡ false → length symbols.old.texts < symbols.old.limit }
    ensures texts { OnOk result (symbols.new.texts ≡ with_text symbols.old.texts text.now) }
    ensures number { IfOk result (λ s. text_in symbols.new.texts s ≡ text.now) }
    ensures within { IfOk result (λ s. s.0 < length symbols.new.texts) }
    ensures limit { symbols.new.limit ≡ symbols.old.limit }
    ensures err { OnErr result (symbols.new ≡ symbols.old) }
{
    match symbols.intern(text) {
        Ok(s) => Ok(s),
        Err(SymRefused::Values { limit: _ }) => unreachable!(),
        Err(SymRefused::Memory) => Err(AllocError),
    }
}

/// The numbers of the texts of spans.
pub fn intern_all(
    alloc: Global,
    line: &[u8],
    spans: &[Span],
    symbols: &mut Symbols,
) -> Result<SmallVec<Sym, 10>, AllocError>
    requires symbols { AreSymbols (map (text_of line.now) spans.now) }
    requires room { length symbols.old.texts + length (new_texts symbols.old.texts (map (text_of line.now) spans.now)) ≤ symbols.old.limit }
    ensures texts { OnOk result (symbols.new.texts ≡ with_texts symbols.old.texts (map (text_of line.now) spans.now)) }
    ensures numbers { IfOk result (λ v. map (text_in symbols.new.texts) v.items ≡ map (text_of line.now) spans.now) }
    ensures within { IfOk result (λ v. AreKnown symbols.new.texts v.items) }
    ensures limit { symbols.new.limit ≡ symbols.old.limit }
    ensures err { OnErr result ((k : ℕ) × (symbols.new.texts ≡ with_texts symbols.old.texts (take k (map (text_of line.now) spans.now)))) }
{
    let mut out = SmallVec::new(alloc);
    for span in spans {
        let Ok(s) = intern_one(span_text(line, *span), symbols) else {
            return Err(AllocError);
        };
        let Ok(()) = put(&mut out, s) else {
            return Err(AllocError);
        };
    }
    Ok(out)
}

/// The numbers of the texts of arguments, of which there are at most 8.
pub fn intern_args(
    line: &[u8],
    spans: &[Span],
    symbols: &mut Symbols,
) -> Result<SymList, AllocError>
    requires arity { length spans.now ≤ 8 }
    requires symbols { AreSymbols (map (text_of line.now) spans.now) }
    requires room { length symbols.old.texts + length (new_texts symbols.old.texts (map (text_of line.now) spans.now)) ≤ symbols.old.limit }
    ensures texts { OnOk result (symbols.new.texts ≡ with_texts symbols.old.texts (map (text_of line.now) spans.now)) }
    ensures numbers { IfOk result (λ v. map (text_in symbols.new.texts) v ≡ map (text_of line.now) spans.now) }
    ensures within { IfOk result (λ v. AreKnown symbols.new.texts v) }
    ensures limit { symbols.new.limit ≡ symbols.old.limit }
    ensures err { OnErr result ((k : ℕ) × (symbols.new.texts ≡ with_texts symbols.old.texts (take k (map (text_of line.now) spans.now)))) }
{
    let mut all = [Sym(0); 8];
    for (i, span) in spans.iter().enumerate() {
        let Ok(s) = intern_one(span_text(line, *span), symbols) else {
            return Err(AllocError);
        };
        all[i] = s;
    }
    Ok(SymList::first_of(all, spans.len() as u8))
}
