ghost use Rattle.std.specs.Prelude.{◌≡◌, ◌<◌, ◌≤◌, ◌+◌, length, map, IfOk, OnOk, IfErr, List, ℕ, None, true};
ghost use Rattle.crs_base.specs.Symbols.{is_known, with_texts};
ghost use Rattle.crs_log.specs.SeenItems.{text_of, event_seen, change_in};
ghost use Rattle.crs_model.specs.Renaming.{text_in};
ghost use Rattle.crs_model.specs.Renaming.{AreKnown};
ghost use Rattle.crs_log.specs.SeenNames.{entry_seen, change_seen, IsEntryRefusal, IsEntryIn, IsPairIn, IsTextAt, change_count};
ghost use Rattle.crs_base.specs.Entry.{canonical};
ghost use Rattle.crs_log.specs.Items.{IsItem, Happens};
ghost use Rattle.crs_log.specs.Known.{new_texts, texts_of, change_texts, entry_of_event};

use super::EntryRefused;
use super::adding::{are_beyond, intern_all, intern_args};
use super::texts::{canonical_text, value_spans};
use crate::items::parts::span_text;
use crate::items::{Raw, Span};
use crs_base::{Entry, Sym, SymList, Symbols, Text};
use std::alloc::Global;

/// The number of a text that is in the table.
fn known_symbol(text: &[u8], symbols: &Symbols) -> Sym
    requires { is_known symbols.now.texts text.now ≡ true }
    ensures text { text_in symbols.now.texts result ≡ text.now }
    ensures within { result.0 < length symbols.now.texts }
{
    match symbols.find(text) {
        Some(s) => s,
        None => unreachable!(),
    }
}

/// The two values of a change, whose numbers these are.
fn numbered(change: Option<(Span, Span)>, values: &[Sym]) -> Option<(Sym, Sym)>
    requires { length values.now ≡ change_count change }
    ensures change { (line : List ℕ) (texts : List (List ℕ)) → map (text_in texts) values.now ≡ change_texts (change_in line change) → change_seen texts result ≡ change_in line change }
    ensures within { (texts : List (List ℕ)) → AreKnown texts values.now → IsPairIn texts result }
{
    match change {
        Some(_) => Some((values[0], values[1])),
        None => None,
    }
}

/// The entry of an event, whose arguments and values have these numbers.
fn entry_with(arrival: u32, raw: &Raw, name: Sym, numbers: &[Sym], text: Text) -> Entry
    requires count { length numbers.now ≡ length raw.now.args + change_count raw.now.change }
    requires arity { length raw.now.args ≤ 8 }
    ensures entry { (line : List ℕ) (texts : List (List ℕ)) → text_in texts name ≡ text_of line raw.now.name → map (text_in texts) numbers.now ≡ texts_of (event_seen line raw.now)
        → text ≡ canonical (event_seen line raw.now).name (event_seen line raw.now).args (event_seen line raw.now).change → entry_seen texts result ≡ entry_of_event arrival (event_seen line raw.now) }
    ensures within { (texts : List (List ℕ)) → name.0 < length texts → AreKnown texts numbers.now → IsEntryIn texts result }
{
    let (args, values) = numbers.split_at(raw.args.len());
    Entry {
        arrival,
        date: raw.date,
        name,
        args: SymList::from_slice(args),
        change: numbered(raw.change, values),
        text,
    }
}

/// The entry of an event without a change, whose name has this number and whose canonical text this is.
#[inline(always)]
fn make_message(
    line: &[u8],
    raw: &Raw,
    name: Sym,
    arrival: u32,
    symbols: &mut Symbols,
    text: Text,
) -> Result<Entry, EntryRefused>
    requires none { raw.now.change ≡ None }
    requires item { IsItem line.now (Happens (event_seen line.now raw.now)) }
    requires name { IsTextAt symbols.old.texts (text_of line.now raw.now.name) name }
    requires arity { length raw.now.args ≤ 8 }
    requires text { text ≡ canonical (event_seen line.now raw.now).name (event_seen line.now raw.now).args (event_seen line.now raw.now).change }
    ensures entry { IfOk result (λ e. entry_seen symbols.new.texts e ≡ entry_of_event arrival (event_seen line.now raw.now)) }
    ensures within { IfOk result (IsEntryIn symbols.new.texts) }
    ensures texts { OnOk result (symbols.new.texts ≡ with_texts symbols.old.texts (texts_of (event_seen line.now raw.now))) }
    ensures room { OnOk result (length symbols.old.texts + length (new_texts symbols.old.texts (texts_of (event_seen line.now raw.now))) ≤ symbols.old.limit) }
    ensures limit { symbols.new.limit ≡ symbols.old.limit }
    ensures err { IfErr result (IsEntryRefusal symbols.old symbols.new (texts_of (event_seen line.now raw.now))) }
{
    let spans = raw.args.as_slice();
    let room = symbols.room();
    if are_beyond(line, spans, symbols, room) {
        return Err(EntryRefused::Values {
            limit: symbols.len() + room,
        });
    }
    let Ok(args) = intern_args(line, spans, symbols) else {
        return Err(EntryRefused::Memory);
    };
    Ok(Entry {
        arrival,
        date: raw.date,
        name,
        args,
        change: None,
        text,
    })
}

/// The same of an event with a change.
fn make_change(
    alloc: Global,
    line: &[u8],
    raw: &Raw,
    name: Sym,
    arrival: u32,
    symbols: &mut Symbols,
    text: Text,
) -> Result<Entry, EntryRefused>
    requires item { IsItem line.now (Happens (event_seen line.now raw.now)) }
    requires name { IsTextAt symbols.old.texts (text_of line.now raw.now.name) name }
    requires arity { length raw.now.args ≤ 8 }
    requires text { text ≡ canonical (event_seen line.now raw.now).name (event_seen line.now raw.now).args (event_seen line.now raw.now).change }
    ensures entry { IfOk result (λ e. entry_seen symbols.new.texts e ≡ entry_of_event arrival (event_seen line.now raw.now)) }
    ensures within { IfOk result (IsEntryIn symbols.new.texts) }
    ensures texts { OnOk result (symbols.new.texts ≡ with_texts symbols.old.texts (texts_of (event_seen line.now raw.now))) }
    ensures room { OnOk result (length symbols.old.texts + length (new_texts symbols.old.texts (texts_of (event_seen line.now raw.now))) ≤ symbols.old.limit) }
    ensures limit { symbols.new.limit ≡ symbols.old.limit }
    ensures err { IfErr result (IsEntryRefusal symbols.old symbols.new (texts_of (event_seen line.now raw.now))) }
{
    let Ok(spans) = value_spans(alloc, raw) else {
        return Err(EntryRefused::Memory);
    };
    let room = symbols.room();
    if are_beyond(line, spans.as_slice(), symbols, room) {
        return Err(EntryRefused::Values {
            limit: symbols.len() + room,
        });
    }
    let Ok(numbers) = intern_all(alloc, line, spans.as_slice(), symbols) else {
        return Err(EntryRefused::Memory);
    };
    Ok(entry_with(arrival, raw, name, numbers.as_slice(), text))
}

/// The entry of an event line whose name has this number.
#[inline(always)]
pub fn make_named(
    alloc: Global,
    line: &[u8],
    raw: &Raw,
    name: Sym,
    arrival: u32,
    symbols: &mut Symbols,
) -> Result<Entry, EntryRefused>
    requires item { IsItem line.now (Happens (event_seen line.now raw.now)) }
    requires name { IsTextAt symbols.old.texts (text_of line.now raw.now.name) name }
    requires arity { length raw.now.args ≤ 8 }
    ensures entry { IfOk result (λ e. entry_seen symbols.new.texts e ≡ entry_of_event arrival (event_seen line.now raw.now)) }
    ensures within { IfOk result (IsEntryIn symbols.new.texts) }
    ensures texts { OnOk result (symbols.new.texts ≡ with_texts symbols.old.texts (texts_of (event_seen line.now raw.now))) }
    ensures room { OnOk result (length symbols.old.texts + length (new_texts symbols.old.texts (texts_of (event_seen line.now raw.now))) ≤ symbols.old.limit) }
    ensures limit { symbols.new.limit ≡ symbols.old.limit }
    ensures err { IfErr result (IsEntryRefusal symbols.old symbols.new (texts_of (event_seen line.now raw.now))) }
{
    let Ok(text) = canonical_text(alloc, line, raw) else {
        return Err(EntryRefused::Memory);
    };
    match raw.change {
        Some(_) => make_change(alloc, line, raw, name, arrival, symbols, text),
        None => make_message(line, raw, name, arrival, symbols, text),
    }
}

/// The entry of an event line whose name is declared.
pub fn make_entry(
    alloc: Global,
    line: &[u8],
    raw: &Raw,
    arrival: u32,
    symbols: &mut Symbols,
) -> Result<Entry, EntryRefused>
    requires item { IsItem line.now (Happens (event_seen line.now raw.now)) }
    requires name { is_known symbols.old.texts (text_of line.now raw.now.name) ≡ true }
    requires arity { length raw.now.args ≤ 8 }
    ensures entry { IfOk result (λ e. entry_seen symbols.new.texts e ≡ entry_of_event arrival (event_seen line.now raw.now)) }
    ensures within { IfOk result (IsEntryIn symbols.new.texts) }
    ensures texts { OnOk result (symbols.new.texts ≡ with_texts symbols.old.texts (texts_of (event_seen line.now raw.now))) }
    ensures room { OnOk result (length symbols.old.texts + length (new_texts symbols.old.texts (texts_of (event_seen line.now raw.now))) ≤ symbols.old.limit) }
    ensures limit { symbols.new.limit ≡ symbols.old.limit }
    ensures err { IfErr result (IsEntryRefusal symbols.old symbols.new (texts_of (event_seen line.now raw.now))) }
{
    let name = known_symbol(span_text(line, raw.name), symbols);
    make_named(alloc, line, raw, name, arrival, symbols)
}
