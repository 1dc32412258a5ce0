// One line of one of several logs.
ghost use Rattle.std.specs.Prelude.{◌≡◌, ◌<◌, ◌≤◌, ◌^◌, ◌++◌, ℕ, OnOk, false, true, length, get_or, map};
ghost use Rattle.crs_feeds.specs.Merged.{new_feed};
ghost use Rattle.crs_feeds.specs.Standing.{IsItemOf};
ghost use Rattle.crs_log.specs.Given.{seen};
ghost use Rattle.crs_log.specs.ItemOf.{what_of};
ghost use Rattle.crs_log.specs.Items.{Clock, Finish as LogEnd, Happens, IsItem};
ghost use Rattle.crs_log.specs.Known.{Named, known_of};
ghost use Rattle.crs_log.specs.Reading.{Given, Plain};
ghost use Rattle.crs_log.specs.SeenItems.{event_seen, text_of, what_seen, IsInRange, IsRead};
ghost use Rattle.crs_log.specs.SeenNames.{name_seen, IsTextAt};
ghost use Rattle.crs_rounds.specs.MergedSession.{IsReadyMerged, BringsLine, BringsItem, IsPrintableRise, rise_lines, feeds_of};
ghost use Rattle.crs_rounds.specs.PairTexts.{feed_refusal};
ghost use Rattle.crs_frames.specs.TableTexts.{IsShort};

use crate::merged::{MergedSession, Origin};
use crs_base::{Steps, Sym, Symbols, Token, push_bytes, push_number};
use crs_engine::Refused;
use crs_feeds::Rise;
use crs_frames::{is_blank, push_lines};
use crs_log::naming::{NameRefused, known};
use crs_log::{EntryRefused, Item, ItemRefused, Known, Line, Raw, make_named, read_item};
use crs_model::Plans;
use crs_report::{Fault, push_refusal_line};
use std::alloc::{AllocError, Global};
use std::marker::Brand;
use std::sync::ledger::{Blank, Ledger};

/// Writes the refusal of a feed's line.
fn push_refusal(out: &mut Vec<u8>, origin: Origin, fault: Fault) -> Result<(), AllocError>
    ensures { OnOk result (out.new.items ≡ out.old.items ++ feed_refusal origin.feed origin.number fault) }
{
    push_bytes(out, b"feed ")?;
    push_number(out, origin.feed as u64 + 1)?;
    push_bytes(out, b" ")?;
    push_refusal_line(out, origin.number, fault)
}

/// Writes the refusal of a line, and notes it.
fn refuse(
    session: &mut MergedSession,
    origin: Origin,
    fault: Fault,
    out: &mut Vec<u8>,
) -> Result<(), AllocError>
    ensures written { OnOk result (out.new.items ≡ out.old.items ++ feed_refusal origin.feed origin.number fault) }
    ensures noted { OnOk result (session.new ≡ record session.old { refused = true }) }
{
    push_refusal(out, origin, fault)?;
    session.refused = true;
    Ok(())
}

/// Writes the lines of a rise, where there is one.
fn push_rise(
    out: &mut Vec<u8>,
    plans: &Plans,
    symbols: &Symbols,
    rise: Option<Rise>,
) -> Result<(), AllocError>
    requires { IsPrintableRise plans.now symbols.now.texts rise }
    ensures { OnOk result (out.new.items ≡ out.old.items ++ rise_lines plans.now symbols.now.texts rise) }
{
    match rise {
        None => Ok(()),
        Some(rise) => push_lines(out, plans, symbols, rise.list.as_slice(), false),
    }
}

/// Takes a clock of a feed, with a step counter of its own.
fn take_clock<L: Ledger>(
    blank: Blank,
    session: &mut MergedSession,
    origin: Origin,
    t: u64,
    out: &mut Vec<u8>,
) -> Result<(), AllocError>
    requires ready { IsReadyMerged session.old }
    requires feed { origin.feed < feeds_of session.old }
    requires going { (get_or session.old.feeds.feeds origin.feed new_feed).ended ≡ false }
    requires date { t < 2 ^ 40 }
    requires said { (g : Given) × IsItemOf (Clock t) g }
    requires name { blank.name ≡ L.name }
    requires parts { blank.parts ≡ L.parts }
    requires some { 0 < L.parts }
    ensures { OnOk result (BringsItem session.old session.new origin (Clock t) out.old.items out.new.items) }
{
    match session
        .feeds
        .clock(origin.feed, t, &mut Steps::<L>::new(blank))
    {
        Ok(rise) => push_rise(out, session.feeds.plans(), &session.symbols, rise),
        Err(Refused::Back { t, last }) => refuse(session, origin, Fault::Back { t, last }, out),
        Err(_) => Err(AllocError),
    }
}

/// Takes the end of a feed's items, with a step counter of its own.
fn take_end<L: Ledger>(
    blank: Blank,
    session: &mut MergedSession,
    origin: Origin,
    out: &mut Vec<u8>,
) -> Result<(), AllocError>
    requires ready { IsReadyMerged session.old }
    requires feed { origin.feed < feeds_of session.old }
    requires going { (get_or session.old.feeds.feeds origin.feed new_feed).ended ≡ false }
    requires said { (g : Given) × IsItemOf LogEnd g }
    requires name { blank.name ≡ L.name }
    requires parts { blank.parts ≡ L.parts }
    requires some { 0 < L.parts }
    ensures { OnOk result (BringsItem session.old session.new origin LogEnd out.old.items out.new.items) }
{
    match session
        .feeds
        .finish(origin.feed, &mut Steps::<L>::new(blank))
    {
        Ok(rise) => push_rise(out, session.feeds.plans(), &session.symbols, rise),
        Err(_) => Err(AllocError),
    }
}

/// Accepts the event of a line, whose name has this number, and is declared with these arguments and
/// this value.
fn accept_event(
    alloc: Global,
    session: &mut MergedSession,
    origin: Origin,
    line: &[u8],
    raw: &Raw,
    name: Sym,
    out: &mut Vec<u8>,
) -> Result<(), AllocError>
    requires ready { IsReadyMerged session.old }
    requires feed { origin.feed < feeds_of session.old }
    requires going { (get_or session.old.feeds.feeds origin.feed new_feed).ended ≡ false }
    requires item { IsItem line.now (Happens (event_seen line.now raw.now)) }
    requires date { raw.now.date < 2 ^ 40 }
    requires due { (get_or session.old.feeds.feeds origin.feed new_feed).horizon ≤ raw.now.date }
    requires name { IsTextAt session.old.symbols.texts (text_of line.now raw.now.name) name }
    requires named { (place : ℕ) × (known_of (map (name_seen session.old.symbols.texts) session.old.feeds.engine.plans.names) (event_seen line.now raw.now) ≡ Named place) }
    ensures { OnOk result (BringsItem session.old session.new origin (Happens (event_seen line.now raw.now)) out.old.items out.new.items) }
{
    if session.feeds.is_full() {
        let limit = session.entries;
        return refuse(session, origin, Fault::Full { limit }, out);
    }
    let arrival = session.feeds.accepted();
    let entry = match make_named(alloc, line, raw, name, arrival, &mut session.symbols) {
        Ok(entry) => entry,
        Err(EntryRefused::Values { limit }) => {
            return refuse(session, origin, Fault::Values { limit }, out);
        }
        Err(EntryRefused::Memory) => return Err(AllocError),
    };
    match session.feeds.accept(origin.feed, entry) {
        Ok(()) => Ok(()),
        Err(_) => Err(AllocError),
    }
}

/// Takes an event.
fn take_event(
    alloc: Global,
    session: &mut MergedSession,
    origin: Origin,
    line: &[u8],
    raw: &Raw,
    out: &mut Vec<u8>,
) -> Result<(), AllocError>
    requires ready { IsReadyMerged session.old }
    requires feed { origin.feed < feeds_of session.old }
    requires going { (get_or session.old.feeds.feeds origin.feed new_feed).ended ≡ false }
    requires item { IsItem line.now (Happens (event_seen line.now raw.now)) }
    requires date { raw.now.date < 2 ^ 40 }
    ensures { OnOk result (BringsItem session.old session.new origin (Happens (event_seen line.now raw.now)) out.old.items out.new.items) }
{
    match session.feeds.test_date(origin.feed, raw.date) {
        Ok(()) => {}
        Err(Refused::Late { date, horizon }) => {
            return refuse(session, origin, Fault::Late { date, horizon }, out);
        }
        Err(_) => return Err(AllocError),
    }
    match known(line, raw, &session.feeds.plans().names, &session.symbols) {
        Ok(Known::Name(_, name)) => accept_event(alloc, session, origin, line, raw, name, out),
        Ok(Known::Other) => Ok(()),
        Err(NameRefused::Arity) => refuse(session, origin, Fault::Arity, out),
        Err(NameRefused::Value) => refuse(session, origin, Fault::Value, out),
    }
}

/// Takes an item that doesn't stand behind the feed's end.
fn take_ordered(
    alloc: Global,
    session: &mut MergedSession,
    origin: Origin,
    line: &[u8],
    item: Item,
    out: &mut Vec<u8>,
) -> Result<(), AllocError>
    requires ready { IsReadyMerged session.old }
    requires feed { origin.feed < feeds_of session.old }
    requires going { (get_or session.old.feeds.feeds origin.feed new_feed).ended ≡ false }
    requires range { IsInRange item }
    requires read { IsRead line.now item }
    requires exact { what_seen line.now item ≡ what_of line.now }
    ensures { OnOk result (BringsLine session.old session.new origin.feed (Plain origin.number line.now) out.old.items out.new.items) }
{
    match item {
        Item::Blank => Ok(()),
        Item::Delay(delay) => {
            session.feeds.set_delay(origin.feed, delay);
            Ok(())
        }
        Item::Clock(t) => take_clock::<Brand>(Blank::new(1), session, origin, t, out),
        Item::Finish => take_end::<Brand>(Blank::new(1), session, origin, out),
        Item::Event(raw) => take_event(alloc, session, origin, line, &raw, out),
    }
}

/// Takes what a line is.
fn take_item(
    alloc: Global,
    session: &mut MergedSession,
    origin: Origin,
    line: &[u8],
    item: Item,
    out: &mut Vec<u8>,
) -> Result<(), AllocError>
    requires ready { IsReadyMerged session.old }
    requires feed { origin.feed < feeds_of session.old }
    requires range { IsInRange item }
    requires read { IsRead line.now item }
    requires exact { what_seen line.now item ≡ what_of line.now }
    ensures { OnOk result (BringsLine session.old session.new origin.feed (Plain origin.number line.now) out.old.items out.new.items) }
{
    if is_blank(&item) {
        return Ok(());
    }
    if session.feeds.ended(origin.feed) {
        return refuse(session, origin, Fault::Order, out);
    }
    take_ordered(alloc, session, origin, line, item, out)
}

/// Takes a line of a feed, and adds what it brings to the text. The vector is room for the line's
/// tokens.
pub fn take_feed_line(
    alloc: Global,
    session: &mut MergedSession,
    feed: u8,
    line: Line<'_>,
    tokens: &mut Vec<Token>,
    out: &mut Vec<u8>,
) -> Result<(), AllocError>
    requires ready { IsReadyMerged session.old }
    requires feed { feed < feeds_of session.old }
    requires short { IsShort (seen line) }
    ensures { OnOk result (BringsLine session.old session.new feed (seen line.entry) out.old.items out.new.items) }
{
    match line {
        Line::Long { number } => refuse(session, Origin { feed, number }, Fault::Long, out),
        Line::Plain { number, bytes } => {
            let origin = Origin { feed, number };
            match read_item(alloc, bytes, tokens) {
                Ok(item) => take_item(alloc, session, origin, bytes, item, out),
                Err(ItemRefused::Form) => refuse(session, origin, Fault::Form, out),
                Err(ItemRefused::Memory) => Err(AllocError),
            }
        }
    }
}
