// One line of a log.
ghost use Rattle.std.specs.Prelude.{◌≡◌, ◌≤◌, ◌<◌, ◌^◌, ℕ, false, OnOk};
ghost use Rattle.crs_log.specs.Given.{seen};
ghost use Rattle.crs_log.specs.Items.{Clock, Finish as LogEnd, Happens, IsItem};
ghost use Rattle.crs_log.specs.Reading.{number_of};
ghost use Rattle.crs_layers.specs.LayerStates.{horizon_in};
ghost use Rattle.crs_layers.specs.Runs.{after_ordered, after_line, after_what};
ghost use Rattle.crs_log.specs.ItemOf.{Is, what_of};
ghost use Rattle.crs_log.specs.SeenItems.{event_seen, happens_seen, text_of, what_seen, IsInRange, IsRead};
ghost use Rattle.crs_log.specs.SeenNames.{name_seen, IsTextAt};
ghost use Rattle.crs_log.specs.Known.{Named, known_of};
ghost use Rattle.std.specs.Prelude.{map, length};
ghost use Rattle.crs_session.specs.Session.{IsReady, BringsAll, full_in, ordered_what};
ghost use Rattle.crs_frames.specs.TableTexts.{IsShort, ArePrintable};
ghost use Rattle.crs_session.specs.Tallies.{with_refused};
ghost use Rattle.crs_frames.specs.Frames.{log_setting};
ghost use Rattle.crs_session.specs.Written.{with_text};
ghost use Rattle.crs_session.specs.Marked.{with_marked, counts_behind};
ghost use Rattle.crs_report.specs.OutputLines.{refusal_line};

use crate::output::Output;
use crate::session::Session;
use crs_base::{Steps, Sym, Token};
use crs_engine::Refused;
use crs_frames::is_blank;
use crs_layers::Marked;
use crs_log::naming::{NameRefused, known};
use crs_log::{
    EntryRefused, Item, ItemRefused, Known, Line, Raw, make_named, read_event, read_other,
};
use crs_report::Fault;
use std::alloc::{AllocError, Global};
use std::marker::Brand;
use std::sync::ledger::{Blank, Ledger};

/// Writes the refusal of a line.
fn refuse(
    session: &mut Session,
    number: u64,
    fault: Fault,
    out: &mut Output,
) -> Result<(), AllocError>
    ensures written { OnOk result (out.new ≡ with_text out.old (refusal_line number fault)) }
    ensures noted { OnOk result (session.new ≡ record session.old { counts = with_refused session.old.counts }) }
{
    out.push_refusal(number, fault)?;
    session.count_refused();
    Ok(())
}

/// Writes the lines of a mark's recognitions, and behind them that some stratum had no room for an entry
/// that it was given; counts both, and what is held behind the mark.
fn write_mark(
    session: &mut Session,
    number: u64,
    marked: Marked,
    out: &mut Output,
) -> Result<(), AllocError>
    requires printable { ArePrintable session.old.layers.plans session.old.symbols.texts marked.list }
    ensures written { OnOk result (out.new ≡ with_marked session.old number marked out.old) }
    ensures counted { OnOk result (session.new ≡ record session.old { counts = counts_behind session.old marked }) }
{
    let Marked { list, flood } = marked;
    session.count_mark(list.len());
    out.push_answer(session.layers.plans(), &session.symbols, list, session.cite)?;
    if flood {
        let limit = session.entries;
        refuse(session, number, Fault::Flood { limit }, out)?;
    }
    Ok(())
}

/// Takes a clock mark, with a step counter of its own.
fn take_clock<L: Ledger>(
    blank: Blank,
    session: &mut Session,
    number: u64,
    t: u64,
    out: &mut Output,
) -> Result<(), AllocError>
    requires ready { IsReady session.old }
    requires open { session.old.ended ≡ false }
    requires date { t < 2 ^ 40 }
    requires name { blank.name ≡ L.name }
    requires parts { blank.parts ≡ L.parts }
    requires some { 0 < L.parts }
    ensures { OnOk result (BringsAll session.old session.new number (λ f s. after_ordered (log_setting f) (full_in f s) s.log (Clock t)) out.old out.new) }
{
    let mut steps = Steps::<L>::new(blank);
    match session.layers.clock(t, &session.symbols, &mut steps) {
        Ok(marked) => write_mark(session, number, marked, out),
        Err(Refused::Back { t, last }) => refuse(session, number, Fault::Back { t, last }, out),
        Err(_) => Err(AllocError),
    }
}

/// Takes the end of the log's items, with a step counter of its own.
fn take_end<L: Ledger>(
    blank: Blank,
    session: &mut Session,
    number: u64,
    out: &mut Output,
) -> Result<(), AllocError>
    requires ready { IsReady session.old }
    requires open { session.old.ended ≡ false }
    requires name { blank.name ≡ L.name }
    requires parts { blank.parts ≡ L.parts }
    requires some { 0 < L.parts }
    ensures { OnOk result (BringsAll session.old session.new number (λ f s. after_ordered (log_setting f) (full_in f s) s.log LogEnd) out.old out.new) }
{
    let mut steps = Steps::<L>::new(blank);
    match session.layers.finish(&session.symbols, &mut steps) {
        Ok(marked) => {
            session.ended = true;
            write_mark(session, number, marked, out)
        }
        Err(_) => Err(AllocError),
    }
}

/// Accepts the event of a line, whose name has this number, and is declared with these arguments and
/// this value.
fn accept_event(
    alloc: Global,
    session: &mut Session,
    number: u64,
    line: &[u8],
    raw: &Raw,
    name: Sym,
    out: &mut Output,
) -> Result<(), AllocError>
    requires ready { IsReady session.old }
    requires item { IsItem line.now (Happens (event_seen line.now raw.now)) }
    requires date { raw.now.date < 2 ^ 40 }
    requires due { horizon_in session.old.layers ≤ raw.now.date }
    requires name { IsTextAt session.old.symbols.texts (text_of line.now raw.now.name) name }
    requires named { (place : ℕ) × (known_of (map (name_seen session.old.symbols.texts) session.old.layers.plans.names) (event_seen line.now raw.now) ≡ Named place) }
    ensures { OnOk result (BringsAll session.old session.new number (λ f s. after_ordered (log_setting f) (full_in f s) s.log (Happens (event_seen line.now raw.now))) out.old out.new) }
{
    if session.layers.is_full() {
        let limit = session.entries;
        return refuse(session, number, Fault::Full { limit }, out);
    }
    let arrival = session.layers.accepted();
    let entry = match make_named(alloc, line, raw, name, arrival, &mut session.symbols) {
        Ok(entry) => entry,
        Err(EntryRefused::Values { limit }) => {
            return refuse(session, number, Fault::Values { limit }, out);
        }
        Err(EntryRefused::Memory) => return Err(AllocError),
    };
    match session.layers.accept(entry) {
        Ok(()) => Ok(()),
        Err(_) => Err(AllocError),
    }
}

/// Takes an event.
fn take_event(
    alloc: Global,
    session: &mut Session,
    number: u64,
    line: &[u8],
    raw: &Raw,
    out: &mut Output,
) -> Result<(), AllocError>
    requires ready { IsReady session.old }
    requires item { IsItem line.now (Happens (event_seen line.now raw.now)) }
    requires date { raw.now.date < 2 ^ 40 }
    ensures { OnOk result (BringsAll session.old session.new number (λ f s. after_ordered (log_setting f) (full_in f s) s.log (Happens (event_seen line.now raw.now))) out.old out.new) }
{
    match session.layers.test_date(raw.date) {
        Ok(()) => {}
        Err(Refused::Late { date, horizon }) => {
            return refuse(session, number, Fault::Late { date, horizon }, out);
        }
        Err(_) => return Err(AllocError),
    }
    match known(line, raw, &session.layers.plans().names, &session.symbols) {
        Ok(Known::Name(_, name)) => { accept_event(alloc, session, number, line, raw, name, out) }
        Ok(Known::Other) => Ok(()),
        Err(NameRefused::Arity) => refuse(session, number, Fault::Arity, out),
        Err(NameRefused::Value) => refuse(session, number, Fault::Value, out),
    }
}

/// Takes an item that doesn't stand behind the end.
fn take_ordered(
    alloc: Global,
    session: &mut Session,
    number: u64,
    line: &[u8],
    item: &Item,
    out: &mut Output,
) -> Result<(), AllocError>
    requires ready { IsReady session.old }
    requires open { session.old.ended ≡ false }
    requires range { IsInRange item.now }
    requires read { IsRead line.now item.now }
    ensures { OnOk result (BringsAll session.old session.new number (λ f s. ordered_what (log_setting f) (full_in f s) s.log (what_seen line.now item.now)) out.old out.new) }
{
    match item {
        Item::Blank => Ok(()),
        Item::Delay(delay) => {
            session.layers.set_delay(*delay);
            Ok(())
        }
        Item::Clock(t) => take_clock::<Brand>(Blank::new(1), session, number, *t, out),
        Item::Finish => take_end::<Brand>(Blank::new(1), session, number, out),
        Item::Event(raw) => take_event(alloc, session, number, line, raw, out),
    }
}

/// Takes what a line is.
fn take_item(
    alloc: Global,
    session: &mut Session,
    number: u64,
    line: &[u8],
    item: &Item,
    out: &mut Output,
) -> Result<(), AllocError>
    requires ready { IsReady session.old }
    requires range { IsInRange item.now }
    requires read { IsRead line.now item.now }
    ensures { OnOk result (BringsAll session.old session.new number (λ f s. after_what (log_setting f) (full_in f s) s.log (what_seen line.now item.now)) out.old out.new) }
{
    if is_blank(item) {
        return Ok(());
    }
    if session.ended {
        return refuse(session, number, Fault::Order, out);
    }
    take_ordered(alloc, session, number, line, item, out)
}

/// Takes what a line is that is seen to be an event.
fn take_happening(
    alloc: Global,
    session: &mut Session,
    number: u64,
    line: &[u8],
    raw: &Raw,
    out: &mut Output,
) -> Result<(), AllocError>
    requires ready { IsReady session.old }
    requires read { what_of line.now ≡ Is (happens_seen line.now raw.now) }
    requires date { raw.now.date < 2 ^ 40 }
    ensures { OnOk result (BringsAll session.old session.new number (λ f s. after_what (log_setting f) (full_in f s) s.log (what_of line.now)) out.old out.new) }
{
    if session.ended {
        return refuse(session, number, Fault::Order, out);
    }
    take_event(alloc, session, number, line, raw, out)
}

/// Takes what a line is, which isn't seen to be an event.
fn take_other(
    alloc: Global,
    session: &mut Session,
    number: u64,
    line: &[u8],
    tokens: &mut Vec<Token>,
    out: &mut Output,
) -> Result<(), AllocError>
    requires ready { IsReady session.old }
    requires short { length line.now ≤ 4096 }
    ensures { OnOk result (BringsAll session.old session.new number (λ f s. after_what (log_setting f) (full_in f s) s.log (what_of line.now)) out.old out.new) }
{
    match read_other(alloc, line, tokens) {
        Ok(item) => take_item(alloc, session, number, line, &item, out),
        Err(ItemRefused::Form) => refuse(session, number, Fault::Form, out),
        Err(ItemRefused::Memory) => Err(AllocError),
    }
}

/// Room for the parts of a line, which is used again at the next one.
#[derive(Drop)]
pub struct Room {
    raw: Raw,
    tokens: Vec<Token>,
}

impl Room {
    /// Room for a line of any length. Nothing is read of what it holds before one is taken.
    pub fn new(alloc: Global) -> Room {
        Room {
            raw: Raw::new(alloc),
            tokens: Vec::new(alloc),
        }
    }
}

/// Takes a line, and adds what it brings to the text.
pub fn take_line(
    alloc: Global,
    session: &mut Session,
    line: Line<'_>,
    room: &mut Room,
    out: &mut Output,
) -> Result<(), AllocError>
    requires ready { IsReady session.old }
    requires short { IsShort (seen line) }
    ensures { OnOk result (BringsAll session.old session.new (number_of (seen line.entry)) (λ f s. after_line (log_setting f) (full_in f s) s.log (seen line.entry)) out.old out.new) }
{
    match line {
        Line::Long { number } => refuse(session, number, Fault::Long, out),
        Line::Plain { number, bytes } => {
            if read_event(bytes, &mut room.raw)? {
                return take_happening(alloc, session, number, bytes, &room.raw, out);
            }
            take_other(alloc, session, number, bytes, &mut room.tokens, out)
        }
    }
}
