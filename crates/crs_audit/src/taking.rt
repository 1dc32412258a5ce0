// The lines of a log, one after another.
ghost use Rattle.std.specs.Prelude.{◌≡◌, ◌<◌, ◌≤◌, ◌+◌, ◌^◌, true, false, [], length, map, drop, ℕ, List as Items, IfOk, OnOk};
ghost use Rattle.crs_base.specs.Lines.{lines_of, bytes_of};
ghost use Rattle.crs_base.specs.SeenLines.{line_seen};
ghost use Rattle.crs_log.specs.Items.{Clock, Finish as LogEnd, Happens, IsItem};
ghost use Rattle.crs_log.specs.Run.{after_named, after_ordered, after_what};
ghost use Rattle.crs_log.specs.SeenItems.{event_seen, text_of, what_seen, IsInRange, IsRead};
ghost use Rattle.crs_log.specs.SeenNames.{IsTextAt};
ghost use Rattle.crs_audit.specs.LogTexts.{IsTextIn, Gains, GainsOnlyOf};
ghost use Rattle.crs_audit.specs.Runs.{IsReady, TakesAll, HasSetting, ReadsAllOn, IsLogOfAll};
ghost use Rattle.crs_audit.specs.Ordered.{is_blank_what, ordered_what, after_raw};

use crate::run::{END, Log, Run, ended};
use crs_base::{List, RawLine, Sym, Symbols, Token, first_line, is_long, line_bytes};
use crs_log::naming::known;
use crs_log::{EntryRefused, Item, ItemRefused, Known, Raw, make_named, read_item};
use crs_model::Name;
use std::alloc::{AllocError, Global};
use std::rc::Rc;

/// Accepts the event of a line, whose name has this number, where there is room for it.
fn accept_event(
    alloc: Global,
    names: &List<Name>,
    limit: u32,
    symbols: &mut Symbols,
    run: &mut Run,
    line: &[u8],
    raw: &Raw,
    name: Sym,
) -> Result<(), AllocError>
    requires ready { IsReady names.now limit symbols.old run.old }
    requires item { IsItem line.now (Happens (event_seen line.now raw.now)) }
    requires date { raw.now.date < 2 ^ 40 }
    requires name { IsTextAt symbols.old.texts (text_of line.now raw.now.name) name }
    requires arity { length raw.now.args ≤ 8 }
    ensures taken { OnOk result (TakesAll names.now limit symbols.old symbols.new run.old run.new (λ c s. after_named c s (event_seen line.now raw.now))) }
    ensures gained { Gains (IsTextIn line.now) symbols.old symbols.new }
{
    let count = run.entries.len();
    if limit as usize <= count {
        return Ok(());
    }
    match make_named(alloc, line, raw, name, count as u32, symbols) {
        Ok(entry) => run.entries.push(Rc::new(alloc, entry)?),
        Err(EntryRefused::Values { limit: _ }) => Ok(()),
        Err(EntryRefused::Memory) => Err(AllocError),
    }
}

/// Takes an event.
fn take_event(
    alloc: Global,
    names: &List<Name>,
    limit: u32,
    symbols: &mut Symbols,
    run: &mut Run,
    line: &[u8],
    raw: &Raw,
) -> Result<(), AllocError>
    requires ready { IsReady names.now limit symbols.old run.old }
    requires item { IsItem line.now (Happens (event_seen line.now raw.now)) }
    requires date { raw.now.date < 2 ^ 40 }
    ensures taken { OnOk result (TakesAll names.now limit symbols.old symbols.new run.old run.new (λ c s. after_ordered c s (Happens (event_seen line.now raw.now)))) }
    ensures gained { Gains (IsTextIn line.now) symbols.old symbols.new }
{
    if raw.date < run.horizon {
        return Ok(());
    }
    match known(line, raw, names, symbols) {
        Ok(Known::Name(_, name)) => {
            accept_event(alloc, names, limit, symbols, run, line, raw, name)
        }
        Ok(Known::Other) => Ok(()),
        Err(_) => Ok(()),
    }
}

/// Takes a clock mark.
fn take_clock(
    names: &List<Name>,
    limit: u32,
    symbols: &Symbols,
    run: &mut Run,
    t: u64,
) -> Result<(), AllocError>
    requires ready { IsReady names.now limit symbols.now run.old }
    requires date { t < 2 ^ 40 }
    ensures { OnOk result (TakesAll names.now limit symbols.now symbols.now run.old run.new (λ c s. after_ordered c s (Clock t))) }
{
    if t < run.last {
        return Ok(());
    }
    let horizon = run.horizon.max(t.saturating_sub(run.delay));
    run.put_mark(t, horizon)
}

/// Takes the end of the log's items.
fn take_end(
    names: &List<Name>,
    limit: u32,
    symbols: &Symbols,
    run: &mut Run,
) -> Result<(), AllocError>
    requires { IsReady names.now limit symbols.now run.old }
    ensures { OnOk result (TakesAll names.now limit symbols.now symbols.now run.old run.new (λ c s. after_ordered c s LogEnd)) }
{
    run.ended = true;
    run.put_mark(END, END)
}

/// Takes an item that doesn't stand behind the end.
fn take_ordered(
    alloc: Global,
    names: &List<Name>,
    limit: u32,
    symbols: &mut Symbols,
    run: &mut Run,
    line: &[u8],
    item: Item,
) -> Result<(), AllocError>
    requires ready { IsReady names.now limit symbols.old run.old }
    requires range { IsInRange item }
    requires read { IsRead line.now item }
    ensures taken { OnOk result (TakesAll names.now limit symbols.old symbols.new run.old run.new (λ c s. ordered_what c s (what_seen line.now item))) }
    ensures gained { Gains (IsTextIn line.now) symbols.old symbols.new }
{
    match item {
        Item::Blank => Ok(()),
        Item::Delay(delay) => {
            run.delay = delay;
            Ok(())
        }
        Item::Clock(t) => take_clock(names, limit, symbols, run, t),
        Item::Finish => take_end(names, limit, symbols, run),
        Item::Event(raw) => take_event(alloc, names, limit, symbols, run, line, &raw),
    }
}

/// Whether the line is blank or a comment.
fn is_blank(item: &Item) -> bool
    ensures { (line : Items ℕ) → result ≡ is_blank_what (what_seen line item.now) }
{
    matches!(item, Item::Blank)
}

/// Takes what a line is.
fn take_item(
    alloc: Global,
    names: &List<Name>,
    limit: u32,
    symbols: &mut Symbols,
    run: &mut Run,
    line: &[u8],
    item: Item,
) -> Result<(), AllocError>
    requires ready { IsReady names.now limit symbols.old run.old }
    requires range { IsInRange item }
    requires read { IsRead line.now item }
    ensures taken { OnOk result (TakesAll names.now limit symbols.old symbols.new run.old run.new (λ c s. after_what c s (what_seen line.now item))) }
    ensures gained { Gains (IsTextIn line.now) symbols.old symbols.new }
{
    if is_blank(&item) {
        return Ok(());
    }
    if run.ended {
        return Ok(());
    }
    take_ordered(alloc, names, limit, symbols, run, line, item)
}

/// Takes a line. The vector is room for its tokens.
fn take_line(
    alloc: Global,
    names: &List<Name>,
    limit: u32,
    symbols: &mut Symbols,
    run: &mut Run,
    line: RawLine<'_>,
    tokens: &mut Vec<Token>,
) -> Result<(), AllocError>
    requires { IsReady names.now limit symbols.old run.old }
    ensures taken { OnOk result (TakesAll names.now limit symbols.old symbols.new run.old run.new (λ c s. after_raw c s (line_seen line.entry))) }
    ensures gained { Gains (IsTextIn (bytes_of (line_seen line.entry))) symbols.old symbols.new }
{
    if is_long(line) {
        return Ok(());
    }
    let bytes = line_bytes(line);
    match read_item(alloc, bytes, tokens) {
        Ok(item) => take_item(alloc, names, limit, symbols, run, bytes, item),
        Err(ItemRefused::Form) => Ok(()),
        Err(ItemRefused::Memory) => Err(AllocError),
    }
}

/// Takes each line of a log.
fn take_lines(
    alloc: Global,
    names: &List<Name>,
    limit: u32,
    symbols: &mut Symbols,
    log: &[u8],
) -> Result<Run, AllocError>
    requires { HasSetting names.now limit symbols.old }
    ensures read { IfOk result (λ run. ReadsAllOn names.now limit symbols.old symbols.new run (lines_of log.now) []) }
    ensures gained { GainsOnlyOf log.now symbols.old symbols.new }
{
    let mut run = Run::new(alloc);
    let mut tokens = Vec::new(alloc);
    let mut rest = log;
    while !rest.is_empty() {
        let (line, behind) = first_line(rest);
        take_line(alloc, names, limit, symbols, &mut run, line, &mut tokens)?;
        rest = behind;
    }
    Ok(run)
}

/// Reads a log.
pub fn read_log(
    alloc: Global,
    names: &List<Name>,
    limit: u32,
    symbols: &mut Symbols,
    log: &[u8],
) -> Result<Log, AllocError>
    requires { HasSetting names.now limit symbols.old }
    ensures read { IfOk result (IsLogOfAll names.now limit symbols.old symbols.new (lines_of log.now)) }
    ensures gained { GainsOnlyOf log.now symbols.old symbols.new }
{
    let run = take_lines(alloc, names, limit, symbols, log)?;
    ended(alloc, run)
}
