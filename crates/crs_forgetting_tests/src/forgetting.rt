//! What an engine forgets of the entries that lie further back than its chronicles reach.
ghost use Rattle.std.specs.Prelude.{◌≡◌, ◌<◌, ◌^◌};

use crs_base::{Entry, Steps, Sym, SymList, Symbols, Text, is_symbol};
use crs_compile::compile;
use crs_engine::{Engine, Refused};
use crs_parse::read_models;
use std::alloc::Global;
use std::marker::Brand;
use std::sync::ledger::{Blank, Ledger};
use std::test::Fail;

/// A valve that is open from one burn to the next, five ticks later.
const VALVE: &[u8] = b"attribute valve 1 in (open, closed)
message burn 1
chronicle h {
event(burn[?s], t1)
event(burn[?s], t2)
t2 - t1 in [5, 5]
hold(valve[?s]: open, (t1, t2))
}
";

/// An engine of the models, whose symbols go into the table.
fn engine_of(alloc: Global, models: &[u8], symbols: &mut Symbols) -> Result<Engine, Fail> {
    let models = read_models(alloc, models, symbols)?;
    let plans = compile(alloc, models)?;
    Ok(Engine::new(alloc, plans, false, 9)?)
}

fn symbol(symbols: &mut Symbols, text: &[u8]) -> Result<Sym, Fail> {
    if !is_symbol(text) {
        return Err("no symbol".into());
    }
    Ok(symbols.intern(text)?)
}

/// Takes in the next entry, which has one argument.
fn feed(
    engine: &mut Engine,
    alloc: Global,
    date: u64,
    name: Sym,
    arg: Sym,
    change: Option<(Sym, Sym)>,
) -> Result<(), Fail>
    requires { date < 2 ^ 40 }
{
    let next = Entry {
        arrival: engine.accepted(),
        date,
        name,
        args: SymList::from_slice(&[arg]),
        change,
        text: Text::new(alloc, b"")?,
    };
    engine.accept(next)?;
    Ok(())
}

/// A valve that opens at 8, and burns at 10 and 15.
fn feed_valve(engine: &mut Engine, alloc: Global, symbols: &mut Symbols) -> Result<(), Fail> {
    let valve = symbol(symbols, b"valve")?;
    let burn = symbol(symbols, b"burn")?;
    let closed = symbol(symbols, b"closed")?;
    let open = symbol(symbols, b"open")?;
    let s1 = symbol(symbols, b"s1")?;
    feed(engine, alloc, 8, valve, s1, Some((closed, open)))?;
    feed(engine, alloc, 10, burn, s1, None)?;
    feed(engine, alloc, 15, burn, s1, None)
}

/// A date of the clock, how many recognitions are new there, and how many entries the history then has.
#[derive(Clone, Copy)]
struct Marked(u32, usize, usize);

/// Moves the clock on, and says whether the engine answers as it is to.
fn meets<L: Ledger>(
    engine: &mut Engine,
    counter: &mut Steps<L>,
    mark: &Marked,
) -> Result<bool, Refused> {
    let Marked(date, new, entries) = *mark;
    let answer = engine.clock(date as u64, counter)?;
    Ok(answer.len() == new && engine.history().len() == entries)
}

/// The place of the first mark at which an engine of the valve answers otherwise.
fn first_unmet_by<L: Ledger>(
    alloc: Global,
    engine: &mut Engine,
    counter: &mut Steps<L>,
    symbols: &mut Symbols,
    marks: &[Marked],
) -> Result<Option<usize>, Fail> {
    feed_valve(engine, alloc, symbols)?;
    for (place, mark) in marks.iter().enumerate() {
        if !meets(engine, counter, mark)? {
            return Ok(Some(place));
        }
    }
    Ok(None)
}

/// The same of an engine and a counter of its own.
fn first_unmet_apart<L: Ledger>(
    blank: Blank,
    alloc: Global,
    mut engine: Engine,
    symbols: &mut Symbols,
    marks: &[Marked],
) -> Result<Option<usize>, Fail>
    requires name { blank.name ≡ L.name }
    requires parts { blank.parts ≡ L.parts }
    requires some { 0 < L.parts }
{
    let counter = &mut Steps::<L>::new(blank);
    first_unmet_by(alloc, &mut engine, counter, symbols, marks)
}

/// The same of a new engine of the valve.
fn first_unmet(alloc: Global, marks: &[Marked]) -> Result<Option<usize>, Fail> {
    let mut symbols = Symbols::new(alloc, 20)?;
    let engine = engine_of(alloc, VALVE, &mut symbols)?;
    first_unmet_apart::<Brand>(Blank::new(1), alloc, engine, &mut symbols, marks)
}

#[test]
fn the_last_change_before_the_floor_is_kept(rt: HostRuntime) -> Result<(), Fail> {
    let marks = &[
        // the floor is 11: the change at 8 still tells the value, and the entry at 10 goes
        Marked(16, 1, 2),
        // the floor is 25
        Marked(30, 0, 1),
    ];
    assert_eq!(rt; first_unmet(rt.alloc(), marks)?, None);
    Ok(())
}
