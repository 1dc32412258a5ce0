//! Two feeds over one chronicle, and the lines that they give.
ghost use Rattle.std.specs.Prelude.{◌≡◌, ◌<◌, false, get_or, length, OnOk, IfOk};
ghost use Rattle.crs_feeds.specs.Merged.{new_feed};

use crs_base::{Entry, Steps, Sym, SymList, Symbols, Text};
use crs_compile::compile;
use crs_engine::Refused;
use crs_feeds::{Feeds, Rise};
use crs_model::Mark;
use crs_parse::read_models;
use std::alloc::{AllocError, Global};
use std::marker::Brand;
use std::sync::ledger::{Blank, Ledger};
use std::test::Fail;

/// An `a`, and a `b` 1 to 5 ticks later.
pub(crate) const PLAIN: &[u8] = b"message a 0
message b 0
chronicle c {
  event(a, t1)
  event(b, t2)
  t2 - t1 in [1, 5]
}
";

/// The same, recognised before it is settled.
pub(crate) const PROMPT: &[u8] = b"message a 0
message b 0
prompt chronicle c {
  event(a, t1)
  event(b, t2)
  t2 - t1 in [1, 5]
}
";

/// The symbols of the two names.
pub(crate) const A: Sym = Sym(0);

pub(crate) const B: Sym = Sym(1);

/// Which of the two feeds gives a line.
#[derive(Clone, Copy)]
pub(crate) enum From {
    First,
    Second,
}

impl From {
    fn number(self) -> u8
        ensures { result < 2 }
    {
        match self {
            From::First => 0,
            From::Second => 1,
        }
    }
}

/// What a line says.
#[derive(Clone, Copy)]
pub(crate) enum Says {
    Delay(u32),
    Event(u32, Sym),
    Clock(u32),
    End,
}

/// What comes of a line: a refusal, or a rise with the dates of its first recognition.
#[derive(Clone, Copy, PartialEq, Eq)]
pub(crate) enum Came {
    Nothing,
    Refused(Refused),
    Rose(Mark, Option<(u64, u64)>),
}

/// What the feeds are given or asked, and what they are to answer.
#[derive(Clone, Copy)]
pub(crate) enum Step {
    /// What comes of a line of a feed that hasn't ended.
    Line(From, Says, Came),
    /// The common horizon.
    Horizon(u64),
    /// How many entries were accepted.
    Accepted(u32),
    /// Whether as many entries were accepted as may be.
    Full(bool),
    /// Whether a feed has ended.
    Ended(From, bool),
    /// How many plans there are.
    Plans(usize),
}

/// Two feeds over the chronicle of a text, that accept at most `limit` entries.
fn two_feeds(alloc: Global, text: &[u8], limit: u32) -> Result<Feeds, Fail>
    ensures { IfOk result (λ f. length f.feeds ≡ 2) }
{
    let mut symbols = Symbols::new(alloc, 9)?;
    let models = read_models(alloc, text, &mut symbols)?;
    let plans = compile(alloc, models)?;
    Ok(Feeds::new(alloc, plans, false, limit, 2)?)
}

/// Takes in an event, as the next entry.
fn accept(
    alloc: Global,
    feeds: &mut Feeds,
    feed: u8,
    date: u32,
    name: Sym,
) -> Result<Came, AllocError>
    requires two { length feeds.old.feeds ≡ 2 }
    requires number { feed < 2 }
    requires open { (get_or feeds.old.feeds feed new_feed).ended ≡ false }
    ensures { OnOk result (length feeds.new.feeds ≡ 2) }
{
    let entry = Entry {
        arrival: feeds.accepted(),
        date: date as u64,
        name,
        args: SymList::from_slice(&[]),
        change: None,
        text: Text::new(alloc, b"")?,
    };
    match feeds.accept(feed, entry) {
        Ok(()) => Ok(Came::Nothing),
        Err(refused) => Ok(Came::Refused(refused)),
    }
}

/// The dates of the first recognition of a rise.
fn told(rise: &Rise) -> Option<(u64, u64)> {
    let first = rise.list.get(0)?;
    let from = first.entries.get(0)?;
    let to = first.entries.get(1)?;
    Some((from.date, to.date))
}

/// What comes of a rise, where there is one.
fn rose(rise: Option<Rise>) -> Came {
    match rise {
        None => Came::Nothing,
        Some(rise) => Came::Rose(rise.mark, told(&rise)),
    }
}

/// Takes a line, and tells what comes of it.
fn take<L: Ledger>(
    alloc: Global,
    feeds: &mut Feeds,
    counter: &mut Steps<L>,
    feed: u8,
    says: Says,
) -> Result<Came, AllocError>
    requires two { length feeds.old.feeds ≡ 2 }
    requires number { feed < 2 }
    requires open { (get_or feeds.old.feeds feed new_feed).ended ≡ false }
    ensures { OnOk result (length feeds.new.feeds ≡ 2) }
{
    match says {
        Says::Delay(d) => {
            feeds.set_delay(feed, d as u64);
            Ok(Came::Nothing)
        }
        Says::Event(date, name) => accept(alloc, feeds, feed, date, name),
        Says::Clock(t) => match feeds.clock(feed, t as u64, counter) {
            Ok(rise) => Ok(rose(rise)),
            Err(Refused::Back { t, last }) => Ok(Came::Refused(Refused::Back { t, last })),
            Err(_) => Err(AllocError),
        },
        Says::End => match feeds.finish(feed, counter) {
            Ok(rise) => Ok(rose(rise)),
            Err(_) => Err(AllocError),
        },
    }
}

/// Takes one step, and says whether the feeds answer as they are to.
fn meets<L: Ledger>(
    alloc: Global,
    feeds: &mut Feeds,
    counter: &mut Steps<L>,
    step: &Step,
) -> Result<bool, AllocError>
    requires { length feeds.old.feeds ≡ 2 }
    ensures { OnOk result (length feeds.new.feeds ≡ 2) }
{
    match *step {
        Step::Line(from, says, came) => {
            let feed = from.number();
            if feeds.ended(feed) {
                return Ok(false);
            }
            Ok(take(alloc, feeds, counter, feed, says)? == came)
        }
        Step::Horizon(date) => Ok(feeds.horizon() == date),
        Step::Accepted(count) => Ok(feeds.accepted() == count),
        Step::Full(full) => Ok(feeds.is_full() == full),
        Step::Ended(from, ended) => Ok(feeds.ended(from.number()) == ended),
        Step::Plans(count) => Ok(feeds.plans().plans.len() == count),
    }
}

/// The place of the first step at which the feeds answer otherwise.
fn first_unmet_by<L: Ledger>(
    alloc: Global,
    feeds: &mut Feeds,
    counter: &mut Steps<L>,
    steps: &[Step],
) -> Result<Option<usize>, AllocError>
    requires { length feeds.old.feeds ≡ 2 }
{
    for (place, step) in steps.iter().enumerate() {
        if !meets(alloc, feeds, counter, step)? {
            return Ok(Some(place));
        }
    }
    Ok(None)
}

/// The same of feeds and a counter of its own.
fn first_unmet_apart<L: Ledger>(
    blank: Blank,
    alloc: Global,
    mut feeds: Feeds,
    steps: &[Step],
) -> Result<Option<usize>, AllocError>
    requires name { blank.name ≡ L.name }
    requires parts { blank.parts ≡ L.parts }
    requires some { 0 < L.parts }
    requires two { length feeds.feeds ≡ 2 }
{
    first_unmet_by(alloc, &mut feeds, &mut Steps::<L>::new(blank), steps)
}

/// The same of two new feeds over the chronicle of a text, that accept at most `limit` entries.
pub(crate) fn first_unmet(
    alloc: Global,
    text: &[u8],
    limit: u32,
    steps: &[Step],
) -> Result<Option<usize>, Fail> {
    let feeds = two_feeds(alloc, text, limit)?;
    Ok(first_unmet_apart::<Brand>(Blank::new(1), alloc, feeds, steps)?)
}
