// Strata take in entries.
ghost use Rattle.std.specs.Prelude.{◌≡◌, ◌<◌, ◌≤◌, ◌^◌, ℕ, length, IfOk, OnOk, Err};
ghost use Rattle.std.specs.List.{AllByRecursion, AllZip};
ghost use Rattle.crs_base.specs.Seen.{entry_of};
ghost use Rattle.crs_layers.specs.Accepting.{IsSameLayer, IsDelayed, IsReady, HasLogged};

use crate::layer::Layer;
use crs_base::{Entry, Sym, SymList, Text};
use crs_engine::Refused;
use std::alloc::{AllocError, Global};

/// Memory was wanting, as the parts of strata say it.
#[derive(Clone, Copy, Debug, Drop)]
pub(crate) struct NoMemory;

impl From<AllocError> for NoMemory {
    fn from(_error: AllocError) -> NoMemory {
        NoMemory
    }
}

/// A list of these symbols. No list holds more than 8.
pub(crate) fn symbol_list(symbols: &[Sym]) -> Result<SymList, AllocError>
    ensures { IfOk result (λ l. l ≡ symbols.now) }
{
    if symbols.len() > 8 {
        return Err(AllocError);
    }
    Ok(SymList::from_slice(symbols))
}

/// The same entry with another arrival number.
pub(crate) fn with_arrival(alloc: Global, entry: &Entry, arrival: u32) -> Result<Entry, AllocError>
    ensures { IfOk result (λ e. entry_of e ≡ record (entry_of entry.now) { arrival = arrival }) }
{
    Ok(Entry {
        arrival,
        date: entry.date,
        name: entry.name,
        args: symbol_list(entry.args.as_slice())?,
        change: entry.change,
        text: Text::new(alloc, entry.text.bytes())?,
    })
}

/// One stratum takes in an entry, which gets the next arrival number there.
///
/// This and the calls that lead to it are inlined: where there is one stratum, an event then costs 1 %
/// less.
#[inline(always)]
pub(crate) fn log_one(layer: &mut Layer, mut entry: Entry) -> Result<(), NoMemory>
    requires ready { IsReady entry.date layer.old }
    requires date { entry.date < 2 ^ 40 }
    ensures same { IsSameLayer layer.old layer.new }
    ensures logged { OnOk result (HasLogged (entry_of entry) layer.old layer.new) }
{
    entry.arrival = layer.engine.accepted();
    match layer.engine.accept(entry) {
        Ok(()) => Ok(()),
        Err(Refused::Memory) => Err(NoMemory),
        Err(_) => unreachable!(),
    }
}

/// Each stratum takes in a copy of the entry, which gets the next arrival number there.
fn log_copies(alloc: Global, layers: &mut [Layer], entry: &Entry) -> Result<(), NoMemory>
    requires ready { AllByRecursion (IsReady entry.now.date) layers.old }
    requires date { entry.now.date < 2 ^ 40 }
    ensures same { AllZip IsSameLayer layers.old layers.new }
    ensures logged { OnOk result (AllZip (HasLogged (entry_of entry.now)) layers.old layers.new) }
{
    match layers.split_first_mut() {
        None => Ok(()),
        Some((first, rest)) => {
            let copy = with_arrival(alloc, entry, 0)?;
            log_one(first, copy)?;
            log_copies(alloc, rest, entry)
        }
    }
}

/// Each stratum takes in an entry, which gets the next arrival number there. The last one takes the
/// entry itself: where there is one stratum, the entry goes from its line to where it is held at once.
#[inline(always)]
pub(crate) fn log_all(alloc: Global, layers: &mut [Layer], entry: Entry) -> Result<(), NoMemory>
    requires ready { AllByRecursion (IsReady entry.date) layers.old }
    requires date { entry.date < 2 ^ 40 }
    ensures same { AllZip IsSameLayer layers.old layers.new }
    ensures logged { OnOk result (AllZip (HasLogged (entry_of entry)) layers.old layers.new) }
{
    match layers.split_last_mut() {
        None => Ok(()),
        Some((last, others)) => {
            log_copies(alloc, others, &entry)?;
            log_one(last, entry)
        }
    }
}

/// Each stratum's engine gets the delay, and as many ticks more as its horizon lies behind.
pub(crate) fn set_delays(layers: &mut [Layer], d: u64)
    requires small { d < 2 ^ 40 }
    requires near { AllByRecursion (λ l. l.behind ≤ 2 ^ 40) layers.old }
    ensures { AllZip (IsDelayed d) layers.old layers.new }
{
    match layers.split_first_mut() {
        None => {}
        Some((first, rest)) => {
            first.engine.set_delay(d + first.behind);
            set_delays(rest, d);
        }
    }
}
