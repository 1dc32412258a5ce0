// What lower strata recognise gives entries to the strata above.
ghost use Rattle.std.specs.Prelude.{◌≡◌, ◌<◌, ◌≤◌, ◌^◌, ◌||◌, [], ◌∷◌, map, IfOk, OnOk};
ghost use Rattle.std.specs.List.{AllByRecursion, AllZip, flat_map};
ghost use Rattle.crs_base.specs.Seen.{entry_of};
ghost use Rattle.crs_model.specs.Renaming.{text_in, IsPatternOf};
ghost use Rattle.crs_model.specs.SeenModels.{assignment_of, emit_of};
ghost use Rattle.crs_layers.specs.Strata.{given_by};
ghost use Rattle.crs_model.specs.Plans.{chronicle};
ghost use Rattle.crs_engine.specs.Engines.{plans_of};
ghost use Rattle.crs_layers.specs.Accepting.{IsSameLayer};
ghost use Rattle.crs_layers.specs.Standing.{HasText};
ghost use Rattle.crs_layers.specs.Giving.{IsGoing, is_flooded_by, AreDue, HasTaken, HaveTaken, emits_at, given_of, IsWhole};

use crate::accepting::{NoMemory, log_one, with_arrival};
use crate::emitting::emitted;
use crate::layer::Layer;
use crs_base::{Entry, Symbols};
use crs_model::{Emit, Plans, Recognition};
use std::alloc::Global;

/// Whether one of two is so.
pub(crate) fn either(a: bool, b: bool) -> bool
    ensures { result ≡ (a || b) }
{
    a || b
}

/// Gives one stratum an entry. True where there is no room for it.
fn give_one(alloc: Global, layer: &mut Layer, entry: &Entry) -> Result<bool, NoMemory>
    requires going { IsGoing layer.old }
    requires due { layer.old.engine.horizon ≤ entry.now.date }
    requires date { entry.now.date < 2 ^ 40 }
    ensures same { IsSameLayer layer.old layer.new }
    ensures flood { IfOk result (λ b. b ≡ is_flooded_by 1 layer.old) }
    ensures taken { OnOk result (HasTaken (entry_of entry.now ∷ []) layer.old layer.new) }
{
    if layer.engine.is_full() {
        return Ok(true);
    }
    let copy = with_arrival(alloc, entry, 0)?;
    log_one(layer, copy)?;
    Ok(false)
}

/// Gives each stratum an entry. True where there is no room for it in one.
fn give_all(alloc: Global, above: &mut [Layer], entry: &Entry) -> Result<bool, NoMemory>
    requires going { AllByRecursion IsGoing above.old }
    requires due { AllByRecursion (λ l. l.engine.horizon ≤ entry.now.date) above.old }
    requires date { entry.now.date < 2 ^ 40 }
    ensures same { AllZip IsSameLayer above.old above.new }
    ensures taken { IfOk result (HaveTaken (entry_of entry.now ∷ []) above.old above.new) }
{
    match above.split_first_mut() {
        None => Ok(false),
        Some((first, rest)) => {
            let flood = give_one(alloc, first, entry)?;
            let more = give_all(alloc, rest, entry)?;
            Ok(either(flood, more))
        }
    }
}

/// Gives each stratum what a recognition gives by an emit. True where there is no room for it in one.
fn give_emit(
    alloc: Global,
    above: &mut [Layer],
    symbols: &Symbols,
    emit: &Emit,
    found: &Recognition,
) -> Result<bool, NoMemory>
    requires going { AllByRecursion IsGoing above.old }
    requires due { AreDue above.old (given_by (text_in symbols.now.texts) (assignment_of found.now) (emit_of emit.now)) }
    requires whole { IsWhole symbols.now.texts found.now }
    requires pattern { IsPatternOf (HasText symbols.now.texts) (emit_of emit.now).pattern }
    ensures same { AllZip IsSameLayer above.old above.new }
    ensures taken { IfOk result (HaveTaken (given_by (text_in symbols.now.texts) (assignment_of found.now) (emit_of emit.now)) above.old above.new) }
{
    match found.entries.get(emit.event as usize) {
        None => Ok(false),
        Some(bound) => {
            let entry = emitted(alloc, symbols, emit, &found.binding, bound)?;
            give_all(alloc, above, &entry)
        }
    }
}

/// Gives each stratum what a recognition gives, emit by emit. True where there is no room for all of it
/// in one.
fn give_emits(
    alloc: Global,
    above: &mut [Layer],
    symbols: &Symbols,
    emits: &[Emit],
    found: &Recognition,
) -> Result<bool, NoMemory>
    requires going { AllByRecursion IsGoing above.old }
    requires due { AreDue above.old (flat_map (given_by (text_in symbols.now.texts) (assignment_of found.now)) (map emit_of emits.now)) }
    requires whole { IsWhole symbols.now.texts found.now }
    requires patterns { AllByRecursion (λ e. IsPatternOf (HasText symbols.now.texts) e.pattern) (map emit_of emits.now) }
    ensures same { AllZip IsSameLayer above.old above.new }
    ensures taken { IfOk result (HaveTaken (flat_map (given_by (text_in symbols.now.texts) (assignment_of found.now)) (map emit_of emits.now)) above.old above.new) }
{
    match emits.split_first() {
        None => Ok(false),
        Some((emit, rest)) => {
            let flood = give_emit(alloc, above, symbols, emit, found)?;
            let more = give_emits(alloc, above, symbols, rest, found)?;
            Ok(either(flood, more))
        }
    }
}

/// The emits of the plan with this number.
fn emits_of(plans: &Plans, number: u32) -> &[Emit]
    ensures { map emit_of result.now ≡ emits_at (plans_of plans.now) number }
{
    match plans.plans.get(number as usize) {
        None => &[],
        Some(plan) => plan.chronicle.emits.as_slice(),
    }
}

/// Gives each stratum what recognitions give, one after another. True where there is no room for all of
/// it in one.
///
/// It is a loop, and not a call for the rest as those above: a stratum has a few emits, but a mark may
/// have more recognitions than the stack has room for calls (160,000 overflow 8 MB).
pub(crate) fn give_found(
    alloc: Global,
    above: &mut [Layer],
    symbols: &Symbols,
    plans: &Plans,
    answer: &[Recognition],
) -> Result<bool, NoMemory>
    requires going { AllByRecursion IsGoing above.old }
    requires due { AreDue above.old (flat_map (given_of (text_in symbols.now.texts) (plans_of plans.now)) answer.now) }
    requires whole { AllByRecursion (IsWhole symbols.now.texts) answer.now }
    requires patterns { AllByRecursion (λ p. AllByRecursion (λ e. IsPatternOf (HasText symbols.now.texts) e.pattern) (chronicle p).emits) (plans_of plans.now) }
    ensures same { AllZip IsSameLayer above.old above.new }
    ensures taken { IfOk result (HaveTaken (flat_map (given_of (text_in symbols.now.texts) (plans_of plans.now)) answer.now) above.old above.new) }
{
    let mut flood = false;
    for found in answer {
        let emits = emits_of(plans, found.chronicle);
        let more = give_emits(alloc, above, symbols, emits, found)?;
        flood = either(flood, more);
    }
    Ok(flood)
}
