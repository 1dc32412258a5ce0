// Strata at the start.
ghost use Rattle.std.specs.Prelude.{◌≡◌, ◌<◌, ◌≤◌, ◌+◌, ◌-◌, ◌^◌, ◌++◌, ◌⊎◌, ℕ, [], length, map, zip, IfOk, OnOk};
ghost use Rattle.std.specs.List.{AllByRecursion};
ghost use Rattle.crs_engine.specs.Engines.{plans_of};
ghost use Rattle.crs_model.specs.Plans.{IsProper, chronicle};
ghost use Rattle.crs_model.specs.Hierarchy.{AreInOrder, AreStrata, lag_below};
ghost use Rattle.crs_model.specs.Reach.{IsLongest, IsReachOfAll, IsZero};
ghost use Rattle.crs_model.specs.ShortLags.{HaveShortLags};
ghost use Rattle.crs_layers.specs.LayerPlans.{picked, numbers_of, IsStratumEngine, IsNewLayer, AreNewLayers};
ghost use Rattle.crs_layers.specs.Strata.{strata_count};

use crate::layer::Layer;
use crs_base::List;
use crs_engine::Engine;
use crs_model::{Plan, Plans, lag_below};
use std::alloc::{AllocError, Global};
use std::rc::Rc;

/// The longer of two spans. None is infinite.
fn longer(a: Option<i64>, b: Option<i64>) -> Option<i64>
    ensures { IsLongest (λ s. (s ≡ a) ⊎ (s ≡ b)) result }
{
    match (a, b) {
        (Some(a), Some(b)) => Some(a.max(b)),
        _ => None,
    }
}

/// The longest of 0 and of the plans' reaches.
fn reach_of_all(plans: &[Rc<Plan>]) -> Option<i64>
    ensures { IsReachOfAll (map (λ p. p.reach) (map (λ r. r.value) plans.now)) result }
{
    match plans.split_first() {
        None => Some(0),
        Some((plan, rest)) => longer(plan.reach, reach_of_all(rest)),
    }
}

/// The plans of a stratum behind those that are there.
fn pick(
    own: &mut List<Rc<Plan>>,
    plans: &[Rc<Plan>],
    strata: &[u8],
    stratum: u8,
) -> Result<(), AllocError>
    ensures { OnOk result (map (λ r. r.value) own.new ≡ map (λ r. r.value) own.old ++ picked stratum (map (λ r. r.value) plans.now) strata.now) }
{
    match plans.split_first() {
        None => Ok(()),
        Some((plan, others)) => match strata.split_first() {
            None => Ok(()),
            Some((own_stratum, rest)) => {
                if *own_stratum == stratum {
                    own.push(plan.clone()?)?;
                }
                pick(own, others, rest, stratum)
            }
        },
    }
}

/// The numbers of the chronicles of a stratum behind those that are there, where the first has the
/// number `number`.
fn push_numbers(
    numbers: &mut List<u32>,
    strata: &[u8],
    stratum: u8,
    number: u32,
) -> Result<(), AllocError>
    requires { number + length strata.now < 2 ^ 32 }
    ensures { OnOk result (numbers.new ≡ numbers.old ++ numbers_of stratum number strata.now) }
{
    match strata.split_first() {
        None => Ok(()),
        Some((first, rest)) => {
            if *first == stratum {
                numbers.push(number)?;
            }
            push_numbers(numbers, rest, stratum, number + 1)
        }
    }
}

/// How many strata there are: one more than the highest of the chronicles.
pub(crate) fn count_of(strata: &[u8]) -> u8
    requires { AllByRecursion (λ k. k < 64) strata.now }
    ensures value { result ≡ strata_count strata.now }
    ensures few { result ≤ 64 }
{
    match strata.split_first() {
        None => 1,
        Some((first, rest)) => (*first + 1).max(count_of(rest)),
    }
}

/// The engine of a stratum, over its plans alone.
fn engine_of(
    alloc: Global,
    plans: &[Rc<Plan>],
    strata: &[u8],
    stratum: u8,
    focus: bool,
    limit: u32,
    ranks: &Rc<Vec<u32>>,
) -> Result<Engine, AllocError>
    requires proper { AllByRecursion (λ r. IsProper r.value) plans.now }
    requires few { length plans.now ≤ 64 }
    ensures { IfOk result (IsStratumEngine (picked stratum (map (λ r. r.value) plans.now) strata.now) focus limit) }
{
    let mut own = List::new(alloc);
    pick(&mut own, plans, strata, stratum)?;
    let reach = reach_of_all(own.as_slice());
    let plans_of_own = Plans {
        names: List::new(alloc),
        derived: List::new(alloc),
        plans: own,
        reach,
    };
    let shared = ranks.clone()?;
    Engine::with_ranks(alloc, plans_of_own, focus, limit, shared)
}

/// A new stratum, whose horizon lies the lags of the strata below it behind that of stratum 0.
fn layer_of(
    alloc: Global,
    plans: &[Rc<Plan>],
    strata: &[u8],
    stratum: u8,
    focus: bool,
    limit: u32,
    ranks: &Rc<Vec<u32>>,
) -> Result<Layer, AllocError>
    requires proper { AllByRecursion (λ r. IsProper r.value) plans.now }
    requires few { length plans.now ≤ 64 }
    requires numbers { length strata.now ≤ 64 }
    requires stratum { stratum < 64 }
    requires near { lag_below (zip strata.now (map (λ r. r.value.lag) plans.now)) stratum ≤ 2 ^ 40 }
    ensures { IfOk result (IsNewLayer (map (λ r. r.value) plans.now) strata.now focus limit stratum) }
{
    let mut numbers = List::new(alloc);
    push_numbers(&mut numbers, strata, stratum, 0)?;
    let mut engine = engine_of(alloc, plans, strata, stratum, focus, limit, ranks)?;
    let behind = lag_below(plans, strata, stratum);
    engine.set_delay(behind);
    Ok(Layer {
        engine,
        numbers,
        behind,
    })
}

/// The strata of plans at the start, from the lowest on.
pub(crate) fn layers_of(
    alloc: Global,
    plans: &[Rc<Plan>],
    strata: &[u8],
    focus: bool,
    limit: u32,
    ranks: &Rc<Vec<u32>>,
) -> Result<Vec<Layer>, AllocError>
    requires proper { AllByRecursion (λ r. IsProper r.value) plans.now }
    requires few { length plans.now ≤ 64 }
    requires numbers { length strata.now ≤ 64 }
    requires strata { AllByRecursion (λ k. k < 64) strata.now }
    requires near { (j : ℕ) → j < strata_count strata.now → lag_below (zip strata.now (map (λ r. r.value.lag) plans.now)) j ≤ 2 ^ 40 }
    ensures count { IfOk result (λ v. length v.items ≡ strata_count strata.now) }
    ensures new { IfOk result (λ v. AreNewLayers (map (λ r. r.value) plans.now) strata.now focus limit 0 v.items) }
{
    let mut layers = Vec::new(alloc);
    for stratum in 0..count_of(strata) {
        layers.push(layer_of(alloc, plans, strata, stratum, focus, limit, ranks)?)?;
    }
    Ok(layers)
}
