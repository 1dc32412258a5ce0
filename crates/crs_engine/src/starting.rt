ghost use Rattle.std.specs.Prelude.{◌≡◌, ◌≤◌, [], map, length, IfOk};
ghost use Rattle.std.specs.List.{AllByRecursion, list_any};
ghost use Rattle.crs_model.specs.Plans.{IsProper};
ghost use Rattle.crs_store.specs.Stores.{Stands};
ghost use Rattle.crs_engine.specs.Engines.{AreStoresOf};
ghost use Rattle.crs_engine.specs.Moves.{HasRanks};

use crs_model::Plan;
use crs_store::Store;
use std::alloc::{AllocError, Global};
use std::rc::Rc;

/// A store for each plan, in order, with these ranks of names.
pub(crate) fn stores_of(
    alloc: Global,
    plans: &[Rc<Plan>],
    focus: bool,
    ranks: &Rc<Vec<u32>>,
) -> Result<Vec<Store>, AllocError>
    requires proper { AllByRecursion (λ r. IsProper r.value) plans.now }
    requires few { length plans.now ≤ 64 }
    ensures of { IfOk result (λ v. AreStoresOf focus (map (λ r. r.value) plans.now) 0 v.items) }
    ensures stand { IfOk result (λ v. AllByRecursion (λ s. Stands s [] [] [] 0 0) v.items) }
    ensures ranks { IfOk result (λ v. AllByRecursion (HasRanks ranks.now.value.items) v.items) }
{
    let mut stores = Vec::new(alloc);
    for (number, plan) in plans.iter().enumerate() {
        let own = plan.clone()?;
        let shared = ranks.clone()?;
        stores.push(Store::with_ranks(alloc, own, number as u32, focus, shared)?)?;
    }
    Ok(stores)
}

/// Whether one of the plans is of a prompt chronicle.
pub(crate) fn has_prompt(plans: &[Rc<Plan>]) -> bool
    ensures { result ≡ list_any (λ p. p.chronicle.prompt) (map (λ r. r.value) plans.now) }
{
    match plans.split_first() {
        None => false,
        Some((first, rest)) => first.chronicle.prompt || has_prompt(rest),
    }
}
