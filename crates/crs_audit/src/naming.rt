// The chronicle of a name.
ghost use Rattle.std.specs.Prelude.{◌≡◌, ◌<◌, length, map, IfSome};
ghost use Rattle.std.specs.List.{AllByRecursion};
ghost use Rattle.crs_audit.specs.Audited.{chronicle_in, IsNameKnown, IsPlaceOf};

use crs_base::Symbols;
use crs_model::Plan;
use std::rc::Rc;

/// The place of the chronicle that has this name.
pub fn place_named(plans: &[Rc<Plan>], symbols: &Symbols, name: &[u8]) -> Option<usize>
    requires { AllByRecursion (IsNameKnown symbols.now.texts) plans.now }
    ensures place { IsPlaceOf (map (chronicle_in symbols.now.texts) plans.now) name.now result }
    ensures within { IfSome result (λ i. i < length plans.now) }
{
    for (i, plan) in plans.iter().enumerate() {
        if symbols.text(plan.chronicle.name) == name {
            return Some(i);
        }
    }
    None
}
