ghost use Rattle.std.specs.Prelude.{◌≡◌, map, [], None};
ghost use Rattle.std.specs.List.{AllByRecursion};
ghost use Rattle.crs_model.specs.Hierarchy.{IsEmitLine};
ghost use Rattle.crs_model.specs.Plans.{chronicle};

use crate::plan::Plan;
use std::rc::Rc;

/// The closing line of the first chronicle that gives entries, counted from 1.
pub fn first_emit_line(plans: &[Rc<Plan>]) -> Option<u32>
    ensures line { IsEmitLine (map (λ r. chronicle r.value) plans.now) result }
    ensures none { result ≡ None → AllByRecursion (λ c. c.emits ≡ []) (map (λ r. chronicle r.value) plans.now) }
{
    match plans.split_first() {
        None => None,
        Some((plan, rest)) => {
            if plan.chronicle.emits.len() == 0 {
                return first_emit_line(rest);
            }
            Some(plan.chronicle.line)
        }
    }
}
