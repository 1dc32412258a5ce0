//! Levels: which level of a chronicle's events comes next.
ghost use Rattle.crs_model.specs.Plans.{IsProper};

use crs_base::Symbols;
use crs_compile::compile;
use crs_focus::current_level;
use crs_model::Plan;
use crs_parse::read_models;
use std::process::Abort;
use std::test::Fail;

/// Three events of the levels 5, 2 and 3.
const MODELS: &[u8] = b"message a 0
chronicle c {
  event(a, t1) level 5
  event(a, t2) level 2
  event(a, t3) level 3
}
";

/// The level that comes next with each of these bound, by bits: with levels read, and without.
fn check_levels(rt: &impl Abort, plan: &Plan)
    requires { IsProper plan.now }
{
    for (bound, level, flat) in [
        (0, Some(2), Some(0)),
        (1, Some(2), Some(0)),
        (2, Some(3), Some(0)),
        (6, Some(5), Some(0)),
        (7, None, None),
    ] {
        assert!(rt; current_level(plan, bound, true) == level, "bound {bound}");
        assert!(rt; current_level(plan, bound, false) == flat, "bound {bound}");
    }
}

#[test]
fn the_least_level_comes_first(rt: HostRuntime) -> Result<(), Fail> {
    let alloc = rt.alloc();
    let mut symbols = Symbols::new(alloc, 9)?;
    let models = read_models(alloc, MODELS, &mut symbols)?;
    let plans = compile(alloc, models)?;
    let Some(plan) = plans.plans.get(0) else {
        return Err(Fail::new("no plan"));
    };
    check_levels(&rt, plan);
    Ok(())
}
