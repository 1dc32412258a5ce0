ghost use Rattle.std.specs.Prelude.{◌≡◌, List as Items, map, [], ◌∷◌, ◌++◌, IfOk, OnOk, IfErr};
ghost use Rattle.std.specs.List.{AllByRecursion};
ghost use Rattle.crs_base.specs.declared.symbols.Sym.{Sym};
ghost use Rattle.crs_model.specs.Models.{Name};
ghost use Rattle.crs_model.specs.ProperModels.{AreShort, IsProperChronicle, AreProper};
ghost use Rattle.crs_model.specs.Hierarchy.{AreInOrder};
ghost use Rattle.crs_model.specs.Plans.{IsProper, chronicle};
ghost use Rattle.crs_model.specs.SeenModels.{chronicle_of, models_of};
ghost use Rattle.crs_model.specs.Reach.{IsReachOfAll};
ghost use Rattle.crs_compile.specs.Compiled.{IsAdded, plans_in, chronicles_in, IsRefusal, IsModelsRefusal, refusal_of};
ghost use Rattle.crs_model.specs.ShortLags.{AreInTime, HaveShortLags};

use crate::lag::{lag_of, test_lags};
use crate::reach::{reach_of, reach_of_all};
use crs_base::List;
use crs_model::{Chronicle, ModelRefused, ModelWord, Models, Plan, Plans};
use crs_stn::{Network, StnRefused};
use std::alloc::{AllocError, Global};
use std::rc::Rc;

/// Why a chronicle that is closed at this line has no plan.
fn refusal(line: u32, why: StnRefused) -> ModelRefused
    ensures { result ≡ refusal_of line why }
{
    match why {
        StnRefused::Inconsistent { .. } => ModelRefused::At {
            line,
            word: ModelWord::Inconsistent,
        },
        StnRefused::Memory => ModelRefused::Memory,
    }
}

/// The plan of a chronicle.
fn plan_of(alloc: Global, chronicle: Chronicle) -> Result<Plan, ModelRefused>
    requires { (names : Items (Name Sym)) × AreShort names × IsProperChronicle names (chronicle_of chronicle) }
    ensures chronicle { IfOk result (λ plan. plan.chronicle ≡ chronicle) }
    ensures plan { IfOk result IsProper }
    ensures refused { IfErr result (IsRefusal (chronicle ∷ [])) }
{
    let points = chronicle.events.len() as u8 + chronicle.free.len() as u8;
    match Network::close(alloc, points, chronicle.bounds.as_slice()) {
        Err(why) => Err(refusal(chronicle.line, why)),
        Ok(network) => {
            let reach = reach_of(&network, &chronicle);
            let lag = lag_of(&network, &chronicle);
            Ok(Plan {
                chronicle,
                network,
                reach,
                lag,
            })
        }
    }
}

/// A plan behind those that are there.
fn push_shared(alloc: Global, plans: &mut List<Rc<Plan>>, plan: Plan) -> Result<(), AllocError>
    ensures { OnOk result (plans_in plans.new ≡ plans_in plans.old ++ plan ∷ []) }
{
    plans.push(Rc::new(alloc, plan)?)
}

/// The plan of a chronicle behind those that are there.
fn push_plan(
    alloc: Global,
    plans: &mut List<Rc<Plan>>,
    chronicle: Chronicle,
) -> Result<(), ModelRefused>
    requires { (names : Items (Name Sym)) × AreShort names × IsProperChronicle names (chronicle_of chronicle) }
    ensures plan { OnOk result (IsAdded chronicle (plans_in plans.old) (plans_in plans.new)) }
    ensures refused { IfErr result (IsRefusal (chronicle ∷ [])) }
{
    let plan = plan_of(alloc, chronicle)?;
    push_shared(alloc, plans, plan)?;
    Ok(())
}

/// The plans of the chronicles, in order.
fn plans_of(alloc: Global, chronicles: List<Chronicle>) -> Result<List<Rc<Plan>>, ModelRefused>
    requires { (names : Items (Name Sym)) × AreShort names × AllByRecursion (IsProperChronicle names) (map chronicle_of chronicles) }
    ensures chronicles { IfOk result (λ plans. chronicles_in plans ≡ chronicles) }
    ensures plans { IfOk result (λ plans. AllByRecursion IsProper (plans_in plans)) }
    ensures refused { IfErr result (IsRefusal chronicles) }
{
    let mut plans = List::new(alloc);
    for chronicle in chronicles.into_vec() {
        push_plan(alloc, &mut plans, chronicle)?;
    }
    Ok(plans)
}

/// The plans of models, in file order. It is refused exactly where no whole dates meet some
/// chronicle's bounds, with the closing line of the first such chronicle, or where the lags are too long,
/// with that of the first chronicle with which they are. The models are dropped
/// at a refusal.
pub fn compile(alloc: Global, models: Models) -> Result<Plans, ModelRefused>
    requires { AreProper (models_of models) }
    ensures names { IfOk result (λ plans. plans.names ≡ models.names) }
    ensures derived { IfOk result (λ plans. plans.derived ≡ models.derived) }
    ensures chronicles { IfOk result (λ plans. chronicles_in plans.plans ≡ models.chronicles) }
    ensures plans { IfOk result (λ plans. AllByRecursion IsProper (plans_in plans.plans)) }
    ensures reach { IfOk result (λ plans. IsReachOfAll (map (λ p. p.reach) (plans_in plans.plans)) plans.reach) }
    ensures in_order { IfOk result (λ plans. AreInOrder (map (λ r. chronicle r.value) plans.plans)) }
    ensures in_time { IfOk result (λ _plans. AreInTime Sym (models_of models).chronicles) }
    ensures lags { IfOk result (λ plans. HaveShortLags (plans_in plans.plans)) }
    ensures refused { IfErr result (IsModelsRefusal models.chronicles) }
{
    let Models {
        names,
        derived,
        chronicles,
    } = models;
    let plans = plans_of(alloc, chronicles)?;
    test_lags(alloc, plans.as_slice())?;
    let reach = reach_of_all(plans.as_slice());
    Ok(Plans {
        names,
        derived,
        plans,
        reach,
    })
}
