ghost use Rattle.std.specs.Prelude.{◌≡◌, ◌⊎◌, ◌<◌, ◌≤◌, ◌+◌, ◌*◌, ◌^◌, length, map, zip, true, false, IfOk, OnOk, ◌++◌};
ghost use Rattle.std.specs.List.{AllByRecursion, flat_map};
ghost use Rattle.crs_base.specs.Words.{IsIn};
ghost use Rattle.crs_model.specs.Hierarchy.{IsGreatest, IsAboveBy, used, wanted, AreInOrder, AreStrata, ticks_of, lag_at, lag_below};
ghost use Rattle.crs_model.specs.Reach.{IsSmallSpan};
ghost use Rattle.crs_model.specs.Plans.{chronicle};
ghost use Rattle.crs_model.specs.SeenModels.{emit_of, event_of, window_of, body_of, chronicle_of};

use crate::chronicle::{Body, Chronicle, Emit, EventDef, Window};
use crate::plan::Plan;
use crs_base::Sym;
use std::alloc::{AllocError, Global};
use std::rc::Rc;

/// Whether one of the emits gives an entry of this name.
fn emits(emits_of: &[Emit], name: Sym) -> bool
    ensures yes { result ≡ true → IsIn name (map (λ e. e.pattern.name) (map emit_of emits_of.now)) }
    ensures no { result ≡ false → IsIn name (map (λ e. e.pattern.name) (map emit_of emits_of.now)) → ⊥ }
{
    match emits_of.split_first() {
        None => false,
        Some((emit, rest)) => {
            if emit.pattern.name == name {
                return true;
            }
            emits(rest, name)
        }
    }
}

/// The greatest of 0 and of one more than the strata of the plans that emit a name.
fn above(plans: &[Rc<Plan>], strata: &[u8], name: Sym) -> u8
    requires { AllByRecursion (λ k. k < 64) strata.now }
    ensures { IsGreatest (λ m. (m ≡ 0) ⊎ IsAboveBy (zip (map (λ r. chronicle r.value) plans.now) strata.now) name m) result }
{
    match plans.split_first() {
        None => 0,
        Some((plan, others)) => match strata.split_first() {
            None => 0,
            Some((stratum, rest)) => {
                let most = above(others, rest, name);
                if emits(plan.chronicle.emits.as_slice(), name) {
                    most.max(*stratum + 1)
                } else {
                    most
                }
            }
        },
    }
}

/// The greatest of 0 and of one more than the strata of the plans that emit one of these names.
fn above_all(plans: &[Rc<Plan>], strata: &[u8], names: &[Sym]) -> u8
    requires { AllByRecursion (λ k. k < 64) strata.now }
    ensures { IsGreatest (λ m. (m ≡ 0) ⊎ ((x : Sym) × IsIn x names.now × IsAboveBy (zip (map (λ r. chronicle r.value) plans.now) strata.now) x m)) result }
{
    match names.split_first() {
        None => 0,
        Some((name, rest)) => above(plans, strata, *name).max(above_all(plans, strata, rest)),
    }
}

/// The names of events' patterns, behind those that are there.
fn push_event_names(out: &mut Vec<Sym>, events: &[EventDef]) -> Result<(), AllocError>
    ensures { OnOk result (out.new.items ≡ out.old.items ++ map (λ v. v.pattern.name) (map event_of events.now)) }
{
    match events.split_first() {
        None => Ok(()),
        Some((event, rest)) => {
            out.push(event.pattern.name)?;
            push_event_names(out, rest)
        }
    }
}

/// The name of the pattern that a window wants, behind those that are there.
fn push_wanted(out: &mut Vec<Sym>, body: &Body) -> Result<(), AllocError>
    ensures { OnOk result (out.new.items ≡ out.old.items ++ wanted (body_of body.now)) }
{
    match body {
        Body::NoEvent(pattern) => out.push(pattern.name)?,
        Body::Occurs { pattern, .. } => out.push(pattern.name)?,
        Body::Hold { .. } => {}
    }
    Ok(())
}

/// The names of the patterns that windows want, behind those that are there.
fn push_window_names(out: &mut Vec<Sym>, windows: &[Window]) -> Result<(), AllocError>
    ensures { OnOk result (out.new.items ≡ out.old.items ++ flat_map (λ w. wanted w.body) (map window_of windows.now)) }
{
    match windows.split_first() {
        None => Ok(()),
        Some((window, rest)) => {
            push_wanted(out, &window.body)?;
            push_window_names(out, rest)
        }
    }
}

/// The names that a chronicle uses.
fn names_of(alloc: Global, chronicle: &Chronicle) -> Result<Vec<Sym>, AllocError>
    ensures { IfOk result (λ v. v.items ≡ used (chronicle_of chronicle.now)) }
{
    let mut out = Vec::new(alloc);
    push_event_names(&mut out, chronicle.events.as_slice())?;
    push_window_names(&mut out, chronicle.windows.as_slice())?;
    Ok(out)
}

/// The stratum of each plan's chronicle, in order, where none uses a name that it or a later one emits.
pub fn strata_of(alloc: Global, plans: &[Rc<Plan>]) -> Result<Vec<u8>, AllocError>
    requires few { length plans.now ≤ 64 }
    requires in_order { AreInOrder (map (λ r. chronicle r.value) plans.now) }
    ensures strata { IfOk result (λ v. AreStrata (map (λ r. chronicle r.value) plans.now) v.items) }
    ensures small { IfOk result (λ v. AllByRecursion (λ k. k < 64) v.items) }
{
    let mut strata: Vec<u8> = Vec::new(alloc);
    for plan in plans {
        let names = names_of(alloc, &plan.chronicle)?;
        let stratum = above_all(plans, strata.as_slice(), names.as_slice());
        strata.push(stratum)?;
    }
    Ok(strata)
}

/// A lag as a number of ticks, and 0 where it is infinite.
fn ticks_of(lag: Option<i64>) -> u64
    ensures { result ≡ ticks_of lag }
{
    match lag {
        Some(ticks) if ticks > 0 => ticks as u64,
        _ => 0,
    }
}

/// The greatest lag of the plans of a stratum, and 0 where there is none.
fn lag_at(plans: &[Rc<Plan>], strata: &[u8], stratum: u8) -> u64
    requires { AllByRecursion (λ r. IsSmallSpan r.value.lag) plans.now }
    ensures value { result ≡ lag_at stratum (zip strata.now (map (λ r. r.value.lag) plans.now)) }
    ensures small { result < 2 ^ 45 }
{
    match strata.split_first() {
        None => 0,
        Some((own, rest)) => match plans.split_first() {
            None => 0,
            Some((plan, others)) => {
                let most = lag_at(others, rest, stratum);
                if *own == stratum {
                    ticks_of(plan.lag).max(most)
                } else {
                    most
                }
            }
        },
    }
}

/// How many ticks the horizon of a stratum lies behind that of stratum 0: the sum of the lags of the
/// strata below it.
pub fn lag_below(plans: &[Rc<Plan>], strata: &[u8], stratum: u8) -> u64
    requires small { AllByRecursion (λ r. IsSmallSpan r.value.lag) plans.now }
    requires few { stratum ≤ 64 }
    ensures value { result ≡ lag_below (zip strata.now (map (λ r. r.value.lag) plans.now)) stratum }
    ensures small { result ≤ stratum * 2 ^ 45 }
{
    if stratum == 0 {
        return 0;
    }
    lag_below(plans, strata, stratum - 1) + lag_at(plans, strata, stratum - 1)
}
