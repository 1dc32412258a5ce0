//! Instances: what can be bound, how long it waits, and what forks share.
ghost use Rattle.std.specs.Prelude.{◌≡◌, ◌<◌, ◌^◌, IfOk, OnOk};
ghost use Rattle.crs_model.specs.Plans.{IsProper};
ghost use Rattle.crs_instance.specs.Instances.{IsOf};
ghost use Rattle.crs_core_tests.specs.Fixtures.{IsRootOf};

use crate::fixtures::{event, plan_of, shared};
use crs_base::{Entry, Steps};
use crs_instance::{Fit, Instance};
use crs_model::Plan;
use std::alloc::{AllocError, Global};
use std::marker::Brand;
use std::process::Abort;
use std::rc::Rc;
use std::sync::ledger::{Blank, Ledger};
use std::test::Fail;

/// `a then b within [1,5]`, where a is of level 0 and b of level 1.
fn a_then_b(alloc: Global) -> Result<Rc<Plan>, AllocError>
    ensures { IfOk result (λ r. IsProper r.value) }
{
    plan_of(alloc, event(alloc, 0, 0), event(alloc, 1, 1), 1)
}

/// Binds event 0, with a counter of its own.
fn bind_apart<L: Ledger>(
    blank: Blank,
    instance: &mut Instance,
    plan: &Plan,
    entry: Rc<Entry>,
) -> Result<Fit, AllocError>
    requires name { blank.name ≡ L.name }
    requires parts { blank.parts ≡ L.parts }
    requires some { 0 < L.parts }
    requires root { IsRootOf plan.now instance.old }
    requires date { entry.value.date < 2 ^ 40 }
    ensures { OnOk result (IsOf plan.now instance.new) }
{
    let fit = instance.bind(plan, 0, entry, &mut Steps::<L>::new(blank))?;
    Ok(fit)
}

/// The instance with event 0 bound too, with a counter of its own.
fn fork_apart<L: Ledger>(
    blank: Blank,
    instance: &Instance,
    plan: &Plan,
    entry: &Rc<Entry>,
) -> Result<Option<Instance>, AllocError>
    requires name { blank.name ≡ L.name }
    requires parts { blank.parts ≡ L.parts }
    requires some { 0 < L.parts }
    requires root { IsRootOf plan.now instance.now }
    requires date { entry.now.value.date < 2 ^ 40 }
{
    let Some(fork) = instance.fork(plan, 0, entry, &mut Steps::<L>::new(blank)) else {
        return Ok(None);
    };
    Ok(Some(fork.make(instance.all_progress())?))
}

/// Binds event 0 to an entry of this name at 10.
fn bind_first(
    alloc: Global,
    instance: &mut Instance,
    plan: &Plan,
    name: u32,
) -> Result<Fit, AllocError>
    requires { IsRootOf plan.now instance.old }
    ensures { OnOk result (IsOf plan.now instance.new) }
{
    let entry = shared(alloc, 0, 10, name)?;
    bind_apart::<Brand>(Blank::new(1), instance, plan, entry)
}

/// Asserts how long an instance without entries can wait where event 0 comes at 10.
fn assert_waits(rt: &impl Abort, plan: &Plan, root: &Instance)
    requires { IsRootOf plan.now root.now }
{
    assert_eq!(rt; root.deadline(plan, 0, false), None);
    assert!(rt; root.can_wait_with(plan, 0, 10, false, 15));
    assert!(rt; !root.can_wait_with(plan, 0, 10, false, 16));
    assert!(rt; root.can_wait_with(plan, 0, 10, true, 16));
}

/// Asserts what an instance answers of which event 0 alone came, at 10.
fn assert_begun(rt: &impl Abort, plan: &Plan, begun: &Instance)
    requires { IsOf plan.now begun.now }
{
    for (level, focus, deadline) in &[
        (0, false, Some(15)),
        (1, false, None),
        (1, true, Some(15)),
        (0, true, None),
    ] {
        assert_eq!(rt; begun.deadline(plan, *level, *focus), *deadline);
    }
    assert_eq!(rt; begun.bound(), 1);
    assert!(rt; begun.entry(0).is_some_and(|e| e.date == 10));
    assert!(rt; !begun.is_whole());
    assert!(rt; begun.can_go_on(15));
    assert!(rt; !begun.can_go_on(16));
}

#[test]
fn binds_what_can_still_be_recognised(rt: HostRuntime) -> Result<(), Fail> {
    let alloc = rt.alloc();
    let plan = a_then_b(alloc)?;
    let root = Instance::root(alloc, &plan)?;
    assert_waits(&rt, &plan, &root);
    let mut next = root.share()?;
    assert_eq!(rt; bind_first(alloc, &mut next, &plan, 0)?, Fit::Yes);
    assert_begun(&rt, &plan, &next);
    assert_eq!(rt; root.bound(), 0);
    assert!(rt; next.shares_rest(&root));
    Ok(())
}

/// Asserts what a fork shares with the root of which it comes, and not with another.
fn assert_shares(
    rt: &impl Abort,
    fork: &Instance,
    root: &Instance,
    other: &Instance,
) -> Result<(), AllocError> {
    assert_eq!(rt; fork.bound(), 1);
    assert!(rt; fork.shares_rest(root));
    assert!(rt; !fork.shares_rest(other));
    assert!(rt; !fork.shares_rest(fork));
    assert!(rt; !fork.shares_all(root));
    assert!(rt; fork.share()?.shares_all(fork));
    Ok(())
}

/// The instance with event 0 bound to an entry at 10 too.
fn fork_first(alloc: Global, root: &Instance, plan: &Plan) -> Result<Option<Instance>, AllocError>
    requires { IsRootOf plan.now root.now }
{
    let entry = shared(alloc, 0, 10, 0)?;
    fork_apart::<Brand>(Blank::new(1), root, plan, &entry)
}

#[test]
fn shares_its_parts(rt: HostRuntime) -> Result<(), Fail> {
    let alloc = rt.alloc();
    let plan = a_then_b(alloc)?;
    let root = Instance::root(alloc, &plan)?;
    let other = Instance::root(alloc, &plan)?;
    assert!(rt; root.share()?.shares_all(&root));
    assert!(rt; !other.shares_all(&root));
    assert!(rt; !root.shares_rest(&root));
    let fork = fork_first(alloc, &root, &plan)?;
    assert!(rt; fork.is_some());
    if let Some(fork) = &fork {
        assert_shares(&rt, fork, &root, &other)?;
    }
    assert_eq!(rt; root.bound(), 0);
    Ok(())
}

#[test]
fn refuses_another_name(rt: HostRuntime) -> Result<(), Fail> {
    let alloc = rt.alloc();
    let plan = a_then_b(alloc)?;
    let mut root = Instance::root(alloc, &plan)?;
    assert_eq!(rt; bind_first(alloc, &mut root, &plan, 1)?, Fit::No);
    assert!(rt; root.entry(0).is_none());
    assert!(rt; root.all_entries()?.is_none());
    Ok(())
}
