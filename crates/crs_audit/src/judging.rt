// What is wrong with a claim.
ghost use Rattle.std.specs.Prelude.{◌≡◌, ◌++◌, ◌∷◌, [], ◌↔◌, true, IsTrue, IfOk, IfSome, IsSomeAnd, map, vec_items};
ghost use Rattle.std.specs.Prelude.{◌<◌, ◌^◌, length};
ghost use Rattle.std.specs.List.{AllByRecursion};
ghost use Rattle.crs_base.specs.Seen.{entry_of};
ghost use Rattle.crs_model.specs.SeenModels.{chronicle_of};
ghost use Rattle.crs_model.specs.Plans.{IsProper};
ghost use Rattle.crs_audit.specs.CitedDates.{IsByDate};
ghost use Rattle.crs_audit.specs.Runs.{entries_of};
ghost use Rattle.crs_audit.specs.AuditFaults.{IsFitOf};
ghost use Rattle.crs_audit.specs.Noted.{IsNoted};
ghost use Rattle.crs_audit.specs.SeenClaims.{claim_seen};
ghost use Rattle.crs_audit.specs.JudgedClaims.{CanJudge, Judges};
ghost use Rattle.crs_report.specs.Printed.{chronicle_at, IsPrintable, line_seen};

use crate::bounds::meet_bounds;
use crate::citing::{binding_of, cited};
use crate::claims::Claim;
use crate::naming::place_named;
use crate::run::{Log, Stand};
use crate::windows::are_met;
use crate::words::AuditWord;
use crs_base::{Entry, Sym, Symbols, push_bytes};
use crs_model::{Binding, Plan, Plans, Recognition};
use crs_report::push_line_of;
use std::alloc::{AllocError, Global};
use std::collections::BTreeSet;
use std::rc::Rc;

/// What claims are judged by.
#[derive(Clone, Copy)]
pub struct Ground<'a> {
    pub plans: &'a Plans,
    pub symbols: &'a Symbols,
    pub log: &'a Log,
}

/// Whether the line is the cited one of the recognition.
fn is_line_of(
    alloc: Global,
    plans: &Plans,
    symbols: &Symbols,
    r: &Recognition,
    line: &[u8],
) -> Result<bool, AllocError>
    requires { IsSomeAnd (chronicle_at plans.now r.now.chronicle) (IsPrintable symbols.now.texts r.now) }
    ensures { IfOk result (λ answer. IfSome (chronicle_at plans.now r.now.chronicle) (λ c. IsTrue answer ↔ (line.now ++ 10 ∷ [] ≡ line_seen true symbols.now.texts r.now c))) }
{
    let mut text = Vec::new(alloc);
    push_line_of(&mut text, plans, symbols, r, true)?;
    let mut wanted = Vec::new(alloc);
    push_bytes(&mut wanted, line)?;
    push_bytes(&mut wanted, b"\n")?;
    Ok(wanted.as_slice() == text.as_slice())
}

/// Notes a claim by its chronicle's name and its numbers. False where it was noted before.
fn note(
    alloc: Global,
    noted: &mut BTreeSet<Vec<u32>>,
    name: Sym,
    numbers: &[u32],
) -> Result<bool, AllocError>
    ensures { IfOk result (IsNoted (name.0 ∷ numbers.now) (map vec_items noted.old.keys) (map vec_items noted.new.keys)) }
{
    let mut key = Vec::with_capacity(alloc, numbers.len() + 1)?;
    key.push(name.0)?;
    key.extend_from_slice(numbers)?;
    Ok(noted.insert(key)?)
}

/// The binding of a claim's entries, by which all is met at the mark. Or what is wrong with them.
fn fit_of(
    plan: &Plan,
    by_key: &[Rc<Entry>],
    at: Stand,
    entries: &[Rc<Entry>],
) -> Result<Binding, AuditWord>
    requires proper { IsProper plan.now }
    requires each { length entries.now ≡ length plan.now.chronicle.events }
    requires few { length by_key.now < 2 ^ 32 }
    requires by_date { IsByDate (entries_of by_key.now) }
    requires dated { AllByRecursion (λ e. e.date < 2 ^ 40) (entries_of by_key.now) }
    requires dated_too { AllByRecursion (λ e. e.date < 2 ^ 40) (map (λ e. entry_of e.value) entries.now) }
    ensures { IsFitOf (chronicle_of plan.now.chronicle) (map (λ e. entry_of e.value) entries.now) (entries_of by_key.now) at result }
{
    let chronicle = &plan.chronicle;
    let Some(binding) = binding_of(chronicle, entries) else {
        return Err(AuditWord::Fit);
    };
    if !meet_bounds(chronicle.bounds.as_slice(), entries) {
        return Err(AuditWord::Bounds);
    }
    let windows = chronicle.windows.as_slice();
    if !are_met(by_key, at, windows, entries, &binding) {
        return Err(AuditWord::Window);
    }
    Ok(binding)
}

/// What is wrong with a claim, which this line makes. None where nothing is, and then it is noted.
pub fn judge(
    alloc: Global,
    ground: &Ground<'_>,
    noted: &mut BTreeSet<Vec<u32>>,
    line: &[u8],
    claim: &Claim<'_>,
) -> Result<Option<AuditWord>, AllocError>
    requires { CanJudge ground.now.plans.now.plans ground.now.symbols.now.texts ground.now.log.now }
    ensures { IfOk result (Judges ground.now.plans.now.plans ground.now.symbols.now.texts ground.now.log.now (map vec_items noted.old.keys) (map vec_items noted.new.keys) line.now (claim_seen claim.now)) }
{
    let plans = ground.plans.plans.as_slice();
    let Some(place) = place_named(plans, ground.symbols, claim.name) else {
        return Ok(Some(AuditWord::Chronicle));
    };
    let plan: &Plan = &plans[place];
    let Some(at) = ground.log.stand(claim.mark) else {
        return Ok(Some(AuditWord::Mark));
    };
    let numbers = claim.numbers.as_slice();
    let all = ground.log.entries.as_slice();
    let events = plan.chronicle.events.len();
    let Some(entries) = cited(alloc, all, at, plan.chronicle.prompt, events, numbers)? else {
        return Ok(Some(AuditWord::Entry));
    };
    let binding = match fit_of(plan, ground.log.by_key.as_slice(), at, entries.as_slice()) {
        Ok(binding) => binding,
        Err(word) => return Ok(Some(word)),
    };
    let r = Recognition {
        chronicle: place as u32,
        mark: claim.mark,
        entries,
        binding,
    };
    if !is_line_of(alloc, ground.plans, ground.symbols, &r, line)? {
        return Ok(Some(AuditWord::Text));
    }
    if !note(alloc, noted, plan.chronicle.name, numbers)? {
        return Ok(Some(AuditWord::Twice));
    }
    Ok(None)
}
