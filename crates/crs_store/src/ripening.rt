//! The instances that are done leave their places.
ghost use Rattle.std.specs.Prelude.{◌≡◌, Some, [], IfOk, OnOk};
ghost use Rattle.crs_base.specs.Words.{IsIn};
ghost use Rattle.crs_living.specs.Judgings.{IsJudging, IsDoneBy};
ghost use Rattle.crs_store.specs.Answers.{IsRecognitionIfDone, AreFound};
ghost use Rattle.crs_living.specs.Slots.{slot_at, members};
ghost use Rattle.crs_store.specs.Ripenings.{AreLeft, IsRecognitionAt, TakesAt};

use crs_instance::{Dated, Instance};
use crs_living::{Judging, Slots, is_done};
use crs_model::{Mark, Recognition};
use std::alloc::{AllocError, Global};

/// The recognition of the instance, where each event is bound and each window met.
fn recognition(
    judging: &Judging<'_>,
    instance: &Instance,
    number: u32,
    mark: Mark,
) -> Result<Option<Recognition>, AllocError>
    requires judging { IsJudging judging.now }
    ensures { IfOk result (IsRecognitionIfDone judging.now.plan.now judging.now.h number mark instance.now) }
{
    if !is_done(judging, instance) {
        return Ok(None);
    }
    match instance.all_entries()? {
        None => Ok(None),
        Some(entries) => Ok(Some(Recognition {
            chronicle: number,
            mark,
            entries,
            binding: instance.binding().copy(),
        })),
    }
}

/// The recognition of what stands in the place, where an instance that is done does.
fn recognition_at(
    judging: &Judging<'_>,
    slots: &Slots,
    place: u32,
    number: u32,
    mark: Mark,
) -> Result<Option<Recognition>, AllocError>
    requires judging { IsJudging judging.now }
    ensures { IfOk result (IsRecognitionAt judging.now.plan.now judging.now.h number mark (slot_at slots.now place)) }
{
    match slots.get(place) {
        None => Ok(None),
        Some(instance) => recognition(judging, instance, number, mark),
    }
}

/// Takes the instance out of the place as its recognition, where one that is done stands there.
fn take_at(
    judging: &Judging<'_>,
    slots: &mut Slots,
    place: u32,
    number: u32,
    mark: Mark,
    found: &mut Vec<Recognition>,
) -> Result<(), AllocError>
    requires judging { IsJudging judging.now }
    ensures { OnOk result (TakesAt judging.now.plan.now judging.now.h number mark slots.old slots.new place found.old.items found.new.items) }
{
    if let Some(one) = recognition_at(judging, slots, place, number, mark)? {
        found.push(one)?;
        slots.remove(place);
    }
    Ok(())
}

/// Takes the instances that are done out of their places, as their recognitions. Each of these places
/// is named by `ripe`, which may name others too, and one twice. What an error leaves is not to be
/// used any more.
pub(crate) fn take_ripe(
    alloc: Global,
    judging: &Judging<'_>,
    slots: &mut Slots,
    ripe: &mut Vec<u32>,
    number: u32,
    mark: Mark,
) -> Result<Vec<Recognition>, AllocError>
    requires judging { IsJudging judging.now }
    requires ripe { (p : _) (i : _) → slot_at slots.old p ≡ Some i → IsDoneBy judging.now i → IsIn p ripe.old.items }
    ensures found { IfOk result (λ v. AreFound judging.now.plan.now judging.now.h number mark (members slots.old.slots) v.items) }
    ensures left { OnOk result (AreLeft judging.now.plan.now judging.now.h slots.old slots.new) }
    ensures empty { OnOk result (ripe.new.items ≡ []) }
{
    let mut found = Vec::with_capacity(alloc, ripe.len())?;
    // those that were ripe first are mostly the first in the order of the answer
    ripe.reverse();
    while let Some(place) = ripe.pop() {
        take_at(judging, slots, place, number, mark, &mut found)?;
    }
    Ok(found)
}
