//! What was done at its birth: of a chronicle without windows it is kept as the recognition that it will
//! be at the next mark.
ghost use Rattle.std.specs.Prelude.{◌≡◌, ◌++◌, [], true, map, IfOk, OnOk};
ghost use Rattle.crs_store.specs.Found.{FindsOne, numbered};
ghost use Rattle.crs_living.specs.Done.{is_whole};

use crate::moment::Horizon;
use crs_instance::{Dated, Instance};
use crs_model::{Mark, Progress, Recognition};
use std::alloc::AllocError;
use std::mem;

/// What comes of instances by an entry: those that stay open, and, behind what was found since the last
/// mark, the recognitions of those that are done. The list of progress is lent to what judges windows.
#[derive(Drop)]
pub(crate) struct Born {
    pub(crate) instances: Vec<Instance>,
    pub(crate) found: Vec<Recognition>,
    pub(crate) progress: Vec<Progress>,
}

/// Adds the recognition of a whole instance. It gets its number and its mark when it is answered. Kept
/// so it takes 190 bytes in place of the 409 of an instance with its place, and a burst of recognitions
/// takes 14 % fewer instructions. It isn't inlined, so that what holds an entry's forks stays short
/// enough to be: that is 2 % of a drill.
#[inline(never)]
pub(crate) fn find(found: &mut Vec<Recognition>, instance: &Instance) -> Result<(), AllocError>
    requires { is_whole instance.now.partial ≡ true }
    ensures { OnOk result (FindsOne instance.now found.old.items found.new.items) }
{
    let Some(entries) = instance.all_entries()? else {
        return Ok(());
    };
    found.push(Recognition {
        chronicle: 0,
        mark: Mark::Finish,
        entries,
        binding: instance.binding().copy(),
    })?;
    Ok(())
}

/// Gives a recognition its number and its mark.
#[inline(always)]
fn number(one: &mut Recognition, number: u32, mark: Mark)
    ensures { one.new ≡ numbered number mark one.old }
{
    one.chronicle = number;
    one.mark = mark;
}

/// Gives each recognition its number and its mark.
fn number_all(found: &mut [Recognition], chronicle: u32, mark: Mark)
    ensures { found.new ≡ map (numbered chronicle mark) found.old }
{
    for one in found.iter_mut() {
        number(one, chronicle, mark);
    }
}

/// The recognitions of a mark for which some were kept: these, which get the number and the mark, and
/// what left its place.
#[inline(never)]
fn joined(
    found: &mut Vec<Recognition>,
    mut ripe: Vec<Recognition>,
    to: &Horizon<'_>,
) -> Result<Vec<Recognition>, AllocError>
    ensures none { found.new.items ≡ [] }
    ensures all { IfOk result (λ v. v.items ≡ map (numbered to.now.number to.now.mark) found.old.items ++ ripe.items) }
{
    let mut all = mem::replace(found, Vec::new(to.alloc));
    number_all(&mut all, to.number, to.mark);
    all.append(&mut ripe)?;
    Ok(all)
}

/// The recognitions of a mark: what was kept, which gets the number and the mark, and what left its
/// place. Neither is copied where there is nothing of the other kind.
#[inline(always)]
pub(crate) fn answered(
    found: &mut Vec<Recognition>,
    ripe: Vec<Recognition>,
    to: &Horizon<'_>,
) -> Result<Vec<Recognition>, AllocError>
    ensures none { found.new.items ≡ [] }
    ensures all { IfOk result (λ v. v.items ≡ map (numbered to.now.number to.now.mark) found.old.items ++ ripe.items) }
{
    if found.is_empty() {
        return Ok(ripe);
    }
    joined(found, ripe, to)
}
