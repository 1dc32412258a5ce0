// What strata answered at a mark, as one answer.
ghost use Rattle.std.specs.Prelude.{◌≡◌, ◌++◌, slice_index, IfOk, OnOk};
ghost use Rattle.crs_layers.specs.Gathering.{renumbered, renumbered_all, IsLastOf, GathersAll};

use crate::layer::Layer;
use crs_base::List;
use crs_model::Recognition;
use std::alloc::{AllocError, Global};
use std::mem;

/// The number among all chronicles of the one that has this number in its stratum.
fn number_among(numbers: &[u32], own: u32) -> u32
    ensures { result ≡ slice_index numbers.now own }
{
    numbers.get(own as usize).copied().unwrap_or(0)
}

/// Gives each recognition the number of its chronicle among all.
fn renumber(answer: &mut [Recognition], numbers: &[u32])
    ensures { answer.new ≡ renumbered numbers.now answer.old }
{
    for found in answer.iter_mut() {
        found.chronicle = number_among(numbers, found.chronicle);
    }
}

/// Adds what the strata answered, one after another.
fn gather(
    alloc: Global,
    layers: &[Layer],
    answers: &mut [List<Recognition>],
    all: &mut Vec<Recognition>,
) -> Result<(), AllocError>
    ensures { OnOk result (all.new.items ≡ all.old.items ++ renumbered_all layers.now answers.old) }
{
    let Some((layer, above)) = layers.split_first() else {
        return Ok(());
    };
    match answers.split_first_mut() {
        None => Ok(()),
        Some((first, rest)) => {
            let mut answer = mem::replace(first, List::new(alloc)).into_vec();
            renumber(&mut answer, layer.numbers.as_slice());
            all.append(&mut answer)?;
            gather(alloc, above, rest, all)
        }
    }
}

/// The last of the answers. There is one.
fn last_of(alloc: Global, mut answers: Vec<List<Recognition>>) -> List<Recognition>
    ensures { IsLastOf answers.items result }
{
    match answers.pop() {
        None => List::new(alloc),
        Some(last) => last,
    }
}

/// The answers of all strata as one, with the numbers of the chronicles among all: one chronicle after
/// another in the order of these, and of each in the order of its stratum's answer. Where there is one
/// stratum its answer is that already.
pub(crate) fn gathered(
    alloc: Global,
    layers: &[Layer],
    mut answers: Vec<List<Recognition>>,
) -> Result<List<Recognition>, AllocError>
    ensures { IfOk result (GathersAll layers.now answers.items) }
{
    if layers.len() == 1 {
        return Ok(last_of(alloc, answers));
    }
    let mut all = Vec::new(alloc);
    gather(alloc, layers, &mut answers, &mut all)?;
    // It is stable.
    all.sort_by_key(|found| found.chronicle)?;
    Ok(List::from_vec(all))
}
