//! What a recognition does to the figures of each kind of listener. A listener of a caller's own, of
//! one of these kinds, can keep its figures by them.
ghost use Rattle.std.specs.Prelude.{◌≡◌, ◌<◌, ◌≤◌, ◌++◌, length, replicate, IfOk, OnOk, OnErr};
ghost use Rattle.crs_report.specs.Listeners.{notice_of, least, greatest, padded, gained, counted, widened, lengthened, lessened, is_zero};

use crs_base::List;
use crs_model::Recognition;
use std::alloc::{AllocError, Global};

/// A list of these figures.
pub fn figures_of(alloc: Global, figures: &[u64]) -> Result<List<u64>, AllocError>
    ensures { IfOk result (λ list. list ≡ figures.now) }
{
    let mut list = List::new(alloc);
    for figure in figures {
        list.push(*figure)?;
    }
    Ok(list)
}

/// Adds zeros at the end.
fn push_zeros(figures: &mut List<u64>, n: usize) -> Result<(), AllocError>
    ensures { OnOk result (figures.new ≡ figures.old ++ replicate n 0) }
{
    for _added in 0..n {
        figures.push(0)?;
    }
    Ok(())
}

/// Sees to it that a place is there. After a refusal the figures are as they were.
fn make_place(alloc: Global, figures: &mut List<u64>, place: u32) -> Result<(), AllocError>
    ensures ok { OnOk result (figures.new ≡ padded figures.old place) }
    ensures err { OnErr result (figures.new ≡ figures.old) }
{
    let wanted = place as usize + 1;
    if wanted <= figures.len() {
        return Ok(());
    }
    let mut longer = figures_of(alloc, figures.as_slice())?;
    push_zeros(&mut longer, wanted - figures.len())?;
    *figures = longer;
    Ok(())
}

/// Adds one to the figure at a place.
fn gain(figures: &mut List<u64>, place: u32)
    requires { place < length figures.old }
    ensures { figures.new ≡ gained figures.old place }
{
    let place = place as usize;
    let figure = figures.as_slice()[place];
    figures.set(place, figure.saturating_add(1));
}

/// Counts a recognition at its chronicle's place.
pub fn count(alloc: Global, figures: &mut List<u64>, r: &Recognition) -> Result<(), AllocError>
    ensures ok { OnOk result (figures.new ≡ counted figures.old (notice_of r.now)) }
    ensures err { OnErr result (figures.new ≡ figures.old) }
{
    make_place(alloc, figures, r.chronicle)?;
    gain(figures, r.chronicle);
    Ok(())
}

/// The dates of a recognition's entries: the least and the greatest of them.
#[derive(Clone, Copy, Debug)]
struct Dates {
    least: u64,
    greatest: u64,
}

/// The least and the greatest date of a recognition's entries, or zeros where it has none.
fn dates_of(r: &Recognition) -> Dates
    ensures least { result.least ≡ least (notice_of r.now).dates }
    ensures greatest { result.greatest ≡ greatest (notice_of r.now).dates }
    ensures order { result.least ≤ result.greatest }
{
    let Some((first, rest)) = r.entries.as_slice().split_first() else {
        return Dates {
            least: 0,
            greatest: 0,
        };
    };
    let mut least = first.date;
    let mut greatest = first.date;
    for entry in rest {
        least = least.min(entry.date);
        greatest = greatest.max(entry.date);
    }
    Dates { least, greatest }
}

/// Widens the first and the last date by those of a recognition.
pub fn widen(alloc: Global, figures: &mut List<u64>, r: &Recognition) -> Result<(), AllocError>
    ensures ok { OnOk result (figures.new ≡ widened figures.old (notice_of r.now)) }
    ensures err { OnErr result (figures.new ≡ figures.old) }
{
    let dates = dates_of(r);
    match figures.as_slice() {
        [] => *figures = figures_of(alloc, &[dates.least, dates.greatest])?,
        [first, last] => {
            let first = dates.least.min(*first);
            let last = dates.greatest.max(*last);
            figures.set(0, first);
            figures.set(1, last);
        }
        _ => {}
    }
    Ok(())
}

/// Takes the span of a recognition, where it is longer than the longest.
pub fn lengthen(alloc: Global, figures: &mut List<u64>, r: &Recognition) -> Result<(), AllocError>
    ensures ok { OnOk result (figures.new ≡ lengthened figures.old (notice_of r.now)) }
    ensures err { OnErr result (figures.new ≡ figures.old) }
{
    let dates = dates_of(r);
    let span = dates.greatest - dates.least;
    let is_longest = match figures.as_slice() {
        [] => true,
        [longest, _, _] => *longest < span,
        _ => false,
    };
    if is_longest {
        *figures = figures_of(alloc, &[span, r.chronicle as u64, dates.least])?;
    }
    Ok(())
}

/// Takes one from what is wanted.
pub fn lessen(figures: &mut List<u64>)
    ensures { figures.new ≡ lessened figures.old }
{
    if let [n] = figures.as_slice() {
        let n = n.saturating_sub(1);
        figures.set(0, n);
    }
}

/// Whether there is one figure, and it is 0.
pub fn is_zero(figures: &[u64]) -> bool
    ensures { result ≡ is_zero figures.now }
{
    match figures {
        [n] => *n == 0,
        _ => false,
    }
}
