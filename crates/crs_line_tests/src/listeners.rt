//! Listeners: their figures and pages, and who stays.
ghost use Rattle.std.specs.Prelude.{◌≡◌, length, IfOk};

use crate::reports::entry;
use crs_base::{List, Text};
use crs_model::{Binding, Mark, Recognition};
use crs_report::figures::{count, figures_of, is_zero, lengthen, lessen, widen};
use crs_report::{
    CountByModel, FirstLast, FirstN, Listener, LongestSpan, Next, keep_kinds, page_line,
    push_pages, tell_all, tell_each,
};
use std::alloc::{AllocError, Global};
use std::rc::Rc;
use std::test::Fail;

/// A recognition of the chronicle with entries at two dates.
fn recognition(
    alloc: Global,
    chronicle: u32,
    first: u64,
    second: u64,
) -> Result<Recognition, AllocError>
    ensures { IfOk result (λ r. length r.entries ≡ 2) }
{
    let mut entries = List::new(alloc);
    entries.push(Rc::new(alloc, entry(alloc, 0, first)?)?)?;
    entries.push(Rc::new(alloc, entry(alloc, 1, second)?)?)?;
    Ok(Recognition {
        chronicle,
        mark: Mark::Clock(400),
        entries,
        binding: Binding::new(0),
    })
}

/// Whether the page of a listener is this text, once it is told of recognitions, by their chronicles
/// and their two dates.
fn has_page<L: Listener>(
    alloc: Global,
    listener: Result<L, AllocError>,
    rows: &[(u32, u64, u64)],
    page: &[u8],
) -> Result<bool, AllocError> {
    let mut listener = listener?;
    for (chronicle, first, second) in rows {
        let r = recognition(alloc, *chronicle, *first, *second)?;
        listener.tell(&r)?;
    }
    let found = listener.page()?;
    Ok(found.bytes() == page)
}

#[test]
fn each_kind_has_its_page(rt: HostRuntime) -> Result<(), Fail> {
    let alloc = rt.alloc();
    let rows = [(1, 138, 155), (0, 20, 10), (1, 330, 300), (2, 5, 35)];
    assert!(rt;
        has_page(
            alloc,
            CountByModel::new(alloc),
            &rows,
            b"tally count 1 2 1\n"
        )?
    );
    assert!(rt; has_page(alloc, FirstLast::new(alloc), &rows, b"tally span 5 330\n")?);
    assert!(rt;
        has_page(
            alloc,
            LongestSpan::new(alloc),
            &rows,
            b"tally longest 30 1 300\n"
        )?
    );
    assert!(rt; has_page(alloc, FirstN::new(alloc, 6), &rows, b"tally fewer 2\n")?);
    Ok(())
}

#[test]
fn counts_stand_still_at_their_end(rt: HostRuntime) -> Result<(), Fail> {
    let alloc = rt.alloc();
    let mut figures = figures_of(alloc, &[u64::MAX, 5])?;
    count(alloc, &mut figures, &recognition(alloc, 0, 1, 2)?)?;
    assert!(rt; figures.as_slice() == [u64::MAX, 5].as_slice());
    count(alloc, &mut figures, &recognition(alloc, 3, 1, 2)?)?;
    assert!(rt; figures.as_slice() == [u64::MAX, 5, 0, 1].as_slice());
    Ok(())
}

#[test]
fn figures_of_another_length_stay(rt: HostRuntime) -> Result<(), Fail> {
    let alloc = rt.alloc();
    let r = recognition(alloc, 1, 3, 9)?;
    let rows: [&[u64]; 2] = [&[7], &[7, 8, 0, 6]];
    for row in rows {
        let mut figures = figures_of(alloc, row)?;
        widen(alloc, &mut figures, &r)?;
        lengthen(alloc, &mut figures, &r)?;
        assert!(rt; figures.as_slice() == row);
    }
    let rows: [&[u64]; 2] = [&[], &[0, 0]];
    for row in rows {
        let mut figures = figures_of(alloc, row)?;
        lessen(&mut figures);
        assert!(rt; figures.as_slice() == row);
        assert!(rt; !is_zero(row));
    }
    Ok(())
}

/// A listener of another kind, for which there is never memory.
#[derive(Drop)]
struct Wanting {
    alloc: Global,
    figures: List<u64>,
}

impl Wanting {
    fn new(alloc: Global) -> Result<Wanting, AllocError> {
        let figures = figures_of(alloc, &[4])?;
        Ok(Wanting { alloc, figures })
    }
}

impl Listener for Wanting {
    ghost kind = { λ _. 9 };

    ghost figures = { λ l. l.figures };

    fn kind(&self) -> u32 {
        9
    }

    fn figures(&self) -> &List<u64> {
        &self.figures
    }

    fn tell(&mut self, _r: &Recognition) -> Result<Next, AllocError> {
        Err(AllocError)
    }

    fn page(&self) -> Result<Text, AllocError> {
        page_line(self.alloc, 9, self.figures.as_slice())
    }
}

/// A listener that counts, and has memory for its first recognition alone.
#[derive(Drop)]
struct OnceOnly {
    alloc: Global,
    figures: List<u64>,
    told: bool,
}

impl OnceOnly {
    fn new(alloc: Global) -> Result<OnceOnly, AllocError> {
        Ok(OnceOnly {
            alloc,
            figures: List::new(alloc),
            told: false,
        })
    }
}

impl Listener for OnceOnly {
    ghost kind = { λ _. 0 };

    ghost figures = { λ l. l.figures };

    fn kind(&self) -> u32 {
        0
    }

    fn figures(&self) -> &List<u64> {
        &self.figures
    }

    fn tell(&mut self, r: &Recognition) -> Result<Next, AllocError> {
        if self.told {
            return Err(AllocError);
        }
        count(self.alloc, &mut self.figures, r)?;
        self.told = true;
        Ok(Next::Stay)
    }

    fn page(&self) -> Result<Text, AllocError> {
        page_line(self.alloc, 0, self.figures.as_slice())
    }
}

/// A listener of kind 3 with more figures than that kind has.
#[derive(Drop)]
struct Odd {
    alloc: Global,
    figures: List<u64>,
}

impl Listener for Odd {
    ghost kind = { λ _. 3 };

    ghost figures = { λ l. l.figures };

    fn kind(&self) -> u32 {
        3
    }

    fn figures(&self) -> &List<u64> {
        &self.figures
    }

    fn tell(&mut self, _r: &Recognition) -> Result<Next, AllocError> {
        lessen(&mut self.figures);
        Ok(if is_zero(self.figures.as_slice()) {
            Next::Leave
        } else {
            Next::Stay
        })
    }

    fn page(&self) -> Result<Text, AllocError> {
        page_line(self.alloc, 3, self.figures.as_slice())
    }
}

/// A listener in a box.
fn boxed<L: Listener>(
    alloc: Global,
    listener: Result<L, AllocError>,
) -> Result<Box<L>, AllocError> {
    Ok(Box::new(alloc, listener?)?)
}

/// Whether the pages of listeners are these lines.
fn have_pages(
    alloc: Global,
    listeners: &[Box<dyn Listener>],
    pages: &[u8],
) -> Result<bool, AllocError> {
    let mut out = Vec::new(alloc);
    push_pages(&mut out, listeners)?;
    Ok(out.as_slice() == pages)
}

/// Tells listeners of a recognition of the chronicle.
fn tell(
    alloc: Global,
    listeners: &mut Vec<Box<dyn Listener>>,
    chronicle: u32,
) -> Result<(), AllocError> {
    let r = recognition(alloc, chronicle, 8, 3)?;
    tell_all(listeners, &r)
}

#[test]
fn leavers_are_dropped_and_the_others_keep_their_order(rt: HostRuntime) -> Result<(), Fail> {
    let alloc = rt.alloc();
    let mut listeners: Vec<Box<dyn Listener>> = Vec::new(alloc);
    listeners.push(boxed(alloc, FirstN::new(alloc, 1))?)?;
    listeners.push(boxed(alloc, CountByModel::new(alloc))?)?;
    listeners.push(boxed(alloc, FirstN::new(alloc, 0))?)?;
    listeners.push(boxed(alloc, FirstN::new(alloc, 2))?)?;
    listeners.push(boxed(alloc, FirstN::new(alloc, 1))?)?;
    tell(alloc, &mut listeners, 1)?;
    assert!(rt;
        have_pages(
            alloc,
            listeners.as_slice(),
            b"tally count 0 1\ntally fewer 1\n"
        )?
    );
    tell(alloc, &mut listeners, 0)?;
    assert!(rt; have_pages(alloc, listeners.as_slice(), b"tally count 1 1\n")?);
    Ok(())
}

#[test]
fn a_listener_with_odd_figures_stays_as_it_is(rt: HostRuntime) -> Result<(), Fail> {
    let alloc = rt.alloc();
    let figures = figures_of(alloc, &[0, 0])?;
    let mut listeners: Vec<Box<dyn Listener>> = Vec::new(alloc);
    listeners.push(boxed(alloc, Ok(Odd { alloc, figures }))?)?;
    tell(alloc, &mut listeners, 1)?;
    tell(alloc, &mut listeners, 0)?;
    assert!(rt; have_pages(alloc, listeners.as_slice(), b"tally fewer 0 0\n")?);
    Ok(())
}

#[test]
fn want_of_memory_stops_at_its_listener(rt: HostRuntime) -> Result<(), Fail> {
    let alloc = rt.alloc();
    let mut listeners: Vec<Box<dyn Listener>> = Vec::new(alloc);
    listeners.push(boxed(alloc, FirstN::new(alloc, 1))?)?;
    listeners.push(boxed(alloc, CountByModel::new(alloc))?)?;
    listeners.push(boxed(alloc, Wanting::new(alloc))?)?;
    listeners.push(boxed(alloc, LongestSpan::new(alloc))?)?;
    assert!(rt; tell(alloc, &mut listeners, 0).is_err());
    let pages = b"tally count 1\ntally 9 4\ntally longest\n";
    assert!(rt; have_pages(alloc, listeners.as_slice(), pages)?);
    keep_kinds(&mut listeners, &[false, true, true]);
    assert!(rt; have_pages(alloc, listeners.as_slice(), b"tally longest\n")?);
    Ok(())
}

#[test]
fn a_leaver_before_the_want_of_memory_is_dropped(rt: HostRuntime) -> Result<(), Fail> {
    let alloc = rt.alloc();
    let mut listeners: Vec<Box<dyn Listener>> = Vec::new(alloc);
    listeners.push(boxed(alloc, FirstN::new(alloc, 2))?)?;
    listeners.push(boxed(alloc, OnceOnly::new(alloc))?)?;
    listeners.push(boxed(alloc, CountByModel::new(alloc))?)?;
    tell(alloc, &mut listeners, 0)?;
    let pages = b"tally fewer 1\ntally count 1\ntally count 1\n";
    assert!(rt; have_pages(alloc, listeners.as_slice(), pages)?);
    assert!(rt; tell(alloc, &mut listeners, 0).is_err());
    let pages = b"tally count 1\ntally count 1\n";
    assert!(rt; have_pages(alloc, listeners.as_slice(), pages)?);
    Ok(())
}

#[test]
fn listeners_are_told_of_each_recognition(rt: HostRuntime) -> Result<(), Fail> {
    let alloc = rt.alloc();
    let mut listeners: Vec<Box<dyn Listener>> = Vec::new(alloc);
    listeners.push(boxed(alloc, FirstLast::new(alloc))?)?;
    let found = [recognition(alloc, 1, 9, 9)?, recognition(alloc, 1, 2, 5)?];
    tell_each(&mut listeners, &found)?;
    assert!(rt; have_pages(alloc, listeners.as_slice(), b"tally span 2 9\n")?);
    Ok(())
}
