//! Watches: what settling and passing make of a window, and which armed pairs are touched at a date.
ghost use Rattle.std.specs.Prelude.{◌≡◌, ◌≤◌, ◌<◌, ◌^◌, ◌≤ℤ◌, pos, [], length, IfOk, OnOk};

use crs_base::{Entry, List, Sym, SymList, Text};
use crs_history::History;
use crs_model::{Anchor, Binding, Body, Pattern, Progress, Stretch, Term, Verdict, Window};
use crs_watch::{Watch, begin, judge, pass, settle};
use std::alloc::{AllocError, Global};
use std::rc::Rc;
use std::test::Fail;

const NEW: Progress = Progress {
    count: 0,
    broken: false,
};

/// An entry without arguments.
fn entry(
    alloc: Global,
    date: u64,
    name: u32,
    change: Option<(Sym, Sym)>,
) -> Result<Rc<Entry>, AllocError>
    ensures { IfOk result (λ r. r.value.date ≡ date) }
{
    Ok(Rc::new(
        alloc,
        Entry {
            arrival: 0,
            date,
            name: Sym(name),
            args: SymList::from_slice(&[]),
            change,
            text: Text::new(alloc, b"")?,
        },
    )?)
}

/// A window of the body, between the dates of one event.
fn window(body: Body) -> Window
    ensures { result.body ≡ body }
{
    Window {
        body,
        from: Anchor {
            event: 0,
            offset: 1,
        },
        to: Anchor {
            event: 0,
            offset: 9,
        },
    }
}

#[test]
fn no_event_is_wanted_before_the_end(rt: HostRuntime) -> Result<(), Fail> {
    let alloc = rt.alloc();
    let pattern = Pattern {
        name: Sym(1),
        terms: List::new(alloc),
        change: None,
    };
    let absent = window(Body::NoEvent(pattern));
    let binding = Binding::new(0);
    let stretch = Stretch { from: 4, to: 12 };
    let others = [
        (3, 1, Verdict::Met),
        (4, 1, Verdict::Lost),
        (11, 1, Verdict::Lost),
        (11, 2, Verdict::Met),
        (12, 1, Verdict::Met),
    ];
    for (date, name, verdict) in others {
        let other = entry(alloc, date, name, None)?;
        let p = settle(&absent, &binding, stretch, NEW, &other);
        assert!(rt; judge(&absent, stretch, p, 12) == verdict);
    }
    assert!(rt; judge(&absent, stretch, NEW, 11) == Verdict::Waiting);
    Ok(())
}

#[test]
fn a_value_holds_from_its_change_on(rt: HostRuntime) -> Result<(), Fail> {
    let alloc = rt.alloc();
    let held = window(Body::Hold {
        name: Sym(0),
        terms: List::new(alloc),
        value: Term::Value(Sym(9)),
    });
    let binding = Binding::new(0);
    let stretch = Stretch { from: 10, to: 15 };
    let mut history = History::new(alloc);
    let p = begin(&held, &binding, stretch, &history, 5);
    assert!(rt; p == NEW);
    assert!(rt; begin(&held, &binding, stretch, &history, 11).broken);
    history.push(entry(alloc, 8, 0, Some((Sym(8), Sym(9))))?)?;
    assert!(rt; begin(&held, &binding, stretch, &history, 20) == NEW);
    let q = pass(&held, &binding, stretch, p, &history, 5, 20);
    assert!(rt; judge(&held, stretch, q, 20) == Verdict::Met);
    Ok(())
}

/// Windows of five instances, armed under three names.
fn armed(alloc: Global) -> Result<Watch<Sym>, AllocError> {
    let late = Stretch { from: 3, to: 20 };
    let mut watch = Watch::new(alloc);
    for (id, window, name, stretch) in [
        (7, 1, 4, Stretch { from: -5, to: 9 }),
        (7, 0, 4, late),
        (2, 3, 4, late),
        (2, 3, 5, late),
        (9, 0, 3, late),
        (8, 0, 4, Stretch { from: 9, to: 10 }),
    ] {
        watch.arm(id, window, Sym(name), stretch)?;
    }
    Ok(watch)
}

#[test]
fn armed_pairs_are_touched_by_date(rt: HostRuntime) -> Result<(), Fail> {
    let watch = armed(rt.alloc())?;
    assert!(rt; watch.touched(Sym(4), 8).eq([(2, 3), (7, 0), (7, 1)]));
    assert!(rt; watch.touched(Sym(4), 2).eq([(7, 1)]));
    assert!(rt; watch.touched(Sym(4), 9).eq([(2, 3), (7, 0), (8, 0)]));
    Ok(())
}

#[test]
fn pairs_are_armed_anew_and_disarmed(rt: HostRuntime) -> Result<(), Fail> {
    let mut watch = armed(rt.alloc())?;
    watch.arm(7, 0, Sym(4), Stretch { from: 30, to: 31 })?;
    watch.disarm(2);
    assert!(rt; watch.touched(Sym(4), 8).eq([(7, 1)]));
    assert!(rt; watch.touched(Sym(4), 30).eq([(7, 0)]));
    assert!(rt; watch.touched(Sym(4), 31).next() == None);
    assert!(rt; watch.touched(Sym(5), 8).next() == None);
    assert!(rt; watch.touched(Sym(3), 8).next() == Some((9, 0)));
    Ok(())
}
