//! Which names are looked up among the settled entries, and by which of their arguments. No clause speaks of
//! it: what a history is told changes how long it takes to answer, and not what is recognised.
use crs_base::Sym;
use crs_model::{Body, Chronicle, EventDef, Plan, Term, Window};
use std::alloc::{AllocError, Global};
use std::rc::Rc;

/// Whether the variable is in a pattern of an event of a lower level.
fn is_known_before(events: &[EventDef], level: u8, variable: u8) -> bool {
    events.iter().any(|event| {
        event.level < level && has_variable(event.pattern.terms.as_slice(), variable)
    })
}

/// Whether the variable is among the terms.
fn has_variable(terms: &[Term], variable: u8) -> bool {
    terms.iter().any(|term| matches!(term, Term::Var(other) if *other == variable))
}

/// The places of the first eight terms that are known when the window begins, as bits from the least.
fn places_of_window(terms: &[Term]) -> u8 {
    let mut places = 0;
    for (place, term) in terms.iter().take(8).enumerate() {
        if !matches!(term, Term::Any) {
            places |= 1 << place;
        }
    }
    places
}

/// The places of the first eight terms that are known where the events of lower levels are bound.
fn places_of_event(events: &[EventDef], event: &EventDef) -> u8 {
    let mut places = 0;
    for (place, term) in event.pattern.terms.as_slice().iter().take(8).enumerate() {
        let known = match term {
            Term::Value(_) => true,
            Term::Var(variable) => is_known_before(events, event.level, *variable),
            Term::Any => false,
        };
        if known {
            places |= 1 << place;
        }
    }
    places
}

/// Adds a look-up of the name: of the places those are left that each look-up knows.
fn add(all: &mut Vec<Option<u8>>, name: Sym, places: u8) -> Result<(), AllocError> {
    let number = name.0 as usize;
    while all.len() <= number {
        all.push(None)?;
    }
    let left = match all[number] {
        None => places,
        Some(others) => others & places,
    };
    all[number] = Some(left);
    Ok(())
}

/// Adds the look-up of a window.
fn add_window(all: &mut Vec<Option<u8>>, window: &Window) -> Result<(), AllocError> {
    let (name, terms) = match &window.body {
        Body::NoEvent(pattern) => (pattern.name, &pattern.terms),
        Body::Occurs { pattern, .. } => (pattern.name, &pattern.terms),
        Body::Hold { name, terms, .. } => (*name, terms),
    };
    add(all, name, places_of_window(terms.as_slice()))
}

/// Adds the look-ups of a chronicle: those of its windows, and of its events where levels are read.
fn add_all(
    all: &mut Vec<Option<u8>>,
    chronicle: &Chronicle,
    focus: bool,
) -> Result<(), AllocError> {
    for window in chronicle.windows.as_slice() {
        add_window(all, window)?;
    }
    if !focus {
        return Ok(());
    }
    let events = chronicle.events.as_slice();
    for event in events {
        add(all, event.pattern.name, places_of_event(events, event))?;
    }
    Ok(())
}

/// By the number of a name the places of the arguments that each look-up of it knows, as bits from the
/// least. None where nobody looks for it.
pub(crate) fn looked_up(
    alloc: Global,
    plans: &[Rc<Plan>],
    focus: bool,
) -> Result<Vec<Option<u8>>, AllocError> {
    let mut all = Vec::new(alloc);
    for plan in plans {
        add_all(&mut all, &plan.chronicle, focus)?;
    }
    Ok(all)
}
