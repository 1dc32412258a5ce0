//! Reports: the lines of refusals, of summaries and of recognitions.
ghost use Rattle.std.specs.Prelude.{◌≡◌, ◌<◌, IfOk, IsTrue, IsSomeAnd, [], ◌∷◌, length, map, Some};
ghost use Rattle.std.specs.List.{AllByRecursion};
ghost use Rattle.crs_model.specs.Bindings.{PatternIsBelow};
ghost use Rattle.crs_model.specs.SeenModels.{chronicle_of, pattern_of};
ghost use Rattle.crs_report.specs.Printed.{chronicle_at, IsPrintable};

use crs_base::{Entry, List, Steps, Sym, SymList, Symbols, Text, is_symbol};
use crs_model::{
    Binding, Chronicle, EventDef, Mark, ModelWord, Pattern, Plan, Plans, Recognition, Term,
    bind_vars, fits,
};
use crs_report::{Fault, Summary, cited_line_of, line_of, model_line, refusal_line, summary_line};
use crs_stn::Network;
use std::alloc::{AllocError, Global};
use std::marker::Brand;
use std::rc::Rc;
use std::sync::ledger::{Blank, Ledger};
use std::test::Fail;

#[test]
fn each_refusal_has_its_line(rt: HostRuntime) -> Result<(), Fail> {
    let rows: [(Fault, &[u8]); 10] = [
        (Fault::Long, b"line 7 long\n"),
        (Fault::Form, b"line 7 form\n"),
        (Fault::Order, b"line 7 order\n"),
        (Fault::Back { t: 19, last: 20 }, b"line 7 back 19 20\n"),
        (
            Fault::Late {
                date: 139,
                horizon: 140,
            },
            b"line 7 late 139 140\n",
        ),
        (Fault::Arity, b"line 7 arity\n"),
        (Fault::Value, b"line 7 value\n"),
        (Fault::Full { limit: 1 }, b"line 7 full 1\n"),
        (Fault::Values { limit: 0 }, b"line 7 values 0\n"),
        (Fault::Flood { limit: 4 }, b"line 7 flood 4\n"),
    ];
    for (fault, line) in rows {
        let text = refusal_line(rt.alloc(), 7, fault)?;
        assert!(rt; text.bytes() == line, "{fault:?}");
    }
    let late = refusal_line(rt.alloc(), u64::MAX, Fault::Form)?;
    assert!(rt; late.bytes() == b"line 18446744073709551615 form\n".as_slice());
    Ok(())
}

#[test]
fn a_summary_has_five_numbers(rt: HostRuntime) -> Result<(), Fail> {
    let summary = Summary {
        entries: 16,
        refused: 3,
        recognitions: 5,
        kept: 2,
        peak: u64::MAX,
    };
    let text = summary_line(rt.alloc(), &summary)?;
    let line = b"summary entries 16 refused 3 recognitions 5 kept 2 peak 18446744073709551615\n";
    assert!(rt; text.bytes() == line.as_slice());
    Ok(())
}

#[test]
fn each_word_of_a_refused_model_has_its_line(rt: HostRuntime) -> Result<(), Fail> {
    let rows: [(ModelWord, &[u8]); 14] = [
        (ModelWord::Form, b"model line 9 form\n"),
        (ModelWord::Twice, b"model line 9 twice\n"),
        (ModelWord::Name, b"model line 9 name\n"),
        (ModelWord::Arity, b"model line 9 arity\n"),
        (ModelWord::Value, b"model line 9 value\n"),
        (ModelWord::Variable, b"model line 9 variable\n"),
        (ModelWord::Point, b"model line 9 point\n"),
        (ModelWord::Bound, b"model line 9 bound\n"),
        (ModelWord::Window, b"model line 9 window\n"),
        (ModelWord::Limit, b"model line 9 limit\n"),
        (ModelWord::Events, b"model line 9 events\n"),
        (ModelWord::Unbound, b"model line 9 unbound\n"),
        (ModelWord::Inconsistent, b"model line 9 inconsistent\n"),
        (ModelWord::Size, b"model line 9 size\n"),
    ];
    for (word, line) in rows {
        let text = model_line(rt.alloc(), 9, word)?;
        assert!(rt; text.bytes() == line, "{word:?}");
    }
    Ok(())
}

/// `low_volt[?b, ?p]`.
fn low_volt(alloc: Global) -> Result<Pattern, AllocError>
    ensures { IfOk result (λ p. PatternIsBelow 2 (pattern_of p)) }
{
    let mut terms = List::new(alloc);
    terms.push(Term::Var(0))?;
    terms.push(Term::Var(1))?;
    Ok(Pattern {
        name: Sym(1),
        terms,
        change: None,
    })
}

/// `event(low_volt[?b, ?p], POINT)`.
fn event(alloc: Global, point: Sym) -> Result<EventDef, AllocError>
    ensures { IfOk result (λ event. event.point ≡ point) }
{
    Ok(EventDef {
        pattern: low_volt(alloc)?,
        point,
        level: 0,
    })
}

fn two_events(alloc: Global) -> Result<List<EventDef>, AllocError>
    ensures { IfOk result (λ events. map (λ v. v.point.0) events ≡ 2 ∷ 3 ∷ []) }
{
    let mut events = List::new(alloc);
    events.push(event(alloc, Sym(2))?)?;
    events.push(event(alloc, Sym(3))?)?;
    Ok(events)
}

fn two_variables(alloc: Global) -> Result<List<Sym>, AllocError>
    ensures { IfOk result (λ variables. map (λ s. s.0) variables ≡ 4 ∷ 5 ∷ []) }
{
    let mut variables = List::new(alloc);
    variables.push(Sym(4))?;
    variables.push(Sym(5))?;
    Ok(variables)
}

/// Two events and two variables.
fn undervolt(alloc: Global) -> Result<Chronicle, AllocError>
    ensures name { IfOk result (λ c. c.name.0 ≡ 0) }
    ensures points { IfOk result (λ c. map (λ v. v.point.0) c.events ≡ 2 ∷ 3 ∷ []) }
    ensures variables { IfOk result (λ c. map (λ s. s.0) c.variables ≡ 4 ∷ 5 ∷ []) }
{
    Ok(Chronicle {
        name: Sym(0),
        prompt: false,
        line: 5,
        events: two_events(alloc)?,
        free: List::new(alloc),
        bounds: List::new(alloc),
        variables: two_variables(alloc)?,
        sets: List::new(alloc),
        differs: List::new(alloc),
        windows: List::new(alloc),
        emits: List::new(alloc),
    })
}

/// The plans of that chronicle alone.
fn plans_of(alloc: Global, chronicle: Chronicle) -> Result<Plans, Fail>
    ensures { IfOk result (λ plans. chronicle_at plans 0 ≡ Some (chronicle_of chronicle)) }
{
    let network = Network::close(alloc, 2, &[])?;
    let plan = Plan {
        chronicle,
        network,
        reach: None,
        lag: Some(0),
    };
    let mut plans = List::new(alloc);
    plans.push(Rc::new(alloc, plan)?)?;
    Ok(Plans {
        names: List::new(alloc),
        derived: List::new(alloc),
        plans,
        reach: None,
    })
}

/// `low_volt[b1,p2]` at a date.
pub(crate) fn entry(alloc: Global, arrival: u32, date: u64) -> Result<Entry, AllocError> {
    Ok(Entry {
        arrival,
        date,
        name: Sym(1),
        args: SymList::from_slice(&[Sym(6), Sym(7)]),
        change: None,
        text: Text::new(alloc, b"low_volt[b1,p2]")?,
    })
}

fn two_entries(alloc: Global) -> Result<List<Rc<Entry>>, AllocError>
    ensures { IfOk result (λ entries. length entries ≡ 2) }
{
    let mut entries = List::new(alloc);
    entries.push(Rc::new(alloc, entry(alloc, 0, 138)?)?)?;
    entries.push(Rc::new(alloc, entry(alloc, 1, 155)?)?)?;
    Ok(entries)
}

/// The binding of the pattern to an entry, with a counter of its own.
fn bound<L: Ledger>(alloc: Global, blank: Blank) -> Result<Binding, AllocError>
    requires name { blank.name ≡ L.name }
    requires parts { blank.parts ≡ L.parts }
    requires some { 0 < L.parts }
    ensures { IfOk result (λ binding. length binding ≡ 2) }
{
    let mut steps = Steps::<L>::new(blank);
    let pattern = low_volt(alloc)?;
    let entry = entry(alloc, 0, 138)?;
    let mut binding = Binding::new(2);
    if fits(&pattern, &binding, &entry, &mut steps) {
        bind_vars(&mut binding, &pattern, &entry);
    }
    Ok(binding)
}

/// Whether both variables have symbols among the first 8.
fn are_bound(binding: &Binding) -> bool
    requires { length binding.now ≡ 2 }
    ensures { IsTrue result → AllByRecursion (λ o. IsSomeAnd o (λ s. s.0 < 8)) binding.now }
{
    match (binding.get(0), binding.get(1)) {
        (Some(first), Some(second)) => first.0 < 8 && second.0 < 8,
        _ => false,
    }
}

/// The line of a recognition, in which its entries are cited or not.
fn told_line(
    alloc: Global,
    plans: &Plans,
    symbols: &Symbols,
    r: &Recognition,
    cite: bool,
) -> Result<Text, AllocError>
    requires { IsSomeAnd (chronicle_at plans.now r.now.chronicle) (IsPrintable symbols.now.texts r.now) }
{
    if cite {
        cited_line_of(alloc, plans, symbols, r)
    } else {
        line_of(alloc, plans, symbols, r)
    }
}

/// The line of a recognition of the undervolt.
fn undervolt_line(alloc: Global, symbols: &Symbols, mark: Mark, cite: bool) -> Result<Text, Fail>
    requires { length symbols.now.texts ≡ 8 }
{
    let chronicle = undervolt(alloc)?;
    let plans = plans_of(alloc, chronicle)?;
    let entries = two_entries(alloc)?;
    let binding = bound::<Brand>(alloc, Blank::new(1))?;
    if !are_bound(&binding) {
        return Ok(Text::new(alloc, b"unbound")?);
    }
    let r = Recognition {
        chronicle: 0,
        mark,
        entries,
        binding,
    };
    Ok(told_line(alloc, &plans, symbols, &r, cite)?)
}

#[test]
fn a_recognition_has_its_line(rt: HostRuntime) -> Result<(), Fail> {
    let alloc = rt.alloc();
    let mut symbols = Symbols::new(alloc, 8)?;
    let texts: [&[u8]; 8] = [
        b"undervolt",
        b"low_volt",
        b"t1",
        b"t2",
        b"b",
        b"p",
        b"b1",
        b"p2",
    ];
    for text in texts {
        assert!(rt; is_symbol(text));
        assert!(rt; symbols.intern(text).is_ok());
    }
    assert!(rt; symbols.len() == 8);
    let line = undervolt_line(alloc, &symbols, Mark::Clock(166), false)?;
    assert!(rt; line.bytes() == b"undervolt at 166 t1=138 t2=155 ?b=b1 ?p=p2\n".as_slice());
    let line = undervolt_line(alloc, &symbols, Mark::Clock(166), true)?;
    assert!(rt;
        line.bytes() == b"undervolt at 166 t1=138 t2=155 ?b=b1 ?p=p2 cites 0 1\n".as_slice()
    );
    let line = undervolt_line(alloc, &symbols, Mark::Finish, false)?;
    assert!(rt; line.bytes() == b"undervolt at end t1=138 t2=155 ?b=b1 ?p=p2\n".as_slice());
    Ok(())
}
