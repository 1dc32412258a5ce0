//! Patterns: what they match, the symbols that they bind, and the bindings that a chronicle allows.
ghost use Rattle.std.specs.Prelude.{◌≡◌, ◌<◌, ◌≤◌, length, IsSome, IfOk, IfSome};
ghost use Rattle.crs_model.specs.Bindings.{PatternIsBelow, look_of};
ghost use Rattle.crs_model.specs.SeenModels.{pattern_of};

use crs_base::{Entry, List, Steps, Sym, SymList, Text};
use crs_model::{Binding, Chronicle, Pattern, Term, VarSet, accepts, allowed, bind_vars, fits};
use std::alloc::{AllocError, Global};
use std::marker::Brand;
use std::sync::ledger::{Blank, Ledger};
use std::test::Fail;

const FIVE: Sym = Sym(5);

const SIX: Sym = Sym(6);

const SEVEN: Sym = Sym(7);

/// An entry of this name, with these arguments and this change.
fn entry(
    alloc: Global,
    name: u32,
    args: &[Sym],
    change: Option<(Sym, Sym)>,
) -> Result<Entry, AllocError>
    requires { length args.now ≤ 8 }
{
    Ok(Entry {
        arrival: 0,
        date: 0,
        name: Sym(name),
        args: SymList::from_slice(args),
        change,
        text: Text::new(alloc, b"")?,
    })
}

/// A pattern of name 0, with these terms and this change.
fn pattern(
    alloc: Global,
    terms: &[Term],
    change: Option<(Term, Term)>,
) -> Result<Pattern, AllocError>
    ensures terms { IfOk result (λ p. p.terms ≡ terms.now) }
    ensures change { IfOk result (λ p. p.change ≡ change) }
{
    let mut list = List::new(alloc);
    for term in terms {
        list.push(*term)?;
    }
    Ok(Pattern {
        name: Sym(0),
        terms: list,
        change,
    })
}

/// The least binding beyond this one by which the pattern equals the entry, where there is one.
fn bound_by<L: Ledger>(
    blank: Blank,
    pattern: &Pattern,
    binding: &Binding,
    entry: &Entry,
) -> Option<Binding>
    requires name { blank.name ≡ L.name }
    requires parts { blank.parts ≡ L.parts }
    requires some { 0 < L.parts }
    requires below { PatternIsBelow (length binding.now) (pattern_of pattern.now) }
    ensures { IfSome result (λ b. length b ≡ length binding.now) }
{
    let mut steps = Steps::<L>::new(blank);
    if !fits(pattern, binding, entry, &mut steps) {
        return None;
    }
    let mut next = binding.copy();
    bind_vars(&mut next, pattern, entry);
    Some(next)
}

/// The symbols of the two variables where the pattern `(?0, ?0, *)` of name 0 is to equal this entry,
/// if it can.
fn bound_to(
    alloc: Global,
    name: u32,
    args: &[Sym],
    change: Option<(Sym, Sym)>,
) -> Result<Option<(Option<Sym>, Option<Sym>)>, AllocError>
    requires { length args.now ≤ 8 }
{
    let pattern = pattern(alloc, &[Term::Var(0), Term::Var(0), Term::Any], None)?;
    let entry = entry(alloc, name, args, change)?;
    match bound_by::<Brand>(Blank::new(1), &pattern, &Binding::new(2), &entry) {
        None => Ok(None),
        Some(bound) => Ok(Some((bound.get(0), bound.get(1)))),
    }
}

#[test]
fn patterns_bind_variables_to_symbols(rt: HostRuntime) -> Result<(), Fail> {
    let alloc = rt.alloc();
    let bound = bound_to(alloc, 0, &[FIVE, FIVE, SIX], None)?;
    assert!(rt; bound == Some((Some(FIVE), None)));
    assert!(rt; bound_to(alloc, 0, &[FIVE, SIX, SIX], None)?.is_none());
    assert!(rt; bound_to(alloc, 0, &[FIVE, FIVE], None)?.is_none());
    assert!(rt; bound_to(alloc, 1, &[FIVE, FIVE, SIX], None)?.is_none());
    assert!(rt; bound_to(alloc, 0, &[FIVE, FIVE, SIX], Some((FIVE, SIX)))?.is_none());
    Ok(())
}

/// The binding with one more variable bound, as an entry of this argument binds it.
fn with(alloc: Global, binding: &Binding, i: u8, symbol: Sym) -> Result<Binding, Fail>
    requires { i < length binding.now }
    ensures { IfOk result (λ b. length b ≡ length binding.now) }
{
    let pattern = pattern(alloc, &[Term::Var(i)], None)?;
    let entry = entry(alloc, 0, &[symbol], None)?;
    let bound = bound_by::<Brand>(Blank::new(1), &pattern, binding, &entry);
    Ok(bound.ok_or("it has another symbol")?)
}

/// Whether the pattern `(?0, 6)` of name 0, whose change ends in ?0, equals this entry at a binding.
fn equals(
    alloc: Global,
    binding: &Binding,
    name: u32,
    args: &[Sym],
    change: Option<(Sym, Sym)>,
) -> Result<bool, AllocError>
    requires bound { IsSome (look_of binding.now 0) }
    requires short { length args.now ≤ 8 }
{
    let terms = &[Term::Var(0), Term::Value(SIX)];
    let pattern = pattern(alloc, terms, Some((Term::Any, Term::Var(0))))?;
    let entry = entry(alloc, name, args, change)?;
    Ok(accepts(&pattern, binding, &entry))
}

#[test]
fn patterns_equal_entries_of_the_same_change(rt: HostRuntime) -> Result<(), Fail> {
    let alloc = rt.alloc();
    let binding = &with(alloc, &Binding::new(1), 0, FIVE)?;
    assert!(rt; binding.get(0) == Some(FIVE));
    assert!(rt; equals(alloc, binding, 0, &[FIVE, SIX], Some((SIX, FIVE)))?);
    assert!(rt; !equals(alloc, binding, 0, &[SIX, SIX], Some((SIX, FIVE)))?);
    assert!(rt; !equals(alloc, binding, 0, &[FIVE, FIVE], Some((SIX, FIVE)))?);
    assert!(rt; !equals(alloc, binding, 0, &[FIVE, SIX], Some((FIVE, SIX)))?);
    assert!(rt; !equals(alloc, binding, 0, &[FIVE, SIX], None)?);
    assert!(rt; !equals(alloc, binding, 1, &[FIVE, SIX], Some((SIX, FIVE)))?);
    Ok(())
}

/// The first variable is one of two symbols, and differs from the second.
fn chronicle(alloc: Global) -> Result<Chronicle, AllocError> {
    let mut values = List::new(alloc);
    values.push(FIVE)?;
    values.push(SIX)?;
    let mut sets = List::new(alloc);
    sets.push(VarSet {
        variable: 0,
        values,
    })?;
    let mut differs = List::new(alloc);
    differs.push((0, 1))?;
    Ok(Chronicle {
        name: Sym(0),
        prompt: false,
        line: 1,
        events: List::new(alloc),
        free: List::new(alloc),
        bounds: List::new(alloc),
        variables: List::new(alloc),
        sets,
        differs,
        windows: List::new(alloc),
        emits: List::new(alloc),
    })
}

/// The binding of two variables to these symbols, where they are given.
fn binding_of(alloc: Global, first: Option<Sym>, second: Option<Sym>) -> Result<Binding, Fail> {
    let mut binding = Binding::new(2);
    if let Some(symbol) = first {
        binding = with(alloc, &binding, 0, symbol)?;
    }
    if let Some(symbol) = second {
        binding = with(alloc, &binding, 1, symbol)?;
    }
    Ok(binding)
}

/// Whether the chronicle allows the binding.
fn allows(alloc: Global, binding: &Binding) -> Result<bool, AllocError> {
    let chronicle = chronicle(alloc)?;
    Ok(allowed(&chronicle, binding))
}

#[test]
fn bindings_keep_to_the_sets_and_differences(rt: HostRuntime) -> Result<(), Fail> {
    for (first, second, is_allowed) in &[
        (None, None, true),
        (Some(FIVE), None, true),
        (Some(FIVE), Some(SEVEN), true),
        (Some(FIVE), Some(FIVE), false),
        (Some(SEVEN), None, false),
    ] {
        let binding = binding_of(rt.alloc(), *first, *second)?;
        assert!(rt; binding.get(0) == *first && binding.get(1) == *second);
        assert!(rt; binding.get(2).is_none());
        assert!(rt; allows(rt.alloc(), &binding)? == *is_allowed);
    }
    Ok(())
}
