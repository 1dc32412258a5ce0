ghost use Rattle.std.specs.Prelude.{◌≤◌, length, map, IfSome};
ghost use Rattle.std.specs.List.{AllZip, AllByRecursion};
ghost use Rattle.crs_model.specs.Bindings.{look_of};
ghost use Rattle.crs_model.specs.Matching.{TermIs};
ghost use Rattle.crs_model.specs.SeenModels.{term_of};
ghost use Rattle.crs_model.specs.Verdicts.{TermIsBound};
ghost use Rattle.crs_model.specs.ProperModels.{IsDefinite};
ghost use Rattle.crs_watch.specs.Known.{Tells, AreTold};

use crs_base::{Sym, SymList};
use crs_model::{Binding, Term};

/// The symbol that a term names.
pub(crate) fn value_of(term: Term, binding: &Binding) -> Sym
    requires bound { TermIsBound (look_of binding.now) (term_of term) }
    requires one { IsDefinite (term_of term) }
    ensures { TermIs (look_of binding.now) (term_of term) result }
{
    match term {
        Term::Value(symbol) => symbol,
        Term::Var(v) => match binding.get(v) {
            Some(symbol) => symbol,
            None => unreachable!(),
        },
        Term::Any => unreachable!(),
    }
}

/// The symbol that a term tells. None where that is any, or a variable that isn't bound.
fn told_by(term: Term, binding: &Binding) -> Option<Sym>
    ensures { IfSome result (Tells (look_of binding.now) (term_of term)) }
{
    match term {
        Term::Value(symbol) => Some(symbol),
        Term::Var(v) => binding.get(v),
        Term::Any => None,
    }
}

/// The symbols that the first eight terms tell under the binding, each at its place: all entries that the
/// terms equal under a binding that has as much have them.
pub fn known_of(terms: &[Term], binding: &Binding) -> [Option<Sym>; 8]
    ensures { AreTold (look_of binding.now) (map term_of terms.now) result }
{
    let mut known = [None; 8];
    for (place, term) in terms.iter().enumerate() {
        if place < 8 {
            known[place] = told_by(*term, binding);
        }
    }
    known
}

/// The symbols that terms name.
pub(crate) fn args_of(terms: &[Term], binding: &Binding) -> SymList
    requires few { length terms.now ≤ 8 }
    requires bound { AllByRecursion (TermIsBound (look_of binding.now)) (map term_of terms.now) }
    requires one { AllByRecursion IsDefinite (map term_of terms.now) }
    ensures { AllZip (TermIs (look_of binding.now)) (map term_of terms.now) result }
{
    let mut all = [Sym(0); 8];
    for (i, term) in terms.iter().enumerate() {
        all[i] = value_of(*term, binding);
    }
    SymList::first_of(all, terms.len() as u8)
}
