ghost use Rattle.std.specs.Prelude.{◌≡◌, map, true, false, option_map, IfSome};
ghost use Rattle.std.specs.List.{AllByRecursion};
ghost use Rattle.crs_base.specs.declared.symbols.Sym.{Sym};
ghost use Rattle.crs_model.specs.Models.{Term as ModelTerm};
ghost use Rattle.crs_model.specs.Bindings.{look_of};
ghost use Rattle.crs_model.specs.SeenModels.{term_of, pattern_of, body_of};
ghost use Rattle.crs_model.specs.Verdicts.{TermIsBound, PatternIsBound, BodyIsBound};

use crs_model::{Binding, Body, Pattern, Term};

/// Whether the term has no unbound variable.
fn is_bound(term: Term, binding: &Binding) -> bool
    ensures yes { result ≡ true → TermIsBound (look_of binding.now) (term_of term) }
    ensures no { result ≡ false → TermIsBound (look_of binding.now) (term_of term) → ⊥ }
{
    match term {
        Term::Value(_) => true,
        Term::Var(v) => binding.get(v).is_some(),
        Term::Any => true,
    }
}

/// Whether none of the terms has an unbound variable.
fn are_bound(terms: &[Term], binding: &Binding) -> bool
    ensures yes { result ≡ true → AllByRecursion (TermIsBound (look_of binding.now)) (map term_of terms.now) }
    ensures no { result ≡ false → AllByRecursion (TermIsBound (look_of binding.now)) (map term_of terms.now) → ⊥ }
{
    match terms.split_first() {
        None => true,
        Some((first, rest)) => {
            if !is_bound(*first, binding) {
                return false;
            }
            are_bound(rest, binding)
        }
    }
}

/// Whether the change, if there is one, has no unbound variable.
fn change_is_bound(change: &Option<(Term, Term)>, binding: &Binding) -> bool
    ensures yes { result ≡ true → IfSome {T = ModelTerm Sym × ModelTerm Sym} (option_map (λ c. (term_of c.0, term_of c.1)) change.now) (λ c. TermIsBound (look_of binding.now) c.0 × TermIsBound (look_of binding.now) c.1) }
    ensures no { result ≡ false → IfSome {T = ModelTerm Sym × ModelTerm Sym} (option_map (λ c. (term_of c.0, term_of c.1)) change.now) (λ c. TermIsBound (look_of binding.now) c.0 × TermIsBound (look_of binding.now) c.1) → ⊥ }
{
    match change {
        None => true,
        Some(change) => {
            if !is_bound(change.0, binding) {
                return false;
            }
            is_bound(change.1, binding)
        }
    }
}

/// Whether the pattern has no unbound variable.
fn pattern_is_bound(pattern: &Pattern, binding: &Binding) -> bool
    ensures yes { result ≡ true → PatternIsBound (look_of binding.now) (pattern_of pattern.now) }
    ensures no { result ≡ false → PatternIsBound (look_of binding.now) (pattern_of pattern.now) → ⊥ }
{
    if !are_bound(pattern.terms.as_slice(), binding) {
        return false;
    }
    change_is_bound(&pattern.change, binding)
}

/// Whether what a window wants has no unbound variable.
#[inline(always)]
pub(crate) fn body_is_bound(body: &Body, binding: &Binding) -> bool
    ensures yes { result ≡ true → BodyIsBound (look_of binding.now) (body_of body.now) }
    ensures no { result ≡ false → BodyIsBound (look_of binding.now) (body_of body.now) → ⊥ }
{
    match body {
        Body::NoEvent(pattern) => pattern_is_bound(pattern, binding),
        Body::Occurs { pattern, .. } => pattern_is_bound(pattern, binding),
        Body::Hold { terms, value, .. } => {
            if !are_bound(terms.as_slice(), binding) {
                return false;
            }
            is_bound(*value, binding)
        }
    }
}
