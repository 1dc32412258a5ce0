//! What tells that an entry can't touch a window, whatever is bound: it looks at constants alone.
ghost use Rattle.std.specs.Prelude.{◌≡◌, true, map};
ghost use Rattle.std.specs.List.{AllZip};
ghost use Rattle.crs_base.specs.declared.symbols.Sym.{Sym};
ghost use Rattle.crs_base.specs.Seen.{entry_of};
ghost use Rattle.crs_base.specs.Values.{NewIs};
ghost use Rattle.crs_model.specs.Matching.{Binding, TermIs, PatternIs};
ghost use Rattle.crs_model.specs.SeenModels.{term_of, pattern_of, body_of};
ghost use Rattle.crs_waiting.specs.Refusing.{Refuses};

use crs_base::{Entry, Sym};
use crs_history::brings;
use crs_model::{Body, Pattern, Term};

/// Whether the term is another constant than the symbol.
fn differs(term: Term, symbol: Sym) -> bool
    ensures { result ≡ true → (look : Binding Sym) → TermIs look (term_of term) symbol → ⊥ }
{
    match term {
        Term::Value(value) => value.0 != symbol.0,
        Term::Var(_) => false,
        Term::Any => false,
    }
}

/// Whether one of the terms is another constant than its symbol.
fn differ(terms: &[Term], symbols: &[Sym]) -> bool
    ensures { result ≡ true → (look : Binding Sym) → AllZip (TermIs look) (map term_of terms.now) symbols.now → ⊥ }
{
    for i in 0..terms.len() {
        if i >= symbols.len() {
            return false;
        }
        if differs(terms[i], symbols[i]) {
            return true;
        }
    }
    false
}

/// Whether a constant of the pattern's terms is another than the entry's.
fn misses(pattern: &Pattern, entry: &Entry) -> bool
    ensures { result ≡ true → (look : Binding Sym) → PatternIs look (pattern_of pattern.now) (entry_of entry.now) → ⊥ }
{
    differ(pattern.terms.as_slice(), entry.args.as_slice())
}

/// Whether the term is a constant that is the entry's new value.
fn is_brought(value: Term, entry: &Entry) -> bool
    ensures { result ≡ true → (look : Binding Sym) (v : _) → TermIs look (term_of value) v → NewIs v (entry_of entry.now) }
{
    match value {
        Term::Value(wanted) => brings(entry, wanted),
        Term::Var(_) => false,
        Term::Any => false,
    }
}

/// Whether the entry is refused by a constant of the body's terms, or tells again the constant that
/// a `hold` wants: it changes nothing for any instance, so none is looked up.
pub fn refuses(body: &Body, entry: &Entry) -> bool
    ensures { result ≡ true → Refuses (body_of body.now) (entry_of entry.now) }
{
    match body {
        Body::NoEvent(pattern) => misses(pattern, entry),
        Body::Occurs { pattern, .. } => misses(pattern, entry),
        Body::Hold { terms, value, .. } => {
            is_brought(*value, entry) || differ(terms.as_slice(), entry.args.as_slice())
        }
    }
}
