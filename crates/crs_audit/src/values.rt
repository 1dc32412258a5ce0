// Whether an attribute has a value at each date of a stretch.
ghost use Rattle.std.specs.Prelude.{◌↔◌, ◌<◌, ◌^◌, pos, ◌≤ℤ◌, IsTrue, map};
ghost use Rattle.std.specs.List.{AllZip, AllByRecursion};
ghost use Rattle.crs_base.specs.Seen.{entry_of};
ghost use Rattle.crs_model.specs.SeenModels.{term_of};
ghost use Rattle.crs_model.specs.Matching.{TermIs};
ghost use Rattle.crs_model.specs.Bindings.{look_of};
ghost use Rattle.crs_audit.specs.CitedDates.{IsByDate};
ghost use Rattle.crs_audit.specs.Runs.{entries_of};
ghost use Rattle.crs_audit.specs.Changes.{IsTurn, Brings, IsLastDate, IsKept};

use crate::dates::dated_in;
use crs_base::{Entry, Sym};
use crs_model::{Binding, Term};
use std::rc::Rc;

/// An attribute under a binding, and the value that it is to have.
#[derive(Clone, Copy)]
pub struct Wanted<'a> {
    pub name: Sym,
    pub terms: &'a [Term],
    pub value: Term,
    pub binding: &'a Binding,
}

/// Whether the term, under the binding, is the symbol.
fn is_symbol(binding: &Binding, term: Term, symbol: Sym) -> bool
    ensures { IsTrue result ↔ TermIs (look_of binding.now) (term_of term) symbol }
{
    match term {
        Term::Value(value) => value == symbol,
        Term::Var(v) => binding.get(v) == Some(symbol),
        Term::Any => true,
    }
}

/// Whether the arguments are these terms.
fn are_symbols(binding: &Binding, terms: &[Term], symbols: &[Sym]) -> bool
    ensures { IsTrue result ↔ AllZip (TermIs (look_of binding.now)) (map term_of terms.now) symbols.now }
{
    match (terms.split_first(), symbols.split_first()) {
        (Some((term, terms)), Some((symbol, symbols))) => {
            is_symbol(binding, *term, *symbol) && are_symbols(binding, terms, symbols)
        }
        (None, None) => true,
        _ => false,
    }
}

impl<'a> Wanted<'a> {
    /// Whether the entry is one of the first `accepted` of the log and changes the attribute.
    fn is_turn(&self, entry: &Entry, accepted: u32) -> bool
        ensures { IsTrue result ↔ IsTurn (look_of self.now.binding.now) self.now.name (map term_of self.now.terms.now) accepted (entry_of entry.now) }
    {
        entry.arrival < accepted
            && entry.name == self.name
            && entry.change.is_some()
            && are_symbols(self.binding, self.terms, entry.args.as_slice())
    }

    /// Whether the entry's new value is the wanted one.
    fn is_brought(&self, entry: &Entry) -> bool
        ensures { IsTrue result ↔ Brings (look_of self.now.binding.now) (term_of self.now.value) (entry_of entry.now) }
    {
        match entry.change {
            None => false,
            Some(change) => is_symbol(self.binding, self.value, change.1),
        }
    }

    /// Whether the entry brings the wanted value, if it is one of the first `accepted` of the log and
    /// changes the attribute.
    fn is_kept(&self, entry: &Entry, accepted: u32) -> bool
        ensures { IsTrue result ↔ (IsTurn (look_of self.now.binding.now) self.now.name (map term_of self.now.terms.now) accepted (entry_of entry.now) → Brings (look_of self.now.binding.now) (term_of self.now.value) (entry_of entry.now)) }
    {
        if self.is_turn(entry, accepted) {
            self.is_brought(entry)
        } else {
            true
        }
    }
}

/// The date of the last change, where the first `accepted` entries of the log count.
fn last_date(wanted: &Wanted<'_>, entries: &[Rc<Entry>], accepted: u32) -> Option<u64>
    requires { IsByDate (entries_of entries.now) }
    ensures { IsLastDate (IsTurn (look_of wanted.now.binding.now) wanted.now.name (map term_of wanted.now.terms.now) accepted) (entries_of entries.now) result }
{
    let mut n = entries.len();
    while n > 0 {
        n -= 1;
        let entry: &Entry = &entries[n];
        if wanted.is_turn(entry, accepted) {
            return Some(entry.date);
        }
    }
    None
}

/// Whether each change brings the wanted value, where the first `accepted` entries of the log count.
fn all_bring(wanted: &Wanted<'_>, entries: &[Rc<Entry>], accepted: u32) -> bool
    ensures { IsTrue result ↔ AllByRecursion (λ e. IsTurn (look_of wanted.now.binding.now) wanted.now.name (map term_of wanted.now.terms.now) accepted e → Brings (look_of wanted.now.binding.now) (term_of wanted.now.value) e) (entries_of entries.now) }
{
    for entry in entries {
        if !wanted.is_kept(entry, accepted) {
            return false;
        }
    }
    true
}

/// Whether the attribute has the value from one date on and before another, by the first `accepted`
/// entries of the log.
pub fn holds(wanted: &Wanted<'_>, entries: &[Rc<Entry>], accepted: u32, from: i64, to: i64) -> bool
    requires by_date { IsByDate (entries_of entries.now) }
    requires dated { AllByRecursion (λ e. e.date < 2 ^ 40) (entries_of entries.now) }
    requires far { from ≤ℤ pos (2 ^ 42) }
    ensures { IsTrue result ↔ IsKept (IsTurn (look_of wanted.now.binding.now) wanted.now.name (map term_of wanted.now.terms.now) accepted) (Brings (look_of wanted.now.binding.now) (term_of wanted.now.value)) (entries_of entries.now) from to }
{
    match last_date(wanted, dated_in(entries, 0, from + 1), accepted) {
        None => false,
        Some(date) => all_bring(wanted, dated_in(entries, date as i64, to), accepted),
    }
}
