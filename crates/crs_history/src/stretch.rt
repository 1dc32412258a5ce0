ghost use Rattle.std.specs.Prelude.{◌≡◌, ◌++◌, [], filter, nat_lt, true, false, None, IfSome};
ghost use Rattle.crs_base.specs.Seen.{entry_of};
ghost use Rattle.crs_history.specs.Dates.{IsByDate};
ghost use Rattle.crs_history.specs.Histories.{EndsWith};
ghost use Rattle.crs_history.specs.Looking.{is_before, is_since, AllBring};
ghost use Rattle.crs_history.specs.Runs.{changes_of, is_early, is_late, BeginsWith, EndsIn};

use crate::reading::brings;
use crate::track::Change;
use crs_base::{Entry, Sym};
use std::marker::Model;
use std::rc::Rc;

/// Changes of a track that stand side by side.
#[derive(Drop)]
pub(crate) struct Stretch<'a> {
    pub front: &'a [Change],
    pub back: &'a [Change],
}

impl<'a> Model for Stretch<'a> {
    ghost use Rattle.std.specs.Prelude.{List, ◌++◌};
    ghost use Rattle.crs_base.specs.declared.symbols.Sym.{Sym};
    ghost use Rattle.crs_base.specs.Entry.{Entry};
    ghost use Rattle.crs_history.specs.Runs.{changes_of, AreRuns};

    ghost Value = { List (Entry Sym) };

    ghost view = { λ s. changes_of s.front.now ++ changes_of s.back.now };

    ghost invariant = { λ s. AreRuns (s.front.now ++ s.back.now) };
}

/// The changes dated before the date, and the others.
fn split_changes(items: &[Change], date: u64) -> (&[Change], &[Change])
    requires { IsByDate (changes_of items.now) }
    ensures before { result.0.now ≡ filter (is_early date) items.now }
    ensures since { result.1.now ≡ filter (is_late date) items.now }
{
    let place = items.partition_point(
        |c: &Change| -> bool
            ensures { result ≡ nat_lt c.now.entry.value.date date }
        { c.entry.date < date },
    );
    items.split_at(place)
}

/// The last change of both.
fn last_of<'a>(front: &'a [Change], back: &'a [Change]) -> Option<&'a Change>
    ensures none { result ≡ None → front.now ++ back.now ≡ [] }
    ensures some { IfSome result (λ r. EndsIn r.now (front.now ++ back.now)) }
{
    match back.last() {
        Some(last) => Some(last),
        None => front.last(),
    }
}

impl<'a> Stretch<'a> {
    /// No changes.
    pub fn none() -> Stretch<'a>
        ensures { result ≡ [] }
    {
        Stretch {
            front: &[],
            back: &[],
        }
    }

    /// Those that are dated before the date, and the others.
    pub fn split(&self, date: u64) -> (Stretch<'a>, Stretch<'a>)
        requires { IsByDate self.now }
        ensures before { result.0 ≡ filter (is_before date) self.now }
        ensures since { result.1 ≡ filter (is_since date) self.now }
    {
        let (early_front, late_front) = split_changes(self.front, date);
        let (early_back, late_back) = split_changes(self.back, date);
        let early = Stretch {
            front: early_front,
            back: early_back,
        };
        let late = Stretch {
            front: late_front,
            back: late_back,
        };
        (early, late)
    }

    /// The first of them.
    pub fn first(&self) -> Option<&'a Rc<Entry>>
        ensures none { result ≡ None → self.now ≡ [] }
        ensures some { IfSome result (λ r. BeginsWith (entry_of r.now.value) self.now) }
    {
        match self.front.first().or(self.back.first()) {
            Some(change) => Some(&change.entry),
            None => None,
        }
    }

    /// The last of them.
    pub fn latest(&self) -> Option<&'a Rc<Entry>>
        ensures none { result ≡ None → self.now ≡ [] }
        ensures some { IfSome result (λ r. EndsWith (entry_of r.now.value) self.now) }
    {
        match last_of(self.front, self.back) {
            Some(change) => Some(&change.entry),
            None => None,
        }
    }

    /// Whether all of them bring this value.
    pub fn all_bring(&self, value: Sym) -> bool
        ensures yes { result ≡ true → AllBring value self.now }
        ensures no { result ≡ false → AllBring value self.now → ⊥ }
    {
        match last_of(self.front, self.back) {
            None => true,
            Some(last) => {
                let before = self.front.len() + self.back.len() - 1;
                brings(&last.entry, value) && before <= last.repeats
            }
        }
    }
}
