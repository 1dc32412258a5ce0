ghost use Rattle.std.specs.Prelude.{◌≡◌, filter, [], None, IfSome};
ghost use Rattle.std.specs.Iterator.{YieldsFirstBy, item_count};
ghost use Rattle.crs_base.specs.Seen.{entry_of};
ghost use Rattle.crs_history.specs.Histories.{entries_of, EndsWith};
ghost use Rattle.crs_history.specs.Dates.{IsByDate};
ghost use Rattle.crs_history.specs.Looking.{is_before, is_since};

use crate::looking::split_by_date;
use crs_base::Entry;
use std::collections::VecDeque;
use std::marker::Model;
use std::rc::Rc;

/// Some of the held entries, in key order, seen as the list of those that are left.
#[derive(Drop)]
pub struct Found<'a> {
    front: &'a [Rc<Entry>],
    back: &'a [Rc<Entry>],
}

impl<'a> Model for Found<'a> {
    ghost use Rattle.std.specs.Prelude.{List, ◌++◌};
    ghost use Rattle.crs_base.specs.declared.symbols.Sym.{Sym};
    ghost use Rattle.crs_base.specs.Entry.{Entry};
    ghost use Rattle.crs_history.specs.Histories.{entries_of};

    ghost Value = { List (Entry Sym) };

    ghost view = { λ r. entries_of r.front.now ++ entries_of r.back.now };
}

impl<'a> Found<'a> {
    /// No entries.
    pub(crate) fn none() -> Found<'a>
        ensures { result ≡ [] }
    {
        Found {
            front: &[],
            back: &[],
        }
    }

    /// All entries of a queue.
    pub(crate) fn of(queue: &'a VecDeque<Rc<Entry>>) -> Found<'a>
        ensures { result ≡ entries_of queue.now.items }
    {
        let (front, back) = queue.as_slices();
        Found { front, back }
    }

    /// Those that are dated before the date.
    pub(crate) fn before(&self, date: u64) -> Found<'a>
        requires { IsByDate self.now }
        ensures { result ≡ filter (is_before date) self.now }
    {
        let (front, _) = split_by_date(self.front, date);
        let (back, _) = split_by_date(self.back, date);
        Found { front, back }
    }

    /// Those that are dated at or after the date.
    pub(crate) fn since(&self, date: u64) -> Found<'a>
        requires { IsByDate self.now }
        ensures { result ≡ filter (is_since date) self.now }
    {
        let (_, front) = split_by_date(self.front, date);
        let (_, back) = split_by_date(self.back, date);
        Found { front, back }
    }
}

impl<'a> Iterator for Found<'a> {
    type Item = &'a Rc<Entry>;

    ghost next_gives = { YieldsFirstBy (λ item. entry_of item.now.value) (λ rest. rest) };

    ghost remaining = { item_count (λ rest. rest) };

    fn next(&mut self) -> Option<&'a Rc<Entry>> {
        if let Some((first, rest)) = self.front.split_first() {
            self.front = rest;
            return Some(first);
        }
        let (first, rest) = self.back.split_first()?;
        self.back = rest;
        Some(first)
    }
}
