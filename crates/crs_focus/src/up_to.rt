ghost use Rattle.std.specs.Prelude.{◌≡◌, filter};
ghost use Rattle.std.specs.Iterator.{YieldsFirstBy, item_count};
ghost use Rattle.std.specs.Ordering.{is_gt};
ghost use Rattle.crs_base.specs.Entry.{entry_cmp, IsInKeyOrder};
ghost use Rattle.crs_base.specs.Seen.{entry_of};
ghost use Rattle.crs_focus.specs.Candidacy.{is_up_to};

use crs_base::Entry;
use crs_history::Range;
use std::marker::Model;
use std::rc::Rc;

/// Some of a history's entries up to the key of an entry, in key order, seen as the list of those
/// that are left.
#[derive(Drop)]
pub struct Candidates<'a> {
    range: Range<'a>,
    until: &'a Entry,
}

impl<'a> Model for Candidates<'a> {
    ghost use Rattle.std.specs.Prelude.{List, filter};
    ghost use Rattle.crs_base.specs.declared.symbols.Sym.{Sym};
    ghost use Rattle.crs_base.specs.Entry.{Entry, IsInKeyOrder};
    ghost use Rattle.crs_base.specs.Seen.{entry_of};
    ghost use Rattle.crs_focus.specs.Candidacy.{is_up_to};

    ghost Value = { List (Entry Sym) };

    ghost view = { λ c. filter (is_up_to (entry_of c.until.now)) c.range };

    ghost invariant = { λ c. IsInKeyOrder c.range };
}

/// Whether the entry's key is after that of `until`.
fn is_after(entry: &Entry, until: &Entry) -> bool
    ensures { result ≡ is_gt (entry_cmp (entry_of entry.now) (entry_of until.now)) }
{
    entry.key_cmp(until).is_gt()
}

impl<'a> Candidates<'a> {
    /// Those of the range whose key isn't after that of the entry.
    pub(crate) fn new(range: Range<'a>, until: &'a Entry) -> Candidates<'a>
        requires { IsInKeyOrder range }
        ensures { result ≡ filter (is_up_to (entry_of until.now)) range.entry }
    {
        Candidates { range, until }
    }
}

impl<'a> Iterator for Candidates<'a> {
    type Item = &'a Rc<Entry>;

    ghost next_gives = { YieldsFirstBy (λ item. entry_of item.now.value) (λ rest. rest) };

    ghost remaining = { item_count (λ rest. rest) };

    fn next(&mut self) -> Option<&'a Rc<Entry>> {
        let entry = self.range.next()?;
        if is_after(entry, self.until) {
            return None;
        }
        Some(entry)
    }
}
