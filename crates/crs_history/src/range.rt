ghost use Rattle.std.specs.Prelude.{◌≡◌, ◌==◌, filter};
ghost use Rattle.std.specs.Iterator.{YieldsFirstBy, item_count};
ghost use Rattle.crs_base.specs.Seen.{entry_of};
ghost use Rattle.crs_history.specs.Looking.{is_named};

use crate::found::Found;
use crs_base::{Entry, Sym};
use std::marker::Model;
use std::rc::Rc;

/// The held entries of a name among some that were found, in key order, seen as the list of those that are
/// left.
#[derive(Drop)]
pub struct Range<'a> {
    found: Found<'a>,
    name: Sym,
}

impl<'a> Model for Range<'a> {
    ghost use Rattle.std.specs.Prelude.{List, filter};
    ghost use Rattle.crs_base.specs.declared.symbols.Sym.{Sym};
    ghost use Rattle.crs_base.specs.Entry.{Entry};
    ghost use Rattle.crs_history.specs.Looking.{is_named};

    ghost Value = { List (Entry Sym) };

    ghost view = { λ r. filter (is_named r.name) r.found };
}

/// Whether the entry has the name.
fn has_name(entry: &Entry, name: Sym) -> bool
    ensures { result ≡ is_named name (entry_of entry.now) }
{
    entry.name.0 == name.0
}

impl<'a> Range<'a> {
    /// Those of the name.
    pub(crate) fn of(found: Found<'a>, name: Sym) -> Range<'a>
        ensures { result ≡ filter (is_named name) found.entry }
    {
        Range { found, name }
    }
}

impl<'a> Iterator for Range<'a> {
    type Item = &'a Rc<Entry>;

    ghost next_gives = { YieldsFirstBy (λ item. entry_of item.now.value) (λ rest. rest) };

    ghost remaining = { item_count (λ rest. rest) };

    fn next(&mut self) -> Option<&'a Rc<Entry>> {
        while let Some(entry) = self.found.next() {
            if has_name(entry, self.name) {
                return Some(entry);
            }
        }
        None
    }
}
