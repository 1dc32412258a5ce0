ghost use Rattle.std.specs.Prelude.{◌≡◌};
ghost use Rattle.crs_base.specs.Entry.{entry_cmp};
ghost use Rattle.crs_base.specs.Seen.{entry_of};

use crate::sym_list::SymList;
use crate::symbols::Sym;
use crate::text::Text;
use std::cmp::Ordering;

/// An accepted event line of a log. The fields stand in an order that leaves no room between them: so a
/// shared entry is of a size that the allocator gives and takes back in the least time, 2 % of a burst.
#[derive(Drop)]
pub struct Entry {
    /// How many entries were accepted before it.
    pub arrival: u32,
    pub name: Sym,
    /// In ticks of the log's clock, from 0 to 2^40 - 1.
    pub date: u64,
    pub args: SymList,
    /// Of an attribute: its old and its new value.
    pub change: Option<(Sym, Sym)>,
    /// The canonical text of the name, the arguments and the change.
    pub text: Text,
}

impl Entry {
    /// The key order: by date, then by canonical text as bytes, then by arrival number. Most entries
    /// that are compared differ in their dates: that alone is looked at where the call stands.
    #[inline(always)]
    pub fn key_cmp(&self, other: &Entry) -> Ordering
        ensures { result ≡ entry_cmp (entry_of self.now) (entry_of other.now) }
    {
        if self.date != other.date {
            return self.date.cmp(&other.date);
        }
        self.text_cmp(other)
    }

    /// The same of entries of one date.
    fn text_cmp(&self, other: &Entry) -> Ordering
        requires { self.now.date ≡ other.now.date }
        ensures { result ≡ entry_cmp (entry_of self.now) (entry_of other.now) }
    {
        let by_text = self.text.bytes().cmp(other.text.bytes());
        by_text.then(self.arrival.cmp(&other.arrival))
    }
}
