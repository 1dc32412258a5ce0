//! The numbers of the texts met last, found by their bytes alone: most lines of a log name symbols that
//! stood in earlier lines, and neither a hash nor a comparison of texts is made for these.
ghost use Rattle.std.specs.Prelude.{◌≡◌, ◌≤◌, List, ℕ, length, position, bytes_eq, Some, IfSome, IfOk, ◌<◌};
ghost use Rattle.crs_base.specs.Tags.{tag_on};
ghost use Rattle.crs_base.specs.Recent.{AreBytes, IsTagOf, Tells, TellBoth, AreTold};

use std::alloc::{AllocError, Global};

/// A text of 1 to 8 bytes as a number, which with the length is no other text's.
#[derive(Clone, Copy, PartialEq, Eq)]
pub(crate) struct Tag {
    bits: u64,
    len: u32,
}

/// The number of the text of a tag; it tells nothing where the length is 0.
#[derive(Clone, Copy)]
struct Place {
    tag: Tag,
    number: u32,
}

/// Where a tag can stand: before the other the place with the lower number.
#[derive(Clone, Copy)]
struct Pair {
    lower: Place,
    other: Place,
}

/// The places of some texts of a table. What isn't noted isn't told, so that want of memory and tags
/// that meet in one pair only cost a look into the table.
#[derive(Drop)]
pub(crate) struct Recent {
    pairs: Vec<Pair>,
    mask: usize,
}

/// The least and the greatest count of pairs, of 32 bytes each.
const LEAST: usize = 128;

const MOST: usize = 131_072;

/// An odd number without a pattern: 2^64 divided by the golden ratio (Knuth, 1973).
const MIX: u64 = 0x9E37_79B9_7F4A_7C15;

const EMPTY: Place = Place {
    tag: Tag { bits: 0, len: 0 },
    number: 0,
};

const NONE: Pair = Pair {
    lower: EMPTY,
    other: EMPTY,
};

fn bits_of(text: &[u8]) -> u64
    requires { length text.now ≤ 8 }
    ensures { result ≡ tag_on 0 text.now }
{
    let mut bits: u64 = 0;
    for b in text {
        bits = 256 * bits + *b as u64;
    }
    bits
}

/// The tag of a text, where it has one.
fn tag_of(text: &[u8]) -> Option<Tag>
    ensures { IfSome result (IsTagOf text.now) }
{
    if text.is_empty() || 8 < text.len() {
        return None;
    }
    Some(Tag {
        bits: bits_of(text),
        len: text.len() as u32,
    })
}

/// The number that one of the two tells of a tag.
fn told_by(pair: &Pair, tag: Tag) -> Option<u32>
    ensures { (texts : List (List ℕ)) (text : List ℕ) → TellBoth texts pair.now → AreBytes text → IsTagOf text tag → IfSome result (λ n. position (bytes_eq text) texts ≡ Some n) }
{
    if pair.lower.tag == tag {
        Some(pair.lower.number)
    } else if pair.other.tag == tag {
        Some(pair.other.number)
    } else {
        None
    }
}

/// The pair with one more place. The texts of models come first and have the lowest numbers, and
/// their names are looked for without being noted again: so the lower number stays.
fn with_place(pair: Pair, place: Place) -> Pair
    ensures { (texts : List (List ℕ)) → TellBoth texts pair → Tells texts place → TellBoth texts result }
{
    if pair.lower.tag.len == 0 || place.number < pair.lower.number {
        Pair {
            lower: place,
            other: pair.lower,
        }
    } else {
        Pair {
            lower: pair.lower,
            other: place,
        }
    }
}

impl Recent {
    pub(crate) fn new(alloc: Global) -> Recent
        ensures { (texts : List (List ℕ)) → AreTold texts result }
    {
        Recent {
            pairs: Vec::new(alloc),
            mask: 0,
        }
    }

    fn pair_of(&self, tag: Tag) -> usize {
        let mixed = (tag.bits ^ tag.len as u64).wrapping_mul(MIX);
        (mixed >> 40) as usize & self.mask
    }

    /// The number of a text, where it is told.
    #[inline(always)]
    pub(crate) fn find(&self, text: &[u8]) -> Option<u32>
        ensures { (texts : List (List ℕ)) → AreTold texts self.now → IfSome result (λ n. position (bytes_eq text.now) texts ≡ Some n) }
    {
        let tag = tag_of(text)?;
        let at = self.pair_of(tag);
        if at < self.pairs.len() {
            told_by(&self.pairs[at], tag)
        } else {
            None
        }
    }

    fn put(&mut self, place: Place)
        ensures { (texts : List (List ℕ)) → AreTold texts self.old → Tells texts place → AreTold texts self.new }
    {
        let at = self.pair_of(place.tag);
        if place.tag.len != 0 && at < self.pairs.len() {
            self.pairs[at] = with_place(self.pairs[at], place);
        }
    }

    /// The same places among twice as many pairs.
    fn wider(&self, alloc: Global) -> Result<Recent, AllocError>
        requires { length self.now.pairs.items < 131072 }
        ensures { IfOk result (λ r. (texts : List (List ℕ)) → AreTold texts self.now → AreTold texts r) }
    {
        let size = if self.pairs.is_empty() {
            LEAST
        } else {
            2 * self.pairs.len()
        };
        let mut pairs = Vec::new(alloc);
        pairs.resize(size, NONE)?;
        let mut wider = Recent {
            pairs,
            mask: size - 1,
        };
        for pair in &self.pairs {
            wider.put(pair.other);
            wider.put(pair.lower);
        }
        Ok(wider)
    }

    /// Makes room for that many texts; without memory it stays as it is.
    fn make_room(&mut self, alloc: Global, count: usize)
        ensures { (texts : List (List ℕ)) → AreTold texts self.old → AreTold texts self.new }
    {
        if self.pairs.len() <= count
            && self.pairs.len() < MOST
            && let Ok(wider) = self.wider(alloc)
        {
            *self = wider;
        }
    }

    /// Tells from now on the number of a text, which is one of that many.
    pub(crate) fn note(&mut self, alloc: Global, text: &[u8], number: u32, count: usize)
        ensures { (texts : List (List ℕ)) → AreTold texts self.old → position (bytes_eq text.now) texts ≡ Some number → AreTold texts self.new }
    {
        if let Some(tag) = tag_of(text) {
            self.make_room(alloc, count);
            self.put(Place { tag, number });
        }
    }
}
