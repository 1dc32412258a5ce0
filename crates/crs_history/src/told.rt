//! Numbers found by a number and a symbol: most attributes that a log names are found without the tree of steps.
ghost use Rattle.std.specs.Prelude.{◌≡◌, ◌<◌, ℕ, length, Option, Some, IfSome, IfOk};
ghost use Rattle.crs_base.specs.declared.symbols.Sym.{Sym};
ghost use Rattle.crs_history.specs.Told.{Tells, AreTold};

use crs_base::Sym;
use std::alloc::{AllocError, Global};

/// A number and a symbol, with the number that these lead to. It tells nothing where that is 0.
#[derive(Clone, Copy)]
struct Place {
    from: usize,
    symbol: Sym,
    number: usize,
}

/// Some of the numbers that numbers and symbols lead to. What was noted last stays in its place, and what
/// isn't noted isn't told, so that want of memory and keys that meet in one place only cost a look into
/// the tree.
#[derive(Drop)]
pub(crate) struct ToldNumbers {
    places: Vec<Place>,
    mask: usize,
    notes: usize,
    alloc: Global,
}

/// The least and the greatest count of places, of 24 bytes each.
const LEAST: usize = 256;

const MOST: usize = 131_072;

/// An odd number without a pattern: 2^64 divided by the golden ratio (Knuth, 1973).
const MIX: u64 = 0x9E37_79B9_7F4A_7C15;

const EMPTY: Place = Place {
    from: 0,
    symbol: Sym(0),
    number: 0,
};

/// The number that a place tells of the two.
#[inline(always)]
fn told_by(place: &Place, from: usize, symbol: Sym) -> Option<usize>
    ensures { (f : ℕ → Sym → Option ℕ) → Tells f place.now → IfSome result (λ n. f from symbol ≡ Some n) }
{
    if place.from == from && place.symbol == symbol && place.number != 0 {
        Some(place.number)
    } else {
        None
    }
}

impl ToldNumbers {
    /// Nothing is told, which takes no memory.
    pub(crate) fn new(alloc: Global) -> ToldNumbers
        ensures { (f : ℕ → Sym → Option ℕ) → AreTold f result }
    {
        ToldNumbers {
            places: Vec::new(alloc),
            mask: 0,
            notes: 0,
            alloc,
        }
    }

    /// Attributes that a log names in turn were mostly numbered in turn, and so are the lists that they begin with:
    /// where these lead on by one symbol, their places lie side by side. With a product of both, each look was at
    /// another place of three megabytes: 640,000 attributes of two arguments took a fifth more time, of which a
    /// third was spent there.
    #[inline(always)]
    fn place_of(&self, from: usize, symbol: Sym) -> usize {
        let spread = (symbol.0 as u64).wrapping_mul(MIX) >> 40;
        from.wrapping_add(spread as usize) & self.mask
    }

    /// The number that the two lead to, where it is told.
    #[inline(always)]
    pub(crate) fn get(&self, from: usize, symbol: Sym) -> Option<usize>
        ensures { (f : ℕ → Sym → Option ℕ) → AreTold f self.now → IfSome result (λ n. f from symbol ≡ Some n) }
    {
        let at = self.place_of(from, symbol);
        if at < self.places.len() {
            told_by(&self.places[at], from, symbol)
        } else {
            None
        }
    }

    fn put(&mut self, place: Place)
        ensures { (f : ℕ → Sym → Option ℕ) → AreTold f self.old → Tells f place → AreTold f self.new }
    {
        let at = self.place_of(place.from, place.symbol);
        if at < self.places.len() {
            self.places[at] = place;
        }
    }

    /// The same among twice as many places.
    fn wider(&self) -> Result<ToldNumbers, AllocError>
        requires { length self.now.places.items < 131072 }
        ensures { IfOk result (λ r. (f : ℕ → Sym → Option ℕ) → AreTold f self.now → AreTold f r) }
    {
        let size = if self.places.is_empty() {
            LEAST
        } else {
            2 * self.places.len()
        };
        let mut places = Vec::new(self.alloc);
        places.resize(size, EMPTY)?;
        let mut wider = ToldNumbers {
            places,
            mask: size - 1,
            notes: self.notes,
            alloc: self.alloc,
        };
        for place in &self.places {
            wider.put(*place);
        }
        Ok(wider)
    }

    /// Doubles the places once half as many notes were made; without memory it stays as it is.
    fn make_room(&mut self)
        ensures { (f : ℕ → Sym → Option ℕ) → AreTold f self.old → AreTold f self.new }
    {
        if self.places.len() / 2 <= self.notes
            && self.places.len() < MOST
            && let Ok(wider) = self.wider()
        {
            *self = wider;
        }
    }

    /// Tells from now on the number that the two lead to.
    pub(crate) fn note(&mut self, from: usize, symbol: Sym, number: usize)
        ensures { (f : ℕ → Sym → Option ℕ) → AreTold f self.old → f from symbol ≡ Some number → AreTold f self.new }
    {
        self.make_room();
        self.notes = self.notes.saturating_add(1);
        self.put(Place {
            from,
            symbol,
            number,
        });
    }
}
