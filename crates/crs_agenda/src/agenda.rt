ghost use Rattle.std.specs.Prelude.{◌≡◌, ◌≤ℤ◌, [], OnOk, OnErr, IfSome, IfNone, All};
ghost use Rattle.std.specs.List.{list_any};
ghost use Rattle.std.specs.BTreeSet.{insert_key};
ghost use Rattle.std.specs.Set.{remove_key};
ghost use Rattle.crs_agenda.specs.Pairs.{pair_cmp, is_pair, TakesLeast};

use std::alloc::{AllocError, Global};
use std::collections::BTreeSet;
use std::marker::Model;

/// Pairs of a deadline and a number. The earliest comes first, and of one date the least number.
#[derive(Drop)]
pub struct Agenda {
    pairs: BTreeSet<(i64, u64)>,
}

impl Model for Agenda {
    ghost use Rattle.std.specs.Prelude.{List, ℤ, ℕ};

    ghost Value = { List (ℤ × ℕ) };

    ghost view = { λ a. a.pairs.keys };
}

impl Agenda {
    /// An agenda without pairs, which takes no memory.
    pub fn new(alloc: Global) -> Agenda
        ensures { result ≡ [] }
    {
        Agenda {
            pairs: BTreeSet::new(alloc),
        }
    }

    /// Puts the pair in its place, if it isn't there.
    pub fn put(&mut self, deadline: i64, id: u64) -> Result<(), AllocError>
        ensures ok { OnOk result (self.new ≡ insert_key pair_cmp self.old (deadline, id)) }
        ensures err { OnErr result (self.new ≡ self.old) }
    {
        match self.pairs.insert((deadline, id)) {
            Ok(_) => Ok(()),
            Err(_) => Err(AllocError),
        }
    }

    /// Takes out the first pair, where its date is before h.
    pub fn due(&mut self, h: i64) -> Option<u64>
        ensures least { IfSome result (TakesLeast h self.old self.new) }
        ensures none { IfNone result (All (λ p. h ≤ℤ p.0) self.old) }
        ensures unchanged { IfNone result (self.new ≡ self.old) }
    {
        let first = self.pairs.first()?;
        if first.0 >= h {
            return None;
        }
        let (_, id) = self.pairs.pop_first()?;
        Some(id)
    }

    /// Takes out the pair, and says whether it was there.
    pub fn remove(&mut self, deadline: i64, id: u64) -> bool
        ensures was { result ≡ list_any (is_pair (deadline, id)) self.old }
        ensures rest { self.new ≡ remove_key (is_pair (deadline, id)) self.old }
    {
        self.pairs.remove(&(deadline, id))
    }
}
