ghost use Rattle.std.specs.Prelude.{◌≡◌, ◌<◌, ◌≤◌, List, length, replicate, Option, Some, None, take, slice_set};
ghost use Rattle.crs_model.specs.Bindings.{look_of};

use crate::bits::is_set_at;
use crs_base::Sym;
use std::marker::Model;

/// The symbols of at most 16 variables, held in place.
#[derive(Drop)]
pub struct Binding {
    symbols: [Sym; 16],
    /// Bit i is set where variable i is bound.
    bound: u16,
    count: u8,
}

impl Model for Binding {
    ghost use Rattle.std.specs.Prelude.{List, Option, ◌≤◌};
    ghost use Rattle.crs_base.specs.declared.symbols.Sym.{Sym};
    ghost use Rattle.crs_model.specs.Held.{held};

    ghost Value = { List (Option Sym) };

    ghost view = { λ b. held b.count b.symbols b.bound };

    ghost invariant = { λ b. b.count ≤ 16 };
}

impl Binding {
    /// No variable is bound.
    pub fn new(variables: u8) -> Binding
        requires { variables ≤ 16 }
        ensures { result ≡ replicate variables None }
    {
        Binding {
            symbols: [Sym(0); 16],
            bound: 0,
            count: variables,
        }
    }

    /// The variable's symbol. None where it is unbound or there is none of that number.
    pub fn get(&self, i: u8) -> Option<Sym>
        ensures { result ≡ look_of self.now i }
    {
        if i >= self.count {
            return None;
        }
        if is_set_at(self.bound, i) {
            Some(self.symbols[i as usize])
        } else {
            None
        }
    }

    /// An equal binding.
    pub fn copy(&self) -> Binding
        ensures { result ≡ self.now }
    {
        Binding {
            symbols: self.symbols,
            bound: self.bound,
            count: self.count,
        }
    }

    /// Binds one more variable.
    pub(crate) fn set(&mut self, i: u8, symbol: Sym)
        requires { i < length self.old }
        ensures { self.new ≡ slice_set self.old i (Some symbol) }
    {
        self.symbols[i as usize] = symbol;
        self.bound |= 1 << i;
    }
}
