ghost use Rattle.std.specs.Prelude.{◌≡◌, ℕ, ◌<◌, ◌≤◌, ◌-◌, ◌^◌, List, [], ◌∷◌, ◌++◌, length, IfOk, OnErr, OnOk, IsTrue, position, bytes_eq, option_map, false, true, is_some, IfSome, IfErr, IsOk, Some, Err, ◌+◌};
ghost use Rattle.std.specs.List.{position_or_len, IsDistinct, list_all};
ghost use Rattle.crs_base.specs.Symbols.{is_symbol, is_symbol_byte, is_known, with_text, text_at, AreDistinct};
ghost use Rattle.crs_base.specs.TextSet.{texts_of};
ghost use Rattle.crs_base.specs.Refusals.{IsRefusal};
ghost use Rattle.crs_base.specs.declared.symbols.SymRefused.TheVariants.{Values};

use crate::recent::Recent;
use crate::symbol_text::{Seeded, Sought, SymbolText};
use indexmap::IndexSet;
use std::alloc::{AllocError, Global};
use std::marker::Model;
use thiserror::Error;

/// The number of a symbol in its table.
#[derive(Clone, Copy, Debug, Default, PartialEq, Eq, PartialOrd, Ord, Drop)]
pub struct Sym(pub u32);

/// Why a symbol was refused: its text is new and the table is full, or memory is wanting.
#[derive(Clone, Copy, Debug, PartialEq, Eq, Drop, Error)]
pub enum SymRefused {
    #[error("Values")]
    Values { limit: u32 },
    #[error("Memory")]
    Memory,
}

/// Whether these are 1 to 64 symbol bytes.
pub fn is_symbol(bytes: &[u8]) -> bool
    ensures { result ≡ is_symbol bytes.now }
{
    1 <= bytes.len() && bytes.len() <= 64 && all_symbol_bytes(bytes)
}

fn all_symbol_bytes(bytes: &[u8]) -> bool
    ensures { result ≡ list_all is_symbol_byte bytes.now }
{
    bytes.iter().all(|b| is_symbol_byte(*b))
}

// Each symbol byte stands at its own place, and a comma at every other place.
static SYMBOL_MAP: [u8; 256] = *b"\
    ,,,,,,,,,,,,,,,,,,,,,,,,,,,,,,,,\
    ,,,,,,,,,,,,,-.,0123456789,,,,,,\
    ,ABCDEFGHIJKLMNOPQRSTUVWXYZ,,,,_\
    ,abcdefghijklmnopqrstuvwxyz,,,,,\
    ,,,,,,,,,,,,,,,,,,,,,,,,,,,,,,,,\
    ,,,,,,,,,,,,,,,,,,,,,,,,,,,,,,,,\
    ,,,,,,,,,,,,,,,,,,,,,,,,,,,,,,,,\
    ,,,,,,,,,,,,,,,,,,,,,,,,,,,,,,,,";

pub fn is_symbol_byte(b: u8) -> bool
    ensures { result ≡ is_symbol_byte b }
{
    SYMBOL_MAP[b as usize] != b','
}

/// The symbols met so far, each with its number.
#[derive(Drop)]
pub struct Symbols {
    set: IndexSet<SymbolText, Seeded>,
    recent: Recent,
    limit: u32,
    alloc: Global,
}

impl Model for Symbols {
    ghost use Rattle.std.specs.Prelude.{ℕ, List, map, ◌≤◌, ◌<◌, ◌^◌, length, bytes_eq};
    ghost use Rattle.std.specs.List.{IsDistinct};
    ghost use Rattle.crs_base.specs.Symbols.{Table};
    ghost use Rattle.crs_base.specs.Recent.{AreTold};

    ghost Value = { Table };

    ghost view = { λ s. record { texts = map (λ t. t.bytes.items) s.set.keys; limit = s.limit } };

    ghost invariant = { λ s. (length s.set.keys ≤ s.limit) × (s.limit < 2 ^ 32) × AreTold (map (λ t. t.bytes.items) s.set.keys) s.recent };
}

/// The place of a text.
fn index_of(set: &IndexSet<SymbolText, Seeded>, text: &[u8]) -> Option<usize>
    ensures place { result ≡ position (bytes_eq text.now) (texts_of set.now) }
    ensures known { is_some result ≡ is_known (texts_of set.now) text.now }
    ensures within { IfSome result (λ i. i < length set.now.keys) }
{
    set.get_index_of(Sought { bytes: text })
}

/// Puts a text that isn't there last.
fn put_last(
    alloc: Global,
    set: &mut IndexSet<SymbolText, Seeded>,
    text: &[u8],
) -> Result<(), AllocError>
    requires { is_known (texts_of set.old) text.now ≡ false }
    ensures ok { OnOk result (texts_of set.new ≡ texts_of set.old ++ text.now ∷ []) }
    ensures len { OnOk result (length set.new.keys ≡ length set.old.keys + 1) }
    ensures err { OnErr result (set.new.keys ≡ set.old.keys) }
{
    let bytes = Vec::from_slice(alloc, text)?;
    let _ = set.insert(SymbolText { bytes })?;
    Ok(())
}

impl Symbols {
    /// An empty table for at most `limit` symbols.
    pub fn new(alloc: Global, limit: u32) -> Result<Symbols, AllocError>
        ensures ok { IfOk result (λ s. s ≡ record { texts = []; limit = limit }) }
    {
        Ok(Symbols::seeded(alloc, limit, 0))
    }

    /// The same. Its texts are hashed from the seed, so that only who knows it can choose texts that
    /// collide; nothing else depends on it.
    pub fn seeded(alloc: Global, limit: u32, seed: u64) -> Symbols
        ensures { result ≡ record { texts = []; limit = limit } }
    {
        Symbols {
            set: IndexSet::with_hasher(alloc, Seeded::new(seed)),
            recent: Recent::new(alloc),
            limit,
            alloc,
        }
    }

    pub fn len(&self) -> u32
        ensures value { result ≡ length self.now.texts }
        ensures within { result ≤ self.now.limit }
        ensures distinct { AreDistinct self.now.texts }
        ensures small { self.now.limit < 2 ^ 32 }
    {
        self.set.len() as u32
    }

    /// How many more symbols fit.
    pub fn room(&self) -> u32
        ensures value { result ≡ self.now.limit - length self.now.texts }
        ensures within { length self.now.texts ≤ self.now.limit }
    {
        self.limit - self.len()
    }

    /// The number of a symbol that is there.
    pub fn find(&self, text: &[u8]) -> Option<Sym>
        ensures number { option_map (λ s. s.0) result ≡ position (bytes_eq text.now) self.now.texts }
        ensures known { is_some result ≡ is_known self.now.texts text.now }
    {
        match self.told(text) {
            Some(s) => Some(s),
            None => self.find_in_set(text),
        }
    }

    /// The number of a text, where it is told without a look into the set.
    #[inline(always)]
    fn told(&self, text: &[u8]) -> Option<Sym>
        ensures number { IfSome result (λ s. position (bytes_eq text.now) self.now.texts ≡ Some s.0) }
        ensures place { IfSome result (λ s. s.0 ≡ position_or_len (bytes_eq text.now) self.now.texts) }
        ensures known { IfSome result (λ s. is_known self.now.texts text.now ≡ true) }
    {
        match self.recent.find(text) {
            Some(number) => Some(Sym(number)),
            None => None,
        }
    }

    /// Tells the number of a text from now on.
    fn note(&mut self, text: &[u8], s: Sym)
        requires { position (bytes_eq text.now) self.old.texts ≡ Some s.0 }
        ensures { self.new ≡ self.old }
    {
        let count = self.set.len();
        self.recent.note(self.alloc, text, s.0, count);
    }

    fn find_in_set(&self, text: &[u8]) -> Option<Sym>
        ensures number { option_map (λ s. s.0) result ≡ position (bytes_eq text.now) self.now.texts }
        ensures known { is_some result ≡ is_known self.now.texts text.now }
    {
        match index_of(&self.set, text) {
            Some(index) => Some(Sym(index as u32)),
            None => None,
        }
    }

    /// The text of a number.
    pub fn text(&self, s: Sym) -> &[u8]
        requires { s.0 < length self.now.texts }
        ensures { result.now ≡ text_at self.now.texts s.0 }
    {
        match self.set.get_index(s.0 as usize) {
            Some(text) => text.bytes.as_slice(),
            None => unreachable!(),
        }
    }

    /// The number of a symbol, which a new one is given.
    #[tactic(auto, using(crate::proofs::Lists::absent_place))]
    pub fn intern(&mut self, text: &[u8]) -> Result<Sym, SymRefused>
        requires { IsTrue (is_symbol text.now) }
        ensures ok { OnOk result (self.new.texts ≡ with_text self.old.texts text.now) }
        ensures number { IfOk result (λ s. s.0 ≡ position_or_len (bytes_eq text.now) self.old.texts) }
        ensures limit { self.new.limit ≡ self.old.limit }
        ensures err { OnErr result (self.new ≡ self.old) }
        ensures refused { IfErr result (IsRefusal self.old text.now) }
        ensures room { is_known self.old.texts text.now ≡ false → length self.old.texts ≡ self.old.limit → result ≡ Err (Values self.old.limit) }
        ensures known { is_known self.old.texts text.now ≡ true → IsOk result }
    {
        match self.told(text) {
            Some(s) => Ok(s),
            None => self.intern_in_set(text),
        }
    }

    /// The same of a text of which nothing is told; from now on its number is told.
    #[tactic(auto, using(crate::proofs::Lists::absent_place))]
    fn intern_in_set(&mut self, text: &[u8]) -> Result<Sym, SymRefused>
        requires { IsTrue (is_symbol text.now) }
        ensures ok { OnOk result (self.new.texts ≡ with_text self.old.texts text.now) }
        ensures number { IfOk result (λ s. s.0 ≡ position_or_len (bytes_eq text.now) self.old.texts) }
        ensures limit { self.new.limit ≡ self.old.limit }
        ensures err { OnErr result (self.new ≡ self.old) }
        ensures refused { IfErr result (IsRefusal self.old text.now) }
        ensures room { is_known self.old.texts text.now ≡ false → length self.old.texts ≡ self.old.limit → result ≡ Err (Values self.old.limit) }
        ensures known { is_known self.old.texts text.now ≡ true → IsOk result }
    {
        if let Some(s) = self.find_in_set(text) {
            self.note(text, s);
            return Ok(s);
        }
        if self.room() == 0 {
            return Err(SymRefused::Values { limit: self.limit });
        }
        let s = Sym(self.len());
        match put_last(self.alloc, &mut self.set, text) {
            Ok(()) => {
                self.note(text, s);
                Ok(s)
            }
            Err(_) => Err(SymRefused::Memory),
        }
    }
}
