//! The ring's entries by what tells them apart where they are looked up.
ghost use Rattle.std.specs.Prelude.{◌≡◌, ◌<◌, [], ◌∷◌, ◌++◌, None, IfSome, OnOk, OnErr, slice_index_or, List as Items};
ghost use Rattle.crs_base.specs.declared.symbols.Sym.{Sym};
ghost use Rattle.crs_base.specs.Entry.{Entry as LogEntry};
ghost use Rattle.crs_base.specs.Seen.{entry_of};
ghost use Rattle.crs_history.specs.Dropping.{Drops};
ghost use Rattle.crs_history.specs.Keyed.{AreKeyed, IsLike, mixed, taken_in, digest, digest_of, key_of, key_for};

use crate::found::Found;
use crate::lanes::Lanes;
use crs_base::{Entry, Sym};
use std::alloc::{AllocError, Global};
use std::marker::Model;
use std::rc::Rc;

/// So many lanes hold all entries that are looked up. One lane mostly has the entries of one name and the
/// same symbols; where it has others, a look-up tries these too. A tree of lanes, one for each name and
/// symbols, took 1,300 instructions an entry; one more symbol here takes some five.
const LANES: usize = 1024;

/// Queues of entries, each by the number that its name and some of its arguments give.
#[derive(Drop)]
pub(crate) struct Keyed {
    /// By the number of a name, of which arguments the symbols count: bit i, from the least, stands for the
    /// argument at place i. Entries of a name that has none aren't held here.
    places: Vec<Option<u8>>,
    lanes: Lanes,
}

impl Model for Keyed {
    ghost use Rattle.crs_history.specs.Keyed.{KeyedState};

    ghost Value = { KeyedState };

    ghost view = { λ k. record { places = k.places.items; lanes = k.lanes } };
}

/// The number with one more symbol.
fn mix(so_far: usize, symbol: Sym) -> usize
    requires { so_far < 1024 }
    ensures same { result ≡ mixed so_far symbol.0 }
    ensures within { result < 1024 }
{
    (so_far * 31 + symbol.0 as usize) % LANES
}

/// The number with the symbols that count.
fn digest(places: u8, args: &[Sym], so_far: usize) -> usize
    requires { so_far < 1024 }
    ensures { result ≡ digest places so_far args.now }
{
    let Some((first, rest)) = args.split_first() else {
        return so_far;
    };
    if places % 2 == 1 {
        digest(places / 2, rest, mix(so_far, *first))
    } else {
        digest(places / 2, rest, so_far)
    }
}

/// The number with one more symbol, where that counts. None where it isn't known.
fn take_in(places: u8, symbol: Option<Sym>, so_far: usize) -> Option<usize>
    requires { so_far < 1024 }
    ensures same { result ≡ taken_in places so_far symbol }
    ensures within { IfSome result (λ n. n < 1024) }
{
    if places % 2 == 0 {
        return Some(so_far);
    }
    match symbol {
        None => None,
        Some(symbol) => Some(mix(so_far, symbol)),
    }
}

/// The number with the known symbols that count. None where one that counts isn't known.
fn digest_of(places: u8, known: &[Option<Sym>], so_far: usize) -> Option<usize>
    requires { so_far < 1024 }
    ensures { result ≡ digest_of places so_far known.now }
{
    // of eight symbols mostly one or none counts: to go on to the last took 6 % of a load of many windows
    if places == 0 {
        return Some(so_far);
    }
    let (first, rest) = known.split_first()?;
    let next = take_in(places, *first, so_far)?;
    digest_of(places / 2, rest, next)
}

/// Of which arguments the symbols count.
fn places_of(places: &[Option<u8>], name: Sym) -> Option<u8>
    ensures { result ≡ slice_index_or places.now name.0 None }
{
    places.get(name.0 as usize).copied().flatten()
}

/// The number of the lane of an entry, where its name is looked up.
fn key_of(places: &[Option<u8>], entry: &Entry) -> Option<usize>
    ensures { result ≡ key_of places.now (entry_of entry.now) }
{
    let counted = places_of(places, entry.name)?;
    Some(digest(
        counted,
        entry.args.as_slice(),
        entry.name.0 as usize % LANES,
    ))
}

/// The number of the lane of each entry of the name with the known symbols, where these tell it.
fn key_for(places: &[Option<u8>], name: Sym, known: &[Option<Sym>]) -> Option<usize>
    ensures { result ≡ key_for places.now name known.now }
{
    let counted = places_of(places, name)?;
    digest_of(counted, known, name.0 as usize % LANES)
}

impl Keyed {
    /// No entries, which take no memory. By the number of a name, the places of the arguments that each
    /// look-up of it knows, as bits from the least.
    pub fn new(alloc: Global, places: Vec<Option<u8>>) -> Keyed
        ensures { AreKeyed [] result }
    {
        Keyed {
            places,
            lanes: Lanes::new(alloc),
        }
    }

    /// Adds an entry behind all others. After a refusal what is held is as it was.
    pub fn push(&mut self, entry: &Rc<Entry>) -> Result<(), AllocError>
        ensures ok { OnOk result ((ring : Items (LogEntry Sym)) → AreKeyed ring self.old → AreKeyed (ring ++ entry_of entry.now.value ∷ []) self.new) }
        ensures err { OnErr result ((ring : Items (LogEntry Sym)) → AreKeyed ring self.old → AreKeyed ring self.new) }
    {
        let Some(key) = key_of(self.places.as_slice(), entry) else {
            return Ok(());
        };
        self.lanes.push(key, entry.clone()?)
    }

    /// Takes out the entry, which is the first.
    pub fn pop_first(&mut self, entry: &Entry)
        ensures { (ring : Items (LogEntry Sym)) → AreKeyed (entry_of entry.now ∷ ring) self.old → AreKeyed ring self.new }
    {
        if let Some(key) = key_of(self.places.as_slice(), entry) {
            let _ = self.lanes.pop_first(key);
        }
    }

    /// Drops the entry, which is the last.
    pub fn drop_last(&mut self, entry: &Entry)
        ensures { (ring : Items (LogEntry Sym)) → AreKeyed (ring ++ entry_of entry.now ∷ []) self.old → AreKeyed ring self.new }
    {
        if let Some(key) = key_of(self.places.as_slice(), entry) {
            self.lanes.drop_last(key);
        }
    }

    /// All entries of the name with the known symbols, and maybe others, where the known symbols tell
    /// where they stand.
    pub fn find(&self, name: Sym, known: &[Option<Sym>]) -> Option<Found<'_>>
        ensures { IfSome result (λ r. (ring : Items (LogEntry Sym)) → AreKeyed ring self.now → Drops (λ e. IsLike name known.now e → ⊥) ring r) }
    {
        let key = key_for(self.places.as_slice(), name, known)?;
        Some(self.lanes.lane(key))
    }
}
