//! The number of each key's bucket.
ghost use Rattle.std.specs.Prelude.{◌≡◌, ◌<◌, ◌≤◌, ◌^◌, [], ◌∷◌, length, map, vec_len, get_or, OnOk, OnErr, None, Some, false, true, suc};
ghost use Rattle.std.specs.Map.{lookup};
ghost use Rattle.crs_index.specs.KeyNumbers.{is_direct, is_equal, is_key, is_open, either, free, in_place, named, number_in, place, placed, slot, table};

use crate::buckets::is_bare;
use crate::key::Key;
use crs_agenda::Handle;
use std::alloc::{AllocError, Global};
use std::collections::BTreeMap;
use std::marker::Model;

/// Lone symbols below this have a slot of their own.
const DIRECT: u32 = 16_384;

/// How many places there are for other keys.
const PLACES: u64 = 4096;

/// A place where no key stands.
const FREE: Place = Place {
    key: Key {
        class: 0,
        first: 0,
        second: 0,
        third: 0,
    },
    content: 0,
};

/// A key, and 1 more than its number; 0 where the place is free.
#[derive(Clone, Copy, Drop)]
pub(crate) struct Place {
    pub(crate) key: Key,
    pub(crate) content: u32,
}

/// The number of each key's bucket, where it has one. A key without a slot stands in its place, if that
/// was free when it came, and else in a tree, so that what a log holds can't make a look-up slow: keys
/// that are made to share one place take the time of the tree. With the tree alone, 20,000 entries that
/// join by two variables took 22 million instructions more, of 104.
#[derive(Drop)]
pub(crate) struct Numbers {
    /// For a class and a small symbol: 1 more than the number of that key, or 0.
    direct: Vec<Vec<u32>>,
    /// Other keys, each in its place; empty until the first comes.
    places: Vec<Place>,
    /// The keys whose places were taken.
    tree: BTreeMap<Key, u32>,
    alloc: Global,
}

impl Model for Numbers {
    ghost use Rattle.crs_index.specs.KeyNumbers.{NumbersState, table};

    ghost Value = { NumbersState };

    ghost view = { λ n. record { direct = table n.direct.items; places = n.places.items; tree = n.tree.entries } };
}

/// Whether the key has a slot: then its class and first symbol tell it.
#[inline(always)]
fn has_slot(key: &Key) -> bool
    ensures { result ≡ is_direct key.now }
{
    key.second == 0 && key.third == 0 && key.first < DIRECT
}

/// The number in the slot of the class and the symbol, where there is one.
#[inline(always)]
fn find_direct(direct: &Vec<Vec<u32>>, class: u32, first: u32) -> Option<u32>
    ensures { result ≡ named (slot (table direct.now.items) class first) }
{
    let row = direct.as_slice().get(class as usize)?;
    let number = row.as_slice().get(first as usize)?;
    number.checked_sub(1)
}

/// Which place the key has. The factors are primes that leave different rests.
#[inline(always)]
fn place_of(key: &Key) -> usize
    ensures is { result ≡ place key.now }
    ensures below { result < 4096 }
{
    let mixed = key.class as u64 * 1_327
        + key.first as u64 * 1_000_003
        + key.second as u64 * 2_750_159
        + key.third as u64 * 15_485_863;
    (mixed % PLACES) as usize
}

/// Whether the two keys are one.
#[inline(always)]
fn is_same(one: &Key, other: &Key) -> bool
    ensures { result ≡ is_equal one.now other.now }
{
    one.first == other.first
        && one.second == other.second
        && one.third == other.third
        && one.class == other.class
}

/// The number of the key in this place, where it stands there.
#[inline(always)]
fn number_at(place: &Place, key: &Key) -> Option<u32>
    ensures { result ≡ placed place.now key.now }
{
    if is_same(key, &place.key) {
        place.content.checked_sub(1)
    } else {
        None
    }
}

/// The number of the key in its place, where it stands there.
#[inline(always)]
fn find_placed(places: &Vec<Place>, key: &Key) -> Option<u32>
    ensures { result ≡ in_place places.now.items key.now }
{
    let place = places.as_slice().get(place_of(key))?;
    number_at(place, key)
}

/// The number of the key in the tree, where there is one.
fn find_in_tree(tree: &BTreeMap<Key, u32>, key: &Key) -> Option<u32>
    ensures { result ≡ lookup (is_key key.now) tree.now.entries }
{
    tree.get(key).copied()
}

/// Gives the key this number.
fn set_in_tree(tree: &mut BTreeMap<Key, u32>, key: Key, number: u32) -> Result<(), AllocError>
    ensures here { OnOk result (lookup (is_key key) tree.new.entries ≡ Some number) }
    ensures others { OnOk result ((k : _) → is_key key k ≡ false → lookup (is_key k) tree.new.entries ≡ lookup (is_key k) tree.old.entries) }
    ensures err { OnErr result (tree.new.entries ≡ tree.old.entries) }
{
    let _ = tree.insert(key, number)?;
    Ok(())
}

/// Takes the key's number away.
fn clear_in_tree(tree: &mut BTreeMap<Key, u32>, key: &Key)
    ensures here { lookup (is_key key.now) tree.new.entries ≡ None }
    ensures others { (k : _) → is_key key.now k ≡ false → lookup (is_key k) tree.new.entries ≡ lookup (is_key k) tree.old.entries }
{
    let _ = tree.remove(key);
}

/// Makes the places, if they aren't there yet.
fn open_places(places: &mut Vec<Place>) -> Result<(), AllocError>
    ensures ok { OnOk result (4096 ≤ length places.new.items) }
    ensures same { (n : _) → get_or places.new.items n free ≡ get_or places.old.items n free }
{
    if places.len() < PLACES as usize {
        places.resize(PLACES as usize, FREE)?;
    }
    Ok(())
}

/// Whether the key can stand in the place: it is free, or the key's own.
fn can_take(place: &Place, key: &Key) -> bool
    ensures { result ≡ is_open place.now key.now }
{
    place.content == 0 || is_same(key, &place.key)
}

/// Puts the key into its place, unless another stands there. Whether it did.
fn take_place(places: &mut Vec<Place>, key: Key, content: u32) -> bool
    requires { 4096 ≤ length places.old.items }
    ensures here { result ≡ true → in_place places.new.items key ≡ named content }
    ensures taken { result ≡ false → (places.new.items ≡ places.old.items) × (in_place places.old.items key ≡ None) }
    ensures others { (k : _) → is_key key k ≡ false → in_place places.new.items k ≡ in_place places.old.items k }
{
    let place = &mut places[place_of(&key)];
    if can_take(place, &key) {
        *place = Place { key, content };
        true
    } else {
        false
    }
}

/// Takes the key out of its place, if it stands there.
fn leave_place(places: &mut Vec<Place>, key: &Key)
    ensures here { in_place places.new.items key.now ≡ None }
    ensures others { (k : _) → is_key key.now k ≡ false → in_place places.new.items k ≡ in_place places.old.items k }
{
    let at = place_of(key);
    if at < places.len() && is_same(key, &places[at].key) {
        places[at] = FREE;
    }
}

/// Makes rows up to the class.
fn open_rows(direct: &mut Vec<Vec<u32>>, class: usize, alloc: Global) -> Result<(), AllocError>
    requires { class < 2 ^ 32 }
    ensures ok { OnOk result (class < length (table direct.new.items)) }
    ensures same { (c f : _) → slot (table direct.new.items) c f ≡ slot (table direct.old.items) c f }
{
    while direct.len() <= class {
        let Ok(()) = direct.push(Vec::new(alloc)) else {
            return Err(AllocError);
        };
    }
    Ok(())
}

/// Makes slots up to the symbol.
fn open_slots(row: &mut Vec<u32>, first: usize) -> Result<(), AllocError>
    requires { first < 2 ^ 32 }
    ensures ok { OnOk result (first < length row.new.items) }
    ensures same { (f : _) → get_or row.new.items f 0 ≡ get_or row.old.items f 0 }
{
    if row.len() <= first {
        row.resize(first + 1, 0)?;
    }
    Ok(())
}

/// Makes the slot of the class and the symbol.
fn open_slot(
    direct: &mut Vec<Vec<u32>>,
    class: usize,
    first: usize,
    alloc: Global,
) -> Result<(), AllocError>
    requires class { class < 2 ^ 32 }
    requires first { first < 2 ^ 32 }
    ensures ok { OnOk result ((class < length (table direct.new.items)) × (first < length (get_or (table direct.new.items) class []))) }
    ensures same { (c f : _) → slot (table direct.new.items) c f ≡ slot (table direct.old.items) c f }
{
    let Ok(()) = open_rows(direct, class, alloc) else {
        return Err(AllocError);
    };
    let Ok(()) = open_slots(&mut direct[class], first) else {
        return Err(AllocError);
    };
    Ok(())
}

/// Writes the slot of the class and the symbol.
fn set_slot(direct: &mut Vec<Vec<u32>>, class: usize, first: usize, content: u32)
    requires class { class < length (table direct.old.items) }
    requires first { first < length (get_or (table direct.old.items) class []) }
    ensures here { slot (table direct.new.items) class first ≡ content }
    ensures others { (c f : _) → ((c ≡ class) × (f ≡ first) → ⊥) → slot (table direct.new.items) c f ≡ slot (table direct.old.items) c f }
{
    direct[class][first] = content;
}

/// Gives the class and the symbol this number.
fn set_direct(
    direct: &mut Vec<Vec<u32>>,
    class: u32,
    first: u32,
    number: u32,
    alloc: Global,
) -> Result<(), AllocError>
    ensures here { OnOk result (slot (table direct.new.items) class first ≡ suc number) }
    ensures others { OnOk result ((c f : _) → ((c ≡ class) × (f ≡ first) → ⊥) → slot (table direct.new.items) c f ≡ slot (table direct.old.items) c f) }
    ensures err { OnErr result ((c f : _) → slot (table direct.new.items) c f ≡ slot (table direct.old.items) c f) }
{
    let Some(content) = number.checked_add(1) else {
        return Err(AllocError);
    };
    let Ok(()) = open_slot(direct, class as usize, first as usize, alloc) else {
        return Err(AllocError);
    };
    set_slot(direct, class as usize, first as usize, content);
    Ok(())
}

/// Takes the number of the class and the symbol away.
fn clear_direct(direct: &mut Vec<Vec<u32>>, class: u32, first: u32)
    ensures here { slot (table direct.new.items) class first ≡ 0 }
    ensures others { (c f : _) → ((c ≡ class) × (f ≡ first) → ⊥) → slot (table direct.new.items) c f ≡ slot (table direct.old.items) c f }
{
    let class = class as usize;
    let first = first as usize;
    if class < direct.len() && first < direct[class].len() {
        set_slot(direct, class, first, 0);
    }
}

/// Adds the keys in places whose buckets are empty.
fn empty_in_places(
    places: &Vec<Place>,
    buckets: &Vec<Vec<Handle>>,
    keys: &mut Vec<Key>,
) -> Result<(), AllocError> {
    for place in places.iter() {
        if let Some(number) = place.content.checked_sub(1) {
            if is_bare(buckets, number) {
                keys.push(place.key)?;
            }
        }
    }
    Ok(())
}

/// Adds the keys of the tree whose buckets are empty.
fn empty_in_tree(
    tree: &BTreeMap<Key, u32>,
    buckets: &Vec<Vec<Handle>>,
    keys: &mut Vec<Key>,
) -> Result<(), AllocError> {
    for (key, number) in tree.iter() {
        if is_bare(buckets, *number) {
            keys.push(*key)?;
        }
    }
    Ok(())
}

/// Adds the key of this slot, if its bucket is empty.
fn empty_slot(
    class: usize,
    first: usize,
    content: u32,
    buckets: &Vec<Vec<Handle>>,
    keys: &mut Vec<Key>,
) -> Result<(), AllocError> {
    let Some(number) = content.checked_sub(1) else {
        return Ok(());
    };
    let (Ok(class), Ok(first)) = (u32::try_from(class), u32::try_from(first)) else {
        return Ok(());
    };
    if is_bare(buckets, number) {
        keys.push(Key {
            class,
            first,
            second: 0,
            third: 0,
        })?;
    }
    Ok(())
}

/// Adds the keys of this row whose buckets are empty.
fn empty_in_row(
    row: &Vec<u32>,
    class: usize,
    buckets: &Vec<Vec<Handle>>,
    keys: &mut Vec<Key>,
) -> Result<(), AllocError> {
    for (first, content) in row.iter().enumerate() {
        empty_slot(class, first, *content, buckets, keys)?;
    }
    Ok(())
}

impl Numbers {
    /// No key has a number.
    pub(crate) fn new(alloc: Global) -> Numbers
        ensures { result ≡ record { direct = []; places = []; tree = [] } }
    {
        Numbers {
            direct: Vec::new(alloc),
            places: Vec::new(alloc),
            tree: BTreeMap::new(alloc),
            alloc,
        }
    }

    /// The number of a key without a slot, where it has one.
    fn find_other(&self, key: &Key) -> Option<u32>
        ensures { result ≡ either (in_place self.now.places key.now) (lookup (is_key key.now) self.now.tree) }
    {
        match find_placed(&self.places, key) {
            Some(number) => Some(number),
            None => find_in_tree(&self.tree, key),
        }
    }

    /// Gives a key without a slot this number.
    fn set_other(&mut self, key: Key, number: u32) -> Result<(), AllocError>
        requires { is_direct key ≡ false }
        ensures here { OnOk result (number_in self.new key ≡ Some number) }
        ensures others { OnOk result ((k : _) → is_key key k ≡ false → number_in self.new k ≡ number_in self.old k) }
        ensures err { OnErr result ((k : _) → number_in self.new k ≡ number_in self.old k) }
    {
        let Some(content) = number.checked_add(1) else {
            return Err(AllocError);
        };
        let Ok(()) = open_places(&mut self.places) else {
            return Err(AllocError);
        };
        if take_place(&mut self.places, key, content) {
            return Ok(());
        }
        set_in_tree(&mut self.tree, key, number)
    }

    /// The number of the key, where it has one.
    #[inline(always)]
    pub(crate) fn find(&self, key: &Key) -> Option<u32>
        ensures { result ≡ number_in self.now key.now }
    {
        if has_slot(key) {
            find_direct(&self.direct, key.class, key.first)
        } else {
            self.find_other(key)
        }
    }

    /// Gives the key this number.
    pub(crate) fn set(&mut self, key: Key, number: u32) -> Result<(), AllocError>
        ensures here { OnOk result (number_in self.new key ≡ Some number) }
        ensures others { OnOk result ((k : _) → is_key key k ≡ false → number_in self.new k ≡ number_in self.old k) }
        ensures err { OnErr result ((k : _) → number_in self.new k ≡ number_in self.old k) }
    {
        if has_slot(&key) {
            return set_direct(&mut self.direct, key.class, key.first, number, self.alloc);
        }
        self.set_other(key, number)
    }

    /// Takes the key's number away.
    pub(crate) fn forget(&mut self, key: &Key)
        ensures here { number_in self.new key.now ≡ None }
        ensures others { (k : _) → is_key key.now k ≡ false → number_in self.new k ≡ number_in self.old k }
    {
        if has_slot(key) {
            clear_direct(&mut self.direct, key.class, key.first);
            return;
        }
        leave_place(&mut self.places, key);
        clear_in_tree(&mut self.tree, key);
    }

    /// The keys whose buckets are empty.
    pub(crate) fn empty_keys(&self, buckets: &Vec<Vec<Handle>>) -> Result<Vec<Key>, AllocError> {
        let mut keys = Vec::new(self.alloc);
        empty_in_places(&self.places, buckets, &mut keys)?;
        empty_in_tree(&self.tree, buckets, &mut keys)?;
        for (class, row) in self.direct.iter().enumerate() {
            empty_in_row(row, class, buckets, &mut keys)?;
        }
        Ok(keys)
    }
}
