ghost use Rattle.std.specs.Prelude.{◌≡◌, [], filter, map, OnOk, OnErr};
ghost use Rattle.std.specs.BTreeMap.{insert_entry};
ghost use Rattle.std.specs.List.Sorted.{IsStrictlySortedBy};
ghost use Rattle.std.specs.Map.{keys_of};
ghost use Rattle.crs_watch.specs.Watching.{touched_cmp, armed_pair, is_of_another, armed_cmp, Arms, is_touched};

use crate::touched::Touched;
use crs_model::Stretch;
use std::alloc::{AllocError, Global};
use std::collections::BTreeMap;
use std::marker::Model;

/// Pairs of an id and a window, each armed under a name and with a stretch. Under one name a pair has
/// one stretch, and under another it may have another. They stand by name, then by id, then by
/// window.
#[derive(Drop)]
pub struct Watch<K: Ord + Drop> {
    armed: BTreeMap<(K, u64, u8), Stretch>,
}

impl<K: Ord + Drop> Model for Watch<K> {
    ghost use Rattle.std.specs.Prelude.{All};
    ghost use Rattle.std.specs.Map.{keys_of};
    ghost use Rattle.crs_watch.specs.Watching.{Armed, IsSized};

    ghost Value = { Armed K };

    ghost view = { λ w. w.armed.entries };

    ghost invariant = { λ w. All IsSized (keys_of w.armed.entries) };
}

impl<K: Ord + Copy + Drop> Watch<K> {
    /// A watch with nothing armed, which takes no memory.
    pub fn new(alloc: Global) -> Watch<K>
        ensures { result ≡ [] }
    {
        Watch {
            armed: BTreeMap::new(alloc),
        }
    }

    /// Arms the pair under the name with the stretch, whose dates are ticks of the log's clock, in
    /// place of the one that it had under that name. After an error nothing is changed.
    pub fn arm(&mut self, id: u64, window: u8, name: K, stretch: Stretch) -> Result<(), AllocError>
        ensures ok { OnOk result (self.new ≡ insert_entry (armed_cmp K.cmp) self.old (name, id, window) stretch) }
        ensures armed { OnOk result (Arms K.cmp (name, id, window) stretch self.old self.new) }
        ensures err { OnErr result (self.new ≡ self.old) }
    {
        self.armed.insert((name, id, window), stretch)?;
        Ok(())
    }

    /// The pairs that are armed under the name and whose stretch has the date, in ticks of the log's
    /// clock, by id and then by window. It takes no memory, and looks at no other name's pairs.
    pub fn touched(&self, name: K, date: u64) -> Touched<'_, K>
        ensures exactly { result ≡ map armed_pair (filter (is_touched K.cmp name date) self.now) }
        ensures ascending { IsStrictlySortedBy touched_cmp result }
        ensures ordered { IsStrictlySortedBy (armed_cmp K.cmp) (keys_of self.now) }
    {
        let range = self.armed.range((name, 0, 0)..=(name, u64::MAX, u8::MAX));
        Touched::new(range, date)
    }

    /// Takes out each pair of the id, under whatever name. It takes no memory.
    pub fn disarm(&mut self, id: u64)
        ensures { self.new ≡ filter (is_of_another id) self.old }
    {
        self.armed.retain(|key, _| key.1 != id);
    }
}
