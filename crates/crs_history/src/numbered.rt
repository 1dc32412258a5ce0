ghost use Rattle.std.specs.Prelude.{◌≡◌, ◌<◌, ◌-◌, [], ◌∷◌, ◌++◌, length, take, drop, slice_get, option_map, OnOk, OnErr};
ghost use Rattle.crs_base.specs.Seen.{entry_of};
ghost use Rattle.crs_history.specs.Lanes.{lane_of, AreAlike, IsSetTo};

use crate::stretch::Stretch;
use crate::track::Track;
use crs_base::Entry;
use std::alloc::{AllocError, Global};
use std::marker::Model;
use std::rc::Rc;

/// Tracks by number. That of a number that has none is empty.
#[derive(Drop)]
pub(crate) struct Numbered {
    tracks: Vec<Track>,
    alloc: Global,
}

impl Model for Numbered {
    ghost use Rattle.std.specs.Prelude.{List};
    ghost use Rattle.crs_base.specs.declared.symbols.Sym.{Sym};
    ghost use Rattle.crs_base.specs.Entry.{Entry as LogEntry};

    ghost Value = { List (List (LogEntry Sym)) };

    ghost view = { λ n. n.tracks.items };
}

impl Numbered {
    /// Empty tracks, which take no memory.
    pub fn new(alloc: Global) -> Numbered
        ensures { result ≡ [] }
    {
        Numbered {
            tracks: Vec::new(alloc),
            alloc,
        }
    }

    /// The changes of a track.
    pub fn track(&self, number: usize) -> Stretch<'_>
        ensures { result ≡ lane_of self.now number }
    {
        match self.tracks.as_slice().get(number) {
            Some(track) => track.whole(),
            None => Stretch::none(),
        }
    }

    /// Makes sure that the number has a track.
    fn open(&mut self, number: usize) -> Result<(), AllocError>
        ensures alike { AreAlike self.old self.new }
        ensures ok { OnOk result (number < length self.new) }
    {
        while self.tracks.len() <= number {
            self.tracks.push(Track::new(self.alloc))?;
        }
        Ok(())
    }

    /// Adds a change at the end of a track.
    pub fn push(&mut self, number: usize, entry: Rc<Entry>) -> Result<(), AllocError>
        ensures ok { OnOk result (IsSetTo self.old number (lane_of self.old number ++ entry_of entry.value ∷ []) self.new) }
        ensures err { OnErr result (AreAlike self.old self.new) }
    {
        self.open(number)?;
        self.tracks[number].push(entry)
    }

    /// Takes out the first change of a track.
    pub fn pop_first(&mut self, number: usize) -> Option<Rc<Entry>>
        ensures first { option_map (λ r. entry_of r.value) result ≡ slice_get (lane_of self.old number) 0 }
        ensures rest { IsSetTo self.old number (drop 1 (lane_of self.old number)) self.new }
    {
        if self.tracks.len() <= number {
            return None;
        }
        self.tracks[number].pop_first()
    }
}
