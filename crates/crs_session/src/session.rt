// What is known between two lines of a log.
ghost use Rattle.std.specs.Prelude.{◌≡◌};
ghost use Rattle.crs_layers.specs.LayerStates.{kept_in};
ghost use Rattle.crs_session.specs.Tallies.{with_refused, with_mark};

use crs_base::Symbols;
use crs_layers::Layers;

/// What a run counts. Each number stands still at 2^64 - 1.
#[derive(Clone, Copy, Debug)]
pub struct Counts {
    /// The refused lines, and the marks at which some stratum had no room for an entry that a lower one
    /// gave.
    pub refused: u64,
    /// The printed recognitions.
    pub recognitions: u64,
    /// The greatest number of partial instances that were held, at the start or after any line.
    pub peak: u64,
}

/// A run between two lines of its log.
#[derive(Drop)]
pub struct Session {
    pub layers: Layers,
    pub symbols: Symbols,
    /// The most entries that each stratum accepts.
    pub entries: u32,
    /// Whether the entries of recognitions are cited.
    pub cite: bool,
    /// Whether an `end` was accepted.
    pub ended: bool,
    pub counts: Counts,
}

impl Session {
    /// Counts a refused line.
    pub fn count_refused(&mut self)
        ensures { self.new ≡ record self.old { counts = with_refused self.old.counts } }
    {
        self.counts.refused = self.counts.refused.saturating_add(1);
    }

    /// Counts the recognitions of a mark that was just met, and what is held behind it.
    pub fn count_mark(&mut self, recognitions: usize)
        ensures { self.new ≡ record self.old { counts = with_mark self.old.counts recognitions (kept_in self.old.layers) } }
    {
        let kept = self.layers.kept();
        self.counts.recognitions = self.counts.recognitions.saturating_add(recognitions as u64);
        self.counts.peak = self.counts.peak.max(kept);
    }
}
