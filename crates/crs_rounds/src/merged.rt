// What is known between two lines of several logs.
use crs_base::Symbols;
use crs_feeds::Feeds;

/// A run over several logs between two of their lines.
#[derive(Drop)]
pub struct MergedSession {
    pub feeds: Feeds,
    pub symbols: Symbols,
    /// The most entries that are accepted.
    pub entries: u32,
    /// Whether some line was refused.
    pub refused: bool,
}

/// Where a line comes from: the number of its feed, from 0, and its own in that feed's log, from 1.
#[derive(Clone, Copy, Debug)]
pub struct Origin {
    pub feed: u8,
    pub number: u64,
}
