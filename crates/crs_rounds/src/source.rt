// A log that is open among others.
use crs_log::Lines;

/// A log that was opened.
#[derive(Drop)]
pub struct Source {
    /// The number of its input.
    pub input: u32,
    /// How many of its bytes were read.
    pub taken: u64,
    /// The bytes that were read, of which lines are given.
    pub lines: Lines,
    /// Whether its end was met.
    pub finished: bool,
}
