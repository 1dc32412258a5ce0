mod adding;
mod making;
mod texts;
mod whole;

use crs_base::Sym;
pub use making::{make_entry, make_named};
use thiserror::Error;

/// Why an event has no entry.
#[derive(Clone, Copy, Debug, PartialEq, Eq, Drop, Error)]
pub enum EntryRefused {
    /// Its new symbols do not fit into the table, which holds at most `limit`.
    #[error("Values")]
    Values { limit: u32 },
    /// Memory ran out.
    #[error("Memory")]
    Memory,
}

/// What the name of an event is: none that is declared, or the declared one at a place, from 0, with
/// the number of its text.
#[derive(Clone, Copy, Debug, PartialEq, Eq)]
pub enum Known {
    Other,
    Name(u32, Sym),
}
