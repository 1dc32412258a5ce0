//! The entries that an engine holds.
use crs_base::Entry;
use crs_buffer::Buffer;
use crs_history::History;
use std::alloc::Global;
use std::rc::Rc;

/// The entries from where they wait to where they are forgotten.
#[derive(Drop)]
pub(crate) struct Entries {
    /// Those that wait to be settled.
    pub(crate) buffer: Buffer,
    /// A piece of what a mark settles. It is filled anew with each one, and keeps its memory.
    pub(crate) due: Vec<Rc<Entry>>,
    /// Those that are settled and still needed.
    pub(crate) history: History,
    /// Those that left the history and that no one else owns: others take their places.
    pub(crate) spare: Vec<Rc<Entry>>,
    /// Where memory for them and for answers comes from.
    pub(crate) alloc: Global,
}
