//! Logs: their lines, the items that these are, and the entries of events.
#![tactic(auto)]

mod entries;
mod items;
pub mod laws;
mod lines;
pub mod naming;
mod putting;

pub use entries::{EntryRefused, Known, make_entry, make_named};
pub use items::parts::span_text;
pub use items::{Item, ItemRefused, Raw, Span, read_event, read_item, read_other};
pub use lines::{Line, Lines, Told, lines_of_pieces};
