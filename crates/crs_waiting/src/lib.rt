//! What an instance waits for: under which keys, what comes before what, and when it is due.
#![tactic(auto)]

mod befores;
mod chart;
mod dues;
mod hooks;
mod linking;
mod places;
mod refusing;

pub use befores::{is_held_back, rank_of};
pub use chart::Chart;
pub use dues::{collect_due, put_dues};
pub use hooks::{
    Hook, Hooks, Pick, Symbols, argument_in, is_lone, key_of_entry, key_of_first, key_of_symbols,
    part_of_symbols, parts_of_symbols, symbols_of_entry,
};
pub use linking::{arm_windows, find_anew, link_events};
pub use places::{note_place, sort_places};
pub use refusing::refuses;
