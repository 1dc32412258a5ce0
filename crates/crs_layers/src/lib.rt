//! Strata of chronicles over one stream of entries: what the lower ones recognise gives entries to the
//! higher ones.
#![tactic(auto)]

mod accepting;
mod advancing;
mod emitting;
mod gathering;
mod giving;
mod laws;
mod layer;
mod layers;
mod marked;
mod starting;

pub use laws::{no_given_entry_is_late, runs_are_one, runs_without_emits, what_is_read_stays};
pub use layers::Layers;
pub use marked::Marked;
