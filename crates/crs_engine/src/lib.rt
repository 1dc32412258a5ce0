//! The recogniser: all chronicles over one stream of entries.
#![tactic(auto)]

mod concerned;
mod engine;
mod entries;
mod looked_up;
mod moving;
mod ranks;
mod refused;
mod starting;
mod sums;

pub use engine::Engine;
pub use ranks::ranks_of;
pub use refused::Refused;
