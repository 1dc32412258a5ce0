//! The settled entries that are still needed.
#![tactic(auto)]

mod found;
mod history;
mod holdings;
mod keyed;
mod lanes;
mod looking;
mod numbered;
mod numbers;
mod range;
mod reading;
mod shortcuts;
mod stretch;
mod told;
mod track;
mod tracks;

pub use found::Found;
pub use history::History;
pub use range::Range;
pub use reading::{brings, changes, to_date};
