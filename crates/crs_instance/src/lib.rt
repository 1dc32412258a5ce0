//! Partial instances of chronicles.
#![tactic(auto)]

mod bits;
mod bound;
mod dated;
mod fit;
mod fork;
mod instance;
mod links;
mod narrowing;
mod span;
mod waiting;

pub use dated::{Dated, stretch_of};
pub use fit::Fit;
pub use fork::Fork;
pub use instance::{Completed, Instance, matched, progress_in};
