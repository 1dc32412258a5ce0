//! A run between two lines of its log: what a line is worth, and what is written for it.
#![tactic(auto)]

mod laws;
mod output;
mod pieces;
mod session;
mod step;

pub use laws::{log_text_is_one, traces_without_emits_are_lone};
pub use output::Output;
pub use pieces::{take_piece, take_rest};
pub use session::{Counts, Session};
pub use step::{Room, take_line};
