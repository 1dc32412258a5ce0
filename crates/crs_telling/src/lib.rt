//! What the program tells on standard error beside a command: what is wrong in a line or in the words, and
//! why nothing was recognised.
#![tactic(auto)]

mod telling;
mod watched;
mod words;

pub use telling::{shown_name, tell_hint};
pub use watched::{Watched, log_names};
pub use words::{explain_bytes, explain_words, words_of};
