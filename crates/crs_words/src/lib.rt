//! The words of the command line: which command they are, and with which settings.
#![tactic(auto)]

mod apps;
mod command;
mod kinds;
mod numbers;
mod reading;
mod usage;

pub use command::{Command, Listing, Tally};
pub use reading::read_words;
pub use usage::usage_text;
