//! What may be wrong in a refused line of a log, in a sentence for who wrote it, and what is told of
//! a log that brought nothing.
#![tactic(auto)]

mod dates;
mod files;
mod held;
mod log_lines;
mod names;
mod refusals;
mod signs;
mod statements;
mod walking;
mod watching;

pub use log_lines::{LogHint, LogWord, log_hint};
pub use names::is_near;
pub use signs::Silence;
pub use watching::{RefusedLine, RunWatch};
