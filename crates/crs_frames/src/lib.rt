//! What a log is read with, and the lines of what is recognised in it.
#![tactic(auto)]

mod lines;

pub use lines::{is_blank, push_lines};
