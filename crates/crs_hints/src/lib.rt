//! What may be wrong in a refused line of models, in a table's first record and in the words of the
//! command line, and what is wrong with a claim of an output, in a sentence for who wrote it.
#![tactic(auto)]

mod circles;
mod claims;
mod command_words;
mod faults;
mod hints;
mod pieces;
mod statements;
mod tables;
mod walking;

pub use circles::Circle;
pub use claims::claim_hint;
pub use command_words::{WordHint, command_hint};
pub use hints::{Hint, hint_of};
pub use tables::table_hint;
