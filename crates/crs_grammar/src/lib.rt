//! The statements of model texts: how each is written, what the tokens of a line mean, and the canonical text.
#![tactic(auto)]

mod laws;
mod parsing;
mod statements;
mod words;

pub use laws::{canonical_statement_is_read, read_is_what_is_meant};
pub use parsing::{inside, outside};
pub use statements::{
    Anchor, Body, Declaration, Distance, Emission, Event, Heading, Pattern, Shift, Statement, Term,
    Unread, Window,
};
pub use words::{Token, tokens};
