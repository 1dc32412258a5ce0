//! Symbols, lists and entries: the values that every other crate speaks of.
#![tactic(auto)]

mod entry;
mod laws;
mod lines;
mod list;
mod numbers;
mod output;
mod recent;
mod steps;
mod sym_list;
mod symbol_text;
mod symbols;
mod text;
mod tokens;

pub use entry::Entry;
pub use laws::key_order_is_total;
pub use lines::{
    LINE_LIMIT, RawLine, first_line, is_blank, is_long, line_bytes, line_len, passed_over,
};
pub use list::List;
pub use numbers::{integer, number};
pub use output::{push_bytes, push_integer, push_number};
pub use steps::Steps;
pub use sym_list::SymList;
pub use symbols::{Sym, SymRefused, Symbols, is_symbol, is_symbol_byte};
pub use text::Text;
pub use tokens::{Marks, Token, fill_tokens, read_tokens, word_bytes};
