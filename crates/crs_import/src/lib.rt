//! Tables of events, read as CSV and written as a log.
#![tactic(auto)]

mod laws;
mod reading;
mod refusals;
mod rows;
mod tables;
mod writing;

pub use laws::{records_are_all, tables_have_logs};
pub use refusals::{ImportRefused, RowWord, refusal_line};
pub use tables::import;
