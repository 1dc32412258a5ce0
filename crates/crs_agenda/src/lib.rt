//! What is due, by date.
#![tactic(auto)]

mod agenda;
mod bucket;
mod calendar;
mod rows;
mod timed;

pub use agenda::Agenda;
pub use calendar::Calendar;
pub use timed::{Handle, Timed};
