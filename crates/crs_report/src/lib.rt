//! The lines of a run, as bytes, and the listeners that are told of its recognitions.
#![tactic(auto)]

pub mod figures;
mod kinds;
mod listener;
mod pages;
mod recognitions;
mod refusals;
mod summary;
mod teller;

pub use kinds::{CountByModel, FirstLast, FirstN, LongestSpan};
pub use listener::{Listener, Next};
pub use pages::{page_line, push_pages};
pub use recognitions::{cited_line_of, line_of, push_line_of};
pub use refusals::{Fault, model_line, push_refusal_line, refusal_line};
pub use summary::{Summary, push_summary_line, summary_line};
pub use teller::{keep_kinds, tell_all, tell_each};
