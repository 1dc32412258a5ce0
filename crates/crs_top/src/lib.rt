//! The top call: the words, the desk and a status.
#![tactic(auto)]

mod run;

pub use crs_commands::{CHECKED_LIMIT, plans_for_audit};
pub use crs_outcomes::{Limits, STANDARD, Status};
pub use run::{run_program, run_with};
