//! Which level of a chronicle's events comes next, for which events an instance waits, and which settled
//! entries an event may have been.
#![tactic(auto)]

mod awaited;
mod finding;
mod level;
mod up_to;

pub use awaited::{awaited_events, is_awaited, last_date, next_level};
pub use finding::{candidates, candidates_with};
pub use level::{current_level, level_of};
pub use up_to::Candidates;
