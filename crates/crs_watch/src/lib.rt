//! How the windows of a chronicle stand, and which of those that are armed have a date.
#![tactic(auto)]

mod beginning;
mod judging;
mod naming;
mod passing;
mod settling;
mod touched;
mod watch;

pub use beginning::begin;
pub use judging::{is_safe, judge};
pub use naming::known_of;
pub use passing::{hangs_on_dates, pass};
pub use settling::settle;
pub use touched::Touched;
pub use watch::Watch;
