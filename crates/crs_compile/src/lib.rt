//! From models to plans: the least bounds of each chronicle, and its reach and its lag.
#![tactic(auto)]

mod compilation;
mod lag;
mod laws;
mod minimal;
mod reach;

pub use compilation::compile;
pub use laws::{lags_decide, minimal_text_is_one, reach_is_one};
pub use minimal::minimal_text;
