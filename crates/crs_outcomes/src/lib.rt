//! What a command reads of its inputs and of their models, and its status.
#![tactic(auto)]

mod limits;
mod loading;
mod models;
mod status;

pub use limits::{Limits, STANDARD};
pub use loading::{MODELS_LIMIT, MODELS_TOO_LONG, load, read_whole, refuse, write_text};
pub use models::{read_lone_plans, read_plans, read_text};
pub use status::{Status, end_status};
