//! Models, and what it means to recognise them.
#![tactic(auto)]

mod allowing;
mod binding;
mod bits;
mod chronicle;
mod date_window;
mod hierarchy;
mod laws;
pub mod limits;
mod matching;
mod models;
mod pattern;
mod plan;
mod progress;
mod recognition;
mod strata;

pub use allowing::allowed;
pub use binding::Binding;
pub use bits::is_set_at;
pub use chronicle::{Anchor, Body, Chronicle, Emit, EventDef, VarSet, Window};
pub use date_window::DateWindow;
pub use hierarchy::first_emit_line;
pub use laws::{limits_of_models, recognised_stays};
pub use matching::{accepts, bind_if_fits, bind_vars, fits};
pub use models::{Kind, ModelRefused, ModelWord, Models, Name};
pub use pattern::{Pattern, Term};
pub use plan::{Plan, Plans};
pub use progress::{Progress, Stretch, Verdict};
pub use recognition::{Mark, Recognition};
pub use strata::{lag_below, strata_of};
