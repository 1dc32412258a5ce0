//! Instances that live: in which place each stands, which dates pass over it, what its windows tell, what
//! its next levels bring, and when it has no hope left.
#![tactic(auto)]

mod deciding;
mod hope;
mod judging;
mod slots;
mod walking;
mod windows;

pub use deciding::{Scan, decide, keep_fork};
pub use hope::is_hopeful;
pub use judging::{Judging, Passing};
pub use slots::Slots;
pub use walking::{follow_places, pass_places};
pub use windows::is_done;
