//! Several logs at once: each is a feed with clocks of its own, and one engine goes by the least of
//! their horizons.
#![tactic(auto)]

mod clocks;
mod feed;
mod feeds;
mod laws;
mod rising;

pub use feed::Feed;
pub use feeds::Feeds;
pub use laws::{idle_pairs_need_no_call, merged_runs_agree};
pub use rising::Rise;
