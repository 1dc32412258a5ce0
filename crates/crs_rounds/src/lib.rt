//! Several logs, of which a line of each is taken in turn.
#![tactic(auto)]

mod feeds;
mod merged;
mod merging;
mod preparing;
mod rounds;
mod source;
mod sources;

pub use feeds::recognise_feeds;
