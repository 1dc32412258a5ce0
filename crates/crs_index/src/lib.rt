//! Who waits for what: handles by key.
#![tactic(auto)]

mod buckets;
mod index;
mod key;
mod numbers;

pub use index::Index;
pub use key::Key;
