//! The partial instances of one chronicle that can still be recognised.
#![tactic(auto)]

mod found;
mod holding;
mod links;
mod moment;
mod order;
mod refused;
mod ripening;
mod scanning;
mod store;

pub use crs_waiting::rank_of;
pub use moment::Coming;
pub use refused::StoreRefused;
pub use store::Store;
