//! Bounds between the dates of points, and the least bounds that they imply.
//!
//! This is the simple temporal network of Dechter, Meiri and Pearl, "Temporal constraint networks", Artificial Intelligence 49, 1991. Dates are whole numbers of either sign.
#![tactic(auto)]

mod bound;
mod dates;
pub mod laws;
mod lower;
mod network;
mod points;

pub use bound::Bound;
pub use dates::Dates;
pub use network::{Network, StnRefused};
pub use points::PointList;
