//! Whole model texts: the faults of their lines, and the models that they mean.
#![tactic(auto)]

mod builder;
mod models;
mod numbering;
mod reading;
mod symbols;

pub use models::read_models;
