//! The canonical text of models, and that it is read as the same models.
#![tactic(auto)]

mod laws;
mod printing;

pub use laws::canonical_models_are_read;
pub use printing::print_models;
