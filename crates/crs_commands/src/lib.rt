//! The commands: a run, its drill, the models printed, a table imported, an output checked.
#![tactic(auto)]

mod auditing;
mod drilling;
mod listing;
mod log;
mod models;
mod printing;
mod running;
mod table;

pub use auditing::{CHECKED_LIMIT, audit_output, plans_for_audit};
pub use drilling::drill;
pub use printing::print;
pub use running::recognise;
pub use table::import_table;
