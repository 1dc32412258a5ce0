//! The outside: named inputs that are read, and one output that is written.
#![tactic(auto)]

mod calm;
mod desk;
mod file;
mod memory;
mod real;
mod schedule;
mod turn;
mod whole;

pub use calm::CalmDesk;
pub use desk::{Desk, DeskError};
pub use memory::MemoryDesk;
pub use real::{Fault, RealDesk};
pub use turn::Turn;
pub use whole::{ReadAllError, read_all, write_all};
