//! Checks the cited recognitions of an output by the models and the log, one by one. It keeps the
//! accepted entries in one list, and no store, no instance and no network.
#![tactic(auto)]

mod auditing;
mod bounds;
mod citing;
mod claims;
mod dates;
mod judging;
mod naming;
mod run;
mod taking;
mod values;
mod windows;
mod words;

pub use auditing::audit;
pub use words::{AuditRefused, AuditWord, audit_line, audit_ok_line};
