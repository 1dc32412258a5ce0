//! Tests of audits, and of the command that makes them.
#![tactic(auto)]

#[cfg(test)]
mod audits;
#[cfg(test)]
mod commands;
