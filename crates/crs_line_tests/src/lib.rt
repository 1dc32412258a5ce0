//! The tests of log lines and of lines of output, and of the listeners that are told of recognitions.
#![tactic(auto)]

#[cfg(test)]
mod listeners;
#[cfg(test)]
mod logs;
#[cfg(test)]
mod reports;
