//! The tests of what comes in: command lines, desks, tables, made logs, and hints at mistakes in
//! models, logs, words and claims.
#![tactic(auto)]

#[cfg(test)]
mod claims;
#[cfg(test)]
mod command_lines;
#[cfg(test)]
mod desks;
#[cfg(test)]
mod drills;
#[cfg(test)]
mod log_mistakes;
#[cfg(test)]
mod mistakes;
#[cfg(test)]
mod tables;
#[cfg(test)]
mod wrong_words;
