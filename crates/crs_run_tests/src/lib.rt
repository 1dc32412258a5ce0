//! The tests of whole runs: the words, the models and the log of each, and its output and its status.
#![tactic(auto)]

#[cfg(test)]
mod calm_runs;
#[cfg(test)]
mod delays;
#[cfg(test)]
mod failing_calls;
#[cfg(test)]
mod hostile;
#[cfg(test)]
mod prompt_runs;
#[cfg(test)]
mod rows;
#[cfg(test)]
mod runs;
#[cfg(test)]
mod several_logs;
#[cfg(test)]
mod windows;
