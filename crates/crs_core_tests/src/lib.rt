//! The tests of patterns, and of instances, stores and engines over a plan of two events.
#![tactic(auto)]

#[cfg(test)]
mod engines;
#[cfg(test)]
mod fixtures;
#[cfg(test)]
mod instances;
#[cfg(test)]
mod patterns;
#[cfg(test)]
mod stores;
