//! The tests of what an engine forgets, over plans of compiled models.
#![tactic(auto)]

#[cfg(test)]
mod forgetting;
