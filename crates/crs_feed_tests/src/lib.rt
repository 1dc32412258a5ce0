//! The tests of feeds: several logs at once, over a chronicle of two events.
#![tactic(auto)]

#[cfg(test)]
mod fixtures;
#[cfg(test)]
mod interleaved;
#[cfg(test)]
mod refused;
