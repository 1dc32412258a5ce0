//! The tests of chronicles that emit entries for others: how that is written, read and printed, and
//! what strata and lags come of it.
#![tactic(auto)]

#[cfg(test)]
mod desk;
#[cfg(test)]
mod lags;
#[cfg(test)]
mod rows;
#[cfg(test)]
mod runs;
#[cfg(test)]
mod texts;
#[cfg(test)]
mod words;
