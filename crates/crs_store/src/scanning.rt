//! How levels are scanned: what comes of an instance by an entry, and, where that completes a level, by
//! the entries that are there for the next ones.

pub(crate) mod agreeing;
pub(crate) mod candidates;
