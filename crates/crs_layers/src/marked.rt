// What a mark brings.
use crs_base::List;
use crs_model::Recognition;

/// What is new at a mark in all strata.
#[derive(Drop)]
pub struct Marked {
    /// Of one chronicle after another in the order of the models' file, and of each in key order. Each has
    /// the number of its chronicle among all, from 0.
    pub list: List<Recognition>,
    /// Whether some stratum had no room for an entry that a lower one gave.
    pub flood: bool,
}
