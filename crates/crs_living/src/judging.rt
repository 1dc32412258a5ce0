//! By which plan and at which date instances are judged, and which dates they pass.
use crs_history::History;
use crs_model::Plan;

/// The plan, whether levels are read, and the date at which instances are judged.
#[derive(Clone, Copy, Drop)]
pub struct Judging<'a> {
    pub plan: &'a Plan,
    pub focus: bool,
    pub h: u64,
}

/// The date at which instances were judged last, and the one at which they are judged next, over the
/// history's entries.
#[derive(Clone, Copy, Drop)]
pub struct Passing<'a> {
    pub judging: Judging<'a>,
    pub history: &'a History,
    pub since: u64,
}
