/// The dates from one on and before another, in ticks.
#[derive(Clone, Copy, Debug, PartialEq, Eq)]
pub struct Stretch {
    pub from: i64,
    pub to: i64,
}

/// What is known of a window at a date: how many entries count for it, and whether a `hold` is
/// broken.
#[derive(Clone, Copy, Debug, PartialEq, Eq)]
pub struct Progress {
    pub count: u32,
    pub broken: bool,
}

/// How a window stands at a date.
#[derive(Clone, Copy, Debug, PartialEq, Eq)]
pub enum Verdict {
    Met,
    Lost,
    Waiting,
}
