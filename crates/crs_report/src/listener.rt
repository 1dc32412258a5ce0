ghost use Rattle.std.specs.Prelude.{◌≡◌, ◌<◌, ℕ, List as Items, length, IfOk, OnOk, OnErr};
ghost use Rattle.crs_report.specs.Listeners.{notice_of, figures_after, next_of, page_line};

use crs_base::{List, Text};
use crs_model::Recognition;
use std::alloc::AllocError;

/// Whether a listener is told of further recognitions.
#[derive(Clone, Copy, Debug, PartialEq, Eq)]
pub enum Next {
    Stay,
    Leave,
}

/// Who is told of each recognition, and keeps figures of what it was told.
///
/// The kind says what a recognition does to the figures:
///
/// | Kind | Word | Figures |
/// |---|---|---|
/// | 0 | `count` | how many recognitions of each chronicle |
/// | 1 | `span` | the least and the greatest date of an event |
/// | 2 | `longest` | the longest span, the number of its chronicle and its least date |
/// | 3 | `fewer` | how many more it wants to be told; it leaves at 0 |
/// | others | the number | the caller's own, which no recognition changes |
///
/// Figures of a number that isn't the kind's stay as they are. Dates and spans are ticks of the
/// log's clock, and counts stand still at 2^64 - 1.
pub trait Listener: Drop {
    /// The kind.
    ghost kind: { Self → ℕ };

    /// The figures.
    ghost figures: { Self → Items ℕ };

    fn kind(&self) -> u32
        ensures { result ≡ kind self.now };

    fn figures(&self) -> &List<u64>
        ensures { result.now ≡ figures self.now };

    /// Takes the step of its kind. After want of memory it is as it was.
    fn tell(&mut self, r: &Recognition) -> Result<Next, AllocError>
        requires { 0 < length r.now.entries }
        ensures kind { kind self.new ≡ kind self.old }
        ensures figures { OnOk result (figures self.new ≡ figures_after (kind self.old) (figures self.old) (notice_of r.now)) }
        ensures next { IfOk result (λ next. next ≡ next_of (kind self.new) (figures self.new)) }
        ensures err { OnErr result (figures self.new ≡ figures self.old) };

    /// The line of its kind and its figures.
    fn page(&self) -> Result<Text, AllocError>
        ensures { IfOk result (λ text. text ≡ page_line (kind self.now) (figures self.now)) };
}
