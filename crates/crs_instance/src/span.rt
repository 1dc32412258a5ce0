ghost use Rattle.std.specs.Prelude.{◌≡◌};
ghost use Rattle.crs_instance.specs.Spans.{start_of, end_of, window_of};

use crs_model::DateWindow;

/// Every date is far below this number: as the greatest date it stands for none.
pub(crate) const NO_MOST: i64 = 1 << 50;

/// Every date is far above this number: as the least date it stands for none.
pub(crate) const NO_LEAST: i64 = -(1 << 50);

/// The least and the greatest date of a point. A `least` that isn't above `NO_LEAST` is none, and
/// so is a `most` that isn't below `NO_MOST`: narrowing is then the greater and the lesser of two
/// numbers.
#[derive(Clone, Copy)]
pub(crate) struct Span {
    pub(crate) least: i64,
    pub(crate) most: i64,
}

/// The least date that the number stands for.
fn least_at(number: i64) -> Option<i64>
    ensures { result ≡ start_of number }
{
    if NO_LEAST < number {
        Some(number)
    } else {
        None
    }
}

/// The greatest date that the number stands for.
pub(crate) fn most_at(number: i64) -> Option<i64>
    ensures { result ≡ end_of number }
{
    if number < NO_MOST { Some(number) } else { None }
}

impl Span {
    /// The window that the span stands for.
    pub(crate) fn window(self) -> DateWindow
        ensures { result ≡ window_of self }
    {
        DateWindow {
            least: least_at(self.least),
            most: most_at(self.most),
        }
    }
}
