// The clocks of one feed.
ghost use Rattle.std.specs.Prelude.{◌≡◌};
ghost use Rattle.crs_feeds.specs.Merged.{clocked, closed};

/// The clock and the horizon of a feed after its end, in ticks: 2^42, above every date.
pub(crate) const END: u64 = 4_398_046_511_104;

/// The clocks of a feed. Dates are ticks of the logs' clock.
#[derive(Clone, Copy, Debug)]
pub struct Feed {
    /// How many ticks the horizon lags behind the clock.
    pub delay: u64,
    /// The last clock that was accepted, and 2^42 after the end.
    pub last: u64,
    /// Earlier events of this feed are late. It is 2^42 after the end.
    pub horizon: u64,
    /// Whether an `end` was accepted.
    pub ended: bool,
}

impl Feed {
    /// The clocks once a clock was accepted that isn't before the last one.
    pub(crate) fn clocked(self, t: u64) -> Feed
        ensures { result ≡ clocked t self }
    {
        Feed {
            last: t,
            horizon: self.horizon.max(t.saturating_sub(self.delay)),
            ..self
        }
    }

    /// The clocks once an `end` was accepted.
    pub(crate) fn closed(self) -> Feed
        ensures { result ≡ closed self }
    {
        Feed {
            last: END,
            horizon: END,
            ended: true,
            ..self
        }
    }
}

/// A feed that gave nothing yet.
pub(crate) const NEW: Feed = Feed {
    delay: 0,
    last: 0,
    horizon: 0,
    ended: false,
};
