// The kinds of listeners.
ghost use Rattle.std.specs.Prelude.{◌≡◌, [], ◌∷◌, IfOk};

use crate::figures::{count, figures_of, is_zero, lengthen, lessen, widen};
use crate::listener::{Listener, Next};
use crate::pages::page_line;
use crs_base::{List, Text};
use crs_model::Recognition;
use std::alloc::{AllocError, Global};
use std::marker::Model;

/// Counts the recognitions of each chronicle.
#[derive(Drop)]
pub struct CountByModel {
    alloc: Global,
    counts: List<u64>,
}

impl Model for CountByModel {
    ghost use Rattle.std.specs.Prelude.{ℕ, List as Items};

    ghost Value = { Items ℕ };

    ghost view = { λ l. l.counts };
}

impl CountByModel {
    /// With no counts.
    pub fn new(alloc: Global) -> Result<CountByModel, AllocError>
        ensures { IfOk result (λ l. l ≡ []) }
    {
        Ok(CountByModel {
            alloc,
            counts: List::new(alloc),
        })
    }
}

impl Listener for CountByModel {
    ghost kind = { λ _. 0 };

    ghost figures = { λ l. l };

    fn kind(&self) -> u32 {
        0
    }

    fn figures(&self) -> &List<u64> {
        &self.counts
    }

    fn tell(&mut self, r: &Recognition) -> Result<Next, AllocError> {
        count(self.alloc, &mut self.counts, r)?;
        Ok(Next::Stay)
    }

    fn page(&self) -> Result<Text, AllocError> {
        page_line(self.alloc, 0, self.counts.as_slice())
    }
}

/// Has the first and the last date of all events told.
#[derive(Drop)]
pub struct FirstLast {
    alloc: Global,
    dates: List<u64>,
}

impl Model for FirstLast {
    ghost use Rattle.std.specs.Prelude.{ℕ, List as Items};

    ghost Value = { Items ℕ };

    ghost view = { λ l. l.dates };
}

impl FirstLast {
    /// With no dates.
    pub fn new(alloc: Global) -> Result<FirstLast, AllocError>
        ensures { IfOk result (λ l. l ≡ []) }
    {
        Ok(FirstLast {
            alloc,
            dates: List::new(alloc),
        })
    }
}

impl Listener for FirstLast {
    ghost kind = { λ _. 1 };

    ghost figures = { λ l. l };

    fn kind(&self) -> u32 {
        1
    }

    fn figures(&self) -> &List<u64> {
        &self.dates
    }

    fn tell(&mut self, r: &Recognition) -> Result<Next, AllocError> {
        widen(self.alloc, &mut self.dates, r)?;
        Ok(Next::Stay)
    }

    fn page(&self) -> Result<Text, AllocError> {
        page_line(self.alloc, 1, self.dates.as_slice())
    }
}

/// Has the first of the recognitions with the longest span.
#[derive(Drop)]
pub struct LongestSpan {
    alloc: Global,
    longest: List<u64>,
}

impl Model for LongestSpan {
    ghost use Rattle.std.specs.Prelude.{ℕ, List as Items};

    ghost Value = { Items ℕ };

    ghost view = { λ l. l.longest };
}

impl LongestSpan {
    /// With no span.
    pub fn new(alloc: Global) -> Result<LongestSpan, AllocError>
        ensures { IfOk result (λ l. l ≡ []) }
    {
        Ok(LongestSpan {
            alloc,
            longest: List::new(alloc),
        })
    }
}

impl Listener for LongestSpan {
    ghost kind = { λ _. 2 };

    ghost figures = { λ l. l };

    fn kind(&self) -> u32 {
        2
    }

    fn figures(&self) -> &List<u64> {
        &self.longest
    }

    fn tell(&mut self, r: &Recognition) -> Result<Next, AllocError> {
        lengthen(self.alloc, &mut self.longest, r)?;
        Ok(Next::Stay)
    }

    fn page(&self) -> Result<Text, AllocError> {
        page_line(self.alloc, 2, self.longest.as_slice())
    }
}

/// Stays for so many recognitions, and leaves at the last of them.
#[derive(Drop)]
pub struct FirstN {
    alloc: Global,
    wanted: List<u64>,
}

impl Model for FirstN {
    ghost use Rattle.std.specs.Prelude.{ℕ, List as Items};

    ghost Value = { Items ℕ };

    ghost view = { λ l. l.wanted };
}

impl FirstN {
    /// With n recognitions wanted. With 0 it leaves at the first.
    pub fn new(alloc: Global, n: u64) -> Result<FirstN, AllocError>
        ensures { IfOk result (λ l. l ≡ n ∷ []) }
    {
        Ok(FirstN {
            alloc,
            wanted: figures_of(alloc, &[n])?,
        })
    }
}

impl Listener for FirstN {
    ghost kind = { λ _. 3 };

    ghost figures = { λ l. l };

    fn kind(&self) -> u32 {
        3
    }

    fn figures(&self) -> &List<u64> {
        &self.wanted
    }

    fn tell(&mut self, _r: &Recognition) -> Result<Next, AllocError> {
        lessen(&mut self.wanted);
        Ok(if is_zero(self.wanted.as_slice()) {
            Next::Leave
        } else {
            Next::Stay
        })
    }

    fn page(&self) -> Result<Text, AllocError> {
        page_line(self.alloc, 3, self.wanted.as_slice())
    }
}
