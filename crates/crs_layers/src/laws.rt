//! Laws of the definitions.
ghost use Rattle.crs_layers.specs.Laws.{NoGivenEntryIsLate, RunsAreOne, RunsWithoutEmitsAreOfTheLog, WhatIsReadStays};

/// Behind any lines of a log, no further line gives a stratum an entry dated before the horizon that
/// the stratum has there.
pub fn no_given_entry_is_late()
    ensures { NoGivenEntryIsLate }
{}

/// A run over strata is decided: from one state the same lines bring the same effects.
pub fn runs_are_one()
    ensures { RunsAreOne }
{}

/// What is settled in a stratum behind any lines of a log stays settled behind any further ones, and
/// what is recognised in it stays recognised: so an assignment that was new at a mark is new at no later
/// one. It is so of prompt chronicles too, and where the delay changes.
pub fn what_is_read_stays()
    ensures { WhatIsReadStays }
{}

/// Where no chronicle gives entries, a run over strata is the trace of the log alone.
pub fn runs_without_emits()
    ensures { RunsWithoutEmitsAreOfTheLog }
{}
