//! Laws of what is written for a log.
ghost use Rattle.crs_session.specs.Laws.{LogTextIsOne, TracesWithoutEmitsAreLone};

/// A log has one text by given models and limits.
pub fn log_text_is_one()
    ensures { LogTextIsOne }
{}

/// Where no chronicle gives entries, what a log brings over strata is what it brings alone: the trace, the
/// text, the answers, and whether some line is refused.
pub fn traces_without_emits_are_lone()
    ensures { TracesWithoutEmitsAreLone }
{}
