//! Laws about the definitions.
ghost use Rattle.crs_print.specs.CanonicalLaws as laws;

/// The canonical text of accepted models is accepted, and means the same models apart from the lines that close chronicles. So it is
/// its own canonical text.
pub fn canonical_models_are_read()
    ensures read { laws.CanonicalModelsAreRead }
    ensures tables { laws.TablesAreWithin }
    ensures one_text { laws.LinesAreNotWritten }
{}
