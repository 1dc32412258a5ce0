//! Laws about the definitions.
ghost use Rattle.crs_grammar.specs.GrammarLaws as laws;

/// What is read from the tokens of a line is exactly what they mean by the table of statements.
pub fn read_is_what_is_meant()
    ensures sound { laws.ReadIsMeant }
    ensures complete { laws.MeantIsRead }
{}

/// The canonical text of a statement is read as that statement.
pub fn canonical_statement_is_read()
    ensures { laws.CanonicalIsRead }
{}
