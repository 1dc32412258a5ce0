//! What is said of a faulty claim of an output: a sentence for each word, its line, and a place.
use crs_audit::AuditWord;
use crs_hints::claim_hint;
use std::process::Abort;
use std::test::Fail;

const OUTPUT: &[u8] = b"line 6 late 12 13\nc at 13 t1=10 t2=12 cites 0 1\n";

/// Fails where another sentence, another line or another place is told of the second line.
fn is_told(
    rt: &impl Abort,
    word: AuditWord,
    place: Option<usize>,
    piece: &str,
) -> Result<(), Fail> {
    let hint = claim_hint(OUTPUT, 2, word);
    assert!(rt; hint.line == b"c at 13 t1=10 t2=12 cites 0 1".as_slice());
    assert!(rt; hint.column == place, "{piece}");
    assert!(rt; hint.sentence.contains(piece), "{piece}");
    Ok(())
}

#[test]
fn each_word_has_a_sentence(rt: HostRuntime) -> Result<(), Fail> {
    for (word, place, piece) in [
        (AuditWord::Form, None, "a claim is a name, 'at'"),
        (AuditWord::Chronicle, Some(0), "no chronicle of the models"),
        (AuditWord::Mark, Some(5), "no 'clock' of this number"),
        (AuditWord::Entry, None, "one number for each event"),
        (AuditWord::Fit, None, "don't fit the events"),
        (AuditWord::Bounds, None, "don't meet the bounds"),
        (AuditWord::Window, None, "a window of the chronicle"),
        (AuditWord::Text, None, "aren't those of these entries"),
        (AuditWord::Twice, None, "a line above claims"),
    ] {
        is_told(&rt, word, place, piece)?;
    }
    Ok(())
}

#[test]
fn lines_that_are_not_there(rt: HostRuntime) {
    for number in [0, 3, 4] {
        let hint = claim_hint(OUTPUT, number, AuditWord::Mark);
        assert!(rt; hint.line.is_empty());
        assert!(rt; hint.column.is_none());
    }
}
