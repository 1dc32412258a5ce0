// What each word of a faulty claim means.
use crate::hints::{Hint, nth_line};
use crs_audit::AuditWord;
use crs_base::line_bytes;

/// The sentence of a word.
fn claim_sentence(word: AuditWord) -> &'static str {
    match word {
        AuditWord::Form => {
            "a claim is a name, 'at', a clock's number or 'end', its dates and values, 'cites' and numbers of entries, with single blanks between, in at most 4096 bytes"
        }
        AuditWord::Chronicle => "no chronicle of the models has this name",
        AuditWord::Mark => "the log has no 'clock' of this number that was accepted, or no 'end'",
        AuditWord::Entry => {
            "behind 'cites' there isn't one number for each event, or one stands there twice, or one is of no entry that this mark settles"
        }
        AuditWord::Fit => {
            "the entries don't fit the events: another name, number of arguments or change, or a variable would have two values"
        }
        AuditWord::Bounds => "the dates of these entries don't meet the bounds of the chronicle",
        AuditWord::Window => "by these entries a window of the chronicle isn't met at this mark",
        AuditWord::Text => {
            "the dates, the values or the way in which they are written aren't those of these entries"
        }
        AuditWord::Twice => "a line above claims this chronicle by the same entries",
    }
}

/// How many bytes stand before what a word speaks of, where the word alone tells it.
fn claim_column(line: &[u8], word: AuditWord) -> Option<usize> {
    match word {
        AuditWord::Chronicle => Some(0),
        AuditWord::Mark => {
            // the name is followed by ` at `
            let name = line.iter().position(|byte| *byte == b' ')?;
            Some(name + 4)
        }
        _ => None,
    }
}

/// What is wrong in the line of an output with this number, counted from 1, whose claim was refused
/// with this word.
pub fn claim_hint<'a>(output: &'a [u8], number: u64, word: AuditWord) -> Hint<'a> {
    let line = match nth_line(output, number) {
        Some(raw) => line_bytes(raw),
        None => b"",
    };
    Hint {
        sentence: claim_sentence(word),
        byte: None,
        column: claim_column(line, word),
        circle: None,
        line,
    }
}
