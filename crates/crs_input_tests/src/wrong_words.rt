//! What is said of wrong words, and of the first record of a table.
use crs_hints::{command_hint, table_hint};
use std::alloc::{AllocError, Global};
use std::process::Abort;
use std::test::Fail;

/// The words of a line, which blanks part.
fn words_in(alloc: Global, line: &str) -> Result<Vec<String>, AllocError> {
    let mut words = Vec::new(alloc);
    for word in line.split(' ') {
        words.push(String::from_str(alloc, word)?)?;
    }
    Ok(words)
}

/// Rows of words, of the one that is told, and of a piece of what is said of it.
const ROWS: &str = "rnu m l | rnu | is no command
run m | run | MODELS LOG
run m l x | x | one name too many
run --sumary m l | --sumary | is no option of run
run m l --tally | --tally | wants KINDS
run --tally --cite m l | --tally | wants KINDS
run --tally=cuont m l | cuont | is no kind of tally
run --tally count,span,count m l | count | stands twice
run --cite m --cite l | --cite | stands there twice
model m --minimal=yes | --minimal=yes | is no option of model
drill 0 5 | 0 | is no SEED
drill 7 1000001 | 1000001 | is no N
feeds m | feeds | one to eight logs
feeds m 1 2 3 4 5 6 7 8 9 | 9 | at most eight
audit m l | audit | MODELS LOG OUTPUT";

#[test]
fn the_wrong_word_is_told(rt: HostRuntime) -> Result<(), Fail> {
    for row in ROWS.lines() {
        let (line, others) = row.split_once(" | ").ok_or("row")?;
        let (word, piece) = others.split_once(" | ").ok_or("row")?;
        let words = words_in(rt.alloc(), line)?;
        let hint = command_hint(&words).ok_or("none")?;
        assert!(rt; hint.word == word, "{line}: {}", hint.word);
        assert!(rt; hint.sentence.contains(piece), "{line}: {}", hint.sentence);
    }
    Ok(())
}

#[test]
fn right_words_and_help(rt: HostRuntime) -> Result<(), Fail> {
    for line in [
        "--help",
        "run --tally count -- -m -",
        "feeds - a b",
        "import -",
    ] {
        let words = words_in(rt.alloc(), line)?;
        assert!(rt; command_hint(&words).is_none(), "{line}");
    }
    Ok(())
}

#[test]
fn tables_with_other_marks(rt: HostRuntime) -> Result<(), Fail> {
    let hint = table_hint(b"what;date;name;args;old;new\n").ok_or("none")?;
    assert!(rt; hint.column == Some(4) && hint.sentence.contains("parted by ';'"));
    let hint = table_hint(b"What,date\n").ok_or("none")?;
    assert!(rt; hint.sentence.contains("what,date,name,args,old,new"));
    assert!(rt; table_hint(b"\xef\xbb\xbfwhat,date,name,args,old,new\r\n").is_none());
    Ok(())
}
