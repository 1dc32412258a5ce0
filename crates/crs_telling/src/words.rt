//! The words of the command line, and what is told of wrong ones.

use crate::telling::{shown, shown_name};
use crs_hints::command_hint;
use std::io::ErrorKind;
use std::rt::Env;
use std::{env, io, str};

/// How many words are looked through for one that isn't UTF-8, and how many bytes of each.
const LOOKED_AT: usize = 100;

const ROOM: usize = 4096;

/// The words after the program's name.
pub fn words_of(rt: &(impl Env + AllocGlobal)) -> io::Result<Vec<String>> {
    let mut words = Vec::new(rt.alloc());
    for word in env::args(rt)?.skip(1) {
        words.push(word)?;
    }
    Ok(words)
}

/// Says which word is wrong, where the words are no command.
pub fn explain_words(rt: &(impl Eprint + AllocGlobal), words: &[String]) -> io::Result<()> {
    let Some(hint) = command_hint(words) else {
        return Ok(());
    };
    let word = shown_name(rt.alloc(), hint.word)?;
    let sentence = hint.sentence;
    eprintln!(rt; "crs: '{word}' {sentence}")
}

/// Says which word isn't UTF-8, where one of the first isn't.
pub fn explain_bytes(rt: &(impl Env + Eprint + AllocGlobal)) -> io::Result<()> {
    let mut buf = [0; ROOM];
    for number in 1..LOOKED_AT {
        let Ok(len) = rt.arg(number, &mut buf) else {
            return Ok(());
        };
        let bytes = buf.get(..len).unwrap_or(b"");
        if str::from_utf8(bytes).is_err() {
            let word = shown(rt.alloc(), bytes)?;
            return eprintln!(rt; "crs: '{word}' isn't UTF-8");
        }
    }
    Ok(())
}
