//! Hints: the place and the sentence that are told of a mistake in models.
use crs_hints::hint_of;
use crs_model::ModelWord;
use std::alloc::{AllocError, Global};
use std::process::Abort;
use std::test::Fail;

/// The place that is told, as a number of bytes, or a dash.
fn place_of(alloc: Global, column: Option<usize>) -> Result<String, AllocError> {
    match column {
        None => String::from_str(alloc, "-"),
        Some(column) => format!(in alloc; "{column}"),
    }
}

/// Fails where the hint at a line that is refused with a word isn't told: the line, its place and a
/// piece of the sentence.
fn is_told(
    rt: &impl Abort,
    alloc: Global,
    word: ModelWord,
    line: &str,
    place: &str,
    piece: &str,
) -> Result<(), Fail> {
    let hint = hint_of(alloc, line.as_bytes(), 1, word)?;
    assert!(rt; hint.line == line.as_bytes());
    let told = place_of(alloc, hint.column)?;
    assert!(rt; told.as_str() == place, "{piece}: {told}");
    assert!(rt; hint.sentence.contains(piece), "{piece}: {}", hint.sentence);
    Ok(())
}

/// Rows of the place that is told, the refused line, and a piece of the sentence.
fn all_are_told(rt: &impl Abort, alloc: Global, word: ModelWord, rows: &str) -> Result<(), Fail> {
    for row in rows.lines() {
        let (place, others) = row.split_once(" | ").ok_or("row")?;
        let (line, piece) = others.split_once(" | ").ok_or("row")?;
        is_told(rt, alloc, word, line, place, piece)?;
    }
    Ok(())
}

const OF_FORM: &str = "8 | t2 - t1 <= 5 | a list of two numbers behind 'in': t2 - t1 in [LOW, HIGH]
11 | t2 - t1 in 5 | a list of two numbers behind 'in'
11 | t2 - t1 in (0, 10) | a list of two numbers behind 'in'
14 | t2 - t1 in [1 5] | a ',' is wanted between a bound's ends
15 | t2 - t1 in [0, 10s] | without a unit
17 | t2 - t1 in [0, 10 | the bound's ']' is missing
0 | t2-t1 in [0, 5] | blanks stand on both sides
3 | t2 -t1 in [0, 5] | blanks stand on both sides
3 | t2 in [0, 5] | a bound is between two points: t2 - t1 in [LOW, HIGH]
0 | x in (b1, b2) | no statement begins so
3 | t2 >= t1 | a bound is written t2 - t1 in [LOW, HIGH]
6 | ?x in [b1, b2] | in round brackets: in (VALUE, VALUE)
3 | ?x = ?y | behind a variable stands
6 | ?x != y | a variable is wanted behind '!='
13 | event(a, t3) # the first | a comment stands on a line of its own
12 | event(a, t3); | without a ';'
11 | event(a, t3 | the event's ')' is missing
8 | event(a t3) | a ',' and the event's point are wanted
6 | event a, t3 | an event is written event(PATTERN, POINT)
18 | event(low_volt[?u ?v], t3) | a ',' or the ']' of the arguments is missing
9 | event(low@volt, t3) | letters, digits, '_', '.' and '-' alone
6 | event('a', t3) | without quotes
17 | event(charge[?u] (part, low), t3) | a ':' is missing before the change
14 | event(low_volt(?u), t3) | or arguments want '['
18 | event(charge[?u]: part, t3) | a change is written with its old and its new value
19 | event(a, t3) level -1 | a level is a number from 0 to 7
8 | event(a[], t3) | without arguments no brackets
8 | message xxxxxxxxxxxxxxxxxxxxxxxxxxxxxxxxxxxxxxxxxxxxxxxxxxxxxxxxxxxxxxxxx 0 | at most 64 bytes
11 | noevent(b, [t1, t2]) | a window stands in round brackets
19 | noevent(b, (t1, t2 -1)) | a blank behind it
6 | hold(s, (t1, t2)) | a hold wants a value behind a ':'
8 | hold(s: (on, off), (t1, t2)) | one value without brackets
7 | occurs(3, b, (t1, t2)) | two numbers in round brackets
0 | before(t1, t2) | no statement begins so
9 | message a | a message wants its number of arguments
0 | Message d 0 | small letters
12 | attribute v in (on, off) | an attribute wants its number of arguments
14 | attribute v 1 (on, off) | behind an attribute stands
11 | chronicle c | a '{' is wanted
0 | { | stands on the line of its chronicle
0 | message d 0 | this stands outside chronicles
0 | event(a, t3) | this stands inside a chronicle
0 | } | none is open here
";

#[test]
fn the_place_of_prompt_is_told(rt: HostRuntime) -> Result<(), Fail> {
    let rows = "10 | chronicle prompt c { | the word before 'chronicle' is 'prompt', or none
0 | promt chronicle c { | the word before 'chronicle' is 'prompt', or none
0 | prompted chronicle c { | prompt chronicle NAME {
7 | prompt c { | behind 'prompt' a chronicle begins
18 | prompt chronicle c | a '{' is wanted
17 | chronicle prompt [ | a '{' is wanted";
    all_are_told(&rt, rt.alloc(), ModelWord::Form, rows)
}

#[test]
fn how_derived_names_and_emits_are_written_is_told(rt: HostRuntime) -> Result<(), Fail> {
    let rows = "9 | derived d | a derived name wants its number of arguments
0 | derive pair 0 | declared by message, attribute or derived
0 | emits(pair, t1) | hold(..) and emit(..)
5 | emit pair, t1 | an emit is written emit(PATTERN, POINT)
9 | emit(pair) | an emit is written emit(PATTERN, POINT)
14 | emit(pair, t1 + 1) | an emit is written emit(PATTERN, POINT)
0 | derived d 0 | this stands outside chronicles
0 | emit(pair, t1) | this stands inside a chronicle";
    all_are_told(&rt, rt.alloc(), ModelWord::Form, rows)
}

#[test]
fn natural_mistakes_of_emits_are_told(rt: HostRuntime) -> Result<(), Fail> {
    for (word, row) in [
        (
            ModelWord::Name,
            "5 | emit(pair[?x], t1) | which a line above declares: derived NAME NUMBER",
        ),
        (
            ModelWord::Arity,
            "5 | emit(pair: (on, off), t1) | a change, which no derived name has",
        ),
        (
            ModelWord::Point,
            "- | emit(pair, t9) | the point of an event above",
        ),
        (
            ModelWord::Window,
            "10 | emit(pair[*], t1) | an emit has no '*'",
        ),
        (
            ModelWord::Emit,
            "5 | emit(pair, t1) | by later chronicles alone",
        ),
        (ModelWord::Unbound, "- | } | a window or an emit"),
        (ModelWord::Lag, "- | } | too long after its date"),
    ] {
        all_are_told(&rt, rt.alloc(), word, row)?;
    }
    Ok(())
}

/// The two chronicles that a hint names, parted by a blank, or nothing.
fn circle_of(alloc: Global, text: &[u8], number: u32) -> Result<Vec<u8>, Fail> {
    let hint = hint_of(alloc, text, number, ModelWord::Emit)?;
    let mut told = Vec::new(alloc);
    if let Some(circle) = hint.circle {
        told.extend_from_slice(circle.emitter)?;
        told.push(b' ')?;
        told.extend_from_slice(circle.user)?;
    }
    Ok(told)
}

#[test]
fn both_chronicles_of_a_circle_are_named(rt: HostRuntime) -> Result<(), Fail> {
    let alloc = rt.alloc();
    let two =
        b"derived p 0\nderived q 0\nchronicle low {\n event(q, t)\n emit(p, t)\n}\nprompt chronicle high {\n event(p, t)\n emit(q, t)\n".as_slice();
    assert!(rt; circle_of(alloc, two, 9)?.as_slice() == b"high low".as_slice());
    let counted =
        b"derived p 0\nchronicle c {\n event(a, t)\n occurs((0, 1), p, (t, t + 1))\n}\nchronicle d {\n event(a, t)\n emit(p, t)\n".as_slice();
    assert!(rt; circle_of(alloc, counted, 8)?.as_slice() == b"d c".as_slice());
    let own =
        b"derived p 0\nchronicle c {\n event(a, t)\n emit(p, t)\n noevent(p, (t, t + 1))\n".as_slice();
    assert!(rt; circle_of(alloc, own, 5)?.as_slice() == b"c c".as_slice());
    let none = b"derived p 0\nchronicle c {\n event(a, t)\n emit(p, t)\n".as_slice();
    assert!(rt; circle_of(alloc, none, 4)?.is_empty());
    Ok(())
}

#[test]
fn natural_mistakes_of_form_are_told(rt: HostRuntime) -> Result<(), Fail> {
    all_are_told(&rt, rt.alloc(), ModelWord::Form, OF_FORM)
}

#[test]
fn natural_mistakes_of_meaning_are_told(rt: HostRuntime) -> Result<(), Fail> {
    let rows = [
        (
            ModelWord::Point,
            "- | t3 - t1 in [0, 5] | isn't declared above
12 | noevent(b, (t1-3, t2)) | blanks part a point from its offset
",
        ),
        (
            ModelWord::Name,
            "6 | event(unknown, t3) | no line above declares this name
5 | hold(pair: on, (t1, t2)) | a hold names a message or a derived name
",
        ),
        (
            ModelWord::Twice,
            "9 | event(a, t1) | there already
",
        ),
        (
            ModelWord::Value,
            "20 | event(valve: (open, ajar), t3) | declared list
",
        ),
        (
            ModelWord::Bound,
            "15 | t2 - t1 in [0, 2000000000000] | above its limit
",
        ),
        (
            ModelWord::Variable,
            "0 | ?z in (p, q) | no event above
",
        ),
        (
            ModelWord::Window,
            "12 | hold(charge[*]: low, (t1, t2)) | no '*'
",
        ),
        (
            ModelWord::Limit,
            "10 | message d 9 | more than a models text may have
14 | message level 9 | more than a models text may have
19 | event(a, t3) level 8 | a level is a number from 0 to 7
42 |   event(charge[*]: (part, low), t3) level 12 | a level is a number from 0 to 7
- | event(a, t3) level 7 | more than a models text may have
",
        ),
    ];
    for (word, rows) in rows {
        all_are_told(&rt, rt.alloc(), word, rows)?;
    }
    Ok(())
}

#[test]
fn the_line_is_found(rt: HostRuntime) -> Result<(), Fail> {
    let text = b"message a 0\r\n\n  point\r\nchronicle c {".as_slice();
    let hint = hint_of(rt.alloc(), text, 3, ModelWord::Form)?;
    assert!(rt; hint.line == b"  point".as_slice() && hint.column == Some(7));
    let hint = hint_of(rt.alloc(), text, 5, ModelWord::Form)?;
    assert!(rt; hint.line.is_empty() && hint.column == None);
    assert!(rt; hint.sentence.contains("the text ends inside a chronicle"));
    let hint = hint_of(rt.alloc(), text, 0, ModelWord::Size)?;
    assert!(rt; hint.line.is_empty() && hint.sentence.contains("2^20"));
    let hint = hint_of(rt.alloc(), b"event(caf\xc3\xa9, t1)", 1, ModelWord::Form)?;
    assert!(rt; hint.byte == Some(0xc3) && hint.column == Some(9));
    let hint = hint_of(rt.alloc(), b"\xef\xbb\xbfmessage a 0", 1, ModelWord::Form)?;
    assert!(rt; hint.sentence.contains("byte order mark") && hint.column == Some(0));
    Ok(())
}
