//! The words of refused models that speak of derived names and of emits.
use crate::rows::{check_rows, lines_behind, told};
use std::alloc::Global;
use std::test::Fail;

#[test]
fn derived_names_are_declared_like_messages(rt: HostRuntime) -> Result<(), Fail> {
    let rows = "|: derived d 8/
1 Limit: derived d 9/
2 Twice: derived a 0/message a 0/
2 Twice: message a 0/derived a 0/
2 Twice: attribute a 0/derived a 1/
2 Twice: derived a 0/derived a 1/
1 Form: derived a/
1 Form: derived a 0 in (p)/
1 Form: derived a 0 {/
2 Form: chronicle c {/derived d 0/
1 Form: emit(a, t)/
0 | 0: derived chronicle 0/chronicle derived {/event(chronicle, emit)/}/
";
    check_rows(&rt, rt.alloc(), b"", rows)
}

/// Seven lines, in a chronicle.
const OPEN: &[u8] = b"message a 1
message b 1
derived pair 1
derived none 0
chronicle c {
event(a[?x], t1)
point z
";

#[test]
fn each_word_of_an_emit_is_met_in_its_order(rt: HostRuntime) -> Result<(), Fail> {
    let rows = "8 Form: emit(pair[?x], t1) level 1/
8 Form: emit(pair[?x])/
8 Form: emit(pair[?x], t1 + 1)/
8 Form: emit pair[?x], t1/
8 Name: emit(b[?x], t1)/
8 Name: emit(q[*], z)/
8 Arity: emit(pair, z)/
8 Arity: emit(pair[*]: (p, q), z)/
8 Arity: emit(none[*], t1)/
8 Point: emit(pair[*], z)/
8 Point: emit(pair[?x], t2)/
8 Window: emit(pair[*], t1)/
9 Unbound: emit(pair[?y], t1)/}/
0 | 0: emit(pair[?x], t1)/emit(pair[p], t1)/emit(none, t1)/}/
8 Name: hold(pair[?x]: p, (t1, t1))/
8 Arity: event(pair[?x]: (p, q), t2)/
8 Arity: noevent(none: (p, q), (t1, t1))/
";
    check_rows(&rt, rt.alloc(), OPEN, rows)
}

#[test]
fn what_is_emitted_is_used_by_later_chronicles_alone(rt: HostRuntime) -> Result<(), Fail> {
    let rows = "9 Emit: emit(pair[?x], t1)/event(pair[?x], t2)/
9 Emit: event(pair[?x], t2)/emit(pair[p], t1)/
9 Emit: emit(pair[?x], t1)/noevent(pair[*], (t1, t1 + 5))/
9 Emit: emit(pair[?x], t1)/occurs((1, 2), pair[?x], (t1, t1 + 5))/
9 Emit: noevent(pair[*], (t1, t1 + 1))/emit(pair[?x], t1)/
13 Emit: event(none, t2)/emit(pair[?x], t1)/}/chronicle d {/event(pair[?y], t1)/emit(none, t1)/
12 Emit: event(none, t2)/}/chronicle d {/event(b[?y], t1)/emit(none, t1)/
12 Emit: occurs((0, 1), none, (t1, t1 + 1))/}/chronicle d {/event(b[?y], t1)/emit(none, t1)/
9 Limit: emit(pair[?x], t1)/event(pair[?x], t2) level 8/
0 0 | 0 1: emit(pair[?x], t1)/}/chronicle d {/event(pair[?y], t1)/emit(none, t1)/}/
";
    check_rows(&rt, rt.alloc(), OPEN, rows)
}

/// A text with equal lines behind it, and the end of a chronicle.
fn with_lines(alloc: Global, before: &[u8], line: &str, count: usize) -> Result<Vec<u8>, Fail> {
    let mut text = Vec::from_slice(alloc, before)?;
    for _ in 0..count {
        text.extend_from_slice(line.as_bytes())?;
    }
    text.extend_from_slice(b"}\n")?;
    Ok(text)
}

#[test]
fn a_chronicle_has_at_most_eight_emits(rt: HostRuntime) -> Result<(), Fail> {
    let alloc = rt.alloc();
    let eight = with_lines(alloc, OPEN, "emit(none, t1)\n", 8)?;
    assert!(rt; told(alloc, &eight)?.as_str() == "0 | 0");
    let nine = with_lines(alloc, OPEN, "emit(none, t1)\n", 9)?;
    assert!(rt; told(alloc, &nine)?.as_str() == "16 Limit");
    let used = lines_behind(alloc, OPEN, "event(none, t2)/")?;
    let ninth = with_lines(alloc, &used, "emit(pair[p], t1)\n", 9)?;
    assert!(rt; told(alloc, &ninth)?.as_str() == "17 Limit");
    Ok(())
}

/// Messages with their numbers, and then derived names.
fn many_names(alloc: Global, messages: u32, derived: u32) -> Result<String, Fail> {
    let mut text = String::new(alloc);
    for number in 0..messages {
        let line = format!(in alloc; "message n{number} 0\n")?;
        text.push_str(line.as_str())?;
    }
    for number in 0..derived {
        let line = format!(in alloc; "derived d{number} 0\n")?;
        text.push_str(line.as_str())?;
    }
    Ok(text)
}

#[test]
fn derived_names_share_the_limit_of_names(rt: HostRuntime) -> Result<(), Fail> {
    let alloc = rt.alloc();
    let names = many_names(alloc, 250, 6)?;
    assert!(rt; told(alloc, names.as_bytes())?.as_str() == "|");
    let names = many_names(alloc, 250, 7)?;
    assert!(rt; told(alloc, names.as_bytes())?.as_str() == "257 Limit");
    let names = many_names(alloc, 0, 257)?;
    assert!(rt; told(alloc, names.as_bytes())?.as_str() == "257 Limit");
    Ok(())
}
