//! Model texts: the line and the word of each refusal, and the limits at their edges.
ghost use Rattle.std.specs.Prelude.{◌<◌};

use crate::texts::{ALL_FORMS, CANONICAL};
use crs_base::{Sym, Symbols, is_symbol};
use crs_model::{ModelRefused, ModelWord};
use crs_parse::read_models;
use itoa::Buffer;
use std::alloc::{AllocError, Global};
use std::process::Abort;
use std::test::Fail;

/// The refusal of a text, or None where it is accepted.
fn refusal_with(alloc: Global, limit: u32, text: &[u8]) -> Result<Option<ModelRefused>, Fail> {
    let mut symbols = Symbols::new(alloc, limit)?;
    Ok(read_models(alloc, text, &mut symbols).err())
}

fn refusal(alloc: Global, text: &[u8]) -> Result<Option<ModelRefused>, Fail> {
    refusal_with(alloc, 1000, text)
}

fn at(line: u32, word: ModelWord) -> Option<ModelRefused> {
    Some(ModelRefused::At { line, word })
}

/// What a refusal tells: its line and its word.
fn shown(alloc: Global, refusal: Option<ModelRefused>) -> Result<String, AllocError> {
    match refusal {
        None => String::from_str(alloc, "accepted"),
        Some(ModelRefused::At { line, word }) => format!(in alloc; "{line} {word:?}"),
        Some(ModelRefused::Memory) => String::from_str(alloc, "memory"),
    }
}

/// A text, and behind it another one with a line end in place of each slash.
fn lines_behind(alloc: Global, before: &[u8], lines: &str) -> Result<Vec<u8>, Fail> {
    let mut text = Vec::from_slice(alloc, before)?;
    for byte in lines.bytes() {
        text.push(if byte == b'/' { b'\n' } else { byte })?;
    }
    Ok(text)
}

fn check_row(rt: &impl Abort, alloc: Global, before: &[u8], row: &str) -> Result<(), Fail> {
    let (wanted, lines) = row.split_once('|').ok_or("row")?;
    let text = lines_behind(alloc, before, lines)?;
    let told = shown(alloc, refusal(alloc, &text)?)?;
    assert!(rt; told.as_str() == wanted, "{lines}: {told}");
    Ok(())
}

/// Rows of the answer, a bar, and the text behind others, with slashes for line ends.
fn check_rows(rt: &impl Abort, alloc: Global, before: &[u8], rows: &str) -> Result<(), Fail> {
    for row in rows.lines() {
        check_row(rt, alloc, before, row)?;
    }
    Ok(())
}

#[test]
fn each_word_names_the_first_faulty_line(rt: HostRuntime) -> Result<(), Fail> {
    let alloc = rt.alloc();
    let rows = "1 Limit|message a 9/
2 Twice|message a 0/message a 1/
2 Name|chronicle c {/event(a, t1)/
3 Arity|message a 1/chronicle c {/event(a, t1)/
3 Value|attribute v 0 in (on, off)/chronicle c {/event(v: (on, up), t1)/
4 Variable|message a 0/chronicle c {/event(a, t1)/?x in (p, q)/
4 Point|message a 0/chronicle c {/event(a, t1)/t2 - t1 in [0, 5]/
4 Bound|message a 0/chronicle c {/event(a, t1)/t1 - t1 in [5, 2]/
4 Window|attribute v 1/chronicle c {/event(v[?x]: (*, on), t1)/hold(v[*]: on, (t1, t1 + 5))/
2 Events|chronicle c {/}/
6 Unbound|message a 1/message b 0/chronicle c {/event(b, t1)/noevent(a[?x], (t1, t1 + 5))/}/
4 Form|message a 0/chronicle c {/event(a, t1)/
";
    check_rows(&rt, alloc, b"", rows)
}

/// Six lines, in a chronicle.
const DECLARED: &[u8] = b"message a 0
message m 2
attribute v 0 in (on, off)
attribute w 1
chronicle c {
event(m[?x, ?y], t)
";

#[test]
fn each_way_to_a_word_is_met(rt: HostRuntime) -> Result<(), Fail> {
    let alloc = rt.alloc();
    let rows = "8 Twice|}/attribute m 0/
8 Twice|}/chronicle c {/
7 Twice|event(a, t)/
8 Twice|point z/point z/
7 Twice|point t/
8 Twice|?x in (p)/?x in (q)/
7 Twice|event(q, t)/
7 Name|noevent(c, (t, t))/
7 Name|occurs((0, 1), q, (t, t))/
7 Name|hold(a: on, (t, t))/
7 Name|hold(q[?x, ?y, ?z]: up, (q, q))/
7 Arity|event(a: (on, off), s)/
7 Arity|event(v, s)/
7 Arity|event(m[?x], s)/
7 Arity|noevent(m[?x, ?x, ?x], (t, t))/
7 Arity|hold(w: on, (t, t))/
7 Arity|event(m[1, 2, 3, 4, 5, 6, 7, 8, 9], s)/
7 Value|occurs((0, 1), v: (*, up), (t, t))/
7 Value|hold(v: up, (t, t))/
accepted|event(v: (up, on), s)/}/
7 Variable|?x != ?z/
8 Variable|noevent(w[?z]: (*, *), (t, t))/?z in (p)/
7 Point|t - z in [5, 2]/
8 Point|point z/noevent(a, (t, z))/
7 Point|occurs((2, 1), a, (q, t))/
7 Bound|occurs((2, 1), a, (t, t))/
7 Bound|hold(v: *, (t - 1099511627777, t))/
7 Window|hold(v: *, (t, t))/
8 Unbound|occurs((0, 1), w[?z]: (*, *), (t, t))/}/
9 Unbound|hold(w[?x]: ?z, (t, t))//}/
9 Form|hold(w[?x]: ?y, (t, t))/}/message b/
8 Form|point z/z-t in [0, 0]/
accepted|t - t in [1, 1]/}/
";
    check_rows(&rt, alloc, DECLARED, rows)
}

fn repeated(alloc: Global, piece: &[u8], count: usize) -> Result<Vec<u8>, Fail> {
    let mut text = Vec::new(alloc);
    for _ in 0..count {
        text.extend_from_slice(piece)?;
    }
    Ok(text)
}

/// The refusal of a text of equal pieces, and of one more behind them.
fn size_refusal(
    alloc: Global,
    piece: &[u8],
    count: usize,
    more: &[u8],
) -> Result<Option<ModelRefused>, Fail> {
    let mut text = repeated(alloc, piece, count)?;
    text.extend_from_slice(more)?;
    refusal(alloc, &text)
}

#[test]
fn a_text_has_at_most_a_mebibyte(rt: HostRuntime) -> Result<(), Fail> {
    let alloc = rt.alloc();
    let size = at(0, ModelWord::Size);
    let limit = at(1, ModelWord::Limit);
    assert!(rt; size_refusal(alloc, b"#\n", 1 << 19, b"")? == None);
    assert!(rt; size_refusal(alloc, b"#\n", 1 << 19, b"#")? == size);
    assert!(rt; size_refusal(alloc, b"#", 1 << 20, b"")? == limit);
    assert!(rt; size_refusal(alloc, b"#", 1 << 20, b"#")? == size);
    assert!(rt; size_refusal(alloc, b"{", 1000000, b"")? == limit);
    Ok(())
}

/// Lines with a number of pieces, each with its own number between two parts, and what stands behind them.
fn many(alloc: Global, row: &str, count: u32) -> Result<String, Fail> {
    let (first, others) = row.split_once('|').ok_or("row")?;
    let (second, after) = others.split_once('|').ok_or("row")?;
    let mut lines = String::new(alloc);
    for i in 0..count {
        let mut buffer = Buffer::new();
        lines.push_str(first)?;
        lines.push_str(buffer.format(i))?;
        lines.push_str(second)?;
    }
    lines.push_str(after)?;
    Ok(lines)
}

/// The greatest count of pieces behind a text is accepted, and one more is refused in this line.
fn is_kept(
    rt: &impl Abort,
    alloc: Global,
    before: &[u8],
    most: u32,
    line: u32,
    row: &str,
) -> Result<(), Fail> {
    let at_most = many(alloc, row, most)?;
    assert!(rt;
        refusal(alloc, &lines_behind(alloc, before, &at_most)?)? == None,
        "{row}"
    );
    let past = many(alloc, row, most.saturating_add(1))?;
    let told = refusal(alloc, &lines_behind(alloc, before, &past)?)?;
    assert!(rt; told == at(line, ModelWord::Limit), "{row}");
    Ok(())
}

/// Five lines, in a chronicle.
const OPEN: &[u8] = b"message a 0
message m 2
chronicle c {
event(a, s)
event(m[?x, ?y], t)
";

#[test]
fn each_count_is_kept_at_its_edge(rt: HostRuntime) -> Result<(), Fail> {
    for (before, most, line, row) in [
        (b"".as_slice(), 256, 257, "message n| 0/|"),
        (
            b"message a 0\n".as_slice(),
            64,
            194,
            "chronicle c| {/event(a, t)/}/|",
        ),
        (
            b"message a 0\nchronicle c {\n".as_slice(),
            16,
            19,
            "event(a, t|)/|}/",
        ),
        (
            b"message a 0\nchronicle c {\npoint a\npoint b\npoint c\npoint d\npoint e\npoint f\npoint g\npoint h\npoint i\n".as_slice(),
            15,
            27,
            "event(a, t|)/|}/",
        ),
        (b"attribute v 0 in (on".as_slice(), 63, 1, ", x||)/"),
        (
            b"message m 2\nchronicle c {\nevent(m[?x, ?y], t)\n?y in (on".as_slice(),
            63,
            4,
            ", x||)/}/",
        ),
    ] {
        is_kept(&rt, rt.alloc(), before, most, line, row)?;
    }
    Ok(())
}

#[test]
fn each_count_of_a_chronicle_is_kept_at_its_edge(rt: HostRuntime) -> Result<(), Fail> {
    for (most, line, row) in [
        (22, 28, "point p|/|}/"),
        (256, 262, "s - t in [0, |]/|}/"),
        (64, 134, "?x != ?y/#|/|}/"),
        (16, 22, "noevent(a, (s, t + |))/|}/"),
    ] {
        is_kept(&rt, rt.alloc(), OPEN, most, line, row)?;
    }
    Ok(())
}

#[test]
fn each_number_is_kept_at_its_edge(rt: HostRuntime) -> Result<(), Fail> {
    let alloc = rt.alloc();
    let arities = "accepted|message a 8/
1 Limit|message a 9999999999999999999/
1 Form|message a 10000000000000000000/
accepted|attribute v 8 in (on)/
1 Limit|attribute v 9/
";
    check_rows(&rt, alloc, b"", arities)?;
    let rows = "accepted| level 7/}/
3 Limit| level 8/}/
accepted|/t - t in [-1099511627776, 1099511627776]/}/
4 Bound|/t - t in [-1099511627777, 0]/}/
4 Bound|/t - t in [-inf, -1099511627777]/}/
4 Bound|/t - t in [0, 1099511627777]/}/
4 Bound|/t - t in [1099511627777, inf]/}/
4 Bound|/t - t in [0, 9999999999999999999]/}/
accepted|/noevent(a, (t - 1099511627776, t + 1099511627776))/}/
4 Bound|/noevent(a, (t - 1099511627777, t))/}/
4 Bound|/noevent(a, (t, t + 1099511627777))/}/
accepted|/occurs((4294967295, 4294967295), a, (t, t))/}/
accepted|/occurs((4294967295, inf), a, (t, t))/}/
4 Bound|/occurs((4294967296, inf), a, (t, t))/}/
4 Bound|/occurs((0, 4294967296), a, (t, t))/}/
4 Bound|/occurs((3, 2), a, (t, t))/}/
accepted|/noevent(a, (t, t + 0000000000000000001))/}/
4 Form|/noevent(a, (t, t + 00000000000000000001))/}/
";
    check_rows(&rt, alloc, b"message a 0\nchronicle c {\nevent(a, t)", rows)
}

#[test]
fn variables_have_their_limit(rt: HostRuntime) -> Result<(), Fail> {
    let alloc = rt.alloc();
    let before: &[u8] =
        b"message m 8\nchronicle c {\nevent(m[?a, ?b, ?c, ?d, ?e, ?f, ?g, ?h], s)\nevent(m[?i, ?j, ?k, ?l, ?m, ?n, ?o, ?p], t)\n";
    let rows = "accepted|}/
5 Limit|event(m[?q, *, *, *, *, *, *, *], u)/}/
accepted|event(m[?a, ?p, *, *, *, *, *, *], u)/}/
";
    check_rows(&rt, alloc, before, rows)
}

/// Two parts with a number of equal bytes between them.
fn filled(
    alloc: Global,
    front: &[u8],
    byte: u8,
    count: usize,
    back: &[u8],
) -> Result<Vec<u8>, Fail> {
    let mut text = Vec::from_slice(alloc, front)?;
    for _ in 0..count {
        text.push(byte)?;
    }
    text.extend_from_slice(back)?;
    Ok(text)
}

#[test]
fn lines_have_their_lengths(rt: HostRuntime) -> Result<(), Fail> {
    let alloc = rt.alloc();
    for (front, byte, count, back, wanted) in [
        (b"#".as_slice(), b'x', 4095, b"".as_slice(), None),
        (
            b"#".as_slice(),
            b'x',
            4096,
            b"".as_slice(),
            at(1, ModelWord::Limit),
        ),
        (b"#".as_slice(), b'x', 4095, b"\n".as_slice(), None),
        (
            b"#".as_slice(),
            b'x',
            4096,
            b"\n".as_slice(),
            at(1, ModelWord::Limit),
        ),
        (b"#".as_slice(), b'x', 4094, b"\r\n".as_slice(), None),
        (
            b"#".as_slice(),
            b'x',
            4095,
            b"\r\n".as_slice(),
            at(1, ModelWord::Limit),
        ),
        (
            b"message a".as_slice(),
            b' ',
            4087,
            b"".as_slice(),
            at(1, ModelWord::Form),
        ),
        (
            b"message a".as_slice(),
            b' ',
            4088,
            b"\n".as_slice(),
            at(1, ModelWord::Limit),
        ),
        (
            b"message a 0\nchronicle c {\n".as_slice(),
            b'{',
            4097,
            b"".as_slice(),
            at(3, ModelWord::Limit),
        ),
    ] {
        let text = filled(alloc, front, byte, count, back)?;
        assert!(rt; refusal(alloc, &text)? == wanted, "{count} times {byte}");
    }
    Ok(())
}

#[test]
fn symbols_have_their_lengths(rt: HostRuntime) -> Result<(), Fail> {
    let alloc = rt.alloc();
    for (front, byte, count, back, wanted) in [
        (b"message ".as_slice(), b'n', 64, b" 0".as_slice(), None),
        (
            b"message ".as_slice(),
            b'n',
            65,
            b" 0".as_slice(),
            at(1, ModelWord::Form),
        ),
        (
            b"attribute v 0 in (".as_slice(),
            b'-',
            64,
            b")\n".as_slice(),
            None,
        ),
        (
            b"attribute v 0 in (".as_slice(),
            b'-',
            65,
            b")\n".as_slice(),
            at(1, ModelWord::Form),
        ),
    ] {
        let text = filled(alloc, front, byte, count, back)?;
        assert!(rt; refusal(alloc, &text)? == wanted, "{count} times {byte}");
    }
    Ok(())
}

/// The refusal of the text of five symbols by a table that holds one.
fn refusal_behind(alloc: Global, limit: u32, held: &[u8]) -> Result<Option<ModelRefused>, Fail> {
    let mut symbols = Symbols::new(alloc, limit)?;
    if is_symbol(held) {
        let _ = symbols.intern(held);
    }
    Ok(read_models(alloc, CANONICAL, &mut symbols).err())
}

#[test]
fn distinct_symbols_have_the_limit_of_the_table(rt: HostRuntime) -> Result<(), Fail> {
    let alloc = rt.alloc();
    assert!(rt; refusal_with(alloc, 5, CANONICAL)? == None);
    assert!(rt; refusal_with(alloc, 4, CANONICAL)? == at(5, ModelWord::Limit));
    assert!(rt; refusal_with(alloc, 0, CANONICAL)? == at(1, ModelWord::Limit));
    assert!(rt; refusal_behind(alloc, 6, b"other")? == None);
    assert!(rt; refusal_behind(alloc, 5, b"other")? == at(5, ModelWord::Limit));
    assert!(rt; refusal_behind(alloc, 5, b"t1")? == None);
    Ok(())
}

const SMALL: &[u8] = b"message a 0\nchronicle c {\nevent(a, t)\n}\n";

/// The line of the text above in which the byte at a place stands.
fn line_of(place: usize) -> u32 {
    if place < 12 {
        1
    } else if place < 26 {
        2
    } else if place < 38 {
        3
    } else {
        4
    }
}

/// The answer to the first bytes of the text above.
fn cut_answer(count: usize) -> Option<ModelRefused> {
    match count {
        0 | 11 | 12 | 39 | 40 => None,
        1..=10 => at(1, ModelWord::Form),
        13..=24 => at(2, ModelWord::Form),
        25..=36 => at(3, ModelWord::Form),
        _ => at(4, ModelWord::Form),
    }
}

#[test]
fn a_cut_text_is_accepted_where_no_chronicle_is_open(rt: HostRuntime) -> Result<(), Fail> {
    let alloc = rt.alloc();
    for n in 0..SMALL.len() + 1 {
        let (cut, _) = SMALL.split_at(n);
        assert!(rt; refusal(alloc, cut)? == cut_answer(n), "cut at {n}");
    }
    Ok(())
}

#[test]
fn a_cut_of_all_forms_is_of_no_other_form(rt: HostRuntime) -> Result<(), Fail> {
    let alloc = rt.alloc();
    let accepted: [usize; 15] = [
        0, 11, 12, 23, 24, 37, 38, 55, 56, 69, 70, 422, 423, 458, 459,
    ];
    for n in 0..ALL_FORMS.len() + 1 {
        let (cut, _) = ALL_FORMS.split_at(n);
        let answer = refusal(alloc, cut)?;
        if accepted.contains(&n) {
            assert!(rt; answer == None, "cut at {n}");
        } else {
            assert!(rt;
                matches!(
                    answer,
                    Some(ModelRefused::At {
                        word: ModelWord::Form,
                        ..
                    })
                ),
                "cut at {n}"
            );
        }
    }
    Ok(())
}

/// The small text with this byte at a place, instead of the one there.
fn with_byte(alloc: Global, place: usize, byte: u8) -> Result<Vec<u8>, Fail>
    requires { place < 40 }
{
    let (front, back) = SMALL.split_at(place);
    let mut text = Vec::from_slice(alloc, front)?;
    text.push(byte)?;
    if let [_, rest @ ..] = back {
        text.extend_from_slice(rest)?;
    }
    Ok(text)
}

#[test]
fn other_bytes_are_of_no_form(rt: HostRuntime) -> Result<(), Fail> {
    let alloc = rt.alloc();
    for byte in [0u8, 127, 128, 255] {
        for n in 0..SMALL.len() {
            let text = with_byte(alloc, n, byte)?;
            assert!(rt;
                refusal(alloc, &text)? == at(line_of(n), ModelWord::Form),
                "{byte} at {n}"
            );
        }
    }
    Ok(())
}

/// The answer to a message with this byte for its arity.
fn arity_answer(byte: u8) -> Option<ModelRefused> {
    match byte {
        b'0'..=b'8' => None,
        b'9' => at(1, ModelWord::Limit),
        _ => at(1, ModelWord::Form),
    }
}

#[test]
fn other_bytes_are_no_arity(rt: HostRuntime) -> Result<(), Fail> {
    let alloc = rt.alloc();
    for byte in 0..=255u8 {
        let mut text = Vec::from_slice(alloc, b"message a ")?;
        text.push(byte)?;
        assert!(rt; refusal(alloc, &text)? == arity_answer(byte), "byte {byte}");
    }
    Ok(())
}

#[test]
fn a_table_keeps_what_it_held(rt: HostRuntime) -> Result<(), Fail> {
    let alloc = rt.alloc();
    let mut symbols = Symbols::new(alloc, 100)?;
    let _ = symbols.intern(b"b");
    assert!(rt; read_models(alloc, CANONICAL, &mut symbols).is_ok());
    assert!(rt; symbols.len() == 5);
    assert!(rt; symbols.find(b"b") == Some(Sym(0)));
    assert!(rt; symbols.find(b"t2") == Some(Sym(4)));
    Ok(())
}
