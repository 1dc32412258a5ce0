//! Lines, and the words, marks and numbers in them.
use crs_base::{
    Marks, RawLine, Token, first_line, integer, is_long, line_bytes, number, passed_over,
    read_tokens, word_bytes,
};
use std::alloc::{AllocError, Global};
use std::test::Fail;

#[test]
fn lines_end_at_line_feeds(rt: HostRuntime) {
    for (text, bytes, behind) in [
        (b"ab\r\nc\n".as_slice(), b"ab".as_slice(), b"c\n".as_slice()),
        (b"\n\n", b"", b"\n"),
        (b"a\r\r\n", b"a\r", b""),
        (b"a\r", b"a\r", b""),
    ] {
        assert!(rt; !text.is_empty());
        let (line, rest) = first_line(text);
        assert!(rt; line_bytes(line) == bytes);
        assert!(rt; rest == behind);
    }
    assert!(rt; passed_over(b" \t# x") && passed_over(b"  ") && !passed_over(b"a #"));
    let raw = [b'x'; 4097];
    let (front, _) = raw.as_slice().split_at(4096);
    assert!(rt;
        !is_long(RawLine {
            raw: front,
            ended: true
        })
    );
    assert!(rt;
        is_long(RawLine {
            raw: raw.as_slice(),
            ended: true
        })
    );
}

/// Each token with a blank behind it, or a `~` for a spoilt line.
fn shown(alloc: Global, line: &[u8], marks: Marks) -> Result<Vec<u8>, AllocError> {
    let mut out = Vec::new(alloc);
    if line.len() > 4096 {
        return Ok(out);
    }
    let Some(tokens) = read_tokens(alloc, line, marks)? else {
        out.push(b'~')?;
        return Ok(out);
    };
    for token in &tokens {
        match *token {
            Token::Word { start, len } => out.extend_from_slice(word_bytes(line, start, len))?,
            Token::Mark(mark) => out.push(mark)?,
        }
        out.push(b' ')?;
    }
    Ok(out)
}

#[test]
fn lines_have_their_tokens(rt: HostRuntime) -> Result<(), Fail> {
    for (line, marks, want) in [
        (b"".as_slice(), Marks::Log, b"".as_slice()),
        (
            b"\t12 v[s1]:(a.b,_c)",
            Marks::Log,
            b"12 v [ s1 ] : ( a.b , _c ) ",
        ),
        (b"a!=b", Marks::Log, b"~"),
        (b"{", Marks::Log, b"~"),
        (b"?x!=?y", Marks::Model, b"? x ! ? y "),
        (b"?x! =?y", Marks::Model, b"~"),
        (b"x!", Marks::Model, b"~"),
        (b"t+1 } * -5", Marks::Model, b"t + 1 } * -5 "),
        (b"a\x00", Marks::Model, b"~"),
        (b"caf\xff", Marks::Log, b"~"),
    ] {
        let found = shown(rt.alloc(), line, marks)?;
        assert!(rt; found.as_slice() == want, "at {}", line.len());
    }
    Ok(())
}

#[test]
fn numbers_have_up_to_19_digits(rt: HostRuntime) {
    for (word, want) in [
        (b"0".as_slice(), Some(0)),
        (b"0000000000000000007", Some(7)),
        (b"9999999999999999999", Some(9999999999999999999)),
        (b"00000000000000000007", None),
        (b"", None),
        (b"-1", None),
        (b"1a", None),
    ] {
        assert!(rt; number(word) == want, "at {}", word.len());
    }
    for (word, want) in [
        (b"12".as_slice(), Some(12)),
        (b"-012", Some(-12)),
        (b"-", None),
        (b"--1", None),
        (b"1-", None),
    ] {
        assert!(rt; integer(word) == want, "at {}", word.len());
    }
}
