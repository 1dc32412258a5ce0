//! Logs: lines however the bytes are cut, their items, the names that are known, and entries.
ghost use Rattle.std.specs.Prelude.{◌<◌, List as Items, ℕ, length, IfOk};
ghost use Rattle.crs_log.specs.SeenNames.{AreNamesIn};

use crs_base::{List, Sym, Symbols};
use crs_log::naming::{NameRefused, known};
use crs_log::{
    EntryRefused, Item, ItemRefused, Known, Line, Lines, lines_of_pieces, make_entry, read_item,
    span_text,
};
use crs_model::{Kind, Name};
use std::alloc::{AllocError, Global};
use std::test::Fail;

/// Writes the number and the bytes of a line.
fn show(out: &mut Vec<u8>, number: u64, bytes: &[u8]) -> Result<(), AllocError> {
    out.push(b'0' + (number % 10) as u8)?;
    out.push(b' ')?;
    out.extend_from_slice(bytes)?;
    out.push(b'|')?;
    Ok(())
}

/// Writes each line that is held whole, and `long` for a long one.
fn show_lines(lines: &mut Lines, out: &mut Vec<u8>) -> Result<(), AllocError> {
    while let Some(line) = lines.next_line() {
        match line {
            Line::Plain { number, bytes } => show(out, number, bytes)?,
            Line::Long { number } => show(out, number, b"long")?,
        }
    }
    Ok(())
}

#[test]
fn lines_come_whole_wherever_the_text_is_cut(rt: HostRuntime) -> Result<(), Fail> {
    let text = b"ab\r\n\n#x\nabcde\r\nabcd\r\nxyz\r".as_slice();
    for at in 0..26usize {
        let (front, back) = text.split_at(at);
        let mut lines = Lines::new(rt.alloc(), 5)?;
        lines.feed(front)?;
        lines.feed(back)?;
        lines.finish();
        let mut out = Vec::new(rt.alloc());
        show_lines(&mut lines, &mut out)?;
        assert!(rt;
            out.as_slice() == b"1 ab|2 |3 #x|4 long|5 abcd|6 xyz\r|".as_slice(),
            "at {at}"
        );
        assert!(rt; lines.next_line().is_none());
    }
    Ok(())
}

#[test]
fn a_line_of_4096_bytes_is_not_long(rt: HostRuntime) -> Result<(), Fail> {
    // the bytes before the line feed, what ends them, and how long the line is, or 0 for a long one
    for (count, end, want) in [
        (4096usize, b"\n".as_slice(), 4096usize),
        (4097, b"\n".as_slice(), 0),
        (4095, b"\r\n".as_slice(), 4095),
        (4096, b"\r\n".as_slice(), 0),
        (4096, b"".as_slice(), 4096),
        (4097, b"".as_slice(), 0),
    ] {
        let text = vec![in rt.alloc(); b'x'; count]?;
        assert!(rt; text.len() < 5000 && end.len() < 3);
        let mut lines = Lines::new(rt.alloc(), 4096)?;
        lines.feed(text.as_slice())?;
        lines.feed(end)?;
        lines.finish();
        let len = match lines.next_line() {
            Some(Line::Plain { number: _, bytes }) => bytes.len(),
            _ => 0,
        };
        assert_eq!(rt; len, want, "at {count}");
    }
    Ok(())
}

#[test]
fn a_text_in_pieces_has_its_lines(rt: HostRuntime) -> Result<(), Fail> {
    let mut pieces = Vec::new(rt.alloc());
    pieces.push(Vec::from_slice(rt.alloc(), b"1 a\n2")?)?;
    pieces.push(Vec::from_slice(rt.alloc(), b" b")?)?;
    assert_eq!(rt;
        lines_of_pieces(rt.alloc(), 4096, pieces.as_slice())?.len(),
        2
    );
    Ok(())
}

/// The kind of a line: blank, an item's first letter, or `?` for a fault of form.
fn kind_of(alloc: Global, line: &[u8]) -> Result<u8, AllocError> {
    if line.len() > 4096 {
        return Ok(b'!');
    }
    match read_item(alloc, line, &mut Vec::new(alloc)) {
        Ok(Item::Blank) => Ok(b' '),
        Ok(Item::Delay(_)) => Ok(b'd'),
        Ok(Item::Clock(_)) => Ok(b'c'),
        Ok(Item::Finish) => Ok(b'f'),
        Ok(Item::Event(_)) => Ok(b'e'),
        Err(ItemRefused::Form) => Ok(b'?'),
        Err(ItemRefused::Memory) => Err(AllocError),
    }
}

#[test]
fn lines_have_their_forms(rt: HostRuntime) -> Result<(), Fail> {
    for (line, want) in [
        (b"".as_slice(), b' '),
        (b" \t ", b' '),
        (b"\t# \x00\xff", b' '),
        (b"delay 1099511627775", b'd'),
        (b"delay 1099511627776", b'?'),
        (b"delay", b'?'),
        (b"clock 0000000000000000007", b'c'),
        (b"clock 00000000000000000007", b'?'),
        (b"clock 1 2", b'?'),
        (b" end\t", b'f'),
        (b"end x", b'?'),
        (b"7 end", b'e'),
        (b"7a", b'?'),
        (b"7", b'?'),
        (b"7 a\r", b'?'),
        (b"7 a\x00", b'?'),
        (b"7 caf\xff", b'?'),
        (b"7 a b", b'?'),
        (b"7 a[]", b'?'),
        (b"7 a[x,]", b'?'),
        (b"7 a [ x , y ] : ( p , q )", b'e'),
        (b"7 a:(p,q)", b'e'),
        (b"7 a[x]:(p)", b'?'),
        (b"7 a[x]:(p,q)r", b'?'),
        (b"7 a!=b", b'?'),
        (
            b"7 xxxxxxxxxxxxxxxxxxxxxxxxxxxxxxxxxxxxxxxxxxxxxxxxxxxxxxxxxxxxxxxx",
            b'e',
        ),
        (
            b"7 xxxxxxxxxxxxxxxxxxxxxxxxxxxxxxxxxxxxxxxxxxxxxxxxxxxxxxxxxxxxxxxxx",
            b'?',
        ),
    ] {
        assert_eq!(rt; kind_of(rt.alloc(), line)?, want, "at {}", line.len());
    }
    Ok(())
}

/// The message `a` of one argument, the attribute `v` of one, in (on), and the attribute `w`.
fn declared(alloc: Global, a: Sym, v: Sym, w: Sym, on: Sym) -> Result<List<Name>, AllocError>
    ensures { IfOk result (λ names. (texts : Items (Items ℕ)) → a.0 < length texts → v.0 < length texts → w.0 < length texts → on.0 < length texts → AreNamesIn texts names) }
{
    let mut values = List::new(alloc);
    values.push(on)?;
    let mut names = List::new(alloc);
    names.push(Name {
        name: a,
        arity: 1,
        kind: Kind::Message,
    })?;
    names.push(Name {
        name: v,
        arity: 1,
        kind: Kind::Attribute {
            values: Some(values),
        },
    })?;
    names.push(Name {
        name: w,
        arity: 0,
        kind: Kind::Attribute { values: None },
    })?;
    Ok(names)
}

#[test]
fn names_are_known(rt: HostRuntime) -> Result<(), Fail> {
    let mut symbols = Symbols::new(rt.alloc(), 9)?;
    let a = symbols.intern(b"a")?;
    let v = symbols.intern(b"v")?;
    let w = symbols.intern(b"w")?;
    let on = symbols.intern(b"on")?;
    let _ = symbols.intern(b"z")?;
    let names = declared(rt.alloc(), a, v, w, on)?;
    let len = symbols.len();
    assert!(rt; a.0 < len);
    assert!(rt; v.0 < len);
    assert!(rt; w.0 < len);
    assert!(rt; on.0 < len);
    assert!(rt; names.len() == 3);
    for (line, want) in [
        (b"1 z".as_slice(), Ok(Known::Other)),
        (b"1 on:(p,q)", Ok(Known::Other)),
        (b"1 b[x,y]", Ok(Known::Other)),
        (b"1 a[x]", Ok(Known::Name(0, a))),
        (b"1 a", Err(NameRefused::Arity)),
        (b"1 a[x,y]", Err(NameRefused::Arity)),
        (b"1 a[x]:(p,on)", Err(NameRefused::Arity)),
        (b"1 v[x]", Err(NameRefused::Arity)),
        (b"1 v:(p,up)", Err(NameRefused::Arity)),
        (b"1 v[x]:(up,on)", Ok(Known::Name(1, v))),
        (b"1 v[x]:(on,up)", Err(NameRefused::Value)),
        (b"1 v[x]:(on,z)", Err(NameRefused::Value)),
        (b"1 w:(p,q)", Ok(Known::Name(2, w))),
    ] {
        let Ok(Item::Event(raw)) = read_item(rt.alloc(), line, &mut Vec::new(rt.alloc())) else {
            return Err(Fail::new("no event"));
        };
        assert!(rt;
            known(line, &raw, &names, &symbols) == want,
            "at {}",
            line.len()
        );
    }
    Ok(())
}

#[test]
fn entries_add_their_texts(rt: HostRuntime) -> Result<(), Fail> {
    // how many symbols the table may hold, and how many it holds then
    for (limit, want) in [(4, Ok(4)), (3, Err(EntryRefused::Values { limit: 3 }))] {
        let mut symbols = Symbols::new(rt.alloc(), limit)?;
        let _ = symbols.intern(b"v")?;
        let line = b" 7 v [ x,y , x ] : ( y,on )";
        let Ok(Item::Event(raw)) = read_item(rt.alloc(), line, &mut Vec::new(rt.alloc())) else {
            return Err(Fail::new("no event"));
        };
        assert!(rt; raw.args.len() <= 8);
        assert!(rt; symbols.find(span_text(line, raw.name)).is_some());
        match make_entry(rt.alloc(), line, &raw, 3, &mut symbols) {
            Ok(entry) => {
                assert!(rt; want == Ok(symbols.len()));
                assert!(rt; entry.text.bytes() == b"v[x,y,x]:(y,on)".as_slice());
                assert_eq!(rt; entry.arrival, 3);
                assert_eq!(rt; entry.date, 7);
                assert_eq!(rt; entry.args.as_slice().len(), 3);
                assert!(rt; entry.change.is_some());
            }
            Err(e) => {
                assert!(rt; want == Err(e));
                assert_eq!(rt; symbols.len(), 1);
            }
        }
    }
    Ok(())
}
