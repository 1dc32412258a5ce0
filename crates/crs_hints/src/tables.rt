// What is wrong with the first record of a table.
use crate::hints::Hint;
use crs_base::{first_line, line_bytes};

const NAMES: &[u8] = b"what,date,name,args,old,new";

/// The table behind a byte order mark, which is dropped.
fn unmarked(table: &[u8]) -> &[u8] {
    match table {
        [0xef, 0xbb, 0xbf, rest @ ..] => rest,
        _ => table,
    }
}

/// The hint at the first place of a byte.
fn hint_at<'a>(line: &'a [u8], byte: u8, sentence: &'static str) -> Option<Hint<'a>> {
    let column = line.iter().position(|other| *other == byte)?;
    Some(Hint {
        sentence,
        byte: None,
        column: Some(column),
        circle: None,
        line,
    })
}

/// What is wrong with the first record of a table: None where its first line has the six names.
pub fn table_hint<'a>(table: &'a [u8]) -> Option<Hint<'a>> {
    let text = unmarked(table);
    if text.is_empty() {
        return None;
    }
    let (raw, _) = first_line(text);
    let line = line_bytes(raw);
    if line == NAMES {
        return None;
    }
    if !line.contains(&b',') {
        let parted = hint_at(
            line,
            b';',
            "the fields are parted by ';': a table wants ','",
        )
        .or(hint_at(
            line,
            b'\t',
            "the fields are parted by tabs: a table wants ','",
        ));
        if parted.is_some() {
            return parted;
        }
    }
    Some(Hint {
        sentence: "the first record of a table is what,date,name,args,old,new",
        byte: None,
        column: Some(0),
        circle: None,
        line,
    })
}
