// What stands in front of a file that is no log.
use crate::walking::skip_blanks;

const TABLE: &str = "this is a table: 'crs import' writes it as a log";

/// What a file is that is no text, by the bytes that it begins with.
fn packed(line: &[u8]) -> Option<&'static str> {
    match line {
        [0x1f, 0x8b, ..] => Some("the file is compressed: write gzip -dc FILE | crs run MODELS -"),
        [0x28, 0xb5, 0x2f, 0xfd, ..] => {
            Some("the file is compressed: write zstd -dc FILE | crs run MODELS -")
        }
        [b'B', b'Z', b'h', ..] => {
            Some("the file is compressed: write bzip2 -dc FILE | crs run MODELS -")
        }
        [0xfd, b'7', b'z', b'X', b'Z', ..] => {
            Some("the file is compressed: write xz -dc FILE | crs run MODELS -")
        }
        _ => None,
    }
}

/// What a text is that begins with a mark of its bytes' order.
fn marked(line: &[u8]) -> Option<&'static str> {
    match line {
        [0xef, 0xbb, 0xbf, ..] => {
            Some("a byte order mark stands in front: save the file without one, as plain UTF-8")
        }
        [0xff, 0xfe, ..] | [0xfe, 0xff, ..] => {
            Some("the file is UTF-16: save it as plain UTF-8, without a byte order mark")
        }
        _ => None,
    }
}

/// What a text is that begins as another format does.
fn formatted(line: &[u8]) -> Option<&'static str> {
    match line {
        [b'{', ..] => Some("this is JSON: a line of a log is DATE NAME, or DATE NAME[ARGUMENT]"),
        [b'<', ..] => Some("a line begins with its date, without a priority in front"),
        [b'w', b'h', b'a', b't', b',' | b';', ..] => Some(TABLE),
        [b'e', b'v', b'e', b'n', b't', b',' | b';', ..] => Some(TABLE),
        _ => None,
    }
}

/// What the file is, where its first line shows that it is no log.
pub fn file_sentence(line: &[u8]) -> Option<&'static str> {
    let line = skip_blanks(line);
    packed(line).or(marked(line)).or(formatted(line))
}
