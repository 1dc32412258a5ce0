ghost use Rattle.std.specs.Prelude.{◌≡◌, ◌<◌, ◌≤◌, ◌∷◌, length};
ghost use Rattle.std.specs.List.{prefix_len};
ghost use Rattle.crs_base.specs.Lines.{lines_of, bytes_of, is_long, is_blank, is_passed_over, is_no_feed};
ghost use Rattle.crs_base.specs.SeenLines.{line_seen};

use memchr::memchr;

/// The greatest length of a line that is read, in bytes without its line feed.
pub const LINE_LIMIT: usize = 4096;

/// A line: the bytes before its line feed or the end, and whether a line feed ends it.
#[derive(Clone, Copy)]
pub struct RawLine<'a> {
    pub raw: &'a [u8],
    pub ended: bool,
}

/// Whether it is a space or a tab.
pub fn is_blank(b: u8) -> bool
    ensures { result ≡ is_blank b }
{
    b == b' ' || b == b'\t'
}

/// How many bytes stand before the first line feed.
pub fn line_len(text: &[u8]) -> usize
    ensures value { result ≡ prefix_len is_no_feed text.now }
    ensures bound { result ≤ length text.now }
{
    match memchr(b'\n', text) {
        Some(place) => place,
        None => text.len(),
    }
}

/// The first line, and what stands behind it.
pub fn first_line(text: &[u8]) -> (RawLine<'_>, &[u8])
    requires { 0 < length text.now }
    ensures line { lines_of text.now ≡ line_seen result.0 ∷ lines_of result.1.now }
    ensures shorter { length result.1.now < length text.now }
{
    let n = line_len(text);
    if n < text.len() {
        let (raw, _) = text.split_at(n);
        let (_, rest) = text.split_at(n + 1);
        (RawLine { raw, ended: true }, rest)
    } else {
        let (raw, rest) = text.split_at(text.len());
        (RawLine { raw, ended: false }, rest)
    }
}

/// The bytes of a line, without a carriage return that stands right before its line feed.
pub fn line_bytes<'a>(line: RawLine<'a>) -> &'a [u8]
    ensures { result.now ≡ bytes_of (line_seen line.entry) }
{
    if line.ended
        && let Some((last, front)) = line.raw.split_last()
        && *last == b'\r'
    {
        return front;
    }
    line.raw
}

/// Whether more than `LINE_LIMIT` bytes stand before the line feed or the end.
pub fn is_long(line: RawLine<'_>) -> bool
    ensures { result ≡ is_long (line_seen line.entry) }
{
    LINE_LIMIT < line.raw.len()
}

/// Whether a line is blank or a comment: nothing past the blanks, or a `#` first.
pub fn passed_over(bytes: &[u8]) -> bool
    ensures { result ≡ is_passed_over bytes.now }
{
    for b in bytes {
        if !is_blank(*b) {
            return *b == b'#';
        }
    }
    true
}
