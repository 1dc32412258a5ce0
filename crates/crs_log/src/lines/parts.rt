ghost use Rattle.std.specs.Prelude.{◌≡◌, ◌<◌, ◌≤◌, ◌+◌, ◌-◌, ◌++◌, length, OnOk, OnErr, IfOk, true, List, ℕ, drop, get_or};
ghost use Rattle.std.specs.List.{prefix_len};
ghost use Rattle.crs_base.specs.Lines.{is_no_feed, is_part};
ghost use Rattle.crs_log.specs.Reading.{given_line, IsTail, kept};
ghost use Rattle.crs_log.specs.Given.{seen};

use crate::lines::given::Line;
use crs_base::{RawLine, line_bytes, line_len};
use std::alloc::AllocError;

/// Where the bytes behind the last line feed begin.
pub fn part_start(text: &[u8]) -> usize
    ensures bound { result ≤ length text.now }
    ensures part { is_part (drop result text.now) ≡ true }
    ensures fed { 0 < result → get_or text.now (result - 1) 0 ≡ 10 }
{
    let mut start = text.len();
    while start > 0 {
        if text[start - 1] == b'\n' {
            return start;
        }
        start -= 1;
    }
    0
}

/// The part of a piece that is kept.
pub fn kept_part<'a>(limit: usize, held: usize, tail: usize, piece: &'a [u8]) -> &'a [u8]
    requires { tail ≤ held }
    ensures long { limit < held - tail → result.now ≡ drop (prefix_len is_no_feed piece.now) piece.now }
    ensures short { held - tail ≤ limit → result.now ≡ piece.now }
{
    if limit < held - tail {
        let (_, back) = piece.split_at(line_len(piece));
        back
    } else {
        piece
    }
}

/// Adds a piece to the bytes that are held, and gives the place where the last part begins.
pub fn add(held: &mut Vec<u8>, tail: usize, limit: usize, piece: &[u8]) -> Result<usize, AllocError>
    requires { tail ≤ length held.old.items }
    ensures items { OnOk result (held.new.items ≡ held.old.items ++ kept limit held.old.items tail piece.now) }
    ensures tail { IfOk result (λ t. (from : ℕ) → IsTail from held.old.items tail → IsTail from held.new.items t) }
    ensures err { OnErr result (held.new.items ≡ held.old.items) }
{
    let len = held.len();
    let back = kept_part(limit, len, tail, piece);
    let start = part_start(back);
    held.extend_from_slice(back)?;
    if start == 0 {
        Ok(tail)
    } else {
        Ok(len + start)
    }
}

/// Drops the first bytes.
pub fn drop_front(held: &mut Vec<u8>, count: usize)
    requires { count ≤ length held.old.items }
    ensures { held.new.items ≡ drop count held.old.items }
{
    let rest = held.len() - count;
    held.copy_within(count.., 0);
    held.truncate(rest);
}

/// The line of these bytes.
pub fn line_of<'a>(limit: usize, number: u64, raw: &'a [u8], ended: bool) -> Line<'a>
    ensures { seen result ≡ given_line limit number (record { raw = raw.now; ended = ended }) }
{
    if raw.len() > limit {
        return Line::Long { number };
    }
    Line::Plain {
        number,
        bytes: line_bytes(RawLine { raw, ended }),
    }
}

/// How many bytes stand before the first line feed at or behind `from`.
pub fn whole_len(held: &[u8], from: usize, tail: usize) -> usize
    requires tail { IsTail from held.now tail }
    requires more { from < tail }
    ensures value { result ≡ prefix_len is_no_feed (drop from held.now) }
    ensures within { from + result < tail }
{
    let (_, rest) = held.split_at(from);
    line_len(rest)
}
