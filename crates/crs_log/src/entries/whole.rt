//! The canonical text that stands in a line: most lines have no blank between the parts of a name and its arguments.
ghost use Rattle.std.specs.Prelude.{◌≡◌, ◌≤◌, ◌<◌, ◌+◌, ◌-◌, map, get_or, length, true, None, IfSome};
ghost use Rattle.crs_base.specs.Entry.{canonical, args_text, more_text};
ghost use Rattle.crs_base.specs.SeenTokens.{word_at};
ghost use Rattle.crs_log.specs.SeenItems.{text_of};

use crate::items::parts::end_of;
use crate::items::{Raw, Span};

/// Whether a byte stands at a place.
fn has(line: &[u8], at: usize, byte: u8) -> bool
    ensures within { result ≡ true → at < length line.now }
    ensures byte { result ≡ true → get_or line.now at 0 ≡ byte }
{
    at < line.len() && line[at] == byte
}

/// Where the arguments end that stand one right behind the other from a place on, with the bracket.
fn more_end(line: &[u8], args: &[Span], at: usize) -> Option<usize>
    ensures text { IfSome result (λ e. word_at line.now at (e - at) ≡ more_text (map (text_of line.now) args.now)) }
    ensures onward { IfSome result (λ e. at ≤ e) }
{
    let mut end = at;
    for arg in args {
        if !has(line, end, b',') || arg.start as usize != end + 1 {
            return None;
        }
        end = end_of(*arg);
    }
    if has(line, end, b']') {
        Some(end + 1)
    } else {
        None
    }
}

/// The same of all arguments, with both brackets.
fn args_end(line: &[u8], args: &[Span], at: usize) -> Option<usize>
    ensures text { IfSome result (λ e. word_at line.now at (e - at) ≡ args_text (map (text_of line.now) args.now)) }
    ensures onward { IfSome result (λ e. at ≤ e) }
{
    let Some((first, more)) = args.split_first() else {
        return Some(at);
    };
    if has(line, at, b'[') && first.start as usize == at + 1 {
        more_end(line, more, end_of(*first))
    } else {
        None
    }
}

/// The canonical text of the name and the arguments of an event, where it stands in the line: that of an
/// event without a change.
pub fn whole_head<'a>(line: &'a [u8], raw: &Raw) -> Option<&'a [u8]>
    ensures { IfSome result (λ t. t.now ≡ canonical (text_of line.now raw.now.name) (map (text_of line.now) raw.now.args) None) }
{
    let end = args_end(line, raw.args.as_slice(), end_of(raw.name))?;
    if line.len() < end {
        return None;
    }
    let (front, _) = line.split_at(end);
    let (_, head) = front.split_at(raw.name.start as usize);
    Some(head)
}
