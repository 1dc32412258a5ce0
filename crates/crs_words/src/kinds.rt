// Words that are kinds of listeners.
ghost use Rattle.std.specs.Prelude.{◌≡◌, ◌==◌, IfOk, map, option_map};
ghost use Rattle.std.specs.List.{slice_split, list_all, count_by};
ghost use Rattle.std.specs.Str.{bytes_eq};
ghost use Rattle.crs_words.specs.Kinds.{parted, is_kind, is_among, tally_in, tally_of};

use crate::command::Tally;
use std::alloc::{AllocError, Global};

/// No kind.
const NONE: Tally = Tally {
    count: false,
    span: false,
    longest: false,
    fewer: false,
};

/// The words that commas part.
fn parted<'a>(alloc: Global, value: &'a str) -> Result<Vec<&'a str>, AllocError>
    ensures { IfOk result (λ words. map (λ w. w.now) words.items ≡ parted value.entry.now) }
{
    value.split(',').collect(alloc)
}

fn is_kind(word: &str) -> bool
    ensures { result ≡ is_kind word.now }
{
    word == "count" || word == "span" || word == "longest" || word == "fewer"
}

/// Whether each word is a kind.
fn are_kinds(words: &[&str]) -> bool
    ensures { result ≡ list_all is_kind (map (λ w. w.now) words.now) }
{
    for word in words {
        if !is_kind(word) {
            return false;
        }
    }
    true
}

/// How often a kind stands among the words.
fn times(words: &[&str], kind: &str) -> usize
    ensures { result ≡ count_by (λ w. bytes_eq w kind.now) (map (λ w. w.now) words.now) }
{
    words.iter().filter(|word| **word == kind).count()
}

/// Whether a kind stands among the words. None where it stands there twice.
fn is_among(words: &[&str], kind: &str) -> Option<bool>
    ensures { result ≡ is_among (map (λ w. w.now) words.now) kind.now }
{
    match times(words, kind) {
        0 => Some(false),
        1 => Some(true),
        _ => None,
    }
}

/// The kinds that the words are. None where one is no kind, or stands there twice.
fn tally_in(words: &[&str]) -> Option<Tally>
    ensures { result ≡ tally_in (map (λ w. w.now) words.now) }
{
    if !are_kinds(words) {
        return None;
    }
    let count = is_among(words, "count")?;
    let span = is_among(words, "span")?;
    let longest = is_among(words, "longest")?;
    let fewer = is_among(words, "fewer")?;
    Some(Tally {
        count,
        span,
        longest,
        fewer,
    })
}

/// The kinds of an option's value, or none where it wasn't given.
pub(crate) fn tally_of(alloc: Global, value: Option<&str>) -> Result<Option<Tally>, AllocError>
    ensures { IfOk result (λ tally. tally ≡ tally_of (option_map (λ v. v.now) value.entry)) }
{
    match value {
        Some(value) => Ok(tally_in(parted(alloc, value)?.as_slice())),
        None => Ok(Some(NONE)),
    }
}
