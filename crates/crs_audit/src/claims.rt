// The claims of an output.
ghost use Rattle.std.specs.Prelude.{◌≡◌, ◌<◌, ◌≤◌, ◌+◌, ◌∷◌, [], ◌^◌, true, if◌then◌else◌, codes, Some, None, IfOk, IfSome, IsNone, map, option_map, vec_items, length};
ghost use Rattle.std.specs.List.{list_any, prefix_len};
ghost use Rattle.std.specs.Option.{option_and_then};
ghost use Rattle.std.specs.Str.{bytes_eq};
ghost use Rattle.crs_base.specs.Lines.{is_blank};
ghost use Rattle.crs_base.specs.SeenLines.{line_seen};
ghost use Rattle.crs_audit.specs.Claims.{words_of, is_inner, is_claim, mark_of, number_below, numbers_of, some_numbers, behind_cites, claim_with, claim_in, has_empty, is_tab, said_of};
ghost use Rattle.crs_audit.specs.SeenClaims.{claim_seen, said_seen};

use crs_base::{RawLine, is_blank, is_long, is_symbol, line_bytes, number};
use crs_model::Mark;
use std::alloc::{AllocError, Global};

/// A line that claims a recognition: of the chronicle of that name, at that mark, of the entries with
/// these arrival numbers.
#[derive(Drop)]
pub struct Claim<'a> {
    pub name: &'a [u8],
    pub mark: Mark,
    pub numbers: Vec<u32>,
}

/// What a line of an output is.
#[derive(Drop)]
pub enum Said<'a> {
    /// No claim.
    Other,
    /// A claim that lacks the form of one.
    Formless,
    Claims(Claim<'a>),
}

/// The words that single blanks part.
fn words_of<'a>(alloc: Global, bytes: &'a [u8]) -> Result<Vec<&'a [u8]>, AllocError>
    ensures { IfOk result (λ words. map (λ w. w.now) words.items ≡ words_of bytes.entry.now) }
{
    bytes
        .split(
            |b: &u8| -> bool
                ensures { result ≡ is_blank b.now }
            { is_blank(*b) },
        )
        .collect(alloc)
}

/// How many bytes stand before the first blank.
fn word_len(bytes: &[u8]) -> usize
    ensures value { result ≡ prefix_len is_inner bytes.now }
    ensures bound { result ≤ length bytes.now }
{
    for (i, b) in bytes.iter().enumerate() {
        if is_blank(*b) {
            return i;
        }
    }
    bytes.len()
}

/// Whether the second of the words that single blanks part is `at`.
fn is_claim(bytes: &[u8]) -> bool
    ensures { result ≡ is_claim (words_of bytes.now) }
{
    let n = word_len(bytes);
    if n == bytes.len() {
        return false;
    }
    let (_, behind) = bytes.split_at(n + 1);
    let (word, _) = behind.split_at(word_len(behind));
    word == b"at".as_slice()
}

/// The mark that a word names.
fn mark_of(word: &[u8]) -> Option<Mark>
    ensures { result ≡ mark_of word.now }
{
    if word == b"end".as_slice() {
        return Some(Mark::Finish);
    }
    let t = number(word)?;
    if t < 1 << 40 {
        Some(Mark::Clock(t))
    } else {
        None
    }
}

/// The arrival number that a word names.
fn arrival_of(word: &[u8]) -> Option<u32>
    ensures { result ≡ number_below (2 ^ 32) word.now }
{
    let n = number(word)?;
    if n < 1 << 32 { Some(n as u32) } else { None }
}

/// The arrival numbers that the words name. None where one names none, or there is no word.
fn arrivals_of(alloc: Global, words: &[&[u8]]) -> Result<Option<Vec<u32>>, AllocError>
    ensures { IfOk result (λ numbers. option_map (λ v. v.items) numbers ≡ some_numbers (map (λ w. w.now) words.now)) }
{
    if words.is_empty() {
        return Ok(None);
    }
    let mut numbers = Vec::new(alloc);
    for word in words {
        let Some(n) = arrival_of(word) else {
            return Ok(None);
        };
        numbers.push(n)?;
    }
    Ok(Some(numbers))
}

/// Whether a tab stands among the bytes.
fn has_tab(bytes: &[u8]) -> bool
    ensures { result ≡ list_any is_tab bytes.now }
{
    for b in bytes {
        if *b == b'\t' {
            return true;
        }
    }
    false
}

/// Whether a word is empty.
fn has_empty(words: &[&[u8]]) -> bool
    ensures { result ≡ has_empty (map (λ w. w.now) words.now) }
{
    for word in words {
        if word.is_empty() {
            return true;
        }
    }
    false
}

/// Where the words behind the last `cites` begin, up to a word and with it.
fn place_with(place: Option<usize>, i: usize, word: &[u8]) -> Option<usize>
    requires { i < 2 ^ 63 }
    ensures { result ≡ (if bytes_eq word.now (codes "cites") then Some (i + 1) else place) }
{
    if word == b"cites".as_slice() {
        Some(i + 1)
    } else {
        place
    }
}

/// The words behind the last `cites`. None where there is none.
fn behind_cites<'a, 'b>(words: &'b [&'a [u8]]) -> Option<&'b [&'a [u8]]>
    ensures { option_map (λ r. map (λ w. w.now) r.now) result ≡ behind_cites (map (λ w. w.now) words.entry.now) }
{
    let mut place = None;
    for (i, word) in words.iter().enumerate() {
        place = place_with(place, i, word);
    }
    let n = place?;
    let (_, behind) = words.split_at(n);
    Some(behind)
}

/// The claim of a name, a mark and the words behind. None where these aren't a claim's.
fn claim_with<'a>(
    alloc: Global,
    name: &'a [u8],
    mark: &[u8],
    further: &[&[u8]],
) -> Result<Option<Claim<'a>>, AllocError>
    ensures { IfOk result (λ claim. option_map claim_seen claim ≡ claim_with name.entry.now (mark_of mark.now) (option_and_then some_numbers (behind_cites (map (λ w. w.now) further.now)))) }
{
    let Some(mark) = mark_of(mark) else {
        return Ok(None);
    };
    let Some(cited) = behind_cites(further) else {
        return Ok(None);
    };
    let Some(numbers) = arrivals_of(alloc, cited)? else {
        return Ok(None);
    };
    Ok(Some(Claim {
        name,
        mark,
        numbers,
    }))
}

/// The claim of the words. None where they lack the form of one.
fn claim_of<'a>(alloc: Global, words: &[&'a [u8]]) -> Result<Option<Claim<'a>>, AllocError>
    ensures { IfOk result (λ claim. option_map claim_seen claim ≡ claim_in (map (λ w. w.now) words.now)) }
{
    match words {
        [name, _, mark, further @ ..] => {
            if !is_symbol(name) || has_empty(words) {
                return Ok(None);
            }
            claim_with(alloc, name, mark, further)
        }
        _ => Ok(None),
    }
}

/// What a line of an output is.
pub fn read_claim<'a>(alloc: Global, line: RawLine<'a>) -> Result<Said<'a>, AllocError>
    ensures { IfOk result (λ said. said_seen said ≡ said_of (line_seen line.entry)) }
{
    let bytes = line_bytes(line);
    if !is_claim(bytes) {
        return Ok(Said::Other);
    }
    if is_long(line) || has_tab(bytes) {
        return Ok(Said::Formless);
    }
    let words = words_of(alloc, bytes)?;
    match claim_of(alloc, words.as_slice())? {
        Some(claim) => Ok(Said::Claims(claim)),
        None => Ok(Said::Formless),
    }
}
