// Names that are nearly the same.

/// How many bytes two words have in common in front.
fn common_front(a: &[u8], b: &[u8]) -> usize {
    match a.iter().zip(b.iter()).position(|(x, y)| *x != *y) {
        Some(place) => place,
        None => a.len().min(b.len()),
    }
}

/// How many bytes two words have in common at their ends.
fn common_end(a: &[u8], b: &[u8]) -> usize {
    match a
        .iter()
        .rev()
        .zip(b.iter().rev())
        .position(|(x, y)| *x != *y)
    {
        Some(place) => place,
        None => a.len().min(b.len()),
    }
}

/// A word without what it has in common with another one in front.
fn behind_front<'a>(a: &'a [u8], b: &[u8]) -> &'a [u8] {
    a.get(common_front(a, b)..).unwrap_or(b"")
}

/// A word without what it has in common with another one at the end.
fn before_end<'a>(a: &'a [u8], b: &[u8]) -> &'a [u8] {
    a.get(..a.len().saturating_sub(common_end(a, b)))
        .unwrap_or(b"")
}

/// Whether two words are alike but for one letter that is another, too many or missing, two
/// neighbours that are swapped, or capitals.
pub fn is_near(a: &[u8], b: &[u8]) -> bool {
    if a.eq_ignore_ascii_case(b) {
        return true;
    }
    let x = behind_front(a, b);
    let y = behind_front(b, a);
    match (before_end(x, y), before_end(y, x)) {
        ([] | [_], [] | [_]) => true,
        ([p, q], [r, s]) => p == s && q == r,
        _ => false,
    }
}
