ghost use Rattle.std.specs.Prelude.{◌≡◌, ◌≤◌, length};
ghost use Rattle.crs_base.specs.Numbers.{number_of, integer_of, number_on};

/// The number that at most 19 digits write.
fn digits(word: &[u8]) -> Option<u64>
    requires { length word.now ≤ 19 }
    ensures { result ≡ number_on 0 word.now }
{
    let mut n: u64 = 0;
    for b in word {
        if *b < b'0' || b'9' < *b {
            return None;
        }
        n = 10 * n + (*b - b'0') as u64;
    }
    Some(n)
}

/// The number of 1 to 19 digits, of which the first may be zeros.
pub fn number(word: &[u8]) -> Option<u64>
    ensures { result ≡ number_of word.now }
{
    if word.is_empty() || 19 < word.len() {
        return None;
    }
    digits(word)
}

/// A number, or one with a `-` before its digits.
pub fn integer(word: &[u8]) -> Option<i128>
    ensures { result ≡ integer_of word.now }
{
    match word {
        [b'-', digits @ ..] => number(digits).map(|n| -(n as i128)),
        _ => number(word).map(|n| n as i128),
    }
}
