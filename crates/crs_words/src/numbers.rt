// Words that are numbers.
ghost use Rattle.std.specs.Prelude.{◌≡◌};
ghost use Rattle.crs_words.specs.Commands.{number_within};

use crs_base::number;

/// The number of 1 to 19 digits, where it is between these, both included.
pub(crate) fn number_within(word: &str, low: u32, high: u32) -> Option<u32>
    ensures { result ≡ number_within low high word.now }
{
    let n = number(word.as_bytes())?;
    if low as u64 <= n && n <= high as u64 {
        Some(n as u32)
    } else {
        None
    }
}
