ghost use Rattle.std.specs.Prelude.{◌≡◌, ◌<◌, IfSome};
ghost use Rattle.crs_base.specs.SeenTokens.{token_of, tokens_seen};
ghost use Rattle.crs_log.specs.Items.{log_number_of, in_dates};
ghost use Rattle.crs_log.specs.ItemOf.{number_in};

use crs_base::{Token, number, word_bytes};

/// One more than the greatest date.
pub const DATES: u64 = 1 << 40;

/// The number of 1 to 19 digits, at most 2^40 - 1.
pub fn log_number(word: &[u8]) -> Option<u64>
    ensures value { result ≡ log_number_of word.now }
    ensures range { IfSome result (λ n. n < DATES) }
{
    match number(word) {
        Some(n) => in_dates(n),
        None => None,
    }
}

/// The number itself, where it is a date.
fn in_dates(n: u64) -> Option<u64>
    ensures value { result ≡ in_dates n }
    ensures range { IfSome result (λ n. n < DATES) }
{
    if n < DATES { Some(n) } else { None }
}

/// The number that a token is, where nothing follows it.
pub fn lone_number(line: &[u8], token: Token, behind: &[Token]) -> Option<u64>
    ensures value { result ≡ number_in (token_of line.now token) (tokens_seen line.now behind.now) }
    ensures range { IfSome result (λ n. n < DATES) }
{
    if !behind.is_empty() {
        return None;
    }
    match token {
        Token::Word { start, len } => log_number(word_bytes(line, start, len)),
        Token::Mark(_) => None,
    }
}
