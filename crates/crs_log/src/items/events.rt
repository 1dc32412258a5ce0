ghost use Rattle.std.specs.Prelude.{◌≡◌, ◌<◌, IfOk, IfSome, option_map, List};
ghost use Rattle.crs_base.specs.SeenTokens.{token_of, tokens_seen, IsWordIn, AreWordsIn};
ghost use Rattle.crs_log.specs.SeenItems.{happens_seen};
ghost use Rattle.crs_log.specs.ItemOf.{event_of};

use super::numbers::{DATES, log_number};
use super::parts::{arguments, change, symbol};
use super::{Raw, Spans};
use crs_base::Token;
use std::alloc::{AllocError, Global};

/// The event that a date, a name and the tokens behind them are.
pub fn event(
    alloc: Global,
    line: &[u8],
    date: &[u8],
    name: Token,
    tokens: &[Token],
) -> Result<Option<Raw>, AllocError>
    requires name { IsWordIn line.now name }
    requires words { AreWordsIn line.now tokens.now }
    ensures value { IfOk result (λ o. option_map (happens_seen line.now) o ≡ event_of date.now (token_of line.now name) (tokens_seen line.now tokens.now)) }
    ensures range { IfOk result (λ o. IfSome o (λ raw. raw.date < DATES)) }
{
    let Some(date) = log_number(date) else {
        return Ok(None);
    };
    let Some(name) = symbol(line, name) else {
        return Ok(None);
    };
    let mut args = Spans::new(alloc);
    let Some(behind) = arguments(line, tokens, &mut args)? else {
        return Ok(None);
    };
    let Some(change) = change(line, behind) else {
        return Ok(None);
    };
    Ok(Some(Raw {
        date,
        name,
        args,
        change,
    }))
}
