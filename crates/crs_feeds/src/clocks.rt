// The clocks of all feeds.
ghost use Rattle.std.specs.Prelude.{◌≡◌, ◌≤◌, ◌<◌, ◌^◌, IfOk, replicate};
ghost use Rattle.std.specs.List.{list_all};
ghost use Rattle.crs_feeds.specs.Merged.{new_feed, common};

use crate::feed::{END, Feed, NEW};
use std::alloc::{AllocError, Global};

/// The clocks of so many feeds at the start.
pub(crate) fn new_clocks(alloc: Global, feeds: u8) -> Result<Vec<Feed>, AllocError>
    ensures { IfOk result (λ v. v.items ≡ replicate feeds new_feed) }
{
    let mut clocks = Vec::new(alloc);
    for _ in 0..feeds {
        clocks.push(NEW)?;
    }
    Ok(clocks)
}

/// The least horizon, and 2^42 where there are no feeds.
pub(crate) fn least(feeds: &[Feed]) -> u64
    ensures { result ≡ common feeds.now }
{
    match feeds.split_first() {
        None => END,
        Some((first, rest)) => first.horizon.min(least(rest)),
    }
}

/// Whether each feed has ended.
pub(crate) fn have_all_ended(feeds: &[Feed]) -> bool
    ensures { result ≡ list_all (λ f. f.ended) feeds.now }
{
    match feeds.split_first() {
        None => true,
        Some((first, rest)) => first.ended && have_all_ended(rest),
    }
}
