// Models, printed.
ghost use Rattle.std.specs.Prelude.{◌≡◌, ◌<◌, ◌≤◌, ◌+◌, ◌^◌, true};
ghost use Rattle.crs_commands.specs.Listings.{Prints};
ghost use Rattle.crs_outcomes.specs.Status.{HasCauses};

use crate::listing::listing_of;
use crs_desk::Desk;
use crs_outcomes::{MODELS_LIMIT, MODELS_TOO_LONG, Status, load, refuse, write_text};
use crs_words::Listing;
use std::alloc::Global;

/// Reads the models, and prints them.
pub fn print<D: Desk>(
    alloc: Global,
    desk: &mut D,
    models: &str,
    listing: Listing,
    symbols: u32,
) -> Status
    requires { D.inputs desk.old < 2 ^ 31 }
    ensures words { result ≡ Status.Words → ⊥ }
    ensures causes { HasCauses (D.in_faults desk.old) (D.in_faults desk.new) (D.out_faults desk.old) (D.out_faults desk.new) result }
    ensures least { D.inputs desk.old ≤ D.inputs desk.new }
    ensures most { D.inputs desk.new ≤ D.inputs desk.old + 1 }
    ensures told { D.tells ≡ true → Prints (D.inputs desk.old) (D.inputs desk.new) symbols listing (D.told desk.old) models.now result (D.told desk.new) }
{
    let text = match load(alloc, desk, models, MODELS_LIMIT, MODELS_TOO_LONG) {
        Ok(text) => text,
        Err(status) => return status,
    };
    match listing_of(alloc, text.as_slice(), listing, symbols) {
        Ok(text) => write_text(desk, text.bytes(), Status::Done),
        Err(refused) => refuse(alloc, desk, refused),
    }
}
