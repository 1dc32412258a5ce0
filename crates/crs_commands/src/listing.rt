// What is printed of a models text.
ghost use Rattle.std.specs.Prelude.{IfOk, IfErr};
ghost use Rattle.crs_commands.specs.Listings.{IsListed};
ghost use Rattle.crs_outcomes.specs.ModelTexts.{BreaksRuleText};
ghost use Rattle.crs_words.specs.declared.command.Listing.TheVariants.{Canonical, Minimal};

use crs_base::Text;
use crs_compile::{compile, minimal_text};
use crs_model::ModelRefused;
use crs_outcomes::read_text;
use crs_print::print_models;
use crs_words::Listing;
use std::alloc::Global;

/// The listing of the models that the text means. It is refused exactly where the text breaks a
/// rule of models.
pub fn listing_of(
    alloc: Global,
    text: &[u8],
    listing: Listing,
    symbols: u32,
) -> Result<Text, ModelRefused>
    ensures ok { IfOk result (IsListed symbols listing text.now) }
    ensures refused { IfErr result (BreaksRuleText symbols text.now) }
{
    match listing {
        Listing::Canonical => canonical(alloc, text, symbols),
        Listing::Minimal => minimal(alloc, text, symbols),
    }
}

/// The canonical text of the models. They are compiled only to see whether dates can meet their
/// bounds.
fn canonical(alloc: Global, text: &[u8], limit: u32) -> Result<Text, ModelRefused>
    ensures ok { IfOk result (IsListed limit Canonical text.now) }
    ensures refused { IfErr result (BreaksRuleText limit text.now) }
{
    let (models, symbols) = read_text(alloc, text, limit, 0)?;
    let canonical = print_models(alloc, &models, &symbols)?;
    let _ = compile(alloc, models)?;
    Ok(canonical)
}

/// The text of the models' minimal networks.
fn minimal(alloc: Global, text: &[u8], limit: u32) -> Result<Text, ModelRefused>
    ensures ok { IfOk result (IsListed limit Minimal text.now) }
    ensures refused { IfErr result (BreaksRuleText limit text.now) }
{
    let (models, symbols) = read_text(alloc, text, limit, 0)?;
    let plans = compile(alloc, models)?;
    let minimal = minimal_text(alloc, &plans, &symbols)?;
    Ok(minimal)
}
