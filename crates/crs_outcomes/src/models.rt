// The models of a text.
ghost use Rattle.std.specs.Prelude.{IfOk, IfErr};
ghost use Rattle.crs_outcomes.specs.ModelTexts.{BreaksRuleText, IsFaultyText};
ghost use Rattle.crs_outcomes.specs.ReadPlans.{AreReadIn, ArePlansIn, AreLonePlans};

use crs_base::Symbols;
use crs_compile::compile;
use crs_model::{ModelRefused, ModelWord, Models, Plans, first_emit_line};
use crs_parse::read_models;
use std::alloc::Global;

/// Reads the models of a text into a new table, which holds at most `limit` symbols and hashes them
/// from the seed.
pub fn read_text(
    alloc: Global,
    text: &[u8],
    limit: u32,
    seed: u64,
) -> Result<(Models, Symbols), ModelRefused>
    ensures ok { IfOk result (λ read. AreReadIn limit text.now read.0 read.1) }
    ensures refused { IfErr result (BreaksRuleText limit text.now) }
{
    let mut symbols = Symbols::seeded(alloc, limit, seed);
    let models = read_models(alloc, text, &mut symbols)?;
    Ok((models, symbols))
}

/// The plans of the models that a text means, and the table of their symbols, which holds at most
/// `symbols` of them and hashes them from the seed.
pub fn read_plans(
    alloc: Global,
    text: &[u8],
    symbols: u32,
    seed: u64,
) -> Result<(Plans, Symbols), ModelRefused>
    ensures ok { IfOk result (λ read. ArePlansIn symbols text.now read.0 read.1) }
    ensures refused { IfErr result (BreaksRuleText symbols text.now) }
{
    let (models, symbols) = read_text(alloc, text, symbols, seed)?;
    let plans = compile(alloc, models)?;
    Ok((plans, symbols))
}

/// The plans of models of which no chronicle gives entries. Others are refused, with the line that
/// closes the first chronicle that gives some: over several logs nothing would read what it gives, and
/// an entry that is given has no line in a log that could be cited.
pub fn read_lone_plans(
    alloc: Global,
    text: &[u8],
    symbols: u32,
    seed: u64,
) -> Result<(Plans, Symbols), ModelRefused>
    ensures ok { IfOk result (λ read. ArePlansIn symbols text.now read.0 read.1 × AreLonePlans read.0) }
    ensures refused { IfErr result (IsFaultyText symbols text.now) }
{
    let (plans, symbols) = read_plans(alloc, text, symbols, seed)?;
    if let Some(line) = first_emit_line(plans.plans.as_slice()) {
        return Err(ModelRefused::At {
            line,
            word: ModelWord::Hierarchy,
        });
    }
    Ok((plans, symbols))
}
