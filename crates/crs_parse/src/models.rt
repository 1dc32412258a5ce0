//! Whole model texts.
ghost use Rattle.std.specs.Prelude.{◌≡◌, ◌<◌, ◌≤◌, ◌+◌, ◌^◌, map, length, IfOk, IfErr};
ghost use Rattle.crs_model.specs.SeenModels as view;
ghost use Rattle.crs_parse.specs.Faults as faults;
ghost use Rattle.crs_base.specs.Lines.{lines_of};
ghost use Rattle.crs_base.specs.Symbols.{AreDistinct};
ghost use Rattle.crs_parse.specs.Grows.{Grows, AreAmong, lines_symbols};
ghost use Rattle.crs_parse.specs.Meant.{models_read};
ghost use Rattle.crs_model.specs.Renaming as renamed;
ghost use Rattle.crs_model.specs.ProperModels.{AreProper};
ghost use Rattle.crs_parse.specs.SeenReading as see;
ghost use Rattle.crs_parse.specs.ModelSteps as steps;

use crate::builder::{Closed, Name, Reading, Refused};
use crate::numbering::models;
use crate::reading::{closed_chronicle, outer_line};
use crs_base::{Symbols, first_line};
use crs_model::limits::SIZE_LIMIT;
use crs_model::{ModelRefused, ModelWord, Models};
use std::alloc::Global;

/// Reads a declaration or a chronicle, and gives the text behind it and the number of that text's first line.
fn next_part<'a>(
    alloc: Global,
    names: &mut Vec<Name<'a>>,
    done: &mut Vec<Closed<'a>>,
    symbols: &mut Symbols,
    text: &'a [u8],
    line: u32,
) -> Result<(&'a [u8], u32), ModelRefused>
    requires some { 0 < length text.now }
    requires room { line + length text.now + 1 < 2 ^ 32 }
    ensures limit { symbols.new.limit ≡ symbols.old.limit }
    ensures grows { Grows (lines_symbols (lines_of text.now)) symbols.old.texts symbols.new.texts }
    ensures counted { IfOk result (λ x. x.1 + length x.0.now ≤ line + length text.now) }
    ensures shorter { IfOk result (λ x. length x.0.now < length text.now) }
    ensures rest { IfOk result (λ x. AreAmong (lines_of x.0.now) (lines_of text.now)) }
    ensures moved { steps.Moves (λ x. faults.after_lines symbols.old.limit x.1 (steps.reading_out (map see.name_of names.new.items) (map see.closed_of done.new.items) symbols.new.texts) (lines_of x.0.now)) result
        (faults.after_lines symbols.old.limit line (steps.reading_out (map see.name_of names.old.items) (map see.closed_of done.old.items) symbols.old.texts) (lines_of text.now)) }
{
    let (raw, more) = first_line(text);
    let begun = match outer_line(alloc, names, done, symbols, raw) {
        Ok(begun) => begun,
        Err(e) => return Err(refused_at(line, e)),
    };
    match begun {
        None => Ok((more, line + 1)),
        Some(heading) => {
            let _ = symbols.len();
            closed_chronicle(alloc, names, done, symbols, heading, more, line + 1)
        }
    }
}

/// The refusal of a line.
fn refused_at(line: u32, refused: Refused) -> ModelRefused
    ensures { result ≡ steps.halt_of line refused }
{
    match refused {
        Refused::Word(word) => ModelRefused::At { line, word },
        Refused::Memory => ModelRefused::Memory,
    }
}

/// Reads all lines.
fn read_all<'a>(
    alloc: Global,
    symbols: &mut Symbols,
    text: &'a [u8],
) -> Result<Reading<'a>, ModelRefused>
    requires { length text.now ≤ SIZE_LIMIT }
    ensures limit { symbols.new.limit ≡ symbols.old.limit }
    ensures grows { Grows (lines_symbols (lines_of text.now)) symbols.old.texts symbols.new.texts }
    ensures read { steps.Comes (λ r. see.reading_of symbols.new.texts r) result (faults.after_lines symbols.old.limit 1 (faults.nothing_read symbols.old.texts) (lines_of text.now)) }
{
    let mut names = Vec::new(alloc);
    let mut done = Vec::new(alloc);
    let mut rest = text;
    let mut line = 1;
    while !rest.is_empty() {
        let (behind, next) = next_part(alloc, &mut names, &mut done, symbols, rest, line)?;
        rest = behind;
        line = next;
    }
    Ok(Reading {
        names,
        done,
        current: None,
    })
}

/// The models that a text means. Its symbols are put into the table, also where it is refused.
pub fn read_models(
    alloc: Global,
    text: &[u8],
    symbols: &mut Symbols,
) -> Result<Models, ModelRefused>
    ensures ok { IfOk result (λ m. models_read symbols.old.limit symbols.old.texts text.now ≡ Ok (renamed.renamed_models (renamed.text_in symbols.new.texts) (view.models_of m), symbols.new.texts)) }
    ensures refused { IfErr result (λ e. steps.HaltsWith e (models_read symbols.old.limit symbols.old.texts text.now)) }
    ensures limit { symbols.new.limit ≡ symbols.old.limit }
    ensures grows { Grows (lines_symbols (lines_of text.now)) symbols.old.texts symbols.new.texts }
    ensures numbered { IfOk result (λ m. renamed.AreModelsOf (λ s. s.0 < length symbols.new.texts) (view.models_of m)) }
    ensures proper { IfOk result (λ m. AreProper (view.models_of m)) }
    ensures distinct { IfOk result (λ _. AreDistinct symbols.new.texts) }
{
    if SIZE_LIMIT < text.len() {
        return Err(ModelRefused::At {
            line: 0,
            word: ModelWord::Size,
        });
    }
    let reading = read_all(alloc, symbols, text)?;
    // no text stands twice in the table
    let _ = symbols.len();
    let models = models(alloc, symbols, &reading)?;
    Ok(models)
}
