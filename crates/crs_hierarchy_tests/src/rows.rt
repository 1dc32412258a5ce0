//! Rows of tests: what is wanted, and the text that is to give it.
use crs_base::Symbols;
use crs_compile::compile;
use crs_model::{ModelRefused, Plan, first_emit_line, strata_of};
use crs_parse::read_models;
use std::alloc::{AllocError, Global};
use std::process::Abort;
use std::rc::Rc;
use std::test::Fail;

/// A text, and behind it another one with a line end in place of each slash.
pub(crate) fn lines_behind(alloc: Global, before: &[u8], lines: &str) -> Result<Vec<u8>, Fail> {
    let mut text = Vec::from_slice(alloc, before)?;
    for byte in lines.bytes() {
        text.push(if byte == b'/' { b'\n' } else { byte })?;
    }
    Ok(text)
}

/// What a refusal tells: its line and its word.
fn told_refusal(alloc: Global, refused: ModelRefused) -> Result<String, AllocError> {
    match refused {
        ModelRefused::At { line, word } => format!(in alloc; "{line} {word:?}"),
        ModelRefused::Memory => String::from_str(alloc, "memory"),
    }
}

/// A lag, or a dash for an infinite one.
fn push_lag(alloc: Global, out: &mut String, plan: &Plan) -> Result<(), AllocError> {
    let told = match plan.lag {
        Some(ticks) => format!(in alloc; "{ticks} ")?,
        None => String::from_str(alloc, "- ")?,
    };
    out.push_str(told.as_str())
}

/// The lag of each plan, in order.
fn told_lags(alloc: Global, out: &mut String, plans: &[Rc<Plan>]) -> Result<(), AllocError> {
    for plan in plans {
        push_lag(alloc, out, plan)?;
    }
    Ok(())
}

/// Numbers, each behind a blank.
fn told_numbers(alloc: Global, out: &mut String, numbers: &[u8]) -> Result<(), AllocError> {
    for number in numbers {
        let told = format!(in alloc; " {number}")?;
        out.push_str(told.as_str())?;
    }
    Ok(())
}

/// What comes of models: the lags of their chronicles, a bar, and their strata; or why they are
/// refused.
pub(crate) fn told(alloc: Global, text: &[u8]) -> Result<String, Fail> {
    let mut symbols = Symbols::new(alloc, 1000)?;
    let models = match read_models(alloc, text, &mut symbols) {
        Ok(models) => models,
        Err(refused) => return Ok(told_refusal(alloc, refused)?),
    };
    let plans = match compile(alloc, models) {
        Ok(plans) => plans,
        Err(refused) => return Ok(told_refusal(alloc, refused)?),
    };
    let plans = plans.plans.as_slice();
    let mut out = String::new(alloc);
    told_lags(alloc, &mut out, plans)?;
    out.push('|')?;
    if plans.len() <= 64 {
        let strata = strata_of(alloc, plans)?;
        told_numbers(alloc, &mut out, strata.as_slice())?;
    }
    Ok(out)
}

/// The closing line of the first chronicle of accepted models that emits something.
pub(crate) fn emit_line(alloc: Global, text: &[u8]) -> Result<Option<u32>, Fail> {
    let mut symbols = Symbols::new(alloc, 1000)?;
    let models = read_models(alloc, text, &mut symbols)?;
    let plans = compile(alloc, models)?;
    Ok(first_emit_line(plans.plans.as_slice()))
}

fn check_row(rt: &impl Abort, alloc: Global, before: &[u8], row: &str) -> Result<(), Fail> {
    let (wanted, lines) = row.split_once(": ").ok_or("row")?;
    let text = lines_behind(alloc, before, lines)?;
    let told = told(alloc, &text)?;
    assert!(rt; told.as_str() == wanted, "{lines}: {told}");
    Ok(())
}

/// Rows of what is told, a colon, and the text behind others, with slashes for line ends.
pub(crate) fn check_rows(
    rt: &impl Abort,
    alloc: Global,
    before: &[u8],
    rows: &str,
) -> Result<(), Fail> {
    for row in rows.lines() {
        check_row(rt, alloc, before, row)?;
    }
    Ok(())
}
