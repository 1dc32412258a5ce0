ghost use Rattle.std.specs.Prelude.{◌≡◌, ◌≤◌, Some, IfOk};
ghost use Rattle.crs_history.specs.ListNumbers.{IsNumbering, Grows, count_of, step_of, number_from};
ghost use Rattle.crs_history.specs.Told.{AreTold};

use crate::told::ToldNumbers;
use crs_base::Sym;
use std::alloc::AllocError;
use std::collections::BTreeMap;

/// From the number of a list of symbols to that of the list with one more.
#[derive(Clone, Copy, Debug, PartialEq, Eq, PartialOrd, Ord, Drop)]
pub(crate) struct Step {
    pub from: usize,
    pub symbol: u32,
}

/// The number that one more symbol leads to in the tree. What a table doesn't tell is asked for out of line,
/// so that what it tells is found in place, without a call.
#[inline(never)]
fn step_in_tree(steps: &BTreeMap<Step, usize>, from: usize, symbol: Sym) -> Option<usize>
    ensures { result ≡ step_of steps.now.entries from symbol }
{
    let step = Step {
        from,
        symbol: symbol.0,
    };
    steps.get(&step).copied()
}

/// The number that one more symbol leads to, where it leads to one.
#[inline(always)]
fn step_from(
    steps: &BTreeMap<Step, usize>,
    told: &ToldNumbers,
    from: usize,
    symbol: Sym,
) -> Option<usize>
    requires { AreTold (step_of steps.now.entries) told.now }
    ensures { result ≡ step_of steps.now.entries from symbol }
{
    match told.get(from, symbol) {
        Some(number) => Some(number),
        None => step_in_tree(steps, from, symbol),
    }
}

/// The number that the symbols lead to, where they have one.
#[inline(never)]
pub(crate) fn number_from(
    steps: &BTreeMap<Step, usize>,
    told: &ToldNumbers,
    from: usize,
    symbols: &[Sym],
) -> Option<usize>
    requires { AreTold (step_of steps.now.entries) told.now }
    ensures { result ≡ number_from steps.now.entries from symbols.now }
{
    let mut number = from;
    for symbol in symbols {
        number = step_from(steps, told, number, *symbol)?;
    }
    Some(number)
}

/// The number that one more symbol leads to in the tree, which is a new one where there was none. One search
/// finds it or its place: with a search for each, 40,000 changes of new attributes of two arguments took 271
/// million instructions, and 257 with this one.
fn add_to_tree(
    steps: &mut BTreeMap<Step, usize>,
    from: usize,
    symbol: Sym,
) -> Result<usize, AllocError>
    requires numbering { IsNumbering steps.old.entries }
    requires from { from ≤ count_of steps.old.entries }
    ensures numbering { IsNumbering steps.new.entries }
    ensures grows { Grows steps.old.entries steps.new.entries }
    ensures ok { IfOk result (λ n. step_of steps.new.entries from symbol ≡ Some n) }
{
    let next = steps.len() + 1;
    let step = Step {
        from,
        symbol: symbol.0,
    };
    let Ok(entry) = steps.entry(step) else {
        return Err(AllocError);
    };
    Ok(*entry.or_insert(next))
}

/// The same, told from then on.
#[inline(never)]
fn add_and_tell(
    steps: &mut BTreeMap<Step, usize>,
    told: &mut ToldNumbers,
    from: usize,
    symbol: Sym,
) -> Result<usize, AllocError>
    requires numbering { IsNumbering steps.old.entries }
    requires told { AreTold (step_of steps.old.entries) told.old }
    requires from { from ≤ count_of steps.old.entries }
    ensures numbering { IsNumbering steps.new.entries }
    ensures grows { Grows steps.old.entries steps.new.entries }
    ensures told { AreTold (step_of steps.new.entries) told.new }
    ensures ok { IfOk result (λ n. step_of steps.new.entries from symbol ≡ Some n) }
{
    let number = add_to_tree(steps, from, symbol)?;
    told.note(from, symbol, number);
    Ok(number)
}

/// The number that one more symbol leads to, which is a new one where there was none.
#[inline(always)]
fn add_step(
    steps: &mut BTreeMap<Step, usize>,
    told: &mut ToldNumbers,
    from: usize,
    symbol: Sym,
) -> Result<usize, AllocError>
    requires numbering { IsNumbering steps.old.entries }
    requires told { AreTold (step_of steps.old.entries) told.old }
    requires from { from ≤ count_of steps.old.entries }
    ensures numbering { IsNumbering steps.new.entries }
    ensures grows { Grows steps.old.entries steps.new.entries }
    ensures told { AreTold (step_of steps.new.entries) told.new }
    ensures ok { IfOk result (λ n. step_of steps.new.entries from symbol ≡ Some n) }
{
    match told.get(from, symbol) {
        Some(number) => Ok(number),
        None => add_and_tell(steps, told, from, symbol),
    }
}

/// The number that the symbols lead to, with new steps where some are wanting.
#[inline(never)]
pub(crate) fn add_from(
    steps: &mut BTreeMap<Step, usize>,
    told: &mut ToldNumbers,
    from: usize,
    symbols: &[Sym],
) -> Result<usize, AllocError>
    requires numbering { IsNumbering steps.old.entries }
    requires told { AreTold (step_of steps.old.entries) told.old }
    requires from { from ≤ count_of steps.old.entries }
    ensures numbering { IsNumbering steps.new.entries }
    ensures grows { Grows steps.old.entries steps.new.entries }
    ensures told { AreTold (step_of steps.new.entries) told.new }
    ensures ok { IfOk result (λ n. number_from steps.new.entries from symbols.now ≡ Some n) }
{
    let mut number = from;
    for symbol in symbols {
        number = add_step(steps, told, number, *symbol)?;
    }
    Ok(number)
}
