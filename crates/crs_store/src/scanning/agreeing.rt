//! What tells that an event of an instance can't have an entry, before the instance is forked: it takes
//! no memory, and looks at symbols alone.
ghost use Rattle.std.specs.Prelude.{◌≡◌, ◌+◌, ◌<◌, false, true, cond, length, replicate, Some, None};
ghost use Rattle.crs_base.specs.Seen.{entry_of};
ghost use Rattle.crs_model.specs.Bindings.{look_of};
ghost use Rattle.crs_model.specs.Plans.{IsProper};
ghost use Rattle.crs_store.specs.Agreeing.{Agree, AreSame, IsTaken};

use crs_base::{Entry, Steps, Sym};
use crs_instance::matched;
use crs_model::{Binding, Plan};
use std::sync::ledger::Ledger;

/// Whether the event takes the entry: its pattern's constants, lists and repeated variables don't refuse
/// it, whatever is bound. The symbols that the pattern's variables have in the entry are written where none
/// were. It takes one step.
pub(crate) fn takes<L: Ledger>(
    plan: &Plan,
    event: u8,
    entry: &Entry,
    symbols: &mut Binding,
    steps: &mut Steps<L>,
) -> bool
    requires proper { IsProper plan.now }
    requires event { event < length plan.now.chronicle.events }
    requires none { symbols.old ≡ replicate (length plan.now.chronicle.variables) None }
    ensures taken { IsTaken plan.now event (entry_of entry.now) (cond result (Some symbols.new) None) }
    ensures step { steps.new ≡ steps.old + 1 }
{
    let pattern = &plan.chronicle.events.as_slice()[event as usize].pattern;
    matched(&plan.chronicle, pattern, symbols, entry, steps)
}

/// Whether both are there, and not the same.
fn differ(one: Option<Sym>, other: Option<Sym>) -> bool
    ensures { result ≡ true → AreSame one other → ⊥ }
{
    match one {
        None => false,
        Some(x) => match other {
            None => false,
            Some(y) => x.0 != y.0,
        },
    }
}

/// Whether none of the first variables has one symbol in the one binding and another in the other.
pub(crate) fn agree(one: &Binding, other: &Binding, variables: u8) -> bool
    ensures { result ≡ false → Agree (look_of one.now) (look_of other.now) → ⊥ }
{
    for variable in 0..variables {
        if differ(one.get(variable), other.get(variable)) {
            return false;
        }
    }
    true
}
