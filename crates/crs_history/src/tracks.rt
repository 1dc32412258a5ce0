ghost use Rattle.std.specs.Prelude.{◌≡◌, ◌<◌, ◌∷◌, ◌++◌, [], None, Some, IfOk, IfSome, OnOk, OnErr, true, List as Items};
ghost use Rattle.crs_base.specs.declared.symbols.Sym.{Sym};
ghost use Rattle.crs_base.specs.Entry.{Entry as LogEntry};
ghost use Rattle.crs_base.specs.Seen.{entry_of};
ghost use Rattle.crs_base.specs.Values.{Attribute};
ghost use Rattle.crs_history.specs.Histories.{attribute_of};
ghost use Rattle.crs_history.specs.ListNumbers.{IsNumbering, Grows};
ghost use Rattle.crs_history.specs.Shortcuts.{AreRight};
ghost use Rattle.crs_history.specs.Tracks.{number_of, track_of, AreOwned, AreSame, IsTrackSetTo, TakesFirst, BeginsSince};

use crate::numbered::Numbered;
use crate::numbers::Step;
use crate::shortcuts::Shortcuts;
use crate::stretch::Stretch;
use crs_base::{Entry, Sym, SymList};
use std::alloc::{AllocError, Global};
use std::collections::BTreeMap;
use std::marker::Model;
use std::rc::Rc;

/// Queues of changes by attribute. An attribute's number is that of its name and arguments as a
/// list of symbols: a tree of steps, so that what a log holds can't make a look-up slow. Most are found by
/// the shortcuts before it.
#[derive(Drop)]
pub(crate) struct Tracks {
    steps: BTreeMap<Step, usize>,
    shortcuts: Shortcuts,
    lanes: Numbered,
}

impl Model for Tracks {
    ghost use Rattle.std.specs.Coded.{codes};
    ghost use Rattle.crs_history.specs.contracts.numbers.Step as step;
    ghost use Rattle.crs_history.specs.Shortcuts.{AreRight};
    ghost use Rattle.crs_history.specs.Tracks.{TracksState, AreTracks};

    ghost Value = { TracksState };

    ghost coded = { Prim.hlevel (codes, step.the_row.coded) };

    ghost view = { λ t. record { steps = t.steps.entries; lanes = t.lanes } };

    ghost invariant = { λ t. AreTracks (record { steps = t.steps.entries; lanes = t.lanes }) × AreRight t.steps.entries t.shortcuts };
}

/// The number that the steps give an attribute: one look where it has one argument, as most have.
#[inline(always)]
fn number_by_steps(
    steps: &BTreeMap<Step, usize>,
    shortcuts: &Shortcuts,
    name: Sym,
    args: &[Sym],
) -> Option<usize>
    requires { AreRight steps.now.entries shortcuts.now }
    ensures { result ≡ number_of steps.now.entries (record { name = name; args = args.now }) }
{
    let Some((first, rest)) = args.split_first() else {
        return shortcuts.number_from(steps, 0, &[name]);
    };
    let number = shortcuts.number_of_pair(steps, name, *first)?;
    if rest.is_empty() {
        return Some(number);
    }
    shortcuts.number_from(steps, number, rest)
}

/// The number of an attribute, which is a new one where it had none.
fn number_for(
    steps: &mut BTreeMap<Step, usize>,
    shortcuts: &mut Shortcuts,
    name: Sym,
    args: &[Sym],
) -> Result<usize, AllocError>
    requires numbering { IsNumbering steps.old.entries }
    requires right { AreRight steps.old.entries shortcuts.old }
    ensures numbering { IsNumbering steps.new.entries }
    ensures grows { Grows steps.old.entries steps.new.entries }
    ensures right { AreRight steps.new.entries shortcuts.new }
    ensures ok { IfOk result (λ n. number_of steps.new.entries (record { name = name; args = args.now }) ≡ Some n) }
{
    let Some((first, rest)) = args.split_first() else {
        return shortcuts.add_from(steps, 0, &[name]);
    };
    let number = shortcuts.add_pair(steps, name, *first)?;
    if rest.is_empty() {
        return Ok(number);
    }
    shortcuts.add_from(steps, number, rest)
}

impl Tracks {
    /// No tracks, which take no memory.
    pub fn new(alloc: Global) -> Tracks
        ensures none { (a : Attribute Sym) → track_of result a ≡ [] }
        ensures owned { AreOwned result }
    {
        Tracks {
            steps: BTreeMap::new(alloc),
            shortcuts: Shortcuts::new(alloc),
            lanes: Numbered::new(alloc),
        }
    }

    /// The number of an attribute that has one.
    #[inline(always)]
    fn number_of(&self, name: Sym, args: &SymList) -> Option<usize>
        ensures { result ≡ number_of self.now.steps (record { name = name; args = args.now }) }
    {
        number_by_steps(&self.steps, &self.shortcuts, name, args.as_slice())
    }

    /// The changes of an attribute.
    pub fn track(&self, name: Sym, args: &SymList) -> Stretch<'_>
        ensures { result ≡ track_of self.now (record { name = name; args = args.now }) }
    {
        match self.number_of(name, args) {
            Some(number) => self.lanes.track(number),
            None => Stretch::none(),
        }
    }

    /// Adds an entry at the end of the track of its attribute.
    pub fn push(&mut self, entry: Rc<Entry>) -> Result<(), AllocError>
        ensures ok { OnOk result (IsTrackSetTo self.old (attribute_of (entry_of entry.value)) (track_of self.old (attribute_of (entry_of entry.value)) ++ entry_of entry.value ∷ []) self.new) }
        ensures err { OnErr result (AreSame self.old self.new) }
        ensures owned { AreOwned self.new }
    {
        let number = number_for(
            &mut self.steps,
            &mut self.shortcuts,
            entry.name,
            entry.args.as_slice(),
        )?;
        self.lanes.push(number, entry)
    }

    /// Takes out the first entry of the track of the attribute, where it is dated before the date.
    pub fn pop_before(&mut self, name: Sym, args: &SymList, date: u64) -> Option<Rc<Entry>>
        ensures before { IfSome result (λ r. r.value.date < date) }
        ensures first { IfSome result (λ r. TakesFirst self.old (record { name = name; args = args.now }) (entry_of r.value) self.new) }
        ensures none { result ≡ None → BeginsSince date (track_of self.old (record { name = name; args = args.now })) }
        ensures same { result ≡ None → self.new ≡ self.old }
        ensures owned { AreOwned self.new }
    {
        let number = self.number_of(name, args)?;
        let first = self.lanes.track(number).first()?;
        if first.date >= date {
            return None;
        }
        self.lanes.pop_first(number)
    }
}
