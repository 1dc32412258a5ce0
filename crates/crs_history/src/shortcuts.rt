ghost use Rattle.std.specs.Prelude.{◌≡◌, ◌≤◌, ◌∷◌, [], Some, IfOk};
ghost use Rattle.crs_history.specs.ListNumbers.{Steps, IsNumbering, Grows, count_of, number_from};
ghost use Rattle.crs_history.specs.Shortcuts.{AreRight};

use crate::numbers::{Step, add_from, number_from};
use crate::told::ToldNumbers;
use crs_base::Sym;
use std::alloc::{AllocError, Global};
use std::collections::BTreeMap;

/// Numbers of lists of symbols that are found without the tree of steps. 16,000 attributes with two arguments,
/// each changed, looked up and changed again, took 509 million instructions with the tree alone and 456 with
/// these.
#[derive(Drop)]
pub(crate) struct Shortcuts {
    /// Those of lists of two, by the number of the first symbol.
    pairs: ToldNumbers,
    /// Those of lists with one more symbol, by the number of the list.
    steps: ToldNumbers,
}

impl Shortcuts {
    /// Nothing is told, which takes no memory.
    pub fn new(alloc: Global) -> Shortcuts
        ensures { (steps : Steps) → AreRight steps result }
    {
        Shortcuts {
            pairs: ToldNumbers::new(alloc),
            steps: ToldNumbers::new(alloc),
        }
    }

    /// The number that the symbols lead to, where they have one.
    pub fn number_from(
        &self,
        steps: &BTreeMap<Step, usize>,
        from: usize,
        symbols: &[Sym],
    ) -> Option<usize>
        requires { AreRight steps.now.entries self.now }
        ensures { result ≡ number_from steps.now.entries from symbols.now }
    {
        number_from(steps, &self.steps, from, symbols)
    }

    /// The number of a list of two, where it has one.
    #[inline(always)]
    pub fn number_of_pair(
        &self,
        steps: &BTreeMap<Step, usize>,
        first: Sym,
        next: Sym,
    ) -> Option<usize>
        requires { AreRight steps.now.entries self.now }
        ensures { result ≡ number_from steps.now.entries 0 (first ∷ next ∷ []) }
    {
        match self.pairs.get(first.0 as usize, next) {
            Some(number) => Some(number),
            None => self.number_from(steps, 0, &[first, next]),
        }
    }

    /// The number that the symbols lead to, with new steps where some are wanting.
    pub fn add_from(
        &mut self,
        steps: &mut BTreeMap<Step, usize>,
        from: usize,
        symbols: &[Sym],
    ) -> Result<usize, AllocError>
        requires numbering { IsNumbering steps.old.entries }
        requires right { AreRight steps.old.entries self.old }
        requires from { from ≤ count_of steps.old.entries }
        ensures numbering { IsNumbering steps.new.entries }
        ensures grows { Grows steps.old.entries steps.new.entries }
        ensures right { AreRight steps.new.entries self.new }
        ensures ok { IfOk result (λ n. number_from steps.new.entries from symbols.now ≡ Some n) }
    {
        add_from(steps, &mut self.steps, from, symbols)
    }

    /// The number of a list of two, told from then on.
    #[inline(never)]
    fn add_and_tell(
        &mut self,
        steps: &mut BTreeMap<Step, usize>,
        first: Sym,
        next: Sym,
    ) -> Result<usize, AllocError>
        requires numbering { IsNumbering steps.old.entries }
        requires right { AreRight steps.old.entries self.old }
        ensures numbering { IsNumbering steps.new.entries }
        ensures grows { Grows steps.old.entries steps.new.entries }
        ensures right { AreRight steps.new.entries self.new }
        ensures ok { IfOk result (λ n. number_from steps.new.entries 0 (first ∷ next ∷ []) ≡ Some n) }
    {
        let number = self.add_from(steps, 0, &[first, next])?;
        self.pairs.note(first.0 as usize, next, number);
        Ok(number)
    }

    /// The number of a list of two, with new steps where some are wanting.
    #[inline(always)]
    pub fn add_pair(
        &mut self,
        steps: &mut BTreeMap<Step, usize>,
        first: Sym,
        next: Sym,
    ) -> Result<usize, AllocError>
        requires numbering { IsNumbering steps.old.entries }
        requires right { AreRight steps.old.entries self.old }
        ensures numbering { IsNumbering steps.new.entries }
        ensures grows { Grows steps.old.entries steps.new.entries }
        ensures right { AreRight steps.new.entries self.new }
        ensures ok { IfOk result (λ n. number_from steps.new.entries 0 (first ∷ next ∷ []) ≡ Some n) }
    {
        match self.pairs.get(first.0 as usize, next) {
            Some(number) => Ok(number),
            None => self.add_and_tell(steps, first, next),
        }
    }
}
