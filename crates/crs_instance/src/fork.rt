//! What an instance becomes where one more event is bound, before it takes memory.
ghost use Rattle.std.specs.Prelude.{◌≡◌, ◌<◌, ◌^◌, length, IfOk};
ghost use Rattle.crs_base.specs.Seen.{entry_of};
ghost use Rattle.crs_model.specs.Partial.{at, put};
ghost use Rattle.crs_instance.specs.Forks.{IsFork, with_one};

use crate::dated::Dated;
use crate::instance::Instance;
use crate::links::Known;
use crate::narrowing::narrowed;
use crs_base::Entry;
use crs_model::{Anchor, Binding, Plan, Progress};
use std::alloc::AllocError;
use std::marker::Model;
use std::rc::Rc;

/// An instance with one more event bound, of which the symbols of variables alone were made: by these and
/// by its dates a window is found that is lost already, and then nothing was allocated for it.
#[derive(Drop)]
pub struct Fork<'a> {
    plan: &'a Plan,
    parent: &'a Instance,
    event: u8,
    entry: &'a Rc<Entry>,
    binding: Binding,
}

impl<'a> Model for Fork<'a> {
    ghost use Rattle.crs_base.specs.Seen.{entry_of};
    ghost use Rattle.crs_instance.specs.Forks.{IsFork, with_one};
    ghost use Rattle.crs_instance.specs.Instances.{InstanceState};

    ghost Value = { InstanceState };

    ghost view = { λ f. with_one f.plan.now f.parent.now f.event (entry_of f.entry.now.value) f.binding };

    ghost invariant = { λ f. IsFork f.plan.now f.parent.now f.event (entry_of f.entry.now.value) };
}

impl<'a> Dated for Fork<'a> {
    ghost seen = { λ f. f };

    fn binding(&self) -> &Binding {
        &self.binding
    }

    fn date_from(&self, anchor: Anchor) -> Option<i64> {
        if anchor.event == self.event {
            return Some(self.entry.date as i64 + anchor.offset);
        }
        self.parent.date_from(anchor)
    }
}

impl<'a> Fork<'a> {
    /// What the parent becomes where the event is bound to the entry too, by which its variables have
    /// these symbols.
    #[inline(always)]
    pub(crate) fn new(
        plan: &'a Plan,
        parent: &'a Instance,
        event: u8,
        entry: &'a Rc<Entry>,
        binding: Binding,
    ) -> Fork<'a>
        requires { IsFork plan.now parent.now event (entry_of entry.now.value) }
        ensures { result ≡ with_one plan.now parent.now event (entry_of entry.now.value) binding }
    {
        Fork {
            plan,
            parent,
            event,
            entry,
            binding,
        }
    }

    /// The instance, with this progress of its windows.
    pub fn make(self, progress: &[Progress]) -> Result<Instance, AllocError>
        ensures { IfOk result (λ i. i ≡ record self.entry { progress = progress.now }) }
    {
        let parent = self.parent;
        let spans = narrowed(
            parent.alloc(),
            parent.known().spans.as_slice(),
            &self.plan.network,
            self.event,
            self.entry.date,
        )?;
        let binding = self.binding;
        let known = Known { binding, spans };
        parent.grown(self.event, self.entry.clone()?, known, progress)
    }
}
