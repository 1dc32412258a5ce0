//! An entry that comes to the instances, what a store is told of those after it, the moments at which it
//! takes one in, and the horizon to which it moves on.
ghost use Rattle.std.specs.Prelude.{◌≡◌};
ghost use Rattle.crs_store.specs.Moments.{IsArrival};

use crs_base::Entry;
use crs_history::History;
use crs_model::{Mark, Plan};
use crs_waiting::{Chart, Hooks};
use std::alloc::Global;
use std::rc::Rc;

/// An entry to which an event may be bound, the date at which all was judged last, and the one at
/// which what comes of it is judged. Where `skips` is true, all that comes later is behind it, so that
/// what awaits an event that comes before its own can't be recognised. Where `finds` is true, the
/// chronicle has no windows, and of what the entry completes the recognition alone is made.
#[derive(Drop)]
pub(crate) struct Arrival<'a> {
    pub(crate) alloc: Global,
    pub(crate) plan: &'a Plan,
    pub(crate) hooks: &'a Hooks,
    pub(crate) skips: bool,
    pub(crate) finds: bool,
    pub(crate) focus: bool,
    pub(crate) history: &'a History,
    pub(crate) entry: &'a Rc<Entry>,
    pub(crate) since: u64,
    pub(crate) until: u64,
}

impl<'a> Arrival<'a> {
    /// What hangs on the plan alone.
    pub(crate) fn chart(&self) -> Chart<'a>
        requires { IsArrival self.now }
        ensures { result ≡ record { plan = self.now.plan.now; hooks = self.now.hooks.now; focus = self.now.focus } }
    {
        Chart {
            plan: self.plan,
            hooks: self.hooks,
            focus: self.focus,
        }
    }
}

/// The entries that come after one, as far as a store is told. Dates are ticks of the log's clock, and
/// none is after 2^42.
#[derive(Drop)]
pub struct Coming<'a> {
    /// None is dated before it.
    pub until: u64,
    /// Those that come next, before all that are dated at or after `beyond`.
    pub ahead: &'a [Rc<Entry>],
    pub beyond: u64,
    /// Whether each has a later date than the one before them, or the same and no lesser a rank, and the
    /// next mark's horizon is after that date.
    pub behind: bool,
}

/// What is held of the instances that come of others, which were judged at `h`. Those that the entries
/// ahead and those from `beyond` on leave no hope aren't, and of those that are done the recognition
/// alone is kept, where `finds` is true.
#[derive(Drop)]
pub(crate) struct Birth<'a> {
    pub(crate) ahead: &'a [Rc<Entry>],
    pub(crate) beyond: u64,
    pub(crate) finds: bool,
    pub(crate) h: u64,
}

/// The entry, which is the last of the history, the date at which all was judged before, and the one
/// at which it is to be judged; the entries that come next, before all that are dated from `beyond` on,
/// whether all that comes later is behind it by date and rank, and whether what is done at its birth is
/// kept as a recognition.
#[derive(Drop)]
pub(crate) struct Moment<'a> {
    pub(crate) alloc: Global,
    pub(crate) plan: &'a Plan,
    pub(crate) hooks: &'a Hooks,
    pub(crate) focus: bool,
    pub(crate) history: &'a History,
    pub(crate) entry: &'a Rc<Entry>,
    pub(crate) since: u64,
    pub(crate) until: u64,
    pub(crate) ahead: &'a [Rc<Entry>],
    pub(crate) beyond: u64,
    pub(crate) behind: bool,
    pub(crate) finds: bool,
}

/// The entry of a prompt chronicle, which isn't settled yet, and the date at which all is judged and
/// stays so; the entries that come next, before all that are dated from `beyond` on, and whether what is
/// done at its birth is kept as a recognition.
#[derive(Drop)]
pub(crate) struct PromptMoment<'a> {
    pub(crate) alloc: Global,
    pub(crate) plan: &'a Plan,
    pub(crate) hooks: &'a Hooks,
    pub(crate) focus: bool,
    pub(crate) history: &'a History,
    pub(crate) entry: &'a Rc<Entry>,
    pub(crate) since: u64,
    pub(crate) ahead: &'a [Rc<Entry>],
    pub(crate) beyond: u64,
    pub(crate) finds: bool,
}

/// A horizon to which a store moves on, and the date at which all was judged before; the number of the
/// chronicle and the mark are those of what is answered.
#[derive(Drop)]
pub(crate) struct Horizon<'a> {
    pub(crate) alloc: Global,
    pub(crate) plan: &'a Plan,
    pub(crate) hooks: &'a Hooks,
    pub(crate) focus: bool,
    pub(crate) history: &'a History,
    pub(crate) since: u64,
    pub(crate) h: u64,
    pub(crate) number: u32,
    pub(crate) mark: Mark,
}
