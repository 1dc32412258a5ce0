//! What windows are dated by.
ghost use Rattle.std.specs.Prelude.{◌≡◌, ◌<◌, ◌≤◌, ◌^◌, length, pos, ◌≤ℤ◌, ◌+ℤ◌, option_map};
ghost use Rattle.crs_model.specs.Partial.{at};
ghost use Rattle.crs_model.specs.Plans.{IsProper};
ghost use Rattle.crs_instance.specs.Followed.{IsStretchAt};
ghost use Rattle.crs_instance.specs.Instances.{InstanceState};

use crate::bound::body_is_bound;
use crs_model::{Anchor, Binding, Plan, Stretch};

/// Some of a chronicle's events bound to entries: an instance, or what one becomes.
pub trait Dated {
    /// It, as contracts see an instance.
    ghost seen: { Self → InstanceState };

    /// The symbols of the variables of the bound events.
    fn binding(&self) -> &Binding
        ensures { result.now ≡ (seen self.now).binding };

    /// The date that is the offset after the date of the event. None where the event is unbound.
    fn date_from(&self, anchor: Anchor) -> Option<i64>
        requires not_large { anchor.offset ≤ℤ pos (2 ^ 40) }
        requires not_small { pos 0 ≤ℤ (anchor.offset +ℤ pos (2 ^ 40)) }
        ensures { result ≡ option_map (λ x. pos x.date +ℤ anchor.offset) (at (seen self.now).partial anchor.event) };
}

/// The dates of the window of this number. None exactly where one of its anchors or variables is
/// unbound.
#[inline(always)]
pub fn stretch_of<D: Dated>(dated: &D, plan: &Plan, window: u8) -> Option<Stretch>
    requires proper { IsProper plan.now }
    requires window { window < length plan.now.chronicle.windows }
    ensures { IsStretchAt plan.now (D.seen dated.now) window result }
{
    let window = &plan.chronicle.windows.as_slice()[window as usize];
    if !body_is_bound(&window.body, dated.binding()) {
        return None;
    }
    let Some(from) = dated.date_from(window.from) else {
        return None;
    };
    let Some(to) = dated.date_from(window.to) else {
        return None;
    };
    Some(Stretch { from, to })
}
