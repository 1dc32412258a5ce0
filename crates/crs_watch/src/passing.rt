ghost use Rattle.std.specs.Prelude.{◌≡◌, ◌≤◌, ◌≤ℤ◌, ◌<ℤ◌, ◌+ℤ◌, ◌-◌, ◌^◌, ℕ, pos, true, false, map, List as Items};
ghost use Rattle.crs_base.specs.declared.symbols.Sym.{Sym};
ghost use Rattle.crs_base.specs.Entry.{Entry as LogEntry};
ghost use Rattle.crs_history.specs.Histories.{StandsFor};
ghost use Rattle.crs_model.specs.Models.{Hold as HoldBody};
ghost use Rattle.crs_model.specs.Bindings.{look_of};
ghost use Rattle.crs_model.specs.SeenModels.{term_of, body_of};
ghost use Rattle.crs_model.specs.Verdicts.{BodyIsBound};
ghost use Rattle.crs_model.specs.HasProgress.{IsProgress, StartsWell, StartsIll};
ghost use Rattle.crs_model.specs.Ready.{HoldsOne};
ghost use Rattle.crs_watch.specs.Judged.{HangsOnNoDate};

use crate::naming::{args_of, value_of};
use crs_base::{List, Sym};
use crs_history::History;
use crs_model::{Binding, Body, Progress, Stretch, Term, Window};

/// The date after this one.
fn next_date(t: i64) -> i64
    requires { t <ℤ pos (2 ^ 63 - 1) }
    ensures { result ≡ t +ℤ pos 1 }
{
    t + 1
}

/// Whether the attribute of a `hold` has the wanted value at the date.
fn starts_well(
    name: Sym,
    terms: &List<Term>,
    value: Term,
    binding: &Binding,
    from: i64,
    history: &History,
) -> bool
    requires bound { BodyIsBound (look_of binding.now) (HoldBody name (map term_of terms.now) (term_of value)) }
    requires one { HoldsOne (HoldBody name (map term_of terms.now) (term_of value)) }
    requires more { from <ℤ pos (2 ^ 63 - 1) }
    ensures yes { result ≡ true → history.now.floor ≤ℤ from → (settled : Items (LogEntry Sym)) → StandsFor settled history.now → StartsWell settled (look_of binding.now) (HoldBody name (map term_of terms.now) (term_of value)) from }
    ensures no { result ≡ false → history.now.floor ≤ℤ from → (settled : Items (LogEntry Sym)) → StandsFor settled history.now → StartsIll settled (look_of binding.now) (HoldBody name (map term_of terms.now) (term_of value)) from }
{
    let args = args_of(terms.as_slice(), binding);
    let wanted = value_of(value, binding);
    history.value_over(name, &args, wanted, from, next_date(from))
}

/// Whether dates that pass may change the progress of the window: that of a `hold` alone hangs on them.
#[inline(always)]
pub fn hangs_on_dates(window: &Window) -> bool
    ensures { result ≡ false → HangsOnNoDate (body_of window.now.body) }
{
    match &window.body {
        Body::NoEvent(_) => false,
        Body::Occurs { .. } => false,
        Body::Hold { .. } => true,
    }
}

/// The progress at h of a window with this progress at an earlier date.
pub fn pass(
    window: &Window,
    binding: &Binding,
    stretch: Stretch,
    p: Progress,
    history: &History,
    since: i64,
    h: i64,
) -> Progress
    requires bound { BodyIsBound (look_of binding.now) (body_of window.now.body) }
    requires one { HoldsOne (body_of window.now.body) }
    ensures same { result.count ≡ p.count }
    ensures progress { (since ≤ℤ stretch.from → history.now.floor ≤ℤ stretch.from) → (settled : Items (LogEntry Sym)) (m n : ℕ) → since ≡ pos m → h ≡ pos n → m ≤ n → StandsFor settled history.now → IsProgress settled (look_of binding.now) (body_of window.now.body) stretch.from stretch.to (pos m) p.count p.broken → IsProgress settled (look_of binding.now) (body_of window.now.body) stretch.from stretch.to (pos n) result.count result.broken }
{
    match &window.body {
        Body::NoEvent(_) => p,
        Body::Occurs { .. } => p,
        Body::Hold { name, terms, value } => {
            if p.broken {
                return p;
            }
            if stretch.from < since {
                return p;
            }
            if stretch.from >= stretch.to {
                return p;
            }
            if stretch.from >= h {
                return p;
            }
            Progress {
                count: p.count,
                broken: !starts_well(*name, terms, *value, binding, stretch.from, history),
            }
        }
    }
}
