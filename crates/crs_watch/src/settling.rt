ghost use Rattle.std.specs.Prelude.{◌≡◌, ◌≤◌, ◌<◌, ◌-◌, ◌^◌, ℕ, pos, true, false, List as Items, [], ◌∷◌, ◌++◌, map};
ghost use Rattle.crs_base.specs.declared.symbols.Sym.{Sym};
ghost use Rattle.crs_base.specs.Entry.{Entry as LogEntry};
ghost use Rattle.crs_base.specs.Seen.{entry_of};
ghost use Rattle.crs_base.specs.Values.{IsChange, NewIs};
ghost use Rattle.crs_model.specs.Models.{Hold as HoldBody};
ghost use Rattle.crs_model.specs.Bindings.{look_of};
ghost use Rattle.crs_model.specs.Matching.{PatternIs};
ghost use Rattle.crs_model.specs.SeenModels.{term_of, pattern_of, body_of};
ghost use Rattle.crs_model.specs.Verdicts.{IsDatedIn, PatternIsBound, BodyIsBound};
ghost use Rattle.crs_model.specs.HasProgress.{IsProgress, Hits, Breaks, Spares};
ghost use Rattle.crs_model.specs.Ready.{HoldsOne};

use crate::beginning::one_more;
use crate::naming::{args_of, value_of};
use crs_base::{Entry, List, Sym, SymList};
use crs_history::{brings, changes, to_date};
use crs_model::{Binding, Body, Pattern, Progress, Stretch, Term, Window, accepts};

/// Whether the entry is dated in the stretch.
fn is_dated(stretch: Stretch, entry: &Entry) -> bool
    ensures yes { result ≡ true → IsDatedIn stretch.from stretch.to (entry_of entry.now) }
    ensures no { result ≡ false → IsDatedIn stretch.from stretch.to (entry_of entry.now) → ⊥ }
{
    to_date(stretch.from) <= entry.date && entry.date < to_date(stretch.to)
}

/// Whether the entry is dated in the stretch and equals the pattern.
fn matches_in(pattern: &Pattern, binding: &Binding, stretch: Stretch, entry: &Entry) -> bool
    requires { PatternIsBound (look_of binding.now) (pattern_of pattern.now) }
    ensures yes { result ≡ true → IsDatedIn stretch.from stretch.to (entry_of entry.now) × PatternIs (look_of binding.now) (pattern_of pattern.now) (entry_of entry.now) }
    ensures no { result ≡ false → (IsDatedIn stretch.from stretch.to (entry_of entry.now) × PatternIs (look_of binding.now) (pattern_of pattern.now) (entry_of entry.now)) → ⊥ }
{
    if !is_dated(stretch, entry) {
        return false;
    }
    accepts(pattern, binding, entry)
}

/// Whether the entry counts for the body.
fn hits(body: &Body, binding: &Binding, stretch: Stretch, entry: &Entry) -> bool
    requires { BodyIsBound (look_of binding.now) (body_of body.now) }
    ensures yes { result ≡ true → Hits (look_of binding.now) (body_of body.now) stretch.from stretch.to (entry_of entry.now) }
    ensures no { result ≡ false → Hits (look_of binding.now) (body_of body.now) stretch.from stretch.to (entry_of entry.now) → ⊥ }
{
    match body {
        Body::NoEvent(pattern) => matches_in(pattern, binding, stretch, entry),
        Body::Occurs { pattern, .. } => matches_in(pattern, binding, stretch, entry),
        Body::Hold { .. } => false,
    }
}

/// Whether the entry is a change of the attribute dated in the stretch that brings another value.
fn strays(name: Sym, args: &SymList, value: Sym, stretch: Stretch, entry: &Entry) -> bool
    ensures yes { result ≡ true → IsChange (record { name = name; args = args.now }) (entry_of entry.now) × IsDatedIn stretch.from stretch.to (entry_of entry.now) × (NewIs value (entry_of entry.now) → ⊥) }
    ensures no { result ≡ false → IsChange (record { name = name; args = args.now }) (entry_of entry.now) → IsDatedIn stretch.from stretch.to (entry_of entry.now) → NewIs value (entry_of entry.now) }
{
    if !is_dated(stretch, entry) {
        return false;
    }
    if !changes(entry, name, args) {
        return false;
    }
    !brings(entry, value)
}

/// Whether the entry breaks the `hold`.
fn breaks_hold(
    name: Sym,
    terms: &List<Term>,
    value: Term,
    binding: &Binding,
    stretch: Stretch,
    entry: &Entry,
) -> bool
    requires bound { BodyIsBound (look_of binding.now) (HoldBody name (map term_of terms.now) (term_of value)) }
    requires one { HoldsOne (HoldBody name (map term_of terms.now) (term_of value)) }
    ensures yes { result ≡ true → Breaks (look_of binding.now) (HoldBody name (map term_of terms.now) (term_of value)) stretch.from stretch.to (entry_of entry.now) }
    ensures no { result ≡ false → Spares (look_of binding.now) (HoldBody name (map term_of terms.now) (term_of value)) stretch.from stretch.to (entry_of entry.now) }
{
    let args = args_of(terms.as_slice(), binding);
    let wanted = value_of(value, binding);
    strays(name, &args, wanted, stretch, entry)
}

/// Whether the entry breaks the body.
fn breaks(body: &Body, binding: &Binding, stretch: Stretch, entry: &Entry) -> bool
    requires bound { BodyIsBound (look_of binding.now) (body_of body.now) }
    requires one { HoldsOne (body_of body.now) }
    ensures yes { result ≡ true → Breaks (look_of binding.now) (body_of body.now) stretch.from stretch.to (entry_of entry.now) }
    ensures no { result ≡ false → Spares (look_of binding.now) (body_of body.now) stretch.from stretch.to (entry_of entry.now) }
{
    match body {
        Body::NoEvent(_) => false,
        Body::Occurs { .. } => false,
        Body::Hold { name, terms, value } => {
            breaks_hold(*name, terms, *value, binding, stretch, entry)
        }
    }
}

/// The progress with one more entry, which is dated at or after the date of the progress, where the
/// count has room.
pub fn settle(
    window: &Window,
    binding: &Binding,
    stretch: Stretch,
    p: Progress,
    entry: &Entry,
) -> Progress
    requires bound { BodyIsBound (look_of binding.now) (body_of window.now.body) }
    requires one { HoldsOne (body_of window.now.body) }
    ensures more { p.count ≤ result.count }
    ensures progress { p.count < 2 ^ 32 - 1 → (settled : Items (LogEntry Sym)) (h : ℕ) → h ≤ entry.now.date → IsProgress settled (look_of binding.now) (body_of window.now.body) stretch.from stretch.to (pos h) p.count p.broken → IsProgress (settled ++ entry_of entry.now ∷ []) (look_of binding.now) (body_of window.now.body) stretch.from stretch.to (pos h) result.count result.broken }
{
    let hit = hits(&window.body, binding, stretch, entry);
    let broken = breaks(&window.body, binding, stretch, entry);
    Progress {
        count: if hit { one_more(p.count) } else { p.count },
        broken: p.broken || broken,
    }
}
