ghost use Rattle.std.specs.Prelude.{◌≡◌, ◌⊎◌, ◌≤◌, ◌<◌, ◌^◌, ◌+◌, ◌-◌, ◌≤ℤ◌, ◌<ℤ◌, ℕ, ℤ, pos, true, false, None, IsSomeAnd, length, map, List as Items};
ghost use Rattle.crs_base.specs.declared.symbols.Sym.{Sym};
ghost use Rattle.crs_base.specs.Words.{IsIn};
ghost use Rattle.crs_base.specs.Entry.{Entry as LogEntry};
ghost use Rattle.crs_base.specs.Values.{IsChange, NewIs};
ghost use Rattle.crs_history.specs.Histories.{StandsFor};
ghost use Rattle.crs_history.specs.Keyed.{HaveKnown};
ghost use Rattle.crs_history.specs.Looking.{AllAgree, HasValueOver};
ghost use Rattle.crs_model.specs.Models.{Hold as HoldBody};
ghost use Rattle.crs_model.specs.Bindings.{look_of};
ghost use Rattle.crs_model.specs.Matching.{PatternIs};
ghost use Rattle.crs_model.specs.SeenModels.{term_of, pattern_of, body_of};
ghost use Rattle.crs_model.specs.Verdicts.{IsDatedIn, PatternIsBound, BodyIsBound};
ghost use Rattle.crs_model.specs.HasProgress.{IsProgress, IsCounted, IsBroken, IsUnbroken, IsWholeFor};
ghost use Rattle.crs_model.specs.Ready.{HoldsOne};
ghost use Rattle.crs_watch.specs.Begun.{HasStray, Falls};
ghost use Rattle.crs_watch.specs.Counts.{CountsTo};

use crate::naming::{args_of, known_of, value_of};
use crs_base::{List, Sym, SymList};
use crs_history::{Found, History, brings, changes};
use crs_model::{Binding, Body, Pattern, Progress, Stretch, Term, Window, accepts};

/// One more, where there is room.
pub(crate) fn one_more(count: u32) -> u32
    ensures more { count < 2 ^ 32 - 1 → result ≡ count + 1 }
    ensures most { result ≤ count + 1 }
    ensures least { count ≤ result }
{
    count.saturating_add(1)
}

/// How many of the entries equal the pattern, or `most` of them where there are as many: the rest isn't
/// looked at. Of a pattern that must be absent the first entry tells all, which takes a tenth off a load whose
/// windows look back at answers.
fn count_of(found: Found<'_>, pattern: &Pattern, binding: &Binding, most: u64) -> u32
    requires bound { PatternIsBound (look_of binding.now) (pattern_of pattern.now) }
    ensures { length found.entry < 2 ^ 32 → CountsTo (PatternIs (look_of binding.now) (pattern_of pattern.now)) found.entry most result }
{
    let mut count = 0;
    for e in found {
        if accepts(pattern, binding, e) {
            count = one_more(count);
            if count as u64 >= most {
                return count;
            }
        }
    }
    count
}

/// How many entries of the pattern are dated in the stretch, or `most` of them where there are as many.
fn count_over(
    pattern: &Pattern,
    binding: &Binding,
    stretch: Stretch,
    history: &History,
    most: u64,
) -> u32
    requires bound { PatternIsBound (look_of binding.now) (pattern_of pattern.now) }
    ensures { length history.now.entries < 2 ^ 32 → history.now.floor ≤ℤ stretch.from → (settled : Items (LogEntry Sym)) → StandsFor settled history.now → CountsTo (λ e. IsDatedIn stretch.from stretch.to e × PatternIs (look_of binding.now) (pattern_of pattern.now) e) settled most result }
{
    // those of other units aren't walked: where 16,000 entries lie in the stretch, it took 1.2 seconds
    let known = known_of(pattern.terms.as_slice(), binding);
    let found = history.find(pattern.name, &known, stretch.from, stretch.to);
    count_of(found, pattern, binding, most)
}

/// The least count that decides, whatever comes: it is enough, or too many.
fn decisive(least: u32, most: Option<u32>) -> u64
    ensures { (n : ℕ) → result ≤ n → ((most ≡ None) × (least ≤ n)) ⊎ IsSomeAnd most (λ m. m < n) }
{
    match most {
        None => least as u64,
        Some(most) => most as u64 + 1,
    }
}

/// How many entries count for the body.
fn count_for(body: &Body, binding: &Binding, stretch: Stretch, history: &History) -> u32
    requires bound { BodyIsBound (look_of binding.now) (body_of body.now) }
    ensures { length history.now.entries < 2 ^ 32 → history.now.floor ≤ℤ stretch.from → (settled : Items (LogEntry Sym)) → StandsFor settled history.now → IsCounted settled (look_of binding.now) (body_of body.now) stretch.from stretch.to result }
{
    match body {
        Body::NoEvent(pattern) => count_over(pattern, binding, stretch, history, 1),
        Body::Occurs {
            pattern,
            least,
            most,
        } => count_over(pattern, binding, stretch, history, decisive(*least, *most)),
        Body::Hold { .. } => 0,
    }
}

/// Whether one of the entries is a change of the attribute that brings another value.
fn has_stray(found: Found<'_>, name: Sym, args: &SymList, value: Sym) -> bool
    ensures yes { result ≡ true → HasStray (record { name = name; args = args.now }) value found.entry }
    ensures no { result ≡ false → AllAgree (record { name = name; args = args.now }) value found.entry }
{
    for e in found {
        if changes(e, name, args) {
            if !brings(e, value) {
                return true;
            }
        }
    }
    false
}

/// The lesser date.
pub(crate) fn earlier(a: i64, b: i64) -> i64
    ensures before { (t : ℤ) → t <ℤ result → (t <ℤ a) × (t <ℤ b) }
    ensures both { (t : ℤ) → t <ℤ a → t <ℤ b → t <ℤ result }
{
    if a < b { a } else { b }
}

/// The greater date.
fn later(a: i64, b: i64) -> i64
    ensures from { (t : ℤ) → result ≤ℤ t → (a ≤ℤ t) × (b ≤ℤ t) }
    ensures both { (t : ℤ) → a ≤ℤ t → b ≤ℤ t → result ≤ℤ t }
{
    if a < b { b } else { a }
}

/// Whether the attribute has the value at each date from the one on and before the other, where the first
/// isn't before the history's floor. Nothing is looked up where there is no such date: so it is where a
/// window begins at the date of the event that it hangs on, and 1 % of the load that holds values.
#[inline(always)]
fn has_value_over(
    history: &History,
    name: Sym,
    args: &SymList,
    value: Sym,
    from: i64,
    to: i64,
) -> bool
    ensures yes { result ≡ true → history.now.floor ≤ℤ from → (settled : Items (LogEntry Sym)) → StandsFor settled history.now → HasValueOver (record { name = name; args = args.now }) settled value from to }
    ensures no { result ≡ false → history.now.floor ≤ℤ from → (settled : Items (LogEntry Sym)) → StandsFor settled history.now → HasValueOver (record { name = name; args = args.now }) settled value from to → ⊥ }
{
    if to <= from {
        return true;
    }
    history.value_over(name, args, value, from, to)
}

/// Whether the attribute keeps the value at each date of the stretch before h, and each change of it
/// dated in the stretch brings the value.
fn keeps_value(
    name: Sym,
    args: &SymList,
    known: &[Option<Sym>],
    value: Sym,
    stretch: Stretch,
    history: &History,
    h: i64,
) -> bool
    requires known { HaveKnown known.now args.now }
    ensures yes { result ≡ true → history.now.floor ≤ℤ stretch.from → (settled : Items (LogEntry Sym)) → StandsFor settled history.now → IsWholeFor settled (record { name = name; args = args.now }) value stretch.from stretch.to h }
    ensures no { result ≡ false → history.now.floor ≤ℤ stretch.from → (settled : Items (LogEntry Sym)) → StandsFor settled history.now → Falls settled (record { name = name; args = args.now }) value stretch.from stretch.to h }
{
    let until = earlier(stretch.to, h);
    if !has_value_over(history, name, args, value, stretch.from, until) {
        return false;
    }
    let ahead = history.find(name, known, later(stretch.from, h), stretch.to);
    !has_stray(ahead, name, args, value)
}

/// Whether the `hold` is broken at h.
fn is_hold_broken(
    name: Sym,
    terms: &List<Term>,
    value: Term,
    binding: &Binding,
    stretch: Stretch,
    history: &History,
    h: i64,
) -> bool
    requires bound { BodyIsBound (look_of binding.now) (HoldBody name (map term_of terms.now) (term_of value)) }
    requires one { HoldsOne (HoldBody name (map term_of terms.now) (term_of value)) }
    ensures yes { result ≡ true → history.now.floor ≤ℤ stretch.from → (settled : Items (LogEntry Sym)) → StandsFor settled history.now → IsBroken settled (look_of binding.now) (HoldBody name (map term_of terms.now) (term_of value)) stretch.from stretch.to h }
    ensures no { result ≡ false → history.now.floor ≤ℤ stretch.from → (settled : Items (LogEntry Sym)) → StandsFor settled history.now → IsUnbroken settled (look_of binding.now) (HoldBody name (map term_of terms.now) (term_of value)) stretch.from stretch.to h }
{
    let args = args_of(terms.as_slice(), binding);
    let known = known_of(terms.as_slice(), binding);
    let wanted = value_of(value, binding);
    !keeps_value(name, &args, &known, wanted, stretch, history, h)
}

/// Whether the body is broken at h.
fn is_broken(body: &Body, binding: &Binding, stretch: Stretch, history: &History, h: i64) -> bool
    requires bound { BodyIsBound (look_of binding.now) (body_of body.now) }
    requires one { HoldsOne (body_of body.now) }
    ensures yes { result ≡ true → history.now.floor ≤ℤ stretch.from → (settled : Items (LogEntry Sym)) → StandsFor settled history.now → IsBroken settled (look_of binding.now) (body_of body.now) stretch.from stretch.to h }
    ensures no { result ≡ false → history.now.floor ≤ℤ stretch.from → (settled : Items (LogEntry Sym)) → StandsFor settled history.now → IsUnbroken settled (look_of binding.now) (body_of body.now) stretch.from stretch.to h }
{
    match body {
        Body::NoEvent(_) => false,
        Body::Occurs { .. } => false,
        Body::Hold { name, terms, value } => {
            is_hold_broken(*name, terms, *value, binding, stretch, history, h)
        }
    }
}

/// The progress at h of a window that begins, where the history has fewer than 2^32 entries and its
/// floor isn't after the start of the stretch.
pub fn begin(
    window: &Window,
    binding: &Binding,
    stretch: Stretch,
    history: &History,
    h: i64,
) -> Progress
    requires bound { BodyIsBound (look_of binding.now) (body_of window.now.body) }
    requires one { HoldsOne (body_of window.now.body) }
    ensures { length history.now.entries < 2 ^ 32 → history.now.floor ≤ℤ stretch.from → (settled : Items (LogEntry Sym)) → StandsFor settled history.now → IsProgress settled (look_of binding.now) (body_of window.now.body) stretch.from stretch.to h result.count result.broken }
{
    Progress {
        count: count_for(&window.body, binding, stretch, history),
        broken: is_broken(&window.body, binding, stretch, history, h),
    }
}
