ghost use Rattle.std.specs.Prelude.{◌≡◌, ◌≤◌, ◌<◌, ◌^◌, ◌↔◌, ℕ, pos, ◌≤ℤ◌, ◌<ℤ◌, IfSome, List as Items};
ghost use Rattle.crs_base.specs.declared.symbols.Sym.{Sym};
ghost use Rattle.crs_base.specs.Entry.{Entry as LogEntry, IsInKeyOrder};
ghost use Rattle.crs_base.specs.Seen.{entry_of};
ghost use Rattle.crs_base.specs.Sifted.{Sifts};
ghost use Rattle.crs_base.specs.Words.{IsIn};
ghost use Rattle.crs_history.specs.Histories.{EndsWith, StandsFor};
ghost use Rattle.crs_history.specs.Keyed.{HaveKnown};
ghost use Rattle.crs_focus.specs.Candidacy.{AreCandidates, IsCandidate, IsHeldFor};

use crate::up_to::Candidates;
use crs_base::{Entry, Sym};
use crs_history::{Found, History};
use crs_model::DateWindow;

/// The first date of the window, where dates are at or after 0.
fn start_of(window: DateWindow) -> i64
    ensures { (d : ℕ) → result ≤ℤ pos d ↔ IfSome window.least (λ least. least ≤ℤ pos d) }
{
    match window.least {
        None => 0,
        Some(least) => least,
    }
}

/// The date behind those of the window that aren't after the last one.
fn end_of(window: DateWindow, last: u64) -> i64
    requires { last < 2 ^ 40 }
    ensures { (d : ℕ) → pos d <ℤ result ↔ ((d ≤ last) × IfSome window.most (λ most. pos d ≤ℤ most)) }
{
    let last = last as i64;
    match window.most {
        None => last + 1,
        Some(most) => last.min(most) + 1,
    }
}

/// The held entries of the name that are dated in the window, and at or after the history's floor,
/// and whose key isn't after that of `until`, in key order: those which an event may have been that
/// comes up to `until`. Where that is the last of the history, they are all of the name and the
/// dates. The date of `until` is below 2^40 ticks. It takes no memory.
pub fn candidates<'a>(
    history: &'a History,
    name: Sym,
    window: DateWindow,
    until: &'a Entry,
) -> Candidates<'a>
    requires { until.now.date < 2 ^ 40 }
    ensures held { Sifts (IsCandidate history.now.floor name window (entry_of until.now)) history.now.entries result }
    ensures in_order { IsInKeyOrder result }
    ensures up_to_last { EndsWith (entry_of until.now) history.now.entries → (e : LogEntry Sym) → IsIn e history.now.entries → IsHeldFor history.now.floor name window e → IsIn e result }
    ensures stands { (settled : Items (LogEntry Sym)) → StandsFor settled history.now → Sifts (IsCandidate history.now.floor name window (entry_of until.now)) settled result }
{
    let range = history.range(name, start_of(window), end_of(window, until.date));
    Candidates::new(range, until)
}

/// The held entries that are dated in the window, at or after the history's floor and not after `until`, in
/// key order: all of the name whose arguments have the known symbols at their places, and maybe others.
/// Where `until` is the last of the history, none of the name, the symbols and the dates is missing. The
/// date of `until` is below 2^40 ticks. It takes no memory.
pub fn candidates_with<'a>(
    history: &'a History,
    name: Sym,
    known: &[Option<Sym>],
    window: DateWindow,
    until: &Entry,
) -> Found<'a>
    requires { until.now.date < 2 ^ 40 }
    ensures held { AreCandidates history.now.floor name known.now window until.now.date history.now.entries result }
    ensures in_order { IsInKeyOrder result }
    ensures up_to_last { EndsWith (entry_of until.now) history.now.entries → (e : LogEntry Sym) → IsIn e history.now.entries → IsHeldFor history.now.floor name window e → HaveKnown known.now e.args → IsIn e result }
{
    history.find(name, known, start_of(window), end_of(window, until.date))
}
