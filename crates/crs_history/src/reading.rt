ghost use Rattle.std.specs.Prelude.{◌≡◌, true, false};
ghost use Rattle.crs_base.specs.Seen.{entry_of};
ghost use Rattle.crs_base.specs.Values.{IsChange, NewIs};
ghost use Rattle.crs_history.specs.Dates.{nat_of};

use crs_base::{Entry, Sym, SymList};

/// The least date of an entry at or after this one.
pub fn to_date(t: i64) -> u64
    ensures { result ≡ nat_of t }
{
    if t < 0 { 0 } else { t as u64 }
}

fn same_symbols(a: &[Sym], b: &[Sym]) -> bool
    ensures yes { result ≡ true → a.now ≡ b.now }
    ensures no { result ≡ false → a.now ≡ b.now → ⊥ }
{
    a == b
}

/// Whether the entry changes the attribute.
pub fn changes(entry: &Entry, name: Sym, args: &SymList) -> bool
    ensures yes { result ≡ true → IsChange (record { name = name; args = args.now }) (entry_of entry.now) }
    ensures no { result ≡ false → IsChange (record { name = name; args = args.now }) (entry_of entry.now) → ⊥ }
{
    if entry.name != name {
        return false;
    }
    if !same_symbols(entry.args.as_slice(), args.as_slice()) {
        return false;
    }
    entry.change.is_some()
}

/// Whether the entry's new value is this one.
pub fn brings(entry: &Entry, value: Sym) -> bool
    ensures yes { result ≡ true → NewIs value (entry_of entry.now) }
    ensures no { result ≡ false → NewIs value (entry_of entry.now) → ⊥ }
{
    match &entry.change {
        Some((_, new)) => *new == value,
        None => false,
    }
}
