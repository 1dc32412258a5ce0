// The entry that an emit gives.
ghost use Rattle.std.specs.Prelude.{◌≡◌, ◌<◌, ◌≤◌, ◌++◌, length, map, IfOk, OnOk, Some, None};
ghost use Rattle.std.specs.List.{AllByRecursion, flat_map};
ghost use Rattle.std.specs.Option.{option_to_list};
ghost use Rattle.crs_base.specs.Entry.{canonical, args_text, more_text};
ghost use Rattle.crs_base.specs.Seen.{entry_of};
ghost use Rattle.crs_model.specs.Renaming.{text_in, AreKnown};
ghost use Rattle.crs_model.specs.SeenModels.{term_of, emit_of, given};
ghost use Rattle.crs_layers.specs.Strata.{symbols_at, entry_by};

use crate::accepting::symbol_list;
use crs_base::{Entry, Sym, Symbols, Text, push_bytes};
use crs_model::{Binding, Emit, Term};
use std::alloc::{AllocError, Global};

/// The symbol that a term stands for.
fn symbol_of(term: Term, binding: &Binding) -> Option<Sym>
    requires { binding.now ≡ map Some (given binding.now) }
    ensures { option_to_list result ≡ symbols_at (given binding.now) (term_of term) }
{
    match term {
        Term::Value(s) => Some(s),
        Term::Var(v) => binding.get(v),
        Term::Any => None,
    }
}

/// The symbols that the terms stand for, behind those that are there.
fn push_symbols(out: &mut Vec<Sym>, terms: &[Term], binding: &Binding) -> Result<(), AllocError>
    requires { binding.now ≡ map Some (given binding.now) }
    ensures { OnOk result (out.new.items ≡ out.old.items ++ flat_map (symbols_at (given binding.now)) (map term_of terms.now)) }
{
    match terms.split_first() {
        None => Ok(()),
        Some((term, rest)) => {
            if let Some(s) = symbol_of(*term, binding) {
                out.push(s)?;
            }
            push_symbols(out, rest, binding)
        }
    }
}

/// Writes what stands behind a first argument.
fn push_more(out: &mut Vec<u8>, symbols: &Symbols, args: &[Sym]) -> Result<(), AllocError>
    requires { AreKnown symbols.now.texts args.now }
    ensures { OnOk result (out.new.items ≡ out.old.items ++ more_text (map (text_in symbols.now.texts) args.now)) }
{
    match args.split_first() {
        None => push_bytes(out, b"]"),
        Some((s, rest)) => {
            push_bytes(out, b",")?;
            push_bytes(out, symbols.text(*s))?;
            push_more(out, symbols, rest)
        }
    }
}

/// Writes arguments.
fn push_args(out: &mut Vec<u8>, symbols: &Symbols, args: &[Sym]) -> Result<(), AllocError>
    requires { AreKnown symbols.now.texts args.now }
    ensures { OnOk result (out.new.items ≡ out.old.items ++ args_text (map (text_in symbols.now.texts) args.now)) }
{
    match args.split_first() {
        None => Ok(()),
        Some((s, rest)) => {
            push_bytes(out, b"[")?;
            push_bytes(out, symbols.text(*s))?;
            push_more(out, symbols, rest)
        }
    }
}

/// The canonical text of a name with its arguments.
fn text_of(alloc: Global, symbols: &Symbols, name: Sym, args: &[Sym]) -> Result<Text, AllocError>
    requires name { name.0 < length symbols.now.texts }
    requires args { AreKnown symbols.now.texts args.now }
    ensures { IfOk result (λ t. t ≡ canonical (text_in symbols.now.texts name) (map (text_in symbols.now.texts) args.now) None) }
{
    let mut out = Vec::new(alloc);
    push_bytes(&mut out, symbols.text(name))?;
    push_args(&mut out, symbols, args)?;
    Ok(Text::from_vec(out))
}

/// The entry that a recognition gives by an emit whose event is bound to this entry. It has no arrival
/// number of its own yet.
pub(crate) fn emitted(
    alloc: Global,
    symbols: &Symbols,
    emit: &Emit,
    binding: &Binding,
    bound: &Entry,
) -> Result<Entry, AllocError>
    requires whole { binding.now ≡ map Some (given binding.now) }
    requires name { emit.now.pattern.name.0 < length symbols.now.texts }
    requires known { AreKnown symbols.now.texts (flat_map (symbols_at (given binding.now)) (map term_of emit.now.pattern.terms)) }
    ensures { IfOk result (λ e. entry_of e ≡ entry_by (text_in symbols.now.texts) (given binding.now) (emit_of emit.now) (entry_of bound.now)) }
{
    let name = emit.pattern.name;
    let mut args = Vec::new(alloc);
    push_symbols(&mut args, emit.pattern.terms.as_slice(), binding)?;
    let text = text_of(alloc, symbols, name, args.as_slice())?;
    Ok(Entry {
        arrival: 0,
        date: bound.date,
        name,
        args: symbol_list(args.as_slice())?,
        change: None,
        text,
    })
}
