//! The symbols of statements, in the order in which they stand there.
ghost use Rattle.std.specs.Prelude.{◌≡◌, ◌++◌, map, OnOk, IfOk, true, ◌∷◌, [], IfErr};
ghost use Rattle.std.specs.List.{AllByRecursion};
ghost use Rattle.crs_base.specs.Symbols.{is_symbol, with_texts};
ghost use Rattle.crs_parse.specs.Faults as faults;
ghost use Rattle.crs_grammar.specs.SeenStatements as seen;
ghost use Rattle.crs_parse.specs.Grows.{Grows};
ghost use Rattle.crs_parse.specs.Overfull.{IsOverfull};

use crs_base::{SymRefused, Symbols};
use crs_grammar::{Body, Declaration, Pattern, Statement, Term, Window};
use std::alloc::{AllocError, Global};

fn push_term<'a>(out: &mut Vec<&'a [u8]>, term: &Term<'a>) -> Result<(), AllocError>
    ensures { OnOk result (map (λ t. t.now) out.new.items ≡ map (λ t. t.now) out.old.items ++ faults.term_symbols (seen.term_of term.now)) }
{
    match term {
        Term::Value(s) => out.push(*s)?,
        Term::Variable(x) => out.push(*x)?,
        Term::Any => {}
    }
    Ok(())
}

fn push_terms<'a>(out: &mut Vec<&'a [u8]>, terms: &[Term<'a>]) -> Result<(), AllocError>
    ensures { OnOk result (map (λ t. t.now) out.new.items ≡ map (λ t. t.now) out.old.items ++ faults.terms_symbols (map seen.term_of terms.now)) }
{
    for t in terms {
        push_term(out, t)?;
    }
    Ok(())
}

fn push_values<'a>(out: &mut Vec<&'a [u8]>, values: &[&'a [u8]]) -> Result<(), AllocError>
    ensures { OnOk result (map (λ t. t.now) out.new.items ≡ map (λ t. t.now) out.old.items ++ map (λ t. t.now) values.now) }
{
    for v in values {
        out.push(*v)?;
    }
    Ok(())
}

fn push_change<'a>(
    out: &mut Vec<&'a [u8]>,
    change: &Option<(Term<'a>, Term<'a>)>,
) -> Result<(), AllocError>
    ensures { OnOk result (map (λ t. t.now) out.new.items ≡ map (λ t. t.now) out.old.items ++ faults.change_symbols (seen.change_of change.now)) }
{
    if let Some((old, new)) = change {
        push_term(out, old)?;
        push_term(out, new)?;
    }
    Ok(())
}

fn push_pattern<'a>(out: &mut Vec<&'a [u8]>, pattern: &Pattern<'a>) -> Result<(), AllocError>
    ensures { OnOk result (map (λ t. t.now) out.new.items ≡ map (λ t. t.now) out.old.items ++ faults.pattern_symbols (seen.pattern_of pattern.now)) }
{
    out.push(pattern.name)?;
    push_terms(out, &pattern.terms)?;
    push_change(out, &pattern.change)
}

fn push_body<'a>(out: &mut Vec<&'a [u8]>, body: &Body<'a>) -> Result<(), AllocError>
    ensures { OnOk result (map (λ t. t.now) out.new.items ≡ map (λ t. t.now) out.old.items ++ faults.body_symbols (seen.body_of body.now)) }
{
    match body {
        Body::NoEvent(pattern) => push_pattern(out, pattern),
        Body::Occurs(_, _, pattern) => push_pattern(out, pattern),
        Body::Hold(name, terms, value) => {
            out.push(*name)?;
            push_terms(out, terms)?;
            push_term(out, value)
        }
    }
}

fn push_two<'a>(
    out: &mut Vec<&'a [u8]>,
    first: &'a [u8],
    second: &'a [u8],
) -> Result<(), AllocError>
    ensures { OnOk result (map (λ t. t.now) out.new.items ≡ map (λ t. t.now) out.old.items ++ first.now ∷ second.now ∷ []) }
{
    out.push(first)?;
    out.push(second)?;
    Ok(())
}

fn push_named<'a>(
    out: &mut Vec<&'a [u8]>,
    name: &'a [u8],
    values: &[&'a [u8]],
) -> Result<(), AllocError>
    ensures { OnOk result (map (λ t. t.now) out.new.items ≡ map (λ t. t.now) out.old.items ++ name.now ∷ map (λ t. t.now) values.now) }
{
    out.push(name)?;
    push_values(out, values)
}

fn push_placed<'a>(
    out: &mut Vec<&'a [u8]>,
    pattern: &Pattern<'a>,
    point: &'a [u8],
) -> Result<(), AllocError>
    ensures { OnOk result (map (λ t. t.now) out.new.items ≡ map (λ t. t.now) out.old.items ++ faults.pattern_symbols (seen.pattern_of pattern.now) ++ point.now ∷ []) }
{
    push_pattern(out, pattern)?;
    out.push(point)?;
    Ok(())
}

fn push_window<'a>(out: &mut Vec<&'a [u8]>, window: &Window<'a>) -> Result<(), AllocError>
    ensures { OnOk result (map (λ t. t.now) out.new.items ≡ map (λ t. t.now) out.old.items ++ faults.body_symbols (seen.body_of window.now.body) ++ window.now.from.point.now ∷ window.now.to.point.now ∷ []) }
{
    push_body(out, &window.body)?;
    push_two(out, window.from.point, window.to.point)
}

fn push_statement<'a>(out: &mut Vec<&'a [u8]>, statement: &Statement<'a>) -> Result<(), AllocError>
    ensures { OnOk result (map (λ t. t.now) out.new.items ≡ map (λ t. t.now) out.old.items ++ faults.symbols_of (seen.statement_of statement.now)) }
{
    match statement {
        Statement::Happens(event) => push_placed(out, &event.pattern, event.point),
        Statement::Point(name) => {
            out.push(*name)?;
            Ok(())
        }
        Statement::Between(distance) => push_two(out, distance.to, distance.from),
        Statement::Among(name, values) => push_named(out, name, values),
        Statement::Differ(left, right) => push_two(out, left, right),
        Statement::Over(window) => push_window(out, window),
        Statement::Emits(emission) => push_placed(out, &emission.pattern, emission.point),
        Statement::Close => Ok(()),
    }
}

/// The symbols of a statement.
pub fn symbols_of<'a>(alloc: Global, statement: &Statement<'a>) -> Result<Vec<&'a [u8]>, AllocError>
    ensures { IfOk result (λ v. map (λ t. t.now) v.items ≡ faults.symbols_of (seen.statement_of statement.now)) }
{
    let mut out = Vec::new(alloc);
    push_statement(&mut out, statement)?;
    Ok(out)
}

/// The symbols of a declaration.
pub fn declared_symbols<'a>(
    alloc: Global,
    declaration: &Declaration<'a>,
) -> Result<Vec<&'a [u8]>, AllocError>
    ensures { IfOk result (λ v. map (λ t. t.now) v.items ≡ faults.symbols_of (seen.declaration_of declaration.now)) }
{
    let mut out = Vec::new(alloc);
    match declaration {
        Declaration::Message(name, _) => out.push(*name)?,
        Declaration::Attribute(name, _, None) => out.push(*name)?,
        Declaration::Attribute(name, _, Some(values)) => push_named(&mut out, name, values)?,
        Declaration::Derived(name, _) => out.push(*name)?,
        Declaration::Begin(heading) => out.push(heading.name)?,
    }
    Ok(out)
}

/// Numbers symbols, as far as the table has room.
pub fn intern_all(symbols: &mut Symbols, texts: &[&[u8]]) -> Result<(), SymRefused>
    requires { AllByRecursion (λ t. is_symbol t ≡ true) (map (λ t. t.now) texts.now) }
    ensures ok { OnOk result (symbols.new.texts ≡ with_texts symbols.old.texts (map (λ t. t.now) texts.now)) }
    ensures limit { symbols.new.limit ≡ symbols.old.limit }
    ensures grows { Grows (map (λ t. t.now) texts.now) symbols.old.texts symbols.new.texts }
    ensures refused { IfErr result (λ e. IsOverfull e symbols.old.limit (with_texts symbols.old.texts (map (λ t. t.now) texts.now))) }
{
    for t in texts {
        match symbols.intern(t) {
            Ok(_) => {}
            Err(e) => return Err(e),
        }
    }
    Ok(())
}
