ghost use Rattle.std.specs.Prelude.{◌<◌, map};
ghost use Rattle.crs_grammar.specs.Gives.{Gives};
ghost use Rattle.crs_grammar.specs.TokenReading.{symbol_at, number_at, mark_at, whole, term_at, closed_at, terms_on, values_on, arguments_at, pair_at, change_at, pattern_at, shift_at, anchor_at, span_of, level_of, event_of, emit_of, noevent_of, most_at, occurs_of, hold_of, keyword_at, end_at, distance_of, values_of, differ_of, of_variable, variable_of, called_of, point_of, worded_of, inside_of, attribute_of, prompt_of, named_of, outside_of, statement_of};
ghost use Rattle.crs_grammar.specs.GrammarTokens.{seen};
ghost use Rattle.crs_grammar.specs.SeenStatements as see;
ghost use Rattle.crs_grammar.specs.Statements as said;

use crate::statements::{
    Anchor, Body, Declaration, Distance, Emission, Event, Heading, Pattern, Shift, Statement, Term,
    Unread, Window,
};
use crate::words::Token;
use crs_base::{integer, is_symbol, number};
use std::alloc::Global;

fn symbol<'t, 'a>(tokens: &'t [Token<'a>]) -> Result<(&'a [u8], &'t [Token<'a>]), Unread>
    ensures { Gives (λ x. (x.0.now, seen x.1.now)) result (symbol_at (seen tokens.now)) }
{
    match tokens {
        [Token::Word(word), rest @ ..] if is_symbol(word) => Ok((*word, rest)),
        _ => Err(Unread::Form),
    }
}

fn count<'t, 'a>(tokens: &'t [Token<'a>]) -> Result<(u64, &'t [Token<'a>]), Unread>
    ensures { Gives (λ x. (x.0, seen x.1.now)) result (number_at (seen tokens.now)) }
{
    match tokens {
        [Token::Word(word), rest @ ..] => match number(word) {
            Some(n) => Ok((n, rest)),
            None => Err(Unread::Form),
        },
        _ => Err(Unread::Form),
    }
}

fn mark<'t, 'a>(tokens: &'t [Token<'a>], wanted: u8) -> Result<&'t [Token<'a>], Unread>
    ensures { Gives (λ x. seen x.now) result (mark_at wanted (seen tokens.now)) }
{
    match tokens {
        [Token::Mark(m), rest @ ..] if *m == wanted => Ok(rest),
        _ => Err(Unread::Form),
    }
}

#[tactic(auto, unfolding(crate::specs::TokenReading::term_at))]
fn term<'t, 'a>(tokens: &'t [Token<'a>]) -> Result<(Term<'a>, &'t [Token<'a>]), Unread>
    ensures { Gives (λ x. (see.term_of x.0, seen x.1.now)) result (term_at (seen tokens.now)) }
{
    match tokens {
        [Token::Word(word), rest @ ..] if is_symbol(word) => Ok((Term::Value(*word), rest)),
        [Token::Mark(b'*'), rest @ ..] => Ok((Term::Any, rest)),
        [Token::Mark(b'?'), rest @ ..] => {
            let (name, rest) = symbol(rest)?;
            Ok((Term::Variable(name), rest))
        }
        _ => Err(Unread::Form),
    }
}

/// Whether a list is closed by this bracket, or else goes on behind a comma, and the tokens behind that mark.
fn closed<'t, 'a>(tokens: &'t [Token<'a>], bracket: u8) -> Result<(bool, &'t [Token<'a>]), Unread>
    ensures { Gives (λ x. (x.0, seen x.1.now)) result (closed_at bracket (seen tokens.now)) }
{
    match tokens {
        [Token::Mark(m), rest @ ..] if *m == bracket => Ok((true, rest)),
        [Token::Mark(b','), rest @ ..] => Ok((false, rest)),
        _ => Err(Unread::Form),
    }
}

/// Adds at most `most` terms parted by commas, up to a `]`.
#[tactic(auto, unfolding(crate::specs::TokenReading::terms_on))]
fn push_terms<'t, 'a>(
    terms: &mut Vec<Term<'a>>,
    most: usize,
    tokens: &'t [Token<'a>],
) -> Result<&'t [Token<'a>], Unread>
    ensures { Gives (λ rest. (map see.term_of terms.new.items, seen rest.now)) result (terms_on most (map see.term_of terms.old.items) (seen tokens.now)) }
{
    if most == 0 {
        return Err(Unread::Form);
    }
    let (term, rest) = term(tokens)?;
    let (is_closed, rest) = closed(rest, b']')?;
    terms.push(term)?;
    if is_closed {
        return Ok(rest);
    }
    push_terms(terms, most - 1, rest)
}

/// Adds at most `most` symbols parted by commas, up to a `)`.
#[tactic(auto, unfolding(crate::specs::TokenReading::values_on))]
fn push_values<'t, 'a>(
    values: &mut Vec<&'a [u8]>,
    most: usize,
    tokens: &'t [Token<'a>],
) -> Result<&'t [Token<'a>], Unread>
    ensures { Gives (λ rest. (map (λ v. v.now) values.new.items, seen rest.now)) result (values_on most (map (λ v. v.now) values.old.items) (seen tokens.now)) }
{
    if most == 0 {
        return Err(Unread::Form);
    }
    let (value, rest) = symbol(tokens)?;
    let (is_closed, rest) = closed(rest, b')')?;
    values.push(value)?;
    if is_closed {
        return Ok(rest);
    }
    push_values(values, most - 1, rest)
}

#[tactic(auto, unfolding(crate::specs::TokenReading::arguments_at))]
fn arguments<'t, 'a>(
    alloc: Global,
    tokens: &'t [Token<'a>],
) -> Result<(Vec<Term<'a>>, &'t [Token<'a>]), Unread>
    ensures { Gives (λ x. (map see.term_of x.0.items, seen x.1.now)) result (arguments_at (seen tokens.now)) }
{
    match tokens {
        [Token::Mark(b'['), inner @ ..] => {
            let mut terms = Vec::new(alloc);
            let rest = push_terms(&mut terms, inner.len(), inner)?;
            Ok((terms, rest))
        }
        _ => Ok((Vec::new(alloc), tokens)),
    }
}

#[tactic(auto, unfolding(crate::specs::TokenReading::pair_at))]
fn pair<'t, 'a>(tokens: &'t [Token<'a>]) -> Result<((Term<'a>, Term<'a>), &'t [Token<'a>]), Unread>
    ensures { Gives (λ x. ((see.term_of x.0.0, see.term_of x.0.1), seen x.1.now)) result (pair_at (seen tokens.now)) }
{
    let (old, rest) = term(tokens)?;
    let rest = mark(rest, b',')?;
    let (new, rest) = term(rest)?;
    let rest = mark(rest, b')')?;
    Ok(((old, new), rest))
}

#[tactic(auto, unfolding(crate::specs::TokenReading::change_at))]
fn change<'t, 'a>(
    tokens: &'t [Token<'a>],
) -> Result<(Option<(Term<'a>, Term<'a>)>, &'t [Token<'a>]), Unread>
    ensures { Gives (λ x. (see.change_of x.0, seen x.1.now)) result (change_at (seen tokens.now)) }
{
    match tokens {
        [Token::Mark(b':'), rest @ ..] => {
            let rest = mark(rest, b'(')?;
            let (change, rest) = pair(rest)?;
            Ok((Some(change), rest))
        }
        _ => Ok((None, tokens)),
    }
}

#[tactic(auto, unfolding(crate::specs::TokenReading::pattern_at))]
fn pattern<'t, 'a>(
    alloc: Global,
    tokens: &'t [Token<'a>],
) -> Result<(Pattern<'a>, &'t [Token<'a>]), Unread>
    ensures { Gives (λ x. (see.pattern_of x.0, seen x.1.now)) result (pattern_at (seen tokens.now)) }
{
    let (name, rest) = symbol(tokens)?;
    let (terms, rest) = arguments(alloc, rest)?;
    let (change, rest) = change(rest)?;
    Ok((
        Pattern {
            name,
            terms,
            change,
        },
        rest,
    ))
}

#[tactic(auto, unfolding(crate::specs::TokenReading::shift_at))]
fn shift<'t, 'a>(tokens: &'t [Token<'a>]) -> Result<(Shift, &'t [Token<'a>]), Unread>
    ensures { Gives (λ x. (see.shift_of x.0, seen x.1.now)) result (shift_at (seen tokens.now)) }
{
    match tokens {
        [Token::Mark(b'+'), rest @ ..] => {
            let (n, rest) = count(rest)?;
            Ok((Shift::Later(n), rest))
        }
        [Token::Word(word), rest @ ..] if *word == b"-".as_slice() => {
            let (n, rest) = count(rest)?;
            Ok((Shift::Earlier(n), rest))
        }
        _ => Ok((Shift::Here, tokens)),
    }
}

#[tactic(auto, unfolding(crate::specs::TokenReading::anchor_at))]
fn anchor<'t, 'a>(tokens: &'t [Token<'a>]) -> Result<(Anchor<'a>, &'t [Token<'a>]), Unread>
    ensures { Gives (λ x. (see.anchor_of x.0, seen x.1.now)) result (anchor_at (seen tokens.now)) }
{
    let (point, rest) = symbol(tokens)?;
    let (shift, rest) = shift(rest)?;
    Ok((Anchor { point, shift }, rest))
}

/// Nothing stands behind a statement.
fn whole<'a>(statement: Statement<'a>, rest: &[Token<'a>]) -> Result<Statement<'a>, Unread>
    ensures { Gives see.statement_of result (whole (see.statement_of statement.entry) (seen rest.now)) }
{
    match rest {
        [] => Ok(statement),
        _ => Err(Unread::Form),
    }
}

/// A window's range, and the end of the statement.
#[tactic(auto, unfolding(crate::specs::TokenReading::span_of))]
fn range<'a>(tokens: &[Token<'a>]) -> Result<(Anchor<'a>, Anchor<'a>), Unread>
    ensures { (body : said.Body) → Gives (λ x. said.Over (record { body = body; from = see.anchor_of x.0; to = see.anchor_of x.1 })) result (span_of body (seen tokens.now)) }
{
    let rest = mark(tokens, b',')?;
    let rest = mark(rest, b'(')?;
    let (from, rest) = anchor(rest)?;
    let rest = mark(rest, b',')?;
    let (to, rest) = anchor(rest)?;
    let rest = mark(rest, b')')?;
    let rest = mark(rest, b')')?;
    match rest {
        [] => Ok((from, to)),
        _ => Err(Unread::Form),
    }
}

/// A window over a range, and the end of the statement.
fn window<'a>(body: Body<'a>, tokens: &[Token<'a>]) -> Result<Statement<'a>, Unread>
    ensures { Gives see.statement_of result (span_of (see.body_of body.entry) (seen tokens.now)) }
{
    let (from, to) = range(tokens)?;
    Ok(Statement::Over(Window { body, from, to }))
}

#[tactic(auto, unfolding(crate::specs::TokenReading::level_of))]
fn level(tokens: &[Token<'_>]) -> Result<Option<u64>, Unread>
    ensures { Gives (λ x. x) result (level_of (seen tokens.now)) }
{
    match tokens {
        [] => Ok(None),
        [Token::Word(keyword), Token::Word(word)] if *keyword == b"level".as_slice() => {
            match number(word) {
                Some(n) => Ok(Some(n)),
                None => Err(Unread::Form),
            }
        }
        _ => Err(Unread::Form),
    }
}

#[tactic(auto, unfolding(crate::specs::TokenReading::event_of))]
fn event<'a>(alloc: Global, tokens: &[Token<'a>]) -> Result<Statement<'a>, Unread>
    ensures { Gives see.statement_of result (event_of (seen tokens.now)) }
{
    let (pattern, rest) = pattern(alloc, tokens)?;
    let rest = mark(rest, b',')?;
    let (point, rest) = symbol(rest)?;
    let rest = mark(rest, b')')?;
    let level = level(rest)?;
    Ok(Statement::Happens(Event {
        pattern,
        point,
        level,
    }))
}

#[tactic(auto, unfolding(crate::specs::TokenReading::emit_of))]
fn emit<'a>(alloc: Global, tokens: &[Token<'a>]) -> Result<Statement<'a>, Unread>
    ensures { Gives see.statement_of result (emit_of (seen tokens.now)) }
{
    let (pattern, rest) = pattern(alloc, tokens)?;
    let rest = mark(rest, b',')?;
    let (point, rest) = symbol(rest)?;
    let rest = mark(rest, b')')?;
    whole(Statement::Emits(Emission { pattern, point }), rest)
}

#[tactic(auto, unfolding(crate::specs::TokenReading::noevent_of))]
fn noevent<'a>(alloc: Global, tokens: &[Token<'a>]) -> Result<Statement<'a>, Unread>
    ensures { Gives see.statement_of result (noevent_of (seen tokens.now)) }
{
    let (pattern, rest) = pattern(alloc, tokens)?;
    window(Body::NoEvent(pattern), rest)
}

/// A number, or `inf`.
#[tactic(auto, unfolding(crate::specs::TokenReading::most_at))]
fn most<'t, 'a>(tokens: &'t [Token<'a>]) -> Result<(Option<u64>, &'t [Token<'a>]), Unread>
    ensures { Gives (λ x. (x.0, seen x.1.now)) result (most_at (seen tokens.now)) }
{
    match tokens {
        [Token::Word(word), rest @ ..] if *word == b"inf".as_slice() => Ok((None, rest)),
        _ => {
            let (n, rest) = count(tokens)?;
            Ok((Some(n), rest))
        }
    }
}

#[tactic(auto, unfolding(crate::specs::TokenReading::occurs_of))]
fn occurs<'a>(alloc: Global, tokens: &[Token<'a>]) -> Result<Statement<'a>, Unread>
    ensures { Gives see.statement_of result (occurs_of (seen tokens.now)) }
{
    let rest = mark(tokens, b'(')?;
    let (least, rest) = count(rest)?;
    let rest = mark(rest, b',')?;
    let (most, rest) = most(rest)?;
    let rest = mark(rest, b')')?;
    let rest = mark(rest, b',')?;
    let (pattern, rest) = pattern(alloc, rest)?;
    window(Body::Occurs(least, most, pattern), rest)
}

#[tactic(auto, unfolding(crate::specs::TokenReading::hold_of))]
fn hold<'a>(alloc: Global, tokens: &[Token<'a>]) -> Result<Statement<'a>, Unread>
    ensures { Gives see.statement_of result (hold_of (seen tokens.now)) }
{
    let (name, rest) = symbol(tokens)?;
    let (terms, rest) = arguments(alloc, rest)?;
    let rest = mark(rest, b':')?;
    let (value, rest) = term(rest)?;
    window(Body::Hold(name, terms, value), rest)
}

/// A whole number, or the word for none.
#[tactic(auto, unfolding(crate::specs::TokenReading::end_at))]
fn end<'t, 'a>(
    tokens: &'t [Token<'a>],
    infinite: &[u8],
) -> Result<(Option<i128>, &'t [Token<'a>]), Unread>
    ensures { Gives (λ x. (x.0, seen x.1.now)) result (end_at infinite.now (seen tokens.now)) }
{
    match tokens {
        [Token::Word(word), rest @ ..] => {
            if *word == infinite {
                return Ok((None, rest));
            }
            match integer(word) {
                Some(z) => Ok((Some(z), rest)),
                None => Err(Unread::Form),
            }
        }
        _ => Err(Unread::Form),
    }
}

fn keyword<'t, 'a>(tokens: &'t [Token<'a>], wanted: &[u8]) -> Result<&'t [Token<'a>], Unread>
    ensures { Gives (λ x. seen x.now) result (keyword_at wanted.now (seen tokens.now)) }
{
    match tokens {
        [Token::Word(word), rest @ ..] if *word == wanted => Ok(rest),
        _ => Err(Unread::Form),
    }
}

/// The bound statement whose first point stands in front of these tokens.
#[tactic(auto, unfolding(crate::specs::TokenReading::distance_of))]
fn distance<'a>(to: &'a [u8], tokens: &[Token<'a>]) -> Result<Statement<'a>, Unread>
    ensures { Gives see.statement_of result (distance_of to.now (seen tokens.now)) }
{
    if !is_symbol(to) {
        return Err(Unread::Form);
    }
    let rest = keyword(tokens, b"-")?;
    let (from, rest) = symbol(rest)?;
    let rest = keyword(rest, b"in")?;
    let rest = mark(rest, b'[')?;
    let (low, rest) = end(rest, b"-inf")?;
    let rest = mark(rest, b',')?;
    let (high, rest) = end(rest, b"inf")?;
    let rest = mark(rest, b']')?;
    whole(
        Statement::Between(Distance {
            to,
            from,
            low,
            high,
        }),
        rest,
    )
}

/// Values in brackets, and nothing behind them.
#[tactic(auto, unfolding(crate::specs::TokenReading::values_of))]
fn all_values<'a>(alloc: Global, tokens: &[Token<'a>]) -> Result<Vec<&'a [u8]>, Unread>
    ensures { Gives (λ x. map (λ v. v.now) x.items) result (values_of (seen tokens.now)) }
{
    let rest = keyword(tokens, b"in")?;
    let rest = mark(rest, b'(')?;
    let mut values = Vec::new(alloc);
    let rest = push_values(&mut values, rest.len(), rest)?;
    match rest {
        [] => Ok(values),
        _ => Err(Unread::Form),
    }
}

#[tactic(auto, unfolding(crate::specs::TokenReading::differ_of))]
fn differ<'a>(name: &'a [u8], tokens: &[Token<'a>]) -> Result<Statement<'a>, Unread>
    ensures { Gives see.statement_of result (differ_of name.now (seen tokens.now)) }
{
    let rest = mark(tokens, b'?')?;
    let (other, rest) = symbol(rest)?;
    whole(Statement::Differ(name, other), rest)
}

#[tactic(auto, unfolding(crate::specs::TokenReading::of_variable))]
fn of_variable<'a>(
    alloc: Global,
    name: &'a [u8],
    tokens: &[Token<'a>],
) -> Result<Statement<'a>, Unread>
    ensures { Gives see.statement_of result (of_variable name.now (seen tokens.now)) }
{
    match tokens {
        [Token::Mark(b'!'), rest @ ..] => differ(name, rest),
        [Token::Word(_), ..] => {
            let values = all_values(alloc, tokens)?;
            Ok(Statement::Among(name, values))
        }
        _ => Err(Unread::Form),
    }
}

#[tactic(auto, unfolding(crate::specs::TokenReading::variable_of))]
fn variable<'a>(alloc: Global, tokens: &[Token<'a>]) -> Result<Statement<'a>, Unread>
    ensures { Gives see.statement_of result (variable_of (seen tokens.now)) }
{
    let (name, rest) = symbol(tokens)?;
    of_variable(alloc, name, rest)
}

#[tactic(auto, unfolding(crate::specs::TokenReading::called_of))]
fn called<'a>(alloc: Global, name: &[u8], tokens: &[Token<'a>]) -> Result<Statement<'a>, Unread>
    ensures { Gives see.statement_of result (called_of name.now (seen tokens.now)) }
{
    if name == b"event".as_slice() {
        event(alloc, tokens)
    } else if name == b"noevent".as_slice() {
        noevent(alloc, tokens)
    } else if name == b"occurs".as_slice() {
        occurs(alloc, tokens)
    } else if name == b"hold".as_slice() {
        hold(alloc, tokens)
    } else if name == b"emit".as_slice() {
        emit(alloc, tokens)
    } else {
        Err(Unread::Form)
    }
}

/// A free point, or nothing.
#[tactic(auto, unfolding(crate::specs::TokenReading::point_of))]
fn point<'a>(keyword: &[u8], name: &'a [u8]) -> Result<Statement<'a>, Unread>
    ensures { Gives see.statement_of result (point_of keyword.now name.now) }
{
    if keyword == b"point".as_slice() && is_symbol(name) {
        Ok(Statement::Point(name))
    } else {
        Err(Unread::Form)
    }
}

/// A statement inside a chronicle that begins with a word.
#[tactic(auto, unfolding(crate::specs::TokenReading::worded_of))]
fn worded<'a>(alloc: Global, word: &'a [u8], tokens: &[Token<'a>]) -> Result<Statement<'a>, Unread>
    ensures { Gives see.statement_of result (worded_of word.now (seen tokens.now)) }
{
    match tokens {
        [] => Err(Unread::Form),
        [Token::Mark(b'('), rest @ ..] => called(alloc, word, rest),
        [Token::Word(name)] => point(word, name),
        _ => distance(word, tokens),
    }
}

/// A statement inside a chronicle.
#[tactic(auto, unfolding(crate::specs::TokenReading::inside_of))]
pub fn inside<'a>(alloc: Global, tokens: &[Token<'a>]) -> Result<Statement<'a>, Unread>
    ensures { Gives see.statement_of result (inside_of (seen tokens.now)) }
{
    match tokens {
        [Token::Mark(b'}')] => Ok(Statement::Close),
        [Token::Mark(b'?'), rest @ ..] => variable(alloc, rest),
        [Token::Word(word), rest @ ..] => worded(alloc, word, rest),
        _ => Err(Unread::Form),
    }
}

/// Nothing stands behind a declaration.
fn declared<'a>(declaration: Declaration<'a>, rest: &[Token<'a>]) -> Result<Declaration<'a>, Unread>
    ensures { Gives see.declaration_of result (whole (see.declaration_of declaration.entry) (seen rest.now)) }
{
    match rest {
        [] => Ok(declaration),
        _ => Err(Unread::Form),
    }
}

#[tactic(auto, unfolding(crate::specs::TokenReading::attribute_of))]
fn attribute<'a>(
    alloc: Global,
    name: &'a [u8],
    arity: u64,
    tokens: &[Token<'a>],
) -> Result<Declaration<'a>, Unread>
    ensures { Gives see.declaration_of result (attribute_of name.now arity (seen tokens.now)) }
{
    match tokens {
        [] => Ok(Declaration::Attribute(name, arity, None)),
        _ => {
            let values = all_values(alloc, tokens)?;
            Ok(Declaration::Attribute(name, arity, Some(values)))
        }
    }
}

/// A statement outside all chronicles.
#[tactic(auto, unfolding(crate::specs::TokenReading::outside_of))]
pub fn outside<'a>(alloc: Global, tokens: &[Token<'a>]) -> Result<Declaration<'a>, Unread>
    ensures { Gives see.declaration_of result (outside_of (seen tokens.now)) }
{
    match tokens {
        [Token::Word(keyword), rest @ ..] => {
            let (name, rest) = symbol(rest)?;
            named(alloc, keyword, name, rest)
        }
        _ => Err(Unread::Form),
    }
}

/// A chronicle of the name begins, and nothing stands behind.
fn begun<'a>(is_prompt: bool, name: &'a [u8], rest: &[Token<'a>]) -> Result<Declaration<'a>, Unread>
    ensures { Gives see.declaration_of result (whole (said.Begin (record { prompt = is_prompt; name = name.now })) (seen rest.now)) }
{
    declared(
        Declaration::Begin(Heading {
            prompt: is_prompt,
            name,
        }),
        rest,
    )
}

/// The rest of the first line of a prompt chronicle, behind its first word.
#[tactic(auto, unfolding(crate::specs::TokenReading::prompt_of))]
fn prompt<'a>(word: &[u8], tokens: &[Token<'a>]) -> Result<Declaration<'a>, Unread>
    ensures { Gives see.declaration_of result (prompt_of word.now (seen tokens.now)) }
{
    if word != b"chronicle".as_slice() {
        return Err(Unread::Form);
    }
    let (name, rest) = symbol(tokens)?;
    let rest = mark(rest, b'{')?;
    begun(true, name, rest)
}

#[tactic(auto, unfolding(crate::specs::TokenReading::named_of))]
fn named<'a>(
    alloc: Global,
    keyword: &[u8],
    name: &'a [u8],
    tokens: &[Token<'a>],
) -> Result<Declaration<'a>, Unread>
    ensures { Gives see.declaration_of result (named_of keyword.now name.now (seen tokens.now)) }
{
    if keyword == b"chronicle".as_slice() {
        let rest = mark(tokens, b'{')?;
        begun(false, name, rest)
    } else if keyword == b"message".as_slice() {
        let (arity, rest) = count(tokens)?;
        declared(Declaration::Message(name, arity), rest)
    } else if keyword == b"attribute".as_slice() {
        let (arity, rest) = count(tokens)?;
        attribute(alloc, name, arity, rest)
    } else if keyword == b"prompt".as_slice() {
        prompt(name, tokens)
    } else if keyword == b"derived".as_slice() {
        let (arity, rest) = count(tokens)?;
        declared(Declaration::Derived(name, arity), rest)
    } else {
        Err(Unread::Form)
    }
}
