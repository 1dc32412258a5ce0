//! One line of a model text.
ghost use Rattle.std.specs.Prelude.{◌≡◌, ◌<◌, ◌≤◌, Some, [], ◌+◌, ◌^◌, option_map, map, length, true, false, OnOk, IfOk};
ghost use Rattle.std.specs.List.{AllByRecursion};
ghost use Rattle.crs_base.specs.Symbols.{is_symbol, with_texts};
ghost use Rattle.crs_parse.specs.Faults as faults;
ghost use Rattle.crs_parse.specs.ModelSteps as steps;
ghost use Rattle.crs_grammar.specs.Gives.{Gives};
ghost use Rattle.crs_parse.specs.Grows.{Grows, AreAmong, read_symbols, line_symbols, lines_symbols};
ghost use Rattle.crs_parse.specs.Adds.{Adds};
ghost use Rattle.crs_base.specs.Lines.{lines_of};
ghost use Rattle.crs_base.specs.SeenLines.{line_seen};
ghost use Rattle.crs_parse.specs.SeenReading as see;
ghost use Rattle.crs_grammar.specs.SeenStatements as seen;

use crate::builder::{
    Closed, Name, Refused, Written, add_attribute, add_derived, add_message, begin_fault, is_looped,
};
use crate::symbols::{declared_symbols, intern_all, symbols_of};
use crs_base::{RawLine, SymRefused, Symbols, first_line, is_long, line_bytes, passed_over};
use crs_grammar::{Declaration, Heading, Statement, Unread, inside, outside, tokens};
use crs_model::{ModelRefused, ModelWord};
use std::alloc::Global;

/// The statement of a line inside a chronicle.
pub fn read_inside<'a>(alloc: Global, line: &'a [u8]) -> Result<Statement<'a>, Unread>
    requires { length line.now ≤ 4096 }
    ensures { Gives seen.statement_of result (steps.inside_line line.now) }
{
    match tokens(alloc, line)? {
        Some(tokens) => inside(alloc, &tokens),
        None => Err(Unread::Form),
    }
}

/// The statement of a line outside all chronicles.
pub fn read_outside<'a>(alloc: Global, line: &'a [u8]) -> Result<Declaration<'a>, Unread>
    requires { length line.now ≤ 4096 }
    ensures { Gives seen.declaration_of result (steps.outside_line line.now) }
{
    match tokens(alloc, line)? {
        Some(tokens) => outside(alloc, &tokens),
        None => Err(Unread::Form),
    }
}

/// Numbers the symbols of a statement.
fn number_symbols(symbols: &mut Symbols, texts: &[&[u8]]) -> Result<(), Refused>
    requires { AllByRecursion (λ t. is_symbol t ≡ true) (map (λ t. t.now) texts.now) }
    ensures room { OnOk result (steps.passes symbols.old.limit (with_texts symbols.old.texts (map (λ t. t.now) texts.now)) ≡ false) }
    ensures ok { OnOk result (symbols.new.texts ≡ with_texts symbols.old.texts (map (λ t. t.now) texts.now)) }
    ensures limit { symbols.new.limit ≡ symbols.old.limit }
    ensures grows { Grows (map (λ t. t.now) texts.now) symbols.old.texts symbols.new.texts }
    ensures full { steps.IfWord result (λ w. (w ≡ ModelWord.Limit) × (steps.passes symbols.old.limit (with_texts symbols.old.texts (map (λ t. t.now) texts.now)) ≡ true)) }
{
    match intern_all(symbols, texts) {
        Ok(()) => {
            let _ = symbols.len();
            Ok(())
        }
        Err(SymRefused::Values { .. }) => Err(Refused::Word(ModelWord::Limit)),
        Err(SymRefused::Memory) => Err(Refused::Memory),
    }
}

fn closes(statement: &Statement<'_>) -> bool
    ensures { result ≡ steps.is_close (seen.statement_of statement.now) }
{
    matches!(statement, Statement::Close)
}

/// Adds a statement to the open chronicle, and says whether it closes it.
pub fn add_numbered<'a>(
    alloc: Global,
    names: &[Name<'a>],
    done: &[Closed<'a>],
    c: &mut Written<'a>,
    symbols: &mut Symbols,
    statement: Statement<'a>,
) -> Result<bool, Refused>
    requires { AllByRecursion (λ t. is_symbol t ≡ true) (faults.symbols_of (seen.statement_of statement)) }
    ensures limit { symbols.new.limit ≡ symbols.old.limit }
    ensures grows { Grows (faults.symbols_of (seen.statement_of statement.entry)) symbols.old.texts symbols.new.texts }
    ensures step { steps.Meets (λ b. record { chronicle = see.written_of c.new; texts = symbols.new.texts; closes = b }) result
        (steps.step_of symbols.old.limit (map see.name_of names.now) (map see.closed_of done.now) (see.written_of c.old) symbols.old.texts (Some (seen.statement_of statement.entry))) }
{
    let texts = symbols_of(alloc, &statement)?;
    let is_close = closes(&statement);
    let is_looped = is_looped(done, c, &statement);
    c.add(names, statement)?;
    number_symbols(symbols, &texts)?;
    if is_looped {
        return Err(Refused::Word(ModelWord::Emit));
    }
    Ok(is_close)
}

/// Adds the statement of a line to the open chronicle, and says whether it closes it.
pub fn step_inside<'a>(
    alloc: Global,
    names: &[Name<'a>],
    done: &[Closed<'a>],
    c: &mut Written<'a>,
    symbols: &mut Symbols,
    line: &'a [u8],
) -> Result<bool, Refused>
    requires symbols { steps.HasSymbols (steps.inside_line line.now) }
    requires short { length line.now ≤ 4096 }
    ensures limit { symbols.new.limit ≡ symbols.old.limit }
    ensures grows { Grows (read_symbols (steps.inside_line line.now)) symbols.old.texts symbols.new.texts }
    ensures step { steps.Meets (λ b. record { chronicle = see.written_of c.new; texts = symbols.new.texts; closes = b }) result
        (steps.step_of symbols.old.limit (map see.name_of names.now) (map see.closed_of done.now) (see.written_of c.old) symbols.old.texts (steps.inside_line line.now)) }
{
    match read_inside(alloc, line) {
        Ok(statement) => add_numbered(alloc, names, done, c, symbols, statement),
        Err(Unread::Form) => Err(Refused::Word(ModelWord::Form)),
        Err(Unread::Memory) => Err(Refused::Memory),
    }
}

/// One line inside a chronicle.
fn chronicle_line<'a>(
    alloc: Global,
    names: &[Name<'a>],
    done: &[Closed<'a>],
    c: &mut Written<'a>,
    symbols: &mut Symbols,
    line: RawLine<'a>,
) -> Result<bool, Refused>
    ensures limit { symbols.new.limit ≡ symbols.old.limit }
    ensures grows { Grows (line_symbols (line_seen line.entry)) symbols.old.texts symbols.new.texts }
    ensures step { steps.Meets (λ b. record { chronicle = see.written_of c.new; texts = symbols.new.texts; closes = b }) result
        (steps.line_outcome symbols.old.limit (map see.name_of names.now) (map see.closed_of done.now) (see.written_of c.old) symbols.old.texts (line_seen line.entry)) }
{
    if is_long(line) {
        return Err(Refused::Word(ModelWord::Limit));
    }
    let bytes = line_bytes(line);
    if passed_over(bytes) {
        return Ok(false);
    }
    step_inside(alloc, names, done, c, symbols, bytes)
}

/// Reads a chronicle up to the line that closes it, and gives that line's number and the text behind it.
pub fn read_chronicle<'a>(
    alloc: Global,
    names: &[Name<'a>],
    done: &[Closed<'a>],
    c: &mut Written<'a>,
    symbols: &mut Symbols,
    text: &'a [u8],
    line: u32,
) -> Result<(&'a [u8], u32), ModelRefused>
    requires { line + length text.now < 2 ^ 32 }
    ensures limit { symbols.new.limit ≡ symbols.old.limit }
    ensures grows { Grows (lines_symbols (lines_of text.now)) symbols.old.texts symbols.new.texts }
    ensures shorter { IfOk result (λ x. x.1 + length x.0.now < line + length text.now) }
    ensures behind { IfOk result (λ x. length x.0.now ≤ length text.now) }
    ensures rest { IfOk result (λ x. AreAmong (lines_of x.0.now) (lines_of text.now)) }
    ensures closing { steps.Comes (λ x. record { chronicle = see.written_of c.new; texts = symbols.new.texts; line = x.1; rest = lines_of x.0.now }) result
        (steps.until_close symbols.old.limit (map see.name_of names.now) (map see.closed_of done.now) line (see.written_of c.old) symbols.old.texts (lines_of text.now)) }
{
    let mut rest = text;
    let mut number = line;
    while !rest.is_empty() {
        let (raw, more) = first_line(rest);
        match chronicle_line(alloc, names, done, c, symbols, raw) {
            Ok(true) => return Ok((more, number)),
            Ok(false) => {}
            Err(Refused::Word(word)) => return Err(ModelRefused::At { line: number, word }),
            Err(Refused::Memory) => return Err(ModelRefused::Memory),
        }
        rest = more;
        number += 1;
    }
    Err(ModelRefused::At {
        line: number,
        word: ModelWord::Form,
    })
}

/// Declares a name, or gives the heading of the chronicle that begins.
pub fn declare<'a>(
    names: &mut Vec<Name<'a>>,
    done: &[Closed<'a>],
    declaration: Declaration<'a>,
) -> Result<Option<Heading<'a>>, Refused>
    ensures added { Adds result (faults.own_fault (map see.name_of names.old.items) (map see.closed_of done.now) (faults.begun faults.nameless) (seen.declaration_of declaration.entry))
        (map see.name_of names.new.items) (steps.with_name (map see.name_of names.old.items) (seen.declaration_of declaration.entry)) }
    ensures begun { IfOk result (λ b. option_map seen.heading_of b ≡ steps.begins (seen.declaration_of declaration.entry)) }
{
    match declaration {
        Declaration::Message(name, arity) => {
            add_message(names, name, arity)?;
            Ok(None)
        }
        Declaration::Attribute(name, arity, values) => {
            add_attribute(names, name, arity, values)?;
            Ok(None)
        }
        Declaration::Derived(name, arity) => {
            add_derived(names, name, arity)?;
            Ok(None)
        }
        Declaration::Begin(heading) => match begin_fault(done, heading) {
            Some(word) => Err(Refused::Word(word)),
            None => Ok(Some(heading)),
        },
    }
}

/// Declares a name and numbers its symbols, or gives the heading of the chronicle that begins.
pub fn declare_numbered<'a>(
    alloc: Global,
    names: &mut Vec<Name<'a>>,
    done: &[Closed<'a>],
    symbols: &mut Symbols,
    declaration: Declaration<'a>,
) -> Result<Option<Heading<'a>>, Refused>
    requires { AllByRecursion (λ t. is_symbol t ≡ true) (faults.symbols_of (seen.declaration_of declaration)) }
    ensures limit { symbols.new.limit ≡ symbols.old.limit }
    ensures grows { Grows (faults.symbols_of (seen.declaration_of declaration.entry)) symbols.old.texts symbols.new.texts }
    ensures step { steps.Meets (λ b. record { names = map see.name_of names.new.items; texts = symbols.new.texts; begun = option_map seen.heading_of b }) result
        (steps.declaring_of symbols.old.limit (map see.name_of names.old.items) (map see.closed_of done.now) symbols.old.texts (Some (seen.declaration_of declaration.entry))) }
{
    let texts = declared_symbols(alloc, &declaration)?;
    let begun = declare(names, done, declaration)?;
    number_symbols(symbols, &texts)?;
    Ok(begun)
}

/// One line outside all chronicles: a declaration, or the heading of the chronicle that begins.
pub fn outer_line<'a>(
    alloc: Global,
    names: &mut Vec<Name<'a>>,
    done: &[Closed<'a>],
    symbols: &mut Symbols,
    line: RawLine<'a>,
) -> Result<Option<Heading<'a>>, Refused>
    ensures limit { symbols.new.limit ≡ symbols.old.limit }
    ensures grows { Grows (line_symbols (line_seen line.entry)) symbols.old.texts symbols.new.texts }
    ensures step { steps.Meets (λ b. record { names = map see.name_of names.new.items; texts = symbols.new.texts; begun = option_map seen.heading_of b }) result
        (steps.declaring_outcome symbols.old.limit (map see.name_of names.old.items) (map see.closed_of done.now) symbols.old.texts (line_seen line.entry)) }
{
    if is_long(line) {
        return Err(Refused::Word(ModelWord::Limit));
    }
    let bytes = line_bytes(line);
    if passed_over(bytes) {
        return Ok(None);
    }
    match read_outside(alloc, bytes) {
        Ok(declaration) => declare_numbered(alloc, names, done, symbols, declaration),
        Err(Unread::Form) => Err(Refused::Word(ModelWord::Form)),
        Err(Unread::Memory) => Err(Refused::Memory),
    }
}

/// Reads a chronicle that begins here, and gives the text behind it and the number of its first line.
pub fn closed_chronicle<'a>(
    alloc: Global,
    names: &[Name<'a>],
    done: &mut Vec<Closed<'a>>,
    symbols: &mut Symbols,
    heading: Heading<'a>,
    text: &'a [u8],
    line: u32,
) -> Result<(&'a [u8], u32), ModelRefused>
    requires within { steps.passes symbols.old.limit symbols.old.texts ≡ false }
    requires room { line + length text.now + 1 < 2 ^ 32 }
    ensures limit { symbols.new.limit ≡ symbols.old.limit }
    ensures grows { Grows (lines_symbols (lines_of text.now)) symbols.old.texts symbols.new.texts }
    ensures counted { IfOk result (λ x. x.1 + length x.0.now ≤ line + length text.now) }
    ensures behind { IfOk result (λ x. length x.0.now ≤ length text.now) }
    ensures rest { IfOk result (λ x. AreAmong (lines_of x.0.now) (lines_of text.now)) }
    ensures moved { steps.Moves (λ x. faults.after_lines symbols.old.limit x.1 (steps.reading_out (map see.name_of names.now) (map see.closed_of done.new.items) symbols.new.texts) (lines_of x.0.now)) result
        (faults.after_lines symbols.old.limit line (steps.reading_in (map see.name_of names.now) (map see.closed_of done.old.items) (faults.begun (seen.heading_of heading.entry)) symbols.old.texts) (lines_of text.now)) }
{
    let mut c = Written::begin(alloc, heading);
    match read_chronicle(alloc, names, done, &mut c, symbols, text, line) {
        Ok((rest, last)) => match done.push(Closed {
            line: last,
            chronicle: c,
        }) {
            Ok(()) => Ok((rest, last + 1)),
            Err(_) => Err(ModelRefused::Memory),
        },
        Err(e) => Err(e),
    }
}
