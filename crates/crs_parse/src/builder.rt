//! The state of a reading: what the lines so far declare.
ghost use Rattle.std.specs.Prelude.{◌≡◌, ◌∷◌, [], ◌++◌, ◌&&◌, map, length, option_map, is_some, OnOk, ◌||◌};
ghost use Rattle.std.specs.List.{list_any};
ghost use Rattle.crs_parse.specs.Faults as faults;
ghost use Rattle.crs_parse.specs.SeenReading as see;
ghost use Rattle.crs_grammar.specs.Statements.{Point, Between, Among, Differ, Over, Happens, Emits, Close, Message, Attribute, Derived, Begin};
ghost use Rattle.crs_base.specs.Symbols.{with_text, with_texts};
ghost use Rattle.crs_parse.specs.Adds.{Adds};
ghost use Rattle.crs_parse.specs.declared.builder.Refused.TheVariants.{Memory};
ghost use Rattle.crs_grammar.specs.SeenStatements as seen;

use crs_grammar::{
    Body, Distance, Emission, Event, Heading, Pattern, Shift, Statement, Term, Window,
};
use crs_model::ModelWord;
use crs_model::limits::{
    ARITY_LIMIT, CHRONICLE_LIMIT, COUNT_LIMIT, DIFFERENCE_LIMIT, DISTANCE_LIMIT, EMIT_LIMIT,
    EVENT_LIMIT, LEVEL_LIMIT, NAME_LIMIT, POINT_LIMIT, TICK_LIMIT, VALUE_LIMIT, VARIABLE_LIMIT,
    WINDOW_LIMIT,
};
use std::alloc::{AllocError, AllocFailed, Global};

/// What is declared of a message, of an attribute or of a derived name.
#[derive(Drop)]
pub enum Kind<'a> {
    Message,
    Attribute(Option<Vec<&'a [u8]>>),
    Derived,
}

#[derive(Drop)]
pub struct Name<'a> {
    pub name: &'a [u8],
    pub arity: u64,
    pub kind: Kind<'a>,
}

#[derive(Drop)]
pub struct VariableSet<'a> {
    pub variable: &'a [u8],
    pub values: Vec<&'a [u8]>,
}

/// A chronicle as it is written, so far or whole. The variables are those of its events' patterns, by first occurrence.
#[derive(Drop)]
pub struct Written<'a> {
    pub name: &'a [u8],
    pub prompt: bool,
    pub events: Vec<Event<'a>>,
    pub variables: Vec<&'a [u8]>,
    pub free: Vec<&'a [u8]>,
    pub bounds: Vec<Distance<'a>>,
    pub sets: Vec<VariableSet<'a>>,
    pub differs: Vec<(&'a [u8], &'a [u8])>,
    pub windows: Vec<Window<'a>>,
    pub emits: Vec<Emission<'a>>,
}

/// A closed chronicle, and the line that closed it.
#[derive(Drop)]
pub struct Closed<'a> {
    pub line: u32,
    pub chronicle: Written<'a>,
}

#[derive(Drop)]
pub struct Reading<'a> {
    pub names: Vec<Name<'a>>,
    pub done: Vec<Closed<'a>>,
    pub current: Option<Written<'a>>,
}

fn is_of(texts: &[&[u8]], text: &[u8]) -> bool
    ensures { result ≡ faults.is_of (map (λ t. t.now) texts.now) text.now }
{
    for t in texts {
        if text == *t {
            return true;
        }
    }
    false
}

/// The declaration of a name.
fn name_of<'r, 'a>(names: &'r [Name<'a>], text: &[u8]) -> Option<&'r Name<'a>>
    ensures { option_map (λ n. see.name_of n.now) result ≡ faults.name_of (map see.name_of names.now) text.now }
{
    for n in names {
        if text == n.name {
            return Some(n);
        }
    }
    None
}

fn is_event_point(events: &[Event<'_>], text: &[u8]) -> bool
    ensures { result ≡ faults.is_of (map (λ e. e.point) (map seen.event_of events.now)) text.now }
{
    for e in events {
        if text == e.point {
            return true;
        }
    }
    false
}

fn is_set(sets: &[VariableSet<'_>], text: &[u8]) -> bool
    ensures { result ≡ faults.is_of (map (λ s. s.0) (map see.set_of sets.now)) text.now }
{
    for s in sets {
        if text == s.variable {
            return true;
        }
    }
    false
}

fn is_chronicle(done: &[Closed<'_>], text: &[u8]) -> bool
    ensures { result ≡ faults.is_of (map (λ d. d.1.name) (map see.closed_of done.now)) text.now }
{
    for d in done {
        if text == d.chronicle.name {
            return true;
        }
    }
    false
}

impl<'a> Written<'a> {
    fn has_point(&self, text: &[u8]) -> bool
        ensures { result ≡ faults.is_point (see.written_of self.now) text.now }
    {
        is_event_point(&self.events, text) || is_of(&self.free, text)
    }

    pub fn begin(alloc: Global, heading: Heading<'a>) -> Written<'a>
        ensures { see.written_of result ≡ faults.begun (seen.heading_of heading.entry) }
    {
        Written {
            name: heading.name,
            prompt: heading.prompt,
            events: Vec::new(alloc),
            variables: Vec::new(alloc),
            free: Vec::new(alloc),
            bounds: Vec::new(alloc),
            sets: Vec::new(alloc),
            differs: Vec::new(alloc),
            windows: Vec::new(alloc),
            emits: Vec::new(alloc),
        }
    }
}

/// Whether the term is a symbol outside the declared list.
fn is_outside(kind: &Kind<'_>, term: &Term<'_>) -> bool
    ensures { result ≡ faults.is_outside (see.kind_of kind.now) (seen.term_of term.now) }
{
    match (kind, term) {
        (Kind::Attribute(Some(values)), Term::Value(s)) => !is_of(values, s),
        _ => false,
    }
}

/// Whether a change, or none, suits a message or an attribute.
fn suits(kind: &Kind<'_>, change: &Option<(Term<'_>, Term<'_>)>) -> bool
    ensures { result ≡ faults.suits (see.kind_of kind.now) (seen.change_of change.now) }
{
    match (kind, change) {
        (Kind::Message | Kind::Derived, None) => true,
        (Kind::Attribute(_), Some(_)) => true,
        _ => false,
    }
}

/// The first of the words `name`, `arity` and `value` that applies to a pattern.
fn pattern_fault(names: &[Name<'_>], pattern: &Pattern<'_>) -> Option<ModelWord>
    ensures { result ≡ faults.pattern_fault (map see.name_of names.now) (seen.pattern_of pattern.now) }
{
    let Some(name) = name_of(names, pattern.name) else {
        return Some(ModelWord::Name);
    };
    if pattern.terms.len() as u64 != name.arity || !suits(&name.kind, &pattern.change) {
        return Some(ModelWord::Arity);
    }
    match &pattern.change {
        Some((_, new)) if is_outside(&name.kind, new) => Some(ModelWord::Value),
        _ => None,
    }
}

/// The first of the same words that applies to a `hold`.
fn hold_fault(
    names: &[Name<'_>],
    name: &[u8],
    terms: &[Term<'_>],
    value: &Term<'_>,
) -> Option<ModelWord>
    ensures { result ≡ faults.hold_fault (map see.name_of names.now) name.now (map seen.term_of terms.now) (seen.term_of value.now) }
{
    let Some(declared) = name_of(names, name) else {
        return Some(ModelWord::Name);
    };
    let Kind::Attribute(_) = &declared.kind else {
        return Some(ModelWord::Name);
    };
    if terms.len() as u64 != declared.arity {
        return Some(ModelWord::Arity);
    }
    if is_outside(&declared.kind, value) {
        return Some(ModelWord::Value);
    }
    None
}

fn body_fault(names: &[Name<'_>], body: &Body<'_>) -> Option<ModelWord>
    ensures { result ≡ faults.body_fault (map see.name_of names.now) (seen.body_of body.now) }
{
    match body {
        Body::NoEvent(pattern) => pattern_fault(names, pattern),
        Body::Occurs(_, _, pattern) => pattern_fault(names, pattern),
        Body::Hold(name, terms, value) => hold_fault(names, name, terms, value),
    }
}

fn is_any(term: &Term<'_>) -> bool
    ensures { result ≡ faults.is_any (seen.term_of term.now) }
{
    matches!(term, Term::Any)
}

fn has_any_term(terms: &[Term<'_>]) -> bool
    ensures { result ≡ list_any faults.is_any (map seen.term_of terms.now) }
{
    for t in terms {
        if is_any(t) {
            return true;
        }
    }
    false
}

/// Whether a `hold` has a `*`.
fn has_any(body: &Body<'_>) -> bool
    ensures { result ≡ faults.body_has_any (seen.body_of body.now) }
{
    match body {
        Body::Hold(_, terms, value) => has_any_term(terms) || is_any(value),
        _ => false,
    }
}

fn shift_size(shift: Shift) -> u64
    ensures { result ≡ faults.shift_size (seen.shift_of shift) }
{
    match shift {
        Shift::Here => 0,
        Shift::Later(n) => n,
        Shift::Earlier(n) => n,
    }
}

fn is_far(end: Option<i128>) -> bool
    ensures { result ≡ faults.is_far end }
{
    match end {
        Some(z) => 1 << 40 < z || z < -(1 << 40),
        None => false,
    }
}

fn are_crossed(low: Option<i128>, high: Option<i128>) -> bool
    ensures { result ≡ faults.are_crossed low high }
{
    match (low, high) {
        (Some(l), Some(h)) => h < l,
        _ => false,
    }
}

/// Whether an `occurs` has a number above 2^32 - 1, or the first above the second.
fn has_wrong_counts(body: &Body<'_>) -> bool
    ensures { result ≡ faults.has_wrong_counts (seen.body_of body.now) }
{
    match body {
        Body::Occurs(least, Some(most), _) => {
            COUNT_LIMIT < *least || COUNT_LIMIT < *most || *most < *least
        }
        Body::Occurs(least, None, _) => COUNT_LIMIT < *least,
        _ => false,
    }
}

/// Why a statement isn't added.
#[derive(Debug, Drop)]
pub enum Refused {
    Word(ModelWord),
    Memory,
}

impl From<AllocError> for Refused {
    ghost from_gives = { λ _ e. e ≡ Memory };

    fn from(_e: AllocError) -> Refused {
        Refused::Memory
    }
}

impl<T: Drop> From<AllocFailed<T>> for Refused {
    ghost from_gives = { λ _ e. e ≡ Memory };

    fn from(_e: AllocFailed<T>) -> Refused {
        Refused::Memory
    }
}

impl<'a> Written<'a> {
    fn add_point(&mut self, name: &'a [u8]) -> Result<(), Refused>
        ensures { Adds result (faults.own_fault [] [] (see.written_of self.old) (Point name.now)) (see.written_of self.new) (faults.with_statement (see.written_of self.old) (Point name.now)) }
    {
        if self.has_point(name) {
            return Err(Refused::Word(ModelWord::Twice));
        }
        if POINT_LIMIT <= self.events.len() + self.free.len() {
            return Err(Refused::Word(ModelWord::Limit));
        }
        self.free.push(name)?;
        Ok(())
    }

    fn add_bound(&mut self, distance: Distance<'a>) -> Result<(), Refused>
        ensures { Adds result (faults.own_fault [] [] (see.written_of self.old) (Between (seen.distance_of distance.entry))) (see.written_of self.new) (faults.with_statement (see.written_of self.old) (Between (seen.distance_of distance.entry))) }
    {
        if !(self.has_point(distance.to) && self.has_point(distance.from)) {
            return Err(Refused::Word(ModelWord::Point));
        }
        if is_far(distance.low)
            || is_far(distance.high)
            || are_crossed(distance.low, distance.high)
        {
            return Err(Refused::Word(ModelWord::Bound));
        }
        if DISTANCE_LIMIT <= self.bounds.len() {
            return Err(Refused::Word(ModelWord::Limit));
        }
        self.bounds.push(distance)?;
        Ok(())
    }

    fn add_set(&mut self, set: VariableSet<'a>) -> Result<(), Refused>
        ensures { Adds result (faults.own_fault [] [] (see.written_of self.old) (Among (see.set_of set.entry).0 (see.set_of set.entry).1)) (see.written_of self.new) (faults.with_statement (see.written_of self.old) (Among (see.set_of set.entry).0 (see.set_of set.entry).1)) }
    {
        if is_set(&self.sets, set.variable) {
            return Err(Refused::Word(ModelWord::Twice));
        }
        if !is_of(&self.variables, set.variable) {
            return Err(Refused::Word(ModelWord::Variable));
        }
        if VALUE_LIMIT < set.values.len() {
            return Err(Refused::Word(ModelWord::Limit));
        }
        self.sets.push(set)?;
        Ok(())
    }

    fn add_differ(&mut self, left: &'a [u8], right: &'a [u8]) -> Result<(), Refused>
        ensures { Adds result (faults.own_fault [] [] (see.written_of self.old) (Differ left.now right.now)) (see.written_of self.new) (faults.with_statement (see.written_of self.old) (Differ left.now right.now)) }
    {
        if !(is_of(&self.variables, left) && is_of(&self.variables, right)) {
            return Err(Refused::Word(ModelWord::Variable));
        }
        if DIFFERENCE_LIMIT <= self.differs.len() {
            return Err(Refused::Word(ModelWord::Limit));
        }
        self.differs.push((left, right))?;
        Ok(())
    }

    #[tactic(auto, using(crate::proofs::Sizes::length_seen))]
    fn add_window(&mut self, names: &[Name<'a>], window: Window<'a>) -> Result<(), Refused>
        ensures { Adds result (faults.own_fault (map see.name_of names.now) [] (see.written_of self.old) (Over (seen.window_of window.entry))) (see.written_of self.new) (faults.with_statement (see.written_of self.old) (Over (seen.window_of window.entry))) }
    {
        if let Some(word) = body_fault(names, &window.body) {
            return Err(Refused::Word(word));
        }
        if let Some(word) = range_fault(self, &window) {
            return Err(Refused::Word(word));
        }
        self.windows.push(window)?;
        Ok(())
    }
}

impl<'a> Written<'a> {
    fn add_emit(&mut self, names: &[Name<'a>], emission: Emission<'a>) -> Result<(), Refused>
        ensures { Adds result (faults.own_fault (map see.name_of names.now) [] (see.written_of self.old) (Emits (seen.emission_of emission.entry))) (see.written_of self.new) (faults.with_statement (see.written_of self.old) (Emits (seen.emission_of emission.entry))) }
    {
        if let Some(word) = emit_name_fault(names, &emission.pattern) {
            return Err(Refused::Word(word));
        }
        if let Some(word) = emit_fault(self, &emission) {
            return Err(Refused::Word(word));
        }
        self.emits.push(emission)?;
        Ok(())
    }
}

/// Whether an anchor names no event's point.
fn lacks_anchor(c: &Written<'_>, window: &Window<'_>) -> bool
    ensures { result ≡ faults.has_no_point (see.written_of c.now) (Over (seen.window_of window.now)) }
{
    !(is_event_point(&c.events, window.from.point) && is_event_point(&c.events, window.to.point))
}

/// The first of the words `name` and `arity` that applies to what an `emit` gives.
fn emit_name_fault(names: &[Name<'_>], pattern: &Pattern<'_>) -> Option<ModelWord>
    ensures { result ≡ faults.emit_name_fault (map see.name_of names.now) (seen.pattern_of pattern.now) }
{
    let Some(name) = name_of(names, pattern.name) else {
        return Some(ModelWord::Name);
    };
    let Kind::Derived = &name.kind else {
        return Some(ModelWord::Name);
    };
    if pattern.terms.len() as u64 != name.arity || !suits(&name.kind, &pattern.change) {
        return Some(ModelWord::Arity);
    }
    None
}

/// The first of the words from `point` on that applies to an `emit`.
#[tactic(auto, using(crate::proofs::Sizes::length_seen))]
fn emit_fault(c: &Written<'_>, emission: &Emission<'_>) -> Option<ModelWord>
    ensures { result ≡ faults.emit_fault (see.written_of c.now) (seen.emission_of emission.now) }
{
    if !is_event_point(&c.events, emission.point) {
        return Some(ModelWord::Point);
    }
    if has_any_term(&emission.pattern.terms) {
        return Some(ModelWord::Window);
    }
    if EMIT_LIMIT <= c.emits.len() {
        return Some(ModelWord::Limit);
    }
    None
}

/// Whether an offset or a count is out of its bounds.
fn is_out_of_bounds(window: &Window<'_>) -> bool
    ensures { result ≡ faults.is_out_of_bounds (Over (seen.window_of window.now)) }
{
    TICK_LIMIT < shift_size(window.from.shift)
        || TICK_LIMIT < shift_size(window.to.shift)
        || has_wrong_counts(&window.body)
}

/// The first of the words from `point` on that applies to a window.
#[tactic(auto, using(crate::proofs::Sizes::length_seen))]
fn range_fault(c: &Written<'_>, window: &Window<'_>) -> Option<ModelWord>
    ensures { result ≡ faults.range_fault (see.written_of c.now) (seen.window_of window.now) }
{
    if lacks_anchor(c, window) {
        return Some(ModelWord::Point);
    }
    if is_out_of_bounds(window) {
        return Some(ModelWord::Bound);
    }
    if has_any(&window.body) {
        return Some(ModelWord::Window);
    }
    if WINDOW_LIMIT <= c.windows.len() {
        return Some(ModelWord::Limit);
    }
    None
}

/// Adds a text that isn't there.
fn push_new<'a>(texts: &mut Vec<&'a [u8]>, text: &'a [u8]) -> Result<(), AllocError>
    ensures { OnOk result (map (λ t. t.now) texts.new.items ≡ with_text (map (λ t. t.now) texts.old.items) text.now) }
{
    if !is_of(texts, text) {
        texts.push(text)?;
    }
    Ok(())
}

fn add_variable<'a>(variables: &mut Vec<&'a [u8]>, term: &Term<'a>) -> Result<(), AllocError>
    ensures { OnOk result (map (λ t. t.now) variables.new.items ≡ with_texts (map (λ t. t.now) variables.old.items) (faults.variable_in (seen.term_of term.now))) }
{
    if let Term::Variable(name) = term {
        push_new(variables, name)?;
    }
    Ok(())
}

fn add_variables<'a>(variables: &mut Vec<&'a [u8]>, terms: &[Term<'a>]) -> Result<(), AllocError>
    ensures { OnOk result (map (λ t. t.now) variables.new.items ≡ with_texts (map (λ t. t.now) variables.old.items) (faults.variables_in (map seen.term_of terms.now))) }
{
    for t in terms {
        add_variable(variables, t)?;
    }
    Ok(())
}

fn add_change_variables<'a>(
    variables: &mut Vec<&'a [u8]>,
    change: &Option<(Term<'a>, Term<'a>)>,
) -> Result<(), AllocError>
    ensures { OnOk result (map (λ t. t.now) variables.new.items ≡ with_texts (map (λ t. t.now) variables.old.items) (faults.variables_in (faults.change_terms (seen.change_of change.now)))) }
{
    if let Some((old, new)) = change {
        add_variable(variables, old)?;
        add_variable(variables, new)?;
    }
    Ok(())
}

#[tactic(auto, using(crate::proofs::Texts::with_texts_append))]
fn add_pattern_variables<'a>(
    variables: &mut Vec<&'a [u8]>,
    pattern: &Pattern<'a>,
) -> Result<(), AllocError>
    ensures { OnOk result (map (λ t. t.now) variables.new.items ≡ with_texts (map (λ t. t.now) variables.old.items) (faults.variables_of (seen.pattern_of pattern.now))) }
{
    add_variables(variables, &pattern.terms)?;
    add_change_variables(variables, &pattern.change)
}

fn lacks(variables: &[&[u8]], term: &Term<'_>) -> bool
    ensures { result ≡ faults.lacks (map (λ t. t.now) variables.now) (seen.term_of term.now) }
{
    match term {
        Term::Variable(name) => !is_of(variables, name),
        _ => false,
    }
}

fn terms_lack(variables: &[&[u8]], terms: &[Term<'_>]) -> bool
    ensures { result ≡ list_any (faults.lacks (map (λ t. t.now) variables.now)) (map seen.term_of terms.now) }
{
    for t in terms {
        if lacks(variables, t) {
            return true;
        }
    }
    false
}

fn change_lacks(variables: &[&[u8]], change: &Option<(Term<'_>, Term<'_>)>) -> bool
    ensures { result ≡ faults.change_lacks (map (λ t. t.now) variables.now) (seen.change_of change.now) }
{
    match change {
        Some((old, new)) => lacks(variables, old) || lacks(variables, new),
        None => false,
    }
}

fn pattern_lacks(variables: &[&[u8]], pattern: &Pattern<'_>) -> bool
    ensures { result ≡ faults.pattern_lacks (map (λ t. t.now) variables.now) (seen.pattern_of pattern.now) }
{
    terms_lack(variables, &pattern.terms) || change_lacks(variables, &pattern.change)
}

fn body_lacks(variables: &[&[u8]], body: &Body<'_>) -> bool
    ensures { result ≡ faults.body_lacks (map (λ t. t.now) variables.now) (seen.body_of body.now) }
{
    match body {
        Body::NoEvent(pattern) => pattern_lacks(variables, pattern),
        Body::Occurs(_, _, pattern) => pattern_lacks(variables, pattern),
        Body::Hold(_, terms, value) => terms_lack(variables, terms) || lacks(variables, value),
    }
}

fn windows_lack(variables: &[&[u8]], windows: &[Window<'_>]) -> bool
    ensures { result ≡ list_any (λ w. faults.body_lacks (map (λ t. t.now) variables.now) w.body) (map seen.window_of windows.now) }
{
    for w in windows {
        if body_lacks(variables, &w.body) {
            return true;
        }
    }
    false
}

fn emits_lack(variables: &[&[u8]], emits: &[Emission<'_>]) -> bool
    ensures { result ≡ list_any (λ e. faults.pattern_lacks (map (λ t. t.now) variables.now) e.pattern) (map seen.emission_of emits.now) }
{
    for e in emits {
        if pattern_lacks(variables, &e.pattern) {
            return true;
        }
    }
    false
}

fn is_above(limit: u64, level: Option<u64>) -> bool
    ensures { result ≡ faults.is_above limit level }
{
    match level {
        Some(n) => limit < n,
        None => false,
    }
}

impl<'a> Written<'a> {
    #[tactic(auto, using(crate::proofs::Sizes::length_seen))]
    fn lacks_events(&self) -> bool
        ensures { result ≡ faults.lacks_events (see.written_of self.now) Close }
    {
        self.events.is_empty()
    }

    /// Whether a variable of a window or of an `emit` stands in no event's pattern.
    fn lacks_variables(&self) -> bool
        ensures { result ≡ faults.is_unbound (see.written_of self.now) Close }
    {
        windows_lack(&self.variables, &self.windows) || emits_lack(&self.variables, &self.emits)
    }

    /// The first of the words `events` and `unbound` that applies.
    pub fn closing_fault(&self) -> Option<ModelWord>
        ensures { result ≡ faults.own_fault [] [] (see.written_of self.now) Close }
    {
        if self.lacks_events() {
            return Some(ModelWord::Events);
        }
        if self.lacks_variables() {
            return Some(ModelWord::Unbound);
        }
        None
    }

    /// Whether an event with this level, whose variables are here, would pass a limit.
    #[tactic(auto, using(crate::proofs::Sizes::length_seen))]
    fn is_full(&self, level: Option<u64>) -> bool
        ensures { result ≡ faults.is_full (see.written_of self.now) level }
    {
        EVENT_LIMIT <= self.events.len()
            || POINT_LIMIT <= self.events.len() + self.free.len()
            || is_above(LEVEL_LIMIT, level)
            || VARIABLE_LIMIT < self.variables.len()
    }

    #[tactic(auto, using(crate::proofs::Sizes::length_seen))]
    fn add_event(&mut self, names: &[Name<'a>], event: Event<'a>) -> Result<(), Refused>
        ensures { Adds result (faults.own_fault (map see.name_of names.now) [] (see.written_of self.old) (Happens (seen.event_of event.entry))) (see.written_of self.new) (faults.with_statement (see.written_of self.old) (Happens (seen.event_of event.entry))) }
    {
        if self.has_point(event.point) {
            return Err(Refused::Word(ModelWord::Twice));
        }
        if let Some(word) = pattern_fault(names, &event.pattern) {
            return Err(Refused::Word(word));
        }
        add_pattern_variables(&mut self.variables, &event.pattern)?;
        if self.is_full(event.level) {
            return Err(Refused::Word(ModelWord::Limit));
        }
        self.events.push(event)?;
        Ok(())
    }
}

/// Declares a message.
pub fn add_message<'a>(names: &mut Vec<Name<'a>>, name: &'a [u8], arity: u64) -> Result<(), Refused>
    ensures { Adds result (faults.own_fault (map see.name_of names.old.items) [] (faults.begun faults.nameless) (Message name.now arity)) (map see.name_of names.new.items) (map see.name_of names.old.items ++ faults.message_named name.now arity ∷ []) }
{
    if name_of(names, name).is_some() {
        return Err(Refused::Word(ModelWord::Twice));
    }
    if NAME_LIMIT <= names.len() || ARITY_LIMIT < arity {
        return Err(Refused::Word(ModelWord::Limit));
    }
    names.push(Name {
        name,
        arity,
        kind: Kind::Message,
    })?;
    Ok(())
}

/// Declares a derived name.
pub fn add_derived<'a>(names: &mut Vec<Name<'a>>, name: &'a [u8], arity: u64) -> Result<(), Refused>
    ensures { Adds result (faults.own_fault (map see.name_of names.old.items) [] (faults.begun faults.nameless) (Derived name.now arity)) (map see.name_of names.new.items) (map see.name_of names.old.items ++ faults.derived_named name.now arity ∷ []) }
{
    if name_of(names, name).is_some() {
        return Err(Refused::Word(ModelWord::Twice));
    }
    if NAME_LIMIT <= names.len() || ARITY_LIMIT < arity {
        return Err(Refused::Word(ModelWord::Limit));
    }
    names.push(Name {
        name,
        arity,
        kind: Kind::Derived,
    })?;
    Ok(())
}

fn is_long(values: &Option<Vec<&[u8]>>) -> bool
    ensures { result ≡ faults.is_above VALUE_LIMIT (option_map length (see.values_of values.now)) }
{
    match values {
        Some(values) => VALUE_LIMIT < values.len(),
        None => false,
    }
}

/// Declares an attribute.
pub fn add_attribute<'a>(
    names: &mut Vec<Name<'a>>,
    name: &'a [u8],
    arity: u64,
    values: Option<Vec<&'a [u8]>>,
) -> Result<(), Refused>
    ensures { Adds result (faults.own_fault (map see.name_of names.old.items) [] (faults.begun faults.nameless) (Attribute name.now arity (see.values_of values.entry))) (map see.name_of names.new.items) (map see.name_of names.old.items ++ faults.attribute_named name.now arity (see.values_of values.entry) ∷ []) }
{
    if name_of(names, name).is_some() {
        return Err(Refused::Word(ModelWord::Twice));
    }
    if NAME_LIMIT <= names.len() || ARITY_LIMIT < arity || is_long(&values) {
        return Err(Refused::Word(ModelWord::Limit));
    }
    names.push(Name {
        name,
        arity,
        kind: Kind::Attribute(values),
    })?;
    Ok(())
}

/// The first word that applies to the begin of a chronicle.
#[tactic(auto, using(crate::proofs::Sizes::length_seen))]
pub fn begin_fault(done: &[Closed<'_>], heading: Heading<'_>) -> Option<ModelWord>
    ensures { result ≡ faults.own_fault [] (map see.closed_of done.now) (faults.begun faults.nameless) (Begin (seen.heading_of heading.entry)) }
{
    if is_chronicle(done, heading.name) {
        return Some(ModelWord::Twice);
    }
    if CHRONICLE_LIMIT <= done.len() {
        return Some(ModelWord::Limit);
    }
    None
}

impl<'a> Written<'a> {
    /// Adds a statement. At the closing one nothing is added.
    pub fn add(&mut self, names: &[Name<'a>], statement: Statement<'a>) -> Result<(), Refused>
        ensures { Adds result (faults.own_fault (map see.name_of names.now) [] (see.written_of self.old) (seen.statement_of statement.entry)) (see.written_of self.new) (faults.with_statement (see.written_of self.old) (seen.statement_of statement.entry)) }
    {
        match statement {
            Statement::Happens(event) => self.add_event(names, event),
            Statement::Point(name) => self.add_point(name),
            Statement::Between(distance) => self.add_bound(distance),
            Statement::Among(variable, values) => self.add_set(VariableSet { variable, values }),
            Statement::Differ(left, right) => self.add_differ(left, right),
            Statement::Over(window) => self.add_window(names, window),
            Statement::Emits(emission) => self.add_emit(names, emission),
            Statement::Close => match self.closing_fault() {
                Some(word) => Err(Refused::Word(word)),
                None => Ok(()),
            },
        }
    }
}

fn is_emitted(emits: &[Emission<'_>], name: &[u8]) -> bool
    ensures { result ≡ faults.is_of (map (λ e. e.pattern.name) (map seen.emission_of emits.now)) name.now }
{
    for e in emits {
        if name == e.pattern.name {
            return true;
        }
    }
    false
}

fn is_event_name(events: &[Event<'_>], name: &[u8]) -> bool
    ensures { result ≡ faults.is_of (map (λ e. e.pattern.name) (map seen.event_of events.now)) name.now }
{
    for e in events {
        if name == e.pattern.name {
            return true;
        }
    }
    false
}

/// Whether the pattern of a window names it.
fn is_wanted(body: &Body<'_>, name: &[u8]) -> bool
    ensures { result ≡ faults.is_of (faults.body_names (seen.body_of body.now)) name.now }
{
    match body {
        Body::NoEvent(pattern) => name == pattern.name,
        Body::Occurs(_, _, pattern) => name == pattern.name,
        Body::Hold(_, _, _) => false,
    }
}

fn is_window_name(windows: &[Window<'_>], name: &[u8]) -> bool
    ensures { result ≡ list_any (λ w. faults.is_of (faults.body_names w.body) name.now) (map seen.window_of windows.now) }
{
    for w in windows {
        if is_wanted(&w.body, name) {
            return true;
        }
    }
    false
}

/// Whether a pattern of an event or a window names it.
fn uses(c: &Written<'_>, name: &[u8]) -> bool
    ensures { result ≡ faults.uses (see.written_of c.now) name.now }
{
    is_event_name(&c.events, name) || is_window_name(&c.windows, name)
}

fn is_used_above(done: &[Closed<'_>], name: &[u8]) -> bool
    ensures { result ≡ list_any (λ d. faults.uses d.1 name.now) (map see.closed_of done.now) }
{
    for d in done {
        if uses(&d.chronicle, name) {
            return true;
        }
    }
    false
}

/// Whether the pattern of a window names what the chronicle emits.
fn wants_emitted(emits: &[Emission<'_>], body: &Body<'_>) -> bool
    ensures { result ≡ list_any (faults.is_of (map (λ e. e.pattern.name) (map seen.emission_of emits.now))) (faults.body_names (seen.body_of body.now)) }
{
    match body {
        Body::NoEvent(pattern) => is_emitted(emits, pattern.name),
        Body::Occurs(_, _, pattern) => is_emitted(emits, pattern.name),
        Body::Hold(_, _, _) => false,
    }
}

/// Whether behind this statement the open chronicle emits a name that it, or one above it, uses.
pub fn is_looped(done: &[Closed<'_>], c: &Written<'_>, statement: &Statement<'_>) -> bool
    ensures { result ≡ faults.is_looped (map see.closed_of done.now) (see.written_of c.now) (seen.statement_of statement.now) }
{
    match statement {
        Statement::Happens(event) => is_emitted(&c.emits, event.pattern.name),
        Statement::Over(window) => wants_emitted(&c.emits, &window.body),
        Statement::Emits(emission) => {
            uses(c, emission.pattern.name) || is_used_above(done, emission.pattern.name)
        }
        _ => false,
    }
}
