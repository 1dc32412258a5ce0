//! Statements of model texts, as they are written. Texts are borrowed from the model text.
ghost use Rattle.std.specs.Prelude.{◌≡◌};
ghost use Rattle.crs_grammar.specs.declared.statements.Unread.TheVariants.{Memory};

use std::alloc::{AllocError, AllocFailed};

#[derive(Clone, Copy)]
pub enum Term<'a> {
    Value(&'a [u8]),
    Variable(&'a [u8]),
    Any,
}

#[derive(Drop)]
pub struct Pattern<'a> {
    pub name: &'a [u8],
    pub terms: Vec<Term<'a>>,
    pub change: Option<(Term<'a>, Term<'a>)>,
}

#[derive(Drop)]
pub struct Event<'a> {
    pub pattern: Pattern<'a>,
    pub point: &'a [u8],
    pub level: Option<u64>,
}

/// `+ NUM`, `- NUM`, or neither.
#[derive(Clone, Copy)]
pub enum Shift {
    Here,
    Later(u64),
    Earlier(u64),
}

#[derive(Clone, Copy)]
pub struct Anchor<'a> {
    pub point: &'a [u8],
    pub shift: Shift,
}

/// What a window wants.
#[derive(Drop)]
pub enum Body<'a> {
    NoEvent(Pattern<'a>),
    /// No greatest count is `inf`.
    Occurs(u64, Option<u64>, Pattern<'a>),
    Hold(&'a [u8], Vec<Term<'a>>, Term<'a>),
}

#[derive(Drop)]
pub struct Window<'a> {
    pub body: Body<'a>,
    pub from: Anchor<'a>,
    pub to: Anchor<'a>,
}

/// `to - from in [low, high]`, where `None` is infinite.
#[derive(Clone, Copy)]
pub struct Distance<'a> {
    pub to: &'a [u8],
    pub from: &'a [u8],
    pub low: Option<i128>,
    pub high: Option<i128>,
}

/// The name of a chronicle, and whether it is prompt.
#[derive(Clone, Copy)]
pub struct Heading<'a> {
    pub prompt: bool,
    pub name: &'a [u8],
}

/// What each recognition gives: an entry of the pattern, dated as the event of the point.
#[derive(Drop)]
pub struct Emission<'a> {
    pub pattern: Pattern<'a>,
    pub point: &'a [u8],
}

/// A statement outside all chronicles.
#[derive(Drop)]
pub enum Declaration<'a> {
    Message(&'a [u8], u64),
    Attribute(&'a [u8], u64, Option<Vec<&'a [u8]>>),
    Derived(&'a [u8], u64),
    Begin(Heading<'a>),
}

/// A statement inside a chronicle.
#[derive(Drop)]
pub enum Statement<'a> {
    Happens(Event<'a>),
    Point(&'a [u8]),
    Between(Distance<'a>),
    Among(&'a [u8], Vec<&'a [u8]>),
    Differ(&'a [u8], &'a [u8]),
    Over(Window<'a>),
    Emits(Emission<'a>),
    Close,
}

/// Why tokens could not be read.
#[derive(Debug, Drop)]
pub enum Unread {
    Form,
    Memory,
}

impl From<AllocError> for Unread {
    ghost from_gives = { λ _ e. e ≡ Memory };

    fn from(_e: AllocError) -> Unread {
        Unread::Memory
    }
}

impl<T: Drop> From<AllocFailed<T>> for Unread {
    ghost from_gives = { λ _ e. e ≡ Memory };

    fn from(_e: AllocFailed<T>) -> Unread {
        Unread::Memory
    }
}
