mod events;
mod numbers;
pub mod parts;
mod read;
mod spans;
mod walk;

pub use read::{read_item, read_other};
pub use spans::Spans;
use std::alloc::Global;
use thiserror::Error;
pub use walk::read_event;

/// A symbol's place in its line, in bytes from 0.
#[derive(Clone, Copy, Debug, Default, Drop, PartialEq, Eq)]
pub struct Span {
    pub start: u16,
    pub len: u8,
}

/// An event line, by the places of its symbols.
#[derive(Drop)]
pub struct Raw {
    /// In ticks of the log's clock, from 0 to 2^40 - 1.
    pub date: u64,
    pub name: Span,
    pub args: Spans,
    /// The old and the new value, where there is a change.
    pub change: Option<(Span, Span)>,
}

impl Raw {
    /// Room for the parts of an event line.
    pub fn new(alloc: Global) -> Raw {
        Raw {
            date: 0,
            name: Span::default(),
            args: Spans::new(alloc),
            change: None,
        }
    }
}

/// What a line of a log says. Numbers are ticks of the log's clock, from 0 to 2^40 - 1.
#[derive(Drop)]
pub enum Item {
    /// The line is blank or a comment, and says nothing.
    Blank,
    Delay(u64),
    Clock(u64),
    /// The statement `end`.
    Finish,
    Event(Raw),
}

/// Why a line has no item.
#[derive(Clone, Copy, Debug, PartialEq, Eq, Drop, Error)]
pub enum ItemRefused {
    /// It has no form of a log statement.
    #[error("Form")]
    Form,
    /// Memory ran out.
    #[error("Memory")]
    Memory,
}
