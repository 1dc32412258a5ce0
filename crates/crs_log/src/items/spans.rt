ghost use Rattle.std.specs.Prelude.{◌≡◌, ◌++◌, [], ◌∷◌, length, OnOk, OnErr};

use super::Span;
use crate::putting::put;
use smallvec::SmallVec;
use std::alloc::{AllocError, Global};
use std::marker::Model;

/// Spans in order. Up to eight are held in place, and take no memory.
#[derive(Drop)]
pub struct Spans {
    items: SmallVec<Span, 8>,
}

impl Model for Spans {
    ghost use Rattle.std.specs.Prelude.{List};
    ghost use Rattle.crs_log.specs.declared.items.Span.{Span as Place};

    ghost Value = { List Place };

    ghost view = { λ s. s.items.items };
}

impl Spans {
    /// No spans.
    pub fn new(alloc: Global) -> Spans
        ensures { result ≡ [] }
    {
        Spans {
            items: SmallVec::new(alloc),
        }
    }

    /// Drops all spans. The list is made anew, since to empty a `SmallVec` writes over each of its places.
    #[inline(always)]
    pub fn clear(&mut self)
        ensures { self.new ≡ [] }
    {
        if !self.items.is_empty() {
            self.items = SmallVec::new(*self.items.allocator());
        }
    }

    /// Adds a span at the end. After a refusal the spans are as they were.
    #[inline(always)]
    pub fn push(&mut self, span: Span) -> Result<(), AllocError>
        ensures ok { OnOk result (self.new ≡ self.old ++ span ∷ []) }
        ensures err { OnErr result (self.new ≡ self.old) }
    {
        put(&mut self.items, span)
    }

    /// How many spans there are.
    pub fn len(&self) -> usize
        ensures { result ≡ length self.now }
    {
        self.items.len()
    }

    /// The spans in order.
    pub fn as_slice(&self) -> &[Span]
        ensures { result.now ≡ self.now }
    {
        self.items.as_slice()
    }
}
