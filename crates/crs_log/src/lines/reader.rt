ghost use Rattle.std.specs.Prelude.{◌≡◌, ◌<◌, ◌≤◌, ◌+◌, ◌-◌, ◌^◌, ◌++◌, [], length, OnOk, OnErr, IfOk, true, false, option_map, List, ℕ, ⊤, max};
ghost use Rattle.std.specs.Borrow.{sem};
ghost use mathlib.Core.Option.{none};
ghost use denote.Follow.{follows_so};
ghost use Rattle.crs_log.specs.Reading.{Reader, Given, ahead, Moves, part_of};
ghost use Rattle.crs_log.specs.Given.{seen};
ghost use Rattle.crs_log.specs.contracts.lines.reader.Lines.{the_row};

use crate::lines::given::Line;
use crate::lines::parts::{add, drop_front, line_of, whole_len};
use std::alloc::{AllocError, Global};
use std::marker::Model;

/// Cuts a text that comes in pieces into its lines.
#[derive(Drop)]
pub struct Lines {
    limit: usize,
    /// Bytes of which those before `from` were given, and no line feed stands at or behind `tail`.
    held: Vec<u8>,
    from: usize,
    tail: usize,
    number: u64,
    fed: u64,
    finished: bool,
}

impl Model for Lines {
    ghost use Rattle.std.specs.Prelude.{drop, length, ◌≤◌, ◌<◌, ◌+◌, ◌-◌, ◌^◌};
    ghost use Rattle.crs_log.specs.Reading.{Reader, IsTail};

    ghost Value = { Reader };

    ghost view = { λ l. record { limit = l.limit; number = l.number; rest = drop l.from l.held.items; finished = l.finished; fed = l.fed } };

    ghost invariant = { λ l. IsTail l.from l.held.items l.tail × (l.number + (length l.held.items - l.from) ≤ l.fed) };
}

impl Lines {
    /// Lines of at most `limit` bytes before the line feed, a carriage return included, are given
    /// whole.
    pub fn new(alloc: Global, limit: usize) -> Result<Lines, AllocError>
        ensures { IfOk result (λ l. l ≡ record { limit = limit; number = 0; rest = []; finished = false; fed = 0 }) }
    {
        Ok(Lines {
            limit,
            held: Vec::new(alloc),
            from: 0,
            tail: 0,
            number: 0,
            fed: 0,
            finished: false,
        })
    }

    /// Forgets the bytes that were given, once they are more than those that weren't.
    fn compact(&mut self)
        ensures { self.new ≡ self.old }
    {
        if self.held.len() - self.from < self.from {
            drop_front(&mut self.held, self.from);
            self.tail -= self.from;
            self.from = 0;
        }
    }

    /// Takes the next piece of the input, which may end anywhere. After a refusal the lines are as
    /// they were.
    pub fn feed(&mut self, piece: &[u8]) -> Result<(), AllocError>
        requires open { self.old.finished ≡ false }
        requires room { self.old.fed + length piece.now < 2 ^ 64 }
        ensures ahead { OnOk result ((more : List ℕ) → ahead self.new more ≡ ahead self.old (piece.now ++ more)) }
        ensures kept { OnOk result (self.new ≡ record self.old { rest = self.new.rest; fed = self.old.fed + length piece.now }) }
        ensures held { OnOk result (length (part_of self.new.rest) ≤ max (length (part_of self.old.rest)) (self.old.limit + length piece.now)) }
        ensures err { OnErr result (self.new ≡ self.old) }
    {
        self.compact();
        self.tail = add(&mut self.held, self.tail, self.limit, piece)?;
        self.fed += piece.len() as u64;
        Ok(())
    }

    /// Ends the input: a rest that isn't empty is then a line.
    pub fn finish(&mut self)
        ensures { self.new ≡ record self.old { finished = true } }
    {
        self.finished = true;
    }

    /// The next line, or None exactly where no whole line is held.
    pub fn next_line(&mut self) -> Option<Line<'_>>
        ensures* { sem 𝓛 (follows_so the_row the_row self.entry.ghost_name none (λ _ _. ⊤) (λ new. Moves self.old (option_map seen result) new)) }
    {
        let start = self.from;
        if start < self.tail {
            let len = whole_len(self.held.as_slice(), start, self.tail);
            self.from = start + len + 1;
            self.number += 1;
            let (_, rest) = self.held.as_slice().split_at(start);
            let (raw, _) = rest.split_at(len);
            return Some(line_of(self.limit, self.number, raw, true));
        }
        if !self.finished || start >= self.held.len() {
            return None;
        }
        self.from = self.held.len();
        self.tail = self.from;
        self.number += 1;
        let (_, raw) = self.held.as_slice().split_at(start);
        Some(line_of(self.limit, self.number, raw, false))
    }
}
