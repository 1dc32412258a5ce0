ghost use Rattle.std.specs.Prelude.{◌≡◌, ◌+◌, ◌%◌, ◌++◌, ◌<◌, ◌≤◌, ◌^◌, OnOk};
ghost use Rattle.crs_drill.specs.Drill.{State, next, first_state, grown, drawn, stage_of, staged, kind_of, behind_kind, line_of, behind_line, clock_text};

use crate::writing::push_entry;
use crs_base::{push_bytes, push_number};
use std::alloc::AllocError;
use std::marker::Model;

/// What the next line is drawn from: the number drawn last, the base date and the stage of each unit.
/// A caller can make draws of its own with it, and compare them with those of other programs: the
/// numbers are those of the generator `minstd_rand` of C++.
#[derive(Drop)]
pub struct Drill {
    x: u32,
    base: u64,
    stages: [u32; 64],
}

impl Model for Drill {
    ghost use Rattle.std.specs.Prelude.{◌<◌};
    ghost use Rattle.crs_drill.specs.Drill.{State};

    ghost Value = { State };

    ghost view = { λ d. record { x = d.x; base = d.base; stages = d.stages } };

    ghost invariant = { λ d. d.x < 2147483647 };
}

impl Drill {
    /// The start: the seed counts as the number drawn last, the base date and all stages are 0.
    pub fn new(seed: u32) -> Drill
        requires { seed < 2147483647 }
        ensures { result ≡ first_state seed }
    {
        Drill {
            x: seed,
            base: 0,
            stages: [0; 64],
        }
    }

    /// A draw of `m`: the next number, which is below 2147483647, modulo `m`.
    #[tactic(auto, unfolding(crate::specs::Drill::next))]
    pub fn draw(&mut self, m: u32) -> u32
        requires { 0 < m }
        ensures value { result ≡ next self.old.x % m }
        ensures below { result < m }
        ensures state { self.new ≡ drawn self.old }
    {
        self.x = (self.x as u64 * 48271 % 2147483647) as u32;
        self.x % m
    }

    /// The base date grows by a draw of 3.
    fn grow(&mut self)
        requires { self.old.base < 2 ^ 40 }
        ensures state { self.new ≡ grown self.old }
        ensures bounded { self.new.base ≤ self.old.base + 2 }
    {
        let step = self.draw(3);
        self.base += step as u64;
    }

    /// The unit's stage, which moves on.
    fn pass_stage(&mut self, unit: u32) -> u32
        requires { unit < 64 }
        ensures value { result ≡ stage_of unit self.old }
        ensures state { self.new ≡ staged unit self.old }
    {
        let stage = self.stages[unit as usize];
        self.stages[unit as usize] = ((stage as u64 + 1) % 8) as u32;
        stage
    }

    /// The kind of the unit's next line.
    fn kind(&mut self, unit: u32) -> u32
        requires { unit < 64 }
        ensures value { result ≡ kind_of unit (drawn self.old) }
        ensures state { self.new ≡ behind_kind unit (drawn self.old) }
        ensures base { self.new.base ≡ self.old.base }
    {
        if self.draw(4) == 0 {
            self.draw(8)
        } else {
            self.pass_stage(unit)
        }
    }

    /// Writes the next line.
    pub(crate) fn push_line(&mut self, out: &mut Vec<u8>) -> Result<(), AllocError>
        requires { self.old.base < 2 ^ 40 }
        ensures text { OnOk result (out.new.items ≡ out.old.items ++ line_of (grown self.old)) }
        ensures state { self.new ≡ behind_line (grown self.old) }
        ensures bounded { self.new.base ≤ self.old.base + 2 }
    {
        self.grow();
        let date = self.base.saturating_sub(self.draw(8) as u64);
        let unit = self.draw(64);
        let kind = self.kind(unit);
        push_entry(out, date, kind, unit)
    }

    /// Writes a clock mark at the base date behind each line whose number is a multiple of 16.
    pub(crate) fn push_clock(&self, out: &mut Vec<u8>, number: u32) -> Result<(), AllocError>
        ensures { OnOk result (out.new.items ≡ out.old.items ++ clock_text number self.now) }
    {
        if number % 16 != 0 {
            return Ok(());
        }
        push_bytes(out, b"clock ")?;
        push_number(out, self.base)?;
        push_bytes(out, b"\n")
    }
}
