// What is written for the lines of a log.
ghost use Rattle.std.specs.Prelude.{◌≡◌, OnOk, flat_map};
ghost use Rattle.crs_report.specs.OutputLines.{refusal_line};
ghost use Rattle.crs_frames.specs.TableTexts.{ArePrintable, line_in};
ghost use Rattle.crs_session.specs.Written.{unwritten, with_text, with_answer};

use crs_base::{List, Symbols};
use crs_frames::push_lines;
use crs_model::{Plans, Recognition};
use crs_report::{Fault, push_refusal_line};
use std::alloc::{AllocError, Global};
use std::marker::Model;

/// The text of lines, and the recognitions whose lines stand in it.
#[derive(Drop)]
pub struct Output {
    text: Vec<u8>,
    found: List<Recognition>,
}

impl Model for Output {
    ghost use Rattle.crs_session.specs.Written.{Written};

    ghost Value = { Written };

    ghost view = { λ o. record { text = o.text.items; found = o.found } };
}

impl Output {
    pub fn new(alloc: Global) -> Output
        ensures { result ≡ unwritten }
    {
        Output {
            text: Vec::new(alloc),
            found: List::new(alloc),
        }
    }

    /// Writes the refusal of a line.
    pub fn push_refusal(&mut self, number: u64, fault: Fault) -> Result<(), AllocError>
        ensures { OnOk result (self.new ≡ with_text self.old (refusal_line number fault)) }
    {
        push_refusal_line(&mut self.text, number, fault)
    }

    /// Writes the lines of recognitions, in order, in which their entries are cited or not.
    pub fn push_answer(
        &mut self,
        plans: &Plans,
        symbols: &Symbols,
        answer: List<Recognition>,
        cite: bool,
    ) -> Result<(), AllocError>
        requires { ArePrintable plans.now symbols.now.texts answer }
        ensures { OnOk result (self.new ≡ with_answer self.old (flat_map (line_in cite plans.now symbols.now.texts) answer) answer) }
    {
        push_lines(&mut self.text, plans, symbols, answer.as_slice(), cite)?;
        self.found.append(answer)
    }

    /// The recognitions whose lines stand in the text.
    pub fn found(&self) -> &[Recognition]
        ensures { result.now ≡ self.now.found }
    {
        self.found.as_slice()
    }

    /// The text alone.
    pub fn into_text(self) -> Vec<u8>
        ensures { result.items ≡ self.text }
    {
        let Output { text, .. } = self;
        text
    }
}
