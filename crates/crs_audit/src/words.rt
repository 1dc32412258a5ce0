// What is wrong with a claim, and the lines of an audit.
ghost use Rattle.std.specs.Prelude.{◌≡◌, IfOk};
ghost use Rattle.crs_audit.specs.ClaimLines.{word_text, fault_line, ok_line};

use crs_base::{Text, push_bytes, push_number};
use std::alloc::{AllocError, Global};
use thiserror::Error;

/// What is wrong with a claim, in the order in which it is tried.
#[derive(Clone, Copy, Debug, PartialEq, Eq)]
pub enum AuditWord {
    Form,
    Chronicle,
    Mark,
    Entry,
    Fit,
    Bounds,
    Window,
    Text,
    Twice,
}

/// Why an output isn't accepted: its first faulty line, counted from 1; or memory is wanting.
#[derive(Clone, Copy, Debug, PartialEq, Eq, Drop, Error)]
pub enum AuditRefused {
    #[error("At")]
    At { line: u64, word: AuditWord },
    #[error("Memory")]
    Memory,
}

impl From<AllocError> for AuditRefused {
    ghost use Rattle.std.specs.Prelude.{◌≡◌};
    ghost use Rattle.crs_audit.specs.declared.words.AuditRefused.TheVariants.{Memory};

    ghost from_gives = { λ _ e. e ≡ Memory };

    fn from(_error: AllocError) -> AuditRefused {
        AuditRefused::Memory
    }
}

fn word_text(word: AuditWord) -> &'static [u8]
    ensures { result.now ≡ word_text word }
{
    match word {
        AuditWord::Form => b"form",
        AuditWord::Chronicle => b"chronicle",
        AuditWord::Mark => b"mark",
        AuditWord::Entry => b"entry",
        AuditWord::Fit => b"fit",
        AuditWord::Bounds => b"bounds",
        AuditWord::Window => b"window",
        AuditWord::Text => b"text",
        AuditWord::Twice => b"twice",
    }
}

/// The line of the first faulty claim.
pub fn audit_line(alloc: Global, line: u64, word: AuditWord) -> Result<Text, AllocError>
    ensures { IfOk result (λ text. text ≡ fault_line line word) }
{
    let mut out = Vec::new(alloc);
    push_bytes(&mut out, b"audit line ")?;
    push_number(&mut out, line)?;
    push_bytes(&mut out, b" ")?;
    push_bytes(&mut out, word_text(word))?;
    push_bytes(&mut out, b"\n")?;
    Ok(Text::from_vec(out))
}

/// The line of an output without a faulty claim.
pub fn audit_ok_line(alloc: Global, claims: u64) -> Result<Text, AllocError>
    ensures { IfOk result (λ text. text ≡ ok_line claims) }
{
    let mut out = Vec::new(alloc);
    push_bytes(&mut out, b"audit ok ")?;
    push_number(&mut out, claims)?;
    push_bytes(&mut out, b"\n")?;
    Ok(Text::from_vec(out))
}
