ghost use Rattle.std.specs.Prelude.{◌≡◌, ◌++◌, IfOk, OnOk};
ghost use Rattle.crs_import.specs.TableRefusals.{word_text, record_line, refusal_line};
ghost use Rattle.crs_import.specs.declared.refusals.ImportRefused.TheVariants.{Memory};

use crs_base::{Text, push_bytes, push_number};
use std::alloc::{AllocError, Global};
use thiserror::Error;

/// What is wrong with a record.
#[derive(Clone, Copy, Debug, PartialEq, Eq, Drop, Error)]
pub enum RowWord {
    /// The first record is missing or isn't the six names.
    #[error("Header")]
    Header,
    /// The first field is no kind of line.
    #[error("What")]
    What,
    /// A date is wanted.
    #[error("Date")]
    Date,
    /// A symbol is wanted for the name.
    #[error("Name")]
    Name,
    /// The arguments are no list of 1 to 8 symbols.
    #[error("Args")]
    Args,
    /// A symbol is wanted for the old and the new value.
    #[error("Change")]
    Change,
    /// A field that must be empty isn't.
    #[error("Extra")]
    Extra,
    /// The table has too many bytes.
    #[error("Size")]
    Size,
}

/// Why a table was refused. Records are counted from 1, and 0 is the table as a whole.
#[derive(Clone, Copy, Debug, PartialEq, Eq, Drop, Error)]
pub enum ImportRefused {
    /// The record's count of fields isn't six.
    #[error("Csv")]
    Csv { row: u64 },
    /// The record has a fault of this word.
    #[error("Row")]
    Row { row: u64, word: RowWord },
    /// Memory ran out.
    #[error("Memory")]
    Memory,
}

impl From<AllocError> for ImportRefused {
    ghost from_gives = { λ _ e. e ≡ Memory };

    fn from(_: AllocError) -> Self {
        ImportRefused::Memory
    }
}

/// The word of what is wrong with a record.
fn word_text(word: RowWord) -> &'static [u8]
    ensures { result.now ≡ word_text word }
{
    match word {
        RowWord::Header => b"header",
        RowWord::What => b"what",
        RowWord::Date => b"date",
        RowWord::Name => b"name",
        RowWord::Args => b"args",
        RowWord::Change => b"change",
        RowWord::Extra => b"extra",
        RowWord::Size => b"size",
    }
}

/// The line of a refused record.
fn record_line(alloc: Global, row: u64, word: &[u8]) -> Result<Text, AllocError>
    ensures { IfOk result (λ text. text ≡ record_line row word.now) }
{
    let mut out = Vec::new(alloc);
    push_bytes(&mut out, b"table record ")?;
    push_number(&mut out, row)?;
    push_bytes(&mut out, b" ")?;
    push_bytes(&mut out, word)?;
    push_bytes(&mut out, b"\n")?;
    Ok(Text::from_vec(out))
}

/// The line of a refused table. There is none for want of memory.
pub fn refusal_line(alloc: Global, refused: ImportRefused) -> Result<Text, AllocError>
    ensures { IfOk result (λ text. text ≡ refusal_line refused) }
{
    match refused {
        ImportRefused::Csv { row } => record_line(alloc, row, b"fields"),
        ImportRefused::Row { row, word } => record_line(alloc, row, word_text(word)),
        ImportRefused::Memory => Err(AllocError),
    }
}
