ghost use Rattle.std.specs.Prelude.{◌≡◌, ◌⊎◌, Some, IfOk, IfErr};
ghost use Rattle.csv.specs.Reading.{error_kind};
ghost use Rattle.csv.specs.Records.{fields_of};
ghost use Rattle.crs_import.specs.TableReading.{IsReading, Took, Differs};
ghost use Rattle.crs_import.specs.Lengths.{is_lengths};
ghost use Rattle.crs_import.specs.declared.refusals.ImportRefused.TheVariants.{Csv, Memory};

use crate::ImportRefused;
use csv::{ByteRecord, Error, ErrorKind, Reader};

/// Whether the error is a record of another length than those before.
fn is_lengths(error: &Error) -> bool
    ensures { result ≡ is_lengths (error_kind error.now) }
{
    match error.kind() {
        ErrorKind::UnequalLengths { .. } => true,
        _ => false,
    }
}

/// Reads the next record, which has that number. An answer `false` says that there is none.
pub(crate) fn next_record(
    reader: &mut Reader<&[u8]>,
    buffer: &mut ByteRecord,
    row: u64,
) -> Result<bool, ImportRefused>
    requires { IsReading (λ s. Some s.now) reader.old }
    ensures ok { IfOk result (λ found. Took (λ s. Some s.now) reader.old reader.new found (fields_of buffer.new)) }
    ensures err { IfErr result (λ e. (e ≡ Memory) ⊎ ((e ≡ Csv row) × Differs (λ s. Some s.now) reader.old)) }
{
    match reader.read_byte_record(buffer) {
        Ok(found) => Ok(found),
        Err(error) if is_lengths(&error) => Err(ImportRefused::Csv { row }),
        Err(_) => Err(ImportRefused::Memory),
    }
}
