ghost use Rattle.std.specs.Prelude.{◌≡◌, ◌⊎◌, ◌++◌, [], get_or, Some, None, Ok, Err, IfOk, IfErr, OnOk};
ghost use Rattle.csv.specs.Reading.{expected_len};
ghost use Rattle.csv.specs.Records.{fields_of, field_at};
ghost use Rattle.crs_import.specs.TableReading.{IsReading, rows_left};
ghost use Rattle.crs_import.specs.SeenTables.{fields_seen};
ghost use Rattle.crs_import.specs.Tables.{fields_at, are_titles, is_header, log_of, headed, table_log};
ghost use Rattle.crs_import.specs.TableSteps.{IsHeaded, PushesRow};
ghost use Rattle.crs_import.specs.declared.refusals.ImportRefused.TheVariants.{Memory};

use crate::reading::next_record;
use crate::rows::{Row, read_row};
use crate::writing::push_statement;
use crate::{ImportRefused, RowWord};
use csv::{ByteRecord, Reader, ReaderBuilder};
use std::alloc::Global;

/// The most bytes of a table.
const SIZE_LIMIT: usize = 67108864;

/// The field of that number, and no bytes past the end.
fn field(buffer: &ByteRecord, i: usize) -> &[u8]
    ensures { result.now ≡ get_or (fields_of buffer.now) i [] }
{
    match buffer.get(i) {
        Some(field) => field,
        None => &[],
    }
}

/// The fields of a record by their names.
fn row_of(buffer: &ByteRecord) -> Row<'_>
    ensures { fields_seen result ≡ fields_at (fields_of buffer.now) }
{
    Row {
        what: field(buffer, 0),
        date: field(buffer, 1),
        name: field(buffer, 2),
        args: field(buffer, 3),
        old: field(buffer, 4),
        new: field(buffer, 5),
    }
}

/// Whether the fields are the names of the fields.
fn are_titles(row: &Row<'_>) -> bool
    ensures { result ≡ are_titles (fields_seen row.now) }
{
    row.what == b"what".as_slice()
        && row.date == b"date".as_slice()
        && row.name == b"name".as_slice()
        && row.args == b"args".as_slice()
        && row.old == b"old".as_slice()
        && row.new == b"new".as_slice()
}

/// Whether the record is the six names.
fn is_header(buffer: &ByteRecord) -> bool
    ensures { result ≡ is_header (fields_of buffer.now) }
{
    buffer.len() == 6 && are_titles(&row_of(buffer))
}

/// Reads the first record, which must be the six names.
fn read_header(reader: &mut Reader<&[u8]>, buffer: &mut ByteRecord) -> Result<(), ImportRefused>
    requires reading { IsReading (λ s. Some s.now) reader.old }
    requires fresh { expected_len reader.old ≡ None }
    ensures ok { OnOk result (IsHeaded (λ s. Some s.now) reader.old reader.new) }
    ensures err { IfErr result (λ e. (e ≡ Memory) ⊎ (headed (rows_left (λ s. Some s.now) reader.old) ≡ Err e)) }
{
    let found = next_record(reader, buffer, 1)?;
    if !found || !is_header(buffer) {
        return Err(ImportRefused::Row {
            row: 1,
            word: RowWord::Header,
        });
    }
    Ok(())
}

/// Writes the line of the next record, which has that number. An answer `false` says that there is none.
fn push_record(
    reader: &mut Reader<&[u8]>,
    buffer: &mut ByteRecord,
    row: u64,
    out: &mut Vec<u8>,
) -> Result<bool, ImportRefused>
    requires reading { IsReading (λ s. Some s.now) reader.old }
    requires six { expected_len reader.old ≡ Some 6 }
    ensures ok { IfOk result (λ more. PushesRow (λ s. Some s.now) reader.old reader.new row out.old.items out.new.items more) }
    ensures err { IfErr result (λ e. (e ≡ Memory) ⊎ (log_of row (rows_left (λ s. Some s.now) reader.old) ≡ Err e)) }
{
    let found = next_record(reader, buffer, row)?;
    if !found {
        return Ok(false);
    }
    let fields = row_of(buffer);
    match read_row(&fields) {
        Ok(line) => {
            push_statement(out, &line)?;
            Ok(true)
        }
        Err(word) => Err(ImportRefused::Row { row, word }),
    }
}

/// The log of all records.
fn read_rows(alloc: Global, reader: &mut Reader<&[u8]>) -> Result<Vec<u8>, ImportRefused>
    requires reading { IsReading (λ s. Some s.now) reader.old }
    requires fresh { expected_len reader.old ≡ None }
    ensures ok { IfOk result (λ log. headed (rows_left (λ s. Some s.now) reader.old) ≡ Ok log.items) }
    ensures err { IfErr result (λ e. (e ≡ Memory) ⊎ (headed (rows_left (λ s. Some s.now) reader.old) ≡ Err e)) }
{
    let mut buffer = ByteRecord::new(alloc);
    read_header(reader, &mut buffer)?;
    let mut out = Vec::new(alloc);
    for row in 2..u64::MAX {
        let more = push_record(reader, &mut buffer, row, &mut out)?;
        if !more {
            return Ok(out);
        }
    }
    Err(ImportRefused::Memory)
}

/// The log of a table, or its first fault.
pub fn import(alloc: Global, table: &[u8]) -> Result<Vec<u8>, ImportRefused>
    ensures ok { IfOk result (λ log. table_log table.now ≡ Ok log.items) }
    ensures err { IfErr result (λ e. (e ≡ Memory) ⊎ (table_log table.now ≡ Err e)) }
{
    if SIZE_LIMIT < table.len() {
        return Err(ImportRefused::Row {
            row: 0,
            word: RowWord::Size,
        });
    }
    let mut reader = ReaderBuilder::new()
        .has_headers(false)
        .from_reader(alloc, table);
    read_rows(alloc, &mut reader)
}
