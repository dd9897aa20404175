// The rows of a table.
ghost use Rattle.std.specs.Prelude.{◌≡◌, ◌<◌, ◌≤◌, ℕ, List, IfErr, IfOk, MatchOption};
ghost use Rattle.std.specs.Prelude.{OnOk, length, map, slice_index_or, []};
ghost use Rattle.col_table.specs.NamedRows.{with_row};
ghost use Rattle.csv.specs.Records.{fields_of};
ghost use Rattle.csv_tables.specs.Loading.{GrowsBy, IsRow};
ghost use Rattle.csv_tables.specs.Numbers.{number_of};
ghost use Rattle.csv_tables.specs.Reading.{HasRecordAt, IsRecordAt, records_at};
ghost use Rattle.csv_tables.specs.Refusals.{OrMemory, RefusesLines, RefusesRecord, refusal_of};

use crate::number::{FieldFault, parse_value};
use crate::plain::read_plain_row;
use crate::refusal::TableRefusal;
use crate::scan::{Found, read_record};
use col_table::{MAX_COLUMNS, MAX_ROWS, RowRefusal, Table};
use csv::ByteRecord;
use std::alloc::AllocError;

// Adds the rows of the records from a place on to a table without rows.
pub(crate) fn read_rows(
    bytes: &[u8],
    at: usize,
    fields: &mut ByteRecord,
    field: &mut Vec<u8>,
    table: &mut Table,
) -> Result<(), TableRefusal>
    requires within { at ≤ length bytes.now }
    requires empty { length table.old.rows ≡ 0 }
    ensures grown { OnOk result (GrowsBy table.old (records_at bytes.now at) table.new) }
    ensures refused { IfErr result (OrMemory
        (RefusesLines (length table.old.names) (records_at bytes.now at))) }
{
    let mut values = [0; MAX_COLUMNS];
    let row = &mut values[..table.cols() as usize];
    let mut start = at;
    while let Some(next) = read_row(bytes, start, table.rows() + 1, fields, field, row)? {
        add_row(table, row)?;
        start = next;
    }
    Ok(())
}

// Adds a row to a table that isn't full.
fn add_row(table: &mut Table, row: &[i64]) -> Result<(), AllocError>
    requires width { length row.now ≡ length table.old.names }
    requires room { length table.old.rows < MAX_ROWS }
    ensures { OnOk result (table.new ≡ with_row table.old row.now) }
{
    match table.push_row(row) {
        Ok(()) => Ok(()),
        Err(RowRefusal::OutOfMemory) => Err(AllocError),
        Err(RowRefusal::Full) => unreachable!(),
    }
}

// Fills a row with the values of the record that begins at a place and has this number. Answers the
// place after the record, or nothing if there is no record.
fn read_row(
    bytes: &[u8],
    at: usize,
    number: u32,
    fields: &mut ByteRecord,
    field: &mut Vec<u8>,
    row: &mut [i64],
) -> Result<Option<usize>, TableRefusal>
    requires within { at ≤ length bytes.now }
    requires some { 0 < length row.old }
    requires few { length row.old ≤ MAX_COLUMNS }
    ensures read { IfOk result (λ next. MatchOption next (records_at bytes.now at ≡ [])
        (λ next. (line : List (List ℕ))
        × IsRecordAt bytes.now at next line × IsRow (length row.old) line
        × (row.new ≡ map number_of line) × (number ≤ MAX_ROWS))) }
    ensures refused { IfErr result (OrMemory (λ refusal. (line : List (List ℕ))
        × HasRecordAt bytes.now at line × RefusesRecord (length row.old) number line refusal)) }
{
    if number <= MAX_ROWS {
        if let Some(next) = read_plain_row(bytes, at, row) {
            return Ok(Some(next));
        }
    }
    let found = read_record(bytes, at, fields, field)?;
    if let Found::Nothing = found {
        return Ok(None);
    }
    if number > MAX_ROWS {
        return Err(TableRefusal::TooManyRows);
    }
    let Found::Record(next) = found else {
        return Err(TableRefusal::Ragged(number));
    };
    parse_row(fields, number, row)?;
    Ok(Some(next))
}

// Fills a row with the values of the record with this number. It must have as many fields.
fn parse_row(fields: &ByteRecord, number: u32, row: &mut [i64]) -> Result<(), TableRefusal>
    requires width { length row.old ≤ MAX_COLUMNS }
    requires within { number ≤ MAX_ROWS }
    ensures ok { OnOk result (IsRow (length row.old) (fields_of fields.now)
        × (row.new ≡ map number_of (fields_of fields.now))) }
    ensures refused { IfErr result (RefusesRecord (length row.old) number (fields_of fields.now)) }
{
    if fields.len() != row.len() {
        return Err(TableRefusal::Ragged(number));
    }
    for (place, value) in row.iter_mut().enumerate() {
        match parse_value(field_of(fields, place)) {
            Ok(read) => *value = read,
            Err(fault) => return Err(refusal_at(fault, number, place as u32 + 1)),
        }
    }
    Ok(())
}

// The field of a record at a place.
fn field_of(fields: &ByteRecord, place: usize) -> &[u8]
    requires { place < length (fields_of fields.now) }
    ensures { result.now ≡ slice_index_or (fields_of fields.now) place [] }
{
    match fields.get(place) {
        Some(field) => field,
        None => unreachable!(),
    }
}

// The refusal of the field at this place in the record with this number.
fn refusal_at(fault: FieldFault, number: u32, place: u32) -> TableRefusal
    ensures { result ≡ refusal_of fault number place }
{
    match fault {
        FieldFault::NotANumber => TableRefusal::NotANumber(number, place),
        FieldFault::OutOfRange => TableRefusal::OutOfRange(number, place),
    }
}
