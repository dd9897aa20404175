// The header of a table.
ghost use Rattle.std.specs.Prelude.{◌≡◌, ◌<◌, ◌≤◌, IfErr, IfOk, length};
ghost use Rattle.col_table.specs.Name.{IsName};
ghost use Rattle.col_table.specs.NamedRows.{no_rows};
ghost use Rattle.csv.specs.Records.{fields_of};
ghost use Rattle.csv_tables.specs.Loading.{IsHeader};
ghost use Rattle.csv_tables.specs.Refusals.{AreNames, OrMemory, RefusesHeader};

use crate::refusal::TableRefusal;
use col_table::{ColumnName, MAX_COLUMNS, MAX_NAME_BYTES, ShapeRefusal, Table};
use csv::ByteRecord;
use std::alloc::Global;

// The table with the names of a header and no rows.
pub(crate) fn table_under(alloc: Global, header: &ByteRecord) -> Result<Table, TableRefusal>
    requires some { 0 < length (fields_of header.now) }
    requires few { length (fields_of header.now) ≤ MAX_COLUMNS }
    ensures made { IfOk result (λ table. IsHeader (fields_of header.now)
        × (table ≡ no_rows (fields_of header.now))) }
    ensures refused { IfErr result (OrMemory (RefusesHeader (fields_of header.now))) }
{
    let names = parse_names(alloc, header)?;
    match Table::new(alloc, names) {
        Ok(table) => Ok(table),
        Err(refusal) => Err(memory_of(refusal)),
    }
}

// The refusal of names that may head a table: only memory can be missing.
fn memory_of(refusal: ShapeRefusal) -> TableRefusal
    requires { refusal ≡ ShapeRefusal.OutOfMemory }
    ensures { result ≡ TableRefusal.OutOfMemory }
{
    match refusal {
        ShapeRefusal::OutOfMemory => TableRefusal::OutOfMemory,
        _ => unreachable!(),
    }
}

// The names that the fields of a header are.
fn parse_names(alloc: Global, header: &ByteRecord) -> Result<Vec<ColumnName>, TableRefusal>
    requires { length (fields_of header.now) ≤ MAX_COLUMNS }
    ensures names { IfOk result (λ names. AreNames (fields_of header.now)
        × (names.items ≡ fields_of header.now)) }
    ensures refused { IfErr result (OrMemory (RefusesHeader (fields_of header.now))) }
{
    let mut names = Vec::with_capacity(alloc, header.len())?;
    for field in header.iter() {
        let place = names.len() as u32 + 1;
        let name = parse_name(alloc, field, place)?;
        if names.contains(&name) {
            return Err(TableRefusal::TwiceNamed(place));
        }
        names.push(name)?;
    }
    Ok(names)
}

// The name that the field of a header at this place is. A field that is too long isn't copied.
fn parse_name(alloc: Global, field: &[u8], place: u32) -> Result<ColumnName, TableRefusal>
    ensures name { IfOk result (λ name. IsName field.now × (name ≡ field.now)) }
    ensures refused { IfErr result (OrMemory
        (λ refusal. (refusal ≡ TableRefusal.BadName place) × ¬ (IsName field.now))) }
{
    if field.len() > MAX_NAME_BYTES {
        return Err(TableRefusal::BadName(place));
    }
    let text = str::from_utf8(field).map_err(|_| TableRefusal::BadName(place))?;
    let text = String::from_str(alloc, text)?;
    ColumnName::new(text).map_err(|_| TableRefusal::BadName(place))
}
