// Writing a table: its names by `csv`, and its rows, which need no quotes, straight into the text.
ghost use Rattle.std.specs.Prelude.{◌≡◌, ◌<◌, ◌++◌, All, FitsSigned, IfOk, OnOk};
ghost use Rattle.std.specs.Prelude.{length, slice_index_or, []};
ghost use Rattle.std.specs.Fmt.{signed_decimal};
ghost use Rattle.std.specs.Int.{w64};
ghost use Rattle.col_table.specs.Name.{IsName};
ghost use Rattle.col_table.specs.NamedRows.{name_at};
ghost use Rattle.csv.specs.Records.{fields_of};
ghost use Rattle.csv.specs.Writing.{default_writer, next_sep, row_text};
ghost use Rattle.csv_tables.specs.Loading.{LoadsTable};
ghost use Rattle.csv_tables.specs.Writing.{BeginsWithMark, line_text, table_text};

use col_table::Table;
use csv::{ByteRecord, WriterBuilder};
use itoa::Buffer;
use std::alloc::{AllocError, Global};

// The room that a value gets in the text before any row is written, with the byte after it.
const VALUE_BYTES: usize = 8;

/// The CSV text of a table: one line for its names, then one line for each row.
///
/// The text is reserved once: 8 bytes for each value. It grows only if the values take more.
///
/// A name with a comma or a quote is quoted. A header of one empty name is `""`. `load` gives the
/// same table again, unless the first name begins with U+FEFF: `load` takes that for a byte order
/// mark.
pub fn write_table(alloc: Global, table: &Table) -> Result<Vec<u8>, AllocError>
    ensures text { IfOk result (λ bytes. bytes.items ≡ table_text table.now) }
    ensures loads { IfOk result (λ bytes. ¬ (BeginsWithMark (name_at table.now.names 0))
        → LoadsTable bytes.items table.now) }
{
    let mut text = header_text(alloc, table)?;
    text.reserve((table.rows() as usize).saturating_mul(VALUE_BYTES * table.cols() as usize))?;
    for row in 0..table.rows() {
        push_row(&mut text, table, row)?;
    }
    Ok(text)
}

// The line of the names of a table. Only memory can fail, since a `Vec` takes all bytes.
fn header_text(alloc: Global, table: &Table) -> Result<Vec<u8>, AllocError>
    ensures { IfOk result (λ text. (text.items ≡ row_text default_writer table.now.names)
        × All IsName table.now.names) }
{
    let mut fields = ByteRecord::new(alloc);
    fill_names(table, &mut fields)?;
    let mut writer = WriterBuilder::new().from_writer(Vec::new(alloc));
    match writer.write_byte_record(&fields) {
        Ok(()) => writer.into_inner().map_err(|_| AllocError),
        Err(_) => Err(AllocError),
    }
}

// Makes an empty record one of the names of a table.
fn fill_names(table: &Table, fields: &mut ByteRecord) -> Result<(), AllocError>
    ensures { OnOk result ((fields_of fields.new ≡ table.now.names) × All IsName table.now.names) }
{
    fields.clear();
    for col in 0..table.cols() {
        fields.push_field(table.name(col).as_str().as_bytes())?;
    }
    Ok(())
}

/// Adds the line of a row with these values to a text, as `write_table` writes it.
pub fn push_line(text: &mut Vec<u8>, values: &[i64]) -> Result<(), AllocError>
    requires { 0 < length values.now }
    ensures { OnOk result (text.new.items ≡ text.old.items ++ line_text values.now) }
{
    let mut buffer = Buffer::new();
    for (place, value) in values.iter().enumerate() {
        push_value(text, &mut buffer, place, *value)?;
    }
    text.push(b'\n')?;
    Ok(())
}

// Adds the line of a row of a table to a text.
fn push_row(text: &mut Vec<u8>, table: &Table, row: u32) -> Result<(), AllocError>
    requires { row < length table.now.rows }
    ensures { let values = slice_index_or table.now.rows row [] in
        OnOk result ((text.new.items ≡ text.old.items ++ line_text values)
        × All (FitsSigned w64) values) }
{
    let mut buffer = Buffer::new();
    for col in 0..table.cols() {
        push_value(text, &mut buffer, col as usize, table.value(row, col))?;
    }
    text.push(b'\n')?;
    Ok(())
}

// Adds the value at this place of a row to a text, and what stands before it.
#[inline]
fn push_value(
    text: &mut Vec<u8>,
    buffer: &mut Buffer,
    place: usize,
    value: i64,
) -> Result<(), AllocError>
    ensures { OnOk result (text.new.items
        ≡ (text.old.items ++ next_sep default_writer place) ++ signed_decimal value) }
{
    push_comma(text, place)?;
    text.extend_from_slice(buffer.format(value).as_bytes())?;
    Ok(())
}

// Adds what stands before the value at this place of a row to a text.
fn push_comma(text: &mut Vec<u8>, place: usize) -> Result<(), AllocError>
    ensures { OnOk result (text.new.items ≡ text.old.items ++ next_sep default_writer place) }
{
    if place > 0 {
        text.push(b',')?;
    }
    Ok(())
}
