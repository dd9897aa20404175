// The short way of reading rows: records whose fields are numbers without quotes.
ghost use Rattle.std.specs.Prelude.{◌≡◌, ◌<◌, ◌≤◌, IfSome, ℕ, List, drop, length, map, []};
ghost use Rattle.csv.specs.Machine.{ends_with};
ghost use Rattle.csv.specs.Writing.{default_writer, needs_byte};
ghost use Rattle.csv.specs.declared.parser.State.TheVariants as st;
ghost use Rattle.csv.specs.declared.parser.Terminator.TheVariants as term;
ghost use Rattle.csv_tables.specs.Loading.{IsRow};
ghost use Rattle.csv_tables.specs.Numbers.{number_of};
ghost use Rattle.csv_tables.specs.Reading.{EndsField, IsUnmarked, IsRecordAt, reads_from};

use crate::number::parse_value;

// Fills a row with the values of the next record and answers the place after it, if that record is
// a row of numbers without quotes. No answer says nothing: there may be any record, or none.
#[inline(never)]
pub(crate) fn read_plain_row(bytes: &[u8], at: usize, row: &mut [i64]) -> Option<usize>
    requires within { at ≤ length bytes.now }
    requires some { 0 < length row.old }
    ensures { IfSome result (λ next. (fields : List (List ℕ)) × IsRecordAt bytes.now at next fields
        × IsRow (length row.old) fields × (row.new ≡ map number_of fields)) }
{
    let mut start = first_byte(bytes, at)?;
    let columns = row.len();
    for (place, value) in row.iter_mut().enumerate() {
        let end = plain_end(bytes, start);
        let Ok(read) = parse_value(&bytes[start..end]) else {
            return None;
        };
        *value = read;
        start = after_field(bytes, end, place + 1 == columns)?;
    }
    Some(start)
}

// The place of the first byte of the next record, if there is one.
fn first_byte(bytes: &[u8], at: usize) -> Option<usize>
    requires { at ≤ length bytes.now }
    ensures within { IfSome result (λ start. start ≤ length bytes.now) }
    ensures begins { IfSome result (λ start. reads_from st.StartRecord
        (record { fields = []; field = [] }) (drop at bytes.now)
        ≡ reads_from st.StartField (record { fields = []; field = [] }) (drop start bytes.now)) }
{
    for place in at..bytes.len() {
        if !ends_line(bytes[place]) {
            return Some(place);
        }
    }
    None
}

// Whether a byte ends a line.
fn ends_line(byte: u8) -> bool
    ensures { result ≡ ends_with term.CRLF byte }
{
    byte == b'\r' || byte == b'\n'
}

// The place of the first mark of the format from a place on.
fn plain_end(bytes: &[u8], start: usize) -> usize
    requires { start ≤ length bytes.now }
    ensures { IsUnmarked bytes.now start result }
{
    for place in start..bytes.len() {
        if is_mark(bytes[place]) {
            return place;
        }
    }
    bytes.len()
}

// Whether a byte is a mark of the format: a comma, a quote, or one that ends a line.
fn is_mark(byte: u8) -> bool
    ensures { result ≡ needs_byte default_writer byte }
{
    byte == b',' || byte == b'"' || byte == b'\r' || byte == b'\n'
}

// The place after what ends a field: a comma, or, for the last field, the end of the line or of the
// text. The field itself stops at `end`.
fn after_field(bytes: &[u8], end: usize, is_last: bool) -> Option<usize>
    requires { end ≤ length bytes.now }
    ensures within { IfSome result (λ next. next ≤ length bytes.now) }
    ensures ends { IfSome result (λ next. EndsField is_last (drop end bytes.now)
        (drop next bytes.now)) }
{
    if end == bytes.len() {
        return if is_last { Some(end) } else { None };
    }
    let ends = match bytes[end] {
        b',' => !is_last,
        b'\r' | b'\n' => is_last,
        _ => false,
    };
    if ends { Some(end + 1) } else { None }
}
