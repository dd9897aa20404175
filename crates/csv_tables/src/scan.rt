// Records of a text, read byte by byte.
//
// The machine is that of `csv` with its defaults, and the contracts say so by the definitions of
// `csv`. It is written again here because `csv` has no call that goes on in the middle of a text.
// The rows of most tables take a shorter way (`plain`). All other records are read here.
ghost use Rattle.std.specs.Prelude.{◌≡◌, ◌<◌, ◌≤◌, ◌++◌, ◌∷◌, [], IfOk, OnOk, length};
ghost use Rattle.csv.specs.Records.{fields_of, partial_of};
ghost use Rattle.csv.specs.declared.parser.State.TheVariants as st;
ghost use Rattle.csv_tables.specs.Reading.{IsFound, IsStep, TakesByte, state_of};

use col_table::MAX_COLUMNS;
use csv::ByteRecord;
use std::alloc::AllocError;

// Where a reader is.
#[derive(Clone, Copy)]
pub(crate) enum State {
    // Between two records.
    StartRecord,
    // At the first byte of a field.
    StartField,
    // In a field without quotes.
    InField,
    // Between the quotes of a field.
    InQuoted,
    // After a quote within quotes: it ends them, or it is the first of two that stand for one.
    AfterQuote,
}

// What a byte does.
#[derive(Clone, Copy)]
pub(crate) enum Step {
    // It belongs to no field.
    Skip(State),
    // It belongs to the field.
    Copy(State),
    EndField,
    EndRecord,
}

// What a byte makes of the record under way.
#[derive(Clone, Copy)]
pub(crate) enum Progress {
    // It goes on from this state.
    Going(State),
    // It has ended.
    Ended,
    // It has more fields than a table has columns, whatever follows.
    TooLong,
}

// What there is at a place between two records.
#[derive(Clone, Copy)]
pub(crate) enum Found {
    // No record.
    Nothing,
    // A record, which ends before this place.
    Record(usize),
    // A record of more fields than a table has columns.
    TooLong,
}

// What a byte does in a state.
fn step_of(state: State, byte: u8) -> Step
    ensures { IsStep (state_of state) byte result }
{
    match state {
        State::StartRecord => match byte {
            b'\r' | b'\n' => Step::Skip(State::StartRecord),
            _ => start_field(byte),
        },
        State::StartField => start_field(byte),
        State::InField => in_field(byte),
        State::InQuoted => match byte {
            b'"' => Step::Skip(State::AfterQuote),
            _ => Step::Copy(State::InQuoted),
        },
        State::AfterQuote => match byte {
            b'"' => Step::Copy(State::InQuoted),
            _ => in_field(byte),
        },
    }
}

fn start_field(byte: u8) -> Step
    ensures { IsStep st.StartField byte result }
{
    match byte {
        b'"' => Step::Skip(State::InQuoted),
        _ => in_field(byte),
    }
}

fn in_field(byte: u8) -> Step
    ensures { IsStep st.InField byte result }
{
    match byte {
        b',' => Step::EndField,
        b'\r' | b'\n' => Step::EndRecord,
        _ => Step::Copy(State::InField),
    }
}

// Reads the record that begins at a place between two records, if there is one. It reads no further
// than to the field that makes the record too long. `field` is memory that the caller lends for
// every record.
pub(crate) fn read_record(
    bytes: &[u8],
    at: usize,
    fields: &mut ByteRecord,
    field: &mut Vec<u8>,
) -> Result<Found, AllocError>
    requires { at ≤ length bytes.now }
    ensures { IfOk result (λ found. IsFound bytes.now at found (fields_of fields.new)) }
{
    fields.clear();
    field.clear();
    let mut state = State::StartRecord;
    for place in at..bytes.len() {
        match take_byte(state, bytes[place], fields, field)? {
            Progress::Going(next) => state = next,
            Progress::Ended => return Ok(Found::Record(place + 1)),
            Progress::TooLong => return Ok(Found::TooLong),
        }
    }
    if let State::StartRecord = state {
        return Ok(Found::Nothing);
    }
    end_field(fields, field)?;
    Ok(Found::Record(bytes.len()))
}

// Takes one byte of a record.
fn take_byte(
    state: State,
    byte: u8,
    fields: &mut ByteRecord,
    field: &mut Vec<u8>,
) -> Result<Progress, AllocError>
    requires partial { partial_of fields.old ≡ [] }
    requires few { length (fields_of fields.old) < MAX_COLUMNS }
    ensures partial { OnOk result (partial_of fields.new ≡ []) }
    ensures taken { IfOk result (λ progress. TakesByte (state_of state) byte
        (record { fields = fields_of fields.old; field = field.old.items }) progress
        (record { fields = fields_of fields.new; field = field.new.items })) }
{
    match step_of(state, byte) {
        Step::Skip(next) => Ok(Progress::Going(next)),
        Step::Copy(next) => {
            field.push(byte)?;
            Ok(Progress::Going(next))
        }
        Step::EndField => {
            end_field(fields, field)?;
            if fields.len() == MAX_COLUMNS {
                return Ok(Progress::TooLong);
            }
            Ok(Progress::Going(State::StartField))
        }
        Step::EndRecord => {
            end_field(fields, field)?;
            Ok(Progress::Ended)
        }
    }
}

// Adds the field at hand to a record.
fn end_field(fields: &mut ByteRecord, field: &mut Vec<u8>) -> Result<(), AllocError>
    requires { partial_of fields.old ≡ [] }
    ensures fields { OnOk result (fields_of fields.new
        ≡ fields_of fields.old ++ field.old.items ∷ []) }
    ensures partial { OnOk result (partial_of fields.new ≡ []) }
    ensures field { OnOk result (field.new.items ≡ []) }
{
    fields.push_field(field.as_slice())?;
    field.clear();
    Ok(())
}
