// Why a text is refused.
use std::alloc::{AllocError, AllocFailed};
use std::fmt;

/// Why a text is not a table. As text it is the words of its error line.
///
/// Fields are counted from 1. Records are counted from 1 after the header.
#[derive(Clone, Copy, Debug, PartialEq, Eq)]
pub enum TableRefusal {
    /// The text has no record.
    NoHeader,
    /// The header has more than 32 fields.
    TooManyColumns,
    /// This field of the header is not a valid column name.
    BadName(u32),
    /// This field of the header has the name of an earlier one.
    TwiceNamed(u32),
    /// This record and the header differ in their numbers of fields.
    Ragged(u32),
    /// In this record, this field is not a decimal number.
    NotANumber(u32, u32),
    /// In this record, this field is a number that an `i64` can't hold.
    OutOfRange(u32, u32),
    /// More than 1,048,576 records follow the header.
    TooManyRows,
    /// Out of memory.
    OutOfMemory,
}

impl From<AllocError> for TableRefusal {
    ghost use Rattle.std.specs.Prelude.{◌≡◌};
    ghost use Rattle.csv_tables.specs.declared.refusal.TableRefusal.TheVariants.{OutOfMemory};

    ghost from_gives = { λ _ refusal. refusal ≡ OutOfMemory };

    fn from(_: AllocError) -> TableRefusal {
        TableRefusal::OutOfMemory
    }
}

impl<T: Drop> From<AllocFailed<T>> for TableRefusal {
    ghost use Rattle.std.specs.Prelude.{◌≡◌};
    ghost use Rattle.csv_tables.specs.declared.refusal.TableRefusal.TheVariants.{OutOfMemory};

    ghost from_gives = { λ _ refusal. refusal ≡ OutOfMemory };

    fn from(_: AllocFailed<T>) -> TableRefusal {
        TableRefusal::OutOfMemory
    }
}

impl fmt::Display for TableRefusal {
    ghost use Rattle.std.specs.Prelude.{Some};
    ghost use Rattle.csv_tables.specs.RefusalText.{refusal_text};

    ghost output = { λ refusal. Some (refusal_text refusal) };

    fn fmt<W: fmt::Write>(&self, f: &mut fmt::Formatter<W>) -> fmt::Result {
        match self {
            TableRefusal::NoHeader => write!(f, "no header"),
            TableRefusal::TooManyColumns => write!(f, "too many columns"),
            TableRefusal::BadName(field) => write!(f, "bad name field {field}"),
            TableRefusal::TwiceNamed(field) => write!(f, "named twice field {field}"),
            TableRefusal::Ragged(row) => write!(f, "ragged record {row}"),
            TableRefusal::NotANumber(row, field) => {
                write!(f, "not a number record {row} field {field}")
            }
            TableRefusal::OutOfRange(row, field) => {
                write!(f, "out of range record {row} field {field}")
            }
            TableRefusal::TooManyRows => write!(f, "too many rows"),
            TableRefusal::OutOfMemory => write!(f, "out of memory"),
        }
    }
}
