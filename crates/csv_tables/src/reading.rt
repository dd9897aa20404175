// Reading a table record by record.
ghost use Rattle.std.specs.Prelude.{◌≡◌, IfErr, IfOk};
ghost use Rattle.col_table.specs.NamedRows.{NamedRows};
ghost use Rattle.csv_tables.specs.Loading.{LoadsTable};
ghost use Rattle.csv_tables.specs.Refusals.{RefusesTable};

use crate::header::table_under;
use crate::refusal::TableRefusal;
use crate::rows::read_rows;
use crate::scan::{Found, read_record};
use col_table::{Table, without_mark};
use csv::ByteRecord;
use std::alloc::Global;

/// The table that a CSV text stands for, or its first refusal.
///
/// The first record gives the names: 1 to 32 valid names, no two of them equal. Each other record
/// is a row with one field for each name; there may be 1,048,576 rows. A field of a row is an
/// optional `-` and one or more decimal digits. Its number must fit an `i64`. Leading zeros and
/// `-0` are accepted. A byte order mark at the very start is dropped. Empty lines are skipped.
///
/// Refusals are checked in this order:
///
/// 1. `NoHeader`, if there is no record.
/// 2. `TooManyColumns`, if the header has more than 32 fields.
/// 3. For each field of the header in order, `BadName`, and then `TwiceNamed`.
/// 4. For each other record in order: `TooManyRows`, then `Ragged`, then for each of its fields in
///    order `NotANumber` or `OutOfRange`.
///
/// `OutOfMemory` may happen at any text. `load` keeps no copy of the text. It reads no further than
/// to the 33rd field of a record.
#[tactic(auto, using(crate::proofs::Texts::without_mark_is))]
pub fn load(alloc: Global, bytes: &[u8]) -> Result<Table, TableRefusal>
    ensures loaded { IfOk result (LoadsTable bytes.now) }
    ensures unique { IfOk result (λ table.
        (other : NamedRows) → LoadsTable bytes.now other → other ≡ table) }
    ensures refused { IfErr result (RefusesTable bytes.now) }
{
    let bytes = without_mark(bytes);
    let mut fields = ByteRecord::new(alloc);
    let mut field = Vec::new(alloc);
    match read_record(bytes, 0, &mut fields, &mut field)? {
        Found::Nothing => Err(TableRefusal::NoHeader),
        Found::TooLong => Err(TableRefusal::TooManyColumns),
        Found::Record(next) => {
            let mut table = table_under(alloc, &fields)?;
            read_rows(bytes, next, &mut fields, &mut field, &mut table)?;
            Ok(table)
        }
    }
}
