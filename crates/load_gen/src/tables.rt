// The two tables of a large input.
ghost use Rattle.std.specs.Prelude.{◌≡◌, ◌≤◌, ◌*◌, ◌∷◌, [], All, IfOk, OnOk, length, pos};
ghost use Rattle.col_table.specs.Columns.{rows_across, values_of};
ghost use Rattle.col_table.specs.NamedRows.{IsHeading};
ghost use Rattle.csv_tables.specs.Loading.{LoadsTable};
ghost use Rattle.csv_tables.specs.Writing.{table_text};
ghost use Rattle.load_gen.specs.Draws.{draw, next_state, state_after};
ghost use Rattle.load_gen.specs.Tables.{row_of_t, table_t, table_u};

use crate::draws::Draws;
use crate::names::{heading_of_t, heading_of_u};
use col_table::{ColumnName, MAX_ROWS, Table};
use std::alloc::{AllocError, Global};

/// The number of rows of the table `t`.
pub const T_ROWS: u32 = 200_000;

/// The number of rows of the table `u`.
pub const U_ROWS: u32 = 1_000;

/// A table like `t`: in each row a key below 1,000, a group below 16 and a value from -1,000 to
/// 1,000.
pub(crate) fn draw_t(alloc: Global, draws: &mut Draws, rows: u32) -> Result<Table, AllocError>
    requires { rows ≤ MAX_ROWS }
    ensures table { IfOk result (λ table. table ≡ table_t draws.old rows) }
    ensures loads { IfOk result (λ table. LoadsTable (table_text table) table) }
    ensures draws { OnOk result (draws.new ≡ state_after draws.old (3 * rows)) }
{
    let mut keys = Vec::with_capacity(alloc, rows as usize)?;
    let mut groups = Vec::with_capacity(alloc, rows as usize)?;
    let mut values = Vec::with_capacity(alloc, rows as usize)?;
    for _ in 0..rows {
        let [key, group, value] = next_row_of_t(draws);
        keys.push(key)?;
        groups.push(group)?;
        values.push(value)?;
    }
    let columns = vec![in alloc; keys, groups, values]?;
    let names = heading_of_t(alloc)?;
    Ok(table_of(names, columns, rows))
}

/// A table like `u`: the keys from 0 on, each once, and with each a weight below 100.
pub(crate) fn draw_u(alloc: Global, draws: &mut Draws, rows: u32) -> Result<Table, AllocError>
    requires { rows ≤ MAX_ROWS }
    ensures table { IfOk result (λ table. table ≡ table_u draws.old rows) }
    ensures loads { IfOk result (λ table. LoadsTable (table_text table) table) }
    ensures draws { OnOk result (draws.new ≡ state_after draws.old rows) }
{
    let mut keys = Vec::with_capacity(alloc, rows as usize)?;
    let mut weights = Vec::with_capacity(alloc, rows as usize)?;
    for row in 0..rows {
        let [key, weight] = next_row_of_u(draws, row);
        keys.push(key)?;
        weights.push(weight)?;
    }
    let columns = vec![in alloc; keys, weights]?;
    let names = heading_of_u(alloc)?;
    Ok(table_of(names, columns, rows))
}

/// The next row of a table like `t`.
#[inline]
pub(crate) fn next_row_of_t(draws: &mut Draws) -> [i64; 3]
    ensures row { result ≡ row_of_t draws.old 0 }
    ensures draws { draws.new ≡ state_after draws.old 3 }
{
    let key = draws.value_below(1_000);
    let group = draws.value_below(16);
    let value = draws.signed();
    [key, group, value]
}

/// The row of a table like `u` at this place, which comes next.
#[inline]
pub(crate) fn next_row_of_u(draws: &mut Draws, row: u32) -> [i64; 2]
    ensures row { result ≡ pos row ∷ pos (draw draws.old 1 100) ∷ [] }
    ensures draws { draws.new ≡ next_state draws.old }
{
    let weight = draws.value_below(100);
    [i64::from(row), weight]
}

// The table of these columns under names that may head a table.
fn table_of(names: Vec<ColumnName>, columns: Vec<Vec<i64>>, rows: u32) -> Table
    requires heading { IsHeading names.items }
    requires width { length columns.items ≡ length names.items }
    requires heights { All (λ column. length column.items ≡ rows) columns.items }
    requires few { rows ≤ MAX_ROWS }
    ensures { result
        ≡ record { names = names.items; rows = rows_across (values_of columns.items) rows } }
{
    Table::from_columns(names, columns, rows).unwrap()
}
