// The texts of the two tables of a large input, drawn line by line.
ghost use Rattle.std.specs.Prelude.{◌≡◌, ◌≤◌, IfOk};
ghost use Rattle.csv_tables.specs.Loading.{LoadsTable};
ghost use Rattle.csv_tables.specs.Writing.{table_text};
ghost use Rattle.load_gen.specs.Tables.{table_t, table_u};

use crate::draws::Draws;
use crate::tables::{draw_t, draw_u, next_row_of_t, next_row_of_u};
use col_table::MAX_ROWS;
use csv_tables::{push_line, write_table};
use std::alloc::{AllocError, Global};

// The longest line of the table `t`, as `999,15,-1000`, with its end.
const LINE_OF_T: usize = 13;

// The longest line of the table `u`, as `999,99`, with its end.
const LINE_OF_U: usize = 7;

/// The text of a table like `t`, which is never made itself. The text is reserved once.
pub(crate) fn write_t(alloc: Global, draws: &mut Draws, rows: u32) -> Result<Vec<u8>, AllocError>
    requires { rows ≤ MAX_ROWS }
    ensures text { IfOk result (λ text. text.items ≡ table_text (table_t draws.old rows)) }
    ensures loads { IfOk result (λ text. LoadsTable text.items (table_t draws.old rows)) }
{
    let mut text = write_table(alloc, &draw_t(alloc, draws, 0)?)?;
    text.reserve(rows as usize * LINE_OF_T)?;
    for _ in 0..rows {
        push_line(&mut text, &next_row_of_t(draws))?;
    }
    Ok(text)
}

/// The text of a table like `u`, which is never made itself. The text is reserved once.
pub(crate) fn write_u(alloc: Global, draws: &mut Draws, rows: u32) -> Result<Vec<u8>, AllocError>
    requires { rows ≤ MAX_ROWS }
    ensures text { IfOk result (λ text. text.items ≡ table_text (table_u draws.old rows)) }
    ensures loads { IfOk result (λ text. LoadsTable text.items (table_u draws.old rows)) }
{
    let mut text = write_table(alloc, &draw_u(alloc, draws, 0)?)?;
    text.reserve(rows as usize * LINE_OF_U)?;
    for row in 0..rows {
        push_line(&mut text, &next_row_of_u(draws, row))?;
    }
    Ok(text)
}
