// Tables of integers, stored column by column.
ghost use Rattle.std.specs.Prelude.{◌≡◌, ◌<◌, ◌≤◌, ◌↔◌, [], All, Contains, IfErr, IfOk, IsErrOf};
ghost use Rattle.std.specs.Prelude.{MatchOption, OnErr, OnOk, Some, length, slice_get};
ghost use Rattle.col_table.specs.Columns.{HasRoom, IsExtended, rows_across, values_of};
ghost use Rattle.col_table.specs.NamedRows.{AllDiffer, IsFirstTwice, IsHeading, IsTable, column_of};
ghost use Rattle.col_table.specs.NamedRows.{no_rows, value_at, with_row};
ghost use Rattle.col_table.specs.Refusals.{RefusesHeading, RefusesNames};

use crate::name::{ColumnName, MAX_NAME_BYTES};
use std::alloc::{AllocError, Global};
use std::marker::Model;
use thiserror::Error;

/// The greatest number of columns of a table.
pub const MAX_COLUMNS: usize = 32;

/// The greatest number of rows of a table.
pub const MAX_ROWS: u32 = 1_048_576;

/// The limits of this layer. A table has at most 32 columns and 1,048,576 rows, and a name at most
/// 64 bytes.
pub fn limits()
    ensures columns { MAX_COLUMNS ≡ 32 }
    ensures rows { MAX_ROWS ≡ 1_048_576 }
    ensures name { MAX_NAME_BYTES ≡ 64 }
{}

/// Why names can't head a table.
#[derive(Clone, Copy, Debug, PartialEq, Eq)]
pub enum ShapeRefusal {
    /// There is no name.
    NoColumns,
    /// There are more than 32 names.
    TooManyColumns,
    /// A name repeats an earlier one. The number is the first such place, counted from 0.
    TwiceNamed(u32),
    /// Out of memory.
    OutOfMemory,
}

/// Why a row was not added.
#[derive(Clone, Copy, Debug, PartialEq, Eq, Error)]
pub enum RowRefusal {
    /// The table has 1,048,576 rows.
    #[error("the table is full")]
    Full,
    /// Out of memory.
    #[error("out of memory")]
    OutOfMemory,
}

/// A table of `i64` values: 1 to 32 named columns and at most 1,048,576 rows.
///
/// The values are stored column by column, since a scan reads few columns of many rows.
#[derive(Debug, Drop)]
pub struct Table {
    names: Vec<ColumnName>,
    columns: Vec<Vec<i64>>,
    row_count: u32,
}

// Clauses see the list of names and the list of rows.
impl Model for Table {
    ghost use Rattle.col_table.specs.NamedRows.{NamedRows};

    ghost Value = { NamedRows };

    ghost use Rattle.col_table.specs.Stored.{IsStored, table_stored};

    ghost view = { table_stored };

    ghost invariant = { IsStored };
}

impl Table {
    /// The table with these names and no row.
    ///
    /// Refusals are checked in the order `NoColumns`, `TooManyColumns`, `TwiceNamed`. `OutOfMemory`
    /// means that none of them holds. A refusal drops the names.
    pub fn new(alloc: Global, names: Vec<ColumnName>) -> Result<Table, ShapeRefusal>
        ensures made { IfOk result (λ table.
            IsHeading names.items × (table ≡ no_rows names.items)) }
        ensures refused { IfErr result (RefusesNames names.items) }
    {
        check_heading(names.as_slice())?;
        let Ok(columns) = empty_columns(alloc, names.len()) else {
            return Err(ShapeRefusal::OutOfMemory);
        };
        Ok(Table {
            names,
            columns,
            row_count: 0,
        })
    }

    /// The table with these names and these columns. Each column has one value for each row.
    ///
    /// The refusals are those of `new` but `OutOfMemory`, since the call doesn't allocate. A
    /// refusal drops the names and the columns.
    pub fn from_columns(
        names: Vec<ColumnName>,
        columns: Vec<Vec<i64>>,
        rows: u32,
    ) -> Result<Table, ShapeRefusal>
        requires width { length columns.items ≡ length names.items }
        requires heights { All (λ column. length column.items ≡ rows) columns.items }
        requires few { rows ≤ MAX_ROWS }
        ensures made { IfOk result (λ table. IsHeading names.items × (table ≡
            record { names = names.items; rows = rows_across (values_of columns.items) rows })) }
        ensures refused { IfErr result (RefusesHeading names.items) }
    {
        check_heading(names.as_slice())?;
        Ok(Table {
            names,
            columns,
            row_count: rows,
        })
    }

    /// Adds a row at the end.
    ///
    /// Every column gets room before any of them changes, so a refusal leaves the table as it was.
    pub fn push_row(&mut self, row: &[i64]) -> Result<(), RowRefusal>
        requires { length row.now ≡ length self.old.names }
        ensures ok { OnOk result (self.new ≡ with_row self.old row.now) }
        ensures full { IsErrOf result RowRefusal.Full ↔ (length self.old.rows ≡ MAX_ROWS) }
        ensures err { OnErr result (self.new ≡ self.old) }
    {
        if self.row_count == MAX_ROWS {
            return Err(RowRefusal::Full);
        }
        let columns = self.columns.as_mut_slice();
        let Ok(()) = make_room(columns) else {
            return Err(RowRefusal::OutOfMemory);
        };
        push_each(columns, row);
        self.row_count += 1;
        Ok(())
    }

    /// The number of rows. It doesn't allocate.
    pub fn rows(&self) -> u32
        ensures count { result ≡ length self.now.rows }
        ensures table { IsTable self.now }
    {
        self.row_count
    }

    /// The number of columns. It doesn't allocate.
    pub fn cols(&self) -> u32
        ensures count { result ≡ length self.now.names }
        ensures table { IsTable self.now }
    {
        self.names.len() as u32
    }

    /// The name of a column, counted from 0. It doesn't allocate.
    pub fn name(&self, col: u32) -> &ColumnName
        requires { col < length self.now.names }
        ensures { slice_get self.now.names col ≡ Some result.now }
    {
        &self.names[col as usize]
    }

    /// The value in a row and a column, both counted from 0. It doesn't allocate.
    pub fn value(&self, row: u32, col: u32) -> i64
        requires row_within { row < length self.now.rows }
        requires col_within { col < length self.now.names }
        ensures { result ≡ value_at self.now row col }
    {
        self.column(col)[row as usize]
    }

    /// The values of a column, counted from 0, in the order of the rows. It doesn't allocate.
    pub fn column(&self, col: u32) -> &[i64]
        requires { col < length self.now.names }
        ensures { result.now ≡ column_of self.now col }
    {
        self.columns[col as usize].as_slice()
    }

    /// The column of a name, counted from 0, or `None` if no column has it. It doesn't allocate.
    pub fn find_column(&self, name: &ColumnName) -> Option<u32>
        ensures found { MatchOption result (¬ (Contains self.now.names name.now)) (λ col.
            slice_get self.now.names col ≡ Some name.now) }
        ensures table { IsTable self.now }
    {
        let col = self.names.iter().position(|other| other == name)?;
        Some(col as u32)
    }
}

// Whether names may head a table.
fn check_heading(names: &[ColumnName]) -> Result<(), ShapeRefusal>
    ensures ok { OnOk result (IsHeading names.now) }
    ensures refused { IfErr result (RefusesHeading names.now) }
{
    if names.is_empty() {
        return Err(ShapeRefusal::NoColumns);
    }
    if names.len() > MAX_COLUMNS {
        return Err(ShapeRefusal::TooManyColumns);
    }
    match first_twice(names) {
        Some(place) => Err(ShapeRefusal::TwiceNamed(place)),
        None => Ok(()),
    }
}

// The first place whose name repeats an earlier one.
fn first_twice(names: &[ColumnName]) -> Option<u32>
    requires { length names.now ≤ MAX_COLUMNS }
    ensures { MatchOption result (AllDiffer names.now) (IsFirstTwice names.now) }
{
    for (place, name) in names.iter().enumerate() {
        if names[..place].contains(name) {
            return Some(place as u32);
        }
    }
    None
}

// This many columns without a value.
fn empty_columns(alloc: Global, count: usize) -> Result<Vec<Vec<i64>>, AllocError>
    ensures { IfOk result (λ columns. (length columns.items ≡ count)
        × All (λ column. column.items ≡ []) columns.items) }
{
    let mut columns = Vec::with_capacity(alloc, count)?;
    for _ in 0..count {
        columns.push(Vec::new(alloc))?;
    }
    Ok(columns)
}

// Makes room for one more value in each column.
fn make_room(columns: &mut [Vec<i64>]) -> Result<(), AllocError>
    ensures same { values_of columns.new ≡ values_of columns.old }
    ensures room { OnOk result (All HasRoom columns.new) }
{
    for column in columns.iter_mut() {
        column.reserve(1)?;
    }
    Ok(())
}

// Adds each value of a row at the end of its column.
fn push_each(columns: &mut [Vec<i64>], row: &[i64])
    requires room { All HasRoom columns.old }
    requires width { length row.now ≡ length columns.old }
    ensures { IsExtended (values_of columns.old) (values_of columns.new) row.now }
{
    for (place, value) in row.iter().enumerate() {
        columns[place].push(*value).unwrap();
    }
}
