// The totals of groups by their key.
ghost use Rattle.std.specs.Prelude.{◌≡◌, ℕ, ℤ, pos, ◌+◌, ◌^◌, ◌<◌, ◌≤◌, ◌++◌, ◌∷◌, [], All, List};
ghost use Rattle.std.specs.Prelude.{Some, map, length, slice_index, slice_index_or, take, IfOk};
ghost use Rattle.std.specs.Prelude.{IfSome, OnOk, OnErr, if◌then◌else◌};
ghost use Rattle.std.specs.Int.{w64};
ghost use Rattle.std.specs.Int.RustNames.{FitsSigned};
ghost use Rattle.plan_ast.specs.Bounds.{IsWithin};
ghost use Rattle.build_sides.specs.Chains.{key_at};
ghost use Rattle.build_sides.specs.Columns.{AddsTotal, FoldsValue, FoldsValues, HasRoom};
ghost use Rattle.build_sides.specs.Columns.{HasRoomFor, func_of, totals_of, value_by};
ghost use Rattle.build_sides.specs.Columns.{values_of};
ghost use Rattle.build_sides.specs.FoldedRows.{FoldedRow, column_in, folded_at, folded_value};
ghost use Rattle.build_sides.specs.FoldedRows.{group_key_of, key_by, row_of, rows_with, total_of};
ghost use Rattle.build_sides.specs.FoldedRows.{values_by};
ghost use Rattle.build_sides.specs.GroupSides.{Folds, FoldsSomeKeys, column_of, funcs_of, key_part};
ghost use Rattle.build_sides.specs.GroupSides.{rows_in, total_at};
ghost use Rattle.build_sides.specs.PartChains.{AreParts};
ghost use Rattle.build_sides.specs.Numbered.{AreDistinct, IsAbsent, NumberIs, Numbers};
ghost use Rattle.build_sides.specs.declared.columns.Column.{Column};

use super::columns::Column;
use super::key_table::{Key, KeyTable};
use super::links::Links;
use col_table::Table;
use plan_ast::{AggAt, AggValue, ColumnAt, Func};
use std::alloc::{AllocError, Global};
use std::marker::Model;

// The key of a group.
#[inline(always)]
fn group_key(values: &[i64]) -> Key
    requires { 1 ≤ length values.now }
    ensures { result ≡ group_key_of values.now }
{
    Key {
        first: values[0],
        second: if values.len() > 1 { values[1] } else { 0 },
    }
}

// The part of a key.
#[inline(always)]
fn part_of(key: Key) -> usize
    ensures value { result ≡ key_part key }
    ensures within { result < 16 }
{
    key.first.rem_euclid(16) as usize
}

// The totals of no groups, of each aggregate.
fn columns_of(alloc: Global, funcs: &[Func]) -> Result<Vec<Column>, AllocError>
    ensures { IfOk result (λ v. map totals_of v.items
        ≡ map (λ f. record { func = f; values = [] }) funcs.now) }
{
    let mut columns = Vec::with_capacity(alloc, funcs.len())?;
    for func in funcs {
        columns.push(Column::none(alloc, *func))?;
    }
    Ok(columns)
}

// Makes room for one more group.
fn make_room(columns: &mut Vec<Column>) -> Result<(), AllocError>
    ensures same { map totals_of columns.new.items ≡ map totals_of columns.old.items }
    ensures room { OnOk result (All HasRoom columns.new.items) }
{
    for place in 0..columns.len() {
        columns[place].reserve()?;
    }
    Ok(())
}

// The number of a new key, with room for its group in each column.
fn new_number(
    keys: &mut KeyTable,
    parts: &mut Links,
    columns: &mut Vec<Column>,
    key: Key,
) -> Result<usize, AllocError>
    requires absent { IsAbsent keys.old key }
    requires parts { AreParts parts.old keys.old }
    ensures numbers { IfOk result (λ n. Numbers keys.old keys.new key n) }
    ensures parts { AreParts parts.new keys.new }
    ensures err { OnErr result (keys.new ≡ keys.old) }
    ensures same { map totals_of columns.new.items ≡ map totals_of columns.old.items }
    ensures room { OnOk result (All HasRoom columns.new.items) }
{
    make_room(columns)?;
    parts.nexts.reserve(1)?;
    let number = keys.add(key)?;
    parts.link(part_of(key));
    Ok(number as usize)
}

// The number of a key, with room for its group in each column.
#[inline(always)]
fn number_with_room(
    keys: &mut KeyTable,
    parts: &mut Links,
    columns: &mut Vec<Column>,
    key: Key,
) -> Result<usize, AllocError>
    requires parts { AreParts parts.old keys.old }
    requires all { All (λ c. length (values_of c) ≡ length keys.old) columns.old.items }
    ensures numbers { IfOk result (λ n. Numbers keys.old keys.new key n) }
    ensures parts { AreParts parts.new keys.new }
    ensures err { OnErr result (keys.new ≡ keys.old) }
    ensures same { map totals_of columns.new.items ≡ map totals_of columns.old.items }
    ensures room { IfOk result (λ n. All (HasRoomFor n) columns.new.items) }
{
    match keys.find(key) {
        Some(number) => Ok(number as usize),
        None => new_number(keys, parts, columns, key),
    }
}

// Folds a value for each aggregate into the totals of a group, or begins the next group with them.
#[inline(always)]
fn fold_values(columns: &mut Vec<Column>, number: usize, values: &[i64])
    requires same { length values.now ≡ length columns.old.items }
    requires room { All (HasRoomFor number) columns.old.items }
    ensures count { length columns.new.items ≡ length columns.old.items }
    ensures each { (place : ℕ) (d : Column) → place < length columns.old.items
        → FoldsValue number (slice_index_or values.now place (pos 0))
        (slice_index_or columns.old.items place d) (slice_index_or columns.new.items place d) }
    ensures fits { (place : ℕ) → FitsSigned w64 (slice_index_or values.now place (pos 0)) }
{
    for place in 0..columns.len() {
        columns[place].fold(number, values[place]);
    }
}

// Adds the totals of another side's group to those of a group, or begins the next group with them.
fn add_totals(columns: &mut Vec<Column>, number: usize, others: &[Column], from: usize)
    requires same { map func_of columns.old.items ≡ map func_of others.now }
    requires within { All (λ c. from < length (values_of c)) others.now }
    requires room { All (HasRoomFor number) columns.old.items }
    ensures count { length columns.new.items ≡ length columns.old.items }
    ensures each { (place : ℕ) (d : Column) → place < length columns.old.items
        → AddsTotal number from (slice_index_or others.now place d)
        (slice_index_or columns.old.items place d) (slice_index_or columns.new.items place d) }
{
    for place in 0..columns.len() {
        columns[place].add(number, others[place].total(from));
    }
}

// The numbers of the keys of a table's rows, up to the first key that there is not. It answers how
// many these are.
#[inline(always)]
fn known_numbers(
    keys: &KeyTable,
    table: &Table,
    by: &[ColumnAt],
    rows: &[u32],
    numbers: &mut [u32],
) -> usize
    requires width { IsWithin 1 2 (length by.now) }
    requires by { All (λ at. at.column < length table.now.names) by.now }
    requires rows { All (λ row. row < length table.now.rows) rows.now }
    requires room { length rows.now ≤ length numbers.old }
    ensures few { result ≤ length rows.now }
    ensures known { (k : ℕ) → k < result → NumberIs keys.now
        (key_by table.now by.now (slice_index rows.now k)) (Some (slice_index numbers.new k)) }
    ensures stops { result < length rows.now → IsAbsent keys.now
        (key_by table.now by.now (slice_index rows.now result)) }
{
    let first = table.column(by[0].column);
    if by.len() > 1 {
        let second = table.column(by[1].column);
        keys.find_each(first, second, true, rows, numbers)
    } else {
        keys.find_each(first, first, false, rows, numbers)
    }
}

// The key of a table's row.
#[inline(always)]
fn table_key(table: &Table, by: &[ColumnAt], row: u32) -> Key
    requires width { IsWithin 1 2 (length by.now) }
    requires by { All (λ at. at.column < length table.now.names) by.now }
    requires row { row < length table.now.rows }
    ensures { result ≡ key_by table.now by.now row }
{
    Key {
        first: table.value(row, by[0].column),
        second: if by.len() > 1 {
            table.value(row, by[1].column)
        } else {
            0
        },
    }
}

// The value of a table's row that an aggregate folds.
#[inline(always)]
fn value_at(table: &Table, row: u32, at: Option<ColumnAt>) -> i64
    requires column { IfSome at (λ at. at.column < length table.now.names) }
    requires row { row < length table.now.rows }
    ensures { result ≡ folded_value table.now row at }
{
    match at {
        Some(at) => table.value(row, at.column),
        None => 0,
    }
}

// Folds a table's row into the totals of a group, or begins the next group with it.
fn fold_table_row(columns: &mut Vec<Column>, number: usize, table: &Table, aggs: &[AggAt], row: u32)
    requires same { length aggs.now ≡ length columns.old.items }
    requires columns { All (λ agg. IfSome agg.column
        (λ at. at.column < length table.now.names)) aggs.now }
    requires row { row < length table.now.rows }
    requires room { All (HasRoomFor number) columns.old.items }
    ensures count { length columns.new.items ≡ length columns.old.items }
    ensures each { (place : ℕ) (d : Column) → place < length columns.old.items
        → FoldsValue number (slice_index_or (values_by table.now aggs.now row) place (pos 0))
        (slice_index_or columns.old.items place d) (slice_index_or columns.new.items place d) }
    ensures fits { (place : ℕ)
        → FitsSigned w64 (slice_index_or (values_by table.now aggs.now row) place (pos 0)) }
{
    for place in 0..columns.len() {
        columns[place].fold(number, value_at(table, row, aggs[place].column));
    }
}

// The values of a column in these rows are 64-bit numbers. It reads them.
#[inline(always)]
fn read_each(column: &[i64], rows: &[u32])
    requires { All (λ row. row < length column.now) rows.now }
    ensures { (k : ℕ) → k < length rows.now → FitsSigned w64 (value_by column.now rows.now k) }
{
    for row in rows {
        let _value = column[*row as usize];
    }
}

// Folds the values of a table's rows that an aggregate folds, each into the total of its group.
fn fold_column(
    column: &mut Column,
    table: &Table,
    at: Option<ColumnAt>,
    rows: &[u32],
    numbers: &[u32],
)
    requires column { IfSome at (λ at. at.column < length table.now.names) }
    requires rows { All (λ row. row < length table.now.rows) rows.now }
    requires same { length rows.now ≡ length numbers.now }
    requires known { All (λ n. n < length (values_of column.old)) numbers.now }
    ensures folds { FoldsValues numbers.now
        (λ k. folded_value table.now (slice_index rows.now k) at) column.old column.new }
    ensures fits { (k : ℕ) → k < length rows.now
        → FitsSigned w64 (folded_value table.now (slice_index rows.now k) at) }
{
    match at {
        Some(at) => {
            let values = table.column(at.column);
            read_each(values, rows);
            column.fold_each(numbers, values, rows);
        }
        None => column.fold_zeros(numbers),
    }
}

// Folds a table's rows into the totals of their groups, column by column.
fn fold_columns(
    columns: &mut Vec<Column>,
    table: &Table,
    aggs: &[AggAt],
    rows: &[u32],
    numbers: &[u32],
)
    requires aggs { length aggs.now ≡ length columns.old.items }
    requires columns { All (λ agg. IfSome agg.column
        (λ at. at.column < length table.now.names)) aggs.now }
    requires rows { All (λ row. row < length table.now.rows) rows.now }
    requires same { length rows.now ≡ length numbers.now }
    requires known { All (λ c. All (λ n. n < length (values_of c)) numbers.now) columns.old.items }
    ensures count { length columns.new.items ≡ length columns.old.items }
    ensures each { (place : ℕ) (d : Column) → place < length columns.old.items
        → FoldsValues numbers.now (λ k. folded_value table.now (slice_index rows.now k)
        (column_in aggs.now place)) (slice_index_or columns.old.items place d)
        (slice_index_or columns.new.items place d) }
    ensures fits { (place k : ℕ) → k < length rows.now → FitsSigned w64
        (folded_value table.now (slice_index rows.now k) (column_in aggs.now place)) }
{
    for place in 0..columns.len() {
        fold_column(
            &mut columns[place],
            table,
            aggs[place].column,
            rows,
            numbers,
        );
    }
}

/// The group side of a query: for each key, the totals of the rows with this key.
///
/// A key belongs to one of 16 parts: the Euclidean remainder of its first value by 16. Contracts
/// see the rows that the side folds (`Folds`). It has exactly their keys, and for each key what
/// each aggregate makes of their values. Sums are exact for up to 2^62 rows.
#[derive(Debug, Drop)]
pub struct GroupSide {
    keys: KeyTable,
    parts: Links,
    columns: Vec<Column>,
}

impl Model for GroupSide {
    ghost use Rattle.build_sides.specs.GroupTotals.{GroupTotals};

    ghost Value = { GroupTotals };

    ghost use Rattle.build_sides.specs.GroupFields.{group_totals_of, IsGroupSide};

    ghost view = { group_totals_of };

    ghost invariant = { IsGroupSide };
}

impl GroupSide {
    /// A side without groups, for these aggregates.
    pub fn new(alloc: Global, aggs: Vec<Func>) -> Result<GroupSide, AllocError>
        ensures funcs { IfOk result (λ side. funcs_of side ≡ aggs.items) }
        ensures folds { IfOk result (λ side. Folds [] side) }
    {
        let columns = columns_of(alloc, aggs.as_slice())?;
        Ok(GroupSide {
            keys: KeyTable::new(alloc),
            parts: Links::none(alloc, 16)?,
            columns,
        })
    }

    /// Folds a row: its key of one or two values, and a value for each aggregate, which is 0 where
    /// the aggregate counts. A key of one value counts as the pair of it and 0. So all keys of a
    /// side should have the same number of values.
    ///
    /// The side is unchanged if memory runs out. A new group beyond 2^30 is out of memory too.
    pub fn fold_row(&mut self, key: &[i64], values: &[i64]) -> Result<(), AllocError>
        requires some { IsWithin 1 2 (length key.now) }
        requires same { length values.now ≡ length self.old.columns }
        ensures funcs { funcs_of self.new ≡ funcs_of self.old }
        ensures folds { OnOk result ((rows : List FoldedRow) → length rows < 2 ^ 62
            → Folds rows self.old → Folds (rows ++ row_of key.now values.now ∷ []) self.new) }
        ensures err { OnErr result (self.new ≡ self.old) }
    {
        let key = group_key(key);
        let number = number_with_room(&mut self.keys, &mut self.parts, &mut self.columns, key)?;
        fold_values(&mut self.columns, number, values);
        Ok(())
    }

    /// Folds rows of a table, column by column. Each key is looked up once. A new one stops the
    /// columns: its row is folded by itself.
    ///
    /// `by` are the one or two columns of the key, and `aggs` those of the side's aggregates. A
    /// column's side is not read. `numbers` has room for a number of each row, and what it holds
    /// makes no difference. If memory runs out, the side has folded some of the rows: drop it.
    pub fn fold_rows(
        &mut self,
        table: &Table,
        by: &[ColumnAt],
        aggs: &[AggAt],
        rows: &[u32],
        numbers: &mut [u32],
    ) -> Result<(), AllocError>
        requires width { IsWithin 1 2 (length by.now) }
        requires by { All (λ at. at.column < length table.now.names) by.now }
        requires aggs { length aggs.now ≡ length self.old.columns }
        requires columns { All (λ agg. IfSome agg.column
            (λ at. at.column < length table.now.names)) aggs.now }
        requires rows { All (λ row. row < length table.now.rows) rows.now }
        requires room { length rows.now ≤ length numbers.old }
        ensures funcs { funcs_of self.new ≡ funcs_of self.old }
        ensures folds { OnOk result ((done : List FoldedRow)
            → length done + length rows.now ≤ 2 ^ 62 → Folds done self.old
            → Folds (done ++ map (folded_at table.now by.now aggs.now) rows.now) self.new) }
    {
        let mut done = self.fold_known(table, by, aggs, rows, numbers);
        while done < rows.len() {
            self.fold_new(table, by, aggs, rows[done])?;
            let more = self.fold_known(table, by, aggs, &rows[done + 1..], numbers);
            done = done + 1 + more;
        }
        Ok(())
    }

    // Folds the first of a table's rows, column by column: those before the first row whose key the
    // side doesn't have. It answers how many these are, and takes no memory.
    fn fold_known(
        &mut self,
        table: &Table,
        by: &[ColumnAt],
        aggs: &[AggAt],
        rows: &[u32],
        numbers: &mut [u32],
    ) -> usize
        requires width { IsWithin 1 2 (length by.now) }
        requires by { All (λ at. at.column < length table.now.names) by.now }
        requires aggs { length aggs.now ≡ length self.old.columns }
        requires columns { All (λ agg. IfSome agg.column
            (λ at. at.column < length table.now.names)) aggs.now }
        requires rows { All (λ row. row < length table.now.rows) rows.now }
        requires room { length rows.now ≤ length numbers.old }
        ensures few { result ≤ length rows.now }
        ensures funcs { funcs_of self.new ≡ funcs_of self.old }
        ensures stops { result < length rows.now → IsAbsent self.new.keys
            (key_by table.now by.now (slice_index rows.now result)) }
        ensures folds { (done : List FoldedRow) → length done + result ≤ 2 ^ 62
            → Folds done self.old → Folds (done ++ map (folded_at table.now by.now aggs.now)
            (take result rows.now)) self.new }
    {
        let known = known_numbers(&self.keys, table, by, rows, numbers);
        let rows = &rows[..known];
        fold_columns(&mut self.columns, table, aggs, rows, &numbers[..known]);
        known
    }

    // Folds a table's row whose key the side doesn't have.
    fn fold_new(
        &mut self,
        table: &Table,
        by: &[ColumnAt],
        aggs: &[AggAt],
        row: u32,
    ) -> Result<(), AllocError>
        requires width { IsWithin 1 2 (length by.now) }
        requires by { All (λ at. at.column < length table.now.names) by.now }
        requires aggs { length aggs.now ≡ length self.old.columns }
        requires columns { All (λ agg. IfSome agg.column
            (λ at. at.column < length table.now.names)) aggs.now }
        requires row { row < length table.now.rows }
        requires absent { IsAbsent self.old.keys (key_by table.now by.now row) }
        ensures funcs { funcs_of self.new ≡ funcs_of self.old }
        ensures folds { OnOk result ((done : List FoldedRow) → length done < 2 ^ 62
            → Folds done self.old
            → Folds (done ++ folded_at table.now by.now aggs.now row ∷ []) self.new) }
    {
        let key = table_key(table, by, row);
        let number = new_number(&mut self.keys, &mut self.parts, &mut self.columns, key)?;
        fold_table_row(&mut self.columns, number, table, aggs, row);
        Ok(())
    }

    // Adds the totals of another side's group to those of the same key.
    fn add_group(&mut self, other: &GroupSide, from: usize) -> Result<(), AllocError>
        requires within { from < length other.now.keys }
        requires same { funcs_of self.old ≡ funcs_of other.now }
        ensures funcs { funcs_of self.new ≡ funcs_of self.old }
        ensures folds { OnOk result ((rows others : List FoldedRow)
            → let key = key_at other.now.keys from in
            length (rows_with key rows) + length (rows_with key others) ≤ 2 ^ 62
            → Folds rows self.old → Folds others other.now
            → Folds (rows ++ rows_with key others) self.new) }
        ensures err { OnErr result (self.new ≡ self.old) }
    {
        let key = other.keys.key(from);
        let number = number_with_room(&mut self.keys, &mut self.parts, &mut self.columns, key)?;
        add_totals(&mut self.columns, number, other.columns.as_slice(), from);
        Ok(())
    }

    /// Adds the groups of one part of another side, key by key. It goes over these groups alone.
    ///
    /// If memory runs out, this side has taken some of these groups: drop it.
    pub fn merge_part(&mut self, part: u32, other: &GroupSide) -> Result<(), AllocError>
        requires part { part < 16 }
        requires same { funcs_of self.old ≡ funcs_of other.now }
        ensures funcs { funcs_of self.new ≡ funcs_of self.old }
        ensures folds { OnOk result ((rows others : List FoldedRow)
            → length rows + length others ≤ 2 ^ 62 → Folds rows self.old → Folds others other.now
            → Folds (rows ++ rows_in part others) self.new) }
        ensures err { OnErr result ((rows others : List FoldedRow)
            → length rows + length others ≤ 2 ^ 62 → Folds rows self.old → Folds others other.now
            → FoldsSomeKeys rows (rows_in part others) self.new) }
    {
        let mut at = other.parts.heads[part as usize];
        while at != 0 {
            let number = (at - 1) as usize;
            self.add_group(other, number)?;
            at = other.parts.nexts[number];
        }
        Ok(())
    }

    /// How many aggregates there are.
    pub fn aggregates(&self) -> usize
        ensures { result ≡ length self.now.columns }
    {
        self.columns.len()
    }

    /// How many groups there are. Their numbers are those below it.
    pub fn len(&self) -> usize
        ensures { result ≡ length self.now.keys }
    {
        self.keys.len()
    }

    /// The key of a group. No two groups have the same.
    pub fn key(&self, number: usize) -> Key
        requires { number < length self.now.keys }
        ensures key { result ≡ key_at self.now.keys number }
        ensures distinct { AreDistinct self.now.keys }
    {
        self.keys.key(number)
    }

    /// The total of a group that the aggregate at this place makes.
    pub fn total(&self, number: usize, place: usize) -> AggValue
        requires number { number < length self.now.keys }
        requires place { place < length self.now.columns }
        ensures value { result ≡ total_at self.now place number }
        ensures folds { (rows : List FoldedRow) → Folds rows self.now
            → result ≡ total_of (column_of self.now place).func place
            (key_at self.now.keys number) rows }
    {
        self.columns[place].total(number)
    }
}
