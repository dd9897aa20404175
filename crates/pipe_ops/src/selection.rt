// The rows of a range that pass filters, column by column.
ghost use Rattle.std.specs.Prelude.{◌≡◌, ◌-◌, ◌<◌, ◌≤◌, [], ◌∷◌, filter, length, take};
ghost use Rattle.pipe_ops.specs.Placed.{AreFiltersOf};
ghost use Rattle.pipe_ops.specs.Selection.{BeginsWith, HasPlaces, IsRangeOf, compares_at};
ghost use Rattle.pipe_ops.specs.Selection.{passing_rows};
ghost use Rattle.pipe_ops.specs.StagePlaces.{numbers_from};

use crate::rows::compares;
use col_table::Table;
use plan_ast::{FilterAt, Op};

/// Writes the numbers of a range's rows that pass each of the filters, in order, and answers how
/// many there are.
pub(crate) fn select_rows(
    table: &Table,
    filters: &[FilterAt],
    from: u32,
    to: u32,
    rows: &mut [u32],
) -> usize
    requires filters { AreFiltersOf table.now filters.now }
    requires range { IsRangeOf from to (length table.now.rows) (length rows.old) }
    ensures { BeginsWith (passing_rows table.now filters.now (numbers_from from to))
        result rows.old rows.new }
{
    if filters.is_empty() {
        return all_rows(from, to, rows);
    }
    let mut count = select_by(table, &filters[0], from, to, rows);
    for place in 1..filters.len() {
        count = thin_by(table, &filters[place], rows, count);
    }
    count
}

// Writes the numbers of a range's rows that pass a filter.
fn select_by(table: &Table, by: &FilterAt, from: u32, to: u32, rows: &mut [u32]) -> usize
    requires column { by.now.column < length table.now.names }
    requires range { IsRangeOf from to (length table.now.rows) (length rows.old) }
    ensures { BeginsWith (passing_rows table.now (by.now ∷ []) (numbers_from from to))
        result rows.old rows.new }
{
    let column = table.column(by.column);
    select(column, by.op, by.value, from, to, rows)
}

// Keeps those of the first so many numbers whose rows pass a filter.
fn thin_by(table: &Table, by: &FilterAt, rows: &mut [u32], count: usize) -> usize
    requires column { by.now.column < length table.now.names }
    requires places { HasPlaces (length table.now.rows) count rows.old }
    ensures { BeginsWith (passing_rows table.now (by.now ∷ []) (take count rows.old))
        result rows.old rows.new }
{
    let column = table.column(by.column);
    thin(column, by.op, by.value, rows, count)
}

// Writes the numbers of a range.
fn all_rows(from: u32, to: u32, rows: &mut [u32]) -> usize
    requires order { from ≤ to }
    requires room { to - from ≤ length rows.old }
    ensures { BeginsWith (numbers_from from to) result rows.old rows.new }
{
    let mut count = 0;
    for row in from..to {
        rows[count] = row;
        count += 1;
    }
    count
}

// Writes the numbers of a range whose values stand in a relation to another. Each relation has a
// loop of its own. Few values equal one, so these are counted first.
fn select(column: &[i64], op: Op, value: i64, from: u32, to: u32, rows: &mut [u32]) -> usize
    requires range { IsRangeOf from to (length column.now) (length rows.old) }
    ensures { BeginsWith (filter (compares_at op column.now value) (numbers_from from to))
        result rows.old rows.new }
{
    match op {
        Op::Eq => select_rare(column, Op::Eq, value, from, to, rows),
        Op::Ne => select_each(column, Op::Ne, value, from, to, rows),
        Op::Lt => select_each(column, Op::Lt, value, from, to, rows),
        Op::Le => select_each(column, Op::Le, value, from, to, rows),
        Op::Gt => select_each(column, Op::Gt, value, from, to, rows),
        Op::Ge => select_each(column, Op::Ge, value, from, to, rows),
    }
}

// The same, for a relation in which few values stand. Often none of a range does, and to count them
// takes less time than to write.
#[inline(always)]
#[tactic(auto, using(crate::proofs::SelectionLemmas::none_selected))]
fn select_rare(column: &[i64], op: Op, value: i64, from: u32, to: u32, rows: &mut [u32]) -> usize
    requires range { IsRangeOf from to (length column.now) (length rows.old) }
    ensures { BeginsWith (filter (compares_at op column.now value) (numbers_from from to))
        result rows.old rows.new }
{
    if count_passing(column, op, value, from, to) == 0 {
        0
    } else {
        select_each(column, op, value, from, to, rows)
    }
}

// How many values of a range stand in a relation to another.
#[inline(always)]
fn count_passing(column: &[i64], op: Op, value: i64, from: u32, to: u32) -> usize
    requires order { from ≤ to }
    requires within { to ≤ length column.now }
    ensures { result ≡ length (filter (compares_at op column.now value) (numbers_from from to)) }
{
    let mut count = 0;
    for row in from..to {
        count += usize::from(compares(op, column[row as usize], value));
    }
    count
}

// Writes the numbers of a range whose values stand in a relation to another. Each number is
// written, and the next one over it if it fails.
#[inline(always)]
fn select_each(column: &[i64], op: Op, value: i64, from: u32, to: u32, rows: &mut [u32]) -> usize
    requires range { IsRangeOf from to (length column.now) (length rows.old) }
    ensures { BeginsWith (filter (compares_at op column.now value) (numbers_from from to))
        result rows.old rows.new }
{
    let mut count = 0;
    for row in from..to {
        rows[count] = row;
        count += usize::from(compares(op, column[row as usize], value));
    }
    count
}

// Keeps those of the first so many numbers whose values stand in a relation to another. Each
// relation has a loop of its own.
fn thin(column: &[i64], op: Op, value: i64, rows: &mut [u32], count: usize) -> usize
    requires places { HasPlaces (length column.now) count rows.old }
    ensures { BeginsWith (filter (compares_at op column.now value) (take count rows.old))
        result rows.old rows.new }
{
    match op {
        Op::Eq => thin_each(column, Op::Eq, value, rows, count),
        Op::Ne => thin_each(column, Op::Ne, value, rows, count),
        Op::Lt => thin_each(column, Op::Lt, value, rows, count),
        Op::Le => thin_each(column, Op::Le, value, rows, count),
        Op::Gt => thin_each(column, Op::Gt, value, rows, count),
        Op::Ge => thin_each(column, Op::Ge, value, rows, count),
    }
}

// The same, for one relation.
#[inline(always)]
fn thin_each(column: &[i64], op: Op, value: i64, rows: &mut [u32], count: usize) -> usize
    requires places { HasPlaces (length column.now) count rows.old }
    ensures { BeginsWith (filter (compares_at op column.now value) (take count rows.old))
        result rows.old rows.new }
{
    let mut kept = 0;
    for place in 0..count {
        let row = rows[place];
        rows[kept] = row;
        kept += usize::from(compares(op, column[row as usize], value));
    }
    kept
}
