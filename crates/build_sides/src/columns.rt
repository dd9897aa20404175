// The totals of one aggregate over all groups, by the number of the group.
ghost use Rattle.std.specs.Prelude.{◌≡◌, ◌<◌, ◌≤◌, pos, [], All, length, vec_len, vec_capacity};
ghost use Rattle.std.specs.Prelude.{slice_index_or, OnOk};
ghost use Rattle.std.specs.Int.{int_min, int_max};
ghost use Rattle.build_sides.specs.Columns.{FoldsValue, FoldsValues, HasRoom, HasRoomFor};
ghost use Rattle.build_sides.specs.Columns.{IsTotal, count_sum, func_of, put, puts, totals_of};
ghost use Rattle.build_sides.specs.Columns.{value_by, values_of, with_total, wrapped_sum};
ghost use Rattle.build_sides.specs.GroupTotals.{nothing_of};

use plan_ast::{AggValue, Func};
use std::alloc::{AllocError, Global};

// The totals of one aggregate. A group has at least one row, so that it has a least value and a
// greatest one.
#[derive(Debug, Drop)]
pub enum Column {
    Count(Vec<u64>),
    Sum(Vec<i128>),
    Least(Vec<i64>),
    Greatest(Vec<i64>),
}

// Adds a count to that of a group, or begins the next group with it.
#[inline(always)]
fn put_count(counts: &mut Vec<u64>, number: usize, count: u64)
    requires room { vec_len counts.old ≤ number → vec_len counts.old < vec_capacity counts.old }
    ensures { counts.new.items ≡ put count_sum counts.old.items number count }
{
    if number < counts.len() {
        counts[number] = counts[number].wrapping_add(count);
    } else {
        counts.push_reserved(count);
    }
}

// Adds a sum to that of a group, or begins the next group with it.
#[inline(always)]
fn put_sum(sums: &mut Vec<i128>, number: usize, sum: i128)
    requires room { vec_len sums.old ≤ number → vec_len sums.old < vec_capacity sums.old }
    ensures { sums.new.items ≡ put wrapped_sum sums.old.items number sum }
{
    if number < sums.len() {
        sums[number] = sums[number].wrapping_add(sum);
    } else {
        sums.push_reserved(sum);
    }
}

// Takes the lesser of a value and the least one of a group, or begins the next group with it.
#[inline(always)]
fn put_least(values: &mut Vec<i64>, number: usize, value: i64)
    requires room { vec_len values.old ≤ number → vec_len values.old < vec_capacity values.old }
    ensures { values.new.items ≡ put int_min values.old.items number value }
{
    if number < values.len() {
        values[number] = values[number].min(value);
    } else {
        values.push_reserved(value);
    }
}

// Takes the greater of a value and the greatest one of a group, or begins the next group with it.
#[inline(always)]
fn put_greatest(values: &mut Vec<i64>, number: usize, value: i64)
    requires room { vec_len values.old ≤ number → vec_len values.old < vec_capacity values.old }
    ensures { values.new.items ≡ put int_max values.old.items number value }
{
    if number < values.len() {
        values[number] = values[number].max(value);
    } else {
        values.push_reserved(value);
    }
}

// Counts a row for each of these groups.
fn count_each(counts: &mut [u64], numbers: &[u32])
    requires { All (λ n. n < length counts.old) numbers.now }
    ensures { counts.new ≡ puts count_sum counts.old numbers.now (λ _. 1) (length numbers.now) }
{
    for number in numbers {
        let number = *number as usize;
        counts[number] = counts[number].wrapping_add(1);
    }
}

// Adds the values of a column in these rows, each to the sum of its group.
fn sum_each(sums: &mut [i128], numbers: &[u32], column: &[i64], rows: &[u32])
    requires known { All (λ n. n < length sums.old) numbers.now }
    requires rows { All (λ row. row < length column.now) rows.now }
    requires same { length rows.now ≡ length numbers.now }
    ensures { sums.new ≡ puts wrapped_sum sums.old numbers.now
        (value_by column.now rows.now) (length numbers.now) }
{
    for (place, number) in numbers.iter().enumerate() {
        let number = *number as usize;
        let value = column[rows[place] as usize];
        sums[number] = sums[number].wrapping_add(i128::from(value));
    }
}

// Takes the values of a column in these rows, each into the least one of its group.
fn least_each(values: &mut [i64], numbers: &[u32], column: &[i64], rows: &[u32])
    requires known { All (λ n. n < length values.old) numbers.now }
    requires rows { All (λ row. row < length column.now) rows.now }
    requires same { length rows.now ≡ length numbers.now }
    ensures { values.new ≡ puts int_min values.old numbers.now
        (value_by column.now rows.now) (length numbers.now) }
{
    for (place, number) in numbers.iter().enumerate() {
        let number = *number as usize;
        values[number] = values[number].min(column[rows[place] as usize]);
    }
}

// Takes the values of a column in these rows, each into the greatest one of its group.
fn greatest_each(values: &mut [i64], numbers: &[u32], column: &[i64], rows: &[u32])
    requires known { All (λ n. n < length values.old) numbers.now }
    requires rows { All (λ row. row < length column.now) rows.now }
    requires same { length rows.now ≡ length numbers.now }
    ensures { values.new ≡ puts int_max values.old numbers.now
        (value_by column.now rows.now) (length numbers.now) }
{
    for (place, number) in numbers.iter().enumerate() {
        let number = *number as usize;
        values[number] = values[number].max(column[rows[place] as usize]);
    }
}

impl Column {
    // The totals of no groups.
    pub fn none(alloc: Global, func: Func) -> Column
        ensures { totals_of result ≡ record { func = func; values = [] } }
    {
        match func {
            Func::Count => Column::Count(Vec::new(alloc)),
            Func::Sum => Column::Sum(Vec::new(alloc)),
            Func::Min => Column::Least(Vec::new(alloc)),
            Func::Max => Column::Greatest(Vec::new(alloc)),
        }
    }

    // Makes room for one more group.
    pub fn reserve(&mut self) -> Result<(), AllocError>
        ensures same { totals_of self.new ≡ totals_of self.old }
        ensures room { OnOk result (HasRoom self.new) }
    {
        match self {
            Column::Count(counts) => counts.reserve(1),
            Column::Sum(sums) => sums.reserve(1),
            Column::Least(values) => values.reserve(1),
            Column::Greatest(values) => values.reserve(1),
        }
    }

    // Folds a value into the total of a group, or begins the next group with it.
    #[inline(always)]
    pub fn fold(&mut self, number: usize, value: i64)
        requires { HasRoomFor number self.old }
        ensures { FoldsValue number value self.old self.new }
    {
        match self {
            Column::Count(counts) => put_count(counts, number, 1),
            Column::Sum(sums) => put_sum(sums, number, i128::from(value)),
            Column::Least(values) => put_least(values, number, value),
            Column::Greatest(values) => put_greatest(values, number, value),
        }
    }

    // Folds the values of a column in these rows, each into the total of its group. Each kind has a
    // loop of its own.
    pub fn fold_each(&mut self, numbers: &[u32], column: &[i64], rows: &[u32])
        requires known { All (λ n. n < length (values_of self.old)) numbers.now }
        requires rows { All (λ row. row < length column.now) rows.now }
        requires same { length rows.now ≡ length numbers.now }
        ensures { FoldsValues numbers.now (value_by column.now rows.now) self.old self.new }
    {
        match self {
            Column::Count(counts) => count_each(counts.as_mut_slice(), numbers),
            Column::Sum(sums) => sum_each(sums.as_mut_slice(), numbers, column, rows),
            Column::Least(values) => least_each(values.as_mut_slice(), numbers, column, rows),
            Column::Greatest(values) => greatest_each(values.as_mut_slice(), numbers, column, rows),
        }
    }

    // Folds a zero for each of these rows into the total of its group.
    pub fn fold_zeros(&mut self, numbers: &[u32])
        requires { All (λ n. n < length (values_of self.old)) numbers.now }
        ensures { FoldsValues numbers.now (λ _. pos 0) self.old self.new }
    {
        if let Column::Count(counts) = self {
            count_each(counts.as_mut_slice(), numbers);
            return;
        }
        for number in numbers {
            self.fold(*number as usize, 0);
        }
    }

    // Adds a total to that of a group, or begins the next group with it.
    pub fn add(&mut self, number: usize, total: AggValue)
        requires room { HasRoomFor number self.old }
        requires some { IsTotal (func_of self.old) total }
        ensures { totals_of self.new ≡ with_total (totals_of self.old) number total }
    {
        match self {
            Column::Count(counts) => {
                if let AggValue::Count(count) = total {
                    put_count(counts, number, count);
                }
            }
            Column::Sum(sums) => {
                if let AggValue::Sum(sum) = total {
                    put_sum(sums, number, sum);
                }
            }
            Column::Least(values) => {
                if let AggValue::Least(Some(value)) = total {
                    put_least(values, number, value);
                }
            }
            Column::Greatest(values) => {
                if let AggValue::Greatest(Some(value)) = total {
                    put_greatest(values, number, value);
                }
            }
        }
    }

    // The total of a group.
    pub fn total(&self, number: usize) -> AggValue
        requires { number < length (values_of self.now) }
        ensures value { result
            ≡ slice_index_or (values_of self.now) number (nothing_of (totals_of self.now)) }
        ensures some { IsTotal (func_of self.now) result }
    {
        match self {
            Column::Count(counts) => AggValue::Count(counts[number]),
            Column::Sum(sums) => AggValue::Sum(sums[number]),
            Column::Least(values) => AggValue::Least(Some(values[number])),
            Column::Greatest(values) => AggValue::Greatest(Some(values[number])),
        }
    }
}
