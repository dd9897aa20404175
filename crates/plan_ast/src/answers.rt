// Answers to queries.

use col_table::ListOf;

/// The value of one aggregate. The sum of no values is 0; their least and greatest are `None`.
#[derive(Debug, Drop)]
pub enum AggValue {
    Count(u64),
    Sum(i128),
    Least(Option<i64>),
    Greatest(Option<i64>),
}

/// The aggregates over the joined rows with one key.
#[derive(Debug, Drop)]
pub struct Group {
    pub key: ListOf<i64>,
    pub values: ListOf<AggValue>,
}

/// The answer to a query: rows in ascending order with doubles kept, totals, or groups in ascending
/// order of their keys.
#[derive(Debug, Drop)]
pub enum Answer {
    Rows(ListOf<ListOf<i64>>),
    Totals(ListOf<AggValue>),
    Groups(ListOf<Group>),
}
