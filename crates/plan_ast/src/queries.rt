// Queries as a script has them, and the tables that they name.

use col_table::{ListOf, Name, Table, Text};

/// A column of one of a query's tables. Side 0 is the scanned table, and side j, 1 or 2, the table
/// of join j.
#[derive(Clone, Debug, Drop)]
pub struct NameRef {
    pub side: u32,
    pub name: Name,
}

/// How a filter compares a column's value with its own.
#[derive(Clone, Copy, Debug, PartialEq, Eq)]
pub enum Op {
    Eq,
    Ne,
    Lt,
    Le,
    Gt,
    Ge,
}

/// Lets a row of a table pass if `op` holds of its value in `column` and `value`.
#[derive(Clone, Debug, Drop)]
pub struct Filter {
    pub column: Name,
    pub op: Op,
    pub value: i64,
}

/// Joins each row so far with the rows of `table` that pass `filters` and whose `right` equals the
/// row's `left`. `left` is a column of a side before this join's.
#[derive(Clone, Debug, Drop)]
pub struct Join {
    pub table: Name,
    pub left: NameRef,
    pub right: Name,
    pub filters: ListOf<Filter>,
}

/// What an aggregate makes of the values of a column.
#[derive(Clone, Copy, Debug, PartialEq, Eq)]
pub enum Func {
    Count,
    Sum,
    Min,
    Max,
}

/// An aggregate. It has a column exactly if it doesn't count.
#[derive(Clone, Debug, Drop)]
pub struct Agg {
    pub func: Func,
    pub column: Option<NameRef>,
}

/// What a query puts out: these columns of each joined row, totals over all of them, or totals for
/// each key.
#[derive(Clone, Debug, Drop)]
pub enum Output {
    Rows(ListOf<NameRef>),
    Totals(ListOf<Agg>),
    Groups {
        by: ListOf<NameRef>,
        aggs: ListOf<Agg>,
    },
}

/// A query over one scanned table and the tables of its joins.
#[derive(Clone, Debug, Drop)]
pub struct Query {
    /// How many task sets must be done before the query arrives: 0 to 16,384.
    pub after: u32,

    /// Its share of the workers' time: 1 to 10.
    pub weight: u32,

    /// The cost of one tuple, in nanoseconds: 1 to 1,000,000.
    pub cost: u32,

    /// The table whose rows are scanned.
    pub scan: Name,

    /// What its rows must pass: 0 to 16 filters.
    pub filters: ListOf<Filter>,

    /// The tables that are joined to it, one after another: 0 to 2.
    pub joins: ListOf<Join>,

    /// 1 to 8 columns or aggregates, and for groups 1 or 2 columns of the key.
    pub output: Output,
}

/// A table, with the name that queries give it and the file that it was read from.
#[derive(Debug, Drop)]
pub struct NamedTable {
    pub name: Name,
    pub file: Text,
    pub table: Table,
}
