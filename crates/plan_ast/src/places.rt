// Where the names of a query stand in its tables.

use crate::queries::{Func, Op};
use col_table::ListOf;

/// A column that was found: its side, and its number in that side's table.
#[derive(Clone, Copy, Debug, PartialEq, Eq)]
pub struct ColumnAt {
    pub side: u32,
    pub column: u32,
}

/// A filter, with the number of its column.
#[derive(Clone, Copy, Debug, PartialEq, Eq)]
pub struct FilterAt {
    pub column: u32,
    pub op: Op,
    pub value: i64,
}

/// The columns of a join: the one to its left, of a side before it, the number of the one to its
/// right, and those of its filters.
#[derive(Debug, Drop)]
pub struct JoinAt {
    pub left: ColumnAt,
    pub right: u32,
    pub filters: ListOf<FilterAt>,
}

/// An aggregate, with its column.
#[derive(Clone, Copy, Debug, PartialEq, Eq)]
pub struct AggAt {
    pub func: Func,
    pub column: Option<ColumnAt>,
}

/// The columns that a query puts out.
#[derive(Debug, Drop)]
pub enum OutputAt {
    Rows(ListOf<ColumnAt>),
    Totals(ListOf<AggAt>),
    Groups {
        by: ListOf<ColumnAt>,
        aggs: ListOf<AggAt>,
    },
}

/// Where all names of a query stand. Each list is in the order of the query's own.
#[derive(Debug, Drop)]
pub struct Places {
    /// The numbers of its tables, the scanned one first.
    pub tables: ListOf<usize>,

    /// The filters of the scanned table.
    pub filters: ListOf<FilterAt>,

    pub joins: ListOf<JoinAt>,

    pub output: OutputAt,
}
