// Whether the numbers of a query lie within their limits.
ghost use Rattle.std.specs.Prelude.{◌↔◌, IsTrue};
ghost use Rattle.plan_ast.specs.Bounds.{AreAggsInBounds, AreFewFilters, IsAggInBounds, IsInBounds};
ghost use Rattle.plan_ast.specs.Bounds.{IsOutputInBounds};

use crate::queries::{Agg, Filter, Func, Output, Query};

/// The greatest number of task sets that a query may wait for.
pub const MAX_AFTER: u32 = 16_384;

/// The greatest weight of a query. The least is 1.
pub const MAX_WEIGHT: u32 = 10;

/// The greatest cost of one tuple, in nanoseconds. The least is 1.
pub const MAX_COST: u32 = 1_000_000;

/// The greatest number of filters in one list.
pub const MAX_FILTERS: usize = 16;

/// The greatest number of joins.
pub const MAX_JOINS: usize = 2;

/// The greatest number of columns or aggregates that a query puts out. The least is 1.
pub const MAX_OUTPUTS: usize = 8;

/// The greatest number of columns of a group's key. The least is 1.
pub const MAX_GROUP_COLUMNS: usize = 2;

impl Query {
    /// Whether all numbers of the query lie within their limits, and each aggregate has a column
    /// exactly if it doesn't count. It allocates nothing.
    pub fn in_bounds(&self) -> bool
        ensures { IsTrue result ↔ IsInBounds self.now }
    {
        let joins = self.joins.as_slice();
        self.after <= MAX_AFTER
            && (1..=MAX_WEIGHT).contains(&self.weight)
            && (1..=MAX_COST).contains(&self.cost)
            && are_few_filters(self.filters.as_slice())
            && joins.len() <= MAX_JOINS
            && joins
                .iter()
                .all(|join| are_few_filters(join.filters.as_slice()))
            && self.output.in_bounds()
    }
}

impl Output {
    fn in_bounds(&self) -> bool
        ensures { IsTrue result ↔ IsOutputInBounds self.now }
    {
        match self {
            Output::Rows(columns) => (1..=MAX_OUTPUTS).contains(&columns.as_slice().len()),
            Output::Totals(aggs) => are_aggs_in_bounds(aggs.as_slice()),
            Output::Groups { by, aggs } => {
                (1..=MAX_GROUP_COLUMNS).contains(&by.as_slice().len())
                    && are_aggs_in_bounds(aggs.as_slice())
            }
        }
    }
}

impl Agg {
    fn in_bounds(&self) -> bool
        ensures { IsTrue result ↔ IsAggInBounds self.now }
    {
        self.column.is_none() == (self.func == Func::Count)
    }
}

fn are_few_filters(filters: &[Filter]) -> bool
    ensures { IsTrue result ↔ AreFewFilters filters.now }
{
    filters.len() <= MAX_FILTERS
}

fn are_aggs_in_bounds(aggs: &[Agg]) -> bool
    ensures { IsTrue result ↔ AreAggsInBounds aggs.now }
{
    (1..=MAX_OUTPUTS).contains(&aggs.len()) && aggs.iter().all(|agg| agg.in_bounds())
}
