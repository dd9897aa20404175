// The queries of a large input.
ghost use Rattle.std.specs.Prelude.{◌≡◌, ◌<◌, ◌≤◌, IfOk, IsTrue, OnOk};
ghost use Rattle.col_table.specs.Name.{is_name};
ghost use Rattle.load_gen.specs.Draws.{next_state};
ghost use Rattle.load_gen.specs.Queries.{after_filters, column_of, count_and_sum_of, filter_of};
ghost use Rattle.load_gen.specs.Queries.{filters_of, joins_of, kind_of, output_of, queries_from};
ghost use Rattle.load_gen.specs.Queries.{query_of};

use crate::draws::Draws;
use crate::names::name;
use col_table::ListOf;
use plan_ast::{Agg, Filter, Func, Join, NameRef, Op, Output, Query};
use std::alloc::{AllocError, Global};

/// The number of queries.
pub const QUERY_COUNT: u32 = 40;

// The kinds of queries. Each query has the next kind, in turn.
#[derive(Clone, Copy)]
pub(crate) enum Kind {
    // The count and the sum of the rows whose value is at least a bound.
    FilteredTotals,
    // The count and the sum of each group.
    GroupTotals,
    // The count and the sum of the weights that a join finds.
    JoinTotals,
    // The keys and values of a key in a group.
    FilteredRows,
}

// The kind of the query at a place.
fn kind_at(place: u32) -> Kind
    ensures { result ≡ kind_of place }
{
    match place % 4 {
        0 => Kind::FilteredTotals,
        1 => Kind::GroupTotals,
        2 => Kind::JoinTotals,
        _ => Kind::FilteredRows,
    }
}

/// The queries, in order.
pub(crate) fn draw_queries(alloc: Global, draws: &mut Draws) -> Result<ListOf<Query>, AllocError>
    ensures { IfOk result (λ queries. queries ≡ queries_from draws.old) }
{
    let mut queries = Vec::with_capacity(alloc, QUERY_COUNT as usize)?;
    for place in 0..QUERY_COUNT {
        queries.push(draw_query(alloc, draws, place)?)?;
    }
    Ok(ListOf::of(queries))
}

// The query at a place.
fn draw_query(alloc: Global, draws: &mut Draws, place: u32) -> Result<Query, AllocError>
    ensures query { IfOk result (λ query. query ≡ query_of draws.old place) }
    ensures draws { OnOk result
        (draws.new ≡ after_filters (next_state (next_state draws.old)) (kind_of place)) }
{
    let kind = kind_at(place);
    let weight = 1 + draws.below(10);
    let cost = 50 + draws.below(200);
    let filters = draw_filters(alloc, draws, kind)?;
    Ok(Query {
        after: place / 2,
        weight,
        cost,
        scan: name(alloc, "t")?,
        filters,
        joins: joins(alloc, kind)?,
        output: output(alloc, kind)?,
    })
}

// The filters of a query of a kind.
fn draw_filters(alloc: Global, draws: &mut Draws, kind: Kind) -> Result<ListOf<Filter>, AllocError>
    ensures filters { IfOk result (λ filters. filters ≡ filters_of draws.old kind) }
    ensures draws { OnOk result (draws.new ≡ after_filters draws.old kind) }
{
    match kind {
        Kind::FilteredTotals => {
            let large = filter(alloc, "v", Op::Ge, draws.signed())?;
            Ok(ListOf::of(vec![in alloc; large]?))
        }
        Kind::FilteredRows => {
            let of_key = filter(alloc, "k", Op::Eq, draws.value_below(1_000))?;
            let of_group = filter(alloc, "g", Op::Eq, draws.value_below(16))?;
            Ok(ListOf::of(vec![in alloc; of_key, of_group]?))
        }
        Kind::GroupTotals | Kind::JoinTotals => Ok(ListOf::of(Vec::new(alloc))),
    }
}

fn filter(alloc: Global, column: &str, op: Op, value: i64) -> Result<Filter, AllocError>
    requires { IsTrue (is_name column.now) }
    ensures { IfOk result (λ filter. filter ≡ filter_of column.now op value) }
{
    Ok(Filter {
        column: name(alloc, column)?,
        op,
        value,
    })
}

// The joins of a query of a kind.
fn joins(alloc: Global, kind: Kind) -> Result<ListOf<Join>, AllocError>
    ensures { IfOk result (λ joins. joins ≡ joins_of kind) }
{
    match kind {
        Kind::JoinTotals => {
            let join = Join {
                table: name(alloc, "u")?,
                left: column(alloc, 0, "k")?,
                right: name(alloc, "k")?,
                filters: ListOf::of(Vec::new(alloc)),
            };
            Ok(ListOf::of(vec![in alloc; join]?))
        }
        _ => Ok(ListOf::of(Vec::new(alloc))),
    }
}

// The output of a query of a kind.
fn output(alloc: Global, kind: Kind) -> Result<Output, AllocError>
    ensures { IfOk result (λ output. output ≡ output_of kind) }
{
    match kind {
        Kind::FilteredTotals => {
            let aggs = count_and_sum(alloc, column(alloc, 0, "v")?)?;
            Ok(Output::Totals(aggs))
        }
        Kind::GroupTotals => {
            let by = vec![in alloc; column(alloc, 0, "g")?]?;
            let aggs = count_and_sum(alloc, column(alloc, 0, "v")?)?;
            Ok(Output::Groups {
                by: ListOf::of(by),
                aggs,
            })
        }
        Kind::JoinTotals => {
            let aggs = count_and_sum(alloc, column(alloc, 1, "w")?)?;
            Ok(Output::Totals(aggs))
        }
        Kind::FilteredRows => {
            let columns = vec![in alloc; column(alloc, 0, "k")?, column(alloc, 0, "v")?]?;
            Ok(Output::Rows(ListOf::of(columns)))
        }
    }
}

fn count_and_sum(alloc: Global, column: NameRef) -> Result<ListOf<Agg>, AllocError>
    ensures { IfOk result (λ aggs. aggs ≡ count_and_sum_of column) }
{
    let count = Agg {
        func: Func::Count,
        column: None,
    };
    let sum = Agg {
        func: Func::Sum,
        column: Some(column),
    };
    Ok(ListOf::of(vec![in alloc; count, sum]?))
}

fn column(alloc: Global, side: u32, text: &str) -> Result<NameRef, AllocError>
    requires { IsTrue (is_name text.now) }
    ensures { IfOk result (λ column. column ≡ column_of side text.now) }
{
    Ok(NameRef {
        side,
        name: name(alloc, text)?,
    })
}
