// Finds the places of the names in a query, or refuses the first name that isn't there.
ghost use Rattle.std.specs.Prelude.{◌≡◌, ◌<◌, ◌⊎◌, [], ◌∷◌, ◌++◌, All, IfErr, IfOk, IfSome, None};
ghost use Rattle.std.specs.Prelude.{OnOk, Some, length, map};
ghost use Rattle.plan_ast.specs.Names.{agg_mention, agg_mentions, column_place, filter_mentions};
ghost use Rattle.plan_ast.specs.Names.{join_columns, join_tables, joins_mentions, mentions_of};
ghost use Rattle.plan_ast.specs.Names.{of_column, of_table, output_mentions, own_column};
ghost use Rattle.plan_ast.specs.Names.{table_place};
ghost use Rattle.plan_ast.specs.Places.{AddsTables, AreFound, AreJoinsAt, ArePlacesOf, IsJoinAt};
ghost use Rattle.plan_ast.specs.Places.{IsOutputAt, IsRefusedBy, agg_at, column_at, filter_at};
ghost use Rattle.plan_ast.specs.Places.{sides_at, table_at};

use crate::places::{AggAt, ColumnAt, FilterAt, JoinAt, OutputAt, Places};
use crate::queries::{Agg, Filter, Join, NameRef, NamedTable, Output, Query};
use crate::refusals::PlanRefusal;
use col_table::{ListOf, Name, Table};
use std::alloc::Global;

/// Where all names of a query stand.
pub(crate) fn find_places(
    alloc: Global,
    tables: &[NamedTable],
    query: &Query,
) -> Result<Places, PlanRefusal>
    ensures found { IfOk result (ArePlacesOf tables.now query.now) }
    ensures refused { IfErr result (IsRefusedBy tables.now (mentions_of tables.now query.now)) }
{
    let scanned = find_table(tables, &query.scan)?;
    let filters = find_filters(alloc, tables, scanned, query.filters.as_slice())?;
    let mut sides = vec![in alloc; scanned]?;
    let joins = find_joins(alloc, tables, &mut sides, query.joins.as_slice())?;
    let output = find_output(alloc, tables, sides.as_slice(), &query.output)?;
    Ok(Places {
        tables: ListOf::of(sides),
        filters,
        joins,
        output,
    })
}

// The place of the table of this name.
fn find_table(tables: &[NamedTable], name: &Name) -> Result<usize, PlanRefusal>
    ensures found { IfOk result (λ place. table_place tables.now name.now ≡ Some place) }
    ensures within { IfOk result (λ place. place < length tables.now) }
    ensures refused { IfErr result (IsRefusedBy tables.now (of_table name.now ∷ [])) }
{
    match place_of_table(tables, name) {
        Some(place) => Ok(place),
        None => Err(PlanRefusal::UnknownTable(name.clone()?)),
    }
}

fn place_of_table(tables: &[NamedTable], name: &Name) -> Option<usize>
    ensures found { result ≡ table_place tables.now name.now }
    ensures within { IfSome result (λ place. place < length tables.now) }
{
    tables.iter().position(|table| table.name == *name)
}

// The number of the column of this name.
fn find_column(table: &Table, name: &Name) -> Result<u32, PlanRefusal>
    ensures found { IfOk result (λ column. column_place table.now name.now ≡ Some column) }
    ensures refused { IfErr result (λ e. (e ≡ PlanRefusal.OutOfMemory)
        ⊎ ((column_place table.now name.now ≡ None) × (e ≡ PlanRefusal.UnknownColumn name.now))) }
{
    match table.find_column(name) {
        Some(column) => Ok(column),
        None => Err(PlanRefusal::UnknownColumn(name.clone()?)),
    }
}

/// The table at a place. It allocates nothing.
pub fn table_of(tables: &[NamedTable], place: usize) -> &Table
    requires { place < length tables.now }
    ensures { result.now ≡ table_at tables.now place }
{
    &tables[place].table
}

// A column of one of the sides, which are numbers of tables.
fn find_ref(
    tables: &[NamedTable],
    sides: &[usize],
    reference: &NameRef,
) -> Result<ColumnAt, PlanRefusal>
    requires { All (λ side. side < length tables.now) sides.now }
    ensures found { IfOk result
        (λ at. column_at (sides_at tables.now sides.now) reference.now ≡ Some at) }
    ensures refused { IfErr result (IsRefusedBy tables.now
        (of_column (sides_at tables.now sides.now) reference.now ∷ [])) }
{
    let NameRef { side, name } = reference;
    let Some(table) = sides.get(*side as usize) else {
        return Err(PlanRefusal::UnknownColumn(name.clone()?));
    };
    let column = find_column(table_of(tables, *table), name)?;
    Ok(ColumnAt {
        side: *side,
        column,
    })
}

// Each of the columns.
fn find_refs(
    alloc: Global,
    tables: &[NamedTable],
    sides: &[usize],
    references: &[NameRef],
) -> Result<ListOf<ColumnAt>, PlanRefusal>
    requires { All (λ side. side < length tables.now) sides.now }
    ensures found { IfOk result
        (AreFound (column_at (sides_at tables.now sides.now)) references.now) }
    ensures refused { IfErr result (IsRefusedBy tables.now
        (map (of_column (sides_at tables.now sides.now)) references.now)) }
{
    let mut found = Vec::with_capacity(alloc, references.len())?;
    for reference in references {
        found.push(find_ref(tables, sides, reference)?)?;
    }
    Ok(ListOf::of(found))
}

// A filter of the table at a place.
fn find_filter(tables: &[NamedTable], side: usize, filter: &Filter) -> Result<FilterAt, PlanRefusal>
    requires { side < length tables.now }
    ensures found { IfOk result (λ at. filter_at (table_at tables.now side) filter.now ≡ Some at) }
    ensures refused { IfErr result (IsRefusedBy tables.now
        (own_column (table_at tables.now side) filter.now.column ∷ [])) }
{
    let column = find_column(table_of(tables, side), &filter.column)?;
    Ok(FilterAt {
        column,
        op: filter.op,
        value: filter.value,
    })
}

// Each of the filters of the table at a place.
fn find_filters(
    alloc: Global,
    tables: &[NamedTable],
    side: usize,
    filters: &[Filter],
) -> Result<ListOf<FilterAt>, PlanRefusal>
    requires { side < length tables.now }
    ensures found { IfOk result (AreFound (filter_at (table_at tables.now side)) filters.now) }
    ensures refused { IfErr result (IsRefusedBy tables.now
        (filter_mentions (table_at tables.now side) filters.now)) }
{
    let mut found = Vec::with_capacity(alloc, filters.len())?;
    for filter in filters {
        found.push(find_filter(tables, side, filter)?)?;
    }
    Ok(ListOf::of(found))
}

// The columns of a join, whose table is at a place.
fn find_join(
    alloc: Global,
    tables: &[NamedTable],
    sides: &[usize],
    place: usize,
    join: &Join,
) -> Result<JoinAt, PlanRefusal>
    requires sides { All (λ side. side < length tables.now) sides.now }
    requires place { place < length tables.now }
    ensures found { IfOk result
        (IsJoinAt (sides_at tables.now sides.now) (table_at tables.now place) join.now) }
    ensures refused { IfErr result (IsRefusedBy tables.now
        (join_columns (sides_at tables.now sides.now) (table_at tables.now place) join.now)) }
{
    let left = find_ref(tables, sides, &join.left)?;
    let right = find_column(table_of(tables, place), &join.right)?;
    let filters = find_filters(alloc, tables, place, join.filters.as_slice())?;
    Ok(JoinAt {
        left,
        right,
        filters,
    })
}

// The columns of each join. The number of its table is added to the sides.
fn find_joins(
    alloc: Global,
    tables: &[NamedTable],
    sides: &mut Vec<usize>,
    joins: &[Join],
) -> Result<ListOf<JoinAt>, PlanRefusal>
    requires { All (λ side. side < length tables.now) sides.old.items }
    ensures sides { OnOk result
        (AddsTables tables.now (join_tables joins.now) sides.old.items sides.new.items) }
    ensures within { OnOk result (All (λ side. side < length tables.now) sides.new.items) }
    ensures found { IfOk result
        (AreJoinsAt tables.now (sides_at tables.now sides.old.items) joins.now) }
    ensures refused { IfErr result (IsRefusedBy tables.now
        (joins_mentions tables.now (sides_at tables.now sides.old.items) joins.now)) }
{
    let mut found = Vec::with_capacity(alloc, joins.len())?;
    for join in joins {
        let place = find_table(tables, &join.table)?;
        found.push(find_join(alloc, tables, sides.as_slice(), place, join)?)?;
        sides.push(place)?;
    }
    Ok(ListOf::of(found))
}

// The column of an aggregate.
fn find_agg(tables: &[NamedTable], sides: &[usize], agg: &Agg) -> Result<AggAt, PlanRefusal>
    requires { All (λ side. side < length tables.now) sides.now }
    ensures found { IfOk result (λ at. agg_at (sides_at tables.now sides.now) agg.now ≡ Some at) }
    ensures refused { IfErr result (IsRefusedBy tables.now
        (agg_mention (sides_at tables.now sides.now) agg.now)) }
{
    let column = match &agg.column {
        Some(reference) => Some(find_ref(tables, sides, reference)?),
        None => None,
    };
    Ok(AggAt {
        func: agg.func,
        column,
    })
}

// The columns of each aggregate.
fn find_aggs(
    alloc: Global,
    tables: &[NamedTable],
    sides: &[usize],
    aggs: &[Agg],
) -> Result<ListOf<AggAt>, PlanRefusal>
    requires { All (λ side. side < length tables.now) sides.now }
    ensures found { IfOk result (AreFound (agg_at (sides_at tables.now sides.now)) aggs.now) }
    ensures refused { IfErr result (IsRefusedBy tables.now
        (agg_mentions (sides_at tables.now sides.now) aggs.now)) }
{
    let mut found = Vec::with_capacity(alloc, aggs.len())?;
    for agg in aggs {
        found.push(find_agg(tables, sides, agg)?)?;
    }
    Ok(ListOf::of(found))
}

// The columns of the output.
fn find_output(
    alloc: Global,
    tables: &[NamedTable],
    sides: &[usize],
    output: &Output,
) -> Result<OutputAt, PlanRefusal>
    requires { All (λ side. side < length tables.now) sides.now }
    ensures found { IfOk result (IsOutputAt (sides_at tables.now sides.now) output.now) }
    ensures refused { IfErr result (IsRefusedBy tables.now
        (output_mentions (sides_at tables.now sides.now) output.now)) }
{
    match output {
        Output::Rows(columns) => {
            let columns = find_refs(alloc, tables, sides, columns.as_slice())?;
            Ok(OutputAt::Rows(columns))
        }
        Output::Totals(aggs) => {
            let aggs = find_aggs(alloc, tables, sides, aggs.as_slice())?;
            Ok(OutputAt::Totals(aggs))
        }
        Output::Groups { by, aggs } => {
            let by = find_refs(alloc, tables, sides, by.as_slice())?;
            let aggs = find_aggs(alloc, tables, sides, aggs.as_slice())?;
            Ok(OutputAt::Groups { by, aggs })
        }
    }
}
