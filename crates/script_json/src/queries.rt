// The parts of a query in a script.
ghost use Rattle.std.specs.Prelude.{◌≡◌, [], codes};
ghost use Rattle.serde_json.specs.Data.{Data, Items, no_items, item};
ghost use Rattle.serde_json.specs.View.{view};
ghost use Rattle.script_json.specs.Forms.{Gives, optional};
ghost use Rattle.script_json.specs.Format.{aggregate, counts, filter, filters, groups, groups_of};
ghost use Rattle.script_json.specs.Format.{has, join, joined_column, joins, output, query};
ghost use Rattle.script_json.specs.Format.{reference, rows_of, totals_of};

use crate::form::{
    ArrayForm, Form, WholeForm, check_keys, read_optional, read_required, under_index,
};
use crate::refusal::ScriptRefusal;
use crate::words::{AnyNumberForm, FunctionForm, NameForm, OperatorForm};
use col_table::ListOf;
use plan_ast::{
    Agg, Filter, Func, Join, MAX_AFTER, MAX_COST, MAX_FILTERS, MAX_GROUP_COLUMNS, MAX_JOINS,
    MAX_OUTPUTS, MAX_WEIGHT, NameRef, Output, Query,
};
use serde_json::Value;
use std::alloc::Global;

const AFTER: WholeForm = WholeForm {
    least: 0,
    most: MAX_AFTER,
};

const WEIGHT: WholeForm = WholeForm {
    least: 1,
    most: MAX_WEIGHT,
};

const COST: WholeForm = WholeForm {
    least: 1,
    most: MAX_COST,
};

const JOINS: ArrayForm<JoinForm> = ArrayForm {
    least: 0,
    most: MAX_JOINS as u32,
    item: JoinForm,
};

const FILTERS: ArrayForm<FilterForm> = ArrayForm {
    least: 0,
    most: MAX_FILTERS as u32,
    item: FilterForm,
};

const AGGREGATES: ArrayForm<AggregateForm> = ArrayForm {
    least: 1,
    most: MAX_OUTPUTS as u32,
    item: AggregateForm,
};

/// A filter.
#[derive(Drop)]
pub(crate) struct FilterForm;

impl Form for FilterForm {
    type Made = Filter;

    ghost reading = { λ _. filter };

    fn read(&self, alloc: Global, value: &Value) -> Result<Filter, ScriptRefusal> {
        check_keys(alloc, value, &["col", "op", "value"])?;
        let column = read_required(alloc, value, "col", &NameForm)?;
        let op = read_required(alloc, value, "op", &OperatorForm)?;
        let bound = read_required(alloc, value, "value", &AnyNumberForm)?;
        Ok(Filter {
            column,
            op,
            value: bound,
        })
    }
}

// The filters of a query or a join, which may have none.
fn read_filters(alloc: Global, value: &Value) -> Result<ListOf<Filter>, ScriptRefusal>
    ensures { Gives (optional (codes "where") [] filters (view value.now)) result }
{
    let none = ListOf::of(Vec::new(alloc));
    read_optional(alloc, value, "where", none, &FILTERS)
}

/// A column of the scanned table or of a join's.
#[derive(Drop)]
pub(crate) struct ReferenceForm;

impl Form for ReferenceForm {
    type Made = NameRef;

    ghost reading = { λ _. reference };

    fn read(&self, alloc: Global, value: &Value) -> Result<NameRef, ScriptRefusal> {
        let Some(items) = value.as_array() else {
            let name = NameForm.read(alloc, value)?;
            return Ok(NameRef { side: 0, name });
        };
        let items = items.as_slice();
        if items.len() != 2 {
            return Err(ScriptRefusal::wrong_shape(alloc));
        }
        read_joined(alloc, &items[0], &items[1])
    }
}

// A column of a join's table.
fn read_joined(alloc: Global, side: &Value, name: &Value) -> Result<NameRef, ScriptRefusal>
    ensures { Gives (joined_column (view side.now) (view name.now)) result }
{
    let sides = WholeForm {
        least: 1,
        most: MAX_JOINS as u32,
    };
    let side = under_index(0, sides.read(alloc, side))?;
    let name = under_index(1, NameForm.read(alloc, name))?;
    Ok(NameRef { side, name })
}

/// A join.
#[derive(Drop)]
pub(crate) struct JoinForm;

impl Form for JoinForm {
    type Made = Join;

    ghost reading = { λ _. join };

    fn read(&self, alloc: Global, value: &Value) -> Result<Join, ScriptRefusal> {
        check_keys(alloc, value, &["table", "left", "right", "where"])?;
        let table = read_required(alloc, value, "table", &NameForm)?;
        let left = read_required(alloc, value, "left", &ReferenceForm)?;
        let right = read_required(alloc, value, "right", &NameForm)?;
        let filters = read_filters(alloc, value)?;
        Ok(Join {
            table,
            left,
            right,
            filters,
        })
    }
}

// The joins of a query, which may have none.
fn read_joins(alloc: Global, value: &Value) -> Result<ListOf<Join>, ScriptRefusal>
    ensures { Gives (optional (codes "joins") [] joins (view value.now)) result }
{
    let none = ListOf::of(Vec::new(alloc));
    read_optional(alloc, value, "joins", none, &JOINS)
}

/// An aggregate. One that counts has no column.
#[derive(Drop)]
pub(crate) struct AggregateForm;

impl Form for AggregateForm {
    type Made = Agg;

    ghost reading = { λ _. aggregate };

    fn read(&self, alloc: Global, value: &Value) -> Result<Agg, ScriptRefusal> {
        if is_count(value) {
            check_keys(alloc, value, &["fn"])?;
            return Ok(Agg {
                func: Func::Count,
                column: None,
            });
        }
        check_keys(alloc, value, &["fn", "col"])?;
        let func = read_required(alloc, value, "fn", &FunctionForm)?;
        let column = read_required(alloc, value, "col", &ReferenceForm)?;
        Ok(Agg {
            func,
            column: Some(column),
        })
    }
}

// Whether the `fn` of an aggregate is `count`.
fn is_count(value: &Value) -> bool
    ensures { result ≡ counts (view value.now) }
{
    match value.get("fn").and_then(Value::as_str) {
        Some(text) => text == "count",
        None => false,
    }
}

/// The groups of an output.
#[derive(Drop)]
struct GroupsForm;

impl Form for GroupsForm {
    type Made = Output;

    ghost reading = { λ _. groups };

    fn read(&self, alloc: Global, value: &Value) -> Result<Output, ScriptRefusal> {
        check_keys(alloc, value, &["by", "aggs"])?;
        let columns = ArrayForm {
            least: 1,
            most: MAX_GROUP_COLUMNS as u32,
            item: ReferenceForm,
        };
        let by = read_required(alloc, value, "by", &columns)?;
        let aggs = read_required(alloc, value, "aggs", &AGGREGATES)?;
        Ok(Output::Groups { by, aggs })
    }
}

/// What a query puts out.
#[derive(Drop)]
pub(crate) struct OutputForm;

impl Form for OutputForm {
    type Made = Output;

    ghost reading = { λ _. output };

    fn read(&self, alloc: Global, value: &Value) -> Result<Output, ScriptRefusal> {
        match (
            has_key(value, "rows"),
            has_key(value, "totals"),
            has_key(value, "groups"),
        ) {
            (true, false, false) => read_rows(alloc, value),
            (false, true, false) => read_totals(alloc, value),
            (false, false, true) => read_groups(alloc, value),
            _ => Err(ScriptRefusal::wrong_shape(alloc)),
        }
    }
}

fn has_key(value: &Value, key: &str) -> bool
    ensures { result ≡ has key.now (view value.now) }
{
    value.get(key).is_some()
}

fn read_rows(alloc: Global, value: &Value) -> Result<Output, ScriptRefusal>
    ensures { Gives (rows_of (view value.now)) result }
{
    check_keys(alloc, value, &["rows", "totals", "groups"])?;
    let columns = ArrayForm {
        least: 1,
        most: MAX_OUTPUTS as u32,
        item: ReferenceForm,
    };
    Ok(Output::Rows(read_required(alloc, value, "rows", &columns)?))
}

fn read_totals(alloc: Global, value: &Value) -> Result<Output, ScriptRefusal>
    ensures { Gives (totals_of (view value.now)) result }
{
    check_keys(alloc, value, &["rows", "totals", "groups"])?;
    Ok(Output::Totals(read_required(alloc, value, "totals", &AGGREGATES)?))
}

fn read_groups(alloc: Global, value: &Value) -> Result<Output, ScriptRefusal>
    ensures { Gives (groups_of (view value.now)) result }
{
    check_keys(alloc, value, &["rows", "totals", "groups"])?;
    read_required(alloc, value, "groups", &GroupsForm)
}

/// A query.
#[derive(Drop)]
pub(crate) struct QueryForm;

impl Form for QueryForm {
    type Made = Query;

    ghost reading = { λ _. query };

    fn read(&self, alloc: Global, value: &Value) -> Result<Query, ScriptRefusal> {
        check_keys(
            alloc,
            value,
            &[
                "after", "weight", "cost", "scan", "where", "joins", "output",
            ],
        )?;
        let after = read_optional(alloc, value, "after", 0, &AFTER)?;
        let weight = read_optional(alloc, value, "weight", 10, &WEIGHT)?;
        let cost = read_optional(alloc, value, "cost", 100, &COST)?;
        let scan = read_required(alloc, value, "scan", &NameForm)?;
        let filters = read_filters(alloc, value)?;
        let joins = read_joins(alloc, value)?;
        let output = read_required(alloc, value, "output", &OutputForm)?;
        Ok(Query {
            after,
            weight,
            cost,
            scan,
            filters,
            joins,
            output,
        })
    }
}
