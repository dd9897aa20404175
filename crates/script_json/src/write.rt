// From a script to bytes.
ghost use Rattle.std.specs.Prelude.{◌≡◌, IfOk, OnOk, codes};
ghost use Rattle.serde_json.specs.Data.{Data, string, unsigned};
ghost use Rattle.serde_json.specs.Data.{number as json_number, put as with_member};
ghost use Rattle.serde_json.specs.View.{members_view, view};
ghost use Rattle.script_json.specs.Canonical.{script_text};
ghost use Rattle.script_json.specs.Format.{aggregate_value, entry_value, filter_value};
ghost use Rattle.script_json.specs.Format.{function_word, groups_layout, join_value, operator_word};
ghost use Rattle.script_json.specs.Format.{output_value};
ghost use Rattle.script_json.specs.Format.{query_value, reference_value, script_value};
ghost use Rattle.script_json.specs.Objects.{array_with, object_with, written_object};
ghost use Rattle.script_json.specs.Scripts.{ReadsScript};
ghost use Rattle.script_json.specs.WellFormed.{IsScript};

use crate::script::{Script, TableEntry};
use plan_ast::{Agg, Filter, Func, Join, NameRef, Op, Output, Query};
use serde_json::{Map, Value, json, put};
use std::alloc::{AllocError, Global};

/// The bytes of a script in its canonical form. `read_script` reads them as the same script.
///
/// The form is JSON with no space and no line end. The keys of each object are in the order of
/// their bytes. A query, a join and a filter have every key, even if its value is the default.
pub fn write_script(alloc: Global, script: &Script) -> Result<Vec<u8>, AllocError>
    requires { IsScript script.now }
    ensures text { IfOk result (λ bytes. bytes.items ≡ script_text script.now) }
    ensures reads_back { IfOk result (λ bytes. ReadsScript bytes.items script.now) }
{
    let value = value_of_script(alloc, script)?;
    value.to_vec(alloc)
}

// What is written as one JSON value. The members of an object are put in the order in which its
// layout lists them.
trait Written {
    ghost written: { Self → Data };

    fn to_json(&self, alloc: Global) -> Result<Value, AllocError>
        ensures { IfOk result (λ value. view value ≡ written self.now) };
}

// The array of what is written for each item.
fn array_of<T: Written>(alloc: Global, items: &[T]) -> Result<Value, AllocError>
    ensures { IfOk result (λ value. view value ≡ array_with T.written items.now) }
{
    let mut values = Vec::new(alloc);
    for item in items {
        values.push(item.to_json(alloc)?)?;
    }
    Ok(Value::from(values))
}

// Puts a number under a key.
fn put_number(
    alloc: Global,
    members: &mut Map<String, Value>,
    key: &str,
    number: u32,
) -> Result<(), AllocError>
    ensures { OnOk result (members_view members.new.entries
        ≡ with_member key.now (json_number (unsigned number)) (members_view members.old.entries)) }
{
    put(members, alloc, key, Value::from(number))
}

// Puts a text under a key.
fn put_text(
    alloc: Global,
    members: &mut Map<String, Value>,
    key: &str,
    text: &str,
) -> Result<(), AllocError>
    ensures { OnOk result (members_view members.new.entries
        ≡ with_member key.now (string text.now) (members_view members.old.entries)) }
{
    let text = Value::try_from_str(alloc, text)?;
    put(members, alloc, key, text)
}

// Puts what is written for a part under a key.
fn put_part<T: Written>(
    alloc: Global,
    members: &mut Map<String, Value>,
    key: &str,
    part: &T,
) -> Result<(), AllocError>
    ensures { OnOk result (members_view members.new.entries
        ≡ with_member key.now (T.written part.now) (members_view members.old.entries)) }
{
    let part = part.to_json(alloc)?;
    put(members, alloc, key, part)
}

// Puts the array of what is written for each item under a key.
fn put_array<T: Written>(
    alloc: Global,
    members: &mut Map<String, Value>,
    key: &str,
    items: &[T],
) -> Result<(), AllocError>
    ensures { OnOk result (members_view members.new.entries
        ≡ with_member key.now (array_with T.written items.now) (members_view members.old.entries)) }
{
    let items = array_of(alloc, items)?;
    put(members, alloc, key, items)
}

// An object with one member, which is the array of what is written for each item.
fn object_of_array<T: Written>(alloc: Global, key: &str, items: &[T]) -> Result<Value, AllocError>
    ensures { IfOk result (λ value. view value
        ≡ object_with key.now (array_with T.written items.now)) }
{
    let mut members = Map::new(alloc);
    put_array(alloc, &mut members, key, items)?;
    Ok(Value::Object(members))
}

impl Written for NameRef {
    ghost written = { reference_value };

    fn to_json(&self, alloc: Global) -> Result<Value, AllocError> {
        if self.side == 0 {
            Value::try_from_str(alloc, self.name.as_str())
        } else {
            json!(in alloc; [self.side, self.name.as_str()])
        }
    }
}

impl Written for Filter {
    ghost written = { filter_value };

    fn to_json(&self, alloc: Global) -> Result<Value, AllocError> {
        let op = word_of_operator(self.op);
        json!(in alloc; {"col": self.column.as_str(), "op": op, "value": self.value})
    }
}

fn word_of_operator(op: Op) -> &'static str
    ensures { result.now ≡ operator_word op }
{
    match op {
        Op::Eq => "=",
        Op::Ne => "<>",
        Op::Lt => "<",
        Op::Le => "<=",
        Op::Gt => ">",
        Op::Ge => ">=",
    }
}

impl Written for Join {
    ghost written = { join_value };

    fn to_json(&self, alloc: Global) -> Result<Value, AllocError> {
        let mut members = Map::new(alloc);
        put_text(alloc, &mut members, "table", self.table.as_str())?;
        put_part(alloc, &mut members, "left", &self.left)?;
        put_text(alloc, &mut members, "right", self.right.as_str())?;
        put_array(alloc, &mut members, "where", self.filters.as_slice())?;
        Ok(Value::Object(members))
    }
}

impl Written for Agg {
    ghost written = { aggregate_value };

    fn to_json(&self, alloc: Global) -> Result<Value, AllocError> {
        let func = word_of_function(self.func);
        match &self.column {
            None => json!(in alloc; {"fn": func}),
            Some(column) => {
                let column = column.to_json(alloc)?;
                json!(in alloc; {"col": column, "fn": func})
            }
        }
    }
}

fn word_of_function(func: Func) -> &'static str
    ensures { result.now ≡ function_word func }
{
    match func {
        Func::Count => "count",
        Func::Sum => "sum",
        Func::Min => "min",
        Func::Max => "max",
    }
}

impl Written for Output {
    ghost written = { output_value };

    fn to_json(&self, alloc: Global) -> Result<Value, AllocError> {
        match self {
            Output::Rows(columns) => object_of_array(alloc, "rows", columns.as_slice()),
            Output::Totals(aggs) => object_of_array(alloc, "totals", aggs.as_slice()),
            Output::Groups { by, aggs } => groups_written(alloc, by.as_slice(), aggs.as_slice()),
        }
    }
}

// The groups of an output, as the value of its only key.
fn groups_written(alloc: Global, by: &[NameRef], aggs: &[Agg]) -> Result<Value, AllocError>
    ensures { IfOk result (λ value. view value
        ≡ object_with (codes "groups") (written_object groups_layout (by.now, aggs.now))) }
{
    let mut members = Map::new(alloc);
    put_array(alloc, &mut members, "by", by)?;
    put_array(alloc, &mut members, "aggs", aggs)?;
    let groups = Value::Object(members);
    json!(in alloc; {"groups": groups})
}

impl Written for Query {
    ghost written = { query_value };

    fn to_json(&self, alloc: Global) -> Result<Value, AllocError> {
        let mut members = Map::new(alloc);
        put_number(alloc, &mut members, "after", self.after)?;
        put_number(alloc, &mut members, "weight", self.weight)?;
        put_number(alloc, &mut members, "cost", self.cost)?;
        put_text(alloc, &mut members, "scan", self.scan.as_str())?;
        put_array(alloc, &mut members, "where", self.filters.as_slice())?;
        put_array(alloc, &mut members, "joins", self.joins.as_slice())?;
        put_part(alloc, &mut members, "output", &self.output)?;
        Ok(Value::Object(members))
    }
}

impl Written for TableEntry {
    ghost written = { entry_value };

    fn to_json(&self, alloc: Global) -> Result<Value, AllocError> {
        json!(in alloc; {"file": self.file.as_str(), "name": self.name.as_str()})
    }
}

fn value_of_script(alloc: Global, script: &Script) -> Result<Value, AllocError>
    ensures { IfOk result (λ value. view value ≡ script_value script.now) }
{
    let mut members = Map::new(alloc);
    put_number(alloc, &mut members, "version", 1)?;
    put_array(alloc, &mut members, "tables", script.tables.as_slice())?;
    put_array(alloc, &mut members, "queries", script.queries.as_slice())?;
    Ok(Value::Object(members))
}
