// From bytes to a script.
ghost use Rattle.std.specs.Prelude.{◌≡◌, ◌⊎◌, ◌≤◌, All, IfErr, IfOk, Ok, length};
ghost use Rattle.serde_json.specs.Data.{Data};
ghost use Rattle.serde_json.specs.View.{view};
ghost use Rattle.plan_ast.specs.Bounds.{IsInBounds};
ghost use Rattle.script_json.specs.Forms.{Gives};
ghost use Rattle.script_json.specs.Format.{first_early, script, script_layout, version};
ghost use Rattle.script_json.specs.Objects.{reads_object};
ghost use Rattle.script_json.specs.Scripts.{IsJson, ReadsScript, RefusesScript};
ghost use Rattle.script_json.specs.WellFormed.{IsScript};

use crate::form::{ArrayForm, Form, check_keys, read_required};
use crate::queries::QueryForm;
use crate::refusal::ScriptRefusal;
use crate::script::{MAX_QUERIES, Script};
use crate::tables::TablesForm;
use col_table::without_mark;
use plan_ast::{Query, stages};
use serde_json::{Category, Value};
use std::alloc::Global;

/// Reads a script. It drops one leading byte order mark and reads the rest as JSON. If an object
/// repeats a key, its last value counts.
///
/// The refusal is the first one of a walk from the root, depth first. The walk takes the keys of an
/// object in the order of the format, and the items of an array in their order. `AfterTooLarge` is
/// checked after the whole walk. `OutOfMemory` may happen at any bytes.
///
/// Time is linear in the number of bytes, apart from looking up keys in JSON objects.
pub fn read_script(alloc: Global, bytes: &[u8]) -> Result<Script, ScriptRefusal>
    ensures accepted { IfOk result (ReadsScript bytes.now) }
    ensures refused { IfErr result (RefusesScript bytes.now) }
    ensures in_bounds { IfOk result (λ script. All IsInBounds script.queries) }
    ensures well_formed { IfOk result IsScript }
{
    let value = parse(alloc, bytes)?;
    ScriptForm.read(alloc, &value)
}

// The JSON value of bytes.
fn parse(alloc: Global, bytes: &[u8]) -> Result<Value, ScriptRefusal>
    ensures json { IfOk result (λ value. IsJson bytes.now (view value)) }
    ensures refused { IfErr result (λ refusal. (refusal ≡ ScriptRefusal.OutOfMemory)
        ⊎ ((refusal ≡ ScriptRefusal.NotJson) × ((value : Data) → ¬ IsJson bytes.now value))) }
{
    match Value::from_slice(alloc, without_mark(bytes)) {
        Ok(value) => Ok(value),
        Err(e) if e.classify() == Category::Memory => Err(ScriptRefusal::OutOfMemory),
        Err(_e) => Err(ScriptRefusal::NotJson),
    }
}

#[derive(Drop)]
struct VersionForm;

impl Form for VersionForm {
    type Made = ();

    ghost reading = { λ _. version };

    fn read(&self, alloc: Global, value: &Value) -> Result<(), ScriptRefusal> {
        let Some(written) = value.as_number() else {
            return Err(ScriptRefusal::wrong_shape(alloc));
        };
        if written.as_u64() != Some(1) {
            return Err(ScriptRefusal::VersionUnknown);
        }
        Ok(())
    }
}

#[derive(Drop)]
struct ScriptForm;

impl Form for ScriptForm {
    type Made = Script;

    ghost reading = { λ _. script };

    fn read(&self, alloc: Global, value: &Value) -> Result<Script, ScriptRefusal> {
        if !value.is_object() {
            return Err(ScriptRefusal::wrong_shape(alloc));
        }
        read_required(alloc, value, "version", &VersionForm)?;
        let script = read_members(alloc, value)?;
        match early_query(script.queries.as_slice()) {
            Some(query) => Err(ScriptRefusal::AfterTooLarge(query)),
            None => Ok(script),
        }
    }
}

const QUERIES: ArrayForm<QueryForm> = ArrayForm {
    least: 0,
    most: MAX_QUERIES as u32,
    item: QueryForm,
};

// The members of a script. The version is among them, though it was read before the keys were
// checked.
fn read_members(alloc: Global, value: &Value) -> Result<Script, ScriptRefusal>
    ensures { Gives (reads_object script_layout (view value.now)) result }
{
    check_keys(alloc, value, &["version", "tables", "queries"])?;
    read_required(alloc, value, "version", &VersionForm)?;
    let tables = read_required(alloc, value, "tables", &TablesForm)?;
    let queries = read_required(alloc, value, "queries", &QUERIES)?;
    Ok(Script { tables, queries })
}

// The first query that waits for more task sets than all before it have.
fn early_query(queries: &[Query]) -> Option<u32>
    requires in_bounds { All IsInBounds queries.now }
    requires few { length queries.now ≤ MAX_QUERIES }
    ensures { result ≡ first_early 0 0 queries.now }
{
    let mut before: u64 = 0;
    for (index, query) in queries.iter().enumerate() {
        if before < u64::from(query.after) {
            return Some(index as u32);
        }
        before += u64::from(stages(query));
    }
    None
}
