// The tables of a script.
ghost use Rattle.std.specs.Prelude.{◌≡◌, bytes_eq};
ghost use Rattle.std.specs.List.{list_any};
ghost use Rattle.serde_json.specs.View.{items_view, view};
ghost use Rattle.script_json.specs.Forms.{Gives, array_of, under};
ghost use Rattle.script_json.specs.declared.refusal.PathStep.TheVariants.{At};
ghost use Rattle.script_json.specs.Format.{new_name, table_entry};

use crate::form::{Form, check_keys, items_within, read_required, under_index};
use crate::refusal::ScriptRefusal;
use crate::script::{MAX_TABLES, TableEntry};
use crate::words::{FileForm, NameForm};
use col_table::{ListOf, Name};
use serde_json::Value;
use std::alloc::Global;

/// The name of a table, which no earlier entry has.
#[derive(Drop)]
struct NewNameForm<'a> {
    earlier: &'a [TableEntry],
}

impl Form for NewNameForm<'_> {
    type Made = Name;

    ghost reading = { λ form. new_name form.earlier.now };

    fn read(&self, alloc: Global, value: &Value) -> Result<Name, ScriptRefusal> {
        let name = NameForm.read(alloc, value)?;
        if is_taken(&name, self.earlier) {
            return Err(ScriptRefusal::twice_named(alloc));
        }
        Ok(name)
    }
}

fn is_taken(name: &Name, tables: &[TableEntry]) -> bool
    ensures { result ≡ list_any (λ entry. bytes_eq entry.name name.now) tables.now }
{
    tables.iter().any(|entry| entry.name == *name)
}

// The entry of a table, after the earlier ones.
fn read_entry(
    alloc: Global,
    value: &Value,
    earlier: &[TableEntry],
) -> Result<TableEntry, ScriptRefusal>
    ensures { Gives (table_entry earlier.now (view value.now)) result }
{
    check_keys(alloc, value, &["name", "file"])?;
    let name = read_required(alloc, value, "name", &NewNameForm { earlier })?;
    let file = read_required(alloc, value, "file", &FileForm)?;
    Ok(TableEntry { name, file })
}

// The entry at a place.
fn read_entry_at(
    alloc: Global,
    index: u32,
    value: &Value,
    earlier: &[TableEntry],
) -> Result<TableEntry, ScriptRefusal>
    ensures { Gives (under (At index) (table_entry earlier.now (view value.now))) result }
{
    under_index(index, read_entry(alloc, value, earlier))
}

/// The tables of a script.
#[derive(Drop)]
pub(crate) struct TablesForm;

impl Form for TablesForm {
    type Made = ListOf<TableEntry>;

    ghost reading = { λ _. array_of 0 8 table_entry };

    fn read(&self, alloc: Global, value: &Value) -> Result<ListOf<TableEntry>, ScriptRefusal> {
        let items = items_within(alloc, value, 0, MAX_TABLES as u32)?;
        let mut tables = Vec::new(alloc);
        for (index, item) in items.iter().enumerate() {
            let entry = read_entry_at(alloc, index as u32, item, tables.as_slice())?;
            tables.push(entry)?;
        }
        Ok(ListOf::of(tables))
    }
}
