//! The script and the tables of a command, read from their files, and its queries, checked.
ghost use Rattle.std.specs.Prelude.{◌≡◌, ◌≤◌, ℕ, List, All, IfErr, IfOk, OnOk, None, length, map};
ghost use Rattle.plan_ast.specs.Bounds.{IsInBounds};
ghost use Rattle.plan_ast.specs.Checks.{IsCheckedFor, query_of};
ghost use Rattle.script_json.specs.Format.{first_early};
ghost use Rattle.sched_tool.specs.Outsides.{may_hold};
ghost use Rattle.sched_tool.specs.ReadFaults.{FaultsAt};
ghost use Rattle.sched_tool.specs.Subjects.{AllAnswerable, HoldsScript, HoldsTable, HoldTables};
ghost use Rattle.sched_tool.specs.Subjects.{IsAccepted, subject_in};
ghost use Rattle.sched_tool.specs.Refusals.{AreQueriesRefused, AreTablesRefused, IsCheckRefused};
ghost use Rattle.sched_tool.specs.Refusals.{IsEntryRefused, query_refusal};

use super::refusal::{Refusal, ScriptFault, TableFault};
use col_table::{ListOf, Text};
use csv_tables::{TableRefusal, load};
use outside_io::{Files, MOST_BYTES, ReadRefusal, read_whole};
use plan_ast::{Checked, NamedTable, PlanRefusal, Query, check};
use script_json::{Script, ScriptRefusal, TableEntry, read_script};
use std::alloc::Global;

/// The tables of a script, and its queries, which were checked with them.
#[derive(Debug, Drop)]
pub struct Opened {
    pub tables: Vec<NamedTable>,
    pub queries: Vec<Checked>,
}

/// Reads the script in a file, then each of its tables, and then checks each of its queries. The
/// first refusal ends it. Each query arrives at the latest once all task sets of the queries before
/// it are done (`in_time`).
pub fn open_subject<F: Files>(alloc: Global, files: &mut F, file: &str) -> Result<Opened, Refusal>
    ensures kept { (any : List ℕ) → F.content files.new any ≡ F.content files.old any }
    ensures accepted { IfOk result (λ opened.
        IsAccepted (may_hold (F.content files.old)) file.now (subject_in opened)) }
    ensures placed { IfOk result
        (λ opened. All (IsCheckedFor opened.tables.items) opened.queries.items) }
    ensures few { IfOk result (λ opened. length opened.queries.items ≤ 4096) }
    ensures in_time { IfOk result
        (λ opened. first_early 0 0 (map query_of opened.queries.items) ≡ None) }
    ensures no_fault { OnOk result (F.failed files.new ≡ F.failed files.old) }
    ensures err { IfErr result (IsCheckRefused (may_hold (F.content files.old)) file.now) }
    ensures faults { IfErr result
        (λ refusal. FaultsAt refusal (F.failed files.old) (F.failed files.new)) }
{
    let Script { tables, queries } = open_script(alloc, files, file)?;
    let tables = open_tables(alloc, files, tables)?;
    let checked = check_queries(alloc, tables.as_slice(), queries.as_slice())?;
    Ok(Opened {
        tables,
        queries: checked,
    })
}

// Reads the script that a file holds.
fn open_script<F: Files>(alloc: Global, files: &mut F, file: &str) -> Result<Script, Refusal>
    ensures kept { (any : List ℕ) → F.content files.new any ≡ F.content files.old any }
    ensures ok { IfOk result (HoldsScript (may_hold (F.content files.old)) file.now) }
    ensures no_fault { OnOk result (F.failed files.new ≡ F.failed files.old) }
    ensures in_bounds { IfOk result (λ script. All IsInBounds script.queries) }
    ensures few { IfOk result (λ script. length script.queries ≤ 4096) }
    ensures in_time { IfOk result (λ script. first_early 0 0 script.queries ≡ None) }
    ensures err { IfErr result (IsCheckRefused (may_hold (F.content files.old)) file.now) }
    ensures faults { IfErr result
        (λ refusal. FaultsAt refusal (F.failed files.old) (F.failed files.new)) }
{
    let name = Text::of(String::from_str(alloc, file)?);
    let bytes = match read_whole(alloc, files, file, MOST_BYTES) {
        Ok(bytes) => bytes,
        Err(ReadRefusal::Failed) => return Err(Refusal::CannotRead(name)),
        Err(ReadRefusal::TooLong) => return Err(Refusal::Script(ScriptFault::TooLong)),
        Err(ReadRefusal::OutOfMemory) => return Err(Refusal::OutOfMemory),
    };
    match read_script(alloc, bytes.as_slice()) {
        Ok(script) => Ok(script),
        Err(ScriptRefusal::OutOfMemory) => Err(Refusal::OutOfMemory),
        Err(refusal) => Err(Refusal::Script(ScriptFault::Unread(refusal))),
    }
}

// Reads the tables of a script in the order of its entries. The first that is refused ends it.
fn open_tables<F: Files>(
    alloc: Global,
    files: &mut F,
    entries: ListOf<TableEntry>,
) -> Result<Vec<NamedTable>, Refusal>
    ensures kept { (any : List ℕ) → F.content files.new any ≡ F.content files.old any }
    ensures ok { IfOk result
        (λ tables. HoldTables (may_hold (F.content files.old)) entries tables.items) }
    ensures no_fault { OnOk result (F.failed files.new ≡ F.failed files.old) }
    ensures err { IfErr result (AreTablesRefused (may_hold (F.content files.old)) entries) }
    ensures faults { IfErr result
        (λ refusal. FaultsAt refusal (F.failed files.old) (F.failed files.new)) }
{
    let mut tables = Vec::with_capacity(alloc, entries.as_slice().len())?;
    for entry in entries.into_vec() {
        tables.push(open_table(alloc, files, entry)?)?;
    }
    Ok(tables)
}

// Reads the table of one entry.
fn open_table<F: Files>(
    alloc: Global,
    files: &mut F,
    entry: TableEntry,
) -> Result<NamedTable, Refusal>
    ensures kept { (any : List ℕ) → F.content files.new any ≡ F.content files.old any }
    ensures ok { IfOk result (HoldsTable (may_hold (F.content files.old)) entry) }
    ensures no_fault { OnOk result (F.failed files.new ≡ F.failed files.old) }
    ensures err { IfErr result (IsEntryRefused (may_hold (F.content files.old)) entry) }
    ensures faults { IfErr result
        (λ refusal. FaultsAt refusal (F.failed files.old) (F.failed files.new)) }
{
    let TableEntry { name, file } = entry;
    let bytes = match read_whole(alloc, files, file.as_str(), MOST_BYTES) {
        Ok(bytes) => bytes,
        Err(ReadRefusal::Failed) => return Err(Refusal::CannotRead(file)),
        Err(ReadRefusal::TooLong) => return Err(Refusal::Table {
            file,
            fault: TableFault::TooLong,
        }),
        Err(ReadRefusal::OutOfMemory) => return Err(Refusal::OutOfMemory),
    };
    match load(alloc, bytes.as_slice()) {
        Ok(table) => Ok(NamedTable { name, file, table }),
        Err(TableRefusal::OutOfMemory) => Err(Refusal::OutOfMemory),
        Err(refusal) => Err(Refusal::Table {
            file,
            fault: TableFault::Unread(refusal),
        }),
    }
}

/// Checks each query against the tables, in order.
pub fn check_queries(
    alloc: Global,
    tables: &[NamedTable],
    queries: &[Query],
) -> Result<Vec<Checked>, Refusal>
    requires in_bounds { All IsInBounds queries.now }
    requires few { length queries.now ≤ 4096 }
    ensures same { IfOk result (λ checked. map query_of checked.items ≡ queries.now) }
    ensures placed { IfOk result (λ checked. All (IsCheckedFor tables.now) checked.items) }
    ensures answerable { OnOk result (AllAnswerable tables.now queries.now) }
    ensures err { IfErr result
        (AreQueriesRefused (record { tables = tables.now; queries = queries.now })) }
{
    let mut all = Vec::with_capacity(alloc, queries.len())?;
    for (number, query) in queries.iter().enumerate() {
        match check(alloc, query, tables) {
            Ok(checked) => all.push(checked)?,
            Err(refusal) => return Err(refusal_of_query(number as u32, refusal)),
        }
    }
    Ok(all)
}

// The refusal of `check` that a refused query brings.
fn refusal_of_query(number: u32, refusal: PlanRefusal) -> Refusal
    ensures { result ≡ query_refusal number refusal }
{
    match refusal {
        PlanRefusal::OutOfMemory => Refusal::OutOfMemory,
        refusal => Refusal::Script(ScriptFault::Query { number, refusal }),
    }
}
