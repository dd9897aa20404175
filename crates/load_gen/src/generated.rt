// The large input of a number.
ghost use Rattle.std.specs.Prelude.{◌≡◌, All, IfOk, IsTrue, None, OnOk};
ghost use Rattle.plan_ast.specs.Names.{refusal_of};
ghost use Rattle.col_table.specs.Name.{is_name};
ghost use Rattle.script_json.specs.WellFormed.{IsScript};
ghost use Rattle.load_gen.specs.Draws.{state_after};
ghost use Rattle.load_gen.specs.Generated.{LoadsBack, entry_of, generated, named, named_tables};
ghost use Rattle.load_gen.specs.Generated.{script_from, tables_from};

use crate::draws::Draws;
use crate::names::name;
use crate::queries::draw_queries;
use crate::tables::{T_ROWS, U_ROWS, draw_t, draw_u};
use col_table::{ListOf, Table, Text};
use plan_ast::NamedTable;
use script_json::{Script, TableEntry};
use std::alloc::{AllocError, Global};

/// A large input: a script, and the tables that it names, in the order of its entries.
#[derive(Debug, Drop)]
pub struct Generated {
    pub script: Script,
    pub tables: ListOf<NamedTable>,
}

/// The large input of a number: the table `t` of 200,000 rows, the table `u` of 1,000 rows, and 40
/// queries.
///
/// It takes about 601,000 draws and 5 MB of memory. Each column is reserved before its values are
/// drawn. `plan_ast::check` finds every name that the queries mention.
pub fn generate(alloc: Global, number: u32) -> Result<Generated, AllocError>
    ensures subject { IfOk result (λ made. made ≡ generated number) }
    ensures script { IfOk result (λ made. IsScript made.script) }
    ensures tables { IfOk result (λ made. All LoadsBack made.tables) }
    ensures names { IfOk result (λ made.
        All (λ query. refusal_of made.tables query ≡ None) made.script.queries) }
{
    let mut draws = Draws::new(number);
    let tables = draw_tables(alloc, &mut draws)?;
    let script = draw_script(alloc, &mut draws)?;
    Ok(Generated { script, tables })
}

// The two tables, with the names and the files of their entries.
fn draw_tables(alloc: Global, draws: &mut Draws) -> Result<ListOf<NamedTable>, AllocError>
    ensures tables { IfOk result (λ tables. tables ≡ tables_from draws.old) }
    ensures loads { IfOk result (All LoadsBack) }
    ensures draws { OnOk result (draws.new ≡ state_after draws.old 601_000) }
{
    let t = draw_t(alloc, draws, T_ROWS)?;
    let u = draw_u(alloc, draws, U_ROWS)?;
    tables_of(alloc, t, u)
}

// The tables under the names and the files of their entries.
fn tables_of(alloc: Global, t: Table, u: Table) -> Result<ListOf<NamedTable>, AllocError>
    ensures { IfOk result (λ tables. tables ≡ named_tables t u) }
{
    let t = named_table(alloc, "t", "t.csv", t)?;
    let u = named_table(alloc, "u", "u.csv", u)?;
    Ok(ListOf::of(vec![in alloc; t, u]?))
}

/// The script, whose queries are drawn after the tables.
pub(crate) fn draw_script(alloc: Global, draws: &mut Draws) -> Result<Script, AllocError>
    ensures script { IfOk result (λ script. script ≡ script_from draws.old) }
    ensures well_formed { IfOk result IsScript }
{
    let t = entry(alloc, "t", "t.csv")?;
    let u = entry(alloc, "u", "u.csv")?;
    Ok(Script {
        tables: ListOf::of(vec![in alloc; t, u]?),
        queries: draw_queries(alloc, draws)?,
    })
}

fn entry(alloc: Global, title: &str, file: &str) -> Result<TableEntry, AllocError>
    requires { IsTrue (is_name title.now) }
    ensures { IfOk result (λ entry. entry ≡ entry_of title.now file.now) }
{
    Ok(TableEntry {
        name: name(alloc, title)?,
        file: Text::of(String::from_str(alloc, file)?),
    })
}

fn named_table(
    alloc: Global,
    title: &str,
    file: &str,
    table: Table,
) -> Result<NamedTable, AllocError>
    requires { IsTrue (is_name title.now) }
    ensures { IfOk result (λ made. made ≡ named title.now file.now table) }
{
    let TableEntry { name, file } = entry(alloc, title, file)?;
    Ok(NamedTable { name, file, table })
}
