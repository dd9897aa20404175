// The stages of a query.
ghost use Rattle.std.specs.Prelude.{◌≡◌, ◌^◌, ◌<◌, ◌≤◌, [], length, slice_index_or};
ghost use Rattle.col_table.specs.NamedRows.{no_rows};
ghost use Rattle.plan_ast.specs.Bounds.{IsInBounds, IsWithin};
ghost use Rattle.plan_ast.specs.Checks.{IsCheckedFor, query_of};
ghost use Rattle.plan_ast.specs.Names.{side_names, sides_of};
ghost use Rattle.plan_ast.specs.Stages.{stage_at, stages_of, tuples_of};

use crate::checks::Checked;
use crate::lookup::table_of;
use crate::queries::{NamedTable, Output, Query};
use col_table::Table;

/// The number of parts into which a key's first value sorts a group. They are the tuples of a
/// merge.
pub const GROUP_PARTS: u32 = 16;

/// The number of a query's stages, which are its task sets: one build for each join, then the scan,
/// and for groups their merge. It allocates nothing.
pub fn stages(query: &Query) -> u32
    requires { IsInBounds query.now }
    ensures count { result ≡ stages_of query.now }
    ensures few { IsWithin 1 4 result }
{
    let builds = query.joins.as_slice().len() as u32;
    match query.output {
        Output::Rows(_) => builds + 1,
        Output::Totals(_) => builds + 1,
        Output::Groups { .. } => builds + 2,
    }
}

/// The number of a stage's tuples: the rows of the table that it builds or scans, or the parts that
/// it merges. It allocates nothing.
pub fn stage_total(checked: &Checked, tables: &[NamedTable], stage: u32) -> u32
    requires checked { IsCheckedFor tables.now checked.now }
    requires stage { stage < stages_of (query_of checked.now) }
    ensures total { result
        ≡ tuples_of tables.now (query_of checked.now) (stage_at (query_of checked.now) stage) }
    ensures few { result ≤ 2 ^ 20 }
{
    let builds = checked.query().joins.as_slice().len();
    let stage = stage as usize;
    if stage < builds {
        table_of_side(checked, tables, stage + 1).rows()
    } else if stage == builds {
        table_of_side(checked, tables, 0).rows()
    } else {
        GROUP_PARTS
    }
}

/// The table of a side of a query: the scanned table at 0, then that of each join. It allocates
/// nothing.
pub fn table_of_side<'a>(checked: &Checked, tables: &'a [NamedTable], side: usize) -> &'a Table
    requires checked { IsCheckedFor tables.now checked.now }
    requires side { side < length (side_names (query_of checked.now)) }
    ensures { result.now
        ≡ slice_index_or (sides_of tables.now (query_of checked.now)) side (no_rows []) }
{
    let places = checked.places().tables.as_slice();
    table_of(tables, places[side])
}
