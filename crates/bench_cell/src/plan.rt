// What a run works on.
ghost use Rattle.std.specs.Prelude.{◌≤◌, All, length};
ghost use Rattle.std.specs.Arc.{arc_value};
ghost use Rattle.bench_cell.specs.OneProof.{checked_props};
ghost use Rattle.plan_ast.specs.Checks.{IsCheckedFor};
ghost use Rattle.slot_history.specs.declared.shape.TheConstants.{MOST_QUERIES};

use plan_ast::{Checked, NamedTable, stage_total, stages};
use std::sync::Arc;

/// Tables, and queries that were checked with them, in the order in which they arrive: at most
/// `MOST_QUERIES`. It is the subject of the cells that hold benches.
#[derive(Debug, Drop)]
pub struct Plan {
    pub tables: Arc<Vec<NamedTable>>,
    pub queries: Vec<Arc<Checked>>,
    ghost few: { length queries.items ≤ MOST_QUERIES },
    ghost checked: { All (λ query. IsCheckedFor (arc_value tables).items (arc_value query))
        queries.items } by { Prim.hlevel checked_props },
}

impl Plan {
    ghost use Rattle.std.specs.Prelude.{◌≡◌, ◌<◌, ◌*◌, ◌+◌, slice_get, Some};
    ghost use Rattle.plan_ast.specs.declared.checks.Checked.{Checked};
    ghost use Rattle.slot_history.specs.declared.shape.TheConstants.{MOST_TOTAL, STAGES};
    ghost use Rattle.bench_cell.specs.Plans.{checked_of, sets_of, stages_in, tables_of, total_of};

    /// The number of queries: 0 to `MOST_QUERIES`. It allocates nothing.
    pub fn len(&self) -> u32
        ensures { result ≡ length self.now.queries.items }
    {
        self.queries.len() as u32
    }

    /// The number of task sets: the sum of the queries' stages. It allocates nothing.
    pub fn sets(&self) -> u32
        ensures { result ≡ sets_of self.now }
    {
        let mut sets = 0;
        for query in &self.queries {
            sets += stages(query.query());
        }
        sets
    }

    /// A query of the plan, by its number. It allocates nothing.
    pub fn query(&self, q: u32) -> &Arc<Checked>
        requires { q < length self.now.queries.items }
        ensures query { slice_get self.now.queries.items q ≡ Some result.now }
        ensures checked { IsCheckedFor (tables_of self.now) (arc_value result.now) }
    {
        &self.queries[q as usize]
    }

    /// The number of tuples of a stage of a query. It allocates nothing.
    pub fn total(&self, q: u32, stage: u32) -> u32
        requires query { q < length self.now.queries.items }
        requires stage { (checked : Checked) → slice_get (checked_of self.now) q ≡ Some checked
            → stage < stages_in checked }
        ensures total { total_of self.now (STAGES * q + stage) ≡ Some result }
        ensures few { result ≤ MOST_TOTAL }
    {
        stage_total(self.query(q), self.tables.as_slice(), stage)
    }
}
