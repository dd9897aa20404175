//! The plan of a run: the tables and the queries of a subject, which its workers share.
ghost use Rattle.std.specs.Prelude.{◌≡◌, ◌≤◌, All, IfOk, length, map};
ghost use Rattle.std.specs.Arc.{arc_value};
ghost use Rattle.plan_ast.specs.Checks.{IsCheckedFor};
ghost use Rattle.bench_cell.specs.Plans.{subject_of_plan};
ghost use Rattle.sched_tool.specs.Subjects.{subject_in};

use super::subject::Opened;
use bench_cell::Plan;
use plan_ast::Checked;
use std::alloc::{AllocError, Global};
use std::sync::Arc;

/// The plan of what was opened: its tables, and its queries, each behind an `Arc` of its own.
pub fn plan_of(alloc: Global, opened: Opened) -> Result<Arc<Plan>, AllocError>
    requires placed { All (IsCheckedFor opened.tables.items) opened.queries.items }
    requires few { length opened.queries.items ≤ 4096 }
    ensures { IfOk result (λ plan. subject_of_plan (arc_value plan) ≡ subject_in opened) }
{
    let Opened { tables, queries } = opened;
    let queries = share(alloc, queries)?;
    let tables = Arc::new(alloc, tables)?;
    Ok(Arc::new(alloc, Plan { tables, queries })?)
}

// Each query behind an `Arc` of its own.
fn share(alloc: Global, queries: Vec<Checked>) -> Result<Vec<Arc<Checked>>, AllocError>
    ensures { IfOk result (λ shared. map arc_value shared.items ≡ queries.items) }
{
    let mut shared = Vec::with_capacity(alloc, queries.len())?;
    for query in queries {
        shared.push(Arc::new(alloc, query)?)?;
    }
    Ok(shared)
}
