// What a worker reads of its plan.
ghost use Rattle.std.specs.Prelude.{◌≡◌, ◌<◌, ◌≤◌, Some, length};
ghost use Rattle.plan_ast.specs.Bounds.{IsInBounds};
ghost use Rattle.plan_ast.specs.Stages.{stages_of};
ghost use Rattle.slot_history.specs.declared.shape.TheConstants.{MOST_TOTAL};
ghost use Rattle.bench_cell.specs.Plans.{total_of};
ghost use Rattle.worker_machine.specs.Plans.{IsTask};
ghost use Rattle.worker_machine.specs.Loads.{load_of};

use bench_cell::Plan;
use plan_ast::Query;
use slot_station::shape::STAGES;

// A query of the plan.
pub(crate) fn query_of(plan: &Plan, q: u32) -> &Query
    requires { q < length plan.now.queries.items }
    ensures bounds { IsInBounds result.now }
    ensures stages { (load_of plan.now).stages q ≡ stages_of result.now }
    ensures weight { (load_of plan.now).weight q ≡ result.now.weight }
    ensures after { (load_of plan.now).after q ≡ result.now.after }
    ensures cost { (load_of plan.now).cost q ≡ result.now.cost }
{
    plan.query(q).query()
}

// The total of a task set of the plan.
pub(crate) fn task_total(plan: &Plan, id: u32) -> u32
    requires { IsTask plan.now id }
    ensures total { total_of plan.now id ≡ Some result }
    ensures most { result ≤ MOST_TOTAL }
{
    plan.total(id / STAGES, id % STAGES)
}
