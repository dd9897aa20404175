// The inputs and the fresh benches of a task set.
ghost use Rattle.std.specs.Prelude.{[], ◌≡◌, ◌≤◌, ◌<◌, ◌+◌, ◌*◌, ◌%◌, ℕ, IfOk, IsTrue, length};
ghost use Rattle.std.specs.Arc.{arc_value};
ghost use Rattle.std.specs.Vec.{vec_capacity};
ghost use Rattle.pipe_ops.specs.Inputs.{AreInputs};
ghost use Rattle.pipe_ops.specs.StageResults.{IsWholeResult, goes_on};
ghost use Rattle.bench_cell.specs.Benches.{AreInputsOf};
ghost use Rattle.bench_cell.specs.declared.plan.Plan.{Plan};
ghost use Rattle.slot_history.specs.declared.shape.TheConstants.{STAGES};
ghost use Rattle.bench_cell.specs.Benches.{BenchFits};
ghost use Rattle.worker_machine.specs.Benches.{AreFresh};

use bench_cell::{Bench, Plan};
use pipe_ops::{Inputs, StageResult};
use std::alloc::{AllocError, Global};
use std::sync::Arc;

// The inputs of the first stage of a query.
pub(crate) fn first_inputs(alloc: Global, plan: &Plan, q: u32) -> Result<Arc<Inputs>, AllocError>
    requires { q < length plan.now.queries.items }
    ensures inputs { IfOk result (λ inputs. AreInputs (arc_value inputs)) }
    ensures first { IfOk result (λ inputs. AreInputsOf plan.now (STAGES * q) (arc_value inputs)) }
{
    let tables = Arc::try_clone(&plan.tables)?;
    let checked = Arc::try_clone(plan.query(q))?;
    let inputs = Inputs::first(alloc, tables, checked)?;
    Ok(Arc::new(alloc, inputs)?)
}

// The inputs of the stage after another one, whose whole result this is.
pub(crate) fn next_inputs(
    alloc: Global,
    before: &Inputs,
    whole: StageResult,
) -> Result<Arc<Inputs>, AllocError>
    requires inputs { AreInputs before.now }
    requires whole { IsWholeResult before.now whole }
    requires later { goes_on whole }
    ensures inputs { IfOk result (λ inputs. AreInputs (arc_value inputs)) }
    ensures low { IfOk result (λ _. (plan : Plan) (id : ℕ) → AreInputsOf plan id before.now
        → id % STAGES + 1 < STAGES) }
    ensures next { IfOk result (λ inputs. (plan : Plan) (id : ℕ) → AreInputsOf plan id before.now
        → AreInputsOf plan (id + 1) (arc_value inputs)) }
{
    let inputs = Inputs::next(alloc, before, whole)?;
    Ok(Arc::new(alloc, inputs)?)
}

// Makes the benches of a task set, that of worker 0 last. Answers whether memory sufficed.
pub(crate) fn make_benches(
    alloc: Global,
    benches: &mut Vec<Bench>,
    workers: u32,
    id: u32,
    inputs: &Arc<Inputs>,
) -> bool
    requires { AreInputs (arc_value inputs.now) }
    ensures room { vec_capacity benches.old ≤ vec_capacity benches.new }
    ensures count { IsTrue result → length benches.new.items ≡ workers }
    ensures fresh { (plan : Plan) → AreInputsOf plan id (arc_value inputs.now) → IsTrue result
        → AreFresh plan id workers benches.new.items }
{
    benches.clear();
    for done in 0..workers {
        let Ok(bench) = fresh(alloc, workers - 1 - done, id, inputs) else {
            benches.clear();
            return false;
        };
        match benches.push(bench) {
            Ok(()) => {}
            Err(_) => {
                benches.clear();
                return false;
            }
        }
    }
    true
}

// A fresh bench of a worker.
fn fresh(alloc: Global, worker: u32, id: u32, inputs: &Arc<Inputs>) -> Result<Bench, AllocError>
    requires { AreInputs (arc_value inputs.now) }
    ensures { IfOk result (λ bench. (plan : Plan) → AreInputsOf plan id (arc_value inputs.now)
        → BenchFits plan worker id [] bench) }
{
    Bench::fresh(alloc, worker, id, Arc::try_clone(inputs)?)
}
