// What the benches of all workers make together.
ghost use Rattle.std.specs.Prelude.{◌≡◌, ◌<◌, ℕ, [], All, IfOk, length, slice_index_or};
ghost use Rattle.std.specs.Arc.{arc_value};
ghost use Rattle.std.specs.Vec.{vec_capacity};
ghost use Rattle.pipe_ops.specs.Inputs.{AreInputs};
ghost use Rattle.bench_cell.specs.Benches.{IsBench};
ghost use Rattle.bench_cell.specs.Gathering.{Gives, HasWhole, IsRecordOf};
ghost use Rattle.bench_cell.specs.declared.bench.Bench.{Bench};

use crate::accs::taken_accs;
use crate::bench::Bench;
use crate::claims::claims_of;
use crate::gathered::Gathered;
use col_table::ListOf;
use pipe_ops::{Inputs, StageResult, merge};
use report_text::{ClaimOf, Record};
use slot_history::shape::STAGES;
use std::alloc::{AllocError, Global};
use std::sync::Arc;

/// Brings the benches of all workers on a task set together, for the worker that finalises it at a
/// slot. The total is in tuples. The list is empty afterwards and keeps its room.
///
/// The result is short exactly if a bench is, or if memory runs out here. It is the whole result of
/// the task set if the benches cover the total, each tuple once.
pub fn gather(
    alloc: Global,
    finisher: u32,
    slot: u32,
    total: u32,
    benches: &mut Vec<Bench>,
) -> Gathered
    requires some { 0 < length benches.old.items }
    requires each { All IsBench benches.old.items }
    ensures empty { benches.new.items ≡ [] }
    ensures room { vec_capacity benches.new ≡ vec_capacity benches.old }
    ensures gives { (id : ℕ) → All (λ bench. bench.id ≡ id) benches.old.items
        → Gives (record { id = id; slot = slot; total = total; finisher = finisher })
        benches.old.items result }
{
    let id = first_id(benches.as_slice());
    let made = whole(alloc, benches);
    benches.clear();
    match made {
        Ok((result, claims)) => Gathered::Whole {
            result,
            kept: record_of(id, slot, total, finisher, false, claims),
        },
        Err(_) => Gathered::Short {
            kept: record_of(id, slot, total, finisher, true, Vec::new(alloc)),
        },
    }
}

// The result and the claims of benches, unless one is short or memory runs out.
fn whole(alloc: Global, benches: &mut Vec<Bench>) -> Result<(StageResult, Vec<ClaimOf>), AllocError>
    requires some { 0 < length benches.old.items }
    requires each { All IsBench benches.old.items }
    ensures room { vec_capacity benches.new ≡ vec_capacity benches.old }
    ensures whole { IfOk result (λ made. HasWhole benches.old.items made.0 made.1.items) }
{
    let claims = claims_of(alloc, benches.as_slice())?;
    let inputs = first_inputs(benches.as_slice())?;
    let accs = taken_accs(alloc, benches)?;
    let result = merge(alloc, inputs.stage(), &inputs, accs)?;
    Ok((result, claims))
}

// The id of the first bench, which is that of all benches of one task set.
fn first_id(benches: &[Bench]) -> u32
    requires some { 0 < length benches.now }
    ensures { (id : ℕ) → All (λ bench. bench.id ≡ id) benches.now → result ≡ id }
{
    benches[0].id()
}

// The inputs of the first bench.
fn first_inputs(benches: &[Bench]) -> Result<Arc<Inputs>, AllocError>
    requires some { 0 < length benches.now }
    requires each { All IsBench benches.now }
    ensures inputs { IfOk result (λ inputs. AreInputs (arc_value inputs)) }
    ensures first { IfOk result (λ inputs. (other : Bench)
        → arc_value inputs ≡ arc_value (slice_index_or benches.now 0 other).inputs) }
{
    let inputs = Arc::try_clone(benches[0].inputs())?;
    Ok(inputs)
}

// The record of a task set.
fn record_of(
    id: u32,
    slot: u32,
    total: u32,
    finisher: u32,
    short: bool,
    claims: Vec<ClaimOf>,
) -> Record
    ensures record { IsRecordOf
        (record { id = id; slot = slot; total = total; finisher = finisher }) short result }
    ensures claims { result.claims ≡ claims.items }
{
    Record {
        query: id / STAGES,
        stage: id % STAGES,
        slot,
        total,
        finisher,
        short,
        claims: ListOf::of(claims),
    }
}
