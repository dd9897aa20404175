// The accumulators of benches.
ghost use Rattle.std.specs.Prelude.{◌≡◌, ◌+◌, ◌++◌, ◌∷◌, [], IfOk, OnOk, Some, length, map};
ghost use Rattle.std.specs.Vec.{vec_capacity};
ghost use Rattle.bench_cell.specs.Benches.{acc_in};
ghost use Rattle.bench_cell.specs.Gathering.{AreAccsOf};

use crate::bench::Bench;
use pipe_ops::Acc;
use std::alloc::{AllocError, Global};

/// Takes the accumulators out of benches, in order, unless a bench is short. The list of benches
/// keeps its room.
pub(crate) fn taken_accs(alloc: Global, benches: &mut Vec<Bench>) -> Result<Vec<Acc>, AllocError>
    ensures room { vec_capacity benches.new ≡ vec_capacity benches.old }
    ensures accs { IfOk result (λ accs. AreAccsOf benches.old.items accs.items) }
{
    let count = benches.len();
    let mut accs = Vec::with_capacity(alloc, count)?;
    benches.reverse();
    for _ in 0..count {
        let acc = last_acc(benches)?;
        accs.push(acc)?;
    }
    Ok(accs)
}

// Takes the last bench away, and its accumulator out of it.
fn last_acc(benches: &mut Vec<Bench>) -> Result<Acc, AllocError>
    ensures room { vec_capacity benches.new ≡ vec_capacity benches.old }
    ensures fewer { OnOk result (length benches.new.items + 1 ≡ length benches.old.items) }
    ensures acc { IfOk result (λ acc.
        map acc_in benches.old.items ≡ map acc_in benches.new.items ++ Some acc ∷ []) }
{
    let Some(bench) = benches.pop() else {
        return Err(AllocError);
    };
    match bench.into_acc() {
        Some(acc) => Ok(acc),
        None => Err(AllocError),
    }
}
