// What a worker made of the ranges that it claimed of a task set.
ghost use Rattle.std.specs.Prelude.{◌≡◌, ◌⊎◌, ◌<◌, ◌≤◌, ◌↔◌, ℕ, List, [], ◌∷◌, IfOk, IfSome};
ghost use Rattle.std.specs.Prelude.{IsTrue};
ghost use Rattle.std.specs.Arc.{arc_value};
ghost use Rattle.plan_ast.specs.Folds.{AreDisjoint, Tuples, range_of, union};
ghost use Rattle.pipe_ops.specs.Inputs.{AreInputs, IsAccOf, total_in};
ghost use Rattle.pipe_ops.specs.StageResults.{HasRoomForRange};
ghost use Rattle.bench_cell.specs.Benches.{AreInputsOf, BenchFits, HasWorked, IsBench, IsFresh};
ghost use Rattle.bench_cell.specs.Benches.{IsShort, acc_in, bench_tuples};
ghost use Rattle.bench_cell.specs.declared.plan.Plan.{Plan};

use crate::plan::Plan;
use pipe_ops::{Acc, Inputs, run_range};
use slot_station::Fits;
use std::alloc::{AllocError, Global};
use std::sync::Arc;

/// What a worker made of the ranges that it claimed of a task set: a fold over their tuples. A
/// bench that ran out of memory is short: it holds nothing, and stays short.
#[derive(Debug, Drop)]
pub struct Bench {
    pub(crate) alloc: Global,
    pub(crate) worker: u32,
    pub(crate) id: u32,
    pub(crate) inputs: Arc<Inputs>,
    pub(crate) ranges: Vec<(u32, u32)>,
    // On the heap, so that a bench is cheap to move.
    pub(crate) acc: Option<Box<Acc>>,
}

impl Fits for Bench {
    ghost use Rattle.std.specs.Prelude.{length};
    ghost use Rattle.bench_cell.specs.Plans.{total_of};
    ghost use Rattle.bench_cell.specs.Benches.{BenchFits};

    type Subject = Plan;

    ghost queries = { λ plan. length plan.queries.items };

    ghost total = { total_of };

    ghost fits = { BenchFits };
}

impl Bench {
    /// A bench that worked on no range, for a worker and the task set of an id, whose inputs these
    /// are. It keeps the allocator. If memory runs out, nothing is left of it.
    pub fn fresh(
        alloc: Global,
        worker: u32,
        id: u32,
        inputs: Arc<Inputs>,
    ) -> Result<Bench, AllocError>
        requires { AreInputs (arc_value inputs) }
        ensures fresh { IfOk result (IsFresh worker id (arc_value inputs)) }
        ensures fits { IfOk result (λ bench. (plan : Plan) → AreInputsOf plan id (arc_value inputs)
            → BenchFits plan worker id [] bench) }
    {
        let acc = Acc::empty(alloc, &inputs, inputs.stage())?;
        Ok(Bench {
            alloc,
            worker,
            id,
            inputs,
            ranges: Vec::new(alloc),
            acc: Some(Box::new(alloc, acc)?),
        })
    }

    /// Works on the tuples from `from` up to but without `to`, on none of which it worked before.
    /// The bench becomes short if memory runs out. A short bench does nothing.
    pub fn work(&mut self, from: u32, to: u32)
        requires bench { IsBench self.old }
        requires some { from < to }
        requires within { to ≤ total_in (arc_value self.old.inputs) }
        requires apart { IsShort self.old
            ⊎ AreDisjoint (bench_tuples self.old) (range_of from to) }
        ensures worked { HasWorked from to self.old self.new }
        ensures fits { (plan : Plan) (worker id : ℕ) (ranges : List (ℕ × ℕ))
            → BenchFits plan worker id ranges self.old
            → BenchFits plan worker id ((from, to) ∷ ranges) self.new }
    {
        let Some(acc) = self.acc.take() else {
            return;
        };
        let noted = self.ranges.push((from, to));
        if noted.is_ok() {
            self.acc = taken(self.alloc, &self.inputs, from, to, acc);
        }
    }

    /// Whether it ran out of memory.
    pub fn is_short(&self) -> bool
        ensures { IsTrue result ↔ IsShort self.now }
    {
        self.acc.is_none()
    }

    /// The id of its task set.
    pub fn id(&self) -> u32
        ensures { result ≡ self.now.id }
    {
        self.id
    }

    /// Whose bench it is.
    pub fn worker(&self) -> u32
        ensures { result ≡ self.now.worker }
    {
        self.worker
    }

    /// Its accumulator, unless it is short.
    pub(crate) fn into_acc(self) -> Option<Acc>
        ensures { result ≡ acc_in self }
    {
        let Bench { acc, .. } = self;
        match acc {
            Some(held) => Some(Box::into_inner(held)),
            None => None,
        }
    }

    /// The inputs of its stage.
    pub fn inputs(&self) -> &Arc<Inputs>
        ensures { result.now ≡ self.now.inputs }
    {
        &self.inputs
    }
}

// An accumulator with the tuples of a range, unless memory ran out.
fn taken(alloc: Global, inputs: &Inputs, from: u32, to: u32, mut acc: Box<Acc>) -> Option<Box<Acc>>
    requires inputs { AreInputs inputs.now }
    requires order { from ≤ to }
    requires within { to ≤ total_in inputs.now }
    requires room { HasRoomForRange inputs.now from to acc.value }
    ensures { IfSome result (λ more. (done : Tuples) → AreDisjoint done (range_of from to)
        → IsAccOf inputs.now done acc.value
        → IsAccOf inputs.now (union done (range_of from to)) more.value) }
{
    match run_range(alloc, inputs.stage(), inputs, from, to, acc.as_mut()) {
        Ok(()) => Some(acc),
        Err(_) => None,
    }
}
