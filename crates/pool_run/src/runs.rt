// Whole runs on one thread, by an order of workers.
ghost use Rattle.std.specs.Prelude.{◌≡◌, ◌<◌, [], IfOk};
ghost use Rattle.std.specs.Arc.{arc_value};
ghost use Rattle.pool_run.specs.Runs.{AreWorkersOf, MayRun, RanBy, asked_in, asked_of};
ghost use Rattle.pool_run.specs.Runs.{moves, turns};
ghost use Rattle.pool_run.specs.Scenes.{IsNew, scene};
ghost use Rattle.pool_run.specs.Stints.{IsOfOrder, course_by};
ghost use Rattle.pool_run.specs.Collected.{HaveTold};
ghost use Rattle.run_laws.specs.Ends.{IsWork};
ghost use Rattle.worker_machine.specs.Loads.{load_of};

use crate::pool::Pool;
use crate::report::Parts;
use crate::stint::Stint;
use bench_cell::Plan;
use one_thread::SlotObject;
use outside_io::Meter;
use plain_slots::PlainObject;
use slot_proto::Machine;
use slot_station::Steps;
use std::alloc::{AllocError, Global};
use std::marker::Brand;
use std::sync::Arc;
use std::sync::ledger::{Blank, Ledger};
use worker_machine::Ran;

/// The most numbers of an order.
pub const MOST_NUMBERS: usize = 4096;

/// Runs a plan by whole turns, over the state of slots and workers: one turn for each number of the
/// order, and then rounds of one turn of each worker, from worker 0 upwards. A worker whose last
/// turn ended with Over is passed over. The run ends when all are over.
///
/// There are 1 to `MOST_WORKERS` workers and 1 to `MOST_SLOTS` slots. The order has at most
/// `MOST_NUMBERS` numbers of workers. A query arrives at the latest when all task sets of the
/// queries before it are done.
pub fn run_turns<M: Meter>(
    alloc: Global,
    plan: Arc<Plan>,
    workers: u32,
    slots: u32,
    order: &[u32],
    meter: &mut M,
) -> Result<Ran, AllocError>
    requires { MayRun (asked_of (arc_value plan) workers slots (turns order.now)) }
    ensures { IfOk result
        (λ ran. RanBy M.may_take (asked_of (arc_value plan) workers slots (turns order.now))
        ran.report ran.history ran.times.items) }
{
    run_order::<PlainObject, M>(alloc, plan, workers, slots, Stint::WholeTurn, order, meter)
}

/// Runs a plan by single steps, over the words of the slots: one step for each number of the order,
/// where a worker whose last turn ended with Over is passed over. Then the turns that are under way
/// are ended, from worker 0 upwards, and rounds of whole turns follow, as in `run_turns`.
///
/// What may be asked for is as in `run_turns`.
pub fn run_steps<M: Meter>(
    alloc: Global,
    plan: Arc<Plan>,
    workers: u32,
    slots: u32,
    order: &[u32],
    meter: &mut M,
) -> Result<Ran, AllocError>
    requires { MayRun (asked_of (arc_value plan) workers slots (moves order.now)) }
    ensures { IfOk result
        (λ ran. RanBy M.may_take (asked_of (arc_value plan) workers slots (moves order.now))
        ran.report ran.history ran.times.items) }
{
    run_order::<Machine, M>(alloc, plan, workers, slots, Stint::OneStep, order, meter)
}

// A run over this form of the slots, by an order of such stints.
fn run_order<O: SlotObject, M: Meter>(
    alloc: Global,
    plan: Arc<Plan>,
    workers: u32,
    slots: u32,
    stint: Stint,
    order: &[u32],
    meter: &mut M,
) -> Result<Ran, AllocError>
    requires stint { IsOfOrder stint }
    requires may { MayRun (asked_of (arc_value plan) workers slots (course_by stint order.now)) }
    ensures { IfOk result
        (λ ran. RanBy M.may_take
        (asked_of (arc_value plan) workers slots (course_by stint order.now))
        ran.report ran.history ran.times.items) }
{
    let parts = Parts::new(alloc, &plan, workers)?;
    let pool = Pool::<O>::new(alloc, &plan, workers, slots)?;
    run_counted::<O, Brand, M>(pool, parts, stint, order, meter, Blank::new(1))
}

// The same of a new pool, with a count of steps that begins in this ledger. After whole turns no
// turn is under way that would have to be ended.
fn run_counted<O: SlotObject, L: Ledger, M: Meter>(
    mut pool: Pool<O>,
    parts: Parts,
    stint: Stint,
    order: &[u32],
    meter: &mut M,
    blank: Blank,
) -> Result<Ran, AllocError>
    requires stint { IsOfOrder stint }
    requires new { IsNew (scene pool.table pool.team.items) }
    requires parts { HaveTold [] parts }
    requires work { IsWork pool.table.shape (load_of pool.table.subject) }
    requires order { AreWorkersOf pool.table.shape order.now }
    requires name { blank.name ≡ L.name }
    requires all { blank.parts ≡ L.parts }
    requires some { 0 < blank.parts }
    ensures { IfOk result
        (λ ran. RanBy M.may_take (asked_in pool.table (course_by stint order.now))
        ran.report ran.history ran.times.items) }
{
    let mut steps = Steps::<L>::start(blank);
    pool.play_order(stint, order, &mut steps, meter);
    pool.play_all(Stint::RestOfTurn, &mut steps, meter);
    pool.play_rounds(&mut steps, meter);
    pool.end(parts)
}
