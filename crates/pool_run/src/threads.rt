// A whole run by threads, over a shared board.
ghost use Rattle.std.specs.Prelude.{◌≡◌, ◌≤◌, IfOk, vec_len};
ghost use Rattle.std.specs.Arc.{arc_value};
ghost use Rattle.pool_run.specs.Runs.{MayRun, RanBy, asked_of, threads};

mod crew;
mod seated;

use crate::report::{Parts, Told, collect};
use crate::threads::crew::{Crew, take_turns};
use crate::threads::seated::Seated;
use bench_cell::{Bench, Plan};
use board_rule::{Board, Joined};
use outside_io::{Gate, Meter};
use report_text::Report;
use slot_station::Memo;
use std::alloc::{AllocError, Global};
use std::snapshot::Snapshot;
use std::sync::{Arc, Wait};
use std::thread::Threads;

/// What a run by threads answers: its report, what its board came to, and at place w the elapsed
/// times of the ranges of worker w, in their order.
#[derive(Drop)]
pub struct ThreadRan {
    pub report: Report,
    pub joined: Joined,
    pub times: Vec<Memo>,
}

/// Runs a plan over a shared board. Each worker takes turns on a thread of its own until its last
/// turn ended with Over. After an idle one it spins a little, and after several in a row it yields
/// its processor. If no thread can be made, the workers run one after another, and the first does
/// all.
///
/// There are 1 to `MOST_WORKERS` workers and 1 to `MOST_SLOTS` slots, and a meter for each worker.
/// The meters come back, also if memory runs out. A query arrives at the latest when all task sets
/// of the queries before it are done. The call may wait for its threads, and no clause says that it
/// returns.
pub fn run_threads<R: Threads + Wait + Sync, M: Meter + Send, G: Gate + Sync>(
    rt: &R,
    alloc: Global,
    plan: Arc<Plan>,
    workers: u32,
    slots: u32,
    meters: &mut Vec<M>,
    gate: &G,
) -> Result<ThreadRan, AllocError>
    requires may { MayRun (asked_of (arc_value plan) workers slots threads) }
    requires meters { workers ≤ vec_len meters.old }
    ensures ran { IfOk result
        (λ ran. RanBy M.may_take (asked_of (arc_value plan) workers slots threads)
        ran.report ran.joined.history ran.times.items) }
    ensures meters { vec_len meters.new ≡ vec_len meters.old }
{
    let parts = Parts::new(alloc, &plan, workers)?;
    let subject = Snapshot::of(&*plan);
    let made = Board::<Bench>::make(alloc, slots, workers, plan.len(), subject);
    let Ok((board, passes)) = made else {
        return Err(AllocError);
    };
    let mut crew = Crew::new(alloc, &board, &plan, passes)?;
    let mut all = Vec::<Seated<M>>::with_capacity(alloc, workers as usize)?;
    crew.sit(&board, meters, &mut all);
    take_turns(rt, alloc, &board, &plan, all.as_mut_slice(), gate);
    crew.rise(&board, meters, &mut all);
    all.destroy_empty();
    let Crew { team, passes } = crew;
    let joined = board.finish(passes);
    let Told { report, times } = collect(team, parts)?;
    Ok(ThreadRan {
        report,
        joined,
        times,
    })
}
