// The workers of a board, who take their turns on threads.
ghost use Rattle.std.specs.Prelude.{◌≡◌, ◌<◌, length};
ghost use Rattle.std.specs.Arc.{arc_value};
ghost use Rattle.board_rule.specs.Passes.{board_shape, board_subject};
ghost use Rattle.pool_run.specs.Seated.{AreSeatedDown, IsFresh, IsOver};

use crate::threads::seated::{Seated, end_turns, worker_of};
use bench_cell::{Bench, Plan};
use board_rule::{Board, Pass};
use outside_io::{Gate, Meter};
use std::alloc::{AllocError, Global};
use std::sync::{Arc, Wait};
use std::thread;
use std::thread::Threads;
use worker_machine::Worker;

// The workers of a board and their passes, each at its number.
#[derive(Drop)]
pub(crate) struct Crew {
    pub team: Vec<Worker>,
    pub passes: Vec<Pass<Bench>>,
}

impl Crew {
    ghost use Rattle.std.specs.Prelude.{◌≡◌, ◌≤◌, ◌+◌, [], IfOk, length, vec_len};
    ghost use Rattle.std.specs.Vec.{vec_capacity};
    ghost use Rattle.std.specs.Arc.{arc_value};
    ghost use Rattle.board_rule.specs.Lives.{AreUnused};
    ghost use Rattle.board_rule.specs.Passes.{board_shape, board_subject};
    ghost use Rattle.pool_run.specs.Seated.{AreSeated, AreSeatedDown, IsFresh, IsOver};

    // A worker for each pass. None has done anything.
    pub(crate) fn new(
        alloc: Global,
        board: &Board<Bench>,
        plan: &Arc<Plan>,
        unused: Vec<Pass<Bench>>,
    ) -> Result<Crew, AllocError>
        requires unused { AreUnused board.now unused.items }
        requires subject { board_subject board.now ≡ arc_value plan.now }
        requires queries { (board_shape board.now).queries
            ≡ length (arc_value plan.now).queries.items }
        ensures seated { IfOk result
            (λ crew. AreSeated (IsFresh board.now) crew.team.items crew.passes.items) }
        ensures count { IfOk result (λ crew. vec_len crew.team ≡ vec_len unused) }
    {
        let mut team = Vec::new(alloc);
        let mut passes = Vec::new(alloc);
        for pass in unused {
            let (worker, pass) = worker_of(alloc, board, plan, pass)?;
            team.push(worker)?;
            passes.push(pass)?;
        }
        Ok(Crew { team, passes })
    }

    // Each worker goes to its seat with a meter, the last worker first.
    pub(crate) fn sit<M: Meter>(
        &mut self,
        board: &Board<Bench>,
        meters: &mut Vec<M>,
        all: &mut Vec<Seated<M>>,
    )
        requires seated { AreSeated (IsFresh board.now) self.old.team.items self.old.passes.items }
        requires none { all.old.items ≡ [] }
        requires room { vec_len self.old.team ≤ vec_capacity all.old }
        requires meters { vec_len self.old.team ≤ vec_len meters.old }
        ensures seated { AreSeatedDown (IsFresh board.now) (vec_len self.old.team) all.new.items }
        ensures count { vec_len all.new ≡ vec_len self.old.team }
        ensures left { (self.new.team.items ≡ []) × (self.new.passes.items ≡ []) }
        ensures room { (vec_capacity self.new.team ≡ vec_capacity self.old.team)
            × (vec_capacity self.new.passes ≡ vec_capacity self.old.passes) }
        ensures meters { (vec_len meters.new + vec_len self.old.team ≡ vec_len meters.old)
            × (vec_capacity meters.new ≡ vec_capacity meters.old) }
    {
        let _board = board;
        for _ in 0..self.team.len() {
            let worker = self.team.take_last();
            let pass = self.passes.take_last();
            let meter = meters.take_last();
            all.push_reserved(Seated {
                worker,
                pass,
                meter,
            });
        }
    }

    // Each worker, once it is over, comes back from its seat and gives its meter back. There is
    // room for all.
    pub(crate) fn rise<M: Meter>(
        &mut self,
        board: &Board<Bench>,
        meters: &mut Vec<M>,
        all: &mut Vec<Seated<M>>,
    )
        requires seated { AreSeatedDown (IsOver M.may_take board.now) (vec_len all.old)
            all.old.items }
        requires left { (self.old.team.items ≡ []) × (self.old.passes.items ≡ []) }
        requires room { (vec_len all.old ≤ vec_capacity self.old.team)
            × (vec_len all.old ≤ vec_capacity self.old.passes)
            × (vec_len meters.old + vec_len all.old ≤ vec_capacity meters.old) }
        ensures seated { AreSeated (IsOver M.may_take board.now) self.new.team.items
            self.new.passes.items }
        ensures count { vec_len self.new.team ≡ vec_len all.old }
        ensures none { vec_len all.new ≡ 0 }
        ensures meters { vec_len meters.new ≡ vec_len meters.old + vec_len all.old }
    {
        let _board = board;
        for _ in 0..all.len() {
            let Seated {
                worker,
                pass,
                meter,
            } = all.take_last();
            self.team.push_reserved(worker);
            self.passes.push_reserved(pass);
            meters.push_reserved(meter);
        }
    }
}

// Each worker takes its turns on a thread of its own.
pub(crate) fn take_turns<R: Threads + Wait + Sync, M: Meter + Send, G: Gate + Sync>(
    rt: &R,
    alloc: Global,
    board: &Board<Bench>,
    plan: &Arc<Plan>,
    all: &mut [Seated<M>],
    gate: &G,
)
    requires seated { AreSeatedDown (IsFresh board.now) (length all.old) all.old }
    requires some { 0 < length all.old }
    requires subject { board_subject board.now ≡ arc_value plan.now }
    requires queries { (board_shape board.now).queries
        ≡ length (arc_value plan.now).queries.items }
    ensures seated { AreSeatedDown (IsOver M.may_take board.now) (length all.new) all.new }
    ensures count { length all.new ≡ length all.old }
{
    let threads = all.len();
    thread::for_each_mut(
        rt,
        all,
        threads,
        &|_place, sits: &mut Seated<M>|
            requires { IsFresh board.now sits.old.worker sits.old.pass
                × (board_subject board.now ≡ arc_value plan.now)
                × ((board_shape board.now).queries
                ≡ length (arc_value plan.now).queries.items) }
            ensures { IsOver M.may_take board.entry.now sits.new.worker sits.new.pass
                × (sits.new.pass.worker ≡ sits.old.pass.worker) }
        { end_turns(rt, alloc, board, plan, sits, gate) },
    );
}
