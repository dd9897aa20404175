// A worker at its seat, until it is over.
ghost use Rattle.std.specs.Prelude.{◌≡◌, ◌<◌, true, IfOk, length};
ghost use Rattle.std.specs.Arc.{arc_value};
ghost use Rattle.board_rule.specs.Lives.{IsUnused};
ghost use Rattle.board_rule.specs.Passes.{board_shape, board_subject};
ghost use Rattle.turn_model.specs.declared.turn.Turn.{Turn};
ghost use Rattle.worker_machine.specs.Left.{is_ready};
ghost use Rattle.worker_machine.specs.declared.phase.Phase.{Phase};
ghost use Rattle.pool_run.specs.Seated.{IsFresh, IsOver, IsUnderWay};

use bench_cell::{Bench, Plan};
use board_masks::BoardSeat;
use board_rule::{Board, Pass};
use core::mem::replace_with;
use crossbeam_utils::Backoff;
use outside_io::{Gate, Meter};
use slot_station::Steps;
use std::alloc::{AllocError, Global};
use std::marker::Brand;
use std::snapshot::Snapshot;
use std::sync::ledger::{Blank, Ledger};
use std::sync::{Arc, Wait};
use worker_machine::{Turn, Worker, new_follows, new_has_made_none};

// A worker, its pass, and the meter of its time.
pub(crate) struct Seated<M: Meter> {
    pub worker: Worker,
    pub pass: Pass<Bench>,
    pub meter: M,
}

// A worker of this pass, which has done nothing, and the pass.
pub(crate) fn worker_of(
    alloc: Global,
    board: &Board<Bench>,
    plan: &Arc<Plan>,
    pass: Pass<Bench>,
) -> Result<(Worker, Pass<Bench>), AllocError>
    requires pass { IsUnused board.now pass.worker pass }
    requires subject { board_subject board.now ≡ arc_value plan.now }
    requires queries { (board_shape board.now).queries
        ≡ length (arc_value plan.now).queries.items }
    ensures fresh { IfOk result (λ both. IsFresh board.now both.0 both.1) }
    ensures pass { IfOk result (λ both. both.1.worker ≡ pass.worker) }
{
    let workers = board.shape.workers;
    let slots = board.shape.slots;
    let worker = Worker::new(alloc, pass.worker, workers, slots, Arc::try_clone(plan)?)?;
    let seat = BoardSeat::new(board, pass, Snapshot::of(&**plan));
    new_follows(&worker, &seat);
    new_has_made_none(&worker, &seat);
    Ok((worker, seat.into_pass()))
}

// The worker takes turns until it is over.
pub(crate) fn end_turns<R: Wait, M: Meter, G: Gate>(
    rt: &R,
    alloc: Global,
    board: &Board<Bench>,
    plan: &Arc<Plan>,
    sits: &mut Seated<M>,
    gate: &G,
)
    requires fresh { IsFresh board.now sits.old.worker sits.old.pass }
    requires subject { board_subject board.now ≡ arc_value plan.now }
    requires queries { (board_shape board.now).queries
        ≡ length (arc_value plan.now).queries.items }
    ensures over { IsOver M.may_take board.now sits.new.worker sits.new.pass }
    ensures pass { sits.new.pass.worker ≡ sits.old.pass.worker }
{
    replace_with(
        sits,
        (),
        |sits: Seated<M>, done: ()| -> (Seated<M>, ())
            requires { IsFresh board.now sits.worker sits.pass
                × (board_subject board.now ≡ arc_value plan.now)
                × ((board_shape board.now).queries
                ≡ length (arc_value plan.now).queries.items) }
            ensures { IsOver M.may_take board.entry.now result.0.worker result.0.pass
                × (result.0.pass.worker ≡ sits.pass.worker) }
        { (until_over(rt, alloc, board, plan, sits, gate), done) },
    );
}

// The same worker, once it is over.
fn until_over<R: Wait, M: Meter, G: Gate>(
    rt: &R,
    alloc: Global,
    board: &Board<Bench>,
    plan: &Arc<Plan>,
    sits: Seated<M>,
    gate: &G,
) -> Seated<M>
    requires fresh { IsFresh board.now sits.worker sits.pass }
    requires subject { board_subject board.now ≡ arc_value plan.now }
    requires queries { (board_shape board.now).queries
        ≡ length (arc_value plan.now).queries.items }
    ensures over { IsOver M.may_take board.now result.worker result.pass }
    ensures pass { result.pass.worker ≡ sits.pass.worker }
{
    let Seated {
        mut worker,
        pass,
        mut meter,
    } = sits;
    let mut seat = BoardSeat::new(board, pass, Snapshot::of(&**plan));
    let blank = Blank::new(1);
    turns::<R, Brand, M, G>(rt, alloc, &mut worker, &mut seat, &mut meter, gate, blank);
    let pass = seat.into_pass();
    Seated {
        worker,
        pass,
        meter,
    }
}

// Turns until the last one ended with Over, with a count of steps that begins in this ledger. After
// an idle turn the thread spins, and after several in a row it yields.
fn turns<R: Wait, L: Ledger, M: Meter, G: Gate>(
    rt: &R,
    alloc: Global,
    worker: &mut Worker,
    seat: &mut BoardSeat<Bench>,
    meter: &mut M,
    gate: &G,
    blank: Blank,
)
    requires fit { IsUnderWay M.may_take seat.old.board.now worker.old seat.old.pass
        × (is_ready worker.old.phase ≡ true) }
    requires name { blank.name ≡ L.name }
    requires parts { blank.parts ≡ L.parts }
    requires some { 0 < blank.parts }
    ensures under_way { IsUnderWay M.may_take seat.new.board.now worker.new seat.new.pass }
    ensures over { worker.new.phase ≡ Phase.Ready Turn.Over }
    ensures board { seat.new.board.now ≡ seat.old.board.now }
    ensures pass { seat.new.pass.worker ≡ seat.old.pass.worker }
{
    let mut steps = Steps::<L>::start(blank);
    let backoff = Backoff::new();
    for _ in rt.forever() {
        match worker.turn(alloc, seat, &mut steps, meter, gate) {
            Turn::Acted => backoff.reset(),
            Turn::Idle => backoff.snooze(),
            Turn::Over => return,
        }
    }
}
