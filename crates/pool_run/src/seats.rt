// A stint of one worker over a table.
ghost use Rattle.std.specs.Prelude.{◌≡◌, ◌<◌, true, false};
ghost use Rattle.one_thread.specs.Seats.{desk_over};
ghost use Rattle.worker_machine.specs.declared.phase.Phase.{Phase};
ghost use Rattle.worker_machine.specs.Following.{stepped};
ghost use Rattle.worker_machine.specs.Keeps.{Moves};
ghost use Rattle.worker_machine.specs.Left.{IsNearer, is_ready};
ghost use Rattle.worker_machine.specs.Turning.{Turns};
ghost use Rattle.pool_run.specs.Rests.{Rests};
ghost use Rattle.pool_run.specs.Scenes.{FollowsIn, Since, stands_in};
ghost use Rattle.pool_run.specs.Stints.{Acts, EndsTurns, IsPassedOver};
ghost use Rattle.pool_run.specs.declared.stint.Stint.TheVariants.{WholeTurn};

use crate::stint::Stint;
use bench_cell::Bench;
use one_thread::{OneTable, SlotObject};
use outside_io::{Meter, OpenGate};
use slot_station::Steps;
use std::alloc::Global;
use std::sync::ledger::Ledger;
use worker_machine::{Phase, Stepped, Turn, Worker};

// Plays a stint of a worker, and no step of another one. At a whole turn it has no turn under way.
pub(crate) fn play<O: SlotObject, L: Ledger, M: Meter>(
    alloc: Global,
    table: &mut OneTable<Bench, O>,
    worker: &mut Worker,
    stint: Stint,
    who: u32,
    steps: &mut Steps<L>,
    meter: &mut M,
)
    requires who { who < table.old.shape.workers }
    requires follows { FollowsIn table.old who worker.old }
    requires plays { IsPassedOver stint worker.old.phase → ⊥ }
    requires between { stint ≡ WholeTurn → is_ready worker.old.phase ≡ true }
    ensures follows { FollowsIn table.new who worker.new }
    ensures between { EndsTurns stint → is_ready worker.new.phase ≡ true }
    ensures since { Since table.old table.new who }
    ensures acts { Acts M.may_take stint (stands_in table.old who worker.old)
        (stands_in table.new who worker.new) }
{
    match stint {
        Stint::WholeTurn => {
            let _turn = one_turn(alloc, table, worker, who, steps, meter);
        }
        Stint::OneStep => {
            let _stepped = one_step(alloc, table, worker, who, steps, meter);
        }
        Stint::RestOfTurn => {
            let _turn = rest_of_turn(alloc, table, worker, who, steps, meter);
        }
    }
}

// Makes one turn of a worker, and no step of another one. The worker has no turn under way.
fn one_turn<O: SlotObject, L: Ledger, M: Meter>(
    alloc: Global,
    table: &mut OneTable<Bench, O>,
    worker: &mut Worker,
    who: u32,
    steps: &mut Steps<L>,
    meter: &mut M,
) -> Turn
    requires who { who < table.old.shape.workers }
    requires follows { FollowsIn table.old who worker.old }
    requires ready { is_ready worker.old.phase ≡ true }
    ensures follows { FollowsIn table.new who worker.new }
    ensures ends { worker.new.phase ≡ Phase.Ready result }
    ensures since { Since table.old table.new who }
    ensures turns { Turns M.may_take (stands_in table.old who worker.old) result
        (stands_in table.new who worker.new) }
{
    let mut seat = table.seat(who);
    worker.turn(alloc, &mut seat, steps, meter, &OpenGate)
}

// Makes one step of a worker, and no step of another one.
fn one_step<O: SlotObject, L: Ledger, M: Meter>(
    alloc: Global,
    table: &mut OneTable<Bench, O>,
    worker: &mut Worker,
    who: u32,
    steps: &mut Steps<L>,
    meter: &mut M,
) -> Stepped
    requires who { who < table.old.shape.workers }
    requires follows { FollowsIn table.old who worker.old }
    ensures follows { FollowsIn table.new who worker.new }
    ensures ends { result ≡ stepped worker.new.phase }
    ensures nearer { IsNearer (desk_over table.old who) worker.old.phase worker.new.phase }
    ensures since { Since table.old table.new who }
    ensures moves { Moves M.may_take (stands_in table.old who worker.old)
        (stands_in table.new who worker.new) }
{
    let mut seat = table.seat(who);
    worker.step(alloc, &mut seat, steps, meter, &OpenGate)
}

// Makes steps of a worker up to the end of the turn that it has under way, and no step of another
// one.
fn rest_of_turn<O: SlotObject, L: Ledger, M: Meter>(
    alloc: Global,
    table: &mut OneTable<Bench, O>,
    worker: &mut Worker,
    who: u32,
    steps: &mut Steps<L>,
    meter: &mut M,
) -> Turn
    requires who { who < table.old.shape.workers }
    requires follows { FollowsIn table.old who worker.old }
    requires under_way { is_ready worker.old.phase ≡ false }
    ensures follows { FollowsIn table.new who worker.new }
    ensures ends { worker.new.phase ≡ Phase.Ready result }
    ensures since { Since table.old table.new who }
    ensures rests { Rests M.may_take (stands_in table.old who worker.old) result
        (stands_in table.new who worker.new) }
{
    'rest: loop {
        match one_step(alloc, table, worker, who, steps, meter) {
            Stepped::More => {}
            Stepped::End(turn) => return turn,
        }
    }
}
