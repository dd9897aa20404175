// A table for one thread and all its workers, and the stretches of a run.
ghost use Rattle.std.specs.Prelude.{◌≡◌, ◌+◌, ◌<◌, ◌≤◌, [], ◌∷◌, All, IfOk, IsTrue};
ghost use Rattle.std.specs.Arc.{arc_value};
ghost use Rattle.std.specs.List.{range_with_len};
ghost use Rattle.slot_history.specs.declared.shape.TheConstants.{MOST_SLOTS, MOST_WORKERS};
ghost use Rattle.slot_history.specs.Histories.{IsLegal};
ghost use Rattle.slot_station.specs.Log.{calls_of};
ghost use Rattle.pool_run.specs.Plays.{Leads, stints_by, rounds};
ghost use Rattle.pool_run.specs.Scenes.{scene, TeamFollows, IsBetween, StaysBetween, NoneTurns};
ghost use Rattle.pool_run.specs.Scenes.{AreNew, AreOver, Between, HasGoing, IsNew, new_table};
ghost use Rattle.pool_run.specs.Stints.{EndsTurns};
ghost use Rattle.pool_run.specs.declared.stint.Stint.TheVariants.{WholeTurn};
ghost use Rattle.run_laws.specs.Ends.{IsWork};
ghost use Rattle.worker_machine.specs.Loads.{load_of};
ghost use Rattle.slot_history.specs.Bounds.{IsShape};
ghost use Rattle.pool_run.specs.Collected.{HaveTold, IsToldBy};

use crate::report::{Parts, Told, collect};
use crate::seats::play;
use crate::stint::Stint;
use bench_cell::{Bench, Plan};
use one_thread::{OneTable, SlotObject};
use outside_io::Meter;
use slot_station::Steps;
use std::alloc::{AllocError, Global};
use std::snapshot::Snapshot;
use std::sync::Arc;
use std::sync::ledger::Ledger;
use worker_machine::{Ran, Worker};

// The workers of a plan, each at its number, and the table over which they work.
#[derive(Drop)]
pub(crate) struct Pool<O: SlotObject> {
    pub alloc: Global,
    pub table: OneTable<Bench, O>,
    pub team: Vec<Worker>,
}

// Whether the last turn of every worker ended with Over.
fn all_over(team: &[Worker]) -> bool
    ensures over { IsTrue result → AreOver team.now }
    ensures going { (IsTrue result → ⊥) → HasGoing team.now }
{
    for worker in team {
        if !worker.is_over() {
            return false;
        }
    }
    true
}

impl<O: SlotObject> Pool<O> {
    // A pool that has done nothing.
    pub(crate) fn new(
        alloc: Global,
        plan: &Arc<Plan>,
        workers: u32,
        slots: u32,
    ) -> Result<Pool<O>, AllocError>
        requires workers { (0 < workers) × (workers ≤ MOST_WORKERS) }
        requires slots { (0 < slots) × (slots ≤ MOST_SLOTS) }
        ensures table { IfOk result
            (λ pool. pool.table ≡ new_table (arc_value plan.now) workers slots) }
        ensures new { IfOk result (λ pool. IsNew (scene pool.table pool.team.items)) }
    {
        let subject = Snapshot::of(&**plan);
        let made = OneTable::<Bench, O>::make(alloc, slots, workers, plan.len(), subject);
        let Ok(table) = made else {
            return Err(AllocError);
        };
        let team = new_team(alloc, plan, workers, slots)?;
        Ok(Pool { alloc, table, team })
    }

    // A worker plays a stint, unless it is passed over.
    fn play<L: Ledger, M: Meter>(
        &mut self,
        stint: Stint,
        who: u32,
        steps: &mut Steps<L>,
        meter: &mut M,
    )
        requires who { who < self.old.table.shape.workers }
        requires follows { TeamFollows (scene self.old.table self.old.team.items) }
        requires between { stint ≡ WholeTurn → IsBetween self.old.team.items who }
        ensures follows { TeamFollows (scene self.new.table self.new.team.items) }
        ensures between { EndsTurns stint → StaysBetween who self.old.team.items
            self.new.team.items }
        ensures plays { Leads M.may_take (stints_by stint (who ∷ []))
            (scene self.old.table self.old.team.items) (scene self.new.table self.new.team.items) }
    {
        if stint.passes_over(&self.team[who as usize]) {
            return;
        }
        let worker = &mut self.team[who as usize];
        play(
            self.alloc,
            &mut self.table,
            worker,
            stint,
            who,
            steps,
            meter,
        );
    }

    // The workers of an order play a stint, one after another.
    pub(crate) fn play_order<L: Ledger, M: Meter>(
        &mut self,
        stint: Stint,
        order: &[u32],
        steps: &mut Steps<L>,
        meter: &mut M,
    )
        requires order { All (λ w. w < self.old.table.shape.workers) order.now }
        requires follows { TeamFollows (scene self.old.table self.old.team.items) }
        requires none { stint ≡ WholeTurn → NoneTurns self.old.team.items }
        ensures follows { TeamFollows (scene self.new.table self.new.team.items) }
        ensures none { stint ≡ WholeTurn → NoneTurns self.new.team.items }
        ensures plays { Leads M.may_take (stints_by stint order.now)
            (scene self.old.table self.old.team.items) (scene self.new.table self.new.team.items) }
        ensures legal { IsLegal self.new.table.shape (calls_of self.new.table.log) }
    {
        for who in order {
            self.play(stint, *who, steps, meter);
        }
        let _legal = self.table.object().shape();
    }

    // Each worker plays a stint, from worker 0 upwards.
    pub(crate) fn play_all<L: Ledger, M: Meter>(
        &mut self,
        stint: Stint,
        steps: &mut Steps<L>,
        meter: &mut M,
    )
        requires follows { TeamFollows (scene self.old.table self.old.team.items) }
        requires none { stint ≡ WholeTurn → NoneTurns self.old.team.items }
        ensures follows { TeamFollows (scene self.new.table self.new.team.items) }
        ensures none { EndsTurns stint → NoneTurns self.new.team.items }
        ensures plays { Leads M.may_take
            (stints_by stint (range_with_len 0 self.old.table.shape.workers))
            (scene self.old.table self.old.team.items) (scene self.new.table self.new.team.items) }
        ensures legal { IsLegal self.new.table.shape (calls_of self.new.table.log) }
    {
        let workers = self.table.shape().workers;
        for who in 0..workers {
            self.play(stint, who, steps, meter);
        }
        let _legal = self.table.object().shape();
    }

    // Rounds, until all workers are over. No turn is under way.
    pub(crate) fn play_rounds<L: Ledger, M: Meter>(&mut self, steps: &mut Steps<L>, meter: &mut M)
        requires work { IsWork self.old.table.shape (load_of self.old.table.subject) }
        requires between { Between M.may_take (scene self.old.table self.old.team.items) }
        ensures follows { TeamFollows (scene self.new.table self.new.team.items) }
        ensures none { NoneTurns self.new.team.items }
        ensures over { AreOver self.new.team.items }
        ensures plays { Leads M.may_take rounds (scene self.old.table self.old.team.items)
            (scene self.new.table self.new.team.items) }
    {
        'rounds: loop {
            if all_over(self.team.as_slice()) {
                return;
            }
            self.play_all(Stint::WholeTurn, steps, meter);
        }
    }

    // What the run leaves. No turn is under way.
    pub(crate) fn end(self, parts: Parts) -> Result<Ran, AllocError>
        requires none { NoneTurns self.team.items }
        requires parts { HaveTold [] parts }
        ensures history { IfOk result (λ ran. ran.history ≡ calls_of self.table.log) }
        ensures limits { IsShape self.table.shape }
        ensures legal { IsLegal self.table.shape (calls_of self.table.log) }
        ensures told { IfOk result (λ ran. IsToldBy self.team.items ran.report ran.times.items) }
    {
        let Pool {
            alloc: _,
            table,
            team,
        } = self;
        let _shape = table.object().shape();
        let Told { report, times } = collect(team, parts)?;
        let history = table.end();
        Ok(Ran {
            report,
            history,
            times,
        })
    }
}

// The workers of a plan, each at its number.
fn new_team(
    alloc: Global,
    plan: &Arc<Plan>,
    workers: u32,
    slots: u32,
) -> Result<Vec<Worker>, AllocError>
    requires workers { (0 < workers) × (workers ≤ MOST_WORKERS) }
    requires slots { (0 < slots) × (slots ≤ MOST_SLOTS) }
    ensures { IfOk result
        (λ team. AreNew (new_table (arc_value plan.now) workers slots) workers team.items) }
{
    let mut team = Vec::with_capacity(alloc, workers as usize)?;
    for who in 0..workers {
        team.push(Worker::new(alloc, who, workers, slots, Arc::try_clone(plan)?)?)?;
    }
    Ok(team)
}
