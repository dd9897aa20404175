// The finish of a task set: its benches are fetched and gathered, and it is noted as done.
ghost use Rattle.std.specs.Prelude.{◌≡◌, ◌+◌, ◌*◌, ◌^◌, ◌<◌};
ghost use Rattle.worker_machine.specs.Hands.{IsTaskHeld, finalised_by};

use crate::benches::next_inputs;
use crate::kept::Core;
use crate::phase::Phase;
use crate::plans::task_total;
use bench_cell::{Bench, Gathered, Plan, gather};
use pipe_ops::{Inputs, StageResult};
use plan_ast::Answer;
use report_text::{Record, Reply};
use slot_station::shape::STAGES;
use slot_station::{Holder, Station, Steps};
use std::alloc::{AllocError, Global};
use std::sync::Arc;
use std::sync::ledger::Ledger;

impl Core {
    ghost use Rattle.std.specs.Prelude.{◌≡◌, ◌+◌, ◌*◌, ◌^◌, ◌<◌, ◌≤◌, ℕ, [], ◌∷◌, ◌++◌};
    ghost use Rattle.std.specs.Prelude.{None, true, IfOk, IsTrue, length};
    ghost use Rattle.std.specs.Arc.{arc_value};
    ghost use Rattle.pipe_ops.specs.StageResults.{goes_on};
    ghost use Rattle.slot_station.specs.Desks.{Desk};
    ghost use Rattle.worker_machine.specs.Benches.{AreOfTaskSet, HasResult, IsResultFor};
    ghost use Rattle.bench_cell.specs.declared.plan.Plan.{Plan};
    ghost use Rattle.worker_machine.specs.Desks.{AreNextMade, CoreFits, desk_of, Stays};
    ghost use Rattle.worker_machine.specs.Following.{FollowsAt};
    ghost use Rattle.worker_machine.specs.Hands.{InHand, IsTaskHeld, finalised_by};
    ghost use Rattle.worker_machine.specs.Keeps.{KeepsMind, Moves, standing, takes_none};
    ghost use Rattle.worker_machine.specs.Left.{IsBelow, IsNearer};
    ghost use Rattle.std.specs.Vec.{vec_capacity};
    ghost use Rattle.worker_machine.specs.Telling.{KeepsRecord};
    ghost use Rattle.worker_machine.specs.Outcomes.{IsFinishing};
    ghost use Rattle.worker_machine.specs.declared.phase.Phase.{Phase};

    pub(crate) fn fetch<S: Station<Bench>, L: Ledger>(
        &mut self,
        alloc: Global,
        station: &mut S,
        steps: &mut Steps<L>,
        mut holder: Holder,
        v: u32,
    ) -> Phase
        requires follows { FollowsAt self.old (S.seen station.old) (Phase.Fetch holder v) }
        ensures hand { InHand (S.seen station.new) self.new.benches.items result }
        ensures fits { CoreFits self.new result }
        ensures nearer { IsNearer (S.seen station.old).desk (Phase.Fetch holder v) result }
        ensures same { desk_of self.new ≡ desk_of self.old }
        ensures stays { Stays (S.seen station.old) (S.seen station.new) }
        ensures moves { Moves takes_none
            (standing self.old (Phase.Fetch holder v) (S.seen station.old))
            (standing self.new result (S.seen station.new)) }
        ensures ticks { steps.new ≡ steps.old + 1 }
    {
        let Some(bench) = station.cell(&mut holder, v, None, steps) else {
            unreachable!()
        };
        match self.benches.push(bench) {
            Ok(()) => {}
            Err(_) => unreachable!(),
        }
        if v + 1 < self.workers {
            Phase::Fetch(holder, v + 1)
        } else {
            self.gathered(alloc, holder)
        }
    }

    // Gathers the benches of all workers.
    fn gathered(&mut self, alloc: Global, holder: Holder) -> Phase
        requires held { IsTaskHeld (arc_value self.old.plan) holder }
        requires again { holder.again ≡ true }
        requires some { 0 < length self.old.benches.items }
        requires benches { AreOfTaskSet (arc_value self.old.plan) (finalised_by holder)
            self.old.benches.items }
        ensures finishes { IsFinishing self.new holder result }
        ensures nearer { (D : Desk Plan) (n : ℕ) → 2 * D.shape.workers + 5 < n
            → IsBelow D n result }
        ensures fits { CoreFits self.new result }
        ensures same { desk_of self.new ≡ desk_of self.old }
        ensures mind { KeepsMind self.old self.new }
        ensures replies { self.new.replies ≡ self.old.replies }
        ensures record { KeepsRecord self.old self.new holder result }
    {
        let id = finalised_id(&self.plan, &holder);
        let total = task_total(&self.plan, id);
        let inputs = Arc::try_clone(self.benches[0].inputs());
        match gather(alloc, self.worker, holder.slot, total, &mut self.benches) {
            Gathered::Short { kept } => {
                self.keep(kept);
                Phase::Give(holder)
            }
            Gathered::Whole { result, kept } => {
                self.keep(kept);
                self.whole(alloc, holder, inputs, result)
            }
        }
    }

    // Keeps the record of a task set. There is room for one of each (`Tells`): a worker keeps
    // no more than that.
    fn keep(&mut self, record: Record)
        ensures same { desk_of self.new ≡ desk_of self.old }
        ensures mind { KeepsMind self.old self.new }
        ensures replies { self.new.replies ≡ self.old.replies }
        ensures benches { self.new.benches ≡ self.old.benches }
        ensures room { vec_capacity self.old.records ≤ vec_capacity self.new.records }
        ensures pushed { length self.old.records.items < vec_capacity self.old.records
            → self.new.records.items ≡ self.old.records.items ++ «record» ∷ [] }
    {
        let _room = self.records.push(record);
    }

    // What follows the whole result of a task set with these inputs.
    fn whole(
        &mut self,
        alloc: Global,
        holder: Holder,
        inputs: Result<Arc<Inputs>, AllocError>,
        whole: StageResult,
    ) -> Phase
        requires held { IsTaskHeld (arc_value self.old.plan) holder }
        requires again { holder.again ≡ true }
        requires inputs { IfOk inputs (λ inputs. HasResult (arc_value self.old.plan)
            (finalised_by holder) whole (arc_value inputs)) }
        requires whole { IsResultFor (arc_value self.old.plan) (finalised_by holder) whole }
        ensures finishes { IsFinishing self.new holder result }
        ensures nearer { (D : Desk Plan) (n : ℕ) → 2 * D.shape.workers + 5 < n
            → IsBelow D n result }
        ensures fits { CoreFits self.new result }
        ensures same { desk_of self.new ≡ desk_of self.old }
        ensures mind { KeepsMind self.old self.new }
        ensures replies { self.new.replies ≡ self.old.replies }
        ensures records { self.new.records ≡ self.old.records }
    {
        match whole {
            StageResult::Answer(answer) => Phase::Note(holder, Some(answer)),
            StageResult::Side(side) => self.go_on(alloc, holder, inputs, StageResult::Side(side)),
            StageResult::Parts(parts) => {
                self.go_on(alloc, holder, inputs, StageResult::Parts(parts))
            }
        }
    }

    // What follows the whole result of a task set that is not the last of its query.
    fn go_on(
        &mut self,
        alloc: Global,
        holder: Holder,
        inputs: Result<Arc<Inputs>, AllocError>,
        whole: StageResult,
    ) -> Phase
        requires held { IsTaskHeld (arc_value self.old.plan) holder }
        requires inputs { IfOk inputs (λ inputs. HasResult (arc_value self.old.plan)
            (finalised_by holder) whole (arc_value inputs)) }
        requires later { goes_on whole }
        ensures finishes { IsFinishing self.new holder result }
        ensures nearer { (D : Desk Plan) (n : ℕ) → 2 * D.shape.workers + 5 < n
            → IsBelow D n result }
        ensures fits { CoreFits self.new result }
        ensures same { desk_of self.new ≡ desk_of self.old }
        ensures mind { KeepsMind self.old self.new }
        ensures replies { self.new.replies ≡ self.old.replies }
        ensures records { self.new.records ≡ self.old.records }
    {
        let id = finalised_id(&self.plan, &holder);
        if self.make_next(alloc, id, inputs, whole) {
            Phase::Note(holder, None)
        } else {
            Phase::Give(holder)
        }
    }

    // Makes the benches of the task set after the one with this id. Answers whether memory
    // sufficed.
    fn make_next(
        &mut self,
        alloc: Global,
        id: u32,
        inputs: Result<Arc<Inputs>, AllocError>,
        whole: StageResult,
    ) -> bool
        requires inputs { IfOk inputs (λ inputs. HasResult (arc_value self.old.plan) id whole
            (arc_value inputs)) }
        requires later { goes_on whole }
        requires few { id + 1 < 2 ^ 32 }
        ensures same { desk_of self.new ≡ desk_of self.old }
        ensures mind { KeepsMind self.old self.new }
        ensures replies { self.new.replies ≡ self.old.replies }
        ensures records { self.new.records ≡ self.old.records }
        ensures made { IsTrue result → AreNextMade self.new id }
    {
        let Ok(inputs) = inputs else {
            return false;
        };
        match next_inputs(alloc, &inputs, whole) {
            Ok(inputs) => self.make_all(alloc, id + 1, &inputs),
            Err(_) => false,
        }
    }

    pub(crate) fn note<S: Station<Bench>, L: Ledger>(
        &mut self,
        station: &mut S,
        steps: &mut Steps<L>,
        mut holder: Holder,
        answer: Option<Answer>,
    ) -> Phase
        requires follows { FollowsAt self.old (S.seen station.old) (Phase.Note holder answer) }
        ensures hand { InHand (S.seen station.new) self.new.benches.items result }
        ensures fits { CoreFits self.new result }
        ensures nearer { IsNearer (S.seen station.old).desk (Phase.Note holder answer) result }
        ensures same { desk_of self.new ≡ desk_of self.old }
        ensures stays { Stays (S.seen station.old) (S.seen station.new) }
        ensures moves { Moves takes_none
            (standing self.old (Phase.Note holder answer) (S.seen station.old))
            (standing self.new result (S.seen station.new)) }
        ensures ticks { steps.new ≡ steps.old + 1 }
    {
        station.note_done(&mut holder, 1, steps);
        match answer {
            None => Phase::Put(holder, 0),
            Some(answer) => {
                self.reply(&holder, Reply::Answer(answer));
                Phase::FreeIt(holder)
            }
        }
    }
}

// The id of the task set that is finalised.
fn finalised_id(plan: &Plan, holder: &Holder) -> u32
    requires { IsTaskHeld plan.now holder.now }
    ensures id { result ≡ finalised_by holder.now }
    ensures few { result < 2 ^ 15 }
{
    STAGES * holder.query.unwrap_or(0) + holder.stage
}
