// A slot that is held: a query is admitted, task sets are opened or given up, and the slot is
// released.
ghost use Rattle.std.specs.Prelude.{◌≡◌, ◌+◌, ◌<◌, unwrap_or};
ghost use Rattle.slot_history.specs.declared.shape.TheConstants.{MOST_QUERIES, STAGES};
ghost use Rattle.worker_machine.specs.Hands.{next_by};

use crate::benches::{first_inputs, make_benches};
use crate::kept::Core;
use crate::phase::Phase;
use crate::plans::{query_of, task_total};
use bench_cell::Bench;
use pipe_ops::Inputs;
use plan_ast::stages;
use report_text::{QueryReply, Reply};
use slot_station::shape::STAGES;
use slot_station::{Admit, Announcer, Holder, Reserve, Station, Steps};
use std::alloc::Global;
use std::sync::Arc;
use std::sync::ledger::Ledger;
use turn_model::Turn;

// The task set that the holder installs next.
pub(crate) fn next_of(holder: &Holder) -> u32
    requires query { unwrap_or holder.now.query 0 < MOST_QUERIES }
    requires stage { holder.now.stage < STAGES }
    ensures { result ≡ next_by holder.now }
{
    STAGES * holder.query.unwrap_or(0) + if holder.again { holder.stage + 1 } else { 0 }
}

impl Core {
    ghost use Rattle.std.specs.Prelude.{◌≡◌, ◌+◌, ◌*◌, ◌<◌, IsTrue, length};
    ghost use Rattle.std.specs.Arc.{arc_value};
    ghost use Rattle.slot_history.specs.declared.shape.TheConstants.{STAGES};
    ghost use Rattle.pipe_ops.specs.Inputs.{AreInputs};
    ghost use Rattle.bench_cell.specs.Benches.{AreInputsOf};
    ghost use Rattle.bench_cell.specs.declared.plan.Plan.{Plan};
    ghost use Rattle.worker_machine.specs.Benches.{AreFresh};
    ghost use Rattle.worker_machine.specs.Desks.{CoreFits, desk_of, Stays};
    ghost use Rattle.worker_machine.specs.Following.{FollowsAt};
    ghost use Rattle.worker_machine.specs.Hands.{InHand};
    ghost use Rattle.std.specs.Prelude.{◌≤◌, [], ◌∷◌, ◌++◌, unwrap_or};
    ghost use Rattle.std.specs.Vec.{vec_capacity};
    ghost use Rattle.turn_model.specs.Reports.{IsReplyTo};
    ghost use Rattle.worker_machine.specs.Loads.{load_of};
    ghost use Rattle.worker_machine.specs.Replies.{AreAnswers};
    ghost use Rattle.worker_machine.specs.Keeps.{KeepsMind, Moves, standing, takes_none};
    ghost use Rattle.worker_machine.specs.Left.{IsNearer};
    ghost use Rattle.worker_machine.specs.declared.phase.Phase.{Phase};

    pub(crate) fn scan<S: Station<Bench>, L: Ledger>(
        &mut self,
        station: &mut S,
        steps: &mut Steps<L>,
        s: u32,
    ) -> Phase
        requires follows { FollowsAt self.old (S.seen station.old) (Phase.Scan s) }
        ensures hand { InHand (S.seen station.new) self.new.benches.items result }
        ensures fits { CoreFits self.new result }
        ensures nearer { IsNearer (S.seen station.old).desk (Phase.Scan s) result }
        ensures same { desk_of self.new ≡ desk_of self.old }
        ensures stays { Stays (S.seen station.old) (S.seen station.new) }
        ensures moves { Moves takes_none
            (standing self.old (Phase.Scan s) (S.seen station.old))
            (standing self.new result (S.seen station.new)) }
        ensures ticks { steps.new ≡ steps.old + 1 }
    {
        match station.reserve(s, steps) {
            Reserve::Got(holder) => Phase::Admit(holder),
            Reserve::Taken(_) => {
                if s + 1 < self.slots {
                    Phase::Scan(s + 1)
                } else {
                    self.pick()
                }
            }
        }
    }

    pub(crate) fn admit<S: Station<Bench>, L: Ledger>(
        &mut self,
        alloc: Global,
        station: &mut S,
        steps: &mut Steps<L>,
        mut holder: Holder,
    ) -> Phase
        requires follows { FollowsAt self.old (S.seen station.old) (Phase.Admit holder) }
        ensures hand { InHand (S.seen station.new) self.new.benches.items result }
        ensures fits { CoreFits self.new result }
        ensures nearer { IsNearer (S.seen station.old).desk (Phase.Admit holder) result }
        ensures same { desk_of self.new ≡ desk_of self.old }
        ensures stays { Stays (S.seen station.old) (S.seen station.new) }
        ensures moves { Moves takes_none
            (standing self.old (Phase.Admit holder) (S.seen station.old))
            (standing self.new result (S.seen station.new)) }
        ensures ticks { steps.new ≡ steps.old + 1 }
    {
        match station.admit(&mut holder, self.arrived, steps) {
            Admit::Got => {
                if self.make_first(alloc) {
                    Phase::Put(holder, 0)
                } else {
                    Phase::Give(holder)
                }
            }
            Admit::Lost(_) => Phase::FreeIt(holder),
        }
    }

    // Makes the benches of the first task set of the query that arrived. Answers whether memory
    // sufficed.
    fn make_first(&mut self, alloc: Global) -> bool
        requires { self.old.arrived < length (arc_value self.old.plan).queries.items }
        ensures same { desk_of self.new ≡ desk_of self.old }
        ensures mind { KeepsMind self.old self.new }
        ensures replies { self.new.replies ≡ self.old.replies }
        ensures records { self.new.records ≡ self.old.records }
        ensures count { IsTrue result → length self.new.benches.items ≡ self.new.workers }
        ensures fresh { IsTrue result → AreFresh (arc_value self.new.plan)
            (STAGES * self.old.arrived) self.new.workers self.new.benches.items }
    {
        match first_inputs(alloc, &self.plan, self.arrived) {
            Ok(inputs) => self.make_all(alloc, STAGES * self.arrived, &inputs),
            Err(_) => false,
        }
    }

    // Makes the benches of a task set. Answers whether memory sufficed.
    pub(crate) fn make_all(&mut self, alloc: Global, id: u32, inputs: &Arc<Inputs>) -> bool
        requires { AreInputs (arc_value inputs.now) }
        ensures same { desk_of self.new ≡ desk_of self.old }
        ensures mind { KeepsMind self.old self.new }
        ensures replies { self.new.replies ≡ self.old.replies }
        ensures records { self.new.records ≡ self.old.records }
        ensures count { IsTrue result → length self.new.benches.items ≡ self.new.workers }
        ensures fresh { (plan : Plan) → AreInputsOf plan id (arc_value inputs.now)
            → IsTrue result → AreFresh plan id self.new.workers self.new.benches.items }
    {
        make_benches(alloc, &mut self.benches, self.workers, id, inputs)
    }

    pub(crate) fn put<S: Station<Bench>, L: Ledger>(
        &mut self,
        station: &mut S,
        steps: &mut Steps<L>,
        mut holder: Holder,
        v: u32,
    ) -> Phase
        requires follows { FollowsAt self.old (S.seen station.old) (Phase.Put holder v) }
        ensures hand { InHand (S.seen station.new) self.new.benches.items result }
        ensures fits { CoreFits self.new result }
        ensures nearer { IsNearer (S.seen station.old).desk (Phase.Put holder v) result }
        ensures same { desk_of self.new ≡ desk_of self.old }
        ensures stays { Stays (S.seen station.old) (S.seen station.new) }
        ensures moves { Moves takes_none
            (standing self.old (Phase.Put holder v) (S.seen station.old))
            (standing self.new result (S.seen station.new)) }
        ensures ticks { steps.new ≡ steps.old + 1 }
    {
        let bench = self.benches.pop();
        drop(station.cell(&mut holder, v, bench, steps));
        if v + 1 < self.workers {
            Phase::Put(holder, v + 1)
        } else {
            Phase::Size(holder)
        }
    }

    pub(crate) fn size<S: Station<Bench>, L: Ledger>(
        &mut self,
        station: &mut S,
        steps: &mut Steps<L>,
        mut holder: Holder,
    ) -> Phase
        requires follows { FollowsAt self.old (S.seen station.old) (Phase.Size holder) }
        ensures hand { InHand (S.seen station.new) self.new.benches.items result }
        ensures fits { CoreFits self.new result }
        ensures nearer { IsNearer (S.seen station.old).desk (Phase.Size holder) result }
        ensures same { desk_of self.new ≡ desk_of self.old }
        ensures stays { Stays (S.seen station.old) (S.seen station.new) }
        ensures moves { Moves takes_none
            (standing self.old (Phase.Size holder) (S.seen station.old))
            (standing self.new result (S.seen station.new)) }
        ensures ticks { steps.new ≡ steps.old + 1 }
    {
        let total = task_total(&self.plan, next_of(&holder));
        station.set_total(&mut holder, total, steps);
        Phase::Install(holder)
    }

    pub(crate) fn install<S: Station<Bench>, L: Ledger>(
        &mut self,
        station: &mut S,
        steps: &mut Steps<L>,
        holder: Holder,
    ) -> Phase
        requires follows { FollowsAt self.old (S.seen station.old) (Phase.Install holder) }
        ensures hand { InHand (S.seen station.new) self.new.benches.items result }
        ensures fits { CoreFits self.new result }
        ensures nearer { IsNearer (S.seen station.old).desk (Phase.Install holder) result }
        ensures same { desk_of self.new ≡ desk_of self.old }
        ensures stays { Stays (S.seen station.old) (S.seen station.new) }
        ensures moves { Moves takes_none
            (standing self.old (Phase.Install holder) (S.seen station.old))
            (standing self.new result (S.seen station.new)) }
        ensures ticks { steps.new ≡ steps.old + 1 }
    {
        let id = next_of(&holder);
        Phase::Tell(station.install(holder, id, steps))
    }

    pub(crate) fn tell<S: Station<Bench>, L: Ledger>(
        &mut self,
        station: &mut S,
        steps: &mut Steps<L>,
        mut announcer: Announcer,
    ) -> Phase
        requires follows { FollowsAt self.old (S.seen station.old) (Phase.Tell announcer) }
        ensures hand { InHand (S.seen station.new) self.new.benches.items result }
        ensures fits { CoreFits self.new result }
        ensures nearer { IsNearer (S.seen station.old).desk (Phase.Tell announcer) result }
        ensures same { desk_of self.new ≡ desk_of self.old }
        ensures stays { Stays (S.seen station.old) (S.seen station.new) }
        ensures moves { Moves takes_none
            (standing self.old (Phase.Tell announcer) (S.seen station.old))
            (standing self.new result (S.seen station.new)) }
        ensures ticks { steps.new ≡ steps.old + 1 }
    {
        station.announce(&mut announcer, steps);
        if announcer.all_told() {
            station.told_all(announcer);
            Phase::Ready(Turn::Acted)
        } else {
            Phase::Tell(announcer)
        }
    }

    pub(crate) fn give<S: Station<Bench>, L: Ledger>(
        &mut self,
        station: &mut S,
        steps: &mut Steps<L>,
        mut holder: Holder,
    ) -> Phase
        requires follows { FollowsAt self.old (S.seen station.old) (Phase.Give holder) }
        ensures hand { InHand (S.seen station.new) self.new.benches.items result }
        ensures fits { CoreFits self.new result }
        ensures nearer { IsNearer (S.seen station.old).desk (Phase.Give holder) result }
        ensures same { desk_of self.new ≡ desk_of self.old }
        ensures stays { Stays (S.seen station.old) (S.seen station.new) }
        ensures moves { Moves takes_none
            (standing self.old (Phase.Give holder) (S.seen station.old))
            (standing self.new result (S.seen station.new)) }
        ensures ticks { steps.new ≡ steps.old + 1 }
    {
        let all = stages(query_of(&self.plan, holder.query.unwrap_or(0)));
        let rest = all - holder.stage;
        station.note_done(&mut holder, rest, steps);
        self.reply(&holder, Reply::Memory);
        Phase::FreeIt(holder)
    }

    pub(crate) fn free_it<S: Station<Bench>, L: Ledger>(
        &mut self,
        station: &mut S,
        steps: &mut Steps<L>,
        holder: Holder,
    ) -> Phase
        requires follows { FollowsAt self.old (S.seen station.old) (Phase.FreeIt holder) }
        ensures hand { InHand (S.seen station.new) self.new.benches.items result }
        ensures fits { CoreFits self.new result }
        ensures nearer { IsNearer (S.seen station.old).desk (Phase.FreeIt holder) result }
        ensures same { desk_of self.new ≡ desk_of self.old }
        ensures stays { Stays (S.seen station.old) (S.seen station.new) }
        ensures moves { Moves takes_none
            (standing self.old (Phase.FreeIt holder) (S.seen station.old))
            (standing self.new result (S.seen station.new)) }
        ensures ticks { steps.new ≡ steps.old + 1 }
    {
        station.release(holder, steps);
        Phase::Ready(Turn::Acted)
    }

    // Keeps the reply to the query that the slot is held for. There is room for one to each query
    // (`Tells`): a worker keeps no more than that.
    pub(crate) fn reply(&mut self, holder: &Holder, reply: Reply)
        requires { IsReplyTo (load_of (arc_value self.old.plan))
            (unwrap_or holder.now.query 0) reply }
        ensures answers { AreAnswers (arc_value self.old.plan) self.old.replies.items
            → AreAnswers (arc_value self.old.plan) self.new.replies.items }
        ensures same { desk_of self.new ≡ desk_of self.old }
        ensures benches { self.new.benches ≡ self.old.benches }
        ensures mind { KeepsMind self.old self.new }
        ensures records { self.new.records ≡ self.old.records }
        ensures room { vec_capacity self.old.replies ≤ vec_capacity self.new.replies }
        ensures pushed { length self.old.replies.items < vec_capacity self.old.replies
            → self.new.replies.items ≡ self.old.replies.items
            ++ record { query = unwrap_or holder.now.query 0; reply = reply } ∷ [] }
    {
        let query = holder.query.unwrap_or(0);
        let _room = self.replies.push(QueryReply { query, reply });
    }
}
