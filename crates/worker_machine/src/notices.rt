// The begin of a turn: the notices, the two numbers, and which slot is next.

use crate::joins::{Notice, forget_groups, join_all};
use crate::kept::Core;
use crate::phase::Phase;
use crate::plans::query_of;
use bench_cell::Bench;
use slot_station::shape::PARTS;
use slot_station::{Station, Steps};
use std::sync::ledger::Ledger;
use turn_model::Turn;

impl Core {
    ghost use Rattle.std.specs.Prelude.{◌≡◌, ◌+◌, ◌*◌, ◌<◌, ℕ, IsTrue, length};
    ghost use Rattle.std.specs.Arc.{arc_value};
    ghost use Rattle.slot_station.specs.Desks.{Desk};
    ghost use Rattle.bench_cell.specs.declared.bench.Bench.{Bench};
    ghost use Rattle.bench_cell.specs.declared.plan.Plan.{Plan};
    ghost use Rattle.worker_machine.specs.Desks.{CoreFits, desk_of, Stays};
    ghost use Rattle.worker_machine.specs.Following.{FollowsAt};
    ghost use Rattle.worker_machine.specs.Hands.{InHand};
    ghost use Rattle.turn_model.specs.Points.{is_due};
    ghost use Rattle.turn_model.specs.declared.turn.Turn.{Turn};
    ghost use Rattle.worker_machine.specs.Keeps.{Moves, Picks, standing, takes_none};
    ghost use Rattle.worker_machine.specs.Loads.{model_desk};
    ghost use Rattle.worker_machine.specs.Left.{IsBelow, IsNearer};
    ghost use Rattle.worker_machine.specs.Outcomes.{IsPicked};
    ghost use Rattle.worker_machine.specs.declared.phase.Phase.{Phase};

    pub(crate) fn take_return<S: Station<Bench>, L: Ledger>(
        &mut self,
        station: &mut S,
        steps: &mut Steps<L>,
        part: u32,
    ) -> Phase
        requires follows { FollowsAt self.old (S.seen station.old) (Phase.Return part) }
        ensures hand { InHand (S.seen station.new) self.new.benches.items result }
        ensures fits { CoreFits self.new result }
        ensures nearer { IsNearer (S.seen station.old).desk (Phase.Return part) result }
        ensures same { desk_of self.new ≡ desk_of self.old }
        ensures stays { Stays (S.seen station.old) (S.seen station.new) }
        ensures begins { part ≡ 0 → (turn : Turn) → Moves takes_none
            (standing self.old (Phase.Ready turn) (S.seen station.old))
            (standing self.new result (S.seen station.new)) }
        ensures moves { Moves takes_none
            (standing self.old (Phase.Return part) (S.seen station.old))
            (standing self.new result (S.seen station.new)) }
        ensures ticks { steps.new ≡ steps.old + 1 }
    {
        let bits = station.take_return(part, steps);
        join_all(&mut self.strides, Notice::Returned, part, bits);
        if part + 1 < PARTS {
            Phase::Return(part + 1)
        } else {
            Phase::Change(0)
        }
    }

    pub(crate) fn take_change<S: Station<Bench>, L: Ledger>(
        &mut self,
        station: &mut S,
        steps: &mut Steps<L>,
        part: u32,
    ) -> Phase
        requires follows { FollowsAt self.old (S.seen station.old) (Phase.Change part) }
        ensures hand { InHand (S.seen station.new) self.new.benches.items result }
        ensures fits { CoreFits self.new result }
        ensures nearer { IsNearer (S.seen station.old).desk (Phase.Change part) result }
        ensures same { desk_of self.new ≡ desk_of self.old }
        ensures stays { Stays (S.seen station.old) (S.seen station.new) }
        ensures moves { Moves takes_none
            (standing self.old (Phase.Change part) (S.seen station.old))
            (standing self.new result (S.seen station.new)) }
        ensures ticks { steps.new ≡ steps.old + 1 }
    {
        let bits = station.take_change(part, steps);
        join_all(&mut self.strides, Notice::Changed, part, bits);
        forget_groups(&mut self.known, part, bits);
        if part + 1 < PARTS {
            Phase::Change(part + 1)
        } else {
            Phase::Count
        }
    }

    pub(crate) fn count<S: Station<Bench>, L: Ledger>(
        &mut self,
        station: &mut S,
        steps: &mut Steps<L>,
    ) -> Phase
        requires follows { FollowsAt self.old (S.seen station.old) Phase.Count }
        ensures hand { InHand (S.seen station.new) self.new.benches.items result }
        ensures fits { CoreFits self.new result }
        ensures nearer { IsNearer (S.seen station.old).desk Phase.Count result }
        ensures same { desk_of self.new ≡ desk_of self.old }
        ensures stays { Stays (S.seen station.old) (S.seen station.new) }
        ensures moves { Moves takes_none
            (standing self.old Phase.Count (S.seen station.old))
            (standing self.new result (S.seen station.new)) }
        ensures ticks { steps.new ≡ steps.old + 1 }
    {
        self.finished = station.finished(steps);
        Phase::Arrive
    }

    pub(crate) fn arrive<S: Station<Bench>, L: Ledger>(
        &mut self,
        station: &mut S,
        steps: &mut Steps<L>,
    ) -> Phase
        requires follows { FollowsAt self.old (S.seen station.old) Phase.Arrive }
        ensures hand { InHand (S.seen station.new) self.new.benches.items result }
        ensures fits { CoreFits self.new result }
        ensures nearer { IsNearer (S.seen station.old).desk Phase.Arrive result }
        ensures same { desk_of self.new ≡ desk_of self.old }
        ensures stays { Stays (S.seen station.old) (S.seen station.new) }
        ensures moves { Moves takes_none
            (standing self.old Phase.Arrive (S.seen station.old))
            (standing self.new result (S.seen station.new)) }
        ensures ticks { steps.new ≡ steps.old + 1 }
    {
        self.arrived = station.arrivals(steps);
        if self.is_due() {
            Phase::Scan(0)
        } else {
            self.pick()
        }
    }

    // The query that is the next to arrive is due.
    fn is_due(&self) -> bool
        ensures due { result ≡ is_due (model_desk (desk_of self.now)) self.now.arrived
            self.now.finished }
        ensures next { IsTrue result
            → self.now.arrived < length (arc_value self.now.plan).queries.items }
    {
        self.arrived < self.plan.len() && query_of(&self.plan, self.arrived).after <= self.finished
    }

    // The slot that is chosen, or how the turn ends if none is active.
    pub(crate) fn pick(&mut self) -> Phase
        ensures picked { IsPicked self.old.slots result }
        ensures same { desk_of self.new ≡ desk_of self.old }
        ensures benches { self.new.benches ≡ self.old.benches }
        ensures nearer { (D : Desk Plan) (n : ℕ) → 4 * D.shape.workers + 13 < n
            → IsBelow D n result }
        ensures fits { CoreFits self.new result }
        ensures picks { Picks self.old self.new result }
        ensures replies { self.new.replies ≡ self.old.replies }
        ensures records { self.new.records ≡ self.old.records }
    {
        match self.strides.choose() {
            Some(s) => Phase::Enter(s),
            None => {
                if self.finished < self.plan.sets() {
                    Phase::Ready(Turn::Idle)
                } else {
                    Phase::Ready(Turn::Over)
                }
            }
        }
    }
}
