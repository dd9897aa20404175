// A visit of a slot: a look, at most one claim, and the way out.
ghost use Rattle.std.specs.Prelude.{◌≡◌, ◌+◌, ◌*◌, ◌-◌, ◌^◌, ◌<◌, ℕ, max, min};
ghost use Rattle.slot_station.specs.Desks.{Desk};
ghost use Rattle.bench_cell.specs.declared.plan.Plan.{Plan};
ghost use Rattle.worker_machine.specs.Desks.{CoreFits};
ghost use Rattle.worker_machine.specs.Left.{IsBelow};
ghost use Rattle.worker_machine.specs.Outcomes.{IsAsked};
ghost use Rattle.worker_machine.specs.declared.kept.Core.{Core};

use crate::kept::Core;
use crate::known::{settle, spend};
use crate::phase::Phase;
use crate::plans::{query_of, task_total};
use crate::shares::{Worked, count_range};
use bench_cell::Bench;
use outside_io::{Gate, Meter};
use slot_station::shape::STAGES;
use slot_station::{
    Claim, Coordinator, Debt, Leave, Look, Pay, Shut, Spent, Station, Steps, Sweep,
};
use std::sync::ledger::Ledger;
use turn_model::Turn;

impl Core {
    ghost use Rattle.std.specs.Prelude.{◌≡◌, ◌+◌, ◌-◌, ◌/◌, ◌<◌, ◌≤◌, ◌^◌, ℕ};
    ghost use Rattle.slot_history.specs.declared.shape.TheConstants.{STAGES};
    ghost use Rattle.bench_cell.specs.declared.bench.Bench.{Bench};
    ghost use Rattle.std.specs.Prelude.{Some, slice_get};
    ghost use Rattle.std.specs.Arc.{arc_value};
    ghost use Rattle.stride_set.specs.Strides.{MayAdvance, strides_of};
    ghost use Rattle.bench_cell.specs.Plans.{total_of};
    ghost use Rattle.turn_model.specs.Learned.{allows};
    ghost use Rattle.worker_machine.specs.declared.kept.Known.{Known};
    ghost use Rattle.worker_machine.specs.Knowing.{IsPriorityOf, SharesCount, WorkedOn};
    ghost use Rattle.worker_machine.specs.Desks.{CoreFits, IsSizerOf, desk_of, Stays};
    ghost use Rattle.worker_machine.specs.Following.{FollowsAt};
    ghost use Rattle.worker_machine.specs.Hands.{InHand};
    ghost use Rattle.worker_machine.specs.Keeps.{Moves, standing, takes_none};
    ghost use Rattle.worker_machine.specs.Left.{IsNearer};
    ghost use Rattle.worker_machine.specs.declared.phase.Phase.{Phase};

    pub(crate) fn enter<S: Station<Bench>, L: Ledger>(
        &mut self,
        station: &mut S,
        steps: &mut Steps<L>,
        s: u32,
    ) -> Phase
        requires follows { FollowsAt self.old (S.seen station.old) (Phase.Enter s) }
        ensures hand { InHand (S.seen station.new) self.new.benches.items result }
        ensures fits { CoreFits self.new result }
        ensures nearer { IsNearer (S.seen station.old).desk (Phase.Enter s) result }
        ensures same { desk_of self.new ≡ desk_of self.old }
        ensures stays { Stays (S.seen station.old) (S.seen station.new) }
        ensures moves { Moves takes_none
            (standing self.old (Phase.Enter s) (S.seen station.old))
            (standing self.new result (S.seen station.new)) }
        ensures ticks { steps.new ≡ steps.old + 1 }
    {
        station.enter(s, steps);
        Phase::Look(s)
    }

    pub(crate) fn look<S: Station<Bench>, L: Ledger>(
        &mut self,
        station: &mut S,
        steps: &mut Steps<L>,
        s: u32,
    ) -> Phase
        requires follows { FollowsAt self.old (S.seen station.old) (Phase.Look s) }
        ensures hand { InHand (S.seen station.new) self.new.benches.items result }
        ensures fits { CoreFits self.new result }
        ensures nearer { IsNearer (S.seen station.old).desk (Phase.Look s) result }
        ensures same { desk_of self.new ≡ desk_of self.old }
        ensures stays { Stays (S.seen station.old) (S.seen station.new) }
        ensures moves { Moves takes_none
            (standing self.old (Phase.Look s) (S.seen station.old))
            (standing self.new result (S.seen station.new)) }
        ensures ticks { steps.new ≡ steps.old + 1 }
    {
        match station.look(steps) {
            Look::Open(id) => {
                if self.allows(s, id / STAGES) {
                    settle(&mut self.known[s as usize], &self.plan, self.workers, id);
                    Phase::Take(s, id)
                } else {
                    self.strides.drop_slot(s);
                    Phase::Early
                }
            }
            Look::Invalid => {
                self.strides.drop_slot(s);
                Phase::Early
            }
            Look::Vacant => {
                self.strides.drop_slot(s);
                Phase::Early
            }
        }
    }

    // Whether the slot's record allows the query.
    fn allows(&self, s: u32, q: u32) -> bool
        requires { s < self.now.slots }
        ensures { (known : Known) → slice_get self.now.known.items s ≡ Some known
            → result ≡ allows known.group q }
    {
        match self.known[s as usize].group {
            None => true,
            Some(group) => group == q,
        }
    }

    pub(crate) fn early<S: Station<Bench>, L: Ledger>(
        &mut self,
        station: &mut S,
        steps: &mut Steps<L>,
    ) -> Phase
        requires follows { FollowsAt self.old (S.seen station.old) Phase.Early }
        ensures hand { InHand (S.seen station.new) self.new.benches.items result }
        ensures fits { CoreFits self.new result }
        ensures nearer { IsNearer (S.seen station.old).desk Phase.Early result }
        ensures same { desk_of self.new ≡ desk_of self.old }
        ensures stays { Stays (S.seen station.old) (S.seen station.new) }
        ensures moves { Moves takes_none
            (standing self.old Phase.Early (S.seen station.old))
            (standing self.new result (S.seen station.new)) }
        ensures ticks { steps.new ≡ steps.old + 1 }
    {
        match station.leave(steps) {
            Leave::Left => Phase::Ready(Turn::Acted),
            Leave::Owe(debt) => Phase::Pay(debt),
        }
    }

    pub(crate) fn take<S: Station<Bench>, L: Ledger>(
        &mut self,
        station: &mut S,
        steps: &mut Steps<L>,
        s: u32,
        id: u32,
    ) -> Phase
        requires follows { FollowsAt self.old (S.seen station.old) (Phase.Take s id) }
        ensures hand { InHand (S.seen station.new) self.new.benches.items result }
        ensures fits { CoreFits self.new result }
        ensures nearer { IsNearer (S.seen station.old).desk (Phase.Take s id) result }
        ensures same { desk_of self.new ≡ desk_of self.old }
        ensures stays { Stays (S.seen station.old) (S.seen station.new) }
        ensures moves { Moves takes_none
            (standing self.old (Phase.Take s id) (S.seen station.old))
            (standing self.new result (S.seen station.new)) }
        ensures ticks { steps.new ≡ steps.old + 1 }
    {
        match station.own_cell(None, steps) {
            Some(bench) => Phase::Claim(s, id, bench),
            None => unreachable!(),
        }
    }

    pub(crate) fn claim<S: Station<Bench>, L: Ledger, M: Meter, G: Gate>(
        &mut self,
        station: &mut S,
        steps: &mut Steps<L>,
        meter: &mut M,
        gate: &G,
        s: u32,
        id: u32,
        mut bench: Bench,
    ) -> Phase
        requires follows { FollowsAt self.old (S.seen station.old) (Phase.Claim s id bench) }
        ensures hand { InHand (S.seen station.new) self.new.benches.items result }
        ensures fits { CoreFits self.new result }
        ensures nearer { IsNearer (S.seen station.old).desk (Phase.Claim s id bench) result }
        ensures same { desk_of self.new ≡ desk_of self.old }
        ensures stays { Stays (S.seen station.old) (S.seen station.new) }
        ensures moves { Moves M.may_take
            (standing self.old (Phase.Claim s id bench) (S.seen station.old))
            (standing self.new result (S.seen station.new)) }
        ensures ticks { steps.new ≡ steps.old + 1 }
    {
        let total = task_total(&self.plan, id);
        let known = &self.known[s as usize];
        let n = known.sizer.next(total, known.last_end);
        match station.claim(n, steps) {
            Claim::Range(from, to) => {
                gate.pass(self.worker, self.begun);
                self.begun = self.begun.saturating_add(1);
                meter.start();
                bench.work(from, to);
                let cost = query_of(&self.plan, id / STAGES).cost;
                let ns = within_bounds(meter.stop(to - from, cost));
                self.worked(s, id, from, to, ns);
                Phase::Back(None, bench)
            }
            Claim::Exhausted(spent) => Phase::Shut(spent, bench),
        }
    }

    // A range of the slot's task set was worked on, in so many nanoseconds.
    fn worked(&mut self, s: u32, id: u32, from: u32, to: u32, ns: u64)
        requires some { from < to }
        requires time { (0 < ns) × (ns ≤ 2 ^ 36) }
        requires chosen { MayAdvance (strides_of self.old.strides) s }
        requires sizer { IsSizerOf self.old s id }
        requires within { (total : ℕ) → total_of (arc_value self.old.plan) id ≡ Some total
            → to ≤ total }
        ensures same { desk_of self.new ≡ desk_of self.old }
        ensures benches { self.new.benches ≡ self.old.benches }
        ensures replies { self.new.replies ≡ self.old.replies }
        ensures records { self.new.records ≡ self.old.records }
        ensures worked { (priority : ℕ) × WorkedOn
            (record { slot = s; from = from; to = to; time = ns; priority = priority })
            self.old self.new }
        ensures counted { (priority : ℕ) × ((known : Known)
            → slice_get self.new.known.items s ≡ Some known → IsPriorityOf known priority)
            × SharesCount (record {
              worker = self.old.worker;
              query = id / STAGES;
              tuples = to - from;
              ns = ns;
              priority = priority;
            }) self.old self.new }
    {
        let known = &mut self.known[s as usize];
        let priority = known.decay.priority();
        spend(known, to - from, ns, to);
        let range = Worked {
            worker: self.worker,
            query: id / STAGES,
            tuples: to - from,
            ns,
            priority: known.decay.priority(),
        };
        self.times.note(ns);
        self.strides.advance(s, ns, priority);
        count_range(&mut self.shares, range);
    }

    pub(crate) fn shut<S: Station<Bench>, L: Ledger>(
        &mut self,
        station: &mut S,
        steps: &mut Steps<L>,
        spent: Spent,
        bench: Bench,
    ) -> Phase
        requires follows { FollowsAt self.old (S.seen station.old) (Phase.Shut spent bench) }
        ensures hand { InHand (S.seen station.new) self.new.benches.items result }
        ensures fits { CoreFits self.new result }
        ensures nearer { IsNearer (S.seen station.old).desk (Phase.Shut spent bench) result }
        ensures same { desk_of self.new ≡ desk_of self.old }
        ensures stays { Stays (S.seen station.old) (S.seen station.new) }
        ensures moves { Moves takes_none
            (standing self.old (Phase.Shut spent bench) (S.seen station.old))
            (standing self.new result (S.seen station.new)) }
        ensures ticks { steps.new ≡ steps.old + 1 }
    {
        let s = spent.slot;
        let shut = station.shut(spent, steps);
        self.strides.drop_slot(s);
        match shut {
            Shut::Won(coordinator) => Phase::Back(Some(coordinator), bench),
            Shut::Lost => Phase::Back(None, bench),
        }
    }

    pub(crate) fn back<S: Station<Bench>, L: Ledger>(
        &mut self,
        station: &mut S,
        steps: &mut Steps<L>,
        coordinator: Option<Coordinator>,
        bench: Bench,
    ) -> Phase
        requires follows { FollowsAt self.old (S.seen station.old) (Phase.Back coordinator bench) }
        ensures hand { InHand (S.seen station.new) self.new.benches.items result }
        ensures fits { CoreFits self.new result }
        ensures nearer { IsNearer (S.seen station.old).desk (Phase.Back coordinator bench) result }
        ensures same { desk_of self.new ≡ desk_of self.old }
        ensures stays { Stays (S.seen station.old) (S.seen station.new) }
        ensures moves { Moves takes_none
            (standing self.old (Phase.Back coordinator bench) (S.seen station.old))
            (standing self.new result (S.seen station.new)) }
        ensures ticks { steps.new ≡ steps.old + 1 }
    {
        drop(station.own_cell(Some(bench), steps));
        Phase::Leave(coordinator)
    }

    pub(crate) fn leave<S: Station<Bench>, L: Ledger>(
        &mut self,
        station: &mut S,
        steps: &mut Steps<L>,
        coordinator: Option<Coordinator>,
    ) -> Phase
        requires follows { FollowsAt self.old (S.seen station.old) (Phase.Leave coordinator) }
        ensures hand { InHand (S.seen station.new) self.new.benches.items result }
        ensures fits { CoreFits self.new result }
        ensures nearer { IsNearer (S.seen station.old).desk (Phase.Leave coordinator) result }
        ensures same { desk_of self.new ≡ desk_of self.old }
        ensures stays { Stays (S.seen station.old) (S.seen station.new) }
        ensures moves { Moves takes_none
            (standing self.old (Phase.Leave coordinator) (S.seen station.old))
            (standing self.new result (S.seen station.new)) }
        ensures ticks { steps.new ≡ steps.old + 1 }
    {
        match station.leave(steps) {
            Leave::Left => match coordinator {
                Some(coordinator) => asked(coordinator),
                None => Phase::Ready(Turn::Acted),
            },
            Leave::Owe(debt) => Phase::Pay(debt),
        }
    }

    pub(crate) fn ask<S: Station<Bench>, L: Ledger>(
        &mut self,
        station: &mut S,
        steps: &mut Steps<L>,
        mut coordinator: Coordinator,
    ) -> Phase
        requires follows { FollowsAt self.old (S.seen station.old) (Phase.Ask coordinator) }
        ensures hand { InHand (S.seen station.new) self.new.benches.items result }
        ensures fits { CoreFits self.new result }
        ensures nearer { IsNearer (S.seen station.old).desk (Phase.Ask coordinator) result }
        ensures same { desk_of self.new ≡ desk_of self.old }
        ensures stays { Stays (S.seen station.old) (S.seen station.new) }
        ensures moves { Moves takes_none
            (standing self.old (Phase.Ask coordinator) (S.seen station.old))
            (standing self.new result (S.seen station.new)) }
        ensures ticks { steps.new ≡ steps.old + 1 }
    {
        station.mark_next(&mut coordinator, steps);
        asked(coordinator)
    }

    pub(crate) fn sweep<S: Station<Bench>, L: Ledger>(
        &mut self,
        station: &mut S,
        steps: &mut Steps<L>,
        coordinator: Coordinator,
    ) -> Phase
        requires follows { FollowsAt self.old (S.seen station.old) (Phase.Sweep coordinator) }
        ensures hand { InHand (S.seen station.new) self.new.benches.items result }
        ensures fits { CoreFits self.new result }
        ensures nearer { IsNearer (S.seen station.old).desk (Phase.Sweep coordinator) result }
        ensures same { desk_of self.new ≡ desk_of self.old }
        ensures stays { Stays (S.seen station.old) (S.seen station.new) }
        ensures moves { Moves takes_none
            (standing self.old (Phase.Sweep coordinator) (S.seen station.old))
            (standing self.new result (S.seen station.new)) }
        ensures ticks { steps.new ≡ steps.old + 1 }
    {
        match station.sweep(coordinator, steps) {
            Sweep::Last(holder) => {
                self.benches.clear();
                Phase::Fetch(holder, 0)
            }
            Sweep::Others(_) => Phase::Ready(Turn::Acted),
        }
    }

    pub(crate) fn pay<S: Station<Bench>, L: Ledger>(
        &mut self,
        station: &mut S,
        steps: &mut Steps<L>,
        debt: Debt,
    ) -> Phase
        requires follows { FollowsAt self.old (S.seen station.old) (Phase.Pay debt) }
        ensures hand { InHand (S.seen station.new) self.new.benches.items result }
        ensures fits { CoreFits self.new result }
        ensures nearer { IsNearer (S.seen station.old).desk (Phase.Pay debt) result }
        ensures same { desk_of self.new ≡ desk_of self.old }
        ensures stays { Stays (S.seen station.old) (S.seen station.new) }
        ensures moves { Moves takes_none
            (standing self.old (Phase.Pay debt) (S.seen station.old))
            (standing self.new result (S.seen station.new)) }
        ensures ticks { steps.new ≡ steps.old + 1 }
    {
        match station.pay(debt, steps) {
            Pay::Last(holder) => {
                self.benches.clear();
                Phase::Fetch(holder, 0)
            }
            Pay::Done => Phase::Ready(Turn::Acted),
        }
    }
}

// The time of a range is at least a nanosecond, and at most some 69 seconds.
fn within_bounds(ns: u64) -> u64
    ensures { result ≡ max 1 (min ns (2 ^ 36)) }
{
    ns.clamp(1, 1 << 36)
}

// The next worker is asked, or the sweep is due if all were.
fn asked(coordinator: Coordinator) -> Phase
    ensures nearer { (D : Desk Plan) (n : ℕ)
        → (D.shape.workers - coordinator.asked) + 3 * D.shape.workers + 6 < n → IsBelow D n result }
    ensures fits { (core : Core) → CoreFits core result }
    ensures asked { IsAsked coordinator result }
{
    if coordinator.all_asked() {
        Phase::Sweep(coordinator)
    } else {
        Phase::Ask(coordinator)
    }
}
