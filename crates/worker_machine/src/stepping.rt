// One step: the call of the phase.
use crate::kept::Core;
use crate::phase::Phase;
use bench_cell::Bench;
use outside_io::{Gate, Meter};
use slot_station::{Station, Steps};
use std::alloc::Global;
use std::sync::ledger::Ledger;

impl Core {
    ghost use Rattle.std.specs.Prelude.{◌≡◌, ◌+◌};
    ghost use Rattle.worker_machine.specs.Desks.{CoreFits, desk_of, Stays};
    ghost use Rattle.worker_machine.specs.Following.{FollowsAt};
    ghost use Rattle.worker_machine.specs.Hands.{InHand};
    ghost use Rattle.worker_machine.specs.Keeps.{Moves, standing};
    ghost use Rattle.worker_machine.specs.Left.{IsNearer};

    // Makes the one call of the phase, and does the work that follows it.
    pub(crate) fn go<S: Station<Bench>, L: Ledger, M: Meter, G: Gate>(
        &mut self,
        alloc: Global,
        phase: Phase,
        station: &mut S,
        steps: &mut Steps<L>,
        meter: &mut M,
        gate: &G,
    ) -> Phase
        requires follows { FollowsAt self.old (S.seen station.old) (phase) }
        ensures hand { InHand (S.seen station.new) self.new.benches.items result }
        ensures fits { CoreFits self.new result }
        ensures nearer { IsNearer (S.seen station.old).desk (phase) result }
        ensures same { desk_of self.new ≡ desk_of self.old }
        ensures stays { Stays (S.seen station.old) (S.seen station.new) }
        ensures moves { Moves M.may_take (standing self.old (phase) (S.seen station.old))
            (standing self.new result (S.seen station.new)) }
        ensures ticks { steps.new ≡ steps.old + 1 }
    {
        match phase {
            Phase::Ready(_) => self.take_return(station, steps, 0),
            Phase::Return(part) => self.take_return(station, steps, part),
            Phase::Change(part) => self.take_change(station, steps, part),
            Phase::Count => self.count(station, steps),
            Phase::Arrive => self.arrive(station, steps),
            Phase::Scan(s) => self.scan(station, steps, s),
            Phase::Admit(holder) => self.admit(alloc, station, steps, holder),
            Phase::Put(holder, v) => self.put(station, steps, holder, v),
            Phase::Size(holder) => self.size(station, steps, holder),
            Phase::Install(holder) => self.install(station, steps, holder),
            Phase::Tell(announcer) => self.tell(station, steps, announcer),
            Phase::Give(holder) => self.give(station, steps, holder),
            Phase::FreeIt(holder) => self.free_it(station, steps, holder),
            Phase::Enter(s) => self.enter(station, steps, s),
            Phase::Look(s) => self.look(station, steps, s),
            Phase::Early => self.early(station, steps),
            Phase::Take(s, id) => self.take(station, steps, s, id),
            Phase::Claim(s, id, bench) => self.claim(station, steps, meter, gate, s, id, bench),
            Phase::Shut(spent, bench) => self.shut(station, steps, spent, bench),
            Phase::Back(coordinator, bench) => self.back(station, steps, coordinator, bench),
            Phase::Leave(coordinator) => self.leave(station, steps, coordinator),
            Phase::Ask(coordinator) => self.ask(station, steps, coordinator),
            Phase::Sweep(coordinator) => self.sweep(station, steps, coordinator),
            Phase::Pay(debt) => self.pay(station, steps, debt),
            Phase::Fetch(holder, v) => self.fetch(alloc, station, steps, holder, v),
            Phase::Note(holder, answer) => self.note(station, steps, holder, answer),
        }
    }
}
