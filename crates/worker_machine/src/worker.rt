// A worker's steps and turns.
ghost use Rattle.std.specs.Prelude.{◌≡◌, ◌<◌, ℕ, length, slice_get, Some, IfOk};
ghost use Rattle.worker_machine.specs.Keeps.{IsUnknown};
ghost use Rattle.worker_machine.specs.declared.kept.Known.{Known};

use crate::kept::{Core, Known};
use crate::phase::{Phase, Stepped};
use crate::state::Worker;
use bench_cell::{Bench, Plan};
use morsel_size::Sizer;
use outside_io::{Gate, Meter};
use prio_decay::{Decay, Params};
use slot_station::{Memo, Station, Steps};
use std::alloc::{AllocError, Global};
use std::mem;
use std::sync::Arc;
use std::sync::ledger::Ledger;
use stride_set::StrideSet;
use turn_model::Turn;

impl Core {
    ghost use Rattle.std.specs.Prelude.{◌≡◌, ◌<◌, ◌≤◌, length, IfOk};
    ghost use Rattle.std.specs.Arc.{arc_value};
    ghost use Rattle.slot_history.specs.declared.shape.TheConstants.{MOST_SLOTS, MOST_WORKERS};
    ghost use Rattle.worker_machine.specs.Desks.{desk_of};
    ghost use Rattle.worker_machine.specs.Keeps.{IsUntold};

    pub(crate) fn new(
        alloc: Global,
        worker: u32,
        workers: u32,
        slots: u32,
        plan: Arc<Plan>,
    ) -> Result<Core, AllocError>
        requires worker { worker < workers }
        requires workers { workers ≤ MOST_WORKERS }
        requires slots { (0 < slots) × (slots ≤ MOST_SLOTS) }
        ensures desk { IfOk result (λ core. desk_of core ≡ record {
          worker = worker;
          shape = record {
            workers = workers;
            slots = slots;
            queries = length (arc_value plan).queries.items;
          };
          subject = arc_value plan;
        }) }
        ensures untold { IfOk result (IsUntold (record {
          workers = workers;
          slots = slots;
          queries = length (arc_value plan).queries.items;
        })) }
    {
        let strides = StrideSet::new(alloc, slots)?;
        let known = unknown(alloc, workers, slots)?;
        let benches = Vec::with_capacity(alloc, workers as usize)?;
        let queries = plan.len() as usize;
        let replies = Vec::with_capacity(alloc, queries)?;
        let records = Vec::with_capacity(alloc, plan.sets() as usize)?;
        let shares = Vec::with_capacity(alloc, queries)?;
        Ok(Core {
            worker,
            workers,
            slots,
            plan,
            strides,
            known,
            finished: 0,
            arrived: 0,
            begun: 0,
            times: Memo::new(alloc)?,
            benches,
            replies,
            records,
            shares,
        })
    }
}

// Nothing is known of any slot.
fn unknown(alloc: Global, workers: u32, slots: u32) -> Result<Vec<Known>, AllocError>
    requires { 0 < workers }
    ensures length { IfOk result (λ known. length known.items ≡ slots) }
    ensures none { IfOk result (λ known. (s : ℕ) (k : Known) → slice_get known.items s ≡ Some k
        → IsUnknown k) }
{
    let mut known = Vec::with_capacity(alloc, slots as usize)?;
    for _ in 0..slots {
        known.push(Known {
            group: None,
            query: None,
            decay: Decay::new(Params::of_weight(1)),
            id: None,
            sizer: Sizer::new(workers),
            last_end: 0,
        })?;
    }
    Ok(known)
}

impl Phase {
    ghost use Rattle.std.specs.Prelude.{◌≡◌};
    ghost use Rattle.worker_machine.specs.Following.{stepped};

    fn ended(&self) -> Stepped
        ensures { result ≡ stepped self.now }
    {
        match self {
            Phase::Ready(turn) => Stepped::End(*turn),
            _ => Stepped::More,
        }
    }
}

impl Worker {
    ghost use Rattle.std.specs.Prelude.{◌≡◌, ◌↔◌, ◌+◌, ◌<◌, ◌≤◌, true, length, IfOk, IsTrue};
    ghost use Rattle.std.specs.Arc.{arc_value};
    ghost use Rattle.slot_history.specs.declared.shape.TheConstants.{MOST_SLOTS, MOST_WORKERS};
    ghost use Rattle.worker_machine.specs.declared.phase.Phase.{Phase};
    ghost use Rattle.turn_model.specs.declared.turn.Turn.{Turn};
    ghost use Rattle.worker_machine.specs.Desks.{Stays};
    ghost use Rattle.worker_machine.specs.Following.{Follows, IsNewFor, stepped};
    ghost use Rattle.worker_machine.specs.Keeps.{Moves};
    ghost use Rattle.worker_machine.specs.Left.{IsNearer, is_ready, turn_bound};
    ghost use Rattle.worker_machine.specs.Turning.{Turns, standing_of};

    /// A worker that has made no call: one of so many workers, over an object of so many slots,
    /// for this plan. It takes all the memory that its replies, records and shares will need, and
    /// that the list of the benches of one task set needs.
    pub fn new(
        alloc: Global,
        worker: u32,
        workers: u32,
        slots: u32,
        plan: Arc<Plan>,
    ) -> Result<Worker, AllocError>
        requires worker { worker < workers }
        requires workers { workers ≤ MOST_WORKERS }
        requires slots { (0 < slots) × (slots ≤ MOST_SLOTS) }
        ensures { IfOk result (IsNewFor (record {
          worker = worker;
          shape = record {
            workers = workers;
            slots = slots;
            queries = length (arc_value plan).queries.items;
          };
          subject = arc_value plan;
        })) }
    {
        Ok(Worker {
            core: Core::new(alloc, worker, workers, slots, plan)?,
            phase: Phase::Ready(Turn::Acted),
        })
    }

    /// Makes exactly one station call that ticks, and the work that follows it. If the worker has
    /// made some moves (`HasMade`), as a new one has made none, this is one move more.
    pub fn step<S: Station<Bench>, L: Ledger, M: Meter, G: Gate>(
        &mut self,
        alloc: Global,
        station: &mut S,
        steps: &mut Steps<L>,
        meter: &mut M,
        gate: &G,
    ) -> Stepped
        requires follows { Follows self.old (S.seen station.old) }
        ensures follows { Follows self.new (S.seen station.new) }
        ensures nearer { IsNearer (S.seen station.old).desk self.old.phase self.new.phase }
        ensures ends { result ≡ stepped self.new.phase }
        ensures stays { Stays (S.seen station.old) (S.seen station.new) }
        ensures moves { Moves M.may_take (standing_of self.old (S.seen station.old))
            (standing_of self.new (S.seen station.new)) }
        ensures ticks { steps.new ≡ steps.old + 1 }
    {
        let phase = mem::replace(&mut self.phase, Phase::Count);
        let next = self.core.go(alloc, phase, station, steps, meter, gate);
        let ended = next.ended();
        self.phase = next;
        ended
    }

    /// Makes steps up to the end of a turn. None is under way before. If the worker has made some
    /// moves (`HasMade`), as a new one has made none, these are a turn more.
    pub fn turn<S: Station<Bench>, L: Ledger, M: Meter, G: Gate>(
        &mut self,
        alloc: Global,
        station: &mut S,
        steps: &mut Steps<L>,
        meter: &mut M,
        gate: &G,
    ) -> Turn
        requires follows { Follows self.old (S.seen station.old) }
        requires ready { is_ready self.old.phase ≡ true }
        ensures follows { Follows self.new (S.seen station.new) }
        ensures ends { self.new.phase ≡ Phase.Ready result }
        ensures stays { Stays (S.seen station.old) (S.seen station.new) }
        ensures turns { Turns M.may_take (standing_of self.old (S.seen station.old)) result
            (standing_of self.new (S.seen station.new)) }
        ensures ticks { steps.new ≤ steps.old + turn_bound (S.seen station.old).desk.shape }
    {
        let mut phase = mem::replace(&mut self.phase, Phase::Count);
        loop {
            phase = self.core.go(alloc, phase, station, steps, meter, gate);
            match phase.ended() {
                Stepped::More => {}
                Stepped::End(turn) => {
                    self.phase = phase;
                    return turn;
                }
            }
        }
    }

    /// Whether its last turn ended with Over.
    pub fn is_over(&self) -> bool
        ensures { IsTrue result ↔ (self.now.phase ≡ Phase.Ready Turn.Over) }
    {
        matches!(&self.phase, Phase::Ready(Turn::Over))
    }
}
