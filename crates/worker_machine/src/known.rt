// What a look and a range change of what a worker knows of a slot.
ghost use Rattle.std.specs.Prelude.{◌/◌, ◌≡◌, ◌≢◌, ◌<◌, ◌≤◌, ◌^◌, [], Some};
ghost use Rattle.prio_decay.specs.Priority.{after_spending, unspent};
ghost use Rattle.morsel_size.specs.Sizing.{pace_after, pace_of};
ghost use Rattle.turn_model.specs.Learned.{params_of};
ghost use Rattle.worker_machine.specs.Plans.{IsTask};
ghost use Rattle.worker_machine.specs.Loads.{load_of};
ghost use Rattle.worker_machine.specs.Sized.{IsSized};

use crate::kept::Known;
use crate::plans::query_of;
use bench_cell::Plan;
use morsel_size::Sizer;
use prio_decay::{Decay, Params};
use slot_station::shape::STAGES;

// The slot's record allows the query. The decay and the sizer are made anew if they are of another
// query, or of another task set.
pub(crate) fn settle(known: &mut Known, plan: &Plan, workers: u32, id: u32)
    requires task { IsTask plan.now id }
    requires workers { 0 < workers }
    ensures group { known.new.group ≡ Some (id / STAGES) }
    ensures query { known.new.query ≡ Some (id / STAGES) }
    ensures id { known.new.id ≡ Some id }
    ensures kept_decay { known.old.query ≡ Some (id / STAGES)
        → known.new.decay ≡ known.old.decay }
    ensures fresh_decay { known.old.query ≢ Some (id / STAGES)
        → known.new.decay ≡ unspent (params_of ((load_of plan.now).weight (id / STAGES))) }
    ensures kept_sizer { known.old.id ≡ Some id
        → (known.new.sizer ≡ known.old.sizer) × (known.new.last_end ≡ known.old.last_end) }
    ensures fresh_sizer { known.old.id ≢ Some id
        → (known.new.sizer ≡ record { workers = workers; pace = pace_of [] })
        × (known.new.last_end ≡ 0) }
    ensures sized { IsSized plan.now known.old → IsSized plan.now known.new }
{
    let q = id / STAGES;
    known.group = Some(q);
    if known.query != Some(q) {
        known.query = Some(q);
        known.decay = Decay::new(Params::of_weight(query_of(plan, q).weight));
    }
    if known.id != Some(id) {
        known.id = Some(id);
        known.sizer = Sizer::new(workers);
        known.last_end = 0;
    }
}

// A range up to `to` was worked on, of so many tuples in so many nanoseconds.
pub(crate) fn spend(known: &mut Known, tuples: u32, ns: u64, to: u32)
    requires tuples { 0 < tuples }
    requires ns { (0 < ns) × (ns ≤ 2 ^ 36) }
    ensures decay { known.new.decay ≡ after_spending known.old.decay ns }
    ensures sizer { known.new.sizer
        ≡ record known.old.sizer { pace = pace_after known.old.sizer.pace tuples ns } }
    ensures last_end { known.new.last_end ≡ to }
    ensures group { known.new.group ≡ known.old.group }
    ensures query { known.new.query ≡ known.old.query }
    ensures id { known.new.id ≡ known.old.id }
{
    known.decay.spend(ns);
    known.sizer.took(tuples, ns);
    known.last_end = to;
}
