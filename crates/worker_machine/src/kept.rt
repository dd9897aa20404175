// What a worker keeps from call to call.
ghost use Rattle.std.specs.Prelude.{◌≡◌, ◌<◌, ◌≤◌, length};
ghost use Rattle.std.specs.Arc.{arc_value};
ghost use Rattle.std.specs.Vec.{vec_capacity};
ghost use Rattle.slot_history.specs.declared.shape.TheConstants.{MOST_SLOTS, MOST_WORKERS};
ghost use Rattle.stride_set.specs.Strides.{strides_of};
ghost use Rattle.worker_machine.specs.Sized.{AreSized};

use bench_cell::{Bench, Plan};
use morsel_size::Sizer;
use prio_decay::Decay;
use report_text::{QueryReply, Record, Share};
use slot_station::Memo;
use std::sync::Arc;
use stride_set::StrideSet;

/// What a worker knows of a slot beside its pass.
#[derive(Drop)]
pub struct Known {
    /// The query that its notice record is of, if that is known.
    pub(crate) group: Option<u32>,
    /// The query that the decay is of.
    pub(crate) query: Option<u32>,
    pub(crate) decay: Decay,
    /// The task set that the sizer is of.
    pub(crate) id: Option<u32>,
    pub(crate) sizer: Sizer,
    /// The end of its last range of that task set, 0 before one.
    pub(crate) last_end: u32,
}

/// All that a worker keeps but for its phase.
#[derive(Drop)]
pub struct Core {
    pub(crate) worker: u32,
    pub(crate) workers: u32,
    pub(crate) slots: u32,
    pub(crate) plan: Arc<Plan>,
    /// The passes of the slots, and which of them are active.
    pub(crate) strides: StrideSet,
    /// What is known of each slot.
    pub(crate) known: Vec<Known>,
    /// How many task sets were done when this turn asked.
    pub(crate) finished: u32,
    /// How many queries were admitted when this turn asked.
    pub(crate) arrived: u32,
    /// How many ranges it began.
    pub(crate) begun: u64,
    /// The times of its ranges.
    pub(crate) times: Memo,
    /// The benches in hand.
    pub(crate) benches: Vec<Bench>,
    pub(crate) replies: Vec<QueryReply>,
    pub(crate) records: Vec<Record>,
    pub(crate) shares: Vec<Share>,
    ghost is_one: { worker < workers },
    ghost few_workers: { workers ≤ MOST_WORKERS },
    ghost few_slots: { (0 < slots) × (slots ≤ MOST_SLOTS) },
    ghost passes: { (strides_of strides).slots ≡ slots },
    ghost each_known: { length known.items ≡ slots },
    ghost room: { workers ≤ vec_capacity benches },
    ghost sized: { AreSized (arc_value plan) known.items },
}
