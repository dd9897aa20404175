// What a worker has to tell.

use crate::kept::Core;
use crate::state::Worker;
use report_text::{Gap, QueryReply, Record, Share};
use slot_station::Memo;

/// All that a worker has to tell, when it is done.
#[derive(Drop)]
pub struct WorkerParts {
    /// The replies to the queries that it ended.
    pub replies: Vec<QueryReply>,
    /// The records of the task sets that it finalised.
    pub records: Vec<Record>,
    /// Its share of each query on which it worked, ascending by query.
    pub shares: Vec<Share>,
    pub gap: Gap,
    /// The times of its ranges.
    pub times: Memo,
}

impl Worker {
    ghost use Rattle.std.specs.Prelude.{◌≡◌, ◌≤◌, true};
    ghost use Rattle.worker_machine.specs.Left.{is_ready};

    /// The replies to the queries that it ended, in the order of their ends.
    pub fn replies(&self) -> &[QueryReply]
        ensures { result.now ≡ self.now.core.replies.items }
    {
        self.core.replies.as_slice()
    }

    /// The records of the task sets that it finalised, in the order of their ends.
    pub fn records(&self) -> &[Record]
        ensures { result.now ≡ self.now.core.records.items }
    {
        self.core.records.as_slice()
    }

    /// Its share of each query on which it worked, ascending by query.
    pub fn shares(&self) -> &[Share]
        ensures { result.now ≡ self.now.core.shares.items }
    {
        self.core.shares.as_slice()
    }

    /// How far apart its passes were.
    pub fn gap(&self) -> Gap
        ensures worker { result.worker ≡ self.now.core.worker }
        ensures widest { result.widest ≡ self.now.core.strides.widest }
        ensures largest { result.largest ≡ self.now.core.strides.largest }
        ensures bounded { result.widest ≤ result.largest }
    {
        Gap {
            worker: self.core.worker,
            widest: self.core.strides.widest(),
            largest: self.core.strides.largest(),
        }
    }

    /// Hands all of these over. No turn is under way. It takes no memory.
    pub fn into_parts(self) -> WorkerParts
        requires { is_ready self.phase ≡ true }
        ensures replies { result.replies ≡ self.core.replies }
        ensures records { result.records ≡ self.core.records }
        ensures shares { result.shares ≡ self.core.shares }
        ensures times { result.times ≡ self.core.times }
        ensures worker { result.gap.worker ≡ self.core.worker }
        ensures widest { result.gap.widest ≡ self.core.strides.widest }
        ensures largest { result.gap.largest ≡ self.core.strides.largest }
    {
        let gap = self.gap();
        let Worker { core, phase: _ } = self;
        let Core {
            replies,
            records,
            shares,
            times,
            ..
        } = core;
        WorkerParts {
            replies,
            records,
            shares,
            gap,
            times,
        }
    }
}
