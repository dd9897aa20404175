//! What the calls of a station answer.
ghost use Rattle.std.specs.Prelude.{◌≡◌};

use crate::token::{Coordinator, Debt, Holder, Spent};
use slot_history::act::Act;
use thiserror::Error;

/// The task set of a slot, as a look shows it.
#[derive(Clone, Copy, Debug, PartialEq, Eq)]
pub enum Look {
    /// The slot is open with the task set of this id; the worker is inside now.
    Open(u32),
    /// The slot's task set is shut or being finalised.
    Invalid,
    /// The slot is empty or reserved.
    Vacant,
}

/// What is left of a task set to be claimed.
#[derive(Debug, PartialEq, Eq, Drop)]
pub enum Claim {
    /// The tuples from the first number up to, and without, the second.
    Range(u32, u32),
    /// Every tuple was claimed before.
    Exhausted(Spent),
}

/// Whether a shut was the first of its task set.
#[derive(Debug, PartialEq, Eq, Drop)]
pub enum Shut {
    /// The worker shut the task set and coordinates its end.
    Won(Coordinator),
    /// The task set was shut before.
    Lost,
}

/// How a worker leaves a slot.
#[derive(Debug, PartialEq, Eq, Drop)]
pub enum Leave {
    /// Nothing is owed.
    Left,
    /// The worker was marked at this slot and has to pay.
    Owe(Debt),
}

/// Whether an asked worker was at the slot.
#[derive(Clone, Copy, Debug, PartialEq, Eq)]
pub enum Mark {
    /// It is at the slot, and is marked now.
    Marked,
    /// It is not at the slot.
    Missed,
}

/// Who finalises after the coordinator's sweep.
#[derive(Debug, PartialEq, Eq, Drop)]
pub enum Sweep {
    /// Every marked worker has paid: the coordinator finalises.
    Last(Holder),
    /// So many marked workers, at least one, still have to pay.
    Others(u32),
}

/// Who finalises after a payment.
#[derive(Debug, PartialEq, Eq, Drop)]
pub enum Pay {
    /// The slot was swept and nobody else has to pay: this worker finalises.
    Last(Holder),
    /// Somebody else finalises.
    Done,
}

/// Whether an empty slot was found.
#[derive(Debug, PartialEq, Eq, Drop)]
pub enum Reserve {
    /// The slot was empty and is this worker's now.
    Got(Holder),
    /// The slot was not empty; the number is its word.
    Taken(u64),
}

/// Whether a query was admitted.
#[derive(Clone, Copy, Debug, PartialEq, Eq)]
pub enum Admit {
    /// The query is admitted, and the holder's.
    Got,
    /// Another number of queries, this one, is admitted.
    Lost(u32),
}

/// Why no table was made. The numbers are looked at in the order of the variants.
#[derive(Clone, Copy, Debug, PartialEq, Eq, Error)]
pub enum MakeRefusal {
    /// There are to be 1 to 128 slots.
    #[error("the number of slots is out of range")]
    BadSlots,
    /// There are to be 1 to 64 workers.
    #[error("the number of workers is out of range")]
    BadWorkers,
    /// There may be at most 4,096 queries.
    #[error("there are too many queries")]
    BadQueries,
    /// There was no memory.
    #[error("out of memory")]
    OutOfMemory,
}

impl Look {
    ghost use Rattle.slot_station.specs.Replies.{look_act};

    /// The entry of the look.
    pub fn act(&self) -> Act
        ensures { result ≡ look_act self.now }
    {
        match self {
            Look::Open(id) => Act::LookOpen(*id),
            Look::Invalid => Act::LookInvalid,
            Look::Vacant => Act::LookVacant,
        }
    }
}

impl Claim {
    ghost use Rattle.slot_station.specs.Replies.{claim_act};

    /// The entry of the claim of n tuples.
    pub fn act(&self, n: u32) -> Act
        ensures { result ≡ claim_act n self.now }
    {
        match self {
            Claim::Range(from, to) => Act::ClaimRange(n, *from, *to),
            Claim::Exhausted(_) => Act::ClaimUsed(n),
        }
    }
}

impl Shut {
    ghost use Rattle.slot_station.specs.Replies.{shut_act};

    /// The entry of the shut.
    pub fn act(&self) -> Act
        ensures { result ≡ shut_act self.now }
    {
        match self {
            Shut::Won(_) => Act::ShutWon,
            Shut::Lost => Act::ShutLost,
        }
    }
}

impl Leave {
    ghost use Rattle.slot_station.specs.Replies.{leave_act};

    /// The entry of the leave.
    pub fn act(&self) -> Act
        ensures { result ≡ leave_act self.now }
    {
        match self {
            Leave::Left => Act::LeaveLeft,
            Leave::Owe(debt) => Act::LeaveOwe(debt.id),
        }
    }
}

impl Mark {
    ghost use Rattle.slot_station.specs.Replies.{mark_act};

    /// The entry of the mark.
    pub fn act(&self) -> Act
        ensures { result ≡ mark_act self.now }
    {
        match self {
            Mark::Marked => Act::MarkMarked,
            Mark::Missed => Act::MarkMissed,
        }
    }
}

impl Sweep {
    ghost use Rattle.slot_station.specs.Replies.{sweep_act};

    /// The entry of the sweep.
    pub fn act(&self) -> Act
        ensures { result ≡ sweep_act self.now }
    {
        match self {
            Sweep::Last(_) => Act::SweepLast,
            Sweep::Others(n) => Act::SweepOthers(*n),
        }
    }
}

impl Pay {
    ghost use Rattle.slot_station.specs.Replies.{pay_act};

    /// The entry of the payment.
    pub fn act(&self) -> Act
        ensures { result ≡ pay_act self.now }
    {
        match self {
            Pay::Last(_) => Act::PayLast,
            Pay::Done => Act::PayDone,
        }
    }
}

impl Reserve {
    ghost use Rattle.slot_station.specs.Replies.{reserve_act};

    /// The entry of the reservation of slot s.
    pub fn act(&self, s: u32) -> Act
        ensures { result ≡ reserve_act s self.now }
    {
        match self {
            Reserve::Got(_) => Act::ReserveGot(s),
            Reserve::Taken(word) => Act::ReserveTaken(s, *word),
        }
    }
}

impl Admit {
    ghost use Rattle.slot_station.specs.Replies.{admit_act};

    /// The entry of the admission of query q.
    pub fn act(&self, q: u32) -> Act
        ensures { result ≡ admit_act q self.now }
    {
        match self {
            Admit::Got => Act::AdmitGot(q),
            Admit::Lost(now) => Act::AdmitLost(q, *now),
        }
    }
}
