//! What a worker did, with the reply that it got.

/// A call of a worker with its reply: one variant for each pair that has an entry in a history.
///
/// Slots, ids, queries and workers are numbers; ids are those of task sets, tuples are counted from
/// 0 within one.
#[derive(Clone, Copy, Debug, PartialEq, Eq)]
pub enum Act {
    /// The worker went to a slot.
    Enter(u32),
    /// It saw a task set that may be worked on, with its id.
    LookOpen(u32),
    /// It saw a task set that is shut or being finalised.
    LookInvalid,
    /// It saw no task set.
    LookVacant,
    /// It asked for so many tuples and got those from one number up to below another.
    ClaimRange(u32, u32, u32),
    /// It asked for so many tuples, and all were claimed already.
    ClaimUsed(u32),
    /// It shut the task set, and so coordinates its end.
    ShutWon,
    /// It came to shut a task set that another had shut.
    ShutLost,
    /// It left its slot and owes nothing.
    LeaveLeft,
    /// It left its slot and learned that it was marked for the task set of this id.
    LeaveOwe(u32),
    /// It paid for its mark, was the last to do so, and finalises.
    PayLast,
    /// It paid for its mark.
    PayDone,
    /// The next worker that the coordinator asked was at the slot, and is marked.
    MarkMarked,
    /// The next worker that the coordinator asked was not at the slot.
    MarkMissed,
    /// No marked worker has to pay any more: the coordinator finalises.
    SweepLast,
    /// So many marked workers still have to pay.
    SweepOthers(u32),
    /// The slot was empty and is reserved by the worker.
    ReserveGot(u32),
    /// The slot was not empty, and this was its word.
    ReserveTaken(u32, u64),
    /// The query was the next one, and is admitted.
    AdmitGot(u32),
    /// The query was not the next one: so many were admitted.
    AdmitLost(u32, u32),
    /// So many queries were admitted.
    Arrivals(u32),
    /// So many task sets were noted as done.
    Finished(u32),
    /// So many task sets were noted as done, by the holder of a slot.
    NoteDone(u32),
    /// The holder of a slot set the total of the next task set.
    SetTotal(u32),
    /// The holder of a slot opened it with the task set of this id.
    Install(u32),
    /// The holder of a slot left it empty.
    Release,
    /// The next worker was told of the task set that was installed.
    Announce,
    /// The pending return notices of 64 slots were taken, as bits.
    TakeReturn(u32, u64),
    /// The pending change notices of 64 slots were taken, as bits.
    TakeChange(u32, u64),
}

/// An entry of a history: a worker and its call with the reply.
#[derive(Clone, Copy, Debug, PartialEq, Eq)]
pub struct Entry {
    pub worker: u32,
    pub act: Act,
}
