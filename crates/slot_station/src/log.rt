//! What a one-thread form notes, step by step.
use crate::note::Note;
use slot_history::act::Entry;

/// One step of a one-thread form.
#[derive(Clone, Copy, Debug, PartialEq, Eq)]
pub enum Logged {
    /// A call with its reply.
    Call(Entry),
    /// An exchange of a cell.
    Exchanged(Exchange),
}

/// A worker exchanged the cell of a worker, itself or another, of the slot at which it is, and has
/// this note of it now.
#[derive(Clone, Copy, Debug, PartialEq, Eq)]
pub struct Exchange {
    pub worker: u32,
    pub cell: u32,
    pub note: Note,
}
