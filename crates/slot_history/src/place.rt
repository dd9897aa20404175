//! Where a worker is in the protocol, and what it has in hand there.

/// What the holder of a slot knows of its holding.
#[derive(Clone, Copy, Debug, PartialEq, Eq)]
pub struct Held {
    /// The query that the slot is for; none until one is admitted.
    pub query: Option<u32>,
    /// The stage of the task set that was finalised; 0 for a reservation.
    pub stage: u32,
    /// Whether the slot is held after a finalisation, and not by a reservation.
    pub again: bool,
    /// How many task sets were noted as done in this holding.
    pub noted: u32,
    /// The total of the next task set, once it was set in this holding.
    pub total: Option<u32>,
}

/// Where a worker is. A worker's own entries give its place, and the numbers here are those of the
/// tokens that it has.
#[derive(Clone, Copy, Debug, PartialEq, Eq)]
pub enum Place {
    /// At no slot and with nothing in hand.
    Free,
    /// At a slot, which it has not looked at.
    Entered(u32),
    /// At a slot whose task set it may not work on.
    Astray(u32),
    /// At a slot, working on the task set of an id.
    Inside(u32, u32),
    /// At a slot, with an id whose tuples are all claimed.
    Used(u32, u32),
    /// At a slot, with an id that another worker shut.
    Behind(u32, u32),
    /// At a slot, with an id that it shut itself.
    Leading(u32, u32),
    /// It left the slot whose id it shut, and asks the others: slot, id, how many were asked, how
    /// many were marked.
    Asking(u32, u32, u32, u32),
    /// It left a slot where it was marked for an id, and has to pay.
    Owing(u32, u32),
    /// It holds a slot that is reserved or being finalised.
    Holding(u32, Held),
    /// It tells every worker of a task set that it installed: slot, whether as a return, how many
    /// are told.
    Announcing(u32, bool, u32),
}
