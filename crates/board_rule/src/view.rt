//! What a seat of the board knows. No value of these types is made: only contracts see them.
use slot_history::act::Entry;
use slot_history::shape::Shape;
use slot_station::log::Logged;
use std::collections::LinkedList;

/// What a seat knows. A view without numbers is spent: its seat was joined into another.
pub struct View<T> {
    pub shape: Shape,
    /// The subject that the board serves. A spent view has none.
    pub subject: Option<T>,
    /// The worker's own number, and then the further ones: of workers whose seats were joined into
    /// this one, or are not split off yet.
    pub numbers: LinkedList<u32>,
    /// All entries that the worker has seen, the newest first.
    pub trail: LinkedList<Entry>,
    /// The worker's own calls and exchanges, the newest first. They give its notes of cells.
    pub own: LinkedList<Logged>,
    /// The worker whose cell is out with this seat, if one is.
    pub out: Option<u32>,
    /// What the seats that were joined into this one knew.
    pub heard: LinkedList<Heard>,
}

/// The trail with which a worker's seat was joined.
pub struct Heard {
    pub worker: u32,
    pub trail: LinkedList<Entry>,
}
