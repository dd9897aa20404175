//! The history of the slot object: what a worker can call and be answered, the state that calls
//! leave, which histories are legal, and the laws that every legal history obeys.
//!
//! It stands on `std` alone, and nothing here runs: the types are those of entries, places and
//! shapes, and the rest is definitions (`specs/`) and lemmas (`proofs/`). The layers above may use
//! one fact: a history that is legal (`IsLegal`) obeys each law of module `laws`, whatever the
//! interleaving of its workers was.
#![tactic(auto)]

pub mod act;
pub mod laws;
pub mod place;
pub mod shape;

pub use crate::act::{Act, Entry};
pub use crate::place::{Held, Place};
pub use crate::shape::{
    MOST_CLAIM, MOST_QUERIES, MOST_SLOTS, MOST_TOTAL, MOST_WORKERS, PARTS, STAGES, Shape,
};
