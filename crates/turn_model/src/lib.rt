//! What a worker of the scheduler does, as definitions: its moves, what they tell it, and the turns
//! that they are.
//!
//! A *move* is a station call with its reply, or an exchange of a cell. Everything else is a
//! function of a worker's own moves: where it is, what it knows of each slot, the passes of its
//! slots, the size of its next claim, and which call it makes next. On these stand driven runs,
//! runs by an order, and the report of a run.
//!
//! It stands on `slot_history` (calls, places and histories), `stride_set`, `prio_decay` and
//! `morsel_size` (passes, priorities and sizes) and `report_text` (reports). It holds no code that
//! a worker runs. The layer above may use the definitions and the laws of module `laws`.
#![tactic(auto)]

pub mod laws;
pub mod turn;

pub use turn::Turn;
