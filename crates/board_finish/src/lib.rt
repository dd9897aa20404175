//! The calls that shut and finalise a task set on the shared board: `shut`, `mark_next`, `sweep`,
//! `pay`, and the exchange of a cell of a slot that is held.
//!
//! It stands on `board_rule` and `slot_proto`, as the calls of a visit do.
//!
//! The layers above may use one fact: each call has the contract of the call of this name of a
//! `Station`, over a board and a pass that is of it.
#![tactic(auto)]

pub mod finish;

pub use finish::{cell, mark_next, pay, shut, sweep};
