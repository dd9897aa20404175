//! The calls of a visit on the shared board: `enter`, `look`, `claim`, `leave`, and the exchange of
//! the worker's own cell.
//!
//! It stands on `board_rule`, whose extension law has all that is said of words, views and cells,
//! and on `slot_proto`, which reads a call's answer in the word that its step finds.
//!
//! The layers above may use one fact: each call has the contract of the call of this name of a
//! `Station`, over a board and a pass that is of it.
#![tactic(auto)]

pub mod visit;

pub use visit::{claim, enter, leave, look, own_cell};
