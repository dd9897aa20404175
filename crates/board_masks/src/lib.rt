//! The calls that fill a slot and announce it on the shared board, and the seat of a worker at it.
//!
//! It stands on `board_rule`, on `slot_proto`, which reads a call's answer in the word that its
//! step finds, and on `board_visit` and `board_finish`, which have the other calls.
//!
//! The layers above may use one fact: a `BoardSeat`, which is a board by reference and a pass of
//! it, is a `Station`.
#![tactic(auto)]

pub mod fill;
pub mod notices;
pub mod seat;

pub use fill::{admit, install, note_done, release, reserve, set_total};
pub use notices::{announce, arrivals, finished, take_change, take_return};
pub use seat::BoardSeat;
