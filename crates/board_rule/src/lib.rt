//! The shared board: the words of the slot object and its cells, which any number of threads share
//! with no lock, and the running rule, which holds between any two of their steps.
//!
//! It stands on `slot_words`, whose laws say what each call's one step does, on `slot_station`, and
//! on the kit's `atomic_table`, which keeps a rule over words, cells and what each thread knows.
//! Here are the board and its passes, the rule, the laws (`laws`), the step of a call (`atomic`),
//! exchanges of cells (`exchange`), and how a board begins and ends (`life`). The calls are in the
//! crates above. `docs/BOARD.md` tells all this in prose.
//!
//! The layers above may use one fact: a step that is a call which its worker may make leaves the
//! pass with this call as its trail's newest entry, and this trail is a legal history of the
//! subject.
#![tactic(auto)]

pub mod atomic;
pub mod board;
pub mod exchange;
pub mod joined;
pub mod laws;
pub mod life;
pub mod rule;
pub mod view;

pub use board::{Board, Pass};
pub use joined::Joined;
