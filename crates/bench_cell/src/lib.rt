//! One worker's work on a task set: what the cells of a slot hold.
//!
//! A `Plan` is what a run works on: tables, and queries that were checked with them. Stage k of
//! query q is the task set of the id `STAGES * q + k`. A `Bench` is what one worker made of the
//! ranges that it claimed of a task set.
//!
//! It stands on `pipe_ops`, which folds ranges of a stage, and on `slot_station`, which says what a
//! cell holds (`Fits`). The one fact that the layers above may use: a bench fits the ranges that it
//! worked on (`specs/Benches.antt`), so it is short, or it holds what the stage makes of their
//! tuples.
#![tactic(auto)]

mod accs;
mod bench;
mod claims;
mod gathered;
mod gathering;
mod laws;
mod plan;

pub use bench::Bench;
pub use gathered::Gathered;
pub use gathering::gather;
pub use laws::{past_apart, tiles_are_kept, tiles_cover, tiles_give};
pub use plan::Plan;

#[cfg(test)]
mod tests;
