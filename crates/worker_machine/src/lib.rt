//! The work of one worker: which slot it visits, what it claims there, and how it opens, finishes
//! and gives up task sets.
//!
//! A worker takes turns. A turn takes the notices, looks whether a query is due, and then admits
//! it, visits one slot, or does nothing. `Worker::turn` makes a whole turn and `Worker::step` one
//! call of it. Neither knows the slot object: a worker goes over any `Station` whose cells hold
//! benches, so every call that it makes is one that the protocol allows.
//!
//! It stands on `slot_station` (what a worker may call), `turn_model` (which moves are turns),
//! `bench_cell` (what the cells hold), `stride_set` (which slot is next), `prio_decay` (what time
//! in a query costs) and `morsel_size` (how much is claimed). The one fact that the layers above
//! may use: a worker that follows its station (`Follows`) follows it after each step, and a turn
//! takes at most `slots + 4 * workers + 20` steps. If the worker has made some list of moves
//! (`HasMade`), each step is one more that the model lets it make (`Moves`), and a turn is one of
//! the model (`Turns`). A new worker has made none, so this holds of it and all its steps.
#![tactic(auto)]

mod benches;
mod finish;
mod joins;
mod kept;
mod known;
mod laws;
mod notices;
mod opening;
mod parts;
mod phase;
mod plans;
mod ran;
mod shares;
mod state;
mod stepping;
mod visit;
mod worker;

pub use kept::{Core, Known};
pub use laws::{new_follows, new_has_made_none, what_is_told};
pub use parts::WorkerParts;
pub use phase::{Phase, Stepped};
pub use ran::Ran;
pub use state::Worker;
pub use turn_model::Turn;
