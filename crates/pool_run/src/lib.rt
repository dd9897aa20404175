//! Whole runs of the workers of one plan: on one thread, or each worker on a thread of its own.
//!
//! A run on one thread plays its workers one after another over one table of slots, as an order of
//! numbers says: `run_turns` by whole turns over the state of slots and workers, and `run_steps` by
//! single steps over their words. Then rounds of whole turns follow until every worker is over. In
//! `run_threads` each worker turns at its seat of a shared board until it is over. The report
//! collects what the workers tell, by moving it.
//!
//! It stands on `worker_machine` (what a worker does), `plain_slots`, `slot_proto` and the board
//! (`board_rule`, `board_masks`), and on `run_laws` (why rounds end). The one fact that the layers
//! above may use is the same for all three (`RanBy`): what a run answers is of one complete run of
//! moves that the workers may make, which follows the course that was asked for; its report is the
//! report of that run, and the scheduling theorem holds of both (`ScheduledRun`).
//!
//! What a worker plays on one thread when its number comes is a `Stint`: a whole turn, one step, or
//! the rest of a turn. The stretches of such a run are functions of `Pool`, a table with its
//! workers. Each says what becomes of any run that led there (`Leads`), so that a whole run is their
//! sequence. A run by threads begins and ends with a `Crew`, the workers with their passes of the
//! board. All workers and lists are made before a meter is taken, so that each meter comes back.
#![tactic(auto)]

mod pool;
mod report;
mod runs;
mod seats;
mod stint;
#[cfg(test)]
mod tests;
mod threads;

pub use runs::{MOST_NUMBERS, run_steps, run_turns};
pub use threads::{ThreadRan, run_threads};
pub use worker_machine::Ran;
