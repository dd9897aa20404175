//! Laws of runs: why runs on one thread end, what whole runs have done, and what their reports are.
//!
//! A run by an order is made of moves that workers make. After every run of such moves the task
//! sets that are done are those that the admitted queries and their slots account for. A whole turn
//! that a worker makes while all workers are free lowers five numbers, in the order of a
//! dictionary, until every task set is done. Then the parts that the workers tell merge to the
//! report of the run. The scheduling theorem (`ScheduledRun`) says in one statement what such a run
//! has done. If no query runs out of memory, one input has one run and one report.
//!
//! It stands on `turn_model` (turns, runs and reports) and `slot_history` (histories and their
//! laws). It holds no code. The layer above may use the laws of module `laws`.
#![tactic(auto)]

pub mod laws;
