//! The answers to queries, in one go and by stages.
//!
//! `plain_answer` answers a checked query in one go, by nested loops over the rows of its tables.
//! `run_range` takes a range of a stage's tuples into an accumulator (`Acc`). `merge` makes the
//! whole result of a stage from accumulators that share its tuples.
//!
//! It stands on `plan_ast`, which says what the answer to a query is and what a stage makes of some
//! of its tuples, and on `build_sides`. What the layers above may use: the plain answer is the
//! definition's, an accumulator holds exactly the tuples that it took, and the whole result of the
//! last stage is the answer, however its tuples were cut and shared.

#![tactic(auto)]

mod acc;
mod aggregates;
mod builds;
mod columns;
mod groups;
mod inputs;
mod joins;
mod laws;
mod matches;
mod merge_ranges;
mod merge_stage;
mod merged_groups;
mod merging;
mod outputs;
mod plain;
mod results;
mod rows;
mod scan_groups;
mod scan_inputs;
mod scans;
mod selection;
mod stages;
mod takes;

pub use acc::Acc;
pub use inputs::Inputs;
pub use laws::holds_fold;
pub use merge_stage::merge;
pub use plain::plain_answer;
pub use results::StageResult;
pub use stages::run_range;

#[cfg(test)]
mod stage_tests;
#[cfg(test)]
mod tests;
