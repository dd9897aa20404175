// What a stage gives in the end.
use build_sides::{GroupSide, HashSide};
use plan_ast::Answer;
use std::alloc::AllocError;

/// Nothing, or out of memory.
pub(crate) type Done = Result<(), AllocError>;

/// The result of a stage. That of the last stage is the query's answer.
#[derive(Debug, Drop)]
pub enum StageResult {
    /// Of a build: the side of its join.
    Side(HashSide),

    /// Of a scan that puts out groups: sides that a merge adds up.
    Parts(Vec<GroupSide>),

    /// Of a scan that puts out rows or totals, and of a merge.
    Answer(Answer),
}
