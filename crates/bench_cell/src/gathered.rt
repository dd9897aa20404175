// What becomes of a task set.
use pipe_ops::StageResult;
use report_text::Record;

/// What became of a task set, and its record.
#[derive(Debug, Drop)]
pub enum Gathered {
    /// Its whole result.
    Whole { result: StageResult, kept: Record },

    /// Memory ran out, in a bench or in gathering. The record is short.
    Short { kept: Record },
}
