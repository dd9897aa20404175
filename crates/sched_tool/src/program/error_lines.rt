//! The lines that say why there is no answer. As text, a refusal is its line without the line end.
use super::refusal::{Refusal, ScriptFault, TableFault};
use std::fmt;

/// The line that says that memory ran out. It is written without allocating.
pub const OUT_OF_MEMORY_LINE: &str = "error: out of memory\n";

impl fmt::Display for Refusal {
    ghost use Rattle.std.specs.Prelude.{Some};
    ghost use Rattle.sched_tool.specs.ErrorLines.{error_text};

    ghost output = { λ refusal. Some (error_text refusal) };

    fn fmt<W: fmt::Write>(&self, f: &mut fmt::Formatter<W>) -> fmt::Result {
        match self {
            Refusal::Usage => write!(f, "error: usage"),
            Refusal::CannotRead(file) => write!(f, "error: cannot read {}", file.as_str()),
            Refusal::Script(fault) => write!(f, "error: script: {fault}"),
            Refusal::Table { file, fault } => write!(f, "error: table {}: {fault}", file.as_str()),
            Refusal::OutOfMemory => write!(f, "error: out of memory"),
        }
    }
}

impl fmt::Display for ScriptFault {
    ghost use Rattle.std.specs.Prelude.{Some};
    ghost use Rattle.sched_tool.specs.ErrorLines.{script_fault_text};

    ghost output = { λ fault. Some (script_fault_text fault) };

    fn fmt<W: fmt::Write>(&self, f: &mut fmt::Formatter<W>) -> fmt::Result {
        match self {
            ScriptFault::TooLong => write!(f, "too long"),
            ScriptFault::Unread(refusal) => write!(f, "{refusal}"),
            ScriptFault::Query { number, refusal } => write!(f, "query {number}: {refusal}"),
        }
    }
}

impl fmt::Display for TableFault {
    ghost use Rattle.std.specs.Prelude.{Some};
    ghost use Rattle.sched_tool.specs.ErrorLines.{table_fault_text};

    ghost output = { λ fault. Some (table_fault_text fault) };

    fn fmt<W: fmt::Write>(&self, f: &mut fmt::Formatter<W>) -> fmt::Result {
        match self {
            TableFault::TooLong => write!(f, "too long"),
            TableFault::Unread(refusal) => write!(f, "{refusal}"),
        }
    }
}
