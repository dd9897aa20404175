//! Why there is no answer.
ghost use Rattle.std.specs.Prelude.{◌≡◌};

use col_table::Text;
use csv_tables::TableRefusal;
use plan_ast::PlanRefusal;
use script_json::ScriptRefusal;
use std::alloc::{AllocError, AllocFailed};

/// Why a script is refused.
#[derive(Debug, Drop)]
pub enum ScriptFault {
    /// The file is longer than a script may be.
    TooLong,
    /// The bytes are no script. Memory is never the reason.
    Unread(ScriptRefusal),
    /// A name in the query of this number, counted from 0, isn't there. Memory is never the reason.
    Query { number: u32, refusal: PlanRefusal },
}

/// Why a table is refused.
#[derive(Debug, Drop)]
pub enum TableFault {
    /// The file is longer than a table may be.
    TooLong,
    /// The bytes are no table. Memory is never the reason.
    Unread(TableRefusal),
}

/// Why a command gives no answer.
#[derive(Debug, Drop)]
pub enum Refusal {
    /// The words are outside the grammar, or ask for a command that isn't built.
    Usage,
    /// A read of this file failed.
    CannotRead(Text),
    /// The script is refused.
    Script(ScriptFault),
    /// The table in this file is refused.
    Table { file: Text, fault: TableFault },
    /// Memory ran out.
    OutOfMemory,
}

impl From<AllocError> for Refusal {
    ghost use Rattle.sched_tool.specs.declared.program.refusal.Refusal.TheVariants.{OutOfMemory};

    ghost from_gives = { λ _ refusal. refusal ≡ OutOfMemory };

    fn from(_: AllocError) -> Refusal {
        Refusal::OutOfMemory
    }
}

impl<T: Drop> From<AllocFailed<T>> for Refusal {
    ghost use Rattle.sched_tool.specs.declared.program.refusal.Refusal.TheVariants.{OutOfMemory};

    ghost from_gives = { λ _ refusal. refusal ≡ OutOfMemory };

    fn from(_: AllocFailed<T>) -> Refusal {
        Refusal::OutOfMemory
    }
}
