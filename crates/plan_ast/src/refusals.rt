// Why a query can't be answered over its tables.

use col_table::Name;
use std::alloc::{AllocError, AllocFailed};
use std::fmt;

/// Why a query can't be answered over its tables. As text it says which name isn't there.
#[derive(Debug, Drop)]
pub enum PlanRefusal {
    /// No table has this name.
    UnknownTable(Name),

    /// The side that the query means has no column of this name, or the query has no such side.
    UnknownColumn(Name),

    /// Memory ran out.
    OutOfMemory,
}

impl fmt::Display for PlanRefusal {
    ghost use Rattle.std.specs.Prelude.{Some};
    ghost use Rattle.plan_ast.specs.RefusalText.{plan_refusal_text};

    ghost output = { λ refusal. Some (plan_refusal_text refusal) };

    fn fmt<W: fmt::Write>(&self, f: &mut fmt::Formatter<W>) -> fmt::Result {
        match self {
            PlanRefusal::UnknownTable(name) => write!(f, "unknown table {}", name.as_str()),
            PlanRefusal::UnknownColumn(name) => write!(f, "unknown column {}", name.as_str()),
            PlanRefusal::OutOfMemory => write!(f, "out of memory"),
        }
    }
}

impl From<AllocError> for PlanRefusal {
    ghost use Rattle.std.specs.Prelude.{◌≡◌};
    ghost use Rattle.plan_ast.specs.declared.refusals.PlanRefusal.TheVariants.{OutOfMemory};

    ghost from_gives = { λ _ e. e ≡ OutOfMemory };

    fn from(_e: AllocError) -> PlanRefusal {
        PlanRefusal::OutOfMemory
    }
}

impl<T: Drop> From<AllocFailed<T>> for PlanRefusal {
    ghost use Rattle.std.specs.Prelude.{◌≡◌};
    ghost use Rattle.plan_ast.specs.declared.refusals.PlanRefusal.TheVariants.{OutOfMemory};

    ghost from_gives = { λ _ e. e ≡ OutOfMemory };

    fn from(_e: AllocFailed<T>) -> PlanRefusal {
        PlanRefusal::OutOfMemory
    }
}
