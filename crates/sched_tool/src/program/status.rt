//! The statuses that the program ends with.
ghost use Rattle.std.specs.Prelude.{◌≡◌};
ghost use Rattle.sched_tool.specs.Statuses.{status_of};

use super::refusal::Refusal;

/// Every query is answered, and the answer is written.
pub const ANSWERED: u8 = 0;

/// A write failed.
pub const CANNOT_WRITE: u8 = 4;

/// Memory ran out.
pub const OUT_OF_MEMORY: u8 = 7;

/// The status of a refusal.
pub fn status_of(refusal: &Refusal) -> u8
    ensures { result ≡ status_of refusal.now }
{
    match refusal {
        Refusal::Usage => 2,
        Refusal::CannotRead(_) => 3,
        Refusal::Script(_) => 5,
        Refusal::Table { .. } => 6,
        Refusal::OutOfMemory => OUT_OF_MEMORY,
    }
}
