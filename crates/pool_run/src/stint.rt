// What a worker plays when its number comes.

use worker_machine::{Phase, Worker};

// A stint of a run, for one worker.
#[derive(Clone, Copy)]
pub(crate) enum Stint {
    WholeTurn,
    OneStep,
    // Up to the end of the turn that is under way.
    RestOfTurn,
}

impl Stint {
    ghost use Rattle.std.specs.Prelude.{IsTrue};
    ghost use Rattle.pool_run.specs.Stints.{IsPassedOver};

    // Whether a worker is passed over: if its last turn ended with Over, or, at the rest of a turn,
    // if no turn is under way.
    pub(crate) fn passes_over(self, worker: &Worker) -> bool
        ensures passed { IsTrue result → IsPassedOver self worker.now.phase }
        ensures plays { (IsTrue result → ⊥) → IsPassedOver self worker.now.phase → ⊥ }
    {
        match self {
            Stint::WholeTurn | Stint::OneStep => worker.is_over(),
            Stint::RestOfTurn => matches!(&worker.phase, Phase::Ready(_)),
        }
    }
}
