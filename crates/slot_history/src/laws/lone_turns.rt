//! What a worker meets that calls alone, while all others are free. A run on one thread ends by
//! these laws.

ghost use Rattle.slot_history.specs.Laws.{Always};
ghost use Rattle.slot_history.specs.LoneTurns.{StaysLone, EndsQuiet, MeetsNobody, RunMeetsNobody};
ghost use Rattle.slot_history.specs.LoneTurns.{LookIsKnown, QuietIsKnown, NoticesStayTaken};
ghost use Rattle.slot_history.specs.LoneTurns.{ArrivalsStay, AdmitIsGot, TakenIsKnown};

/// From a quiet state on, while only one worker calls, the others stay free and it is marked
/// nowhere. Once it is free too, the state is quiet again.
///
/// Ruled out: a call that moves another worker than its own.
pub fn stays_lone()
    ensures lone { StaysLone }
    ensures quiet { EndsQuiet }
{}

/// A lone worker never gets an answer that needs another worker: its look is not `LookInvalid` and
/// its shut is not lost, it owes nothing, whoever it asks is missed, and its sweep is the last. So
/// a run of one worker's calls from a quiet state has no such answer.
///
/// Ruled out: a release that leaves the tag, a shut that is lost to the first, a mark of a worker
/// that has left, and a sweep that leaves the end of a task set to nobody.
pub fn meets_nobody()
    ensures call { MeetsNobody }
    ensures run { RunMeetsNobody }
{}

/// If a lone worker sees its slot open, and has no change notice of it pending, its record allows
/// the query.
///
/// Ruled out: a query's first task set that is announced as a return, so that records go on naming
/// the slot's last query.
pub fn look_is_known()
    ensures { LookIsKnown }
{}

/// In a quiet state each worker has, of every open slot, an active record that lets it in, or a
/// pending notice that will make it so.
///
/// Ruled out: an announcer that is free before all are told.
pub fn quiet_is_known()
    ensures { Always QuietIsKnown }
{}

/// Notices that a worker took are not pending again before somebody is told of a task set.
///
/// Ruled out: a take that leaves a bit in its word.
pub fn stays_taken()
    ensures { NoticesStayTaken }
{}

/// Once a worker took the change and the return notices of a slot, from a quiet state on, its
/// record of this slot is active and lets it in, if the slot is open.
///
/// Ruled out: a take whose answer lacks a bit that it clears.
pub fn taken_is_known()
    ensures { TakenIsKnown }
{}

/// As long as no query is admitted, the number of queries stays what `arrivals` answered, and an
/// admit of that number is not lost.
///
/// Ruled out: an admit that counts though it is lost, and one that is lost in its query's turn.
pub fn arrivals_stay()
    ensures number { ArrivalsStay }
    ensures got { AdmitIsGot }
{}
