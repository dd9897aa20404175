//! Laws of runs on one thread. A function here does nothing; its contract is the law.
ghost use Rattle.run_laws.specs.OrdersDrive.{TurnsDrive, MovesDrive};
ghost use Rattle.run_laws.specs.Ends.{IsAccounted, EndedAreFree, TurnsEndWell};
ghost use Rattle.run_laws.specs.Ends.{LeftIsLow, TurnsFallAsOne};
ghost use Rattle.run_laws.specs.Completes.{OverIsDone, StagesBefore};
ghost use Rattle.turn_model.specs.Shares.{SharesAreOfRanges};
ghost use Rattle.run_laws.specs.Merging.{CountsAreSmall, SharesAreMerged, RoomIsLeft};
ghost use Rattle.run_laws.specs.Merging.{MergedIsReport};
ghost use Rattle.run_laws.specs.Scheduled.{WorkersAreFair, RunsAreScheduled};
ghost use Rattle.run_laws.specs.Tuples.{TilesHoldEach};
ghost use Rattle.run_laws.specs.Agreeing.{RunsByTurnsAgree, RunsByMovesAgree, OneReport};
ghost use Rattle.run_laws.specs.Agreeing.{AnsweredServesAll, OneTextByTurns, OneTextByMoves};

/// In a run by an order, by whole turns or by single moves, every worker makes the moves that are
/// its to make.
pub fn orders_drive()
    ensures turns { TurnsDrive }
    ensures moves { MovesDrive }
{}

/// After every run of moves that workers make, the number of task sets noted as done is the sum
/// over the admitted queries of those done of each.
pub fn accounted()
    ensures { IsAccounted }
{}

/// A whole turn that a worker makes while all workers are free is never idle. It acts and lowers
/// the five numbers, or it ends with `Over`. Then all workers are free again, as they are whenever
/// no turn is under way.
pub fn turns_end_well()
    ensures turns { TurnsEndWell }
    ensures free { EndedAreFree }
{}

/// The numbers are low after every legal history, so that they count as one number. A turn of a
/// worker that is not over lowers this number.
pub fn turns_fall()
    ensures low { LeftIsLow }
    ensures one { TurnsFallAsOne }
{}

/// Once every worker is over, all queries were admitted and the slot of each was released once. All
/// task sets were noted as done, and each that was installed was finalised. If a task set was
/// finalised, so were those of the stages before it.
pub fn over_is_done()
    ensures done { OverIsDone }
    ensures stages { StagesBefore }
{}

/// Shares that are counted range by range are those that a report has to have, if their counts fit.
/// In a run they do. The shares of all workers, worker by worker, are those of the run.
pub fn shares_are_of_ranges()
    ensures one { SharesAreOfRanges }
    ensures small { CountsAreSmall }
    ensures all { SharesAreMerged }
{}

/// The report of a complete run is what its workers told: exactly one reply to each query, one
/// record of each task set that was finalised, one share of each worker and each query on which it
/// worked, and one gap of each worker. Each worker had room for what it told.
pub fn merged_is_report()
    ensures room { RoomIsLeft }
    ensures report { MergedIsReport }
{}

/// In every run of moves that workers make, no two passes of a worker's slots that were active at
/// the same time ever differ by more than the worker's largest advance.
pub fn workers_are_fair()
    ensures { WorkersAreFair }
{}

/// Of claims that tile a total, as those of a finalised task set do, each tuple below the total
/// lies in exactly one, and no other number lies in any.
pub fn tiles_hold_each()
    ensures { TilesHoldEach }
{}

/// The scheduling theorem. In a run that ended with all workers over, the calls of all workers
/// stand in one legal history, each once, as each worker saw them. Every tuple of a finalised task
/// set lies in exactly one claimed morsel. Finalisation ran once, after the last worker left the
/// task set and before its slot held another. In the end all is done, each query that was answered
/// has its one-thread answer, and a worker's active passes differ by at most its largest advance.
pub fn runs_are_scheduled()
    ensures { RunsAreScheduled }
{}

/// Two complete runs of the same work by the same order, by whole turns or by single moves, are one
/// run: the same history, moves and times. This holds if the meter takes one time for each range,
/// and if neither run gives a query up because memory ran out.
pub fn runs_agree()
    ensures turns { RunsByTurnsAgree }
    ensures moves { RunsByMovesAgree }
{}

/// A run has one report, if no query ran out of memory.
pub fn one_report()
    ensures { OneReport }
{}

/// One text for each input. If the meter takes one time for each range, and no reply says that
/// memory ran out, there is one complete run by the order, and it has one report. So the text of
/// the report is the same at each run.
pub fn one_text()
    ensures answered { AnsweredServesAll }
    ensures turns { OneTextByTurns }
    ensures moves { OneTextByMoves }
{}
