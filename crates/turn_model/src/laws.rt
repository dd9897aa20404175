//! Laws of a worker's moves. A function here does nothing; its contract is the law.
ghost use Rattle.turn_model.specs.Laws.{MovesTell};
ghost use Rattle.turn_model.specs.ExampleTurns.{Plays};
ghost use Rattle.turn_model.specs.Examples.{one_worker, first_of_two, second_of_two, two_queries};
ghost use Rattle.turn_model.specs.Examples.{no_rows, no_query, three_queries, many_rows};
ghost use Rattle.turn_model.specs.RareExamples.{marks, pays, pays_early, stranger};
ghost use Rattle.turn_model.specs.RareExamples.{gives_up, gives_up_late};
ghost use Rattle.turn_model.specs.Fitting.{StridesAreCalls, SizeFits, RangeFits};
ghost use Rattle.turn_model.specs.Activity.{ActiveByRecords};
ghost use Rattle.turn_model.specs.Keeping.{LooksKeep, RangesKeep};
ghost use Rattle.turn_model.specs.Measure.{FallsAsOne};
ghost use Rattle.turn_model.specs.Endings.{RecordsStay};
ghost use Rattle.turn_model.specs.Tellings.{ToldStays};
ghost use Rattle.turn_model.specs.OneSlot.{LooksFit, ClaimsAreLetIn, OneSlotLetsIn};

/// A worker's place and its notice records are those that its moves tell, whatever the others do.
pub fn moves_tell()
    ensures { MovesTell }
{}

/// The passes of a worker's slots are those after one list of calls of a stride set.
pub fn strides_are_calls()
    ensures { StridesAreCalls }
{}

/// The slots that are active among a worker's passes are those whose notice records are active.
pub fn active_by_records()
    ensures { ActiveByRecords }
{}

/// A sizer that has a worker's ranges of a task set gives the size of the next claim, and a range
/// keeps passes, decay and sizer with the moves.
pub fn ranges_fit()
    ensures size { SizeFits }
    ensures range { RangeFits }
{}

/// One decay and one sizer for each slot are enough: a worker is let in to task sets of a query in
/// one slot only, and all that it did for a query or a task set came after a look at that slot.
pub fn one_slot_is_enough()
    ensures looks { LooksFit }
    ensures claims { ClaimsAreLetIn }
    ensures one { OneSlotLetsIn }
{}

/// What a worker keeps of its slots (groups, decays, sizers) is right again after a look that let
/// it in, and after a range.
pub fn slots_are_kept()
    ensures looks { LooksKeep }
    ensures ranges { RangesKeep }
{}

/// The record of a task set that was finalised stays right, whatever is called after it. So all
/// that a worker told early still holds of a later history.
pub fn told_stays()
    ensures records { RecordsStay }
    ensures told { ToldStays }
{}

/// The numbers that whole turns lower, in the order of a dictionary, are lowered as one number.
pub fn numbers_are_one()
    ensures { FallsAsOne }
{}

/// Worked examples: moves that the definitions allow, and what they give.
pub fn examples()
    ensures one { Plays one_worker }
    ensures pair_first { Plays first_of_two }
    ensures pair_second { Plays second_of_two }
    ensures two { Plays two_queries }
    ensures empty { Plays no_rows }
    ensures none { Plays no_query }
    ensures three { Plays three_queries }
    ensures long { Plays many_rows }
{}

/// Worked examples of what is rare: workers that meet in a task set, mark, owe and pay; an idle
/// turn; a query that another worker admits first; a query that is found before its notice; and
/// queries that are given up.
pub fn rare_examples()
    ensures marks { Plays marks }
    ensures pays { Plays pays }
    ensures pays_early { Plays pays_early }
    ensures stranger { Plays stranger }
    ensures gives_up { Plays gives_up }
    ensures gives_up_late { Plays gives_up_late }
{}
