//! The slot of a task set and of a query.

ghost use Rattle.slot_history.specs.Laws.{AfterAll};
ghost use Rattle.slot_history.specs.Looks.{TaskInSlot, ServingSlot, TaskKeepsSlot, LastInSlot};
ghost use Rattle.slot_history.specs.Looks.{FinishingInSlot, OneSlotSeen, SameQuerySeen};
ghost use Rattle.slot_history.specs.Looks.{StageBefore, HasFinisher, HolderIsFinisher};
ghost use Rattle.slot_history.specs.Looks.{FinisherStays};

/// The task set that a slot serves, by the history, is the one that its state has, and was
/// installed in this slot. The slot has served it at each moment since.
///
/// Ruled out: a shut or a release that changes the id of a slot.
pub fn task_set_keeps_slot()
    ensures at { AfterAll TaskInSlot }
    ensures installed { AfterAll ServingSlot }
    ensures keeps { TaskKeepsSlot }
{}

/// A call that is answered `Last` is about the slot of the task set's install. By then the claims
/// of the task set tile the total of this install. A slot that is being finalised is the slot of
/// its task set's install.
///
/// Ruled out: a mark that carries a slot or an id of another task set, so that its worker finalises
/// elsewhere.
pub fn last_in_slot()
    ensures last { LastInSlot }
    ensures finishing { AfterAll FinishingInSlot }
{}

/// A finalised task set has a finisher for ever, the worker whose call was answered `Last`. Whoever
/// holds a slot after a finalisation is the finisher of its task set.
///
/// Ruled out: an answer `Last` that two workers get.
pub fn finisher()
    ensures has { AfterAll HasFinisher }
    ensures holder { AfterAll HolderIsFinisher }
    ensures stays { FinisherStays }
{}

/// A query is seen open in one slot only: looks that answer task sets of one query are at one slot.
/// Between two looks that see a query open, each look that sees its slot open sees this query.
///
/// Ruled out: a query that two slots serve, and a slot that serves another query between two stages
/// of one.
pub fn query_seen()
    ensures one { OneSlotSeen }
    ensures same { SameQuerySeen }
{}

/// If a task set other than the first of its query was installed, the one before it was finalised,
/// in the same slot.
///
/// Ruled out: a finisher that installs a stage past the next, or in another slot.
pub fn stage_before()
    ensures { AfterAll StageBefore }
{}
