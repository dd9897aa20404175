//! The laws of legal histories: what holds whatever the interleaving of the workers was.
//!
//! Each function does nothing, and its contract is a law. Crates above cite the lemmas in `proofs/`
//! that it stands on. Most laws say which fault of the protocol they rule out.

ghost use Rattle.std.specs.Prelude.{◌≡◌, ◌*◌};
ghost use Rattle.slot_history.specs.Laws.{Always, AfterAll, QuietSlots, InsideSlots, OneDebt};
ghost use Rattle.slot_history.specs.Laws.{ShutInside, CoordinatorOwesNothing, CoordinatorLeaves};
ghost use Rattle.slot_history.specs.Laws.{OneOwner, OwnEntries, OwnRecords, CallsGoOn, OnlyOnce};
ghost use Rattle.slot_history.specs.Laws.{RangesOfClaims, ClaimsGoOn, RangesGoOn, AreApart};
ghost use Rattle.slot_history.specs.Laws.{NoEarlyClaims, TilesCursor, TilesTotal, FinishingLast};
ghost use Rattle.slot_history.specs.Laws.{OnceInPlace, StagesInOrder, QueryKeepsSlot};
ghost use Rattle.slot_history.specs.Lives.{IsBookOf, CountsOf};
ghost use Rattle.slot_history.specs.Table.{IsTable, AreLed};
ghost use Rattle.slot_history.specs.Bounds.{IsWithin, AreCursors, IsCursorLimit, AreDebtsWithin};
ghost use Rattle.slot_history.specs.Bounds.{AreSlotsSound, IsFinishedBound};
ghost use Rattle.slot_history.specs.Calls.{IsAnswered};
ghost use Rattle.slot_history.specs.Numbers.{PlacesNameIds, AreIdsWithin, IdsAreSmall};
ghost use Rattle.slot_history.specs.Numbers.{AreInstallsWithin, AreClaimsWithin};
ghost use Rattle.slot_history.specs.Payments.{DebtsGoOn};
ghost use Rattle.slot_history.specs.declared.shape.TheConstants.{MOST_SLOTS, PARTS, MOST_WORKERS};
ghost use Rattle.slot_history.specs.declared.shape.TheConstants.{MOST_QUERIES, STAGES, MOST_CLAIM};
ghost use Rattle.slot_history.specs.declared.shape.TheConstants.{MOST_TOTAL};

pub mod beginnings;
pub mod examples;
pub mod lone_turns;
pub mod notices;
pub mod slots;
pub mod subject;

/// The limits that every crate cites, by their numbers. The bits of all mask words are the most
/// slots, and within the limits an id is below 32,768.
///
/// Ruled out: a limit that was shifted in one place.
pub fn limits()
    ensures most_slots { MOST_SLOTS ≡ 128 }
    ensures parts { PARTS ≡ 2 }
    ensures mask_words { 64 * PARTS ≡ MOST_SLOTS }
    ensures most_workers { MOST_WORKERS ≡ 64 }
    ensures most_queries { MOST_QUERIES ≡ 4096 }
    ensures stages { STAGES ≡ 8 }
    ensures most_claim { MOST_CLAIM ≡ 65536 }
    ensures most_total { MOST_TOTAL ≡ 1048576 }
    ensures ids { IdsAreSmall }
{}

/// Every worker is at a place that the state of each slot allows it. At a shut slot those that paid
/// were marked, those that were marked were asked, and those that were asked are the first of the
/// others.
///
/// Ruled out: a sweep before the last worker was asked, a mark that carries no id, a leave that
/// forgets the debt.
pub fn table()
    ensures { Always IsTable }
{}

/// Only the workers, slots and queries of the shape take part, and notices are of slots of the
/// shape.
///
/// Ruled out: an announcement of a slot that is not there, to which a worker would then go.
pub fn within()
    ensures { Always IsWithin }
{}

/// While all workers are free, every slot is empty or open.
///
/// Ruled out: a leave that forgets the debt, after which a shut slot has nobody left to finalise
/// it.
pub fn quiet_slots()
    ensures { Always QuietSlots }
{}

/// If a worker is inside a slot with an id, the slot is open or shut with this id.
///
/// Ruled out: a state word that is published after the look, by which a worker could come inside
/// unseen by the marks.
pub fn inside_slots()
    ensures { Always InsideSlots }
{}

/// A worker is marked without having paid at one slot at most.
///
/// Ruled out: a leave that forgets the debt, after which its worker could be marked at a second
/// slot.
pub fn one_debt()
    ensures { Always OneDebt }
{}

/// A worker inside a shut slot is marked and has not paid, or was not asked yet, or is the
/// coordinator.
///
/// Ruled out: a state word that is published after the look, by which a worker that was asked could
/// still come inside.
pub fn shut_inside()
    ensures { Always ShutInside }
{}

/// A coordinator that is still at its slot owes nothing there.
///
/// Ruled out: a shut that two workers win, of whom one marks the other while that one leads.
pub fn coordinator_owes_nothing()
    ensures { Always CoordinatorOwesNothing }
{}

/// The leave of a coordinator answers `LeaveLeft`: a worker whose leave answered `LeaveOwe` was not
/// at `Leading` before.
///
/// Ruled out: the same, after which a worker would leave with two duties.
pub fn coordinator_leaves()
    ensures { CoordinatorLeaves }
{}

/// A cell is with at most one worker.
///
/// Ruled out: a shut that two workers win, after which both would hold the slot.
pub fn one_owner()
    ensures { Always OneOwner }
{}

/// A worker that found all tuples of a slot claimed is right for as long as it is there, and a task
/// set is shut only then. No cursor goes further past its total than one claim, and one more for
/// each worker that found all tuples claimed; once the slot is shut, for each that claims no more.
///
/// Ruled out: a claim that answers a range past the total, and a cursor that wraps.
pub fn cursors()
    ensures { Always AreCursors }
{}

/// Totals are within their limit, and the holder of a slot knows its query and stage.
pub fn slots_sound()
    ensures { Always AreSlotsSound }
{}

/// The number of task sets noted as done, with all that slots may still note, is at most 72 for
/// each admitted query.
///
/// Ruled out: a holder that notes twice in one holding, after which the number would wrap in the
/// end.
pub fn finished_bound()
    ensures { Always IsFinishedBound }
{}

/// A worker's place, with the numbers of its tokens, its claims and its notice records are given by
/// its own entries alone.
///
/// Ruled out: a call of another worker that moves this one, or takes its claims away.
pub fn own_entries()
    ensures { AfterAll OwnEntries }
{}

/// The notice records of every state are those that the workers' own calls give: a worker's by its
/// looks, its shuts and the bits that it took.
///
/// Ruled out: a take that answers other bits than those of the notices that it clears.
pub fn own_records()
    ensures { AfterAll OwnRecords }
{}

/// After a call, by the clause of every call, its worker's place, claims and notice records go on
/// from those that the trail before gave. The call was allowed there, with its answer.
///
/// Ruled out: a trail that leaves out a call of its own worker.
pub fn calls_go_on()
    ensures { CallsGoOn }
{}

/// Each task set that runs is in its slot, and one that was never installed has no claims. No later
/// task set of a query is installed before an earlier one, and none of a query that was not
/// admitted. No two slots serve one query.
///
/// Ruled out: a query that two slots serve.
pub fn book()
    ensures { AfterAll IsBookOf }
{}

/// Each task set is installed, and each query admitted, at most once.
///
/// Ruled out: a shut that two workers win, after which both would install the next stage.
pub fn only_once()
    ensures { AfterAll OnlyOnce }
{}

/// A task set was neither installed nor finalised. Or it was installed once, with a total, and runs
/// in the slot of its install. Or it was finalised once too.
///
/// Ruled out: an install without a total, and a last call of a task set that was never installed.
pub fn counts()
    ensures { AfterAll CountsOf }
{}

/// The ranges of a worker are those of its claims.
///
/// Ruled out: a claim that is another worker's.
pub fn ranges_claims()
    ensures { AfterAll RangesOfClaims }
{}

/// What a claim gets begins where all ranges that were claimed of its id before ended, or later:
/// those of all workers, and, by the clause of every call, those that the worker's own trail gave.
///
/// Ruled out: a claim that reads the cursor and adds to it in two steps, between which another
/// worker gets the same range.
pub fn ranges_go_on()
    ensures claims { ClaimsGoOn }
    ensures ranges { RangesGoOn }
{}

/// No two ranges that were claimed of one id share a tuple: the later begins where the earlier
/// ended, or later.
///
/// Ruled out: a cursor that is set back while its task set is open.
pub fn ranges_apart()
    ensures { AfterAll AreApart }
{}

/// A task set that was never installed has no claims.
///
/// Ruled out: a worker that is inside with an id before its install.
pub fn no_early_claims()
    ensures { AfterAll NoEarlyClaims }
{}

/// The task set of a slot that is open or shut has the total of its install, and its claims tile
/// the lesser of its cursor and its total.
///
/// Ruled out: a claim that is not cut at the total.
pub fn tiles_cursor()
    ensures { AfterAll TilesCursor }
{}

/// The claims of a shut or finalised task set tile the total with which it was installed. A
/// finalised task set was installed, with a total.
///
/// Ruled out: a shut before all tuples were claimed, a claim after the last call of the task set,
/// and a last call of one that was never installed.
pub fn tiles_total()
    ensures { AfterAll TilesTotal }
{}

/// A slot is finishing a task set only after a call on this task set was answered Last.
///
/// Ruled out: a holder that does not know that it finalises.
pub fn finishing_last()
    ensures { AfterAll FinishingLast }
{}

/// Each finalised task set was finalised exactly once, and in place. It was installed in a slot,
/// which no call gave away until its last call. From then on nobody is inside with it and no call
/// touches it.
///
/// Ruled out: a shut that two workers win, a sweep before the last worker was asked, a state word
/// that is published after the look.
pub fn once_in_place()
    ensures { AfterAll OnceInPlace }
{}

/// If a task set other than the first of its query is installed, the one before it was finalised
/// once, in the slot of this install. This slot was not reserved, released or given to another task
/// set since.
///
/// Ruled out: a finisher that installs a stage past the next, one that installs the next stage in
/// another slot, and one that goes on with its query after it released the slot.
pub fn stages_in_order()
    ensures { StagesInOrder }
{}

/// A slot that serves a task set served one of the same query at each moment since a task set of
/// this query was installed. So once a slot serves another query, no task set of the former is
/// installed there again. Nor is it elsewhere, since by `stages_in_order` each task set of a query
/// is installed in the slot of the one before.
///
/// Ruled out: a slot that serves another query between two stages of one.
pub fn query_keeps_slot()
    ensures { AfterAll QueryKeepsSlot }
{}

/// The cursor of a slot is at most one claim for each worker, and one more, past its total.
///
/// Ruled out: a cursor that wraps.
pub fn cursor_limit()
    ensures { Always IsCursorLimit }
{}

/// At a shut slot, those that paid and those that still owe are together the marked workers, which
/// are fewer than the workers. So a counter of debts never reaches the number of workers on either
/// side of 0.
///
/// Ruled out: a coordinator that marks itself.
pub fn debts_within()
    ensures { Always AreDebtsWithin }
{}

/// A mark adds one mark and one debt. A payment that is not the last adds one payment and takes one
/// debt. Before the last payment there is one debt.
///
/// Ruled out: a pay that is answered Last while another worker still owes.
pub fn debts_go_on()
    ensures { Always DebtsGoOn }
{}

/// The slot of a coordinator that asks is shut with the id that the coordinator names. The
/// coordinator shut it itself and has not swept. If it asked *n* of the others, it asks number *n*
/// of them next.
///
/// Ruled out: a coordinator that asks a worker twice, or passes over one.
pub fn coordinator_slot()
    ensures { Always AreLed }
{}

/// Every id in a slot, at a place, of an install, in a call or in its answer is a stage of one of
/// the shape's queries: below eight times their number. The slot of a worker that names an id has
/// this id.
/// Task sets are installed in slots of the shape, and claims are by its workers.
///
/// Ruled out: a mark that carries the id of another task set.
pub fn numbers_within()
    ensures ids { AfterAll AreIdsWithin }
    ensures places { Always PlacesNameIds }
    ensures installs { AfterAll AreInstallsWithin }
    ensures claims { AfterAll AreClaimsWithin }
{}

/// An allowed call has exactly one answer, an answer of this call, which the state gives. Only an
/// allowed call has an answer.
///
/// Ruled out: a shut that two workers win, a leave that forgets the debt, a pay that is answered
/// Last at any counter at or below 0, and an answer that a call gets at a place where it is not
/// allowed.
pub fn is_answered()
    ensures { Always IsAnswered }
{}
