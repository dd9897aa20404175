//! The object as one worker sees it: its calls, and what the cells hold.
use crate::note::Note;
use crate::reply::{Admit, Claim, Leave, Look, Mark, Pay, Reserve, Shut, Sweep};
use crate::steps::Steps;
use crate::token::{Announcer, Coordinator, Debt, Holder, Spent};
use std::sync::ledger::Ledger;

/// What the cells of an object hold. It has no calls: it says what a value has to do with the
/// subject that is worked on.
pub trait Fits: Drop {
    ghost use Rattle.std.specs.Prelude.{ℕ, List, Option};

    /// What the task sets are of.
    type Subject;

    // How many queries the subject has.
    ghost queries: { Self.Subject → ℕ };

    // The total, in tuples, of the task set of an id, where the subject has one.
    ghost total: { Self.Subject → ℕ → Option ℕ };

    // Of the subject, a worker, a task set's id and the ranges that the worker claimed of it, the
    // newest first, each from one number up to below another: the value is what this worker made
    // of these ranges.
    ghost fits: { Self.Subject → ℕ → ℕ → List (ℕ × ℕ) → Self → Type 0 };
}

/// The calls of one worker, whatever the object behind them. No call takes memory. A call that has
/// an entry in the history makes one atomic step and ticks once; an exchange of a cell has no
/// entry, and ticks once too.
///
/// A call is allowed by the worker's place, which its trail gives, by the fields of its tokens,
/// and by its notes of cells. `docs/PROTOCOL.md` tells how the calls work together; its section
/// "The calls, one by one" has each call's places and answers in a table.
pub trait Station<B: Fits> {
    ghost use Rattle.std.specs.Prelude.{◌≡◌, ℕ, ◌+◌, ◌<◌, ◌≤◌, ◌⊎◌, true, None, IsSome, IfSome};
    ghost use Rattle.slot_history.specs.declared.shape.TheConstants.{STAGES, PARTS, MOST_CLAIM};
    ghost use Rattle.slot_history.specs.declared.shape.TheConstants.{MOST_TOTAL};
    ghost use Rattle.slot_history.specs.declared.act.Act.TheVariants.{Enter, Arrivals, Finished};
    ghost use Rattle.slot_history.specs.declared.act.Act.TheVariants.{NoteDone, SetTotal, Install};
    ghost use Rattle.slot_history.specs.declared.act.Act.TheVariants.{Release, Announce};
    ghost use Rattle.slot_history.specs.declared.act.Act.TheVariants.{TakeReturn, TakeChange};
    ghost use Rattle.slot_history.specs.declared.place.Place.TheVariants.{Free, Entered, Inside};
    ghost use Rattle.slot_history.specs.States.{can_leave, next_id};
    ghost use Rattle.slot_history.specs.Allowed.{IsReady};
    ghost use Rattle.slot_history.specs.Subject.{InstallsOf};
    ghost use Rattle.slot_station.specs.declared.note.Note.TheVariants.{Empty, Fresh};
    ghost use Rattle.slot_station.specs.Desks.{Seen, IsDesk, own_place, own_holding, own_ranges};
    ghost use Rattle.slot_station.specs.Desks.{own_total, totals_of, Owns, caller_of, Makes};
    ghost use Rattle.slot_station.specs.Desks.{Exchanges, ExchangesOwn, OwnFits, NextFits};
    ghost use Rattle.slot_station.specs.Desks.{OwnCellSays, CellSays, LeaderOwesNothing};
    ghost use Rattle.slot_station.specs.Cells.{has_cell, kept_note, fresh_note, HasNoted};
    ghost use Rattle.slot_station.specs.Cells.{LeavesKept};
    ghost use Rattle.slot_station.specs.Tokens.{IsSpent, IsDebt, IsCoordinator, IsHolder};
    ghost use Rattle.slot_station.specs.Tokens.{IsAnnouncer, IsDone, ClaimGives, ShutGives};
    ghost use Rattle.slot_station.specs.Tokens.{LeaveGives, SweepGives, PayGives, ReserveGives};
    ghost use Rattle.slot_station.specs.Replies.{look_act, claim_act, shut_act, leave_act};
    ghost use Rattle.slot_station.specs.Replies.{mark_act, sweep_act, pay_act, reserve_act};
    ghost use Rattle.slot_station.specs.Replies.{admit_act, SeesTaskSet, IsCutRange, LiesPast};
    ghost use Rattle.slot_station.specs.Replies.{OwesTaskSet, marked_coordinator, admitted_holder};
    ghost use Rattle.slot_station.specs.Replies.{NamesSlots};

    // What no call changes.
    ghost Origin: { Type 0 };

    // What the station shows of itself: its origin and desk, its worker's trail, and the notes of
    // cells.
    ghost seen: { Self → Seen Origin B.Subject };

    /// Whose station it is. Allowed at every place.
    fn worker(&self) -> u32
        ensures { result ≡ (seen self.now).desk.worker };

    /// How many workers the object has: 1 to 64. Allowed at every place.
    fn workers(&self) -> u32
        ensures { result ≡ (seen self.now).desk.shape.workers };

    /// How many slots it has: 1 to 128. Allowed at every place.
    fn slots(&self) -> u32
        ensures { result ≡ (seen self.now).desk.shape.slots };

    /// Goes to slot s, and has not looked at it yet. Allowed at Free; see `docs/PROTOCOL.md`.
    fn enter<L: Ledger>(&mut self, s: u32, steps: &mut Steps<L>)
        requires place { own_place (seen self.old) ≡ Free }
        requires slot { s < (seen self.old).desk.shape.slots }
        ensures made { Makes B.total (Enter s) (seen self.old) (seen self.new) }
        ensures ticks { steps.new ≡ steps.old + 1 };

    /// Looks at the slot at which the worker is.
    ///
    /// Open exactly if the slot is open: the worker is inside then. Invalid exactly if its task
    /// set is shut or being finalised, and Vacant exactly if it is empty or reserved.
    ///
    /// Allowed at Entered; see `docs/PROTOCOL.md`.
    fn look<L: Ledger>(&mut self, steps: &mut Steps<L>) -> Look
        requires place { (s : ℕ) × (own_place (seen self.old) ≡ Entered s) }
        ensures made { Makes B.total (look_act result) (seen self.old) (seen self.new) }
        ensures task_set { SeesTaskSet (totals_of B.total (seen self.old)) result }
        ensures ticks { steps.new ≡ steps.old + 1 };

    /// Claims up to n tuples of the task set with which the worker is inside.
    ///
    /// Exhausted exactly if every tuple was claimed before. A range is cut at the total, and lies
    /// past all that this worker claimed of the task set before. The cursor is at most
    /// `total + (workers + 1) * 65536`.
    ///
    /// Allowed at Inside; see `docs/PROTOCOL.md`.
    fn claim<L: Ledger>(&mut self, n: u32, steps: &mut Steps<L>) -> Claim
        requires place { (s id : ℕ) × (own_place (seen self.old) ≡ Inside s id) }
        requires number { (0 < n) × (n ≤ MOST_CLAIM) }
        ensures made { Makes B.total (claim_act n result) (seen self.old) (seen self.new) }
        ensures range { IsCutRange (own_total B.total (seen self.old)) n result }
        ensures past { LiesPast (own_ranges (seen self.old)) result }
        ensures spent { Owns ClaimGives (seen self.new) result }
        ensures ticks { steps.new ≡ steps.old + 1 };

    /// Shuts the task set that was found used up. Won exactly if it was not shut before.
    ///
    /// Allowed at Used, where the claim that answered Exhausted left the worker; see
    /// `docs/PROTOCOL.md`.
    fn shut<L: Ledger>(&mut self, spent: Spent, steps: &mut Steps<L>) -> Shut
        requires spent { Owns IsSpent (seen self.old) spent }
        ensures made { Makes B.total (shut_act result) (seen self.old) (seen self.new) }
        ensures first { Owns ShutGives (seen self.new) result }
        ensures ticks { steps.new ≡ steps.old + 1 };

    /// Leaves the slot.
    ///
    /// Owe exactly if the worker was marked at this slot and has not paid since; whoever shut the
    /// task set never is. If the worker was inside, its own cell has to be in the table, with a
    /// value that fits its ranges.
    ///
    /// Allowed at Astray, Inside, Behind and Leading; see `docs/PROTOCOL.md`.
    fn leave<L: Ledger>(&mut self, steps: &mut Steps<L>) -> Leave
        requires place { can_leave (own_place (seen self.old)) ≡ true }
        requires cell { LeavesKept (caller_of (seen self.old)) }
        ensures made { Makes B.total (leave_act result) (seen self.old) (seen self.new) }
        ensures task_set { OwesTaskSet (totals_of B.total (seen self.old)) result }
        ensures coordinator { LeaderOwesNothing (seen self.old) result }
        ensures debt { Owns LeaveGives (seen self.new) result }
        ensures ticks { steps.new ≡ steps.old + 1 };

    /// Asks the next worker in ascending order, the coordinator left out. Marked exactly if that
    /// worker is at the slot.
    ///
    /// Allowed at Asking while not all others were asked; see `docs/PROTOCOL.md`.
    fn mark_next<L: Ledger>(&mut self, coordinator: &mut Coordinator, steps: &mut Steps<L>) -> Mark
        requires coordinator { Owns IsCoordinator (seen self.old) coordinator.old }
        requires unasked { coordinator.old.asked + 1 < (seen self.old).desk.shape.workers }
        ensures made { Makes B.total (mark_act result) (seen self.old) (seen self.new) }
        ensures counts { coordinator.new ≡ marked_coordinator result coordinator.old }
        ensures coordinator { Owns IsCoordinator (seen self.new) coordinator.new }
        ensures ticks { steps.new ≡ steps.old + 1 };

    /// Ends the asking.
    ///
    /// Last exactly if no marked worker has to pay any more; else Others with their number.
    ///
    /// Allowed at Asking once all others were asked; see `docs/PROTOCOL.md`.
    fn sweep<L: Ledger>(&mut self, coordinator: Coordinator, steps: &mut Steps<L>) -> Sweep
        requires coordinator { Owns IsCoordinator (seen self.old) coordinator }
        requires asked { coordinator.asked + 1 ≡ (seen self.old).desk.shape.workers }
        ensures made { Makes B.total (sweep_act result) (seen self.old) (seen self.new) }
        ensures holder { Owns SweepGives (seen self.new) result }
        ensures ticks { steps.new ≡ steps.old + 1 };

    /// Pays what a leave answered.
    ///
    /// Last exactly if the slot was swept and no other marked worker has to pay.
    ///
    /// Allowed at Owing; see `docs/PROTOCOL.md`.
    fn pay<L: Ledger>(&mut self, debt: Debt, steps: &mut Steps<L>) -> Pay
        requires debt { Owns IsDebt (seen self.old) debt }
        ensures made { Makes B.total (pay_act result) (seen self.old) (seen self.new) }
        ensures holder { Owns PayGives (seen self.new) result }
        ensures ticks { steps.new ≡ steps.old + 1 };

    /// Reserves slot s.
    ///
    /// Got exactly if it was empty; else Taken with its word: 1 if it is reserved,
    /// `(id + 1) * 4 + 2` if it is open, and that plus 1 if it is shut or being finalised.
    ///
    /// Allowed at Free; see `docs/PROTOCOL.md`.
    fn reserve<L: Ledger>(&mut self, s: u32, steps: &mut Steps<L>) -> Reserve
        requires place { own_place (seen self.old) ≡ Free }
        requires slot { s < (seen self.old).desk.shape.slots }
        ensures made { Makes B.total (reserve_act s result) (seen self.old) (seen self.new) }
        ensures holder { Owns ReserveGives (seen self.new) result }
        ensures ticks { steps.new ≡ steps.old + 1 };

    /// Admits query q for the slot that is held.
    ///
    /// Got exactly if the number of admitted queries was q; else Lost with that number.
    ///
    /// Allowed at Holding while the holder has no query; see `docs/PROTOCOL.md`.
    fn admit<L: Ledger>(&mut self, holder: &mut Holder, q: u32, steps: &mut Steps<L>) -> Admit
        requires holder { Owns IsHolder (seen self.old) holder.old }
        requires none { holder.old.query ≡ None }
        requires query { q < (seen self.old).desk.shape.queries }
        ensures made { Makes B.total (admit_act q result) (seen self.old) (seen self.new) }
        ensures query { holder.new ≡ admitted_holder q result holder.old }
        ensures holder { Owns IsHolder (seen self.new) holder.new }
        ensures ticks { steps.new ≡ steps.old + 1 };

    /// The number of admitted queries. Allowed at every place; see `docs/PROTOCOL.md`.
    fn arrivals<L: Ledger>(&mut self, steps: &mut Steps<L>) -> u32
        ensures made { Makes B.total (Arrivals result) (seen self.old) (seen self.new) }
        ensures ticks { steps.new ≡ steps.old + 1 };

    /// The number of task sets that were noted as done.
    ///
    /// Allowed at every place; see `docs/PROTOCOL.md`.
    fn finished<L: Ledger>(&mut self, steps: &mut Steps<L>) -> u32
        ensures made { Makes B.total (Finished result) (seen self.old) (seen self.new) }
        ensures ticks { steps.new ≡ steps.old + 1 };

    /// Notes k task sets as done: of a query at stage s, 1 to `8 - s`.
    ///
    /// Allowed at Holding with a query, at most once in a holding; see `docs/PROTOCOL.md`.
    fn note_done<L: Ledger>(&mut self, holder: &mut Holder, k: u32, steps: &mut Steps<L>)
        requires holder { Owns IsHolder (seen self.old) holder.old }
        requires query { IsSome holder.old.query }
        requires once { (own_holding (seen self.old)).noted ≡ 0 }
        requires number { (0 < k) × (holder.old.stage + k ≤ STAGES) }
        ensures made { Makes B.total (NoteDone k) (seen self.old) (seen self.new) }
        ensures same { holder.new ≡ holder.old }
        ensures holder { Owns IsHolder (seen self.new) holder.new }
        ensures ticks { steps.new ≡ steps.old + 1 };

    /// Sets the total, in tuples, of the task set that will be installed; its cursor is 0.
    ///
    /// Allowed at Holding with a query; see `docs/PROTOCOL.md`.
    fn set_total<L: Ledger>(&mut self, holder: &mut Holder, total: u32, steps: &mut Steps<L>)
        requires holder { Owns IsHolder (seen self.old) holder.old }
        requires query { IsSome holder.old.query }
        requires number { total ≤ MOST_TOTAL }
        ensures made { Makes B.total (SetTotal total) (seen self.old) (seen self.new) }
        ensures same { holder.new ≡ holder.old }
        ensures holder { Owns IsHolder (seen self.new) holder.new }
        ensures ticks { steps.new ≡ steps.old + 1 };

    /// Opens the slot with a task set of the subject.
    ///
    /// After a reservation that is stage 0 of the query, and after the finalisation of a task set
    /// that was noted the next stage. Every cell has to hold a fresh value.
    ///
    /// Allowed at Holding once the total was set; see `docs/PROTOCOL.md`.
    fn install<L: Ledger>(&mut self, holder: Holder, id: u32, steps: &mut Steps<L>) -> Announcer
        requires holder { Owns IsHolder (seen self.old) holder }
        requires ready { IsReady (own_holding (seen self.old)) }
        requires id { id ≡ next_id (own_holding (seen self.old)) }
        requires total { InstallsOf (totals_of B.total (seen self.old)) (Install id)
            (own_holding (seen self.old)).total }
        requires cells { HasNoted Fresh (caller_of (seen self.old)) }
        ensures made { Makes B.total (Install id) (seen self.old) (seen self.new) }
        ensures announcer { Owns IsAnnouncer (seen self.new) result }
        ensures ticks { steps.new ≡ steps.old + 1 };

    /// Gives the slot back: it is empty. No cell may hold a value.
    ///
    /// Allowed at Holding without a query, or once the holding noted a task set as done; see
    /// `docs/PROTOCOL.md`.
    fn release<L: Ledger>(&mut self, holder: Holder, steps: &mut Steps<L>)
        requires holder { Owns IsHolder (seen self.old) holder }
        requires noted { (holder.query ≡ None) ⊎ (0 < (own_holding (seen self.old)).noted) }
        requires cells { HasNoted Empty (caller_of (seen self.old)) }
        ensures made { Makes B.total Release (seen self.old) (seen self.new) }
        ensures ticks { steps.new ≡ steps.old + 1 };

    /// Tells the next worker, from 0 upwards and this one included.
    ///
    /// That worker has a notice of the slot pending then: a change notice after a reservation, and
    /// a return notice after a finalisation.
    ///
    /// Allowed at Announcing while not all were told; the worker is Free after the last. See
    /// `docs/PROTOCOL.md`.
    fn announce<L: Ledger>(&mut self, announcer: &mut Announcer, steps: &mut Steps<L>)
        requires announcer { Owns IsAnnouncer (seen self.old) announcer.old }
        requires untold { announcer.old.told < (seen self.old).desk.shape.workers }
        ensures made { Makes B.total Announce (seen self.old) (seen self.new) }
        ensures told { announcer.new ≡ record announcer.old { told = announcer.old.told + 1 } }
        ensures announcer { announcer.new.told < (seen self.old).desk.shape.workers
            → Owns IsAnnouncer (seen self.new) announcer.new }
        ensures done { announcer.new.told ≡ (seen self.old).desk.shape.workers
            → IsDone (seen self.new) announcer.new }
        ensures ticks { steps.new ≡ steps.old + 1 };

    /// Ends the announcing. It makes no step.
    ///
    /// Allowed at Free, with the announcer of the worker's last install, once every worker was
    /// told; see `docs/PROTOCOL.md`.
    fn told_all(&mut self, announcer: Announcer)
        requires done { IsDone (seen self.old) announcer }
        ensures { seen self.new ≡ seen self.old };

    /// Takes the pending return notices of slots `64 * part` to `64 * part + 63`, as bits. None of
    /// them is pending then.
    ///
    /// Allowed at every place; see `docs/PROTOCOL.md`.
    fn take_return<L: Ledger>(&mut self, part: u32, steps: &mut Steps<L>) -> u64
        requires part { part < PARTS }
        ensures made { Makes B.total (TakeReturn part result) (seen self.old) (seen self.new) }
        ensures slots { NamesSlots (seen self.old).desk.shape.slots part result }
        ensures ticks { steps.new ≡ steps.old + 1 };

    /// Takes the pending change notices of slots `64 * part` to `64 * part + 63`, as bits. None of
    /// them is pending then.
    ///
    /// Allowed at every place; see `docs/PROTOCOL.md`.
    fn take_change<L: Ledger>(&mut self, part: u32, steps: &mut Steps<L>) -> u64
        requires part { part < PARTS }
        ensures made { Makes B.total (TakeChange part result) (seen self.old) (seen self.new) }
        ensures slots { NamesSlots (seen self.old).desk.shape.slots part result }
        ensures ticks { steps.new ≡ steps.old + 1 };

    /// Exchanges the cell of a worker at the slot that is held, and answers the old value.
    ///
    /// The old value is as the cell's note says. A value that is put fits the task set that may be
    /// installed next, and no ranges.
    ///
    /// Allowed at Holding; see `docs/PROTOCOL.md`.
    fn cell<L: Ledger>(
        &mut self,
        holder: &mut Holder,
        worker: u32,
        new: Option<B>,
        steps: &mut Steps<L>,
    ) -> Option<B>
        requires holder { Owns IsHolder (seen self.old) holder.old }
        requires worker { worker < (seen self.old).desk.shape.workers }
        requires fits { IfSome new (NextFits B.fits (seen self.old) worker) }
        ensures says { CellSays B.fits (seen self.old) worker result }
        ensures put { Exchanges worker (fresh_note new) (seen self.old) (seen self.new) }
        ensures same { holder.new ≡ holder.old }
        ensures ticks { steps.new ≡ steps.old + 1 };

    /// Exchanges the worker's own cell of the slot that it is inside, and answers the old value.
    ///
    /// The old value is as the cell's note says. A value that is put fits the ranges that the
    /// worker claimed of the task set.
    ///
    /// Allowed at Inside, Used, Behind and Leading; see `docs/PROTOCOL.md`.
    fn own_cell<L: Ledger>(&mut self, new: Option<B>, steps: &mut Steps<L>) -> Option<B>
        requires place { has_cell (own_place (seen self.old)) ≡ true }
        requires fits { IfSome new (OwnFits B.fits (seen self.old)) }
        ensures says { OwnCellSays B.fits (seen self.old) result }
        ensures put { ExchangesOwn (kept_note new) (seen self.old) (seen self.new) }
        ensures ticks { steps.new ≡ steps.old + 1 };

    // The numbers of every station are in range, and its queries are the subject's.
    ghost sound: { (station : Self) → IsDesk B.queries (seen station).desk };
}
