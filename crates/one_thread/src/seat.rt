//! The station of one worker over a table for one thread.
ghost use Rattle.std.specs.Prelude.{◌≡◌, ◌≢◌, ℕ, ◌+◌, ◌<◌, ◌≤◌, true, IfSome};
ghost use Rattle.std.proofs.Common.{subst};
ghost use Rattle.std.specs.Coded.{Coded-set};
ghost use Rattle.slot_history.specs.Bounds.{IsShape};
ghost use Rattle.slot_station.specs.Cells.{has_cell, kept_note, fresh_note};
ghost use Rattle.slot_station.specs.Desks.{own_place, Owns, Exchanges, ExchangesOwn, OwnFits};
ghost use Rattle.slot_station.specs.Desks.{NextFits, OwnCellSays, CellSays};
ghost use Rattle.one_thread.specs.Seats.{IsSince, SeatOrigin, desk_over, seen_by, shown_by};
ghost use Rattle.slot_station.specs.Tokens.{IsHolder};

use crate::object::SlotObject;
use crate::table::OneTable;
use slot_history::place::Place;
use slot_station::answers::cell_index;
use slot_station::log::Exchange;
use slot_station::moves::slot_at;
use slot_station::note::{fresh_for, kept_for};
use slot_station::reply::{Admit, Claim, Leave, Look, Mark, Pay, Reserve, Shut, Sweep};
use slot_station::station::{Fits, Station};
use slot_station::steps::Steps;
use slot_station::token::{Announcer, Coordinator, Debt, Holder, Spent};
use std::mem;
use std::snapshot::Snapshot;
use std::sync::ledger::Ledger;

/// The station of one worker, while it borrows the table. When it ends, the table is as the seat
/// left it.
pub struct OneSeat<'a, B: Fits, O: SlotObject> {
    pub table: &'a mut OneTable<B, O>,
    pub worker: u32,
    /// The table as it was when the seat was made, for contracts alone.
    pub start: Snapshot<OneTable<B, O>>,
    ghost below: { worker < table.now.shape.workers },
    ghost limits: { IsShape start.value.shape },
    ghost queries: { start.value.shape.queries ≡ B.queries start.value.subject },
    ghost shape: { table.now.shape ≡ start.value.shape },
    ghost subject: { table.now.subject ≡ start.value.subject } by { Coded-set B.Subject.code _ _ },
    ghost since: { ∥ IsSince start.value table.now worker ∥₁ },
}

impl<B: Fits, O: SlotObject> OneTable<B, O> {
    /// The station of one worker.
    pub fn seat(&mut self, worker: u32) -> OneSeat<'_, B, O>
        requires { worker < self.old.shape.workers }
        ensures same { result.table.ghost_name ≡ self.entry.ghost_name }
        ensures table { result.table.now ≡ self.old }
        ensures start { result.start.value ≡ self.old }
        ensures worker { result.worker ≡ worker }
    {
        let _ = self.object.shape();
        let start = Snapshot::of(&*self);
        OneSeat {
            table: self,
            worker,
            start,
        }
    }
}

impl<B: Fits, O: SlotObject> Drop for OneSeat<'_, B, O> {
    fn drop(self)
        ensures { self.exit.0.now ≡ self.entry.table.now }
    {
        let OneSeat {
            table: _,
            worker: _,
            start: _,
        } = self;
    }
}

impl<B: Fits, O: SlotObject> OneSeat<'_, B, O> {
    /// Where the worker is. It tells which calls are allowed.
    pub fn place(&self) -> Place
        ensures { result ≡ own_place (shown_by
            (desk_over self.now.start.value self.now.worker) self.now.table.now.log) }
    {
        let table = &*self.table;
        table.object.place(self.worker)
    }
}

#[tactic(auto, using(crate::proofs::Since::since_grows))]
impl<'a, B: Fits, O: SlotObject> Station<B> for OneSeat<'a, B, O> {
    ghost Origin = { SeatOrigin B.Subject };

    ghost seen = { λ seat. seen_by (record {
      name = seat.table.ghost_name;
      start = seat.start.value;
      worker = seat.worker;
    }) (desk_over seat.start.value seat.worker) seat.table.now.log };

    fn worker(&self) -> u32 {
        self.worker
    }

    fn workers(&self) -> u32 {
        let table = &*self.table;
        table.object.shape().workers
    }

    fn slots(&self) -> u32 {
        let table = &*self.table;
        table.object.shape().slots
    }

    fn enter<L: Ledger>(&mut self, s: u32, steps: &mut Steps<L>) {
        steps.tick();
        let worker = self.worker;
        let table = &mut *self.table;
        table.object.enter(worker, s);
    }

    fn look<L: Ledger>(&mut self, steps: &mut Steps<L>) -> Look {
        steps.tick();
        let worker = self.worker;
        let table = &mut *self.table;
        table.object.look(worker)
    }

    fn claim<L: Ledger>(&mut self, n: u32, steps: &mut Steps<L>) -> Claim {
        steps.tick();
        let worker = self.worker;
        let table = &mut *self.table;
        table.object.claim(worker, n)
    }

    fn shut<L: Ledger>(&mut self, _spent: Spent, steps: &mut Steps<L>) -> Shut {
        steps.tick();
        let worker = self.worker;
        let table = &mut *self.table;
        table.object.shut(worker)
    }

    fn leave<L: Ledger>(&mut self, steps: &mut Steps<L>) -> Leave {
        steps.tick();
        let worker = self.worker;
        let table = &mut *self.table;
        table.object.leave(worker)
    }

    fn mark_next<L: Ledger>(
        &mut self,
        coordinator: &mut Coordinator,
        steps: &mut Steps<L>,
    ) -> Mark {
        steps.tick();
        let worker = self.worker;
        let table = &mut *self.table;
        let mark = table.object.mark_next(worker);
        coordinator.count(mark);
        mark
    }

    fn sweep<L: Ledger>(&mut self, _coordinator: Coordinator, steps: &mut Steps<L>) -> Sweep {
        steps.tick();
        let worker = self.worker;
        let table = &mut *self.table;
        table.object.sweep(worker)
    }

    fn pay<L: Ledger>(&mut self, _debt: Debt, steps: &mut Steps<L>) -> Pay {
        steps.tick();
        let worker = self.worker;
        let table = &mut *self.table;
        table.object.pay(worker)
    }

    fn reserve<L: Ledger>(&mut self, s: u32, steps: &mut Steps<L>) -> Reserve {
        steps.tick();
        let worker = self.worker;
        let table = &mut *self.table;
        table.object.reserve(worker, s)
    }

    fn admit<L: Ledger>(&mut self, holder: &mut Holder, q: u32, steps: &mut Steps<L>) -> Admit {
        steps.tick();
        let worker = self.worker;
        let table = &mut *self.table;
        let admit = table.object.admit(worker, q);
        holder.admit(q, admit);
        admit
    }

    fn arrivals<L: Ledger>(&mut self, steps: &mut Steps<L>) -> u32 {
        steps.tick();
        let worker = self.worker;
        let table = &mut *self.table;
        table.object.arrivals(worker)
    }

    fn finished<L: Ledger>(&mut self, steps: &mut Steps<L>) -> u32 {
        steps.tick();
        let worker = self.worker;
        let table = &mut *self.table;
        table.object.finished(worker)
    }

    fn note_done<L: Ledger>(&mut self, _holder: &mut Holder, k: u32, steps: &mut Steps<L>) {
        steps.tick();
        let worker = self.worker;
        let table = &mut *self.table;
        table.object.note_done(worker, k);
    }

    fn set_total<L: Ledger>(&mut self, _holder: &mut Holder, total: u32, steps: &mut Steps<L>) {
        steps.tick();
        let worker = self.worker;
        let table = &mut *self.table;
        table.object.set_total(worker, total);
    }

    fn install<L: Ledger>(&mut self, _holder: Holder, id: u32, steps: &mut Steps<L>) -> Announcer {
        steps.tick();
        let worker = self.worker;
        let table = &mut *self.table;
        table.object.install(worker, id)
    }

    fn release<L: Ledger>(&mut self, _holder: Holder, steps: &mut Steps<L>) {
        steps.tick();
        let worker = self.worker;
        let table = &mut *self.table;
        table.object.release(worker);
    }

    fn announce<L: Ledger>(&mut self, announcer: &mut Announcer, steps: &mut Steps<L>) {
        steps.tick();
        let worker = self.worker;
        let table = &mut *self.table;
        table.object.announce(worker);
        announcer.told += 1;
    }

    fn told_all(&mut self, _announcer: Announcer) {}

    fn take_return<L: Ledger>(&mut self, part: u32, steps: &mut Steps<L>) -> u64 {
        steps.tick();
        let worker = self.worker;
        let table = &mut *self.table;
        table.object.take_return(worker, part)
    }

    fn take_change<L: Ledger>(&mut self, part: u32, steps: &mut Steps<L>) -> u64 {
        steps.tick();
        let worker = self.worker;
        let table = &mut *self.table;
        table.object.take_change(worker, part)
    }

    fn cell<L: Ledger>(
        &mut self,
        holder: &mut Holder,
        worker: u32,
        new: Option<B>,
        steps: &mut Steps<L>,
    ) -> Option<B>
        requires holder { Owns IsHolder
            (⟦<OneSeat<'a, B, O> as Station<B>>⟧.seen self.old) holder.old }
        requires worker { worker
            < (⟦<OneSeat<'a, B, O> as Station<B>>⟧.seen self.old).desk.shape.workers }
        requires fits { IfSome new (NextFits B.fits
            (⟦<OneSeat<'a, B, O> as Station<B>>⟧.seen self.old) worker) }
        ensures says { CellSays B.fits
            (⟦<OneSeat<'a, B, O> as Station<B>>⟧.seen self.old) worker result }
        ensures put { Exchanges worker (fresh_note new)
            (⟦<OneSeat<'a, B, O> as Station<B>>⟧.seen self.old)
            (⟦<OneSeat<'a, B, O> as Station<B>>⟧.seen self.new) }
        ensures same { holder.new ≡ holder.old }
        ensures ticks { steps.new ≡ steps.old + 1 }
    {
        steps.tick();
        let own = self.worker;
        let table = &mut *self.table;
        let note = fresh_for(&new);
        let at = cell_index(&table.object.shape(), holder.slot, worker);
        let old = mem::replace(&mut table.cells[at], new);
        table.object.exchanged(Exchange {
            worker: own,
            cell: worker,
            note,
        });
        old
    }

    fn own_cell<L: Ledger>(&mut self, new: Option<B>, steps: &mut Steps<L>) -> Option<B>
        requires place { has_cell (own_place
            (⟦<OneSeat<'a, B, O> as Station<B>>⟧.seen self.old)) ≡ true }
        requires fits { IfSome new (OwnFits B.fits
            (⟦<OneSeat<'a, B, O> as Station<B>>⟧.seen self.old)) }
        ensures says { OwnCellSays B.fits
            (⟦<OneSeat<'a, B, O> as Station<B>>⟧.seen self.old) result }
        ensures put { ExchangesOwn (kept_note new)
            (⟦<OneSeat<'a, B, O> as Station<B>>⟧.seen self.old)
            (⟦<OneSeat<'a, B, O> as Station<B>>⟧.seen self.new) }
        ensures ticks { steps.new ≡ steps.old + 1 }
    {
        steps.tick();
        let worker = self.worker;
        let table = &mut *self.table;
        let note = kept_for(&new);
        let slot = slot_at(&table.object.place(worker));
        let at = cell_index(&table.object.shape(), slot, worker);
        let old = mem::replace(&mut table.cells[at], new);
        table.object.exchanged(Exchange {
            worker,
            cell: worker,
            note,
        });
        old
    }

    ghost sound = { λ seat. record {
      shape_is = seat.limits;
      below = subst (λ d. seat.worker < d.workers) seat.shape seat.below;
      queries_are = seat.queries;
    } };
}
