//! The station of one worker over the shared board.
ghost use Rattle.std.specs.Prelude.{◌≡◌, ◌+◌, ◌<◌, true, IfSome};
ghost use Rattle.std.proofs.Props.{props};
ghost use Rattle.std.specs.Coded.{Coded-set, coded_option};
ghost use Rattle.slot_station.specs.Cells.{has_cell, kept_note, fresh_note};
ghost use Rattle.slot_station.specs.Desks.{own_place, Owns, Exchanges, ExchangesOwn, OwnFits};
ghost use Rattle.slot_station.specs.Desks.{NextFits, OwnCellSays, CellSays};
ghost use Rattle.slot_station.specs.Tokens.{IsHolder};
ghost use Rattle.board_rule.specs.Passes.{IsPassOf, seen_of, board_shape, board_subject};

use crate::{fill, notices};
use board_finish::finish;
use board_rule::board::{Board, Pass};
use board_visit::visit;
use slot_history::place::Place;
use slot_history::shape::Shape;
use slot_station::reply::{Admit, Claim, Leave, Look, Mark, Pay, Reserve, Shut, Sweep};
use slot_station::station::{Fits, Station};
use slot_station::steps::Steps;
use slot_station::token::{Announcer, Coordinator, Debt, Holder, Spent};
use std::snapshot::Snapshot;
use std::sync::ledger::Ledger;

/// What a board serves, for contracts alone: its shape has as many queries as its subject.
#[derive(Drop)]
struct Served<B: Fits> {
    shape: Snapshot<Shape>,
    subject: Snapshot<B::Subject>,
    ghost queries: { shape.value.queries ≡ B.queries subject.value },
}

/// The station of one worker over a board. The pass is of the board, which has as many queries as
/// its subject.
#[derive(Drop)]
pub struct BoardSeat<'a, B: Fits> {
    pub board: &'a Board<B>,
    pub pass: Pass<B>,
    serves: Served<B>,
    ghost ours: { IsPassOf board.now pass } by { Prim.hlevel (props, Coded-set (coded_option B.Subject.code)) },
    ghost shape: { serves.shape.value ≡ board_shape board.now },
    ghost subject: { serves.subject.value ≡ board_subject board.now } by { Prim.hlevel (props, Coded-set B.Subject.code) },
}

impl<'a, B: Fits> BoardSeat<'a, B> {
    /// The station of the worker whose pass this is. `subject` is what the board serves, for
    /// contracts alone.
    pub fn new(
        board: &'a Board<B>,
        pass: Pass<B>,
        subject: Snapshot<B::Subject>,
    ) -> BoardSeat<'a, B>
        requires pass { IsPassOf board.now pass }
        requires subject { subject.value ≡ board_subject board.now }
        requires queries { (board_shape board.now).queries ≡ B.queries subject.value }
        ensures board { result.board.now ≡ board.now }
        ensures pass { result.pass ≡ pass }
    {
        let shape = Snapshot::of(&board.shape);
        let serves = Served { shape, subject };
        BoardSeat {
            board,
            pass,
            serves,
        }
    }

    /// Where the worker is. It says which calls are allowed.
    pub fn place(&self) -> Place
        ensures { result ≡ own_place (seen_of self.now.board.now self.now.pass) }
    {
        self.pass.place
    }

    /// The pass, for the end of the board.
    pub fn into_pass(self) -> Pass<B>
        ensures same { result ≡ self.entry.pass }
        ensures pass { IsPassOf self.entry.board.now result }
    {
        let BoardSeat {
            board: _,
            pass,
            serves,
        } = self;
        drop(serves);
        pass
    }
}

impl<'a, B: Fits> Station<B> for BoardSeat<'a, B> {
    ghost use Rattle.std.proofs.Common.{◌∙◌, ap, sym, subst};
    ghost use Rattle.slot_history.specs.Bounds.{IsShape};
    ghost use Rattle.board_rule.specs.declared.board.Board as shared;

    ghost Origin = { shared.Board B B.Subject };

    ghost seen = { λ seat. seen_of seat.board.now seat.pass };

    fn worker(&self) -> u32 {
        self.pass.worker
    }

    fn workers(&self) -> u32 {
        self.board.shape.workers
    }

    fn slots(&self) -> u32 {
        self.board.shape.slots
    }

    fn enter<L: Ledger>(&mut self, s: u32, steps: &mut Steps<L>) {
        visit::enter(self.board, &mut self.pass, s, steps);
    }

    fn look<L: Ledger>(&mut self, steps: &mut Steps<L>) -> Look {
        visit::look(self.board, &mut self.pass, steps)
    }

    fn claim<L: Ledger>(&mut self, n: u32, steps: &mut Steps<L>) -> Claim {
        visit::claim(self.board, &mut self.pass, n, steps)
    }

    fn shut<L: Ledger>(&mut self, spent: Spent, steps: &mut Steps<L>) -> Shut {
        finish::shut(self.board, &mut self.pass, spent, steps)
    }

    fn leave<L: Ledger>(&mut self, steps: &mut Steps<L>) -> Leave {
        visit::leave(self.board, &mut self.pass, steps)
    }

    fn mark_next<L: Ledger>(
        &mut self,
        coordinator: &mut Coordinator,
        steps: &mut Steps<L>,
    ) -> Mark {
        finish::mark_next(self.board, &mut self.pass, coordinator, steps)
    }

    fn sweep<L: Ledger>(&mut self, coordinator: Coordinator, steps: &mut Steps<L>) -> Sweep {
        finish::sweep(self.board, &mut self.pass, coordinator, steps)
    }

    fn pay<L: Ledger>(&mut self, debt: Debt, steps: &mut Steps<L>) -> Pay {
        finish::pay(self.board, &mut self.pass, debt, steps)
    }

    fn reserve<L: Ledger>(&mut self, s: u32, steps: &mut Steps<L>) -> Reserve {
        fill::reserve(self.board, &mut self.pass, s, steps)
    }

    fn admit<L: Ledger>(&mut self, holder: &mut Holder, q: u32, steps: &mut Steps<L>) -> Admit {
        fill::admit(self.board, &mut self.pass, holder, q, steps)
    }

    fn arrivals<L: Ledger>(&mut self, steps: &mut Steps<L>) -> u32 {
        notices::arrivals(self.board, &mut self.pass, steps)
    }

    fn finished<L: Ledger>(&mut self, steps: &mut Steps<L>) -> u32 {
        notices::finished(self.board, &mut self.pass, steps)
    }

    fn note_done<L: Ledger>(&mut self, holder: &mut Holder, k: u32, steps: &mut Steps<L>) {
        fill::note_done(self.board, &mut self.pass, holder, k, steps);
    }

    fn set_total<L: Ledger>(&mut self, holder: &mut Holder, total: u32, steps: &mut Steps<L>) {
        fill::set_total(self.board, &mut self.pass, holder, total, steps);
    }

    fn install<L: Ledger>(&mut self, holder: Holder, id: u32, steps: &mut Steps<L>) -> Announcer {
        fill::install(self.board, &mut self.pass, holder, id, steps)
    }

    fn release<L: Ledger>(&mut self, holder: Holder, steps: &mut Steps<L>) {
        fill::release(self.board, &mut self.pass, holder, steps);
    }

    fn announce<L: Ledger>(&mut self, announcer: &mut Announcer, steps: &mut Steps<L>) {
        notices::announce(self.board, &mut self.pass, announcer, steps);
    }

    fn told_all(&mut self, _announcer: Announcer) {}

    fn take_return<L: Ledger>(&mut self, part: u32, steps: &mut Steps<L>) -> u64 {
        notices::take_return(self.board, &mut self.pass, part, steps)
    }

    fn take_change<L: Ledger>(&mut self, part: u32, steps: &mut Steps<L>) -> u64 {
        notices::take_change(self.board, &mut self.pass, part, steps)
    }

    fn cell<L: Ledger>(
        &mut self,
        holder: &mut Holder,
        worker: u32,
        new: Option<B>,
        steps: &mut Steps<L>,
    ) -> Option<B>
        requires holder { Owns IsHolder
            (⟦<BoardSeat<'a, B> as Station<B>>⟧.seen self.old) holder.old }
        requires worker { worker
            < (⟦<BoardSeat<'a, B> as Station<B>>⟧.seen self.old).desk.shape.workers }
        requires fits { IfSome new (NextFits B.fits
            (⟦<BoardSeat<'a, B> as Station<B>>⟧.seen self.old) worker) }
        ensures says { CellSays B.fits
            (⟦<BoardSeat<'a, B> as Station<B>>⟧.seen self.old) worker result }
        ensures put { Exchanges worker (fresh_note new)
            (⟦<BoardSeat<'a, B> as Station<B>>⟧.seen self.old)
            (⟦<BoardSeat<'a, B> as Station<B>>⟧.seen self.new) }
        ensures same { holder.new ≡ holder.old }
        ensures ticks { steps.new ≡ steps.old + 1 }
    {
        finish::cell(self.board, &mut self.pass, holder, worker, new, steps)
    }

    fn own_cell<L: Ledger>(&mut self, new: Option<B>, steps: &mut Steps<L>) -> Option<B>
        requires place { has_cell (own_place
            (⟦<BoardSeat<'a, B> as Station<B>>⟧.seen self.old)) ≡ true }
        requires fits { IfSome new (OwnFits B.fits
            (⟦<BoardSeat<'a, B> as Station<B>>⟧.seen self.old)) }
        ensures says { OwnCellSays B.fits
            (⟦<BoardSeat<'a, B> as Station<B>>⟧.seen self.old) result }
        ensures put { ExchangesOwn (kept_note new)
            (⟦<BoardSeat<'a, B> as Station<B>>⟧.seen self.old)
            (⟦<BoardSeat<'a, B> as Station<B>>⟧.seen self.new) }
        ensures ticks { steps.new ≡ steps.old + 1 }
    {
        visit::own_cell(self.board, &mut self.pass, new, steps)
    }

    ghost sound = { λ seat. record {
      shape_is = subst IsShape (sym seat.board.now.shape_is) seat.board.now.bounded;
      below = seat.ours.1;
      queries_are = sym (ap (λ d. d.queries) seat.shape)
          ∙ (seat.serves.queries ∙ ap B.queries seat.subject);
    } };
}
