//! Exchanges of cells: a load takes a cell out of the table, the seat exchanges it, and a load
//! gives it back.
ghost use Rattle.std.specs.Prelude.{◌≡◌, ◌<◌, ◌+◌, ℕ, IfSome};
ghost use Rattle.atomic_table.specs.Table.{Allows};
ghost use Rattle.slot_station.specs.Desks.{Exchanges, caller_of, own_place};
ghost use Rattle.slot_station.specs.Exchanges.{HoldsNoted, MayExchange, MayPut, put_note};
ghost use Rattle.board_rule.specs.Cells.{Takes};
ghost use Rattle.board_rule.specs.Passes.{HasExchanged, IsPassOf, seen_of};
ghost use Rattle.board_rule.specs.Rule.{RunningRule, terms_of};

use crate::board::{Board, Pass};
use crate::rule::{Giving, NamesCell, Taking};
use crate::view::View;
use atomic_table::Seat;
use slot_station::answers::cell_index;
use slot_station::moves::slot_at;
use slot_station::station::Fits;
use slot_station::steps::Steps;
use std::marker::Brand;
use std::sync::ledger::Ledger;

/// Takes the cell of a worker out of the table, which the caller picks.
fn take_cell<K: NamesCell, B: Fits>(
    board: &Board<B>,
    seat: &mut Seat<Option<B>, View<B::Subject>>,
    cell: u32,
)
    requires named { cell ≡ K.cell }
    requires table { seat.old.table_id ≡ board.now.table.shared.table_id }
    requires words { 0 < board.now.table.shared.table_id.words }
    requires step { let shared = board.now.table.shared in
        let rule = RunningRule (terms_of B.total B.fits shared.key) in
        Allows rule shared.table_id.slots seat.old.id seat.old.me 0 (λ n. n)
        (λ _ new. Takes B.fits cell seat.old.me new) }
    ensures same { (seat.new.table_id ≡ seat.old.table_id) × (seat.new.id ≡ seat.old.id) }
    ensures takes { Takes B.fits cell seat.old.me seat.new.me }
{
    board.table.shared.load::<Taking<K>>(seat, 0);
}

/// Exchanges the cell of a worker that this pass's worker has: its own while it is inside, or any
/// of the slot that it holds. It answers the old value, which is as the cell's note says. It is
/// exactly one exchange, of exactly this cell, and counts as one step.
pub fn exchange_cell<B: Fits, L: Ledger>(
    board: &Board<B>,
    pass: &mut Pass<B>,
    cell: u32,
    new: Option<B>,
    steps: &mut Steps<L>,
) -> Option<B>
    requires pass { IsPassOf board.now pass.old }
    requires has { MayExchange (caller_of (seen_of board.now pass.old)) cell }
    requires fits { IfSome new (MayPut (seen_of board.now pass.old) cell B.fits) }
    ensures pass { IsPassOf board.now pass.new }
    ensures says { HoldsNoted (seen_of board.now pass.old) cell B.fits result }
    ensures put { let seen = seen_of board.now pass.old in
        Exchanges cell (put_note (own_place seen) new) seen (seen_of board.now pass.new) }
    ensures exchanged { let seen = seen_of board.now pass.old in
        HasExchanged cell (put_note (own_place seen) new) pass.old pass.new }
    ensures ticks { steps.new ≡ steps.old + 1 }
{
    steps.tick();
    let at = cell_index(&board.shape, slot_at(&pass.place), cell);
    take_cell::<Brand, B>(board, &mut pass.seat, cell);
    let old = board.table.shared.exchange(&mut pass.seat, at, new);
    board.table.shared.load::<Giving>(&mut pass.seat, 0);
    old
}
