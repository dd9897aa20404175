//! The calls that end a task set. Each makes one atomic step, takes no memory and never waits; the
//! exchange of a cell makes two loads and the exchange.
ghost use Rattle.std.specs.Prelude.{◌≡◌, ◌+◌, ◌<◌, IfSome};
ghost use Rattle.slot_station.specs.Cells.{fresh_note};
ghost use Rattle.slot_station.specs.Desks.{CellSays, Exchanges, Makes, NextFits, Owns};
ghost use Rattle.slot_station.specs.Replies.{shut_act, mark_act, sweep_act};
ghost use Rattle.slot_station.specs.Replies.{pay_act, marked_coordinator};
ghost use Rattle.slot_station.specs.Tokens.{IsCoordinator, IsDebt, IsHolder, IsSpent};
ghost use Rattle.slot_station.specs.Tokens.{PayGives, ShutGives, SweepGives};
ghost use Rattle.board_rule.specs.Passes.{Advances, HasExchanged, IsPassOf, seen_of};

use board_rule::atomic::{WordOperation, make_step};
use board_rule::board::{Board, Pass};
use board_rule::exchange::exchange_cell;
use slot_proto::reading::{mark_read, marked_at, next_to_ask, pay_read, shut_read, sweep_read};
use slot_station::moves::{id_at, place_after, slot_at};
use slot_station::reply::{Mark, Pay, Shut, Sweep};
use slot_station::station::Fits;
use slot_station::steps::Steps;
use slot_station::token::{Coordinator, Debt, Holder, Spent};
use slot_words::address::Address;
use slot_words::encoding::{at_word, marked};
use std::marker::Brand;
use std::sync::ledger::Ledger;

/// `Station::shut`: the tag is set in the slot's state word.
pub fn shut<B: Fits, L: Ledger>(
    board: &Board<B>,
    pass: &mut Pass<B>,
    spent: Spent,
    steps: &mut Steps<L>,
) -> Shut
    requires pass { IsPassOf board.now pass.old }
    requires spent { Owns IsSpent (seen_of board.now pass.old) spent }
    ensures made { Advances board.now (Makes B.total (shut_act result)) pass.old pass.new }
    ensures first { Owns ShutGives (seen_of board.now pass.new) result }
    ensures ticks { steps.new ≡ steps.old + 1 }
{
    let state = Address::StateOf(slot_at(&pass.place));
    let found = make_step::<Brand, B, L>(board, pass, state, WordOperation::SetBits(1), steps);
    let shut = shut_read(found, pass.worker, &pass.place, &board.shape);
    pass.place = place_after(&board.shape, &shut.act(), pass.place);
    drop(spent);
    shut
}

/// `Station::mark_next`: the state word of the worker that is asked becomes marked if it says that
/// this worker is at the slot.
pub fn mark_next<B: Fits, L: Ledger>(
    board: &Board<B>,
    pass: &mut Pass<B>,
    coordinator: &mut Coordinator,
    steps: &mut Steps<L>,
) -> Mark
    requires pass { IsPassOf board.now pass.old }
    requires coordinator { Owns IsCoordinator (seen_of board.now pass.old) coordinator.old }
    requires unasked { let seen = seen_of board.now pass.old in
        coordinator.old.asked + 1 < seen.desk.shape.workers }
    ensures made { Advances board.now (Makes B.total (mark_act result)) pass.old pass.new }
    ensures counts { coordinator.new ≡ marked_coordinator result coordinator.old }
    ensures coordinator { Owns IsCoordinator (seen_of board.now pass.new) coordinator.new }
    ensures ticks { steps.new ≡ steps.old + 1 }
{
    let slot = slot_at(&pass.place);
    let other = Address::WorkerOf(next_to_ask(pass.worker, &pass.place));
    let there = at_word(slot);
    let asks = WordOperation::CompareExchange {
        old: there,
        new: marked(there, id_at(&pass.place)),
    };
    let found = make_step::<Brand, B, L>(board, pass, other, asks, steps);
    let mark = mark_read(found, slot);
    pass.place = place_after(&board.shape, &mark.act(), pass.place);
    coordinator.count(mark);
    mark
}

/// `Station::sweep`: the number of marks is added to the slot's counter.
pub fn sweep<B: Fits, L: Ledger>(
    board: &Board<B>,
    pass: &mut Pass<B>,
    coordinator: Coordinator,
    steps: &mut Steps<L>,
) -> Sweep
    requires pass { IsPassOf board.now pass.old }
    requires coordinator { Owns IsCoordinator (seen_of board.now pass.old) coordinator }
    requires asked { coordinator.asked + 1 ≡ (seen_of board.now pass.old).desk.shape.workers }
    ensures made { Advances board.now (Makes B.total (sweep_act result)) pass.old pass.new }
    ensures holder { Owns SweepGives (seen_of board.now pass.new) result }
    ensures ticks { steps.new ≡ steps.old + 1 }
{
    let counter = Address::CounterOf(slot_at(&pass.place));
    let marks = marked_at(&pass.place);
    let found = make_step::<Brand, B, L>(
        board,
        pass,
        counter,
        WordOperation::Add(u64::from(marks)),
        steps,
    );
    let sweep = sweep_read(found, marks, pass.worker, &pass.place);
    pass.place = place_after(&board.shape, &sweep.act(), pass.place);
    drop(coordinator);
    sweep
}

/// `Station::pay`: 1 is subtracted from the slot's counter.
pub fn pay<B: Fits, L: Ledger>(
    board: &Board<B>,
    pass: &mut Pass<B>,
    debt: Debt,
    steps: &mut Steps<L>,
) -> Pay
    requires pass { IsPassOf board.now pass.old }
    requires debt { Owns IsDebt (seen_of board.now pass.old) debt }
    ensures made { Advances board.now (Makes B.total (pay_act result)) pass.old pass.new }
    ensures holder { Owns PayGives (seen_of board.now pass.new) result }
    ensures ticks { steps.new ≡ steps.old + 1 }
{
    let counter = Address::CounterOf(slot_at(&pass.place));
    let found = make_step::<Brand, B, L>(board, pass, counter, WordOperation::Decrement, steps);
    let pay = pay_read(found, pass.worker, &pass.place);
    pass.place = place_after(&board.shape, &pay.act(), pass.place);
    drop(debt);
    pay
}

/// `Station::cell`: the cell of a worker is taken, exchanged and given back, once.
pub fn cell<B: Fits, L: Ledger>(
    board: &Board<B>,
    pass: &mut Pass<B>,
    holder: &mut Holder,
    worker: u32,
    new: Option<B>,
    steps: &mut Steps<L>,
) -> Option<B>
    requires pass { IsPassOf board.now pass.old }
    requires holder { Owns IsHolder (seen_of board.now pass.old) holder.old }
    requires worker { worker < (seen_of board.now pass.old).desk.shape.workers }
    requires fits { IfSome new (NextFits B.fits (seen_of board.now pass.old) worker) }
    ensures says { CellSays B.fits (seen_of board.now pass.old) worker result }
    ensures put { Advances board.now (Exchanges worker (fresh_note new)) pass.old pass.new }
    ensures exchanged { HasExchanged worker (fresh_note new) pass.old pass.new }
    ensures same { holder.new ≡ holder.old }
    ensures ticks { steps.new ≡ steps.old + 1 }
{
    exchange_cell(board, pass, worker, new, steps)
}
