//! The calls of a visit. Each makes one atomic step, takes no memory and never waits; the exchange
//! of a cell makes two loads and the exchange.
ghost use Rattle.std.specs.Prelude.{◌≡◌, ℕ, ◌+◌, ◌<◌, ◌≤◌, true, IfSome};
ghost use Rattle.slot_history.specs.declared.act.Act.TheVariants.{Enter};
ghost use Rattle.slot_history.specs.declared.place.Place.TheVariants.{Free, Entered, Inside};
ghost use Rattle.slot_history.specs.declared.shape.TheConstants.{MOST_CLAIM};
ghost use Rattle.slot_history.specs.States.{can_leave};
ghost use Rattle.slot_station.specs.Cells.{LeavesKept, has_cell, kept_note};
ghost use Rattle.slot_station.specs.Desks.{ExchangesOwn, LeaderOwesNothing, Makes};
ghost use Rattle.slot_station.specs.Desks.{OwnCellSays, OwnFits, Owns};
ghost use Rattle.slot_station.specs.Desks.{caller_of, own_place, own_ranges, own_total, totals_of};
ghost use Rattle.slot_station.specs.Replies.{look_act, claim_act, leave_act, SeesTaskSet};
ghost use Rattle.slot_station.specs.Replies.{IsCutRange, LiesPast, OwesTaskSet};
ghost use Rattle.slot_station.specs.Tokens.{ClaimGives, LeaveGives};
ghost use Rattle.board_rule.specs.Passes.{Advances, HasExchanged, IsPassOf, seen_of};

use board_rule::atomic::{WordOperation, make_step};
use board_rule::board::{Board, Pass};
use board_rule::exchange::exchange_cell;
use slot_history::act::Act;
use slot_proto::reading::{claim_read, leave_read, look_read};
use slot_station::moves::{place_after, slot_at};
use slot_station::reply::{Claim, Leave, Look};
use slot_station::station::Fits;
use slot_station::steps::Steps;
use slot_words::address::Address;
use slot_words::encoding::at_word;
use std::marker::Brand;
use std::sync::ledger::Ledger;

/// `Station::enter`: a store of `s + 1` in the own state word.
pub fn enter<B: Fits, L: Ledger>(board: &Board<B>, pass: &mut Pass<B>, s: u32, steps: &mut Steps<L>)
    requires pass { IsPassOf board.now pass.old }
    requires place { own_place (seen_of board.now pass.old) ≡ Free }
    requires slot { s < (seen_of board.now pass.old).desk.shape.slots }
    ensures made { Advances board.now (Makes B.total (Enter s)) pass.old pass.new }
    ensures ticks { steps.new ≡ steps.old + 1 }
{
    let own = Address::WorkerOf(pass.worker);
    make_step::<Brand, B, L>(board, pass, own, WordOperation::Store(at_word(s)), steps);
    pass.place = place_after(&board.shape, &Act::Enter(s), pass.place);
}

/// `Station::look`: a load of the slot's state word.
pub fn look<B: Fits, L: Ledger>(board: &Board<B>, pass: &mut Pass<B>, steps: &mut Steps<L>) -> Look
    requires pass { IsPassOf board.now pass.old }
    requires place { (s : ℕ) × (own_place (seen_of board.now pass.old) ≡ Entered s) }
    ensures made { Advances board.now (Makes B.total (look_act result)) pass.old pass.new }
    ensures task_set { SeesTaskSet (totals_of B.total (seen_of board.now pass.old)) result }
    ensures ticks { steps.new ≡ steps.old + 1 }
{
    let state = Address::StateOf(slot_at(&pass.place));
    let found = make_step::<Brand, B, L>(board, pass, state, WordOperation::Load, steps);
    let look = look_read(found);
    pass.place = place_after(&board.shape, &look.act(), pass.place);
    look
}

/// `Station::claim`: an addition of `n` to the slot's cursor word.
pub fn claim<B: Fits, L: Ledger>(
    board: &Board<B>,
    pass: &mut Pass<B>,
    n: u32,
    steps: &mut Steps<L>,
) -> Claim
    requires pass { IsPassOf board.now pass.old }
    requires place { (s id : ℕ) × (own_place (seen_of board.now pass.old) ≡ Inside s id) }
    requires number { (0 < n) × (n ≤ MOST_CLAIM) }
    ensures made { Advances board.now (Makes B.total (claim_act n result)) pass.old pass.new }
    ensures range { IsCutRange (own_total B.total (seen_of board.now pass.old)) n result }
    ensures past { LiesPast (own_ranges (seen_of board.now pass.old)) result }
    ensures spent { Owns ClaimGives (seen_of board.now pass.new) result }
    ensures ticks { steps.new ≡ steps.old + 1 }
{
    let cursor = Address::CursorOf(slot_at(&pass.place));
    let found = make_step::<Brand, B, L>(
        board,
        pass,
        cursor,
        WordOperation::Add(u64::from(n)),
        steps,
    );
    let claim = claim_read(found, n, pass.worker, &pass.place);
    pass.place = place_after(&board.shape, &claim.act(n), pass.place);
    claim
}

/// `Station::leave`: a swap of the own state word with 0.
pub fn leave<B: Fits, L: Ledger>(
    board: &Board<B>,
    pass: &mut Pass<B>,
    steps: &mut Steps<L>,
) -> Leave
    requires pass { IsPassOf board.now pass.old }
    requires place { can_leave (own_place (seen_of board.now pass.old)) ≡ true }
    requires cell { LeavesKept (caller_of (seen_of board.now pass.old)) }
    ensures made { Advances board.now (Makes B.total (leave_act result)) pass.old pass.new }
    ensures task_set { OwesTaskSet (totals_of B.total (seen_of board.now pass.old)) result }
    ensures coordinator { LeaderOwesNothing (seen_of board.now pass.old) result }
    ensures debt { Owns LeaveGives (seen_of board.now pass.new) result }
    ensures ticks { steps.new ≡ steps.old + 1 }
{
    let own = Address::WorkerOf(pass.worker);
    let found = make_step::<Brand, B, L>(board, pass, own, WordOperation::Swap(0), steps);
    let leave = leave_read(found, pass.worker, &pass.place);
    pass.place = place_after(&board.shape, &leave.act(), pass.place);
    leave
}

/// `Station::own_cell`: the own cell is taken, exchanged and given back, once.
pub fn own_cell<B: Fits, L: Ledger>(
    board: &Board<B>,
    pass: &mut Pass<B>,
    new: Option<B>,
    steps: &mut Steps<L>,
) -> Option<B>
    requires pass { IsPassOf board.now pass.old }
    requires place { has_cell (own_place (seen_of board.now pass.old)) ≡ true }
    requires fits { IfSome new (OwnFits B.fits (seen_of board.now pass.old)) }
    ensures says { OwnCellSays B.fits (seen_of board.now pass.old) result }
    ensures put { Advances board.now (ExchangesOwn (kept_note new)) pass.old pass.new }
    ensures exchanged { HasExchanged pass.old.worker (kept_note new) pass.old pass.new }
    ensures ticks { steps.new ≡ steps.old + 1 }
{
    let worker = pass.worker;
    exchange_cell(board, pass, worker, new, steps)
}
