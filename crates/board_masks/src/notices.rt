//! The calls on notices, and on the two counts: a worker announces a slot, takes its notices, and
//! asks how many queries were admitted and how many task sets are done. Each makes one atomic step,
//! takes no memory and never waits.
ghost use Rattle.std.specs.Prelude.{◌≡◌, ◌+◌, ◌<◌};
ghost use Rattle.slot_history.specs.declared.act.Act.TheVariants.{Arrivals, Finished, Announce};
ghost use Rattle.slot_history.specs.declared.act.Act.TheVariants.{TakeReturn, TakeChange};
ghost use Rattle.slot_history.specs.declared.shape.TheConstants.{PARTS};
ghost use Rattle.slot_station.specs.Desks.{Makes, Owns};
ghost use Rattle.slot_station.specs.Replies.{NamesSlots};
ghost use Rattle.slot_station.specs.Tokens.{IsAnnouncer, IsDone};
ghost use Rattle.board_rule.specs.Passes.{Advances, IsPassOf, seen_of};

use board_rule::atomic::{WordOperation, make_step};
use board_rule::board::{Board, Pass};
use slot_history::act::Act;
use slot_proto::reading::mask_told;
use slot_station::moves::{place_after, slot_at};
use slot_station::station::Fits;
use slot_station::steps::Steps;
use slot_station::token::Announcer;
use slot_words::address::Address;
use std::marker::Brand;
use std::sync::ledger::Ledger;

/// `Station::announce`: the slot's bit is set in a mask word of the worker that is told.
pub fn announce<B: Fits, L: Ledger>(
    board: &Board<B>,
    pass: &mut Pass<B>,
    announcer: &mut Announcer,
    steps: &mut Steps<L>,
)
    requires pass { IsPassOf board.now pass.old }
    requires announcer { Owns IsAnnouncer (seen_of board.now pass.old) announcer.old }
    requires untold { announcer.old.told < (seen_of board.now pass.old).desk.shape.workers }
    ensures made { Advances board.now (Makes B.total Announce) pass.old pass.new }
    ensures told { announcer.new ≡ record announcer.old { told = announcer.old.told + 1 } }
    ensures announcer { announcer.new.told < (seen_of board.now pass.old).desk.shape.workers
        → Owns IsAnnouncer (seen_of board.now pass.new) announcer.new }
    ensures done { announcer.new.told ≡ (seen_of board.now pass.old).desk.shape.workers
        → IsDone (seen_of board.now pass.new) announcer.new }
    ensures ticks { steps.new ≡ steps.old + 1 }
{
    let mask = mask_told(&pass.place);
    let bit = 1 << (slot_at(&pass.place) % 64);
    make_step::<Brand, B, L>(board, pass, mask, WordOperation::SetBits(bit), steps);
    pass.place = place_after(&board.shape, &Act::Announce, pass.place);
    announcer.told += 1;
}

/// `Station::take_return`: a swap of an own return mask with 0.
pub fn take_return<B: Fits, L: Ledger>(
    board: &Board<B>,
    pass: &mut Pass<B>,
    part: u32,
    steps: &mut Steps<L>,
) -> u64
    requires pass { IsPassOf board.now pass.old }
    requires part { part < PARTS }
    ensures made { Advances board.now (Makes B.total (TakeReturn part result)) pass.old pass.new }
    ensures slots { NamesSlots (seen_of board.now pass.old).desk.shape.slots part result }
    ensures ticks { steps.new ≡ steps.old + 1 }
{
    let mask = Address::ReturnOf(pass.worker, part);
    make_step::<Brand, B, L>(board, pass, mask, WordOperation::Swap(0), steps)
}

/// `Station::take_change`: a swap of an own change mask with 0.
pub fn take_change<B: Fits, L: Ledger>(
    board: &Board<B>,
    pass: &mut Pass<B>,
    part: u32,
    steps: &mut Steps<L>,
) -> u64
    requires pass { IsPassOf board.now pass.old }
    requires part { part < PARTS }
    ensures made { Advances board.now (Makes B.total (TakeChange part result)) pass.old pass.new }
    ensures slots { NamesSlots (seen_of board.now pass.old).desk.shape.slots part result }
    ensures ticks { steps.new ≡ steps.old + 1 }
{
    let mask = Address::ChangeOf(pass.worker, part);
    make_step::<Brand, B, L>(board, pass, mask, WordOperation::Swap(0), steps)
}

/// `Station::arrivals`: a load of the arrivals.
pub fn arrivals<B: Fits, L: Ledger>(
    board: &Board<B>,
    pass: &mut Pass<B>,
    steps: &mut Steps<L>,
) -> u32
    requires pass { IsPassOf board.now pass.old }
    ensures made { Advances board.now (Makes B.total (Arrivals result)) pass.old pass.new }
    ensures ticks { steps.new ≡ steps.old + 1 }
{
    make_step::<Brand, B, L>(board, pass, Address::ArrivalsAt, WordOperation::Load, steps) as u32
}

/// `Station::finished`: a load of the number of task sets noted as done.
pub fn finished<B: Fits, L: Ledger>(
    board: &Board<B>,
    pass: &mut Pass<B>,
    steps: &mut Steps<L>,
) -> u32
    requires pass { IsPassOf board.now pass.old }
    ensures made { Advances board.now (Makes B.total (Finished result)) pass.old pass.new }
    ensures ticks { steps.new ≡ steps.old + 1 }
{
    make_step::<Brand, B, L>(board, pass, Address::FinishedAt, WordOperation::Load, steps) as u32
}
