//! The calls of a worker that reserves and holds a slot. Each makes one atomic step, takes no
//! memory and never waits.
ghost use Rattle.std.specs.Prelude.{◌≡◌, ◌⊎◌, ◌+◌, ◌<◌, ◌≤◌, None, IsSome};
ghost use Rattle.slot_history.specs.declared.act.Act.TheVariants.{NoteDone, SetTotal};
ghost use Rattle.slot_history.specs.declared.act.Act.TheVariants.{Install, Release};
ghost use Rattle.slot_history.specs.declared.place.Place.TheVariants.{Free};
ghost use Rattle.slot_history.specs.declared.shape.TheConstants.{STAGES, MOST_TOTAL};
ghost use Rattle.slot_history.specs.Allowed.{IsReady};
ghost use Rattle.slot_history.specs.States.{next_id};
ghost use Rattle.slot_history.specs.Subject.{InstallsOf};
ghost use Rattle.slot_station.specs.declared.note.Note.TheVariants.{Empty, Fresh};
ghost use Rattle.slot_station.specs.Cells.{HasNoted};
ghost use Rattle.slot_station.specs.Desks.{Makes, Owns, caller_of};
ghost use Rattle.slot_station.specs.Desks.{own_holding, own_place, totals_of};
ghost use Rattle.slot_station.specs.Replies.{reserve_act, admit_act, admitted_holder};
ghost use Rattle.slot_station.specs.Tokens.{IsAnnouncer, IsHolder, ReserveGives};
ghost use Rattle.board_rule.specs.Passes.{Advances, IsPassOf, seen_of};

use board_rule::atomic::{WordOperation, make_step};
use board_rule::board::{Board, Pass};
use slot_history::act::Act;
use slot_proto::reading::{admit_read, reserve_read};
use slot_station::answers::announcer;
use slot_station::moves::{place_after, slot_at};
use slot_station::reply::{Admit, Reserve};
use slot_station::station::Fits;
use slot_station::steps::Steps;
use slot_station::token::{Announcer, Holder};
use slot_words::address::Address;
use slot_words::encoding::{cursor_word, open_word};
use std::marker::Brand;
use std::sync::ledger::Ledger;

/// `Station::reserve`: the slot's state word becomes 1 if it is 0.
pub fn reserve<B: Fits, L: Ledger>(
    board: &Board<B>,
    pass: &mut Pass<B>,
    s: u32,
    steps: &mut Steps<L>,
) -> Reserve
    requires pass { IsPassOf board.now pass.old }
    requires place { own_place (seen_of board.now pass.old) ≡ Free }
    requires slot { s < (seen_of board.now pass.old).desk.shape.slots }
    ensures made { Advances board.now (Makes B.total (reserve_act s result)) pass.old pass.new }
    ensures holder { Owns ReserveGives (seen_of board.now pass.new) result }
    ensures ticks { steps.new ≡ steps.old + 1 }
{
    let takes = WordOperation::CompareExchange { old: 0, new: 1 };
    let found = make_step::<Brand, B, L>(board, pass, Address::StateOf(s), takes, steps);
    let reserve = reserve_read(found, pass.worker, s);
    pass.place = place_after(&board.shape, &reserve.act(s), pass.place);
    reserve
}

/// `Station::admit`: the arrivals become `q + 1` if they are `q`.
pub fn admit<B: Fits, L: Ledger>(
    board: &Board<B>,
    pass: &mut Pass<B>,
    holder: &mut Holder,
    q: u32,
    steps: &mut Steps<L>,
) -> Admit
    requires pass { IsPassOf board.now pass.old }
    requires holder { Owns IsHolder (seen_of board.now pass.old) holder.old }
    requires none { holder.old.query ≡ None }
    requires query { q < (seen_of board.now pass.old).desk.shape.queries }
    ensures made { Advances board.now (Makes B.total (admit_act q result)) pass.old pass.new }
    ensures query { holder.new ≡ admitted_holder q result holder.old }
    ensures holder { Owns IsHolder (seen_of board.now pass.new) holder.new }
    ensures ticks { steps.new ≡ steps.old + 1 }
{
    let expected = u64::from(q);
    let admits = WordOperation::CompareExchange {
        old: expected,
        new: expected + 1,
    };
    let found = make_step::<Brand, B, L>(board, pass, Address::ArrivalsAt, admits, steps);
    let admit = admit_read(found, q);
    pass.place = place_after(&board.shape, &admit.act(q), pass.place);
    holder.admit(q, admit);
    admit
}

/// `Station::note_done`: `k` is added to the number of task sets noted as done.
pub fn note_done<B: Fits, L: Ledger>(
    board: &Board<B>,
    pass: &mut Pass<B>,
    holder: &mut Holder,
    k: u32,
    steps: &mut Steps<L>,
)
    requires pass { IsPassOf board.now pass.old }
    requires holder { Owns IsHolder (seen_of board.now pass.old) holder.old }
    requires query { IsSome holder.old.query }
    requires once { (own_holding (seen_of board.now pass.old)).noted ≡ 0 }
    requires number { (0 < k) × (holder.old.stage + k ≤ STAGES) }
    ensures made { Advances board.now (Makes B.total (NoteDone k)) pass.old pass.new }
    ensures same { holder.new ≡ holder.old }
    ensures holder { Owns IsHolder (seen_of board.now pass.new) holder.new }
    ensures ticks { steps.new ≡ steps.old + 1 }
{
    let adds = WordOperation::Add(u64::from(k));
    make_step::<Brand, B, L>(board, pass, Address::FinishedAt, adds, steps);
    pass.place = place_after(&board.shape, &Act::NoteDone(k), pass.place);
}

/// `Station::set_total`: a store of the total and the cursor 0 in the slot's cursor word.
pub fn set_total<B: Fits, L: Ledger>(
    board: &Board<B>,
    pass: &mut Pass<B>,
    holder: &mut Holder,
    total: u32,
    steps: &mut Steps<L>,
)
    requires pass { IsPassOf board.now pass.old }
    requires holder { Owns IsHolder (seen_of board.now pass.old) holder.old }
    requires query { IsSome holder.old.query }
    requires number { total ≤ MOST_TOTAL }
    ensures made { Advances board.now (Makes B.total (SetTotal total)) pass.old pass.new }
    ensures same { holder.new ≡ holder.old }
    ensures holder { Owns IsHolder (seen_of board.now pass.new) holder.new }
    ensures ticks { steps.new ≡ steps.old + 1 }
{
    let cursor = Address::CursorOf(slot_at(&pass.place));
    make_step::<Brand, B, L>(
        board,
        pass,
        cursor,
        WordOperation::Store(cursor_word(total, 0)),
        steps,
    );
    pass.place = place_after(&board.shape, &Act::SetTotal(total), pass.place);
}

/// `Station::install`: a store of the open word in the slot's state word.
pub fn install<B: Fits, L: Ledger>(
    board: &Board<B>,
    pass: &mut Pass<B>,
    holder: Holder,
    id: u32,
    steps: &mut Steps<L>,
) -> Announcer
    requires pass { IsPassOf board.now pass.old }
    requires holder { Owns IsHolder (seen_of board.now pass.old) holder }
    requires ready { IsReady (own_holding (seen_of board.now pass.old)) }
    requires id { id ≡ next_id (own_holding (seen_of board.now pass.old)) }
    requires total { let seen = seen_of board.now pass.old in
        InstallsOf (totals_of B.total seen) (Install id) (own_holding seen).total }
    requires cells { HasNoted Fresh (caller_of (seen_of board.now pass.old)) }
    ensures made { Advances board.now (Makes B.total (Install id)) pass.old pass.new }
    ensures announcer { Owns IsAnnouncer (seen_of board.now pass.new) result }
    ensures ticks { steps.new ≡ steps.old + 1 }
{
    let announcer = announcer(pass.worker, &pass.place, &board.shape);
    let state = Address::StateOf(slot_at(&pass.place));
    make_step::<Brand, B, L>(
        board,
        pass,
        state,
        WordOperation::Store(open_word(id)),
        steps,
    );
    pass.place = place_after(&board.shape, &Act::Install(id), pass.place);
    drop(holder);
    announcer
}

/// `Station::release`: a store of 0 in the slot's state word.
pub fn release<B: Fits, L: Ledger>(
    board: &Board<B>,
    pass: &mut Pass<B>,
    holder: Holder,
    steps: &mut Steps<L>,
)
    requires pass { IsPassOf board.now pass.old }
    requires holder { Owns IsHolder (seen_of board.now pass.old) holder }
    requires noted { (holder.query ≡ None)
        ⊎ (0 < (own_holding (seen_of board.now pass.old)).noted) }
    requires cells { HasNoted Empty (caller_of (seen_of board.now pass.old)) }
    ensures made { Advances board.now (Makes B.total Release) pass.old pass.new }
    ensures ticks { steps.new ≡ steps.old + 1 }
{
    let state = Address::StateOf(slot_at(&pass.place));
    make_step::<Brand, B, L>(board, pass, state, WordOperation::Store(0), steps);
    pass.place = place_after(&board.shape, &Act::Release, pass.place);
    drop(holder);
}
