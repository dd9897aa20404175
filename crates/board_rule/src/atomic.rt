//! The one atomic step of a call.
//!
//! The caller picks which call the step is (`NamesCall`), says what the step does to its word, and
//! moves the pass's place after it. A step is counted, takes no memory and never waits.
ghost use Rattle.std.specs.Prelude.{◌≡◌, ℕ, ◌+◌, ◌<◌};
ghost use Rattle.atomic_table.specs.Table.{Allows};
ghost use Rattle.slot_station.specs.Desks.{Makes};
ghost use Rattle.slot_station.specs.Places.{IsCounted};
ghost use Rattle.slot_words.specs.Numbers.{IsSmall};
ghost use Rattle.slot_words.specs.Steps.{address_of, change_of, answer_of};
ghost use Rattle.board_rule.specs.Operations.{changed, read_by};
ghost use Rattle.board_rule.specs.Passes.{IsPassOf, HasStepped, seen_of};
ghost use Rattle.board_rule.specs.Rule.{RunningRule, terms_of};
ghost use Rattle.board_rule.specs.Steps.{HasCalled, AllowsCall};
ghost use Rattle.board_rule.specs.Views.{view_place};

use crate::board::{Board, Pass};
use crate::rule::{Calling, NamesCall};
use crate::view::View;
use atomic_table::Seat;
use slot_station::station::Fits;
use slot_station::steps::Steps;
use slot_words::address::{Address, index};
use std::sync::ledger::Ledger;

/// What an atomic step does to its word.
#[derive(Clone, Copy)]
pub enum WordOperation {
    /// Reads it.
    Load,
    /// Writes it, and reads nothing.
    Store(u64),
    /// Writes it, and reads what it was.
    Swap(u64),
    /// Adds to it, modulo 2^64.
    Add(u64),
    /// Subtracts 1 from it, modulo 2^64.
    Decrement,
    /// Sets these bits of it.
    SetBits(u64),
    /// Writes `new` if it is `old`.
    CompareExchange { old: u64, new: u64 },
}

/// Does this to a word of the table. It answers what the word was, and a store what it wrote.
#[inline(always)]
fn operate<K: NamesCall, B: Fits>(
    board: &Board<B>,
    seat: &mut Seat<Option<B>, View<B::Subject>>,
    word: usize,
    operation: WordOperation,
) -> u64
    requires table { seat.old.table_id ≡ board.now.table.shared.table_id }
    requires words { word < board.now.table.shared.table_id.words }
    requires allowed { let shared = board.now.table.shared in let me = seat.old.me in
        Allows (RunningRule (terms_of B.total B.fits shared.key))
        shared.table_id.slots seat.old.id me word (changed operation)
        (λ n. HasCalled B.total (answer_of K.call (view_place me.0) (read_by operation n)) me) }
    ensures table { seat.new.table_id ≡ seat.old.table_id }
    ensures called { let me = seat.old.me in
        HasCalled B.total (answer_of K.call (view_place me.0) result) me seat.new.me }
{
    match operation {
        WordOperation::Load => board.table.shared.load::<Calling<K>>(seat, word),
        WordOperation::Store(new) => {
            board.table.shared.store::<Calling<K>>(seat, word, new);
            new
        }
        WordOperation::Swap(new) => board.table.shared.swap::<Calling<K>>(seat, word, new),
        WordOperation::Add(more) => board.table.shared.fetch_add::<Calling<K>>(seat, word, more),
        WordOperation::Decrement => board.table.shared.fetch_sub::<Calling<K>>(seat, word, 1),
        WordOperation::SetBits(bits) => board.table.shared.fetch_or::<Calling<K>>(seat, word, bits),
        WordOperation::CompareExchange { old, new } => board
            .table
            .shared
            .compare_exchange::<Calling<K>>(seat, word, old, new),
    }
}

/// Makes the step of a call on the word at this address. It answers what the word was, and a store
/// what it wrote.
#[inline(always)]
pub fn make_step<K: NamesCall, B: Fits, L: Ledger>(
    board: &Board<B>,
    pass: &mut Pass<B>,
    address: Address,
    operation: WordOperation,
    steps: &mut Steps<L>,
) -> u64
    requires pass { IsPassOf board.now pass.old }
    requires call { AllowsCall B.total (seen_of board.now pass.old) K.call }
    requires on { address ≡ address_of pass.old.worker K.call pass.old.place }
    requires change { (n : ℕ) → changed operation n ≡ change_of K.call pass.old.place n }
    requires answer { (n : ℕ) → answer_of K.call pass.old.place (read_by operation n)
        ≡ answer_of K.call pass.old.place n }
    ensures small { IsSmall (answer_of K.call pass.old.place result) }
    ensures counted { IsCounted pass.new.place }
    ensures stepped { let a = answer_of K.call pass.old.place result in
        HasStepped board.now a pass.old pass.new }
    ensures made { Makes B.total (answer_of K.call pass.old.place result)
        (seen_of board.now pass.old) (seen_of board.now pass.new) }
    ensures ticks { steps.new ≡ steps.old + 1 }
{
    steps.tick();
    let word = index(&board.shape, address);
    operate::<K, B>(board, &mut pass.seat, word, operation)
}
