//! The shared board as a form. All passes are here, and one thread makes the calls with them.
ghost use Rattle.std.specs.Prelude.{◌≡◌, ◌<◌, All, IfOk, vec_len};
ghost use Rattle.board_rule.specs.Lives.{AreAll, AreFree};
ghost use Rattle.board_rule.specs.Passes.{IsPassOf, board_shape, board_subject};
ghost use Rattle.station_rows.specs.Boards.{AreOf};

use crate::board_table::BoardTable;
use crate::form::{Ask, Form};
use crate::hand::Hand;
use crate::subject::{Piece, Sets};
use board_masks::BoardSeat;
use board_rule::board::{Board, Pass};
use slot_history::act::Act;
use slot_history::place::Place;
use slot_station::reply::MakeRefusal;
use slot_station::steps::Steps;
use std::alloc::{AllocError, Global};
use std::mem;
use std::process::Abort;
use std::snapshot::Snapshot;
use std::sync::ledger::Ledger;
use std::test::Fail;

/// The passes, each in a place from which it may be taken.
fn keep_passes(
    alloc: Global,
    board: &Board<Piece>,
    passes: Vec<Pass<Piece>>,
) -> Result<Vec<Option<Pass<Piece>>>, AllocError>
    requires { All (IsPassOf board.now) passes.items }
    ensures { IfOk result (λ kept. AreOf board.now kept.items) }
{
    let mut kept = Vec::new(alloc);
    for pass in passes {
        kept.push(Some(pass))?;
    }
    Ok(kept)
}

/// Takes the worker's pass out of its place.
fn take_pass(
    rt: &impl Abort,
    board: &Board<Piece>,
    kept: &mut Vec<Option<Pass<Piece>>>,
    worker: u32,
) -> Pass<Piece>
    requires { AreOf board.now kept.old.items }
    ensures left { AreOf board.now kept.new.items }
    ensures len { vec_len kept.new ≡ vec_len kept.old }
    ensures there { worker < vec_len kept.new }
    ensures pass { IsPassOf board.now result }
    ensures worker { result.worker ≡ worker }
{
    assert!(rt; (worker as usize) < kept.len());
    let Some(pass) = mem::replace(&mut kept[worker as usize], None) else {
        panic!(rt; "the pass of worker {worker} is not here");
    };
    assert_eq!(rt; pass.worker, worker);
    pass
}

/// Makes the call that is asked for, with this pass. The answer is the pass, and what the form
/// answers.
pub(crate) fn call_with<L: Ledger>(
    rt: &impl Abort,
    board: &Board<Piece>,
    pass: Pass<Piece>,
    ask: Ask,
    steps: &mut Steps<L>,
) -> (Pass<Piece>, (Act, Hand))
    requires pass { IsPassOf board.now pass }
    requires subject { ask.sets.now ≡ board_subject board.now }
    requires queries { (board_shape board.now).queries ≡ (board_subject board.now).queries }
    ensures { IsPassOf board.now result.0 }
{
    let mut seat = BoardSeat::new(board, pass, Snapshot::of(ask.sets));
    let place = seat.place();
    let answer = ask.make(rt, &mut seat, place, steps);
    (seat.into_pass(), answer)
}

/// The passes of all workers, each of whom is free.
pub(crate) fn free_passes(
    rt: &impl Abort,
    alloc: Global,
    board: &Board<Piece>,
    mut kept: Vec<Option<Pass<Piece>>>,
) -> Result<Vec<Pass<Piece>>, AllocError>
    requires { AreOf board.now kept.items }
    ensures { IfOk result (λ passes. AreAll board.now passes.items
        × AreFree board.now passes.items) }
{
    let mut passes = Vec::new(alloc);
    for worker in 0..board.shape.workers {
        let pass = take_pass(rt, board, &mut kept, worker);
        assert!(rt; pass.place == Place::Free);
        passes.push(pass)?;
    }
    Ok(passes)
}

impl Form for BoardTable {
    ghost serves = { λ t. board_subject t.board };

    fn make(
        alloc: Global,
        slots: u32,
        workers: u32,
        sets: &Sets,
    ) -> Result<BoardTable, MakeRefusal> {
        let (board, passes) = Board::make(alloc, slots, workers, sets.queries, Snapshot::of(sets))?;
        let Ok(passes) = keep_passes(alloc, &board, passes) else {
            return Err(MakeRefusal::OutOfMemory);
        };
        Ok(BoardTable { board, passes })
    }

    fn call<L: Ledger>(&mut self, rt: &impl Abort, ask: Ask, steps: &mut Steps<L>) -> (Act, Hand) {
        let worker = ask.worker;
        let pass = take_pass(rt, &self.board, &mut self.passes, worker);
        let (pass, answer) = call_with(rt, &self.board, pass, ask, steps);
        self.passes[worker as usize] = Some(pass);
        answer
    }

    fn expect_counter(&self, _rt: &impl Abort, _slot: u32, _word: u64) {}

    fn expect_words(self, rt: &impl Abort, alloc: Global, words: &[u64]) -> Result<(), Fail> {
        let BoardTable {
            board,
            passes: kept,
        } = self;
        let passes = free_passes(rt, alloc, &board, kept)?;
        assert_eq!(rt; board.finish(passes).words(), words);
        Ok(())
    }
}
