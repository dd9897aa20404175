//! How a board begins and ends.
ghost use Rattle.std.specs.Prelude.{◌≡◌, IfOk, IsOkUnless, length, vec_len};
ghost use Rattle.std.specs.Slots.{slots_items, slots_len, IsFull};
ghost use Rattle.slot_history.specs.Bounds.{IsShape};
ghost use Rattle.slot_station.specs.Shapes.{IsRefusedBy, refusal_of, shape_with};
ghost use Rattle.slot_station.specs.declared.reply.MakeRefusal.TheVariants.{OutOfMemory};
ghost use Rattle.board_rule.specs.Ends.{IsGathered};
ghost use Rattle.board_rule.specs.Lives.{AreAll, AreFree, AreUnused, IsJoined, IsUndealt};
ghost use Rattle.board_rule.specs.Passes.{board_shape, board_subject};

use crate::board::{Board, Pass};
use crate::joined::{Joined, LastSeat};
use crate::rule::{About, Dealing, Joining};
use crate::view::View;
use atomic_table::{Closed, Seat, Table};
use slot_history::place::Place;
use slot_history::shape::Shape;
use slot_station::history::HistoryKeeper;
use slot_station::limits::shape_of;
use slot_station::reply::MakeRefusal;
use slot_station::station::Fits;
use slot_words::opening::first_words;
use std::alloc::{AllocError, Global};
use std::snapshot::Snapshot;

impl<B: Fits> Board<B> {
    /// A board whose slots are empty, whose cells hold None, and with no notices, and a pass for
    /// each worker, from 0 on. `subject` is what it serves, for contracts alone, and `queries` the
    /// number of the subject's queries. BadSlots comes exactly outside 1 to 128 slots, then
    /// BadWorkers exactly outside 1 to 64 workers, then BadQueries exactly past 4,096 queries. Else
    /// only OutOfMemory can come.
    pub fn make(
        alloc: Global,
        slots: u32,
        workers: u32,
        queries: u32,
        subject: Snapshot<B::Subject>,
    ) -> Result<(Board<B>, Vec<Pass<B>>), MakeRefusal>
        requires { queries ≡ B.queries subject.value }
        ensures refused { IsRefusedBy (refusal_of slots workers queries)
            (IsOkUnless result OutOfMemory) result }
        ensures shape { IfOk result (λ made.
            board_shape made.0 ≡ shape_with slots workers queries) }
        ensures subject { IfOk result (λ made. board_subject made.0 ≡ subject.value) }
        ensures passes { IfOk result (λ made. (vec_len made.1 ≡ workers)
            × AreUnused made.0 made.1.items) }
    {
        let shape = shape_of(slots, workers, queries)?;
        let Ok(made) = make_with(alloc, shape, subject) else {
            return Err(MakeRefusal::OutOfMemory);
        };
        Ok(made)
    }

    /// Ends a board whose passes are all here, each worker's and each at the place Free. It takes
    /// no memory.
    pub fn finish(self, passes: Vec<Pass<B>>) -> Joined
        requires all { AreAll self passes.items }
        requires done { AreFree self passes.items }
        ensures { IsJoined self B.total passes.items result }
    {
        let seat = gather(&self, passes);
        let Board {
            table,
            shape: _,
            words,
            keeper,
        } = self;
        let last = LastSeat { seat };
        let history = keeper.keep(&last);
        let LastSeat { seat } = last;
        let closed = table.close_with(seat);
        let words = final_words(&closed, words);
        discard(closed);
        Joined { words, history }
    }
}

/// A board of this shape with a pass for each worker.
fn make_with<B: Fits>(
    alloc: Global,
    shape: Shape,
    subject: Snapshot<B::Subject>,
) -> Result<(Board<B>, Vec<Pass<B>>), AllocError>
    requires { IsShape shape }
    ensures shape { IfOk result (λ made. board_shape made.0 ≡ shape) }
    ensures subject { IfOk result (λ made. board_subject made.0 ≡ subject.value) }
    ensures passes { IfOk result (λ made. (vec_len made.1 ≡ shape.workers)
        × AreUnused made.0 made.1.items) }
{
    let words = first_words(alloc, &shape)?;
    let keeper = HistoryKeeper::new(alloc)?;
    let about = About { shape, subject };
    let cells = shape.slots as usize * shape.workers as usize;
    let (table, seat) = Table::vacant(alloc, words.as_slice(), cells, &about)?;
    let board = Board {
        table,
        shape,
        words,
        keeper,
    };
    let dealt = deal(alloc, &board, seat)?;
    Ok((board, dealt))
}

/// A pass for each worker, of the seat that has all numbers.
fn deal<B: Fits>(
    alloc: Global,
    board: &Board<B>,
    mut seat: Seat<Option<B>, View<B::Subject>>,
) -> Result<Vec<Pass<B>>, AllocError>
    requires { IsUndealt board.now 0 board.now.shape.workers seat }
    ensures { IfOk result (λ passes. (vec_len passes ≡ board.now.shape.workers)
        × AreUnused board.now passes.items) }
{
    let mut passes = Vec::new(alloc);
    let workers = board.shape.workers;
    for worker in 0..workers {
        passes.reserve(1)?;
        let others = board.table.shared.split_seat::<Dealing>(&mut seat);
        passes.push_reserved(Pass {
            seat,
            worker,
            place: Place::Free,
        });
        seat = others;
    }
    Ok(passes)
}

/// The seat into which all others are joined.
fn gather<B: Fits>(board: &Board<B>, mut passes: Vec<Pass<B>>) -> Seat<Option<B>, View<B::Subject>>
    requires all { AreAll board.now passes.items }
    requires done { AreFree board.now passes.items }
    ensures { IsGathered board.now passes.items result }
{
    let Some(first) = passes.pop() else {
        unreachable!()
    };
    let Pass {
        mut seat,
        worker: _,
        place: _,
    } = first;
    while let Some(pass) = passes.pop() {
        let Pass {
            seat: other,
            worker: _,
            place: _,
        } = pass;
        board.table.shared.join_seat::<Joining>(&mut seat, other);
    }
    seat
}

/// The words of a table that has ended, in place of these.
fn final_words<B>(closed: &Closed<Option<B>, Global>, mut words: Vec<u64>) -> Vec<u64>
    requires full { IsFull closed.now.words }
    requires room { length words.items ≡ slots_len closed.now.words }
    ensures { result.items ≡ slots_items closed.now.words }
{
    let count = words.len();
    for i in 0..count {
        words[i] = closed.word(i);
    }
    words
}

/// Drops what the cells of a table hold that has ended.
fn discard<B: Drop>(mut closed: Closed<Option<B>, Global>)
    requires { IsFull closed.slots }
{
    let count = closed.slot_count();
    for i in 0..count {
        drop(closed.take(i));
    }
    closed.free();
}
