//! The board that threads share, and the pass of one worker.
ghost use Rattle.std.specs.Prelude.{◌≡◌, ◌*◌, length};
ghost use Rattle.slot_history.specs.Bounds.{IsShape};
ghost use Rattle.slot_words.specs.Addresses.{count_of_words};

use crate::joined::LastSeat;
use crate::rule::{About, Running};
use crate::view::View;
use atomic_table::{Seat, Table};
use slot_history::place::Place;
use slot_history::shape::Shape;
use slot_station::history::HistoryKeeper;
use slot_station::station::Fits;
use std::alloc::Global;

/// The shared slot object: words that change in single atomic steps, and beside them a cell for
/// each slot and worker. Threads share it by reference.
#[derive(Drop)]
pub struct Board<B: Fits> {
    pub(crate) table: Table<Option<B>, View<B::Subject>, About<B::Subject>, Running<B>, Global>,
    /// How large the board is.
    pub shape: Shape,
    /// The words at the start. At the end they become the final ones, which so take no memory.
    pub(crate) words: Vec<u64>,
    /// Where the history is kept at the end.
    pub(crate) keeper: HistoryKeeper<LastSeat<B, B::Subject>>,
    ghost shape_is: { table.shared.key.shape ≡ shape },
    ghost bounded: { IsShape shape },
    ghost words_are: { table.shared.table_id.words ≡ count_of_words shape },
    ghost cells_are: { table.shared.table_id.slots ≡ shape.slots * shape.workers },
    ghost room: { length words.items ≡ count_of_words shape },
}

/// What one worker steps with. It is of a board if `IsPassOf` says so.
#[derive(Drop)]
pub struct Pass<B: Fits> {
    pub(crate) seat: Seat<Option<B>, View<B::Subject>>,
    /// Whose pass it is.
    pub worker: u32,
    /// Where the worker is.
    pub place: Place,
}
