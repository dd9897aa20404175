//! The table for one thread over the states of slots and workers.
use crate::object::PlainObject;
use one_thread::seat::OneSeat;
use one_thread::table::OneTable;

/// The slot object for one thread. `make`, `seat` and `end` are those of `OneTable`.
pub type PlainTable<B> = OneTable<B, PlainObject>;

/// The station of one worker, while it borrows the table.
pub type PlainSeat<'a, B> = OneSeat<'a, B, PlainObject>;
