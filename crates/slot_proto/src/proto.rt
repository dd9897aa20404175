//! The table for one thread over words.
ghost use Rattle.one_thread.specs.Stories.{state_in};
ghost use Rattle.slot_words.specs.Words.{StandsFor};

use crate::machine::Machine;
use one_thread::seat::OneSeat;
use one_thread::table::OneTable;
use slot_station::station::Fits;

/// The slot object as words, for one thread. `make`, `seat` and `end` are those of `OneTable`.
pub type Proto<B> = OneTable<B, Machine>;

/// The station of one worker, while it borrows the table.
pub type ProtoSeat<'a, B> = OneSeat<'a, B, Machine>;

/// The words of a table, in the order of their indices. They stand for the state of its history.
pub fn words<B: Fits>(table: &Proto<B>) -> &[u64]
    ensures { StandsFor table.now.shape result.now (state_in table.now.shape table.now.log) }
{
    table.object().words()
}
