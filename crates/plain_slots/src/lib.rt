//! The object on one thread whose state is that of its slots and workers (`PlainTable`).
//!
//! It stands on `one_thread`, which has the table and its seats over any object, and gives the
//! object: what a call does to the state of slots and workers, in time that grows neither with the
//! history nor with the number of workers. What a caller needs of the crates below is named here
//! again.
//!
//! The layers above may use one fact: `PlainTable` is a `OneTable`, so each of its seats is a
//! `Station`.
//!
//! A caller over any station, and its use over a table (proved in the crate `slot_rows`):
//!
//! ```
//! fn progress<B: Fits, S: Station<B>, L: Ledger>(
//!     station: &mut S,
//!     steps: &mut Steps<L>,
//! ) -> (u32, u32)
//!     ensures { steps.new ≡ steps.old + 2 }
//! {
//!     let admitted = station.arrivals(steps);
//!     (admitted, station.finished(steps))
//! }
//!
//! let mut table = PlainTable::<B>::make(alloc, 2, 3, queries, Snapshot::of(&subject))?;
//! let mut seat = table.seat(0);
//! let (admitted, done) = progress(&mut seat, steps);
//! ```
#![tactic(auto)]

mod answers;
pub mod object;
mod slot;
pub mod table;

pub use object::PlainObject;
pub use one_thread::{OneSeat, OneTable, SlotObject, seat};
pub use slot_history::act::{Act, Entry};
pub use slot_history::place::{Held, Place};
pub use slot_history::shape::Shape;
pub use slot_history::{act, laws, place, shape};
pub use slot_station::{
    Admit, Announcer, Claim, Coordinator, Debt, Fits, History, HistoryKeeper, Holder, Leave, Look,
    MakeRefusal, Mark, Memo, Note, Pay, Reserve, ShowsHistory, Shut, Spent, Station, StepWork,
    Steps, Sweep, ghost_list, log, note, reply, run_uncounted, station, steps, token,
};
pub use table::{PlainSeat, PlainTable};
