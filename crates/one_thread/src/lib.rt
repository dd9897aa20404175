//! The slot object on one thread: one table (`OneTable`), whose seats (`OneSeat`) are stations,
//! over anything that makes the steps of calls (`SlotObject`).
//!
//! It stands on `slot_station`. Cells, notes, tokens, trails and the history of a table are kept
//! and proved here, once for every such object: the one whose state is that of slots and workers,
//! and the one whose state is words.
//!
//! The layers above may use one fact: a seat of a table is a station, and the table's history is
//! the seat's start with the seat's own entries after it.
//!
//! A caller over any such table, which seats a worker and lets it watch (proved in the crate
//! `slot_rows`):
//!
//! ```
//! fn admitted<B: Fits, O: SlotObject, L: Ledger>(
//!     table: &mut OneTable<B, O>,
//!     worker: u32,
//!     steps: &mut Steps<L>,
//! ) -> u32
//!     requires { worker < table.old.shape.workers }
//!     ensures { steps.new ≡ steps.old + 1 }
//! {
//!     let mut seat = table.seat(worker);
//!     let admitted = seat.arrivals(steps);
//!     drop(seat);
//!     admitted
//! }
//! ```
#![tactic(auto)]

pub mod laws;
pub mod object;
pub mod seat;
pub mod table;

pub use object::SlotObject;
pub use seat::OneSeat;
pub use table::OneTable;
