//! The slot object as one of its workers sees it, whatever the form of the object: what a worker
//! may call (`Station`), with the exact reply of each call and the legal trail after it.
//!
//! Beside the trait stand what every form of the object needs: the tokens and replies, the notes
//! of cells, the place to which a call brings its worker, the lists that only contracts see, and
//! the limits of an object. It stands on `slot_history`, which has the entries, states and laws of
//! histories, and on `atomic_table`, in whose views a history is kept.
//!
//! The layers above may use one fact: after each call of a station its trail begins with the trail
//! before, ends with this call, has of this worker just its own calls, and is a legal history of
//! the subject (`Makes`).
//!
//! A caller over any station (proved in the examples of `plain_slots`, which has a table to call it
//! on):
//!
//! ```
//! fn progress<B: Fits, S: Station<B>, L: Ledger>(
//!     station: &mut S,
//!     steps: &mut Steps<L>,
//! ) -> (u32, u32)
//!     ensures { steps.new ≡ steps.old + 2 }
//! {
//!     let admitted = station.arrivals(steps);
//!     (admitted, station.finished(steps))
//! }
//! ```
#![tactic(auto)]

pub mod answers;
mod any_word;
pub mod ghost_list;
pub mod history;
pub mod laws;
pub mod limits;
pub mod log;
pub mod memo;
pub mod moves;
pub mod note;
pub mod reply;
pub mod station;
pub mod steps;
pub mod token;

pub use history::{History, HistoryKeeper, ShowsHistory};
pub use memo::Memo;
pub use note::Note;
pub use reply::{Admit, Claim, Leave, Look, MakeRefusal, Mark, Pay, Reserve, Shut, Sweep};
pub use slot_history::{act, place, shape};
pub use station::{Fits, Station};
pub use steps::{StepWork, Steps, run_uncounted};
pub use token::{Announcer, Coordinator, Debt, Holder, Spent};
