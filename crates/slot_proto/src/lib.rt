//! The slot object as words, on one thread: each call reads one word and writes one word.
//!
//! It stands on `slot_words`, whose laws say that this is enough, and on `one_thread`, which has
//! the table and its seats over any object. What a call reads in its word (`reading`) serves the
//! board too, whose words many threads share.
//!
//! The layers above may use one fact: after each call the words stand for the state of the history,
//! which is legal, and the reply is the definition's.
#![tactic(auto)]

pub mod machine;
pub mod proto;
pub mod reading;

pub use machine::Machine;
pub use one_thread::{OneSeat, OneTable, SlotObject};
pub use proto::{Proto, ProtoSeat, words};
pub use slot_history::{act, place, shape};
pub use slot_station::{
    Admit, Announcer, Claim, Coordinator, Debt, Fits, History, Holder, Leave, Look, MakeRefusal,
    Mark, Note, Pay, Reserve, Shut, Spent, Station, StepWork, Steps, Sweep, run_uncounted,
};
pub use slot_words::{address, encoding};
