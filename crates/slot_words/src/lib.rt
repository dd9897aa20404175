//! The words of the slot object: what each holds in a state, and for each call the law of its one
//! atomic step.
//!
//! It stands on `slot_history` alone. A step reads one word, writes one word, and nothing else; so
//! the laws hold for a list of words on one thread and for atomic words that many threads share.
//!
//! The layers above may use one fact: on words that stand for the state of a legal history, the
//! step of a call that its worker may make gives the reply of the definition and words that stand
//! for the next state (`IsLaw`, module `laws`).
#![tactic(auto)]

pub mod address;
pub mod encoding;
pub mod laws;
pub mod opening;

pub use address::{Address, count_of_words, index};
pub use encoding::{at_word, counter_word, cursor_word, marked, open_word, tagged};
pub use opening::first_words;
pub use slot_history::{act, place, shape};
