//! Worked words of the slots, and examples of their use: how words are packed (`packed_words`), the
//! words of a machine after calls (`machine_words`), callers over a table (`watched`), a board that
//! nobody steps on (`unused_board`), and lists that only contracts see (`kept_lists`).
//!
//! It stands on the layers of the slots below the board's calls, and has tests alone. Nothing
//! stands above it.
#![tactic(auto)]

pub mod anything;
#[cfg(test)]
mod kept_lists;
#[cfg(test)]
mod machine_words;
#[cfg(test)]
mod packed_words;
#[cfg(test)]
mod unused_board;
#[cfg(test)]
mod watched;
