//! Worked rows of the slot object: what each worker calls, in order, and the answer that it gets.
//!
//! It stands on the forms of the object, `plain_slots`, `slot_proto` and the shared board, and has
//! tests alone. A row is a list of entries for each worker in turn (`rows`), which a referee
//! (`referee`) hands to a player. The player (`player`) makes them in order, through the bound of a
//! station, by the calls of `worker_calls`, and asserts each answer. It plays on any form (`form`,
//! `board_form`), which makes a table for a subject, seats a worker at it, and shows its words if
//! it has words: a board at its end alone. So each row is played on every form, and all give the
//! same answers. In `threads` four threads share a board.
//!
//! Nothing stands above it. A new form of the object implements `Form` and is named once in `rows`
//! and once in `limits`.
#![tactic(auto)]

#[cfg(test)]
mod board_form;
#[cfg(test)]
mod board_table;
#[cfg(test)]
mod form;
pub mod hand;
#[cfg(test)]
mod limits;
#[cfg(test)]
mod player;
#[cfg(test)]
mod referee;
#[cfg(test)]
mod rows;
pub mod subject;
#[cfg(test)]
mod threads;
pub mod worker;
#[cfg(test)]
mod worker_calls;
