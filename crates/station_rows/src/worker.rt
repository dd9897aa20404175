//! A worker at its station, whose calls `worker_calls` makes.
use crate::hand::Hand;
use crate::subject::Sets;
use slot_history::place::Place;

/// A worker at its station, which serves these sets: where it is, and what it has in hand.
pub struct Worker<'s, S> {
    pub station: &'s mut S,
    pub place: Place,
    pub hand: Hand,
    pub sets: &'s Sets,
}
