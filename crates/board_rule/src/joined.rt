//! What is left of a board that has ended.
ghost use Rattle.std.specs.Prelude.{◌≡◌};

use crate::view::View;
use atomic_table::Seat;
use slot_station::history::{History, ShowsHistory};
use std::marker::Model;

/// The seat into which all others were joined. It shows the history, which is its trail.
#[derive(Drop)]
pub struct LastSeat<B, T> {
    pub(crate) seat: Seat<Option<B>, View<T>>,
}

impl<B, T> ShowsHistory for LastSeat<B, T> {
    ghost history = { λ last. last.seat.me.0.trail };
}

/// The final words and the history of a board that has ended.
#[derive(Drop)]
pub struct Joined {
    pub(crate) words: Vec<u64>,
    pub(crate) history: History,
}

impl Model for Joined {
    ghost use Rattle.board_rule.specs.Lives.{Ended};

    ghost Value = { Ended };

    ghost view = { λ joined. record { words = joined.words.items; history = joined.history } };
}

impl Joined {
    /// The final words, in the order of their indices.
    pub fn words(&self) -> &[u64]
        ensures { result.now ≡ self.now.words }
    {
        self.words.as_slice()
    }

    /// Hands the history over. It takes no memory.
    pub fn end(self) -> History
        ensures { result ≡ self.history }
    {
        let Joined { words, history } = self;
        drop(words);
        history
    }
}
