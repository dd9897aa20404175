//! A table and its workers, played entry by entry.
ghost use Rattle.std.specs.Prelude.{◌≡◌};

use crate::form::{Ask, Form};
use crate::hand::Hand;
use crate::subject::Sets;
use slot_history::act::Act;
use slot_station::steps::Steps;
use std::alloc::Global;
use std::mem;
use std::process::Abort;
use std::sync::ledger::Ledger;
use std::test::Fail;

/// A table, the subject that it serves, and what each worker has in hand.
#[derive(Drop)]
pub(crate) struct Player<T: Form> {
    pub(crate) table: T,
    pub(crate) sets: Sets,
    pub(crate) hands: Vec<Hand>,
    ghost subject: { T.serves table ≡ sets },
}

impl<T: Form> Player<T> {
    /// A table of so many slots and workers, for this subject.
    pub(crate) fn new(
        alloc: Global,
        slots: u32,
        workers: u32,
        sets: Sets,
    ) -> Result<Player<T>, Fail> {
        let table = T::make(alloc, slots, workers, &sets)?;
        let mut hands = Vec::with_capacity(alloc, workers as usize)?;
        for _ in 0..workers {
            hands.push(Hand::Nothing)?;
        }
        Ok(Player { table, sets, hands })
    }

    /// The worker's call of this entry. The answer is the entry that it made.
    pub(crate) fn call<L: Ledger>(
        &mut self,
        rt: &impl Abort,
        worker: u32,
        act: &Act,
        steps: &mut Steps<L>,
    ) -> Act {
        assert!(rt; (worker as usize) < self.hands.len());
        let ask = Ask {
            worker,
            sets: &self.sets,
            hand: mem::replace(&mut self.hands[worker as usize], Hand::Nothing),
            act: *act,
        };
        let (made, hand) = self.table.call(rt, ask, steps);
        self.hands[worker as usize] = hand;
        made
    }

    /// The query and the stage of the slot that the worker holds.
    pub(crate) fn held(&self, worker: u32) -> Option<(Option<u32>, u32)> {
        match self.hands.get(worker as usize) {
            Some(Hand::Holder(holder)) => Some((holder.query, holder.stage)),
            _ => None,
        }
    }

    /// The counter of the slot is this word, in a form that shows its words at any time.
    pub(crate) fn expect_counter(&self, rt: &impl Abort, slot: u32, word: u64) {
        self.table.expect_counter(rt, slot, word);
    }

    /// Ends the table, which has one slot and whose workers are all free. If it has words, these
    /// are the final ones: those up to the slot's, and then each worker's.
    pub(crate) fn expect_words(
        self,
        rt: &impl Abort,
        alloc: Global,
        slot: &[u64; 6],
        workers: &[[u64; 5]],
    ) -> Result<(), Fail> {
        let Player {
            table,
            sets: _,
            hands: _,
        } = self;
        let mut words = slot.to_vec(alloc)?;
        for worker in workers {
            words.extend_from_slice(worker)?;
        }
        table.expect_words(rt, alloc, words.as_slice())
    }

    /// Plays these entries of a worker in order, and asserts that each call makes its entry.
    pub(crate) fn play<L: Ledger>(
        &mut self,
        rt: &impl Abort,
        worker: u32,
        acts: &[Act],
        steps: &mut Steps<L>,
    ) {
        for (i, act) in acts.iter().enumerate() {
            let made = self.call(rt, worker, act, steps);
            assert!(rt;
                made == *act,
                "another answer to entry {i}, of worker {worker}"
            );
        }
    }
}
