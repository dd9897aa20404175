//! What plays rows and judges them, whatever the form of the table.
use crate::form::Form;
use crate::player::Player;
use crate::subject::Sets;
use slot_history::act::Act;
use slot_station::steps::Steps;
use std::alloc::Global;
use std::process::Abort;
use std::sync::ledger::Ledger;
use std::test::Fail;

/// Plays rows, counts their steps, and stops the test at an answer that is not the row's.
#[derive(Drop)]
pub(crate) struct Referee<'r, R: Abort, L: Ledger> {
    pub(crate) rt: &'r R,
    pub(crate) alloc: Global,
    pub(crate) steps: Steps<L>,
}

impl<'r, R: Abort, L: Ledger> Referee<'r, R, L> {
    /// A table of so many slots and workers for three queries, whose task sets have these totals.
    pub(crate) fn table<T: Form>(
        &self,
        slots: u32,
        workers: u32,
        totals: &[(u32, u32)],
    ) -> Result<Player<T>, Fail> {
        let totals = totals.to_vec(self.alloc)?;
        Player::new(self.alloc, slots, workers, Sets { queries: 3, totals })
    }

    /// Plays these entries of a worker in order.
    pub(crate) fn play<T: Form>(&mut self, table: &mut Player<T>, worker: u32, acts: &[Act]) {
        table.play(self.rt, worker, acts, &mut self.steps);
    }

    /// Plays one entry of a worker so many times.
    pub(crate) fn repeat<T: Form>(
        &mut self,
        table: &mut Player<T>,
        worker: u32,
        act: Act,
        times: u32,
    ) {
        for _ in 0..times {
            self.play(table, worker, &[act]);
        }
    }

    /// The worker holds a slot for query 0, whose first stage it finalised.
    pub(crate) fn expect_finaliser<T: Form>(&self, table: &Player<T>, worker: u32) {
        assert_eq!(self.rt; table.held(worker), Some((Some(0), 0)));
    }

    /// Ends the table, which has one slot and whose workers are all free. If it has words, these
    /// are the final ones: those up to the slot's, and then each worker's.
    pub(crate) fn end<T: Form>(
        &self,
        table: Player<T>,
        slot: &[u64; 6],
        workers: &[[u64; 5]],
    ) -> Result<(), Fail> {
        table.expect_words(self.rt, self.alloc, slot, workers)
    }
}
