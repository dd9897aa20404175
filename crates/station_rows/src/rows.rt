//! Worked rows: what each worker calls on a table, in order, with the answers that it gets.
ghost use Rattle.std.specs.Prelude.{◌≡◌, ◌<◌};

use crate::board_table::BoardTable;
use crate::form::Form;
use crate::player::Player;
use crate::referee::Referee;
use crate::subject::Piece;
use plain_slots::table::PlainTable;
use slot_history::act::Act;
use slot_history::act::Act::{
    AdmitGot, AdmitLost, Announce, Arrivals, ClaimRange, ClaimUsed, Enter, Finished, Install,
    LeaveLeft, LeaveOwe, LookInvalid, LookOpen, LookVacant, MarkMarked, MarkMissed, NoteDone,
    PayDone, PayLast, Release, ReserveGot, ReserveTaken, SetTotal, ShutLost, ShutWon, SweepLast,
    SweepOthers, TakeChange, TakeReturn,
};
use slot_history::shape::{MOST_SLOTS, MOST_WORKERS, PARTS, STAGES};
use slot_proto::proto::Proto;
use slot_station::steps::Steps;
use std::alloc::Global;
use std::marker::Brand;
use std::process::Abort;
use std::sync::ledger::{Blank, Ledger};
use std::test::Fail;

/// A worker reserves slot s, and opens it with the first task set of the next query, of this id and
/// total. Nobody is told of it yet.
pub(crate) fn opens(s: u32, id: u32, total: u32) -> [Act; 4] {
    [
        ReserveGot(s),
        AdmitGot(id / STAGES),
        SetTotal(total),
        Install(id),
    ]
}

/// A worker goes to slot s, finds the task set of this id open and used up, and shuts it.
pub(crate) fn shuts(s: u32, id: u32) -> [Act; 5] {
    [Enter(s), LookOpen(id), ClaimUsed(16), ShutWon, LeaveLeft]
}

impl<'r, R: Abort, L: Ledger> Referee<'r, R, L> {
    /// A marked worker pays before the sweep, which is the last then.
    fn pays_before_the_sweep<T: Form>(&mut self) -> Result<(), Fail> {
        let mut table = self.table::<T>(1, 2, &[(0, 0)])?;
        self.play(&mut table, 0, &opens(0, 0, 0));
        self.play(&mut table, 0, &[Announce, Announce]);
        self.play(&mut table, 0, &[Enter(0), LookOpen(0), ClaimUsed(16)]);
        self.play(&mut table, 1, &[Enter(0)]);
        self.play(&mut table, 0, &[ShutWon, LeaveLeft, MarkMarked]);
        self.play(&mut table, 1, &[LookInvalid, LeaveOwe(0), PayDone]);
        table.expect_counter(self.rt, 0, 4_294_967_295);
        self.sweeps_last(table, &[[0, 0, 0, 1, 0]; 2])
    }

    /// The sweep is the last. The first worker gives the slot back, and the table ends with these
    /// words of its workers.
    fn sweeps_last<T: Form>(
        &mut self,
        mut table: Player<T>,
        workers: &[[u64; 5]],
    ) -> Result<(), Fail> {
        self.play(&mut table, 0, &[SweepLast]);
        table.expect_counter(self.rt, 0, 4_294_967_296);
        self.expect_finaliser(&table, 0);
        self.play(&mut table, 0, &[NoteDone(1), Release]);
        self.end(table, &[0, 1, 1, 0, 16, 4_294_967_296], workers)
    }

    /// Two workers find a slot empty, and leave it.
    fn two_find_it_empty<T: Form>(&mut self) -> Result<(), Fail> {
        let mut table = self.table::<T>(1, 2, &[(0, 0)])?;
        self.play(&mut table, 0, &[Enter(0)]);
        self.play(&mut table, 1, &[Enter(0)]);
        self.play(&mut table, 0, &[LookVacant]);
        self.play(&mut table, 1, &[LookVacant, LeaveLeft]);
        self.play(&mut table, 0, &[LeaveLeft]);
        self.end(table, &[0, 0, 0, 0, 0, 4_294_967_296], &[[0; 5]; 2])
    }

    /// Two marked workers pay before the sweep, and neither is the last.
    fn two_pay_before_the_sweep<T: Form>(&mut self) -> Result<(), Fail> {
        let mut table = self.table::<T>(1, 3, &[(0, 0)])?;
        self.play(&mut table, 0, &opens(0, 0, 0));
        self.play(&mut table, 0, &[Announce, Announce, Announce]);
        self.play(&mut table, 1, &[Enter(0)]);
        self.play(&mut table, 2, &[Enter(0)]);
        self.play(&mut table, 0, &shuts(0, 0));
        self.play(&mut table, 0, &[MarkMarked, MarkMarked]);
        for worker in 1..3 {
            self.play(&mut table, worker, &[LookInvalid]);
        }
        for worker in 1..3 {
            self.play(&mut table, worker, &[LeaveOwe(0)]);
        }
        for worker in 1..3 {
            self.play(&mut table, worker, &[PayDone]);
        }
        table.expect_counter(self.rt, 0, 4_294_967_294);
        self.sweeps_last(table, &[[0, 0, 0, 1, 0]; 3])
    }

    /// A worker that looked before the task set was installed is marked for it, and pays last.
    fn a_stranger_pays_last<T: Form>(&mut self) -> Result<(), Fail> {
        let mut table = self.table::<T>(1, 2, &[(0, 0)])?;
        self.play(&mut table, 1, &[Enter(0), LookVacant]);
        self.play(&mut table, 0, &opens(0, 0, 0));
        self.play(&mut table, 0, &[Announce, Announce]);
        self.play(&mut table, 0, &shuts(0, 0));
        self.play(&mut table, 0, &[MarkMarked, SweepOthers(1)]);
        self.play(&mut table, 1, &[LeaveOwe(0), PayLast]);
        self.expect_finaliser(&table, 1);
        table.expect_counter(self.rt, 0, 4_294_967_296);
        self.play(&mut table, 1, &[NoteDone(1), Release]);
        self.play(&mut table, 1, &[Finished(1), Arrivals(1)]);
        self.play(&mut table, 0, &[ReserveGot(0), Release]);
        self.end(
            table,
            &[0, 1, 1, 0, 16, 4_294_967_296],
            &[[0, 0, 0, 1, 0]; 2],
        )
    }

    /// A table whose one slot served query 0, which worker 2 saw, and is empty again.
    fn after_a_query<T: Form>(&mut self) -> Result<Player<T>, Fail> {
        let mut table = self.table::<T>(1, 3, &[(0, 0), (8, 5), (9, 7)])?;
        self.play(&mut table, 0, &opens(0, 0, 0));
        self.play(&mut table, 0, &[Announce, Announce, Announce]);
        self.play(&mut table, 2, &[TakeChange(0, 1), Enter(0), LookOpen(0)]);
        self.play(&mut table, 2, &[LeaveLeft]);
        self.play(&mut table, 0, &shuts(0, 0));
        self.play(&mut table, 0, &[MarkMissed, MarkMissed, SweepLast]);
        self.play(&mut table, 0, &[NoteDone(1), Release]);
        Ok(table)
    }

    /// One of three workers asks the others, who are not at the slot, and so ends the task set that
    /// it shut. It installs the next one of the query, of this id and total, and tells everybody.
    fn goes_on<T: Form>(&mut self, table: &mut Player<T>, worker: u32, id: u32, total: u32) {
        self.play(table, worker, &[MarkMissed, MarkMissed, SweepLast]);
        self.play(table, worker, &[NoteDone(1), SetTotal(total), Install(id)]);
        self.play(table, worker, &[Announce, Announce, Announce]);
    }

    /// A slot gets another query and its next task set while a worker keeps a notice of the query
    /// before.
    fn notices_outlive_a_query<T: Form>(&mut self) -> Result<(), Fail> {
        let mut table = self.after_a_query::<T>()?;
        self.play(&mut table, 0, &opens(0, 8, 5));
        self.play(&mut table, 0, &[Announce, Announce]);
        self.play(&mut table, 1, &[Enter(0), LookOpen(8)]);
        self.play(&mut table, 1, &[ClaimRange(16, 0, 5), LeaveLeft]);
        self.play(&mut table, 1, &shuts(0, 8));
        self.goes_on(&mut table, 1, 9, 7);
        self.play(&mut table, 2, &[TakeReturn(0, 1), TakeChange(0, 0)]);
        self.play(&mut table, 2, &[Enter(0), LookOpen(9), LeaveLeft]);
        self.play(&mut table, 0, &[Announce]);
        self.play(&mut table, 2, &[TakeChange(0, 1), Enter(0), LookOpen(9)]);
        self.play(&mut table, 2, &[LeaveLeft]);
        let told = [0, 1, 0, 1, 0];
        let slot = [0, 2, 2, 42, 30_064_771_072, 4_294_967_296];
        self.end(table, &slot, &[told, told, [0; 5]])
    }

    /// A slot is filled again before a worker that entered it has looked.
    fn filled_again<T: Form>(&mut self) -> Result<(), Fail> {
        let mut table = self.table::<T>(1, 2, &[(0, 0), (8, 5)])?;
        self.play(&mut table, 0, &opens(0, 0, 0));
        self.play(&mut table, 0, &[Announce, Announce]);
        self.play(&mut table, 0, &shuts(0, 0));
        self.play(&mut table, 0, &[MarkMissed]);
        self.play(&mut table, 1, &[Enter(0)]);
        self.play(&mut table, 0, &[SweepLast, NoteDone(1), Release]);
        self.play(&mut table, 0, &opens(0, 8, 5));
        self.play(&mut table, 1, &[LookOpen(8), ClaimRange(16, 0, 5)]);
        Ok(())
    }

    /// One of two workers reserves a slot, and the other learns its word.
    fn reserves_once<T: Form>(&mut self) -> Result<(), Fail> {
        let mut table = self.table::<T>(1, 2, &[(0, 0)])?;
        self.play(&mut table, 0, &[ReserveGot(0)]);
        self.play(&mut table, 1, &[ReserveTaken(0, 1)]);
        self.play(&mut table, 0, &[AdmitLost(1, 0), AdmitGot(0), SetTotal(0)]);
        self.play(&mut table, 0, &[Install(0)]);
        self.play(&mut table, 1, &[ReserveTaken(0, 6)]);
        self.play(&mut table, 0, &[Announce, Announce]);
        self.play(&mut table, 0, &shuts(0, 0));
        self.play(&mut table, 1, &[ReserveTaken(0, 7)]);
        Ok(())
    }

    /// Three queries take turns in one slot.
    fn queries_take_turns<T: Form>(&mut self) -> Result<(), Fail> {
        let mut table = self.table::<T>(1, 1, &[(0, 3), (8, 3), (16, 3)])?;
        for (id, word, finished) in [(0, 6, 1), (8, 38, 2), (16, 70, 3)] {
            self.play(&mut table, 0, &opens(0, id, 3));
            self.play(&mut table, 0, &[Announce, ReserveTaken(0, word), Enter(0)]);
            self.play(&mut table, 0, &[LookOpen(id), ClaimRange(16, 0, 3)]);
            self.play(&mut table, 0, &[LeaveLeft]);
            self.play(&mut table, 0, &[ReserveTaken(0, word)]);
            self.play(&mut table, 0, &shuts(0, id));
            self.play(&mut table, 0, &[SweepLast, NoteDone(1), Release]);
            self.play(&mut table, 0, &[Finished(finished)]);
        }
        Ok(())
    }

    /// Two workers share the tuples of a task set.
    fn ranges_follow<T: Form>(&mut self) -> Result<(), Fail> {
        let mut table = self.table::<T>(1, 2, &[(0, 100)])?;
        self.play(&mut table, 0, &opens(0, 0, 100));
        self.play(&mut table, 0, &[Announce, Announce]);
        self.play(&mut table, 0, &[Enter(0), LookOpen(0)]);
        self.play(&mut table, 0, &[ClaimRange(16, 0, 16)]);
        self.play(&mut table, 1, &[Enter(0), LookOpen(0)]);
        self.play(&mut table, 1, &[ClaimRange(16, 16, 32)]);
        self.play(&mut table, 1, &[LeaveLeft]);
        self.play(&mut table, 0, &[LeaveLeft]);
        Ok(())
    }

    /// Two workers find a task set used up, and the second is marked though it came to shut it.
    fn one_of_two_shuts<T: Form>(&mut self) -> Result<(), Fail> {
        let mut table = self.table::<T>(2, 2, &[(0, 0)])?;
        self.play(&mut table, 0, &opens(1, 0, 0));
        self.play(&mut table, 0, &[Announce, Announce]);
        self.play(&mut table, 1, &[TakeChange(0, 2), TakeChange(1, 0)]);
        self.play(&mut table, 1, &[Enter(1), LookOpen(0), ClaimUsed(1)]);
        self.play(&mut table, 0, &shuts(1, 0));
        self.play(&mut table, 1, &[ShutLost]);
        self.play(&mut table, 0, &[MarkMarked, SweepOthers(1)]);
        self.play(&mut table, 1, &[LeaveOwe(0), PayLast]);
        Ok(())
    }

    /// The last of 65 slots is opened, and later opened again. Its notices are in the masks of the
    /// second part alone.
    fn notices_of_the_second_part<T: Form>(&mut self) -> Result<(), Fail> {
        let mut table = self.table::<T>(65, 2, &[(0, 0), (1, 5)])?;
        self.play(&mut table, 0, &opens(64, 0, 0));
        self.play(&mut table, 0, &[Announce, Announce]);
        self.play(&mut table, 1, &[TakeChange(1, 1), TakeChange(0, 0)]);
        self.play(&mut table, 0, &shuts(64, 0));
        self.play(&mut table, 0, &[MarkMissed, SweepLast, NoteDone(1)]);
        self.play(&mut table, 0, &[SetTotal(5), Install(1)]);
        self.play(&mut table, 0, &[Announce, Announce]);
        self.play(&mut table, 1, &[TakeReturn(1, 1), TakeReturn(0, 0)]);
        self.play(&mut table, 1, &[TakeChange(1, 0)]);
        Ok(())
    }

    /// On the largest table the last worker opens the last slot, and then its next task set. Each
    /// call is made there.
    fn largest_table<T: Form>(&mut self) -> Result<(), Fail> {
        let (last, s, part) = (MOST_WORKERS - 1, MOST_SLOTS - 1, PARTS - 1);
        let mut table = self.table::<T>(MOST_SLOTS, MOST_WORKERS, &[(0, 5), (1, 0)])?;
        self.play(&mut table, last, &opens(s, 0, 5));
        self.repeat(&mut table, last, Announce, MOST_WORKERS);
        self.play(&mut table, 0, &[TakeChange(part, 1 << 63), Enter(s)]);
        self.play(&mut table, 0, &[LookOpen(0)]);
        self.play(&mut table, 0, &[ClaimRange(16, 0, 5), LeaveLeft]);
        self.play(&mut table, last, &[Enter(s), LookOpen(0)]);
        self.play(&mut table, 0, &shuts(s, 0));
        self.repeat(&mut table, 0, MarkMissed, MOST_WORKERS - 2);
        self.play(&mut table, 0, &[MarkMarked, SweepOthers(1)]);
        self.play(&mut table, last, &[LeaveOwe(0), PayLast]);
        self.play(&mut table, last, &[NoteDone(1), SetTotal(0), Install(1)]);
        self.ends_the_largest(&mut table);
        Ok(())
    }

    /// The last worker announces the last slot to all. The first worker takes its notice, ends the
    /// task set, which has no tuples, and gives the slot back.
    fn ends_the_largest<T: Form>(&mut self, table: &mut Player<T>) {
        let (last, s, part) = (MOST_WORKERS - 1, MOST_SLOTS - 1, PARTS - 1);
        self.repeat(table, last, Announce, MOST_WORKERS);
        self.play(table, 0, &[TakeReturn(part, 1 << 63)]);
        self.play(table, 0, &shuts(s, 1));
        self.repeat(table, 0, MarkMissed, MOST_WORKERS - 1);
        self.play(table, 0, &[SweepLast, NoteDone(1), Release, Arrivals(1)]);
        self.play(table, 0, &[Finished(2)]);
    }

    /// Plays the rows.
    fn play_all<T: Form>(&mut self) -> Result<(), Fail> {
        self.two_find_it_empty::<T>()?;
        self.pays_before_the_sweep::<T>()?;
        self.two_pay_before_the_sweep::<T>()?;
        self.a_stranger_pays_last::<T>()?;
        self.notices_outlive_a_query::<T>()?;
        self.filled_again::<T>()?;
        self.reserves_once::<T>()?;
        self.queries_take_turns::<T>()?;
        self.ranges_follow::<T>()?;
        self.one_of_two_shuts::<T>()?;
        self.notices_of_the_second_part::<T>()?;
        self.largest_table::<T>()
    }
}

/// Plays the rows, in the ledger that the caller picks.
fn play<T: Form, L: Ledger>(rt: &impl Abort, alloc: Global, blank: Blank) -> Result<(), Fail>
    requires name { blank.name ≡ L.name }
    requires parts { blank.parts ≡ L.parts }
    requires some { 0 < blank.parts }
{
    let steps = Steps::<L>::start(blank);
    Referee { rt, alloc, steps }.play_all::<T>()
}

#[test]
fn rows_are_played_on_states(rt: HostRuntime) -> Result<(), Fail> {
    play::<PlainTable<Piece>, Brand>(&rt, rt.alloc(), Blank::new(1))
}

#[test]
fn rows_are_played_on_words(rt: HostRuntime) -> Result<(), Fail> {
    play::<Proto<Piece>, Brand>(&rt, rt.alloc(), Blank::new(1))
}

#[test]
fn rows_are_played_on_the_board(rt: HostRuntime) -> Result<(), Fail> {
    play::<BoardTable, Brand>(&rt, rt.alloc(), Blank::new(1))
}
