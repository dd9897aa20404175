//! A form of the slot object: it makes a table, and each call of a worker at it.
use crate::hand::Hand;
use crate::subject::{Piece, Sets};
use crate::worker::Worker;
use one_thread::object::SlotObject;
use one_thread::table::OneTable;
use plain_slots::object::PlainObject;
use slot_history::act::Act;
use slot_history::place::Place;
use slot_proto::machine::Machine;
use slot_station::reply::MakeRefusal;
use slot_station::station::Station;
use slot_station::steps::Steps;
use slot_words::address::{Address, index};
use std::alloc::Global;
use std::process::Abort;
use std::snapshot::Snapshot;
use std::sync::ledger::Ledger;
use std::test::Fail;

/// What the rows ask of a form: tables of a subject, the calls of a worker, and its words if it has
/// words.
pub(crate) trait Form: Drop {
    ghost use Rattle.std.specs.Prelude.{◌≡◌, IfOk};
    ghost use Rattle.station_rows.specs.declared.subject.Sets.{Sets};

    // The subject that a table serves.
    ghost serves: { Self → Sets };

    /// A table of so many slots and workers, for this subject.
    fn make(alloc: Global, slots: u32, workers: u32, sets: &Sets) -> Result<Self, MakeRefusal>
        ensures { IfOk result (λ table. serves table ≡ sets.now) };

    /// The call that is asked for. The answer is the entry that it made, and what the worker has in
    /// hand after it.
    fn call<L: Ledger>(&mut self, rt: &impl Abort, ask: Ask, steps: &mut Steps<L>) -> (Act, Hand)
        requires subject { ask.sets.now ≡ serves self.old }
        ensures { serves self.new ≡ serves self.old };

    /// Asserts that a slot's counter is this word, in a form that shows its words at any time.
    fn expect_counter(&self, rt: &impl Abort, slot: u32, word: u64);

    /// Ends a table whose workers are all free, and asserts that its final words are these, in a
    /// form that has words.
    fn expect_words(self, rt: &impl Abort, alloc: Global, words: &[u64]) -> Result<(), Fail>;
}

/// A call that is asked for: of this worker, with what it has in hand, at a table that serves these
/// sets.
pub(crate) struct Ask<'s> {
    pub(crate) worker: u32,
    pub(crate) sets: &'s Sets,
    pub(crate) hand: Hand,
    pub(crate) act: Act,
}

impl<'s> Ask<'s> {
    ghost use Rattle.std.specs.Prelude.{◌≡◌};
    ghost use Rattle.slot_station.specs.Desks.{own_place};

    /// Makes the call at a station of the worker, who is at this place. It answers what a form
    /// answers.
    pub(crate) fn make<S: Station<Piece>, L: Ledger>(
        self,
        rt: &impl Abort,
        station: &mut S,
        place: Place,
        steps: &mut Steps<L>,
    ) -> (Act, Hand)
        requires place { place ≡ own_place (S.seen station.old) }
        requires subject { self.sets.now ≡ (S.seen station.old).desk.subject }
        ensures { (S.seen station.new).origin ≡ (S.seen station.old).origin }
    {
        let Ask {
            worker: _,
            sets,
            hand,
            act,
        } = self;
        let mut worker = Worker {
            station,
            place,
            hand,
            sets,
        };
        let made = worker.call(rt, act, steps);
        let Worker {
            station: _,
            place: _,
            hand,
            sets: _,
        } = worker;
        (made, hand)
    }
}

/// An object whose words the rows see, where it has words.
pub(crate) trait ShowsWords {
    /// Asserts that a slot's counter is this word.
    fn expect_counter(&self, rt: &impl Abort, slot: u32, word: u64);

    /// Asserts that its words are these.
    fn expect_words(&self, rt: &impl Abort, words: &[u64]);
}

impl ShowsWords for PlainObject {
    fn expect_counter(&self, _rt: &impl Abort, _slot: u32, _word: u64) {}

    fn expect_words(&self, _rt: &impl Abort, _words: &[u64]) {}
}

impl ShowsWords for Machine {
    fn expect_counter(&self, rt: &impl Abort, slot: u32, word: u64) {
        let words = self.words();
        let at = index(&self.shape(), Address::CounterOf(slot));
        assert!(rt; at < words.len());
        assert_eq!(rt; words[at], word, "the counter of slot {slot}");
    }

    fn expect_words(&self, rt: &impl Abort, words: &[u64]) {
        assert_eq!(rt; self.words(), words);
    }
}

impl<O: SlotObject + ShowsWords> Form for OneTable<Piece, O> {
    ghost serves = { λ t. t.subject };

    fn make(
        alloc: Global,
        slots: u32,
        workers: u32,
        sets: &Sets,
    ) -> Result<OneTable<Piece, O>, MakeRefusal> {
        OneTable::make(alloc, slots, workers, sets.queries, Snapshot::of(sets))
    }

    fn call<L: Ledger>(&mut self, rt: &impl Abort, ask: Ask, steps: &mut Steps<L>) -> (Act, Hand) {
        assert!(rt; ask.worker < self.shape().workers);
        let mut seat = self.seat(ask.worker);
        let place = seat.place();
        let answer = ask.make(rt, &mut seat, place, steps);
        drop(seat);
        answer
    }

    fn expect_counter(&self, rt: &impl Abort, slot: u32, word: u64) {
        self.object().expect_counter(rt, slot, word);
    }

    fn expect_words(self, rt: &impl Abort, _alloc: Global, words: &[u64]) -> Result<(), Fail> {
        self.object().expect_words(rt, words);
        Ok(())
    }
}
