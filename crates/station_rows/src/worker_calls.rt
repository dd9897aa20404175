//! A worker's calls at a cell type of the tests' own, through the bound of a station.
//!
//! Each asserts what its call asks for, by the worker's place and the token in its hand, so that a
//! test may make its calls in any order. It answers the entry that the call made, and leaves in the
//! worker's hand what it has after the call.
ghost use Rattle.std.specs.Prelude.{◌≡◌, ℕ, ◌<◌, true, IsSome, IfSome};
ghost use Rattle.slot_history.specs.States as states;
ghost use Rattle.slot_station.specs.declared.note.Note.TheVariants.{Kept};
ghost use Rattle.slot_station.specs.Cells.{has_cell, fresh_note};
ghost use Rattle.slot_station.specs.Desks.{own_place, own_holding, Owns, KeepsTrail};
ghost use Rattle.slot_station.specs.Tokens.{IsHolder};
ghost use Rattle.station_rows.specs.Played.{IsAt, HasToken, KeepsOrigin};

use crate::hand::{Hand, hand_at};
use crate::subject::Piece;
use crate::worker::Worker;
use slot_history::act::Act;
use slot_history::place::{Held, Place};
use slot_history::shape::{MOST_CLAIM, MOST_QUERIES, MOST_TOTAL, PARTS, STAGES};
use slot_station::moves::id_at;
use slot_station::reply::{Claim, Leave, Pay, Reserve, Shut, Sweep};
use slot_station::station::{Fits, Station};
use slot_station::steps::Steps;
use slot_station::token::Holder;
use std::mem;
use std::process::Abort;
use std::sync::ledger::Ledger;

impl<'s, S: Station<Piece>> Worker<'s, S> {
    /// The call of this entry. The answer is the entry that it made.
    pub(crate) fn call<L: Ledger>(&mut self, rt: &impl Abort, act: Act, steps: &mut Steps<L>) -> Act
        requires { IsAt S.seen self.old }
        ensures { KeepsOrigin S.seen self.old self.new }
    {
        expect_hand(rt, self);
        match act {
            Act::Arrivals(_) => Act::Arrivals(self.station.arrivals(steps)),
            Act::Finished(_) => Act::Finished(self.station.finished(steps)),
            Act::TakeReturn(part, _) => self.take_return(rt, part, steps),
            Act::TakeChange(part, _) => self.take_change(rt, part, steps),
            Act::ReserveGot(s) | Act::ReserveTaken(s, _) => self.reserve(rt, s, steps),
            Act::AdmitGot(q) | Act::AdmitLost(q, _) => self.admit(rt, q, steps),
            Act::NoteDone(k) => self.note_done(rt, k, steps),
            Act::SetTotal(total) => self.set_total(rt, total, steps),
            Act::Install(id) => self.install(rt, id, steps),
            Act::Release => self.release(rt, steps),
            Act::Announce => self.announce(rt, steps),
            _ => self.call_at_slot(rt, act, steps),
        }
    }

    /// The call of this entry, which is one of working on a task set or of its end.
    fn call_at_slot<L: Ledger>(&mut self, rt: &impl Abort, act: Act, steps: &mut Steps<L>) -> Act
        requires { HasToken S.seen self.old }
        ensures { KeepsOrigin S.seen self.old self.new }
    {
        match act {
            Act::Enter(s) => self.enter(rt, s, steps),
            Act::LookOpen(_) | Act::LookInvalid | Act::LookVacant => self.look(rt, steps),
            Act::ClaimRange(n, _, _) | Act::ClaimUsed(n) => self.claim(rt, n, steps),
            Act::ShutWon | Act::ShutLost => self.shut(rt, steps),
            Act::LeaveLeft | Act::LeaveOwe(_) => self.leave(rt, steps),
            Act::MarkMarked | Act::MarkMissed => self.mark(rt, steps),
            Act::SweepLast | Act::SweepOthers(_) => self.sweep(rt, steps),
            Act::PayLast | Act::PayDone => self.pay(rt, steps),
            _ => panic!(rt; "no call at a slot"),
        }
    }

    fn enter<L: Ledger>(&mut self, rt: &impl Abort, s: u32, steps: &mut Steps<L>) -> Act
        requires { HasToken S.seen self.old }
        ensures { KeepsOrigin S.seen self.old self.new }
    {
        assert!(rt; self.place == Place::Free);
        assert!(rt; s < self.station.slots());
        self.station.enter(s, steps);
        Act::Enter(s)
    }

    fn look<L: Ledger>(&mut self, rt: &impl Abort, steps: &mut Steps<L>) -> Act
        requires { HasToken S.seen self.old }
        ensures { KeepsOrigin S.seen self.old self.new }
    {
        let Place::Entered(_) = self.place else {
            panic!(rt; "the worker has not just entered");
        };
        self.station.look(steps).act()
    }

    fn claim<L: Ledger>(&mut self, rt: &impl Abort, n: u32, steps: &mut Steps<L>) -> Act
        requires { HasToken S.seen self.old }
        ensures { KeepsOrigin S.seen self.old self.new }
    {
        let Place::Inside(..) = self.place else {
            panic!(rt; "the worker is not inside");
        };
        assert!(rt; 0 < n && n <= MOST_CLAIM);
        let claim = self.station.claim(n, steps);
        let act = claim.act(n);
        if let Claim::Exhausted(spent) = claim {
            self.hand = Hand::Spent(spent);
        }
        act
    }

    fn shut<L: Ledger>(&mut self, rt: &impl Abort, steps: &mut Steps<L>) -> Act
        requires { HasToken S.seen self.old }
        ensures { KeepsOrigin S.seen self.old self.new }
    {
        let Hand::Spent(spent) = self.take_hand() else {
            panic!(rt; "the worker found no task set used up");
        };
        let shut = self.station.shut(spent, steps);
        let act = shut.act();
        if let Shut::Won(coordinator) = shut {
            self.hand = Hand::Coordinator(coordinator);
        }
        act
    }

    /// Leaves the slot. The worker's own cell has its piece of the task set before, where it is
    /// inside.
    fn leave<L: Ledger>(&mut self, rt: &impl Abort, steps: &mut Steps<L>) -> Act
        requires { HasToken S.seen self.old }
        ensures { KeepsOrigin S.seen self.old self.new }
    {
        assert!(rt; may_leave(&self.place));
        keep_own(rt, self.station, &self.place, steps);
        let leave = self.station.leave(steps);
        let act = leave.act();
        if let Leave::Owe(debt) = leave {
            self.hand = Hand::Debt(debt);
        }
        act
    }

    fn pay<L: Ledger>(&mut self, rt: &impl Abort, steps: &mut Steps<L>) -> Act
        requires { HasToken S.seen self.old }
        ensures { KeepsOrigin S.seen self.old self.new }
    {
        let Hand::Debt(debt) = self.take_hand() else {
            panic!(rt; "the worker owes nothing");
        };
        let pay = self.station.pay(debt, steps);
        let act = pay.act();
        if let Pay::Last(holder) = pay {
            self.hand = Hand::Holder(holder);
        }
        act
    }

    fn mark<L: Ledger>(&mut self, rt: &impl Abort, steps: &mut Steps<L>) -> Act
        requires { HasToken S.seen self.old }
        ensures { KeepsOrigin S.seen self.old self.new }
    {
        let (Place::Asking(..), Hand::Coordinator(mut coordinator)) = (self.place, self.take_hand())
        else {
            panic!(rt; "the worker does not ask");
        };
        assert!(rt; coordinator.asked < self.station.workers() - 1);
        let mark = self.station.mark_next(&mut coordinator, steps);
        self.hand = Hand::Coordinator(coordinator);
        mark.act()
    }

    fn sweep<L: Ledger>(&mut self, rt: &impl Abort, steps: &mut Steps<L>) -> Act
        requires { HasToken S.seen self.old }
        ensures { KeepsOrigin S.seen self.old self.new }
    {
        let (Place::Asking(..), Hand::Coordinator(coordinator)) = (self.place, self.take_hand())
        else {
            panic!(rt; "the worker does not ask");
        };
        assert!(rt; coordinator.asked == self.station.workers() - 1);
        let sweep = self.station.sweep(coordinator, steps);
        let act = sweep.act();
        if let Sweep::Last(holder) = sweep {
            self.hand = Hand::Holder(holder);
        }
        act
    }

    fn reserve<L: Ledger>(&mut self, rt: &impl Abort, s: u32, steps: &mut Steps<L>) -> Act
        requires { HasToken S.seen self.old }
        ensures { KeepsOrigin S.seen self.old self.new }
    {
        assert!(rt; self.place == Place::Free);
        assert!(rt; s < self.station.slots());
        let reserve = self.station.reserve(s, steps);
        let act = reserve.act(s);
        if let Reserve::Got(holder) = reserve {
            self.hand = Hand::Holder(holder);
        }
        act
    }

    /// What the worker holds, with the token in its hand. It has nothing in hand then.
    fn holding(&mut self, rt: &impl Abort) -> (Held, Holder)
        requires { HasToken S.seen self.old }
        ensures station { self.new.station ≡ self.old.station }
        ensures sets { self.new.sets.now ≡ self.old.sets.now }
        ensures held { result.0 ≡ own_holding (S.seen self.old.station.now) }
        ensures holder { Owns IsHolder (S.seen self.old.station.now) result.1 }
        ensures query { result.1.query ≡ result.0.query }
        ensures stage { result.1.stage ≡ result.0.stage }
    {
        let (Place::Holding(_, held), Hand::Holder(holder)) = (self.place, self.take_hand()) else {
            panic!(rt; "the worker holds no slot");
        };
        (held, holder)
    }

    fn admit<L: Ledger>(&mut self, rt: &impl Abort, q: u32, steps: &mut Steps<L>) -> Act
        requires { HasToken S.seen self.old }
        ensures { KeepsOrigin S.seen self.old self.new }
    {
        let (_, mut holder) = self.holding(rt);
        assert!(rt; holder.query.is_none());
        // it says that the object has the subject's queries
        let _slots = self.station.slots();
        assert!(rt; q < self.sets.queries);
        let admit = self.station.admit(&mut holder, q, steps);
        self.hand = Hand::Holder(holder);
        admit.act(q)
    }

    fn note_done<L: Ledger>(&mut self, rt: &impl Abort, k: u32, steps: &mut Steps<L>) -> Act
        requires { HasToken S.seen self.old }
        ensures { KeepsOrigin S.seen self.old self.new }
    {
        let (held, mut holder) = self.holding(rt);
        assert!(rt; held.query.is_some() && held.noted == 0);
        assert!(rt; 0 < k && k <= STAGES && held.stage <= STAGES - k);
        self.station.note_done(&mut holder, k, steps);
        self.hand = Hand::Holder(holder);
        Act::NoteDone(k)
    }

    fn set_total<L: Ledger>(&mut self, rt: &impl Abort, total: u32, steps: &mut Steps<L>) -> Act
        requires { HasToken S.seen self.old }
        ensures { KeepsOrigin S.seen self.old self.new }
    {
        let (held, mut holder) = self.holding(rt);
        assert!(rt; held.query.is_some() && total <= MOST_TOTAL);
        self.station.set_total(&mut holder, total, steps);
        self.hand = Hand::Holder(holder);
        Act::SetTotal(total)
    }

    /// Opens the slot with a task set of the subject. Every cell has a piece of it before.
    fn install<L: Ledger>(&mut self, rt: &impl Abort, id: u32, steps: &mut Steps<L>) -> Act
        requires { HasToken S.seen self.old }
        ensures { KeepsOrigin S.seen self.old self.new }
    {
        let (held, mut holder) = self.holding(rt);
        assert!(rt; id == next_of(rt, &held));
        assert!(rt; held.total.is_some());
        assert!(rt; held.total == self.sets.total(id));
        if held.again {
            assert!(rt; held.noted == 1);
            assert!(rt; held.stage < STAGES - 1);
        }
        let finalised = finalised_of(rt, &held);
        put_all(rt, self.station, &mut holder, finalised, Some(id), steps);
        let announcer = self.station.install(holder, id, steps);
        self.hand = Hand::Announcer(announcer);
        Act::Install(id)
    }

    /// Leaves the slot empty. Every value is taken out of its cells before.
    fn release<L: Ledger>(&mut self, rt: &impl Abort, steps: &mut Steps<L>) -> Act
        requires { HasToken S.seen self.old }
        ensures { KeepsOrigin S.seen self.old self.new }
    {
        let (held, mut holder) = self.holding(rt);
        assert!(rt; held.query.is_none() || 0 < held.noted);
        let finalised = finalised_of(rt, &held);
        put_all(rt, self.station, &mut holder, finalised, None, steps);
        self.station.release(holder, steps);
        Act::Release
    }

    /// Announces the slot to the next worker. With the last, the announcing ends.
    fn announce<L: Ledger>(&mut self, rt: &impl Abort, steps: &mut Steps<L>) -> Act
        requires { HasToken S.seen self.old }
        ensures { KeepsOrigin S.seen self.old self.new }
    {
        let Hand::Announcer(mut announcer) = self.take_hand() else {
            panic!(rt; "the worker does not announce");
        };
        let workers = self.station.workers();
        assert!(rt; announcer.told < workers);
        self.station.announce(&mut announcer, steps);
        if announcer.told < workers {
            self.hand = Hand::Announcer(announcer);
        } else {
            self.station.told_all(announcer);
        }
        Act::Announce
    }

    fn take_return<L: Ledger>(&mut self, rt: &impl Abort, part: u32, steps: &mut Steps<L>) -> Act
        ensures { KeepsOrigin S.seen self.old self.new }
    {
        assert!(rt; part < PARTS);
        Act::TakeReturn(part, self.station.take_return(part, steps))
    }

    fn take_change<L: Ledger>(&mut self, rt: &impl Abort, part: u32, steps: &mut Steps<L>) -> Act
        ensures { KeepsOrigin S.seen self.old self.new }
    {
        assert!(rt; part < PARTS);
        Act::TakeChange(part, self.station.take_change(part, steps))
    }

    /// What the worker has in hand. It has nothing in hand then.
    fn take_hand(&mut self) -> Hand
        ensures hand { result ≡ self.old.hand }
        ensures station { self.new.station ≡ self.old.station }
        ensures place { self.new.place ≡ self.old.place }
        ensures sets { self.new.sets.now ≡ self.old.sets.now }
    {
        mem::replace(&mut self.hand, Hand::Nothing)
    }
}

/// Asserts that the worker has in hand the token of its place.
fn expect_hand<S: Station<Piece>>(rt: &impl Abort, worker: &Worker<'_, S>)
    requires { IsAt S.seen worker.now }
    ensures { HasToken S.seen worker.now }
{
    let number = worker.station.worker();
    let workers = worker.station.workers();
    let expected = hand_at(&worker.place, number, workers);
    assert_eq!(rt; worker.hand, expected);
}

/// Whether a worker at this place has its own cell of the slot.
fn is_inside(place: &Place) -> bool
    ensures { result ≡ has_cell place.now }
{
    matches!(
        place,
        Place::Inside(..) | Place::Used(..) | Place::Behind(..) | Place::Leading(..)
    )
}

/// Whether a worker at this place may leave the slot.
fn may_leave(place: &Place) -> bool
    ensures { result ≡ states.can_leave place.now }
{
    matches!(
        place,
        Place::Astray(_) | Place::Inside(..) | Place::Behind(..) | Place::Leading(..)
    )
}

/// Where the worker is inside, puts its piece of the task set into its own cell, and asserts that
/// this is what the cell had.
fn keep_own<S: Station<Piece>, L: Ledger>(
    rt: &impl Abort,
    station: &mut S,
    place: &Place,
    steps: &mut Steps<L>,
)
    requires { place.now ≡ own_place (S.seen station.old) }
    ensures stays { KeepsTrail (S.seen station.old) (S.seen station.new) }
    ensures note { has_cell place.now ≡ true
        → (S.seen station.new).notes (S.seen station.old).desk.worker ≡ Kept }
{
    if is_inside(place) {
        let worker = station.worker();
        let id = id_at(place);
        let taken = station.own_cell(Some(Piece { worker, id }), steps);
        assert_eq!(rt; taken, Some(Piece { worker, id }));
    }
}

/// The task set that a holder may install next.
fn next_of(rt: &impl Abort, held: &Held) -> u32
    ensures query { IsSome held.now.query }
    ensures next { result ≡ states.next_id held.now }
{
    let Some(q) = held.query else {
        panic!(rt; "no query was admitted");
    };
    assert!(rt; q < MOST_QUERIES);
    assert!(rt; held.stage < STAGES);
    if held.again {
        STAGES * q + (held.stage + 1)
    } else {
        STAGES * q
    }
}

/// The task set that a holder finalises, or none after a reservation.
fn finalised_of(rt: &impl Abort, held: &Held) -> Option<u32> {
    if !held.again {
        return None;
    }
    let Some(q) = held.query else {
        panic!(rt; "a task set of no query is finalised");
    };
    assert!(rt; q < MOST_QUERIES);
    assert!(rt; held.stage < STAGES);
    Some(STAGES * q + held.stage)
}

/// Puts a piece of this task set, or of none nothing, into every cell of the slot that is held, and
/// asserts that each had the piece of its worker of the task set that is finalised, or nothing
/// after a reservation.
fn put_all<S: Station<Piece>, L: Ledger>(
    rt: &impl Abort,
    station: &mut S,
    holder: &mut Holder,
    finalised: Option<u32>,
    id: Option<u32>,
    steps: &mut Steps<L>,
)
    requires holder { Owns IsHolder (S.seen station.old) holder.old }
    requires next { IfSome id (λ next. IsSome (own_holding (S.seen station.old)).query
        × (next ≡ states.next_id (own_holding (S.seen station.old)))) }
    ensures stays { KeepsTrail (S.seen station.old) (S.seen station.new) }
    ensures same { holder.new ≡ holder.old }
    ensures cells { (v : ℕ) → v < (S.seen station.old).desk.shape.workers
        → (S.seen station.new).notes v ≡ fresh_note id }
{
    let workers = station.workers();
    for worker in 0..workers {
        let piece = id.map(|id| Piece { worker, id });
        let taken = station.cell(holder, worker, piece, steps);
        assert_eq!(rt; taken, finalised.map(|id| Piece { worker, id }));
    }
}
