//! The object on one thread as the states of its slots and workers: what is kept of it at run time,
//! and each call's step.
ghost use Rattle.one_thread.specs.Stories.{MakesCall};
ghost use Rattle.plain_slots.specs.Objects.{MayMove};

use crate::answers::{admit_at, announce_at, mark_if, paid_by, reserved_by, step, swept_by};
use crate::slot::{Slot, Work, claim_in, id_in, seen_in, shut_in};
use one_thread::object::SlotObject;
use slot_history::act::Act;
use slot_history::place::Place;
use slot_history::shape::{PARTS, Shape};
use slot_station::answers::{
    announcer, cell_index, claimed_by, left_by, mask_index, nth_other, shut_by,
};
use slot_station::ghost_list::GhostList;
use slot_station::log::{Exchange, Logged};
use slot_station::moves::{held_at, is_at, slot_at};
use slot_station::reply::{Admit, Claim, Leave, Look, Mark, Pay, Reserve, Shut, Sweep};
use slot_station::token::Announcer;
use std::alloc::{AllocError, Global};
use std::marker::Model;
use std::mem;

/// What is kept: of each slot what it holds, which workers have to pay there and how many they are,
/// of each worker its place and its pending notices, and the two numbers. The log is for contracts
/// alone.
#[derive(Drop)]
pub struct PlainObject {
    shape: Shape,
    slots: Vec<Slot>,
    /// Of slot s and worker w at `s * workers + w`, whether w was marked at s and has not paid.
    owing: Vec<bool>,
    /// Of each slot, how many workers were marked there and have not paid.
    debts: Vec<u32>,
    places: Vec<Place>,
    /// Of worker w the mask words from `w * PARTS` on.
    returns: Vec<u64>,
    changes: Vec<u64>,
    admitted: u32,
    finished: u32,
    log: GhostList<Logged>,
}

impl Model for PlainObject {
    ghost use Rattle.one_thread.specs.Stories.{Story};
    ghost use Rattle.plain_slots.specs.Objects.{IsObject};

    ghost Value = { Story };

    ghost view = { λ o. record { shape = o.shape; log = o.log } };

    ghost invariant = { λ o. IsObject (record {
      shape = o.shape;
      slots = o.slots.items;
      owing = o.owing.items;
      debts = o.debts.items;
      places = o.places.items;
      returns = o.returns.items;
      changes = o.changes.items;
      admitted = o.admitted;
      finished = o.finished;
      log = o.log;
    }) };
}

impl PlainObject {
    /// Makes a call that changes its worker's place alone.
    fn go_on(&mut self, worker: u32, act: &Act)
        requires { MayMove self.old worker act.now }
        ensures { MakesCall self.old worker act.now self.new }
    {
        step(&self.shape, &mut self.places, &mut self.log, worker, act);
    }
}

impl SlotObject for PlainObject {
    ghost story = { λ o. o };

    fn make(alloc: Global, shape: Shape) -> Result<PlainObject, AllocError> {
        let slots = shape.slots as usize;
        let workers = shape.workers as usize;
        Ok(PlainObject {
            shape,
            slots: vec![in alloc; Slot::Empty; slots]?,
            owing: vec![in alloc; false; slots * workers]?,
            debts: vec![in alloc; 0; slots]?,
            places: vec![in alloc; Place::Free; workers]?,
            returns: vec![in alloc; 0; workers * PARTS as usize]?,
            changes: vec![in alloc; 0; workers * PARTS as usize]?,
            admitted: 0,
            finished: 0,
            log: GhostList::new(alloc)?,
        })
    }

    fn shape(&self) -> Shape {
        self.shape
    }

    fn place(&self, worker: u32) -> Place {
        self.places[worker as usize]
    }

    fn into_log(self) -> GhostList<Logged> {
        let PlainObject {
            shape: _,
            slots: _,
            owing: _,
            debts: _,
            places: _,
            returns: _,
            changes: _,
            admitted: _,
            finished: _,
            log,
        } = self;
        log
    }

    fn exchanged(&mut self, exchange: Exchange) {
        self.log.push(&Logged::Exchanged(exchange));
    }

    fn enter(&mut self, worker: u32, s: u32) {
        self.go_on(worker, &Act::Enter(s));
    }

    fn look(&mut self, worker: u32) -> Look {
        let s = slot_at(&self.places[worker as usize]);
        let look = seen_in(&self.slots[s as usize]);
        step(
            &self.shape,
            &mut self.places,
            &mut self.log,
            worker,
            &look.act(),
        );
        look
    }

    fn claim(&mut self, worker: u32, n: u32) -> Claim {
        let place = self.places[worker as usize];
        let slot = &mut self.slots[slot_at(&place) as usize];
        let claim = claimed_by(worker, &place, claim_in(slot, n));
        step(
            &self.shape,
            &mut self.places,
            &mut self.log,
            worker,
            &claim.act(n),
        );
        claim
    }

    fn shut(&mut self, worker: u32) -> Shut {
        let place = self.places[worker as usize];
        let slot = &mut self.slots[slot_at(&place) as usize];
        let shut = shut_by(worker, &place, &self.shape, shut_in(slot));
        step(
            &self.shape,
            &mut self.places,
            &mut self.log,
            worker,
            &shut.act(),
        );
        shut
    }

    fn leave(&mut self, worker: u32) -> Leave {
        let s = slot_at(&self.places[worker as usize]);
        let owes = self.owing[cell_index(&self.shape, s, worker)];
        let leave = left_by(worker, s, id_in(&self.slots[s as usize]), owes);
        step(
            &self.shape,
            &mut self.places,
            &mut self.log,
            worker,
            &leave.act(),
        );
        leave
    }

    fn mark_next(&mut self, worker: u32) -> Mark {
        let place = self.places[worker as usize];
        let s = slot_at(&place);
        let Place::Asking(_, _, asked, _) = place else {
            unreachable!()
        };
        let next = nth_other(worker, asked);
        let is_there = is_at(&self.places[next as usize], s);
        let owes = &mut self.owing[cell_index(&self.shape, s, next)];
        let mark = mark_if(is_there, owes, &mut self.debts[s as usize]);
        step(
            &self.shape,
            &mut self.places,
            &mut self.log,
            worker,
            &mark.act(),
        );
        mark
    }

    fn sweep(&mut self, worker: u32) -> Sweep {
        let place = self.places[worker as usize];
        let s = slot_at(&place);
        let debts = self.debts[s as usize];
        let sweep = swept_by(worker, &place, &mut self.slots[s as usize], debts);
        step(
            &self.shape,
            &mut self.places,
            &mut self.log,
            worker,
            &sweep.act(),
        );
        sweep
    }

    fn pay(&mut self, worker: u32) -> Pay {
        let place = self.places[worker as usize];
        let s = slot_at(&place);
        self.owing[cell_index(&self.shape, s, worker)] = false;
        let debts = &mut self.debts[s as usize];
        let pay = paid_by(worker, &place, &mut self.slots[s as usize], debts);
        step(
            &self.shape,
            &mut self.places,
            &mut self.log,
            worker,
            &pay.act(),
        );
        pay
    }

    fn reserve(&mut self, worker: u32, s: u32) -> Reserve {
        let reserve = reserved_by(worker, s, &mut self.slots[s as usize]);
        step(
            &self.shape,
            &mut self.places,
            &mut self.log,
            worker,
            &reserve.act(s),
        );
        reserve
    }

    fn admit(&mut self, worker: u32, q: u32) -> Admit {
        let admit = admit_at(&mut self.admitted, q);
        step(
            &self.shape,
            &mut self.places,
            &mut self.log,
            worker,
            &admit.act(q),
        );
        admit
    }

    fn arrivals(&mut self, worker: u32) -> u32 {
        let admitted = self.admitted;
        self.go_on(worker, &Act::Arrivals(admitted));
        admitted
    }

    fn finished(&mut self, worker: u32) -> u32 {
        let finished = self.finished;
        self.go_on(worker, &Act::Finished(finished));
        finished
    }

    fn note_done(&mut self, worker: u32, k: u32) {
        self.finished += k;
        step(
            &self.shape,
            &mut self.places,
            &mut self.log,
            worker,
            &Act::NoteDone(k),
        );
    }

    fn set_total(&mut self, worker: u32, total: u32) {
        step(
            &self.shape,
            &mut self.places,
            &mut self.log,
            worker,
            &Act::SetTotal(total),
        );
    }

    fn install(&mut self, worker: u32, id: u32) -> Announcer {
        let place = self.places[worker as usize];
        self.slots[slot_at(&place) as usize] = Slot::Open(Work {
            id,
            total: held_at(&place).total.unwrap_or(0),
            next: 0,
        });
        step(
            &self.shape,
            &mut self.places,
            &mut self.log,
            worker,
            &Act::Install(id),
        );
        announcer(worker, &place, &self.shape)
    }

    fn release(&mut self, worker: u32) {
        let s = slot_at(&self.places[worker as usize]);
        self.slots[s as usize] = Slot::Empty;
        step(
            &self.shape,
            &mut self.places,
            &mut self.log,
            worker,
            &Act::Release,
        );
    }

    fn announce(&mut self, worker: u32) {
        let place = self.places[worker as usize];
        announce_at(&place, &mut self.returns, &mut self.changes);
        step(
            &self.shape,
            &mut self.places,
            &mut self.log,
            worker,
            &Act::Announce,
        );
    }

    fn take_return(&mut self, worker: u32, part: u32) -> u64 {
        let bits = mem::replace(&mut self.returns[mask_index(worker, part)], 0);
        step(
            &self.shape,
            &mut self.places,
            &mut self.log,
            worker,
            &Act::TakeReturn(part, bits),
        );
        bits
    }

    fn take_change(&mut self, worker: u32, part: u32) -> u64 {
        let bits = mem::replace(&mut self.changes[mask_index(worker, part)], 0);
        step(
            &self.shape,
            &mut self.places,
            &mut self.log,
            worker,
            &Act::TakeChange(part, bits),
        );
        bits
    }
}
