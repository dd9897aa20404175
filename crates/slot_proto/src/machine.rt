//! The object as words on one thread, without its cells: each call reads one word and writes that
//! word.
ghost use Rattle.std.specs.Prelude.{◌≡◌, ℕ, ◌<◌, ◌^◌};
ghost use Rattle.slot_history.specs.Bounds.{IsPlaceWithin};
ghost use Rattle.slot_history.specs.Calls.{Call};
ghost use Rattle.slot_station.specs.Places.{IsCounted};
ghost use Rattle.slot_words.specs.Words.{StandsFor, word_at};
ghost use Rattle.slot_words.specs.Numbers.{IsSmall};
ghost use Rattle.slot_words.specs.Steps.{answer_of};
ghost use Rattle.slot_proto.specs.Machines.{Calls, IsCallOn, IsStepOf, place_now, state_now};

use crate::reading::{
    admit_read, claim_read, compare_exchanged, leave_read, look_read, mark_read, marked_at,
    mask_told, next_to_ask, pay_read, reserve_read, shut_read, sweep_read,
};
use one_thread::object::SlotObject;
use slot_history::act::{Act, Entry};
use slot_history::place::Place;
use slot_history::shape::Shape;
use slot_station::answers::announcer;
use slot_station::ghost_list::GhostList;
use slot_station::log::{Exchange, Logged};
use slot_station::moves::{id_at, place_after, slot_at};
use slot_station::reply::{Admit, Claim, Leave, Look, Mark, Pay, Reserve, Shut, Sweep};
use slot_station::token::Announcer;
use slot_words::address::{Address, index};
use slot_words::encoding::{at_word, cursor_word, marked, open_word};
use slot_words::opening::first_words;
use std::alloc::{AllocError, Global};
use std::marker::Model;

/// The words, and of each worker its place. The log is for contracts alone.
#[derive(Drop)]
pub struct Machine {
    shape: Shape,
    words: Vec<u64>,
    places: Vec<Place>,
    log: GhostList<Logged>,
}

impl Model for Machine {
    ghost use Rattle.slot_proto.specs.Machines.{Running, IsMachine};

    ghost Value = { Running };

    ghost view = { λ o. record { shape = o.shape; words = o.words.items; log = o.log } };

    ghost invariant = { λ o. IsMachine o.shape o.words.items o.places.items o.log };
}

impl Machine {
    /// The words, in the order of their indices.
    pub fn words(&self) -> &[u64]
        ensures words { result.now ≡ self.now.words }
        ensures stands { StandsFor self.now.shape result.now (state_now self.now) }
    {
        self.words.as_slice()
    }

    /// Where a worker is.
    fn worker_place(&self, worker: u32) -> Place
        requires { worker < self.now.shape.workers }
        ensures place { result ≡ place_now self.now worker }
        ensures within { IsPlaceWithin self.now.shape result }
        ensures counted { IsCounted result }
    {
        self.places[worker as usize]
    }

    /// What a call finds in the word that it is on.
    fn found(&self, worker: u32, address: Address) -> u64
        requires { (c : Call) × IsCallOn self.now worker c address }
        ensures word { result ≡ word_at self.now.shape self.now.words address }
        ensures small { (c : Call) → IsCallOn self.now worker c address
            → IsSmall (answer_of c (place_now self.now worker) result) }
    {
        self.words[index(&self.shape, address)]
    }

    /// What a call finds in a word whose content it answers as a number.
    fn number(&self, worker: u32, address: Address) -> u32
        requires { (c : Call) × IsCallOn self.now worker c address
            × ((n : ℕ) → IsSmall (answer_of c (place_now self.now worker) n) → n < 2 ^ 32) }
        ensures { result ≡ word_at self.now.shape self.now.words address }
    {
        self.found(worker, address) as u32
    }

    /// The one atomic step of a call: its word becomes `new`, its worker goes to its next place,
    /// and it is noted with its answer.
    fn step(&mut self, worker: u32, address: Address, new: u64, act: &Act)
        requires { (c : Call) × IsStepOf self.old (record {
          worker = worker;
          call = c;
          address = address;
          new = new;
          act = act.now;
        }) }
        ensures { Calls self.old worker act.now self.new }
    {
        self.words[index(&self.shape, address)] = new;
        let place = &mut self.places[worker as usize];
        *place = place_after(&self.shape, act, *place);
        self.log.push(&Logged::Call(Entry { worker, act: *act }));
    }
}

impl SlotObject for Machine {
    ghost use Rattle.slot_proto.specs.Machines.{story_of};

    ghost story = { story_of };

    fn make(alloc: Global, shape: Shape) -> Result<Machine, AllocError> {
        let words = first_words(alloc, &shape)?;
        let places = vec![in alloc; Place::Free; shape.workers as usize]?;
        let log = GhostList::new(alloc)?;
        Ok(Machine {
            shape,
            words,
            places,
            log,
        })
    }

    fn shape(&self) -> Shape {
        self.shape
    }

    fn place(&self, worker: u32) -> Place {
        self.worker_place(worker)
    }

    fn into_log(self) -> GhostList<Logged> {
        let Machine {
            shape: _,
            words,
            places,
            log,
        } = self;
        drop(words);
        drop(places);
        log
    }

    fn exchanged(&mut self, exchange: Exchange) {
        self.log.push(&Logged::Exchanged(exchange));
    }

    fn enter(&mut self, worker: u32, s: u32) {
        let own = Address::WorkerOf(worker);
        self.step(worker, own, at_word(s), &Act::Enter(s));
    }

    fn look(&mut self, worker: u32) -> Look {
        let state = Address::StateOf(slot_at(&self.worker_place(worker)));
        let found = self.found(worker, state);
        let look = look_read(found);
        self.step(worker, state, found, &look.act());
        look
    }

    fn claim(&mut self, worker: u32, n: u32) -> Claim {
        let place = self.worker_place(worker);
        let cursor = Address::CursorOf(slot_at(&place));
        let found = self.found(worker, cursor);
        let claim = claim_read(found, n, worker, &place);
        let new = found.wrapping_add(u64::from(n));
        self.step(worker, cursor, new, &claim.act(n));
        claim
    }

    fn shut(&mut self, worker: u32) -> Shut {
        let place = self.worker_place(worker);
        let state = Address::StateOf(slot_at(&place));
        let found = self.found(worker, state);
        let shut = shut_read(found, worker, &place, &self.shape);
        self.step(worker, state, found | 1, &shut.act());
        shut
    }

    fn leave(&mut self, worker: u32) -> Leave {
        let place = self.worker_place(worker);
        let own = Address::WorkerOf(worker);
        let leave = leave_read(self.found(worker, own), worker, &place);
        self.step(worker, own, 0, &leave.act());
        leave
    }

    fn mark_next(&mut self, worker: u32) -> Mark {
        let place = self.worker_place(worker);
        let slot = slot_at(&place);
        let other = Address::WorkerOf(next_to_ask(worker, &place));
        let found = self.found(worker, other);
        let mark = mark_read(found, slot);
        let there = at_word(slot);
        let new = compare_exchanged(found, there, marked(there, id_at(&place)));
        self.step(worker, other, new, &mark.act());
        mark
    }

    fn sweep(&mut self, worker: u32) -> Sweep {
        let place = self.worker_place(worker);
        let counter = Address::CounterOf(slot_at(&place));
        let found = self.found(worker, counter);
        let marked = marked_at(&place);
        let sweep = sweep_read(found, marked, worker, &place);
        let new = found.wrapping_add(u64::from(marked));
        self.step(worker, counter, new, &sweep.act());
        sweep
    }

    fn pay(&mut self, worker: u32) -> Pay {
        let place = self.worker_place(worker);
        let counter = Address::CounterOf(slot_at(&place));
        let found = self.found(worker, counter);
        let pay = pay_read(found, worker, &place);
        self.step(worker, counter, found.wrapping_sub(1), &pay.act());
        pay
    }

    fn reserve(&mut self, worker: u32, s: u32) -> Reserve {
        let state = Address::StateOf(s);
        let found = self.found(worker, state);
        let reserve = reserve_read(found, worker, s);
        self.step(
            worker,
            state,
            compare_exchanged(found, 0, 1),
            &reserve.act(s),
        );
        reserve
    }

    fn admit(&mut self, worker: u32, q: u32) -> Admit {
        let found = self.found(worker, Address::ArrivalsAt);
        let admit = admit_read(found, q);
        let new = compare_exchanged(found, u64::from(q), u64::from(q) + 1);
        self.step(worker, Address::ArrivalsAt, new, &admit.act(q));
        admit
    }

    fn arrivals(&mut self, worker: u32) -> u32 {
        let admitted = self.number(worker, Address::ArrivalsAt);
        let same = u64::from(admitted);
        self.step(worker, Address::ArrivalsAt, same, &Act::Arrivals(admitted));
        admitted
    }

    fn finished(&mut self, worker: u32) -> u32 {
        let finished = self.number(worker, Address::FinishedAt);
        let same = u64::from(finished);
        self.step(worker, Address::FinishedAt, same, &Act::Finished(finished));
        finished
    }

    fn note_done(&mut self, worker: u32, k: u32) {
        let found = self.found(worker, Address::FinishedAt);
        let new = found.wrapping_add(u64::from(k));
        self.step(worker, Address::FinishedAt, new, &Act::NoteDone(k));
    }

    fn set_total(&mut self, worker: u32, total: u32) {
        let cursor = Address::CursorOf(slot_at(&self.worker_place(worker)));
        self.step(worker, cursor, cursor_word(total, 0), &Act::SetTotal(total));
    }

    fn install(&mut self, worker: u32, id: u32) -> Announcer {
        let place = self.worker_place(worker);
        let state = Address::StateOf(slot_at(&place));
        self.step(worker, state, open_word(id), &Act::Install(id));
        announcer(worker, &place, &self.shape)
    }

    fn release(&mut self, worker: u32) {
        let state = Address::StateOf(slot_at(&self.worker_place(worker)));
        self.step(worker, state, 0, &Act::Release);
    }

    fn announce(&mut self, worker: u32) {
        let place = self.worker_place(worker);
        let mask = mask_told(&place);
        let found = self.found(worker, mask);
        let bit = 1 << (slot_at(&place) % 64);
        self.step(worker, mask, found | bit, &Act::Announce);
    }

    fn take_return(&mut self, worker: u32, part: u32) -> u64 {
        let mask = Address::ReturnOf(worker, part);
        let bits = self.found(worker, mask);
        self.step(worker, mask, 0, &Act::TakeReturn(part, bits));
        bits
    }

    fn take_change(&mut self, worker: u32, part: u32) -> u64 {
        let mask = Address::ChangeOf(worker, part);
        let bits = self.found(worker, mask);
        self.step(worker, mask, 0, &Act::TakeChange(part, bits));
        bits
    }
}
