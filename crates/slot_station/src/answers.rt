//! The replies that bring tokens, made of the caller's place, and where the words of a slot and of
//! a worker lie in lists.
ghost use Rattle.std.specs.Prelude.{◌≡◌, ℕ, ◌+◌, ◌*◌, ◌/◌, ◌%◌, ◌<◌, ◌≤◌, Some, None};
ghost use Rattle.slot_history.specs.declared.shape.TheConstants.{PARTS, MOST_WORKERS};
ghost use Rattle.slot_history.specs.Table as table;
ghost use Rattle.slot_station.specs.Answers.{claim_of, shut_of, leave_of};
ghost use Rattle.slot_station.specs.Answers.{reserver_of, finaliser_of, announcer_of};

use crate::moves::{held_at, id_at, slot_at};
use crate::reply::{Claim, Leave, Shut};
use crate::token::{Announcer, Coordinator, Debt, Holder, Spent};
use slot_history::place::Place;
use slot_history::shape::{PARTS, STAGES, Shape};

/// The index of the cell of a slot and a worker among all cells.
pub fn cell_index(shape: &Shape, slot: u32, worker: u32) -> usize
    ensures { result ≡ slot * shape.now.workers + worker }
{
    let slot = u64::from(slot);
    (slot * u64::from(shape.workers) + u64::from(worker)) as usize
}

/// The index of a mask word among those of all workers.
pub fn mask_index(worker: u32, part: u32) -> usize
    requires { (worker < MOST_WORKERS) × (part < PARTS) }
    ensures { result ≡ worker * PARTS + part }
{
    (worker * PARTS + part) as usize
}

/// What a claim answers that got this range, or none.
pub fn claimed_by(worker: u32, place: &Place, range: Option<(u32, u32)>) -> Claim
    ensures { result ≡ claim_of worker place.now range }
{
    match range {
        Some((from, to)) => Claim::Range(from, to),
        None => Claim::Exhausted(Spent {
            worker,
            slot: slot_at(place),
            id: id_at(place),
        }),
    }
}

/// What a shut answers that came first, or did not.
pub fn shut_by(worker: u32, place: &Place, shape: &Shape, is_first: bool) -> Shut
    ensures { result ≡ shut_of worker place.now shape.now is_first }
{
    if is_first {
        Shut::Won(Coordinator {
            worker,
            slot: slot_at(place),
            id: id_at(place),
            workers: shape.workers,
            asked: 0,
            marked: 0,
        })
    } else {
        Shut::Lost
    }
}

/// What a leave answers of a worker that has to pay, or has not.
pub fn left_by(worker: u32, slot: u32, id: u32, owes: bool) -> Leave
    ensures { result ≡ leave_of worker slot id owes }
{
    if owes {
        Leave::Owe(Debt { worker, slot, id })
    } else {
        Leave::Left
    }
}

/// The n-th of the workers in ascending order, this one left out: whom a coordinator asks after n
/// others.
pub fn nth_other(worker: u32, n: u32) -> u32
    requires { n < MOST_WORKERS }
    ensures { result ≡ table.nth_other worker n }
{
    if n < worker { n } else { n + 1 }
}

/// The holder that a worker becomes where it reserves a slot.
pub fn reserver(worker: u32, slot: u32) -> Holder
    ensures { result ≡ reserver_of worker slot }
{
    Holder {
        worker,
        slot,
        query: None,
        stage: 0,
        again: false,
    }
}

/// The holder that a worker at this place becomes where it finalises.
pub fn finaliser(worker: u32, place: &Place) -> Holder
    ensures { result ≡ finaliser_of worker place.now }
{
    let id = id_at(place);
    Holder {
        worker,
        slot: slot_at(place),
        query: Some(id / STAGES),
        stage: id % STAGES,
        again: true,
    }
}

/// The announcer that a worker at this place becomes where it installs.
pub fn announcer(worker: u32, place: &Place, shape: &Shape) -> Announcer
    ensures { result ≡ announcer_of worker place.now shape.now }
{
    Announcer {
        worker,
        slot: slot_at(place),
        workers: shape.workers,
        told: 0,
        again: held_at(place).again,
    }
}
