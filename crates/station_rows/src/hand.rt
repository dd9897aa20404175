//! What a worker has in hand between its calls.
ghost use Rattle.std.specs.Prelude.{◌≡◌};
ghost use Rattle.slot_history.specs.declared.shape.Shape.{Shape};
ghost use Rattle.station_rows.specs.Played.{IsHandAt};

use slot_history::place::Place;
use slot_station::token::{Announcer, Coordinator, Debt, Holder, Spent};

/// What a worker has in hand.
#[derive(Debug, PartialEq, Eq, Drop)]
pub enum Hand {
    Nothing,
    Spent(Spent),
    Debt(Debt),
    Coordinator(Coordinator),
    Holder(Holder),
    Announcer(Announcer),
}

/// What the worker of this number has in hand at this place of an object with so many workers.
pub fn hand_at(place: &Place, worker: u32, workers: u32) -> Hand
    ensures { (d : Shape) → d.workers ≡ workers → IsHandAt d worker place.now result }
{
    match *place {
        Place::Used(slot, id) => Hand::Spent(Spent { worker, slot, id }),
        Place::Owing(slot, id) => Hand::Debt(Debt { worker, slot, id }),
        Place::Leading(slot, id) => Hand::Coordinator(Coordinator {
            worker,
            slot,
            id,
            workers,
            asked: 0,
            marked: 0,
        }),
        Place::Asking(slot, id, asked, marked) => Hand::Coordinator(Coordinator {
            worker,
            slot,
            id,
            workers,
            asked,
            marked,
        }),
        Place::Holding(slot, held) => Hand::Holder(Holder {
            worker,
            slot,
            query: held.query,
            stage: held.stage,
            again: held.again,
        }),
        Place::Announcing(slot, again, told) => Hand::Announcer(Announcer {
            worker,
            slot,
            workers,
            told,
            again,
        }),
        _ => Hand::Nothing,
    }
}
