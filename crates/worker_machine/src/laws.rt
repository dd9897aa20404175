//! What follows of a worker that has made no call.
ghost use Rattle.std.specs.Prelude.{◌≡◌, []};
ghost use Rattle.slot_history.specs.declared.place.Place.TheVariants.{Free};
ghost use Rattle.slot_history.specs.Histories.{own_calls};
ghost use Rattle.slot_station.specs.Desks.{own_place};
ghost use Rattle.worker_machine.specs.Following.{Follows, IsNewFor};
ghost use Rattle.worker_machine.specs.Keeps.{HasMade};
ghost use Rattle.worker_machine.specs.Turning.{standing_of};
ghost use Rattle.worker_machine.specs.Told.{MadeIsTold};

use crate::state::Worker;
use bench_cell::Bench;
use slot_station::Station;

/// A new worker follows each station that is its own, of a table of the workers, slots and plan
/// that it was made for, if by the station's trail it is at no slot. So it is if the trail has no
/// call of it.
pub fn new_follows<S: Station<Bench>>(worker: &Worker, station: &S)
    requires made { IsNewFor (S.seen station.now).desk worker.now }
    requires free { own_place (S.seen station.now) ≡ Free }
    ensures { Follows worker.now (S.seen station.now) }
{}

/// A new worker has made no moves, if its station's trail has no call of it.
pub fn new_has_made_none<S: Station<Bench>>(worker: &Worker, station: &S)
    requires made { IsNewFor (S.seen station.now).desk worker.now }
    requires none { own_calls (S.seen station.now).desk.worker (S.seen station.now).trail ≡ [] }
    ensures { HasMade (standing_of worker.now (S.seen station.now)) [] }
{}

/// What a worker has told of replies, records and shares at the end of its moves is what the laws
/// of runs ask of it.
pub fn what_is_told()
    ensures { MadeIsTold }
{}
