//! Where a call leaves its worker.
ghost use Rattle.std.specs.Prelude.{◌≡◌, ◌<◌, ◌↔◌, IsTrue};
ghost use Rattle.slot_history.specs.Allowed.{IsReady};
ghost use Rattle.slot_station.specs.Cells as cells;
ghost use Rattle.slot_history.specs.States as states;
ghost use Rattle.slot_history.specs.Steps.{moved, asked_one, told_one, holding_after};
ghost use Rattle.slot_station.specs.Places.{IsCounted};

use slot_history::act::Act;
use slot_history::place::{Held, Place};
use slot_history::shape::{STAGES, Shape};

/// The slot that a place names, else 0.
pub fn slot_at(place: &Place) -> u32
    ensures { result ≡ states.slot_of place.now }
{
    match *place {
        Place::Free => 0,
        Place::Entered(s) | Place::Astray(s) => s,
        Place::Inside(s, _) | Place::Used(s, _) | Place::Behind(s, _) | Place::Leading(s, _) => s,
        Place::Asking(s, ..) | Place::Owing(s, _) => s,
        Place::Holding(s, _) | Place::Announcing(s, ..) => s,
    }
}

/// The task set that a place names, else 0.
pub fn id_at(place: &Place) -> u32
    ensures { result ≡ states.id_at place.now }
{
    match *place {
        Place::Inside(_, id) | Place::Used(_, id) | Place::Behind(_, id) => id,
        Place::Leading(_, id) | Place::Asking(_, id, ..) | Place::Owing(_, id) => id,
        _ => 0,
    }
}

/// What a holder has in hand, and at another place nothing.
pub fn held_at(place: &Place) -> Held
    ensures { result ≡ states.held_at place.now }
{
    match *place {
        Place::Holding(_, held) => held,
        _ => reservation(),
    }
}

/// Whether a worker at this place is at the slot, between its enter and its leave.
pub fn is_at(place: &Place, slot: u32) -> bool
    ensures { result ≡ states.is_at place.now slot }
{
    match *place {
        Place::Entered(s) | Place::Astray(s) => s == slot,
        Place::Inside(s, _) | Place::Used(s, _) | Place::Behind(s, _) | Place::Leading(s, _) => s
            == slot,
        _ => false,
    }
}

/// Whether a worker at this place has a cell of its own.
pub fn has_cell(place: &Place) -> bool
    ensures { result ≡ cells.has_cell place.now }
{
    matches!(
        place,
        Place::Inside(..) | Place::Used(..) | Place::Behind(..) | Place::Leading(..)
    )
}

/// Whether a worker at this place may leave its slot.
pub fn can_leave(place: &Place) -> bool
    ensures { result ≡ states.can_leave place.now }
{
    matches!(
        place,
        Place::Astray(_) | Place::Inside(..) | Place::Behind(..) | Place::Leading(..)
    )
}

/// Whether a holding may install its next task set: the total is set, and after a finalisation one
/// task set was noted and the query may have another stage.
pub fn is_ready(held: &Held) -> bool
    ensures { IsTrue result ↔ IsReady held.now }
{
    let may_go_on = !held.again || held.noted == 1 && held.stage < STAGES - 1;
    held.query.is_some() && held.total.is_some() && may_go_on
}

/// What the holder of a slot has when it reserved the slot.
fn reservation() -> Held
    ensures { result ≡ states.reservation }
{
    Held {
        query: None,
        stage: 0,
        again: false,
        noted: 0,
        total: None,
    }
}

/// What the holder of a slot has when it begins to finalise a task set.
fn finalisation(id: u32) -> Held
    ensures { result ≡ states.finalisation id }
{
    Held {
        query: Some(id / STAGES),
        stage: id % STAGES,
        again: true,
        noted: 0,
        total: None,
    }
}

fn after_asking(place: Place, marked: u32) -> Place
    requires counted { IsCounted place }
    requires marked { marked < 2 }
    ensures { result ≡ asked_one place marked }
{
    match place {
        Place::Asking(s, id, asked, before) => Place::Asking(s, id, asked + 1, before + marked),
        place => place,
    }
}

fn after_announcing(shape: &Shape, place: Place) -> Place
    requires { IsCounted place }
    ensures { result ≡ told_one shape.now place }
{
    match place {
        Place::Announcing(_, _, told) if told + 1 == shape.workers => Place::Free,
        Place::Announcing(s, again, told) => Place::Announcing(s, again, told + 1),
        place => place,
    }
}

fn after_holding(act: &Act, place: Place) -> Place
    ensures { result ≡ holding_after act.now place }
{
    match (act, place) {
        (Act::AdmitGot(q), Place::Holding(s, held)) => Place::Holding(
            s,
            Held {
                query: Some(*q),
                ..held
            },
        ),
        (Act::NoteDone(k), Place::Holding(s, held)) => Place::Holding(
            s,
            Held { noted: *k, ..held },
        ),
        (Act::SetTotal(total), Place::Holding(s, held)) => Place::Holding(
            s,
            Held {
                total: Some(*total),
                ..held
            },
        ),
        (_, place) => place,
    }
}

/// The worker's place after its call, by its place before.
#[inline(always)]
pub fn place_after(shape: &Shape, act: &Act, place: Place) -> Place
    requires { IsCounted place }
    ensures { result ≡ moved shape.now act.now place }
{
    let slot = slot_at(&place);
    let id = id_at(&place);
    match *act {
        Act::Enter(s) => Place::Entered(s),
        Act::LookOpen(id) => Place::Inside(slot, id),
        Act::LookInvalid | Act::LookVacant => Place::Astray(slot),
        Act::ClaimUsed(_) => Place::Used(slot, id),
        Act::ShutWon => Place::Leading(slot, id),
        Act::ShutLost => Place::Behind(slot, id),
        Act::LeaveLeft => match place {
            Place::Leading(s, id) => Place::Asking(s, id, 0, 0),
            _ => Place::Free,
        },
        Act::LeaveOwe(id) => Place::Owing(slot, id),
        Act::MarkMarked => after_asking(place, 1),
        Act::MarkMissed => after_asking(place, 0),
        Act::PayLast | Act::SweepLast => Place::Holding(slot, finalisation(id)),
        Act::PayDone | Act::SweepOthers(_) | Act::Release => Place::Free,
        Act::ReserveGot(s) => Place::Holding(s, reservation()),
        Act::AdmitGot(_) | Act::NoteDone(_) | Act::SetTotal(_) => after_holding(act, place),
        Act::Install(_) => Place::Announcing(slot, held_at(&place).again, 0),
        Act::Announce => after_announcing(shape, place),
        Act::ClaimRange(..) | Act::ReserveTaken(..) | Act::AdmitLost(..) | Act::Arrivals(_) =>
            place,
        Act::Finished(_) | Act::TakeReturn(..) | Act::TakeChange(..) => place,
    }
}
