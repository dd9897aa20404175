//! What a call reads in its word, with the token that its reply brings.
//!
//! Each function asks that the numbers in the reply are small, which the law of each call gives.

ghost use Rattle.std.specs.Prelude.{◌≡◌, ℕ, ◌+◌, ◌<◌, ◌≤◌, ◌^◌};
ghost use Rattle.slot_history.specs.declared.shape.Shape.{Shape};
ghost use Rattle.slot_history.specs.declared.shape.TheConstants.{MOST_WORKERS};
ghost use Rattle.slot_history.specs.declared.place.Place.{Place};
ghost use Rattle.slot_history.specs.States.{slot_of};
ghost use Rattle.slot_history.specs.Steps.{moved};
ghost use Rattle.slot_history.specs.Table as table;
ghost use Rattle.slot_station.specs.Replies.{look_act, claim_act, shut_act, leave_act, mark_act};
ghost use Rattle.slot_station.specs.Replies.{sweep_act, pay_act, reserve_act, admit_act};
ghost use Rattle.slot_station.specs.Tokens.{ClaimGives, ShutGives, LeaveGives, SweepGives};
ghost use Rattle.slot_station.specs.Tokens.{PayGives, ReserveGives};
ghost use Rattle.slot_words.specs.Numbers.{IsSmall};
ghost use Rattle.slot_words.specs.Steps as step;

use slot_history::place::Place;
use slot_history::shape::Shape;
use slot_station::answers::{claimed_by, finaliser, left_by, nth_other, reserver, shut_by};
use slot_station::moves::slot_at;
use slot_station::reply::{Admit, Claim, Leave, Look, Mark, Pay, Reserve, Shut, Sweep};
use slot_words::address::Address;

/// The counter's word at 0.
const ZERO: u64 = 1 << 32;

/// What a look finds in the state of its slot.
pub fn look_read(word: u64) -> Look
    requires { IsSmall (step.look_answer word) }
    ensures { look_act result ≡ step.look_answer word }
{
    match word % 4 {
        2 => Look::Open((word / 4).saturating_sub(1) as u32),
        3 => Look::Invalid,
        _ => Look::Vacant,
    }
}

/// What a claim of n tuples finds in the cursor of its slot.
pub fn claim_read(word: u64, n: u32, worker: u32, place: &Place) -> Claim
    ensures act { claim_act n result ≡ step.claim_answer n word }
    ensures gives { (d : Shape)
        → ClaimGives d worker (moved d (claim_act n result) place.now) result }
{
    let total = word / (1 << 32);
    let cursor = word % (1 << 32);
    if cursor < total {
        Claim::Range(cursor as u32, total.min(cursor + u64::from(n)) as u32)
    } else {
        claimed_by(worker, place, None)
    }
}

/// What a shut finds in the state of its slot.
pub fn shut_read(word: u64, worker: u32, place: &Place, shape: &Shape) -> Shut
    ensures act { shut_act result ≡ step.shut_answer word }
    ensures gives { let d = shape.now in
        ShutGives d worker (moved d (shut_act result) place.now) result }
{
    if word % 4 == 2 {
        shut_by(worker, place, shape, true)
    } else {
        Shut::Lost
    }
}

/// What a leave finds in the state of its worker.
pub fn leave_read(word: u64, worker: u32, place: &Place) -> Leave
    requires { IsSmall (step.leave_answer word) }
    ensures act { leave_act result ≡ step.leave_answer word }
    ensures gives { (d : Shape)
        → LeaveGives d worker (moved d (leave_act result) place.now) result }
{
    if word < 512 {
        Leave::Left
    } else {
        left_by(worker, slot_at(place), (word / 1024) as u32, true)
    }
}

/// What a mark at a slot finds in the state of the worker that is asked.
pub fn mark_read(word: u64, slot: u32) -> Mark
    ensures { mark_act result ≡ step.mark_answer slot word }
{
    if word == u64::from(slot) + 1 {
        Mark::Marked
    } else {
        Mark::Missed
    }
}

/// What a sweep after so many marks finds in the counter of its slot.
pub fn sweep_read(word: u64, marked: u32, worker: u32, place: &Place) -> Sweep
    requires { IsSmall (step.sweep_answer marked word) }
    ensures act { sweep_act result ≡ step.sweep_answer marked word }
    ensures gives { (d : Shape)
        → SweepGives d worker (moved d (sweep_act result) place.now) result }
{
    let count = word.wrapping_add(u64::from(marked));
    if count == ZERO {
        Sweep::Last(finaliser(worker, place))
    } else {
        Sweep::Others(count.saturating_sub(ZERO) as u32)
    }
}

/// What a payment finds in the counter of its slot.
pub fn pay_read(word: u64, worker: u32, place: &Place) -> Pay
    ensures act { pay_act result ≡ step.pay_answer word }
    ensures gives { (d : Shape)
        → PayGives d worker (moved d (pay_act result) place.now) result }
{
    if word == ZERO + 1 {
        Pay::Last(finaliser(worker, place))
    } else {
        Pay::Done
    }
}

/// What a reservation of slot s finds in its state.
pub fn reserve_read(word: u64, worker: u32, s: u32) -> Reserve
    ensures act { reserve_act s result ≡ step.reserve_answer s word }
    ensures gives { (d : Shape) → (p : Place)
        → ReserveGives d worker (moved d (reserve_act s result) p) result }
{
    if word == 0 {
        Reserve::Got(reserver(worker, s))
    } else {
        Reserve::Taken(word)
    }
}

/// What an admission of query q finds in the arrivals.
pub fn admit_read(word: u64, q: u32) -> Admit
    requires { IsSmall (step.admit_answer q word) }
    ensures { admit_act q result ≡ step.admit_answer q word }
{
    if word == u64::from(q) {
        Admit::Got
    } else {
        Admit::Lost(word as u32)
    }
}

/// The worker that a coordinator at this place asks next: the workers in ascending order, itself
/// left out.
pub fn next_to_ask(worker: u32, place: &Place) -> u32
    requires { step.asked_at place.now < MOST_WORKERS }
    ensures { result ≡ table.nth_other worker (step.asked_at place.now) }
{
    nth_other(worker, asked_at(place))
}

/// How many others a coordinator at this place has asked; at another place 0.
fn asked_at(place: &Place) -> u32
    ensures { result ≡ step.asked_at place.now }
{
    match *place {
        Place::Asking(_, _, asked, _) => asked,
        _ => 0,
    }
}

/// How many others a coordinator at this place has marked; at another place 0.
pub fn marked_at(place: &Place) -> u32
    ensures { result ≡ step.marked_at place.now }
{
    match *place {
        Place::Asking(_, _, _, marked) => marked,
        _ => 0,
    }
}

/// The mask word that an announcer at this place writes.
pub fn mask_told(place: &Place) -> Address
    ensures { result ≡ step.mask_told place.now }
{
    match *place {
        Place::Announcing(s, true, told) => Address::ReturnOf(told, s / 64),
        Place::Announcing(s, false, told) => Address::ChangeOf(told, s / 64),
        _ => Address::ArrivalsAt,
    }
}

/// What a compare and exchange makes of a word: `new` if it is `old`, else itself.
pub fn compare_exchanged(word: u64, old: u64, new: u64) -> u64
    ensures { result ≡ step.compare_exchanged old new word }
{
    if word == old { new } else { word }
}
