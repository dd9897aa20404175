//! What the calls of an object answer, and what they write for that.
ghost use Rattle.std.specs.Prelude.{◌≡◌, ◌+◌, ◌^◌, ◌<◌, true, false, cond, eqb};
ghost use Rattle.std.specs.Prelude.{◌||◌, ◌∷◌, length, slice_set};
ghost use Rattle.slot_history.specs.declared.shape.Shape.{Shape};
ghost use Rattle.slot_history.specs.declared.act.Act.TheVariants.{SweepOthers};
ghost use Rattle.slot_history.specs.States as states;
ghost use Rattle.slot_history.specs.Steps as steps;
ghost use Rattle.slot_station.specs.Answers.{mark_of, sweep_of, pay_of, reserve_of, admit_of};
ghost use Rattle.slot_station.specs.Log.{call};
ghost use Rattle.slot_station.specs.Places.{IsCounted};
ghost use Rattle.plain_slots.specs.Slots.{shown, OfEach, OfPlace, pays_last, words_told};
ghost use Rattle.plain_slots.specs.Slots.{CanTell};

use crate::slot::{Slot, id_in, is_swept, sweep_in, word_in};
use slot_history::act::{Act, Entry};
use slot_history::place::Place;
use slot_history::shape::Shape;
use slot_station::answers::{finaliser, mask_index, reserver};
use slot_station::ghost_list::GhostList;
use slot_station::log::Logged;
use slot_station::moves::place_after;
use slot_station::reply::{Admit, Mark, Pay, Reserve, Sweep};

/// Puts the worker to its next place and notes its call.
#[inline(always)]
pub(crate) fn step(
    shape: &Shape,
    places: &mut Vec<Place>,
    log: &mut GhostList<Logged>,
    worker: u32,
    act: &Act,
)
    requires worker { worker < length places.old.items }
    requires counted { OfPlace places.old.items worker IsCounted }
    ensures places { OfPlace places.old.items worker (λ p. places.new.items
        ≡ slice_set places.old.items worker (steps.moved shape.now act.now p)) }
    ensures log { log.new ≡ call worker act.now ∷ log.old }
{
    let place = &mut places[worker as usize];
    *place = place_after(shape, act, *place);
    log.push(&Logged::Call(Entry { worker, act: *act }));
}

/// Marks a worker that is at the slot, and counts its debt there.
pub(crate) fn mark_if(is_there: bool, owes: &mut bool, debts: &mut u32) -> Mark
    requires { debts.old + 1 < 2 ^ 32 }
    ensures mark { result ≡ mark_of is_there }
    ensures owes { owes.new ≡ (is_there || owes.old) }
    ensures debts { debts.new ≡ cond is_there (debts.old + 1) debts.old }
{
    if is_there {
        *owes = true;
        *debts += 1;
        Mark::Marked
    } else {
        Mark::Missed
    }
}

/// Sweeps a slot at which so many workers have to pay.
pub(crate) fn swept_by(worker: u32, place: &Place, slot: &mut Slot, debts: u32) -> Sweep
    ensures sweep { result ≡ sweep_of worker place.now debts }
    ensures slot { OfEach slot.old (λ x. (d : Shape) → states.is_shut x ≡ true
        → slot.new ≡ cond (eqb debts 0) (shown (steps.finalised_by worker x))
        (shown (steps.ended d worker (SweepOthers debts) x))) }
{
    if debts == 0 {
        *slot = Slot::Finishing(id_in(slot));
        Sweep::Last(finaliser(worker, place))
    } else {
        sweep_in(slot);
        Sweep::Others(debts)
    }
}

/// Pays one of so many debts at a slot.
pub(crate) fn paid_by(worker: u32, place: &Place, slot: &mut Slot, debts: &mut u32) -> Pay
    requires { 0 < debts.old }
    ensures debts { debts.new + 1 ≡ debts.old }
    ensures pay { OfEach slot.old (λ x. result ≡ pay_of worker place.now (pays_last debts.new x)) }
    ensures slot { OfEach slot.old (λ x. states.is_shut x ≡ true
        → slot.new ≡ cond (pays_last debts.new x) (shown (steps.finalised_by worker x)) (shown x)) }
{
    *debts -= 1;
    if is_swept(slot) && *debts == 0 {
        *slot = Slot::Finishing(id_in(slot));
        Pay::Last(finaliser(worker, place))
    } else {
        Pay::Done
    }
}

/// Reserves a slot that is empty.
pub(crate) fn reserved_by(worker: u32, s: u32, slot: &mut Slot) -> Reserve
    ensures reserve { OfEach slot.old (λ x. result ≡ reserve_of worker s x) }
    ensures slot { OfEach slot.old (λ x. slot.new ≡ cond (states.is_empty x)
        (shown (states.Reserved worker states.reservation)) (shown x)) }
{
    match slot {
        Slot::Empty => {
            *slot = Slot::Reserved;
            Reserve::Got(reserver(worker, s))
        }
        _ => Reserve::Taken(word_in(slot)),
    }
}

/// Admits query q where it is the next one.
pub(crate) fn admit_at(admitted: &mut u32, q: u32) -> Admit
    requires { q + 1 < 2 ^ 32 }
    ensures admit { result ≡ admit_of q admitted.old }
    ensures admitted { admitted.new ≡ cond (eqb admitted.old q) (admitted.old + 1) admitted.old }
{
    if *admitted == q {
        *admitted += 1;
        Admit::Got
    } else {
        Admit::Lost(*admitted)
    }
}

/// Gives the next worker that an announcer tells a notice of its slot.
pub(crate) fn announce_at(place: &Place, returns: &mut Vec<u64>, changes: &mut Vec<u64>)
    requires returns { CanTell place.now (length returns.old.items) }
    requires changes { CanTell place.now (length changes.old.items) }
    ensures returns { returns.new.items ≡ words_told true place.now returns.old.items }
    ensures changes { changes.new.items ≡ words_told false place.now changes.old.items }
{
    let Place::Announcing(s, again, told) = *place else {
        unreachable!()
    };
    let at = mask_index(told, s / 64);
    if again {
        returns[at] |= 1 << (s % 64);
    } else {
        changes[at] |= 1 << (s % 64);
    }
}
