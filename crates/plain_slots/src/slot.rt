//! What an object keeps of a slot, and what calls read and write there.
ghost use Rattle.std.specs.Prelude.{◌≡◌, ℕ, ◌+◌, ◌<◌, ◌≤◌, true, min, MatchOption};
ghost use Rattle.slot_history.specs.States as states;
ghost use Rattle.slot_history.specs.Steps as steps;
ghost use Rattle.plain_slots.specs.declared.slot.Work.{Work};
ghost use Rattle.plain_slots.specs.Slots.{shown, OfEach, has_work, swept_slot, look_of, ClaimFrom};

use slot_station::reply::Look;

/// A task set: its id, its total in tuples, and the first tuple that was not claimed.
#[derive(Clone, Copy)]
pub(crate) struct Work {
    pub id: u32,
    pub total: u32,
    pub next: u32,
}

/// What is in a slot. Its holder has the rest in its place, and who has to pay is kept beside the
/// slot.
#[derive(Clone, Copy)]
pub(crate) enum Slot {
    Empty,
    Reserved,
    Open(Work),
    /// The task set, and whether its coordinator has swept.
    Shut(Work, bool),
    /// The id of the task set that is finalised.
    Finishing(u32),
}

/// What a look finds there.
pub(crate) fn seen_in(slot: &Slot) -> Look
    ensures { result ≡ look_of slot.now }
{
    match slot {
        Slot::Empty | Slot::Reserved => Look::Vacant,
        Slot::Open(work) => Look::Open(work.id),
        Slot::Shut(..) | Slot::Finishing(_) => Look::Invalid,
    }
}

/// The slot's word: 0 empty, 1 reserved, `(id + 1) * 4 + 2` open, and that plus 1 once it is shut.
pub(crate) fn word_in(slot: &Slot) -> u64
    ensures { OfEach slot.now (λ x. result ≡ states.slot_word x) }
{
    match slot {
        Slot::Empty => 0,
        Slot::Reserved => 1,
        Slot::Open(work) => (u64::from(work.id) + 1) * 4 + 2,
        Slot::Shut(work, _) => (u64::from(work.id) + 1) * 4 + 3,
        Slot::Finishing(id) => (u64::from(*id) + 1) * 4 + 3,
    }
}

/// The id of the task set there, else 0.
pub(crate) fn id_in(slot: &Slot) -> u32
    ensures { OfEach slot.now (λ x. result ≡ states.id_of x) }
{
    match slot {
        Slot::Empty | Slot::Reserved => 0,
        Slot::Open(work) | Slot::Shut(work, _) => work.id,
        Slot::Finishing(id) => *id,
    }
}

/// Whether a shut task set was swept.
pub(crate) fn is_swept(slot: &Slot) -> bool
    ensures { OfEach slot.now (λ x. result ≡ states.is_swept x) }
{
    match slot {
        Slot::Shut(_, swept) => *swept,
        _ => false,
    }
}

/// Takes up to n of the tuples that are left, and answers the range. None exactly if none was left.
fn take_range(work: &mut Work, n: u32) -> Option<(u32, u32)>
    requires { work.old.next ≤ work.old.total }
    ensures none { MatchOption result (work.old.total ≤ work.old.next)
        (λ r. (r.0 ≡ work.old.next) × (r.0 < work.old.total)) }
    ensures range { MatchOption result (work.new ≡ work.old)
        (λ r. (r.1 ≡ min work.old.total (work.old.next + n))
        × (work.new ≡ record work.old { next = r.1 })) }
{
    if work.next == work.total {
        return None;
    }
    let from = work.next;
    let to = from + n.min(work.total - from);
    work.next = to;
    Some((from, to))
}

/// The same of the task set in a slot.
pub(crate) fn claim_in(slot: &mut Slot, n: u32) -> Option<(u32, u32)>
    requires work { has_work slot.old ≡ true }
    requires state { (x : states.SlotState) × (shown x ≡ slot.old) }
    ensures { OfEach slot.old (λ x. ClaimFrom x n result
        × (shown (steps.claimed x n) ≡ slot.new)) }
{
    match slot {
        Slot::Open(work) => take_range(work, n),
        Slot::Shut(work, _) => take_range(work, n),
        _ => unreachable!(),
    }
}

/// Shuts an open slot. Whether it was open.
pub(crate) fn shut_in(slot: &mut Slot) -> bool
    ensures { OfEach slot.old (λ x. (w : ℕ) → (result ≡ states.is_open x)
        × (shown (steps.shut_by w x) ≡ slot.new)) }
{
    match *slot {
        Slot::Open(work) => {
            *slot = Slot::Shut(work, false);
            true
        }
        _ => false,
    }
}

/// Notes that the coordinator of a shut slot has swept.
pub(crate) fn sweep_in(slot: &mut Slot)
    ensures { slot.new ≡ swept_slot slot.old }
{
    if let Slot::Shut(work, _) = *slot {
        *slot = Slot::Shut(work, true);
    }
}
