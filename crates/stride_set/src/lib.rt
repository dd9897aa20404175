//! Who runs next: the passes of one worker's slots, by stride scheduling.
//!
//! Stride scheduling is that of Waldspurger and Weihl, "Stride Scheduling: Deterministic
//! Proportional-Share Resource Management" (1995): a client's stride is inversely proportional to
//! its tickets, here the priority; the client with the least pass runs next, and its pass then
//! grows by its stride, scaled by the time used. The numbers and the rules of joining are this
//! project's own. A slot joins no earlier than the floor, which is the pass of the slot chosen
//! last, so that no slot can catch up on time in which it was not active.
//!
//! The layer stands on no other. The one fact for the layer above: each call is `stride_after` of
//! the set, and between any two calls each active pass lies within the floor and the floor plus the
//! largest advance, and the widest gap of two active slots is at most the largest advance.
//!
//! An example, which is proved in `policy_rows`: a turn, in which the active slot of least pass
//! runs for so many nanoseconds.
//!
//! ```
//! fn turn(set: &mut StrideSet, ns: u64, priority: u32) -> Option<u32>
//!     requires time { ns ≤ 2 ^ 36 }
//!     requires priority { 0 < priority }
//!     ensures { IfSome result (λ s. IsChoice (strides_of set.old) s) }
//! {
//!     let s = set.choose()?;
//!     set.advance(s, ns, priority);
//!     Some(s)
//! }
//! ```
#![tactic(auto)]

ghost use Rattle.std.specs.Prelude.{◌≡◌, ◌↔◌, ℕ, List, ◌+◌, ◌*◌, ◌^◌, ◌<◌, ◌≤◌, length, fold, true};
ghost use Rattle.std.specs.Prelude.{false, max, IfOk, IfSome, IfNone, IsTrue};
ghost use Rattle.stride_set.specs.Slots.{IsReach, spread_among, choice_among};
ghost use Rattle.stride_set.specs.Strides.{StrideState, Strides, Call, JoinChange, JoinReturn};
ghost use Rattle.stride_set.specs.Strides.{DropSlot, Choose, Advance, IsChoice, MayAdvance};
ghost use Rattle.stride_set.specs.Strides.{IsBounded, AreLawful, strides_of, new_strides};
ghost use Rattle.stride_set.specs.Strides.{stride_after, choice_of, widest_gap};

use std::alloc::{AllocError, Global};
use std::marker::Model;

/// The stride of a slot of priority 1 for one nanosecond: the constant `stride1` of Waldspurger and
/// Weihl.
pub const STRIDE_UNIT: u64 = 1_048_576;

/// The number of this layer.
pub fn limits()
    ensures { STRIDE_UNIT ≡ 1_048_576 }
{}

/// One slot of a set.
#[derive(Clone, Copy, Debug, PartialEq, Eq)]
pub struct Slot {
    /// Whether it may be chosen.
    pub active: bool,
    /// Its pass; kept while it is not active.
    pub pass: u128,
}

/// The slots of one worker, of which it chooses one each turn. Only `new` takes memory.
#[derive(Debug, Drop)]
pub struct StrideSet {
    slots: Vec<Slot>,
    // No slot from this number on was ever active.
    reach: usize,
    floor: u128,
    largest: u64,
    widest: u128,
}

impl Model for StrideSet {
    ghost use Rattle.stride_set.specs.Strides.{StrideState};

    ghost Value = { StrideState };

    ghost use Rattle.stride_set.specs.Fields.{state_of, IsStrideSet};

    ghost view = { state_of };

    ghost invariant = { IsStrideSet };
}

impl StrideSet {
    /// A set of so many slots of which none is active, each at pass 0. Takes time and memory for
    /// each slot.
    pub fn new(alloc: Global, slots: u32) -> Result<StrideSet, AllocError>
        ensures { IfOk result (λ set. strides_of set ≡ new_strides slots) }
    {
        let idle = Slot {
            active: false,
            pass: 0,
        };
        Ok(StrideSet {
            slots: vec![in alloc; idle; slots as usize]?,
            reach: 0,
            floor: 0,
            largest: 0,
            widest: 0,
        })
    }

    /// How many slots there are: their numbers are below it. Takes constant time.
    pub fn slots(&self) -> u32
        ensures { result ≡ (strides_of self.now).slots }
    {
        self.slots.len() as u32
    }

    /// Slot `s` joins at the floor, as with new work. Takes one pass over the slots up to the last
    /// one that was ever active.
    pub fn join_change(&mut self, s: u32)
        requires { s < (strides_of self.old).slots }
        ensures { strides_of self.new ≡ stride_after (strides_of self.old) (JoinChange s) }
    {
        self.slots[s as usize] = Slot {
            active: true,
            pass: self.floor,
        };
        self.reach = self.reach.max(s as usize + 1);
        self.widest = self.widest.max(spread(&self.slots, self.reach));
    }

    /// Slot `s` joins again with its old work: at its old pass, but not below the floor, whether it
    /// was active or not. Takes one pass over the slots up to the last one that was ever active.
    pub fn join_return(&mut self, s: u32)
        requires { s < (strides_of self.old).slots }
        ensures { strides_of self.new ≡ stride_after (strides_of self.old) (JoinReturn s) }
    {
        let index = s as usize;
        let pass = self.slots[index].pass.max(self.floor);
        self.slots[index] = Slot { active: true, pass };
        self.reach = self.reach.max(index + 1);
        self.widest = self.widest.max(spread(&self.slots, self.reach));
    }

    /// Slot `s` is active no longer; its pass is kept. Takes constant time.
    pub fn drop_slot(&mut self, s: u32)
        requires { s < (strides_of self.old).slots }
        ensures { strides_of self.new ≡ stride_after (strides_of self.old) (DropSlot s) }
    {
        self.slots[s as usize].active = false;
    }

    /// The active slot of least pass, the least slot among ties, whose pass becomes the floor; none
    /// exactly where no slot is active, and then nothing changes. Takes one pass over the slots up
    /// to the last one that was ever active.
    pub fn choose(&mut self) -> Option<u32>
        ensures choice { result ≡ choice_of (strides_of self.old) }
        ensures least { IfSome result (λ s. IsChoice (strides_of self.old) s) }
        ensures none { IfNone result ((s : ℕ) → s < (strides_of self.old).slots
            → (strides_of self.old).active s ≡ false) }
        ensures may_advance { IfSome result (λ s. MayAdvance (strides_of self.new) s) }
        ensures floor { IfSome result (λ s.
            strides_of self.new ≡ stride_after (strides_of self.old) (Choose s)) }
        ensures unchanged { IfNone result (self.new ≡ self.old) }
    {
        let s = choice(&self.slots, self.reach)?;
        self.floor = self.slots[s as usize].pass;
        Some(s)
    }

    /// The pass of slot `s` grows by its stride for `ns` nanoseconds at this priority (100 to
    /// 10,000 in use), and stays at 2^128 - 1 where it would pass it. The slot is active and at the
    /// floor, as after the `choose` that answered it, with no advance since. Takes one pass over
    /// the slots up to the last one that was ever active if the advance is greater than the widest
    /// gap so far, else constant time.
    pub fn advance(&mut self, s: u32, ns: u64, priority: u32)
        requires chosen { MayAdvance (strides_of self.old) s }
        requires time { ns ≤ 2 ^ 36 }
        requires priority { 0 < priority }
        ensures { strides_of self.new ≡ stride_after (strides_of self.old) (Advance s ns priority) }
    {
        let advance = ns * STRIDE_UNIT / u64::from(priority);
        let slot = &mut self.slots[s as usize];
        slot.pass = slot.pass.saturating_add(u128::from(advance));
        self.largest = self.largest.max(advance);
        self.widest = widened(self.widest, advance, &self.slots, self.reach);
    }

    /// Whether slot `s` may advance, for a caller who did not keep what `choose` answered. Takes
    /// constant time.
    pub fn may_advance(&self, s: u32) -> bool
        ensures { IsTrue result ↔ MayAdvance (strides_of self.now) s }
    {
        match self.slots.get(s as usize) {
            Some(slot) => slot.active && slot.pass == self.floor,
            None => false,
        }
    }

    /// The pass of the slot chosen last, 0 before any. Takes constant time, as each call below
    /// does.
    pub fn floor(&self) -> u128
        ensures { result ≡ self.now.floor }
    {
        self.floor
    }

    /// The largest advance so far, 0 before any.
    pub fn largest(&self) -> u64
        ensures { result ≡ self.now.largest }
    {
        self.largest
    }

    /// The greatest difference of the passes of two slots that were active at the same time, after
    /// any call; 0 before two were.
    pub fn widest(&self) -> u128
        ensures value { result ≡ self.now.widest }
        ensures bounded { IsBounded (strides_of self.now) }
    {
        self.widest
    }

    /// Whether slot `s` may be chosen.
    pub fn is_active(&self, s: u32) -> bool
        requires { s < (strides_of self.now).slots }
        ensures { result ≡ (strides_of self.now).active s }
    {
        self.slots[s as usize].active
    }

    /// The pass of slot `s`, kept while it is not active.
    pub fn pass(&self, s: u32) -> u128
        requires { s < (strides_of self.now).slots }
        ensures { result ≡ (strides_of self.now).pass s }
    {
        self.slots[s as usize].pass
    }
}

// The greatest difference of the passes of two active slots; no slot from `reach` on is active.
fn spread(slots: &[Slot], reach: usize) -> u128
    requires { IsReach slots.now reach }
    ensures { result ≡ spread_among slots.now }
{
    let mut least = u128::MAX;
    let mut greatest = 0u128;
    for s in 0..reach {
        let slot = &slots[s];
        if slot.active {
            least = least.min(slot.pass);
            greatest = greatest.max(slot.pass);
        }
    }
    greatest.saturating_sub(least)
}

// The widest gap after an advance of the slot that was behind all others: it leads none of them by
// more than the advance, so that a small one needs no pass over the slots.
fn widened(widest: u128, advance: u64, slots: &[Slot], reach: usize) -> u128
    requires small { spread_among slots.now ≤ max widest advance }
    requires reach { IsReach slots.now reach }
    ensures { result ≡ max widest (spread_among slots.now) }
{
    if u128::from(advance) <= widest {
        widest
    } else {
        widest.max(spread(slots, reach))
    }
}

// The first active slot of least pass; no slot from `reach` on is active.
fn choice(slots: &[Slot], reach: usize) -> Option<u32>
    requires few { length slots.now < 2 ^ 32 }
    requires reach { IsReach slots.now reach }
    ensures { result ≡ choice_among slots.now }
{
    let mut choice = None;
    // The pass of the choice so far, if there is one.
    let mut least = 0;
    for s in 0..reach {
        let slot = &slots[s];
        if slot.active && (choice.is_none() || slot.pass < least) {
            choice = Some(s as u32);
            least = slot.pass;
        }
    }
    choice
}

/// The law of the bounds: after any lawful calls of a new set each active pass lies within the
/// floor and the floor plus the largest advance, each other pass is at most that sum, and the
/// widest gap is at most the largest advance. And `widest` is the greatest difference of the passes
/// of two slots that were active at the same time, after any of the calls.
pub fn calls_keep_the_bounds()
    ensures bounded { (slots : ℕ) (calls : List Call) → AreLawful (new_strides slots) calls
        → IsBounded (fold stride_after (new_strides slots) calls) }
    ensures widest { (slots : ℕ) (calls : List Call)
        → (fold stride_after (new_strides slots) calls).widest
        ≡ widest_gap (new_strides slots) calls }
{}
