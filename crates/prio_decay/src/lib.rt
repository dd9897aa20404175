//! The decaying priority of a query: the more time a worker has spent in it, the less often it
//! comes.
//!
//! A priority starts at a value that grows with the query's weight, is held for some quanta of
//! 2,000,000 nanoseconds, and then decays by a constant factor each quantum, down to 100. It takes
//! the place of a client's tickets in stride scheduling (Waldspurger and Weihl, 1995); decay and
//! numbers are this project's own.
//!
//! The layer stands on no other. The one fact for the layer above: `priority` is `priority_after`
//! of the whole quanta in all the nanoseconds that were spent.
//!
//! An example, which is proved in `policy_rows`: weight 10 starts at 10,000, and the eighth quantum
//! is the first that takes a tenth off.
//!
//! ```
//! fn priority_after_eight_quanta() -> u32
//!     ensures { result ≡ 9_000 }
//! {
//!     let mut decay = Decay::new(Params::of_weight(10));
//!     decay.spend(8 * QUANTUM_NS);
//!     decay.priority()
//! }
//! ```
#![tactic(auto)]

ghost use Rattle.std.specs.Prelude.{◌≡◌, ◌↔◌, ℕ, IsTrue, List, ◌*◌, ◌/◌, ◌<◌, ◌≤◌, sum, fold};
ghost use Rattle.prio_decay.specs.declared.Params.{Params};
ghost use Rattle.prio_decay.specs.declared.TheConstants.{QUANTUM_NS};
ghost use Rattle.prio_decay.specs.Priority.{IsUsable, Spending, HasSpent, unspent, after_spending};
ghost use Rattle.prio_decay.specs.Priority.{priority_after, priority_of};

use std::marker::Model;

/// The least priority, to which every other decays.
pub const LEAST_PRIORITY: u32 = 100;

/// The greatest priority that a decay may start at.
pub const MOST_PRIORITY: u32 = 10_000;

/// The greatest denominator of the factor of a decay.
pub const MOST_DENOMINATOR: u32 = 1_000;

/// A quantum of time, in nanoseconds: what a priority decays by.
pub const QUANTUM_NS: u64 = 2_000_000;

/// The numbers of this layer.
pub fn limits()
    ensures least { LEAST_PRIORITY ≡ 100 }
    ensures most { MOST_PRIORITY ≡ 10_000 }
    ensures denominator { MOST_DENOMINATOR ≡ 1_000 }
    ensures quantum { QUANTUM_NS ≡ 2_000_000 }
{}

/// How a priority decays. Of use where `start` is 100 to 10,000, `num` is below `den`, and `den` is
/// at most 1,000.
#[derive(Clone, Copy, Debug, PartialEq, Eq)]
pub struct Params {
    /// The priority at first.
    pub start: u32,
    /// How many quanta it is held.
    pub hold: u32,
    /// The numerator of the factor of each further quantum.
    pub num: u32,
    /// The denominator of that factor.
    pub den: u32,
}

impl Params {
    /// The decay of a query of this weight, 1 to 10: it starts at 1,000 times the weight, is held
    /// for 7 quanta, and keeps nine tenths each further quantum.
    pub fn of_weight(weight: u32) -> Params
        requires least { 1 ≤ weight }
        requires most { weight ≤ 10 }
        ensures params { result ≡ record { start = 1000 * weight; hold = 7; num = 9; den = 10 } }
        ensures usable { IsUsable result }
    {
        Params {
            start: 1000 * weight,
            hold: 7,
            num: 9,
            den: 10,
        }
    }

    /// Whether a decay may have these parameters, for a caller who read them from elsewhere.
    pub fn is_usable(self) -> bool
        ensures { IsTrue result ↔ IsUsable self }
    {
        LEAST_PRIORITY <= self.start
            && self.start <= MOST_PRIORITY
            && self.num < self.den
            && self.den <= MOST_DENOMINATOR
    }
}

/// The priority of a query at one worker, which decays with the time spent. No call takes memory.
#[derive(Debug, Drop)]
pub struct Decay {
    params: Params,
    spent: u64,
    priority: u32,
}

impl Model for Decay {
    ghost Value = { Spending };

    ghost view = { λ d. record { params = d.params; spent = d.spent } };

    ghost invariant = { λ d. IsUsable d.params
        × (d.priority ≡ priority_after d.params (d.spent / QUANTUM_NS)) };
}

impl Decay {
    /// A decay of which no time is spent. Takes constant time.
    pub fn new(params: Params) -> Decay
        requires { IsUsable params }
        ensures { result ≡ unspent params }
    {
        Decay {
            params,
            spent: 0,
            priority: params.start,
        }
    }

    /// Spends so many nanoseconds more. Takes a step for each quantum that ends and decays the
    /// priority. There are at most 9,900 such steps in the life of a decay, since each takes at
    /// least 1 off, and none once the priority is 100: from then on a call takes constant time.
    ///
    /// The count of all nanoseconds stands still at the largest u64, where every priority is 100.
    pub fn spend(&mut self, ns: u64)
        ensures { self.new ≡ after_spending self.old ns }
    {
        let from = self.spent / QUANTUM_NS;
        self.spent = self.spent.saturating_add(ns);
        self.priority = decayed(self.params, self.priority, from, self.spent / QUANTUM_NS);
    }

    /// The priority after the whole quanta in all the time spent: 100 to 10,000. Takes constant
    /// time.
    pub fn priority(&self) -> u32
        ensures value { result ≡ priority_of self.now }
        ensures total { (total : ℕ) → HasSpent self.now total
            → result ≡ priority_after self.now.params (total / QUANTUM_NS) }
        ensures least { LEAST_PRIORITY ≤ result }
        ensures most { result ≤ MOST_PRIORITY }
    {
        self.priority
    }
}

// The priority after `to` quanta, where it was `priority` after `from` quanta.
fn decayed(params: Params, mut priority: u32, from: u64, to: u64) -> u32
    requires usable { IsUsable params }
    requires order { from ≤ to }
    requires before { priority ≡ priority_after params from }
    ensures { result ≡ priority_after params to }
{
    for _quantum in u64::from(params.hold).clamp(from, to)..to {
        if priority == LEAST_PRIORITY {
            break;
        }
        priority = (priority * params.num / params.den).max(LEAST_PRIORITY);
    }
    priority
}

/// The law of spending: after any times spent, one after another, the priority is that of the whole
/// quanta in their sum.
pub fn spending_adds_up()
    ensures { (p : Params) (times : List ℕ) → IsUsable p
        → priority_of (fold after_spending (unspent p) times)
        ≡ priority_after p (sum times / QUANTUM_NS) }
{}
