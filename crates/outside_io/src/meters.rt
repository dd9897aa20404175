//! How long work takes.
ghost use Rattle.std.specs.Prelude.{◌≡◌, ◌*◌, ℕ};

use std::time::{Clock, Instant};

/// What measures the time that work on a range of tuples takes. A meter can't fail.
pub trait Meter {
    // Which times `stop` may answer: the tuples of the range, the query's cost in nanoseconds a
    // tuple, and the answer in nanoseconds. A type that leaves it out may answer any number.
    ghost may_take: { ℕ → ℕ → ℕ → Type 0 } = { λ _ _ _. Unit {0} };

    /// The work on a range begins.
    fn start(&mut self);

    /// The work that began at the last `start` is done. Answers the nanoseconds that it took.
    /// `tuples` is the length of the range, and `cost` the query's nanoseconds a tuple.
    fn stop(&mut self, tuples: u32, cost: u32) -> u64
        ensures { may_take tuples cost result };
}

/// A meter that reads no clock. Each tuple takes exactly the nanoseconds of the query's cost.
#[derive(Clone, Copy, Debug, Default, PartialEq, Eq)]
pub struct CostMeter;

impl CostMeter {
    /// A meter. It has no state.
    pub fn new() -> CostMeter {
        CostMeter
    }
}

impl Meter for CostMeter {
    ghost may_take = { λ tuples cost ns. ns ≡ tuples * cost };

    fn start(&mut self) {}

    fn stop(&mut self, tuples: u32, cost: u32) -> u64
        ensures { result ≡ tuples * cost }
    {
        u64::from(tuples) * u64::from(cost)
    }
}

/// A meter that reads the runtime's clock. Contracts don't know what it answers.
///
/// It answers the nanoseconds from the last `start` to `stop`, at most 2^64 - 1. It answers 0 if
/// one of the two could not read the clock, or if no work has begun yet.
#[derive(Drop)]
pub struct RealMeter<R: Clock + Drop> {
    rt: R,
    begun: Option<Instant>,
}

impl<R: Clock + Drop> RealMeter<R> {
    /// A meter under which no work has begun.
    pub fn new(rt: R) -> RealMeter<R> {
        RealMeter { rt, begun: None }
    }
}

impl<R: Clock + Drop> Meter for RealMeter<R> {
    fn start(&mut self) {
        self.begun = Instant::now(&self.rt).ok();
    }

    fn stop(&mut self, _tuples: u32, _cost: u32) -> u64 {
        let Some(begun) = self.begun else {
            return 0;
        };
        match begun.elapsed(&self.rt) {
            Ok(time) => u64::try_from(time.as_nanos()).unwrap_or(u64::MAX),
            Err(_) => 0,
        }
    }
}
