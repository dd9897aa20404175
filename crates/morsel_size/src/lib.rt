//! The sizes of morsels: how many tuples of a task set a worker takes at once.
//!
//! A `Sizer` belongs to one worker and one task set. In startup nothing is known of the pace, and
//! the sizes double from 16 tuples until a morsel takes a millisecond. Then an estimate of the time
//! per tuple sets the default size, which aims at 2,000,000 nanoseconds a morsel. Near the end of
//! the task set, in shutdown, the workers share the tuples that rest, so that they end at about the
//! same time. All this is after the idea of Wagner, Kohn and Neumann, "Self-Tuning Query Scheduling
//! for Analytical Workloads" (SIGMOD 2021); the phases and the numbers are this project's own.
//!
//! The layer stands on no other. The one fact for the layer above: `next` is `size_of` of the
//! morsels taken so far, the tuples of the task set, the end of the last range and the number of
//! workers.
//!
//! An example, which is proved in `policy_rows`: a morsel of 10,000 tuples in a millisecond ends
//! startup, and from then on a morsel is to have the 20,000 tuples that take two.
//!
//! ```
//! fn size_after_a_millisecond() -> u32
//!     ensures { result ≡ 20_000 }
//! {
//!     let mut sizer = Sizer::new(1);
//!     sizer.took(10_000, 1_000_000);
//!     sizer.next(200_000, 10_000)
//! }
//! ```
#![tactic(auto)]

ghost use Rattle.std.specs.Prelude.{◌≡◌, ℕ, List, [], ◌∷◌, ◌++◌, ◌-◌, ◌^◌, ◌<◌, ◌≤◌};
ghost use Rattle.morsel_size.specs.Sizing.{Sizing, IsInRange, time_per_tuple, blend_of, pace_after};
ghost use Rattle.morsel_size.specs.Sizing.{pace_of, default_size, measured_size, size_at, size_of};

use std::marker::Model;

/// The size of the first morsel, in tuples.
pub const FIRST_SIZE: u32 = 16;

/// The largest size of a morsel, in tuples.
pub const LARGEST_SIZE: u32 = 65_536;

/// A morsel that takes this many nanoseconds ends startup.
pub const STARTUP_NS: u64 = 1_000_000;

/// Times per tuple are kept in parts of a nanosecond, of which it has this many.
pub const PARTS_PER_NS: u64 = 1024;

/// What a morsel of the default size is to take, in parts of a nanosecond: 2,000,000 nanoseconds.
pub const DEFAULT_TIME: u64 = 2_000_000 * PARTS_PER_NS;

/// What a morsel in shutdown is to take at least, in parts of a nanosecond: 250,000 nanoseconds.
pub const SHUTDOWN_TIME: u64 = 250_000 * PARTS_PER_NS;

/// The numbers of this layer.
pub fn limits()
    ensures first_size { FIRST_SIZE ≡ 16 }
    ensures largest_size { LARGEST_SIZE ≡ 65_536 }
    ensures startup { STARTUP_NS ≡ 1_000_000 }
    ensures parts { PARTS_PER_NS ≡ 1_024 }
    ensures default_time { DEFAULT_TIME ≡ 2_048_000_000 }
    ensures shutdown_time { SHUTDOWN_TIME ≡ 256_000_000 }
{}

/// How fast a worker gets through the tuples of a task set.
#[derive(Clone, Copy, Debug, PartialEq, Eq)]
pub enum Pace {
    /// Not known yet: the size of the next morsel, in tuples.
    Startup(u32),
    /// The estimate, in 1,024ths of a nanosecond per tuple.
    Measured(u64),
}

/// The sizes of one worker's morsels in one task set.
#[derive(Debug, Drop)]
pub struct Sizer {
    workers: u32,
    pace: Pace,
}

impl Model for Sizer {
    ghost Value = { Sizing };

    ghost view = { λ s. record { workers = s.workers; pace = s.pace } };

    ghost invariant = { λ s. (0 < s.workers) × IsInRange s.pace };
}

impl Sizer {
    /// The sizes for a task set that this many workers share, with no morsel taken yet.
    /// Takes constant time and no memory, as each call does.
    pub fn new(workers: u32) -> Sizer
        requires { 0 < workers }
        ensures workers { result.workers ≡ workers }
        ensures pace { result.pace ≡ pace_of [] }
    {
        Sizer {
            workers,
            pace: Pace::Startup(FIRST_SIZE),
        }
    }

    /// How many tuples to take next of a task set of `total` tuples, where the worker's last range
    /// of it ended at `last_end` (0 before the first): 1 to 65,536. Startup heeds neither the
    /// workers nor the rest; whoever claims cuts the range to what is left.
    pub fn next(&self, total: u32, last_end: u32) -> u32
        requires { last_end ≤ total }
        ensures size { result ≡ size_at self.now.workers self.now.pace (total - last_end) }
        ensures taken { (taken : List (ℕ × ℕ)) → self.now.pace ≡ pace_of taken
            → result ≡ size_of self.now.workers taken total last_end }
        ensures least { 1 ≤ result }
        ensures most { result ≤ LARGEST_SIZE }
    {
        match self.pace {
            Pace::Startup(size) => size,
            Pace::Measured(estimate) => measured_size(self.workers, estimate, total - last_end),
        }
    }

    /// Takes note of a morsel of `tuples` tuples that took `ns` nanoseconds. The first that takes a
    /// millisecond or more ends startup with its time per tuple as the estimate; each later one is
    /// blended into it.
    pub fn took(&mut self, tuples: u32, ns: u64)
        requires some_tuples { 0 < tuples }
        requires some_time { 0 < ns }
        requires time { ns ≤ 2 ^ 36 }
        ensures pace { self.new ≡ record self.old { pace = pace_after self.old.pace tuples ns } }
        ensures taken { (taken : List (ℕ × ℕ)) → self.old.pace ≡ pace_of taken
            → self.new.pace ≡ pace_of (taken ++ (tuples, ns) ∷ []) }
    {
        self.pace = match self.pace {
            Pace::Startup(size) if ns < STARTUP_NS => Pace::Startup((2 * size).min(LARGEST_SIZE)),
            Pace::Startup(_) => Pace::Measured(time_per_tuple(tuples, ns)),
            Pace::Measured(estimate) => Pace::Measured(blend(time_per_tuple(tuples, ns), estimate)),
        };
    }
}

fn time_per_tuple(tuples: u32, ns: u64) -> u64
    requires some_tuples { 0 < tuples }
    requires some_time { 0 < ns }
    requires time { ns ≤ 2 ^ 36 }
    ensures value { result ≡ time_per_tuple tuples ns }
    ensures least { 1 ≤ result }
    ensures most { result ≤ 2 ^ 46 }
{
    (ns * PARTS_PER_NS).div_ceil(u64::from(tuples))
}

// Four fifths of the latest pace and a fifth of the estimate before: at least 1, since both are.
fn blend(latest: u64, estimate: u64) -> u64
    requires latest { (1 ≤ latest) × (latest ≤ 2 ^ 46) }
    requires estimate { (1 ≤ estimate) × (estimate ≤ 2 ^ 46) }
    ensures value { result ≡ blend_of latest estimate }
    ensures least { 1 ≤ result }
    ensures most { result ≤ 2 ^ 46 }
{
    (4 * latest + estimate) / 5
}

fn measured_size(workers: u32, estimate: u64, rest: u32) -> u32
    requires workers { 0 < workers }
    requires estimate { 1 ≤ estimate }
    ensures value { result ≡ measured_size workers estimate rest }
    ensures least { 1 ≤ result }
    ensures most { result ≤ LARGEST_SIZE }
{
    let default = (DEFAULT_TIME / estimate).clamp(1, u64::from(LARGEST_SIZE));
    if u64::from(workers) * default <= u64::from(rest) {
        return default as u32;
    }
    let share = u64::from(rest.div_ceil(workers));
    (SHUTDOWN_TIME / estimate).max(share).clamp(1, default) as u32
}
