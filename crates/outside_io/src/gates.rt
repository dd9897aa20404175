//! Places where a worker can be held up.

use std::sync::atomic::{AtomicBool, Ordering};

/// What a worker passes before it works on a range that it claimed. A test can hold workers up
/// there, so that they meet. A gate changes nothing that a contract sees.
pub trait Gate {
    /// Returns when the worker may go on. `call` is the number of ranges that it began before.
    fn pass(&self, worker: u32, call: u64);
}

/// A gate that holds nobody up.
#[derive(Clone, Copy, Debug, Default, PartialEq, Eq)]
pub struct OpenGate;

impl OpenGate {
    /// A gate. It has no state.
    pub fn new() -> OpenGate {
        OpenGate
    }
}

impl Gate for OpenGate {
    fn pass(&self, _worker: u32, _call: u64) {}
}

/// A gate at which workers 0 and 1 wait for each other, each before the first range that it works
/// on. It holds nobody else up.
///
/// Each of the two raises a flag and then loads the other's flag, until it sees it raised or has
/// loaded it `limit` times. So it never waits forever, and two workers on one thread never meet.
#[derive(Drop)]
pub struct HoldGate {
    limit: u64,
    first: Arrival,
    second: Arrival,
}

impl HoldGate {
    /// A gate that nobody has passed. Each of the two workers loads the other's flag at most
    /// `limit` times.
    pub fn new(limit: u64) -> HoldGate {
        HoldGate {
            limit,
            first: Arrival::new(),
            second: Arrival::new(),
        }
    }

    /// Whether each of the two workers saw the other's flag raised.
    pub fn met(&self) -> bool {
        self.first.has_seen() && self.second.has_seen()
    }
}

impl Gate for HoldGate {
    fn pass(&self, worker: u32, call: u64) {
        match (worker, call) {
            (0, 0) => self.first.wait_for(&self.second, self.limit),
            (1, 0) => self.second.wait_for(&self.first, self.limit),
            _ => {}
        }
    }
}

// What one of the two workers shows the other: that it is at the gate, and that it saw the other.
#[derive(Drop)]
struct Arrival {
    raised: AtomicBool,
    saw_other: AtomicBool,
}

impl Arrival {
    fn new() -> Arrival {
        Arrival {
            raised: AtomicBool::new(false),
            saw_other: AtomicBool::new(false),
        }
    }

    // Raises this flag, and loads the other one until it is raised, at most `limit` times.
    fn wait_for(&self, other: &Arrival, limit: u64) {
        self.raised.store(true, Ordering::SeqCst);
        for _ in 0..limit {
            if other.raised.load(Ordering::SeqCst) {
                self.saw_other.store(true, Ordering::SeqCst);
                return;
            }
        }
    }

    fn has_seen(&self) -> bool {
        self.saw_other.load(Ordering::SeqCst)
    }
}
