//! Meters and gates, also between two threads.

use outside_io::{CostMeter, Gate, HoldGate, Meter, OpenGate, RealMeter};
use std::cell::Cell;
use std::time::{Clock, Duration};
use std::{io, thread};

/// How often a worker looks for the other at most.
const LOADS: u64 = 200_000_000;

/// The time that two ranges took.
fn measured<M: Meter, G: Gate>(meter: &mut M, gate: &G) -> [u64; 2] {
    gate.pass(0, 0);
    meter.start();
    let first = meter.stop(3, 100);
    gate.pass(0, 1);
    meter.start();
    [first, meter.stop(u32::MAX, u32::MAX)]
}

#[test]
fn a_tuple_takes_what_its_query_costs(rt: HostRuntime) {
    let times = measured(&mut CostMeter::new(), &OpenGate::new());
    assert_eq!(rt; times, [300, 18_446_744_065_119_617_025]);
}

/// A clock that goes on by 3 seconds and 7 nanoseconds at each reading. The third and the fifth
/// fail.
#[derive(Drop)]
struct Ticks {
    read: Cell<u32>,
}

impl Ticks {
    fn new() -> Ticks {
        Ticks { read: Cell::new(0) }
    }
}

impl Clock for Ticks {
    fn monotonic(&self) -> io::Result<Duration> {
        let count = self.read.get().saturating_add(1);
        self.read.set(count);
        if matches!(count, 3 | 5) {
            return Err(io::Error::from(io::ErrorKind::Other));
        }
        Ok(Duration::new(3 * u64::from(count), 7 * count.min(9)))
    }

    fn since_1970(&self) -> io::Result<Duration> {
        Err(io::Error::from(io::ErrorKind::Unsupported))
    }
}

#[test]
fn a_meter_of_a_clock_answers_the_time_between(rt: HostRuntime) {
    // The clock can't be read at the start of the second range, nor at the end of the third.
    let mut meter = RealMeter::new(Ticks::new());
    assert_eq!(rt; meter.stop(3, 100), 0);
    assert_eq!(rt; measured(&mut meter, &OpenGate::new()), [3_000_000_007, 0]);
    assert_eq!(rt; measured(&mut meter, &OpenGate::new()), [0, 3_000_000_007]);
}

/// What a worker's meter shows of the time that it was held up at its first range.
fn held<M: Meter + Drop, G: Gate>(mut meter: M, gate: &G, worker: u32) -> u64 {
    meter.start();
    gate.pass(worker, 0);
    meter.stop(1, 1)
}

#[test]
fn two_workers_meet_at_a_gate(rt: HostRuntime) {
    let gate = HoldGate::new(LOADS);
    let meters = (RealMeter::new(rt), RealMeter::new(rt));
    assert!(rt; !gate.met());
    let shared = &gate;
    let (first, second) = meters;
    thread::join(
        &rt,
        move || held(first, shared, 0),
        move || held(second, shared, 1),
    );
    assert!(rt; gate.met());
}

#[test]
fn one_thread_never_meets_itself(rt: HostRuntime) {
    let gate = HoldGate::new(3);
    for (worker, call) in [(0, 1), (1, 1), (2, 0), (0, 0), (1, 0)] {
        gate.pass(worker, call);
        assert!(rt; !gate.met(), "worker {worker} at call {call}");
    }
}
