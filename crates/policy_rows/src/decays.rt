//! Priorities after quanta.
ghost use Rattle.std.specs.Prelude.{◌≡◌};

use prio_decay::{Decay, Params, QUANTUM_NS};

fn priority_after_eight_quanta() -> u32
    ensures { result ≡ 9_000 }
{
    let mut decay = Decay::new(Params::of_weight(10));
    decay.spend(8 * QUANTUM_NS);
    decay.priority()
}

#[test]
fn the_example_of_the_head(rt: HostRuntime) {
    assert_eq!(rt; priority_after_eight_quanta(), 9_000);
}

#[test]
fn parameters_are_usable_within_their_limits(rt: HostRuntime) {
    // the start, the numerator, the denominator, and whether they are usable
    for (start, num, den, usable) in [
        (100, 0, 1, true),
        (10_000, 999, 1_000, true),
        (99, 9, 10, false),
        (10_001, 9, 10, false),
        (100, 10, 10, false),
        (100, 1_000, 1_001, false),
    ] {
        let params = Params {
            start,
            hold: 7,
            num,
            den,
        };
        assert_eq!(rt; params.is_usable(), usable, "at {params:?}");
    }
}

#[test]
fn weight_ten_is_held_for_seven_quanta_and_then_decays(rt: HostRuntime) {
    let mut decay = Decay::new(Params::of_weight(10));
    let mut quanta = 0;
    for (to, priority) in [
        (0, 10000),
        (7, 10000),
        (8, 9000),
        (9, 8100),
        (10, 7290),
        (12, 5904),
    ] {
        for _ in quanta..to {
            decay.spend(QUANTUM_NS);
        }
        quanta = to;
        assert_eq!(rt; decay.priority(), priority, "after {to} quanta");
    }
}

#[test]
fn parts_of_quanta_add_up(rt: HostRuntime) {
    let mut decay = Decay::new(Params::of_weight(10));
    decay.spend(15_999_999);
    assert_eq!(rt; decay.priority(), 10000);
    decay.spend(1);
    assert_eq!(rt; decay.priority(), 9000);
}
