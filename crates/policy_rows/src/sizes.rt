//! Sizes of morsels.
ghost use Rattle.std.specs.Prelude.{◌≡◌};

use morsel_size::Sizer;

fn size_after_a_millisecond() -> u32
    ensures { result ≡ 20_000 }
{
    let mut sizer = Sizer::new(1);
    sizer.took(10_000, 1_000_000);
    sizer.next(200_000, 10_000)
}

#[test]
fn the_example_of_the_head(rt: HostRuntime) {
    assert_eq!(rt; size_after_a_millisecond(), 20_000);
}

#[test]
fn sizes_double_then_settle_then_share_the_rest(rt: HostRuntime) {
    let mut sizer = Sizer::new(1);
    let mut end = 0;
    for (count, size) in [
        (1, 16),
        (1, 32),
        (1, 64),
        (1, 128),
        (1, 256),
        (1, 512),
        (1, 1024),
        (1, 2048),
        (1, 4096),
        (1, 8192),
        (1, 16384),
        (8, 20000),
        (1, 7248),
    ] {
        for _ in 0..count {
            assert!(rt; end <= 200_000);
            let next = sizer.next(200_000, end);
            assert_eq!(rt; next, size, "at {end}");
            sizer.took(next, u64::from(next) * 100);
            end += next;
        }
    }
    assert_eq!(rt; end, 200_000);
}

#[test]
fn workers_share_a_small_rest(rt: HostRuntime) {
    let mut sizer = Sizer::new(4);
    sizer.took(10_000, 1_000_000);
    assert_eq!(rt; sizer.next(1000, 0), 2500);
}

#[test]
fn an_estimate_blends_four_fifths_of_the_latest(rt: HostRuntime) {
    let mut sizer = Sizer::new(1);
    sizer.took(10_000, 1_000_000);
    sizer.took(10_000, 2_000_000);
    assert_eq!(rt; sizer.next(200_000, 0), 11_111);
}
