//! Worked numbers of the two arithmetics.
use super::*;

const SCALES: Scales = Scales {
    start: 2,
    trans: 3,
    obs: 3,
    reward: 1,
    discount: 10,
    gain: 9,
};

fn point(number: i128) -> Span {
    Span {
        low: number,
        high: number,
    }
}

#[test]
#[tactic(auto, unfolding(dp_spec::specs::Arithmetic::exact, dp_spec::specs::Arithmetic::reward_factor))]
fn computes_exactly(rt: HostRuntime) {
    let exact = Exact::of(SCALES);
    assert!(rt; exact.start(1) == point(1));
    assert!(rt; exact.one() == point(1));
    let two = Span { low: 2, high: 2 };
    assert!(rt; exact.chance(two, 2, 3) == point(12));
    assert!(rt; exact.later(two) == point(18));
    // 2 * -5 * 10 * (3 * 3 * 10)
    assert!(rt; exact.gain(two, -5, 1) == point(-9000));
    // -7 * 2 * 3 * 9
    assert_eq!(rt; exact.carry(-7, 2), -378);
    assert_eq!(rt; exact.tail(two, -7), -14);
}

#[test]
fn rounds_outward(rt: HostRuntime) {
    let outward = Outward::of(SCALES);
    assert!(rt; outward.start(1) == point(500_000_000_000));
    assert!(rt; outward.one() == point(1_000_000_000_000));
    let one = Span {
        low: 1_000_000_000_000,
        high: 1_000_000_000_000,
    };
    let ninth = Span {
        low: 111_111_111_111,
        high: 111_111_111_112,
    };
    assert!(rt; outward.chance(one, 1, 1) == ninth);
    let later = Span {
        low: 99_999_999_999,
        high: 100_000_000_001,
    };
    assert!(rt; outward.later(ninth) == later);
    let gain = Span {
        low: 555_555_555,
        high: 555_555_556,
    };
    assert!(rt; outward.gain(ninth, 5, 1) == gain);
    let loss = Span {
        low: -555_555_556,
        high: -555_555_555,
    };
    assert!(rt; outward.gain(ninth, -5, 1) == loss);
    assert_eq!(rt; outward.carry(7, 2), 5);
    assert_eq!(rt; outward.carry(-7, 2), -3);
    assert_eq!(rt; outward.tail(ninth, 9_000_000_000), 1_000_000_001);
    assert_eq!(rt; outward.tail(ninth, -7), 0);
}

#[test]
fn adds_spans(rt: HostRuntime) {
    let sum = add_spans(Span { low: -1, high: 2 }, Span { low: 3, high: 5 });
    assert!(rt; sum == Span { low: 2, high: 7 });
}
