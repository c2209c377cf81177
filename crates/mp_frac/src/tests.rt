//! The answers were computed by an independent script over whole fractions.

ghost use Rattle.mp_frac.specs.Time.{IsInRange};

use crate::{Frac, compare, gcd, lcm, least_multiple, whole_in};
use std::cmp::Ordering;
use std::process::Abort;

// The greatest n that a time may have.
const MOST_TICKS: i128 = 19_807_040_628_566_084_398_385_987_583;

fn is_time(rt: &impl Abort, n: i128, d: u32) -> Frac
    ensures { IsInRange result }
{
    assert!(rt; d > 0 && n.unsigned_abs() <= MOST_TICKS.unsigned_abs());
    Frac { n, d }
}

#[test]
fn divisors_and_multiples(rt: HostRuntime) {
    let divisors: [(u64, u64, u64); 6] = [
        (12, 18, 6),
        (0, 7, 7),
        (7, 0, 7),
        (0, 0, 0),
        (9_223_372_036_854_775_808, 18_446_744_073_709_551_615, 1),
        (1001, 30_000, 1),
    ];
    for (a, b, wanted) in divisors {
        assert_eq!(rt; gcd(a, b), wanted, "{a} {b}");
    }
    let multiples: [(u32, u32, Option<u32>); 6] = [
        (4, 6, Some(12)),
        (1001, 30_000, Some(30_030_000)),
        (4_294_967_295, 4_294_967_295, Some(4_294_967_295)),
        (65_535, 65_537, Some(4_294_967_295)),
        (65_536, 65_537, None),
        (2_147_483_648, 3, None),
    ];
    for (a, b, wanted) in multiples {
        assert!(rt; a > 0 && b > 0);
        assert_eq!(rt; lcm(a, b), wanted, "{a} {b}");
    }
}

#[test]
fn scales_of_times(rt: HostRuntime) {
    let scales: [(u32, i128, u32, Option<u32>); 8] = [
        (1000, 1, 3, Some(3000)),
        (1000, -1, 3, Some(3000)),
        (600, 5, 10, Some(600)),
        (44_100, 0, 7, Some(44_100)),
        (1000, 1024, 44_100, Some(441_000)),
        (65_536, 1, 65_535, Some(4_294_901_760)),
        (1, MOST_TICKS, 4_294_967_295, Some(1_431_655_765)),
        (4_294_967_295, 1, 2, None),
    ];
    for (scale, n, d, wanted) in scales {
        assert!(rt; scale > 0);
        let part = is_time(&rt, n, d);
        assert_eq!(rt; least_multiple(scale, part), wanted, "{scale} {n}/{d}");
    }
    let ticks: [(i128, u32, u32, Option<i128>); 7] = [
        (1, 2, 1000, Some(500)),
        (1, 3, 1000, None),
        (-7, 2, 4, Some(-14)),
        (-5, 10, 1, None),
        (1024, 44_100, 44_100, Some(1024)),
        (0, 5, 1, Some(0)),
        (MOST_TICKS, 4_294_967_295, 4_294_967_295, Some(MOST_TICKS)),
    ];
    for (n, d, scale, wanted) in ticks {
        assert!(rt; scale > 0);
        let part = is_time(&rt, n, d);
        assert_eq!(rt; whole_in(part, scale), wanted, "{n}/{d} {scale}");
    }
}

#[test]
fn times_in_order(rt: HostRuntime) {
    let rows: [(i128, u32, i128, u32, Ordering); 5] = [
        (1, 2, 2, 4, Ordering::Equal),
        (1, 3, 333, 1000, Ordering::Greater),
        (-1, 3, -333, 1000, Ordering::Less),
        (0, 1, 0, 4_294_967_295, Ordering::Equal),
        (
            MOST_TICKS,
            4_294_967_295,
            MOST_TICKS,
            4_294_967_294,
            Ordering::Less,
        ),
    ];
    for (n, d, m, e, wanted) in rows {
        let first = is_time(&rt, n, d);
        let second = is_time(&rt, m, e);
        assert_eq!(rt; compare(first, second), wanted, "{n}/{d} {m}/{e}");
    }
}
