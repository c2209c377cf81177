//! Times, in seconds.

ghost use Rattle.std.specs.Prelude.{◌≡◌, ◌<◌, pos, ◌*ℤ◌};
ghost use Rattle.mp_frac.specs.Divisors.{LimitedBy, most};
ghost use Rattle.mp_frac.specs.Time.{GivesTicks, IsLeastWhole, IsInRange, order};

use crate::divisors::{gcd, narrow};
use std::cmp::Ordering;

/// The time of n / d seconds: n ticks of a scale of d ticks a second.
///
/// `==` compares the two numbers: 1 / 2 isn't 2 / 4. `compare` tells which time comes first.
#[derive(Clone, Copy, Debug, PartialEq, Eq)]
pub struct Frac {
    /// The ticks.
    pub n: i128,
    /// How many of them a second has.
    pub d: u32,
}

/// Which of two times comes first, by the products of the one's ticks and the other's scale.
pub fn compare(a: Frac, b: Frac) -> Ordering
    requires first { IsInRange a }
    requires second { IsInRange b }
    ensures { result ≡ order a b }
{
    ticks_times(a, b.d).cmp(&ticks_times(b, a.d))
}

/// The ticks of the time, times a scale.
fn ticks_times(time: Frac, scale: u32) -> i128
    requires { IsInRange time }
    ensures { result ≡ time.n *ℤ pos scale }
{
    time.n * i128::from(scale)
}

/// The least multiple of the scale in which the time is whole; `None` where it is above 4,294,967,295.
pub fn least_multiple(scale: u32, part: Frac) -> Option<u32>
    requires scale { 0 < scale }
    requires time { IsInRange part }
    ensures { LimitedBy most (IsLeastWhole scale part) result }
{
    let d = u64::from(part.d);
    let rest = (part.n.unsigned_abs() % u128::from(part.d)) as u64;
    let common = gcd(d, rest * u64::from(scale));
    narrow(u64::from(scale) * (d / common))
}

/// The ticks of the scale that the time is; `None` where it isn't whole in it.
pub fn whole_in(part: Frac, scale: u32) -> Option<i128>
    requires time { IsInRange part }
    requires scale { 0 < scale }
    ensures { GivesTicks part scale result }
{
    let ticks = ticks_times(part, scale);
    let d = i128::from(part.d);
    if ticks % d != 0 {
        return None;
    }
    Some(ticks / d)
}
