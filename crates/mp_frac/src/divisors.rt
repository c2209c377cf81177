//! Common divisors and multiples.

ghost use Rattle.std.specs.Prelude.{◌≡◌, [], ◌∷◌, ◌<◌};
ghost use Rattle.mp_frac.specs.Divisors.{IsGreatestCommon, IsLeastCommon, LimitedBy, most, up_to};

/// The greatest common divisor of the two. That of 0 and another number is the other.
pub fn gcd(a: u64, b: u64) -> u64
    ensures { IsGreatestCommon (a ∷ b ∷ []) result }
{
    let mut greater = a;
    let mut rest = b;
    while rest != 0 {
        let next = greater % rest;
        greater = rest;
        rest = next;
    }
    greater
}

/// The least common multiple of the two; `None` where it is above 4,294,967,295.
pub fn lcm(a: u32, b: u32) -> Option<u32>
    requires first { 0 < a }
    requires second { 0 < b }
    ensures { LimitedBy most (IsLeastCommon a b) result }
{
    let a = u64::from(a);
    let b = u64::from(b);
    let common = gcd(a, b);
    narrow(a / common * b)
}

/// The number in 32 bits; `None` where it is above 4,294,967,295.
pub(crate) fn narrow(number: u64) -> Option<u32>
    ensures { result ≡ up_to most number }
{
    u32::try_from(number).ok()
}
