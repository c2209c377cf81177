//! What is counted of pieces, one after another.

ghost use Rattle.std.specs.Prelude.{◌≡◌, ℕ, ◌<◌, ◌+◌, ◌^◌, List, [], ◌∷◌, max, IfSome};
ghost use Rattle.mp_frac.specs.Divisors.{IsGreatestCommon};
ghost use Rattle.mp_clip.specs.declared.cut.Cut.{Cut};
ghost use Rattle.mp_clip.specs.Cut.{in_front};
ghost use Rattle.mp_clip.specs.Counted.{IsCounted, lower};

use crate::cut::Cut;
use mp_frac::gcd;

/// Common divisors of the starts and of the lengths, with the parts of their ticks; the sum of the lengths;
/// the least and the greatest start.
#[derive(Clone, Copy)]
pub(crate) struct Tally {
    pub(crate) starts: u64,
    pub(crate) lengths: u64,
    pub(crate) total: u128,
    pub(crate) least: Option<u128>,
    pub(crate) greatest: u128,
}

/// The greatest common divisor of the two numbers.
pub fn common_divisor(divisor: u64, number: u128) -> u64
    requires { 0 < divisor }
    ensures { IsGreatestCommon (divisor ∷ number ∷ []) result }
{
    let rest = (number % u128::from(divisor)) as u64;
    gcd(divisor, rest)
}

/// The lower of a number that may be missing and another.
fn lower(least: Option<u128>, number: u128) -> Option<u128>
    ensures { result ≡ lower least number }
{
    match least {
        Some(least) => Some(least.min(number)),
        None => Some(number),
    }
}

/// With one more start.
fn with_start(tally: Tally, start: u128) -> Tally
    requires { 0 < tally.starts }
    ensures starts { IsGreatestCommon (tally.starts ∷ start ∷ []) result.starts }
    ensures counted { result ≡ record tally {
      starts = result.starts;
      least = lower tally.least start;
      greatest = max tally.greatest start;
    } }
{
    Tally {
        starts: common_divisor(tally.starts, start),
        least: lower(tally.least, start),
        greatest: tally.greatest.max(start),
        ..tally
    }
}

/// With one more length.
fn with_length(tally: Tally, length: u128) -> Tally
    requires some { 0 < tally.lengths }
    requires room { tally.total + length < 2 ^ 128 }
    ensures lengths { IsGreatestCommon (tally.lengths ∷ length ∷ []) result.lengths }
    ensures counted { result ≡ record tally { lengths = result.lengths; total = tally.total + length } }
{
    Tally {
        lengths: common_divisor(tally.lengths, length),
        total: tally.total + length,
        ..tally
    }
}

/// With one more piece.
fn with_cut(tally: Tally, cut: Cut) -> Tally
    requires starts { 0 < tally.starts }
    requires lengths { 0 < tally.lengths }
    requires room { tally.total + cut.length < 2 ^ 128 }
    ensures { (start_parts length_parts : ℕ) (all left : List Cut)
        → IsCounted start_parts length_parts all tally (cut ∷ left)
        → IsCounted start_parts length_parts all result left }
{
    match cut.start {
        Some(start) => with_length(with_start(tally, start), cut.length),
        None => with_length(tally, cut.length),
    }
}

/// With one more piece, if there is one.
pub(crate) fn counted(tally: Tally, cut: Option<Cut>) -> Tally
    requires starts { 0 < tally.starts }
    requires lengths { 0 < tally.lengths }
    requires room { IfSome cut (λ cut. tally.total + cut.length < 2 ^ 128) }
    ensures { (start_parts length_parts : ℕ) (all left : List Cut)
        → IsCounted start_parts length_parts all tally (in_front cut left)
        → IsCounted start_parts length_parts all result left }
{
    match cut {
        Some(cut) => with_cut(tally, cut),
        None => tally,
    }
}
