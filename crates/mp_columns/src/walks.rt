//! Walks over the numbers of a list.

ghost use Rattle.std.specs.Prelude.{◌≡◌, ◌+◌, ◌-◌, ◌≤◌, ◌<◌, All, FitsSigned, length, map, slice_range, unsigned_abs};
ghost use Rattle.std.specs.Prelude.{pos, ◌+ℤ◌, ◌*ℤ◌, int_div, int_rem};
ghost use Rattle.std.specs.Int.{w64};
ghost use Rattle.mp_frac.specs.Divisors.{IsGreatestCommon};
ghost use Rattle.mp_columns.specs.Numbers.{total, largest};
ghost use Rattle.mp_columns.specs.Runs.{IsLongestRun};

use crate::columns::MOST_ITEMS;
use crate::run::Run;
use mp_frac::gcd;

/// The sum.
pub(crate) fn sum_of(items: &[i64]) -> i128
    requires { length items.now ≤ MOST_ITEMS }
    ensures { result ≡ total items.now }
{
    let mut sum = 0;
    for item in items {
        sum += i128::from(*item);
    }
    sum
}

/// The greatest absolute value, or 0.
pub(crate) fn largest_of(items: &[i64]) -> u64
    ensures { result ≡ largest items.now }
{
    let mut most = 0;
    for item in items {
        most = most.max(item.unsigned_abs());
    }
    most
}

/// The greatest common divisor of the absolute values.
pub(crate) fn divisor_of(items: &[i64]) -> u64
    ensures { IsGreatestCommon (map unsigned_abs items.now) result }
{
    let mut divisor = 0;
    for item in items {
        divisor = gcd(divisor, item.unsigned_abs());
    }
    divisor
}

/// The longest run that begins at `from`.
pub(crate) fn run_at(items: &[i64], from: u32) -> Run
    requires inside { from < length items.now }
    requires few { length items.now ≤ MOST_ITEMS }
    ensures { IsLongestRun items.now from (from + result.count) result }
{
    let len = items.len() as u32;
    let value = items[from as usize];
    for to in from + 1..len {
        if items[to as usize] != value {
            return Run {
                value,
                count: to - from,
            };
        }
    }
    Run {
        value,
        count: len - from,
    }
}

/// Keeps the items from `from` up to `to`, and moves each of them once.
pub(crate) fn keep<T: Copy>(items: &mut Vec<T>, from: usize, to: usize)
    requires order { from ≤ to }
    requires inside { to ≤ length items.old.items }
    ensures { items.new.items ≡ slice_range items.old.items from to }
{
    items.copy_within(from..to, 0);
    items.truncate(to - from);
}

/// Each number less `by`.
pub(crate) fn lower_each(numbers: &mut [u32], by: u32)
    requires { All (λ number. by ≤ number) numbers.old }
    ensures { numbers.new ≡ map (λ number. number - by) numbers.old }
{
    for number in numbers.iter_mut() {
        *number -= by;
    }
}

/// Each item plus `by`.
pub(crate) fn shift_each(items: &mut [i64], by: i64)
    requires { All (λ x. FitsSigned w64 (x +ℤ by)) items.old }
    ensures { items.new ≡ map (λ x. x +ℤ by) items.old }
{
    for item in items.iter_mut() {
        *item += by;
    }
}

/// Each item times `k`.
pub(crate) fn scale_each(items: &mut [i64], k: u32)
    requires { All (λ x. FitsSigned w64 (x *ℤ pos k)) items.old }
    ensures { items.new ≡ map (λ x. x *ℤ pos k) items.old }
{
    for item in items.iter_mut() {
        *item *= i64::from(k);
    }
}

/// Each item divided by `k`.
pub(crate) fn divide_each(items: &mut [i64], k: u32)
    requires some { 1 ≤ k }
    requires whole { All (λ x. int_rem x (pos k) ≡ pos 0) items.old }
    ensures quotients { items.new ≡ map (λ x. int_div x (pos k)) items.old }
    ensures exact { map (λ x. x *ℤ pos k) items.new ≡ items.old }
{
    for item in items.iter_mut() {
        *item /= i64::from(k);
    }
}
