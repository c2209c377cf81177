//! The sums that stand at every sixteenth run.

ghost use Rattle.std.specs.Prelude.{◌≡◌, ℕ, ◌+◌, ◌*◌, ◌/◌, ◌^◌, ◌<◌, ◌≤◌, All, FitsSigned, length, OnErr, OnOk, map, slice_index_or};
ghost use Rattle.std.specs.Prelude.{pos, neg_ℤ, ◌+ℤ◌, ◌*ℤ◌, ◌≤ℤ◌, int_div};
ghost use Rattle.std.specs.Int.{w128};
ghost use Rattle.mp_columns.specs.declared.columns.TheConstants.{MOST_ITEMS};
ghost use Rattle.mp_columns.specs.Kept.{AreLongest, AreSums, IsColumn, IsSum, all_items, start_at};

use crate::search::{items_in, run_of, start_in};
use mp_ports::NoMemory;

/// A sum is kept at every so many runs.
pub(crate) const STRIDE: usize = 16;

/// A sum, with so many equal items more.
fn add_run(sum: i128, value: i64, count: u32) -> i128
    requires low { neg_ℤ (pos (2 ^ 100)) ≤ℤ sum }
    requires high { sum ≤ℤ pos (2 ^ 100) }
    ensures { result ≡ sum +ℤ (value *ℤ pos count) }
{
    sum + i128::from(value) * i128::from(count)
}

/// The sum of the first `i` items, for which at most 16 runs are read behind the search.
pub(crate) fn sum_to(ends: &[u32], values: &[i64], sums: &[i128], i: u32) -> i128
    requires column { IsColumn ends.now values.now sums.now }
    requires inside { i ≤ length (all_items ends.now values.now) }
    ensures { IsSum (all_items ends.now values.now) i result }
{
    if i == 0 {
        return 0;
    }
    let run = run_of(ends, i - 1);
    let mut sum = sums[run / STRIDE];
    for before in STRIDE * (run / STRIDE)..run {
        sum = add_run(sum, values[before], ends[before] - start_in(ends, before));
    }
    add_run(sum, values[run], i - start_in(ends, run))
}

/// Writes the sum at every sixteenth run.
pub(crate) fn fill_sums(ends: &[u32], values: &[i64], sums: &mut [i128])
    requires longest { AreLongest ends.now values.now }
    requires few { length (all_items ends.now values.now) ≤ MOST_ITEMS }
    requires count { length sums.old ≡ (length ends.now + 15) / 16 }
    ensures { AreSums (length ends.now) ends.now (all_items ends.now values.now) sums.new }
{
    let mut sum = 0;
    for run in 0..ends.len() {
        if run % STRIDE == 0 {
            sums[run / STRIDE] = sum;
        }
        sum = add_run(sum, values[run], ends[run] - start_in(ends, run));
    }
}

/// Pushes the sum of all items, where the next run is a sixteenth one; only there it takes memory.
pub(crate) fn push_sum(ends: &[u32], values: &[i64], sums: &mut Vec<i128>) -> Result<(), NoMemory>
    requires { IsColumn ends.now values.now sums.old.items }
    ensures ok { OnOk result (AreSums (length ends.now + 1) ends.now (all_items ends.now values.now) sums.new.items) }
    ensures err { OnErr result (sums.new.items ≡ sums.old.items) }
{
    if ends.len() % STRIDE != 0 {
        return Ok(());
    }
    sums.reserve(1)?;
    let sum = sum_to(ends, values, sums, items_in(ends));
    let _ = sums.push(sum);
    Ok(())
}

/// Each sum times `k`.
pub(crate) fn scale_sums(sums: &mut [i128], k: u32)
    requires { All (λ x. FitsSigned w128 (x *ℤ pos k)) sums.old }
    ensures { sums.new ≡ map (λ x. x *ℤ pos k) sums.old }
{
    for sum in sums.iter_mut() {
        *sum *= i128::from(k);
    }
}

/// Each sum divided by `k`.
pub(crate) fn divide_sums(sums: &mut [i128], k: u32)
    requires { 1 ≤ k }
    ensures { sums.new ≡ map (λ x. int_div x (pos k)) sums.old }
{
    for sum in sums.iter_mut() {
        *sum /= i128::from(k);
    }
}

/// Each sum of items, with `by` added to each of them.
pub(crate) fn shift_sums(ends: &[u32], sums: &mut [i128], by: i64)
    requires count { length sums.old ≡ (length ends.now + 15) / 16 }
    requires low { All (λ x. neg_ℤ (pos (2 ^ 100)) ≤ℤ x) sums.old }
    requires high { All (λ x. x ≤ℤ pos (2 ^ 100)) sums.old }
    ensures count { length sums.new ≡ length sums.old }
    ensures each { (at : ℕ) → at < length sums.old
        → slice_index_or sums.new at (pos 0)
        ≡ slice_index_or sums.old at (pos 0) +ℤ (by *ℤ pos (start_at ends.now (16 * at))) }
{
    for at in 0..sums.len() {
        sums[at] = add_run(sums[at], by, start_in(ends, STRIDE * at));
    }
}
