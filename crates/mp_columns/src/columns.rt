//! What a column is, and what each of its calls does to the list.

ghost use Rattle.std.specs.Prelude.{◌≡◌, ◌+◌, ◌≤◌, ◌<◌, ◌++◌, List, [], ◌∷◌, All, FitsSigned, OnErr, OnOk};
ghost use Rattle.std.specs.Prelude.{length, map, replicate, slice_index_or, slice_range, take, unsigned_abs};
ghost use Rattle.std.specs.Prelude.{ℤ, pos, ◌+ℤ◌, ◌*ℤ◌, int_div, int_rem};
ghost use Rattle.std.specs.Int.{w64};
ghost use Rattle.mp_frac.specs.Divisors.{IsGreatestCommon};
ghost use Rattle.mp_columns.specs.Numbers.{total, largest};
ghost use Rattle.mp_columns.specs.Runs.{IsFirstRun, IsNextRun};

use crate::run::{Cursor, Run};
use mp_ports::NoMemory;
use std::alloc::Global;

/// The most items that a column has.
pub const MOST_ITEMS: u32 = 8_388_608;

/// A list of whole numbers, each an `i64`, its items counted from 0.
///
/// Only `push`, `push_copies` and `append` take memory, and only for want of it do they answer `Err`. A
/// column is then as it was.
pub trait Column: Drop {
    /// The numbers, in order.
    ghost items: { Self → List ℤ };

    /// The empty list.
    fn new(alloc: Global) -> Self
        ensures { items result ≡ [] };

    /// The number of items.
    fn len(&self) -> u32
        ensures count { result ≡ length (items self.now) }
        ensures most { result ≤ MOST_ITEMS };

    /// Item `i`.
    fn at(&self, i: u32) -> i64
        requires { i < length (items self.now) }
        ensures { result ≡ slice_index_or (items self.now) i (pos 0) };

    /// The sum of the first `i` items.
    fn prefix(&self, i: u32) -> i128
        requires { i ≤ length (items self.now) }
        ensures { result ≡ total (take i (items self.now)) };

    /// The sum of all items.
    fn total(&self) -> i128
        ensures { result ≡ total (items self.now) };

    /// The greatest absolute value, or 0 for the empty list.
    fn largest(&self) -> u64
        ensures { result ≡ largest (items self.now) };

    /// The greatest number that divides the absolute value of each item, or 0 where each is 0.
    fn common_divisor(&self) -> u64
        ensures { IsGreatestCommon (map unsigned_abs (items self.now)) result };

    /// The longest run of equal items that begins at the cursor, which is moved behind it; `None` at the
    /// end of the column.
    ///
    /// So a column is read once, from one run to the next, and nothing is looked for.
    fn next_run(&self, cursor: &mut Cursor) -> Option<Run>
        requires { cursor.old ≤ length (items self.now) }
        ensures next { IsNextRun (items self.now) cursor.old cursor.new result }
        ensures first { IsFirstRun (items self.now) cursor.old cursor.new result }
        ensures most { cursor.new ≤ MOST_ITEMS };

    /// The value follows the items.
    fn push(&mut self, value: i64) -> Result<(), NoMemory>
        requires { length (items self.old) + 1 ≤ MOST_ITEMS }
        ensures ok { OnOk result (items self.new ≡ items self.old ++ value ∷ []) }
        ensures err { OnErr result (items self.new ≡ items self.old) };

    /// So many copies of the value follow the items.
    fn push_copies(&mut self, value: i64, count: u32) -> Result<(), NoMemory>
        requires { length (items self.old) + count ≤ MOST_ITEMS }
        ensures ok { OnOk result (items self.new ≡ items self.old ++ replicate count value) }
        ensures err { OnErr result (items self.new ≡ items self.old) };

    /// The items of the other follow the items.
    fn append(&mut self, other: &Self) -> Result<(), NoMemory>
        requires { length (items self.old) + length (items other.now) ≤ MOST_ITEMS }
        ensures ok { OnOk result (items self.new ≡ items self.old ++ items other.now) }
        ensures err { OnErr result (items self.new ≡ items self.old) };

    /// The items from `from` up to, and without, `to` are left.
    fn keep_range(&mut self, from: u32, to: u32)
        requires order { from ≤ to }
        requires inside { to ≤ length (items self.old) }
        ensures { items self.new ≡ slice_range (items self.old) from to };

    /// Each item plus `by`.
    fn shift_by(&mut self, by: i64)
        requires { All (λ x. FitsSigned w64 (x +ℤ by)) (items self.old) }
        ensures { items self.new ≡ map (λ x. x +ℤ by) (items self.old) };

    /// Each item times `k`.
    fn scale_by(&mut self, k: u32)
        requires { All (λ x. FitsSigned w64 (x *ℤ pos k)) (items self.old) }
        ensures { items self.new ≡ map (λ x. x *ℤ pos k) (items self.old) };

    /// Each item divided by `k`, which divides it.
    fn divide_by(&mut self, k: u32)
        requires some { 1 ≤ k }
        requires whole { All (λ x. int_rem x (pos k) ≡ pos 0) (items self.old) }
        ensures quotients { items self.new ≡ map (λ x. int_div x (pos k)) (items self.old) }
        ensures exact { map (λ x. x *ℤ pos k) (items self.new) ≡ items self.old };
}
