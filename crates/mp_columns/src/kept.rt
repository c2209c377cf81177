//! Longest runs, as a column keeps them.

ghost use Rattle.std.specs.Prelude.{◌≡◌, ◌≢◌, ◌+◌, ◌*◌, ◌/◌, ◌<◌, ◌≤◌, ◌++◌, ℕ, [], length, map, take, drop, replicate, slice_range};
ghost use Rattle.std.specs.Prelude.{All, FitsSigned, IsFalse, IsOk, IsTrue, None, OnErr, OnOk, Some};
ghost use Rattle.std.specs.Prelude.{ℤ, pos, ◌+ℤ◌, ◌*ℤ◌, int_div, int_rem};
ghost use Rattle.std.specs.Int.{w64};
ghost use Rattle.std.specs.List.{last_or};
ghost use Rattle.mp_columns.specs.declared.columns.TheConstants.{MOST_ITEMS};
ghost use Rattle.mp_columns.specs.Kept.{AreLongest, AreRunsOf, IsColumnOf, Stands, end_at, listed, start_at};
ghost use Rattle.mp_columns.specs.Runs.{IsLongestRun};

use crate::run::Run;
use crate::search::{items_in, run_of};
use crate::sums::{STRIDE, divide_sums, fill_sums, push_sum, scale_sums, shift_sums};
use crate::walks::{divide_each, keep, lower_each, scale_each, shift_each};
use mp_ports::NoMemory;
use std::alloc::Global;

/// Longest runs: a run takes 13 bytes.
#[derive(Drop)]
pub(crate) struct Kept {
    /// Where each run ends.
    pub(crate) ends: Vec<u32>,
    /// The value of each run.
    pub(crate) values: Vec<i64>,
    /// At every sixteenth run the sum of the items before it.
    pub(crate) sums: Vec<i128>,
}

impl Kept {
    /// No runs.
    pub(crate) fn new(alloc: Global) -> Self
        ensures ends { result.ends.items ≡ [] }
        ensures values { result.values.items ≡ [] }
        ensures sums { result.sums.items ≡ [] }
    {
        Kept {
            ends: Vec::new(alloc),
            values: Vec::new(alloc),
            sums: Vec::new(alloc),
        }
    }

    /// Writes the sums anew.
    fn sum_up(&mut self)
        requires longest { AreLongest self.old.ends.items self.old.values.items }
        requires few { length (listed self.old) ≤ MOST_ITEMS }
        requires sums { (length self.old.ends.items + 15) / 16 ≤ length self.old.sums.items }
        ensures column { Stands self.new }
        ensures items { listed self.new ≡ listed self.old }
    {
        self.sums.truncate(self.ends.len().div_ceil(STRIDE));
        fill_sums(&self.ends, &self.values, &mut self.sums);
    }

    /// The last run has so many items more.
    fn grow_last(&mut self, value: i64, count: u32)
        requires column { Stands self.old }
        requires last { last_or None self.old.values.items ≡ Some value }
        requires room { length (listed self.old) + count ≤ MOST_ITEMS }
        ensures { IsColumnOf (listed self.old ++ replicate count value) self.new }
    {
        let last = self.ends.len() - 1;
        self.ends[last] += count;
    }

    /// A run of another value follows.
    fn push_other(&mut self, value: i64, count: u32) -> Result<(), NoMemory>
        requires column { Stands self.old }
        requires some { 0 < count }
        requires other { last_or None self.old.values.items ≢ Some value }
        requires room { length (listed self.old) + count ≤ MOST_ITEMS }
        ensures column { Stands self.new }
        ensures ok { OnOk result (listed self.new ≡ listed self.old ++ replicate count value) }
        ensures err { OnErr result (listed self.new ≡ listed self.old) }
    {
        self.ends.reserve(1)?;
        self.values.reserve(1)?;
        push_sum(&self.ends, &self.values, &mut self.sums)?;
        let end = items_in(&self.ends) + count;
        let _ = self.ends.push(end);
        let _ = self.values.push(value);
        Ok(())
    }

    /// So many copies of the value follow the items.
    pub(crate) fn push(&mut self, value: i64, count: u32) -> Result<(), NoMemory>
        requires column { Stands self.old }
        requires room { length (listed self.old) + count ≤ MOST_ITEMS }
        ensures column { Stands self.new }
        ensures ok { OnOk result (listed self.new ≡ listed self.old ++ replicate count value) }
        ensures err { OnErr result (listed self.new ≡ listed self.old) }
        ensures same { last_or None self.old.values.items ≡ Some value → IsOk result }
    {
        if count == 0 {
            return Ok(());
        }
        if ends_with(&self.values, value) {
            self.grow_last(value, count);
            return Ok(());
        }
        self.push_other(value, count)
    }

    /// What is left of a run from item `from` on.
    pub(crate) fn rest_of(&self, run: usize, from: u32) -> Run
        requires longest { AreLongest self.now.ends.items self.now.values.items }
        requires within { run < length self.now.ends.items }
        requires begun { start_at self.now.ends.items run ≤ from }
        requires holds { from < end_at self.now.ends.items run }
        ensures { IsLongestRun (listed self.now) from (from + result.count) result }
    {
        Run {
            value: self.values[run],
            count: self.ends[run] - from,
        }
    }

    /// The first `from` items are gone.
    fn drop_first(&mut self, from: u32)
        requires longest { AreLongest self.old.ends.items self.old.values.items }
        requires inside { from < length (listed self.old) }
        ensures runs { AreRunsOf (drop from (listed self.old)) self.new }
        ensures fewer { length self.new.ends.items ≤ length self.old.ends.items }
        ensures sums { self.new.sums ≡ self.old.sums }
    {
        let run = run_of(&self.ends, from);
        let runs = self.ends.len();
        keep(&mut self.ends, run, runs);
        keep(&mut self.values, run, runs);
        lower_each(&mut self.ends, from);
    }

    /// Only the first `to` items are left.
    fn keep_first(&mut self, to: u32)
        requires column { Stands self.old }
        requires some { 0 < to }
        requires inside { to ≤ length (listed self.old) }
        ensures { IsColumnOf (take to (listed self.old)) self.new }
    {
        let run = run_of(&self.ends, to - 1);
        self.ends.truncate(run + 1);
        self.values.truncate(run + 1);
        self.sums.truncate(run / STRIDE + 1);
        self.ends[run] = to;
    }

    /// No items are left.
    fn clear(&mut self)
        ensures column { Stands self.new }
        ensures items { listed self.new ≡ [] }
    {
        self.ends.clear();
        self.values.clear();
        self.sums.clear();
    }

    /// The items from `from` up to, and without, `to` are left.
    pub(crate) fn keep_range(&mut self, from: u32, to: u32)
        requires column { Stands self.old }
        requires order { from ≤ to }
        requires inside { to ≤ length (listed self.old) }
        ensures column { Stands self.new }
        ensures items { listed self.new ≡ slice_range (listed self.old) from to }
    {
        if from == to {
            self.clear();
            return;
        }
        self.keep_first(to);
        if from == 0 {
            return;
        }
        self.drop_first(from);
        self.sum_up();
    }

    /// Each item plus `by`.
    pub(crate) fn shift_by(&mut self, by: i64)
        requires column { Stands self.old }
        requires fits { All (λ x. FitsSigned w64 (x +ℤ by)) (listed self.old) }
        ensures column { Stands self.new }
        ensures items { listed self.new ≡ map (λ x. x +ℤ by) (listed self.old) }
    {
        shift_each(&mut self.values, by);
        shift_sums(&self.ends, &mut self.sums, by);
    }

    /// Each item is 0, so that there is one run.
    fn flatten(&mut self)
        requires column { Stands self.old }
        ensures column { Stands self.new }
        ensures items { listed self.new ≡ replicate (length (listed self.old)) (pos 0) }
    {
        let len = items_in(&self.ends);
        if len == 0 {
            return;
        }
        self.ends.truncate(1);
        self.values.truncate(1);
        self.ends[0] = len;
        self.values[0] = 0;
        self.sum_up();
    }

    /// Each item times `k`.
    pub(crate) fn scale_by(&mut self, k: u32)
        requires column { Stands self.old }
        requires fits { All (λ x. FitsSigned w64 (x *ℤ pos k)) (listed self.old) }
        ensures column { Stands self.new }
        ensures items { listed self.new ≡ map (λ x. x *ℤ pos k) (listed self.old) }
    {
        if k == 0 {
            self.flatten();
            return;
        }
        scale_each(&mut self.values, k);
        scale_sums(&mut self.sums, k);
    }

    /// Each item divided by `k`.
    pub(crate) fn divide_by(&mut self, k: u32)
        requires column { Stands self.old }
        requires some { 1 ≤ k }
        requires whole { All (λ x. int_rem x (pos k) ≡ pos 0) (listed self.old) }
        ensures column { Stands self.new }
        ensures items { listed self.new ≡ map (λ x. int_div x (pos k)) (listed self.old) }
    {
        divide_each(&mut self.values, k);
        divide_sums(&mut self.sums, k);
    }
}

/// Whether the last value is this one.
fn ends_with(values: &[i64], value: i64) -> bool
    ensures yes { IsTrue result → last_or None values.now ≡ Some value }
    ensures no { IsFalse result → last_or None values.now ≢ Some value }
{
    let count = values.len();
    count > 0 && values[count - 1] == value
}
