//! A column that keeps its longest runs.

ghost use Rattle.std.specs.Prelude.{◌≡◌, ℕ, ◌+◌, ◌-◌, ◌<◌, ◌≤◌, ◌^◌, ◌++◌, ◌∷◌, [], IsOk, OnErr, OnOk, None, Some, length};
ghost use Rattle.std.specs.List.{last_or};
ghost use Rattle.mp_columns.specs.Runs.{HoldsItem, runs};
ghost use Rattle.mp_columns.specs.declared.columns.TheConstants.{MOST_ITEMS};

use crate::columns::Column;
use crate::kept::Kept;
use crate::run::{Cursor, Run};
use crate::search::{find_in, items_in, run_near, run_of};
use crate::steps::Steps;
use crate::sums::sum_to;
use crate::walks::{divisor_of, largest_of};
use mp_ports::NoMemory;
use std::alloc::Global;
use std::marker::Model;
use std::sync::ledger::Ledger;

/// The column that all types keep.
pub type Col = RunColumn;

/// A column that keeps its longest runs, each in 13 bytes.
///
/// A value that is equal to the last item takes no memory. An item and a sum are found by a search among
/// the runs.
#[derive(Drop)]
pub struct RunColumn {
    kept: Kept,
}

impl Model for RunColumn {
    ghost use Rattle.std.specs.Prelude.{List, ℤ};
    ghost use Rattle.mp_columns.specs.Kept.{Stands, listed};

    ghost Value = { List ℤ };

    ghost view = { λ c. listed c.kept };

    ghost invariant = { λ c. Stands c.kept };
}

impl RunColumn {
    /// The number of longest runs.
    pub fn runs(&self) -> u32
        ensures { result ≡ length (runs self.now) }
    {
        self.kept.ends.len() as u32
    }

    /// The number of the run that holds item `i`, counted from 0.
    ///
    /// A step is the reading of one run: at most one more than the number of runs has binary digits.
    pub fn find<L: Ledger>(&self, i: u32, steps: &mut Steps<L>) -> u32
        requires { i < length self.now }
        ensures holds { HoldsItem self.now result i }
        ensures counted { steps.old ≤ steps.new }
        ensures cost { (digits : ℕ) → length (runs self.now) < 2 ^ digits → steps.new - steps.old ≤ digits + 1 }
    {
        find_in(&self.kept.ends, i, steps) as u32
    }
}

impl Column for RunColumn {
    ghost items = { λ c. c };

    fn new(alloc: Global) -> Self {
        RunColumn {
            kept: Kept::new(alloc),
        }
    }

    fn len(&self) -> u32 {
        items_in(&self.kept.ends)
    }

    fn at(&self, i: u32) -> i64 {
        self.kept.values[run_of(&self.kept.ends, i)]
    }

    fn prefix(&self, i: u32) -> i128 {
        sum_to(&self.kept.ends, &self.kept.values, &self.kept.sums, i)
    }

    fn total(&self) -> i128 {
        self.prefix(self.len())
    }

    fn largest(&self) -> u64 {
        largest_of(&self.kept.values)
    }

    fn common_divisor(&self) -> u64 {
        divisor_of(&self.kept.values)
    }

    fn next_run(&self, cursor: &mut Cursor) -> Option<Run> {
        let from = cursor.place();
        if from == self.len() {
            return None;
        }
        let run = run_near(&self.kept.ends, from, cursor.run());
        let rest = self.kept.rest_of(run, from);
        *cursor = Cursor::near(from + rest.count, (run + 1) as u32);
        Some(rest)
    }

    fn push(&mut self, value: i64) -> Result<(), NoMemory>
        requires { length self.old + 1 ≤ MOST_ITEMS }
        ensures ok { OnOk result (self.new ≡ self.old ++ value ∷ []) }
        ensures err { OnErr result (self.new ≡ self.old) }
        // an equal value takes no memory
        ensures same { last_or None self.old ≡ Some value → IsOk result }
    {
        self.kept.push(value, 1)
    }

    fn push_copies(&mut self, value: i64, count: u32) -> Result<(), NoMemory> {
        self.kept.push(value, count)
    }

    fn append(&mut self, other: &Self) -> Result<(), NoMemory> {
        let len = self.len();
        let mut cursor = Cursor::at(0);
        while let Some(run) = other.next_run(&mut cursor) {
            let Ok(()) = self.push_copies(run.value, run.count) else {
                self.keep_range(0, len);
                return Err(NoMemory);
            };
        }
        Ok(())
    }

    fn keep_range(&mut self, from: u32, to: u32) {
        self.kept.keep_range(from, to);
    }

    fn shift_by(&mut self, by: i64) {
        self.kept.shift_by(by);
    }

    fn scale_by(&mut self, k: u32) {
        self.kept.scale_by(k);
    }

    fn divide_by(&mut self, k: u32) {
        self.kept.divide_by(k);
    }
}
