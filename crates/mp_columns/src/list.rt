//! A column that keeps its list.

ghost use Rattle.std.specs.Prelude.{◌≡◌, ◌≤◌};

use crate::columns::Column;
use crate::run::{Cursor, Run};
use crate::walks::{
    divide_each, divisor_of, keep, largest_of, run_at, scale_each, shift_each, sum_of,
};
use mp_ports::NoMemory;
use std::alloc::Global;
use std::marker::Model;

/// A column that keeps one number for each item.
#[derive(Drop)]
pub struct ListColumn {
    items: Vec<i64>,
}

impl Model for ListColumn {
    ghost use Rattle.std.specs.Prelude.{List, ℤ, length, ◌≤◌};
    ghost use Rattle.mp_columns.specs.declared.columns.TheConstants.{MOST_ITEMS};

    ghost Value = { List ℤ };

    ghost view = { λ c. c.items.items };

    ghost invariant = { λ c. length c.items.items ≤ MOST_ITEMS };
}

impl Column for ListColumn {
    ghost items = { λ c. c };

    fn new(alloc: Global) -> Self {
        ListColumn {
            items: Vec::new(alloc),
        }
    }

    fn len(&self) -> u32 {
        self.items.len() as u32
    }

    fn at(&self, i: u32) -> i64 {
        self.items[i as usize]
    }

    fn prefix(&self, i: u32) -> i128 {
        sum_of(&self.items[..i as usize])
    }

    fn total(&self) -> i128 {
        sum_of(&self.items)
    }

    fn largest(&self) -> u64 {
        largest_of(&self.items)
    }

    fn common_divisor(&self) -> u64 {
        divisor_of(&self.items)
    }

    fn next_run(&self, cursor: &mut Cursor) -> Option<Run> {
        let from = cursor.place();
        if from == self.len() {
            return None;
        }
        let run = run_at(&self.items, from);
        *cursor = Cursor::at(from + run.count);
        Some(run)
    }

    fn push(&mut self, value: i64) -> Result<(), NoMemory> {
        self.items.push(value).map_err(|_| NoMemory)
    }

    fn push_copies(&mut self, value: i64, count: u32) -> Result<(), NoMemory> {
        self.items.reserve(count as usize).map_err(|_| NoMemory)?;
        let len = self.items.len() + count as usize;
        self.items.resize(len, value).map_err(|_| NoMemory)
    }

    fn append(&mut self, other: &Self) -> Result<(), NoMemory> {
        self.items
            .extend_from_slice(&other.items)
            .map_err(|_| NoMemory)
    }

    fn keep_range(&mut self, from: u32, to: u32) {
        keep(&mut self.items, from as usize, to as usize);
    }

    fn shift_by(&mut self, by: i64) {
        shift_each(&mut self.items, by);
    }

    fn scale_by(&mut self, k: u32) {
        scale_each(&mut self.items, k);
    }

    fn divide_by(&mut self, k: u32) {
        divide_each(&mut self.items, k);
    }
}
