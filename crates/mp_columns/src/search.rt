//! The search among runs, by where each of them ends.

ghost use Rattle.std.specs.Prelude.{◌≡◌, ◌-◌, ◌*◌, ◌^◌, ◌<◌, ◌≤◌, length, min};
ghost use Rattle.mp_columns.specs.Kept.{CanFind, end_at, start_at};

use crate::steps::Steps;
use std::marker::Brand;
use std::sync::ledger::{Blank, Ledger};

/// Where a run begins; behind the last run, where the items end.
pub(crate) fn start_in(ends: &[u32], run: usize) -> u32
    requires { run ≤ length ends.now }
    ensures { result ≡ start_at ends.now run }
{
    if run == 0 { 0 } else { ends[run - 1] }
}

/// How many items there are.
pub(crate) fn items_in(ends: &[u32]) -> u32
    ensures { result ≡ start_at ends.now (length ends.now) }
{
    start_in(ends, ends.len())
}

/// The first run that can hold item `i`: behind it stand no more runs than items.
fn lowest(ends: &[u32], i: u32) -> usize
    requires { CanFind ends.now i }
    ensures within { result < length ends.now }
    ensures few { result ≤ i }
    ensures begun { start_at ends.now result ≤ i }
{
    ends.len().saturating_sub((items_in(ends) - i) as usize)
}

/// The last run that can: before it stand no more runs than items.
fn highest(ends: &[u32], i: u32) -> usize
    requires { CanFind ends.now i }
    ensures is { result ≡ min (length ends.now - 1) i }
    ensures holds { i < end_at ends.now result }
{
    (ends.len() - 1).min(i as usize)
}

/// The run that holds item `i`.
///
/// A step is the reading of one run: the last one tells where the search begins. Where each item differs from the
/// one before it, the search ends there.
pub(crate) fn find_in<L: Ledger>(ends: &[u32], i: u32, steps: &mut Steps<L>) -> usize
    requires { CanFind ends.now i }
    ensures within { result < length ends.now }
    ensures begun { start_at ends.now result ≤ i }
    ensures holds { i < end_at ends.now result }
    ensures counted { steps.old ≤ steps.new }
    ensures cost { 2 ^ (steps.new - steps.old) ≤ 4 * length ends.now }
{
    steps.tick();
    let mut low = lowest(ends, i);
    let mut high = highest(ends, i);
    while low < high {
        let middle = low + (high - low) / 2;
        steps.tick();
        if ends[middle] <= i {
            low = middle + 1;
        } else {
            high = middle;
        }
    }
    low
}

fn find_from<L: Ledger>(ends: &[u32], i: u32, blank: Blank) -> usize
    requires name { blank.name ≡ L.name }
    requires parts { blank.parts ≡ L.parts }
    requires some { 0 < blank.parts }
    requires found { CanFind ends.now i }
    ensures within { result < length ends.now }
    ensures begun { start_at ends.now result ≤ i }
    ensures holds { i < end_at ends.now result }
{
    let mut steps = Steps::<L>::from_blank(blank);
    find_in(ends, i, &mut steps)
}

/// The same, with nothing counted.
pub(crate) fn run_of(ends: &[u32], i: u32) -> usize
    requires found { CanFind ends.now i }
    ensures within { result < length ends.now }
    ensures begun { start_at ends.now result ≤ i }
    ensures holds { i < end_at ends.now result }
{
    find_from::<Brand>(ends, i, Blank::new(1))
}

/// The same, where it may be the run before which there are `hint`.
pub(crate) fn run_near(ends: &[u32], i: u32, hint: u32) -> usize
    requires found { CanFind ends.now i }
    ensures within { result < length ends.now }
    ensures begun { start_at ends.now result ≤ i }
    ensures holds { i < end_at ends.now result }
{
    let run = hint as usize;
    if run < ends.len() && start_in(ends, run) <= i && i < ends[run] {
        return run;
    }
    run_of(ends, i)
}
