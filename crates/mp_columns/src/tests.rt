//! Each call at both columns, through the bound. The answers were computed by hand.

ghost use Rattle.std.specs.Prelude.{◌≡◌, ◌<◌, ◌≤◌, All, FitsSigned, IfOk, IsTrue, length, pos, ◌+ℤ◌, ◌*ℤ◌, int_rem};
ghost use Rattle.std.specs.Int.{w64};

use crate::{Column, Cursor, ListColumn, MOST_ITEMS, Run, RunColumn, Steps};
use mp_ports::NoMemory;
use std::alloc::Global;
use std::marker::Brand;
use std::process::Abort;
use std::sync::ledger::{Blank, Ledger};
use std::test::Fail;

#[derive(Clone, Copy)]
enum Step<'a> {
    Stay,
    Copies(i64, u32),
    Append(&'a [i64]),
    Keep(u32, u32),
    Shift(i64),
    Scale(u32),
    Divide(u32),
}

// A list and a step; then the list after it, the sums of its first 0, 1, .. items, its greatest absolute value.
type Row<'a> = (&'a [i64], Step<'a>, &'a [i64], &'a [i128], u64);

fn filled<C: Column>(alloc: Global, items: &[i64]) -> Result<C, NoMemory>
    requires { length items.now ≤ MOST_ITEMS }
    ensures { IfOk result (λ column. C.items column ≡ items.now) }
{
    let mut column = C::new(alloc);
    for item in items {
        column.push(*item)?;
    }
    Ok(column)
}

fn sum_fits(x: i64, by: i64) -> bool
    ensures { IsTrue result → FitsSigned w64 (x +ℤ by) }
{
    x.checked_add(by).is_some()
}

fn product_fits(x: i64, k: u32) -> bool
    ensures { IsTrue result → FitsSigned w64 (x *ℤ pos k) }
{
    x.checked_mul(i64::from(k)).is_some()
}

fn divides(k: u32, x: i64) -> bool
    requires { 1 ≤ k }
    ensures { IsTrue result → int_rem x (pos k) ≡ pos 0 }
{
    x % i64::from(k) == 0
}

fn can_shift<C: Column>(column: &C, by: i64) -> bool
    ensures { IsTrue result → All (λ x. FitsSigned w64 (x +ℤ by)) (C.items column.now) }
{
    for i in 0..column.len() {
        if !sum_fits(column.at(i), by) {
            return false;
        }
    }
    true
}

fn can_scale<C: Column>(column: &C, k: u32) -> bool
    ensures { IsTrue result → All (λ x. FitsSigned w64 (x *ℤ pos k)) (C.items column.now) }
{
    for i in 0..column.len() {
        if !product_fits(column.at(i), k) {
            return false;
        }
    }
    true
}

fn can_divide<C: Column>(column: &C, k: u32) -> bool
    requires { 1 ≤ k }
    ensures { IsTrue result → All (λ x. int_rem x (pos k) ≡ pos 0) (C.items column.now) }
{
    for i in 0..column.len() {
        if !divides(k, column.at(i)) {
            return false;
        }
    }
    true
}

fn take_step<C: Column>(
    rt: &impl Abort,
    alloc: Global,
    column: &mut C,
    step: Step,
) -> Result<(), NoMemory> {
    match step {
        Step::Stay => Ok(()),
        Step::Copies(value, count) => {
            assert!(rt; count <= 8 && column.len() <= 8);
            column.push_copies(value, count)
        }
        Step::Append(more) => {
            assert!(rt; more.len() <= 8 && column.len() <= 8);
            let other = filled::<C>(alloc, more)?;
            column.append(&other)
        }
        Step::Keep(from, to) => {
            assert!(rt; from <= to && to <= column.len());
            column.keep_range(from, to);
            Ok(())
        }
        Step::Shift(by) => {
            assert!(rt; can_shift(column, by));
            column.shift_by(by);
            Ok(())
        }
        Step::Scale(k) => {
            assert!(rt; can_scale(column, k));
            column.scale_by(k);
            Ok(())
        }
        Step::Divide(k) => {
            assert!(rt; k >= 1);
            assert!(rt; can_divide(column, k));
            column.divide_by(k);
            Ok(())
        }
    }
}

fn run_row<C: Column>(
    rt: &impl Abort,
    alloc: Global,
    row: usize,
    case: Row,
) -> Result<(), NoMemory> {
    let (items, step, left, sums, largest) = case;
    assert!(rt; items.len() <= 8 && sums.len() == left.len() + 1);
    let mut column = filled::<C>(alloc, items)?;
    take_step(rt, alloc, &mut column, step)?;
    assert_eq!(rt; column.len() as usize, left.len(), "row {row}");
    for i in 0..column.len() {
        assert_eq!(rt; column.at(i), left[i as usize], "row {row} item {i}");
        assert_eq!(rt; column.prefix(i), sums[i as usize], "row {row} item {i}");
    }
    assert_eq!(rt; column.prefix(column.len()), sums[left.len()], "row {row}");
    assert_eq!(rt; column.total(), sums[left.len()], "row {row}");
    assert_eq!(rt; column.largest(), largest, "row {row}");
    Ok(())
}

#[test]
fn calls_answer_as_by_hand(rt: HostRuntime) -> Result<(), Fail> {
    let rows: [Row; 14] = [
        (&[], Step::Stay, &[], &[0], 0),
        (&[5, -7, 0], Step::Stay, &[5, -7, 0], &[0, 5, -2, -2], 7),
        (
            &[i64::MIN, i64::MIN],
            Step::Stay,
            &[i64::MIN, i64::MIN],
            &[0, -9_223_372_036_854_775_808, -18_446_744_073_709_551_616],
            9_223_372_036_854_775_808,
        ),
        (
            &[5],
            Step::Copies(-2, 3),
            &[5, -2, -2, -2],
            &[0, 5, 3, 1, -1],
            5,
        ),
        (&[5], Step::Copies(7, 0), &[5], &[0, 5], 5),
        (&[1, -4], Step::Shift(-3), &[-2, -7], &[0, -2, -9], 7),
        (
            &[-1, i64::MIN],
            Step::Shift(i64::MAX),
            &[9_223_372_036_854_775_806, -1],
            &[0, 9_223_372_036_854_775_806, 9_223_372_036_854_775_805],
            9_223_372_036_854_775_806,
        ),
        (
            &[1, 2],
            Step::Append(&[3, -4]),
            &[1, 2, 3, -4],
            &[0, 1, 3, 6, 2],
            4,
        ),
        (&[1, 2, 3, 4], Step::Keep(1, 3), &[2, 3], &[0, 2, 5], 3),
        (&[1, 2, 3, 4], Step::Keep(4, 4), &[], &[0], 0),
        (&[3, -4], Step::Scale(0), &[0, 0], &[0, 0, 0], 0),
        (
            &[3, -4],
            Step::Scale(4_294_967_295),
            &[12_884_901_885, -17_179_869_180],
            &[0, 12_884_901_885, -4_294_967_295],
            17_179_869_180,
        ),
        (
            &[-6, 4, 0],
            Step::Divide(2),
            &[-3, 2, 0],
            &[0, -3, -1, -1],
            3,
        ),
        (
            &[i64::MIN],
            Step::Divide(2_147_483_648),
            &[-4_294_967_296],
            &[0, -4_294_967_296],
            4_294_967_296,
        ),
    ];
    for (row, case) in rows.iter().enumerate() {
        run_row::<ListColumn>(&rt, rt.alloc(), row, *case)?;
        run_row::<RunColumn>(&rt, rt.alloc(), row, *case)?;
    }
    Ok(())
}

// A list; then its greatest common divisor, and its longest runs.
type Listed<'a> = (&'a [i64], u64, &'a [(i64, u32)]);

fn run_listed<C: Column>(
    rt: &impl Abort,
    alloc: Global,
    row: usize,
    case: Listed,
) -> Result<(), NoMemory> {
    let (items, divisor, runs) = case;
    assert!(rt; items.len() <= 8);
    let column = filled::<C>(alloc, items)?;
    assert_eq!(rt; column.common_divisor(), divisor, "row {row}");
    let mut cursor = Cursor::at(0);
    for (value, count) in runs {
        let run = Run {
            value: *value,
            count: *count,
        };
        assert!(rt; cursor.place() <= column.len());
        assert_eq!(rt; column.next_run(&mut cursor), Some(run), "row {row}");
    }
    assert!(rt; cursor.place() <= column.len());
    assert_eq!(rt; column.next_run(&mut cursor), None, "row {row}");
    assert_eq!(rt; cursor.place(), column.len(), "row {row}");
    Ok(())
}

#[test]
fn runs_and_divisors_as_by_hand(rt: HostRuntime) -> Result<(), Fail> {
    let rows: [Listed; 7] = [
        (&[], 0, &[]),
        (&[0, 0], 0, &[(0, 2)]),
        (&[7], 7, &[(7, 1)]),
        (&[1024, 1024, 512], 512, &[(1024, 2), (512, 1)]),
        (&[-6, 4, 4, -6, -6], 2, &[(-6, 1), (4, 2), (-6, 2)]),
        (
            &[i64::MIN, i64::MIN],
            9_223_372_036_854_775_808,
            &[(i64::MIN, 2)],
        ),
        (&[9, 0, -15, 25], 1, &[(9, 1), (0, 1), (-15, 1), (25, 1)]),
    ];
    for (row, case) in rows.iter().enumerate() {
        run_listed::<ListColumn>(&rt, rt.alloc(), row, *case)?;
        run_listed::<RunColumn>(&rt, rt.alloc(), row, *case)?;
    }
    Ok(())
}

// A list and a step; then how many runs there are, and which of them holds each item.
type Found<'a> = (&'a [i64], Step<'a>, u32, &'a [u32]);

fn found<L: Ledger>(column: &RunColumn, i: u32, blank: Blank) -> u32
    requires name { blank.name ≡ L.name }
    requires parts { blank.parts ≡ L.parts }
    requires some { 0 < blank.parts }
    requires inside { i < length column.now }
{
    let mut steps = Steps::<L>::from_blank(blank);
    column.find(i, &mut steps)
}

fn run_found(rt: &impl Abort, alloc: Global, row: usize, case: Found) -> Result<(), NoMemory> {
    let (items, step, count, runs) = case;
    assert!(rt; items.len() <= 8);
    let mut column = filled::<RunColumn>(alloc, items)?;
    take_step(rt, alloc, &mut column, step)?;
    assert_eq!(rt; column.runs(), count, "row {row}");
    assert_eq!(rt; column.len() as usize, runs.len(), "row {row}");
    for i in 0..column.len() {
        let holds = found::<Brand>(&column, i, Blank::new(1));
        assert_eq!(rt; holds, runs[i as usize], "row {row} item {i}");
    }
    Ok(())
}

#[test]
fn runs_stay_longest(rt: HostRuntime) -> Result<(), Fail> {
    let rows: [Found; 11] = [
        (&[], Step::Stay, 0, &[]),
        (&[4, 4, 4], Step::Stay, 1, &[0, 0, 0]),
        (&[4, 5, 5, 4], Step::Stay, 3, &[0, 1, 1, 2]),
        (&[4, 5], Step::Copies(5, 2), 2, &[0, 1, 1, 1]),
        (&[4, 5], Step::Copies(6, 2), 3, &[0, 1, 2, 2]),
        (&[4, 5], Step::Append(&[5, 6]), 3, &[0, 1, 1, 2]),
        (&[4, 4, 5, 5, 6], Step::Keep(1, 3), 2, &[0, 1]),
        (&[4, 4, 5, 5, 6], Step::Keep(2, 4), 1, &[0, 0]),
        (&[4, 5, 6], Step::Scale(0), 1, &[0, 0, 0]),
        (&[4, 6, 6], Step::Divide(2), 2, &[0, 1, 1]),
        (&[4, 5, 5], Step::Shift(-5), 2, &[0, 1, 1]),
    ];
    for (row, case) in rows.iter().enumerate() {
        run_found(&rt, rt.alloc(), row, *case)?;
    }
    Ok(())
}

// 0 and 1 in turn: as many runs as items.
fn turns(rt: &impl Abort, alloc: Global, count: u32) -> Result<RunColumn, NoMemory> {
    let mut column = RunColumn::new(alloc);
    for i in 0..count {
        assert!(rt; column.len() < MOST_ITEMS);
        column.push(i64::from(i % 2))?;
    }
    Ok(column)
}

#[test]
fn a_million_items_in_turn(rt: HostRuntime) -> Result<(), Fail> {
    let column = turns(&rt, rt.alloc(), 1_000_000)?;
    assert_eq!(&rt; column.runs(), 1_000_000);
    let mut items = 0_i64;
    let mut sums = 0_i128;
    for i in 0..column.len() {
        items = items.wrapping_add(column.at(i));
        sums = sums.wrapping_add(column.prefix(i));
    }
    assert_eq!(&rt; items, 500_000);
    assert_eq!(&rt;
        sums.wrapping_add(column.prefix(column.len())),
        250_000_000_000
    );
    Ok(())
}

#[test]
fn equal_items_are_one_run(rt: HostRuntime) -> Result<(), Fail> {
    let mut column = RunColumn::new(rt.alloc());
    for _ in 0..8_388_608_u32 {
        assert!(&rt; column.len() < MOST_ITEMS);
        column.push(1024)?;
    }
    assert_eq!(&rt; column.len(), MOST_ITEMS);
    assert_eq!(&rt; column.runs(), 1);
    assert_eq!(&rt; column.total(), 8_589_934_592);
    assert_eq!(&rt; column.prefix(8_388_607), 8_589_933_568);
    Ok(())
}
