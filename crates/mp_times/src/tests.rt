//! Each call at a concrete column. The answers were computed by hand from ISO/IEC 14496-12, 8.6.

ghost use Rattle.std.specs.Prelude.{◌≤◌, All, FitsSigned, IfOk, IsTrue, length};
ghost use Rattle.std.specs.Int.{w32, FitsUnsigned};
ghost use Rattle.mp_times.specs.Times.{unfolded};
ghost use Rattle.mp_times.specs.Written.{IsMark};

use crate::{
    ctts_len, push_ctts, push_stss, push_stts, put_ctts, put_stss, put_stts, read_ctts, read_stss,
    read_stts, stss_len, stts_len, unfolded,
};
use mp_boxes::reserve;
use mp_columns::{Col, Column, MOST_ITEMS};
use mp_ports::{Bad, Code, Fail as Refusal, NoMemory};
use std::alloc::Global;
use std::process::Abort;
use std::test::Fail;

// The place of each box.
const BASE: u64 = 476;

// Which table, and for `stss` how many samples there are.
#[derive(Clone, Copy)]
enum Table {
    Stts,
    Ctts,
    Stss(u32),
}

// A table, its body, and its items or the code of its refusal.
type ReadRow<'a> = (Table, &'a [u8], Result<&'a [i64], Code>);

// A table, its items, and the bytes that are appended.
type PutRow<'a> = (Table, &'a [i64], &'a [u8]);

fn is_few(body: &[u8], ctts: bool) -> bool
    ensures { IsTrue result → IfOk (unfolded ctts body.now) (λ samples. samples ≤ MOST_ITEMS) }
{
    match unfolded(body, BASE, ctts) {
        Ok(samples) => samples <= u64::from(MOST_ITEMS),
        Err(_) => true,
    }
}

fn read<C: Column>(
    rt: &impl Abort,
    alloc: Global,
    table: Table,
    body: &[u8],
) -> Result<C, Refusal> {
    match table {
        Table::Stts => {
            assert!(rt; is_few(body, false));
            read_stts(alloc, body, BASE)
        }
        Table::Ctts => {
            assert!(rt; is_few(body, true));
            read_ctts(alloc, body, BASE)
        }
        Table::Stss(samples) => {
            assert!(rt; samples <= MOST_ITEMS);
            read_stss(alloc, body, BASE, samples)
        }
    }
}

fn run_read<C: Column>(rt: &impl Abort, alloc: Global, row: usize, case: ReadRow) {
    let (table, body, wanted) = case;
    match (read::<C>(rt, alloc, table, body), wanted) {
        (Ok(column), Ok(items)) => {
            assert_eq!(rt; column.len() as usize, items.len(), "row {row}");
            for i in 0..column.len() {
                assert_eq!(rt; column.at(i), items[i as usize], "row {row} item {i}");
            }
        }
        (Err(Refusal::Bad(bad)), Err(code)) => {
            assert_eq!(rt; bad, Bad::at(code, BASE), "row {row}");
        }
        _ => assert!(rt; false, "row {row}"),
    }
}

fn filled<C: Column>(alloc: Global, items: &[i64]) -> Result<C, NoMemory>
    requires { length items.now ≤ MOST_ITEMS }
{
    let mut column = C::new(alloc);
    for item in items {
        column.push(*item)?;
    }
    Ok(column)
}

fn is_unsigned(x: i64) -> bool
    ensures { IsTrue result → FitsUnsigned w32 x }
{
    u32::try_from(x).is_ok()
}

fn are_unsigned<C: Column>(column: &C) -> bool
    ensures { IsTrue result → All (FitsUnsigned w32) (C.items column.now) }
{
    for i in 0..column.len() {
        if !is_unsigned(column.at(i)) {
            return false;
        }
    }
    true
}

fn is_mark(x: i64) -> bool
    ensures { IsTrue result → IsMark x }
{
    x == 0 || x == 1
}

fn are_mark<C: Column>(column: &C) -> bool
    ensures { IsTrue result → All IsMark (C.items column.now) }
{
    for i in 0..column.len() {
        if !is_mark(column.at(i)) {
            return false;
        }
    }
    true
}

fn is_signed(x: i64) -> bool
    ensures { IsTrue result → FitsSigned w32 x }
{
    i32::try_from(x).is_ok()
}

fn are_signed<C: Column>(column: &C) -> bool
    ensures { IsTrue result → All (FitsSigned w32) (C.items column.now) }
{
    for i in 0..column.len() {
        if !is_signed(column.at(i)) {
            return false;
        }
    }
    true
}

fn put<C: Column>(
    rt: &impl Abort,
    table: Table,
    column: &C,
    out: &mut Vec<u8>,
) -> Result<(), NoMemory> {
    match table {
        Table::Stts => {
            assert!(rt; are_unsigned(column));
            put_stts(column, out)
        }
        Table::Ctts => {
            if are_unsigned(column) {
                return put_ctts(column, out);
            }
            assert!(rt; are_signed(column));
            put_ctts(column, out)
        }
        Table::Stss(_) => {
            assert!(rt; are_mark(column));
            put_stss(column, out)
        }
    }
}

// The same by its length, and what is pushed into that room.
fn push<C: Column>(
    rt: &impl Abort,
    table: Table,
    column: &C,
    out: &mut Vec<u8>,
) -> Result<(), NoMemory> {
    let len = match table {
        Table::Stts => stts_len(column),
        Table::Ctts => ctts_len(column),
        Table::Stss(_) => stss_len(column),
    };
    assert!(rt; len <= 1024);
    reserve(out, len as u32)?;
    match table {
        Table::Stts => {
            assert!(rt; are_unsigned(column));
            push_stts(column, out);
        }
        Table::Ctts => {
            if are_unsigned(column) {
                push_ctts(column, out);
            } else {
                assert!(rt; are_signed(column));
                push_ctts(column, out);
            }
        }
        Table::Stss(_) => {
            assert!(rt; are_mark(column));
            push_stss(column, out);
        }
    }
    Ok(())
}

fn run_put<C: Column>(
    rt: &impl Abort,
    alloc: Global,
    row: usize,
    case: PutRow,
) -> Result<(), NoMemory> {
    let (table, items, wanted) = case;
    assert!(rt; items.len() <= 8);
    let column = filled::<C>(alloc, items)?;
    let mut out = Vec::new(alloc);
    out.push(7)?;
    put(rt, table, &column, &mut out)?;
    assert_eq!(rt; out.len(), 1 + wanted.len(), "row {row}");
    for (i, byte) in out.iter().skip(1).enumerate() {
        assert_eq!(rt; Some(byte), wanted.get(i), "row {row} byte {i}");
    }
    assert_eq!(rt; out.first(), Some(&7), "row {row}");
    let mut pushed = Vec::new(alloc);
    pushed.push(7)?;
    push(rt, table, &column, &mut pushed)?;
    assert_eq!(rt; pushed, out, "row {row}");
    Ok(())
}

#[test]
fn bodies_are_read_as_by_hand(rt: HostRuntime) {
    let rows: [ReadRow; 19] = [
        (
            Table::Stts,
            &[
                0, 0, 0, 0, 0, 0, 0, 2, 0, 0, 0, 2, 0, 0, 3, 233, 0, 0, 0, 1, 0, 0, 3, 234,
            ],
            Ok(&[1001, 1001, 1002]),
        ),
        (
            Table::Stts,
            &[
                0, 0, 0, 0, 0, 0, 0, 2, 0, 0, 0, 2, 0, 0, 3, 233, 0, 0, 0, 1, 0, 0, 3,
            ],
            Err(Code::TableLength),
        ),
        (Table::Stts, &[9, 0, 0], Err(Code::TableLength)),
        (Table::Stts, &[1, 0, 0, 0], Err(Code::BoxVersion)),
        (Table::Stts, &[0, 0, 0, 0, 0, 0, 0], Err(Code::TableLength)),
        (
            Table::Stts,
            &[0, 0, 0, 0, 255, 255, 255, 255],
            Err(Code::TableLength),
        ),
        (
            Table::Stts,
            &[
                0, 0, 0, 0, 0, 0, 0, 3, 0, 0, 0, 1, 0, 0, 0, 5, 0, 0, 0, 0, 0, 0, 0, 7, 0, 0, 0, 1,
                0, 0, 0, 5, 255,
            ],
            Ok(&[5, 5]),
        ),
        (Table::Stts, &[0, 0, 0, 0, 0, 0, 0, 0], Ok(&[])),
        (
            Table::Ctts,
            &[1, 0, 0, 0, 0, 0, 0, 1, 0, 0, 0, 1, 255, 255, 255, 255],
            Ok(&[-1]),
        ),
        (
            Table::Ctts,
            &[0, 0, 0, 0, 0, 0, 0, 1, 0, 0, 0, 1, 255, 255, 255, 255],
            Ok(&[4_294_967_295]),
        ),
        (Table::Ctts, &[2, 0, 0, 0], Err(Code::BoxVersion)),
        (
            Table::Ctts,
            &[0, 0, 0, 0, 0, 0, 0, 1, 0, 0, 0, 2, 0, 0, 0, 0],
            Ok(&[0, 0]),
        ),
        (
            Table::Stss(3),
            &[0, 0, 0, 0, 0, 0, 0, 2, 0, 0, 0, 1, 0, 0, 0, 3],
            Ok(&[1, 0, 1]),
        ),
        (
            Table::Stss(3),
            &[0, 0, 0, 0, 0, 0, 0, 2, 0, 0, 0, 3, 0, 0, 0, 3],
            Err(Code::SyncOrder),
        ),
        (
            Table::Stss(3),
            &[0, 0, 0, 0, 0, 0, 0, 1, 0, 0, 0, 0],
            Err(Code::SyncOrder),
        ),
        (
            Table::Stss(3),
            &[0, 0, 0, 0, 0, 0, 0, 1, 0, 0, 0, 4],
            Err(Code::SyncOrder),
        ),
        (Table::Stss(3), &[0, 0, 0, 0, 0, 0, 0, 0], Ok(&[0, 0, 0])),
        (Table::Stss(3), &[1, 0, 0, 0], Err(Code::BoxVersion)),
        (
            Table::Stss(3),
            &[0, 0, 0, 0, 0, 0, 0, 3, 0, 0, 0, 3, 0, 0, 0, 3],
            Err(Code::TableLength),
        ),
    ];
    for (row, case) in rows.iter().enumerate() {
        run_read::<Col>(&rt, rt.alloc(), row, *case);
    }
}

#[test]
fn boxes_are_appended_as_by_hand(rt: HostRuntime) -> Result<(), Fail> {
    let rows: [PutRow; 9] = [
        (
            Table::Stts,
            &[1001, 1001, 1002],
            &[
                0, 0, 0, 32, 115, 116, 116, 115, 0, 0, 0, 0, 0, 0, 0, 2, 0, 0, 0, 2, 0, 0, 3, 233,
                0, 0, 0, 1, 0, 0, 3, 234,
            ],
        ),
        (
            Table::Stts,
            &[],
            &[0, 0, 0, 16, 115, 116, 116, 115, 0, 0, 0, 0, 0, 0, 0, 0],
        ),
        (Table::Ctts, &[0, 0], &[]),
        (Table::Ctts, &[], &[]),
        (
            Table::Ctts,
            &[0, -1, -1],
            &[
                0, 0, 0, 32, 99, 116, 116, 115, 1, 0, 0, 0, 0, 0, 0, 2, 0, 0, 0, 1, 0, 0, 0, 0, 0,
                0, 0, 2, 255, 255, 255, 255,
            ],
        ),
        (
            Table::Ctts,
            &[4_294_967_295],
            &[
                0, 0, 0, 24, 99, 116, 116, 115, 0, 0, 0, 0, 0, 0, 0, 1, 0, 0, 0, 1, 255, 255, 255,
                255,
            ],
        ),
        (
            Table::Stss(0),
            &[1, 0, 1],
            &[
                0, 0, 0, 24, 115, 116, 115, 115, 0, 0, 0, 0, 0, 0, 0, 2, 0, 0, 0, 1, 0, 0, 0, 3,
            ],
        ),
        (Table::Stss(0), &[1, 1], &[]),
        (
            Table::Stss(0),
            &[0],
            &[0, 0, 0, 16, 115, 116, 115, 115, 0, 0, 0, 0, 0, 0, 0, 0],
        ),
    ];
    for (row, case) in rows.iter().enumerate() {
        run_put::<Col>(&rt, rt.alloc(), row, *case)?;
    }
    Ok(())
}

#[test]
fn samples_are_counted_without_a_column(rt: HostRuntime) {
    let body = [
        0, 0, 0, 0, 0, 0, 0, 2, 0, 0, 0, 2, 0, 0, 3, 233, 0, 0, 0, 1, 0, 0, 3, 234,
    ];
    assert_eq!(rt; unfolded(&body, BASE, false), Ok(3));
    assert_eq!(rt;
        unfolded(&body[..23], BASE, true),
        Err(Bad::at(Code::TableLength, BASE))
    );
}
