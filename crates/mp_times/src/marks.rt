//! Writers of the table of sync samples.

ghost use Rattle.std.specs.Prelude.{◌≡◌, ◌+◌, ◌<◌, ◌≤◌, ◌^◌, ◌++◌, ℤ, List, All, OnErr, OnOk, length, map};
ghost use Rattle.std.specs.List.{range_with_len};
ghost use Rattle.mp_boxes.specs.Field.{body_bytes, box_bytes, boxes_bytes, optional};
ghost use Rattle.mp_boxes.specs.Push.{ArePushed, IsPushed};
ghost use Rattle.mp_boxes.specs.Table.{HasLen, boxes_len, capped};
ghost use Rattle.mp_columns.specs.declared.columns.TheConstants.{MOST_ITEMS};
ghost use Rattle.mp_times.specs.Written.{IsMark, stss, sync_numbers, sync_row, sync_table};

use crate::sync::NUMBER_LEN;
use mp_boxes::{Field, begin_table, push_fields, reserve, table_len};
use mp_columns::{Column, Cursor};
use mp_ports::NoMemory;

/// Appends the box `stss` of these sync marks (ISO/IEC 14496-12, 8.6.2): the numbers of the samples
/// whose mark is 1. Where no mark is 0, it appends nothing.
pub fn put_stss<C: Column>(column: &C, out: &mut Vec<u8>) -> Result<(), NoMemory>
    requires { All IsMark (C.items column.now) }
    ensures ok { OnOk result (out.new.items ≡ out.old.items ++ boxes_bytes (optional (stss (C.items column.now)))) }
    ensures err { OnErr result (out.new.items ≡ out.old.items) }
{
    let syncs = count_syncs(column);
    if syncs == column.len() {
        return Ok(());
    }
    reserve(out, sync_table_len(syncs) as u32)?;
    push_sync_table(column, syncs, out);
    Ok(())
}

/// The length of that box, or 0.
pub fn stss_len<C: Column>(column: &C) -> u64
    ensures { result ≡ capped (boxes_len (optional (stss (C.items column.now)))) }
{
    let syncs = count_syncs(column);
    if syncs == column.len() {
        return 0;
    }
    sync_table_len(syncs)
}

/// Pushes that box, or nothing.
pub fn push_stss<C: Column>(column: &C, out: &mut Vec<u8>)
    requires { All IsMark (C.items column.now) }
    ensures { ArePushed out.old out.new (map box_bytes (optional (stss (C.items column.now)))) }
{
    let syncs = count_syncs(column);
    if syncs != column.len() {
        push_sync_table(column, syncs, out);
    }
}

/// How many samples are sync.
fn count_syncs<C: Column>(column: &C) -> u32
    ensures count { result ≡ length (sync_numbers 1 (C.items column.now)) }
    ensures few { result ≤ MOST_ITEMS }
{
    let mut syncs = 0;
    let mut cursor = Cursor::at(0);
    while let Some(run) = column.next_run(&mut cursor) {
        if run.value == 1 {
            syncs += run.count;
        }
    }
    syncs
}

/// The length of the table of so many sync samples.
fn sync_table_len(count: u32) -> u64
    ensures len { (xs : List ℤ) → count ≡ length (sync_numbers 1 xs) → HasLen result (sync_table xs) }
    ensures short { count ≤ MOST_ITEMS → result < 2 ^ 32 }
{
    table_len(count, NUMBER_LEN as u32)
}

/// Pushes the table of so many sync samples.
fn push_sync_table<C: Column>(column: &C, syncs: u32, out: &mut Vec<u8>)
    requires { syncs ≡ length (sync_numbers 1 (C.items column.now)) }
    ensures { IsPushed out.old out.new (box_bytes (sync_table (C.items column.now))) }
{
    begin_table(out, *b"stss", false, syncs, NUMBER_LEN as u32);
    push_numbers(column, out);
}

/// Pushes the numbers of the sync samples.
fn push_numbers<C: Column>(column: &C, out: &mut Vec<u8>)
    ensures { ArePushed out.old out.new (map body_bytes (map sync_row (sync_numbers 1 (C.items column.now)))) }
{
    let mut cursor = Cursor::at(0);
    while let Some(run) = column.next_run(&mut cursor) {
        if run.value == 1 {
            push_range(cursor.place() - run.count + 1, run.count, out);
        }
    }
}

/// Pushes so many numbers, from `first` on.
fn push_range(first: u32, count: u32, out: &mut Vec<u8>)
    requires { first + count < 2 ^ 32 }
    ensures { ArePushed out.old out.new (map body_bytes (map sync_row (range_with_len first count))) }
{
    for number in first..first + count {
        push_fields(out, &[Field::U32(number)]);
    }
}
