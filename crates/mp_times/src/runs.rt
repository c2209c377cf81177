//! Writers of the tables of runs: durations and composition offsets.

ghost use Rattle.std.specs.Prelude.{◌≡◌, ◌<◌, ◌≤◌, ◌^◌, ◌++◌, ℕ, ℤ, pos, Bool, List, All, OnErr, OnOk, length, map};
ghost use Rattle.std.specs.List.{list_all};
ghost use Rattle.std.specs.Int.{w32, FitsUnsigned, cast_unsigned};
ghost use Rattle.std.specs.Ordering.{int_eq};
ghost use Rattle.mp_boxes.specs.Field.{body_bytes, box_bytes, boxes_bytes, optional};
ghost use Rattle.mp_boxes.specs.Push.{ArePushed, IsPushed};
ghost use Rattle.mp_boxes.specs.Table.{HasLen, boxes_len, capped};
ghost use Rattle.mp_columns.specs.declared.columns.TheConstants.{MOST_ITEMS};
ghost use Rattle.mp_columns.specs.Runs.{runs};
ghost use Rattle.mp_times.specs.Written.{FitOffsets, FitsBits, ctts, is_unsigned, run_row, run_table, stts};

use crate::times::RUN_LEN;
use mp_boxes::{Field, begin_table, push_fields, reserve, table_len};
use mp_columns::{Column, Cursor};
use mp_ports::NoMemory;

/// Appends the box `stts` of these durations (ISO/IEC 14496-12, 8.6.1.2), as their longest runs.
pub fn put_stts<C: Column>(column: &C, out: &mut Vec<u8>) -> Result<(), NoMemory>
    requires { All (FitsUnsigned w32) (C.items column.now) }
    ensures ok { OnOk result (out.new.items ≡ out.old.items ++ box_bytes (stts (C.items column.now))) }
    ensures err { OnErr result (out.new.items ≡ out.old.items) }
{
    put_run_table(column, *b"stts", false, look_over(column).runs, out)
}

/// The length of that box.
pub fn stts_len<C: Column>(column: &C) -> u64
    ensures { HasLen result (stts (C.items column.now)) }
{
    run_table_len(look_over(column).runs)
}

/// Pushes that box.
pub fn push_stts<C: Column>(column: &C, out: &mut Vec<u8>)
    requires { All (FitsUnsigned w32) (C.items column.now) }
    ensures { IsPushed out.old out.new (box_bytes (stts (C.items column.now))) }
{
    push_run_table(column, *b"stts", false, look_over(column).runs, out);
}

/// Appends the box `ctts` of these offsets (ISO/IEC 14496-12, 8.6.1.3), as their longest runs, in
/// version 1 where one of them isn't in 0 to 4,294,967,295. Where all are 0, it appends nothing.
pub fn put_ctts<C: Column>(column: &C, out: &mut Vec<u8>) -> Result<(), NoMemory>
    requires { FitOffsets (C.items column.now) }
    ensures ok { OnOk result (out.new.items ≡ out.old.items ++ boxes_bytes (optional (ctts (C.items column.now)))) }
    ensures err { OnErr result (out.new.items ≡ out.old.items) }
{
    let survey = look_over(column);
    if survey.zero {
        return Ok(());
    }
    put_run_table(column, *b"ctts", !survey.unsigned, survey.runs, out)
}

/// The length of that box, or 0.
pub fn ctts_len<C: Column>(column: &C) -> u64
    ensures { result ≡ capped (boxes_len (optional (ctts (C.items column.now)))) }
{
    let survey = look_over(column);
    if survey.zero {
        return 0;
    }
    run_table_len(survey.runs)
}

/// Pushes that box, or nothing.
pub fn push_ctts<C: Column>(column: &C, out: &mut Vec<u8>)
    requires { FitOffsets (C.items column.now) }
    ensures { ArePushed out.old out.new (map box_bytes (optional (ctts (C.items column.now)))) }
{
    let survey = look_over(column);
    if survey.zero {
        return;
    }
    push_run_table(column, *b"ctts", !survey.unsigned, survey.runs, out);
}

/// What a table of runs is like, before it is written.
#[derive(Clone, Copy)]
struct Survey {
    /// How many longest runs there are.
    runs: u32,
    /// Each value is in 0 to 4,294,967,295.
    unsigned: bool,
    /// Each value is 0.
    zero: bool,
}

/// Goes over a column once.
fn look_over<C: Column>(column: &C) -> Survey
    ensures count { result.runs ≡ length (runs (C.items column.now)) }
    ensures few { result.runs ≤ MOST_ITEMS }
    ensures unsigned { result.unsigned ≡ list_all is_unsigned (C.items column.now) }
    ensures zero { result.zero ≡ list_all (int_eq (pos 0)) (C.items column.now) }
{
    let mut runs = 0;
    let mut unsigned = true;
    let mut zero = true;
    let mut cursor = Cursor::at(0);
    while let Some(run) = column.next_run(&mut cursor) {
        runs += 1;
        unsigned &= is_unsigned(run.value);
        zero &= is_zero(run.value);
    }
    Survey {
        runs,
        unsigned,
        zero,
    }
}

fn is_unsigned(value: i64) -> bool
    ensures { result ≡ is_unsigned value }
{
    u32::try_from(value).is_ok()
}

fn is_zero(value: i64) -> bool
    ensures { result ≡ int_eq (pos 0) value }
{
    value == 0
}

/// The length of a table of so many longest runs.
fn run_table_len(count: u32) -> u64
    ensures len { (kind : List ℕ) (signed : Bool) (xs : List ℤ) → length kind ≡ 4 → count ≡ length (runs xs)
        → HasLen result (run_table kind signed xs) }
    ensures short { count ≤ MOST_ITEMS → result < 2 ^ 32 }
{
    table_len(count, RUN_LEN as u32)
}

/// Appends a table of longest runs, of which there are so many.
fn put_run_table<C: Column>(
    column: &C,
    kind: [u8; 4],
    signed: bool,
    count: u32,
    out: &mut Vec<u8>,
) -> Result<(), NoMemory>
    requires fits { All FitsBits (C.items column.now) }
    requires rows { count ≡ length (runs (C.items column.now)) }
    requires few { count ≤ MOST_ITEMS }
    ensures ok { OnOk result (out.new.items ≡ out.old.items ++ box_bytes (run_table kind signed (C.items column.now))) }
    ensures err { OnErr result (out.new.items ≡ out.old.items) }
{
    reserve(out, run_table_len(count) as u32)?;
    push_run_table(column, kind, signed, count, out);
    Ok(())
}

/// Pushes a table of longest runs, of which there are so many.
fn push_run_table<C: Column>(column: &C, kind: [u8; 4], signed: bool, count: u32, out: &mut Vec<u8>)
    requires fits { All FitsBits (C.items column.now) }
    requires rows { count ≡ length (runs (C.items column.now)) }
    ensures { IsPushed out.old out.new (box_bytes (run_table kind signed (C.items column.now))) }
{
    begin_table(out, kind, signed, count, RUN_LEN as u32);
    push_rows(column, out);
}

/// Pushes the longest runs, each as a number of samples and their value.
fn push_rows<C: Column>(column: &C, out: &mut Vec<u8>)
    requires { All FitsBits (C.items column.now) }
    ensures { ArePushed out.old out.new (map body_bytes (map run_row (runs (C.items column.now)))) }
{
    let mut cursor = Cursor::at(0);
    while let Some(run) = column.next_run(&mut cursor) {
        push_fields(out, &[Field::U32(run.count), Field::U32(bits(run.value))]);
    }
}

/// The 32 bits of a value, with a sign or without.
fn bits(value: i64) -> u32
    requires { FitsBits value }
    ensures { result ≡ cast_unsigned w32 value }
{
    if value < 0 {
        (value as i32).cast_unsigned()
    } else {
        value as u32
    }
}
