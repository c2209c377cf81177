//! Durations and composition offsets: rows of a number of samples and the value of each of them.

ghost use Rattle.std.specs.Prelude.{◌≡◌, ◌+◌, ◌*◌, ◌≤◌, length, IfOk, true, false};
ghost use Rattle.mp_ports.specs.Checks.{placed};
ghost use Rattle.mp_ports.specs.Gives.{Gives, refusal};
ghost use Rattle.mp_columns.specs.declared.columns.TheConstants.{MOST_ITEMS};
ghost use Rattle.mp_boxes.specs.FullBox.{first_row};
ghost use Rattle.mp_times.specs.Times.{ctts_of, first_rows, newest_version, offset, per_sample, run_len, sample_count, stts_of, unfolded};

use mp_boxes::{FIRST_ROW, row_count, u32_in, version};
use mp_columns::Column;
use mp_ports::{Bad, Fail, NoMemory};
use std::alloc::Global;

/// The greatest version of `stts`.
const STTS_VERSION: u32 = 0;

/// The greatest version of `ctts`.
const CTTS_VERSION: u32 = 1;

/// The length of a row: a number of samples, and the value of each of them.
pub const RUN_LEN: usize = 8;

/// The place of the value in a row.
const VALUE_PLACE: usize = 4;

/// The number of samples of the body of `ctts`, or of `stts`, whose box stands at `base`.
///
/// `TableLength` and `BoxVersion` as the readers answer them. It takes no memory.
pub fn unfolded(body: &[u8], base: u64, ctts: bool) -> Result<u64, Bad>
    ensures { result ≡ placed base (unfolded ctts body.now) }
{
    let rows = row_count(body, newest_version(ctts), RUN_LEN, base)?;
    Ok(count_samples(body, rows))
}

fn newest_version(ctts: bool) -> u32
    ensures { result ≡ newest_version ctts }
{
    if ctts { CTTS_VERSION } else { STTS_VERSION }
}

fn count_samples(body: &[u8], rows: u32) -> u64
    requires { first_row + run_len * rows ≤ length body.now }
    ensures { result ≡ sample_count (first_rows rows body.now) }
{
    let mut samples = 0;
    for i in 0..rows as usize {
        samples += u64::from(u32_in(body, FIRST_ROW + RUN_LEN * i));
    }
    samples
}

/// The duration of each sample, in ticks of its track, by the body of the box `stts` at `base`
/// (ISO/IEC 14496-12, 8.6.1.2).
///
/// `TableLength` where it has no version and flags, `BoxVersion` where the version isn't 0,
/// `TableLength` where it is shorter than its rows.
pub fn read_stts<C: Column>(alloc: Global, body: &[u8], base: u64) -> Result<C, Fail>
    requires { IfOk (unfolded false body.now) (λ samples. samples ≤ MOST_ITEMS) }
    ensures { Gives refusal (λ column. C.items column) result (placed base (stts_of body.now)) }
{
    let rows = row_count(body, STTS_VERSION, RUN_LEN, base)?;
    Ok(read_runs(alloc, body, rows, STTS_VERSION)?)
}

/// How much later than it is decoded each sample is composed, in ticks of its track, by the body of
/// the box `ctts` at `base` (ISO/IEC 14496-12, 8.6.1.3). It is signed in version 1 alone.
///
/// `TableLength` where it has no version and flags, `BoxVersion` where the version isn't 0 or 1,
/// `TableLength` where it is shorter than its rows.
pub fn read_ctts<C: Column>(alloc: Global, body: &[u8], base: u64) -> Result<C, Fail>
    requires { IfOk (unfolded true body.now) (λ samples. samples ≤ MOST_ITEMS) }
    ensures { Gives refusal (λ column. C.items column) result (placed base (ctts_of body.now)) }
{
    let rows = row_count(body, CTTS_VERSION, RUN_LEN, base)?;
    Ok(read_runs(alloc, body, rows, version(body))?)
}

/// The value of each sample, by so many rows of a table of that version.
fn read_runs<C: Column>(alloc: Global, body: &[u8], rows: u32, version: u32) -> Result<C, NoMemory>
    requires room { first_row + run_len * rows ≤ length body.now }
    requires few { sample_count (first_rows rows body.now) ≤ MOST_ITEMS }
    ensures { IfOk result (λ column. C.items column ≡ per_sample (offset version) (first_rows rows body.now)) }
{
    let mut column = C::new(alloc);
    for i in 0..rows as usize {
        let at = FIRST_ROW + RUN_LEN * i;
        let value = offset(version, u32_in(body, at + VALUE_PLACE));
        column.push_copies(value, u32_in(body, at))?;
    }
    Ok(column)
}

fn offset(version: u32, bits: u32) -> i64
    ensures { result ≡ offset version bits }
{
    if version == 1 {
        i64::from(bits.cast_signed())
    } else {
        i64::from(bits)
    }
}
