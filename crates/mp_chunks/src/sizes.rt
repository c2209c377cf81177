//! How long each sample is.

ghost use Rattle.std.specs.Prelude.{◌≡◌, ◌+◌, ◌/◌, ◌<◌, ◌≤◌, drop, length, slice_index, None};
ghost use Rattle.mp_ports.specs.Checks.{first_code, unless, placed};
ghost use Rattle.mp_boxes.specs.Child.{IsWithin};
ghost use Rattle.mp_chunks.specs.Samples.{count_from};
ghost use Rattle.mp_chunks.specs.Sizes.{halves, sample_count as count_of_samples, stsz_of, stz2_of, stsz_checks, stz2_checks, size_checks, sizes_of};

use crate::tables::Tables;
use mp_boxes::{Span, check_full_box, u16_in, u32_in};
use mp_ports::{Bad, Code};

const COMMON_AT: usize = 4;

const BITS_AT: usize = 7;

const COUNT_AT: usize = 8;

const SIZES_AT: usize = 12;

/// The number of samples that the table of sizes says (ISO/IEC 14496-12, 8.7.3).
///
/// `BoxVersion` where its version isn't 0, `TableLength` where its body is shorter than its fields say, or
/// the size of a field in `stz2` isn't 4, 8 or 16 bits; at the table.
pub fn sample_count(tables: &Tables<'_>) -> Result<u64, Bad>
    requires { IsWithin tables.now.moov.now tables.now.sizes }
    ensures { result ≡ count_from tables.now }
{
    let body = tables.body(tables.sizes);
    let place = tables.sizes.place;
    if tables.compact {
        stz2_count(body, place)
    } else {
        stsz_count(body, place)
    }
}

fn stsz_count(body: &[u8], place: u64) -> Result<u64, Bad>
    ensures { result ≡ placed place (unless (first_code (stsz_checks body.now)) (count_of_samples body.now)) }
{
    check_full_box(body, 0, SIZES_AT, place)?;
    let count = u64::from(u32_in(body, COUNT_AT));
    if u32_in(body, COMMON_AT) == 0 && (body.len() as u64) < 12 + 4 * count {
        return Err(Bad::at(Code::TableLength, place));
    }
    Ok(count)
}

fn stz2_count(body: &[u8], place: u64) -> Result<u64, Bad>
    ensures { result ≡ placed place (unless (first_code (stz2_checks body.now)) (count_of_samples body.now)) }
{
    check_full_box(body, 0, SIZES_AT, place)?;
    let bits = u64::from(body[BITS_AT]);
    if !matches!(bits, 4 | 8 | 16) {
        return Err(Bad::at(Code::TableLength, place));
    }
    let count = u64::from(u32_in(body, COUNT_AT));
    if (body.len() as u64) < 12 + (bits * count).div_ceil(8) {
        return Err(Bad::at(Code::TableLength, place));
    }
    Ok(count)
}

/// The size of the sample before which there are so many, by the body of `stsz` or `stz2`.
pub(crate) fn size_in(body: &[u8], compact: bool, before: u32) -> u32
    requires whole { first_code (size_checks compact body.now) ≡ None }
    requires inside { before < count_of_samples body.now }
    ensures { result ≡ slice_index (sizes_of compact body.now) before }
{
    if compact {
        stz2_size(body, before as usize)
    } else {
        stsz_size(body, before as usize)
    }
}

fn stsz_size(body: &[u8], before: usize) -> u32
    requires whole { first_code (stsz_checks body.now) ≡ None }
    requires inside { before < count_of_samples body.now }
    ensures { result ≡ slice_index (stsz_of body.now) before }
{
    let common = u32_in(body, COMMON_AT);
    if common == 0 {
        u32_in(body, SIZES_AT + 4 * before)
    } else {
        common
    }
}

fn stz2_size(body: &[u8], before: usize) -> u32
    requires whole { first_code (stz2_checks body.now) ≡ None }
    requires inside { before < count_of_samples body.now }
    ensures { result ≡ slice_index (stz2_of body.now) before }
{
    let bits = body[BITS_AT];
    if bits == 4 {
        half_in(body, before)
    } else if bits == 8 {
        u32::from(body[SIZES_AT + before])
    } else {
        u32::from(u16_in(body, SIZES_AT + 2 * before))
    }
}

/// The half of a byte before which there are so many, the high one first.
fn half_in(body: &[u8], before: usize) -> u32
    requires { SIZES_AT + before / 2 < length body.now }
    ensures { result ≡ slice_index (halves (drop 12 body.now)) before }
{
    let byte = u32::from(body[SIZES_AT + before / 2]);
    if before % 2 == 0 {
        byte / 16
    } else {
        byte % 16
    }
}
