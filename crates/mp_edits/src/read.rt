//! The reader of the edit list box.

ghost use Rattle.std.specs.Prelude.{◌≡◌, ◌*◌, ◌≤◌, length, map, option_map, OnOk};
ghost use Rattle.mp_ports.specs.Checks.{Checks, fault_at, first_code, placed, unless};
ghost use Rattle.mp_ports.specs.Gives.{Gives, refusal};
ghost use Rattle.mp_boxes.specs.FullBox.{HasRows, first_field, row_count, rows_of};
ghost use Rattle.mp_edits.specs.Entry.{entry_len, entry_of, segment_of};
ghost use Rattle.mp_edits.specs.Table.{edits_of, elst_checks, elst_of, entries_fault, is_wide, limit_checks};

use crate::entry::{entry_len, entry_of};
use crate::segments::{capped_total, some_start_late};
use mp_boxes::{FIRST_FIELD, FIRST_ROW, check_full_box, flags, row_count, version};
use mp_ports::{Bad, Code, Fail};
use mp_timeline::Segment;
use std::alloc::Global;

/// The newest version of the box.
const NEWEST_VERSION: u32 = 1;

/// The most segments of an edit list.
const MOST_SEGMENTS: u32 = u16::MAX as u32;

/// Whether times have 64 bits.
fn is_wide(body: &[u8]) -> bool
    requires { first_field ≤ length body.now }
    ensures { result ≡ is_wide body.now }
{
    version(body) == 1
}

/// The number of entries of the table in the box at `base`. They are all there.
#[tactic(auto, unfolding(mp_boxes::specs::FullBox::table_fault))]
fn entry_count(body: &[u8], base: u64) -> Result<u32, Bad>
    ensures answer { result ≡ placed base (unless (first_code (elst_checks body.now)) (row_count body.now)) }
    ensures whole { OnOk result (HasRows (entry_len (is_wide body.now)) body.now) }
{
    check_full_box(body, NEWEST_VERSION, FIRST_FIELD, base)?;
    if flags(body) != 0 {
        return Err(Bad::at(Code::EditFlags, base));
    }
    row_count(body, NEWEST_VERSION, entry_len(is_wide(body)), base)
}

/// The segments of so many entries, one behind the other: those of the box at `base`.
fn read_entries(
    alloc: Global,
    bytes: &[u8],
    wide: bool,
    count: usize,
    base: u64,
) -> Result<Vec<Segment>, Fail>
    requires { entry_len wide * count ≤ length bytes.now }
    ensures { let entries = map (entry_of wide) (rows_of count (entry_len wide) bytes.now) in
        Gives refusal (λ edits. edits.items) result
        (unless (fault_at base (entries_fault entries)) (map segment_of entries)) }
{
    let len = entry_len(wide);
    let mut edits = Vec::new(alloc);
    for i in 0..count {
        let at = len * i;
        let entry = entry_of(wide, &bytes[at..at + len]);
        if let Some(code) = entry.fault() {
            return Err(Bad::at(code, base).into());
        }
        edits.push(entry.segment())?;
    }
    Ok(edits)
}

/// Whether the segments are within their limits together.
fn check_limits(edits: &[Segment]) -> Result<(), Bad>
    ensures { Checks result (fault_at 0 (first_code (limit_checks edits.now))) }
{
    if capped_total(edits) >= 1 << 62 {
        return Err(Bad::at(Code::DurationLimit, 0));
    }
    if some_start_late(edits) {
        return Err(Bad::at(Code::StartLimit, 0));
    }
    Ok(())
}

/// The edit list in the body of the box `elst` at `base`, its header left out; None where it has no entry.
///
/// Durations are in ticks of the movie's scale, starts in ticks of the track's scale. What it refuses,
/// in order, is `elst_faults`: `TableLength`, `BoxVersion`, `EditFlags`, `TableLength`, `SegmentLimit`,
/// `EditTime`, `EditRate`, `DurationLimit` and `StartLimit`, limits at place 0 and all else at `base`.
pub fn read_elst(alloc: Global, body: &[u8], base: u64) -> Result<Option<Vec<Segment>>, Fail>
    ensures { Gives refusal (λ edits. option_map (λ list. list.items) edits) result (elst_of base body.now) }
{
    let count = entry_count(body, base)?;
    if count > MOST_SEGMENTS {
        return Err(Bad::at(Code::SegmentLimit, 0).into());
    }
    let rows = &body[FIRST_ROW..];
    let edits = read_entries(alloc, rows, is_wide(body), count as usize, base)?;
    check_limits(&edits)?;
    Ok(edits_of(edits))
}

/// An edit list without entries is none.
fn edits_of(edits: Vec<Segment>) -> Option<Vec<Segment>>
    ensures { option_map (λ list. list.items) result ≡ edits_of edits.items }
{
    if edits.is_empty() { None } else { Some(edits) }
}
