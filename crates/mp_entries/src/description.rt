//! The sample entries of a track (ISO/IEC 14496-12, 8.5.2).

ghost use Rattle.std.specs.Prelude.{◌≡◌, ℕ, ◌+◌, ◌<◌, ◌≤◌, ◌^◌, length, IfOk};
ghost use Rattle.std.specs.List.{AllByRecursion};
ghost use Rattle.mp_ports.specs.Gives.{Gives, refusal};
ghost use Rattle.mp_boxes.specs.Boxes.{IsContainer};
ghost use Rattle.mp_boxes.specs.Field.{box_bytes};
ghost use Rattle.mp_boxes.specs.Push.{ArePushed, IsPushed, joined};
ghost use Rattle.mp_boxes.specs.Table.{HasLen, capped};
ghost use Rattle.mp_entries.specs.Description.{entries_in, most_entries, stsd, stsd_of};
ghost use Rattle.mp_entries.specs.Entry.{IsEntry};

use crate::entry::read_entry;
use mp_boxes::{
    FIRST_ROW, Field, begin_box, box_len, check_counted, next_box, push_bytes, row_count,
};
use mp_ports::{Bad, Code, Fail};
use mp_timeline::EntryBytes;
use std::alloc::Global;

/// As many entries as a track may have.
const MOST_ENTRIES: u32 = 255;

/// The least body of an entry: six reserved bytes, and the index of its data reference.
const LEAST_ENTRY: usize = 8;

/// The entries in these boxes, each as `read_entry` keeps it.
fn read_entries(
    alloc: Global,
    bytes: &[u8],
    base: u64,
    local: &[bool],
) -> Result<Vec<EntryBytes>, Fail>
    requires place { base + length bytes.now < 2 ^ 64 }
    requires whole { IsContainer base bytes.now }
    ensures kept { Gives refusal (λ entries. entries.items) result (entries_in base local.now bytes.now) }
    ensures well_formed { IfOk result (λ entries. AllByRecursion IsEntry entries.items) }
{
    let mut entries = Vec::new(alloc);
    let mut at = 0;
    while let Ok(Some(child)) = next_box(bytes, at, base) {
        let end = child.place + child.len;
        let place = base + child.place as u64;
        let entry = read_entry(alloc, &bytes[child.place..end], place, local)?;
        entries.push(EntryBytes { bytes: entry })?;
        at = end;
    }
    Ok(entries)
}

/// The sample entries in the box at `place`, whose body stands at `base`, each with data reference 1.
/// `local` tells which of the data references are in the file.
///
/// In this order: `TableLength` where version, flags or number are cut, `BoxVersion`, `EntryLimit` at 0
/// where there are more than 255, `BoxCut` and `BoxSize` of the entries, `TableLength` where they aren't
/// so many or one has fewer than 8 bytes, and then entry by entry as for `read_entry`.
#[tactic(auto, unfolding(crate::specs::Description::stsd_of))]
pub fn read_stsd(
    alloc: Global,
    body: &[u8],
    base: u64,
    place: u64,
    local: &[bool],
) -> Result<Vec<EntryBytes>, Fail>
    requires { base + length body.now < 2 ^ 64 }
    ensures kept { Gives refusal (λ entries. entries.items) result (stsd_of place base local.now body.now) }
    ensures few { IfOk result (λ entries. length entries.items ≤ most_entries) }
    ensures well_formed { IfOk result (λ entries. AllByRecursion IsEntry entries.items) }
{
    let count = row_count(body, 0, 0, place)?;
    if count > MOST_ENTRIES {
        return Err(Bad::at(Code::EntryLimit, 0).into());
    }
    let entries = &body[FIRST_ROW..];
    let base = base + FIRST_ROW as u64;
    check_counted(entries, base, count, LEAST_ENTRY, place)?;
    read_entries(alloc, entries, base, local)
}

/// The length of these entries, one after another.
fn entries_len(entries: &[EntryBytes]) -> u64
    ensures { result ≡ capped (length (joined entries.now)) }
{
    let mut len: u64 = 0;
    for entry in entries {
        len = len.saturating_add(entry.bytes.len() as u64);
    }
    len
}

/// The length of the box `stsd` of these entries.
pub fn stsd_len(entries: &[EntryBytes]) -> u64
    ensures { HasLen result (stsd entries.now) }
{
    let head = [Field::version_and_flags(false, 0), Field::U32(0)];
    box_len(&head, entries_len(entries))
}

/// Pushes the entries, in order.
fn push_entries(out: &mut Vec<u8>, entries: &[EntryBytes])
    ensures { ArePushed out.old out.new entries.now }
{
    for entry in entries {
        push_bytes(out, &entry.bytes);
    }
}

/// Pushes the box `stsd` of these entries.
pub fn push_stsd(out: &mut Vec<u8>, entries: &[EntryBytes])
    requires { length entries.now ≤ most_entries }
    ensures { IsPushed out.old out.new (box_bytes (stsd entries.now)) }
{
    let count = entries.len() as u32;
    let head = [Field::version_and_flags(false, 0), Field::U32(count)];
    begin_box(out, *b"stsd", &head, stsd_len(entries));
    push_entries(out, entries);
}
