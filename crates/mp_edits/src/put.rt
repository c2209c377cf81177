//! The writers of the edit list box and of the edit box.

ghost use Rattle.std.specs.Prelude.{◌≡◌, ◌<◌, ◌^◌, ◌++◌, All, IsFalse, OnErr, OnOk, false, map, option_map};
ghost use Rattle.mp_boxes.specs.Field.{body_bytes, box_bytes, optional};
ghost use Rattle.mp_boxes.specs.Push.{ArePushed, IsPushed};
ghost use Rattle.mp_boxes.specs.Table.{HasLen, boxes_len, capped};
ghost use Rattle.mp_edits.specs.EditBox.{AreEdits, edts};
ghost use Rattle.mp_edits.specs.Segments.{IsEditList};
ghost use Rattle.mp_edits.specs.Written.{elst, entry_fields, is_long, needs_wide, no_media};

use crate::entry::entry_len;
use mp_boxes::{Field, begin_box, begin_table, box_len, push_fields, reserve, table_len};
use mp_ports::NoMemory;
use mp_timeline::Segment;

/// The last duration that fits version 0.
const LAST_DURATION: u64 = u32::MAX as u64;

/// The last start that fits version 0, in which it is a signed number.
const LAST_START: u64 = i32::MAX as u64;

/// Whether a segment needs version 1.
fn is_long(segment: &Segment) -> bool
    ensures { result ≡ is_long segment.now }
{
    match segment {
        Segment::Empty { dur } => *dur > LAST_DURATION,
        Segment::Media { start, dur } => *dur > LAST_DURATION || *start > LAST_START,
    }
}

/// Whether some segment needs version 1.
fn needs_wide(edits: &[Segment]) -> bool
    ensures { result ≡ needs_wide edits.now }
{
    edits.iter().any(is_long)
}

/// The media time −1.
fn no_media(wide: bool) -> Field<'static>
    ensures { result ≡ no_media wide }
{
    if wide {
        Field::U64(u64::MAX)
    } else {
        Field::U32(u32::MAX)
    }
}

/// The fields of an entry.
fn entry_fields(wide: bool, segment: Segment) -> [Field<'static>; 4]
    requires { IsFalse wide → is_long segment ≡ false }
    ensures { result ≡ entry_fields wide segment }
{
    let (dur, media_time) = match segment {
        Segment::Empty { dur } => (dur, no_media(wide)),
        Segment::Media { start, dur } => (dur, Field::time(wide, start)),
    };
    [
        Field::time(wide, dur),
        media_time,
        Field::U16(1),
        Field::U16(0),
    ]
}

/// Pushes the entries.
fn push_entries(wide: bool, edits: &[Segment], out: &mut Vec<u8>)
    requires { IsFalse wide → All (λ edit. is_long edit ≡ false) edits.now }
    ensures { ArePushed out.old out.new (map body_bytes (map (entry_fields wide) edits.now)) }
{
    for &segment in edits {
        push_fields(out, &entry_fields(wide, segment));
    }
}

/// The length of the box `elst` of these segments.
pub fn elst_len(edits: &[Segment]) -> u64
    requires { IsEditList edits.now }
    ensures len { HasLen result (elst edits.now) }
    ensures short { result < 2 ^ 32 }
{
    table_len(edits.len() as u32, entry_len(needs_wide(edits)) as u32)
}

/// Pushes the box `elst` of these segments, in the least version that holds them.
pub fn push_elst(edits: &[Segment], out: &mut Vec<u8>)
    requires { IsEditList edits.now }
    ensures { IsPushed out.old out.new (box_bytes (elst edits.now)) }
{
    let wide = needs_wide(edits);
    begin_table(
        out,
        *b"elst",
        wide,
        edits.len() as u32,
        entry_len(wide) as u32,
    );
    push_entries(wide, edits, out);
}

/// Appends the box `elst` of these segments, in the least version that holds them.
///
/// Where there is no memory, `out` is as it was.
pub fn put_elst(edits: &[Segment], out: &mut Vec<u8>) -> Result<(), NoMemory>
    requires { IsEditList edits.now }
    ensures written { OnOk result (out.new.items ≡ out.old.items ++ box_bytes (elst edits.now)) }
    ensures failed { OnErr result (out.new.items ≡ out.old.items) }
{
    reserve(out, elst_len(edits) as u32)?;
    push_elst(edits, out);
    Ok(())
}

/// The length of the box `edts` of these edits (8.6.5), which stands only where there are some.
pub fn edts_len(edits: Option<&[Segment]>) -> u64
    requires { AreEdits (option_map (λ list. list.now) edits) }
    ensures { result ≡ capped (boxes_len (optional (edts (option_map (λ list. list.now) edits.entry)))) }
{
    match edits {
        Some(edits) => box_len(&[], elst_len(edits)),
        None => 0,
    }
}

/// Pushes the box `edts` of these edits (8.6.5), where there are some.
pub fn push_edts(edits: Option<&[Segment]>, out: &mut Vec<u8>)
    requires { AreEdits (option_map (λ list. list.now) edits) }
    ensures { ArePushed out.old out.new (map box_bytes (optional (edts (option_map (λ list. list.now) edits.entry)))) }
{
    if let Some(edits) = edits {
        begin_box(out, *b"edts", &[], box_len(&[], elst_len(edits)));
        push_elst(edits, out);
    }
}
