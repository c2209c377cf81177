//! What sample entries begin with: the fields in front of the box that says how samples are coded.

ghost use Rattle.std.specs.Prelude.{◌≡◌, ◌+◌, ◌^◌, ◌<◌, [], ◌∷◌, length, IfOk};
ghost use Rattle.mp_boxes.specs.Field.{Part, body_bytes, box_bytes};
ghost use Rattle.mp_boxes.specs.Push.{IsPushing};
ghost use Rattle.mp_boxes.specs.Table.{HasLen, mixed};
ghost use Rattle.mp_entries.specs.Visual.{visual_fields};

use mp_boxes::{Field, begin_box, box_len, reserve};
use mp_ports::NoMemory;
use std::alloc::Global;

/// The front of an entry of that type: its fields, behind which one box of so many bytes comes next.
pub fn begin_entry(
    alloc: Global,
    kind: [u8; 4],
    fields: &[Field<'_>],
    behind: u64,
) -> Result<Vec<u8>, NoMemory>
    requires { 8 + length (body_bytes fields.now) + behind < 2 ^ 32 }
    ensures { (part : Part) → HasLen behind part
        → IfOk result (λ out. IsPushing out (box_bytes part ∷ [])
        (box_bytes (mixed kind fields.now (part ∷ [])))) }
{
    let len = box_len(fields, behind);
    let mut out = Vec::new(alloc);
    reserve(&mut out, len as u32)?;
    begin_box(&mut out, kind, fields, len);
    Ok(out)
}

/// The fields of VisualSampleEntry, for pictures of that width and height.
pub fn visual_fields(width: u16, height: u16) -> [Field<'static>; 12]
    ensures { body_bytes result ≡ body_bytes (visual_fields width height) }
{
    [
        Field::Bytes(&[0; 6]),
        Field::U16(1),
        Field::Bytes(&[0; 16]),
        Field::U16(width),
        Field::U16(height),
        Field::U32(0x0048_0000),
        Field::U32(0x0048_0000),
        Field::U32(0),
        Field::U16(1),
        Field::Bytes(&[0; 32]),
        Field::U16(24),
        Field::U16(0xFFFF),
    ]
}
