//! Boxes that are pushed behind what a vector holds (ISO/IEC 14496-12, 4.2): memory is taken once, and
//! then nothing can fail. No call asks for room: each says what it does where there is room. What pushes
//! a row is inlined, so that a field is little more than a store.

ghost use Rattle.std.specs.Prelude.{◌≡◌, ℕ, ◌-◌, ◌≤◌, Bool, List, codes, false, length, OnErr, OnOk};
ghost use Rattle.std.specs.Str.{bytes_eq};
ghost use Rattle.std.specs.List.{AllByRecursion};
ghost use Rattle.mp_boxes.specs.declared.field.Field.{Field as Fields};
ghost use Rattle.mp_boxes.specs.Field.{Part, body_bytes, box_bytes, field_bytes, leaf};
ghost use Rattle.mp_boxes.specs.Header.{IsHeader, head_bytes};
ghost use Rattle.mp_boxes.specs.Push.{IsBegun, IsBegunWithRows, IsPushed, IsReserved, IsReservedForBox, IsTableBegun};
ghost use Rattle.mp_boxes.specs.Table.{HasLen, HasWidth, mixed, with_rows};

use crate::field::Field;
use crate::length::{box_len, table_len};
use mp_ports::NoMemory;

/// Takes memory for so many bytes more. Where there is none, nothing changes.
pub fn reserve(out: &mut Vec<u8>, more: u32) -> Result<(), NoMemory>
    ensures text { OnOk result (IsReserved out.old out.new more) }
    ensures one_box { OnOk result (IsReservedForBox out.old out.new more) }
    ensures err { OnErr result (out.new.items ≡ out.old.items) }
{
    out.reserve(more as usize)?;
    Ok(())
}

/// Pushes the bytes.
#[inline(always)]
pub fn push_bytes(out: &mut Vec<u8>, bytes: &[u8])
    ensures { IsPushed out.old out.new bytes.now }
{
    let _ = out.extend_from_slice(bytes);
}

/// Pushes the field.
#[inline(always)]
fn push_field(out: &mut Vec<u8>, field: Field<'_>)
    ensures { IsPushed out.old out.new (field_bytes field.entry) }
{
    match field {
        Field::U16(n) => push_bytes(out, &n.to_be_bytes()),
        Field::U32(n) => push_bytes(out, &n.to_be_bytes()),
        Field::U64(n) => push_bytes(out, &n.to_be_bytes()),
        Field::Bytes(bytes) => push_bytes(out, bytes),
    }
}

/// Pushes the fields.
#[inline(always)]
pub fn push_fields(out: &mut Vec<u8>, fields: &[Field<'_>])
    ensures { IsPushed out.old out.new (body_bytes fields.now) }
{
    for &field in fields {
        push_field(out, field);
    }
}

/// Pushes the header of a box of `len` bytes, header included: 8 bytes, or 16 where `len` takes 64 bits.
pub fn push_head(out: &mut Vec<u8>, kind: [u8; 4], len: u64)
    ensures pushed { IsPushed out.old out.new (head_bytes kind len) }
    ensures header { (top : Bool) (after : List ℕ) → bytes_eq kind (codes "uuid") ≡ false
        → length (head_bytes kind len) ≤ len
        → IsHeader top kind (len - length (head_bytes kind len)) after (head_bytes kind len) }
{
    match u32::try_from(len) {
        Ok(len) => push_fields(out, &[Field::U32(len), Field::Bytes(&kind)]),
        Err(_) => push_fields(out, &[Field::U32(1), Field::Bytes(&kind), Field::U64(len)]),
    }
}

/// Pushes the front of a box of `len` bytes, header included: its header and these fields. What stands
/// behind them comes next.
pub fn begin_box(out: &mut Vec<u8>, kind: [u8; 4], fields: &[Field<'_>], len: u64)
    // behind them stand boxes
    ensures boxes { (parts : List Part) → HasLen len (mixed kind fields.now parts)
        → IsBegun out.old out.new kind fields.now parts }
    // or rows of fields
    ensures rows { (rows : List (List Fields)) → HasLen len (leaf kind (with_rows fields.now rows))
        → IsBegunWithRows out.old out.new kind fields.now rows }
{
    push_head(out, kind, len);
    push_fields(out, fields);
}

/// Pushes the box of these fields.
pub fn push_box(out: &mut Vec<u8>, kind: [u8; 4], fields: &[Field<'_>])
    ensures { IsPushed out.old out.new (box_bytes (leaf kind fields.now)) }
{
    begin_box(out, kind, fields, box_len(fields, 0));
}

/// Pushes the front of a table, up to its rows, of which there are so many, of so many bytes each. They
/// come next.
pub fn begin_table(out: &mut Vec<u8>, kind: [u8; 4], wide: bool, count: u32, width: u32)
    ensures { (rows : List (List Fields)) → count ≡ length rows → AllByRecursion (HasWidth width) rows
        → IsTableBegun out.old out.new kind wide rows }
{
    let head = [Field::version_and_flags(wide, 0), Field::U32(count)];
    begin_box(out, kind, &head, table_len(count, width));
}
