//! Lengths of boxes that are to be written (ISO/IEC 14496-12, 4.2), which are known before their bytes.
//!
//! A length that does not fit 64 bits is answered as 2^64 − 1.

ghost use Rattle.std.specs.Prelude.{◌≡◌, ℕ, ◌+◌, ◌*◌, Bool, List, length, sum};
ghost use Rattle.std.specs.List.{AllByRecursion};
ghost use Rattle.mp_boxes.specs.declared.field.Field.{Field as Fields};
ghost use Rattle.mp_boxes.specs.Field.{Part, body_bytes, field_bytes, leaf};
ghost use Rattle.mp_boxes.specs.Table.{HasLen, HasWidth, boxes_len, capped, mixed, table_fields};

use crate::field::Field;

/// The length of a field.
fn field_len(field: Field<'_>) -> u64
    ensures { result ≡ length (field_bytes field.entry) }
{
    match field {
        Field::U16(_) => 2,
        Field::U32(_) => 4,
        Field::U64(_) => 8,
        Field::Bytes(bytes) => bytes.len() as u64,
    }
}

/// The length of these fields.
pub fn fields_len(fields: &[Field<'_>]) -> u64
    ensures { result ≡ capped (length (body_bytes fields.now)) }
{
    let mut len: u64 = 0;
    for &field in fields {
        len = len.saturating_add(field_len(field));
    }
    len
}

/// The sum of lengths.
pub fn sum_len(lens: &[u64]) -> u64
    ensures { result ≡ capped (sum lens.now) }
{
    let mut all: u64 = 0;
    for &len in lens {
        all = all.saturating_add(len);
    }
    all
}

/// The length of a box of these fields, behind which so many bytes of rows or of boxes stand.
pub fn box_len(fields: &[Field<'_>], behind: u64) -> u64
    ensures len { result ≡ capped (8 + length (body_bytes fields.now) + behind) }
    // behind which these boxes stand
    ensures boxes { (kind : List ℕ) (parts : List Part) → length kind ≡ 4 → behind ≡ capped (boxes_len parts)
        → HasLen result (mixed kind fields.now parts) }
{
    8u64.saturating_add(fields_len(fields))
        .saturating_add(behind)
}

/// The length of a table of so many rows, of so many bytes each.
pub fn table_len(count: u32, width: u32) -> u64
    ensures len { result ≡ 16 + width * count }
    ensures table { (kind : List ℕ) (wide : Bool) (rows : List (List Fields)) → length kind ≡ 4 → count ≡ length rows
        → AllByRecursion (HasWidth width) rows → HasLen result (leaf kind (table_fields wide rows)) }
{
    let head = [Field::U32(0), Field::U32(count)];
    box_len(&head, u64::from(width) * u64::from(count))
}
