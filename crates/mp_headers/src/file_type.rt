//! The file type box.

ghost use Rattle.mp_boxes.specs.Field.{body_bytes, box_bytes};
ghost use Rattle.mp_boxes.specs.Push.{IsPushed};
ghost use Rattle.mp_boxes.specs.Table.{HasLen};
ghost use Rattle.mp_headers.specs.FileType.{ftyp};
ghost use Rattle.std.specs.Prelude.{◌≡◌};

use mp_boxes::{Field, box_len, push_box};

/// The length of the box `ftyp` of every file.
pub fn ftyp_len() -> u64
    ensures { HasLen result ftyp }
{
    box_len(&written(), 0)
}

/// Pushes the box `ftyp` of every file (ISO/IEC 14496-12, 4.3).
pub fn push_ftyp(out: &mut Vec<u8>)
    ensures { IsPushed out.old out.new (box_bytes ftyp) }
{
    push_box(out, *b"ftyp", &written());
}

/// The fields as they are written.
fn written() -> [Field<'static>; 5]
    ensures { body_bytes result ≡ ftyp.body }
{
    [
        Field::Bytes(b"isom"),
        Field::U32(1),
        Field::Bytes(b"isom"),
        Field::Bytes(b"iso4"),
        Field::Bytes(b"mp42"),
    ]
}
