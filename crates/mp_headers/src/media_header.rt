//! The media header.

ghost use Rattle.std.specs.Prelude.{◌≡◌};
ghost use Rattle.mp_boxes.specs.Field.{body_bytes, box_bytes};
ghost use Rattle.mp_boxes.specs.Push.{IsPushed};
ghost use Rattle.mp_boxes.specs.Table.{HasLen};
ghost use Rattle.mp_headers.specs.MediaHeader.{mdhd, mdhd_from, mdhd_of};

use crate::times::wide_times;
use crate::version::is_wide;
use mp_boxes::{FIRST_FIELD, Field, box_len, next_bytes, next_time, next_u16, next_u32, push_box};
use mp_ports::{Bad, Code};

/// The fields of `mdhd` (ISO/IEC 14496-12, 8.4.2).
///
/// `created` and `modified` are seconds since 1904, `duration` is in ticks, of which a second has
/// `timescale`. `language` is three letters of 5 bits below a 0 bit, each counted from 1.
#[derive(Clone, Copy, Debug, PartialEq, Eq)]
pub struct Mdhd {
    pub created: u64,
    pub modified: u64,
    pub timescale: u32,
    pub duration: u64,
    pub language: u16,
}

/// The fields of the body of the box `mdhd` at `base`.
///
/// `TableLength` where it has no version and flags, `BoxVersion` where the version isn't 0 or 1,
/// `TableLength` where it is shorter than its fields, `ScaleZero` where the timescale is 0.
pub fn read_mdhd(body: &[u8], base: u64) -> Result<Mdhd, Bad>
    ensures { result ≡ mdhd_of base body.now }
{
    let wide = wide_times(body, base)?;
    fields_of(wide, &body[FIRST_FIELD..]).map_err(|code| Bad::at(code, base))
}

/// The fields behind version and flags.
#[tactic(auto, unfolding(crate::specs::MediaHeader::mdhd_from))]
fn fields_of(wide: bool, text: &[u8]) -> Result<Mdhd, Code>
    ensures { result ≡ mdhd_from wide text.now }
{
    let (created, rest) = next_time(text, wide)?;
    let (modified, rest) = next_time(rest, wide)?;
    let (timescale, rest) = next_u32(rest)?;
    let (duration, rest) = next_time(rest, wide)?;
    let (language, rest) = next_u16(rest)?;
    next_bytes(rest, 2)?;
    if timescale == 0 {
        return Err(Code::ScaleZero);
    }
    Ok(Mdhd {
        created,
        modified,
        timescale,
        duration,
        language,
    })
}

/// The length of the box `mdhd` of these fields.
pub fn mdhd_len(head: &Mdhd) -> u64
    ensures { HasLen result (mdhd head.now) }
{
    box_len(&written(head), 0)
}

/// Pushes the box `mdhd` of these fields.
pub fn push_mdhd(head: &Mdhd, out: &mut Vec<u8>)
    ensures { IsPushed out.old out.new (box_bytes (mdhd head.now)) }
{
    push_box(out, *b"mdhd", &written(head));
}

/// The fields as they are written.
fn written(head: &Mdhd) -> [Field<'_>; 7]
    ensures { body_bytes result ≡ (mdhd head.now).body }
{
    let wide = is_wide(head.created, head.modified, head.duration);
    [
        Field::version_and_flags(wide, 0),
        Field::time(wide, head.created),
        Field::time(wide, head.modified),
        Field::U32(head.timescale),
        Field::time(wide, head.duration),
        Field::U16(head.language),
        Field::Bytes(&[0; 2]),
    ]
}
