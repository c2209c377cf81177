//! The track header.

ghost use Rattle.std.specs.Prelude.{◌≡◌, ◌<◌, ◌^◌};
ghost use Rattle.mp_boxes.specs.Field.{body_bytes, box_bytes};
ghost use Rattle.mp_boxes.specs.Push.{IsPushed};
ghost use Rattle.mp_boxes.specs.Table.{HasLen};
ghost use Rattle.mp_headers.specs.TrackHeader.{tkhd, tkhd_from, tkhd_of};

use crate::matrix::{MATRIX_LEN, next_matrix};
use crate::times::wide_times;
use crate::version::is_wide;
use mp_boxes::{
    FIRST_FIELD, Field, box_len, flags, next_bytes, next_time, next_u16, next_u32, push_box,
};
use mp_ports::{Bad, Code};

/// The fields of `tkhd` (ISO/IEC 14496-12, 8.3.2).
///
/// `created` and `modified` are seconds since 1904, `duration` is in ticks of the movie's timescale.
/// `group` is the alternate group. `volume` is an 8.8 number, `width` and `height` are 16.16 numbers.
#[derive(Clone, Copy, Debug, PartialEq, Eq)]
pub struct Tkhd {
    pub flags: u32,
    pub created: u64,
    pub modified: u64,
    pub number: u32,
    pub duration: u64,
    pub layer: u16,
    pub group: u16,
    pub volume: u16,
    pub matrix: [u8; MATRIX_LEN],
    pub width: u32,
    pub height: u32,
}

/// The fields of the body of the box `tkhd` at `base`.
///
/// `TableLength` where it has no version and flags, `BoxVersion` where the version isn't 0 or 1,
/// `TableLength` where it is shorter than its fields.
pub fn read_tkhd(body: &[u8], base: u64) -> Result<Tkhd, Bad>
    ensures { result ≡ tkhd_of base body.now }
{
    let wide = wide_times(body, base)?;
    fields_of(flags(body), wide, &body[FIRST_FIELD..]).map_err(|code| Bad::at(code, base))
}

/// The fields behind version and flags.
#[tactic(auto, unfolding(crate::specs::TrackHeader::tkhd_from))]
fn fields_of(flags: u32, wide: bool, text: &[u8]) -> Result<Tkhd, Code>
    ensures { result ≡ tkhd_from flags wide text.now }
{
    let (created, rest) = next_time(text, wide)?;
    let (modified, rest) = next_time(rest, wide)?;
    let (number, rest) = next_u32(rest)?;
    let (_reserved, rest) = next_bytes(rest, 4)?;
    let (duration, rest) = next_time(rest, wide)?;
    let (_reserved, rest) = next_bytes(rest, 8)?;
    let (layer, rest) = next_u16(rest)?;
    let (group, rest) = next_u16(rest)?;
    let (volume, rest) = next_u16(rest)?;
    let (_reserved, rest) = next_bytes(rest, 2)?;
    let (matrix, rest) = next_matrix(rest)?;
    let (width, rest) = next_u32(rest)?;
    let (height, _) = next_u32(rest)?;
    Ok(Tkhd {
        flags,
        created,
        modified,
        number,
        duration,
        layer,
        group,
        volume,
        matrix,
        width,
        height,
    })
}

/// The length of the box `tkhd` of these fields.
pub fn tkhd_len(head: &Tkhd) -> u64
    requires { head.now.flags < 2 ^ 24 }
    ensures { HasLen result (tkhd head.now) }
{
    box_len(&written(head), 0)
}

/// Pushes the box `tkhd` of these fields.
pub fn push_tkhd(head: &Tkhd, out: &mut Vec<u8>)
    requires { head.now.flags < 2 ^ 24 }
    ensures { IsPushed out.old out.new (box_bytes (tkhd head.now)) }
{
    push_box(out, *b"tkhd", &written(head));
}

/// The fields as they are written.
fn written(head: &Tkhd) -> [Field<'_>; 14]
    requires { head.now.flags < 2 ^ 24 }
    ensures { body_bytes result ≡ (tkhd head.now).body }
{
    let wide = is_wide(head.created, head.modified, head.duration);
    [
        Field::version_and_flags(wide, head.flags),
        Field::time(wide, head.created),
        Field::time(wide, head.modified),
        Field::U32(head.number),
        Field::Bytes(&[0; 4]),
        Field::time(wide, head.duration),
        Field::Bytes(&[0; 8]),
        Field::U16(head.layer),
        Field::U16(head.group),
        Field::U16(head.volume),
        Field::Bytes(&[0; 2]),
        Field::Bytes(&head.matrix),
        Field::U32(head.width),
        Field::U32(head.height),
    ]
}
