//! The movie header.

ghost use Rattle.std.specs.Prelude.{◌≡◌};
ghost use Rattle.mp_boxes.specs.Field.{body_bytes, box_bytes};
ghost use Rattle.mp_boxes.specs.Push.{IsPushed};
ghost use Rattle.mp_boxes.specs.Table.{HasLen};
ghost use Rattle.mp_headers.specs.MovieHeader.{mvhd, mvhd_from, mvhd_of};

use crate::matrix::{MATRIX_LEN, next_matrix};
use crate::times::wide_times;
use crate::version::is_wide;
use mp_boxes::{FIRST_FIELD, Field, box_len, next_bytes, next_time, next_u16, next_u32, push_box};
use mp_ports::{Bad, Code};

/// The fields of `mvhd` (ISO/IEC 14496-12, 8.2.2).
///
/// `created` and `modified` are seconds since 1904, `duration` is in ticks, of which a second has
/// `timescale`. `rate` is a 16.16 number, `volume` an 8.8 number.
#[derive(Clone, Copy, Debug, PartialEq, Eq)]
pub struct Mvhd {
    pub created: u64,
    pub modified: u64,
    pub timescale: u32,
    pub duration: u64,
    pub rate: u32,
    pub volume: u16,
    pub matrix: [u8; MATRIX_LEN],
    pub next_track: u32,
}

/// The fields of the body of the box `mvhd` at `base`.
///
/// `TableLength` where it has no version and flags, `BoxVersion` where the version isn't 0 or 1,
/// `TableLength` where it is shorter than its fields, `ScaleZero` where the timescale is 0.
pub fn read_mvhd(body: &[u8], base: u64) -> Result<Mvhd, Bad>
    ensures { result ≡ mvhd_of base body.now }
{
    let wide = wide_times(body, base)?;
    fields_of(wide, &body[FIRST_FIELD..]).map_err(|code| Bad::at(code, base))
}

/// The fields behind version and flags.
#[tactic(auto, unfolding(crate::specs::MovieHeader::mvhd_from))]
fn fields_of(wide: bool, text: &[u8]) -> Result<Mvhd, Code>
    ensures { result ≡ mvhd_from wide text.now }
{
    let (created, rest) = next_time(text, wide)?;
    let (modified, rest) = next_time(rest, wide)?;
    let (timescale, rest) = next_u32(rest)?;
    let (duration, rest) = next_time(rest, wide)?;
    let (rate, rest) = next_u32(rest)?;
    let (volume, rest) = next_u16(rest)?;
    let (_reserved, rest) = next_bytes(rest, 10)?;
    let (matrix, rest) = next_matrix(rest)?;
    let (_predefined, rest) = next_bytes(rest, 24)?;
    let (next_track, _) = next_u32(rest)?;
    if timescale == 0 {
        return Err(Code::ScaleZero);
    }
    Ok(Mvhd {
        created,
        modified,
        timescale,
        duration,
        rate,
        volume,
        matrix,
        next_track,
    })
}

/// The length of the box `mvhd` of these fields.
pub fn mvhd_len(head: &Mvhd) -> u64
    ensures { HasLen result (mvhd head.now) }
{
    box_len(&written(head), 0)
}

/// Pushes the box `mvhd` of these fields.
pub fn push_mvhd(head: &Mvhd, out: &mut Vec<u8>)
    ensures { IsPushed out.old out.new (box_bytes (mvhd head.now)) }
{
    push_box(out, *b"mvhd", &written(head));
}

/// The fields as they are written.
fn written(head: &Mvhd) -> [Field<'_>; 11]
    ensures { body_bytes result ≡ (mvhd head.now).body }
{
    let wide = is_wide(head.created, head.modified, head.duration);
    [
        Field::version_and_flags(wide, 0),
        Field::time(wide, head.created),
        Field::time(wide, head.modified),
        Field::U32(head.timescale),
        Field::time(wide, head.duration),
        Field::U32(head.rate),
        Field::U16(head.volume),
        Field::Bytes(&[0; 10]),
        Field::Bytes(&head.matrix),
        Field::Bytes(&[0; 24]),
        Field::U32(head.next_track),
    ]
}
