//! The media information header of a track.

ghost use Rattle.mp_boxes.specs.Field.{box_bytes};
ghost use Rattle.mp_boxes.specs.Push.{IsPushed};
ghost use Rattle.mp_boxes.specs.Table.{HasLen};
ghost use Rattle.mp_headers.specs.MediaInformation.{media_header};

use mp_boxes::{Field, box_len, push_box};

/// The length of the media header that goes with this handler.
pub fn media_header_len(handler: [u8; 4]) -> u64
    ensures { HasLen result (media_header handler) }
{
    let plain = Field::version_and_flags(false, 0);
    if handler == *b"vide" {
        box_len(&[plain, Field::Bytes(&[0; 8])], 0)
    } else if handler == *b"soun" {
        box_len(&[plain, Field::Bytes(&[0; 4])], 0)
    } else {
        box_len(&[plain], 0)
    }
}

/// Pushes the media header that goes with this handler: `vmhd` for `vide`, `smhd` for `soun`, `sthd` for
/// `subt`, else `nmhd` (ISO/IEC 14496-12, 8.4.5).
pub fn push_media_header(handler: [u8; 4], out: &mut Vec<u8>)
    ensures { IsPushed out.old out.new (box_bytes (media_header handler)) }
{
    let plain = Field::version_and_flags(false, 0);
    if handler == *b"vide" {
        let fields = [Field::version_and_flags(false, 1), Field::Bytes(&[0; 8])];
        push_box(out, *b"vmhd", &fields);
    } else if handler == *b"soun" {
        push_box(out, *b"smhd", &[plain, Field::Bytes(&[0; 4])]);
    } else if handler == *b"subt" {
        push_box(out, *b"sthd", &[plain]);
    } else {
        push_box(out, *b"nmhd", &[plain]);
    }
}
