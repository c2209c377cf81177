//! The handler reference box.

ghost use Rattle.std.specs.Prelude.{◌≡◌};
ghost use Rattle.mp_boxes.specs.Field.{body_bytes, box_bytes};
ghost use Rattle.mp_boxes.specs.Push.{IsPushed};
ghost use Rattle.mp_boxes.specs.Table.{HasLen};
ghost use Rattle.mp_headers.specs.Handler.{hdlr, hdlr_of, name_of};

use mp_boxes::{FIRST_FIELD, Field, box_len, kind_in, push_box};
use mp_ports::{Bad, Code};

const HANDLER_PLACE: usize = FIRST_FIELD + 4;

const NAME_PLACE: usize = HANDLER_PLACE + 4 + 12;

/// The handler in the body of the box `hdlr` at `base`.
///
/// `TableLength` where the body is shorter, `HintTrack` where the handler is `hint`. Any version is read.
pub fn read_hdlr(body: &[u8], base: u64) -> Result<[u8; 4], Bad>
    ensures { result ≡ hdlr_of base body.now }
{
    if body.len() < NAME_PLACE {
        return Err(Bad::at(Code::TableLength, base));
    }
    let handler = kind_in(body, HANDLER_PLACE);
    if handler == *b"hint" {
        return Err(Bad::at(Code::HintTrack, base));
    }
    Ok(handler)
}

/// The name of the handler in the body of the box `hdlr`: the bytes from 24 on, none where it has no more.
pub fn name_of(body: &[u8]) -> &[u8]
    ensures { result.now ≡ name_of body.now }
{
    if body.len() < NAME_PLACE {
        return &[];
    }
    &body[NAME_PLACE..]
}

/// The length of the box `hdlr` of this handler and name.
pub fn hdlr_len(handler: &[u8; 4], name: &[u8]) -> u64
    ensures { HasLen result (hdlr handler.now name.now) }
{
    box_len(&written(handler, name), 0)
}

/// Pushes the box `hdlr` of this handler and name (ISO/IEC 14496-12, 8.4.3).
///
/// `name` is written as it is: it should end in a zero byte.
pub fn push_hdlr(handler: &[u8; 4], name: &[u8], out: &mut Vec<u8>)
    ensures { IsPushed out.old out.new (box_bytes (hdlr handler.now name.now)) }
{
    push_box(out, *b"hdlr", &written(handler, name));
}

/// The fields as they are written.
fn written<'a>(handler: &'a [u8; 4], name: &'a [u8]) -> [Field<'a>; 5]
    ensures { body_bytes result ≡ (hdlr handler.now name.now).body }
{
    [
        Field::version_and_flags(false, 0),
        Field::Bytes(&[0; 4]),
        Field::Bytes(handler),
        Field::Bytes(&[0; 12]),
        Field::Bytes(name),
    ]
}
