//! The writer of the sample entry of H.264 pictures (ISO/IEC 14496-15, 5.4.2).

ghost use Rattle.std.specs.Prelude.{◌≡◌, ◌≤◌, length, IfOk};
ghost use Rattle.mp_boxes.specs.Field.{box_bytes};
ghost use Rattle.mp_entries.specs.Avc1.{avc1_entry, most_configuration};
ghost use Rattle.mp_entries.specs.Entry.{IsEntry};

use crate::begin::{begin_entry, visual_fields};
use crate::law::written_is_whole;
use mp_boxes::{Field, box_len, boxes_have_lengths, push_box};
use mp_ports::NoMemory;
use std::alloc::Global;

/// The sample entry of H.264 pictures: the whole box `avc1`, with data reference 1. `avcc` is the
/// decoder's configuration, the body of the box `avcC`; width and height are in samples of luma.
pub fn avc1_entry(alloc: Global, avcc: &[u8], width: u16, height: u16) -> Result<Vec<u8>, NoMemory>
    requires { length avcc.now ≤ most_configuration }
    ensures written { IfOk result (λ out. out.items ≡ box_bytes (avc1_entry avcc.now width height)) }
    ensures well_formed { IfOk result (λ out. IsEntry out.items) }
{
    written_is_whole();
    boxes_have_lengths();
    let configuration = [Field::Bytes(avcc)];
    let fields = visual_fields(width, height);
    let mut out = begin_entry(alloc, *b"avc1", &fields, box_len(&configuration, 0))?;
    push_box(&mut out, *b"avcC", &configuration);
    Ok(out)
}
