//! The writer of the sample entries of MPEG-4 streams (ISO/IEC 14496-14, 5.6).

ghost use Rattle.std.specs.Prelude.{◌≡◌, ◌+◌, ◌^◌, ◌<◌, ◌≤◌, [], ◌∷◌, length, IfOk};
ghost use Rattle.mp_boxes.specs.Field.{body_bytes, box_bytes};
ghost use Rattle.mp_boxes.specs.Push.{IsPushed};
ghost use Rattle.mp_boxes.specs.Table.{HasLen, mixed};
ghost use Rattle.mp_entries.specs.Entry.{IsEntry};
ghost use Rattle.mp_entries.specs.Descriptor.{descriptor, stream_tag, decoder_tag};
ghost use Rattle.mp_entries.specs.Esds.{specific_info, decoder_body, stream_body, stream_byte, esds, mp4a, mp4v, sample_rate, esds_entry};

use crate::begin::{begin_entry, visual_fields};
use crate::descriptor::{descriptor_len, push_head};
use crate::esds::EsdsEntry;
use crate::law::written_is_whole;
use mp_boxes::{
    Field, begin_box, box_len, boxes_have_lengths, fields_len, pieces_may_be_cut, push_bytes,
    push_fields,
};
use mp_ports::NoMemory;
use std::alloc::Global;

/// The tags of descriptors (ISO/IEC 14496-1, 7.2.2.1).
const STREAM: u8 = 3;

const DECODER: u8 = 4;

const SPECIFIC: u8 = 5;

/// SLConfigDescriptor, whole: its tag, its length, the predefined value 2.
const SYNC_LAYER: [u8; 3] = [6, 1, 2];

fn specific_len(info: &[u8]) -> u64
    requires { length info.now ≤ 65536 }
    ensures len { result ≡ length (specific_info info.now) }
    ensures most { result ≤ 65541 }
{
    if info.is_empty() {
        0
    } else {
        descriptor_len(info.len() as u64)
    }
}

fn decoder_len(entry: &EsdsEntry) -> u64
    requires { length entry.now.info ≤ 65536 }
    ensures len { result ≡ length (decoder_body entry.now) }
    ensures most { result ≤ 65554 }
{
    let fields = [Field::Bytes(&[0; 5]), Field::U32(0), Field::U32(0)];
    fields_len(&fields) + specific_len(&entry.info)
}

fn stream_len(entry: &EsdsEntry) -> u64
    requires { length entry.now.info ≤ 65536 }
    ensures len { result ≡ length (stream_body entry.now) }
    ensures most { result ≤ 65565 }
{
    let fields = [Field::U16(0), Field::Bytes(&[0])];
    fields_len(&fields) + descriptor_len(decoder_len(entry)) + SYNC_LAYER.len() as u64
}

fn esds_len(entry: &EsdsEntry) -> u64
    requires { length entry.now.info ≤ 65536 }
    ensures len { HasLen result (esds entry.now) }
    ensures most { result ≤ 65582 }
{
    box_len(
        &[Field::version_and_flags(false, 0)],
        descriptor_len(stream_len(entry)),
    )
}

/// Pushes the decoder's configuration, where there is any.
fn push_specific(out: &mut Vec<u8>, info: &[u8])
    requires { length info.now ≤ 65536 }
    ensures { IsPushed out.old out.new (specific_info info.now) }
{
    if info.is_empty() {
        return;
    }
    pieces_may_be_cut();
    push_head(out, SPECIFIC, info.len() as u64);
    push_bytes(out, info);
}

/// streamType, upStream 0 and a bit that is 1.
fn stream_byte(audio: bool) -> u8
    ensures { result ≡ stream_byte audio }
{
    if audio { 0x15 } else { 0x11 }
}

/// Pushes DecoderConfigDescriptor.
fn push_decoder(out: &mut Vec<u8>, entry: &EsdsEntry)
    requires { length entry.now.info ≤ 65536 }
    ensures { IsPushed out.old out.new (descriptor decoder_tag (decoder_body entry.now)) }
{
    pieces_may_be_cut();
    push_head(out, DECODER, decoder_len(entry));
    let buffer = entry.buffer.to_be_bytes();
    let fields = [
        Field::Bytes(&[entry.object]),
        Field::Bytes(&[stream_byte(entry.audio)]),
        Field::Bytes(&buffer[1..]),
        Field::U32(entry.maximal),
        Field::U32(entry.average),
    ];
    push_fields(out, &fields);
    push_specific(out, &entry.info);
}

/// Pushes ES_Descriptor.
fn push_stream(out: &mut Vec<u8>, entry: &EsdsEntry)
    requires { length entry.now.info ≤ 65536 }
    ensures { IsPushed out.old out.new (descriptor stream_tag (stream_body entry.now)) }
{
    pieces_may_be_cut();
    push_head(out, STREAM, stream_len(entry));
    push_fields(out, &[Field::U16(0), Field::Bytes(&[0])]);
    push_decoder(out, entry);
    push_bytes(out, &SYNC_LAYER);
}

/// Pushes the box `esds`.
fn push_esds(out: &mut Vec<u8>, entry: &EsdsEntry)
    requires { length entry.now.info ≤ 65536 }
    ensures { IsPushed out.old out.new (box_bytes (esds entry.now)) }
{
    let head = [Field::version_and_flags(false, 0)];
    begin_box(out, *b"esds", &head, esds_len(entry));
    push_stream(out, entry);
}

/// The entry of that type with these fields in front of the box `esds`.
fn entry_of(
    alloc: Global,
    kind: [u8; 4],
    fields: &[Field<'_>],
    entry: &EsdsEntry,
) -> Result<Vec<u8>, NoMemory>
    requires info { length entry.now.info ≤ 65536 }
    requires front { length (body_bytes fields.now) < 2 ^ 16 }
    ensures written { IfOk result
        (λ out. out.items ≡ box_bytes (mixed kind fields.now (esds entry.now ∷ []))) }
    ensures short { IfOk result (λ out. length out.items ≤ 8 + length (body_bytes fields.now) + 65582) }
{
    boxes_have_lengths();
    let mut out = begin_entry(alloc, kind, fields, esds_len(entry))?;
    push_esds(&mut out, entry);
    Ok(out)
}

/// The samples a second in 16.16, or 0 where they do not fit.
fn sample_rate(rate: u32) -> u32
    ensures { result ≡ sample_rate rate }
{
    if rate < 1 << 16 { rate << 16 } else { 0 }
}

/// The entry of sound: the fields of AudioSampleEntry, and the box `esds`.
fn sound_entry(alloc: Global, entry: &EsdsEntry) -> Result<Vec<u8>, NoMemory>
    requires info { length entry.now.info ≤ 65536 }
    ensures written { IfOk result (λ out. out.items ≡ box_bytes (mp4a entry.now)) }
    ensures short { IfOk result (λ out. length out.items ≤ 65668) }
{
    let fields = [
        Field::Bytes(&[0; 6]),
        Field::U16(1),
        Field::Bytes(&[0; 8]),
        Field::U16(entry.channels),
        Field::U16(16),
        Field::U32(0),
        Field::U32(sample_rate(entry.rate)),
    ];
    entry_of(alloc, *b"mp4a", &fields, entry)
}

/// The entry of pictures: the fields of VisualSampleEntry, and the box `esds`.
fn picture_entry(alloc: Global, entry: &EsdsEntry) -> Result<Vec<u8>, NoMemory>
    requires info { length entry.now.info ≤ 65536 }
    ensures written { IfOk result (λ out. out.items ≡ box_bytes (mp4v entry.now)) }
    ensures short { IfOk result (λ out. length out.items ≤ 65668) }
{
    entry_of(alloc, *b"mp4v", &visual_fields(0, 0), entry)
}

/// The sample entry of an MPEG-4 stream: the whole box `mp4a` or `mp4v`, with data reference 1.
pub fn esds_entry(alloc: Global, entry: &EsdsEntry) -> Result<Vec<u8>, NoMemory>
    requires info { length entry.now.info ≤ 65536 }
    requires buffer { entry.now.buffer < 2 ^ 24 }
    ensures written { IfOk result (λ out. out.items ≡ box_bytes (esds_entry entry.now)) }
    ensures well_formed { IfOk result (λ out. IsEntry out.items) }
    ensures short { IfOk result (λ out. length out.items ≤ 65668) }
{
    written_is_whole();
    boxes_have_lengths();
    if entry.audio {
        sound_entry(alloc, entry)
    } else {
        picture_entry(alloc, entry)
    }
}
