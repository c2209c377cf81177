//! The track box and the boxes in it, down to the sample tables (ISO/IEC 14496-12, 8.3.1, 8.4.1 and 8.4.4). Each
//! length is computed once, before anything is pushed.

ghost use Rattle.std.specs.Prelude.{◌≡◌, ◌≤◌, length};
ghost use Rattle.mp_boxes.specs.Field.{box_bytes};
ghost use Rattle.mp_boxes.specs.Push.{IsPushed};
ghost use Rattle.mp_boxes.specs.Table.{HasLen};
ghost use Rattle.mp_columns.specs.declared.columns.TheConstants.{MOST_ITEMS};
ghost use Rattle.mp_movie.specs.CanBeWritten.{CanBeWritten};
ghost use Rattle.mp_layout.specs.Moov.{dinf, mdia, minf, trak};
ghost use Rattle.mp_layout.specs.Written.{AreTrackBoxes, BoxIsPushed, CanBePlaced};

use crate::heads::{media_header, track_header};
use crate::stbl::{push_stbl, stbl_len};
use mp_boxes::{begin_box, box_len, boxes_have_lengths, push_bytes, sum_len};
use mp_chunks::ChunkHead;
use mp_edits::{edts_len, push_edts};
use mp_entries::{dref_len, push_dref};
use mp_headers::{
    Mdhd, Tkhd, hdlr_len, mdhd_len, media_header_len, push_hdlr, push_mdhd, push_media_header,
    push_tkhd, tkhd_len,
};
use mp_movie::Track;

/// What is known of the boxes of a track before they are pushed: its headers in a movie of that scale, and the
/// lengths of the boxes around them in bytes, their own headers included.
#[derive(Clone, Copy)]
pub struct TrackBoxes {
    pub movie_scale: u32,
    pub header: Tkhd,
    pub media: Mdhd,
    pub trak: u64,
    pub mdia: u64,
    pub minf: u64,
    pub stbl: u64,
}

/// The headers and lengths of the boxes of a track, whose samples stand in these chunks.
pub fn track_boxes(movie_scale: u32, track: &Track, chunks: &[ChunkHead], wide: bool) -> TrackBoxes
    requires track { CanBeWritten track.now }
    requires few { length chunks.now ≤ MOST_ITEMS }
    ensures boxes { AreTrackBoxes track.now chunks.now wide result }
    ensures scale { result.movie_scale ≡ movie_scale }
{
    boxes_have_lengths();
    let head = &track.head;
    let header = track_header(movie_scale, track);
    let media = media_header(track);
    let stbl = stbl_len(track, chunks, wide);
    let minf = sum_len(&[media_header_len(head.handler), dinf_len(), stbl]);
    let minf = box_len(&[], minf);
    let mdia = sum_len(&[mdhd_len(&media), hdlr_len(&head.handler, &head.name), minf]);
    let mdia = box_len(&[], mdia);
    let edits = edts_len(track.edits.as_deref());
    let udta: &[u8] = &head.udta;
    let trak = sum_len(&[tkhd_len(&header), edits, mdia, udta.len() as u64]);
    TrackBoxes {
        movie_scale,
        header,
        media,
        trak: box_len(&[], trak),
        mdia,
        minf,
        stbl,
    }
}

/// The length of `dinf`.
fn dinf_len() -> u64
    ensures { HasLen result dinf }
{
    box_len(&[], dref_len())
}

/// Pushes `dinf`: the data is in the file itself.
fn push_dinf(out: &mut Vec<u8>)
    ensures { IsPushed out.old out.new (box_bytes dinf) }
{
    begin_box(out, *b"dinf", &[], dinf_len());
    push_dref(out);
}

/// Pushes `minf`.
fn push_minf(track: &Track, chunks: &[ChunkHead], wide: bool, boxes: &TrackBoxes, out: &mut Vec<u8>)
    requires track { CanBeWritten track.now }
    requires chunks { CanBePlaced chunks.now wide }
    requires boxes { AreTrackBoxes track.now chunks.now wide boxes.now }
    ensures { BoxIsPushed out.old out.new minf track.now chunks.now wide }
{
    let head = &track.head;
    begin_box(out, *b"minf", &[], boxes.minf);
    push_media_header(head.handler, out);
    push_dinf(out);
    push_stbl(track, chunks, wide, boxes.stbl, out);
}

/// Pushes `mdia`.
fn push_mdia(track: &Track, chunks: &[ChunkHead], wide: bool, boxes: &TrackBoxes, out: &mut Vec<u8>)
    requires track { CanBeWritten track.now }
    requires chunks { CanBePlaced chunks.now wide }
    requires boxes { AreTrackBoxes track.now chunks.now wide boxes.now }
    ensures { BoxIsPushed out.old out.new mdia track.now chunks.now wide }
{
    let head = &track.head;
    begin_box(out, *b"mdia", &[], boxes.mdia);
    push_mdhd(&boxes.media, out);
    push_hdlr(&head.handler, &head.name, out);
    push_minf(track, chunks, wide, boxes, out);
}

/// Pushes `trak`.
pub fn push_trak(
    track: &Track,
    chunks: &[ChunkHead],
    wide: bool,
    boxes: &TrackBoxes,
    out: &mut Vec<u8>,
)
    requires track { CanBeWritten track.now }
    requires chunks { CanBePlaced chunks.now wide }
    requires boxes { AreTrackBoxes track.now chunks.now wide boxes.now }
    ensures { BoxIsPushed out.old out.new (trak boxes.now.movie_scale) track.now chunks.now wide }
{
    let head = &track.head;
    begin_box(out, *b"trak", &[], boxes.trak);
    push_tkhd(&boxes.header, out);
    push_edts(track.edits.as_deref(), out);
    push_mdia(track, chunks, wide, boxes, out);
    push_bytes(out, &head.udta);
}
