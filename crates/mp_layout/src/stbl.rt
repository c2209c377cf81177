//! The sample table box of a track (ISO/IEC 14496-12, 8.5.1), from the track's columns.

ghost use Rattle.std.specs.Prelude.{◌≤◌, length};
ghost use Rattle.mp_columns.specs.declared.columns.TheConstants.{MOST_ITEMS};
ghost use Rattle.mp_movie.specs.CanBeWritten.{CanBeWritten};
ghost use Rattle.mp_layout.specs.Tables.{stbl};
ghost use Rattle.mp_layout.specs.Written.{BoxHasLen, BoxIsPushed, CanBePlaced};

use mp_boxes::{begin_box, box_len, sum_len};
use mp_chunks::{
    ChunkHead, chunk_offsets_len, places_change_no_length, push_chunk_offsets, push_stsc,
    push_stsz, stsc_len, stsz_len,
};
use mp_entries::{push_stsd, stsd_len};
use mp_movie::{Track, columns_are_kept};
use mp_times::{ctts_len, push_ctts, push_stss, push_stts, stss_len, stts_len};

/// The length of the box `stbl` of a track whose samples stand in these chunks.
pub fn stbl_len(track: &Track, chunks: &[ChunkHead], wide: bool) -> u64
    requires track { CanBeWritten track.now }
    requires few { length chunks.now ≤ MOST_ITEMS }
    ensures { BoxHasLen result stbl track.now chunks.now wide }
{
    columns_are_kept();
    places_change_no_length();
    let lens = [
        stsd_len(&track.entries),
        stts_len(&track.deltas),
        ctts_len(&track.offsets),
        stss_len(&track.syncs),
        stsc_len(chunks),
        stsz_len(&track.sizes),
        chunk_offsets_len(chunks.len() as u32, wide),
    ];
    box_len(&[], sum_len(&lens))
}

/// Pushes that box, which has `len` bytes.
pub fn push_stbl(track: &Track, chunks: &[ChunkHead], wide: bool, len: u64, out: &mut Vec<u8>)
    requires track { CanBeWritten track.now }
    requires chunks { CanBePlaced chunks.now wide }
    requires len { BoxHasLen len stbl track.now chunks.now wide }
    ensures { BoxIsPushed out.old out.new stbl track.now chunks.now wide }
{
    columns_are_kept();
    begin_box(out, *b"stbl", &[], len);
    push_stsd(out, &track.entries);
    push_stts(&track.deltas, out);
    push_ctts(&track.offsets, out);
    push_stss(&track.syncs, out);
    push_stsc(chunks, out);
    push_stsz(&track.sizes, out);
    push_chunk_offsets(chunks, wide, out);
}
