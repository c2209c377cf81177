//! The samples' bytes are copied chunk by chunk, from the pieces of each track.

ghost use Rattle.std.specs.Prelude.{◌≡◌, ◌+◌, ◌<◌, ◌≤◌, ◌^◌, All, IfOk, IsErrOf, List, OnOk, length, sum, take};
ghost use Rattle.std.specs.List.{AllByRecursion, flat_map};
ghost use Rattle.mp_columns.specs.declared.columns.TheConstants.{MOST_ITEMS};
ghost use Rattle.mp_interleave.specs.Law.{IsWithin};
ghost use Rattle.mp_movie.specs.Placed.{PlacedTrack, naturals, sample_count};
ghost use Rattle.mp_movie.specs.WholeParts.{AreColumns};
ghost use Rattle.mp_pieces.specs.Copied.{Emits, StopsReading, StopsWriting, sizes_of};
ghost use Rattle.mp_pieces.specs.Piece.{IsHeld, pieces_bytes};
ghost use Rattle.mp_ports.specs.Folder.{IsWriting};
ghost use Rattle.mp_layout.specs.Chunked.{column_at};
ghost use Rattle.mp_layout.specs.Emitted.{AreStarts, IsStart, chunk_pieces, pieces_in};

use crate::places::range_sum;
use mp_columns::Col;
use mp_interleave::Chunk;
use mp_movie::Track;
use mp_pieces::{EmitFail, copy_pieces};
use mp_ports::{Folder, appends_follow};

/// A place in a track: behind so many samples, which have so many pieces.
#[derive(Clone, Copy)]
pub struct Start {
    pub sample: u32,
    pub piece: u64,
}

/// How many pieces the samples in front of one have, from a place on where that lies in front of it.
fn pieces_before(counts: &Col, start: Start, sample: u32) -> u64
    requires short { sum (naturals counts.now) < 2 ^ 63 }
    requires start { IsStart counts.now start }
    requires inside { sample ≤ length counts.now }
    ensures is { result ≡ sum (take sample (naturals counts.now)) }
    ensures short { result < 2 ^ 63 }
{
    if start.sample <= sample {
        start.piece + range_sum(counts, start.sample, sample)
    } else {
        range_sum(counts, 0, sample)
    }
}

/// Copies the pieces of the samples of a chunk of the track. The place behind it is answered.
fn emit_chunk<F: Folder>(
    folder: &mut F,
    tracks: &[Track],
    chunk: Chunk,
    start: Start,
    window: &mut [u8],
) -> Result<Start, EmitFail>
    requires columns { AllByRecursion AreColumns tracks.now }
    requires few_samples { sample_count tracks.now ≤ MOST_ITEMS }
    requires within { IsWithin tracks.now chunk }
    requires start { IsStart (column_at (λ track. track.counts) tracks.now chunk.track) start }
    requires held { All (IsHeld (sizes_of (F.state folder.old))) (chunk_pieces tracks.now chunk) }
    requires writing { IsWriting (F.state folder.old) }
    requires window { 0 < length window.old }
    ensures copied { OnOk result (Emits (F.state folder.old) (F.state folder.new) (chunk_pieces tracks.now chunk)
        (λ files. pieces_bytes files (chunk_pieces tracks.now chunk))) }
    ensures start { IfOk result (IsStart (column_at (λ track. track.counts) tracks.now chunk.track)) }
    ensures read { IsErrOf result EmitFail.ReadFault
        → StopsReading (F.state folder.old) (F.state folder.new) (chunk_pieces tracks.now chunk)
        (λ files. pieces_bytes files (chunk_pieces tracks.now chunk)) }
    ensures write { IsErrOf result EmitFail.WriteFault
        → StopsWriting (F.state folder.old) (F.state folder.new) (chunk_pieces tracks.now chunk)
        (λ files. pieces_bytes files (chunk_pieces tracks.now chunk)) }
    ensures room { length window.new ≡ length window.old }
{
    let track = &tracks[chunk.track as usize];
    let first = chunk.first - 1;
    let last = first + chunk.count;
    let from = pieces_before(&track.counts, start, first);
    let to = from + range_sum(&track.counts, first, last);
    match copy_pieces(folder, &track.pieces[from as usize..to as usize], window) {
        Ok(()) => Ok(Start {
            sample: last,
            piece: to,
        }),
        Err(fail) => Err(fail),
    }
}

/// The starts of the most tracks that a movie has.
fn no_starts() -> [Start; 64]
    ensures { (tracks : List PlacedTrack) → length tracks ≤ 64 → AreStarts tracks result }
{
    [Start {
        sample: 0,
        piece: 0,
    }; 64]
}

/// Copies the pieces of the samples of all chunks. What lies near in one file is read together, and appended
/// together, within each chunk.
pub fn emit_chunks<F: Folder>(
    folder: &mut F,
    tracks: &[Track],
    chunks: &[Chunk],
    window: &mut [u8],
) -> Result<(), EmitFail>
    requires few_tracks { length tracks.now ≤ 64 }
    requires columns { AllByRecursion AreColumns tracks.now }
    requires few_samples { sample_count tracks.now ≤ MOST_ITEMS }
    requires within { AllByRecursion (IsWithin tracks.now) chunks.now }
    requires held { All (IsHeld (sizes_of (F.state folder.old))) (flat_map (λ track. track.pieces) tracks.now) }
    requires writing { IsWriting (F.state folder.old) }
    requires window { 0 < length window.old }
    ensures copied { OnOk result (Emits (F.state folder.old) (F.state folder.new)
        (flat_map (λ track. track.pieces) tracks.now) (λ files. pieces_bytes files (pieces_in tracks.now chunks.now))) }
    ensures read { IsErrOf result EmitFail.ReadFault
        → StopsReading (F.state folder.old) (F.state folder.new)
        (flat_map (λ track. track.pieces) tracks.now) (λ files. pieces_bytes files (pieces_in tracks.now chunks.now)) }
    ensures write { IsErrOf result EmitFail.WriteFault
        → StopsWriting (F.state folder.old) (F.state folder.new)
        (flat_map (λ track. track.pieces) tracks.now) (λ files. pieces_bytes files (pieces_in tracks.now chunks.now)) }
{
    appends_follow();
    let mut starts = no_starts();
    for at in 0..chunks.len() {
        let chunk = chunks[at];
        let position = chunk.track as usize;
        match emit_chunk(folder, tracks, chunk, starts[position], window) {
            Ok(start) => starts[position] = start,
            Err(fail) => return Err(fail),
        }
    }
    Ok(())
}
