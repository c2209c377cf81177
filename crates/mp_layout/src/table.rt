//! The chunks of each track, and what is known of a track before its place.

ghost use Rattle.std.specs.Prelude.{◌≡◌, ◌<◌, ◌≤◌, All, IfOk, length, sum_by};
ghost use Rattle.std.specs.List.{AllByRecursion};
ghost use Rattle.mp_boxes.specs.Table.{capped};
ghost use Rattle.mp_columns.specs.declared.columns.TheConstants.{MOST_ITEMS};
ghost use Rattle.mp_interleave.specs.Law.{IsWithin};
ghost use Rattle.mp_movie.specs.CanBeWritten.{CanBeWritten};
ghost use Rattle.mp_layout.specs.Chunked.{AreReaches, IsReach, furthest, head_at, heads_on};
ghost use Rattle.mp_layout.specs.Wide.{IsShortReach};

use crate::trak::track_boxes;
use crate::wide::Reach;
use mp_chunks::ChunkHead;
use mp_columns::Column;
use mp_interleave::Chunk;
use mp_movie::Track;
use mp_ports::NoMemory;
use std::alloc::Global;

/// What is said of a chunk that stands there.
fn chunk_head(tracks: &[Track], chunk: Chunk, place: u64) -> ChunkHead
    requires within { IsWithin tracks.now chunk }
    requires written { AllByRecursion CanBeWritten tracks.now }
    ensures { result ≡ head_at tracks.now chunk place }
{
    let track = &tracks[chunk.track as usize];
    ChunkHead {
        place,
        samples: chunk.count,
        entry: track.kinds.at(chunk.first - 1) as u32,
    }
}

/// What is said of the chunks of the track at that position, where all chunks stand at these places.
pub fn track_heads(
    alloc: Global,
    tracks: &[Track],
    position: u32,
    chunks: &[Chunk],
    places: &[u64],
) -> Result<Vec<ChunkHead>, NoMemory>
    requires within { AllByRecursion (IsWithin tracks.now) chunks.now }
    requires written { AllByRecursion CanBeWritten tracks.now }
    requires places { length places.now ≡ length chunks.now }
    ensures { IfOk result (λ heads. heads.items ≡ heads_on tracks.now position chunks.now places.now) }
{
    let mut heads = Vec::new(alloc);
    for at in 0..chunks.len() {
        if chunks[at].track == position {
            heads.push(chunk_head(tracks, chunks[at], places[at]))?;
        }
    }
    Ok(heads)
}

/// The greatest of the places of these chunks, 0 where there is none.
fn furthest(chunks: &[ChunkHead]) -> u64
    ensures { result ≡ furthest chunks.now }
{
    let mut furthest: u64 = 0;
    for at in 0..chunks.len() {
        furthest = furthest.max(chunks[at].place);
    }
    furthest
}

/// What is known of the track at that position, in a movie of this scale.
fn reach_of(
    alloc: Global,
    scale: u32,
    tracks: &[Track],
    position: u32,
    chunks: &[Chunk],
    places: &[u64],
) -> Result<Reach, NoMemory>
    requires inside { position < length tracks.now }
    requires within { AllByRecursion (IsWithin tracks.now) chunks.now }
    requires written { AllByRecursion CanBeWritten tracks.now }
    requires places { length places.now ≡ length chunks.now }
    requires few { length chunks.now ≤ MOST_ITEMS }
    ensures { IfOk result (IsReach scale tracks.now chunks.now places.now position) }
{
    let heads = track_heads(alloc, tracks, position, chunks, places)?;
    let boxes = track_boxes(scale, &tracks[position as usize], &heads, false);
    Ok(Reach {
        trak: boxes.trak,
        chunks: heads.len() as u32,
        furthest: furthest(&heads),
    })
}

/// What is known of each track.
pub fn track_reaches(
    alloc: Global,
    scale: u32,
    tracks: &[Track],
    chunks: &[Chunk],
    places: &[u64],
) -> Result<Vec<Reach>, NoMemory>
    requires few_tracks { length tracks.now ≤ 64 }
    requires within { AllByRecursion (IsWithin tracks.now) chunks.now }
    requires written { AllByRecursion CanBeWritten tracks.now }
    requires places { length places.now ≡ length chunks.now }
    requires few { length chunks.now ≤ MOST_ITEMS }
    ensures { IfOk result (λ reaches.
        AreReaches scale tracks.now chunks.now places.now (length tracks.now) reaches.items) }
{
    let mut reaches = Vec::new(alloc);
    for position in 0..tracks.len() {
        reaches.push(reach_of(alloc, scale, tracks, position as u32, chunks, places)?)?;
    }
    Ok(reaches)
}

/// The length of all `trak` with places of 32 bits.
pub fn traks_len(reaches: &[Reach]) -> u64
    ensures { result ≡ capped (sum_by (λ reach. reach.trak) reaches.now) }
{
    let mut len: u64 = 0;
    for reach in reaches {
        len = len.saturating_add(reach.trak);
    }
    len
}
