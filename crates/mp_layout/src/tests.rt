//! Files of small movies: byte by byte, by the places of their chunks, and what stands of them where a call of
//! the folder fails.
ghost use Rattle.std.specs.Prelude.{◌≡◌, ◌≢◌, ◌≤◌, ◌<◌, ◌^◌, IfOk, codes, length, map};
ghost use Rattle.std.specs.List.{AllByRecursion};
ghost use Rattle.mp_boxes.specs.Boxes.{IsBytes};
ghost use Rattle.mp_entries.specs.Entry.{IsEntry};
ghost use Rattle.mp_movie.specs.Placed.{plain_scale};
ghost use Rattle.mp_movie.specs.WellFormed.{AreDistinct};
ghost use Rattle.mp_movie.specs.WholeParts.{AreTrackParts};
ghost use Rattle.mp_layout.specs.Chunked.{IsChunkOrder};

mod bytes;
mod emitted;
mod layouts;

use super::{FilePlan, plan_file};
use mp_columns::Column;
use mp_entries::{EsdsEntry, esds_entry};
use mp_interleave::chunk_plan;
use mp_movie::{
    Movie, MovieParts, Piece, Track, a_sample_follows, check_fits, pieces_len, plain_heads_fit,
};
use mp_timeline::{EntryBytes, MovieHead, TrackHead};
use std::alloc::{AllocError, Global};
use std::process::Abort;

fn entry(alloc: Global) -> Result<EntryBytes, AllocError>
    ensures entry { IfOk result (λ entry. IsEntry entry) }
    ensures bytes { IfOk result (λ entry. IsBytes entry) }
    ensures len { IfOk result (λ entry. length entry < 2 ^ 24) }
{
    let entry = EsdsEntry {
        audio: true,
        object: 0x40,
        channels: 2,
        rate: 44_100,
        buffer: 0,
        maximal: 0,
        average: 0,
        info: Vec::from_slice(alloc, &[0x12, 0x10])?,
    };
    let bytes = esds_entry(alloc, &entry).map_err(|_| AllocError)?;
    are_bytes(&bytes);
    Ok(EntryBytes { bytes })
}

// Each is below 256, as their type says.
fn are_bytes(bytes: &[u8])
    ensures { IsBytes bytes.now }
{}

// A track of this handler and number, at 44,100 ticks a second, without samples.
fn bare(alloc: Global, handler: [u8; 4], number: u32) -> Result<Track, AllocError>
    requires not_hint { handler ≢ codes "hint" }
    requires number { 1 ≤ number }
    ensures parts { IfOk result (λ track. AreTrackParts plain_scale track) }
    ensures entries { IfOk result (λ track. length track.entries ≡ 1) }
    ensures number { IfOk result (λ track. track.number ≡ number) }
{
    plain_heads_fit();
    let head = TrackHead::plain(alloc, handler)?;
    let mut entries = Vec::new(alloc);
    entries.push(entry(alloc)?)?;
    Ok(Track::new(alloc, number, head, 44_100, entries))
}

// The track with one sample more.
fn with_sample(
    rt: &impl Abort,
    mut track: Track,
    delta: u32,
    offset: i64,
    sync: bool,
    pieces: &[Piece],
) -> Result<Track, AllocError>
    requires parts { AreTrackParts plain_scale track }
    requires entries { length track.entries ≡ 1 }
    ensures parts { IfOk result (λ later. AreTrackParts plain_scale later) }
    ensures entries { IfOk result (λ later. length later.entries ≡ 1) }
    ensures number { IfOk result (λ later. later.number ≡ track.number) }
{
    a_sample_follows();
    assert!(rt; track.deltas.len() < 1000);
    assert!(rt; pieces_len(pieces) < 1 << 40);
    match track.push_sample(delta, offset, sync, 1, pieces) {
        Ok(()) => Ok(track),
        Err(_) => Err(AllocError),
    }
}

// The movie of this track, of 1000 ticks a second.
fn movie_of(alloc: Global, track: Track) -> Result<Movie, AllocError>
    requires { AreTrackParts plain_scale track }
{
    match Movie::from_track(alloc, track) {
        Ok(movie) => Ok(movie),
        Err(_) => Err(AllocError),
    }
}

// The movie of these tracks, of 1000 ticks a second.
fn movie_of_all(alloc: Global, tracks: Vec<Track>) -> Result<Movie, AllocError>
    requires parts { AllByRecursion (AreTrackParts plain_scale) tracks.items }
    requires apart { AreDistinct (map (λ track. track.number) tracks.items) }
{
    plain_heads_fit();
    let parts = MovieParts {
        scale: 1000,
        head: MovieHead::plain(alloc),
        tracks,
    };
    if check_fits(&parts).is_some() {
        return Err(AllocError);
    }
    Ok(Movie::from_parts(parts))
}

// The movie of these two.
fn movie_of_two(alloc: Global, one: Track, other: Track) -> Result<Movie, AllocError>
    requires one { AreTrackParts plain_scale one }
    requires other { AreTrackParts plain_scale other }
    requires apart { other.number ≢ one.number }
{
    let mut tracks = Vec::new(alloc);
    tracks.push(one)?;
    tracks.push(other)?;
    movie_of_all(alloc, tracks)
}

// So many bytes of the file of that number from a place on.
fn piece(file: u32, from: u64, len: u32) -> Piece {
    Piece {
        file,
        from,
        len,
        prefix: None,
    }
}

// The plan of the movie's file, its samples in windows of so many milliseconds.
fn plan_of(alloc: Global, movie: &Movie, window: u32) -> Result<FilePlan, AllocError>
    ensures { IfOk result (λ plan. IsChunkOrder movie.now plan.plan) }
{
    let Ok(plan) = chunk_plan(alloc, movie, window) else {
        return Err(AllocError);
    };
    match plan_file(alloc, movie, plan) {
        Ok(plan) => Ok(plan),
        Err(_) => Err(AllocError),
    }
}
