//! Chunks one a call and all at once, of movies of two tracks: they were worked out by hand.
ghost use Rattle.std.specs.Prelude.{◌≡◌, ◌≢◌, ◌≤◌, ◌<◌, ◌^◌, IfOk, length};
ghost use Rattle.mp_boxes.specs.Boxes.{IsBytes};
ghost use Rattle.mp_entries.specs.Entry.{IsEntry};
ghost use Rattle.mp_movie.specs.Placed.{plain_scale};
ghost use Rattle.mp_movie.specs.WholeParts.{AreParts, AreTrackParts};
ghost use Rattle.mp_timeline.specs.Plain.{plain_movie_head};

use super::*;
use mp_columns::Column;
use mp_entries::{EsdsEntry, esds_entry};
use mp_movie::{Movie, MovieParts, Track, a_sample_follows, check_fits, plain_heads_fit};
use mp_timeline::{EntryBytes, MovieHead, TrackHead};
use std::alloc::{AllocError, Global};
use std::process::Abort;
use std::test::Fail;

fn entry(alloc: Global) -> Result<EntryBytes, AllocError>
    ensures entry { IfOk result (λ entry. IsEntry entry) }
    ensures bytes { IfOk result (λ entry. IsBytes entry) }
    ensures len { IfOk result (λ entry. length entry < 2 ^ 24) }
{
    let entry = EsdsEntry {
        audio: true,
        object: 0x40,
        channels: 2,
        rate: 44_100,
        buffer: 0,
        maximal: 0,
        average: 0,
        info: Vec::from_slice(alloc, &[0x12, 0x10])?,
    };
    let bytes = esds_entry(alloc, &entry).map_err(|_| AllocError)?;
    are_bytes(&bytes);
    Ok(EntryBytes { bytes })
}

// Each is below 256, as their type says.
fn are_bytes(bytes: &[u8])
    ensures { IsBytes bytes.now }
{}

// A track of that number and of two entries, without samples.
fn bare(alloc: Global, number: u32) -> Result<Track, AllocError>
    requires { 1 ≤ number }
    ensures parts { IfOk result (λ track. AreTrackParts plain_scale track) }
    ensures entries { IfOk result (λ track. length track.entries ≡ 2) }
    ensures number { IfOk result (λ track. track.number ≡ number) }
{
    plain_heads_fit();
    let head = TrackHead::plain(alloc, *b"soun")?;
    let mut entries = Vec::new(alloc);
    entries.push(entry(alloc)?)?;
    entries.push(entry(alloc)?)?;
    Ok(Track::new(alloc, number, head, 1000, entries))
}

// The track with one sample more, of no bytes.
fn with_sample(
    rt: &impl Abort,
    mut track: Track,
    delta: u32,
    entry: u32,
) -> Result<Track, AllocError>
    requires parts { AreTrackParts plain_scale track }
    requires entries { length track.entries ≡ 2 }
    ensures parts { IfOk result (λ later. AreTrackParts plain_scale later) }
    ensures entries { IfOk result (λ later. length later.entries ≡ 2) }
    ensures number { IfOk result (λ later. later.number ≡ track.number) }
{
    a_sample_follows();
    assert!(rt; track.deltas.len() < 1000);
    assert!(rt; 1 <= entry);
    assert!(rt; entry <= 2);
    match track.push_sample(delta, 0, true, entry, &[]) {
        Ok(()) => Ok(track),
        Err(_) => Err(AllocError),
    }
}

// A track of that number, with samples of these durations and entries.
fn track_of(
    rt: &impl Abort,
    alloc: Global,
    number: u32,
    samples: &[(u32, u32)],
) -> Result<Track, AllocError>
    requires { 1 ≤ number }
    ensures parts { IfOk result (λ track. AreTrackParts plain_scale track) }
    ensures number { IfOk result (λ track. track.number ≡ number) }
{
    let mut track = bare(alloc, number)?;
    for (delta, entry) in samples {
        track = with_sample(rt, track, *delta, *entry)?;
    }
    Ok(track)
}

// The movie of these tracks, of 1000 ticks a second.
fn movie_of_all(alloc: Global, tracks: Vec<Track>) -> Result<Movie, AllocError>
    requires { AreParts (record { scale = plain_scale; head = plain_movie_head; tracks = tracks.items }) }
{
    let parts = MovieParts {
        scale: 1000,
        head: MovieHead::plain(alloc),
        tracks,
    };
    if check_fits(&parts).is_some() {
        return Err(AllocError);
    }
    Ok(Movie::from_parts(parts))
}

// The movie of these two.
fn movie_of(alloc: Global, one: Track, other: Track) -> Result<Movie, AllocError>
    requires one { AreTrackParts plain_scale one }
    requires other { AreTrackParts plain_scale other }
    requires apart { other.number ≢ one.number }
{
    plain_heads_fit();
    let mut tracks = Vec::new(alloc);
    tracks.push(one)?;
    tracks.push(other)?;
    movie_of_all(alloc, tracks)
}

// The chunk of a track, from that sample on, of so many.
type Row = (u32, u32, u32);

fn chunk_of(row: Row) -> Chunk {
    Chunk {
        track: row.0,
        first: row.1,
        count: row.2,
    }
}

// The chunks one a call, none behind the last, twice, and where the cursors then stand.
fn check_turns(
    rt: &impl Abort,
    alloc: Global,
    movie: &Movie,
    window: u32,
    rows: &[Row],
    next: [u32; 2],
) -> Result<(), AllocError> {
    let mut cursors = ChunkCursors::new(alloc, movie, window).map_err(|_| AllocError)?;
    for row in rows {
        assert!(rt; cursors.advance(movie) == Some(chunk_of(*row)));
    }
    assert!(rt; cursors.done == rows.len() as u64);
    assert!(rt; cursors.advance(movie).is_none());
    assert!(rt; cursors.advance(movie).is_none());
    assert!(rt; &*cursors.next == next.as_slice());
    Ok(())
}

// The same chunks all at once.
fn check_plan(
    rt: &impl Abort,
    alloc: Global,
    movie: &Movie,
    window: u32,
    rows: &[Row],
) -> Result<(), AllocError> {
    let plan = chunk_plan(alloc, movie, window).map_err(|_| AllocError)?;
    assert!(rt; plan.chunks.len() == rows.len());
    for (at, row) in rows.iter().enumerate() {
        assert!(rt; plan.chunks[at] == chunk_of(*row));
    }
    Ok(())
}

#[test]
fn two_tracks_in_turn(rt: HostRuntime) -> Result<(), Fail> {
    let rows: [(u32, &[Row]); 6] = [
        (500, &[(0, 1, 2), (1, 1, 1), (0, 3, 2), (1, 2, 1)]),
        (0, &[(0, 1, 4), (1, 1, 2)]),
        (4_294_967_295, &[(0, 1, 4), (1, 1, 2)]),
        (751, &[(0, 1, 4), (1, 1, 2)]),
        (
            1,
            &[
                (0, 1, 1),
                (1, 1, 1),
                (0, 2, 1),
                (0, 3, 1),
                (1, 2, 1),
                (0, 4, 1),
            ],
        ),
        (
            300,
            &[(0, 1, 2), (1, 1, 1), (0, 3, 1), (1, 2, 1), (0, 4, 1)],
        ),
    ];
    let alloc = rt.alloc();
    let one = track_of(&rt, alloc, 1, &[(250, 1), (250, 1), (250, 1), (250, 1)])?;
    let other = track_of(&rt, alloc, 2, &[(500, 1), (500, 1)])?;
    let movie = movie_of(alloc, one, other)?;
    for (window, chunks) in rows {
        check_turns(&rt, alloc, &movie, window, chunks, [5, 3])?;
        check_plan(&rt, alloc, &movie, window, chunks)?;
    }
    Ok(())
}

// The first track is without samples. Of the second, three samples are decoded at once, on the border of
// windows of half a second, and entries change within a window and between two.
#[test]
fn borders_and_entries(rt: HostRuntime) -> Result<(), Fail> {
    let rows: [(u32, &[Row]); 3] = [
        (
            500,
            &[(1, 1, 1), (1, 2, 1), (1, 3, 1), (1, 4, 2), (1, 6, 1)],
        ),
        (0, &[(1, 1, 1), (1, 2, 2), (1, 4, 3)]),
        (501, &[(1, 1, 1), (1, 2, 2), (1, 4, 2), (1, 6, 1)]),
    ];
    let samples = [(1, 1), (499, 2), (0, 2), (0, 1), (502, 1), (0, 1)];
    let alloc = rt.alloc();
    let one = track_of(&rt, alloc, 7, &[])?;
    let other = track_of(&rt, alloc, 3, &samples)?;
    let movie = movie_of(alloc, one, other)?;
    for (window, chunks) in rows {
        check_turns(&rt, alloc, &movie, window, chunks, [1, 7])?;
        check_plan(&rt, alloc, &movie, window, chunks)?;
    }
    Ok(())
}
