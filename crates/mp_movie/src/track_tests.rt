//! Samples of pieces, one after another, and movies taken apart: the answers were worked out by hand.

ghost use Rattle.std.specs.Prelude.{◌≡◌, ◌≤◌, ◌<◌, ◌^◌, IfOk, length, sum_by};
ghost use Rattle.mp_pieces.specs.Piece.{piece_len};
ghost use Rattle.mp_movie.specs.WholeParts.{AreColumns};

use super::*;
use mp_columns::{Column, MOST_ITEMS};
use mp_ports::NoMemory;
use mp_timeline::{EntryBytes, TrackHead};
use std::alloc::Global;
use std::process::Abort;
use std::test::Fail;

fn piece(from: u64, len: u32, prefix: Option<u32>) -> Piece
    ensures { result ≡ record { file = 0; from = from; len = len; prefix = prefix } }
{
    Piece {
        file: 0,
        from,
        len,
        prefix,
    }
}

// The numbers of the only sample of a track.
fn check_sample(
    rt: &impl Abort,
    alloc: Global,
    pieces: &[Piece],
    sync: bool,
    size: i64,
    count: i64,
) -> Result<(), NoMemory>
    requires { sum_by piece_len pieces.now < 2 ^ 63 }
{
    let head = TrackHead::plain(alloc, *b"vide")?;
    let mut track = Track::new(alloc, 1, head, 1000, Vec::new(alloc));
    track.push_sample(40, 80, sync, 1, pieces)?;
    assert_eq!(rt; track.deltas.len(), 1);
    assert_eq!(rt; track.deltas.total(), 40);
    assert_eq!(rt; track.offsets.total(), 80);
    assert_eq!(rt; track.syncs.total(), i128::from(sync));
    assert_eq!(rt; track.sizes.total(), i128::from(size));
    assert_eq!(rt; track.counts.total(), i128::from(count));
    Ok(())
}

// Samples of no piece, of one, and of three with prefixes, whose sizes count them.
#[test]
fn samples_of_pieces(rt: HostRuntime) -> Result<(), Fail> {
    let alloc = rt.alloc();
    let most = piece(0, u32::MAX, Some(7));
    let prefixed = [
        piece(9, 5, Some(5)),
        piece(20, 0, Some(0)),
        piece(20, 3, None),
    ];
    assert_eq!(rt; pieces_len(&[]), 0);
    assert_eq!(rt; pieces_len(&prefixed), 16);
    assert_eq!(rt; pieces_len(&[most, most]), 8_589_934_598);
    check_sample(&rt, alloc, &[], true, 0, 0)?;
    check_sample(&rt, alloc, &[piece(1, 8, None)], false, 8, 1)?;
    check_sample(&rt, alloc, &prefixed, true, 16, 3)?;
    Ok(())
}

// The track with one sample more, of its only entry.
fn with_one_more(
    rt: &impl Abort,
    mut track: Track,
    delta: u32,
    offset: i64,
    sync: bool,
    pieces: &[Piece],
) -> Result<Track, NoMemory>
    requires columns { AreColumns track }
    requires entries { length track.entries ≡ 1 }
    requires short { sum_by piece_len pieces.now < 2 ^ 63 }
    ensures columns { IfOk result (λ track. AreColumns track) }
    ensures entries { IfOk result (λ track. length track.entries ≡ 1) }
{
    a_sample_follows();
    assert!(rt; track.deltas.len() < MOST_ITEMS);
    match track.push_sample(delta, offset, sync, 1, pieces) {
        Ok(()) => Ok(track),
        Err(_) => Err(NoMemory),
    }
}

// A track of one entry, without samples.
fn with_one_entry(alloc: Global) -> Result<Track, NoMemory>
    ensures columns { IfOk result (λ track. AreColumns track) }
    ensures entries { IfOk result (λ track. length track.entries ≡ 1) }
{
    let head = TrackHead::plain(alloc, *b"vide")?;
    let mut entries = Vec::new(alloc);
    entries.push(EntryBytes {
        bytes: Vec::new(alloc),
    })?;
    Ok(Track::new(alloc, 1, head, 1000, entries))
}

// The second sample stands behind the first one, and its pieces behind those of the first one.
#[test]
fn a_second_sample_follows(rt: HostRuntime) -> Result<(), Fail> {
    let track = with_one_entry(rt.alloc())?;
    let track = with_one_more(&rt, track, 40, 80, true, &[piece(1, 8, None)])?;
    let prefixed = [piece(9, 5, Some(5)), piece(20, 3, None)];
    let track = with_one_more(&rt, track, 30, -10, false, &prefixed)?;
    assert!(&rt; track.sizes.len() == 2);
    assert_eq!(&rt; (track.sizes.at(0), track.sizes.at(1)), (8, 12));
    assert_eq!(&rt; (track.deltas.total(), track.offsets.total()), (70, 70));
    assert_eq!(&rt; (track.syncs.total(), track.counts.total()), (1, 3));
    assert_eq!(&rt; track.pieces.len(), 3);
    Ok(())
}

// A movie of one track of this number, without samples.
fn of_one_track(alloc: Global, number: u32) -> Result<Movie, NoMemory>
    requires { 1 ≤ number }
{
    plain_heads_fit();
    let head = TrackHead::plain(alloc, *b"vide")?;
    let track = Track::new(alloc, number, head, 44_100, Vec::new(alloc));
    match Movie::from_track(alloc, track) {
        Ok(movie) => Ok(movie),
        Err(_) => Err(NoMemory),
    }
}

// What is taken out of a movie makes it anew, and the movie without tracks is left.
#[test]
fn a_movie_is_taken_apart_and_made_anew(rt: HostRuntime) -> Result<(), Fail> {
    let mut movie = of_one_track(rt.alloc(), 7)?;
    let parts = movie.take();
    let made = Movie::from_parts(parts);
    assert_eq!(&rt; movie.tracks().len(), 0);
    assert!(&rt; made.tracks().len() == 1);
    let track = &made.tracks()[0];
    assert_eq!(&rt; (track.number, track.scale), (7, 44_100));
    Ok(())
}
