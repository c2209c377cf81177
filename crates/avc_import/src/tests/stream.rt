//! A stream with units of each kind, and the movie of it.

use super::{folder_of, has, import_file, only_edit, only_track};
use mp_movie::{Movie, Track};
use std::alloc::Global;
use std::test::Fail;

/// By a set of profile 100, whose timing is 1001 of 60,000: two sequences, of five pictures and of three.
const PARTS: [&[u8]; 9] = [
    // A delimiter, the sets, supplemental information, and an IDR picture of two slices: count 0.
    &[
        0, 0, 1, 9, 0x10, 0, 0, 1, 0x67, 0x64, 0, 0x0A, 0xAC, 0xE9, 0xE8, 0x40, 0, 0, 0xFA, 0x40,
        0, 0x3A, 0x98, 0x30, 0, 0, 1, 0x68, 0xCE, 0x38, 0x80, 0, 0, 1, 0x68, 0x57, 0x8E, 0x20, 0,
        0, 1, 6, 5, 3, 0, 0, 3, 1, 0x80, 0, 0, 1, 0x65, 0x88, 0x84, 8, 0, 0, 1, 0x65, 0x42, 0x21,
        2,
    ],
    // A picture of two slices with filler data between: count 8.
    &[
        0, 0, 1, 9, 0x10, 0, 0, 1, 0x41, 0x9A, 0x30, 0x20, 0, 0, 1, 0x0C, 0xFF, 0x80, 0, 0, 1,
        0x41, 0x46, 0x8C, 8,
    ],
    // A reference picture of bipredicted slices: count 4.
    &[0, 0, 1, 0x21, 0x9E, 0x49, 8],
    // Supplemental information, and a picture: count 2.
    &[0, 0, 1, 6, 5, 1, 0xAA, 0x80, 0, 0, 1, 1, 0x9E, 0x65, 0x10],
    // A picture of the same frame number, and the end of the sequence: count 6.
    &[0, 0, 1, 1, 0x9E, 0x6D, 0x10, 0, 0, 1, 0x0A],
    // Both sets again, and an IDR picture: count 0.
    &[
        0, 0, 1, 0x67, 0x64, 0, 0x0A, 0xAC, 0xE9, 0xE8, 0x40, 0, 0, 0xFA, 0x40, 0, 0x3A, 0x98,
        0x30, 0, 0, 1, 0x68, 0xCE, 0x38, 0x80, 0, 0, 1, 0x65, 0x88, 0x82, 2,
    ],
    // By the other set: the low part is 6, and the bottom field's count is less by 3.
    &[0, 0, 1, 0x41, 0x99, 0x0B, 0x1C, 0x40],
    // Count 4, which is behind that one.
    &[0, 0, 1, 1, 0x9E, 0x49, 0x10],
    // The end of the stream, a delimiter and supplemental information of no picture, and a third set.
    &[
        0, 0, 1, 0x0B, 0, 0, 1, 9, 0x10, 0, 0, 1, 0x26, 5, 1, 0xBB, 0x80, 0, 0, 1, 0x68, 0x73,
        0x8E, 0x20,
    ],
];

/// The body of the configuration.
const BODY: [u8; 47] = [
    1, 0x64, 0, 0x0A, 0xFF, 0xE1, 0, 0x10, 0x67, 0x64, 0, 0x0A, 0xAC, 0xE9, 0xE8, 0x40, 0, 0, 0xFA,
    0x40, 0, 0x3A, 0x98, 0x30, 3, 0, 4, 0x68, 0xCE, 0x38, 0x80, 0, 4, 0x68, 0x57, 0x8E, 0x20, 0, 4,
    0x68, 0x73, 0x8E, 0x20, 0xFD, 0xF8, 0xF8, 0,
];

/// Where the units of the samples stand, and their lengths.
const UNITS: [(u64, u32); 12] = [
    (41, 8),
    (52, 4),
    (59, 4),
    (71, 4),
    (84, 4),
    (91, 4),
    (98, 5),
    (106, 4),
    (113, 4),
    (150, 4),
    (157, 5),
    (165, 4),
];

/// The movie of the stream.
fn stream_movie(alloc: Global) -> Result<Option<Movie>, Fail> {
    let mut bytes = Vec::new(alloc);
    for part in PARTS {
        bytes.extend_from_slice(part)?;
    }
    let mut folder = folder_of(alloc, &bytes)?;
    Ok(import_file(alloc, &mut folder, None).ok())
}

/// Whether the samples of a track are made of these units of the file, each behind its length.
fn has_units(track: &Track, units: &[(u64, u32)]) -> bool {
    if track.pieces.len() != units.len() {
        return false;
    }
    for (piece, &(from, len)) in track.pieces.iter().zip(units) {
        if piece.from != from || piece.len != len || piece.prefix != Some(len) {
            return false;
        }
    }
    true
}

/// Whether the track is that of the stream.
fn is_track(track: &Track) -> bool {
    track.scale == 30_000
        && has(&track.deltas, &[1001; 8])
        && has(
            &track.offsets,
            &[2002, 5005, 2002, 0, 1001, 2002, 2002, 2002],
        )
        && has(&track.syncs, &[1, 0, 0, 0, 0, 1, 0, 0])
        && has(&track.sizes, &[28, 16, 8, 17, 8, 8, 9, 8])
        && has(&track.counts, &[3, 2, 1, 2, 1, 1, 1, 1])
        && has_units(track, &UNITS)
        && track.entries.len() == 1
        && track.entries[0].bytes.ends_with(&BODY)
        && only_edit(track) == Some((2002, 4004))
}

#[test]
fn a_whole_stream(rt: HostRuntime) -> Result<(), Fail> {
    let movie = stream_movie(rt.alloc())?.expect(&rt, "a movie");
    let is = match only_track(&movie) {
        Some(track) => movie.scale() == 15_000 && is_track(track),
        None => false,
    };
    assert!(rt; is);
    Ok(())
}
