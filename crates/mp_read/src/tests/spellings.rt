//! A file that spells what may be spelled in several ways in the ways that are seldom seen.

use super::read;
use mp_columns::{Col, Column};
use mp_movie::{Piece, Track};
use mp_timeline::Segment;
use std::process::Abort;
use std::test;

/// Boxes in another order than usual, of 64-bit sizes, of the type `uuid`, and of size 0 at the end. Two boxes of
/// user data each in `moov` and in the first track. The first track has headers, edits and offsets of version 1,
/// sizes of 4 bits, 64-bit offsets, two entries, `stss` without a number, and a data reference of flags 3.
pub(super) const FILE: [u8; 1105] = [
    0, 0, 0, 9, 102, 114, 101, 101, 120, 0, 0, 4, 56, 109, 111, 111, 118, 0, 0, 0, 9, 117, 100,
    116, 97, 65, 0, 0, 2, 86, 116, 114, 97, 107, 0, 0, 0, 104, 116, 107, 104, 100, 1, 0, 0, 0, 0,
    0, 0, 0, 0, 0, 0, 1, 0, 0, 0, 0, 0, 0, 0, 2, 0, 0, 0, 7, 0, 0, 0, 0, 0, 0, 0, 0, 0, 0, 0, 0, 0,
    0, 0, 0, 0, 0, 0, 0, 0, 0, 0, 0, 0, 0, 0, 0, 0, 1, 0, 0, 0, 0, 0, 0, 0, 0, 0, 0, 0, 0, 0, 0, 0,
    1, 0, 0, 0, 0, 0, 0, 0, 0, 0, 0, 0, 0, 0, 0, 64, 0, 0, 0, 0, 16, 0, 0, 0, 9, 0, 0, 0, 0, 0, 29,
    117, 117, 105, 100, 0, 1, 2, 3, 4, 5, 6, 7, 8, 9, 10, 11, 12, 13, 14, 15, 255, 255, 255, 255,
    255, 0, 0, 0, 64, 101, 100, 116, 115, 0, 0, 0, 56, 101, 108, 115, 116, 1, 0, 0, 0, 0, 0, 0, 2,
    0, 0, 0, 0, 0, 0, 0, 40, 255, 255, 255, 255, 255, 255, 255, 255, 0, 0, 0, 0, 0, 0, 0, 0, 0, 0,
    0, 60, 0, 0, 0, 0, 0, 0, 0, 5, 0, 1, 0, 0, 0, 0, 0, 1, 109, 100, 105, 97, 0, 0, 0, 0, 0, 0, 1,
    115, 0, 0, 0, 44, 109, 100, 104, 100, 1, 0, 0, 0, 0, 0, 0, 0, 0, 0, 0, 3, 0, 0, 0, 0, 0, 0, 0,
    4, 0, 0, 2, 88, 0, 0, 0, 0, 0, 0, 0, 0, 0, 0, 0, 0, 0, 0, 0, 35, 104, 100, 108, 114, 0, 0, 0,
    0, 0, 0, 0, 0, 118, 105, 100, 101, 0, 0, 0, 0, 0, 0, 0, 0, 0, 0, 0, 0, 97, 0, 98, 0, 0, 1, 20,
    109, 105, 110, 102, 0, 0, 0, 232, 115, 116, 98, 108, 0, 0, 0, 22, 115, 116, 122, 50, 0, 0, 0,
    0, 0, 0, 0, 4, 0, 0, 0, 3, 33, 48, 0, 0, 0, 32, 99, 111, 54, 52, 0, 0, 0, 0, 0, 0, 0, 2, 0, 0,
    0, 0, 0, 0, 4, 73, 0, 0, 0, 0, 0, 0, 4, 78, 0, 0, 0, 40, 115, 116, 115, 99, 0, 0, 0, 0, 0, 0,
    0, 2, 0, 0, 0, 1, 0, 0, 0, 2, 0, 0, 0, 1, 0, 0, 0, 2, 0, 0, 0, 1, 0, 0, 0, 2, 0, 0, 0, 16, 115,
    116, 115, 115, 0, 0, 0, 0, 0, 0, 0, 0, 0, 0, 0, 32, 115, 116, 116, 115, 0, 0, 0, 0, 0, 0, 0, 2,
    0, 0, 0, 2, 0, 0, 0, 10, 0, 0, 0, 1, 0, 0, 0, 0, 0, 0, 0, 32, 99, 116, 116, 115, 1, 0, 0, 0, 0,
    0, 0, 2, 0, 0, 0, 1, 255, 255, 255, 251, 0, 0, 0, 2, 0, 0, 0, 20, 0, 0, 0, 50, 115, 116, 115,
    100, 0, 0, 0, 0, 0, 0, 0, 2, 0, 0, 0, 16, 118, 118, 118, 118, 0, 0, 0, 0, 0, 0, 0, 1, 0, 0, 0,
    18, 119, 119, 119, 119, 0, 0, 0, 0, 0, 0, 0, 1, 1, 2, 0, 0, 0, 36, 100, 105, 110, 102, 0, 0, 0,
    28, 100, 114, 101, 102, 0, 0, 0, 0, 0, 0, 0, 1, 0, 0, 0, 12, 117, 114, 108, 32, 0, 0, 0, 3, 0,
    0, 0, 11, 117, 100, 116, 97, 111, 110, 101, 0, 0, 0, 11, 117, 100, 116, 97, 116, 119, 111, 0,
    0, 1, 92, 116, 114, 97, 107, 0, 0, 0, 248, 109, 100, 105, 97, 0, 0, 0, 176, 109, 105, 110, 102,
    0, 0, 0, 132, 115, 116, 98, 108, 0, 0, 0, 32, 115, 116, 115, 100, 0, 0, 0, 0, 0, 0, 0, 1, 0, 0,
    0, 16, 116, 101, 120, 116, 0, 0, 0, 0, 0, 0, 0, 1, 0, 0, 0, 24, 115, 116, 116, 115, 0, 0, 0, 0,
    0, 0, 0, 1, 0, 0, 0, 2, 0, 0, 0, 7, 0, 0, 0, 28, 115, 116, 115, 99, 0, 0, 0, 0, 0, 0, 0, 1, 0,
    0, 0, 1, 0, 0, 0, 2, 0, 0, 0, 1, 0, 0, 0, 20, 115, 116, 115, 122, 0, 0, 0, 0, 0, 0, 0, 1, 0, 0,
    0, 2, 0, 0, 0, 20, 115, 116, 99, 111, 0, 0, 0, 0, 0, 0, 0, 1, 0, 0, 4, 76, 0, 0, 0, 36, 100,
    105, 110, 102, 0, 0, 0, 28, 100, 114, 101, 102, 0, 0, 0, 0, 0, 0, 0, 1, 0, 0, 0, 12, 117, 114,
    108, 32, 0, 0, 0, 1, 0, 0, 0, 32, 104, 100, 108, 114, 0, 0, 0, 0, 0, 0, 0, 0, 116, 101, 120,
    116, 0, 0, 0, 0, 0, 0, 0, 0, 0, 0, 0, 0, 0, 0, 0, 32, 109, 100, 104, 100, 0, 0, 0, 0, 0, 0, 0,
    0, 0, 0, 0, 0, 0, 0, 3, 232, 0, 0, 0, 0, 0, 0, 0, 0, 0, 0, 0, 92, 116, 107, 104, 100, 0, 0, 0,
    0, 0, 0, 0, 0, 0, 0, 0, 0, 0, 0, 0, 3, 0, 0, 0, 0, 0, 0, 0, 0, 0, 0, 0, 0, 0, 0, 0, 0, 0, 0, 0,
    0, 0, 0, 0, 0, 0, 1, 0, 0, 0, 0, 0, 0, 0, 0, 0, 0, 0, 0, 0, 0, 0, 1, 0, 0, 0, 0, 0, 0, 0, 0, 0,
    0, 0, 0, 0, 0, 64, 0, 0, 0, 0, 0, 0, 0, 0, 0, 0, 0, 0, 0, 0, 9, 117, 100, 116, 97, 66, 0, 0, 0,
    108, 109, 118, 104, 100, 0, 0, 0, 0, 0, 0, 0, 0, 0, 0, 0, 0, 0, 0, 0, 100, 0, 0, 0, 0, 0, 1, 0,
    0, 1, 0, 0, 0, 0, 0, 0, 0, 0, 0, 0, 0, 0, 1, 0, 0, 0, 0, 0, 0, 0, 0, 0, 0, 0, 0, 0, 0, 0, 1, 0,
    0, 0, 0, 0, 0, 0, 0, 0, 0, 0, 0, 0, 0, 64, 0, 0, 0, 0, 0, 0, 0, 0, 0, 0, 0, 0, 0, 0, 0, 0, 0,
    0, 0, 0, 0, 0, 0, 0, 0, 0, 0, 0, 0, 0, 8, 0, 0, 0, 0, 109, 100, 97, 116, 97, 98, 99, 100, 101,
    102, 103, 104,
];

// An item of a column.
fn item(column: &Col, at: u32) -> Option<i64> {
    if at < column.len() {
        Some(column.at(at))
    } else {
        None
    }
}

// The samples are these: duration, composition offset, sync mark, size, entry, place. Each is one piece.
pub(super) fn check(rt: &impl Abort, track: &Track, wanted: &[(i64, i64, i64, u32, i64, u64)]) {
    assert_eq!(rt; track.deltas.len() as usize, wanted.len());
    let mut at = 0;
    for (duration, offset, mark, size, kind, from) in wanted {
        assert_eq!(rt; item(&track.deltas, at), Some(*duration), "sample {at}");
        assert_eq!(rt; item(&track.offsets, at), Some(*offset), "sample {at}");
        assert_eq!(rt; item(&track.syncs, at), Some(*mark), "sample {at}");
        assert_eq!(rt;
            item(&track.sizes, at),
            Some(i64::from(*size)),
            "sample {at}"
        );
        assert_eq!(rt; item(&track.kinds, at), Some(*kind), "sample {at}");
        assert_eq!(rt; item(&track.counts, at), Some(1), "sample {at}");
        let piece = Piece {
            file: 0,
            from: *from,
            len: *size,
            prefix: None,
        };
        assert_eq!(rt;
            track.pieces.get(at as usize).copied(),
            Some(piece),
            "sample {at}"
        );
        at = at.saturating_add(1);
    }
}

fn check_first(rt: &impl Abort, track: &Track) {
    assert_eq!(rt; (track.number, track.scale), (7, 600));
    assert_eq!(rt; (track.head.created, track.head.media_modified), (1, 4));
    assert_eq!(rt; track.head.name.as_slice(), b"a\0b".as_slice());
    assert_eq!(rt; track.head.udta.as_slice(), b"\0\0\0\x0Budtaone".as_slice());
    assert_eq!(rt; track.entries.len(), 2);
    match &track.edits {
        Some(edits) => {
            let wanted = [
                Segment::Empty { dur: 40 },
                Segment::Media { start: 5, dur: 60 },
            ];
            assert_eq!(rt; edits.as_slice(), wanted.as_slice());
        }
        None => panic!(rt; "no edits"),
    }
    check(
        rt,
        track,
        &[
            (10, -5, 0, 2, 1, 1097),
            (10, 20, 0, 1, 1, 1099),
            (0, 20, 0, 3, 2, 1102),
        ],
    );
}

fn check_second(rt: &impl Abort, track: &Track) {
    assert_eq!(rt; (track.number, track.scale), (3, 1000));
    assert_eq!(rt; track.head.udta.len(), 0);
    assert!(rt; track.edits.is_none());
    check(rt, track, &[(7, 0, 1, 1, 1, 1100), (7, 0, 1, 1, 1, 1101)]);
}

#[test]
fn file_in_unusual_spelling_is_read(rt: HostRuntime) -> Result<(), test::Fail> {
    let Ok(movie) = read(rt.alloc(), &FILE)? else {
        panic!(&rt; "a refusal");
    };
    assert_eq!(rt; movie.scale(), 100);
    assert_eq!(rt; movie.head().udta.as_slice(), b"\0\0\0\x09udtaA".as_slice());
    assert_eq!(rt; movie.tracks().len(), 2);
    if let Some(track) = movie.tracks().first() {
        check_first(&rt, track);
    }
    if let Some(track) = movie.tracks().last() {
        check_second(&rt, track);
    }
    Ok(())
}
