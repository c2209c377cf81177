//! Pictures by hand and of real streams. Counts, ranks and delays were computed by a script that follows
//! ITU-T H.264, 8.2.1, and the order of showing is that of the tables which an encoder wrote.
use super::*;
use avc_sets::read_sps;
use avc_slices::Slice;
use std::alloc::Global;
use std::test;

/// A slice: whether it is IDR, `nal_ref_idc`, frame number, low part of the count and difference of the bottom field.
type Row = (bool, u8, u32, u32, i32);

fn slice(row: Row) -> Slice {
    Slice {
        idr: row.0,
        ref_idc: row.1,
        pps: 0,
        frame_num: row.2,
        idr_id: 0,
        lsb: row.3,
        bottom: row.4,
    }
}

/// The next count, of the first hundred.
fn next(counts: &mut Counts, row: Row) -> Option<i64> {
    if counts.calls >= 100 {
        return None;
    }
    Some(counts.next(&slice(row)))
}

/// The ranks and the delay, or the picture whose count an earlier one has; of at most a hundred pictures.
fn order(alloc: Global, counts: &[i64], syncs: &[bool]) -> Result<(Vec<u32>, u32), Option<u32>> {
    if counts.len() != syncs.len() || syncs.len() > 100 {
        return Err(None);
    }
    if !syncs.is_empty() && !syncs[0] {
        return Err(None);
    }
    match ranks(alloc, counts, syncs) {
        Ok(ranks) => {
            let delay = delay_of(&ranks, syncs);
            Ok((ranks, delay))
        }
        Err(RankFail::Tie { picture }) => Err(Some(picture)),
        Err(RankFail::NoMemory) => Err(None),
    }
}

const SLICE: Slice = Slice {
    idr: true,
    ref_idc: 3,
    pps: 0,
    frame_num: 0,
    idr_id: 0,
    lsb: 0,
    bottom: 0,
};

#[test]
fn pictures_start(rt: HostRuntime) {
    let other = Slice {
        idr: false,
        ..SLICE
    };
    // the slice before, this one, and whether a picture starts where counts are of type 0, and of type 2
    let rows: [(Slice, Slice, bool, bool); 11] = [
        (SLICE, SLICE, false, false),
        (
            SLICE,
            Slice {
                ref_idc: 1,
                ..SLICE
            },
            false,
            false,
        ),
        (
            SLICE,
            Slice {
                ref_idc: 0,
                ..SLICE
            },
            true,
            true,
        ),
        (
            Slice {
                ref_idc: 0,
                ..SLICE
            },
            SLICE,
            true,
            true,
        ),
        (
            SLICE,
            Slice {
                frame_num: 1,
                ..SLICE
            },
            true,
            true,
        ),
        (SLICE, Slice { pps: 1, ..SLICE }, true, true),
        (SLICE, other, true, true),
        (SLICE, Slice { idr_id: 1, ..SLICE }, true, true),
        (other, Slice { idr_id: 1, ..other }, false, false),
        (SLICE, Slice { lsb: 1, ..SLICE }, true, false),
        (
            SLICE,
            Slice {
                bottom: -1,
                ..SLICE
            },
            true,
            false,
        ),
    ];
    for (last, this, with_order, without) in rows {
        assert!(&rt; starts_picture(&last, &this, 0) == with_order);
        assert!(&rt; starts_picture(&last, &this, 2) == without);
    }
}

/// Types of units in turn, and what is to be known of each: whether it starts another access unit, whether a picture
/// begins with it, whether it is kept.
#[test]
fn access_units_begin(rt: HostRuntime) {
    let first = NalUnit::Coded(SLICE, 0);
    let other = NalUnit::Coded(
        Slice {
            idr: false,
            frame_num: 1,
            ..SLICE
        },
        0,
    );
    let rows: [(NalUnit, bool, bool, bool); 17] = [
        (NalUnit::Delimiter, false, false, false),
        (NalUnit::Set, false, false, false),
        (NalUnit::Sei, false, false, true),
        (first, false, true, true),
        (first, false, false, true),
        (NalUnit::Filler, false, false, false),
        (first, false, false, true),
        (other, true, true, true),
        (NalUnit::Sei, true, false, true),
        (NalUnit::Set, false, false, false),
        // the same slice once more, in an access unit of its own
        (other, false, true, true),
        (NalUnit::End, false, false, false),
        (NalUnit::Set, true, false, false),
        (NalUnit::End, false, false, false),
        (first, false, true, true),
        // no slice comes any more
        (NalUnit::Delimiter, true, false, false),
        (NalUnit::Sei, false, false, true),
    ];
    let mut units = AccessUnits::new();
    for (unit, access_unit, picture, kept) in rows {
        let begins = units.next(&unit);
        assert!(&rt;
            begins
                == Begins {
                    access_unit,
                    picture
                }
        );
        assert!(&rt; unit.is_kept() == kept);
    }
    assert!(&rt; !units.has_picture());
}

/// The first pictures of two films, of which one has counts by fields. The low part has 6 bits.
#[test]
fn counts_of_real_streams(rt: HostRuntime) {
    let films: [(&[u8], &[(Row, i64)]); 2] = [
        (
            b"\x67\x64\0\x0B\xAC\xD9\x42\x8D\xF9\x30\x11\0\0\0\x01\0\0\0\x32\x0F\x14\x29\x96",
            &[
                ((true, 3, 0, 0, 0), 0),
                ((false, 2, 1, 8, 0), 8),
                ((false, 2, 2, 4, 0), 4),
                ((false, 0, 3, 2, 0), 2),
                ((false, 0, 3, 6, 0), 6),
                ((false, 2, 3, 16, 0), 16),
                ((false, 2, 4, 12, 0), 12),
                ((false, 0, 5, 10, 0), 10),
                ((false, 0, 5, 14, 0), 14),
            ],
        ),
        (
            b"\x67\x64\0\x15\xAC\xD9\x43\x08\xFC\xD8\x08\x80\0\x01\xF4\x80\0\x75\x30\x0F\x8A\x14\xCB",
            &[
                ((true, 3, 0, 1, -1), 0),
                ((false, 2, 1, 7, -1), 6),
                ((false, 2, 2, 3, -1), 2),
                ((false, 0, 3, 5, -1), 4),
                ((false, 2, 3, 13, -1), 12),
                ((false, 2, 4, 9, -1), 8),
                ((false, 0, 5, 11, -1), 10),
                ((false, 2, 5, 19, -1), 18),
                ((false, 2, 6, 15, -1), 14),
                ((false, 0, 7, 17, -1), 16),
            ],
        ),
    ];
    for (sps, rows) in films {
        let Ok(sps) = read_sps(sps) else {
            return;
        };
        let mut counts = Counts::new(&sps);
        for (row, count) in rows {
            assert!(&rt; next(&mut counts, *row) == Some(*count));
        }
    }
}

/// The low part has 4 bits.
#[test]
fn counts_of_type_0(rt: HostRuntime) {
    let rows: [(Row, i64); 11] = [
        ((true, 3, 0, 0, 0), 0),
        ((false, 1, 1, 7, 0), 7),
        ((false, 1, 2, 14, 0), 14),
        ((false, 1, 3, 1, 0), 17),
        // no reference: the next high part doesn't come from it
        ((false, 0, 4, 9, 0), 25),
        ((false, 1, 4, 15, -3), 12),
        ((false, 1, 5, 8, 2), 8),
        ((true, 3, 0, 5, -1), 4),
        ((false, 1, 1, 13, 0), 13),
        ((false, 0, 2, 4, 0), 20),
        ((false, 1, 2, 6, 0), 6),
    ];
    let Ok(sps) = read_sps(b"\x67\x42\0\x0A\xF4\xF0") else {
        return;
    };
    let mut counts = Counts::new(&sps);
    for (row, count) in rows {
        assert!(&rt; next(&mut counts, row) == Some(count));
    }
}

/// Frame numbers have 4 bits.
#[test]
fn counts_of_type_2(rt: HostRuntime) {
    let rows: [(Row, i64); 10] = [
        ((true, 3, 0, 0, 0), 0),
        ((false, 1, 1, 0, 0), 2),
        ((false, 0, 2, 0, 0), 3),
        ((false, 1, 2, 0, 0), 4),
        ((false, 1, 15, 0, 0), 30),
        ((false, 1, 0, 0, 0), 32),
        ((false, 0, 1, 0, 0), 33),
        ((false, 1, 1, 0, 0), 34),
        ((true, 3, 0, 0, 0), 0),
        ((false, 0, 1, 0, 0), 1),
    ];
    let Ok(sps) = read_sps(b"\x67\x42\0\x0A\xDA\x79") else {
        return;
    };
    let mut counts = Counts::new(&sps);
    for (row, count) in rows {
        assert!(&rt; next(&mut counts, row) == Some(count));
    }
}

#[test]
fn pictures_have_ranks(rt: HostRuntime) {
    const T: bool = true;
    const F: bool = false;
    let rows: [(&[i64], &[bool], Result<(&[u32], u32), Option<u32>>); 9] = [
        (&[], &[], Ok((&[], 0))),
        (&[0], &[T], Ok((&[0], 0))),
        (&[0, 6, 2, 4], &[T, F, F, F], Ok((&[0, 3, 1, 2], 1))),
        // the first pictures of a film with a pyramid
        (
            &[0, 8, 4, 2, 6, 16, 12, 10, 14],
            &[T, F, F, F, F, F, F, F, F],
            Ok((&[0, 4, 2, 1, 3, 8, 6, 5, 7], 2)),
        ),
        // and those of an interlaced one
        (
            &[0, 6, 2, 4, 12, 8, 10, 18, 14, 16],
            &[T, F, F, F, F, F, F, F, F, F],
            Ok((&[0, 3, 1, 2, 6, 4, 5, 9, 7, 8], 1)),
        ),
        // two sequences with the same counts, and one whose sync picture isn't shown first
        (
            &[0, 4, 2, 0, 4, 2],
            &[T, F, F, T, F, F],
            Ok((&[0, 2, 1, 0, 2, 1], 1)),
        ),
        (&[6, 4, 8], &[T, F, F], Ok((&[1, 0, 2], 1))),
        // the first that an earlier one of its sequence is equal to
        (&[0, 2, 0, 4, 4, 0], &[T, F, T, F, F, F], Err(Some(4))),
        (&[-3, 5, -3, 5], &[T, F, F, F], Err(Some(2))),
    ];
    for (counts, syncs, wanted) in rows {
        match order(rt.alloc(), counts, syncs) {
            Ok((ranks, delay)) => {
                assert!(&rt; wanted == Ok((ranks.as_slice(), delay)));
            }
            Err(picture) => assert!(&rt; wanted == Err(picture)),
        }
    }
}
