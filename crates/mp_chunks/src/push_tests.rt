//! Boxes of chunks, each laid out by hand from the tables of ISO/IEC 14496-12, 8.7.3 to 8.7.5.

use crate::{
    ChunkHead, chunk_offsets_len, push_chunk_offsets, push_stsc, push_stsz, stsc_len, stsz_len,
};
use mp_boxes::reserve;
use mp_columns::{Col, Column};
use std::process::Abort;
use std::test;

fn head(place: u64, samples: u32, entry: u32) -> ChunkHead {
    ChunkHead {
        place,
        samples,
        entry,
    }
}

#[test]
fn rows_stand_where_chunks_differ(rt: HostRuntime) {
    let chunks = [
        head(100, 2, 1),
        head(200, 2, 1),
        head(300, 2, 2),
        head(400, 1, 2),
        head(500, 1, 2),
    ];
    let wanted: [u8; 52] = [
        0, 0, 0, 52, b's', b't', b's', b'c', 0, 0, 0, 0, 0, 0, 0, 3, //
        0, 0, 0, 1, 0, 0, 0, 2, 0, 0, 0, 1, //
        0, 0, 0, 3, 0, 0, 0, 2, 0, 0, 0, 2, //
        0, 0, 0, 4, 0, 0, 0, 1, 0, 0, 0, 2,
    ];
    let mut out = Vec::new(rt.alloc());
    reserve(&mut out, 52).expect(&rt, "memory");
    push_stsc(&chunks, &mut out);
    assert!(&rt; out.as_slice() == wanted.as_slice());
    assert_eq!(&rt; stsc_len(&chunks), 52);
}

#[test]
fn places_have_4_or_8_bytes(rt: HostRuntime) {
    let chunks = [ChunkHead {
        place: 258,
        samples: 1,
        entry: 1,
    }];
    let wanted: [u8; 44] = [
        0, 0, 0, 20, b's', b't', b'c', b'o', 0, 0, 0, 0, 0, 0, 0, 1, 0, 0, 1, 2, //
        0, 0, 0, 24, b'c', b'o', b'6', b'4', 0, 0, 0, 0, 0, 0, 0, 1, 0, 0, 0, 0, 0, 0, 1, 2,
    ];
    let mut out = Vec::new(rt.alloc());
    reserve(&mut out, 44).expect(&rt, "memory");
    push_chunk_offsets(&chunks, false, &mut out);
    push_chunk_offsets(&chunks, true, &mut out);
    assert!(&rt; out.as_slice() == wanted.as_slice());
    assert_eq!(&rt;
        (chunk_offsets_len(1, false), chunk_offsets_len(1, true)),
        (20, 24)
    );
}

#[test]
fn sizes_are_one_or_listed(rt: HostRuntime) {
    let wanted: [u8; 52] = [
        0, 0, 0, 20, b's', b't', b's', b'z', 0, 0, 0, 0, 0, 0, 0, 7, 0, 0, 0, 2, //
        0, 0, 0, 32, b's', b't', b's', b'z', 0, 0, 0, 0, 0, 0, 0, 0, 0, 0, 0, 3, //
        0, 0, 0, 7, 0, 0, 0, 7, 0, 0, 0, 8,
    ];
    let mut sizes = Col::new(rt.alloc());
    let mut out = Vec::new(rt.alloc());
    reserve(&mut out, 52).expect(&rt, "memory");
    sizes.push(7).expect(&rt, "memory");
    sizes.push(7).expect(&rt, "memory");
    push_stsz(&sizes, &mut out);
    assert_eq!(&rt; stsz_len(&sizes), 20);
    sizes.push(8).expect(&rt, "memory");
    push_stsz(&sizes, &mut out);
    assert_eq!(&rt; stsz_len(&sizes), 32);
    assert!(&rt; out.as_slice() == wanted.as_slice());
}
