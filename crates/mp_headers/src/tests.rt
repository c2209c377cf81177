//! Boxes byte by byte, laid out by hand from the tables of ISO/IEC 14496-12 (8.2.2, 8.3.2, 8.4.2, 8.4.3, 8.4.5).

use crate::*;
use mp_boxes::reserve;
use mp_ports::{Bad, Code, NoMemory};
use std::alloc::Global;
use std::test::Fail as TestFail;

// The numbers 1 to 36, so that no two bytes of the matrix are the same.
const MATRIX: [u8; 36] = [
    1, 2, 3, 4, 5, 6, 7, 8, 9, 10, 11, 12, 13, 14, 15, 16, 17, 18, 19, 20, 21, 22, 23, 24, 25, 26,
    27, 28, 29, 30, 31, 32, 33, 34, 35, 36,
];

const MOVIE_NARROW: Mvhd = Mvhd {
    created: 0xA1A2_A3A4,
    modified: 0xB1B2_B3B4,
    timescale: 0xC1C2_C3C4,
    duration: 0xD1D2_D3D4,
    rate: 0xE1E2_E3E4,
    volume: 0xF1F2,
    matrix: MATRIX,
    next_track: 0x8182_8384,
};

const MOVIE_NARROW_BYTES: [u8; 108] = [
    0, 0, 0, 0x6C, b'm', b'v', b'h', b'd', // size, type
    0, 0, 0, 0, // version, flags
    0xA1, 0xA2, 0xA3, 0xA4, // creation
    0xB1, 0xB2, 0xB3, 0xB4, // modification
    0xC1, 0xC2, 0xC3, 0xC4, // timescale
    0xD1, 0xD2, 0xD3, 0xD4, // duration
    0xE1, 0xE2, 0xE3, 0xE4, // rate
    0xF1, 0xF2, // volume
    0, 0, 0, 0, 0, 0, 0, 0, 0, 0, // reserved
    1, 2, 3, 4, 5, 6, 7, 8, 9, 10, 11, 12, 13, 14, 15, 16, 17, 18, 19, 20, 21, 22, 23, 24, 25, 26,
    27, 28, 29, 30, 31, 32, 33, 34, 35, 36, // matrix
    0, 0, 0, 0, 0, 0, 0, 0, 0, 0, 0, 0, 0, 0, 0, 0, 0, 0, 0, 0, 0, 0, 0, 0, // predefined
    0x81, 0x82, 0x83, 0x84, // next track
];

const MOVIE_WIDE: Mvhd = Mvhd {
    created: 0xA1A2_A3A4_A5A6_A7A8,
    modified: 0xB1B2_B3B4_B5B6_B7B8,
    timescale: 0xC1C2_C3C4,
    duration: 0xD1D2_D3D4_D5D6_D7D8,
    rate: 0xE1E2_E3E4,
    volume: 0xF1F2,
    matrix: MATRIX,
    next_track: 0x8182_8384,
};

const MOVIE_WIDE_BYTES: [u8; 120] = [
    0, 0, 0, 0x78, b'm', b'v', b'h', b'd', // size, type
    1, 0, 0, 0, // version, flags
    0xA1, 0xA2, 0xA3, 0xA4, 0xA5, 0xA6, 0xA7, 0xA8, // creation
    0xB1, 0xB2, 0xB3, 0xB4, 0xB5, 0xB6, 0xB7, 0xB8, // modification
    0xC1, 0xC2, 0xC3, 0xC4, // timescale
    0xD1, 0xD2, 0xD3, 0xD4, 0xD5, 0xD6, 0xD7, 0xD8, // duration
    0xE1, 0xE2, 0xE3, 0xE4, // rate
    0xF1, 0xF2, // volume
    0, 0, 0, 0, 0, 0, 0, 0, 0, 0, // reserved
    1, 2, 3, 4, 5, 6, 7, 8, 9, 10, 11, 12, 13, 14, 15, 16, 17, 18, 19, 20, 21, 22, 23, 24, 25, 26,
    27, 28, 29, 30, 31, 32, 33, 34, 35, 36, // matrix
    0, 0, 0, 0, 0, 0, 0, 0, 0, 0, 0, 0, 0, 0, 0, 0, 0, 0, 0, 0, 0, 0, 0, 0, // predefined
    0x81, 0x82, 0x83, 0x84, // next track
];

const TRACK_NARROW: Tkhd = Tkhd {
    flags: 0x91_9293,
    created: 0xA1A2_A3A4,
    modified: 0xB1B2_B3B4,
    number: 0xC1C2_C3C4,
    duration: 0xD1D2_D3D4,
    layer: 0xE1E2,
    group: 0xE3E4,
    volume: 0xF1F2,
    matrix: MATRIX,
    width: 0x8182_8384,
    height: 0x8586_8788,
};

const TRACK_NARROW_BYTES: [u8; 92] = [
    0, 0, 0, 0x5C, b't', b'k', b'h', b'd', // size, type
    0, 0x91, 0x92, 0x93, // version, flags
    0xA1, 0xA2, 0xA3, 0xA4, // creation
    0xB1, 0xB2, 0xB3, 0xB4, // modification
    0xC1, 0xC2, 0xC3, 0xC4, // track number
    0, 0, 0, 0, // reserved
    0xD1, 0xD2, 0xD3, 0xD4, // duration
    0, 0, 0, 0, 0, 0, 0, 0, // reserved
    0xE1, 0xE2, // layer
    0xE3, 0xE4, // alternate group
    0xF1, 0xF2, // volume
    0, 0, // reserved
    1, 2, 3, 4, 5, 6, 7, 8, 9, 10, 11, 12, 13, 14, 15, 16, 17, 18, 19, 20, 21, 22, 23, 24, 25, 26,
    27, 28, 29, 30, 31, 32, 33, 34, 35, 36, // matrix
    0x81, 0x82, 0x83, 0x84, // width
    0x85, 0x86, 0x87, 0x88, // height
];

const TRACK_WIDE: Tkhd = Tkhd {
    flags: 0x91_9293,
    created: 0xA1A2_A3A4_A5A6_A7A8,
    modified: 0xB1B2_B3B4_B5B6_B7B8,
    number: 0xC1C2_C3C4,
    duration: 0xD1D2_D3D4_D5D6_D7D8,
    layer: 0xE1E2,
    group: 0xE3E4,
    volume: 0xF1F2,
    matrix: MATRIX,
    width: 0x8182_8384,
    height: 0x8586_8788,
};

const TRACK_WIDE_BYTES: [u8; 104] = [
    0, 0, 0, 0x68, b't', b'k', b'h', b'd', // size, type
    1, 0x91, 0x92, 0x93, // version, flags
    0xA1, 0xA2, 0xA3, 0xA4, 0xA5, 0xA6, 0xA7, 0xA8, // creation
    0xB1, 0xB2, 0xB3, 0xB4, 0xB5, 0xB6, 0xB7, 0xB8, // modification
    0xC1, 0xC2, 0xC3, 0xC4, // track number
    0, 0, 0, 0, // reserved
    0xD1, 0xD2, 0xD3, 0xD4, 0xD5, 0xD6, 0xD7, 0xD8, // duration
    0, 0, 0, 0, 0, 0, 0, 0, // reserved
    0xE1, 0xE2, // layer
    0xE3, 0xE4, // alternate group
    0xF1, 0xF2, // volume
    0, 0, // reserved
    1, 2, 3, 4, 5, 6, 7, 8, 9, 10, 11, 12, 13, 14, 15, 16, 17, 18, 19, 20, 21, 22, 23, 24, 25, 26,
    27, 28, 29, 30, 31, 32, 33, 34, 35, 36, // matrix
    0x81, 0x82, 0x83, 0x84, // width
    0x85, 0x86, 0x87, 0x88, // height
];

const MEDIA_NARROW: Mdhd = Mdhd {
    created: 0xA1A2_A3A4,
    modified: 0xB1B2_B3B4,
    timescale: 0xC1C2_C3C4,
    duration: 0xD1D2_D3D4,
    language: 0xE1E2,
};

const MEDIA_NARROW_BYTES: [u8; 32] = [
    0, 0, 0, 0x20, b'm', b'd', b'h', b'd', // size, type
    0, 0, 0, 0, // version, flags
    0xA1, 0xA2, 0xA3, 0xA4, // creation
    0xB1, 0xB2, 0xB3, 0xB4, // modification
    0xC1, 0xC2, 0xC3, 0xC4, // timescale
    0xD1, 0xD2, 0xD3, 0xD4, // duration
    0xE1, 0xE2, // language
    0, 0, // predefined
];

const MEDIA_WIDE: Mdhd = Mdhd {
    created: 0xA1A2_A3A4_A5A6_A7A8,
    modified: 0xB1B2_B3B4_B5B6_B7B8,
    timescale: 0xC1C2_C3C4,
    duration: 0xD1D2_D3D4_D5D6_D7D8,
    language: 0xE1E2,
};

const MEDIA_WIDE_BYTES: [u8; 44] = [
    0, 0, 0, 0x2C, b'm', b'd', b'h', b'd', // size, type
    1, 0, 0, 0, // version, flags
    0xA1, 0xA2, 0xA3, 0xA4, 0xA5, 0xA6, 0xA7, 0xA8, // creation
    0xB1, 0xB2, 0xB3, 0xB4, 0xB5, 0xB6, 0xB7, 0xB8, // modification
    0xC1, 0xC2, 0xC3, 0xC4, // timescale
    0xD1, 0xD2, 0xD3, 0xD4, 0xD5, 0xD6, 0xD7, 0xD8, // duration
    0xE1, 0xE2, // language
    0, 0, // predefined
];

const HANDLER_BYTES: [u8; 36] = [
    0, 0, 0, 0x24, b'h', b'd', b'l', b'r', // size, type
    0, 0, 0, 0, // version, flags
    0, 0, 0, 0, // predefined
    b's', b'o', b'u', b'n', // handler
    0, 0, 0, 0, 0, 0, 0, 0, 0, 0, 0, 0, // reserved
    b'A', b'b', b'c', 0, // name
];

const PLACE: u64 = 0x1_0000_0000;

fn refused<T>(code: Code) -> Result<T, Bad> {
    Err(Bad {
        code,
        command: 0,
        file: 0,
        place: PLACE,
    })
}

/// A vector with room for a box of that length.
fn room(alloc: Global, len: u64) -> Result<Vec<u8>, NoMemory> {
    let mut out = Vec::new(alloc);
    reserve(&mut out, u32::try_from(len).unwrap_or(0))?;
    Ok(out)
}

fn body(bytes: &[u8]) -> &[u8] {
    bytes.get(8..).unwrap_or_default()
}

fn without_last(bytes: &[u8]) -> &[u8] {
    bytes.split_last().map_or(&[], |(_, front)| front)
}

#[test]
fn movie_headers(rt: HostRuntime) -> Result<(), TestFail> {
    for (fields, bytes) in [
        (MOVIE_NARROW, &MOVIE_NARROW_BYTES[..]),
        (MOVIE_WIDE, &MOVIE_WIDE_BYTES[..]),
    ] {
        assert_eq!(rt; mvhd_len(&fields), bytes.len() as u64);
        let mut out = room(rt.alloc(), mvhd_len(&fields))?;
        push_mvhd(&fields, &mut out);
        assert_eq!(rt; out.as_slice(), bytes);
        assert_eq!(rt; read_mvhd(body(bytes), PLACE), Ok(fields));
        assert_eq!(rt;
            read_mvhd(without_last(body(bytes)), PLACE),
            refused(Code::TableLength)
        );
    }
    Ok(())
}

#[test]
fn track_headers(rt: HostRuntime) -> Result<(), TestFail> {
    for (fields, bytes) in [
        (TRACK_NARROW, &TRACK_NARROW_BYTES[..]),
        (TRACK_WIDE, &TRACK_WIDE_BYTES[..]),
    ] {
        assert_eq!(rt; tkhd_len(&fields), bytes.len() as u64);
        let mut out = room(rt.alloc(), tkhd_len(&fields))?;
        push_tkhd(&fields, &mut out);
        assert_eq!(rt; out.as_slice(), bytes);
        assert_eq!(rt; read_tkhd(body(bytes), PLACE), Ok(fields));
        assert_eq!(rt;
            read_tkhd(without_last(body(bytes)), PLACE),
            refused(Code::TableLength)
        );
    }
    Ok(())
}

#[test]
fn media_headers(rt: HostRuntime) -> Result<(), TestFail> {
    for (fields, bytes) in [
        (MEDIA_NARROW, &MEDIA_NARROW_BYTES[..]),
        (MEDIA_WIDE, &MEDIA_WIDE_BYTES[..]),
    ] {
        assert_eq!(rt; mdhd_len(&fields), bytes.len() as u64);
        let mut out = room(rt.alloc(), mdhd_len(&fields))?;
        push_mdhd(&fields, &mut out);
        assert_eq!(rt; out.as_slice(), bytes);
        assert_eq!(rt; read_mdhd(body(bytes), PLACE), Ok(fields));
        assert_eq!(rt;
            read_mdhd(without_last(body(bytes)), PLACE),
            refused(Code::TableLength)
        );
    }
    Ok(())
}

// All ones in version 0 say that a time isn't known, so such a time takes version 1.
#[test]
fn version_by_the_longest_time(rt: HostRuntime) {
    let zero = Mdhd {
        created: 0,
        modified: 0,
        timescale: 1,
        duration: 0,
        language: 0x55C4,
    };
    let times = [(0xFFFF_FFFE, 32), (0xFFFF_FFFF, 44), (0x1_0000_0000, 44)];
    for (time, len) in times {
        assert_eq!(rt;
            mdhd_len(&Mdhd {
                created: time,
                ..zero
            }),
            len
        );
        assert_eq!(rt;
            mdhd_len(&Mdhd {
                modified: time,
                ..zero
            }),
            len
        );
        assert_eq!(rt;
            mdhd_len(&Mdhd {
                duration: time,
                ..zero
            }),
            len
        );
    }
}

#[test]
fn handlers(rt: HostRuntime) -> Result<(), TestFail> {
    let mut out = room(rt.alloc(), hdlr_len(b"soun", b"Abc\0"))?;
    push_hdlr(b"soun", b"Abc\0", &mut out);
    assert_eq!(rt; out.as_slice(), HANDLER_BYTES.as_slice());
    assert_eq!(rt; read_hdlr(body(&HANDLER_BYTES), PLACE), Ok(*b"soun"));
    assert_eq!(rt; name_of(body(&HANDLER_BYTES)), b"Abc\0".as_slice());
    // any version, and a name of no bytes
    let mut bytes = [0xEE; 24];
    assert_eq!(rt; read_hdlr(&bytes, PLACE), Ok([0xEE; 4]));
    assert_eq!(rt; name_of(&bytes), b"".as_slice());
    assert_eq!(rt; name_of(without_last(&bytes)), b"".as_slice());
    assert_eq!(rt;
        read_hdlr(without_last(&bytes), PLACE),
        refused(Code::TableLength)
    );
    bytes[8..12].copy_from_slice(b"hint");
    assert_eq!(rt; read_hdlr(&bytes, PLACE), refused(Code::HintTrack));
    assert_eq!(rt;
        read_hdlr(without_last(&bytes), PLACE),
        refused(Code::TableLength)
    );
    Ok(())
}

#[test]
fn first_fault_of_a_header(rt: HostRuntime) {
    let zeros = [0; 112];
    let mut wide = [0; 112];
    wide[0] = 1;
    let mut later = [0; 112];
    later[0] = 2;
    // a body, its length, and what `mvhd`, `tkhd` and `mdhd` answer
    let (short, version) = (Some(Code::TableLength), Some(Code::BoxVersion));
    let scale = Some(Code::ScaleZero);
    let rows = [
        (&later, 0, short, short, short),
        (&later, 3, short, short, short),
        (&later, 4, version, version, version),
        (&later, 112, version, version, version),
        (&zeros, 4, short, short, short),
        (&zeros, 23, short, short, short),
        (&zeros, 24, short, short, scale),
        (&zeros, 83, short, short, scale),
        (&zeros, 84, short, None, scale),
        (&zeros, 99, short, None, scale),
        (&zeros, 100, scale, None, scale),
        (&wide, 35, short, short, short),
        (&wide, 36, short, short, scale),
        (&wide, 95, short, short, scale),
        (&wide, 96, short, None, scale),
        (&wide, 111, short, None, scale),
        (&wide, 112, scale, None, scale),
    ];
    for (bytes, len, movie, track, media) in rows {
        let text = bytes.get(..len).unwrap_or_default();
        assert_eq!(rt; fault(read_mvhd(text, PLACE)), movie, "mvhd of {len}");
        assert_eq!(rt; fault(read_tkhd(text, PLACE)), track, "tkhd of {len}");
        assert_eq!(rt; fault(read_mdhd(text, PLACE)), media, "mdhd of {len}");
    }
}

fn fault<T: Drop>(read: Result<T, Bad>) -> Option<Code> {
    read.err().map(|bad| bad.code)
}

#[test]
fn boxes_without_choice(rt: HostRuntime) -> Result<(), TestFail> {
    let mut out = room(rt.alloc(), ftyp_len())?;
    push_ftyp(&mut out);
    let bytes = b"\0\0\0\x1Cftypisom\0\0\0\x01isomiso4mp42";
    assert_eq!(rt; out.as_slice(), bytes.as_slice());
    for (handler, bytes) in [
        (b"vide", &b"\0\0\0\x14vmhd\0\0\0\x01\0\0\0\0\0\0\0\0"[..]),
        (b"soun", &b"\0\0\0\x10smhd\0\0\0\0\0\0\0\0"[..]),
        (b"subt", &b"\0\0\0\x0Csthd\0\0\0\0"[..]),
        (b"text", &b"\0\0\0\x0Cnmhd\0\0\0\0"[..]),
    ] {
        let mut out = room(rt.alloc(), media_header_len(*handler))?;
        push_media_header(*handler, &mut out);
        assert_eq!(rt; out.as_slice(), bytes);
    }
    Ok(())
}
