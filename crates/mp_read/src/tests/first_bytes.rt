//! A file of one sample of sound, its first bytes, and its fields changed.

use super::{check_refused, put};
use mp_ports::Code;
use std::test;

/// The file, byte by byte from the standard: `ftyp` of 28 bytes, `moov` of 540, `mdat` of 10.
pub(super) const FILE: [u8; 578] = [
    0, 0, 0, 28, 102, 116, 121, 112, 105, 115, 111, 109, 0, 0, 0, 1, 105, 115, 111, 109, 105, 115,
    111, 52, 109, 112, 52, 50, 0, 0, 2, 28, 109, 111, 111, 118, 0, 0, 0, 108, 109, 118, 104, 100,
    0, 0, 0, 0, 0, 0, 0, 0, 0, 0, 0, 0, 0, 0, 3, 232, 0, 0, 0, 24, 0, 1, 0, 0, 1, 0, 0, 0, 0, 0, 0,
    0, 0, 0, 0, 0, 0, 1, 0, 0, 0, 0, 0, 0, 0, 0, 0, 0, 0, 0, 0, 0, 0, 1, 0, 0, 0, 0, 0, 0, 0, 0, 0,
    0, 0, 0, 0, 0, 64, 0, 0, 0, 0, 0, 0, 0, 0, 0, 0, 0, 0, 0, 0, 0, 0, 0, 0, 0, 0, 0, 0, 0, 0, 0,
    0, 0, 0, 0, 0, 2, 0, 0, 1, 168, 116, 114, 97, 107, 0, 0, 0, 92, 116, 107, 104, 100, 0, 0, 0, 3,
    0, 0, 0, 0, 0, 0, 0, 0, 0, 0, 0, 1, 0, 0, 0, 0, 0, 0, 0, 24, 0, 0, 0, 0, 0, 0, 0, 0, 0, 0, 0,
    0, 1, 0, 0, 0, 0, 1, 0, 0, 0, 0, 0, 0, 0, 0, 0, 0, 0, 0, 0, 0, 0, 1, 0, 0, 0, 0, 0, 0, 0, 0, 0,
    0, 0, 0, 0, 0, 64, 0, 0, 0, 0, 0, 0, 0, 0, 0, 0, 0, 0, 0, 1, 68, 109, 100, 105, 97, 0, 0, 0,
    32, 109, 100, 104, 100, 0, 0, 0, 0, 0, 0, 0, 0, 0, 0, 0, 0, 0, 0, 172, 68, 0, 0, 4, 0, 85, 196,
    0, 0, 0, 0, 0, 33, 104, 100, 108, 114, 0, 0, 0, 0, 0, 0, 0, 0, 115, 111, 117, 110, 0, 0, 0, 0,
    0, 0, 0, 0, 0, 0, 0, 0, 0, 0, 0, 0, 251, 109, 105, 110, 102, 0, 0, 0, 16, 115, 109, 104, 100,
    0, 0, 0, 0, 0, 0, 0, 0, 0, 0, 0, 36, 100, 105, 110, 102, 0, 0, 0, 28, 100, 114, 101, 102, 0, 0,
    0, 0, 0, 0, 0, 1, 0, 0, 0, 12, 117, 114, 108, 32, 0, 0, 0, 1, 0, 0, 0, 191, 115, 116, 98, 108,
    0, 0, 0, 91, 115, 116, 115, 100, 0, 0, 0, 0, 0, 0, 0, 1, 0, 0, 0, 75, 109, 112, 52, 97, 0, 0,
    0, 0, 0, 0, 0, 1, 0, 0, 0, 0, 0, 0, 0, 0, 0, 2, 0, 16, 0, 0, 0, 0, 172, 68, 0, 0, 0, 0, 0, 39,
    101, 115, 100, 115, 0, 0, 0, 0, 3, 25, 0, 0, 0, 4, 17, 64, 21, 0, 0, 0, 0, 0, 0, 0, 0, 0, 0, 0,
    5, 2, 18, 16, 6, 1, 2, 0, 0, 0, 24, 115, 116, 116, 115, 0, 0, 0, 0, 0, 0, 0, 1, 0, 0, 0, 1, 0,
    0, 4, 0, 0, 0, 0, 28, 115, 116, 115, 99, 0, 0, 0, 0, 0, 0, 0, 1, 0, 0, 0, 1, 0, 0, 0, 1, 0, 0,
    0, 1, 0, 0, 0, 20, 115, 116, 115, 122, 0, 0, 0, 0, 0, 0, 0, 2, 0, 0, 0, 1, 0, 0, 0, 20, 115,
    116, 99, 111, 0, 0, 0, 0, 0, 0, 0, 1, 0, 0, 2, 64, 0, 0, 0, 10, 109, 100, 97, 116, 170, 187,
];

// The places of its tables.
const STTS: usize = 476;

const STSC: usize = 500;

const STSZ: usize = 528;

const STCO: usize = 548;

// What the first `n` bytes are refused for, if they are.
fn fault_of_first(n: usize) -> Option<(Code, usize)> {
    match n {
        0 => Some((Code::BoxMissing, 0)),
        1..=27 => Some((Code::BoxCut, 0)),
        28 => Some((Code::BoxMissing, 28)),
        29..=567 => Some((Code::BoxCut, 28)),
        568 => Some((Code::SampleOutside, 548)),
        569..=577 => Some((Code::BoxCut, 568)),
        _ => None,
    }
}

#[test]
fn first_bytes_are_refused(rt: HostRuntime) -> Result<(), test::Fail> {
    for n in 0..FILE.len() {
        if let Some((code, place)) = fault_of_first(n) {
            check_refused(&rt, rt.alloc(), &FILE[..n], code, place)?;
        }
    }
    Ok(())
}

#[test]
fn changed_fields_are_refused(rt: HostRuntime) -> Result<(), test::Fail> {
    let all = [255; 4];
    // A place of the file, the bytes that stand there instead, and the refusal.
    let cases: [(usize, &[u8], Code, usize); 5] = [
        (STTS + 16, &[0, 0, 0, 2], Code::CountMismatch, 476),
        (STSC + 20, &all, Code::ChunkMap, 500),
        (STCO + 12, &all, Code::TableLength, 548),
        (STCO + 16, &all, Code::SampleOutside, 548),
        (STSZ + 12, &[0, 0, 0, 3], Code::SampleOutside, 548),
    ];
    for (at, new, code, place) in cases {
        let mut bytes = Vec::from_slice(rt.alloc(), &FILE)?;
        put(&mut bytes, at, new);
        check_refused(&rt, rt.alloc(), &bytes, code, place)?;
    }
    Ok(())
}

#[test]
fn too_many_samples_are_refused(rt: HostRuntime) -> Result<(), test::Fail> {
    let mut bytes = Vec::from_slice(rt.alloc(), &FILE)?;
    put(&mut bytes, STTS + 16, &[255; 4]);
    put(&mut bytes, STSZ + 12, &[0, 0, 0, 1, 255, 255, 255, 255]);
    check_refused(&rt, rt.alloc(), &bytes, Code::SampleLimit, 0)
}

#[test]
fn fragments_behind_a_whole_movie_are_refused(rt: HostRuntime) -> Result<(), test::Fail> {
    let mut bytes = Vec::from_slice(rt.alloc(), &FILE)?;
    bytes.extend_from_slice(&[0, 0, 0, 8, b'm', b'o', b'o', b'f'])?;
    check_refused(&rt, rt.alloc(), &bytes, Code::Fragmented, 578)
}
