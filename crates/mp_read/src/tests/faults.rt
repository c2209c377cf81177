//! Files with faults, each of which is refused for the first of them.

use super::{check_refused, put, refusal};
use mp_ports::Code;
use std::alloc::{AllocError, Global};
use std::process::Abort;
use std::test;

/// A file of one sample of sound with an edit, byte by byte from the standard; a few `free` boxes stand in each box
/// that holds boxes.
const FILE: [u8; 691] = [
    0, 0, 2, 137, 109, 111, 111, 118, 0, 0, 0, 108, 109, 118, 104, 100, 0, 0, 0, 0, 0, 0, 0, 0, 0,
    0, 0, 0, 0, 0, 3, 232, 0, 0, 0, 24, 0, 1, 0, 0, 1, 0, 0, 0, 0, 0, 0, 0, 0, 0, 0, 0, 0, 1, 0, 0,
    0, 0, 0, 0, 0, 0, 0, 0, 0, 0, 0, 0, 0, 1, 0, 0, 0, 0, 0, 0, 0, 0, 0, 0, 0, 0, 0, 0, 64, 0, 0,
    0, 0, 0, 0, 0, 0, 0, 0, 0, 0, 0, 0, 0, 0, 0, 0, 0, 0, 0, 0, 0, 0, 0, 0, 0, 0, 0, 0, 2, 0, 0, 1,
    253, 116, 114, 97, 107, 0, 0, 0, 92, 116, 107, 104, 100, 0, 0, 0, 7, 0, 0, 0, 0, 0, 0, 0, 0, 0,
    0, 0, 1, 0, 0, 0, 0, 0, 0, 0, 24, 0, 0, 0, 0, 0, 0, 0, 0, 0, 0, 0, 0, 1, 0, 0, 0, 0, 1, 0, 0,
    0, 0, 0, 0, 0, 0, 0, 0, 0, 0, 0, 0, 0, 1, 0, 0, 0, 0, 0, 0, 0, 0, 0, 0, 0, 0, 0, 0, 64, 0, 0,
    0, 0, 0, 0, 0, 0, 0, 0, 0, 0, 0, 1, 85, 109, 100, 105, 97, 0, 0, 0, 32, 109, 100, 104, 100, 0,
    0, 0, 0, 0, 0, 0, 0, 0, 0, 0, 0, 0, 0, 172, 68, 0, 0, 4, 0, 85, 196, 0, 0, 0, 0, 0, 33, 104,
    100, 108, 114, 0, 0, 0, 0, 0, 0, 0, 0, 115, 111, 117, 110, 0, 0, 0, 0, 0, 0, 0, 0, 0, 0, 0, 0,
    0, 0, 0, 1, 4, 109, 105, 110, 102, 0, 0, 0, 44, 100, 105, 110, 102, 0, 0, 0, 28, 100, 114, 101,
    102, 0, 0, 0, 0, 0, 0, 0, 1, 0, 0, 0, 12, 117, 114, 108, 32, 0, 0, 0, 1, 0, 0, 0, 8, 102, 114,
    101, 101, 0, 0, 0, 200, 115, 116, 98, 108, 0, 0, 0, 32, 115, 116, 115, 100, 0, 0, 0, 0, 0, 0,
    0, 1, 0, 0, 0, 16, 109, 112, 52, 97, 0, 0, 0, 0, 0, 0, 0, 1, 0, 0, 0, 24, 115, 116, 116, 115,
    0, 0, 0, 0, 0, 0, 0, 1, 0, 0, 0, 1, 0, 0, 4, 0, 0, 0, 0, 28, 115, 116, 115, 99, 0, 0, 0, 0, 0,
    0, 0, 1, 0, 0, 0, 1, 0, 0, 0, 1, 0, 0, 0, 1, 0, 0, 0, 20, 115, 116, 115, 122, 0, 0, 0, 0, 0, 0,
    0, 2, 0, 0, 0, 1, 0, 0, 0, 20, 115, 116, 99, 111, 0, 0, 0, 0, 0, 0, 0, 1, 0, 0, 2, 145, 0, 0,
    0, 24, 99, 116, 116, 115, 0, 0, 0, 0, 0, 0, 0, 1, 0, 0, 0, 1, 0, 0, 0, 0, 0, 0, 0, 20, 115,
    116, 115, 115, 0, 0, 0, 0, 0, 0, 0, 1, 0, 0, 0, 1, 0, 0, 0, 8, 102, 114, 101, 101, 0, 0, 0, 8,
    102, 114, 101, 101, 0, 0, 0, 8, 102, 114, 101, 101, 0, 0, 0, 8, 102, 114, 101, 101, 0, 0, 0, 8,
    102, 114, 101, 101, 0, 0, 0, 52, 101, 100, 116, 115, 0, 0, 0, 28, 101, 108, 115, 116, 0, 0, 0,
    0, 0, 0, 0, 1, 0, 0, 0, 24, 0, 0, 0, 0, 0, 1, 0, 0, 0, 0, 0, 8, 102, 114, 101, 101, 0, 0, 0, 8,
    102, 114, 101, 101, 0, 0, 0, 8, 102, 114, 101, 101, 0, 0, 0, 8, 102, 114, 101, 101, 0, 0, 0, 8,
    102, 114, 101, 101, 0, 0, 0, 8, 102, 114, 101, 101, 0, 0, 0, 8, 102, 114, 101, 101, 0, 0, 0,
    10, 109, 100, 97, 116, 170, 187, 0, 0, 0, 8, 102, 114, 101, 101, 0, 0, 0, 8, 102, 114, 101,
    101, 0, 0, 0, 8, 102, 114, 101, 101, 0, 0, 0, 8, 102, 114, 101, 101,
];

// The places of its boxes. A number tells apart the `free` boxes of one box.

const MVHD: usize = 8;

const TKHD: usize = 124;

const MDIA: usize = 216;

const MDHD: usize = 224;

const HDLR: usize = 256;

const MINF: usize = 289;

const DINF: usize = 297;

const DREF: usize = 305;

const FREE_DINF: usize = 333;

const STBL: usize = 341;

const STSD: usize = 349;

const MP4A: usize = 365;

const STTS: usize = 381;

const STSC: usize = 405;

const STSZ: usize = 433;

const STCO: usize = 453;

const CTTS: usize = 473;

const STSS: usize = 497;

const FREE_STBL0: usize = 517;

const FREE_STBL1: usize = 525;

const FREE_STBL2: usize = 533;

const FREE_MINF: usize = 541;

const FREE_MDIA: usize = 549;

const EDTS: usize = 557;

const ELST: usize = 565;

const FREE_EDTS0: usize = 593;

const FREE_EDTS1: usize = 601;

const FREE_TRAK0: usize = 609;

const FREE_TRAK1: usize = 617;

const FREE_MOOV0: usize = 625;

const FREE_MOOV1: usize = 633;

const FREE_MOOV2: usize = 641;

const MDAT: usize = 649;

const FREE_TOP0: usize = 659;

const FREE_TOP1: usize = 667;

const FREE_TOP2: usize = 675;

const FREE_TOP3: usize = 683;

/// In the order of the checks: a place of the file, the bytes that stand there instead, and the refusal.
const FAULTS: [(usize, &[u8], Code, usize); 59] = [
    (FREE_TOP3, &[0, 0, 0, 9], Code::BoxCut, FREE_TOP3),
    (FREE_TOP0 + 4, &*b"moof", Code::Fragmented, FREE_TOP0),
    (FREE_TOP1 + 4, &*b"!mov", Code::Compressed, FREE_TOP1),
    (FREE_TOP2 + 4, &*b"moov", Code::BoxTwice, FREE_TOP2),
    (FREE_MOOV2, &[0, 0, 0, 9], Code::BoxCut, FREE_MOOV2),
    (FREE_MOOV0 + 4, &*b"mvex", Code::Fragmented, FREE_MOOV0),
    (FREE_MOOV1 + 4, &*b"cmov", Code::Compressed, FREE_MOOV1),
    (MVHD + 4, &*b"none", Code::BoxMissing, MDAT),
    (MVHD + 8, &[2], Code::BoxVersion, MVHD),
    (MVHD + 20, &[0, 0, 0, 0], Code::ScaleZero, MVHD),
    (FREE_TRAK1, &[0, 0, 0, 9], Code::BoxCut, FREE_TRAK1),
    (TKHD + 4, &*b"none", Code::BoxMissing, FREE_MOOV0),
    (MDIA + 4, &*b"none", Code::BoxMissing, FREE_MOOV0),
    (FREE_TRAK0 + 4, &*b"edts", Code::BoxTwice, FREE_TRAK0),
    (TKHD + 8, &[2], Code::BoxVersion, TKHD),
    (TKHD + 20, &[0, 0, 0, 0], Code::TrackId, TKHD),
    (FREE_MDIA, &[0, 0, 0, 9], Code::BoxCut, FREE_MDIA),
    (MDHD + 4, &*b"none", Code::BoxMissing, EDTS),
    (HDLR + 4, &*b"none", Code::BoxMissing, EDTS),
    (MINF + 4, &*b"none", Code::BoxMissing, EDTS),
    (MDHD + 8, &[2], Code::BoxVersion, MDHD),
    (MDHD + 20, &[0, 0, 0, 0], Code::ScaleZero, MDHD),
    (HDLR + 16, &*b"hint", Code::HintTrack, HDLR),
    (FREE_MINF, &[0, 0, 0, 9], Code::BoxCut, FREE_MINF),
    (DINF + 4, &*b"none", Code::BoxMissing, FREE_MDIA),
    (STBL + 4, &*b"none", Code::BoxMissing, FREE_MDIA),
    (FREE_DINF, &[0, 0, 0, 9], Code::BoxCut, FREE_DINF),
    (DREF + 4, &*b"none", Code::BoxMissing, STBL),
    (DREF + 8, &[1], Code::BoxVersion, DREF),
    (DREF + 12, &[0, 0, 0, 2], Code::TableLength, DREF),
    (FREE_STBL2, &[0, 0, 0, 9], Code::BoxCut, FREE_STBL2),
    (STSD + 4, &*b"none", Code::BoxMissing, FREE_MINF),
    (STTS + 4, &*b"none", Code::BoxMissing, FREE_MINF),
    (STSC + 4, &*b"none", Code::BoxMissing, FREE_MINF),
    (STSZ + 4, &*b"none", Code::BoxMissing, FREE_MINF),
    (STCO + 4, &*b"none", Code::BoxMissing, FREE_MINF),
    (FREE_STBL0 + 4, &*b"ctts", Code::BoxTwice, FREE_STBL0),
    (FREE_STBL1 + 4, &*b"stss", Code::BoxTwice, FREE_STBL1),
    (STSD + 8, &[1], Code::BoxVersion, STSD),
    (STSD + 12, &[0, 0, 0, 2], Code::TableLength, STSD),
    (MP4A + 4, &*b"encv", Code::Encrypted, MP4A),
    (STTS + 12, &[0, 0, 0, 2], Code::TableLength, STTS),
    (CTTS + 8, &[2], Code::BoxVersion, CTTS),
    (STSZ + 8, &[1], Code::BoxVersion, STSZ),
    (STTS + 16, &[0, 0, 0, 2], Code::CountMismatch, STTS),
    (CTTS + 16, &[0, 0, 0, 2], Code::CountMismatch, CTTS),
    (STSC + 8, &[1], Code::BoxVersion, STSC),
    (STCO + 12, &[0, 0, 0, 2], Code::TableLength, STCO),
    (STSC + 16, &[0, 0, 0, 2], Code::ChunkMap, STSC),
    (STSS + 8, &[1], Code::BoxVersion, STSS),
    (STSS + 16, &[0, 0, 0, 0], Code::SyncOrder, STSS),
    (STCO + 16, &[255, 255, 255, 255], Code::SampleOutside, STCO),
    (FREE_EDTS1, &[0, 0, 0, 9], Code::BoxCut, FREE_EDTS1),
    (FREE_EDTS0 + 4, &*b"elst", Code::BoxTwice, FREE_EDTS0),
    (ELST + 8, &[2], Code::BoxVersion, ELST),
    (ELST + 11, &[1], Code::EditFlags, ELST),
    (ELST + 12, &[0, 0, 0, 2], Code::TableLength, ELST),
    (ELST + 20, &[255, 255, 255, 254], Code::EditTime, ELST),
    (ELST + 24, &[0, 2, 0, 0], Code::EditRate, ELST),
];

// The file with these faults.
fn file_with(alloc: Global, faults: &[(usize, &[u8], Code, usize)]) -> Result<Vec<u8>, AllocError> {
    let mut bytes = Vec::from_slice(alloc, &FILE)?;
    for (at, new, _, _) in faults {
        put(&mut bytes, *at, new);
    }
    Ok(bytes)
}

// The file with these faults is refused for the first of them.
fn check(
    rt: &impl Abort,
    alloc: Global,
    faults: &[(usize, &[u8], Code, usize)],
) -> Result<(), test::Fail> {
    let bytes = file_with(alloc, faults)?;
    let Some((_, _, code, place)) = faults.first() else {
        return Ok(());
    };
    check_refused(rt, alloc, &bytes, *code, *place)
}

#[test]
fn file_without_faults_is_read(rt: HostRuntime) -> Result<(), test::Fail> {
    assert_eq!(rt; refusal(rt.alloc(), &FILE)?, None);
    Ok(())
}

#[test]
fn each_fault_comes_before_those_behind_it(rt: HostRuntime) -> Result<(), test::Fail> {
    for i in 0..FAULTS.len() {
        check(&rt, rt.alloc(), &FAULTS[i..=i])?;
        check(&rt, rt.alloc(), &FAULTS[i..FAULTS.len().min(i + 2)])?;
        check(&rt, rt.alloc(), &FAULTS[i..])?;
    }
    Ok(())
}

/// Where two boxes are counted and stand, one of them too short for an entry.
#[test]
fn entries_that_are_too_short_are_refused(rt: HostRuntime) -> Result<(), test::Fail> {
    // Behind the length of the data references, which takes in the box behind them, and of the sample entries.
    let references = b"\x24dref\0\0\0\0\0\0\0\x02\0\0\0\x09url \x01\0\0\0\x0Burl \0\0\x01";
    let entries = b"\0\0\0\x02\0\0\0\x08mp4a\0\0\0\x08mp4a";
    for (at, new, place) in [
        (DREF + 3, references.as_slice(), DREF),
        (STSD + 12, entries.as_slice(), STSD),
    ] {
        let mut bytes = Vec::from_slice(rt.alloc(), &FILE)?;
        put(&mut bytes, at, new);
        check_refused(&rt, rt.alloc(), &bytes, Code::TableLength, place)?;
    }
    Ok(())
}
