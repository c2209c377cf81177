//! Movies and refusals of files that are made by small changes.

use super::first_bytes::FILE as SOUND;
use super::spellings::{FILE, check};
use super::{check_refused, put, read, read_failing};
use mp_ports::{Code, ReadFail};
use std::alloc::{AllocError, Global};
use std::test;

// A movie box of the file of sound's `mvhd` and these boxes.
fn moov_of(alloc: Global, boxes: &[u8]) -> Result<Vec<u8>, AllocError> {
    let len = u32::try_from(boxes.len().saturating_add(116)).unwrap_or(0);
    let mut bytes = Vec::from_slice(alloc, &len.to_be_bytes())?;
    bytes.extend_from_slice(b"moov")?;
    bytes.extend_from_slice(&SOUND[36..144])?;
    bytes.extend_from_slice(boxes)?;
    Ok(bytes)
}

// That file's track, with this number and so many samples of 2 bytes.
fn track_of(alloc: Global, number: u8, samples: u32) -> Result<Vec<u8>, AllocError> {
    let mut bytes = Vec::from_slice(alloc, &SOUND[144..568])?;
    put(&mut bytes, 31, &[number]);
    put(&mut bytes, 348, &samples.to_be_bytes());
    put(&mut bytes, 400, &samples.to_be_bytes());
    Ok(bytes)
}

#[test]
fn more_than_64_tracks_are_refused(rt: HostRuntime) -> Result<(), test::Fail> {
    let alloc = rt.alloc();
    let mut boxes = Vec::new(alloc);
    for _ in 0..64 {
        boxes.extend_from_slice(b"\0\0\0\x08trak")?;
    }
    check_refused(&rt, alloc, &moov_of(alloc, &boxes)?, Code::BoxMissing, 124)?;
    boxes.extend_from_slice(b"\0\0\0\x08trak")?;
    check_refused(&rt, alloc, &moov_of(alloc, &boxes)?, Code::TrackLimit, 0)?;
    Ok(())
}

#[test]
fn samples_of_all_tracks_are_counted(rt: HostRuntime) -> Result<(), test::Fail> {
    let alloc = rt.alloc();
    // Alone the most samples are too many for its one chunk.
    let most = track_of(alloc, 2, 8_388_608)?;
    check_refused(&rt, alloc, &moov_of(alloc, &most)?, Code::ChunkMap, 472)?;
    let mut both = track_of(alloc, 1, 1)?;
    both.extend_from_slice(&track_of(alloc, 2, 8_388_607)?)?;
    check_refused(&rt, alloc, &moov_of(alloc, &both)?, Code::ChunkMap, 896)?;
    let mut more = track_of(alloc, 1, 1)?;
    more.extend_from_slice(&most)?;
    check_refused(&rt, alloc, &moov_of(alloc, &more)?, Code::SampleLimit, 0)?;
    Ok(())
}

#[test]
fn two_tracks_of_one_number_are_refused(rt: HostRuntime) -> Result<(), test::Fail> {
    let alloc = rt.alloc();
    let mut both = track_of(alloc, 1, 1)?;
    both.extend_from_slice(&track_of(alloc, 1, 1)?)?;
    check_refused(&rt, alloc, &moov_of(alloc, &both)?, Code::TrackId, 548)?;
    Ok(())
}

// The places of boxes of the file in seldom spellings.
const STZ2: usize = 342;

const CO64: usize = 364;

const STSC: usize = 396;

const STTS: usize = 452;

const CTTS: usize = 484;

#[test]
fn changed_spellings_are_refused(rt: HostRuntime) -> Result<(), test::Fail> {
    // A place of the file, the bytes that stand there instead, and the refusal.
    let cases: [(usize, &[u8], Code, usize); 6] = [
        (CO64 + 16, &[255; 8], Code::SampleOutside, CO64),
        (STZ2 + 15, &[5], Code::TableLength, STZ2),
        (STZ2 + 8, &[1], Code::BoxVersion, STZ2),
        (CTTS + 8, &[2], Code::BoxVersion, CTTS),
        (CTTS + 27, &[1], Code::CountMismatch, CTTS),
        (CTTS + 27, &[3], Code::CountMismatch, CTTS),
    ];
    for (at, new, code, place) in cases {
        let mut bytes = Vec::from_slice(rt.alloc(), &FILE)?;
        put(&mut bytes, at, new);
        check_refused(&rt, rt.alloc(), &bytes, code, place)?;
    }
    Ok(())
}

/// The chunks of two samples differ in their entries alone.
#[test]
fn chunks_of_other_entries_are_read(rt: HostRuntime) -> Result<(), test::Fail> {
    let mut bytes = Vec::from_slice(rt.alloc(), &FILE)?;
    for at in [STTS + 19, CTTS + 27, STSC + 23] {
        put(&mut bytes, at, &[1]);
    }
    put(&mut bytes, STZ2 + 19, &[2]);
    let Ok(movie) = read(rt.alloc(), &bytes)? else {
        panic!(&rt; "a refusal");
    };
    if let Some(track) = movie.tracks().first() {
        check(
            &rt,
            track,
            &[(10, -5, 0, 2, 1, 1097), (0, 20, 0, 1, 2, 1102)],
        );
    }
    Ok(())
}

/// The heads at the top and the movie box are read by a call each, behind the one that opens the file.
#[test]
fn each_failed_read_is_answered(rt: HostRuntime) -> Result<(), test::Fail> {
    for call in 2..4 {
        let answer = read_failing(rt.alloc(), &FILE, &[call])?;
        assert!(&rt; matches!(answer, Err(ReadFail::ReadFault)));
    }
    assert!(&rt; read_failing(rt.alloc(), &FILE, &[4])?.is_ok());
    Ok(())
}
