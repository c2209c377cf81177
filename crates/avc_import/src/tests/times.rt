//! Times by the timing of a stream, and their limits.

use super::{PYRAMID, folder_of, has, import_file, joined, only_track};
use mp_movie::Movie;
use mp_ports::{Bad, Code, ReadFail};
use std::alloc::Global;
use std::test::Fail;

/// A picture parameter set behind its start code.
const PICTURE_SET: [u8; 8] = [0, 0, 0, 1, 0x68, 0xCE, 0x3C, 0x80];

/// The movie of four pictures by a sequence parameter set, with no rate.
fn timed(alloc: Global, set: &[u8]) -> Result<Result<Movie, ReadFail>, Fail> {
    let mut bytes = joined(alloc, &[0, 0, 1], set)?;
    bytes.extend_from_slice(&PICTURE_SET)?;
    bytes.extend_from_slice(&PYRAMID)?;
    let mut folder = folder_of(alloc, &bytes)?;
    Ok(import_file(alloc, &mut folder, None))
}

/// Whether the movie of these pictures has that scale and each lasts so many ticks.
fn lasts(alloc: Global, set: &[u8], scale: u32, ticks: i64) -> Result<bool, Fail> {
    match timed(alloc, set)? {
        Ok(movie) => Ok(match only_track(&movie) {
            Some(track) => track.scale == scale
                && has(&track.deltas, &[ticks, ticks, ticks, ticks]),
            None => false,
        }),
        Err(_) => Ok(false),
    }
}

#[test]
fn a_picture_lasts_two_ticks(rt: HostRuntime) -> Result<(), Fail> {
    // 1 of 50, 1001 of 60,000, none of 50.
    let rows: [(&[u8], u32, i64); 3] = [
        (
            &[
                0x67, 0x42, 0, 0x0A, 0xF4, 0xF4, 0x20, 0, 0, 3, 0, 0x20, 0, 0, 6, 0x40, 0x80,
            ],
            25,
            1,
        ),
        (
            &[
                0x67, 0x42, 0, 0x0A, 0xF4, 0xF4, 0x20, 0, 0, 0x7D, 0x20, 0, 0x1D, 0x4C, 0, 0x80,
            ],
            30_000,
            1001,
        ),
        (
            &[
                0x67, 0x42, 0, 0x0A, 0xF4, 0xF4, 0x20, 0, 0, 3, 0, 0, 3, 0, 0, 6, 0x40, 0x80,
            ],
            25,
            1,
        ),
    ];
    for (set, scale, ticks) in rows {
        let is = lasts(rt.alloc(), set, scale, ticks)?;
        assert!(rt; is, "{scale}");
    }
    Ok(())
}

#[test]
fn pictures_last_too_long(rt: HostRuntime) -> Result<(), Fail> {
    // 2,147,483,648 and 1,073,741,824 of 1: the second picture is shown three pictures behind its decoding.
    let rows: [(&[u8], Code); 2] = [
        (
            &[
                0x67, 0x42, 0, 0x0A, 0xF4, 0xF4, 0x30, 0, 0, 3, 0, 0, 3, 0, 0, 3, 0, 0x20, 0x80,
            ],
            Code::DeltaLimit,
        ),
        (
            &[
                0x67, 0x42, 0, 0x0A, 0xF4, 0xF4, 0x28, 0, 0, 3, 0, 0, 3, 0, 0, 3, 0, 0x20, 0x80,
            ],
            Code::OffsetLimit,
        ),
    ];
    for (set, code) in rows {
        let is = match timed(rt.alloc(), set)? {
            Err(ReadFail::Bad(bad)) => bad == Bad::at(code, 0),
            _ => false,
        };
        assert!(rt; is, "{code:?}");
    }
    Ok(())
}
