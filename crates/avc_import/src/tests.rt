//! Streams made by hand, and the movies or refusals that they give. What is wanted was computed by a script that reads
//! ITU-T H.264 by itself, and that agrees with the tables which an encoder wrote for the same pictures.

ghost use Rattle.std.specs.Prelude.{◌≡◌, [], IfOk, IfSome};
ghost use Rattle.avc_import.specs.Movie.{IsRate};

mod faults;
mod stream;
mod times;
mod too_many;
mod whole;

use super::*;
use mp_columns::{Col, Column};
use mp_movie::{Movie, Track};
use mp_ports::{Bad, Code, Folder, MemFile, MemFolder, OpenFail, ReadFail};
use mp_timeline::Segment;
use std::alloc::Global;
use std::test::Fail;

/// A sequence parameter set of pictures of 16 by 16 with counts of type 2, a picture parameter set, an IDR picture.
const ONE: [u8; 25] = [
    0, 0, 0, 1, 0x67, 0x42, 0, 0x0A, 0xDA, 0x79, 0, 0, 0, 1, 0x68, 0xCE, 0x38, 0x80, 0, 0, 1, 0x65,
    0x88, 0x84, 0x80,
];

/// The sets of pictures with counts of type 0.
const SETS: [u8; 18] = [
    0, 0, 0, 1, 0x67, 0x42, 0, 0x0A, 0xF4, 0xF2, 0, 0, 0, 1, 0x68, 0xCE, 0x38, 0x80,
];

/// Counts 0, 6, 2, 4.
const PYRAMID: [u8; 32] = [
    0, 0, 0, 1, 0x65, 0x88, 0x84, 0x0C, 0, 0, 0, 1, 0x41, 0x88, 0x8B, 0x30, 0, 0, 0, 1, 0x01, 0x88,
    0x91, 0x60, 0, 0, 0, 1, 0x01, 0x88, 0x92, 0x60,
];

/// Counts 0, 4, 2, and again.
const TWO_GROUPS: [u8; 48] = [
    0, 0, 0, 1, 0x65, 0x88, 0x84, 0x0C, 0, 0, 0, 1, 0x41, 0x88, 0x8A, 0x30, 0, 0, 0, 1, 0x01, 0x88,
    0x91, 0x60, 0, 0, 0, 1, 0x65, 0x88, 0x82, 0x03, 0, 0, 0, 1, 0x41, 0x88, 0x8A, 0x30, 0, 0, 0, 1,
    0x01, 0x88, 0x91, 0x60,
];

/// Counts 0, 2, 2.
const TIE: [u8; 24] = [
    0, 0, 0, 1, 0x65, 0x88, 0x84, 0x0C, 0, 0, 0, 1, 0x01, 0x88, 0x89, 0x60, 0, 0, 0, 1, 0x41, 0x88,
    0x89, 0x30,
];

/// Supplemental information in front of the first of two pictures, and behind the last.
const MESSAGES: [u8; 34] = [
    0, 0, 0, 1, 6, 5, 1, 0xAA, 0x80, 0, 0, 0, 1, 0x65, 0x88, 0x84, 0x0C, 0, 0, 0, 1, 0x41, 0x88,
    0x89, 0x30, 0, 0, 0, 1, 6, 5, 1, 0xBB, 0x80,
];

const RATE: Rate = Rate { num: 25, den: 1 };

/// A folder of one file.
fn folder_of(alloc: Global, bytes: &[u8]) -> Result<MemFolder, Fail>
    ensures { IfOk result (λ folder. folder.folder.opened ≡ []) }
{
    let mut files = Vec::new(alloc);
    files.push(MemFile {
        name: String::from_str(alloc, "v")?,
        bytes: Vec::from_slice(alloc, bytes)?,
    })?;
    Ok(MemFolder::new(alloc, files, Vec::new(alloc)))
}

/// The movie of the one file of a folder.
fn import_file(alloc: Global, folder: &mut MemFolder, rate: Option<Rate>) -> Result<Movie, ReadFail>
    requires none { folder.old.folder.opened ≡ [] }
    requires rate { IfSome rate IsRate }
{
    match folder.open("v") {
        Ok(file) => import_avc(alloc, folder, file, rate),
        Err(OpenFail::NoMemory) => Err(ReadFail::NoMemory),
        Err(_) => Err(ReadFail::ReadFault),
    }
}

/// The movie of these bytes.
fn movie_of(alloc: Global, bytes: &[u8], rate: Rate) -> Result<Result<Movie, ReadFail>, Fail>
    requires { IsRate rate }
{
    let mut folder = folder_of(alloc, bytes)?;
    Ok(import_file(alloc, &mut folder, Some(rate)))
}

/// One list behind another.
fn joined(alloc: Global, front: &[u8], behind: &[u8]) -> Result<Vec<u8>, Fail> {
    let mut bytes = Vec::from_slice(alloc, front)?;
    bytes.extend_from_slice(behind)?;
    Ok(bytes)
}

/// Whether a column has these numbers.
fn has(column: &Col, numbers: &[i64]) -> bool {
    let mut i = 0;
    for number in numbers {
        if i >= column.len() || column.at(i) != *number {
            return false;
        }
        i += 1;
    }
    i == column.len()
}

/// The one track of a movie.
fn only_track(movie: &Movie) -> Option<&Track> {
    let tracks = movie.tracks();
    if tracks.len() == 1 {
        Some(&tracks[0])
    } else {
        None
    }
}

/// The start and the duration of the one edit of a track.
fn only_edit(track: &Track) -> Option<(u64, u64)> {
    match &track.edits {
        None => None,
        Some(list) => match list.as_slice() {
            [Segment::Media { start, dur }] => Some((*start, *dur)),
            _ => None,
        },
    }
}

/// Offsets, marks of sync pictures, sizes and numbers of pieces, start and duration of the edit.
#[derive(Drop)]
struct Shown<'a> {
    offsets: &'a [i64],
    syncs: &'a [i64],
    sizes: &'a [i64],
    counts: &'a [i64],
    edit: Option<(u64, u64)>,
}

/// Whether the movie of pictures of count type 0, 25 a second, is so.
fn is_film(movie: &Movie, shown: &Shown<'_>) -> bool {
    let Some(track) = only_track(movie) else {
        return false;
    };
    movie.scale() == 1000
        && track.scale == 25
        && has(&track.offsets, shown.offsets)
        && has(&track.syncs, shown.syncs)
        && has(&track.sizes, shown.sizes)
        && has(&track.counts, shown.counts)
        && only_edit(track) == shown.edit
}

/// Whether the movie of these pictures, behind the sets for counts of type 0, is so.
fn is_shown(alloc: Global, pictures: &[u8], shown: &Shown<'_>) -> Result<bool, Fail> {
    let bytes = joined(alloc, &SETS, pictures)?;
    match movie_of(alloc, &bytes, RATE)? {
        Ok(movie) => Ok(is_film(&movie, shown)),
        Err(_) => Ok(false),
    }
}

#[test]
fn pictures_are_shown_by_their_counts(rt: HostRuntime) -> Result<(), Fail> {
    let shown = Shown {
        offsets: &[1, 3, 0, 0],
        syncs: &[1, 0, 0, 0],
        sizes: &[8, 8, 8, 8],
        counts: &[1, 1, 1, 1],
        edit: Some((1, 160)),
    };
    let is = is_shown(rt.alloc(), &PYRAMID, &shown)?;
    assert!(rt; is);
    Ok(())
}

#[test]
fn each_sequence_is_shown_by_itself(rt: HostRuntime) -> Result<(), Fail> {
    let shown = Shown {
        offsets: &[1, 2, 0, 1, 2, 0],
        syncs: &[1, 0, 0, 1, 0, 0],
        sizes: &[8, 8, 8, 8, 8, 8],
        counts: &[1, 1, 1, 1, 1, 1],
        edit: Some((1, 240)),
    };
    let is = is_shown(rt.alloc(), &TWO_GROUPS, &shown)?;
    assert!(rt; is);
    Ok(())
}

#[test]
fn messages_stand_in_front_of_their_picture(rt: HostRuntime) -> Result<(), Fail> {
    let shown = Shown {
        offsets: &[0, 0],
        syncs: &[1, 0],
        sizes: &[17, 8],
        counts: &[2, 1],
        edit: None,
    };
    let is = is_shown(rt.alloc(), &MESSAGES, &shown)?;
    assert!(rt; is);
    Ok(())
}

/// The body of the configuration of `ONE`.
const BODY: [u8; 21] = [
    1, 0x42, 0, 0x0A, 0xFF, 0xE1, 0, 6, 0x67, 0x42, 0, 0x0A, 0xDA, 0x79, 1, 0, 4, 0x68, 0xCE, 0x38,
    0x80,
];

/// Whether the movie is that of the one picture of 16 by 16.
fn is_one(movie: &Movie) -> bool {
    let Some(track) = only_track(movie) else {
        return false;
    };
    movie.scale() == 1000
        && track.scale == 25
        && track.head.width == 16 << 16
        && track.head.height == 16 << 16
        && has(&track.deltas, &[1])
        && has(&track.sizes, &[8])
        && track.edits.is_none()
        && track.entries.len() == 1
        && track.entries[0].bytes.ends_with(&BODY)
}

#[test]
fn one_picture(rt: HostRuntime) -> Result<(), Fail> {
    let movie = movie_of(rt.alloc(), &ONE, RATE)?.expect(&rt, "a movie");
    assert!(rt; is_one(&movie));
    Ok(())
}

/// `ONE` with another byte at that place.
fn with(place: usize, byte: u8) -> [u8; 25] {
    let mut bytes = ONE;
    if place < 25 {
        bytes[place] = byte;
    }
    bytes
}

/// Whether the bytes are refused so.
fn is_refused(alloc: Global, bytes: &[u8], rate: Rate, code: Code, place: u64) -> Result<bool, Fail>
    requires { IsRate rate }
{
    match movie_of(alloc, bytes, rate)? {
        Err(ReadFail::Bad(bad)) => Ok(bad == Bad::at(code, place)),
        _ => Ok(false),
    }
}

#[test]
fn first_faults(rt: HostRuntime) -> Result<(), Fail> {
    let rows: [(&[u8], Code, u64); 10] = [
        (&with(21, 0x01), Code::FirstNotIdr, 21),
        (&with(21, 0x05), Code::SliceSyntax, 21),
        (&with(21, 0x6E), Code::UnitType, 21),
        (&ONE[..18], Code::NoPicture, 0),
        (&[0, 0, 1, 0, 0, 1], Code::UnitFraming, 3),
        (&[0, 0, 1, 9, 0x10, 0, 0, 0, 2], Code::UnitFraming, 8),
        (&[0, 0, 1, 0x41, 0, 0, 0, 2], Code::SliceSyntax, 3),
        (&[0, 0, 0], Code::NoPicture, 0),
        (&[], Code::NoPicture, 0),
        (&[0, 0, 1, 9, 0x10, 0, 0, 0, 1, 0x67], Code::SetSyntax, 9),
    ];
    for (bytes, code, place) in rows {
        let is = is_refused(rt.alloc(), bytes, RATE, code, place)?;
        assert!(rt; is, "{place}");
    }
    Ok(())
}

#[test]
fn faults_of_sets(rt: HostRuntime) -> Result<(), Fail> {
    let alloc = rt.alloc();
    let rows: [(&[u8], &[u8], Code, u64); 4] = [
        (&ONE[..10], &ONE[18..], Code::SetMissing, 13),
        (&SETS, &TIE, Code::PocTie, 38),
        (
            &ONE,
            &[0, 0, 1, 0x67, 0x42, 0, 0x0B, 0xDA, 0x79],
            Code::SetChange,
            28,
        ),
        (
            &ONE,
            &[0, 0, 1, 0x68, 0xCE, 0x38, 0xC0],
            Code::SetChange,
            28,
        ),
    ];
    for (front, behind, code, place) in rows {
        let bytes = joined(alloc, front, behind)?;
        let is = is_refused(alloc, &bytes, RATE, code, place)?;
        assert!(rt; is, "{place}");
    }
    Ok(())
}

#[test]
fn no_movie_has_so_many_ticks(rt: HostRuntime) -> Result<(), Fail> {
    let bytes = joined(rt.alloc(), &SETS, &PYRAMID)?;
    // The scale would be 1000 times this prime number.
    let rate = Rate {
        num: 4_294_967_291,
        den: 1,
    };
    let is = is_refused(rt.alloc(), &bytes, rate, Code::ScaleLimit, 0)?;
    assert!(rt; is);
    Ok(())
}

/// The end of the configuration of `ONE` with a second picture parameter set.
const TWO_SETS: [u8; 13] = [
    2, 0, 4, 0x68, 0xCE, 0x38, 0x80, 0, 4, 0x68, 0x53, 0x8F, 0x20,
];

#[test]
fn sets_behind_the_last_picture_are_kept(rt: HostRuntime) -> Result<(), Fail> {
    // A delimiter and a set: they are in no sample.
    let bytes = joined(
        rt.alloc(),
        &ONE,
        &[0, 0, 1, 9, 0x10, 0, 0, 1, 0x68, 0x53, 0x8F, 0x20],
    )?;
    let movie = movie_of(rt.alloc(), &bytes, RATE)?.expect(&rt, "a movie");
    let is = match only_track(&movie) {
        Some(track) => {
            has(&track.sizes, &[8])
                && track.entries.len() == 1
                && track.entries[0].bytes.ends_with(&TWO_SETS)
        }
        None => false,
    };
    assert!(rt; is);
    Ok(())
}
