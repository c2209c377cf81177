//! Pairs in memory and made up, and the movies or refusals that they give.

ghost use Rattle.std.specs.Prelude.{◌≡◌, [], length, None, IfOk};

use super::*;
use mp_columns::{Col, Column};
use mp_movie::{Movie, Track};
use mp_pieces::Piece;
use mp_ports::{Bad, Code, Folder, MemFile, MemFolder, OpenFail, PortFault, ReadFail, raise};
use std::alloc::Global;
use std::test::Fail;

/// A table of sound of 1000 ticks a second, and two units of two bytes, 50 ticks apart.
const TWO_UNITS: &[u8] = b"NHnt\0\x05\x40\0\0\0\0\0\0\0\0\0\0\0\0\0\0\0\x03\xE8\
    \0\0\x02\xE0\0\0\0\0\0\0\0\0\0\0\0\0\0\0\x02\xE0\0\0\0\x02\0\0\0\x32\0\0\0\x32";

/// Its sample entry without a configuration, field by field from the standards.
const SOUND_ENTRY: &[u8] = b"\0\0\0\x47mp4a\0\0\0\0\0\0\0\x01\0\0\0\0\0\0\0\0\0\x02\0\x10\0\0\0\0\
    \x03\xE8\0\0\0\0\0\x23esds\0\0\0\0\x03\x15\0\0\0\x04\x0D\x40\x15\0\0\0\0\0\0\0\0\0\0\0\x06\x01\x02";

/// The head of a table of pictures: a buffer of 0x123456 bytes, 0x01020304 bits a second on the average
/// and 0x05060708 at most, 25 ticks a second.
const PICTURES: &[u8] =
    b"NHnl\x09\x04\x20\xAA\xBB\x12\x34\x56\x01\x02\x03\x04\x05\x06\x07\x08\0\0\0\x19";

/// The descriptor in its entry: the greatest rate in front of the average one.
const PICTURES_ESDS: &[u8] = b"\0\0\0\x23esds\0\0\0\0\x03\x15\0\0\0\x04\x0D\x20\x11\x12\x34\x56\
    \x05\x06\x07\x08\x01\x02\x03\x04\x06\x01\x02";

/// A folder of three files, whose calls of these numbers fail; opening them are the first three.
fn folder_of(
    alloc: Global,
    table: &[u8],
    media: usize,
    info: &[u8],
    failing: &[u64],
) -> Result<MemFolder, Fail>
    ensures { IfOk result (λ folder. folder.folder.opened ≡ []) }
{
    let mut files = Vec::new(alloc);
    let mut units = Vec::new(alloc);
    units.resize(media, 0u8)?;
    files.push(MemFile {
        name: String::from_str(alloc, "table")?,
        bytes: Vec::from_slice(alloc, table)?,
    })?;
    files.push(MemFile {
        name: String::from_str(alloc, "media")?,
        bytes: units,
    })?;
    files.push(MemFile {
        name: String::from_str(alloc, "info")?,
        bytes: Vec::from_slice(alloc, info)?,
    })?;
    Ok(MemFolder::new(alloc, files, Vec::from_slice(alloc, failing)?))
}

/// The movie of the pair of a folder, with its `.info` file or without it.
fn import(alloc: Global, folder: &mut MemFolder, with_info: bool) -> Result<Movie, ReadFail>
    requires { folder.old.folder.opened ≡ [] }
{
    let Ok(table) = folder.open("table") else {
        return Err(ReadFail::ReadFault);
    };
    let Ok(media) = folder.open("media") else {
        return Err(ReadFail::ReadFault);
    };
    let Ok(info) = folder.open("info") else {
        return Err(ReadFail::ReadFault);
    };
    if with_info {
        import_nhnt(alloc, folder, table, media, Some(info))
    } else {
        import_nhnt(alloc, folder, table, media, None)
    }
}

/// The one track of a movie.
fn only_track(movie: &Movie) -> Option<&Track> {
    let tracks = movie.tracks();
    if tracks.len() == 1 {
        Some(&tracks[0])
    } else {
        None
    }
}

/// The bytes of the one sample entry of a track, or none.
fn only_entry(track: &Track) -> &[u8] {
    if track.entries.len() == 1 {
        &track.entries[0].bytes
    } else {
        &[]
    }
}

/// The item of a column, or one that no row has.
fn item(column: &Col, i: u32) -> i64 {
    if i < column.len() { column.at(i) } else { -7 }
}

/// So many bytes of the second opened file.
fn piece(from: u64, len: u32) -> Piece {
    Piece {
        file: 1,
        from,
        len,
        prefix: None,
    }
}

/// A sample: how long it lasts, how much later than decoded it is composed, its mark, where it stands and
/// how many bytes it has.
type Sample = (i64, i64, bool, u64, u32);

/// Whether the track has these samples.
fn has(track: &Track, samples: &[Sample]) -> bool {
    let mut i = 0;
    for (delta, offset, sync, from, len) in samples {
        let same = item(&track.deltas, i) == *delta
            && item(&track.offsets, i) == *offset
            && item(&track.syncs, i) == i64::from(*sync)
            && item(&track.kinds, i) == 1
            && item(&track.sizes, i) == i64::from(*len)
            && item(&track.counts, i) == 1
            && track.pieces.get(i as usize) == Some(&piece(*from, *len));
        if !same || i >= 100 {
            return false;
        }
        i += 1;
    }
    i == track.deltas.len()
}

#[test]
fn two_units_are_two_samples(rt: HostRuntime) -> Result<(), Fail> {
    let alloc = rt.alloc();
    let mut folder = folder_of(alloc, TWO_UNITS, 4, &[], &[])?;
    let movie = import(alloc, &mut folder, false).expect(&rt, "a movie");
    assert_eq!(rt; movie.scale(), 1000);
    assert_eq!(rt; movie.head().rate, 0x0001_0000);
    let track = only_track(&movie).expect(&rt, "a track");
    assert_eq!(rt; track.number, 1);
    assert_eq!(rt; track.scale, 1000);
    assert_eq!(rt; track.head.handler, *b"soun");
    assert_eq!(rt; track.head.volume, 0x0100);
    assert!(rt; track.edits.is_none());
    assert_eq!(rt; only_entry(track), SOUND_ENTRY);
    assert!(rt; has(track, &[(50, 0, true, 0, 2), (50, 0, true, 2, 2)]));
    Ok(())
}

#[test]
fn pictures_have_their_entry(rt: HostRuntime) -> Result<(), Fail> {
    let alloc = rt.alloc();
    let mut folder = folder_of(alloc, PICTURES, 0, &[], &[])?;
    let movie = import(alloc, &mut folder, true).expect(&rt, "a movie");
    let track = only_track(&movie).expect(&rt, "a track");
    assert_eq!(rt; track.scale, 25);
    assert_eq!(rt; track.head.handler, *b"vide");
    assert_eq!(rt; track.head.volume, 0);
    assert_eq!(rt; track.deltas.len(), 0);
    let entry = only_entry(track);
    assert_eq!(rt; entry.get(..8), Some(b"\0\0\0\x79mp4v".as_slice()));
    assert_eq!(rt; entry.get(86..), Some(PICTURES_ESDS));
    Ok(())
}

/// The samples of the one track of a movie, or a refusal of the table and its place.
type Answer = Result<&'static [Sample], (Code, u64)>;

/// Whether a table has this answer, with a `.media` file of so many bytes and no `.info` file.
fn has_answer(alloc: Global, table: &[u8], media: usize, wanted: Answer) -> Result<bool, Fail> {
    let mut folder = folder_of(alloc, table, media, &[], &[])?;
    match (import(alloc, &mut folder, false), wanted) {
        (Ok(movie), Ok(samples)) => match only_track(&movie) {
            Some(track) => Ok(has(track, samples)),
            None => Ok(false),
        },
        (Err(ReadFail::Bad(bad)), Err((code, place))) => Ok(bad == Bad::at(code, place)),
        _ => Ok(false),
    }
}

/// Tables, sizes of `.media` files and answers, each worked out by a program of its own in another language
/// that reads whole lists.
type Row = (&'static str, &'static [u8], usize, Answer);

const ROWS: [Row; 37] = [
    (
        "two units",
        b"NHnt\0\x05\x40\0\0\0\0\0\0\0\0\0\0\0\0\0\0\0\x03\xE8\0\0\x02\xE0\0\0\0\0\0\0\0\0\
            \0\0\0\0\0\0\x02\xE0\0\0\0\x02\0\0\0\x32\0\0\0\x32",
        4,
        Ok(&[(50, 0, true, 0, 2), (50, 0, true, 2, 2)]),
    ),
    (
        "a part of a unit",
        b"NHnt\0\x05\x40\0\0\0\0\0\0\0\0\0\0\0\0\0\0\0\x03\xE8\0\0\x02\xE0\0\0\0\0\0\0\0\0\
            \0\0\0\0\0\0\x02\xA0\0\0\0\x02\0\0\0\x32\0\0\0\x32",
        4,
        Err((Code::NhntUnit, 40)),
    ),
    (
        "a start without an end",
        b"NHnt\0\x05\x40\0\0\0\0\0\0\0\0\0\0\0\0\0\0\0\x03\xE8\0\0\x02\xE0\0\0\0\0\0\0\0\0\
            \0\0\0\0\0\0\x02\xC0\0\0\0\x02\0\0\0\x32\0\0\0\x32",
        4,
        Err((Code::NhntUnit, 40)),
    ),
    (
        "a byte less",
        b"NHnt\0\x05\x40\0\0\0\0\0\0\0\0\0\0\0\0\0\0\0\x03\xE8\0\0\x02\xE0\0\0\0\0\0\0\0\0\
            \0\0\0\0\0\0\x02\xE0\0\0\0\x02\0\0\0\x32\0\0\0",
        4,
        Err((Code::NhntCut, 40)),
    ),
    (
        "a short media file",
        b"NHnt\0\x05\x40\0\0\0\0\0\0\0\0\0\0\0\0\0\0\0\x03\xE8\0\0\x02\xE0\0\0\0\0\0\0\0\0\
            \0\0\0\0\0\0\x02\xE0\0\0\0\x02\0\0\0\x32\0\0\0\x32",
        3,
        Err((Code::NhntRange, 40)),
    ),
    (
        "no records",
        b"NHnt\0\x05\x40\0\0\0\0\0\0\0\0\0\0\0\0\0\0\0\x03\xE8",
        0,
        Ok(&[]),
    ),
    (
        "one byte behind the head",
        b"NHnt\0\x05\x40\0\0\0\0\0\0\0\0\0\0\0\0\0\0\0\x03\xE8\0",
        0,
        Err((Code::NhntCut, 24)),
    ),
    (
        "23 bytes",
        b"NHnt\0\x05\x40\0\0\0\0\0\0\0\0\0\0\0\0\0\0\0\x03",
        4,
        Err((Code::NhntHead, 0)),
    ),
    (
        "another signature",
        b"NHnk\0\x05\x40\0\0\0\0\0\0\0\0\0\0\0\0\0\0\0\x03\xE8\0\0\x02\xE0\0\0\0\0\0\0\0\0\
            \0\0\0\0\0\0\x02\xE0\0\0\0\x02\0\0\0\x32\0\0\0\x32",
        4,
        Err((Code::NhntHead, 0)),
    ),
    (
        "scale 0 before the stream type",
        b"NHnt\0\x06\x20\0\0\0\0\0\0\0\0\0\0\0\0\0\0\0\0\0",
        0,
        Err((Code::NhntHead, 0)),
    ),
    (
        "stream type 6",
        b"NHnt\0\x06\x20\0\0\0\0\0\0\0\0\0\0\0\0\0\0\0\x03\xE8",
        0,
        Err((Code::NhntType, 0)),
    ),
    (
        "H.264",
        b"NHnt\0\x04\x21\0\0\0\0\0\0\0\0\0\0\0\0\0\0\0\x03\xE8",
        0,
        Err((Code::NhntType, 0)),
    ),
    (
        "times of 64 bits",
        b"NHnl\0\x04\x20\0\0\0\0\0\0\0\0\0\0\0\0\0\0\x01\x5F\x90\0\0\x01\xFF\0\0\0\0\0\0\0\
            \x02\xFF\xFF\xFF\xFF\xFF\xFF\xFF\xFF\xFF\xFF\xFF\xFF\xFF\xFF\xFF\xFD\0\0\x02\x60\
            \0\0\0\0\0\0\0\x01\xFF\xFF\xFF\xFF\xFF\xFF\xFF\xFC\xFF\xFF\xFF\xFF\xFF\xFF\xFF\
            \xFF",
        3,
        Ok(&[(2, 2, true, 2, 1), (2, -3, false, 1, 2)]),
    ),
    (
        "a place of 64 bits",
        b"NHnl\0\x04\x20\0\0\0\0\0\0\0\0\0\0\0\0\0\0\0\x03\xE8\0\0\x01\xE0\xFF\xFF\xFF\xFF\
            \xFF\xFF\xFF\xFF\0\0\0\0\0\0\0\0\0\0\0\0\0\0\0\0",
        3,
        Err((Code::NhntRange, 24)),
    ),
    (
        "three units",
        b"NHnt\0\x04\x20\0\0\0\0\0\0\0\0\0\0\0\0\0\0\0\x03\xE8\0\0\0\xE0\0\0\0\0\0\0\0\x1E\
            \0\0\0\x0A\0\0\x01\x60\0\0\0\0\0\0\0\x0A\0\0\0\x14\0\0\0\x60\0\0\0\x01\0\0\0\x19\
            \0\0\0\x32",
        1,
        Ok(&[
            (10, 20, true, 0, 0),
            (30, -10, false, 0, 1),
            (30, -25, false, 1, 0),
        ]),
    ),
    (
        "one unit alone",
        b"NHnt\0\x04\x20\0\0\0\0\0\0\0\0\0\0\0\0\0\0\0\x03\xE8\0\0\x01\xE0\0\0\0\0\0\0\0\
            \x07\0\0\0\x09",
        1,
        Ok(&[(0, -2, true, 0, 1)]),
    ),
    (
        "equal decode times",
        b"NHnt\0\x04\x20\0\0\0\0\0\0\0\0\0\0\0\0\0\0\0\x03\xE8\0\0\0\xE0\0\0\0\0\0\0\0\x05\
            \0\0\0\x05\0\0\0\x60\0\0\0\0\0\0\0\x05\0\0\0\x05",
        0,
        Ok(&[(0, 0, true, 0, 0), (0, 0, false, 0, 0)]),
    ),
    (
        "back in decode time, before the range",
        b"NHnt\0\x04\x20\0\0\0\0\0\0\0\0\0\0\0\0\0\0\0\x03\xE8\0\0\0\xE0\0\0\0\0\0\0\0\x05\
            \0\0\0\x05\0\0\x09\x60\0\0\0\x09\0\0\0\x09\0\0\0\x04",
        0,
        Err((Code::NhntOrder, 40)),
    ),
    (
        "back in composition time",
        b"NHnt\0\x04\x20\0\0\0\0\0\0\0\0\0\0\0\0\0\0\0\x03\xE8\0\0\0\xE0\0\0\0\0\0\0\0\x09\
            \0\0\0\x05\0\0\0\x60\0\0\0\0\0\0\0\x05\0\0\0\x06",
        0,
        Ok(&[(1, 4, true, 0, 0), (1, -1, false, 0, 0)]),
    ),
    (
        "a duration of 2^32 - 1",
        b"NHnl\0\x04\x20\0\0\0\0\0\0\0\0\0\0\0\0\0\0\0\x03\xE8\0\0\0\xE0\0\0\0\0\0\0\0\0\0\
            \0\0\0\0\0\0\0\0\0\0\0\0\0\0\0\0\0\0\xE0\0\0\0\0\0\0\0\0\0\0\0\0\xFF\xFF\xFF\xFF\
            \0\0\0\0\xFF\xFF\xFF\xFF",
        0,
        Ok(&[(4294967295, 0, true, 0, 0), (4294967295, 0, true, 0, 0)]),
    ),
    (
        "a duration of 2^32, before an offset",
        b"NHnl\0\x04\x20\0\0\0\0\0\0\0\0\0\0\0\0\0\0\0\x03\xE8\0\0\0\xE0\0\0\0\0\0\0\0\0\
            \xFF\xFF\xFF\xFF\xFF\xFF\xFF\xFF\0\0\0\0\0\0\0\0\0\0\0\xE0\0\0\0\0\0\0\0\0\0\0\0\
            \0\0\0\0\0\0\0\0\0\0\0\0\0\0\0\0\xE0\0\0\0\0\0\0\0\0\0\0\0\0\0\0\0\0\0\0\0\x01\0\
            \0\0\0",
        0,
        Err((Code::DeltaLimit, 0)),
    ),
    (
        "an offset of 2^32",
        b"NHnl\0\x04\x20\0\0\0\0\0\0\0\0\0\0\0\0\0\0\0\x03\xE8\0\0\0\xE0\0\0\0\0\0\0\0\0\0\
            \0\0\x01\0\0\0\0\0\0\0\0\0\0\0\0",
        0,
        Err((Code::OffsetLimit, 0)),
    ),
    (
        "an offset of 2^32 - 1",
        b"NHnl\0\x04\x20\0\0\0\0\0\0\0\0\0\0\0\0\0\0\0\x03\xE8\0\0\0\xE0\0\0\0\0\0\0\0\0\0\
            \0\0\0\xFF\xFF\xFF\xFF\0\0\0\0\0\0\0\0",
        0,
        Ok(&[(0, 4294967295, true, 0, 0)]),
    ),
    (
        "offsets of -1 and 2^31",
        b"NHnl\0\x04\x20\0\0\0\0\0\0\0\0\0\0\0\0\0\0\0\x03\xE8\0\0\0\xE0\0\0\0\0\0\0\0\0\0\
            \0\0\0\0\0\0\0\0\0\0\0\0\0\0\x01\0\0\0\xE0\0\0\0\0\0\0\0\0\0\0\0\0\x80\0\0\x01\0\
            \0\0\0\0\0\0\x01",
        0,
        Err((Code::OffsetLimit, 0)),
    ),
    (
        "offsets of -2^31 and 2^31 - 1",
        b"NHnl\0\x04\x20\0\0\0\0\0\0\0\0\0\0\0\0\0\0\0\x03\xE8\0\0\0\xE0\0\0\0\0\0\0\0\0\0\
            \0\0\0\0\0\0\0\0\0\0\0\x80\0\0\0\0\0\0\xE0\0\0\0\0\0\0\0\0\0\0\0\0\xFF\xFF\xFF\
            \xFF\0\0\0\0\x80\0\0\0",
        0,
        Ok(&[(0, -2147483648, true, 0, 0), (0, 2147483647, true, 0, 0)]),
    ),
    (
        "an offset of -2^64 + 1",
        b"NHnl\0\x04\x20\0\0\0\0\0\0\0\0\0\0\0\0\0\0\0\x03\xE8\0\0\0\xE0\0\0\0\0\0\0\0\0\0\
            \0\0\0\0\0\0\0\xFF\xFF\xFF\xFF\xFF\xFF\xFF\xFF",
        0,
        Err((Code::OffsetLimit, 0)),
    ),
    (
        "a cut record behind one that is refused",
        b"NHnt\0\x04\x20\0\0\0\0\0\0\0\0\0\0\0\0\0\0\0\x03\xE8\0\0\0\x60\0\0\0\0\0\0\0\0\0\
            \0\0\0\0\0\x01\x60\0\0\0\0\0\0\0\0\0\0\0\0\0",
        0,
        Err((Code::NhntRange, 40)),
    ),
    (
        "made up 1",
        b"NHnl\0\x05\x20\0\0\0\0\0\0\0\0\0\0\0\0\0\0\0\x03\xE8\0\0\x73\xFF\0\0\0\0\0\0\0\0\
            \0\0\0\0\0\0\0\x1A\0\0\0\0\0\0\0\0\0\0\x53\x60\0\0\0\0\0\0\0\x73\0\0\0\0\0\0\0\
            \x4B\0\0\0\0\0\0\0\x32\0\0\0\0\0\0",
        198,
        Err((Code::NhntCut, 80)),
    ),
    (
        "made up 2",
        b"NHnt\0\x04\x20\0\0\0\0\0\0\0\0\0\0\0\0\0\0\0\x03\xE8\0\0\x77\xFF\0\0\0\x0D\0\0\
            \x01\x16\0\0\0\xB4\0\0\x28\x7F\0\0\0\x77\0\0\0\xFD\0\0\0\xB4",
        159,
        Ok(&[(0, 98, true, 13, 119), (0, 73, false, 119, 40)]),
    ),
    (
        "made up 3",
        b"NHnt\0\x04\x20\0\0\0\0\0\0\0\0\0\0\0\0\0\0\0\x03\xE8\0\0\xC1\xFF\0\0\0\0\0\0\0\
            \x54\0\0\0\0\0\0\x58\xE3\0\0\x02\xC1\0\0\0\x6C\0\0\0\x28\0\0\x71\x7F\0\0\x01\x19\
            \0\0\0\xA8\0\0\0\x50\0\0\x36\x60\0\0\x01\x8A\0\0\0\xC4\0\0\0\x82",
        448,
        Err((Code::NhntRange, 40)),
    ),
    (
        "made up 4",
        b"NHnl\0\x05\x20\0\0\0\0\0\0\0\0\0\0\0\0\0\0\0\x03\xE8\0\0\x78\x40\0\0\0\0\0\0\0\0\
            \0\0\0\0\0\0\0\x57\0\0\0\0\0\0\0\0\0\0\x46\xE3\0\0\0\0\0\0\0\x78\0\0\0\0\0\0\0\
            \x32\0\0\0\0\0\0\0\x32\0\0\xBB\xE0\0\0\0\0\0\0\0\xC9\0\0\0\0\0\0\0\xAB\0\0\0\0\0\
            \0\0\x64\0\0\0\0\0\0\0\0\0\0",
        377,
        Err((Code::NhntUnit, 24)),
    ),
    (
        "made up 5",
        b"NHnt\0\x05\x20\0\0\0\0\0\0\0\0\0\0\0\0\0\0\0\x03\xE8\0\0\x57\xE0\0\0\0\0\0\0\0\
            \x28\0\0\0\0",
        86,
        Err((Code::NhntRange, 24)),
    ),
    (
        "made up 6",
        b"NHnl\0\x04\x20\0\0\0\0\0\0\0\0\0\0\0\0\0\0\0\x03\xE8\0\x01\x0F\xE3\0\0\0\0\0\0\0\
            \0\0\0\0\0\0\0\0\x2F\0\0\0\0\0\0\0\0",
        270,
        Err((Code::NhntRange, 24)),
    ),
    (
        "made up 7",
        b"NHnl\0\x04\x20\0\0\0\0\0\0\0\0\0\0\0\0\0\0\0\x03\xE8\0\0\x45\xE0\0\0\0\0\0\0\0\0\
            \0\0\0\0\0\0\x03\x72\0\0\0\0\0\0\x03\x6B\0\0\x67\x60\0\0\0\0\0\0\0\x45\0\0\0\0\0\
            \0\x03\xD9\0\0\0\0\0\0\x03\x9D\0\0\x08\xE0\0\0\0\0\0\0\0\xAC\0\0\0\0\0\0\x04\x03\
            \0\0\0\0\0\0\x03\xCF\0\0\xF7\x7F\0\0\0\0\0\0\0\xB4\0\0\0\0\0\0\x03\xE9\0\0\0\0\0\
            \0\x03\xCF",
        427,
        Ok(&[
            (50, 7, true, 0, 69),
            (50, 60, false, 69, 103),
            (0, 52, true, 172, 8),
            (0, 26, false, 180, 247),
        ]),
    ),
    (
        "made up 8",
        b"NHnt\0\x05\x20\0\0\0\0\0\0\0\0\0\0\0\0\0\0\0\x03\xE8\0\0\x26\x60\0\0\0\0\0\0\0\
            \xBF\0\0\0\x7A\0\0\0\0\0\0\0\0\0",
        38,
        Err((Code::NhntCut, 40)),
    ),
    (
        "made up 9",
        b"NHnt\0\x04\x20\0\0\0\0\0\0\0\0\0\0\0\0\0\0\0\x03\xE8\0\0\xC6\x60\0\0\0\0\0\0\x03\
            \x6A\0\0\x03\x47\0\0\x72\x7F\0\0\x01\x7C\0\0\x03\x8B\0\0\x03\x4A",
        311,
        Err((Code::NhntRange, 40)),
    ),
    (
        "made up 10",
        b"NHnt\0\x05\x20\0\0\0\0\0\0\0\0\0\0\0\0\0\0\0\x03\xE8\0\x01\x2B\x60\0\0\0\0\0\0\
            \x02\xE7\0\0\x02\xA3\0\0\xFD\xFF\0\0\x01\x2B\0\0\x02\xAA\0\0\x02\xA6\0\0\0\0\0\0\
            \0\0\0\0\0\0\0",
        552,
        Err((Code::NhntCut, 56)),
    ),
];

#[test]
fn each_pair_has_its_answer(rt: HostRuntime) -> Result<(), Fail> {
    for (what, table, media, wanted) in ROWS {
        assert!(rt; has_answer(rt.alloc(), table, media, wanted)?, "{what}");
    }
    Ok(())
}

/// How long the entry is with a configuration of so many bytes: two descriptors around it have lengths of
/// one to three bytes, and its own descriptor, too, where it stands.
#[test]
fn a_configuration_stands_in_the_entry(rt: HostRuntime) -> Result<(), Fail> {
    let alloc = rt.alloc();
    for (count, len) in [(0, 71), (1, 74), (65_536, 65_615)] {
        let mut info = Vec::new(alloc);
        info.resize(count, 0xABu8)?;
        let mut folder = folder_of(alloc, TWO_UNITS, 4, &info, &[])?;
        let movie = import(alloc, &mut folder, true).expect(&rt, "a movie");
        let track = only_track(&movie).expect(&rt, "a track");
        assert_eq!(rt; only_entry(track).len(), len);
    }
    let mut info = Vec::new(alloc);
    info.resize(65_537, 0u8)?;
    let mut folder = folder_of(
        alloc,
        TWO_UNITS.get(..55).unwrap_or(b"short"),
        4,
        &info,
        &[],
    )?;
    let bad = Bad {
        code: Code::NhntHead,
        command: 0,
        file: 2,
        place: 0,
    };
    let answer = import(alloc, &mut folder, true);
    assert!(rt; matches!(answer, Err(ReadFail::Bad(found)) if found == bad));
    Ok(())
}

/// A table of 5,000 records is read by two calls, and an `.info` file by one, behind those that open files.
#[test]
fn each_failed_read_is_answered(rt: HostRuntime) -> Result<(), Fail> {
    let alloc = rt.alloc();
    let mut table = Vec::from_slice(alloc, TWO_UNITS.get(..24).unwrap_or(b"short"))?;
    for _ in 0..5000 {
        table.extend_from_slice(b"\0\0\0\xE0\0\0\0\0\0\0\0\0\0\0\0\0")?;
    }
    for call in 4..7 {
        let mut folder = folder_of(alloc, &table, 0, &[1], &[call])?;
        let answer = import(alloc, &mut folder, true);
        assert!(rt; matches!(answer, Err(ReadFail::ReadFault)));
    }
    let mut folder = folder_of(alloc, &table, 0, &[1], &[7])?;
    let movie = import(alloc, &mut folder, true).expect(&rt, "a movie");
    assert_eq!(rt; movie.samples(), 5000);
    Ok(())
}

/// Opened files of these sizes that tell none of their bytes, all 0 behind the first ones. Reads of the
/// second file fail.
#[derive(Drop)]
struct LongFiles {
    front: Vec<u8>,
    sizes: Vec<u64>,
    faults: u64,
    output: Option<String>,
    finished: bool,
}

impl Folder for LongFiles {
    ghost use Rattle.std.specs.Prelude.{map, option_map, string_bytes};

    ghost state = { λ s. record {
      held = None;
      opened = map (λ size. record { name = []; size = size; bytes = None }) s.sizes.items;
      output = option_map (λ name. record { name = string_bytes name; finished = s.finished }) s.output;
      written = None;
      read_faults = s.faults;
      write_faults = 0;
      misses = 0;
    } };

    fn open(&mut self, _name: &str) -> Result<u32, OpenFail> {
        Err(OpenFail::NoMemory)
    }

    fn size(&self, file: u32) -> u64 {
        self.sizes[file as usize]
    }

    #[tactic(auto, using(crate::proofs::TestFiles::untold))]
    fn read_at(&mut self, file: u32, from: u64, into: &mut [u8]) -> Result<(), PortFault> {
        if file == 1 {
            raise(&mut self.faults);
            return Err(PortFault);
        }
        let mut at = from as usize;
        for byte in into.iter_mut() {
            *byte = self.front.get(at).copied().unwrap_or(0);
            at = at.wrapping_add(1);
        }
        Ok(())
    }

    fn create(&mut self, name: String) -> Result<(), PortFault> {
        self.output = Some(name);
        self.finished = false;
        Ok(())
    }

    fn append(&mut self, _piece: &[u8]) -> Result<(), PortFault> {
        Ok(())
    }

    fn finish(&mut self) -> Result<(), PortFault> {
        self.finished = true;
        Ok(())
    }
}

/// The movie of a table of so many bytes, 0 behind the first ones, and a `.media` file of 2^50 bytes.
fn import_long(alloc: Global, front: &[u8], size: u64) -> Result<Movie, ReadFail> {
    let mut folder = LongFiles {
        front: Vec::from_slice(alloc, front)?,
        sizes: Vec::from_slice(alloc, &[size, 1 << 50])?,
        faults: 0,
        output: None,
        finished: false,
    };
    import_nhnt(alloc, &mut folder, 0, 1, None)
}

#[test]
fn the_media_file_is_not_read(rt: HostRuntime) {
    let movie = import_long(rt.alloc(), TWO_UNITS, 56).expect(&rt, "a movie");
    let track = only_track(&movie).expect(&rt, "a track");
    assert!(rt; has(track, &[(50, 0, true, 0, 2), (50, 0, true, 2, 2)]));
}

#[test]
fn too_many_records_come_before_their_faults(rt: HostRuntime) {
    let rows = [
        (234_881_048, Code::NhntUnit, 24),
        (234_881_075, Code::NhntUnit, 24),
        (234_881_076, Code::SampleLimit, 0),
    ];
    for (size, code, place) in rows {
        let answer = import_long(rt.alloc(), PICTURES, size);
        assert!(rt; matches!(answer, Err(ReadFail::Bad(bad)) if bad == Bad::at(code, place)));
    }
}
