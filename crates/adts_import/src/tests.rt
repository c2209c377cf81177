//! Files in memory and made up, and the movies or refusals that they give.

ghost use Rattle.std.specs.Prelude.{◌≡◌, [], ◌∷◌, length, None, IfOk};

use super::*;
use mp_columns::{Col, Column};
use mp_movie::{Movie, Track};
use mp_pieces::Piece;
use mp_ports::{Bad, Code, Folder, MemFile, MemFolder, OpenFail, PortFault, ReadFail};
use std::alloc::Global;
use std::test::Fail;

/// A frame of two bytes: AAC LC, 44,100 Hz, stereo.
const FRAME: [u8; 9] = [0xFF, 0xF1, 0x50, 0x80, 0x01, 0x3F, 0xFC, 0xAA, 0xBB];

/// The sample entry of such a stream, field by field from the standards.
const ENTRY: [u8; 75] = [
    0, 0, 0, 75, b'm', b'p', b'4', b'a', 0, 0, 0, 0, 0, 0, 0, 1, 0, 0, 0, 0, 0, 0, 0, 0, 0, 2, 0,
    16, 0, 0, 0, 0, 0xAC, 0x44, 0, 0, 0, 0, 0, 39, b'e', b's', b'd', b's', 0, 0, 0, 0, 3, 0x19, 0,
    0, 0, 4, 0x11, 0x40, 0x15, 0, 0, 0, 0, 0, 0, 0, 0, 0, 0, 0, 5, 2, 0x12, 0x10, 6, 1, 2,
];

/// A folder of one file, whose calls of these numbers fail; opening it is the first.
fn folder_of(alloc: Global, bytes: &[u8], failing: &[u64]) -> Result<MemFolder, Fail>
    ensures { IfOk result (λ folder. folder.folder.opened ≡ []) }
{
    let mut files = Vec::new(alloc);
    files.push(MemFile {
        name: String::from_str(alloc, "a")?,
        bytes: Vec::from_slice(alloc, bytes)?,
    })?;
    Ok(MemFolder::new(alloc, files, Vec::from_slice(alloc, failing)?))
}

/// The movie of the one file of a folder.
fn import(alloc: Global, folder: &mut MemFolder) -> Result<Movie, ReadFail>
    requires { folder.old.folder.opened ≡ [] }
{
    match folder.open("a") {
        Ok(file) => import_adts(alloc, folder, file),
        Err(OpenFail::NoMemory) => Err(ReadFail::NoMemory),
        Err(_) => Err(ReadFail::ReadFault),
    }
}

/// The one track of a movie.
fn only_track(movie: &Movie) -> Option<&Track> {
    let tracks = movie.tracks();
    if tracks.len() == 1 {
        Some(&tracks[0])
    } else {
        None
    }
}

/// Whether a column has these numbers.
fn has(column: &Col, numbers: &[i64]) -> bool {
    let mut i = 0;
    for number in numbers {
        if i >= column.len() || column.at(i) != *number {
            return false;
        }
        i += 1;
    }
    i == column.len()
}

/// The number of samples of a movie and their bytes joined, where these are the file's.
fn joined(alloc: Global, bytes: &[u8], movie: &Movie) -> Result<(usize, Vec<u8>), Fail> {
    let mut joined = Vec::new(alloc);
    let mut count = 0usize;
    for track in movie.tracks() {
        count = count.wrapping_add(track.deltas.len() as usize);
        for piece in &track.pieces {
            let from = piece.from as usize;
            let payload = bytes.get(from..from.wrapping_add(piece.len as usize));
            joined.extend_from_slice(payload.unwrap_or(b"outside"))?;
        }
    }
    Ok((count, joined))
}

/// The same of the movie of a file in memory, or its refusal.
fn payloads(alloc: Global, bytes: &[u8]) -> Result<Result<(usize, Vec<u8>), ReadFail>, Fail> {
    let mut folder = folder_of(alloc, bytes, &[])?;
    match import(alloc, &mut folder) {
        Ok(movie) => Ok(Ok(joined(alloc, bytes, &movie)?)),
        Err(fail) => Ok(Err(fail)),
    }
}

fn refused(code: Code, place: u64) -> Result<(usize, &'static [u8]), Bad> {
    Err(Bad::at(code, place))
}

#[test]
fn one_frame_is_one_sample(rt: HostRuntime) -> Result<(), Fail> {
    let alloc = rt.alloc();
    let movie = import(alloc, &mut folder_of(alloc, &FRAME, &[])?).expect(&rt, "a movie");
    assert_eq!(rt; movie.scale(), 1000);
    assert_eq!(rt; movie.head().rate, 0x0001_0000);
    let track = only_track(&movie).expect(&rt, "a track");
    assert_eq!(rt; track.number, 1);
    assert_eq!(rt; track.scale, 44100);
    assert_eq!(rt; track.head.handler, *b"soun");
    assert_eq!(rt; track.head.volume, 0x0100);
    assert!(rt; track.edits.is_none());
    assert_eq!(rt; track.entries.len(), 1);
    assert_eq!(rt; track.entries[0].bytes.as_slice(), ENTRY.as_slice());
    assert!(rt; has(&track.deltas, &[1024]));
    assert!(rt; has(&track.offsets, &[0]));
    assert!(rt; has(&track.syncs, &[1]));
    assert!(rt; has(&track.kinds, &[1]));
    assert!(rt; has(&track.sizes, &[2]));
    assert!(rt; has(&track.counts, &[1]));
    assert_eq!(rt; track.pieces.as_slice(), [piece(7, 2)].as_slice());
    Ok(())
}

/// So many bytes of the first opened file.
fn piece(from: u64, len: u32) -> Piece {
    Piece {
        file: 0,
        from,
        len,
        prefix: None,
    }
}

#[test]
fn each_file_has_its_answer(rt: HostRuntime) -> Result<(), Fail> {
    let alloc = rt.alloc();
    let rows: [(&str, &[u8], Result<(usize, &[u8]), Bad>); 24] = [
        ("one frame", &FRAME, Ok((1, &[0xAA, 0xBB]))),
        (
            "two frames",
            b"\xFF\xF1\x50\x80\x01\x3F\xFC\xAA\xBB\xFF\xF1\x50\x80\x01\x3F\xFC\xAA\xBB",
            Ok((2, &[0xAA, 0xBB, 0xAA, 0xBB])),
        ),
        (
            "two lengths",
            b"\xFF\xF1\x50\x80\x01\x3F\xFC\xAA\xBB\xFF\xF1\x50\x80\x01\x5F\xFC\xAA\xBB\xCC",
            Ok((2, &[0xAA, 0xBB, 0xAA, 0xBB, 0xCC])),
        ),
        (
            "a check word",
            b"\xFF\xF0\x50\x80\x01\x7F\xFC\x12\x34\xAA\xBB",
            Ok((1, &[0xAA, 0xBB])),
        ),
        ("no payload", b"\xFF\xF1\x50\x80\x00\xFF\xFC", Ok((1, &[]))),
        ("no bytes", &[], refused(Code::AdtsEmpty, 0)),
        (
            "six bytes",
            b"\xFF\xF1\x50\x80\x01\x3F",
            refused(Code::AdtsCut, 0),
        ),
        (
            "eight of nine bytes",
            b"\xFF\xF1\x50\x80\x01\x3F\xFC\xAA",
            refused(Code::AdtsCut, 0),
        ),
        (
            "sync",
            b"\xFE\xF1\x50\x80\x01\x3F\xFC\xAA\xBB",
            refused(Code::AdtsSync, 0),
        ),
        (
            "layer",
            b"\xFF\xF3\x50\x80\x01\x3F\xFC\xAA\xBB",
            refused(Code::AdtsLayer, 0),
        ),
        (
            "index 13",
            b"\xFF\xF1\x74\x80\x01\x3F\xFC\xAA\xBB",
            refused(Code::AdtsRate, 0),
        ),
        (
            "channels 0",
            b"\xFF\xF1\x50\x00\x01\x3F\xFC\xAA\xBB",
            refused(Code::AdtsChannels, 0),
        ),
        (
            "two blocks",
            b"\xFF\xF1\x50\x80\x01\x3F\xFD\xAA\xBB",
            refused(Code::AdtsBlocks, 0),
        ),
        (
            "length 6",
            b"\xFF\xF1\x50\x80\x00\xDF\xFC\xAA\xBB",
            refused(Code::AdtsCut, 0),
        ),
        (
            "length 8 with a check word",
            b"\xFF\xF0\x50\x80\x01\x1F\xFC\x12\x34",
            refused(Code::AdtsCut, 0),
        ),
        (
            "another profile",
            b"\xFF\xF1\x50\x80\x01\x3F\xFC\xAA\xBB\xFF\xF1\x10\x80\x01\x3F\xFC\xAA\xBB",
            refused(Code::AdtsChange, 9),
        ),
        (
            "another frequency",
            b"\xFF\xF1\x50\x80\x01\x3F\xFC\xAA\xBB\xFF\xF1\x4C\x80\x01\x3F\xFC\xAA\xBB",
            refused(Code::AdtsChange, 9),
        ),
        (
            "another number of channels",
            b"\xFF\xF1\x50\x80\x01\x3F\xFC\xAA\xBB\xFF\xF1\x50\x40\x01\x3F\xFC\xAA\xBB",
            refused(Code::AdtsChange, 9),
        ),
        (
            "three bytes behind a frame",
            b"\xFF\xF1\x50\x80\x01\x3F\xFC\xAA\xBB\xFF\xF1\x50",
            refused(Code::AdtsCut, 9),
        ),
        (
            "a tag behind a frame",
            b"\xFF\xF1\x50\x80\x01\x3F\xFC\xAA\xBBTAG-title",
            refused(Code::AdtsSync, 9),
        ),
        (
            "a tag in front",
            b"ID3\x04\x00\x00\x00",
            refused(Code::AdtsSync, 0),
        ),
        (
            "cut before blocks",
            b"\xFF\xF1\x50\x80\x01\x5F\xFD\xAA\xBB",
            refused(Code::AdtsCut, 0),
        ),
        (
            "blocks before a change",
            b"\xFF\xF1\x50\x80\x01\x3F\xFC\xAA\xBB\xFF\xF1\x4C\x80\x01\x3F\xFD\xAA\xBB",
            refused(Code::AdtsBlocks, 9),
        ),
        (
            "the first of two faults",
            b"\xFF\xF1\x50\x80\x01\x3F\xFD\xAA\xBB\xFE\xF1\x50\x80\x01\x3F\xFC\xAA\xBB",
            refused(Code::AdtsBlocks, 0),
        ),
    ];
    for (what, bytes, wanted) in rows {
        match payloads(alloc, bytes)? {
            Ok((count, joined)) => {
                assert_eq!(rt; Ok((count, joined.as_slice())), wanted, "{what}");
            }
            Err(ReadFail::Bad(bad)) => assert_eq!(rt; Err(bad), wanted, "{what}"),
            Err(_) => assert!(rt; false, "{what}"),
        }
    }
    Ok(())
}

#[test]
fn frames_follow_one_another(rt: HostRuntime) -> Result<(), Fail> {
    let alloc = rt.alloc();
    let mut bytes = Vec::from_slice(alloc, &FRAME)?;
    bytes.extend_from_slice(b"\xFF\xF0\x50\x80\x01\x7F\xFC\x12\x34\xAA\xBB")?;
    bytes.extend_from_slice(&FRAME)?;
    let movie = import(alloc, &mut folder_of(alloc, &bytes, &[])?).expect(&rt, "a movie");
    let track = only_track(&movie).expect(&rt, "a track");
    assert!(rt; has(&track.deltas, &[1024, 1024, 1024]));
    assert!(rt; has(&track.offsets, &[0, 0, 0]));
    assert!(rt; has(&track.syncs, &[1, 1, 1]));
    let places = [piece(7, 2), piece(18, 2), piece(27, 2)];
    assert_eq!(rt; track.pieces.as_slice(), places.as_slice());
    Ok(())
}

/// A frame of this header and length, each byte of its payload this one.
fn frame_of(alloc: Global, header: &[u8], len: usize, byte: u8) -> Result<Vec<u8>, Fail> {
    let mut frame = Vec::from_slice(alloc, header)?;
    frame.resize(len, byte)?;
    Ok(frame)
}

/// The header of a frame of 4,096 bytes.
const PAGE: &[u8] = b"\xFF\xF1\x50\x82\x00\x1F\xFC";

/// Streams of three windows: headers that lie across the end of a window, and frames that end at it.
#[test]
fn frames_go_on_over_windows(rt: HostRuntime) -> Result<(), Fail> {
    let alloc = rt.alloc();
    let rows: [(&[u8], usize, u8); 5] = [
        (b"\xFF\xF1\x50\x80\x7D\x1F\xFC", 1000, 150),
        (b"\xFF\xF1\x50\x80\xFF\xFF\xFC", 2047, 75),
        (PAGE, 4096, 40),
        (b"\xFF\xF1\x50\x83\x33\x3F\xFC", 6553, 25),
        (b"\xFF\xF1\x50\x83\xFF\xFF\xFC", 8191, 20),
    ];
    for (header, len, frames) in rows {
        let mut bytes = Vec::new(alloc);
        let mut wanted = Vec::new(alloc);
        for number in 0..frames {
            let frame = frame_of(alloc, header, len, number)?;
            bytes.extend_from_slice(&frame)?;
            wanted.extend_from_slice(frame.get(7..).unwrap_or(b"short"))?;
        }
        match payloads(alloc, &bytes)? {
            Ok((samples, joined)) => {
                assert_eq!(rt; samples, frames as usize);
                assert!(rt; joined.as_slice() == wanted.as_slice());
            }
            Err(_) => assert!(rt; false, "a stream of frames of {len} bytes"),
        }
    }
    Ok(())
}

#[test]
fn a_fault_behind_the_first_window_has_its_place(rt: HostRuntime) -> Result<(), Fail> {
    let alloc = rt.alloc();
    let mut bytes = Vec::new(alloc);
    for _ in 0..20 {
        bytes.extend_from_slice(&frame_of(alloc, PAGE, 4096, 0)?)?;
    }
    bytes.extend_from_slice(b"\xFF\xF1\x50")?;
    let answer = import(alloc, &mut folder_of(alloc, &bytes, &[])?);
    assert!(rt; matches!(answer, Err(ReadFail::Bad(bad)) if bad == Bad::at(Code::AdtsCut, 81_920)));
    Ok(())
}

/// A stream of three windows is read by three calls behind the one that opens it.
#[test]
fn each_failed_read_is_answered(rt: HostRuntime) -> Result<(), Fail> {
    let alloc = rt.alloc();
    let mut bytes = Vec::new(alloc);
    for _ in 0..40 {
        bytes.extend_from_slice(&frame_of(alloc, PAGE, 4096, 0)?)?;
    }
    for call in 2..5 {
        let answer = import(alloc, &mut folder_of(alloc, &bytes, &[call])?);
        assert!(rt; matches!(answer, Err(ReadFail::ReadFault)));
    }
    let answer = import(alloc, &mut folder_of(alloc, &bytes, &[5])?);
    assert!(rt; answer.is_ok());
    Ok(())
}

/// A file that tells none of its bytes. It counts its reads.
#[derive(Drop)]
struct Untold {
    bytes: Vec<u8>,
    reads: u64,
    output: Option<String>,
    finished: bool,
}

impl Folder for Untold {
    ghost use Rattle.std.specs.Prelude.{option_map, string_bytes};

    ghost state = { λ s. record {
      held = None;
      opened = record { name = []; size = length s.bytes.items; bytes = None } ∷ [];
      output = option_map (λ name. record { name = string_bytes name; finished = s.finished }) s.output;
      written = None;
      read_faults = 0;
      write_faults = 0;
      misses = 0;
    } };

    fn open(&mut self, _name: &str) -> Result<u32, OpenFail> {
        Err(OpenFail::NoMemory)
    }

    fn size(&self, _file: u32) -> u64 {
        self.bytes.len() as u64
    }

    fn read_at(&mut self, _file: u32, from: u64, into: &mut [u8]) -> Result<(), PortFault> {
        self.reads = self.reads.wrapping_add(1);
        let from = from as usize;
        into.copy_from_slice(&self.bytes[from..from + into.len()]);
        Ok(())
    }

    fn create(&mut self, name: String) -> Result<(), PortFault> {
        self.output = Some(name);
        self.finished = false;
        Ok(())
    }

    fn append(&mut self, _piece: &[u8]) -> Result<(), PortFault> {
        Ok(())
    }

    fn finish(&mut self) -> Result<(), PortFault> {
        self.finished = true;
        Ok(())
    }
}

#[test]
fn a_file_that_tells_nothing_is_read(rt: HostRuntime) -> Result<(), Fail> {
    let alloc = rt.alloc();
    let mut bytes = Vec::new(alloc);
    for _ in 0..40 {
        bytes.extend_from_slice(&frame_of(alloc, PAGE, 4096, 0)?)?;
    }
    let mut folder = Untold {
        bytes,
        reads: 0,
        output: None,
        finished: false,
    };
    let movie = import_adts(alloc, &mut folder, 0).expect(&rt, "a movie");
    let track = only_track(&movie).expect(&rt, "a track");
    assert_eq!(rt; track.pieces.len(), 40);
    assert!(rt; track.pieces.last() == Some(&piece(159_751, 4089)));
    // A window holds sixteen frames.
    assert_eq!(rt; folder.reads, 3);
    Ok(())
}
