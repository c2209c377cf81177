// Whole runs over a folder and a report in memory.
ghost use Rattle.std.specs.Prelude.{◌≡◌, ◌<◌, [], None, IfOk, vec_len};

mod cuts;
mod dumps;
mod edits;
mod endings;
mod pairs;
mod pictures;
mod times;

use crate::{Ending, WordKind, mp4edit};
use mp_ports::{Bad, Code, MemFile, MemFolder, MemReport};
use std::alloc::Global;
use std::test::Fail;

// An ADTS frame of nine bytes (ISO/IEC 14496-3, 1.A.2): AAC LC, 44100 Hz, two channels, the payload `AA BB`.
const FRAME: &[u8] = b"\xff\xf1\x50\x80\x01\x3f\xfc\xaa\xbb";

// The file of that frame, box by box, from the tables of ISO/IEC 14496-12.
const ONE_FRAME_FILE: [(&str, &[u8]); 19] = [
    (
        "ftyp",
        b"\x00\x00\x00\x1cftypisom\x00\x00\x00\x01\
          isomiso4mp42",
    ),
    ("moov", b"\x00\x00\x02\x1cmoov"),
    (
        "mvhd",
        b"\x00\x00\x00\x6cmvhd\x00\x00\x00\x00\x00\x00\x00\x00\
          \x00\x00\x00\x00\x00\x00\x03\xe8\x00\x00\x00\x18\x00\x01\x00\x00\
          \x01\x00\x00\x00\x00\x00\x00\x00\x00\x00\x00\x00\x00\x01\x00\x00\
          \x00\x00\x00\x00\x00\x00\x00\x00\x00\x00\x00\x00\x00\x01\x00\x00\
          \x00\x00\x00\x00\x00\x00\x00\x00\x00\x00\x00\x00\x40\x00\x00\x00\
          \x00\x00\x00\x00\x00\x00\x00\x00\x00\x00\x00\x00\x00\x00\x00\x00\
          \x00\x00\x00\x00\x00\x00\x00\x00\x00\x00\x00\x02",
    ),
    ("trak", b"\x00\x00\x01\xa8trak"),
    (
        "tkhd",
        b"\x00\x00\x00\x5ctkhd\x00\x00\x00\x03\x00\x00\x00\x00\
          \x00\x00\x00\x00\x00\x00\x00\x01\x00\x00\x00\x00\x00\x00\x00\x18\
          \x00\x00\x00\x00\x00\x00\x00\x00\x00\x00\x00\x00\x01\x00\x00\x00\
          \x00\x01\x00\x00\x00\x00\x00\x00\x00\x00\x00\x00\x00\x00\x00\x00\
          \x00\x01\x00\x00\x00\x00\x00\x00\x00\x00\x00\x00\x00\x00\x00\x00\
          \x40\x00\x00\x00\x00\x00\x00\x00\x00\x00\x00\x00",
    ),
    ("mdia", b"\x00\x00\x01\x44mdia"),
    (
        "mdhd",
        b"\x00\x00\x00\x20mdhd\x00\x00\x00\x00\x00\x00\x00\x00\
          \x00\x00\x00\x00\x00\x00\xac\x44\x00\x00\x04\x00\x55\xc4\x00\x00",
    ),
    (
        "hdlr",
        b"\x00\x00\x00\x21hdlr\x00\x00\x00\x00\x00\x00\x00\x00\
          soun\x00\x00\x00\x00\x00\x00\x00\x00\x00\x00\x00\x00\
          \x00",
    ),
    ("minf", b"\x00\x00\x00\xfbminf"),
    (
        "smhd",
        b"\x00\x00\x00\x10smhd\x00\x00\x00\x00\x00\x00\x00\x00",
    ),
    (
        "dinf",
        b"\x00\x00\x00\x24dinf\x00\x00\x00\x1cdref\
          \x00\x00\x00\x00\x00\x00\x00\x01\x00\x00\x00\x0curl \
          \x00\x00\x00\x01",
    ),
    ("stbl", b"\x00\x00\x00\xbfstbl"),
    (
        "stsd and mp4a",
        b"\x00\x00\x00\x5bstsd\x00\x00\x00\x00\x00\x00\x00\x01\
          \x00\x00\x00\x4bmp4a\x00\x00\x00\x00\x00\x00\x00\x01\
          \x00\x00\x00\x00\x00\x00\x00\x00\x00\x02\x00\x10\x00\x00\x00\x00\
          \xac\x44\x00\x00",
    ),
    (
        "esds",
        b"\x00\x00\x00\x27esds\x00\x00\x00\x00\x03\x19\x00\x00\
          \x00\x04\x11\x40\x15\x00\x00\x00\x00\x00\x00\x00\x00\x00\x00\x00\
          \x05\x02\x12\x10\x06\x01\x02",
    ),
    (
        "stts",
        b"\x00\x00\x00\x18stts\x00\x00\x00\x00\x00\x00\x00\x01\
          \x00\x00\x00\x01\x00\x00\x04\x00",
    ),
    (
        "stsc",
        b"\x00\x00\x00\x1cstsc\x00\x00\x00\x00\x00\x00\x00\x01\
          \x00\x00\x00\x01\x00\x00\x00\x01\x00\x00\x00\x01",
    ),
    (
        "stsz",
        b"\x00\x00\x00\x14stsz\x00\x00\x00\x00\x00\x00\x00\x02\
          \x00\x00\x00\x01",
    ),
    (
        "stco",
        b"\x00\x00\x00\x14stco\x00\x00\x00\x00\x00\x00\x00\x01\
          \x00\x00\x02\x40",
    ),
    ("mdat", b"\x00\x00\x00\x0amdat\xaa\xbb"),
];

// The file of one frame.
fn film(alloc: Global) -> Result<Vec<u8>, Fail> {
    let mut film = Vec::new(alloc);
    for (_, bytes) in ONE_FRAME_FILE {
        film.extend_from_slice(bytes)?;
    }
    Ok(film)
}

// A folder that holds these bytes as `a.aac`, and whose calls of these numbers fail.
fn folder(alloc: Global, bytes: Vec<u8>, failing: &[u64]) -> Result<MemFolder, Fail>
    ensures opened { IfOk result (λ f. f.folder.opened ≡ []) }
    ensures output { IfOk result (λ f. f.folder.output ≡ None) }
{
    let mut files = Vec::new(alloc);
    files.push(MemFile {
        name: String::from_str(alloc, "a.aac")?,
        bytes,
    })?;
    Ok(MemFolder::new(alloc, files, failing.to_vec(alloc)?))
}

// The words of a line of fewer than ten.
fn words(alloc: Global, texts: &[&str]) -> Result<Vec<String>, Fail>
    ensures { IfOk result (λ w. vec_len w < 10) }
{
    let mut words = Vec::new(alloc);
    for text in texts {
        words.push(String::from_str(alloc, text)?)?;
    }
    if words.len() < 10 {
        Ok(words)
    } else {
        Err(Fail::from("too many words"))
    }
}

fn refused(code: Code, place: u64) -> Ending {
    let bad = Bad::at(code, place);
    Ending::Refused(Bad { command: 1, ..bad })
}

fn fault(word: u32, kind: WordKind) -> Ending {
    Ending::Words { word, kind }
}

#[test]
fn one_frame_is_written(rt: HostRuntime) -> Result<(), Fail> {
    let alloc = rt.alloc();
    let line = words(alloc, &["-add", "a.aac", "-out", "b.mp4"])?;
    let mut files = folder(alloc, FRAME.to_vec(alloc)?, &[])?;
    let mut report = MemReport::new(alloc, Vec::new(alloc));
    assert_eq!(rt;
        mp4edit(alloc, &line, &mut files, &mut report),
        Ending::Done
    );
    let mut rest = files.written();
    for (name, bytes) in ONE_FRAME_FILE {
        let after = rest.strip_prefix(bytes);
        assert!(rt; after.is_some(), "{name}");
        rest = after.unwrap_or(b"");
    }
    assert_eq!(rt; rest.len(), 0);
    assert!(rt; files.finished());
    assert_eq!(rt;
        report.said(),
        b"wrote b.mp4 tracks 1 samples 1 bytes 578\n".as_slice()
    );
    Ok(())
}

#[test]
fn streams_are_written(rt: HostRuntime) -> Result<(), Fail> {
    let alloc = rt.alloc();
    let line = words(alloc, &["-add", "a.aac", "-out", "b.mp4"])?;
    let rows: [(&[u8], usize, &[u8]); 3] = [
        // two equal frames: each is stored
        (
            b"\xff\xf1\x50\x80\x01\x3f\xfc\xaa\xbb\xff\xf1\x50\x80\x01\x3f\xfc\xaa\xbb",
            580,
            b"\x00\x00\x00\x0cmdat\xaa\xbb\xaa\xbb",
        ),
        // two frames of different sizes
        (
            b"\xff\xf1\x50\x80\x01\x3f\xfc\xaa\xbb\xff\xf1\x50\x80\x01\x5f\xfc\xaa\xbb\xcc",
            589,
            b"\x00\x00\x00\x0dmdat\xaa\xbb\xaa\xbb\xcc",
        ),
        // a check word of two bytes
        (
            b"\xff\xf0\x50\x80\x01\x7f\xfc\x12\x34\xaa\xbb",
            578,
            b"\x00\x00\x00\x0amdat\xaa\xbb",
        ),
    ];
    for (stream, length, end) in rows {
        let mut files = folder(alloc, stream.to_vec(alloc)?, &[])?;
        let mut report = MemReport::new(alloc, Vec::new(alloc));
        let ending = mp4edit(alloc, &line, &mut files, &mut report);
        assert_eq!(rt; ending, Ending::Done, "{stream:?}");
        assert_eq!(rt; files.written().len(), length, "{stream:?}");
        assert!(rt; files.written().ends_with(end), "{stream:?}");
    }
    Ok(())
}

#[test]
fn what_is_refused_is_not_written(rt: HostRuntime) -> Result<(), Fail> {
    let alloc = rt.alloc();
    let job = &["-add", "a.aac", "-out", "b.mp4"];
    let rows: [(&[&str], &[u8], Ending); 15] = [
        (job, b"", refused(Code::AdtsEmpty, 0)),
        (
            job,
            b"\xfe\xf1\x50\x80\x01\x3f\xfc\xaa\xbb",
            refused(Code::AdtsSync, 0),
        ),
        (
            job,
            b"\xff\xf3\x50\x80\x01\x3f\xfc\xaa\xbb",
            refused(Code::AdtsLayer, 0),
        ),
        (
            job,
            b"\xff\xf1\x74\x80\x01\x3f\xfc\xaa\xbb",
            refused(Code::AdtsRate, 0),
        ),
        (
            job,
            b"\xff\xf1\x50\x00\x01\x3f\xfc\xaa\xbb",
            refused(Code::AdtsChannels, 0),
        ),
        (
            job,
            b"\xff\xf1\x50\x80\x01\x3f\xfd\xaa\xbb",
            refused(Code::AdtsBlocks, 0),
        ),
        (
            job,
            b"\xff\xf1\x50\x80\x00\xdf\xfc\xaa\xbb",
            refused(Code::AdtsCut, 0),
        ),
        (
            job,
            b"\xff\xf1\x50\x80\x01\x3f\xfc\xaa",
            refused(Code::AdtsCut, 0),
        ),
        (
            job,
            b"\xff\xf1\x50\x80\x01\x3f\xfc\xaa\xbb\xff\xf1\x4c\x80\x01\x3f\xfc\xaa\xbb",
            refused(Code::AdtsChange, 9),
        ),
        (
            job,
            b"\xff\xf1\x50\x80\x01\x3f\xfc\xaa\xbb\xff",
            refused(Code::AdtsCut, 9),
        ),
        (
            &["-add", "zz.aac", "-out", "b.mp4"],
            FRAME,
            Ending::NoFile { command: 1 },
        ),
        (
            &["-out", "b.mp4", "-add", "zz.aac"],
            FRAME,
            Ending::NoFile { command: 2 },
        ),
        (
            &["-add", "a.aac", "-out", "b.mp3"],
            FRAME,
            fault(4, WordKind::Argument),
        ),
        (
            &["-ADD", "a.aac", "-out", "b.mp4"],
            FRAME,
            fault(1, WordKind::Unknown),
        ),
        (&["-gen", "50"], FRAME, fault(1, WordKind::NotYet)),
    ];
    for (texts, bytes, ending) in rows {
        let line = words(alloc, texts)?;
        let mut files = folder(alloc, bytes.to_vec(alloc)?, &[])?;
        let mut report = MemReport::new(alloc, Vec::new(alloc));
        assert_eq!(rt;
            mp4edit(alloc, &line, &mut files, &mut report),
            ending,
            "{texts:?}"
        );
        assert!(rt; !files.created(), "{texts:?}");
        assert_eq!(rt; report.said().len(), 0, "{texts:?}");
    }
    Ok(())
}

#[test]
fn a_stream_of_more_than_64_mebibytes_is_written(rt: HostRuntime) -> Result<(), Fail> {
    let alloc = rt.alloc();
    let mut frame = Vec::from_slice(alloc, b"\xFF\xF1\x50\x83\xFF\xFF\xFC")?;
    frame.extend_from_slice(&[0xAA; 8184])?;
    let mut bytes = Vec::new(alloc);
    for _ in 0..8200 {
        bytes.extend_from_slice(&frame)?;
    }
    let line = words(alloc, &["-add", "a.aac", "-inter", "0", "-out", "b.mp4"])?;
    let mut files = folder(alloc, bytes, &[])?;
    let mut report = MemReport::new(alloc, Vec::new(alloc));
    let ending = mp4edit(alloc, &line, &mut files, &mut report);
    assert_eq!(rt; ending, Ending::Done);
    assert!(rt; files.finished());
    assert_eq!(rt; files.written().len(), 576 + 8200 * 8184);
    Ok(())
}

#[test]
fn names_are_read_in_either_case(rt: HostRuntime) -> Result<(), Fail> {
    let alloc = rt.alloc();
    for (input, out) in [("a.AaC", "b.M4a"), ("a.ADTS", "b.m4V"), (".aac", ".MP4")] {
        let line = words(alloc, &["-add", input, "-out", out])?;
        let mut files = folder(alloc, FRAME.to_vec(alloc)?, &[])?;
        let mut report = MemReport::new(alloc, Vec::new(alloc));
        let ending = mp4edit(alloc, &line, &mut files, &mut report);
        assert_eq!(rt; ending, Ending::NoFile { command: 1 }, "{input}");
    }
    Ok(())
}

#[test]
fn each_call_of_the_folder_fails_in_turn(rt: HostRuntime) -> Result<(), Fail> {
    let alloc = rt.alloc();
    let line = words(alloc, &["-add", "a.aac", "-out", "b.mp4"])?;
    let whole = film(alloc)?;
    // The calls are open, read, create, the front of the file, a read and a write of its sample, and finish.
    let rows = [
        (1, Ending::ReadFault, 0),
        (2, Ending::ReadFault, 0),
        (3, Ending::WriteFault, 0),
        (4, Ending::WriteFault, 288),
        (5, Ending::ReadFault, 576),
        (6, Ending::WriteFault, 577),
        (7, Ending::WriteFault, 578),
        (8, Ending::Done, 578),
    ];
    for (call, ending, written) in rows {
        let mut files = folder(alloc, FRAME.to_vec(alloc)?, &[call])?;
        files.reserve(578).map_err(|_| "no memory")?;
        let mut report = MemReport::new(alloc, Vec::new(alloc));
        report.reserve(64).map_err(|_| "no memory")?;
        let got = mp4edit(alloc, &line, &mut files, &mut report);
        assert_eq!(rt; got, ending, "call {call}");
        assert_eq!(rt; files.written().len(), written, "call {call}");
        assert!(rt; whole.starts_with(files.written()), "call {call}");
        assert_eq!(rt; files.created(), call > 3, "call {call}");
        assert_eq!(rt; files.finished(), call > 7, "call {call}");
    }
    Ok(())
}

#[test]
fn a_failing_report_leaves_the_file_whole(rt: HostRuntime) -> Result<(), Fail> {
    let alloc = rt.alloc();
    let line = words(alloc, &["-add", "a.aac", "-out", "b.mp4"])?;
    let mut files = folder(alloc, FRAME.to_vec(alloc)?, &[])?;
    let mut report = MemReport::new(alloc, [1].to_vec(alloc)?);
    let ending = mp4edit(alloc, &line, &mut files, &mut report);
    assert_eq!(rt; ending, Ending::ReportFault);
    assert_eq!(rt; files.written().len(), 578);
    assert!(rt; files.finished());
    assert_eq!(rt; report.said(), b"wrote b.mp4 tracks 1".as_slice());
    Ok(())
}
