// Lines of several options over files in memory.
ghost use Rattle.std.specs.Prelude.{◌≡◌, [], None, IfOk};

use super::{FRAME, ONE_FRAME_FILE, fault, film, words};
use crate::{Ending, WordKind, mp4edit};
use mp_ports::{Bad, Code, MemFile, MemFolder, MemReport};
use std::alloc::Global;
use std::test::Fail;

// How a line ended, what it wrote and said.
#[derive(Drop)]
struct Ended {
    ending: Ending,
    written: Vec<u8>,
    finished: bool,
    said: Vec<u8>,
}

// A folder that holds the frame as `a.aac` and these bytes as `b.mp4`, and whose calls of these numbers fail.
fn folder(alloc: Global, film: Vec<u8>, failing: &[u64]) -> Result<MemFolder, Fail>
    ensures opened { IfOk result (λ f. f.folder.opened ≡ []) }
    ensures output { IfOk result (λ f. f.folder.output ≡ None) }
{
    let mut files = Vec::new(alloc);
    files.push(MemFile {
        name: String::from_str(alloc, "a.aac")?,
        bytes: FRAME.to_vec(alloc)?,
    })?;
    files.push(MemFile {
        name: String::from_str(alloc, "b.mp4")?,
        bytes: film,
    })?;
    Ok(MemFolder::new(alloc, files, failing.to_vec(alloc)?))
}

// Runs a line over that folder.
fn run(alloc: Global, texts: &[&str], film: Vec<u8>, failing: &[u64]) -> Result<Ended, Fail> {
    let line = words(alloc, texts)?;
    let mut files = folder(alloc, film, failing)?;
    let mut report = MemReport::new(alloc, Vec::new(alloc));
    let ending = mp4edit(alloc, &line, &mut files, &mut report);
    Ok(Ended {
        ending,
        written: files.written().to_vec(alloc)?,
        finished: files.finished(),
        said: report.said().to_vec(alloc)?,
    })
}

fn refused(code: Code, command: u32) -> Ending {
    let bad = Bad::at(code, 0);
    Ending::Refused(Bad { command, ..bad })
}

// The same bytes, but for these.
pub fn changed(mut bytes: Vec<u8>, changes: &[(usize, u8)]) -> Vec<u8> {
    for &(place, byte) in changes {
        if let Some(old) = bytes.get_mut(place) {
            *old = byte;
        }
    }
    bytes
}

// The file of one frame in a movie of that scale, whose track has one edit of so many ticks of it
// (ISO/IEC 14496-12, 8.6.6).
fn edited(alloc: Global, scale: u32, ticks: u32) -> Result<Vec<u8>, Fail> {
    let mut film = Vec::new(alloc);
    for (name, bytes) in ONE_FRAME_FILE {
        film.extend_from_slice(match name {
            "moov" => b"\x00\x00\x02\x40moov",
            "trak" => b"\x00\x00\x01\xcctrak",
            "stco" => {
                b"\x00\x00\x00\x14stco\x00\x00\x00\x00\x00\x00\x00\x01\
                  \x00\x00\x02\x64"
            }
            _ => bytes,
        })?;
        if name == "tkhd" {
            film.extend_from_slice(
                b"\x00\x00\x00\x24edts\x00\x00\x00\x1celst\x00\x00\x00\x00\x00\x00\x00\x01",
            )?;
            film.extend_from_slice(&ticks.to_be_bytes())?;
            film.extend_from_slice(b"\x00\x00\x00\x00\x00\x01\x00\x00")?;
        }
    }
    let [a, b, c, d] = scale.to_be_bytes();
    Ok(changed(film, &[(56, a), (57, b), (58, c), (59, d)]))
}

#[test]
fn lines_end_as_their_options_come_to(rt: HostRuntime) -> Result<(), Fail> {
    let alloc = rt.alloc();
    // the line, its ending, and how many bytes are written
    let rows: [(&[&str], Ending, usize); 16] = [
        (&["-add", "b.mp4", "-out", "c.mp4"], Ending::Done, 578),
        (
            &["-add", "a.aac", "-add", "a.aac", "-out", "c.mp4"],
            Ending::Done,
            1004,
        ),
        (
            &["-add", "a.aac", "-add", "b.mp4", "-out", "c.mp4"],
            Ending::Done,
            1004,
        ),
        (
            &["-out", "c.mp4", "-inter", "0", "-add", "b.mp4#audio"],
            Ending::Done,
            578,
        ),
        (
            &["-add", "b.mp4#video", "-out", "c.mp4"],
            refused(Code::NoTrack, 1),
            0,
        ),
        (
            &["-add", "b.mp4#2", "-out", "c.mp4"],
            refused(Code::NoTrack, 1),
            0,
        ),
        (
            &["-add", "a.aac", "-rem", "7", "-out", "c.mp4"],
            refused(Code::NoTrack, 2),
            0,
        ),
        (
            &["-rem", "1", "-add", "a.aac", "-out", "c.mp4"],
            refused(Code::NoTrack, 1),
            0,
        ),
        (
            &["-add", "a.aac", "-lang", "2=deu", "-out", "c.mp4"],
            refused(Code::NoTrack, 2),
            0,
        ),
        (
            &["-add", "a.aac", "-rem", "1", "-out", "c.mp4"],
            refused(Code::EmptyMovie, 3),
            0,
        ),
        (&["-out", "c.mp4"], refused(Code::EmptyMovie, 1), 0),
        (
            &["-add", "a.aac", "-add", "zz.aac", "-out", "c.mp4"],
            Ending::NoFile { command: 2 },
            0,
        ),
        // the fault of the first option, though the file of the second is missing
        (
            &["-rem", "1", "-add", "zz.aac", "-out", "c.mp4"],
            refused(Code::NoTrack, 1),
            0,
        ),
        (
            &["-add", "a.aac", "-cat", "b.mp4", "-out", "c.mp4"],
            fault(3, WordKind::NotYet),
            0,
        ),
        (
            &["-add", "v.h264", "-out", "c.mp4"],
            Ending::NoFile { command: 1 },
            0,
        ),
        (
            &["-add", "b.mp4", "-out", "b.mp4"],
            fault(4, WordKind::SameName),
            0,
        ),
    ];
    for (texts, ending, length) in rows {
        let got = run(alloc, texts, film(alloc)?, &[])?;
        assert_eq!(rt; got.ending, ending, "{texts:?}");
        assert_eq!(rt; got.written.len(), length, "{texts:?}");
        assert_eq!(rt; got.finished, ending == Ending::Done, "{texts:?}");
    }
    Ok(())
}

#[test]
fn words_are_refused_before_a_file_is_opened(rt: HostRuntime) -> Result<(), Fail> {
    let alloc = rt.alloc();
    let rows: [(&[&str], Ending); 8] = [
        (&[], fault(0, WordKind::Empty)),
        (&["-frag"], fault(1, WordKind::Unknown)),
        (&["-add"], fault(1, WordKind::Missing)),
        (&["-rem", "0"], fault(2, WordKind::Argument)),
        (&["-add", "a.aac"], fault(0, WordKind::NoOut)),
        (
            &["-out", "b.mp4", "-out", "c.mp4"],
            fault(3, WordKind::OutTwice),
        ),
        (
            &["-info", "a.mp4", "-out", "b.mp4"],
            fault(3, WordKind::Mixed),
        ),
        (
            &["-add", "a.mp4", "-out", "a.mp4"],
            fault(4, WordKind::SameName),
        ),
    ];
    for (texts, ending) in rows {
        // the first call would be a failed read
        let got = run(alloc, texts, Vec::new(alloc), &[1])?;
        assert_eq!(rt; got.ending, ending, "{texts:?}");
        assert_eq!(rt; got.said.len(), 0, "{texts:?}");
    }
    Ok(())
}

#[test]
fn what_follows_a_file_is_told_by_its_place(rt: HostRuntime) -> Result<(), Fail> {
    let alloc = rt.alloc();
    let mut film = film(alloc)?;
    film.extend_from_slice(b"\x00\x00\x00\x08moof")?;
    let got = run(
        alloc,
        &["-add", "a.aac", "-add", "b.mp4", "-out", "c.mp4"],
        film,
        &[],
    )?;
    let bad = Bad::at(Code::Fragmented, 578);
    assert_eq!(rt; got.ending, Ending::Refused(Bad { command: 2, ..bad }));
    Ok(())
}

#[test]
fn a_file_is_written_as_it_was(rt: HostRuntime) -> Result<(), Fail> {
    let alloc = rt.alloc();
    let rows: [(&[&str], &[(usize, u8)]); 3] = [
        (&["-add", "b.mp4", "-out", "c.mp4"], &[]),
        // its language, and whether it is enabled: two fields of its headers
        (
            &[
                "-add", "a.aac", "-lang", "1=deu", "-disable", "1", "-out", "c.mp4",
            ],
            &[(163, 2), (280, 0x10), (281, 0xB5)],
        ),
        // the number of the track that stays, and the next one
        (
            &[
                "-add", "a.aac", "-add", "a.aac", "-rem", "1", "-out", "c.mp4",
            ],
            &[(143, 3), (175, 2)],
        ),
    ];
    for (texts, changes) in rows {
        let got = run(alloc, texts, film(alloc)?, &[])?;
        assert_eq!(rt; got.ending, Ending::Done, "{texts:?}");
        assert_eq!(rt; got.written, changed(film(alloc)?, changes), "{texts:?}");
    }
    Ok(())
}

#[test]
fn tracks_are_numbered_one_by_one(rt: HostRuntime) -> Result<(), Fail> {
    let alloc = rt.alloc();
    let two = run(
        alloc,
        &["-add", "a.aac", "-add", "a.aac", "-out", "c.mp4"],
        film(alloc)?,
        &[],
    )?;
    assert_eq!(rt;
        two.said.as_slice(),
        b"wrote c.mp4 tracks 2 samples 2 bytes 1004\n".as_slice()
    );
    // tracks 1 and 2 behind a track 1 get 2 and 3, in this order
    let three = run(
        alloc,
        &["-add", "a.aac", "-add", "b.mp4", "-out", "c.mp4"],
        two.written,
        &[],
    )?;
    let told = run(alloc, &["-info", "b.mp4"], three.written, &[])?;
    let mut text = Vec::from_slice(alloc, b"movie scale 1000 duration 24 tracks 3\n")?;
    for number in [b"1", b"2", b"3"] {
        text.extend_from_slice(b"track ")?;
        text.extend_from_slice(number)?;
        text.extend_from_slice(
            b" handler soun entry mp4a scale 44100 samples 1 sync 1 bytes 2 duration 1024",
        )?;
        text.extend_from_slice(b" language und enabled edits none\n")?;
    }
    assert_eq!(rt; told.said, text);
    Ok(())
}

#[test]
fn scales_of_movies_are_brought_together(rt: HostRuntime) -> Result<(), Fail> {
    let alloc = rt.alloc();
    let after: &[&str] = &["-add", "a.aac", "-add", "b.mp4", "-out", "c.mp4"];
    let before: &[&str] = &["-add", "b.mp4", "-add", "a.aac", "-out", "c.mp4"];
    // the line, the scale and the edit's ticks of `b.mp4`; the scale, the duration and the edit's ticks of the output
    let rows: [(&[&str], u32, u32, &[u8], &[u8]); 4] = [
        (
            after,
            600,
            600,
            b"movie scale 1000 duration 1000 tracks 2\n",
            b"edit media 0 1000\n",
        ),
        (
            before,
            600,
            600,
            b"movie scale 600 duration 600 tracks 2\n",
            b"edit media 0 600\n",
        ),
        (
            after,
            600,
            1,
            b"movie scale 3000 duration 70 tracks 2\n",
            b"edit media 0 5\n",
        ),
        // a prime number of ticks
        (
            before,
            4_294_967_291,
            1,
            b"movie scale 4294967291 duration 99728946 tracks 2\n",
            b"edit media 0 1\n",
        ),
    ];
    for (texts, scale, ticks, movie, edit) in rows {
        let got = run(alloc, texts, edited(alloc, scale, ticks)?, &[])?;
        assert_eq!(rt; got.ending, Ending::Done, "{texts:?} {scale}");
        let told = run(alloc, &["-timeline", "b.mp4"], got.written, &[])?;
        assert!(rt; told.said.starts_with(movie), "{texts:?} {scale}");
        assert!(rt;
            told.said.windows(edit.len()).any(|part| part == edit),
            "{texts:?} {scale}"
        );
    }
    let got = run(alloc, after, edited(alloc, 4_294_967_291, 1)?, &[])?;
    assert_eq!(rt; got.ending, refused(Code::ScaleLimit, 2));
    Ok(())
}

#[test]
fn each_call_of_a_line_of_two_inputs_fails_in_turn(rt: HostRuntime) -> Result<(), Fail> {
    let alloc = rt.alloc();
    let line = words(alloc, &["-add", "a.aac", "-add", "b.mp4", "-out", "c.mp4"])?;
    let whole = run(
        alloc,
        &["-add", "a.aac", "-add", "b.mp4", "-out", "c.mp4"],
        film(alloc)?,
        &[],
    )?;
    assert_eq!(rt; whole.ending, Ending::Done);
    let mut failed = 0;
    for call in 1..99 {
        let mut files = folder(alloc, film(alloc)?, &[call])?;
        files.reserve(1004).map_err(|_| "no memory")?;
        let mut report = MemReport::new(alloc, Vec::new(alloc));
        let ending = mp4edit(alloc, &line, &mut files, &mut report);
        if ending == Ending::Done {
            break;
        }
        let faults = [Ending::ReadFault, Ending::WriteFault];
        assert!(rt; faults.contains(&ending), "call {call}");
        assert!(rt; whole.written.starts_with(files.written()), "call {call}");
        assert!(rt; !files.finished(), "call {call}");
        failed = call;
    }
    assert!(rt; failed > 8 && failed < 98);
    Ok(())
}

#[test]
fn samples_stand_in_windows_of_half_a_second(rt: HostRuntime) -> Result<(), Fail> {
    let alloc = rt.alloc();
    let mut stream = Vec::new(alloc);
    for _ in 0..60 {
        stream.extend_from_slice(FRAME)?;
    }
    // 60 frames of 1024 samples at 44100 a second last 1.39 s: three windows, or one
    let rows: [(&[&str], usize); 2] = [
        (&["-add", "a.aac", "-out", "c.mp4"], 716),
        (&["-add", "a.aac", "-inter", "0", "-out", "c.mp4"], 696),
    ];
    for (texts, length) in rows {
        let line = words(alloc, texts)?;
        let mut files = super::folder(alloc, stream.as_slice().to_vec(alloc)?, &[])?;
        let mut report = MemReport::new(alloc, Vec::new(alloc));
        let ending = mp4edit(alloc, &line, &mut files, &mut report);
        assert_eq!(rt; ending, Ending::Done, "{texts:?}");
        assert_eq!(rt; files.written().len(), length, "{texts:?}");
    }
    Ok(())
}
