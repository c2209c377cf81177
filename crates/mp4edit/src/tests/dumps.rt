// Dumps of files in memory.
ghost use Rattle.std.specs.Prelude.{◌≡◌, [], None, IfOk};

use super::{fault, film, refused, words};
use crate::{Ending, WordKind, mp4edit};
use mp_ports::{Code, MemFile, MemFolder, MemReport};
use std::alloc::Global;
use std::test::Fail;

// A folder that holds these bytes as `a.mp4`, and whose calls of these numbers fail.
fn folder(alloc: Global, bytes: Vec<u8>, failing: &[u64]) -> Result<MemFolder, Fail>
    ensures opened { IfOk result (λ f. f.folder.opened ≡ []) }
    ensures output { IfOk result (λ f. f.folder.output ≡ None) }
{
    let mut files = Vec::new(alloc);
    files.push(MemFile {
        name: String::from_str(alloc, "a.mp4")?,
        bytes,
    })?;
    Ok(MemFolder::new(alloc, files, failing.to_vec(alloc)?))
}

// How the dump of these bytes ends.
fn dumped(alloc: Global, bytes: Vec<u8>) -> Result<Ending, Fail> {
    let line = words(alloc, &["-info", "a.mp4"])?;
    let mut files = folder(alloc, bytes, &[])?;
    let mut report = MemReport::new(alloc, Vec::new(alloc));
    Ok(mp4edit(alloc, &line, &mut files, &mut report))
}

const INFO: &str = "movie scale 1000 duration 24 tracks 1\n\
    track 1 handler soun entry mp4a scale 44100 samples 1 sync 1 bytes 2 duration 1024 \
    language und enabled edits none\n";

const TIMELINE: &str = "movie scale 1000 duration 24 tracks 1\n\
    track 1 handler soun entry mp4a scale 44100 samples 1 sync 1 bytes 2 duration 1024 \
    language und enabled edits none\n\
    sample 1 size 2 decode 0 duration 1024 composition 0 sync entry 1\n";

const JSON: &str =
    "{\"duration\":24,\"scale\":1000,\"tracks\":[{\"edits\":null,\"enabled\":true,\"entries\":[\"mp4a\"],\
    \"handler\":\"soun\",\"language\":\"und\",\"number\":1,\"samples\":[[2,0,1024,0,1,1]],\"scale\":44100}]}\n";

#[test]
fn a_file_is_told_of(rt: HostRuntime) -> Result<(), Fail> {
    let alloc = rt.alloc();
    let rows = [("-info", INFO), ("-timeline", TIMELINE), ("-json", JSON)];
    for (option, text) in rows {
        let line = words(alloc, &[option, "a.mp4"])?;
        let mut files = folder(alloc, film(alloc)?, &[])?;
        let mut report = MemReport::new(alloc, Vec::new(alloc));
        let ending = mp4edit(alloc, &line, &mut files, &mut report);
        assert_eq!(rt; ending, Ending::Done, "{option}");
        assert_eq!(rt; report.said(), text.as_bytes(), "{option}");
        assert!(rt; !files.created(), "{option}");
    }
    Ok(())
}

#[test]
fn a_file_that_is_cut_is_refused(rt: HostRuntime) -> Result<(), Fail> {
    let alloc = rt.alloc();
    let whole = film(alloc)?;
    // from so many bytes on, of 578
    let rows = [
        (0, refused(Code::BoxMissing, 0)),
        (1, refused(Code::BoxCut, 0)),
        (28, refused(Code::BoxMissing, 28)),
        (29, refused(Code::BoxCut, 28)),
        (568, refused(Code::SampleOutside, 548)),
        (569, refused(Code::BoxCut, 568)),
        (578, Ending::Done),
    ];
    let mut ending = Ending::NoMemory;
    for length in 0..=578 {
        for (from, wanted) in rows {
            if from == length {
                ending = wanted;
            }
        }
        let front = whole.get(..length).unwrap_or(b"").to_vec(alloc)?;
        assert_eq!(rt; dumped(alloc, front)?, ending, "{length}");
    }
    Ok(())
}

#[test]
fn changed_fields_are_refused(rt: HostRuntime) -> Result<(), Fail> {
    let alloc = rt.alloc();
    // the places of four bytes, and their value
    let rows: [(&[(usize, u32)], Ending); 6] = [
        // `stts`: two samples
        (&[(492, 2)], refused(Code::CountMismatch, 476)),
        // `stts` and `stsz`: more samples than a movie may have
        (
            &[(492, u32::MAX), (496, 1), (540, 1), (544, u32::MAX)],
            refused(Code::SampleLimit, 0),
        ),
        // `stsc`: a chunk of more samples than there are
        (&[(520, u32::MAX)], refused(Code::ChunkMap, 500)),
        // `stco`: more chunks than the box has room for
        (&[(560, u32::MAX)], refused(Code::TableLength, 548)),
        // `stco`: a place behind the file
        (&[(564, u32::MAX)], refused(Code::SampleOutside, 548)),
        // `stsz`: a sample that ends behind the file
        (&[(540, 3)], refused(Code::SampleOutside, 548)),
    ];
    for (changes, ending) in rows {
        let mut bytes = film(alloc)?;
        for (place, value) in changes {
            for (byte, new) in bytes.iter_mut().skip(*place).zip(value.to_be_bytes()) {
                *byte = new;
            }
        }
        assert_eq!(rt; dumped(alloc, bytes)?, ending, "{changes:?}");
    }
    Ok(())
}

#[test]
fn what_follows_the_file_is_checked(rt: HostRuntime) -> Result<(), Fail> {
    let alloc = rt.alloc();
    let rows: [(&[u8], Ending); 4] = [
        (b"\x00\x00\x00\x08moof", refused(Code::Fragmented, 578)),
        (b"\x00\x00\x00\x08moov", refused(Code::BoxTwice, 578)),
        (b"\x00\x00\x00\x07free", refused(Code::BoxSize, 578)),
        (b"\x00\x00\x00\x00free", Ending::Done),
    ];
    for (behind, ending) in rows {
        let mut bytes = film(alloc)?;
        bytes.extend_from_slice(behind)?;
        assert_eq!(rt; dumped(alloc, bytes)?, ending, "{behind:?}");
    }
    Ok(())
}

#[test]
fn a_dump_fails_where_a_call_fails(rt: HostRuntime) -> Result<(), Fail> {
    let alloc = rt.alloc();
    let line = words(alloc, &["-timeline", "a.mp4"])?;
    let mut failed = 0;
    for call in 1..99 {
        let mut files = folder(alloc, film(alloc)?, &[call])?;
        let mut report = MemReport::new(alloc, Vec::new(alloc));
        let ending = mp4edit(alloc, &line, &mut files, &mut report);
        if ending == Ending::Done {
            break;
        }
        assert_eq!(rt; ending, Ending::ReadFault, "call {call}");
        assert_eq!(rt; report.said().len(), 0, "call {call}");
        failed = call;
    }
    // It is opened, and read at least once.
    assert!(rt; failed > 1 && failed < 98);
    let mut files = folder(alloc, film(alloc)?, &[])?;
    let mut report = MemReport::new(alloc, [1].to_vec(alloc)?);
    let ending = mp4edit(alloc, &line, &mut files, &mut report);
    assert_eq!(rt; ending, Ending::ReportFault);
    assert!(rt; TIMELINE.as_bytes().starts_with(report.said()));
    Ok(())
}

#[test]
fn lines_of_dumps_are_whole_lines(rt: HostRuntime) -> Result<(), Fail> {
    let alloc = rt.alloc();
    let rows: [(&[&str], Ending); 5] = [
        (&["-info", "b.mp4"], Ending::NoFile { command: 1 }),
        (&["-info", "a.aac"], fault(2, WordKind::Argument)),
        (&["-json"], fault(1, WordKind::Missing)),
        (
            &["-info", "a.mp4", "-out", "b.mp4"],
            fault(3, WordKind::Mixed),
        ),
        (&["-info", "a.mp4", "b.mp4"], fault(3, WordKind::Unknown)),
    ];
    for (texts, ending) in rows {
        let line = words(alloc, texts)?;
        let mut files = folder(alloc, film(alloc)?, &[])?;
        let mut report = MemReport::new(alloc, Vec::new(alloc));
        let got = mp4edit(alloc, &line, &mut files, &mut report);
        assert_eq!(rt; got, ending, "{texts:?}");
        assert_eq!(rt; report.said().len(), 0, "{texts:?}");
    }
    Ok(())
}
