// Lines that read NHNT pairs, over files in memory.
ghost use Rattle.std.specs.Prelude.{◌≡◌, [], None, IfOk};

use super::{FRAME, words};
use crate::{Ending, mp4edit};
use mp_ports::{Bad, Code, MemFile, MemFolder, MemReport};
use std::alloc::Global;
use std::process::Abort;
use std::test::Fail;

// A table of sound (object type 0x40) in 1000 ticks a second, of two units of two bytes: each is whole and may be
// decoded first, the second 50 ticks behind the first.
pub const TABLE: &[u8] =
    b"NHnt\x00\x05\x40\x00\x00\x00\x00\x00\x00\x00\x00\x00\x00\x00\x00\x00\x00\x00\x03\xe8\
    \x00\x00\x02\xe0\x00\x00\x00\x00\x00\x00\x00\x00\x00\x00\x00\x00\
    \x00\x00\x02\xe0\x00\x00\x00\x02\x00\x00\x00\x32\x00\x00\x00\x32";

pub const MEDIA: &[u8] = b"\xaa\xbb\xcc\xdd";

// How a line ended, what it wrote and said.
#[derive(Drop)]
pub struct Ended {
    pub ending: Ending,
    pub written: Vec<u8>,
    pub said: Vec<u8>,
}

// A folder that holds these files, and whose calls of these numbers fail.
fn folder(alloc: Global, files: Vec<MemFile>, failing: &[u64]) -> Result<MemFolder, Fail>
    ensures opened { IfOk result (λ f. f.folder.opened ≡ []) }
    ensures output { IfOk result (λ f. f.folder.output ≡ None) }
{
    Ok(MemFolder::new(alloc, files, failing.to_vec(alloc)?))
}

// Adds a file of that name.
fn hold(alloc: Global, files: &mut Vec<MemFile>, name: &str, bytes: &[u8]) -> Result<(), Fail> {
    let name = String::from_str(alloc, name)?;
    let bytes = bytes.to_vec(alloc)?;
    files.push(MemFile { name, bytes })?;
    Ok(())
}

// Runs a line over a folder of these files.
fn run_over(
    alloc: Global,
    texts: &[&str],
    files: Vec<MemFile>,
    failing: &[u64],
) -> Result<Ended, Fail> {
    let line = words(alloc, texts)?;
    let mut files = folder(alloc, files, failing)?;
    let mut report = MemReport::new(alloc, Vec::new(alloc));
    let ending = mp4edit(alloc, &line, &mut files, &mut report);
    Ok(Ended {
        ending,
        written: files.written().to_vec(alloc)?,
        said: report.said().to_vec(alloc)?,
    })
}

// Runs a line over files of these names.
pub fn run(
    alloc: Global,
    texts: &[&str],
    held: &[(&str, &[u8])],
    failing: &[u64],
) -> Result<Ended, Fail> {
    let mut files = Vec::new(alloc);
    for &(name, bytes) in held {
        hold(alloc, &mut files, name, bytes)?;
    }
    run_over(alloc, texts, files, failing)
}

pub fn refused(code: Code, command: u32, file: u32, place: u64) -> Ending {
    let bad = Bad::at(code, place);
    Ending::Refused(Bad {
        command,
        file,
        ..bad
    })
}

#[test]
fn a_pair_is_written(rt: HostRuntime) -> Result<(), Fail> {
    let alloc = rt.alloc();
    let line = ["-add", "n.nhnt", "-out", "o.mp4"];
    let got = run(alloc, &line, &[("n.nhnt", TABLE), ("n.media", MEDIA)], &[])?;
    assert_eq!(rt; got.ending, Ending::Done);
    // a file of one frame of sound has 578 bytes: here two bytes more of samples, and no configuration of four
    assert_eq!(rt;
        got.said.as_slice(),
        b"wrote o.mp4 tracks 1 samples 2 bytes 576\n".as_slice()
    );
    assert!(rt;
        got.written
            .ends_with(b"\x00\x00\x00\x0cmdat\xaa\xbb\xcc\xdd")
    );
    let told = run(
        alloc,
        &["-timeline", "o.mp4"],
        &[("o.mp4", &got.written)],
        &[],
    )?;
    assert_eq!(rt;
        told.said.as_slice(),
        b"movie scale 1000 duration 100 tracks 1\n\
          track 1 handler soun entry mp4a scale 1000 samples 2 sync 2 bytes 4 \
          duration 100 language und enabled edits none\n\
          sample 1 size 2 decode 0 duration 50 composition 0 sync entry 1\n\
          sample 2 size 2 decode 50 duration 50 composition 50 sync entry 1\n"
            .as_slice()
    );
    Ok(())
}

// How the line that adds a pair ends, and how many bytes it writes, where these of its three files are held.
fn ends(
    rt: &impl Abort,
    alloc: Global,
    table: Option<&[u8]>,
    media: Option<&[u8]>,
    info: Option<&[u8]>,
    ending: Ending,
    length: usize,
) -> Result<(), Fail> {
    let mut files = Vec::new(alloc);
    if let Some(bytes) = table {
        hold(alloc, &mut files, "n.nhnt", bytes)?;
    }
    if let Some(bytes) = media {
        hold(alloc, &mut files, "n.media", bytes)?;
    }
    if let Some(bytes) = info {
        hold(alloc, &mut files, "n.info", bytes)?;
    }
    let got = run_over(alloc, &["-add", "n.nhnt", "-out", "o.mp4"], files, &[])?;
    assert_eq!(rt; got.ending, ending);
    assert_eq!(rt; got.written.len(), length);
    Ok(())
}

// So many bytes, all 0.
fn zeros(alloc: Global, len: usize) -> Result<Vec<u8>, Fail> {
    Ok(vec![in alloc; 0u8; len]?)
}

#[test]
fn an_info_file_is_the_configuration(rt: HostRuntime) -> Result<(), Fail> {
    let alloc = rt.alloc();
    let (table, media) = (Some(TABLE), Some(MEDIA));
    let most = zeros(alloc, 65_536)?;
    ends(&rt, alloc, table, media, None, Ending::Done, 576)?;
    // no bytes of it are no configuration, either
    ends(&rt, alloc, table, media, Some(b""), Ending::Done, 576)?;
    // two bytes of it stand behind a head of two bytes
    ends(
        &rt,
        alloc,
        table,
        media,
        Some(b"\x12\x10"),
        Ending::Done,
        580,
    )?;
    // with 65,536 bytes of it the lengths of three descriptors take two bytes more each
    ends(&rt, alloc, table, media, Some(&most), Ending::Done, 66_120)
}

#[test]
fn an_info_file_has_at_most_65536_bytes(rt: HostRuntime) -> Result<(), Fail> {
    let alloc = rt.alloc();
    let long = zeros(alloc, 65_537)?;
    let refused = refused(Code::NhntHead, 1, 2, 0);
    let (table, media) = (Some(TABLE), Some(MEDIA));
    ends(&rt, alloc, table, media, Some(&long), refused, 0)
}

#[test]
fn a_record_is_refused_at_its_place(rt: HostRuntime) -> Result<(), Fail> {
    let alloc = rt.alloc();
    let media = Some(MEDIA);
    // flags that don't begin a unit
    let mut part = TABLE.to_vec(alloc)?;
    if let Some(flags) = part.get_mut(43) {
        *flags = 0xA0;
    }
    let unit = refused(Code::NhntUnit, 1, 0, 40);
    ends(&rt, alloc, Some(&part), media, None, unit, 0)?;
    let cut = refused(Code::NhntCut, 1, 0, 40);
    ends(&rt, alloc, TABLE.get(..55), media, None, cut, 0)?;
    let range = refused(Code::NhntRange, 1, 0, 40);
    ends(
        &rt,
        alloc,
        Some(TABLE),
        Some(b"\xaa\xbb\xcc"),
        None,
        range,
        0,
    )
}

#[test]
fn a_missing_file_is_told_before_a_fault(rt: HostRuntime) -> Result<(), Fail> {
    let alloc = rt.alloc();
    let missing = Ending::NoFile { command: 1 };
    // one byte of the table is cut off
    let cut = TABLE.get(..55);
    ends(&rt, alloc, cut, None, None, missing, 0)?;
    ends(&rt, alloc, cut, None, Some(b""), missing, 0)?;
    ends(&rt, alloc, None, Some(MEDIA), Some(b""), missing, 0)?;
    ends(&rt, alloc, None, None, None, missing, 0)
}

#[test]
fn each_opening_of_a_pair_fails_in_turn(rt: HostRuntime) -> Result<(), Fail> {
    let alloc = rt.alloc();
    let line = ["-add", "n.nhnt", "-out", "o.mp4"];
    let held: [&[(&str, &[u8])]; 2] = [
        &[
            ("n.nhnt", TABLE),
            ("n.media", MEDIA),
            ("n.info", b"\x12\x10"),
        ],
        // the opening of an `.info` file fails, though there is none
        &[("n.nhnt", TABLE), ("n.media", MEDIA)],
    ];
    for files in held {
        for call in 1..4 {
            let got = run(alloc, &line, files, &[call])?;
            assert_eq!(rt; got.ending, Ending::ReadFault, "call {call}");
            assert_eq!(rt; got.written.len(), 0, "call {call}");
        }
    }
    Ok(())
}

#[test]
fn pairs_stand_beside_other_inputs(rt: HostRuntime) -> Result<(), Fail> {
    let alloc = rt.alloc();
    let held = [
        ("n.nhnt", TABLE),
        ("n.media", MEDIA),
        ("a.aac", FRAME),
        ("N.NHNT", TABLE),
        ("N.media", MEDIA),
    ];
    // the line, and what is said of its file
    let rows: [(&[&str], &[u8]); 3] = [
        (
            &["-add", "a.aac", "-add", "n.nhnt", "-out", "o.mp4"],
            b"wrote o.mp4 tracks 2 samples 3 bytes 1002\n",
        ),
        // the same pair twice
        (
            &["-add", "n.nhnt", "-add", "n.nhnt", "-out", "o.mp4"],
            b"wrote o.mp4 tracks 2 samples 4 bytes 1000\n",
        ),
        (
            &["-add", "N.NHNT", "-out", "o.mp4"],
            b"wrote o.mp4 tracks 1 samples 2 bytes 576\n",
        ),
    ];
    for (texts, said) in rows {
        let got = run(alloc, texts, &held, &[])?;
        assert_eq!(rt; got.ending, Ending::Done, "{texts:?}");
        assert_eq!(rt; got.said.as_slice(), said, "{texts:?}");
    }
    // a later input is missing
    let got = run(
        alloc,
        &["-add", "n.nhnt", "-add", "zz.nhnt", "-out", "o.mp4"],
        &held,
        &[],
    )?;
    assert_eq!(rt; got.ending, Ending::NoFile { command: 2 });
    Ok(())
}
