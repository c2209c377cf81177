//! Each call of the objects in memory, and what it leaves: in turn whole, failing, and out of room.

ghost use Rattle.std.specs.Prelude.{◌≡◌, [], None, Ok, Err, IfOk};

use crate::{
    Bad, Code, Fail, Folder, MemFile, MemFolder, MemReport, NoMemory, OpenFail, PortFault,
    ReadFail, Report,
};
use std::alloc::Global;
use std::test;

// Two files of one name, and one of another.
fn folder(alloc: Global, failing: &[u64]) -> Result<MemFolder, test::Fail>
    ensures opened { IfOk result (λ f. f.folder.opened ≡ []) }
    ensures output { IfOk result (λ f. f.folder.output ≡ None) }
{
    let mut files = Vec::new(alloc);
    for (name, bytes) in [("a", b"xyz"), ("a", b"XYZ"), ("b", b"123")] {
        files.push(MemFile {
            name: String::from_str(alloc, name)?,
            bytes: bytes.to_vec(alloc)?,
        })?;
    }
    Ok(MemFolder::new(alloc, files, failing.to_vec(alloc)?))
}

#[derive(Clone, Copy, Debug, PartialEq, Eq)]
enum Step {
    Open,
    Read,
    Create,
    Append,
    Finish,
    Done,
}

// Opens `a`, reads its last two bytes, creates the output, appends to it and finishes it. Answers
// the step that failed.
fn run<F: Folder>(folder: &mut F, output: String, into: &mut [u8; 2]) -> Step
    requires opened { (F.state folder.old).opened ≡ [] }
    requires output { (F.state folder.old).output ≡ None }
{
    let Ok(file) = folder.open("a") else {
        return Step::Open;
    };
    if folder.size(file) != 3 {
        return Step::Open;
    }
    if folder.read_at(file, 1, into).is_err() {
        return Step::Read;
    }
    if folder.create(output).is_err() {
        return Step::Create;
    }
    if folder.append(b"hello").is_err() {
        return Step::Append;
    }
    if folder.finish().is_err() {
        return Step::Finish;
    }
    Step::Done
}

// Each counted call of a folder fails in turn: the calls are counted together, half of the failed
// piece is written, and nothing is created or finished where that failed.
#[test]
fn folder_in_memory(rt: HostRuntime) -> Result<(), test::Fail> {
    let alloc = rt.alloc();
    let rows: [(&[u64], Step, &str, &str, bool, bool); 8] = [
        (&[], Step::Done, "yz", "hello", true, true),
        (&[1], Step::Open, "..", "", false, false),
        (&[2], Step::Read, "..", "", false, false),
        (&[3], Step::Create, "yz", "", false, false),
        (&[4], Step::Append, "yz", "he", true, false),
        (&[5], Step::Finish, "yz", "hello", true, false),
        (&[6], Step::Done, "yz", "hello", true, true),
        (&[5, 4], Step::Append, "yz", "he", true, false),
    ];
    for room in [0, 5] {
        for (failing, step, read, written, created, finished) in rows {
            let mut files = folder(alloc, failing)?;
            assert_eq!(rt; files.reserve(room), Ok(()), "room {room}");
            let mut into = *b"..";
            let output = String::from_str(alloc, "out")?;
            assert_eq!(rt; run(&mut files, output, &mut into), step, "{failing:?}");
            assert_eq!(rt; &into[..], read.as_bytes(), "{failing:?}");
            assert_eq!(rt; files.written(), written.as_bytes(), "{failing:?}");
            assert_eq!(rt; files.created(), created, "{failing:?}");
            assert_eq!(rt; files.finished(), finished, "{failing:?}");
        }
    }
    Ok(())
}

// Names are found, missing, or not asked for: a call that is to fail does so for any name.
#[test]
fn names_in_memory(rt: HostRuntime) -> Result<(), test::Fail> {
    let alloc = rt.alloc();
    let mut files = folder(alloc, &[3, 5])?;
    let rows = [
        ("b", Ok(0)),
        ("c", Err(OpenFail::Missing)),
        ("c", Err(OpenFail::Failed)),
        ("a", Ok(1)),
        ("a", Err(OpenFail::Failed)),
        ("", Err(OpenFail::Missing)),
        ("b", Ok(2)),
    ];
    for (name, answer) in rows {
        assert_eq!(rt; files.open(name), answer, "{name}");
    }
    Ok(())
}

// Says two words, and answers how often that failed.
fn say_words<R: Report>(report: &mut R) -> u32 {
    u32::from(report.say(b"hello").is_err()) + u32::from(report.say(b", you").is_err())
}

// Each call of a report fails in turn, and half of the failed piece is said.
#[test]
fn report_in_memory(rt: HostRuntime) -> Result<(), test::Fail> {
    let alloc = rt.alloc();
    let rows: [(&[u64], u32, &str); 5] = [
        (&[], 0, "hello, you"),
        (&[1], 1, "he, you"),
        (&[2], 1, "hello, "),
        (&[1, 2], 2, "he, "),
        (&[3, 0], 0, "hello, you"),
    ];
    for room in [0, 10] {
        for (failing, faults, said) in rows {
            let mut report = MemReport::new(alloc, failing.to_vec(alloc)?);
            assert_eq!(rt; report.reserve(room), Ok(()), "room {room}");
            assert_eq!(rt; say_words(&mut report), faults, "{failing:?}");
            assert_eq!(rt; report.said(), said.as_bytes(), "{failing:?}");
        }
    }
    Ok(())
}

// The numbers and names that users see.
const CODES: [(Code, u32, &[u8]); 69] = [
    (Code::BoxCut, 10, b"BoxCut"),
    (Code::BoxSize, 11, b"BoxSize"),
    (Code::BoxMissing, 12, b"BoxMissing"),
    (Code::BoxTwice, 13, b"BoxTwice"),
    (Code::BoxVersion, 14, b"BoxVersion"),
    (Code::Fragmented, 15, b"Fragmented"),
    (Code::Compressed, 16, b"Compressed"),
    (Code::Encrypted, 17, b"Encrypted"),
    (Code::External, 18, b"External"),
    (Code::HintTrack, 19, b"HintTrack"),
    (Code::MoovLimit, 20, b"MoovLimit"),
    (Code::ScaleZero, 21, b"ScaleZero"),
    (Code::TableLength, 22, b"TableLength"),
    (Code::ChunkMap, 23, b"ChunkMap"),
    (Code::CountMismatch, 24, b"CountMismatch"),
    (Code::SyncOrder, 25, b"SyncOrder"),
    (Code::SampleOutside, 26, b"SampleOutside"),
    (Code::EntryIndex, 27, b"EntryIndex"),
    (Code::EditRate, 28, b"EditRate"),
    (Code::EditTime, 29, b"EditTime"),
    (Code::EditFlags, 30, b"EditFlags"),
    (Code::TrackId, 31, b"TrackId"),
    (Code::AdtsSync, 40, b"AdtsSync"),
    (Code::AdtsCut, 41, b"AdtsCut"),
    (Code::AdtsLayer, 42, b"AdtsLayer"),
    (Code::AdtsBlocks, 43, b"AdtsBlocks"),
    (Code::AdtsChange, 44, b"AdtsChange"),
    (Code::AdtsRate, 45, b"AdtsRate"),
    (Code::AdtsChannels, 46, b"AdtsChannels"),
    (Code::AdtsEmpty, 47, b"AdtsEmpty"),
    (Code::UnitFraming, 50, b"UnitFraming"),
    (Code::UnitLimit, 51, b"UnitLimit"),
    (Code::UnitType, 52, b"UnitType"),
    (Code::SetSyntax, 53, b"SetSyntax"),
    (Code::SetProfile, 54, b"SetProfile"),
    (Code::SetChange, 55, b"SetChange"),
    (Code::SetMissing, 56, b"SetMissing"),
    (Code::SliceSyntax, 57, b"SliceSyntax"),
    (Code::FieldPicture, 58, b"FieldPicture"),
    (Code::PocType, 59, b"PocType"),
    (Code::Marking5, 60, b"Marking5"),
    (Code::SliceGroups, 61, b"SliceGroups"),
    (Code::FirstNotIdr, 62, b"FirstNotIdr"),
    (Code::PocTie, 63, b"PocTie"),
    (Code::NoPicture, 64, b"NoPicture"),
    (Code::Chroma, 65, b"Chroma"),
    (Code::Redundant, 66, b"Redundant"),
    (Code::NhntHead, 70, b"NhntHead"),
    (Code::NhntCut, 71, b"NhntCut"),
    (Code::NhntType, 72, b"NhntType"),
    (Code::NhntUnit, 73, b"NhntUnit"),
    (Code::NhntOrder, 74, b"NhntOrder"),
    (Code::NhntRange, 75, b"NhntRange"),
    (Code::NoTrack, 80, b"NoTrack"),
    (Code::BadRange, 81, b"BadRange"),
    (Code::DelayPastEnd, 82, b"DelayPastEnd"),
    (Code::NotWhole, 83, b"NotWhole"),
    (Code::ScaleLimit, 84, b"ScaleLimit"),
    (Code::DeltaLimit, 85, b"DeltaLimit"),
    (Code::OffsetLimit, 86, b"OffsetLimit"),
    (Code::DurationLimit, 87, b"DurationLimit"),
    (Code::StartLimit, 88, b"StartLimit"),
    (Code::SizeLimit, 89, b"SizeLimit"),
    (Code::SampleLimit, 90, b"SampleLimit"),
    (Code::TrackLimit, 91, b"TrackLimit"),
    (Code::EntryLimit, 92, b"EntryLimit"),
    (Code::SegmentLimit, 93, b"SegmentLimit"),
    (Code::IdLimit, 94, b"IdLimit"),
    (Code::EmptyMovie, 95, b"EmptyMovie"),
];

#[test]
fn codes(rt: HostRuntime) {
    for (code, number, name) in CODES {
        assert_eq!(rt; code.number(), number);
        assert_eq!(rt; code.name().as_bytes(), name, "{number}");
    }
}

fn refuses(bad: Bad) -> Result<(), Bad>
    ensures { result ≡ Err bad }
{
    Err(bad)
}

fn lacks_memory() -> Result<(), NoMemory>
    ensures { result ≡ Err (record {}) }
{
    Err(NoMemory)
}

fn lacks_the_outside() -> Result<(), PortFault>
    ensures { result ≡ Err (record {}) }
{
    Err(PortFault)
}

// `?` makes of each failure the one that is named alike, whatever stands between.
fn refused(bad: Bad) -> Result<(), Fail>
    ensures { result ≡ Err (Fail.Bad bad) }
{
    refuses(bad)?;
    Ok(())
}

fn refused_reading(bad: Bad) -> Result<(), ReadFail>
    ensures { result ≡ Err (ReadFail.Bad bad) }
{
    refused(bad)?;
    Ok(())
}

fn memory() -> Result<(), Fail>
    ensures { result ≡ Err Fail.NoMemory }
{
    lacks_memory()?;
    Ok(())
}

fn memory_reading() -> Result<(), ReadFail>
    ensures { result ≡ Err ReadFail.NoMemory }
{
    memory()?;
    Ok(())
}

fn fault_reading() -> Result<(), ReadFail>
    ensures { result ≡ Err ReadFail.ReadFault }
{
    lacks_the_outside()?;
    Ok(())
}

#[test]
fn conversions(rt: HostRuntime) {
    let bad = Bad::at(Code::BoxCut, 8);
    assert_eq!(rt; refused(bad), Err(Fail::Bad(bad)));
    assert_eq!(rt; refused_reading(bad), Err(ReadFail::Bad(bad)));
    assert_eq!(rt; memory(), Err(Fail::NoMemory));
    assert_eq!(rt; memory_reading(), Err(ReadFail::NoMemory));
    assert_eq!(rt; fault_reading(), Err(ReadFail::ReadFault));
}
