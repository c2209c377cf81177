//! Tables of sizes, chunks and places, each answer computed by hand from ISO/IEC 14496-12, 8.7.3 to 8.7.5.

ghost use Rattle.mp_chunks.specs.Samples.{AreWithin};

use crate::{Places, Tables, find_places, read_places, sample_count};
use mp_boxes::Span;
use mp_columns::{Column, MOST_ITEMS};
use mp_ports::{Bad, Code, Fail};
use std::alloc::{AllocError, Global};
use std::process::Abort;
use std::test;

// The places of the three boxes.
const STSC: u64 = 100;

const SIZES: u64 = 200;

const OFFSETS: u64 = 300;

// The bodies of the three boxes, in words of 32 bits, the first of them version and flags.
#[derive(Clone, Copy)]
struct Case<'a> {
    stsc: &'a [u32],
    sizes: &'a [u32],
    compact: bool,
    offsets: &'a [u32],
    wide: bool,
    entries: u32,
    file_size: u64,
}

// The size, entry and place of each sample.
type Wanted<'a> = Result<&'a [(i64, i64, u64)], Bad>;

// `stsc` and `stco` with one size for all samples.
fn plain<'a>(stsc: &'a [u32], sizes: &'a [u32], offsets: &'a [u32], file_size: u64) -> Case<'a> {
    Case {
        stsc,
        sizes,
        compact: false,
        offsets,
        wide: false,
        entries: 1,
        file_size,
    }
}

fn bad<'a>(code: Code, place: u64) -> Wanted<'a> {
    Err(Bad::at(code, place))
}

fn push_words(out: &mut Vec<u8>, words: &[u32]) -> Result<(), AllocError> {
    for word in words {
        out.extend_from_slice(&word.to_be_bytes())?;
    }
    Ok(())
}

fn read(alloc: Global, tables: &Tables<'_>, case: Case<'_>) -> Result<Places, Fail>
    requires { AreWithin tables.now }
{
    let count = sample_count(tables)?;
    if count > u64::from(MOST_ITEMS) {
        return Err(Fail::NoMemory);
    }
    read_places(alloc, tables, case.entries, case.file_size)
}

// Whether all is found but for the last check: a sample ends behind the end of the file.
fn is_outside(alloc: Global, tables: &Tables<'_>, case: Case<'_>) -> Result<bool, Fail>
    requires { AreWithin tables.now }
{
    let count = sample_count(tables)?;
    if count > u64::from(MOST_ITEMS) {
        return Err(Fail::NoMemory);
    }
    Ok(find_places(alloc, tables, case.entries, case.file_size)?.is_none())
}

fn check(
    rt: &impl Abort,
    alloc: Global,
    row: usize,
    case: Case<'_>,
    wanted: Wanted<'_>,
) -> Result<(), AllocError> {
    let mut moov = Vec::new(alloc);
    push_words(&mut moov, case.stsc)?;
    let stsc_end = moov.len();
    push_words(&mut moov, case.sizes)?;
    let sizes_end = moov.len();
    push_words(&mut moov, case.offsets)?;
    assert!(rt; stsc_end <= sizes_end && sizes_end <= moov.len());
    let tables = Tables {
        moov: &moov,
        stsc: Span {
            from: 0,
            to: stsc_end,
            place: STSC,
        },
        sizes: Span {
            from: stsc_end,
            to: sizes_end,
            place: SIZES,
        },
        compact: case.compact,
        offsets: Span {
            from: sizes_end,
            to: moov.len(),
            place: OFFSETS,
        },
        wide: case.wide,
    };
    let outside = matches!(is_outside(alloc, &tables, case), Ok(true));
    let wanted_outside = matches!(wanted, Err(bad) if bad.code == Code::SampleOutside);
    assert_eq!(rt; outside, wanted_outside, "row {row}");
    match (read(alloc, &tables, case), wanted) {
        (Ok(places), Ok(samples)) => check_samples(rt, row, &places, samples),
        (Err(Fail::Bad(found)), Err(fault)) => assert_eq!(rt; found, fault, "row {row}"),
        _ => panic!(rt; "row {row}"),
    }
    Ok(())
}

fn check_samples(rt: &impl Abort, row: usize, places: &Places, samples: &[(i64, i64, u64)]) {
    let len = places.sizes.len();
    assert!(rt; places.kinds.len() == len && places.from.len() == len as usize);
    assert_eq!(rt; len as usize, samples.len(), "row {row}");
    for i in 0..len {
        let found = (
            places.sizes.at(i),
            places.kinds.at(i),
            places.from[i as usize],
        );
        assert_eq!(rt; found, samples[i as usize], "row {row} sample {i}");
    }
}

#[test]
fn places_as_by_hand(rt: HostRuntime) -> Result<(), test::Fail> {
    let two_runs = [0, 2, 1, 2, 1, 3, 1, 1];
    let one_each = [0, 1, 1, 1, 1];
    let ten = [0, 10, 5];
    let one_byte = [0, 1, 1];
    let three_chunks = [0, 3, 100, 200, 300];
    let at_ten = [0, 1, 10];
    let end = [0, 1, u32::MAX, u32::MAX];
    let rows: [(Case, Wanted); 40] = [
        // the last sample ends at the end of the file, and one byte behind it
        (
            plain(&two_runs, &ten, &three_chunks, 310),
            Ok(&[
                (10, 1, 100),
                (10, 1, 110),
                (10, 1, 200),
                (10, 1, 210),
                (10, 1, 300),
            ]),
        ),
        (
            plain(&two_runs, &ten, &three_chunks, 309),
            bad(Code::SampleOutside, OFFSETS),
        ),
        // sizes of 4, 8 and 16 bits
        (
            Case {
                compact: true,
                ..plain(&[0, 1, 1, 3, 1], &[0, 4, 3, 0x1230_0000], &[0, 1, 0], 6)
            },
            Ok(&[(1, 1, 0), (2, 1, 1), (3, 1, 3)]),
        ),
        (
            Case {
                compact: true,
                ..plain(&[0, 1, 1, 2, 1], &[0, 8, 2, 0x05FF_0000], &at_ten, 270)
            },
            Ok(&[(5, 1, 10), (255, 1, 15)]),
        ),
        (
            Case {
                compact: true,
                ..plain(&[0, 1, 1, 2, 1], &[0, 16, 2, 0x0102_0001], &[0, 1, 0], 259)
            },
            Ok(&[(258, 1, 0), (1, 1, 258)]),
        ),
        // a size for each sample, two entries, and a chunk in front of the one before it
        (
            Case {
                entries: 2,
                ..plain(
                    &[0, 2, 1, 1, 2, 2, 2, 1],
                    &[0, 0, 3, 3, 0, 4],
                    &[0, 2, 50, 20],
                    53,
                )
            },
            Ok(&[(3, 2, 50), (0, 1, 20), (4, 1, 20)]),
        ),
        // chunks that share bytes
        (
            plain(&one_each, &[0, 9, 2], &[0, 2, 1, 1], 10),
            Ok(&[(9, 1, 1), (9, 1, 1)]),
        ),
        // places of 64 bits, up to the last
        (
            Case {
                wide: true,
                ..plain(&one_each, &one_byte, &[0, 1, 1, 0], 4_294_967_297)
            },
            Ok(&[(1, 1, 4_294_967_296)]),
        ),
        (
            Case {
                wide: true,
                ..plain(&one_each, &[0, 0, 1, 0], &end, u64::MAX)
            },
            Ok(&[(0, 1, u64::MAX)]),
        ),
        (
            Case {
                wide: true,
                ..plain(&one_each, &one_byte, &end, u64::MAX)
            },
            bad(Code::SampleOutside, OFFSETS),
        ),
        // a sample of no bytes behind the end of the file, and at it
        (
            plain(&one_each, &[0, 0, 1, 0], &at_ten, 9),
            bad(Code::SampleOutside, OFFSETS),
        ),
        (
            plain(&one_each, &[0, 0, 1, 0], &at_ten, 10),
            Ok(&[(0, 1, 10)]),
        ),
        // runs behind the last chunk
        (
            plain(&[0, 2, 1, 1, 1, 5, 9, 1], &one_byte, &at_ten, 11),
            Ok(&[(1, 1, 10)]),
        ),
        (
            plain(&[0, 2, 1, 1, 1, 5, 0, 1], &one_byte, &at_ten, 11),
            bad(Code::ChunkMap, STSC),
        ),
        (
            plain(&[0, 2, 1, 1, 1, 5, 9, 2], &one_byte, &at_ten, 11),
            bad(Code::EntryIndex, STSC),
        ),
        // no chunks and no samples, without and with a run
        (plain(&[0, 0], &[0, 7, 0], &[0, 0], 0), Ok(&[])),
        (plain(&one_each, &[0, 7, 0], &[0, 0], 0), Ok(&[])),
        // chunks and no run; samples and no chunk
        (
            plain(&[0, 0], &[0, 7, 0], &at_ten, 100),
            bad(Code::ChunkMap, STSC),
        ),
        (
            plain(&one_each, &one_byte, &[0, 0], 100),
            bad(Code::ChunkMap, STSC),
        ),
        // the chunks hold fewer samples than there are, and more
        (
            plain(&two_runs, &[0, 10, 6], &three_chunks, 310),
            bad(Code::ChunkMap, STSC),
        ),
        (
            plain(&two_runs, &[0, 10, 4], &three_chunks, 310),
            bad(Code::ChunkMap, STSC),
        ),
        // as many as 2^32 more
        (
            plain(&[0, 1, 1, 1 << 31, 1], &[0, 10, 0], &[0, 2, 0, 0], 310),
            bad(Code::ChunkMap, STSC),
        ),
        // the first chunk isn't 1, or isn't behind that of the run before
        (
            plain(&[0, 1, 2, 1, 1], &one_byte, &at_ten, 11),
            bad(Code::ChunkMap, STSC),
        ),
        (
            plain(&[0, 2, 1, 1, 1, 1, 1, 1], &one_byte, &at_ten, 11),
            bad(Code::ChunkMap, STSC),
        ),
        // entries that aren't there; a run's place before its entry, a run before the next
        (
            plain(&[0, 1, 1, 1, 0], &one_byte, &at_ten, 11),
            bad(Code::EntryIndex, STSC),
        ),
        (
            plain(&[0, 1, 1, 1, 2], &one_byte, &at_ten, 11),
            bad(Code::EntryIndex, STSC),
        ),
        (
            plain(&[0, 1, 1, 0, 2], &one_byte, &at_ten, 11),
            bad(Code::ChunkMap, STSC),
        ),
        (
            plain(&[0, 2, 1, 1, 2, 1, 1, 1], &one_byte, &at_ten, 11),
            bad(Code::EntryIndex, STSC),
        ),
        // a later run that isn't in order, or begins at no chunk
        (
            plain(
                &[0, 3, 1, 1, 1, 3, 1, 1, 2, 1, 1],
                &[0, 10, 3],
                &three_chunks,
                310,
            ),
            bad(Code::ChunkMap, STSC),
        ),
        (
            plain(&[0, 2, 1, 1, 1, 0, 1, 1], &one_byte, &at_ten, 11),
            bad(Code::ChunkMap, STSC),
        ),
        // the fault of a later run before too many samples and before a sample that is outside
        (
            plain(&[0, 2, 1, 9, 1, 3, 1, 2], &ten, &three_chunks, 310),
            bad(Code::EntryIndex, STSC),
        ),
        (
            plain(&[0, 2, 1, 2, 1, 3, 1, 2], &ten, &three_chunks, 100),
            bad(Code::EntryIndex, STSC),
        ),
        // too few samples before a sample that is outside
        (
            plain(&two_runs, &[0, 10, 6], &three_chunks, 100),
            bad(Code::ChunkMap, STSC),
        ),
        // versions and lengths: `stsc` first, its version before its length
        (plain(&[], &one_byte, &[], 11), bad(Code::TableLength, STSC)),
        (
            plain(&[1 << 24], &one_byte, &[1 << 24], 11),
            bad(Code::BoxVersion, STSC),
        ),
        (
            plain(&[0, 2, 1, 1, 1, 5, 9], &one_byte, &[1 << 24], 11),
            bad(Code::TableLength, STSC),
        ),
        (
            plain(&[0, u32::MAX, 1, 1, 1], &one_byte, &at_ten, 11),
            bad(Code::TableLength, STSC),
        ),
        (
            plain(&[0, 1, 2, 1, 1], &one_byte, &[1 << 24], 11),
            bad(Code::BoxVersion, OFFSETS),
        ),
        (
            plain(&one_each, &one_byte, &[0, u32::MAX, 0], 11),
            bad(Code::TableLength, OFFSETS),
        ),
        (
            Case {
                wide: true,
                ..plain(&one_each, &one_byte, &at_ten, 11)
            },
            bad(Code::TableLength, OFFSETS),
        ),
    ];
    for (row, (case, wanted)) in rows.iter().enumerate() {
        check(&rt, rt.alloc(), row, *case, *wanted)?;
    }
    Ok(())
}

fn count(
    rt: &impl Abort,
    alloc: Global,
    sizes: &[u32],
    compact: bool,
) -> Result<Result<u64, Bad>, AllocError> {
    let mut moov = Vec::new(alloc);
    push_words(&mut moov, sizes)?;
    let none = Span {
        from: 0,
        to: 0,
        place: 0,
    };
    let all = Span {
        from: 0,
        to: moov.len(),
        place: SIZES,
    };
    let tables = Tables {
        moov: &moov,
        stsc: none,
        sizes: all,
        compact,
        offsets: none,
        wide: false,
    };
    assert!(rt; all.to <= moov.len());
    Ok(sample_count(&tables))
}

#[test]
fn counts_as_by_hand(rt: HostRuntime) -> Result<(), test::Fail> {
    const LENGTH: Result<u64, Bad> = Err(Bad {
        code: Code::TableLength,
        command: 0,
        file: 0,
        place: SIZES,
    });
    const VERSION: Result<u64, Bad> = Err(Bad {
        code: Code::BoxVersion,
        command: 0,
        file: 0,
        place: SIZES,
    });
    let rows: [(&[u32], bool, Result<u64, Bad>); 20] = [
        (&[0, 0, 2, 1, 1], false, Ok(2)),
        (&[0, 0, 2, 1], false, LENGTH),
        (&[0, 0, 0], false, Ok(0)),
        (&[0, 0, u32::MAX], false, LENGTH),
        // one size for all asks for no list
        (&[0, 7, u32::MAX], false, Ok(4_294_967_295)),
        // flags don't matter, and what follows the list neither
        (&[0x00FF_FFFF, 0, 1, 5, 5], false, Ok(1)),
        // the version before the length, but for a body without one
        (&[], false, LENGTH),
        (&[1 << 24], false, VERSION),
        (&[0, 7], false, LENGTH),
        (&[], true, LENGTH),
        (&[1 << 24], true, VERSION),
        (&[0, 4], true, LENGTH),
        // fields of 4 bits, an odd end padded
        (&[0, 4, 8, 0], true, Ok(8)),
        (&[0, 4, 9, 0], true, LENGTH),
        (&[0, 4, 9, 0, 0], true, Ok(9)),
        // of 8, of 16, and of no other number of bits
        (&[0, 8, 4, 0], true, Ok(4)),
        (&[0, 8, 5, 0], true, LENGTH),
        (&[0, 16, 2, 0], true, Ok(2)),
        (&[0, 16, 3, 0], true, LENGTH),
        (&[0, 5, 0, 0], true, LENGTH),
    ];
    for (row, (sizes, compact, wanted)) in rows.iter().enumerate() {
        assert_eq!(rt;
            count(&rt, rt.alloc(), sizes, *compact)?,
            *wanted,
            "row {row}"
        );
    }
    Ok(())
}
