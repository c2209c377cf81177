//! Limits and their order, scales: the answers were worked out by hand.

ghost use Rattle.std.specs.Prelude.{◌≤◌};
ghost use Rattle.mp_columns.specs.declared.columns.TheConstants.{MOST_ITEMS};
ghost use Rattle.mp_frac.specs.Time.{IsInRange};

use super::*;
use mp_columns::{Col, Column, MOST_ITEMS};
use mp_frac::Frac;
use mp_ports::{Code, NoMemory};
use mp_timeline::{EntryBytes, MovieHead, Segment, TrackHead};
use std::alloc::Global;
use std::process::Abort;
use std::test::Fail;

/// The first number that 32 bits don't hold.
const LONG: i64 = 1 << 32;
/// The first duration and the first start above their limits.
const LATE: u64 = 1 << 62;

// What a track of a row has: columns, edits and so many empty ones behind them, entries.
#[derive(Clone, Copy)]
struct Case<'a> {
    deltas: &'a [i64],
    offsets: &'a [i64],
    sizes: &'a [i64],
    edits: &'a [Segment],
    more_edits: usize,
    entries: usize,
}

const PLAIN: Case = Case {
    deltas: &[],
    offsets: &[],
    sizes: &[],
    edits: &[],
    more_edits: 0,
    entries: 1,
};

fn column(rt: &impl Abort, alloc: Global, items: &[i64]) -> Result<Col, NoMemory> {
    let mut column = Col::new(alloc);
    for item in items {
        assert!(rt; column.len() < MOST_ITEMS);
        column.push(*item)?;
    }
    Ok(column)
}

fn entries(alloc: Global, count: usize) -> Result<Vec<EntryBytes>, NoMemory> {
    let mut entries = Vec::new(alloc);
    for _ in 0..count {
        entries.push(EntryBytes {
            bytes: Vec::new(alloc),
        })?;
    }
    Ok(entries)
}

fn edits(alloc: Global, case: Case) -> Result<Option<Vec<Segment>>, NoMemory> {
    if case.edits.is_empty() && case.more_edits == 0 {
        return Ok(None);
    }
    let mut edits = Vec::from_slice(alloc, case.edits)?;
    for _ in 0..case.more_edits {
        edits.push(Segment::Empty { dur: 0 })?;
    }
    Ok(Some(edits))
}

fn with_entries(alloc: Global, case: Case) -> Result<Track, NoMemory> {
    let head = TrackHead::plain(alloc, *b"vide")?;
    let entries = entries(alloc, case.entries)?;
    Ok(Track::new(alloc, 1, head, 1000, entries))
}

fn with_deltas(rt: &impl Abort, alloc: Global, case: Case) -> Result<Track, NoMemory> {
    let mut track = with_entries(alloc, case)?;
    track.deltas = column(rt, alloc, case.deltas)?;
    Ok(track)
}

fn with_offsets(rt: &impl Abort, alloc: Global, case: Case) -> Result<Track, NoMemory> {
    let mut track = with_deltas(rt, alloc, case)?;
    track.offsets = column(rt, alloc, case.offsets)?;
    Ok(track)
}

fn with_sizes(rt: &impl Abort, alloc: Global, case: Case) -> Result<Track, NoMemory> {
    let mut track = with_offsets(rt, alloc, case)?;
    track.sizes = column(rt, alloc, case.sizes)?;
    Ok(track)
}

fn track(rt: &impl Abort, alloc: Global, case: Case) -> Result<Track, NoMemory> {
    let mut track = with_sizes(rt, alloc, case)?;
    track.edits = edits(alloc, case)?;
    Ok(track)
}

fn movie(alloc: Global, tracks: Vec<Track>) -> MovieParts {
    MovieParts {
        scale: 1000,
        head: MovieHead::plain(alloc),
        tracks,
    }
}

fn check_row(
    rt: &impl Abort,
    alloc: Global,
    row: usize,
    first: Case,
    second: Case,
    wanted: Option<Code>,
) -> Result<(), NoMemory> {
    let mut tracks = Vec::new(alloc);
    tracks.push(track(rt, alloc, first)?)?;
    tracks.push(track(rt, alloc, second)?)?;
    assert_eq!(rt; check_fits(&movie(alloc, tracks)), wanted, "row {row}");
    Ok(())
}

const fn empty(dur: u64) -> Segment {
    Segment::Empty { dur }
}

const fn media(start: u64, dur: u64) -> Segment {
    Segment::Media { start, dur }
}

#[test]
fn first_limits(rt: HostRuntime) -> Result<(), Fail> {
    let long = Case {
        deltas: &[1, LONG],
        ..PLAIN
    };
    let wide = Case {
        offsets: &[-1, LONG - 1],
        ..PLAIN
    };
    let rows: [(Case, Case, Option<Code>); 23] = [
        (PLAIN, PLAIN, None),
        (long, PLAIN, Some(Code::DeltaLimit)),
        (
            Case {
                deltas: &[LONG - 1],
                ..PLAIN
            },
            PLAIN,
            None,
        ),
        (wide, PLAIN, Some(Code::OffsetLimit)),
        (
            Case {
                offsets: &[LONG],
                ..PLAIN
            },
            PLAIN,
            Some(Code::OffsetLimit),
        ),
        (
            Case {
                offsets: &[0, LONG - 1],
                ..PLAIN
            },
            PLAIN,
            None,
        ),
        (
            Case {
                offsets: &[-2_147_483_648, 2_147_483_647],
                ..PLAIN
            },
            PLAIN,
            None,
        ),
        (
            Case {
                offsets: &[-2_147_483_649],
                ..PLAIN
            },
            PLAIN,
            Some(Code::OffsetLimit),
        ),
        (
            Case {
                offsets: &[-1, 2_147_483_648],
                ..PLAIN
            },
            PLAIN,
            Some(Code::OffsetLimit),
        ),
        // Each track's offsets fit alone, and not all together.
        (
            Case {
                offsets: &[-1],
                ..PLAIN
            },
            Case {
                offsets: &[LONG - 1],
                ..PLAIN
            },
            None,
        ),
        (
            Case {
                edits: &[media(0, LATE)],
                ..PLAIN
            },
            PLAIN,
            Some(Code::DurationLimit),
        ),
        (
            Case {
                edits: &[media(0, LATE - 2), empty(1)],
                ..PLAIN
            },
            PLAIN,
            None,
        ),
        // The sum is 2^64: it would be 0 in 64 bits.
        (
            Case {
                edits: &[empty(1 << 63), empty(1 << 63)],
                ..PLAIN
            },
            PLAIN,
            Some(Code::DurationLimit),
        ),
        (
            Case {
                edits: &[media(LATE, 0)],
                ..PLAIN
            },
            PLAIN,
            Some(Code::StartLimit),
        ),
        (
            Case {
                edits: &[media(LATE - 1, 0)],
                ..PLAIN
            },
            PLAIN,
            None,
        ),
        (
            Case {
                sizes: &[LONG],
                ..PLAIN
            },
            PLAIN,
            Some(Code::SizeLimit),
        ),
        (
            Case {
                sizes: &[LONG - 1],
                ..PLAIN
            },
            PLAIN,
            None,
        ),
        (
            Case {
                entries: 256,
                ..PLAIN
            },
            PLAIN,
            Some(Code::EntryLimit),
        ),
        (
            Case {
                entries: 255,
                ..PLAIN
            },
            PLAIN,
            None,
        ),
        (
            Case {
                more_edits: 65_536,
                ..PLAIN
            },
            PLAIN,
            Some(Code::SegmentLimit),
        ),
        (
            Case {
                more_edits: 65_535,
                ..PLAIN
            },
            PLAIN,
            None,
        ),
        // The order is that of the codes, and not that of the tracks.
        (wide, long, Some(Code::DeltaLimit)),
        (
            Case {
                entries: 256,
                ..PLAIN
            },
            Case {
                edits: &[media(LATE, LATE)],
                ..PLAIN
            },
            Some(Code::DurationLimit),
        ),
    ];
    for (row, (first, second, wanted)) in rows.iter().enumerate() {
        check_row(&rt, rt.alloc(), row, *first, *second, *wanted)?;
    }
    Ok(())
}

fn many_samples(alloc: Global, count: u32) -> Result<Track, NoMemory>
    requires { count ≤ MOST_ITEMS }
{
    let head = TrackHead::plain(alloc, *b"vide")?;
    let mut track = Track::new(alloc, 1, head, 1000, Vec::new(alloc));
    let mut deltas = Col::new(alloc);
    deltas.push_copies(1, count)?;
    track.deltas = deltas;
    Ok(track)
}

// All samples count together: 8,388,608 are not too many; 64 tracks neither.
#[test]
fn numbers_of_samples_and_tracks(rt: HostRuntime) -> Result<(), Fail> {
    let alloc = rt.alloc();
    for (first, second, wanted) in [
        (4_194_304, 4_194_304, None),
        (4_194_305, 4_194_304, Some(Code::SampleLimit)),
        (MOST_ITEMS, 1, Some(Code::SampleLimit)),
    ] {
        assert!(rt; first <= MOST_ITEMS && second <= MOST_ITEMS);
        let mut tracks = Vec::new(alloc);
        tracks.push(many_samples(alloc, first)?)?;
        tracks.push(many_samples(alloc, second)?)?;
        assert_eq!(rt; check_fits(&movie(alloc, tracks)), wanted);
    }
    for (count, wanted) in [(64, None), (65, Some(Code::TrackLimit))] {
        let mut tracks = Vec::new(alloc);
        for _ in 0..count {
            tracks.push(track(&rt, alloc, PLAIN)?)?;
        }
        assert_eq!(rt; check_fits(&movie(alloc, tracks)), wanted);
    }
    Ok(())
}

fn time(rt: &impl Abort, n: i128, d: u32) -> Frac
    ensures { IsInRange result }
{
    assert!(rt; d > 0 && n.unsigned_abs() < 1 << 94);
    Frac { n, d }
}

// The least multiple of the scale in which both times are whole; none above 4,294,967,295.
#[test]
fn scales_of_times(rt: HostRuntime) -> Result<(), Fail> {
    let rows: [(u32, i128, u32, i128, u32, Option<u32>); 6] = [
        (1000, 0, 7, 0, 1, Some(1000)),
        (600, 1, 1200, 1, 1, Some(1200)),
        (1000, 1, 3, -1, 7, Some(21_000)),
        (44_100, 1, 1000, 1, 1000, Some(441_000)),
        (4_294_967_295, 5, 5, 0, 1, Some(4_294_967_295)),
        (4_294_967_295, 1, 3, 1, 2, None),
    ];
    for (scale, n, d, m, e, wanted) in rows {
        let head = TrackHead::plain(rt.alloc(), *b"soun")?;
        assert!(rt; scale > 0);
        let track = Track::new(rt.alloc(), 1, head, scale, Vec::new(rt.alloc()));
        let times = [time(&rt, n, d), time(&rt, m, e)];
        assert_eq!(rt; settle(&track, &times), wanted, "{scale}");
        assert_eq!(rt; settle(&track, &[]), Some(scale));
    }
    Ok(())
}
