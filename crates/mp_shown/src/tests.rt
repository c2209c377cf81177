//! What tracks show at moments. The numbers were computed by an independent script over whole fractions.

ghost use Rattle.std.specs.Prelude.{◌≡◌};
ghost use Rattle.mp_timeline.specs.declared.segment.Segment.TheVariants.{Empty, Media};

use crate::plain_shown;
use mp_frac::Frac;
use mp_timeline::{PlainSample, PlainTrack, Segment, TrackHead};
use std::alloc::{AllocError, Global};
use std::process::Abort;
use std::test::Fail;

/// Composition times and durations of samples, edits, a moment, and the samples that are shown.
#[derive(Clone, Copy)]
struct Row<'a> {
    movie: u32,
    scale: u32,
    samples: &'a [(i64, u32)],
    edits: Option<&'a [Segment]>,
    n: i128,
    d: u32,
    wanted: &'a [u32],
}

const fn empty(dur: u64) -> Segment
    ensures { result ≡ Empty dur }
{
    Segment::Empty { dur }
}

const fn media(start: u64, dur: u64) -> Segment
    ensures { result ≡ Media start dur }
{
    Segment::Media { start, dur }
}

/// The track of a row.
fn track_of(alloc: Global, row: Row) -> Result<PlainTrack, AllocError> {
    let mut samples = Vec::new(alloc);
    for (comp, dur) in row.samples {
        samples.push(PlainSample {
            bytes: Vec::new(alloc),
            decode: 0,
            dur: *dur,
            comp: *comp,
            sync: true,
            entry: 1,
        })?;
    }
    let edits = match row.edits {
        Some(edits) => Some(Vec::from_slice(alloc, edits)?),
        None => None,
    };
    Ok(PlainTrack {
        number: 1,
        head: TrackHead::plain(alloc, *b"vide")?,
        scale: row.scale,
        entries: Vec::new(alloc),
        samples,
        edits,
    })
}

/// Whether the track of a row shows just these samples.
fn is_as_wanted(rt: &impl Abort, alloc: Global, row: Row) -> Result<bool, AllocError> {
    let track = track_of(alloc, row)?;
    assert!(rt; row.movie > 0 && track.scale > 0 && row.d > 0 && row.n >= 0);
    assert!(rt; row.n.unsigned_abs() < 1 << 94 && track.samples.len() < 1 << 32);
    let at = Frac { n: row.n, d: row.d };
    match plain_shown(alloc, row.movie, &track, at) {
        Ok(numbers) => Ok(numbers.as_slice() == row.wanted),
        Err(_) => Ok(false),
    }
}

#[test]
fn samples_at_moments(rt: HostRuntime) -> Result<(), Fail> {
    let rows = [
        // 15 pictures kept of 50, the cut lies within the third
        Row {
            movie: 1000,
            scale: 50,
            samples: &[
                (0, 2),
                (2, 2),
                (4, 2),
                (6, 2),
                (8, 2),
                (10, 2),
                (12, 2),
                (14, 2),
                (16, 2),
                (18, 2),
                (20, 2),
                (22, 2),
                (24, 2),
                (26, 2),
                (28, 2),
            ],
            edits: Some(&[media(5, 500)]),
            n: 0,
            d: 1,
            wanted: &[3],
        },
        // where an empty segment meets the media, the media is shown
        Row {
            movie: 1000,
            scale: 25,
            samples: &[(0, 2), (6, 2), (2, 2), (4, 2)],
            edits: Some(&[empty(40), media(0, 80), media(4, 0), media(4, 80)]),
            n: 1,
            d: 25,
            wanted: &[1],
        },
        // nothing before
        Row {
            movie: 1000,
            scale: 25,
            samples: &[(0, 2), (6, 2), (2, 2), (4, 2)],
            edits: Some(&[empty(40), media(0, 80), media(4, 0), media(4, 80)]),
            n: 39,
            d: 1000,
            wanted: &[],
        },
        // where two segments meet, with one of no time between them, the later
        Row {
            movie: 1000,
            scale: 25,
            samples: &[(0, 2), (6, 2), (2, 2), (4, 2)],
            edits: Some(&[empty(40), media(0, 80), media(4, 0), media(4, 80)]),
            n: 3,
            d: 25,
            wanted: &[4],
        },
        // nothing at the end
        Row {
            movie: 1000,
            scale: 25,
            samples: &[(0, 2), (6, 2), (2, 2), (4, 2)],
            edits: Some(&[empty(40), media(0, 80), media(4, 0), media(4, 80)]),
            n: 5,
            d: 25,
            wanted: &[],
        },
        // a sample isn't shown at its end
        Row {
            movie: 1000,
            scale: 25,
            samples: &[(0, 2), (6, 2), (2, 2), (4, 2)],
            edits: None,
            n: 2,
            d: 25,
            wanted: &[3],
        },
        // nor the media
        Row {
            movie: 1000,
            scale: 25,
            samples: &[(0, 2), (6, 2), (2, 2), (4, 2)],
            edits: None,
            n: 8,
            d: 25,
            wanted: &[],
        },
        // the last tick
        Row {
            movie: 1000,
            scale: 25,
            samples: &[(0, 2), (6, 2), (2, 2), (4, 2)],
            edits: None,
            n: 199,
            d: 625,
            wanted: &[2],
        },
        // no samples
        Row {
            movie: 600,
            scale: 1,
            samples: &[],
            edits: None,
            n: 0,
            d: 1,
            wanted: &[],
        },
        // a media that ends at its start
        Row {
            movie: 600,
            scale: 1,
            samples: &[(-5, 5)],
            edits: None,
            n: 0,
            d: 1,
            wanted: &[],
        },
        // three at once, and never one of no time
        Row {
            movie: 600,
            scale: 90_000,
            samples: &[(-5, 9), (0, 4), (2, 0), (1, 3)],
            edits: None,
            n: 1,
            d: 45_000,
            wanted: &[1, 2, 4],
        },
        // starts near 2^62
        Row {
            movie: 1,
            scale: 1,
            samples: &[
                (4_611_686_018_427_387_903, 4_294_967_295),
                (4_611_686_018_427_387_910, 1),
            ],
            edits: Some(&[media(4_611_686_018_427_387_903, 10)]),
            n: 7,
            d: 1,
            wanted: &[1, 2],
        },
        // the greatest scales
        Row {
            movie: 4_294_967_295,
            scale: 4_294_967_295,
            samples: &[(4_611_686_018_427_387_903, 4_294_967_295)],
            edits: Some(&[media(4_611_686_018_427_387_902, 4_611_686_018_427_387_903)]),
            n: 1,
            d: 4_294_967_295,
            wanted: &[1],
        },
        // beyond 128 bits in one unit
        Row {
            movie: 4_294_967_295,
            scale: 4_294_967_294,
            samples: &[(4_611_686_018_427_387_904, 4_294_967_295)],
            edits: Some(&[media(4_611_686_018_427_387_903, 2_305_843_009_213_693_952)]),
            n: 2_305_843_009_213_693_951,
            d: 4_294_967_295,
            wanted: &[],
        },
        // a common denominator past 64 bits
        Row {
            movie: 4_294_967_295,
            scale: 4_294_967_291,
            samples: &[
                (4_611_686_022_722_355_183, 17),
                (4_611_686_022_722_355_193, 30),
            ],
            edits: Some(&[
                media(7, 3),
                media(4_611_686_018_427_387_903, 2_305_843_009_213_693_952),
            ]),
            n: 4_294_967_295,
            d: 4_294_967_293,
            wanted: &[1, 2],
        },
        // the latest composition time
        Row {
            movie: 1,
            scale: 4_294_967_295,
            samples: &[
                (9_223_372_036_854_775_807, 4_294_967_295),
                (-9_223_372_036_854_775_808, 4_294_967_295),
            ],
            edits: None,
            n: 2_147_483_649,
            d: 1,
            wanted: &[1],
        },
        Row {
            movie: 44_100,
            scale: 48_000,
            samples: &[(-2, 1), (2, 0), (3, 5)],
            edits: Some(&[media(1, 1), media(5, 2), media(4, 1), media(5, 2)]),
            n: 8,
            d: 96_000,
            wanted: &[3],
        },
        Row {
            movie: 7,
            scale: 25,
            samples: &[(1, 3), (5, 1), (4, 5), (8, 5), (17, 0), (11, 2)],
            edits: Some(&[media(1, 1)]),
            n: 331_500_164,
            d: 4_294_967_295,
            wanted: &[1],
        },
        Row {
            movie: 1000,
            scale: 25,
            samples: &[(2, 0), (1, 1), (-1, 5), (9, 0), (10, 3)],
            edits: Some(&[media(4, 2), media(1, 1)]),
            n: 10_707_662,
            d: 4_294_967_295,
            wanted: &[2, 3],
        },
        Row {
            movie: 44_100,
            scale: 25,
            samples: &[(2, 5), (2, 2)],
            edits: Some(&[media(1, 2), media(5, 5292)]),
            n: 8090,
            d: 132_300,
            wanted: &[1],
        },
        Row {
            movie: 600,
            scale: 48_000,
            samples: &[(0, 0), (4, 0), (-2, 5), (8, 1), (7, 2)],
            edits: Some(&[media(2, 1)]),
            n: 0,
            d: 1800,
            wanted: &[3],
        },
        Row {
            movie: 44_100,
            scale: 48_000,
            samples: &[(1, 1), (-1, 2), (1, 0), (2, 3), (3, 3), (6, 5)],
            edits: None,
            n: 14,
            d: 96_000,
            wanted: &[6],
        },
        Row {
            movie: 600,
            scale: 48_000,
            samples: &[(-3, 3), (7, 2), (9, 0), (8, 5), (13, 5)],
            edits: Some(&[media(0, 2), empty(2), media(6, 1)]),
            n: 767_724,
            d: 4_294_967_279,
            wanted: &[2, 4],
        },
        Row {
            movie: 44_100,
            scale: 90_000,
            samples: &[(3, 5)],
            edits: Some(&[media(2, 2), media(3, 1), media(3, 0), media(1, 1)]),
            n: 4,
            d: 180_000,
            wanted: &[1],
        },
        Row {
            movie: 44_100,
            scale: 25,
            samples: &[(1, 0), (-1, 1), (5, 2), (7, 5)],
            edits: Some(&[media(6, 5292), media(5, 1765), media(1, 0), media(6, 5292)]),
            n: 259_975_162,
            d: 4_294_967_279,
            wanted: &[4],
        },
        Row {
            movie: 1000,
            scale: 25,
            samples: &[(-2, 3), (7, 3), (7, 5)],
            edits: None,
            n: 85_418,
            d: 196_611,
            wanted: &[3],
        },
        Row {
            movie: 1000,
            scale: 11,
            samples: &[(3, 5), (8, 1), (6, 5), (11, 1), (13, 2)],
            edits: None,
            n: 1442,
            d: 3000,
            wanted: &[1],
        },
        Row {
            movie: 600,
            scale: 25,
            samples: &[(-1, 5), (7, 5), (8, 3)],
            edits: Some(&[media(2, 1)]),
            n: 5_268_035,
            d: 4_294_967_295,
            wanted: &[1],
        },
    ];
    for (index, row) in rows.iter().enumerate() {
        assert!(rt; is_as_wanted(&rt, rt.alloc(), *row)?, "{index}");
    }
    Ok(())
}
