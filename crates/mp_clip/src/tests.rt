//! Pieces of edit lists in ranges of time, computed by an independent script in exact fractions of a second.

ghost use Rattle.std.specs.Prelude.{◌≡◌, ℕ, ◌<◌, ◌≤◌, ◌+◌, ◌*◌, ◌^◌, List, false};
ghost use Rattle.std.specs.List.{list_any};
ghost use Rattle.mp_timeline.specs.declared.segment.Segment.{Segment};
ghost use Rattle.mp_edits.specs.Segments.{starts_late, total};
ghost use Rattle.mp_clip.specs.Clipped.{CanTell, IsRange};
ghost use Rattle.mp_clip.specs.Shape.{IsShape};

use crate::{ClipShape, Span, clip, clip_back, clip_shape, shapes_can_be_told, touched};
use mp_edits::{capped_total, some_start_late};
use mp_frac::Frac;
use mp_timeline::Segment;
use std::alloc::{AllocError, Global};
use std::process::Abort;
use std::test::Fail;

const MOST: u32 = 4_294_967_295;

const LATE: u64 = 1 << 62;

/// The scales of a track and of its movie, the track's edits, and where a range begins and ends.
type Range<'a> = (u32, u32, &'a [Segment], Frac, Frac);

/// The scales of the pieces, how long they last, their least and greatest start.
type Shape = (u32, u32, u128, u128, u128);

const fn empty(dur: u64) -> Segment {
    Segment::Empty { dur }
}

const fn media(start: u64, dur: u64) -> Segment {
    Segment::Media { start, dur }
}

const fn at(n: i128, d: u32) -> Frac {
    Frac { n, d }
}

/// That edits lie within the limits.
fn check_edits(rt: &impl Abort, edits: &[Segment])
    ensures short { total edits.now < 2 ^ 62 }
    ensures early { list_any starts_late edits.now ≡ false }
{
    assert!(rt; capped_total(edits) < LATE);
    assert!(rt; !some_start_late(edits));
}

/// That a range doesn't begin or end before 0.
fn check_range(rt: &impl Abort, from: Frac, to: Frac)
    ensures { IsRange from to }
{
    assert!(rt; from.d > 0 && to.d > 0);
    assert!(rt; from.n >= 0 && to.n >= 0);
    assert!(rt; from.n.unsigned_abs() < 1 << 94);
    assert!(rt; to.n.unsigned_abs() < 1 << 94);
}

/// Whether the pieces of the range need just this.
fn is_shape(rt: &impl Abort, range: Range, wanted: Option<Shape>) -> bool {
    let (media_scale, movie_scale, edits, from, to) = range;
    assert!(rt; media_scale > 0 && movie_scale > 0);
    check_edits(rt, edits);
    check_range(rt, from, to);
    match (
        clip_shape(edits, media_scale, movie_scale, from, to),
        wanted,
    ) {
        (Some(shape), Some((media_scale, movie_scale, total, least, greatest))) => {
            shape.media_scale == media_scale
                && shape.movie_scale == movie_scale
                && shape.total == total
                && shape.least == least
                && shape.greatest == greatest
        }
        (None, None) => true,
        _ => false,
    }
}

#[test]
fn scales_and_ends_of_pieces(rt: HostRuntime) -> Result<(), Fail> {
    let mixed: [Segment; 4] = [empty(40), media(3, 120), media(7, 0), media(11, 300)];
    let rows: [(Range, Option<Shape>); 16] = [
        // pictures and sound of a film of a minute, from 10 s to 20.5 s
        (
            (30_000, 1000, &[media(2002, 60_060)], at(10, 1), at(205, 10)),
            Some((30_000, 1000, 10_500, 302_002, 302_002)),
        ),
        (
            (44_100, 1000, &[media(1024, 59_977)], at(10, 1), at(205, 10)),
            Some((44_100, 1000, 10_500, 442_024, 442_024)),
        ),
        // a begin that is no whole number of ticks: 1000 / 65,536 are 125 / 8192
        (
            (1000, 1000, &[media(0, 10)], at(1, 65_536), at(1, 100)),
            Some((8_192_000, 8_192_000, 81_795, 125, 125)),
        ),
        (
            (
                48_000,
                44_100,
                &[media(100, 7), media(5000, 9)],
                at(3, 88_200),
                at(29, 176_400),
            ),
            Some((2_352_000, 176_400, 23, 4980, 245_000)),
        ),
        // a third and a half of a second, in parts whose common denominator is above 63 bits
        (
            (
                1000,
                1000,
                &[media(0, 1000)],
                at(1_431_655_765, MOST),
                at(2_147_483_647, MOST - 1),
            ),
            Some((3000, 3000, 500, 1000, 1000)),
        ),
        // no scale serves
        ((1000, 1000, &[media(0, 1000)], at(1, MOST), at(1, 1)), None),
        ((MOST, 1000, &[media(0, 10)], at(1, 1000), at(1, 100)), None),
        (
            (1000, MOST, &[media(0, 10)], at(0, 1), at(1, MOST - 1)),
            None,
        ),
        // the greatest scales, where all is whole
        (
            (
                MOST,
                MOST - 4,
                &[media(17, 10), media(9, 5)],
                at(0, 1),
                at(1, 1),
            ),
            Some((MOST, MOST - 4, 15, 9, 17)),
        ),
        // a range behind the end of the list, and the whole list in one that ends there
        (
            (25, 600, &mixed, at(1000, 1), at(2000, 1)),
            Some((25, 600, 0, 0, 0)),
        ),
        (
            (25, 600, &mixed, at(0, 1), at(1 << 93, 1)),
            Some((25, 600, 460, 3, 11)),
        ),
        // a range of no time, and one that ends before it begins
        (
            (25, 600, &mixed, at(1, 5), at(1, 5)),
            Some((25, 600, 0, 0, 0)),
        ),
        (
            (25, 600, &mixed, at(2, 5), at(1, 5)),
            Some((25, 600, 0, 0, 0)),
        ),
        // starts near 2^62, and behind it
        (
            (1000, 1000, &[media(LATE - 1, 10)], at(1, 1000), at(1, 100)),
            Some((1000, 1000, 9, 1 << 62, 1 << 62)),
        ),
        (
            (3, 1, &[media(LATE - 1, 2)], at(1, 7), at(1, 1)),
            Some((
                21,
                7,
                6,
                32_281_802_128_991_715_324,
                32_281_802_128_991_715_324,
            )),
        ),
        // the last ticks of the longest list
        (
            (
                1000,
                1000,
                &[media(0, LATE - 1)],
                at(4_611_686_018_427_387, 1),
                at(1 << 93, 1),
            ),
            Some((
                1000,
                1000,
                903,
                4_611_686_018_427_387_000,
                4_611_686_018_427_387_000,
            )),
        ),
    ];
    for (index, (range, wanted)) in rows.iter().enumerate() {
        assert!(rt; is_shape(&rt, *range, *wanted), "{index}");
    }
    Ok(())
}

/// So many times the scale.
fn scaled(rt: &impl Abort, scale: u32, by: u32) -> u32
    ensures product { result ≡ scale * by }
    ensures some { 0 < result }
    ensures by { 0 < by }
{
    assert!(rt; by > 0);
    let product = scale.checked_mul(by).expect(rt, "a scale");
    assert!(rt; product > 0);
    product
}

/// That starts so many ticks earlier are neither before the media nor late.
fn check_starts(rt: &impl Abort, shape: ClipShape, by: u32, back: u128)
    ensures room { back < 2 ^ 127 }
    ensures late { back ≤ shape.least * by }
    ensures early { shape.greatest * by < 2 ^ 62 + back }
{
    let least = shape
        .least
        .checked_mul(u128::from(by))
        .expect(rt, "a start");
    let greatest = shape
        .greatest
        .checked_mul(u128::from(by))
        .expect(rt, "a start");
    assert!(rt; back < 1 << 127);
    assert!(rt; back <= least);
    assert!(rt; greatest < (1 << 62) + back);
}

/// That the pieces together are short.
fn check_total(rt: &impl Abort, shape: ClipShape, by: u32)
    ensures { shape.total * by < 2 ^ 62 }
{
    let total = shape
        .total
        .checked_mul(u128::from(by))
        .expect(rt, "a total");
    assert!(rt; total < 1 << 62);
}

/// So many times the scales of a shape, in which its pieces can be told.
fn scales_for(rt: &impl Abort, shape: ClipShape, by: u32, movie_by: u32, back: u128) -> (u32, u32)
    ensures media { 0 < result.0 }
    ensures movie { 0 < result.1 }
    ensures room { back < 2 ^ 127 }
    ensures told { (media movie unit : ℕ) (pieces : List Segment)
        → IsShape media movie unit pieces shape → CanTell unit result.0 result.1 back pieces }
{
    shapes_can_be_told();
    let media = scaled(rt, shape.media_scale, by);
    let movie = scaled(rt, shape.movie_scale, movie_by);
    check_starts(rt, shape, by, back);
    check_total(rt, shape, movie_by);
    (media, movie)
}

/// The pieces of the range in so many times the scales of their shape, each start so many ticks earlier; none
/// where no scales serve.
fn pieces_of(
    rt: &impl Abort,
    alloc: Global,
    range: Range,
    times: (u32, u32),
    back: u128,
) -> Result<Option<Vec<Segment>>, AllocError> {
    let (media_scale, movie_scale, edits, from, to) = range;
    assert!(rt; media_scale > 0 && movie_scale > 0);
    check_edits(rt, edits);
    check_range(rt, from, to);
    let Some(shape) = clip_shape(edits, media_scale, movie_scale, from, to) else {
        return Ok(None);
    };
    let (media, movie) = scales_for(rt, shape, times.0, times.1, back);
    match clip_back(
        alloc,
        edits,
        media_scale,
        movie_scale,
        from,
        to,
        media,
        movie,
        back,
    ) {
        Ok(made) => Ok(Some(made)),
        Err(_) => Err(AllocError),
    }
}

/// Whether the pieces of the range in such scales are these.
fn are_pieces(
    rt: &impl Abort,
    alloc: Global,
    range: Range,
    times: (u32, u32),
    back: u128,
    wanted: &[Segment],
) -> Result<bool, AllocError> {
    match pieces_of(rt, alloc, range, times, back)? {
        Some(pieces) => Ok(pieces.as_slice() == wanted),
        None => Ok(false),
    }
}

/// A range, how many times the scales of the pieces are taken, how much earlier each starts, and the pieces.
type Row<'a> = (Range<'a>, (u32, u32), u128, &'a [Segment]);

#[test]
fn pieces_in_their_scales(rt: HostRuntime) -> Result<(), Fail> {
    let mixed: [Segment; 4] = [empty(40), media(3, 120), media(7, 0), media(11, 300)];
    let rows: [Row; 14] = [
        (
            (30_000, 1000, &[media(2002, 60_060)], at(10, 1), at(205, 10)),
            (1, 1),
            0,
            &[media(302_002, 10_500)],
        ),
        // the samples before the first that is kept last 250,250 ticks
        (
            (30_000, 1000, &[media(2002, 60_060)], at(10, 1), at(205, 10)),
            (1, 1),
            250_250,
            &[media(51_752, 10_500)],
        ),
        (
            (44_100, 1000, &[media(1024, 59_977)], at(10, 1), at(205, 10)),
            (1, 1),
            441_344,
            &[media(680, 10_500)],
        ),
        // ten times the scale of the movie, a hundred times that of the track
        (
            (30_000, 1000, &[media(2002, 60_060)], at(10, 1), at(205, 10)),
            (100, 10),
            0,
            &[media(30_200_200, 105_000)],
        ),
        (
            (
                48_000,
                44_100,
                &[media(100, 7), media(5000, 9)],
                at(3, 88_200),
                at(29, 176_400),
            ),
            (1, 1),
            0,
            &[media(4980, 22), media(245_000, 1)],
        ),
        (
            (
                1000,
                1000,
                &[media(0, 1000)],
                at(1_431_655_765, MOST),
                at(2_147_483_647, MOST - 1),
            ),
            (1, 2),
            0,
            &[media(1000, 1000)],
        ),
        // segments of no time have no piece
        (
            (25, 600, &mixed, at(0, 1), at(1000, 1)),
            (1, 1),
            0,
            &[empty(40), media(3, 120), media(11, 300)],
        ),
        // ends within segments, at the ends of segments, and nowhere
        (
            (25, 600, &mixed, at(1, 30), at(3, 10)),
            (1, 1),
            0,
            &[empty(20), media(3, 120), media(11, 20)],
        ),
        (
            (25, 600, &mixed, at(1, 15), at(1, 5)),
            (1, 1),
            0,
            &[media(3, 80)],
        ),
        ((25, 600, &mixed, at(2, 5), at(1, 5)), (1, 1), 0, &[]),
        // a tenth of a second, but for its last millisecond
        (
            (1000, 1000, &[media(0, 100)], at(99, 1000), at(1, 10)),
            (1, 1),
            0,
            &[media(99, 1)],
        ),
        // starts near 2^62: one tick later needs that tick again
        (
            (1000, 1000, &[media(LATE - 1, 10)], at(0, 1), at(1, 200)),
            (1, 1),
            0,
            &[media(LATE - 1, 5)],
        ),
        (
            (1000, 1000, &[media(LATE - 1, 10)], at(1, 1000), at(1, 100)),
            (1, 1),
            1,
            &[media(LATE - 1, 9)],
        ),
        (
            (3, 1, &[media(LATE - 1, 2)], at(1, 7), at(1, 1)),
            (1, 1),
            27_670_116_110_564_327_421,
            &[media(LATE - 1, 6)],
        ),
    ];
    for (index, (range, times, back, wanted)) in rows.iter().enumerate() {
        let are = are_pieces(&rt, rt.alloc(), *range, *times, *back, *wanted)?;
        assert!(rt; are, "{index}");
    }
    Ok(())
}

#[test]
fn no_start_need_be_earlier(rt: HostRuntime) -> Result<(), Fail> {
    let edits = [media(2002, 60_060)];
    let (from, to) = (at(10, 1), at(205, 10));
    check_edits(&rt, &edits);
    check_range(&rt, from, to);
    let shape = clip_shape(&edits, 30_000, 1000, from, to).expect(&rt, "a shape");
    let (media_scale, movie_scale) = scales_for(&rt, shape, 2, 1, 0);
    match clip(
        rt.alloc(),
        &edits,
        30_000,
        1000,
        from,
        to,
        media_scale,
        movie_scale,
    ) {
        Ok(made) => assert!(rt; made.as_slice() == [media(604_004, 10_500)].as_slice()),
        Err(_) => assert!(rt; false),
    }
    Ok(())
}

/// So many equal segments.
fn equal_segments(
    alloc: Global,
    segment: Segment,
    count: usize,
) -> Result<Vec<Segment>, AllocError> {
    vec![in alloc; segment; count]
}

#[test]
fn lists_of_65535_segments_are_clipped(rt: HostRuntime) -> Result<(), Fail> {
    let full = equal_segments(rt.alloc(), media(7, 1), 65_535)?;
    let less = equal_segments(rt.alloc(), media(7, 1), 65_533)?;
    let all: Range = (1000, 1000, &full, at(0, 1), at(65_535, 1000));
    assert!(rt; are_pieces(&rt, rt.alloc(), all, (1, 1), 0, &full)?);
    let inner: Range = (1000, 1000, &full, at(1, 1000), at(65_534, 1000));
    assert!(rt; are_pieces(&rt, rt.alloc(), inner, (1, 1), 0, &less)?);
    assert!(rt; is_shape(&rt, inner, Some((1000, 1000, 65_533, 7, 7))));
    Ok(())
}

/// Whether the pieces of the range touch these ticks.
fn are_touched(
    rt: &impl Abort,
    alloc: Global,
    range: Range,
    wanted: &[Span],
) -> Result<bool, AllocError> {
    let (media_scale, movie_scale, edits, from, to) = range;
    assert!(rt; media_scale > 0 && movie_scale > 0);
    check_edits(rt, edits);
    check_range(rt, from, to);
    match touched(alloc, edits, media_scale, movie_scale, from, to) {
        Ok(spans) => Ok(spans.as_slice() == wanted),
        Err(_) => Err(AllocError),
    }
}

const fn span(from: u128, to: u128) -> Span {
    Span { from, to }
}

#[test]
fn ticks_that_pieces_touch(rt: HostRuntime) -> Result<(), Fail> {
    let mixed: [Segment; 4] = [empty(40), media(3, 120), media(7, 0), media(11, 300)];
    let rows: [(Range, &[Span]); 6] = [
        // 5 ticks of the track are 120 of the movie, half a second is 12.5
        (
            (25, 600, &mixed, at(0, 1), at(1000, 1)),
            &[span(3, 8), span(11, 24)],
        ),
        ((25, 600, &mixed, at(1, 10), at(1, 5)), &[span(3, 7)]),
        (
            (25, 600, &mixed, at(1, 30), at(3, 10)),
            &[span(3, 8), span(11, 12)],
        ),
        ((25, 600, &mixed, at(2, 5), at(1, 5)), &[]),
        ((25, 600, &[empty(600)], at(0, 1), at(1, 1)), &[]),
        (
            (MOST, 1000, &[media(LATE - 1, 1)], at(1, MOST), at(2, MOST)),
            &[span(4_611_686_018_427_387_904, 4_611_686_018_427_387_905)],
        ),
    ];
    for (index, (range, wanted)) in rows.iter().enumerate() {
        assert!(rt; are_touched(&rt, rt.alloc(), *range, *wanted)?, "{index}");
    }
    Ok(())
}
