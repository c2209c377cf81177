//! A track shows other segments, in scales in which their times are whole.

ghost use Rattle.std.specs.Prelude.{◌≡◌, ℕ, ◌*◌, ◌/◌, ◌<◌, ◌^◌, List, [], ◌∷◌, ◌++◌, length, map, get_or, nat_le, IfOk};
ghost use Rattle.mp_frac.specs.Divisors.{IsGreatestCommon, most, up_to};
ghost use Rattle.mp_clip.specs.Clipped.{starts};
ghost use Rattle.mp_edits.specs.Segments.{duration};
ghost use Rattle.mp_movie.specs.Placed.{PlacedTrack};
ghost use Rattle.mp_ports.specs.Checks.{placed};
ghost use Rattle.mp_ports.specs.Gives.{Gives, refusal};
ghost use Rattle.track_ops.specs.Kept.{lasts};
ghost use Rattle.track_ops.specs.KeptShown.{IsShowing, capped_in, kept_reshown, kept_shown, others_last_long, shown_limit};
ghost use Rattle.track_ops.specs.Summed.{within};
ghost use Rattle.track_ops.specs.Wide.{as_segment, as_segments};

use crate::adding::lasts_long;
use crate::summary::segments_in;
use crate::ticks::limit_in;
use crate::wide::Wide;
use mp_clip::{common_divisor, divisors_give_scales, grown_scale};
use mp_edits::{capped_total, some_start_late};
use mp_frac::wholeness_is_division;
use mp_movie::{Movie, Track};
use mp_ports::{Bad, Code, Fail, NoMemory};
use mp_timeline::Segment;
use std::alloc::Global;

/// The most segments of an edit list.
const MOST_SEGMENTS: usize = 65_535;
/// The least tick that an edit list doesn't reach.
const TICKS_END: u64 = 1 << 62;

/// The edits of a track, the scale of its own in which their starts are whole, and the movie's scale in which
/// their durations are.
#[derive(Drop)]
pub(crate) struct Showing {
    pub media: u32,
    pub movie: u32,
    pub edits: Vec<Segment>,
}

/// How the track at that place shows these segments. `ScaleLimit` where no scale serves, then the first limit.
pub(crate) fn make_showing(
    alloc: Global,
    movie: &Movie,
    at: usize,
    segments: &[Wide],
) -> Result<Showing, Fail>
    requires inside { at < length movie.now.tracks }
    ensures shown { (track : PlacedTrack) → Gives refusal
        (λ made. kept_shown at (get_or movie.now.tracks at track) made.media made.edits.items made.movie movie.now)
        result
        (placed 0 (kept_reshown at movie.now (get_or movie.now.tracks at track) (as_segments segments.now))) }
    ensures showing { (track : PlacedTrack) → IfOk result
        (λ made. IsShowing at movie.now (get_or movie.now.tracks at track)
        (as_segments segments.now) made.media made.edits.items made.movie) }
{
    divisors_give_scales();
    wholeness_is_division();
    let track = &movie.tracks()[at];
    let movie_scale = movie.scale();
    let track_scale = track.scale;
    let starts = divisor_of_starts(movie_scale, segments);
    let lengths = divisor_of_lengths(track_scale, segments);
    let Some(media) = scale_for(track_scale, movie_scale, starts) else {
        return Err(Fail::Bad(Bad::at(Code::ScaleLimit, 0)));
    };
    let Some(scale) = scale_for(movie_scale, track_scale, lengths) else {
        return Err(Fail::Bad(Bad::at(Code::ScaleLimit, 0)));
    };
    let Ok(edits) = told(alloc, segments, starts, lengths) else {
        return Err(Fail::NoMemory);
    };
    let showing = Showing {
        media,
        movie: scale,
        edits,
    };
    match limit_of(movie, track, &showing) {
        None => Ok(showing),
        Some(code) => Err(Fail::Bad(Bad::at(code, 0))),
    }
}

/// The multiple of a scale in which parts of the unit with that divisor are whole, by the other scale.
fn scale_for(scale: u32, other: u32, divisor: u64) -> Option<u32>
    requires { 0 < divisor }
    ensures { result ≡ up_to most (scale * (other * 1000 / divisor)) }
{
    grown_scale(scale, u64::from(other) * 1000, divisor)
}

/// The greatest common divisor of the starts of segments and of a tick of the track, in the unit.
fn divisor_of_starts(movie_scale: u32, segments: &[Wide]) -> u64
    requires { 0 < movie_scale }
    ensures common { IsGreatestCommon (movie_scale * 1000 ∷ starts (as_segments segments.now)) result }
    ensures some { 0 < result }
{
    let mut divisor = u64::from(movie_scale) * 1000;
    for segment in segments {
        divisor = with_start(divisor, *segment);
    }
    divisor
}

/// The greatest common divisor of a number and of the start of a segment, where it has one.
fn with_start(number: u64, segment: Wide) -> u64
    requires { 0 < number }
    ensures some { 0 < result }
    ensures common { (more : List ℕ) (divisor : ℕ) → IsGreatestCommon (result ∷ more) divisor
        → IsGreatestCommon (number ∷ starts (as_segment segment ∷ []) ++ more) divisor }
{
    match segment.start {
        None => number,
        Some(start) => common_divisor(number, start),
    }
}

/// The greatest common divisor of how long segments last and of a tick of the movie, in the unit.
fn divisor_of_lengths(track_scale: u32, segments: &[Wide]) -> u64
    requires { 0 < track_scale }
    ensures common { IsGreatestCommon (track_scale * 1000 ∷ map duration (as_segments segments.now)) result }
    ensures some { 0 < result }
{
    let mut divisor = u64::from(track_scale) * 1000;
    for segment in segments {
        divisor = common_divisor(divisor, segment.length);
    }
    divisor
}

/// The segments in ticks that have so many of the unit; a number above 64 bits is the last of these.
fn told(
    alloc: Global,
    segments: &[Wide],
    of_start: u64,
    of_length: u64,
) -> Result<Vec<Segment>, NoMemory>
    requires starts { 0 < of_start }
    requires lengths { 0 < of_length }
    ensures { IfOk result (λ told. told.items ≡ map (capped_in of_start of_length) (as_segments segments.now)) }
{
    let mut told = Vec::new(alloc);
    for segment in segments {
        told.push(capped_in(*segment, of_start, of_length))?;
    }
    Ok(told)
}

/// The segment in such ticks.
fn capped_in(segment: Wide, of_start: u64, of_length: u64) -> Segment
    requires starts { 0 < of_start }
    requires lengths { 0 < of_length }
    ensures { result ≡ capped_in of_start of_length (as_segment segment) }
{
    let dur = capped(segment.length / u128::from(of_length));
    match segment.start {
        None => Segment::Empty { dur },
        Some(start) => Segment::Media {
            start: capped(start / u128::from(of_start)),
            dur,
        },
    }
}

/// The number, at most 2^64 - 1.
fn capped(number: u128) -> u64
    ensures { result ≡ within number }
{
    u64::try_from(number).unwrap_or(u64::MAX)
}

/// The first limit that the movie passes where that track shows these edits.
fn limit_of(movie: &Movie, track: &Track, showing: &Showing) -> Option<Code>
    requires { 0 < track.now.scale }
    ensures { result ≡ shown_limit movie.now track.now showing.now.media showing.now.edits.items showing.now.movie }
{
    if let Some(code) = limit_in(track, showing.media) {
        return Some(code);
    }
    if capped_total(&showing.edits) >= TICKS_END
        || others_last_long(movie.tracks(), track.number, movie.scale(), showing.movie)
    {
        return Some(Code::DurationLimit);
    }
    if some_start_late(&showing.edits) {
        return Some(Code::StartLimit);
    }
    if showing.edits.len() > MOST_SEGMENTS {
        return Some(Code::SegmentLimit);
    }
    None
}

/// Whether an edit list of another track lasts 2^62 ticks of the new scale or more.
fn others_last_long(tracks: &[Track], number: u32, old: u32, new: u32) -> bool
    ensures { result ≡ others_last_long number old new tracks.now }
{
    tracks.iter().any(|track| track.number != number && edits_last_long(track, old, new))
}

/// Whether the edit list of the track does.
fn edits_last_long(track: &Track, old: u32, new: u32) -> bool
    ensures { result ≡ nat_le (2 ^ 62 * old) (within (lasts track.now) * new) }
{
    lasts_long(capped_total(segments_in(track)), old, new)
}
