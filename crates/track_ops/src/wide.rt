//! The segments of a track in one unit, in which milliseconds and all times of the track are whole.

ghost use Rattle.std.specs.Prelude.{◌≡◌, ℕ, ◌+◌, ◌*◌, ◌<◌, ◌^◌, ◌≤◌, ◌++◌, List, ◌∷◌, map, OnOk, IfOk, IfSome, option_map, unsigned_abs, int_lt, pos};
ghost use Rattle.mp_timeline.specs.declared.segment.Segment.TheVariants.{Empty};
ghost use Rattle.mp_edits.specs.Segments.{total};
ghost use Rattle.mp_movie.specs.Durations.{extent};
ghost use Rattle.mp_movie.specs.StandsFor.{samples_of, track_for};
ghost use Rattle.mp_shown.specs.Segments.{explicit, in_unit, part, pieces, whole_media};
ghost use Rattle.mp_ports.specs.Checks.{placed};
ghost use Rattle.mp_ports.specs.Gives.{Gives, refusal};
ghost use Rattle.track_ops.specs.Delay.{behind, delayed};
ghost use Rattle.track_ops.specs.Wide.{CanStartBehind, CanWiden, as_segment, as_segments};

use mp_movie::{Track, extent};
use mp_ports::{Bad, Code, Fail, NoMemory};
use mp_timeline::Segment;
use std::alloc::Global;

/// A segment in the unit: where in the media it starts, if it shows media, and how long it lasts.
#[derive(Clone, Copy)]
pub(crate) struct Wide {
    pub start: Option<u128>,
    pub length: u128,
}

/// The segments of a track that is shown so many milliseconds later, or earlier where that is below 0, each
/// tick of the movie and of the track in parts of the unit.
///
/// `DelayPastEnd` where nothing is left.
pub(crate) fn delayed(
    alloc: Global,
    movie_scale: u32,
    track: &Track,
    ms: i32,
) -> Result<Vec<Wide>, Fail>
    requires { CanWiden track.now }
    ensures { (files : List (List ℕ)) → Gives refusal (λ segments. as_segments segments.items) result
        (placed 0 (delayed ms movie_scale (track_for files track.now))) }
{
    let time = unit_time(ms, movie_scale, track.scale);
    if is_negative(ms) {
        return sooner(alloc, movie_scale, track, time);
    }
    match later(alloc, movie_scale, track, time) {
        Ok(segments) => Ok(segments),
        Err(_) => Err(Fail::NoMemory),
    }
}

/// Whether the track is shown earlier.
fn is_negative(ms: i32) -> bool
    ensures { result ≡ int_lt ms (pos 0) }
{
    ms < 0
}

/// So many milliseconds, in the unit.
fn unit_time(ms: i32, movie_scale: u32, scale: u32) -> u128
    ensures time { result ≡ unsigned_abs ms * (movie_scale * scale) }
    ensures short { result ≤ 2 ^ 96 }
{
    u128::from(ms.unsigned_abs()) * u128::from(u64::from(movie_scale) * u64::from(scale))
}

/// An empty segment of that time, and then those of the track.
fn later(alloc: Global, movie_scale: u32, track: &Track, time: u128) -> Result<Vec<Wide>, NoMemory>
    requires { CanWiden track.now }
    ensures { (files : List (List ℕ)) → IfOk result (λ segments. as_segments segments.items
        ≡ Empty time ∷ explicit movie_scale (track_for files track.now) 1000) }
{
    let mut segments = Vec::new(alloc);
    segments.push(Wide {
        start: None,
        length: time,
    })?;
    push_segments(&mut segments, movie_scale, track)?;
    Ok(segments)
}

/// What is left of the segments of the track behind that time.
fn sooner(alloc: Global, movie_scale: u32, track: &Track, time: u128) -> Result<Vec<Wide>, Fail>
    requires track { CanWiden track.now }
    requires short { time ≤ 2 ^ 96 }
    ensures { (files : List (List ℕ)) → Gives refusal (λ segments. as_segments segments.items) result
        (placed 0 (behind time (explicit movie_scale (track_for files track.now) 1000))) }
{
    let _scale = track.scale;
    let Ok(segments) = own_segments(alloc, movie_scale, track) else {
        return Err(Fail::NoMemory);
    };
    if total(&segments) <= time {
        return Err(Fail::Bad(Bad::at(Code::DelayPastEnd, 0)));
    }
    match behind(alloc, &segments, time) {
        Ok(left) => Ok(left),
        Err(_) => Err(Fail::NoMemory),
    }
}

/// The segments of the track.
fn own_segments(alloc: Global, movie_scale: u32, track: &Track) -> Result<Vec<Wide>, NoMemory>
    requires { CanWiden track.now }
    ensures { (files : List (List ℕ)) → IfOk result (λ segments. as_segments segments.items
        ≡ explicit movie_scale (track_for files track.now) 1000) }
{
    let mut segments = Vec::new(alloc);
    push_segments(&mut segments, movie_scale, track)?;
    Ok(segments)
}

/// The segments of the track follow, or one of its whole media where it has no edit list.
fn push_segments(segments: &mut Vec<Wide>, movie_scale: u32, track: &Track) -> Result<(), NoMemory>
    requires { CanWiden track.now }
    ensures { (files : List (List ℕ)) → OnOk result (as_segments segments.new.items
        ≡ as_segments segments.old.items ++ explicit movie_scale (track_for files track.now) 1000) }
{
    let of_start = u64::from(movie_scale) * 1000;
    let of_length = u64::from(track.scale) * 1000;
    match &track.edits {
        Some(edits) => push_edits(segments, edits, of_start, of_length),
        None => push_media(segments, whole_extent(track), of_start),
    }
}

/// The latest end of a sample of the track, in ticks of the track.
fn whole_extent(track: &Track) -> u64
    requires { CanWiden track.now }
    ensures { (files : List (List ℕ)) → result ≡ extent (samples_of files track.now) }
{
    extent(track) as u64
}

/// The segments of an edit list follow, in the unit.
fn push_edits(
    segments: &mut Vec<Wide>,
    edits: &[Segment],
    of_start: u64,
    of_length: u64,
) -> Result<(), NoMemory>
    ensures { OnOk result (as_segments segments.new.items
        ≡ as_segments segments.old.items ++ map (in_unit of_start of_length) edits.now) }
{
    for segment in edits {
        segments.push(in_unit(*segment, of_start, of_length))?;
    }
    Ok(())
}

/// The segment in the unit.
fn in_unit(segment: Segment, of_start: u64, of_length: u64) -> Wide
    ensures { as_segment result ≡ in_unit of_start of_length segment }
{
    match segment {
        Segment::Empty { dur } => Wide {
            start: None,
            length: u128::from(dur) * u128::from(of_length),
        },
        Segment::Media { start, dur } => Wide {
            start: Some(u128::from(start) * u128::from(of_start)),
            length: u128::from(dur) * u128::from(of_length),
        },
    }
}

/// A segment of so many ticks of media follows, unless there are none.
fn push_media(segments: &mut Vec<Wide>, ticks: u64, of_start: u64) -> Result<(), NoMemory>
    ensures { OnOk result (as_segments segments.new.items
        ≡ as_segments segments.old.items ++ whole_media (ticks * of_start)) }
{
    let length = u128::from(ticks) * u128::from(of_start);
    if length > 0 {
        segments.push(Wide {
            start: Some(0),
            length,
        })?;
    }
    Ok(())
}

/// How long the segments last together.
fn total(segments: &[Wide]) -> u128
    requires { total (as_segments segments.now) < 2 ^ 128 }
    ensures { result ≡ total (as_segments segments.now) }
{
    let mut sum = 0;
    for segment in segments {
        sum += segment.length;
    }
    sum
}

/// What is left of the segments behind that time.
fn behind(alloc: Global, segments: &[Wide], time: u128) -> Result<Vec<Wide>, NoMemory>
    requires { CanStartBehind time segments.now }
    ensures { IfOk result (λ left. as_segments left.items
        ≡ pieces time (total (as_segments segments.now)) (as_segments segments.now)) }
{
    let mut pieces = Vec::new(alloc);
    let mut left = time;
    for segment in segments {
        if left < segment.length {
            pieces.push(part_behind(*segment, left))?;
        }
        left = left.saturating_sub(segment.length);
    }
    Ok(pieces)
}

/// What is left of the segment behind that time.
fn part_behind(segment: Wide, time: u128) -> Wide
    requires before { time < segment.length }
    requires room { IfSome segment.start (λ start. start + time < 2 ^ 128) }
    ensures { as_segment result ≡ part (as_segment segment) time segment.length }
{
    Wide {
        start: start_behind(segment.start, time),
        length: segment.length - time,
    }
}

/// The start, so much later.
fn start_behind(start: Option<u128>, time: u128) -> Option<u128>
    requires { IfSome start (λ start. start + time < 2 ^ 128) }
    ensures { result ≡ option_map (λ start. start + time) start }
{
    match start {
        Some(start) => Some(start + time),
        None => None,
    }
}
