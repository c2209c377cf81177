//! The samples that a track shows at a moment.

ghost use Rattle.std.specs.Prelude.{◌≡◌, ℕ, ◌<◌, ◌≤◌, ◌*◌, ◌-◌, ◌^◌, ℤ, pos, ◌+ℤ◌, ◌≤ℤ◌, unsigned_abs, map, length, IfOk};
ghost use Rattle.mp_frac.specs.Time.{IsInRange};
ghost use Rattle.mp_movie.specs.Durations.{extent, not_before_start};
ghost use Rattle.mp_shown.specs.Place.{shown_tick, ticks_of};
ghost use Rattle.mp_shown.specs.Segments.{explicit, in_unit, whole_media};
ghost use Rattle.mp_shown.specs.Shown.{is_at, numbers_where, shown_numbers};

use crate::place::{Place, place_in};
use mp_frac::Frac;
use mp_ports::NoMemory;
use mp_timeline::{PlainSample, PlainTrack, Segment};
use std::alloc::Global;

/// The numbers, counted from 1 and in decode order, of the samples that a track of a movie of that scale
/// shows at a moment.
pub fn plain_shown(
    alloc: Global,
    movie_scale: u32,
    track: &PlainTrack,
    at: Frac,
) -> Result<Vec<u32>, NoMemory>
    requires movie { 0 < movie_scale }
    requires scale { 0 < track.now.scale }
    requires range { IsInRange at }
    requires not_before { pos 0 ≤ℤ at.n }
    requires few { length track.now.samples < 2 ^ 32 }
    ensures { IfOk result (λ numbers. numbers.items ≡ shown_numbers movie_scale track.now (unsigned_abs at.n) at.d) }
{
    match shown_tick(movie_scale, track, at) {
        Some(tick) => numbers_at(alloc, &track.samples, tick),
        None => Ok(Vec::new(alloc)),
    }
}

/// The tick of the track that holds the time of the media that is shown at a moment; `None` where no media is.
fn shown_tick(movie_scale: u32, track: &PlainTrack, at: Frac) -> Option<u128>
    requires movie { 0 < movie_scale }
    requires scale { 0 < track.now.scale }
    requires range { IsInRange at }
    ensures { result ≡ shown_tick movie_scale track.now.scale
        (explicit movie_scale track.now at.d) (unsigned_abs at.n) at.d }
{
    match &track.edits {
        Some(edits) => tick_in_edits(movie_scale, track.scale, edits, at),
        None => tick_in_media(movie_scale, track.scale, &track.samples, at),
    }
}

/// A time's ticks of a scale, each in d parts.
fn ticks(at: Frac, scale: u32) -> u128
    requires { IsInRange at }
    ensures product { result ≡ unsigned_abs at.n * scale }
    ensures short { result < 2 ^ 126 }
{
    at.n.unsigned_abs() * u128::from(scale)
}

/// That tick, by the edit list of the track.
fn tick_in_edits(movie_scale: u32, scale: u32, edits: &[Segment], at: Frac) -> Option<u128>
    requires movie { 0 < movie_scale }
    requires scale { 0 < scale }
    requires range { IsInRange at }
    ensures { result ≡ shown_tick movie_scale scale
        (map (in_unit (movie_scale * at.d) (scale * at.d)) edits.now) (unsigned_abs at.n) at.d }
{
    let moment = ticks(at, movie_scale);
    let tick = u64::from(movie_scale) * u64::from(at.d);
    match place_in(edits, moment, at.d) {
        Some(place) => Some(tick_of(place, scale, tick)),
        None => None,
    }
}

/// The tick of the track that holds a place, where a tick of the track has so many parts for each tick of
/// the movie.
fn tick_of(place: Place, scale: u32, tick: u64) -> u128
    requires some { 0 < tick }
    requires near { place.within < 2 ^ 96 - 2 ^ 64 }
    ensures { result ≡ ticks_of scale tick place }
{
    u128::from(place.start) + place.within * u128::from(scale) / u128::from(tick)
}

/// That tick, where the whole media of the track is shown.
fn tick_in_media(movie_scale: u32, scale: u32, samples: &[PlainSample], at: Frac) -> Option<u128>
    requires movie { 0 < movie_scale }
    requires scale { 0 < scale }
    requires range { IsInRange at }
    ensures { result ≡ shown_tick movie_scale scale
        (whole_media (extent samples.now * (movie_scale * at.d))) (unsigned_abs at.n) at.d }
{
    let moment = ticks(at, scale);
    let d = u128::from(at.d);
    if moment < u128::from(extent(samples)) * d {
        return Some(moment / d);
    }
    None
}

/// The latest end of a sample, in ticks of the track; 0 where none is behind the start.
fn extent(samples: &[PlainSample]) -> u64
    ensures { result ≡ extent samples.now }
{
    let mut latest: u64 = 0;
    for sample in samples {
        latest = latest.max(end_of(sample));
    }
    latest
}

/// When a sample ends, 0 where that is before the start.
fn end_of(sample: &PlainSample) -> u64
    ensures { result ≡ not_before_start (sample.now.comp +ℤ pos sample.now.dur) }
{
    not_before_start(i128::from(sample.comp) + i128::from(sample.dur))
}

/// A time on the track's own timeline, 0 where it is before the start.
fn not_before_start(time: i128) -> u64
    requires { unsigned_abs time < 2 ^ 64 }
    ensures { result ≡ not_before_start time }
{
    if time < 0 { 0 } else { time as u64 }
}

/// Whether a sample is shown at a tick of the track.
fn is_at(sample: &PlainSample, tick: u128) -> bool
    ensures { result ≡ is_at 1 sample.now tick }
{
    let begin = not_before_start(i128::from(sample.comp));
    u128::from(begin) <= tick && tick < u128::from(end_of(sample))
}

/// The numbers of the samples that are shown at a tick of the track.
fn numbers_at(alloc: Global, samples: &[PlainSample], tick: u128) -> Result<Vec<u32>, NoMemory>
    requires { length samples.now < 2 ^ 32 }
    ensures { IfOk result (λ numbers. numbers.items ≡ numbers_where (λ sample. is_at 1 sample tick) 1 samples.now) }
{
    let mut numbers = Vec::new(alloc);
    for (index, sample) in samples.iter().enumerate() {
        if is_at(sample, tick) {
            numbers.push(index as u32 + 1)?;
        }
    }
    Ok(numbers)
}
