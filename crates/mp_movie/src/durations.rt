//! The durations and numbers that the headers of a movie state (ISO/IEC 14496-12, 8.2.2, 8.3.2 and 8.4.2).

ghost use Rattle.std.specs.Prelude.{◌≡◌, ◌<◌, ◌≤◌, ◌+◌, ◌*◌, ◌^◌, ◌+ℤ◌, ℕ, List, length, map, pos, sum, take, All};
ghost use Rattle.std.specs.List.{AllByRecursion};
ghost use Rattle.std.specs.Int.{div_ceil};
ghost use Rattle.mp_columns.specs.declared.columns.TheConstants.{MOST_ITEMS};
ghost use Rattle.mp_columns.specs.Numbers.{largest};
ghost use Rattle.mp_boxes.specs.Table.{capped};
ghost use Rattle.mp_movie.specs.Durations.{extent, greatest, media_duration, movie_duration, next_track, not_before_start, track_duration};
ghost use Rattle.mp_movie.specs.Placed.{naturals};
ghost use Rattle.mp_movie.specs.StandsFor.{samples_of, stands_for, track_for};
ghost use Rattle.mp_movie.specs.WholeParts.{AreColumns, IsNatural};

use crate::movie::Movie;
use crate::sums::sum_of;
use crate::track::Track;
use mp_columns::{Col, Column, Cursor};
use mp_edits::capped_total;

/// The duration of a track's media header, in ticks of the track.
pub fn media_duration(track: &Track) -> u64
    requires { AreColumns track.now }
    ensures { (files : List (List ℕ)) → result ≡ media_duration (track_for files track.now) }
{
    sum_of(&track.deltas)
}

/// The duration of a track's header, in ticks of a movie of this scale.
pub fn track_duration(movie_scale: u32, track: &Track) -> u64
    requires columns { AreColumns track.now }
    requires scale { 0 < track.now.scale }
    ensures { (files : List (List ℕ)) → result ≡ track_duration movie_scale (track_for files track.now) }
{
    match &track.edits {
        None => in_movie_ticks(extent(track), track.scale, movie_scale),
        Some(edits) => capped_total(edits),
    }
}

/// The duration of the movie's header: that of its longest track.
pub fn movie_duration(movie: &Movie) -> u64
    ensures { (files : List (List ℕ)) → result ≡ movie_duration (stands_for files movie.now) }
{
    longest(movie.scale(), movie.tracks())
}

/// The duration of the longest of the tracks.
fn longest(movie_scale: u32, tracks: &[Track]) -> u64
    requires columns { AllByRecursion AreColumns tracks.now }
    requires scales { AllByRecursion (λ track. 0 < track.scale) tracks.now }
    ensures { (files : List (List ℕ))
        → result ≡ greatest (map (track_duration movie_scale) (map (track_for files) tracks.now)) }
{
    let mut longest = 0;
    for track in tracks {
        longest = track_duration(movie_scale, track).max(longest);
    }
    longest
}

/// A number above those of all tracks, at most 4,294,967,295.
pub fn next_track(movie: &Movie) -> u32
    ensures { (files : List (List ℕ)) → result ≡ next_track (stands_for files movie.now) }
{
    let mut greatest: u32 = 0;
    for track in movie.tracks() {
        greatest = greatest.max(track.number);
    }
    greatest.saturating_add(1)
}

/// The latest end of a sample, in ticks of the track; 0 where none is behind the start. Of samples with one
/// offset the last ends latest, so that each run of offsets is read once.
pub fn extent(track: &Track) -> u128
    requires { AreColumns track.now }
    ensures latest { (files : List (List ℕ)) → result ≡ extent (samples_of files track.now) }
    ensures short { result < 2 ^ 88 }
{
    let most = track.deltas.largest();
    let mut latest = 0;
    let mut cursor = Cursor::at(0);
    while let Some(run) = track.offsets.next_run(&mut cursor) {
        let time = time_after(&track.deltas, cursor.place(), most);
        latest = end_of(time, run.value).max(latest);
    }
    latest
}

/// When so many samples are over, of which the longest lasts so long.
fn time_after(durations: &Col, count: u32, most: u64) -> u128
    requires natural { All IsNatural durations.now }
    requires inside { count ≤ length durations.now }
    requires few { count ≤ MOST_ITEMS }
    requires most { largest durations.now ≤ most }
    ensures time { result ≡ sum (take count (naturals durations.now)) }
    ensures short { result < 2 ^ 87 }
{
    durations.prefix(count).unsigned_abs()
}

/// When a sample ends, on the track's own timeline: that time and its composition offset; 0 where that is
/// before the start.
fn end_of(time: u128, offset: i64) -> u128
    requires { time < 2 ^ 87 }
    ensures end { result ≡ not_before_start (pos time +ℤ offset) }
    ensures short { result ≤ time + 2 ^ 63 }
{
    let end = time as i128 + i128::from(offset);
    if end < 0 { 0 } else { end as u128 }
}

/// The duration in ticks of the movie, rounded up; the last number of 64 bits where it is longer.
fn in_movie_ticks(duration: u128, scale: u32, movie_scale: u32) -> u64
    requires scale { 0 < scale }
    requires short { duration < 2 ^ 88 }
    ensures { result ≡ capped (div_ceil (duration * movie_scale) scale) }
{
    let ticks = duration * u128::from(movie_scale);
    let ticks = ticks.div_ceil(u128::from(scale));
    u64::try_from(ticks).unwrap_or(u64::MAX)
}
