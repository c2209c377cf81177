//! What the chosen tracks of a movie are together.

ghost use Rattle.std.specs.Prelude.{◌≡◌, List, [], ◌∷◌, ◌++◌, map};
ghost use Rattle.mp_edits.specs.EditBox.{segments_in};
ghost use Rattle.mp_edits.specs.Segments.{duration};
ghost use Rattle.mp_frac.specs.Divisors.{IsGreatestCommon};
ghost use Rattle.mp_movie.specs.Placed.{PlacedTrack};
ghost use Rattle.track_ops.specs.Kept.{kept_chosen};
ghost use Rattle.track_ops.specs.Summed.{IsSummary, IsSummaryMore};

use crate::chosen::{Choice, is_chosen};
use mp_columns::Column;
use mp_edits::capped_total;
use mp_frac::gcd;
use mp_movie::Track;
use mp_timeline::Segment;

/// How many tracks and samples there are, by what all durations of edits can be divided, and how long the
/// longest edit list lasts; each at most 2^64 - 1.
#[derive(Clone, Copy)]
pub(crate) struct Summary {
    pub tracks: u64,
    pub samples: u64,
    pub divisor: u64,
    pub longest: u64,
}

/// What the chosen tracks are together.
pub(crate) fn summary_of(tracks: &[Track], choice: Choice) -> Summary
    ensures { IsSummary (kept_chosen choice tracks.now) result }
{
    let mut summary = Summary {
        tracks: 0,
        samples: 0,
        divisor: 0,
        longest: 0,
    };
    for track in tracks {
        summary = next(summary, track, choice);
    }
    summary
}

/// What the chosen tracks are with that one behind them.
fn next(summary: Summary, track: &Track, choice: Choice) -> Summary
    ensures { (tracks : List PlacedTrack) → IsSummary (kept_chosen choice tracks) summary
        → IsSummary (kept_chosen choice (tracks ++ track.now ∷ [])) result }
{
    if is_chosen(choice, track) {
        with_track(summary, track)
    } else {
        summary
    }
}

/// What they are with one track more.
fn with_track(summary: Summary, track: &Track) -> Summary
    ensures { IsSummaryMore summary track.now result }
{
    let edits = segments_in(track);
    Summary {
        tracks: summary.tracks.saturating_add(1),
        samples: summary
            .samples
            .saturating_add(u64::from(track.deltas.len())),
        divisor: divisor_of(summary.divisor, edits),
        longest: summary.longest.max(capped_total(edits)),
    }
}

/// The segments of the track's edits.
pub(crate) fn segments_in(track: &Track) -> &[Segment]
    ensures { result.now ≡ segments_in track.now.edits }
{
    match &track.edits {
        None => &[],
        Some(edits) => edits,
    }
}

/// The greatest common divisor of a number and of how long each segment lasts.
fn divisor_of(number: u64, edits: &[Segment]) -> u64
    ensures { IsGreatestCommon (number ∷ map duration edits.now) result }
{
    let mut divisor = number;
    for segment in edits {
        divisor = gcd(divisor, duration(*segment));
    }
    divisor
}

/// How long a segment lasts.
fn duration(segment: Segment) -> u64
    ensures { result ≡ duration segment }
{
    match segment {
        Segment::Empty { dur } | Segment::Media { dur, .. } => dur,
    }
}
