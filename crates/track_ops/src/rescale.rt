//! Edit lists in ticks of another scale of the movie.

ghost use Rattle.std.specs.Prelude.{◌≡◌, ◌<◌, ◌^◌, All, map};
ghost use Rattle.mp_edits.specs.EditBox.{segments_in};
ghost use Rattle.mp_edits.specs.Segments.{duration};
ghost use Rattle.track_ops.specs.Kept.{kept_in_scale};
ghost use Rattle.track_ops.specs.Scales.{CanLast, in_scale, lasting};

use mp_movie::Track;
use mp_timeline::Segment;

/// So many ticks of the old scale, in ticks of the new one.
pub(crate) fn in_scale(old: u32, new: u32, ticks: u64) -> u64
    requires some { 0 < old }
    requires short { in_scale old new ticks < 2 ^ 64 }
    ensures { result ≡ in_scale old new ticks }
{
    (u128::from(ticks) * u128::from(new) / u128::from(old)) as u64
}

/// The segment, its duration in ticks of the new scale.
fn lasting(old: u32, new: u32, segment: Segment) -> Segment
    requires some { 0 < old }
    requires short { CanLast old new segment }
    ensures { result ≡ lasting old new segment }
{
    match segment {
        Segment::Empty { dur } => Segment::Empty {
            dur: in_scale(old, new, dur),
        },
        Segment::Media { start, dur } => Segment::Media {
            start,
            dur: in_scale(old, new, dur),
        },
    }
}

/// The segments, their durations in ticks of the new scale.
fn rescale(old: u32, new: u32, edits: &mut [Segment])
    requires some { 0 < old }
    requires short { All (CanLast old new) edits.old }
    ensures { edits.new ≡ map (lasting old new) edits.old }
{
    for segment in edits.iter_mut() {
        *segment = lasting(old, new, *segment);
    }
}

/// The track in a movie of the new scale.
fn rescale_track(old: u32, new: u32, track: &mut Track)
    requires some { 0 < old }
    requires short { All (CanLast old new) (segments_in track.old.edits) }
    ensures { track.new ≡ kept_in_scale old new track.old }
{
    if let Some(edits) = &mut track.edits {
        rescale(old, new, edits);
    }
}

/// The tracks in a movie of the new scale.
pub(crate) fn rescale_tracks(old: u32, new: u32, tracks: &mut [Track])
    requires some { 0 < old }
    requires short { All (λ track. All (CanLast old new) (segments_in track.edits)) tracks.old }
    ensures { tracks.new ≡ map (kept_in_scale old new) tracks.old }
{
    for track in tracks.iter_mut() {
        rescale_track(old, new, track);
    }
}
