//! The segments that a track shows: its edit list, or its whole media.

ghost use Rattle.std.specs.Prelude.{◌≡◌, ◌<◌, ◌^◌, List, ℕ, [], ◌∷◌};
ghost use Rattle.mp_timeline.specs.declared.segment.Segment.TheVariants.{Media};
ghost use Rattle.mp_edits.specs.Segments.{total};
ghost use Rattle.mp_movie.specs.CanBeWritten.{CanBeWritten};
ghost use Rattle.mp_movie.specs.Durations.{extent};
ghost use Rattle.mp_movie.specs.StandsFor.{samples_of};
ghost use Rattle.cut_op.specs.Explicit.{shown_edits, shown_scale};

use mp_columns::Column;
use mp_movie::{Track, extent};
use mp_timeline::Segment;

/// The segments that a track shows, and the scale of their durations: those of an edit list are ticks of the
/// movie, that of the whole media are ticks of the track.
#[derive(Clone, Copy)]
pub(crate) struct SegmentsShown<'a> {
    pub(crate) edits: &'a [Segment],
    pub(crate) scale: u32,
}

/// The whole media of a track as a segment, whose duration is ticks of the track; of no time where no sample
/// ends behind the start.
pub(crate) fn whole_media(track: &Track) -> [Segment; 1]
    requires { CanBeWritten track.now }
    ensures media { (files : List (List ℕ)) → result ≡ Media 0 (extent (samples_of files track.now)) ∷ [] }
    ensures short { total result < 2 ^ 57 }
{
    [Segment::Media {
        start: 0,
        dur: media_end(track),
    }]
}

/// The latest end of a sample.
pub(crate) fn media_end(track: &Track) -> u64
    requires { CanBeWritten track.now }
    ensures end { (files : List (List ℕ)) → result ≡ extent (samples_of files track.now) }
    ensures short { result < 2 ^ 57 }
{
    let _samples = track.deltas.len();
    extent(track) as u64
}

/// The segments that a track of a movie of that scale shows, where the second are its whole media.
pub(crate) fn explicit<'a>(
    track: &'a Track,
    movie_scale: u32,
    whole: &'a [Segment],
) -> SegmentsShown<'a>
    ensures edits { result.edits.now ≡ shown_edits track.now.edits whole.now }
    ensures scale { result.scale ≡ shown_scale track.now.edits movie_scale track.now.scale }
{
    match &track.edits {
        Some(edits) => SegmentsShown {
            edits,
            scale: movie_scale,
        },
        None => SegmentsShown {
            edits: whole,
            scale: track.scale,
        },
    }
}
