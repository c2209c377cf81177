//! The track of a number.

ghost use Rattle.std.specs.Prelude.{◌≡◌};
ghost use Rattle.mp_ports.specs.declared.code.Code.TheVariants.{NoTrack};
ghost use Rattle.mp_ports.specs.Checks.{bad_at};
ghost use Rattle.track_ops.specs.Kept.{has_number};
ghost use Rattle.track_ops.specs.KeptTimes.{IsPosition};

use mp_movie::Track;
use mp_ports::{Bad, Code};

/// Whether one of the tracks has that number.
pub(crate) fn has_track(tracks: &[Track], number: u32) -> bool
    ensures { result ≡ has_number number tracks.now }
{
    tracks.iter().any(|track| track.number == number)
}

/// The place of the track of that number among the tracks.
pub(crate) fn position_of(tracks: &[Track], number: u32) -> Option<usize>
    ensures { IsPosition number tracks.now result }
{
    for (at, track) in tracks.iter().enumerate() {
        if track.number == number {
            return Some(at);
        }
    }
    None
}

/// The refusal of a number that no track has.
pub(crate) fn no_track() -> Bad
    ensures { result ≡ bad_at NoTrack 0 }
{
    Bad::at(Code::NoTrack, 0)
}
