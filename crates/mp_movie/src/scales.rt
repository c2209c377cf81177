//! Scales that grow until times are whole.

ghost use Rattle.std.specs.Prelude.{◌<◌, All};
ghost use Rattle.mp_frac.specs.Time.{IsInRange};
ghost use Rattle.mp_movie.specs.Settling.{Settles};

use crate::track::TrackParts;
use mp_frac::{Frac, least_multiple, wholeness_is_division};

/// The least multiple of the track's scale in which these further times are whole; `None` where it is above
/// 4,294,967,295. It takes no memory.
pub fn settle(track: &TrackParts, times: &[Frac]) -> Option<u32>
    requires scale { 0 < track.now.scale }
    requires times { All IsInRange times.now }
    ensures { Settles track.now.scale times.now result }
{
    wholeness_is_division();
    let mut settled = track.scale;
    for time in times {
        settled = match least_multiple(settled, *time) {
            Some(next) => next,
            None => return None,
        };
    }
    Some(settled)
}
