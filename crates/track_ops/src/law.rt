//! The laws of scales, and of what a viewer gets: calls that do nothing, whose contracts are the laws.

ghost use Rattle.track_ops.specs.Law.{LeastScalesAreFound};
ghost use Rattle.track_ops.specs.SeenLaw.{CommandsAreSeen};
ghost use Rattle.track_ops.specs.Told.{SettledTimesAreKept};

use mp_frac::wholeness_is_division;
use mp_shown::times_decide_what_is_shown;

/// The scale that settles times is the first of the multiples in which they are whole.
pub fn least_scales_are_found()
    ensures { LeastScalesAreFound }
{
    wholeness_is_division();
}

/// Tracks that are added, removed, delayed or changed are seen as the commands say, at every moment.
pub fn commands_are_seen()
    ensures { CommandsAreSeen }
{
    times_decide_what_is_shown();
}

/// The scale that settles times is above 0, and a track told in scales in which its times are whole has the same
/// times.
pub fn settled_times_are_kept()
    ensures { SettledTimesAreKept }
{}
