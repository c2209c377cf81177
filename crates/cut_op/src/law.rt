//! The laws of cuts: calls that do nothing, whose contracts are the laws.

ghost use Rattle.cut_op.specs.Law.{CutShowsTheRange, CutsAreSeen};

use mp_shown::{pieces_show, times_decide_what_is_shown};
use track_ops::settled_times_are_kept;

/// A movie that was cut shows at each moment what it showed that much behind the begin of the range, and
/// nothing behind it.
pub fn cut_shows_the_range()
    ensures { CutShowsTheRange }
{
    pieces_show();
    times_decide_what_is_shown();
    settled_times_are_kept();
}

/// Where it is known how tracks are seen, a movie that was cut is seen at every moment as the cut says by that.
pub fn cuts_are_seen()
    ensures { CutsAreSeen }
{
    pieces_show();
    times_decide_what_is_shown();
    settled_times_are_kept();
}
