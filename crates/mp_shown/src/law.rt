//! The laws of what is shown: calls that do nothing, whose contracts are the laws.

ghost use Rattle.mp_shown.specs.Law.{PiecesShow, ShowsByFractions, ShowsByTimes};

use mp_timeline::sameness_is_equality;

/// Tracks whose times are the same show the same at the same moments: a track at equal fractions, and in
/// multiples of its scales.
pub fn times_decide_what_is_shown()
    ensures { ShowsByTimes }
{
    sameness_is_equality();
}

/// What is shown at a moment is what comparing times as fractions says.
pub fn shown_by_fractions()
    ensures { ShowsByFractions }
{}

/// Pieces show what the whole shows in their range, for as long as it lasts.
pub fn pieces_show()
    ensures { PiecesShow }
{}
