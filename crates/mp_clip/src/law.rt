//! The laws of shapes: calls that do nothing, whose contracts are the laws.

ghost use Rattle.mp_clip.specs.Law.{DivisorsGiveScales, ShapesCanBeTold};

use mp_frac::wholeness_is_division;

/// Pieces can be told in the scales of their shape, and in multiples of these, as far as the limits go.
pub fn shapes_can_be_told()
    ensures { ShapesCanBeTold }
{
    wholeness_is_division();
}

/// The scale of [`grown_scale`](crate::grown_scale) is the least in which numbers of parts are whole.
pub fn divisors_give_scales()
    ensures { DivisorsGiveScales }
{
    wholeness_is_division();
}
