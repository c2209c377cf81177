//! The law of sameness: a call that does nothing, whose contract is the law.

ghost use Rattle.mp_timeline.specs.Same.{SamenessIsEquality};

/// A movie is the same as itself, where each scale is at least one tick a second. Movies that are the
/// same are equal, since their scales are.
pub fn sameness_is_equality()
    ensures { SamenessIsEquality }
{}
