//! The law of times: a call that does nothing, whose contract is the law.

ghost use Rattle.mp_frac.specs.Law.{WholenessIsDivision};

/// A time is whole in a scale exactly where its `d` divides its ticks times the scale.
pub fn wholeness_is_division()
    ensures { WholenessIsDivision }
{}
