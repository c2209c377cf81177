//! The law of streams: a call that does nothing, whose contract is the law.

ghost use Rattle.avc_import.specs.Stream.{StreamsAreCut};

/// What is read of a file are its units (ITU-T H.264, Annex B), and where a fault of the framing follows some units,
/// these and the fault.
pub fn streams_are_cut()
    ensures { StreamsAreCut }
{}
