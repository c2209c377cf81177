//! The law of streams: a call that does nothing, whose contract is the law.

ghost use Rattle.adts_import.specs.Stream.{EachFileIsAStreamOrRefused};

/// Each file is a stream of whole frames of one configuration, and has its movie, or is refused with
/// its first fault: always one of both and never both, each in one way.
pub fn each_file_is_a_stream_or_refused()
    ensures { EachFileIsAStreamOrRefused }
{}
