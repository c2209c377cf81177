//! Laws of what is written of a movie: calls that do nothing, whose contracts are the laws.

ghost use Rattle.mp_movie.specs.CanBeWritten.{PartsCanBeWritten, PiecesArePayload};

/// Each track of well-formed parts that pass no limit can be written: its numbers fit the fields of its boxes.
pub fn parts_can_be_written()
    ensures { PartsCanBeWritten }
{}

/// The bytes of a track's samples are those of its pieces, one behind the other.
pub fn pieces_are_payload()
    ensures { PiecesArePayload }
{}
