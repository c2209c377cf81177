//! The file is appended to a folder.

ghost use Rattle.std.specs.Prelude.{◌<◌, ℕ, length, IsErrOf, OnOk};
ghost use Rattle.mp_ports.specs.Folder.{IsWriting};
ghost use Rattle.mp_pieces.specs.Copied.{sizes_of};
ghost use Rattle.mp_movie.specs.StandsFor.{Hold};
ghost use Rattle.mp_layout.specs.Chunked.{IsChunkOrder};
ghost use Rattle.mp_layout.specs.Emitted.{EmitsFile, StopsReading, StopsWriting};
ghost use Rattle.mp_layout.specs.Plan.{IsPlanOf};

use crate::pieces::emit_chunks;
use crate::plan::FilePlan;
use mp_interleave::plans_stand_for_chunks;
use mp_movie::Movie;
use mp_pieces::EmitFail;
use mp_ports::{Folder, appends_follow};

/// Writes the planned file of the movie: its front in one piece, then the samples' bytes chunk by chunk, which are
/// copied from the movie's files through a window of any length but 0.
///
/// It takes no memory. A fault leaves a front part of the file: `ReadFault` where a read failed, `WriteFault`
/// where an append did.
pub fn emit<F: Folder>(
    file: &FilePlan,
    movie: &Movie,
    folder: &mut F,
    window: &mut [u8],
) -> Result<(), EmitFail>
    requires order { IsChunkOrder movie.now file.now.plan }
    requires held { Hold (sizes_of (F.state folder.old)) movie.now }
    requires writing { IsWriting (F.state folder.old) }
    requires window { 0 < length window.old }
    ensures written { (millis : ℕ) → IsPlanOf file.now movie.now millis
        → OnOk result (EmitsFile (F.state folder.old) (F.state folder.new) movie.now millis) }

    // A fault leaves a front of the file, and only the count that is named for it rose.
    ensures read { (millis : ℕ) → IsPlanOf file.now movie.now millis → IsErrOf result EmitFail.ReadFault
        → StopsReading (F.state folder.old) (F.state folder.new) movie.now millis }
    ensures write { (millis : ℕ) → IsPlanOf file.now movie.now millis → IsErrOf result EmitFail.WriteFault
        → StopsWriting (F.state folder.old) (F.state folder.new) movie.now millis }
{
    appends_follow();
    plans_stand_for_chunks();
    let _samples = movie.samples();
    match folder.append(&file.front) {
        Ok(()) => emit_chunks(folder, movie.tracks(), &file.plan.chunks, window),
        Err(_) => Err(EmitFail::WriteFault),
    }
}
