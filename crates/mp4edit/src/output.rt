// The output of a job, created, written and finished.
ghost use Rattle.std.specs.Prelude.{◌≡◌, ◌<◌, ℕ, None, IsErrOf, OnOk, length, string_bytes};
ghost use Rattle.mp_pieces.specs.Copied.{sizes_of};
ghost use Rattle.mp_movie.specs.StandsFor.{Hold};
ghost use Rattle.mp_layout.specs.Plan.{IsPlanOf};
ghost use Rattle.mp4edit.specs.Written.{IsPlanned, StopsReading, StopsWriting, WritesWhole};

use mp_layout::{FilePlan, emit};
use mp_movie::Movie;
use mp_pieces::EmitFail;
use mp_ports::Folder;

/// Writes the planned file under the name, through a window of any length but 0, and finishes it.
pub fn write_file<F: Folder>(
    folder: &mut F,
    name: String,
    plan: &FilePlan,
    movie: &Movie,
    window: &mut [u8],
) -> Result<(), EmitFail>
    requires plan { IsPlanned plan.now movie.now }
    requires held { Hold (sizes_of (F.state folder.old)) movie.now }
    requires output { (F.state folder.old).output ≡ None }
    requires window { 0 < length window.old }
    ensures whole { (millis : ℕ) → IsPlanOf plan.now movie.now millis
        → OnOk result (WritesWhole (F.state folder.old) (F.state folder.new) (string_bytes name) movie.now millis) }
    ensures read { (millis : ℕ) → IsPlanOf plan.now movie.now millis → IsErrOf result EmitFail.ReadFault
        → StopsReading (F.state folder.old) (F.state folder.new) (string_bytes name) movie.now millis }
    ensures write { (millis : ℕ) → IsPlanOf plan.now movie.now millis → IsErrOf result EmitFail.WriteFault
        → StopsWriting (F.state folder.old) (F.state folder.new) (string_bytes name) movie.now millis }
{
    let Ok(()) = folder.create(name) else {
        return Err(EmitFail::WriteFault);
    };
    if let Err(fail) = emit(plan, movie, folder, window) {
        return Err(fail);
    }
    match folder.finish() {
        Ok(()) => Ok(()),
        Err(_) => Err(EmitFail::WriteFault),
    }
}
