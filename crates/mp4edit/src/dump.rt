// A job that tells of a file.
ghost use Rattle.std.specs.Prelude.{◌≡◌, ⊤, [], None, ℕ, List, length, map, string_bytes, IfSome, IfOk};
ghost use Rattle.mp_movie.specs.StandsFor.{Hold, stands_for};
ghost use Rattle.mp4edit.specs.Outcome.{dump_outcome};
ghost use Rattle.mp4edit.specs.Line.{text_of};
ghost use Rattle.mp4edit.specs.Names.{held_name};
ghost use Rattle.mp4edit.specs.Run.{HasCauses, RaisesMisses, IsOfJob, OpensInputs, IsNoWriteFault, CreatesNothing, SaysNothing, TellsFault, SaysText, Completes};

use crate::ending::Ending;
use crate::input::read_file;
use mp_dump::{info_text, timeline_json, timeline_text};
use mp_movie::Movie;
use mp_ports::{Folder, NoMemory, Report};
use mp_words::DumpKind;
use std::alloc::Global;

/// Says what the MP4 file of that name presents.
pub fn tell_file<F: Folder, R: Report>(
    alloc: Global,
    kind: DumpKind,
    name: &str,
    folder: &mut F,
    report: &mut R,
) -> Ending
    requires opened { (F.state folder.old).opened ≡ [] }
    requires output { (F.state folder.old).output ≡ None }
    ensures causes { HasCauses result (F.state folder.old) (F.state folder.new)
        (R.state report.old) (R.state report.new) }
    ensures misses { RaisesMisses ⊤ result (F.state folder.old) (F.state folder.new) }
    ensures job { IsOfJob result }
    ensures inputs { OpensInputs result (held_name name.now) 1 (F.state folder.old) (F.state folder.new) }
    ensures unwritten { IsNoWriteFault result }
    ensures left { CreatesNothing (F.state folder.old) (F.state folder.new) }
    ensures quiet { SaysNothing result (R.state report.old) (R.state report.new) }
    ensures told { IfSome (F.state folder.old).held (λ files. TellsFault result (dump_outcome name.now files)) }
    ensures said { IfSome (F.state folder.old).held (λ files.
        SaysText result (dump_outcome name.now files) (text_of kind) (R.state report.old) (R.state report.new)) }
    ensures complete { IfSome (F.state folder.old).held (λ files.
        Completes result (dump_outcome name.now files) (F.state folder.old) (F.state folder.new)
        (R.state report.old) (R.state report.new)) }
{
    let movie = match read_file(alloc, folder, name, None, 1) {
        Ok(movie) => movie,
        Err(stop) => return stop.ending(),
    };
    let Ok(text) = text_of(alloc, kind, &movie) else {
        return Ending::NoMemory;
    };
    if report.say(&text).is_err() {
        return Ending::ReportFault;
    }
    Ending::Done
}

/// What a dump of that kind says of a movie.
fn text_of(alloc: Global, kind: DumpKind, movie: &Movie) -> Result<Vec<u8>, NoMemory>
    ensures { IfOk result (λ text. (files : List (List ℕ)) → Hold (map length files) movie.now
        → text.items ≡ text_of kind (stands_for files movie.now)) }
{
    match kind {
        DumpKind::Info => info_text(alloc, movie),
        DumpKind::Timeline => timeline_text(alloc, movie),
        DumpKind::Json => timeline_json(alloc, movie),
    }
}
