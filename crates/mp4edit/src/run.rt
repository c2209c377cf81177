// A run: from the words of the line to its ending.
ghost use Rattle.std.specs.Prelude.{◌≡◌, ◌<◌, ◌^◌, [], None, length, map, string_bytes, IfErr};
ghost use Rattle.mp4edit.specs.Words.{job, IfDumps, IfEdits};
ghost use Rattle.mp4edit.specs.Run.{HasCauses, NeedsAllFiles, RaisesMisses, AnswersWords, EndsDump, EndsEdit, IsUntouched, SaysNothing};

use crate::dump::tell_file;
use crate::edit::{Output, write_movie};
use crate::ending::Ending;
use crate::words::read_job;
use mp_ports::{Folder, Report};
use mp_words::{Job, WordFail};
use std::alloc::Global;

/// Does all that a line of words asks for, over a folder and a report, and says how it ended.
pub fn mp4edit<F: Folder, R: Report>(
    alloc: Global,
    words: &[String],
    folder: &mut F,
    report: &mut R,
) -> Ending
    requires opened { (F.state folder.old).opened ≡ [] }
    requires output { (F.state folder.old).output ≡ None }
    requires words { length words.now < 2 ^ 31 }

    // Each ending has its cause.
    ensures causes { HasCauses result (F.state folder.old) (F.state folder.new)
        (R.state report.old) (R.state report.new) }
    ensures misses { RaisesMisses (NeedsAllFiles (job (map string_bytes words.now))) result
        (F.state folder.old) (F.state folder.new) }
    ensures words { AnswersWords result (job (map string_bytes words.now)) }
    ensures untouched { IfErr (job (map string_bytes words.now)) (λ _.
        IsUntouched (F.state folder.old) (F.state folder.new) (R.state report.old) (R.state report.new)) }
    ensures quiet { SaysNothing result (R.state report.old) (R.state report.new) }

    // A job that writes a file: what it opens and creates, and, where the folder tells what it holds, how what the
    // options come to decides what is written and said: at `Done` the whole file, which presents the movie. What the
    // options say of its tracks decides what a viewer gets of it at each moment.
    ensures edit { IfEdits (job (map string_bytes words.now)) (λ edit.
        EndsEdit result edit (F.state folder.old) (F.state folder.new) (R.state report.old) (R.state report.new)) }
    // A job that tells of a file: it creates nothing, and at `Done` says the text of the movie that the file presents.
    ensures dump { IfDumps (job (map string_bytes words.now)) (λ kind name.
        EndsDump result kind name (F.state folder.old) (F.state folder.new) (R.state report.old) (R.state report.new)) }
{
    match read_job(alloc, words) {
        Ok(
            Job::Edit {
                commands,
                out,
                out_command,
                window,
            },
        ) => {
            let output = Output {
                name: out,
                command: out_command,
                window,
            };
            write_movie(alloc, &commands, output, folder, report)
        }
        Ok(Job::Dump { kind, name }) => tell_file(alloc, kind, &name, folder, report),
        // No job that is built generates files.
        Ok(Job::Gen { .. }) => Ending::NoMemory,
        Err(WordFail::Words { word, kind }) => Ending::Words { word, kind },
        Err(WordFail::NoMemory) => Ending::NoMemory,
    }
}
