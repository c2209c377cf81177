// The job of a line, as far as jobs are built.
ghost use Rattle.std.specs.Prelude.{◌≡◌, ◌<◌, ◌≤◌, ◌*◌, ◌-◌, ◌^◌, length, map, string_bytes, All, IfOk, IfSome};
ghost use Rattle.mp_words.specs.Answers.{GivesJob, job_record};
ghost use Rattle.mp_words.specs.Jobs.{IsCommand, commands_of};
ghost use Rattle.mp_words.specs.Names.{kind_of};
ghost use Rattle.mp4edit.specs.Words.{built, first_unbuilt, is_built, is_read, job};

use mp_words::{Command, FileKind, Job, What, WordFail, WordKind, kind_of, read_words};
use std::alloc::Global;

/// Reads the words of a line, and asks whether all is built that they ask for.
///
/// `WordFail::Words` exactly where the line is no job, with the word that is at fault first, or else where it
/// asks for what isn't built, with the word of the first option that does.
pub fn read_job(alloc: Global, words: &[String]) -> Result<Job, WordFail>
    requires { length words.now < 2 ^ 32 }
    ensures job { GivesJob result (job (map string_bytes words.now)) }
    ensures few { IfOk result (λ job. 2 * length (commands_of (job_record job)) ≤ length words.now) }
    ensures each { IfOk result (λ job. All (IsCommand (length words.now)) (commands_of (job_record job))) }
{
    match read_words(alloc, words) {
        Ok(job) => built(job, words.len()),
        Err(fail) => Err(fail),
    }
}

/// The job of a line of so many words, unless it isn't built.
fn built(job: Job, words: usize) -> Result<Job, WordFail>
    requires few { words < 2 ^ 32 }
    requires each { All (IsCommand words) (commands_of (job_record job)) }
    ensures job { GivesJob result (built (job_record job)) }
    ensures same { IfOk result (λ built. job_record built ≡ job_record job) }
{
    let unbuilt = match &job {
        Job::Edit { commands, .. } => first_unbuilt(commands, words),
        Job::Dump { .. } => None,
        Job::Gen { .. } => Some(1),
    };
    match unbuilt {
        Some(place) => Err(not_yet(place)),
        None => Ok(job),
    }
}

fn not_yet(place: u32) -> WordFail
    requires some { 0 < place }
    requires many { 2 * place ≤ 2 ^ 32 }
    ensures { result ≡ WordFail.Words (2 * place - 1) WordKind.NotYet }
{
    WordFail::Words {
        word: place + (place - 1),
        kind: WordKind::NotYet,
    }
}

/// The number of the first option that asks for what isn't built, on a line of so many words.
fn first_unbuilt(commands: &[Command], words: usize) -> Option<u32>
    requires { All (IsCommand words) commands.now }
    ensures number { result ≡ first_unbuilt commands.now }
    ensures some { IfSome result (λ place. 0 < place) }
    ensures many { IfSome result (λ place. 2 * place ≤ words) }
{
    for command in commands {
        if !is_built(command) {
            return Some(command.place);
        }
    }
    None
}

/// What the option asks for is built.
fn is_built(command: &Command) -> bool
    ensures { result ≡ is_built command.now.what }
{
    match &command.what {
        What::Add { name, .. } => matches!(
            kind_of(name),
            Some(FileKind::Mp4 | FileKind::Avc | FileKind::Adts | FileKind::Nhnt)
        ),
        What::Rem { .. }
        | What::Delay { .. }
        | What::Cut { .. }
        | What::TrackScale { .. }
        | What::MovieScale { .. }
        | What::Lang { .. }
        | What::Enabled { .. } => true,
        _ => false,
    }
}
