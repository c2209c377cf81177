//! The editor: reads the words of its line, runs the job over the files of the system, and says on
//! standard error and by its status how it ended.
#![tactic(auto)]

ghost use Rattle.std.specs.Prelude.{◌≡◌, ◌<◌, ◌^◌, length, map, string_bytes};
ghost use Rattle.mp4edit.specs.Run.{AnswersWords};
ghost use Rattle.mp4edit.specs.Status.{status, IsStatusOf};
ghost use Rattle.mp4edit.specs.Words.{job};

mod dump;
mod edit;
mod ending;
mod input;
mod line;
mod message;
mod opening;
mod options;
mod output;
mod pair;
mod real;
mod run;
mod stop;
#[cfg(test)]
mod tests;
mod words;

pub use ending::Ending;
pub use mp_words::{Job, WordFail, WordKind, read_words};
use real::{RealFolder, RealReport};
pub use run::mp4edit;
use std::env;
use std::io::{self, ErrorKind};
use std::process::ExitCode;

/// The status where the system doesn't give the words, or gives too many.
const NO_WORDS: u8 = 8;

fn main(rt: HostRuntime) -> ExitCode {
    match line_words(&rt) {
        Ok(words) if words.len() < 1 << 31 => ExitCode::from(run_on(&rt, &words)),
        Err(e) if e.kind() == ErrorKind::OutOfMemory => ExitCode::from(told(&rt, Ending::NoMemory)),
        _ => {
            let _ = eprintln!(rt; "mp4edit: words not available");
            ExitCode::from(NO_WORDS)
        }
    }
}

// The words of the line, without the name of the program.
fn line_words(rt: &HostRuntime) -> io::Result<Vec<String>> {
    let words = env::args(rt)?;
    Ok(words.skip(1).collect(rt.alloc())?)
}

// Runs the line, tells of the ending, and answers its status.
fn run_on(rt: &HostRuntime, words: &[String]) -> u8
    requires { length words.now < 2 ^ 31 }
    ensures { IsStatusOf result (job (map string_bytes words.now)) }
{
    told(rt, run_job(rt, words))
}

// Runs the line over the files of the system. What a failed run began is removed when it returns.
fn run_job(rt: &HostRuntime, words: &[String]) -> Ending
    requires { length words.now < 2 ^ 31 }
    ensures { AnswersWords result (job (map string_bytes words.now)) }
{
    let mut folder = RealFolder::new(rt, rt.alloc());
    let mut report = RealReport::new(rt);
    mp4edit(rt.alloc(), words, &mut folder, &mut report)
}

// Tells of the ending on standard error, unless all is done, and answers its status.
fn told(rt: &HostRuntime, ending: Ending) -> u8
    ensures { result ≡ status ending }
{
    if ending != Ending::Done {
        let _ = eprintln!(rt; "mp4edit: {ending}");
    }
    ending.status()
}
