// A job that makes a movie of its options, and writes it.
ghost use Rattle.std.specs.Prelude.{◌≡◌, ◌*◌, ◌<◌, ◌^◌, [], None, All, length, IfSome, IfOk};
ghost use Rattle.mp_pieces.specs.Copied.{sizes_of};
ghost use Rattle.mp_movie.specs.StandsFor.{Hold, stands_for};
ghost use Rattle.mp_layout.specs.Plan.{IsPlanOf};
ghost use Rattle.track_ops.specs.Moments.{AreSeenAs};
ghost use Rattle.mp_words.specs.Jobs.{IsAsked};
ghost use Rattle.mp_movie.specs.Placed.{sample_count};
ghost use Rattle.mp4edit.specs.Outcome.{outcome};
ghost use Rattle.mp4edit.specs.Line.{wrote};
ghost use Rattle.mp4edit.specs.Names.{NeedAll, reads};
ghost use Rattle.mp4edit.specs.Reading.{AllTold, Gives, OpensFiles, told_files};
ghost use Rattle.mp4edit.specs.Roll.{roll};
ghost use Rattle.mp4edit.specs.Written.{PlansOutput};
ghost use Rattle.mp4edit.specs.Run.{EndsEdit, HasCauses, RaisesMisses, IsOfJob, SaysNothing, edit_of};

use crate::ending::Ending;
use crate::line::wrote_line;
use crate::options::fold;
use crate::output::write_file;
use crate::stop::{Stop, of_fail};
use mp_interleave::chunk_plan;
use mp_layout::{FilePlan, plan_file};
use mp_movie::Movie;
use mp_pieces::EmitFail;
use mp_ports::{Bad, Code, Fail, Folder, Report};
use mp_words::Command;
use std::alloc::{AllocError, Global};
use std::marker::Model;

/// How many bytes are copied at once.
const WINDOW_LEN: usize = 65_536;

/// The output of a job: its name, the number of its option, and the window in milliseconds (0: one for all).
#[derive(Drop)]
pub struct Output {
    pub name: String,
    pub command: u32,
    pub window: u32,
}

impl Model for Output {
    ghost use Rattle.std.specs.Prelude.{string_bytes};
    ghost use Rattle.mp4edit.specs.Written.{OutputRecord};

    ghost Value = { OutputRecord };

    ghost view = { λ o. record { name = string_bytes o.name; command = o.command; window = o.window } };
}

/// Applies the commands of a job, writes the file of the movie that they make, and tells of it.
pub fn write_movie<F: Folder, R: Report>(
    alloc: Global,
    commands: &[Command],
    output: Output,
    folder: &mut F,
    report: &mut R,
) -> Ending
    requires opened { (F.state folder.old).opened ≡ [] }
    requires output { (F.state folder.old).output ≡ None }
    requires few { length commands.now < 2 ^ 30 }
    requires asked { All (λ command. IsAsked command.what) commands.now }
    ensures causes { HasCauses result (F.state folder.old) (F.state folder.new)
        (R.state report.old) (R.state report.new) }
    ensures misses { RaisesMisses (NeedAll commands.now) result (F.state folder.old) (F.state folder.new) }
    ensures job { IsOfJob result }
    ensures quiet { SaysNothing result (R.state report.old) (R.state report.new) }
    ensures ends { EndsEdit result (edit_of commands.now output) (F.state folder.old) (F.state folder.new)
        (R.state report.old) (R.state report.new) }
{
    let (movie, plan) = match plan_movie(alloc, folder, commands, &output) {
        Ok(planned) => planned,
        Err(stop) => return stop.ending(),
    };
    let Ok((line, mut window)) = line_and_window(alloc, &output.name, &movie, &plan) else {
        return Ending::NoMemory;
    };
    match write_file(folder, output.name, &plan, &movie, &mut window) {
        Ok(()) => {}
        Err(EmitFail::ReadFault) => return Ending::ReadFault,
        Err(EmitFail::WriteFault) => return Ending::WriteFault,
    }
    if report.say(&line).is_err() {
        return Ending::ReportFault;
    }
    Ending::Done
}

/// The movie that the commands make, and the plan of its file.
fn plan_movie<F: Folder>(
    alloc: Global,
    folder: &mut F,
    commands: &[Command],
    output: &Output,
) -> Result<(Movie, FilePlan), Stop>
    requires opened { (F.state folder.old).opened ≡ [] }
    requires few { length commands.now < 2 ^ 30 }
    requires asked { All (λ command. IsAsked command.what) commands.now }
    ensures movie { IfSome (F.state folder.old).held (λ files.
        Gives (λ planned. planned.0) result (F.state folder.new) (outcome (edit_of commands.now output.now) files)) }
    ensures seen { IfSome (F.state folder.old).held (λ files. IfOk result (λ planned.
        AreSeenAs (stands_for (told_files (F.state folder.new)) planned.0) (roll files commands.now))) }
    ensures told { IfSome (F.state folder.old).held (λ _. AllTold (F.state folder.new)) }
    ensures held { IfOk result (λ planned. Hold (sizes_of (F.state folder.new)) planned.0) }
    ensures plan { IfOk result (λ planned. IsPlanOf planned.1 planned.0 output.now.window) }
    ensures folder { OpensFiles result (reads commands.now) (3 * length commands.now) (NeedAll commands.now)
        (F.state folder.old) (F.state folder.new) }
{
    let movie = match fold(alloc, folder, commands) {
        Ok(movie) => movie,
        Err(stop) => return Err(stop),
    };
    match plan_output(alloc, &movie, output) {
        Ok(plan) => Ok((movie, plan)),
        Err(fail) => Err(of_fail(fail, output.command)),
    }
}

/// The plan of the file of a movie: `EmptyMovie` where it has no track, and `MoovLimit` where its `moov` is too long.
fn plan_output(alloc: Global, movie: &Movie, output: &Output) -> Result<FilePlan, Fail>
    ensures { PlansOutput result movie.now output.now.window }
{
    if movie.tracks().is_empty() {
        return Err(Fail::Bad(Bad::at(Code::EmptyMovie, 0)));
    }
    let plan = chunk_plan(alloc, movie, output.window)?;
    plan_file(alloc, movie, plan)
}

/// What is said of the file at the end, and the window through which the samples' bytes are copied.
fn line_and_window(
    alloc: Global,
    name: &str,
    movie: &Movie,
    plan: &FilePlan,
) -> Result<(Vec<u8>, Vec<u8>), AllocError>
    ensures line { IfOk result (λ taken. taken.0.items
        ≡ wrote name.now (length movie.now.tracks) (sample_count movie.now.tracks) plan.now.length) }
    ensures window { IfOk result (λ taken. 0 < length taken.1.items) }
{
    let line = wrote_line(
        alloc,
        name,
        movie.tracks().len(),
        movie.samples(),
        plan.length,
    )?;
    Ok((line, new_window(alloc)?))
}

/// The window through which the samples' bytes are copied.
fn new_window(alloc: Global) -> Result<Vec<u8>, AllocError>
    ensures { IfOk result (λ window. 0 < length window.items) }
{
    vec![in alloc; 0u8; WINDOW_LEN]
}
