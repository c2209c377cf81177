// The options of a line, applied in their order.
ghost use Rattle.std.specs.Prelude.{◌≡◌, ℕ, ◌*◌, ◌-◌, ◌<◌, ◌^◌, List, [], false, length, Some, All, IfOk, IfSome, OnOk};
ghost use Rattle.mp_movie.specs.StandsFor.{Hold, stands_for};
ghost use Rattle.mp_pieces.specs.Copied.{sizes_of};
ghost use Rattle.mp_ports.specs.Gives.{refusal};
ghost use Rattle.mp_timeline.specs.Same.{HasScales};
ghost use Rattle.mp_clip.specs.Clipped.{IsRange};
ghost use Rattle.track_ops.specs.Does.{Does};
ghost use Rattle.track_ops.specs.Moments.{AreSeenAs};
ghost use Rattle.cut_op.specs.Cut.{cut};
ghost use Rattle.mp_words.specs.Jobs.{IsAsked, IsRate, asked};
ghost use Rattle.mp_words.specs.Names.{kind_of};
ghost use Rattle.mp4edit.specs.Names.{NeedAll, NeedsAll, input_names, is_nhnt, names_of, reads};
ghost use Rattle.mp4edit.specs.Outcome.{add_outcome, folded, input, no_movie, step};
ghost use Rattle.mp4edit.specs.Reading.{AllTold, Gives, HasMovieScales, IsCarriedOut, OpensFiles, of_done, of_failed, told_files};
ghost use Rattle.mp4edit.specs.Roll.{roll};

use crate::input::read_input;
use crate::stop::{Stop, of_fail};
use cut_op::{cut, cuts_are_seen};
use mp_frac::Frac;
use mp_movie::{Movie, files_may_follow, parts_stand_for_movies, same_movie_is_presented};
use mp_ports::{Bad, Fail, Folder};
use mp_words::{Command, Rate, What};
use std::alloc::Global;
use track_ops::{
    Choice, add_tracks, commands_are_seen, delay, remove, set_enabled, set_language,
    set_movie_scale, set_track_scale,
};

/// The movie that the commands make, one after another, of no movie.
pub fn fold<F: Folder>(alloc: Global, folder: &mut F, commands: &[Command]) -> Result<Movie, Stop>
    requires opened { (F.state folder.old).opened ≡ [] }
    requires few { length commands.now < 2 ^ 30 }
    requires asked { All (λ command. IsAsked command.what) commands.now }
    ensures movie { IfSome (F.state folder.old).held (λ files.
        Gives (λ movie. movie) result (F.state folder.new) (folded files commands.now no_movie)) }
    ensures seen { IfSome (F.state folder.old).held (λ files. IfOk result (λ movie.
        AreSeenAs (stands_for (told_files (F.state folder.new)) movie) (roll files commands.now))) }
    ensures told { IfSome (F.state folder.old).held (λ _. AllTold (F.state folder.new)) }
    ensures held { IfOk result (Hold (sizes_of (F.state folder.new))) }
    ensures folder { OpensFiles result (reads commands.now) (3 * length commands.now) (NeedAll commands.now)
        (F.state folder.old) (F.state folder.new) }
{
    commands_are_seen();
    cuts_are_seen();
    let mut movie = Movie::new(alloc);
    for command in commands {
        if let Err(stop) = take_step(alloc, folder, &mut movie, command) {
            return Err(stop);
        }
    }
    Ok(movie)
}

/// Applies an option to the movie so far.
fn take_step<F: Folder>(
    alloc: Global,
    folder: &mut F,
    movie: &mut Movie,
    command: &Command,
) -> Result<(), Stop>
    requires opened { length (F.state folder.old).opened < 2 ^ 32 - 3 }
    requires asked { IsAsked command.now.what }
    requires told { IfSome (F.state folder.old).held (λ _. AllTold (F.state folder.old)) }
    requires held { Hold (sizes_of (F.state folder.old)) movie.old }
    ensures movie { IfSome (F.state folder.old).held (λ files. Gives (λ _. movie.new) result (F.state folder.new)
        (step files command.now.place command.now.what (stands_for (told_files (F.state folder.old)) movie.old))) }
    ensures done { IfSome (F.state folder.old).held (λ files.
        OnOk result (IsCarriedOut files command.now.place command.now.what
        (stands_for (told_files (F.state folder.old)) movie.old)
        (stands_for (told_files (F.state folder.new)) movie.new))) }
    ensures held { OnOk result (Hold (sizes_of (F.state folder.new)) movie.new) }
    ensures folder { OpensFiles result (names_of command.now.what) 3 (NeedsAll command.now.what)
        (F.state folder.old) (F.state folder.new) }
{
    parts_stand_for_movies();
    let _tracks = movie.tracks();
    let place = command.place;
    match &command.what {
        What::Add { name, choice, rate } => {
            add_input(alloc, folder, movie, name, *choice, *rate, place)
        }
        What::Rem { number } => of_done(remove(movie, *number), place),
        What::Delay { number, ms } => of_failed(delay(alloc, movie, *number, *ms), place),
        What::Cut { from, to } => of_failed(cut_to(alloc, movie, *from, *to), place),
        What::TrackScale { number, scale } => {
            of_done(set_track_scale(movie, *number, *scale), place)
        }
        What::MovieScale { scale } => of_done(set_movie_scale(movie, *scale), place),
        What::Lang { number, letters } => of_done(set_language(movie, *number, *letters), place),
        What::Enabled { number, on } => of_done(set_enabled(movie, *number, *on), place),
        // No job that is built has another one.
        What::Cat { .. } => Err(Stop::NoMemory),
    }
}

/// Reads the input of that name, and adds the chosen tracks of its movie.
fn add_input<F: Folder>(
    alloc: Global,
    folder: &mut F,
    movie: &mut Movie,
    name: &str,
    choice: Choice,
    rate: Option<Rate>,
    command: u32,
) -> Result<(), Stop>
    requires opened { length (F.state folder.old).opened < 2 ^ 32 - 3 }
    requires rate { IsRate rate }
    requires told { IfSome (F.state folder.old).held (λ _. AllTold (F.state folder.old)) }
    requires held { Hold (sizes_of (F.state folder.old)) movie.old }
    ensures movie { IfSome (F.state folder.old).held (λ files. Gives (λ _. movie.new) result (F.state folder.new)
        (add_outcome files command name.now choice rate (stands_for (told_files (F.state folder.old)) movie.old))) }
    ensures scales { IfSome (F.state folder.old).held (λ files.
        OnOk result (HasMovieScales (input files command name.now rate))) }
    ensures held { OnOk result (Hold (sizes_of (F.state folder.new)) movie.new) }
    ensures folder { OpensFiles result (input_names name.now) 3 (is_nhnt (kind_of name.now) ≡ false)
        (F.state folder.old) (F.state folder.new) }
{
    files_may_follow();
    parts_stand_for_movies();
    same_movie_is_presented();
    let other = match read_input(alloc, folder, name, rate, command) {
        Ok(other) => other,
        Err(stop) => return Err(stop),
    };
    let _tracks = other.tracks();
    match add_tracks(alloc, movie, other, choice) {
        Ok(()) => {}
        Err((fail, _)) => return Err(of_fail(fail, command)),
    }
    Ok(())
}

/// Cuts the movie so far to the time from `from` up to `to`, both in seconds.
fn cut_to(alloc: Global, movie: &mut Movie, from: Frac, to: Frac) -> Result<(), Fail>
    requires { IsRange from to }
    ensures cut { Does refusal (cut from to) movie.old movie.new result }
    ensures scales { (files : List (List ℕ)) → HasScales (stands_for files movie.old) }
{
    parts_stand_for_movies();
    same_movie_is_presented();
    let _tracks = movie.tracks();
    match cut(alloc, std::mem::replace(movie, Movie::new(alloc)), from, to) {
        Ok(made) => {
            *movie = made;
            Ok(())
        }
        Err((fail, whole)) => {
            *movie = whole;
            Err(fail)
        }
    }
}

/// What was done for the option of that number.
fn of_done(done: Result<(), Bad>, command: u32) -> Result<(), Stop>
    ensures { result ≡ of_done command done }
{
    match done {
        Ok(()) => Ok(()),
        Err(bad) => Err(of_fail(Fail::Bad(bad), command)),
    }
}

/// What was done for the option of that number, or why not.
fn of_failed(done: Result<(), Fail>, command: u32) -> Result<(), Stop>
    ensures { result ≡ of_failed command done }
{
    match done {
        Ok(()) => Ok(()),
        Err(fail) => Err(of_fail(fail, command)),
    }
}
