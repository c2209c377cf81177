//! The movie of a stream whose units are without fault.

ghost use Rattle.std.specs.Prelude.{◌≡◌, ◌==◌, ◌≤◌, [], ℕ, List, Option, Some, get_or, length, map, IfErr, IfOk, IfSome, IsSome};
ghost use Rattle.mp_ports.specs.Gives.{Gives, refusal};
ghost use Rattle.mp_movie.specs.StandsFor.{stands_for};
ghost use Rattle.avc_sets.specs.Set.{SequenceSet};
ghost use Rattle.avc_slices.specs.declared.slice.Slice.{Slice as First};
ghost use Rattle.avc_order.specs.Count.{counts_of, nothing, rule_of};
ghost use Rattle.avc_order.specs.Sequence.{AreMarked};
ghost use Rattle.avc_import.specs.Sets.{AreKept, sequence_of};
ghost use Rattle.avc_import.specs.Unit.{most_frames};
ghost use Rattle.avc_import.specs.Times.{lasting};
ghost use Rattle.avc_import.specs.Judged.{HasFile, IsJudged};
ghost use Rattle.avc_import.specs.Film.{film_of, scheduled};
ghost use Rattle.avc_import.specs.Movie.{GivesShots, IsOrder, IsPastScale, IsRate, LiesIn, TiesAt, movie_behind};

use crate::limits::first_limit;
use crate::order::{Order, counts_by, order_of, syncs_of};
use crate::pictures::{Pictures, place_at};
use crate::rate::Rate;
use crate::schedule::{Schedule, lasting, schedule_of};
use crate::sets::Sets;
use crate::track::film_movie;
use crate::units::Judged;
use avc_order::RankFail;
use mp_movie::{Movie, a_sample_follows};
use mp_ports::{Bad, Code, Fail, NoMemory};
use std::alloc::Global;

/// Pictures with the sets of their stream, their marks, their order and their times.
#[derive(Drop)]
pub(crate) struct Shots {
    pub(crate) sets: Sets,
    pub(crate) pictures: Pictures,
    pub(crate) syncs: Vec<bool>,
    pub(crate) order: Order,
    pub(crate) schedule: Schedule,
}

/// The counts of pictures, and which of them are IDR pictures.
#[derive(Drop)]
struct Marks {
    counts: Vec<i64>,
    syncs: Vec<bool>,
}

/// The movie of these units, whose pictures last as the rate says where there is one.
///
/// `NoPicture` where no picture begins, `PocTie` where two pictures of one sequence have one count; `ScaleLimit` to
/// `SizeLimit` where the movie would pass that limit.
pub(crate) fn movie_of(alloc: Global, judged: Judged, rate: Option<Rate>) -> Result<Movie, Fail>
    requires rate { IfSome rate IsRate }
    requires judged { HasFile judged }
    ensures movie { (file size : ℕ) (told : Option (List ℕ)) (j : IsJudged file size told judged)
        → (files : List (List ℕ))
        → Gives refusal (stands_for files) result (movie_behind rate (get_or files file []) j.known) }
    ensures lies { (file size : ℕ) (told : Option (List ℕ)) → IsJudged file size told judged
        → IfOk result (LiesIn file size) }
{
    a_sample_follows();
    let shots = match shots_of(alloc, judged, rate) {
        Ok(shots) => shots,
        Err(fail) => return Err(fail),
    };
    match first_limit(&shots) {
        Some(code) => return Err(Fail::Bad(Bad::at(code, 0))),
        None => {}
    }
    match film_movie(alloc, shots) {
        Ok(movie) => Ok(movie),
        Err(NoMemory) => Err(Fail::NoMemory),
    }
}

/// The pictures in their order.
fn shots_of(alloc: Global, judged: Judged, rate: Option<Rate>) -> Result<Shots, Fail>
    requires rate { IfSome rate IsRate }
    requires judged { HasFile judged }
    ensures { (file size : ℕ) (told : Option (List ℕ)) (j : IsJudged file size told judged)
        → GivesShots file size rate (film_of j.known) result }
{
    let Judged { sets, mut pictures } = judged;
    if has_none(&pictures) {
        return Err(Fail::Bad(Bad::at(Code::NoPicture, 0)));
    }
    pictures.close()?;
    let marks = marks_of(alloc, &sets, &pictures)?;
    let order = match order_in(alloc, &pictures, &marks) {
        Ok(order) => order,
        Err(fail) => return Err(fail),
    };
    let schedule = match schedule_in(&sets, rate, &marks, order.delay) {
        Ok(schedule) => schedule,
        Err(fail) => return Err(fail),
    };
    Ok(Shots {
        sets,
        pictures,
        syncs: marks.syncs,
        order,
        schedule,
    })
}

/// Whether no picture begins.
fn has_none(pictures: &Pictures) -> bool
    ensures { result ≡ (length pictures.now.firsts.items == 0) }
{
    pictures.firsts.is_empty()
}

/// The counts and the marks of the pictures.
fn marks_of(alloc: Global, sets: &Sets, pictures: &Pictures) -> Result<Marks, NoMemory>
    requires sequence { IsSome sets.now.sequence }
    requires few { length pictures.now.firsts.items ≤ most_frames }
    ensures counts { (fields : SequenceSet) → sequence_of sets.now ≡ Some fields → IfOk result
        (λ marks. marks.counts.items ≡ counts_of (rule_of fields) nothing pictures.now.firsts.items) }
    ensures syncs { IfOk result
        (λ marks. marks.syncs.items ≡ map (λ (first : First). first.idr) pictures.now.firsts.items) }
    ensures kept { AreKept sets.now }
{
    let counts = counts_by(alloc, sets.fields(), &pictures.firsts)?;
    let syncs = syncs_of(alloc, &pictures.firsts)?;
    Ok(Marks { counts, syncs })
}

/// The order of pictures with these counts and marks. `PocTie` where two of one sequence have one count.
fn order_in(alloc: Global, pictures: &Pictures, marks: &Marks) -> Result<Order, Fail>
    requires marked { AreMarked (length marks.now.counts.items) marks.now.syncs.items }
    requires places { length marks.now.counts.items ≤ length pictures.now.places.items }
    ensures order { IfOk result (IsOrder marks.now.counts.items marks.now.syncs.items) }
    ensures tied { IfErr result (λ fail. IfSome (refusal fail)
        (TiesAt pictures.now.places.items marks.now.counts.items marks.now.syncs.items)) }
{
    match order_of(alloc, &marks.counts, &marks.syncs) {
        Ok(order) => Ok(order),
        Err(RankFail::NoMemory) => Err(Fail::NoMemory),
        Err(RankFail::Tie { picture }) => {
            let place = place_at(&pictures.places, picture as usize);
            Err(Fail::Bad(Bad::at(Code::PocTie, place)))
        }
    }
}

/// The times of as many pictures as there are marks. `ScaleLimit` where the movie would have no scale.
fn schedule_in(sets: &Sets, rate: Option<Rate>, marks: &Marks, delay: u32) -> Result<Schedule, Fail>
    requires rate { IfSome rate IsRate }
    requires sequence { IsSome sets.now.sequence }
    requires few { length marks.now.syncs.items ≤ most_frames }
    ensures schedule { (fields : SequenceSet) → sequence_of sets.now ≡ Some fields → IfOk result
        (λ s. s ≡ scheduled (lasting rate fields.tick) (length marks.now.syncs.items) delay) }
    ensures limit { (fields : SequenceSet) → sequence_of sets.now ≡ Some fields → IfErr result
        (λ fail. IfSome (refusal fail)
        (IsPastScale (scheduled (lasting rate fields.tick) (length marks.now.syncs.items) delay))) }
{
    let time = lasting(rate, sets.fields().tick);
    match schedule_of(time, marks.syncs.len() as u32, delay) {
        Ok(schedule) => Ok(schedule),
        Err(code) => Err(Fail::Bad(Bad::at(code, 0))),
    }
}
