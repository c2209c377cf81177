//! Tracks of one movie are added to another.

ghost use Rattle.std.specs.Prelude.{◌≡◌, ◌+◌, ◌*◌, ◌^◌, ◌<◌, ◌||◌, nat_le, nat_lt, pos, [], ◌∷◌, IfErr, IfOk, IfSome};
ghost use Rattle.std.specs.Int.{◌∣◌};
ghost use Rattle.mp_frac.specs.Divisors.{LimitedBy, most};
ghost use Rattle.mp_frac.specs.Time.{IsLeastWhole, in_ticks};
ghost use Rattle.mp_movie.specs.PartsFit.{first_limit};
ghost use Rattle.mp_ports.specs.declared.code.Code.TheVariants.{DurationLimit, SampleLimit, TrackLimit};
ghost use Rattle.mp_ports.specs.Checks.{first_code, placed};
ghost use Rattle.mp_ports.specs.Gives.{Gives, refusal};
ghost use Rattle.track_ops.specs.declared.chosen.Choice.TheVariants.{All as EachTrack};
ghost use Rattle.track_ops.specs.declared.adding.TheConstants.{MOST_SAMPLES, MOST_TRACKS};
ghost use Rattle.track_ops.specs.Does.{Adds};
ghost use Rattle.track_ops.specs.Kept.{kept_chosen, kept_joined, kept_lead, kept_numbers};
ghost use Rattle.track_ops.specs.Numbers.{numbers_for};
ghost use Rattle.track_ops.specs.Summed.{IsPlan, IsSummary, added_scale, joined_scale};

use crate::chosen::Choice;
use crate::joining::join;
use crate::numbers::all_numbers;
use crate::summary::{Summary, summary_of};
use mp_frac::{Frac, least_multiple, wholeness_is_division};
use mp_movie::{Movie, columns_are_kept};
use mp_ports::{Bad, Code, Fail};
use std::alloc::Global;

/// The most samples of a movie.
const MOST_SAMPLES: u64 = 8_388_608;
/// The most tracks of a movie.
const MOST_TRACKS: u64 = 64;

/// How tracks are added: the scale that the movie gets, and the numbers of its tracks, old and new.
#[derive(Drop)]
struct Plan {
    scale: u32,
    numbers: Vec<u32>,
}

/// The chosen tracks of the other movie follow those of the movie, in their order. Each keeps its number
/// where it is free, else it gets one more than the greatest. A movie without tracks takes over the scale
/// and the head of the other.
///
/// `NoTrack` where none is chosen, `IdLimit` where a number would be above 4,294,967,295, then the first
/// limit. There, and where memory is wanting, the other movie comes back.
pub fn add_tracks(
    alloc: Global,
    movie: &mut Movie,
    other: Movie,
    choice: Choice,
) -> Result<(), (Fail, Movie)>
    ensures added { Adds (λ refused. refusal refused.0) choice other movie.old movie.new result }
    ensures back { IfErr result (λ refused. refused.1 ≡ other) }
{
    columns_are_kept();
    let own = movie.tracks().len();
    let _theirs = other.tracks();
    let plan = match make_plan(alloc, movie, &other, choice) {
        Ok(plan) => plan,
        Err(fail) => return Err((fail, other)),
    };
    let mut other = other;
    let mut parts = movie.take();
    if join(
        &mut parts,
        &mut other,
        choice,
        &plan.numbers[own..],
        plan.scale,
    )
    .is_err()
    {
        *movie = Movie::from_parts(parts);
        return Err((Fail::NoMemory, other));
    }
    *movie = Movie::from_parts(parts);
    Ok(())
}

/// How the chosen tracks are added, or why not.
fn make_plan(alloc: Global, movie: &Movie, other: &Movie, choice: Choice) -> Result<Plan, Fail>
    ensures scale { Gives refusal (λ plan. plan.scale) result
        (placed 0 (added_scale movie.now other.now (kept_chosen choice other.now.tracks))) }
    ensures plan { IfOk result (λ plan. IsPlan movie.now (kept_chosen choice other.now.tracks)
        plan.scale plan.numbers.items) }
{
    let own = summary_of(movie.tracks(), Choice::All);
    let added = summary_of(other.tracks(), choice);
    if added.tracks == 0 {
        return Err(Fail::Bad(Bad::at(Code::NoTrack, 0)));
    }
    let numbers = match all_numbers(alloc, movie.tracks(), other.tracks(), choice) {
        Ok(numbers) => numbers,
        Err(fail) => return Err(fail),
    };
    match joined_scale(movie, other, choice, own, added) {
        Ok(scale) => Ok(Plan { scale, numbers }),
        Err(code) => Err(Fail::Bad(Bad::at(code, 0))),
    }
}

/// The scale of the movie with the chosen tracks of the other, of which each was summed up.
fn joined_scale(
    movie: &Movie,
    other: &Movie,
    choice: Choice,
    own: Summary,
    added: Summary,
) -> Result<u32, Code>
    requires own { IsSummary (kept_chosen EachTrack movie.now.tracks) own }
    requires added { IsSummary (kept_chosen choice other.now.tracks) added }
    ensures scale { result ≡ joined_scale movie.now other.now (kept_chosen choice other.now.tracks) }
    ensures some { IfOk result (λ scale. 0 < scale) }
{
    wholeness_is_division();
    let _own_tracks = movie.tracks();
    let _other_tracks = other.tracks();
    let Some(scale) = served_scale(lead_scale(movie, other), scale_of(other), added.divisor) else {
        return Err(Code::ScaleLimit);
    };
    match limit_at(movie, other, choice, own, added, scale) {
        None => Ok(scale),
        Some(code) => Err(code),
    }
}

/// Ticks a second of the movie.
pub(crate) fn scale_of(movie: &Movie) -> u32
    ensures scale { result ≡ movie.now.scale }
    ensures some { 0 < result }
{
    let _tracks = movie.tracks();
    movie.scale()
}

/// Ticks a second of the movie, or of the other where it has no tracks.
fn lead_scale(movie: &Movie, other: &Movie) -> u32
    ensures scale { result ≡ (kept_lead movie.now other.now).scale }
    ensures some { 0 < result }
{
    if movie.tracks().is_empty() {
        return scale_of(other);
    }
    scale_of(movie)
}

/// The least multiple of the lead in which so many ticks of the scale are whole.
fn served_scale(lead: u32, scale: u32, ticks: u64) -> Option<u32>
    requires lead { 0 < lead }
    requires scale { 0 < scale }
    ensures least { LimitedBy most (IsLeastWhole lead (in_ticks (pos ticks) scale)) result }
    ensures whole { IfSome result (λ served. scale ∣ ticks * served) }
{
    wholeness_is_division();
    let time = Frac {
        n: i128::from(ticks),
        d: scale,
    };
    least_multiple(lead, time)
}

/// The first limit that the movie passes with the chosen tracks of the other, in that scale.
fn limit_at(
    movie: &Movie,
    other: &Movie,
    choice: Choice,
    own: Summary,
    added: Summary,
    scale: u32,
) -> Option<Code>
    requires own { IsSummary (kept_chosen EachTrack movie.now.tracks) own }
    requires added { IsSummary (kept_chosen choice other.now.tracks) added }
    requires multiple { (kept_lead movie.now other.now).scale ∣ scale }
    requires whole { other.now.scale ∣ added.divisor * scale }
    ensures { result ≡ first_limit (kept_joined movie.now other.now (kept_chosen choice other.now.tracks)
        (numbers_for (kept_numbers movie.now.tracks) (kept_numbers (kept_chosen choice other.now.tracks))) scale) }
{
    let _own_tracks = movie.tracks();
    let _other_tracks = other.tracks();
    let own_long = lasts_long(own.longest, movie.scale(), scale);
    let added_long = lasts_long(added.longest, other.scale(), scale);
    joined_limit(own_long, added_long, own, added)
}

/// Whether so many ticks of the old scale are 2^62 or more of the new one.
pub(crate) fn lasts_long(ticks: u64, old: u32, new: u32) -> bool
    ensures { result ≡ nat_le (2 ^ 62 * old) (ticks * new) }
{
    u128::from(ticks) * u128::from(new) >= (1 << 62) * u128::from(old)
}

/// The first limit that tracks pass together, by whether an edit list of the one or the other is too long.
fn joined_limit(own_long: bool, added_long: bool, own: Summary, added: Summary) -> Option<Code>
    requires samples { own.samples + added.samples < 2 ^ 64 }
    requires tracks { own.tracks + added.tracks < 2 ^ 64 }
    ensures { result ≡ first_code ((own_long || added_long, DurationLimit)
        ∷ (nat_lt MOST_SAMPLES (own.samples + added.samples), SampleLimit)
        ∷ (nat_lt MOST_TRACKS (own.tracks + added.tracks), TrackLimit) ∷ []) }
{
    if own_long || added_long {
        return Some(Code::DurationLimit);
    }
    if own.samples + added.samples > MOST_SAMPLES {
        return Some(Code::SampleLimit);
    }
    if own.tracks + added.tracks > MOST_TRACKS {
        return Some(Code::TrackLimit);
    }
    None
}
