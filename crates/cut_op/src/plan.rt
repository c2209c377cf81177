//! How a movie is cut, decided before anything changes.

ghost use Rattle.std.specs.Prelude.{◌≡◌, ◌+◌, ◌-◌, ◌*◌, ◌/◌, ◌^◌, ◌<◌, ◌≤◌, ℕ, min, All, List, [], ◌∷◌, ◌++◌, length, map, Some, None, Err, IfErr, IfNone, IfOk, IfSome};
ghost use Rattle.std.specs.Int.{w32, FitsUnsigned};
ghost use Rattle.std.specs.List.{AllByRecursion, AllZip, Contains};
ghost use Rattle.mp_ports.specs.declared.code.Code.TheVariants.{ScaleLimit};
ghost use Rattle.mp_ports.specs.declared.fault.Fail.TheVariants.{Bad as Refused};
ghost use Rattle.mp_ports.specs.Checks.{bad_at, placed};
ghost use Rattle.mp_ports.specs.Gives.{refusal};
ghost use Rattle.mp_movie.specs.CanBeWritten.{CanBeWritten};
ghost use Rattle.mp_movie.specs.PartsFit.{first_limit};
ghost use Rattle.mp_movie.specs.Placed.{PlacedTrack};
ghost use Rattle.mp_movie.specs.StandsFor.{Hold, stands_for};
ghost use Rattle.mp_clip.specs.Clipped.{IsRange};
ghost use Rattle.track_ops.specs.Told.{or_empty};
ghost use Rattle.cut_op.specs.Cut.{cut, cut_codes};
ghost use Rattle.cut_op.specs.Found.{AreKept};
ghost use Rattle.cut_op.specs.Placed.{first_ticks};
ghost use Rattle.cut_op.specs.Planned.{AreFilled, ArePlanned, CanEdit, HasEdits, HasScale, IsNeededRange, IsPlan, MakesPlan, NoCut};

use crate::explicit::{explicit, whole_media};
use crate::kept::{Kept, kept_range};
use crate::limits::{Passed, either, first_code, passed_by};
use crate::reach::put_in_order;
use crate::shape::{is_before, track_shape};
use mp_clip::{ClipShape, Span, clip_back, touched};
use mp_columns::Column;
use mp_frac::{Frac, lcm, wholeness_is_division};
use mp_movie::{Movie, Track, columns_are_kept, parts_can_be_written};
use mp_ports::{Bad, Code, Fail, NoMemory};
use mp_timeline::Segment;
use std::alloc::Global;
use track_ops::least_scales_are_found;

/// How a track is cut: which samples are kept; its new scale, and by how much that is greater than the old one;
/// by how many ticks of it composition times and starts fall, and offsets grow; its new edits.
#[derive(Drop)]
pub(crate) struct TrackPlan {
    pub(crate) kept: Kept,
    pub(crate) scale: u32,
    pub(crate) factor: u32,
    pub(crate) back: u128,
    pub(crate) ahead: u128,
    pub(crate) edits: Vec<Segment>,
}

/// How a movie is cut: its new scale, and each track.
#[derive(Drop)]
pub(crate) struct Plan {
    pub(crate) scale: u32,
    pub(crate) tracks: Vec<TrackPlan>,
}

/// How the movie is cut to a range, or why not.
pub(crate) fn make_plan(alloc: Global, movie: &Movie, from: Frac, to: Frac) -> Result<Plan, Fail>
    requires { IsRange from to }
    ensures plan { IfOk result (λ plan. (files : List (List ℕ)) → IsPlan files from to movie.now plan) }
    ensures refused { IfErr result (λ fail. (files : List (List ℕ)) → Hold (map length files) movie.now
        → IfSome (refusal fail) (λ bad. placed 0 (cut from to (stands_for files movie.now)) ≡ Err bad)) }
    ensures codes { IfErr result (λ fail. IfSome (refusal fail) (λ bad. Contains cut_codes bad.code)) }
{
    can_be_cut(movie);
    columns_are_kept();
    wholeness_is_division();
    least_scales_are_found();
    if !is_before(from, to) {
        return Err(bad(Code::BadRange));
    }
    let Some(scale) = cut_scale(movie, from, to) else {
        return Err(bad(Code::ScaleLimit));
    };
    let (mut tracks, passed) = match plan_tracks(alloc, movie, scale, from, to) {
        Ok(both) => both,
        Err(fail) => return Err(fail),
    };
    if let Some(code) = first_code(passed) {
        return Err(bad(code));
    }
    match fill_edits(alloc, movie, &mut tracks, scale, from, to) {
        Ok(()) => Ok(Plan { scale, tracks }),
        Err(NoMemory) => Err(Fail::NoMemory),
    }
}

/// What holds of each movie: its tracks can be written, and it passes no limit.
pub(crate) fn can_be_cut(movie: &Movie)
    ensures tracks { AllByRecursion CanBeWritten movie.now.tracks }
    ensures fits { first_limit movie.now ≡ None }
    ensures scale { 0 < movie.now.scale }
    ensures short { movie.now.scale < 2 ^ 32 }
{
    parts_can_be_written();
    let _tracks = movie.tracks();
    let _scale = movie.scale();
}

/// The refusal of a code, at no place.
fn bad(code: Code) -> Fail
    ensures { result ≡ Refused (bad_at code 0) }
{
    Fail::Bad(Bad::at(code, 0))
}

/// The least multiple of the movie's scale in which the pieces of all its tracks last whole ticks; `None` where
/// that, or the scale that a track needs, is above 4,294,967,295.
fn cut_scale(movie: &Movie, from: Frac, to: Frac) -> Option<u32>
    requires { IsRange from to }
    ensures some { IfSome result (λ scale. (files : List (List ℕ))
        → HasScale files movie.now.scale from to movie.now.tracks scale) }
    ensures none { IfNone result ((files : List (List ℕ)) → NoCut files movie.now.scale from to movie.now.tracks) }
{
    can_be_cut(movie);
    let old = movie.scale();
    let tracks = movie.tracks();
    let mut scale = old;
    for track in tracks {
        let Some(more) = scale_with(scale, track, old, from, to) else {
            return None;
        };
        scale = more;
    }
    Some(scale)
}

/// The scale that serves for one track more.
fn scale_with(scale: u32, track: &Track, old: u32, from: Frac, to: Frac) -> Option<u32>
    requires track { CanBeWritten track.now }
    requires movie { 0 < old }
    requires scale { 0 < scale }
    requires range { IsRange from to }
    ensures some { IfSome result (λ new. (files : List (List ℕ)) (before : List PlacedTrack)
        → HasScale files old from to before scale → HasScale files old from to (before ++ track.now ∷ []) new) }
    ensures more { IfSome result (λ new. 0 < new) }
    ensures none { IfNone result ((files : List (List ℕ)) (before behind : List PlacedTrack)
        → AllByRecursion CanBeWritten (before ++ track.now ∷ behind) → HasScale files old from to before scale
        → NoCut files old from to (before ++ track.now ∷ behind)) }
{
    wholeness_is_division();
    least_scales_are_found();
    let Some(shape) = track_shape(track, old, from, to) else {
        return None;
    };
    lcm(scale, shape.movie_scale)
}

/// How each track is cut, without its edits, and which limits one of them then passes.
fn plan_tracks(
    alloc: Global,
    movie: &Movie,
    new: u32,
    from: Frac,
    to: Frac,
) -> Result<(Vec<TrackPlan>, Passed), Fail>
    requires new_movie { 0 < new }
    requires range { IsRange from to }
    ensures plans { IfOk result (λ both. (files : List (List ℕ))
        → ArePlanned files movie.now.scale new from to movie.now.tracks both.0.items both.1) }
    ensures refused { IfErr result (λ fail. IfSome (refusal fail) (λ bad. (bad ≡ bad_at ScaleLimit 0)
        × ((files : List (List ℕ)) → NoCut files movie.now.scale from to movie.now.tracks))) }
{
    can_be_cut(movie);
    let old = movie.scale();
    let tracks = movie.tracks();
    let mut plans = Vec::new(alloc);
    let mut passed = Passed {
        durations: false,
        offsets: false,
        total: false,
        starts: false,
    };
    for track in tracks {
        let (plan, more) = match plan_track(alloc, track, old, new, from, to) {
            Ok(both) => both,
            Err(fail) => return Err(fail),
        };
        passed = either(passed, more);
        if plans.push(plan).is_err() {
            return Err(Fail::NoMemory);
        }
    }
    Ok((plans, passed))
}

/// How a track is cut, without its edits, and which limits it then passes.
fn plan_track(
    alloc: Global,
    track: &Track,
    old: u32,
    new: u32,
    from: Frac,
    to: Frac,
) -> Result<(TrackPlan, Passed), Fail>
    requires track { CanBeWritten track.now }
    requires movie { 0 < old }
    requires new_movie { 0 < new }
    requires range { IsRange from to }
    ensures plan { IfOk result (λ both. (files : List (List ℕ))
        → MakesPlan files old new from to track.now both.0 both.1) }
    ensures refused { IfErr result (λ fail. IfSome (refusal fail) (λ bad. (bad ≡ bad_at ScaleLimit 0)
        × ((files : List (List ℕ)) (before behind : List PlacedTrack)
        → AllByRecursion CanBeWritten (before ++ track.now ∷ behind)
        → NoCut files old from to (before ++ track.now ∷ behind)))) }
{
    least_scales_are_found();
    let Some(shape) = track_shape(track, old, from, to) else {
        return Err(bad(Code::ScaleLimit));
    };
    let kept = match needed_range(alloc, track, old, from, to) {
        Ok(kept) => kept,
        Err(NoMemory) => return Err(Fail::NoMemory),
    };
    let plan = move_track(alloc, track, shape, kept);
    let more = passed_by(track, shape, &plan, new);
    Ok((plan, more))
}

/// The samples that are kept of a track.
fn needed_range(
    alloc: Global,
    track: &Track,
    old: u32,
    from: Frac,
    to: Frac,
) -> Result<Kept, NoMemory>
    requires track { CanBeWritten track.now }
    requires movie { 0 < old }
    requires range { IsRange from to }
    ensures { IfOk result (λ kept. (files : List (List ℕ))
        → IsNeededRange files old from to track.now kept.from kept.to) }
{
    let whole = whole_media(track);
    let shows = explicit(track, old, &whole);
    let mut spans = touched(alloc, shows.edits, track.scale, shows.scale, from, to)?;
    Ok(kept_by(track, &mut spans))
}

/// The samples of a track that spans need, which are put in order.
fn kept_by(track: &Track, spans: &mut [Span]) -> Kept
    requires { CanBeWritten track.now }
    ensures { AreKept spans.old track.now result.from result.to }
{
    put_in_order(spans);
    kept_range(track, spans)
}

/// How the kept samples of a track are moved.
fn move_track(alloc: Global, track: &Track, shape: ClipShape, kept: Kept) -> TrackPlan
    requires scale { 0 < track.now.scale }
    requires order { kept.from ≤ kept.to }
    requires inside { kept.to ≤ length track.now.deltas }
    requires deltas { All (FitsUnsigned w32) track.now.deltas }
    ensures kept { result.kept ≡ kept }
    ensures scale { result.scale ≡ shape.media_scale }
    ensures factor { result.factor ≡ shape.media_scale / track.now.scale }
    ensures back { result.back
        ≡ min (first_ticks result.kept.from result.kept.to track.now * result.factor) shape.least }
    ensures ahead { result.ahead ≡ first_ticks result.kept.from result.kept.to track.now * result.factor - result.back }
    ensures short { result.back + result.ahead < 2 ^ 88 }
{
    let factor = shape.media_scale / track.scale;
    let first = u128::from(first_ticks(track, kept)) * u128::from(factor);
    let back = first.min(shape.least);
    TrackPlan {
        kept,
        scale: shape.media_scale,
        factor,
        back,
        ahead: first - back,
        edits: Vec::new(alloc),
    }
}

/// When the first kept sample is decoded; 0 where none is kept.
fn first_ticks(track: &Track, kept: Kept) -> u64
    requires order { kept.from ≤ kept.to }
    requires inside { kept.to ≤ length track.now.deltas }
    requires deltas { All (FitsUnsigned w32) track.now.deltas }
    ensures first { result ≡ first_ticks kept.from kept.to track.now }
    ensures short { result < 2 ^ 56 }
{
    let _samples = track.deltas.len();
    if kept.from == kept.to {
        return 0;
    }
    track.deltas.prefix(kept.from).unsigned_abs() as u64
}

/// The edits of each track.
fn fill_edits(
    alloc: Global,
    movie: &Movie,
    plans: &mut [TrackPlan],
    new: u32,
    from: Frac,
    to: Frac,
) -> Result<(), NoMemory>
    requires new_movie { 0 < new }
    requires range { IsRange from to }
    requires told { (files : List (List ℕ))
        → AllZip (CanEdit files movie.now.scale new from to) movie.now.tracks plans.old }
    ensures { IfOk result (λ done. (files : List (List ℕ))
        → AreFilled files movie.now.scale new from to movie.now.tracks plans.old plans.new) }
{
    can_be_cut(movie);
    let old = movie.scale();
    let tracks = movie.tracks();
    for at in 0..plans.len() {
        let edits = edits_of(alloc, &tracks[at], &plans[at], old, new, from, to)?;
        plans[at].edits = edits;
    }
    Ok(())
}

/// The pieces of a track, in ticks of the new scales.
fn edits_of(
    alloc: Global,
    track: &Track,
    plan: &TrackPlan,
    old: u32,
    new: u32,
    from: Frac,
    to: Frac,
) -> Result<Vec<Segment>, NoMemory>
    requires track { CanBeWritten track.now }
    requires movie { 0 < old }
    requires new_movie { 0 < new }
    requires range { IsRange from to }
    requires told { (files : List (List ℕ)) → CanEdit files old new from to track.now plan.now }
    ensures { IfOk result (λ edits. (files : List (List ℕ))
        → HasEdits files old new from to track.now plan.now edits.items) }
{
    wholeness_is_division();
    let whole = whole_media(track);
    let shows = explicit(track, old, &whole);
    let edits = clip_back(
        alloc,
        shows.edits,
        track.scale,
        shows.scale,
        from,
        to,
        plan.scale,
        new,
        plan.back,
    )?;
    or_empty(edits)
}

/// The segments, or one of no time where there is none.
fn or_empty(edits: Vec<Segment>) -> Result<Vec<Segment>, NoMemory>
    ensures { IfOk result (λ made. made.items ≡ or_empty edits.items) }
{
    let mut edits = edits;
    if edits.is_empty() {
        edits.push(Segment::Empty { dur: 0 })?;
    }
    Ok(edits)
}
