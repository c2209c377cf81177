//! The scale of a movie, or of a track, is set.

ghost use Rattle.std.specs.Prelude.{◌≡◌, ℕ, ◌*◌, ◌^◌, ◌<◌, All, List, [], ◌∷◌, get_or, length, map, nat_le, not, None, Some};
ghost use Rattle.mp_frac.specs.Divisors.{IsGreatestCommon};
ghost use Rattle.mp_edits.specs.EditBox.{segments_in};
ghost use Rattle.mp_movie.specs.Durations.{greatest};
ghost use Rattle.mp_movie.specs.PartsFit.{first_limit, is_long, is_wide};
ghost use Rattle.mp_movie.specs.Placed.{PlacedTrack};
ghost use Rattle.mp_ports.specs.Checks.{first_code};
ghost use Rattle.mp_ports.specs.declared.code.Code.TheVariants.{DeltaLimit, DurationLimit, NotWhole, OffsetLimit, StartLimit};
ghost use Rattle.track_ops.specs.Does.{Does};
ghost use Rattle.track_ops.specs.KeptTimes.{CanSetScale, are_whole, column_in_scale, kept_in_movie_scale, kept_in_track_scale, kept_ticks, some_late_in, with_track};
ghost use Rattle.track_ops.specs.Kept.{kept_chosen, kept_durations, lasts};
ghost use Rattle.track_ops.specs.Summed.{IsSummary};
ghost use Rattle.track_ops.specs.declared.chosen.Choice.TheVariants.{All as EachTrack};
ghost use Rattle.track_ops.specs.Scales.{CanLast};
ghost use Rattle.track_ops.specs.SetScales.{set_movie_scale, set_track_scale};

use crate::adding::{lasts_long, scale_of};
use crate::chosen::Choice;
use crate::rescale::rescale_tracks;
use crate::summary::{Summary, segments_in, summary_of};
use crate::ticks::{divisor_of, limit_in, rescale_edits, retime, some_late_in};
use crate::tracks::{no_track, position_of};
use mp_movie::{Movie, MovieParts, Track, columns_are_kept, parts_stand_for_movies};
use mp_ports::{Bad, Code};

/// Sets the scale of the movie, in ticks a second. It takes no memory.
///
/// `NotWhole` where an edit doesn't last a whole number of its ticks, `DurationLimit` where an edit list lasts
/// 2^62 of them or more.
pub fn set_movie_scale(movie: &mut Movie, scale: u32) -> Result<(), Bad>
    requires { 0 < scale }
    ensures { Does Some (set_movie_scale scale) movie.old movie.new result }
{
    columns_are_kept();
    let _tracks = movie.tracks();
    if let Some(code) = movie_fault(movie, scale) {
        return Err(Bad::at(code, 0));
    }
    let mut parts = movie.take();
    set_parts_scale(&mut parts, scale);
    *movie = Movie::from_parts(parts);
    Ok(())
}

/// Why the movie can't be in ticks of that scale.
fn movie_fault(movie: &Movie, scale: u32) -> Option<Code>
    ensures { result ≡ first_code ((not (are_whole movie.now.scale scale (kept_durations movie.now.tracks)), NotWhole)
        ∷ (nat_le (2 ^ 62 * movie.now.scale) (greatest (map lasts movie.now.tracks) * scale), DurationLimit) ∷ []) }
{
    let edits = edits_of(movie);
    let old = scale_of(movie);
    if !is_whole(edits.divisor, old, scale) {
        return Some(Code::NotWhole);
    }
    if lasts_long(edits.longest, old, scale) {
        return Some(Code::DurationLimit);
    }
    None
}

/// What the tracks of the movie are together.
fn edits_of(movie: &Movie) -> Summary
    ensures summary { IsSummary (kept_chosen EachTrack movie.now.tracks) result }
    ensures fits { first_limit movie.now ≡ None }
{
    summary_of(movie.tracks(), Choice::All)
}

/// The parts of a movie in ticks of that scale.
pub(crate) fn set_parts_scale(parts: &mut MovieParts, scale: u32)
    requires some { 0 < parts.old.scale }
    requires short { All (λ track. All (CanLast parts.old.scale scale) (segments_in track.edits)) parts.old.tracks }
    ensures below { scale < 2 ^ 32 }
    ensures parts { parts.new ≡ kept_in_movie_scale scale parts.old }
{
    rescale_tracks(parts.scale, scale, &mut parts.tracks);
    parts.scale = scale;
}

/// Sets the scale of the track of that number, in ticks a second. It takes no memory.
///
/// `NoTrack` where no track has the number, `NotWhole` where one of the track's times isn't a whole number of
/// ticks, then `DeltaLimit`, `OffsetLimit` and `StartLimit`.
pub fn set_track_scale(movie: &mut Movie, number: u32, scale: u32) -> Result<(), Bad>
    requires { 0 < scale }
    ensures { Does Some (set_track_scale number scale) movie.old movie.new result }
{
    columns_are_kept();
    parts_stand_for_movies();
    let tracks = movie.tracks();
    let Some(at) = position_of(tracks, number) else {
        return Err(no_track());
    };
    let track = &tracks[at];
    if let Some(code) = fault_of(track, scale) {
        return Err(Bad::at(code, 0));
    }
    let mut parts = movie.take();
    set_scale_at(&mut parts, at, scale);
    *movie = Movie::from_parts(parts);
    Ok(())
}

/// The track at that place in ticks of that scale.
fn set_scale_at(parts: &mut MovieParts, at: usize, scale: u32)
    requires new { 0 < scale }
    requires inside { at < length parts.old.tracks }
    requires track { (track : PlacedTrack) → CanSetScale scale (get_or parts.old.tracks at track) }
    ensures below { scale < 2 ^ 32 }
    ensures parts { (track : PlacedTrack) → parts.new
        ≡ with_track at (kept_in_track_scale scale (get_or parts.old.tracks at track)) parts.old }
{
    set_scale(&mut parts.tracks[at], scale);
}

/// Whether numbers of ticks with that common divisor are whole in ticks of the new scale.
fn is_whole(divisor: u64, old: u32, new: u32) -> bool
    requires { 0 < old }
    ensures { (ticks : List ℕ) → IsGreatestCommon ticks divisor → result ≡ are_whole old new ticks }
{
    u128::from(divisor) * u128::from(new) % u128::from(old) == 0
}

/// Why the track can't be in ticks of that scale.
pub(crate) fn fault_of(track: &Track, scale: u32) -> Option<Code>
    requires { 0 < track.now.scale }
    ensures { result ≡ first_code ((not (are_whole track.now.scale scale (kept_ticks track.now)), NotWhole)
        ∷ (is_long (column_in_scale track.now.scale scale track.now.deltas), DeltaLimit)
        ∷ (is_wide (column_in_scale track.now.scale scale track.now.offsets), OffsetLimit)
        ∷ (some_late_in track.now.scale scale (segments_in track.now.edits), StartLimit) ∷ []) }
{
    if !ticks_are_whole(track, scale) {
        return Some(Code::NotWhole);
    }
    if let Some(code) = limit_in(track, scale) {
        return Some(code);
    }
    if some_late_in(segments_in(track), track.scale, scale) {
        return Some(Code::StartLimit);
    }
    None
}

/// Whether all times of the track are whole in ticks of that scale.
fn ticks_are_whole(track: &Track, scale: u32) -> bool
    requires { 0 < track.now.scale }
    ensures { result ≡ are_whole track.now.scale scale (kept_ticks track.now) }
{
    let divisor = divisor_of(track);
    is_whole(divisor, track.scale, scale)
}

/// The track in ticks of that scale.
fn set_scale(track: &mut Track, scale: u32)
    requires new { 0 < scale }
    requires track { CanSetScale scale track.old }
    ensures { track.new ≡ kept_in_track_scale scale track.old }
{
    rescale_edits(track.scale, scale, track);
    retime(track, scale);
}
