//! A track is shown later, or earlier.

ghost use Rattle.std.specs.Ordering.{int_eq};
ghost use Rattle.std.specs.Prelude.{◌≡◌, pos, ◌<◌, ◌^◌, All, length, get_or, None, Some, OnOk};
ghost use Rattle.mp_edits.specs.EditBox.{segments_in};
ghost use Rattle.mp_movie.specs.Placed.{PlacedTrack};
ghost use Rattle.mp_ports.specs.Gives.{refusal};
ghost use Rattle.track_ops.specs.Delay.{delay};
ghost use Rattle.track_ops.specs.Does.{Does};
ghost use Rattle.track_ops.specs.KeptShown.{kept_shown, without_edits};
ghost use Rattle.track_ops.specs.KeptTimes.{CanRetimeTrack, kept_retimed, with_track};
ghost use Rattle.track_ops.specs.Later.{DelaysShown};
ghost use Rattle.track_ops.specs.Scales.{CanLast};

use crate::set_scale::set_parts_scale;
use crate::showing::{Showing, make_showing};
use crate::ticks::retime;
use crate::tracks::{no_track, position_of};
use crate::wide::delayed;
use mp_movie::{Movie, MovieParts, Track, columns_are_kept, parts_stand_for_movies};
use mp_ports::Fail;
use mp_shown::{pieces_show, times_decide_what_is_shown};
use mp_timeline::Segment;
use std::alloc::Global;

/// Shows the track of that number so many milliseconds later, or earlier where that is below 0.
///
/// `NoTrack` where no track has the number, `DelayPastEnd` where nothing would be left, `ScaleLimit` where a
/// scale would have to be above 4,294,967,295, then the first limit.
pub fn delay(alloc: Global, movie: &mut Movie, number: u32, ms: i32) -> Result<(), Fail>
    ensures delayed { Does refusal (delay number ms) movie.old movie.new result }
    ensures shown { OnOk result (DelaysShown number ms movie.old movie.new) }
{
    columns_are_kept();
    parts_stand_for_movies();
    pieces_show();
    times_decide_what_is_shown();
    let tracks = movie.tracks();
    let Some(at) = position_of(tracks, number) else {
        return Err(Fail::Bad(no_track()));
    };
    if is_none(ms) {
        return Ok(());
    }
    let segments = match delayed(alloc, movie.scale(), &tracks[at], ms) {
        Ok(segments) => segments,
        Err(fail) => return Err(fail),
    };
    let showing = match make_showing(alloc, movie, at, &segments) {
        Ok(showing) => showing,
        Err(fail) => return Err(fail),
    };
    let mut parts = movie.take();
    show(&mut parts, at, showing);
    *movie = Movie::from_parts(parts);
    Ok(())
}

/// Whether the delay is none.
fn is_none(ms: i32) -> bool
    ensures { result ≡ int_eq ms (pos 0) }
{
    ms == 0
}

/// The track at that place gets these edits, in their scales.
fn show(parts: &mut MovieParts, at: usize, showing: Showing)
    requires inside { at < length parts.old.tracks }
    requires old { 0 < parts.old.scale }
    requires media { 0 < showing.media }
    requires short { (track : PlacedTrack)
        → All (λ track. All (CanLast parts.old.scale showing.movie) (segments_in track.edits))
        (without_edits at (get_or parts.old.tracks at track) parts.old.tracks) }
    requires track { (track : PlacedTrack) → CanRetimeTrack showing.media (get_or parts.old.tracks at track) }
    ensures media_below { showing.media < 2 ^ 32 }
    ensures scale_below { showing.movie < 2 ^ 32 }
    ensures shown { (track : PlacedTrack) → parts.new
        ≡ kept_shown at (get_or parts.old.tracks at track) showing.media showing.edits.items showing.movie parts.old }
{
    clear_edits_at(parts, at);
    set_parts_scale(parts, showing.movie);
    retime_at(parts, at, showing.media, showing.edits);
}

/// The track at that place has no edit list.
fn clear_edits_at(parts: &mut MovieParts, at: usize)
    requires { at < length parts.old.tracks }
    ensures { (track : PlacedTrack) → parts.new
        ≡ record parts.old { tracks = without_edits at (get_or parts.old.tracks at track) parts.old.tracks } }
{
    clear_edits(&mut parts.tracks[at]);
}

/// The track has no edit list.
fn clear_edits(track: &mut Track)
    ensures { track.new ≡ record track.old { edits = None } }
{
    track.edits = None;
}

/// The samples of the track at that place in ticks of that scale of its own, and these edits.
fn retime_at(parts: &mut MovieParts, at: usize, scale: u32, edits: Vec<Segment>)
    requires inside { at < length parts.old.tracks }
    requires new { 0 < scale }
    requires track { (track : PlacedTrack) → CanRetimeTrack scale (get_or parts.old.tracks at track) }
    ensures below { scale < 2 ^ 32 }
    ensures parts { (track : PlacedTrack) → parts.new
        ≡ with_track at (kept_retimed scale (Some edits.items) (get_or parts.old.tracks at track)) parts.old }
{
    show_edits(&mut parts.tracks[at], scale, edits);
}

/// The samples of the track in ticks of that scale, and these edits.
fn show_edits(track: &mut Track, scale: u32, edits: Vec<Segment>)
    requires new { 0 < scale }
    requires track { CanRetimeTrack scale track.old }
    ensures { track.new ≡ kept_retimed scale (Some edits.items) track.old }
{
    retime(track, scale);
    track.edits = Some(edits);
}
