//! The tracks of two movies become those of one.

ghost use Rattle.std.specs.Prelude.{◌≡◌, ◌^◌, ◌<◌, ◌≤◌, length, map, All, OnErr, OnOk, vec_len, vec_capacity, if◌then◌else◌};
ghost use Rattle.mp_edits.specs.EditBox.{segments_in};
ghost use Rattle.track_ops.specs.Kept.{kept_chosen, kept_in_scale, kept_joined, kept_renumbered};
ghost use Rattle.track_ops.specs.Scales.{CanLast};

use crate::chosen::{Choice, is_chosen};
use crate::rescale::rescale_tracks;
use mp_movie::{Movie, MovieParts, Track};
use mp_ports::NoMemory;
use mp_timeline::MovieHead;

/// The chosen tracks of the other movie follow those of the parts, with these numbers, in a movie of that
/// scale. Where memory is wanting, both are as they were.
pub(crate) fn join(
    own: &mut MovieParts,
    other: &mut Movie,
    choice: Choice,
    numbers: &[u32],
    scale: u32,
) -> Result<(), NoMemory>
    requires own_scale { 0 < own.old.scale }
    requires other_scale { 0 < other.old.scale }
    requires numbers { length numbers.now ≡ length (kept_chosen choice other.old.tracks) }
    requires own_short { All (λ track. All (CanLast own.old.scale scale) (segments_in track.edits)) own.old.tracks }
    requires other_short { All (λ track. All (CanLast other.old.scale scale) (segments_in track.edits))
        (kept_renumbered numbers.now (kept_chosen choice other.old.tracks)) }
    ensures short { scale < 2 ^ 32 }
    ensures joined { OnOk result
        (own.new ≡ kept_joined own.old other.old (kept_chosen choice other.old.tracks) numbers.now scale) }
    ensures same { OnErr result (own.new ≡ own.old) }
    ensures back { OnErr result (other.new ≡ other.old) }
{
    if own.tracks.reserve(other.tracks().len()).is_err() {
        return Err(NoMemory);
    }
    let MovieParts {
        scale: other_scale,
        head,
        tracks,
    } = other.take();
    replace_head(&mut own.head, head, own.tracks.is_empty());
    let mut added = prepared(tracks, choice, numbers, other_scale, scale);
    rescale_own(own.scale, scale, &mut own.tracks);
    if own.tracks.append(&mut added).is_err() {
        unreachable!();
    }
    own.scale = scale;
    Ok(())
}

/// The other head stands in place of the head, where that is wanted.
fn replace_head(head: &mut MovieHead, other: MovieHead, wanted: bool)
    ensures { head.new ≡ (if wanted then other else head.old) }
{
    if wanted {
        *head = other;
    }
}

/// The tracks in a movie of the new scale, in the room that they have.
fn rescale_own(old: u32, new: u32, tracks: &mut Vec<Track>)
    requires some { 0 < old }
    requires short { All (λ track. All (CanLast old new) (segments_in track.edits)) tracks.old.items }
    ensures tracks { tracks.new.items ≡ map (kept_in_scale old new) tracks.old.items }
    ensures len { vec_len tracks.new ≡ vec_len tracks.old }
    ensures room { vec_capacity tracks.new ≡ vec_capacity tracks.old }
{
    rescale_tracks(old, new, tracks);
}

/// The chosen ones of the tracks with these numbers, in a movie of the new scale.
fn prepared(tracks: Vec<Track>, choice: Choice, numbers: &[u32], old: u32, new: u32) -> Vec<Track>
    requires some { 0 < old }
    requires numbers { length numbers.now ≡ length (kept_chosen choice tracks.items) }
    requires short { All (λ track. All (CanLast old new) (segments_in track.edits))
        (kept_renumbered numbers.now (kept_chosen choice tracks.items)) }
    ensures tracks { result.items
        ≡ map (kept_in_scale old new) (kept_renumbered numbers.now (kept_chosen choice tracks.items)) }
    ensures few { vec_len result ≤ vec_len tracks }
{
    let mut chosen = tracks;
    keep_chosen(&mut chosen, choice);
    renumber(&mut chosen, numbers);
    rescale_tracks(old, new, &mut chosen);
    chosen
}

/// Leaves the chosen tracks.
fn keep_chosen(tracks: &mut Vec<Track>, choice: Choice)
    ensures tracks { tracks.new.items ≡ kept_chosen choice tracks.old.items }
    ensures few { vec_len tracks.new ≤ vec_len tracks.old }
{
    tracks.retain(|track| is_chosen(choice, track));
}

/// The tracks get these numbers.
fn renumber(tracks: &mut [Track], numbers: &[u32])
    requires { length numbers.now ≡ length tracks.old }
    ensures { tracks.new ≡ kept_renumbered numbers.now tracks.old }
{
    for at in 0..tracks.len() {
        set_number(&mut tracks[at], numbers[at]);
    }
}

/// The track gets that number.
fn set_number(track: &mut Track, number: u32)
    ensures { track.new ≡ record track.old { number = number } }
{
    track.number = number;
}
