//! The track of pictures.

ghost use Rattle.std.specs.Prelude.{◌≡◌, ◌≤◌, ◌<◌, ◌^◌, ◌*◌, ◌+◌, [], ℕ, All, Option, Some, length, get_or, option_map, vec_len, IfOk, IsSome, OnOk};
ghost use Rattle.std.specs.List.{AllByRecursion};
ghost use Rattle.mp_boxes.specs.Boxes.{IsBytes};
ghost use Rattle.mp_boxes.specs.Field.{box_bytes};
ghost use Rattle.mp_entries.specs.Avc1.{avc1_entry as avc1_box};
ghost use Rattle.mp_movie.specs.HeadRanges.{IsTrackHead};
ghost use Rattle.mp_movie.specs.WellFormed.{IsEntryBox};
ghost use Rattle.mp_movie.specs.WholeParts.{AreColumns};
ghost use Rattle.avc_sets.specs.Configuration.{configuration, items_of};
ghost use Rattle.avc_import.specs.declared.rate.Rate.{Rate};
ghost use Rattle.avc_import.specs.Sets.{longest_set, most_pictures};
ghost use Rattle.avc_import.specs.Film.{Film, edits, picture_head, schedule};
ghost use Rattle.avc_import.specs.Places.{bare_track, placed_movie, with_part, with_parts};
ghost use Rattle.avc_import.specs.Movie.{AreShots, ArePassed};

use crate::film::Shots;
use crate::limits::{is_number, offset};
use crate::order::{mark_at, number_at};
use crate::schedule::Schedule;
use crate::sets::Sets;
use avc_sets::{Sps, make_avcc};
use mp_entries::avc1_entry;
use mp_movie::{Movie, Track, a_sample_follows, limits_are_of_tracks, plain_heads_fit};
use mp_ports::{Fail, NoMemory};
use mp_timeline::{EntryBytes, Segment, TrackHead};
use std::alloc::Global;

/// The movie of these pictures, which pass no limit.
pub(crate) fn film_movie(alloc: Global, shots: Shots) -> Result<Movie, NoMemory>
    requires { ArePassed shots }
    ensures { (file size : ℕ) (rate : Option Rate) (film : Film) → AreShots file size rate film shots
        → IfOk result (λ movie. movie ≡ placed_movie file film (schedule rate film)) }
{
    limits_are_of_tracks();
    let schedule = shots.schedule;
    let mut track = match track_of(alloc, &shots.sets, schedule) {
        Ok(track) => track,
        Err(fail) => return Err(fail),
    };
    match push_pictures(&mut track, &shots) {
        Ok(()) => {}
        Err(fail) => return Err(fail),
    }
    is_number(schedule.scale);
    match Movie::from_scaled(alloc, schedule.movie_scale, track) {
        Ok(movie) => Ok(movie),
        Err((Fail::NoMemory, _)) => Err(NoMemory),
        Err((Fail::Bad(_), _)) => unreachable!(),
    }
}

/// The track without its pictures.
fn track_of(alloc: Global, sets: &Sets, schedule: Schedule) -> Result<Track, NoMemory>
    requires sequence { IsSome sets.now.sequence }
    requires some { 0 < length sets.now.units }
    requires early { schedule.delay * schedule.ticks < 2 ^ 64 }
    requires short { 0 < schedule.delay → schedule.lasts < 2 ^ 64 }
    ensures track { (film : Film) → sets.now.sequence ≡ Some film.sequence → sets.now.units ≡ film.picture_units
        → IfOk result (λ track. track ≡ bare_track film schedule) }
    ensures columns { IfOk result AreColumns }
    ensures entry { IfOk result (λ track. AllByRecursion IsEntryBox track.entries) }
    ensures head { IfOk result (λ track. IsTrackHead track.head) }
{
    let Some(sequence) = &sets.sequence else {
        unreachable!();
    };
    let mut entries = Vec::new(alloc);
    entries.push(picture_entry(alloc, &sequence.bytes, &sequence.fields, &sets.units)?)?;
    let head = picture_head(alloc, &sequence.fields)?;
    let mut track = Track::new(alloc, 1, head, schedule.scale, entries);
    track.edits = edits_of(alloc, schedule)?;
    Ok(track)
}

/// The sample entry of pictures: the whole box `avc1`.
fn picture_entry(
    alloc: Global,
    sequence: &[u8],
    fields: &Sps,
    units: &[Vec<u8>],
) -> Result<EntryBytes, NoMemory>
    requires sequence { length sequence.now ≤ longest_set }
    requires some { 0 < length units.now }
    requires few { length units.now ≤ most_pictures }
    requires short { All (λ unit. vec_len unit ≤ longest_set) units.now }
    ensures written { IfOk result (λ entry. entry
        ≡ box_bytes (avc1_box (configuration sequence.now fields.now (items_of units.now))
        fields.now.width fields.now.height)) }
    ensures entry { IfOk result (λ entry. IsEntryBox entry) }
{
    let body = make_avcc(alloc, sequence, fields, units)?;
    let bytes = avc1_entry(alloc, &body, fields.width, fields.height)?;
    are_bytes(&bytes);
    Ok(EntryBytes { bytes })
}

/// Each is below 256, as their type says. It does nothing.
fn are_bytes(bytes: &[u8])
    ensures { IsBytes bytes.now }
{}

/// The head of a track of pictures of that width and height.
fn picture_head(alloc: Global, fields: &Sps) -> Result<TrackHead, NoMemory>
    ensures head { IfOk result (λ head. head ≡ picture_head fields.now) }
    ensures fits { IfOk result (λ head. IsTrackHead head) }
{
    plain_heads_fit();
    let mut head = TrackHead::plain(alloc, *b"vide")?;
    head.width = u32::from(fields.width) * 65_536;
    head.height = u32::from(fields.height) * 65_536;
    Ok(head)
}

/// Showing begins with the picture that is shown first.
fn edits_of(alloc: Global, schedule: Schedule) -> Result<Option<Vec<Segment>>, NoMemory>
    requires early { schedule.delay * schedule.ticks < 2 ^ 64 }
    requires short { 0 < schedule.delay → schedule.lasts < 2 ^ 64 }
    ensures { IfOk result (λ list. option_map (λ e. e.items) list ≡ edits schedule) }
{
    if schedule.delay == 0 {
        return Ok(None);
    }
    let mut edits = Vec::new(alloc);
    edits.push(Segment::Media {
        start: u64::from(schedule.delay) * schedule.ticks,
        dur: schedule.lasts as u64,
    })?;
    Ok(Some(edits))
}

/// Each picture is a sample of the track, which has none.
fn push_pictures(track: &mut Track, shots: &Shots) -> Result<(), NoMemory>
    requires passed { ArePassed shots.now }
    requires none { length track.old.deltas ≡ 0 }
    requires columns { AreColumns track.old }
    requires entry { length track.old.entries ≡ 1 }
    ensures track { (file size : ℕ) (rate : Option Rate) (film : Film) → AreShots file size rate film shots.now
        → OnOk result (track.new ≡ with_parts file film (schedule rate film) 0 film.parts track.old) }
    ensures columns { OnOk result (AreColumns track.new) }
{
    for k in 0..shots.syncs.len() {
        push_picture(track, shots, k)?;
    }
    Ok(())
}

/// Picture k is the next sample of the track.
fn push_picture(track: &mut Track, shots: &Shots, k: usize) -> Result<(), NoMemory>
    requires passed { ArePassed shots.now }
    requires inside { k < length shots.now.syncs.items }
    requires number { length track.old.deltas ≡ k }
    requires columns { AreColumns track.old }
    requires entry { length track.old.entries ≡ 1 }
    ensures track { (file size : ℕ) (rate : Option Rate) (film : Film) → AreShots file size rate film shots.now
        → OnOk result (track.new ≡ with_part file film (schedule rate film) k (get_or film.parts k []) track.old) }
    ensures columns { OnOk result (AreColumns track.new) }
    ensures number { OnOk result (length track.new.deltas ≡ k + 1) }
    ensures entry { OnOk result (length track.new.entries ≡ 1) }
{
    a_sample_follows();
    let schedule = shots.schedule;
    let shown = number_at(&shots.order.shown, k);
    let later = offset(shown, schedule, k as u64) as i64;
    let part = shots.pictures.part(k);
    let sync = mark_at(&shots.syncs, k);
    track.push_sample(schedule.ticks as u32, later, sync, 1, part)?;
    Ok(())
}
