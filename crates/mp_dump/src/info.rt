//! What is said of a movie and of each of its tracks.

ghost use Rattle.std.specs.Prelude.{◌≡◌, ◌≤◌, ◌++◌, ℕ, All, List, length, map, option_map, IfOk, OnOk};
ghost use Rattle.mp_movie.specs.StandsFor.{Hold, HoldTrack, stands_for, track_for};
ghost use Rattle.mp_movie.specs.WholeParts.{AreColumns, bare_track};
ghost use Rattle.mp_dump.specs.Info.{edits_text, enabled_text, first_type, info, movie_line, samples_text, settings_text, track_line, track_text};
ghost use Rattle.mp_dump.specs.Track.{IsTold};

use crate::put::{entry_type, language_text, put_field, put_number, put_signed, type_text};
use mp_columns::Column;
use mp_movie::{Movie, Track, columns_are_kept, media_duration, movie_duration};
use mp_ports::NoMemory;
use mp_timeline::{EntryBytes, Segment};
use std::alloc::{AllocError, Global};

/// A line for the movie, and one for each track.
pub fn info_text(alloc: Global, movie: &Movie) -> Result<Vec<u8>, NoMemory>
    ensures { IfOk result (λ text. (files : List (List ℕ)) → Hold (map length files) movie.now
        → text.items ≡ info (stands_for files movie.now)) }
{
    let mut out = Vec::new(alloc);
    put_movie(&mut out, movie)?;
    for track in tracks_of(movie) {
        put_track(&mut out, track)?;
    }
    Ok(out)
}

/// The line of the movie.
pub fn put_movie(out: &mut Vec<u8>, movie: &Movie) -> Result<(), AllocError>
    ensures { OnOk result ((files : List (List ℕ))
        → out.new.items ≡ out.old.items ++ movie_line (stands_for files movie.now)) }
{
    put_field(out, b"movie scale ", movie.scale())?;
    put_field(out, b" duration ", movie_duration(movie))?;
    put_field(out, b" tracks ", movie.tracks().len())?;
    out.extend_from_slice(b"\n")?;
    Ok(())
}

/// The line of a track.
pub fn put_track(out: &mut Vec<u8>, track: &Track) -> Result<(), AllocError>
    requires { IsTold track.now }
    ensures { OnOk result ((files : List (List ℕ)) → HoldTrack (map length files) track.now
        → out.new.items ≡ out.old.items ++ track_line (track_for files track.now)) }
{
    put_description(out, track)?;
    put_totals(out, track)?;
    put_settings(out, track)?;
    Ok(())
}

/// Its number, handler, first entry and scale.
#[tactic(auto, unfolding(crate::specs::Info::track_text))]
fn put_description(out: &mut Vec<u8>, track: &Track) -> Result<(), AllocError>
    requires { IsTold track.now }
    ensures { OnOk result (out.new.items ≡ out.old.items ++ track_text (bare_track track.now)) }
{
    put_field(out, b"track ", track.number)?;
    out.extend_from_slice(b" handler ")?;
    out.extend_from_slice(&type_text(track.head.handler))?;
    out.extend_from_slice(b" entry ")?;
    put_first_type(out, &track.entries)?;
    put_field(out, b" scale ", track.scale)
}

/// How many samples and sync samples it has, their bytes and their duration.
fn put_totals(out: &mut Vec<u8>, track: &Track) -> Result<(), AllocError>
    requires { AreColumns track.now }
    ensures { OnOk result ((files : List (List ℕ)) → HoldTrack (map length files) track.now
        → out.new.items ≡ out.old.items ++ samples_text (track_for files track.now)) }
{
    columns_are_kept();
    put_field(out, b" samples ", track.deltas.len())?;
    put_signed(out, b" sync ", track.syncs.total())?;
    put_signed(out, b" bytes ", track.sizes.total())?;
    put_field(out, b" duration ", media_duration(track))?;
    Ok(())
}

/// Its language, whether it is enabled, and its edits.
#[tactic(auto, unfolding(crate::specs::Info::settings_text))]
fn put_settings(out: &mut Vec<u8>, track: &Track) -> Result<(), AllocError>
    ensures { OnOk result (out.new.items ≡ out.old.items ++ settings_text (bare_track track.now)) }
{
    out.extend_from_slice(b" language ")?;
    out.extend_from_slice(&language_text(track.head.language))?;
    out.extend_from_slice(b" ")?;
    put_enabled(out, track.head.flags)?;
    out.extend_from_slice(b" edits ")?;
    put_edits(out, &track.edits)?;
    out.extend_from_slice(b"\n")
}

/// The type of the first entry, if there is one.
fn put_first_type(out: &mut Vec<u8>, entries: &[EntryBytes]) -> Result<(), AllocError>
    requires { All (λ entry. 8 ≤ length entry) entries.now }
    ensures { OnOk result (out.new.items ≡ out.old.items ++ first_type entries.now) }
{
    match entries.first() {
        None => out.extend_from_slice(b"none"),
        Some(entry) => out.extend_from_slice(&entry_type(&entry.bytes)),
    }
}

/// Whether the track is enabled.
fn put_enabled(out: &mut Vec<u8>, flags: u32) -> Result<(), AllocError>
    ensures { OnOk result (out.new.items ≡ out.old.items ++ enabled_text flags) }
{
    if flags % 2 == 1 {
        out.extend_from_slice(b"enabled")
    } else {
        out.extend_from_slice(b"disabled")
    }
}

/// How many segments the edit list has, if there is one.
fn put_edits(out: &mut Vec<u8>, edits: &Option<Vec<Segment>>) -> Result<(), AllocError>
    ensures { OnOk result (out.new.items ≡ out.old.items ++ edits_text (option_map (λ list. list.items) edits.now)) }
{
    match edits {
        None => out.extend_from_slice(b"none"),
        Some(edits) => put_number(out, edits.len()),
    }
}

/// The tracks of a movie.
#[tactic(auto, using(crate::proofs::TracksAreTold::tracks_are_told))]
pub fn tracks_of(movie: &Movie) -> &[Track]
    ensures tracks { result.now ≡ movie.now.tracks }
    ensures told { All IsTold result.now }
{
    movie.tracks()
}
