//! What a movie presents as one JSON object.
//!
//! The text is that of the whole value, and is written in its order, so that no value is kept: strings by
//! `serde_json`, numbers by `itoa`.

ghost use Rattle.std.specs.Prelude.{◌≡◌, ◌++◌, ℕ, List, length, map, IfOk, OnOk};
ghost use Rattle.serde_json.specs.Data.{array};
ghost use Rattle.serde_json.specs.Written.{compact_text};
ghost use Rattle.mp_movie.specs.StandsFor.{Hold, HoldTrack, stands_for, track_for};
ghost use Rattle.mp_movie.specs.WholeParts.{AreColumns};
ghost use Rattle.mp_dump.specs.Json.{items, json, row_value, track_value};
ghost use Rattle.mp_dump.specs.Track.{IsTold, rows_in};

use crate::info::tracks_of;
use crate::put::{language_text, put_number, type_text};
use crate::row::row_at;
use crate::values::{put_boolean, put_comma, put_edits, put_entries, put_row, put_string};
use mp_columns::Column;
use mp_movie::{Movie, Track, columns_are_kept, movie_duration};
use mp_ports::NoMemory;
use std::alloc::{AllocError, Global};

/// One compact object and a line end, its keys in the order of their bytes: `duration`, `scale`, `tracks`, and
/// of a track `edits`, `enabled`, `entries`, `handler`, `language`, `number`, `samples`, `scale`.
pub fn timeline_json(alloc: Global, movie: &Movie) -> Result<Vec<u8>, NoMemory>
    ensures { IfOk result (λ text. (files : List (List ℕ)) → Hold (map length files) movie.now
        → text.items ≡ json (stands_for files movie.now)) }
{
    let mut out = Vec::new(alloc);
    out.extend_from_slice(b"{\"duration\":")?;
    put_number(&mut out, movie_duration(movie))?;
    out.extend_from_slice(b",\"scale\":")?;
    put_number(&mut out, movie.scale())?;
    out.extend_from_slice(b",\"tracks\":[")?;
    let mut later = false;
    for track in tracks_of(movie) {
        put_comma(&mut out, later)?;
        put_track(&mut out, track)?;
        later = true;
    }
    out.extend_from_slice(b"]}")?;
    out.extend_from_slice(b"\n")?;
    Ok(out)
}

/// The object of a track.
fn put_track(out: &mut Vec<u8>, track: &Track) -> Result<(), AllocError>
    requires { IsTold track.now }
    ensures { OnOk result ((files : List (List ℕ)) → HoldTrack (map length files) track.now
        → out.new.items ≡ out.old.items ++ compact_text (track_value (track_for files track.now))) }
{
    columns_are_kept();
    out.extend_from_slice(b"{\"edits\":")?;
    put_edits(out, &track.edits)?;
    out.extend_from_slice(b",\"enabled\":")?;
    put_boolean(out, track.head.flags % 2 == 1)?;
    out.extend_from_slice(b",\"entries\":")?;
    put_entries(out, &track.entries)?;
    out.extend_from_slice(b",\"handler\":")?;
    put_string(out, &type_text(track.head.handler))?;
    out.extend_from_slice(b",\"language\":")?;
    put_string(out, &language_text(track.head.language))?;
    out.extend_from_slice(b",\"number\":")?;
    put_number(out, track.number)?;
    out.extend_from_slice(b",\"samples\":")?;
    put_rows(out, track)?;
    out.extend_from_slice(b",\"scale\":")?;
    put_number(out, track.scale)?;
    out.extend_from_slice(b"}")?;
    Ok(())
}

/// The samples, a list of numbers for each.
fn put_rows(out: &mut Vec<u8>, track: &Track) -> Result<(), AllocError>
    requires { AreColumns track.now }
    ensures { OnOk result (out.new.items ≡ out.old.items
        ++ compact_text (array (items row_value (rows_in track.now)))) }
{
    out.extend_from_slice(b"[")?;
    let mut decode = 0;
    for before in 0..track.deltas.len() {
        put_comma(out, before > 0)?;
        let row = row_at(track, before, decode);
        put_row(out, row)?;
        decode += u128::from(row.dur);
    }
    out.extend_from_slice(b"]")?;
    Ok(())
}
