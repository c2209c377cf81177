//! Every track, segment and sample of a movie in a line of its own.

ghost use Rattle.std.specs.Prelude.{◌≡◌, ◌++◌, ℕ, List, codes, length, map, option_map, if◌then◌else◌, IfOk, OnOk};
ghost use Rattle.std.specs.List.{flat_map};
ghost use Rattle.mp_edits.specs.EditBox.{segments_in};
ghost use Rattle.mp_movie.specs.StandsFor.{Hold, HoldTrack, stands_for, track_for};
ghost use Rattle.mp_movie.specs.WholeParts.{AreColumns};
ghost use Rattle.mp_dump.specs.Timeline.{row_line, row_lines, segment_line, timeline, track_lines};
ghost use Rattle.mp_dump.specs.Track.{IsTold, rows_in};

use crate::info::{put_movie, put_track, tracks_of};
use crate::put::{put_field, put_signed};
use crate::row::{Row, row_at};
use mp_columns::Column;
use mp_movie::{Movie, Track, columns_are_kept};
use mp_ports::NoMemory;
use mp_timeline::Segment;
use std::alloc::{AllocError, Global};

/// The movie in a line, and each track in one, followed by its segments and its samples.
pub fn timeline_text(alloc: Global, movie: &Movie) -> Result<Vec<u8>, NoMemory>
    ensures { IfOk result (λ text. (files : List (List ℕ)) → Hold (map length files) movie.now
        → text.items ≡ timeline (stands_for files movie.now)) }
{
    let mut out = Vec::new(alloc);
    put_movie(&mut out, movie)?;
    for track in tracks_of(movie) {
        put_lines(&mut out, track)?;
    }
    Ok(out)
}

/// The lines of a track.
fn put_lines(out: &mut Vec<u8>, track: &Track) -> Result<(), AllocError>
    requires { IsTold track.now }
    ensures { OnOk result ((files : List (List ℕ)) → HoldTrack (map length files) track.now
        → out.new.items ≡ out.old.items ++ track_lines (track_for files track.now)) }
{
    columns_are_kept();
    put_track(out, track)?;
    put_edits(out, &track.edits)?;
    put_rows(out, track)?;
    Ok(())
}

/// The lines of the edit list, if there is one.
fn put_edits(out: &mut Vec<u8>, edits: &Option<Vec<Segment>>) -> Result<(), AllocError>
    ensures { OnOk result (out.new.items ≡ out.old.items
        ++ flat_map segment_line (segments_in (option_map (λ list. list.items) edits.now))) }
{
    match edits {
        None => Ok(()),
        Some(edits) => put_segments(out, edits),
    }
}

/// A line for each segment.
fn put_segments(out: &mut Vec<u8>, edits: &[Segment]) -> Result<(), AllocError>
    ensures { OnOk result (out.new.items ≡ out.old.items ++ flat_map segment_line edits.now) }
{
    for segment in edits {
        put_segment(out, *segment)?;
    }
    Ok(())
}

/// The line of a segment.
#[tactic(auto, unfolding(crate::specs::Timeline::segment_line))]
fn put_segment(out: &mut Vec<u8>, segment: Segment) -> Result<(), AllocError>
    ensures { OnOk result (out.new.items ≡ out.old.items ++ segment_line segment) }
{
    match segment {
        Segment::Empty { dur } => put_field(out, b"edit empty ", dur)?,
        Segment::Media { start, dur } => {
            put_field(out, b"edit media ", start)?;
            put_field(out, b" ", dur)?;
        }
    }
    out.extend_from_slice(b"\n")
}

/// A line for each sample.
fn put_rows(out: &mut Vec<u8>, track: &Track) -> Result<(), AllocError>
    requires { AreColumns track.now }
    ensures { OnOk result (out.new.items ≡ out.old.items ++ row_lines 0 (rows_in track.now)) }
{
    let mut decode = 0;
    for before in 0..track.deltas.len() {
        let row = row_at(track, before, decode);
        put_row(out, before + 1, row)?;
        decode += u128::from(row.dur);
    }
    Ok(())
}

/// The line of the sample of that number.
pub fn put_row(out: &mut Vec<u8>, number: u32, row: Row) -> Result<(), AllocError>
    ensures { OnOk result (out.new.items ≡ out.old.items ++ row_line number row) }
{
    put_field(out, b"sample ", number)?;
    put_field(out, b" size ", row.size)?;
    put_field(out, b" decode ", row.decode)?;
    put_field(out, b" duration ", row.dur)?;
    put_signed(out, b" composition ", row.comp)?;
    put_mark(out, row.sync)?;
    put_field(out, b" entry ", row.entry)?;
    out.extend_from_slice(b"\n")?;
    Ok(())
}

/// Whether it is a sync sample.
fn put_mark(out: &mut Vec<u8>, sync: bool) -> Result<(), AllocError>
    ensures { OnOk result (out.new.items ≡ out.old.items ++ (if sync then codes " sync" else codes " plain")) }
{
    if sync {
        out.extend_from_slice(b" sync")
    } else {
        out.extend_from_slice(b" plain")
    }
}
