//! The movie box (ISO/IEC 14496-12, 8.2.1).

ghost use Rattle.std.specs.Prelude.{◌≡◌, ◌≤◌, ℕ, List, OnOk, length, map};
ghost use Rattle.std.specs.List.{AllByRecursion};
ghost use Rattle.mp_boxes.specs.Field.{Part, box_bytes};
ghost use Rattle.mp_boxes.specs.Push.{ArePushed, IsPushed};
ghost use Rattle.mp_boxes.specs.Table.{HasLen, boxes_len, capped};
ghost use Rattle.mp_columns.specs.declared.columns.TheConstants.{MOST_ITEMS};
ghost use Rattle.mp_interleave.specs.Law.{IsWithin};
ghost use Rattle.mp_movie.specs.CanBeWritten.{CanBeWritten};
ghost use Rattle.mp_movie.specs.StandsFor.{stands_for, track_for};
ghost use Rattle.mp_layout.specs.Chunked.{ArePlaced, CanAllBePlaced};
ghost use Rattle.mp_layout.specs.Moov.{traks};
ghost use Rattle.mp_layout.specs.Tables.{Placing};
ghost use Rattle.mp_layout.specs.Written.{moov_with};

use crate::heads::movie_header;
use crate::table::track_heads;
use crate::trak::{push_trak, track_boxes};
use mp_boxes::{begin_box, box_len, boxes_have_lengths, push_bytes, sum_len};
use mp_headers::{mvhd_len, push_mvhd};
use mp_interleave::Chunk;
use mp_movie::{Movie, Track};
use mp_ports::NoMemory;
use std::alloc::Global;

/// The length of `moov`, where the boxes of all tracks have so many bytes together.
pub fn moov_len(movie: &Movie, traks: u64) -> u64
    ensures { (files : List (List ℕ)) (parts : List Part) → traks ≡ capped (boxes_len parts)
        → HasLen result (moov_with (stands_for files movie.now) parts) }
{
    boxes_have_lengths();
    let head = movie.head();
    let header = movie_header(movie);
    let udta: &[u8] = &head.udta;
    let len = sum_len(&[mvhd_len(&header), traks, udta.len() as u64]);
    box_len(&[], len)
}

/// Pushes the `trak` of each track, in a movie of this scale, where the chunks stand at these places, which are
/// written in 64 bits or in 32.
fn push_traks(
    alloc: Global,
    scale: u32,
    tracks: &[Track],
    chunks: &[Chunk],
    places: &[u64],
    wide: &[bool],
    out: &mut Vec<u8>,
) -> Result<(), NoMemory>
    requires few_tracks { length tracks.now ≤ 64 }
    requires within { AllByRecursion (IsWithin tracks.now) chunks.now }
    requires written { AllByRecursion CanBeWritten tracks.now }
    requires places { length places.now ≡ length chunks.now }
    requires few { length chunks.now ≤ MOST_ITEMS }
    requires flags { length wide.now ≡ length tracks.now }
    requires placed { CanAllBePlaced tracks.now chunks.now places.now wide.now }
    ensures { OnOk result ((files : List (List ℕ)) (placing : ℕ → Placing)
        → ArePlaced files tracks.now chunks.now places.now wide.now placing
        → ArePushed out.old out.new (map box_bytes (traks scale placing 0 (map (track_for files) tracks.now)))) }
{
    for position in 0..tracks.len() {
        let heads = track_heads(alloc, tracks, position as u32, chunks, places)?;
        let boxes = track_boxes(scale, &tracks[position], &heads, wide[position]);
        push_trak(&tracks[position], &heads, wide[position], &boxes, out);
    }
    Ok(())
}

/// Pushes `moov`, which has `len` bytes.
pub fn push_moov(
    alloc: Global,
    movie: &Movie,
    chunks: &[Chunk],
    places: &[u64],
    wide: &[bool],
    len: u64,
    out: &mut Vec<u8>,
) -> Result<(), NoMemory>
    requires few_tracks { length movie.now.tracks ≤ 64 }
    requires within { AllByRecursion (IsWithin movie.now.tracks) chunks.now }
    requires written { AllByRecursion CanBeWritten movie.now.tracks }
    requires places { length places.now ≡ length chunks.now }
    requires few { length chunks.now ≤ MOST_ITEMS }
    requires flags { length wide.now ≡ length movie.now.tracks }
    requires placed { CanAllBePlaced movie.now.tracks chunks.now places.now wide.now }
    ensures { OnOk result ((files : List (List ℕ)) (placing : ℕ → Placing)
        → ArePlaced files movie.now.tracks chunks.now places.now wide.now placing
        → HasLen len (moov_with (stands_for files movie.now)
        (traks movie.now.scale placing 0 (map (track_for files) movie.now.tracks)))
        → IsPushed out.old out.new (box_bytes (moov_with (stands_for files movie.now)
        (traks movie.now.scale placing 0 (map (track_for files) movie.now.tracks))))) }
{
    let head = movie.head();
    begin_box(out, *b"moov", &[], len);
    push_mvhd(&movie_header(movie), out);
    push_traks(
        alloc,
        movie.scale(),
        movie.tracks(),
        chunks,
        places,
        wide,
        out,
    )?;
    push_bytes(out, &head.udta);
    Ok(())
}
