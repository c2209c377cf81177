//! The movie of the tables of a file: each sample is one piece of the file (ISO/IEC 14496-12, 8.7).

ghost use Rattle.std.specs.Prelude.{◌≡◌, ◌<◌, ◌≤◌, All, IfOk, length};
ghost use Rattle.std.specs.Int.{FitsUnsigned, w32};
ghost use Rattle.std.specs.List.{AllByRecursion};
ghost use Rattle.mp_columns.specs.declared.columns.TheConstants.{MOST_ITEMS};
ghost use Rattle.mp_read.specs.Parts.{HasSizes, piece_in, pieces_in, placed_movie, placed_track};

use crate::columns::copies;
use crate::movie::MovieTables;
use crate::track::TrackTables;
use mp_chunks::Places;
use mp_columns::Column;
use mp_movie::{MovieParts, Piece, TrackParts};
use mp_ports::NoMemory;
use std::alloc::{AllocError, Global};

/// The sample before which there are so many, as a piece of that file.
fn piece_at(places: &Places, file: u32, before: usize) -> Piece
    requires few { length places.now.from ≤ MOST_ITEMS }
    requires each { length places.now.sizes ≡ length places.now.from }
    requires fit { All (FitsUnsigned w32) places.now.sizes }
    requires inside { before < length places.now.from }
    ensures { result ≡ piece_in file places.now before }
{
    Piece {
        file,
        from: places.from[before],
        len: places.sizes.at(before as u32) as u32,
        prefix: None,
    }
}

/// Each sample as a piece of that file.
#[tactic(auto, using(crate::proofs::PiecesFollow::next_piece), unfolding(crate::specs::Parts::pieces_in))]
fn pieces_of(alloc: Global, places: &Places, file: u32) -> Result<Vec<Piece>, AllocError>
    requires few { length places.now.from ≤ MOST_ITEMS }
    requires each { length places.now.sizes ≡ length places.now.from }
    requires fit { All (FitsUnsigned w32) places.now.sizes }
    ensures { IfOk result (λ pieces. pieces.items ≡ pieces_in file places.now) }
{
    let mut pieces = Vec::with_capacity(alloc, places.from.len())?;
    for i in 0..places.from.len() {
        pieces.push(piece_at(places, file, i))?;
    }
    Ok(pieces)
}

/// The parts of a track of that file. Its columns are those of the tables.
fn track_of(alloc: Global, track: TrackTables, file: u32) -> Result<TrackParts, NoMemory>
    requires { HasSizes track }
    ensures { IfOk result (λ parts. parts ≡ placed_track file track) }
{
    let columns = track.columns;
    let places = columns.places;
    let pieces = pieces_of(alloc, &places, file)?;
    let counts = copies(alloc, 1, places.from.len() as u32)?;
    Ok(TrackParts {
        number: track.number,
        head: track.head,
        scale: track.scale,
        entries: track.entries,
        deltas: columns.durations,
        offsets: columns.composition_offsets,
        syncs: columns.sync_marks,
        kinds: places.kinds,
        sizes: places.sizes,
        counts,
        pieces,
        edits: track.edits,
    })
}

/// The parts of the movie of that file: each sample is one piece of it. Its columns are those of the tables.
pub fn parts_of(alloc: Global, movie: MovieTables, file: u32) -> Result<MovieParts, NoMemory>
    requires { AllByRecursion HasSizes movie.tracks }
    ensures { IfOk result (λ parts. parts ≡ placed_movie file movie) }
{
    let mut tracks = Vec::new(alloc);
    for track in movie.tracks {
        tracks.push(track_of(alloc, track, file)?)?;
    }
    Ok(MovieParts {
        scale: movie.scale,
        head: movie.head,
        tracks,
    })
}
