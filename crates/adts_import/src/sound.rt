//! The movie of a stream: columns of equal numbers, and the places of the payloads.

ghost use Rattle.std.specs.Prelude.{◌≡◌, ◌≤◌, length, map, pos, replicate, IfOk};
ghost use Rattle.mp_columns.specs.declared.columns.TheConstants.{MOST_ITEMS};
ghost use Rattle.mp_movie.specs.WellFormed.{IsEntryBox};
ghost use Rattle.adts_import.specs.Entry.{entry_bytes};
ghost use Rattle.adts_import.specs.Frame.{IsConfiguration};
ghost use Rattle.adts_import.specs.Places.{ArePayloads, placed_movie, placed_track};

use crate::entry::sound_entry;
use crate::header::Configuration;
use mp_columns::{Col, Column};
use mp_movie::{Movie, Track, plain_heads_fit};
use mp_pieces::Piece;
use mp_ports::{Fail, NoMemory};
use mp_timeline::TrackHead;
use std::alloc::Global;

/// Samples of sound in a frame of one block (ISO/IEC 14496-3, 4.5.1.1).
const FRAME_DURATION: u32 = 1024;

/// The movie of one track of sound whose samples are these pieces of a file.
pub(crate) fn sound_movie(
    alloc: Global,
    stream: Configuration,
    pieces: Vec<Piece>,
    file: u32,
    size: u64,
) -> Result<Movie, NoMemory>
    requires fits { IsConfiguration stream }
    requires payloads { ArePayloads file size pieces.items }
    ensures { IfOk result (λ movie. movie ≡ placed_movie stream pieces.items) }
{
    plain_heads_fit();
    let track = sound_track(alloc, stream, pieces)?;
    match Movie::from_track(alloc, track) {
        Ok(movie) => Ok(movie),
        Err((Fail::NoMemory, _)) => Err(NoMemory),
        Err((Fail::Bad(_), _)) => unreachable!(),
    }
}

/// The track of sound whose samples are these pieces, one each.
#[tactic(auto, unfolding(crate::specs::Places::placed_track))]
fn sound_track(alloc: Global, stream: Configuration, pieces: Vec<Piece>) -> Result<Track, NoMemory>
    requires fits { IsConfiguration stream }
    requires few { length pieces.items ≤ MOST_ITEMS }
    ensures track { IfOk result (λ track. track ≡ placed_track stream pieces.items) }
    ensures entry { IfOk result (λ _. IsEntryBox (entry_bytes stream)) }
{
    let count = pieces.len() as u32;
    let mut entries = Vec::new(alloc);
    entries.push(sound_entry(alloc, stream)?)?;
    Ok(Track {
        number: 1,
        head: TrackHead::plain(alloc, *b"soun")?,
        scale: stream.frequency(),
        entries,
        deltas: column_of(alloc, FRAME_DURATION, count)?,
        offsets: column_of(alloc, 0, count)?,
        syncs: column_of(alloc, 1, count)?,
        kinds: column_of(alloc, 1, count)?,
        sizes: lengths_of(alloc, &pieces)?,
        counts: column_of(alloc, 1, count)?,
        pieces,
        edits: None,
    })
}

/// So many copies of a number.
fn column_of(alloc: Global, number: u32, count: u32) -> Result<Col, NoMemory>
    requires { count ≤ MOST_ITEMS }
    ensures { IfOk result (λ column. column ≡ replicate count (pos number)) }
{
    let mut column = Col::new(alloc);
    column.push_copies(i64::from(number), count)?;
    Ok(column)
}

/// How many bytes each piece has.
fn lengths_of(alloc: Global, pieces: &[Piece]) -> Result<Col, NoMemory>
    requires { length pieces.now ≤ MOST_ITEMS }
    ensures { IfOk result (λ column. column ≡ map (λ piece. pos piece.len) pieces.now) }
{
    let mut column = Col::new(alloc);
    for piece in pieces {
        column.push(i64::from(piece.len))?;
    }
    Ok(column)
}
