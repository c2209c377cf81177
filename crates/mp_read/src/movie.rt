//! A movie by its movie box (ISO/IEC 14496-12, 8.2).

ghost use Rattle.std.specs.Prelude.{◌≡◌, IfOk, IsOk, None};
ghost use Rattle.mp_ports.specs.Checks.{Checks, unless};
ghost use Rattle.mp_ports.specs.Gives.{Gives, refusal};
ghost use Rattle.mp_movie.specs.Children.{boxes_in, children, has_none, user_data};
ghost use Rattle.mp_movie.specs.Heads.{movie_head};
ghost use Rattle.mp_movie.specs.Present.{has_few_tracks, is_short, movie_fault};
ghost use Rattle.mp_read.specs.Part.{IsPart, part_of};
ghost use Rattle.mp_read.specs.Movie.{movie_tables};

use crate::moov::Moov;
use crate::track::TrackTables;
use crate::tracks::read_tracks;
use mp_boxes::{ChildBox, child_count, first_child};
use mp_headers::{Mvhd, read_mvhd};
use mp_ports::{Bad, Code, Fail, NoMemory};
use mp_timeline::MovieHead;
use std::alloc::Global;
use std::marker::Model;

/// The most tracks of a movie.
const MOST_TRACKS: usize = 64;

/// A movie as its boxes say it, tables in place of samples.
#[derive(Drop)]
pub struct MovieTables {
    /// Ticks a second.
    pub scale: u32,
    pub head: MovieHead,
    pub tracks: Vec<TrackTables>,
}

impl Model for MovieTables {
    ghost use Rattle.mp_read.specs.Movie.{MovieTablesRecord};

    ghost Value = { MovieTablesRecord };

    ghost view = { λ m. record { scale = m.scale; head = m.head; tracks = m.tracks.items } };
}

/// Whether none of the boxes in a box has that type; the code at the first that has it.
#[tactic(auto, unfolding(mp_movie::specs::Children::children))]
fn check_none(moov: &Moov<'_>, part: ChildBox, kind: [u8; 4], code: Code) -> Result<(), Bad>
    requires part { IsPart moov.now part }
    requires whole { IsOk (children (part_of moov.now part)) }
    ensures { Checks result (has_none code kind (boxes_in (part_of moov.now part))) }
{
    let base = moov.body_place(part);
    match first_child(moov.body(part), base, kind) {
        Some(child) => Err(Bad::at(code, base + child.place as u64)),
        None => Ok(()),
    }
}

/// Whether a movie box has no more tracks than a movie may have.
#[tactic(auto, unfolding(mp_movie::specs::Children::children))]
fn check_track_count(moov: &Moov<'_>, whole: ChildBox) -> Result<(), Bad>
    requires part { IsPart moov.now whole }
    requires whole { IsOk (children (part_of moov.now whole)) }
    ensures { Checks result (has_few_tracks (part_of moov.now whole)) }
{
    if child_count(moov.body(whole), moov.body_place(whole), *b"trak") > MOST_TRACKS {
        return Err(Bad::at(Code::TrackLimit, 0));
    }
    Ok(())
}

/// The head of a movie by its header and its user data.
fn head_of(
    alloc: Global,
    moov: &Moov<'_>,
    whole: ChildBox,
    header: &Mvhd,
) -> Result<MovieHead, NoMemory>
    requires part { IsPart moov.now whole }
    requires whole { IsOk (children (part_of moov.now whole)) }
    ensures { IfOk result (λ head. head ≡ movie_head header.now (user_data (part_of moov.now whole))) }
{
    let matrix = header.matrix;
    let udta = moov.user_data(alloc, whole)?;
    Ok(MovieHead {
        created: header.created,
        modified: header.modified,
        rate: header.rate,
        volume: header.volume,
        matrix,
        udta,
    })
}

/// The movie of a movie box, in a file of so many bytes.
///
/// Refused in this order: `BoxCut` and `BoxSize` in it; `Fragmented` at `mvex`; `Compressed` at `cmov`; `BoxMissing`
/// and `BoxTwice` of `mvhd`; then as `read_mvhd`; `TrackLimit` at 0; then track by track as `read_trak`.
#[tactic(auto, unfolding(mp_movie::specs::Present::movie_fault, crate::specs::Movie::movie_tables))]
pub fn read_moov(
    alloc: Global,
    moov: &Moov<'_>,
    whole: ChildBox,
    file_size: u64,
) -> Result<MovieTables, Fail>
    requires part { IsPart moov.now whole }
    requires short { is_short (part_of moov.now whole) ≡ None }
    ensures { let box = part_of moov.now whole in
        Gives refusal (λ movie. movie) result (unless (movie_fault file_size box) (movie_tables box)) }
{
    moov.check_boxes(whole)?;
    check_none(moov, whole, *b"mvex", Code::Fragmented)?;
    check_none(moov, whole, *b"cmov", Code::Compressed)?;
    let mvhd = moov.one(whole, *b"mvhd")?;
    let header = read_mvhd(moov.body(mvhd), mvhd.span.place)?;
    check_track_count(moov, whole)?;
    let tracks = read_tracks(alloc, moov, whole, file_size)?;
    let head = head_of(alloc, moov, whole, &header)?;
    Ok(MovieTables {
        scale: header.timescale,
        head,
        tracks,
    })
}
