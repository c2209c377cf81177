//! What a movie is, how it is kept, and which movie a file presents (ISO/IEC 14496-12, 8.1 to 8.10).
//!
//! `specs/WellFormed` and `specs/Limits` say which movies there are, `specs/Heads` and `specs/Durations`
//! what their headers state, and `specs/Present` which movie a file presents: the one that `movie_of`
//! reads, unless one of the checks of the file fails. The checks stand in lists, in order; the first that
//! fails is the fault of the file, with its code and its place.
//!
//! A [`Movie`] keeps columns of numbers and places of bytes in opened files, and no sample's bytes. With
//! the files' bytes it stands for one movie (`specs/StandsFor`). Its type keeps that it is well formed and
//! within the limits; [`check_fits`] says the first limit that parts pass.
#![tactic(auto)]

mod durations;
mod law;
mod limits;
mod movie;
mod scales;
mod sums;
#[cfg(test)]
mod tests;
mod track;
#[cfg(test)]
mod track_tests;
mod written;

pub use durations::{extent, media_duration, movie_duration, next_track, track_duration};
pub use law::{
    a_sample_follows, columns_are_kept, files_may_follow, heads_are_kept, limits_are_of_tracks,
    parts_stand_for_movies, plain_heads_fit, readings_are_guarded, same_movie_is_presented,
};
pub use limits::check_fits;
pub use movie::{Movie, MovieParts};
pub use mp_pieces::Piece;
pub use scales::settle;
pub use sums::pieces_len;
pub use track::{Track, TrackParts};
pub use written::{parts_can_be_written, pieces_are_payload};
