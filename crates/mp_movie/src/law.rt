// Laws of the definitions: calls that do nothing, whose contracts are the laws.
ghost use Rattle.std.specs.Prelude.{◌≡◌, ◌≢◌, ℕ, List, None, Some, codes, length};
ghost use Rattle.mp_boxes.specs.Boxes.{IsBytes};
ghost use Rattle.mp_ports.specs.declared.fault.Bad.{Bad};
ghost use Rattle.mp_timeline.specs.Movie.{MovieRecord, TrackRecord};
ghost use Rattle.mp_timeline.specs.Plain.{plain_movie_head, plain_track_head};
ghost use Rattle.mp_timeline.specs.Same.{HasScales};
ghost use Rattle.mp_movie.specs.Heads.{media_fields, movie_fields, movie_head, track_fields, track_head};
ghost use Rattle.mp_movie.specs.Present.{Presents, first_fault, moov_in, movie_of, present};
ghost use Rattle.mp_movie.specs.HeadRanges.{IsMovieHead, IsTrackHead};
ghost use Rattle.mp_movie.specs.WellFormed.{IsWellFormed};
ghost use Rattle.mp_movie.specs.PartsLaw.{ColumnsAreKept, FilesMayFollow, LimitsAreOfTracks, PartsStandForMovies, SamplesFollow};

use mp_timeline::sameness_is_equality;

/// A file presents a movie exactly where none of its checks fails, and then the one that is read.
pub fn readings_are_guarded()
    ensures read { (file : List ℕ) → first_fault file ≡ None
        → present file ≡ Some (movie_of file (moov_in file)) }
    ensures refused { (file : List ℕ) (bad : Bad) → first_fault file ≡ Some bad → present file ≡ None }
{}

/// The headers of a movie and of its tracks state their heads.
pub fn heads_are_kept()
    ensures movie { (movie : MovieRecord) → movie_head (movie_fields movie) movie.head.udta ≡ movie.head }
    ensures track { (movie_scale : ℕ) (track : TrackRecord)
        → track_head (track_fields movie_scale track) (media_fields track)
        track.head.handler track.head.name track.head.udta ≡ track.head }
{}

/// The heads of a source that says nothing of them are in their ranges.
pub fn plain_heads_fit()
    ensures movie { IsMovieHead plain_movie_head }
    ensures track { (handler : List ℕ) → length handler ≡ 4 → IsBytes handler → handler ≢ codes "hint"
        → IsTrackHead (plain_track_head handler) }
    ensures sound { IsTrackHead (plain_track_head (codes "soun")) }
{}

/// A file that presents a movie exactly presents the same movie, where each scale is at least one tick a
/// second; and so it is where the movie is well formed.
pub fn same_movie_is_presented()
    ensures presented { (file : List ℕ) (movie : MovieRecord) → HasScales movie
        → present file ≡ Some movie → Presents file movie }
    ensures scales { (movie : MovieRecord) → IsWellFormed movie → HasScales movie }
{
    sameness_is_equality();
}

/// Columns stay columns with one sample more, and stand for one sample more.
pub fn a_sample_follows()
    ensures { SamplesFollow }
{}

/// The columns of a track are those of the samples that it stands for.
pub fn columns_are_kept()
    ensures { ColumnsAreKept }
{}

/// Well-formed parts stand for a well-formed movie, and where files hold its pieces it is within the limits
/// exactly where the parts are.
pub fn parts_stand_for_movies()
    ensures { PartsStandForMovies }
{
    columns_are_kept();
}

/// Files that are opened later change nothing of what a movie stands for.
pub fn files_may_follow()
    ensures { FilesMayFollow }
{}

/// Where none of the tracks passes a limit, and there are neither too many samples nor too many tracks, the
/// movie passes none.
pub fn limits_are_of_tracks()
    ensures { LimitsAreOfTracks }
{}
