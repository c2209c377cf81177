//! The fields of the header boxes of a movie and of its tracks (ISO/IEC 14496-12, 8.2.2, 8.3.2 and 8.4.2).

ghost use Rattle.std.specs.Prelude.{◌≡◌, ℕ, ◌<◌, List};
ghost use Rattle.mp_movie.specs.Heads.{media_fields, movie_fields, track_fields};
ghost use Rattle.mp_movie.specs.StandsFor.{stands_for, track_for};
ghost use Rattle.mp_movie.specs.WholeParts.{AreColumns};

use mp_headers::{Mdhd, Mvhd, Tkhd};
use mp_movie::{Movie, Track, media_duration, movie_duration, next_track, track_duration};

/// The fields of the header of a movie.
pub fn movie_header(movie: &Movie) -> Mvhd
    ensures { (files : List (List ℕ)) → result ≡ movie_fields (stands_for files movie.now) }
{
    let head = movie.head();
    Mvhd {
        created: head.created,
        modified: head.modified,
        timescale: movie.scale(),
        duration: movie_duration(movie),
        rate: head.rate,
        volume: head.volume,
        matrix: head.matrix,
        next_track: next_track(movie),
    }
}

/// The fields of the header of a track, in a movie of this scale.
pub fn track_header(movie_scale: u32, track: &Track) -> Tkhd
    requires columns { AreColumns track.now }
    requires scale { 0 < track.now.scale }
    ensures { (files : List (List ℕ)) → result ≡ track_fields movie_scale (track_for files track.now) }
{
    let head = &track.head;
    Tkhd {
        flags: head.flags,
        created: head.created,
        modified: head.modified,
        number: track.number,
        duration: track_duration(movie_scale, track),
        layer: head.layer,
        group: head.group,
        volume: head.volume,
        matrix: head.matrix,
        width: head.width,
        height: head.height,
    }
}

/// The fields of the media header of a track.
pub fn media_header(track: &Track) -> Mdhd
    requires { AreColumns track.now }
    ensures { (files : List (List ℕ)) → result ≡ media_fields (track_for files track.now) }
{
    let head = &track.head;
    Mdhd {
        created: head.media_created,
        modified: head.media_modified,
        timescale: track.scale,
        duration: media_duration(track),
        language: head.language,
    }
}
