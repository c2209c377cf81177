//! A track is removed.

ghost use Rattle.std.specs.Prelude.{◌≡◌, Some};
ghost use Rattle.track_ops.specs.Does.{Does};
ghost use Rattle.track_ops.specs.Kept.{kept_less, kept_without};
ghost use Rattle.track_ops.specs.Tracks.{remove};

use crate::tracks::{has_track, no_track};
use mp_movie::{Movie, MovieParts, Track};
use mp_ports::Bad;

/// Takes the track of that number out of the movie. It takes no memory.
///
/// `NoTrack` where no track has it.
pub fn remove(movie: &mut Movie, number: u32) -> Result<(), Bad>
    ensures { Does Some (remove number) movie.old movie.new result }
{
    if !has_track(movie.tracks(), number) {
        return Err(no_track());
    }
    let mut parts = movie.take();
    take_out(&mut parts, number);
    *movie = Movie::from_parts(parts);
    Ok(())
}

/// Takes the tracks of that number out of the parts.
fn take_out(parts: &mut MovieParts, number: u32)
    ensures { parts.new ≡ kept_less number parts.old }
{
    keep_others(&mut parts.tracks, number);
}

/// Takes the tracks of that number out.
pub(crate) fn keep_others(tracks: &mut Vec<Track>, number: u32)
    ensures { tracks.new.items ≡ kept_without number tracks.old.items }
{
    tracks.retain(|track| track.number != number);
}
