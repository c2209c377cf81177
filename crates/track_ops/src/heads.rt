//! One field of a track's head is set.

ghost use Rattle.std.specs.Prelude.{◌≡◌, Some, All};
ghost use Rattle.track_ops.specs.Does.{Does};
ghost use Rattle.track_ops.specs.Heads.{IsChange, IsLetter, changed, language_of};
ghost use Rattle.track_ops.specs.Kept.{kept_changed, kept_headed, with_head_at};
ghost use Rattle.track_ops.specs.Tracks.{change_head, set_enabled, set_language};

use crate::tracks::{has_track, no_track};
use mp_movie::{Movie, MovieParts, Track};
use mp_ports::Bad;
use mp_timeline::TrackHead;

/// A change of a track's head.
#[derive(Clone, Copy, Debug, PartialEq, Eq)]
pub enum HeadChange {
    /// Its language, three letters of 5 bits (ISO/IEC 14496-12, 8.4.2).
    Language(u16),
    /// Whether it is enabled, bit 0 of the flags (8.3.2).
    Enabled(bool),
}

/// Sets the language of the track of that number, by three letters `a` to `z`. It takes no memory.
///
/// `NoTrack` where no track has it.
pub fn set_language(movie: &mut Movie, number: u32, letters: [u8; 3]) -> Result<(), Bad>
    requires { All IsLetter letters }
    ensures { Does Some (set_language number letters) movie.old movie.new result }
{
    change_head(movie, number, HeadChange::Language(language_of(letters)))
}

/// Enables or disables the track of that number. It takes no memory.
///
/// `NoTrack` where no track has it.
pub fn set_enabled(movie: &mut Movie, number: u32, on: bool) -> Result<(), Bad>
    ensures { Does Some (set_enabled number on) movie.old movie.new result }
{
    change_head(movie, number, HeadChange::Enabled(on))
}

/// The language of three letters.
fn language_of(letters: [u8; 3]) -> u16
    requires { All IsLetter letters }
    ensures { result ≡ language_of letters }
{
    let [first, second, third] = letters;
    u16::from(first - 96) * 1024 + u16::from(second - 96) * 32 + u16::from(third - 96)
}

/// Changes the head of the track of that number.
fn change_head(movie: &mut Movie, number: u32, change: HeadChange) -> Result<(), Bad>
    requires { IsChange change }
    ensures { Does Some (change_head number change) movie.old movie.new result }
{
    if !has_track(movie.tracks(), number) {
        return Err(no_track());
    }
    let mut parts = movie.take();
    change_parts(&mut parts, number, change);
    *movie = Movie::from_parts(parts);
    Ok(())
}

/// Changes the heads of the tracks of that number.
fn change_parts(parts: &mut MovieParts, number: u32, change: HeadChange)
    ensures { parts.new ≡ kept_headed number change parts.old }
{
    change_all(&mut parts.tracks, number, change);
}

/// Changes the heads of those of the tracks that have that number.
pub(crate) fn change_all(tracks: &mut [Track], number: u32, change: HeadChange)
    ensures { tracks.new ≡ kept_changed number change tracks.old }
{
    for track in tracks.iter_mut() {
        change_one(track, number, change);
    }
}

/// Changes the head of the track where it has that number.
fn change_one(track: &mut Track, number: u32, change: HeadChange)
    ensures { track.new ≡ with_head_at number change track.old }
{
    if track.number == number {
        set_field(&mut track.head, change);
    }
}

/// Sets a field of a head.
fn set_field(head: &mut TrackHead, change: HeadChange)
    ensures { head.new ≡ changed change head.old }
{
    match change {
        HeadChange::Language(code) => head.language = code,
        HeadChange::Enabled(on) => head.flags = head.flags / 2 * 2 + u32::from(on),
    }
}
