//! Which tracks of a movie are added.

ghost use Rattle.std.specs.Prelude.{◌≡◌};
ghost use Rattle.track_ops.specs.Adding.{is_chosen};

use mp_movie::Track;

/// The tracks of a file that are added.
#[derive(Clone, Copy, Debug, PartialEq, Eq)]
pub enum Choice {
    All,
    /// The track of that number.
    Number(u32),
    /// The tracks of handler `vide`.
    Video,
    /// The tracks of handler `soun`.
    Audio,
}

/// Whether the track is chosen.
pub(crate) fn is_chosen(choice: Choice, track: &Track) -> bool
    ensures { result ≡ is_chosen choice track.now.number track.now.head.handler }
{
    match choice {
        Choice::All => true,
        Choice::Number(number) => track.number == number,
        Choice::Video => track.head.handler == *b"vide",
        Choice::Audio => track.head.handler == *b"soun",
    }
}
