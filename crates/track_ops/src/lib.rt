//! Commands on the tracks of a movie: tracks of another movie are added, a track is removed, its language is
//! set, it is enabled or disabled, it is shown later or earlier, and scales are set.
//!
//! `specs/Adding` and `specs/Tracks` say of each command what it makes of a movie, as plain values, and which
//! refusal comes first: its own, and then the first limit that the movie would pass. A refusal leaves the movie
//! as it was, and so does want of memory, and a movie that was handed in comes back.
#![tactic(auto)]

mod adding;
mod chosen;
mod delaying;
mod heads;
mod joining;
mod law;
mod numbers;
mod removal;
mod rescale;
mod set_scale;
mod showing;
mod summary;
#[cfg(test)]
mod tests;
mod ticks;
mod tracks;
mod wide;

pub use adding::add_tracks;
pub use chosen::Choice;
pub use delaying::delay;
pub use heads::{HeadChange, set_enabled, set_language};
pub use law::{commands_are_seen, least_scales_are_found, settled_times_are_kept};
pub use removal::remove;
pub use set_scale::{set_movie_scale, set_track_scale};
