//! Movies as they are kept, and how they are made and taken apart.

ghost use Rattle.std.specs.Prelude.{◌≡◌, ◌<◌, ◌≤◌, ◌^◌, None, IfErr};
ghost use Rattle.mp_ports.specs.Checks.{fault_at, unless};
ghost use Rattle.mp_ports.specs.Gives.{Gives, refusal};
ghost use Rattle.mp_columns.specs.declared.columns.TheConstants.{MOST_ITEMS};
ghost use Rattle.mp_movie.specs.Placed.{empty_movie, movie_of_track, payload_len, plain_scale, sample_count};
ghost use Rattle.mp_movie.specs.WholeParts.{AreParts, AreTrackParts};
ghost use Rattle.mp_movie.specs.PartsFit.{first_limit};

use crate::limits::check_fits;
use crate::sums::{count_of, payload_of};
use crate::track::{Track, TrackParts};
use mp_ports::{Bad, Fail};
use mp_timeline::MovieHead;
use std::alloc::{AllocFailed, Global};
use std::marker::Model;

/// The scale of a movie whose source has none: milliseconds.
const PLAIN_SCALE: u32 = 1000;

/// The parts of a movie that need not fit. `scale` is ticks a second.
#[derive(Drop)]
pub struct MovieParts {
    pub scale: u32,
    pub head: MovieHead,
    pub tracks: Vec<TrackParts>,
}

impl Model for MovieParts {
    ghost use Rattle.mp_movie.specs.Placed.{PlacedMovie};

    ghost Value = { PlacedMovie };

    ghost view = { λ m. record { scale = m.scale; head = m.head; tracks = m.tracks.items } };
}

/// A movie that is well formed and within the limits. It holds places of samples in opened files, and none
/// of their bytes.
#[derive(Drop)]
pub struct Movie {
    parts: MovieParts,
}

impl Model for Movie {
    ghost use Rattle.std.specs.Prelude.{◌≡◌, None};
    ghost use Rattle.mp_movie.specs.Placed.{PlacedMovie};
    ghost use Rattle.mp_movie.specs.WholeParts.{AreParts};
    ghost use Rattle.mp_movie.specs.PartsFit.{first_limit};

    ghost Value = { PlacedMovie };

    ghost view = { λ m. m.parts };

    ghost invariant = { λ m. AreParts m.parts × (first_limit m.parts ≡ None) };
}

impl Movie {
    /// The movie without tracks, of 1000 ticks a second. It takes no memory.
    pub fn new(alloc: Global) -> Self
        ensures { result ≡ empty_movie }
    {
        Movie {
            parts: no_tracks(alloc),
        }
    }

    /// The movie of one track whose source says nothing of the movie: 1000 ticks a second, the plain head.
    ///
    /// The edits' durations are these ticks. Where a limit is passed, the answer is the first one in the order
    /// of the codes, at no place; and there, and where memory is wanting, the parts come back.
    pub fn from_track(alloc: Global, parts: TrackParts) -> Result<Movie, (Fail, TrackParts)>
        requires { AreTrackParts plain_scale parts }
        ensures movie { Gives (λ refused. refusal refused.0) (λ movie. movie) result
            (unless (fault_at 0 (first_limit (movie_of_track plain_scale parts))) (movie_of_track plain_scale parts)) }
        ensures back { IfErr result (λ refused. refused.1 ≡ parts) }
    {
        Movie::from_scaled(alloc, PLAIN_SCALE, parts)
    }

    /// The same for a movie of this scale, of which the edits' durations are ticks: the least multiple of 1000
    /// in which they are whole.
    pub fn from_scaled(
        alloc: Global,
        scale: u32,
        parts: TrackParts,
    ) -> Result<Movie, (Fail, TrackParts)>
        requires scale { 0 < scale }
        requires parts { AreTrackParts scale parts }
        ensures movie { Gives (λ refused. refusal refused.0) (λ movie. movie) result
            (unless (fault_at 0 (first_limit (movie_of_track scale parts))) (movie_of_track scale parts)) }
        ensures back { IfErr result (λ refused. refused.1 ≡ parts) }
    {
        let mut tracks = Vec::new(alloc);
        if let Err(failed) = tracks.push(parts) {
            let AllocFailed { value } = failed;
            return Err((Fail::NoMemory, value));
        }
        let mut parts = MovieParts {
            scale,
            head: MovieHead::plain(alloc),
            tracks,
        };
        match check_fits(&parts) {
            None => Ok(Movie { parts }),
            Some(code) => match parts.tracks.pop() {
                Some(track) => Err((Fail::Bad(Bad::at(code, 0)), track)),
                None => unreachable!(),
            },
        }
    }

    /// The movie of these parts. It takes no memory.
    pub fn from_parts(parts: MovieParts) -> Movie
        requires whole { AreParts parts }
        requires fits { first_limit parts ≡ None }
        ensures { result ≡ parts }
    {
        Movie { parts }
    }

    /// The parts of the movie, in whose place the one without tracks is left. It takes no memory.
    pub fn take(&mut self) -> MovieParts
        ensures parts { result ≡ self.old }
        ensures left { self.new ≡ empty_movie }
        ensures whole { AreParts result }
        ensures fits { first_limit result ≡ None }
    {
        let alloc = *self.parts.tracks.allocator();
        std::mem::replace(&mut self.parts, no_tracks(alloc))
    }

    /// Ticks a second.
    pub fn scale(&self) -> u32
        ensures { result ≡ self.now.scale }
    {
        self.parts.scale
    }

    /// Its head.
    pub fn head(&self) -> &MovieHead
        ensures { result.now ≡ self.now.head }
    {
        &self.parts.head
    }

    /// Its tracks, in order.
    pub fn tracks(&self) -> &[Track]
        ensures tracks { result.now ≡ self.now.tracks }
        ensures whole { AreParts self.now }
        ensures fits { first_limit self.now ≡ None }
    {
        &self.parts.tracks
    }

    /// How many samples its tracks have together.
    #[tactic(auto, using(crate::proofs::LimitsInOrder::few_samples))]
    pub fn samples(&self) -> u32
        ensures count { result ≡ sample_count self.now.tracks }
        ensures most { result ≤ MOST_ITEMS }
    {
        count_of(&self.parts.tracks) as u32
    }

    /// How many bytes all its samples have together.
    #[tactic(auto, using(crate::proofs::LimitsInOrder::few_bytes))]
    pub fn payload(&self) -> u64
        ensures bytes { result ≡ payload_len self.now.tracks }
        ensures short { result < 2 ^ 55 }
    {
        payload_of(&self.parts.tracks)
    }
}

/// The parts of the movie without tracks.
fn no_tracks(alloc: Global) -> MovieParts
    ensures parts { result ≡ empty_movie }
    ensures whole { AreParts result }
    ensures fits { first_limit result ≡ None }
{
    MovieParts {
        scale: PLAIN_SCALE,
        head: MovieHead::plain(alloc),
        tracks: Vec::new(alloc),
    }
}
