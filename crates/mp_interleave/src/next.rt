//! The chunk that comes next.

ghost use Rattle.std.specs.Prelude.{◌≡◌, ◌-◌, ◌≤◌, IfSome, IsNone, length, slice_index};
ghost use Rattle.std.specs.List.{AllByRecursion};
ghost use Rattle.mp_movie.specs.CanBeWritten.{CanBeWritten};
ghost use Rattle.mp_movie.specs.Limits.{most_tracks};
ghost use Rattle.mp_interleave.specs.Left.{IsFirst, least_from, sooner, tails};
ghost use Rattle.mp_interleave.specs.Order.{chunk_order, keys_in};
ghost use Rattle.mp_interleave.specs.Place.{IsNext, IsPlace};

use crate::chunk::Chunk;
use crate::times::{run_len, window_from};
use mp_movie::Track;

/// The earlier of the window at a position and of the least behind it.
fn sooner(at: usize, window: Option<u128>, best: Option<(usize, u128)>) -> Option<(usize, u128)>
    ensures { result ≡ sooner at window best }
{
    match (window, best) {
        (None, _) => best,
        (Some(window), None) => Some((at, window)),
        (Some(window), Some((_, least))) => {
            if window <= least {
                Some((at, window))
            } else {
                best
            }
        }
    }
}

/// The track whose next sample comes first behind the first `done` chunks, and the window of this sample.
fn least_track(tracks: &[Track], window: u32, done: u64, next: &[u32]) -> Option<(usize, u128)>
    requires tracks { AllByRecursion CanBeWritten tracks.now }
    requires place { IsPlace (keys_in window tracks.now) done next.now }
    ensures { result ≡ least_from 0
        (tails (λ position. slice_index next.now position - 1) 0 (keys_in window tracks.now)) }
{
    let mut best = None;
    let mut at = tracks.len();
    while at > 0 {
        at -= 1;
        best = sooner(at, window_from(&tracks[at], window, next[at]), best);
    }
    best
}

/// The track of the chunk behind the first `done`.
fn next_track(tracks: &[Track], window: u32, done: u64, next: &[u32]) -> Option<usize>
    requires tracks { AllByRecursion CanBeWritten tracks.now }
    requires place { IsPlace (keys_in window tracks.now) done next.now }
    ensures some { IfSome result (λ position. IsFirst tracks.now window done next.now position) }
    ensures none { IsNone result → done ≡ length (chunk_order (keys_in window tracks.now)) }
{
    match least_track(tracks, window, done, next) {
        Some((track, _)) => Some(track),
        None => None,
    }
}

/// The chunk behind the first `done`, whose first sample is the next one of its track.
pub(crate) fn next_chunk(tracks: &[Track], window: u32, done: u64, next: &[u32]) -> Option<Chunk>
    requires tracks { AllByRecursion CanBeWritten tracks.now }
    requires few { length tracks.now ≤ most_tracks }
    requires place { IsPlace (keys_in window tracks.now) done next.now }
    ensures some { IfSome result (λ chunk. IsNext (keys_in window tracks.now) done chunk) }
    ensures none { IsNone result → done ≡ length (chunk_order (keys_in window tracks.now)) }
{
    let Some(track) = next_track(tracks, window, done, next) else {
        return None;
    };
    let first = next[track];
    let count = run_len(&tracks[track], window, first - 1);
    Some(Chunk {
        track: track as u32,
        first,
        count,
    })
}
