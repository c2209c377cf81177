//! The least set of tracks that need places of 64 bits (ISO/IEC 14496-12, 8.7.5), from a few numbers of each.

ghost use Rattle.std.specs.Prelude.{◌≡◌, ◌<◌, ◌≤◌, ◌^◌, ◌*◌, if◌then◌else◌, All, IfOk, IfSome, IsNone, length, true};
ghost use Rattle.mp_layout.specs.Wide.{IsFar, IsLeastSet, IsShortReach, chunks_in, fits, is_near};

use std::alloc::{AllocError, Global};

/// The last place of 32 bits.
const LAST_PLACE: u64 = u32::MAX as u64;

/// What is known of a track before its place: the length of its `trak` with places of 32 bits, how many
/// chunks it has, and how far behind the payload's first byte the furthest of them stands.
#[derive(Clone, Copy)]
pub struct Reach {
    pub trak: u64,
    pub chunks: u32,
    pub furthest: u64,
}

/// Whether each place of the track fits 32 bits, where the payload stands there.
fn is_near(place: u64, reach: Reach) -> bool
    ensures { result ≡ is_near place reach }
{
    reach.chunks == 0 || place.saturating_add(reach.furthest) <= LAST_PLACE
}

/// A track outside the set that has a place above 32 bits, where the payload stands there.
fn far_track(place: u64, reaches: &[Reach], wide: &[bool]) -> Option<usize>
    requires flags { length wide.now ≡ length reaches.now }
    ensures none { IsNone result → fits place reaches.now wide.now ≡ true }
    ensures some { IfSome result (λ at. IsFar place reaches.now wide.now at) }
{
    for at in 0..reaches.len() {
        if !wide[at] && !is_near(place, reaches[at]) {
            return Some(at);
        }
    }
    None
}

/// The least set of tracks for which each place of every other track fits 32 bits. The payload stands at
/// `base` where the set is empty, and each place of 64 bits moves it by 4 bytes.
pub fn least_wide(alloc: Global, base: u64, reaches: &[Reach]) -> Result<Vec<bool>, AllocError>
    requires base { base < 2 ^ 62 }
    requires few { length reaches.now ≤ 64 }
    requires short { All IsShortReach reaches.now }
    ensures { IfOk result (λ wide. IsLeastSet base reaches.now wide.items) }
{
    let mut wide = vec![in alloc; false; reaches.len()]?;
    let mut place = base;
    while let Some(at) = far_track(place, reaches, &wide) {
        wide[at] = true;
        place += 4 * u64::from(reaches[at].chunks);
    }
    Ok(wide)
}

/// How many chunks the track has, where it is in the set.
fn chunks_of(reach: Reach, wide: bool) -> u64
    ensures is { result ≡ (if wide then reach.chunks else 0) }
    ensures short { result < 2 ^ 32 }
{
    if wide { u64::from(reach.chunks) } else { 0 }
}

/// How many chunks the tracks of the set have.
pub fn wide_chunks(reaches: &[Reach], wide: &[bool]) -> u64
    requires flags { length wide.now ≡ length reaches.now }
    requires few { length reaches.now ≤ 64 }
    ensures is { result ≡ chunks_in reaches.now wide.now }
    ensures short { result ≤ 64 * 2 ^ 32 }
{
    let mut chunks = 0;
    for at in 0..reaches.len() {
        chunks += chunks_of(reaches[at], wide[at]);
    }
    chunks
}
