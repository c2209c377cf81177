//! Which scales the pieces of a track need, and how far they reach.

ghost use Rattle.std.specs.Prelude.{◌≡◌, ℕ, ◌<◌, ◌≤◌, ◌*◌, ◌/◌, ◌%◌, ◌^◌, pos, ◌-ℤ◌, ◌*ℤ◌, ◌≤ℤ◌, unsigned_abs, true, List, [], ◌∷◌, IfSome, IfNone, if◌then◌else◌};
ghost use Rattle.mp_frac.specs.Divisors.{most};
ghost use Rattle.mp_frac.specs.Time.{IsInRange, IsSameTime, IsWhole, in_ticks};
ghost use Rattle.mp_timeline.specs.declared.segment.Segment.TheVariants.{Media};
ghost use Rattle.mp_movie.specs.CanBeWritten.{CanBeWritten};
ghost use Rattle.mp_movie.specs.StandsFor.{track_for};
ghost use Rattle.mp_shown.specs.Fractions.{is_before};
ghost use Rattle.mp_clip.specs.Clipped.{IsRange, unit};
ghost use Rattle.mp_clip.specs.Shape.{GivesShape};
ghost use Rattle.cut_op.specs.Track.{track_pieces};
ghost use Rattle.cut_op.specs.Between.{IsShownEnd, between, media_pieces};

use crate::explicit::media_end;
use mp_clip::{ClipShape, clip_shape};
use mp_frac::{Frac, compare, gcd, least_multiple, whole_in, wholeness_is_division};
use mp_movie::Track;
use std::cmp::Ordering;

/// What the pieces of a track in a movie of that scale need. `None` exactly where a multiple of a scale is above
/// 4,294,967,295.
pub(crate) fn track_shape(
    track: &Track,
    movie_scale: u32,
    from: Frac,
    to: Frac,
) -> Option<ClipShape>
    requires track { CanBeWritten track.now }
    requires movie { 0 < movie_scale }
    requires range { IsRange from to }
    ensures { (files : List (List ℕ)) → GivesShape track.now.scale movie_scale
        (unit track.now.scale movie_scale from to)
        (track_pieces movie_scale from to (track_for files track.now)) result }
{
    match &track.edits {
        Some(edits) => clip_shape(edits, track.scale, movie_scale, from, to),
        None => media_shape(media_end(track), track.scale, movie_scale, from, to),
    }
}

/// The same of the whole media, which lasts so many ticks of its scale.
fn media_shape(extent: u64, scale: u32, movie_scale: u32, from: Frac, to: Frac) -> Option<ClipShape>
    requires media { 0 < scale }
    requires movie { 0 < movie_scale }
    requires range { IsRange from to }
    requires short { extent < 2 ^ 57 }
    ensures { GivesShape scale movie_scale (unit scale movie_scale from to)
        (media_pieces scale movie_scale from to extent) result }
{
    let end = shown_end(extent, scale, to);
    if !is_before(from, end) {
        return Some(ClipShape {
            media_scale: scale,
            movie_scale,
            total: 0,
            least: 0,
            greatest: 0,
        });
    }
    piece_shape(scale, movie_scale, from, end)
}

/// When a media that lasts so many ticks ends, or the range does, if that is earlier.
fn shown_end(extent: u64, scale: u32, to: Frac) -> Frac
    requires some { 0 < scale }
    requires range { IsInRange to }
    requires after { pos 0 ≤ℤ to.n }
    requires short { extent < 2 ^ 57 }
    ensures { IsShownEnd scale extent to result }
{
    let end = Frac {
        n: i128::from(extent),
        d: scale,
    };
    earlier(end, to)
}

/// What one piece of the media needs, from one time up to another.
fn piece_shape(scale: u32, movie_scale: u32, from: Frac, end: Frac) -> Option<ClipShape>
    requires media { 0 < scale }
    requires movie { 0 < movie_scale }
    requires from { IsInRange from }
    requires after { pos 0 ≤ℤ from.n }
    requires end { IsInRange end }
    requires short { unsigned_abs end.n ≤ 2 ^ 57 * end.d }
    requires order { is_before from end ≡ true }
    ensures { (unit start dur : ℕ) → IsSameTime from (in_ticks (pos start) unit)
        → IsSameTime (between from end) (in_ticks (pos dur) unit)
        → GivesShape scale movie_scale unit (Media start dur ∷ []) result }
{
    wholeness_is_division();
    let Some(media_scale) = least_multiple(scale, from) else {
        return None;
    };
    let Some(length) = difference(end, from) else {
        return None;
    };
    let Some(new_scale) = least_multiple(movie_scale, length) else {
        return None;
    };
    let start = ticks_in(from, media_scale);
    Some(ClipShape {
        media_scale,
        movie_scale: new_scale,
        total: ticks_in(length, new_scale),
        least: start,
        greatest: start,
    })
}

/// Whether a time comes before another.
pub(crate) fn is_before(time: Frac, other: Frac) -> bool
    requires first { IsInRange time }
    requires second { IsInRange other }
    ensures { result ≡ is_before time other }
{
    compare(time, other) == Ordering::Less
}

/// The earlier of two times.
fn earlier(a: Frac, b: Frac) -> Frac
    requires first { IsInRange a }
    requires second { IsInRange b }
    ensures { result ≡ (if is_before b a then b else a) }
{
    if is_before(b, a) { b } else { a }
}

/// The ticks of a scale that a time is which is whole in it and not before 0.
fn ticks_in(time: Frac, scale: u32) -> u128
    requires time { IsInRange time }
    requires some { 0 < scale }
    requires after { pos 0 ≤ℤ time.n }
    requires whole { IsWhole scale time }
    ensures { IsSameTime (in_ticks (pos result) scale) time }
{
    match whole_in(time, scale) {
        Some(ticks) => ticks.unsigned_abs(),
        None => unreachable!(),
    }
}

/// How long it is from a time to a later one, in lowest terms; `None` where a second has more than
/// 4,294,967,295 of the greatest ticks in which that is whole.
fn difference(later: Frac, time: Frac) -> Option<Frac>
    requires later { IsInRange later }
    requires time { IsInRange time }
    requires after { pos 0 ≤ℤ time.n }
    requires order { (time.n *ℤ pos later.d) ≤ℤ (later.n *ℤ pos time.d) }
    requires short { unsigned_abs later.n ≤ 2 ^ 57 * later.d }
    ensures some { IfSome result (λ length. IsSameTime length (between time later)) }
    ensures range { IfSome result (λ length. IsInRange length) }
    ensures after { IfSome result (λ length. pos 0 ≤ℤ length.n) }
    ensures none { IfNone result ((scale : ℕ) → 0 < scale → IsWhole scale (between time later) → most < scale) }
{
    wholeness_is_division();
    let n = ticks_between(later, time);
    let d = parts_of_both(later, time);
    let common = gcd(d, rest_by(n, d));
    match u32::try_from(d / common) {
        Ok(lowest) => Some(Frac {
            n: seconds_by(n, common),
            d: lowest,
        }),
        Err(_) => None,
    }
}

/// How many ticks a second has, of which both times are whole numbers.
fn parts_of_both(later: Frac, time: Frac) -> u64
    ensures { result ≡ later.d * time.d }
{
    u64::from(later.d) * u64::from(time.d)
}

/// What is left of a number by a divisor.
fn rest_by(number: u128, divisor: u64) -> u64
    requires { 0 < divisor }
    ensures { result ≡ number % divisor }
{
    (number % u128::from(divisor)) as u64
}

/// A number by a divisor.
fn seconds_by(number: u128, divisor: u64) -> i128
    requires some { 0 < divisor }
    requires few { number < 2 ^ 127 }
    ensures { result ≡ pos (number / divisor) }
{
    (number / u128::from(divisor)) as i128
}

/// How long that is, in ticks of which a second has the product of both.
fn ticks_between(later: Frac, time: Frac) -> u128
    requires later { IsInRange later }
    requires time { IsInRange time }
    requires after { pos 0 ≤ℤ time.n }
    requires order { (time.n *ℤ pos later.d) ≤ℤ (later.n *ℤ pos time.d) }
    ensures value { pos result ≡ later.n *ℤ pos time.d -ℤ time.n *ℤ pos later.d }
    ensures short { result ≤ unsigned_abs later.n * time.d }
    ensures few { result < 2 ^ 127 }
{
    parts_of(later, time.d) - parts_of(time, later.d)
}

/// The ticks of a time, times a scale.
fn parts_of(time: Frac, scale: u32) -> u128
    requires { IsInRange time }
    ensures value { result ≡ unsigned_abs time.n * scale }
    ensures few { result < 2 ^ 127 }
{
    time.n.unsigned_abs() * u128::from(scale)
}
