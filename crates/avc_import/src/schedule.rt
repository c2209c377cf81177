//! The times of pictures: each lasts equally long.

ghost use Rattle.std.specs.Prelude.{◌≡◌, ◌+◌, ◌*◌, ◌<◌, ◌≤◌, ◌^◌, nat_lt, true, ◌==◌, if◌then◌else◌, IfOk, IfErr, IfSome};
ghost use Rattle.mp_frac.specs.Divisors.{most, up_to};
ghost use Rattle.mp_ports.specs.declared.code.Code.TheVariants.{ScaleLimit};
ghost use Rattle.mp_movie.specs.Placed.{plain_scale};
ghost use Rattle.avc_import.specs.Times.{lasting, least_whole, ticks_in, together};
ghost use Rattle.avc_import.specs.Film.{scheduled};
ghost use Rattle.avc_import.specs.Movie.{IsRate};
ghost use Rattle.avc_import.specs.Unit.{most_frames};

use crate::rate::Rate;
use mp_frac::{Frac, least_multiple, wholeness_is_division};
use mp_ports::Code;

/// How long a picture lasts where nothing is said: 25 pictures a second.
const USUAL: Duration = Duration { n: 1, d: 25 };

/// The scale of a movie whose edits need no other: milliseconds.
const PLAIN_SCALE: u32 = 1000;

/// A duration of n / d seconds.
#[derive(Clone, Copy, Debug, PartialEq, Eq)]
pub(crate) struct Duration {
    pub(crate) n: u64,
    pub(crate) d: u32,
}

/// Ticks a second, how many of them each picture lasts, by how many pictures showing is later than decoding, the
/// scale of the movie and how many of its ticks all pictures last together.
#[derive(Clone, Copy, Debug, PartialEq, Eq)]
pub(crate) struct Schedule {
    pub(crate) scale: u32,
    pub(crate) ticks: u64,
    pub(crate) delay: u32,
    pub(crate) movie_scale: u32,
    pub(crate) lasts: u128,
}

/// How long a picture lasts: by the rate, else by the timing of the stream, of which it lasts two ticks (H.264, E.2.1).
pub(crate) fn lasting(rate: Option<Rate>, tick: Option<(u32, u32)>) -> Duration
    requires { IfSome rate IsRate }
    ensures same { result ≡ lasting rate tick }
    ensures whole { 0 < result.d }
    ensures short { result.n < 2 ^ 33 }
{
    match (rate, tick) {
        (Some(rate), _) => Duration {
            n: u64::from(rate.den),
            d: rate.num,
        },
        (None, Some((units, scale))) if units != 0 && scale != 0 => Duration {
            n: 2 * u64::from(units),
            d: scale,
        },
        (None, _) => USUAL,
    }
}

/// The times of so many pictures that last this long each, and are shown so late. `ScaleLimit` where the scale of the
/// movie would be above 4,294,967,295.
pub(crate) fn schedule_of(time: Duration, pictures: u32, delay: u32) -> Result<Schedule, Code>
    requires whole { 0 < time.d }
    requires short { time.n < 2 ^ 33 }
    requires few { pictures ≤ most_frames }
    ensures schedule { IfOk result (λ s. s ≡ scheduled time pictures delay) }
    ensures limit { IfErr result (λ code. code ≡ ScaleLimit) }
    ensures passed { IfErr result (λ _. nat_lt most (scheduled time pictures delay).movie_scale ≡ true) }
{
    let all = together(time, pictures);
    let Some(movie_scale) = movie_scale(all, delay) else {
        return Err(Code::ScaleLimit);
    };
    let scale = track_scale(time);
    Ok(Schedule {
        scale,
        ticks: ticks_in(scale, time) as u64,
        delay,
        movie_scale,
        lasts: ticks_in(movie_scale, all),
    })
}

/// So many pictures together.
fn together(time: Duration, pictures: u32) -> Duration
    requires short { time.n < 2 ^ 33 }
    requires few { pictures ≤ most_frames }
    ensures same { result ≡ together pictures time }
    ensures short { result.n < 2 ^ 56 }
{
    Duration {
        n: u64::from(pictures) * time.n,
        d: time.d,
    }
}

/// The scale of the movie of pictures that last so long together; `None` where it is above 4,294,967,295.
fn movie_scale(all: Duration, delay: u32) -> Option<u32>
    requires whole { 0 < all.d }
    requires short { all.n < 2 ^ 56 }
    ensures { result ≡ up_to most (if delay == 0 then plain_scale else least_whole plain_scale all) }
{
    if delay == 0 {
        return Some(PLAIN_SCALE);
    }
    least_whole(PLAIN_SCALE, all)
}

/// The least scale in which a duration is whole.
#[tactic(auto, using(crate::proofs::Scaling::found_scale))]
fn track_scale(time: Duration) -> u32
    requires whole { 0 < time.d }
    requires short { time.n < 2 ^ 56 }
    ensures { result ≡ least_whole 1 time }
{
    match least_whole(1, time) {
        Some(scale) => scale,
        None => unreachable!(),
    }
}

/// The least multiple of a scale in which a duration is whole; `None` where it is above 4,294,967,295.
#[tactic(auto, using(crate::proofs::Scaling::limited))]
fn least_whole(scale: u32, time: Duration) -> Option<u32>
    requires some { 0 < scale }
    requires whole { 0 < time.d }
    requires short { time.n < 2 ^ 56 }
    ensures { result ≡ up_to most (least_whole scale time) }
{
    wholeness_is_division();
    least_multiple(
        scale,
        Frac {
            n: i128::from(time.n),
            d: time.d,
        },
    )
}

/// The ticks of a scale that a duration has.
fn ticks_in(scale: u32, time: Duration) -> u128
    requires { 0 < time.d }
    ensures { result ≡ ticks_in scale time }
{
    u128::from(time.n) * u128::from(scale) / u128::from(time.d)
}
