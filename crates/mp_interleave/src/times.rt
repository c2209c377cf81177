//! When samples are decoded, and how many in a row are of one window and entry.

ghost use Rattle.std.specs.Prelude.{◌≡◌, ◌≢◌, ℕ, ◌+◌, ◌-◌, ◌*◌, ◌<◌, ◌≤◌, ◌^◌, All, drop, length, sum};
ghost use Rattle.mp_times.specs.Times.{decode_time};
ghost use Rattle.mp_movie.specs.CanBeWritten.{CanBeWritten};
ghost use Rattle.mp_movie.specs.Placed.{naturals};
ghost use Rattle.mp_movie.specs.WholeParts.{IsNatural};
ghost use Rattle.mp_interleave.specs.Left.{AreEqual, run_len, window_from};
ghost use Rattle.mp_interleave.specs.Order.{track_keys, window_at};

use mp_columns::{Col, Column, Cursor};
use mp_movie::Track;

/// A tick behind all samples of a track.
const LAST_TICK: u128 = 1 << 55;

/// When the sample is decoded before which there are so many, in ticks of the track.
fn decode_at(track: &Track, before: u32) -> u128
    requires track { CanBeWritten track.now }
    requires inside { before ≤ length track.now.deltas }
    ensures time { result ≡ decode_time (naturals track.now.deltas) before }
    ensures short { sum (naturals track.now.deltas) < 2 ^ 55 }
    ensures within { result ≤ sum (naturals track.now.deltas) }
{
    let _len = track.deltas.len();
    track.deltas.prefix(before).unsigned_abs()
}

/// The window of a decode time, in windows of so many milliseconds.
fn window_at(millis: u32, scale: u32, decode: u128) -> u128
    requires scale { 0 < scale }
    requires short { decode < 2 ^ 55 }
    ensures { result ≡ window_at millis scale decode }
{
    if millis == 0 {
        return 0;
    }
    decode * 1000 / window_unit(millis, scale)
}

/// How long a window is, in thousandths of a tick.
fn window_unit(millis: u32, scale: u32) -> u128
    requires scale { 0 < scale }
    requires millis { 0 < millis }
    ensures unit { result ≡ scale * millis }
    ensures some { 0 < result }
    ensures short { result < 2 ^ 64 }
{
    u128::from(scale) * u128::from(millis)
}

/// A tick behind the window of a decode time: samples that are decoded later, but before it, are in the
/// window, and those at it and behind it aren't.
fn window_end(millis: u32, scale: u32, decode: u128) -> u128
    requires scale { 0 < scale }
    requires short { decode < 2 ^ 55 }
    ensures inside { (time : ℕ) → decode ≤ time → time < result
        → window_at millis scale time ≡ window_at millis scale decode }
    ensures behind { (time : ℕ) → time < 2 ^ 55 → result ≤ time
        → window_at millis scale time ≢ window_at millis scale decode }
    ensures short { result < 2 ^ 66 }
{
    if millis == 0 {
        return LAST_TICK;
    }
    let unit = window_unit(millis, scale);
    first_tick((decode * 1000 / unit + 1) * unit)
}

/// The first tick that isn't before so many thousandths of a tick.
fn first_tick(thousandths: u128) -> u128
    ensures before { (time : ℕ) → time < result → time * 1000 < thousandths }
    ensures behind { (time : ℕ) → result ≤ time → thousandths ≤ time * 1000 }
    ensures short { result ≤ thousandths }
{
    thousandths.div_ceil(1000)
}

/// The window of the sample of that number, where there is one.
pub(crate) fn window_from(track: &Track, millis: u32, first: u32) -> Option<u128>
    requires track { CanBeWritten track.now }
    requires some { 1 ≤ first }
    requires inside { first - 1 ≤ length track.now.deltas }
    ensures { result ≡ window_from (drop (first - 1) (track_keys millis track.now)) }
{
    let before = first - 1;
    if before == track.deltas.len() {
        return None;
    }
    Some(window_at(millis, track.scale, decode_at(track, before)))
}

/// How many samples in a row are of one window and entry, from the one on before which there are so many.
pub(crate) fn run_len(track: &Track, millis: u32, before: u32) -> u32
    requires track { CanBeWritten track.now }
    requires inside { before < length track.now.deltas }
    ensures { result ≡ run_len (drop before (track_keys millis track.now)) }
{
    let decode = decode_at(track, before);
    let end = window_end(millis, track.scale, decode);
    let most = equal_items(&track.kinds, before);
    samples_before(&track.deltas, before, decode, end, most)
}

/// How many items in a row are equal, from the one on before which there are so many.
fn equal_items(items: &Col, before: u32) -> u32
    requires { before < length items.now }
    ensures { AreEqual items.now before result }
{
    match items.next_run(&mut Cursor::at(before)) {
        Some(run) => run.count,
        None => 0,
    }
}

/// How many of so many samples are decoded before a tick, from the one on before which there are so many,
/// which is decoded at that time.
fn samples_before(deltas: &Col, before: u32, decode: u128, end: u128, most: u32) -> u32
    requires natural { All IsNatural deltas.now }
    requires inside { before + most ≤ length deltas.now }
    requires short { sum (naturals deltas.now) < 2 ^ 55 }
    requires end { end < 2 ^ 66 }
    requires time { decode ≡ decode_time (naturals deltas.now) before }
    ensures within { result ≤ most }
    ensures earlier { (i : ℕ) → i < result → decode_time (naturals deltas.now) (before + i) < end }
    ensures later { result < most → end ≤ decode_time (naturals deltas.now) (before + result) }
{
    let mut cursor = Cursor::at(before);
    let mut time = decode;
    let mut count = 0;
    while count < most {
        let Some(run) = deltas.next_run(&mut cursor) else {
            return most;
        };
        let delta = u128::from(run.value.unsigned_abs());
        let steps = steps_before(time, delta, end, run.count.min(most - count));
        if steps < run.count {
            return count + steps;
        }
        count += steps;
        time += delta * u128::from(steps);
    }
    count
}

/// How many of so many steps are before a tick, where the first is at that time, and from one to the next it
/// is so long.
fn steps_before(time: u128, delta: u128, end: u128, most: u32) -> u32
    requires delta { delta < 2 ^ 64 }
    requires end { end < 2 ^ 66 }
    ensures within { result ≤ most }
    ensures earlier { (i : ℕ) → i < result → time + i * delta < end }
    ensures later { result < most → end ≤ time + result * delta }
{
    let mut at = time;
    for step in 0..most {
        if end <= at {
            return step;
        }
        at += delta;
    }
    most
}
