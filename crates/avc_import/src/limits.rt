//! The limits of a movie's numbers.

ghost use Rattle.std.specs.Prelude.{◌≡◌, ◌-◌, ◌<◌, ◌≤◌, ◌*◌, ◌+◌, ◌^◌, ◌&&◌, nat_lt, nat_le, length, slice_index, sum_by, ℕ, List, Option};
ghost use Rattle.std.specs.List.{list_any, range_with_len};
ghost use Rattle.mp_frac.specs.Divisors.{most};
ghost use Rattle.mp_pieces.specs.Piece.{piece_len};
ghost use Rattle.mp_ports.specs.Checks.{first_code};
ghost use Rattle.avc_units.specs.declared.reader.UnitSpan.{UnitSpan as Span};
ghost use Rattle.avc_import.specs.declared.rate.Rate.{Rate};
ghost use Rattle.avc_import.specs.Film.{Film, is_long, limit_checks, schedule};
ghost use Rattle.avc_import.specs.Pictures.{AreCut, HasParts};
ghost use Rattle.avc_import.specs.Movie.{AreShots, HasShots};

use crate::film::Shots;
use crate::pictures::Pictures;
use crate::schedule::Schedule;
use mp_movie::pieces_len;
use mp_pieces::Piece;
use mp_ports::Code;

/// The greatest number that 32 bits hold.
const MOST: u64 = 4_294_967_295;

/// The end of starts and durations of edits.
const MOST_TICKS: u128 = 1 << 62;

/// The first limit, in the order of the codes, that the movie of these pictures would pass.
pub(crate) fn first_limit(shots: &Shots) -> Option<Code>
    requires { HasShots shots.now }
    ensures { (file size : ℕ) (rate : Option Rate) (film : Film) → AreShots file size rate film shots.now
        → result ≡ first_code (limit_checks film (schedule rate film)) }
{
    let schedule = shots.schedule;
    is_number(schedule.movie_scale);
    if is_slow(schedule) {
        return Some(Code::DeltaLimit);
    }
    if is_late(&shots.order.shown, schedule) {
        return Some(Code::OffsetLimit);
    }
    if lasts_long(schedule) {
        return Some(Code::DurationLimit);
    }
    if starts_late(schedule) {
        return Some(Code::StartLimit);
    }
    if is_large(&shots.pictures) {
        return Some(Code::SizeLimit);
    }
    None
}

/// It is at most 4,294,967,295, as its type says. It does nothing.
pub(crate) fn is_number(scale: u32)
    ensures { scale ≤ most }
{}

/// Whether each picture lasts longer than 32 bits say.
fn is_slow(schedule: Schedule) -> bool
    ensures { result ≡ nat_lt most schedule.ticks }
{
    schedule.ticks > MOST
}

/// Whether the edit, where there is one, lasts too long.
fn lasts_long(schedule: Schedule) -> bool
    ensures { result ≡ (nat_lt 0 schedule.delay && nat_le (2 ^ 62) schedule.lasts) }
{
    schedule.delay > 0 && schedule.lasts >= MOST_TICKS
}

/// Whether the edit starts too late.
fn starts_late(schedule: Schedule) -> bool
    ensures { result ≡ nat_le (2 ^ 62) (schedule.delay * schedule.ticks) }
{
    u128::from(schedule.delay) * u128::from(schedule.ticks) >= MOST_TICKS
}

/// Whether a picture is shown later behind its decoding than 32 bits say.
fn is_late(shown: &[u32], schedule: Schedule) -> bool
    requires { (k : ℕ) → k < length shown.now → k ≤ slice_index shown.now k + schedule.delay }
    ensures { result ≡ list_any (λ k. nat_lt most ((slice_index shown.now k + schedule.delay - k) * schedule.ticks))
        (range_with_len 0 (length shown.now)) }
{
    for k in 0..shown.len() {
        if offset(shown[k], schedule, k as u64) > u128::from(MOST) {
            return true;
        }
    }
    false
}

/// The time from decoding picture k to showing it, whose number in the order of showing this is.
pub(crate) fn offset(shown: u32, schedule: Schedule, k: u64) -> u128
    requires { k ≤ shown + schedule.delay }
    ensures { result ≡ (shown + schedule.delay - k) * schedule.ticks }
{
    let later = u64::from(shown) + u64::from(schedule.delay) - k;
    u128::from(later) * u128::from(schedule.ticks)
}

/// Whether a sample has more bytes than 32 bits say.
fn is_large(pictures: &Pictures) -> bool
    requires { HasParts pictures.now.pieces.items pictures.now.ends.items }
    ensures { (file : ℕ) (parts : List (List Span))
        → AreCut file parts pictures.now.pieces.items pictures.now.ends.items → result ≡ list_any is_long parts }
{
    for k in 0..pictures.ends.len() {
        if is_long(pictures.part(k)) {
            return true;
        }
    }
    false
}

/// Whether pieces have more bytes together than 32 bits say.
fn is_long(pieces: &[Piece]) -> bool
    ensures { result ≡ nat_lt most (sum_by piece_len pieces.now) }
{
    pieces_len(pieces) > MOST
}
