//! Which limits a track passes when it is cut.

ghost use Rattle.std.specs.Prelude.{◌≡◌, ◌<◌, ◌≤◌, ◌+◌, ◌*◌, ◌/◌, ◌^◌, ◌*ℤ◌, ◌&&◌, ◌||◌, not, nat_le, pos, All, [], ◌∷◌, length, map, slice_range};
ghost use Rattle.mp_times.specs.Written.{is_unsigned};
ghost use Rattle.mp_movie.specs.PartsFit.{is_long, is_signed, is_wide};
ghost use Rattle.mp_movie.specs.WholeParts.{IsNatural};
ghost use Rattle.cut_op.specs.Placed.{moved_offset};
ghost use Rattle.cut_op.specs.Planned.{either_of, first_passed, passed_of};

use crate::plan::TrackPlan;
use mp_clip::ClipShape;
use mp_columns::{Col, Column, Cursor};
use mp_movie::Track;
use mp_ports::Code;

/// The least tick that an edit list doesn't reach.
const TICKS_END: u128 = 1 << 62;

/// Whether a duration, the composition offsets, the length of the edits and a start pass their limits.
#[derive(Clone, Copy)]
pub(crate) struct Passed {
    pub(crate) durations: bool,
    pub(crate) offsets: bool,
    pub(crate) total: bool,
    pub(crate) starts: bool,
}

/// The first limit that is passed, in the order of the codes.
pub(crate) fn first_code(passed: Passed) -> Option<Code>
    ensures { result ≡ first_passed passed }
{
    if passed.durations {
        return Some(Code::DeltaLimit);
    }
    if passed.offsets {
        return Some(Code::OffsetLimit);
    }
    if passed.total {
        return Some(Code::DurationLimit);
    }
    if passed.starts {
        return Some(Code::StartLimit);
    }
    None
}

/// What one of the two passes.
pub(crate) fn either(one: Passed, other: Passed) -> Passed
    ensures { result ≡ either_of one other }
{
    Passed {
        durations: one.durations || other.durations,
        offsets: one.offsets || other.offsets,
        total: one.total || other.total,
        starts: one.starts || other.starts,
    }
}

/// What a track passes that is cut so, in a movie of that scale.
pub(crate) fn passed_by(
    track: &Track,
    shape: ClipShape,
    plan: &TrackPlan,
    movie_scale: u32,
) -> Passed
    requires order { plan.now.kept.from ≤ plan.now.kept.to }
    requires deltas { plan.now.kept.to ≤ length track.now.deltas }
    requires offsets { plan.now.kept.to ≤ length track.now.offsets }
    requires natural { All IsNatural track.now.deltas }
    requires some { 0 < shape.movie_scale }
    requires back { plan.now.back < 2 ^ 126 }
    requires ahead { plan.now.ahead < 2 ^ 126 }
    ensures { result ≡ passed_of movie_scale shape plan.now track.now }
{
    let kept = plan.kept;
    Passed {
        durations: are_deltas_long(&track.deltas, kept.from, kept.to, plan.factor),
        offsets: are_offsets_wide(&track.offsets, kept.from, kept.to, plan.factor, plan.ahead),
        total: shape
            .total
            .saturating_mul(u128::from(movie_scale / shape.movie_scale))
            >= TICKS_END,
        starts: shape.greatest >= TICKS_END + plan.back,
    }
}

/// Whether one of the kept samples lasts longer than 32 bits hold.
fn are_deltas_long(deltas: &Col, from: u32, to: u32, factor: u32) -> bool
    requires order { from ≤ to }
    requires inside { to ≤ length deltas.now }
    requires natural { All IsNatural deltas.now }
    ensures { result ≡ is_long (map (λ delta. delta *ℤ pos factor) (slice_range deltas.now from to)) }
{
    let mut long = false;
    let mut cursor = Cursor::at(from);
    while cursor.place() < to {
        let Some(run) = deltas.next_run(&mut cursor) else {
            unreachable!();
        };
        long = one_of(long, is_delta_long(run.value, factor));
    }
    long
}

/// Whether a duration is longer then than 32 bits hold.
fn is_delta_long(delta: i64, factor: u32) -> bool
    ensures { result ≡ is_long ((delta *ℤ pos factor) ∷ []) }
{
    u128::from(delta.unsigned_abs()) * u128::from(factor) > u128::from(u32::MAX)
}

/// Whether the offsets of the kept samples fit 32 bits neither all without a sign nor all with one.
fn are_offsets_wide(offsets: &Col, from: u32, to: u32, factor: u32, ahead: u128) -> bool
    requires order { from ≤ to }
    requires inside { to ≤ length offsets.now }
    requires short { ahead < 2 ^ 126 }
    ensures { result ≡ is_wide (map (moved_offset factor ahead) (slice_range offsets.now from to)) }
{
    let mut unsigned = true;
    let mut signed = true;
    let mut cursor = Cursor::at(from);
    while cursor.place() < to {
        let Some(run) = offsets.next_run(&mut cursor) else {
            unreachable!();
        };
        unsigned = both(unsigned, fits_unsigned(run.value, factor, ahead));
        signed = both(signed, fits_signed(run.value, factor, ahead));
    }
    neither(unsigned, signed)
}

/// Whether one of the two holds.
fn one_of(first: bool, second: bool) -> bool
    ensures { result ≡ (first || second) }
{
    first || second
}

/// Whether both hold.
fn both(first: bool, second: bool) -> bool
    ensures { result ≡ (first && second) }
{
    first && second
}

/// Whether neither holds.
fn neither(first: bool, second: bool) -> bool
    ensures { result ≡ (not first && not second) }
{
    !first && !second
}

/// Whether 32 bits without a sign hold the offset as it is moved.
fn fits_unsigned(offset: i64, factor: u32, ahead: u128) -> bool
    requires { ahead < 2 ^ 126 }
    ensures { result ≡ is_unsigned (moved_offset factor ahead offset) }
{
    is_unsigned(moved_offset(offset, factor, ahead))
}

/// Whether 32 bits with a sign hold it.
fn fits_signed(offset: i64, factor: u32, ahead: u128) -> bool
    requires { ahead < 2 ^ 126 }
    ensures { result ≡ is_signed (moved_offset factor ahead offset) }
{
    is_signed(moved_offset(offset, factor, ahead))
}

/// An offset as it is moved.
fn moved_offset(offset: i64, factor: u32, ahead: u128) -> i128
    requires { ahead < 2 ^ 126 }
    ensures { result ≡ moved_offset factor ahead offset }
{
    i128::from(offset) * i128::from(factor) + ahead as i128
}

/// Whether 32 bits without a sign hold the offset.
fn is_unsigned(offset: i128) -> bool
    ensures { result ≡ is_unsigned offset }
{
    0 <= offset && offset <= i128::from(u32::MAX)
}

/// Whether 32 bits with a sign hold the offset.
fn is_signed(offset: i128) -> bool
    ensures { result ≡ is_signed offset }
{
    i128::from(i32::MIN) <= offset && offset <= i128::from(i32::MAX)
}
