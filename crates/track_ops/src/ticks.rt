//! The times of a track in ticks of another scale of its own.

ghost use Rattle.std.specs.Prelude.{◌≡◌, ℕ, ◌<◌, List, [], ◌∷◌, ◌++◌, ◌&&◌, not, All, map, option_map};
ghost use Rattle.mp_edits.specs.EditBox.{segments_in};
ghost use Rattle.mp_edits.specs.Segments.{starts_late};
ghost use Rattle.mp_columns.specs.Numbers.{largest};
ghost use Rattle.mp_frac.specs.Divisors.{IsGreatestCommon};
ghost use Rattle.mp_times.specs.Written.{is_unsigned};
ghost use Rattle.mp_movie.specs.PartsFit.{is_long, is_signed, is_wide};
ghost use Rattle.mp_ports.specs.Checks.{first_code};
ghost use Rattle.mp_ports.specs.declared.code.Code.TheVariants.{DeltaLimit, OffsetLimit};
ghost use Rattle.mp_clip.specs.Clipped.{starts};
ghost use Rattle.track_ops.specs.KeptTimes.{CanRetime, CanStart, FitsIn, IsRatio, IsWholeIn, column_in_scale, kept_retimed, kept_ticks, some_late_in};
ghost use Rattle.track_ops.specs.Scales.{in_scale};
ghost use Rattle.track_ops.specs.Ticks.{signed_in_scale, starting};

use crate::rescale::in_scale;
use crate::summary::segments_in;
use mp_columns::{Col, Column, Cursor};
use mp_frac::gcd;
use mp_movie::Track;
use mp_ports::Code;
use mp_timeline::Segment;

/// So many ticks of an old scale are so many of a new one; the two numbers have no common divisor.
#[derive(Clone, Copy)]
struct Ratio {
    down: u32,
    up: u32,
}

/// How ticks of the old scale become ticks of the new one.
fn ratio_of(old: u32, new: u32) -> Ratio
    requires old { 0 < old }
    requires new { 0 < new }
    ensures { IsRatio old new result }
{
    let common = gcd(u64::from(old), u64::from(new));
    Ratio {
        down: (u64::from(old) / common) as u32,
        up: (u64::from(new) / common) as u32,
    }
}

/// The numbers of a column, in ticks of the new scale.
fn rescale_column(old: u32, new: u32, column: &mut Col)
    requires old { 0 < old }
    requires new { 0 < new }
    requires whole { All (IsWholeIn old new) column.old }
    requires fits { All (FitsIn old new) column.old }
    ensures { column.new ≡ column_in_scale old new column.old }
{
    let ratio = ratio_of(old, new);
    column.divide_by(ratio.down);
    column.scale_by(ratio.up);
}

/// The samples of a track in ticks of another scale.
pub(crate) fn retime(track: &mut Track, scale: u32)
    requires old { 0 < track.old.scale }
    requires new { 0 < scale }
    requires columns { CanRetime track.old.scale scale track.old.deltas track.old.offsets }
    ensures { track.new ≡ kept_retimed scale track.old.edits track.old }
{
    rescale_column(track.scale, scale, &mut track.deltas);
    rescale_column(track.scale, scale, &mut track.offsets);
    track.scale = scale;
}

/// The edits of a track, each start in ticks of the new scale.
pub(crate) fn rescale_edits(old: u32, new: u32, track: &mut Track)
    requires some { 0 < old }
    requires short { All (CanStart old new) (segments_in track.old.edits) }
    ensures { track.new ≡ record track.old { edits = option_map (map (starting old new)) track.old.edits } }
{
    if let Some(edits) = &mut track.edits {
        rescale_starts(old, new, edits);
    }
}

/// The segments, each start in ticks of the new scale.
fn rescale_starts(old: u32, new: u32, edits: &mut [Segment])
    requires some { 0 < old }
    requires short { All (CanStart old new) edits.old }
    ensures { edits.new ≡ map (starting old new) edits.old }
{
    for segment in edits.iter_mut() {
        *segment = starting(old, new, *segment);
    }
}

/// The segment, its start in ticks of the new scale.
fn starting(old: u32, new: u32, segment: Segment) -> Segment
    requires some { 0 < old }
    requires short { CanStart old new segment }
    ensures { result ≡ starting old new segment }
{
    match segment {
        Segment::Empty { dur } => Segment::Empty { dur },
        Segment::Media { start, dur } => Segment::Media {
            start: in_scale(old, new, start),
            dur,
        },
    }
}

/// The greatest number that divides all that the scale of the track tells.
pub(crate) fn divisor_of(track: &Track) -> u64
    ensures { IsGreatestCommon (kept_ticks track.now) result }
{
    let samples = gcd(
        track.deltas.common_divisor(),
        track.offsets.common_divisor(),
    );
    divisor_of_starts(samples, segments_in(track))
}

/// The greatest common divisor of a number and of the starts of segments.
fn divisor_of_starts(number: u64, edits: &[Segment]) -> u64
    ensures { IsGreatestCommon (number ∷ starts edits.now) result }
{
    let mut divisor = number;
    for segment in edits {
        divisor = with_start(divisor, *segment);
    }
    divisor
}

/// The greatest common divisor of a number and of the start of a segment, where it has one.
fn with_start(number: u64, segment: Segment) -> u64
    ensures { (more : List ℕ) (divisor : ℕ) → IsGreatestCommon (result ∷ more) divisor
        → IsGreatestCommon (number ∷ starts (segment ∷ []) ++ more) divisor }
{
    match segment {
        Segment::Empty { .. } => number,
        Segment::Media { start, .. } => gcd(number, start),
    }
}

/// The first limit that the samples of the track pass in ticks of that scale.
pub(crate) fn limit_in(track: &Track, scale: u32) -> Option<Code>
    requires { 0 < track.now.scale }
    ensures { result ≡ first_code ((is_long (column_in_scale track.now.scale scale track.now.deltas), DeltaLimit)
        ∷ (is_wide (column_in_scale track.now.scale scale track.now.offsets), OffsetLimit) ∷ []) }
{
    if is_long_in(&track.deltas, track.scale, scale) {
        return Some(Code::DeltaLimit);
    }
    if is_wide_in(&track.offsets, track.scale, scale) {
        return Some(Code::OffsetLimit);
    }
    None
}

/// Whether the greatest number of the column is above 32 bits in ticks of the new scale.
fn is_long_in(column: &Col, old: u32, new: u32) -> bool
    requires { 0 < old }
    ensures { result ≡ is_long (column_in_scale old new column.now) }
{
    largest_in(column, old, new) > u128::from(u32::MAX)
}

/// The greatest number of the column, in ticks of the new scale.
fn largest_in(column: &Col, old: u32, new: u32) -> u128
    requires { 0 < old }
    ensures { result ≡ in_scale old new (largest column.now) }
{
    u128::from(column.largest()) * u128::from(new) / u128::from(old)
}

/// Whether 32 bits hold the offsets in ticks of the new scale neither all without a sign nor all with one.
fn is_wide_in(offsets: &Col, old: u32, new: u32) -> bool
    requires { 0 < old }
    ensures { result ≡ is_wide (column_in_scale old new offsets.now) }
{
    let mut unsigned = true;
    let mut signed = true;
    let mut cursor = Cursor::at(0);
    while let Some(run) = offsets.next_run(&mut cursor) {
        unsigned &= is_unsigned_in(old, new, run.value);
        signed &= is_signed_in(old, new, run.value);
    }
    neither(unsigned, signed)
}

/// Whether neither holds.
fn neither(first: bool, second: bool) -> bool
    ensures { result ≡ (not first && not second) }
{
    !first && !second
}

/// Whether 32 bits without a sign hold the offset in ticks of the new scale.
fn is_unsigned_in(old: u32, new: u32, offset: i64) -> bool
    requires { 0 < old }
    ensures { result ≡ is_unsigned (signed_in_scale old new offset) }
{
    u32::try_from(signed_in_scale(old, new, offset)).is_ok()
}

/// Whether 32 bits with a sign hold it.
fn is_signed_in(old: u32, new: u32, offset: i64) -> bool
    requires { 0 < old }
    ensures { result ≡ is_signed (signed_in_scale old new offset) }
{
    i32::try_from(signed_in_scale(old, new, offset)).is_ok()
}

/// So many ticks of the old scale, which may lie before 0, in ticks of the new one.
fn signed_in_scale(old: u32, new: u32, ticks: i64) -> i128
    requires { 0 < old }
    ensures { result ≡ signed_in_scale old new ticks }
{
    i128::from(ticks) * i128::from(new) / i128::from(old)
}

/// Whether a segment starts at 2^62 or later, in ticks of the new scale.
pub(crate) fn some_late_in(edits: &[Segment], old: u32, new: u32) -> bool
    requires { 0 < old }
    ensures { result ≡ some_late_in old new edits.now }
{
    edits.iter().any(|segment| is_late_in(*segment, old, new))
}

/// Whether the segment does.
fn is_late_in(segment: Segment, old: u32, new: u32) -> bool
    requires { 0 < old }
    ensures { result ≡ starts_late (starting old new segment) }
{
    match segment {
        Segment::Empty { .. } => false,
        Segment::Media { start, .. } => {
            u128::from(start) * u128::from(new) / u128::from(old) >= 1 << 62
        }
    }
}
