//! A movie is cut as its plan says. Nothing here takes memory, and nothing fails.

ghost use Rattle.std.specs.Prelude.{◌≡◌, ◌<◌, ◌≤◌, ◌/◌, ◌%◌, ◌^◌, ◌*ℤ◌, pos, All, FitsSigned, length, map, slice_range, sum, take};
ghost use Rattle.std.specs.Int.{w64};
ghost use Rattle.std.specs.List.{AllZip};
ghost use Rattle.mp_movie.specs.Placed.{naturals};
ghost use Rattle.mp_movie.specs.WholeParts.{IsNatural};
ghost use Rattle.cut_op.specs.Planned.{CanApply, placed_by, placed_movie, placed_tracks};
ghost use Rattle.cut_op.specs.Placed.{FitsOffset, kept_pieces, moved_offset, with_range};

use crate::kept::Kept;
use crate::plan::{Plan, TrackPlan};
use mp_columns::{Col, Column};
use mp_movie::{MovieParts, Track};
use mp_pieces::Piece;

/// The movie is cut so.
pub(crate) fn apply(parts: &mut MovieParts, plan: Plan)
    requires tracks { AllZip CanApply parts.old.tracks plan.tracks.items }
    ensures { parts.new ≡ placed_movie plan parts.old }
{
    parts.scale = plan.scale;
    apply_all(&mut parts.tracks, plan.tracks);
}

/// Each track is cut as its plan says, the last one first.
fn apply_all(tracks: &mut [Track], plans: Vec<TrackPlan>)
    requires { AllZip CanApply tracks.old plans.items }
    ensures { tracks.new ≡ placed_tracks plans.items tracks.old }
{
    let mut plans = plans;
    while let Some(plan) = plans.pop() {
        let at = plans.len();
        apply_track(&mut tracks[at], plan);
    }
}

/// The track is cut so.
fn apply_track(track: &mut Track, plan: TrackPlan)
    requires { CanApply track.old plan }
    ensures { track.new ≡ placed_by plan track.old }
{
    keep_pieces(&mut track.pieces, &track.counts, plan.kept);
    keep_samples(track, plan.kept);
    track.deltas.scale_by(plan.factor);
    move_offsets(&mut track.offsets, plan.factor, plan.ahead);
    track.scale = plan.scale;
    track.edits = Some(plan.edits);
}

/// Leaves the pieces of the kept samples, where each sample has so many.
fn keep_pieces(pieces: &mut Vec<Piece>, counts: &Col, kept: Kept)
    requires order { kept.from ≤ kept.to }
    requires inside { kept.to ≤ length counts.now }
    requires natural { All IsNatural counts.now }
    requires counted { sum (naturals counts.now) ≡ length pieces.old.items }
    ensures { pieces.new.items ≡ kept_pieces counts.now kept.from kept.to pieces.old.items }
{
    let from = pieces_before(counts, kept.from, pieces.len());
    let to = pieces_before(counts, kept.to, pieces.len());
    keep(pieces, from, to);
}

/// Leaves the pieces from one place up to another.
fn keep(pieces: &mut Vec<Piece>, from: usize, to: usize)
    requires order { from ≤ to }
    requires inside { to ≤ length pieces.old.items }
    ensures { pieces.new.items ≡ slice_range pieces.old.items from to }
{
    pieces.copy_within(from..to, 0);
    pieces.truncate(to - from);
}

/// How many of all pieces the samples have before which there are so many samples.
fn pieces_before(counts: &Col, samples: u32, all: usize) -> usize
    requires inside { samples ≤ length counts.now }
    requires natural { All IsNatural counts.now }
    requires counted { sum (naturals counts.now) ≡ all }
    ensures count { result ≡ sum (take samples (naturals counts.now)) }
    ensures within { result ≤ all }
{
    counts.prefix(samples).unsigned_abs() as usize
}

/// Leaves the kept samples in each column.
fn keep_samples(track: &mut Track, kept: Kept)
    requires order { kept.from ≤ kept.to }
    requires deltas { kept.to ≤ length track.old.deltas }
    requires offsets { kept.to ≤ length track.old.offsets }
    requires syncs { kept.to ≤ length track.old.syncs }
    requires kinds { kept.to ≤ length track.old.kinds }
    requires sizes { kept.to ≤ length track.old.sizes }
    requires counts { kept.to ≤ length track.old.counts }
    ensures { track.new ≡ with_range kept.from kept.to track.old }
{
    let Kept { from, to } = kept;
    track.deltas.keep_range(from, to);
    track.offsets.keep_range(from, to);
    track.syncs.keep_range(from, to);
    track.kinds.keep_range(from, to);
    track.sizes.keep_range(from, to);
    track.counts.keep_range(from, to);
}

/// Offsets in ticks of a scale that is greater by a factor, and so many of these ticks more. Whole old ticks come
/// before the factor, so that no number between is longer than what it comes to.
fn move_offsets(offsets: &mut Col, factor: u32, ahead: u128)
    requires some { 0 < factor }
    requires old { All FitsOffset offsets.old }
    requires fit { All (λ offset. FitsOffset (moved_offset factor ahead offset)) offsets.old }
    ensures { offsets.new ≡ map (moved_offset factor ahead) offsets.old }
{
    if offsets.len() == 0 {
        return;
    }
    let ticks = whole_ticks(ahead, factor);
    let rest = parts_left(ahead, factor);
    offsets.shift_by(ticks);
    offsets.scale_by(factor);
    offsets.shift_by(rest);
}

/// How many old ticks so many new ones are, rounded down.
fn whole_ticks(ahead: u128, factor: u32) -> i64
    requires some { 0 < factor }
    requires few { ahead / factor < 2 ^ 63 }
    ensures { result ≡ pos (ahead / factor) }
{
    (ahead / u128::from(factor)) as i64
}

/// How many new ticks are left then.
fn parts_left(ahead: u128, factor: u32) -> i64
    requires { 0 < factor }
    ensures { result ≡ pos (ahead % factor) }
{
    (ahead % u128::from(factor)) as i64
}
