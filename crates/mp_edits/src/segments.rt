//! What is asked of segments, and the shift of their starts.

ghost use Rattle.std.specs.Prelude.{◌≡◌, ◌<◌, ◌^◌, ◌-◌, min, map, All};
ghost use Rattle.std.specs.List.{list_any};
ghost use Rattle.mp_edits.specs.Segments.{duration, total, starts_late, shifted, CanShift};

use mp_timeline::Segment;

/// How long a segment lasts, in ticks of the movie's scale.
fn duration(segment: Segment) -> u64
    ensures { result ≡ duration segment }
{
    match segment {
        Segment::Empty { dur } | Segment::Media { dur, .. } => dur,
    }
}

/// How long segments last together, at most 2^64 − 1.
pub fn capped_total(edits: &[Segment]) -> u64
    ensures { result ≡ min (total edits.now) (2 ^ 64 - 1) }
{
    let mut sum: u64 = 0;
    for segment in edits {
        sum = sum.saturating_add(duration(*segment));
    }
    sum
}

/// How long segments last together, in ticks of the movie's scale.
pub fn total(edits: &[Segment]) -> u64
    requires { total edits.now < 2 ^ 62 }
    ensures { result ≡ total edits.now }
{
    capped_total(edits)
}

/// Whether some segment starts at 2^62 or later.
pub fn some_start_late(edits: &[Segment]) -> bool
    ensures { result ≡ list_any starts_late edits.now }
{
    edits.iter().any(starts_late)
}

/// Whether a segment starts at 2^62 or later.
fn starts_late(segment: &Segment) -> bool
    ensures { result ≡ starts_late segment.now }
{
    match segment {
        Segment::Empty { .. } => false,
        Segment::Media { start, .. } => *start >= 1 << 62,
    }
}

fn shifted(segment: Segment, by: i64) -> Segment
    requires { CanShift by segment }
    ensures { result ≡ shifted by segment }
{
    match segment {
        Segment::Empty { dur } => Segment::Empty { dur },
        Segment::Media { start, dur } => Segment::Media {
            start: (i128::from(start) + i128::from(by)) as u64,
            dur,
        },
    }
}

/// Lets each segment that shows media start `by` ticks later in it, in ticks of the track's scale.
pub fn shift(edits: &mut [Segment], by: i64)
    requires { All (CanShift by) edits.old }
    ensures { edits.new ≡ map (shifted by) edits.old }
{
    for segment in edits.iter_mut() {
        *segment = shifted(*segment, by);
    }
}
