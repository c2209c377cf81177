//! The piece of one segment in a range of time.

ghost use Rattle.std.specs.Prelude.{◌≡◌, ◌<◌, ◌≤◌, ◌+◌, ◌-◌, ◌*◌, ◌^◌, min, unsigned_abs};
ghost use Rattle.mp_frac.specs.Time.{IsInRange};
ghost use Rattle.mp_edits.specs.Segments.{duration};
ghost use Rattle.mp_clip.specs.Cut.{IsShort, cut_between, cut_of};

use mp_frac::Frac;
use mp_timeline::Segment;

/// The scales of the media and of the movie, and the parts of a second that the two ends of a range are told in.
#[derive(Clone, Copy)]
pub(crate) struct Scales {
    pub(crate) media: u32,
    pub(crate) movie: u32,
    pub(crate) from: u32,
    pub(crate) to: u32,
}

/// A piece: where in the media it starts, in `movie * from` parts of a tick of the media, and how long it
/// lasts, in `from * to` parts of a tick of the movie.
#[derive(Clone, Copy)]
pub(crate) struct Cut {
    pub(crate) start: Option<u128>,
    pub(crate) length: u128,
}

/// How long a segment lasts, in parts of a tick of the movie.
pub(crate) fn lasts(segment: Segment, parts: u32) -> u128
    ensures lasts { result ≡ duration segment * parts }
    ensures short { result ≤ 2 ^ 96 - 2 ^ 64 }
{
    match segment {
        Segment::Empty { dur } | Segment::Media { dur, .. } => u128::from(dur) * u128::from(parts),
    }
}

/// What is left of a time behind a segment, in parts of a tick of the movie.
pub(crate) fn behind(time: u128, segment: Segment, parts: u32) -> u128
    ensures { result ≡ time - duration segment * parts }
{
    time.saturating_sub(lasts(segment, parts))
}

/// The piece of a segment in a range that begins and ends so far behind the segment's begin.
pub(crate) fn cut_of(scales: Scales, segment: Segment, from: u128, to: u128) -> Option<Cut>
    requires { IsShort segment }
    ensures { result ≡ cut_of scales segment from to }
{
    let low = from.min(lasts(segment, scales.from));
    let high = to.min(lasts(segment, scales.to));
    if low * u128::from(scales.to) < high * u128::from(scales.from) {
        return Some(cut_between(scales, segment, low, high));
    }
    None
}

/// The piece between two places in a segment.
fn cut_between(scales: Scales, segment: Segment, low: u128, high: u128) -> Cut
    requires low { low < 2 ^ 94 }
    requires high { high < 2 ^ 94 }
    requires order { low * scales.to ≤ high * scales.from }
    requires short { IsShort segment }
    ensures { result ≡ cut_between scales segment low high }
{
    let length = high * u128::from(scales.from) - low * u128::from(scales.to);
    match segment {
        Segment::Empty { .. } => Cut {
            start: None,
            length,
        },
        Segment::Media { start, .. } => Cut {
            start: Some(start_at(scales, start, low)),
            length,
        },
    }
}

/// Where in the media a piece starts, that far behind the begin of its segment.
fn start_at(scales: Scales, start: u64, low: u128) -> u128
    requires low { low < 2 ^ 94 }
    requires early { start < 2 ^ 62 }
    ensures { result ≡ start * (scales.movie * scales.from) + low * scales.media }
{
    let parts = u64::from(scales.movie) * u64::from(scales.from);
    u128::from(start) * u128::from(parts) + low * u128::from(scales.media)
}

/// A time's ticks of a scale, each in d parts.
pub(crate) fn ticks(at: Frac, scale: u32) -> u128
    requires { IsInRange at }
    ensures { result ≡ unsigned_abs at.n * scale }
{
    at.n.unsigned_abs() * u128::from(scale)
}
