//! Where in the media of a track a moment falls.

ghost use Rattle.std.specs.Prelude.{◌≡◌, ◌<◌, ◌≤◌, ◌*◌, ◌-◌, ◌^◌, IfSome};
ghost use Rattle.mp_edits.specs.Segments.{duration};
ghost use Rattle.mp_shown.specs.Place.{place_in, place_of};

use mp_timeline::Segment;

/// A place in the media: so many parts of a tick of the movie behind the start of a segment.
#[derive(Clone, Copy)]
pub(crate) struct Place {
    pub(crate) start: u64,
    pub(crate) within: u128,
}

/// How long a segment lasts, in parts of a tick.
fn parts_of(segment: Segment, parts: u32) -> u128
    ensures lasts { result ≡ duration segment * parts }
    ensures short { result ≤ 2 ^ 96 - 2 ^ 64 }
{
    match segment {
        Segment::Empty { dur } | Segment::Media { dur, .. } => u128::from(dur) * u128::from(parts),
    }
}

/// Where a segment shows the media that far behind its begin.
fn place_of(segment: Segment, within: u128) -> Option<Place>
    ensures { result ≡ place_of segment within }
{
    match segment {
        Segment::Empty { .. } => None,
        Segment::Media { start, .. } => Some(Place { start, within }),
    }
}

/// Where segments show the media at a moment, in parts of a tick.
pub(crate) fn place_in(edits: &[Segment], moment: u128, parts: u32) -> Option<Place>
    ensures place { result ≡ place_in parts edits.now moment }
    ensures near { IfSome result (λ place. place.within < 2 ^ 96 - 2 ^ 64) }
{
    let mut left = moment;
    for segment in edits {
        let lasts = parts_of(*segment, parts);
        if left < lasts {
            return place_of(*segment, left);
        }
        left -= lasts;
    }
    None
}
