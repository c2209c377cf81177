//! Which scales the pieces of an edit list need, and how far they reach.

ghost use Rattle.std.specs.Prelude.{◌≡◌, ℕ, ◌<◌, ◌*◌, ◌/◌, ◌^◌, List, [], map, false, unsigned_abs, All};
ghost use Rattle.std.specs.List.{list_any};
ghost use Rattle.mp_frac.specs.Divisors.{most, up_to};
ghost use Rattle.mp_frac.specs.Law.{WholenessIsDivision};
ghost use Rattle.mp_edits.specs.Segments.{starts_late, total};
ghost use Rattle.mp_clip.specs.declared.cut.Cut.{Cut};
ghost use Rattle.mp_clip.specs.Clipped.{IsRange};
ghost use Rattle.mp_clip.specs.Counted.{IsCounted};
ghost use Rattle.mp_clip.specs.Cut.{IsShort, cut_total, cuts_of, listed, piece_of, unit_of};
ghost use Rattle.mp_clip.specs.Shape.{ClipsTo, GivesShape, least};

use crate::cut::{Scales, behind, cut_of, ticks};
use crate::tally::{Tally, counted};
use mp_frac::{Frac, wholeness_is_division};
use mp_timeline::Segment;

/// What the pieces of an edit list need: the scales in which they are whole, how long they last in the
/// movie's, and their least and greatest start in the media's, both 0 where no piece shows media.
#[derive(Clone, Copy, Debug, PartialEq, Eq)]
pub struct ClipShape {
    /// The least multiple of the track's scale in which each start is whole.
    pub media_scale: u32,
    /// The least multiple of the movie's scale in which each duration is whole.
    pub movie_scale: u32,
    /// How long the pieces last together, in ticks of that movie's scale.
    pub total: u128,
    /// The least start, in ticks of that track's scale.
    pub least: u128,
    /// The greatest start, in ticks of that track's scale.
    pub greatest: u128,
}

/// What the pieces of an edit list from one time up to another need. `None` exactly where a multiple of a
/// scale is above 4,294,967,295.
pub fn clip_shape(
    edits: &[Segment],
    media_scale: u32,
    movie_scale: u32,
    from: Frac,
    to: Frac,
) -> Option<ClipShape>
    requires media { 0 < media_scale }
    requires movie { 0 < movie_scale }
    requires range { IsRange from to }
    requires short { total edits.now < 2 ^ 62 }
    requires early { list_any starts_late edits.now ≡ false }
    ensures { ClipsTo media_scale movie_scale from to edits.now result }
{
    let scales = Scales {
        media: media_scale,
        movie: movie_scale,
        from: from.d,
        to: to.d,
    };
    let tally = tally_of(
        scales,
        edits,
        ticks(from, movie_scale),
        ticks(to, movie_scale),
    );
    shape_of(scales, tally)
}

/// What is counted of the pieces.
fn tally_of(scales: Scales, edits: &[Segment], from: u128, to: u128) -> Tally
    requires begin { 0 < scales.movie * scales.from }
    requires end { 0 < scales.from * scales.to }
    requires segments { All IsShort edits.now }
    requires room { cut_total (cuts_of scales from to edits.now) < 2 ^ 128 }
    ensures { IsCounted (scales.movie * scales.from) (scales.from * scales.to)
        (cuts_of scales from to edits.now) result [] }
{
    let mut tally = Tally {
        starts: u64::from(scales.movie) * u64::from(scales.from),
        lengths: u64::from(scales.from) * u64::from(scales.to),
        total: 0,
        least: None,
        greatest: 0,
    };
    let mut begin = from;
    let mut end = to;
    for segment in edits {
        tally = counted(tally, cut_of(scales, *segment, begin, end));
        begin = behind(begin, *segment, scales.from);
        end = behind(end, *segment, scales.to);
    }
    tally
}

/// The shape of the pieces that were counted.
fn shape_of(scales: Scales, tally: Tally) -> Option<ClipShape>
    requires media { 0 < scales.media }
    requires movie { 0 < scales.movie }
    requires begin { 0 < scales.from }
    requires end { 0 < scales.to }
    requires starts { 0 < tally.starts }
    requires lengths { 0 < tally.lengths }
    ensures { (cuts : List Cut)
        → IsCounted (scales.movie * scales.from) (scales.from * scales.to) cuts tally []
        → GivesShape scales.media scales.movie (unit_of scales) (map (piece_of scales) cuts) result }
{
    wholeness_is_division();
    let media_scale = match grown_scale(
        scales.media,
        u64::from(scales.movie) * u64::from(scales.from),
        tally.starts,
    ) {
        Some(scale) => scale,
        None => return None,
    };
    let movie_scale = match grown_scale(
        scales.movie,
        u64::from(scales.from) * u64::from(scales.to),
        tally.lengths,
    ) {
        Some(scale) => scale,
        None => return None,
    };
    let starts = u128::from(tally.starts);
    Some(ClipShape {
        media_scale,
        movie_scale,
        total: tally.total / u128::from(tally.lengths),
        least: or_zero(tally.least) / starts,
        greatest: tally.greatest / starts,
    })
}

/// The number, 0 where it is missing.
fn or_zero(number: Option<u128>) -> u128
    ensures { result ≡ least (listed number) }
{
    match number {
        Some(number) => number,
        None => 0,
    }
}

/// A scale times the parts that a common divisor leaves of its tick; `None` where that is above 4,294,967,295.
pub fn grown_scale(scale: u32, parts: u64, divisor: u64) -> Option<u32>
    requires { 0 < divisor }
    ensures { result ≡ up_to most (scale * (parts / divisor)) }
{
    u32::try_from(u128::from(scale) * u128::from(parts / divisor)).ok()
}
