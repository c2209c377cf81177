//! Which ticks of the media the pieces of an edit list touch.

ghost use Rattle.std.specs.Prelude.{◌≡◌, ◌<◌, ◌≤◌, ◌+◌, ◌*◌, ◌/◌, ◌^◌, ◌++◌, List, [], ◌∷◌, false, map, option_to_list, unsigned_abs, All, IfOk, OnOk};
ghost use Rattle.std.specs.Int.{div_ceil};
ghost use Rattle.std.specs.List.{list_any};
ghost use Rattle.mp_edits.specs.Segments.{starts_late, total};
ghost use Rattle.mp_clip.specs.Clipped.{IsRange, clipped};
ghost use Rattle.mp_clip.specs.Cut.{IsShort, cut_between, cut_of, cuts_of, in_front, piece_of};
ghost use Rattle.mp_clip.specs.Touched.{AreTouched};

use crate::cut::{Scales, behind, lasts, ticks};
use mp_frac::Frac;
use mp_ports::NoMemory;
use mp_timeline::Segment;
use std::alloc::Global;

/// The ticks of a media from `from` up to, and without, `to`.
#[derive(Clone, Copy, Debug, PartialEq, Eq)]
pub struct Span {
    pub from: u128,
    pub to: u128,
}

/// The ticks of the media, in the track's scale, that pieces of an edit list from one time up to another
/// touch: from the tick in which a piece starts, up to the first tick that doesn't begin before its end.
pub fn touched(
    alloc: Global,
    edits: &[Segment],
    media_scale: u32,
    movie_scale: u32,
    from: Frac,
    to: Frac,
) -> Result<Vec<Span>, NoMemory>
    requires media { 0 < media_scale }
    requires movie { 0 < movie_scale }
    requires range { IsRange from to }
    requires short { total edits.now < 2 ^ 62 }
    requires early { list_any starts_late edits.now ≡ false }
    ensures { IfOk result (λ spans. AreTouched (movie_scale * (from.d * to.d))
        (clipped media_scale movie_scale from to edits.now) spans.items) }
{
    let scales = Scales {
        media: media_scale,
        movie: movie_scale,
        from: from.d,
        to: to.d,
    };
    spans_of(
        alloc,
        scales,
        edits,
        ticks(from, movie_scale),
        ticks(to, movie_scale),
    )
}

/// The spans of the pieces of an edit list in a range.
fn spans_of(
    alloc: Global,
    scales: Scales,
    edits: &[Segment],
    from: u128,
    to: u128,
) -> Result<Vec<Span>, NoMemory>
    requires movie { 0 < scales.movie }
    requires begin { 0 < scales.from }
    requires end { 0 < scales.to }
    requires segments { All IsShort edits.now }
    ensures { IfOk result (λ spans. AreTouched (scales.movie * (scales.from * scales.to))
        (map (piece_of scales) (cuts_of scales from to edits.now)) spans.items) }
{
    let mut spans = Vec::new(alloc);
    let mut begin = from;
    let mut end = to;
    for segment in edits {
        let span = span_of(scales, *segment, begin, end);
        match push_span(&mut spans, span) {
            Ok(()) => {}
            Err(NoMemory) => return Err(NoMemory),
        }
        begin = behind(begin, *segment, scales.from);
        end = behind(end, *segment, scales.to);
    }
    Ok(spans)
}

/// One more span, if there is one.
fn push_span(spans: &mut Vec<Span>, span: Option<Span>) -> Result<(), NoMemory>
    ensures { OnOk result (spans.new.items ≡ spans.old.items ++ option_to_list span) }
{
    if let Some(span) = span {
        spans.push(span)?;
    }
    Ok(())
}

/// What the piece of a segment touches in a range that begins and ends so far behind the segment's begin.
fn span_of(scales: Scales, segment: Segment, from: u128, to: u128) -> Option<Span>
    requires movie { 0 < scales.movie }
    requires begin { 0 < scales.from }
    requires end { 0 < scales.to }
    requires short { IsShort segment }
    ensures { AreTouched (scales.movie * (scales.from * scales.to))
        (map (piece_of scales) (in_front (cut_of scales segment from to) [])) (option_to_list result) }
{
    let low = from.min(lasts(segment, scales.from));
    let high = to.min(lasts(segment, scales.to));
    if low * u128::from(scales.to) < high * u128::from(scales.from) {
        return span_between(scales, segment, low, high);
    }
    None
}

/// What is touched between two places in a segment; nothing where it shows no media.
fn span_between(scales: Scales, segment: Segment, low: u128, high: u128) -> Option<Span>
    requires movie { 0 < scales.movie }
    requires begin { 0 < scales.from }
    requires end { 0 < scales.to }
    requires low { low < 2 ^ 94 }
    requires high { high < 2 ^ 94 }
    requires order { low * scales.to ≤ high * scales.from }
    requires short { IsShort segment }
    ensures { AreTouched (scales.movie * (scales.from * scales.to))
        (piece_of scales (cut_between scales segment low high) ∷ []) (option_to_list result) }
{
    match segment {
        Segment::Media { start, .. } => Some(media_span(scales, start, low, high)),
        Segment::Empty { .. } => None,
    }
}

/// What is touched between two places in a segment that starts at that tick of the media.
fn media_span(scales: Scales, start: u64, low: u128, high: u128) -> Span
    requires movie { 0 < scales.movie }
    requires begin { 0 < scales.from }
    requires end { 0 < scales.to }
    requires low { low < 2 ^ 94 }
    requires high { high < 2 ^ 94 }
    requires early { start < 2 ^ 62 }
    ensures from { result.from ≡ start + low * scales.media / (scales.movie * scales.from) }
    ensures to { result.to ≡ start + div_ceil (high * scales.media) (scales.movie * scales.to) }
{
    let media = u128::from(scales.media);
    let low_unit = u128::from(scales.movie) * u128::from(scales.from);
    let high_unit = u128::from(scales.movie) * u128::from(scales.to);
    Span {
        from: u128::from(start) + low * media / low_unit,
        to: u128::from(start) + (high * media).div_ceil(high_unit),
    }
}
