//! The pieces of an edit list, in ticks of new scales.

ghost use Rattle.std.specs.Prelude.{◌≡◌, ℕ, ◌<◌, ◌+◌, ◌*◌, ◌^◌, List, false, All, IfOk, IfSome, OnOk};
ghost use Rattle.std.specs.List.{AllByRecursion, list_any};
ghost use Rattle.mp_timeline.specs.declared.segment.Segment.{Segment};
ghost use Rattle.mp_edits.specs.Segments.{starts_late, total};
ghost use Rattle.mp_clip.specs.declared.cut.Cut.{Cut};
ghost use Rattle.mp_clip.specs.Clipped.{CanClip, IsClip, IsRange};
ghost use Rattle.mp_clip.specs.Cut.{CanTellCut, IsExact, IsShort, LeadsTo, TellsCut, TellsCuts, cuts_of, in_front, unit_of};

use crate::cut::{Cut, Scales, behind, cut_of, ticks};
use mp_frac::{Frac, wholeness_is_division};
use mp_ports::NoMemory;
use mp_timeline::Segment;
use std::alloc::Global;

/// New scales, and how many ticks of that of the media each start is further to the front.
#[derive(Clone, Copy)]
struct NewScales {
    media: u32,
    movie: u32,
    back: u128,
}

/// The pieces of an edit list from one time up to another, in ticks of new scales, in which they are whole.
pub fn clip(
    alloc: Global,
    edits: &[Segment],
    media_scale: u32,
    movie_scale: u32,
    from: Frac,
    to: Frac,
    new_media: u32,
    new_movie: u32,
) -> Result<Vec<Segment>, NoMemory>
    requires media { 0 < media_scale }
    requires movie { 0 < movie_scale }
    requires range { IsRange from to }
    requires short { total edits.now < 2 ^ 62 }
    requires early { list_any starts_late edits.now ≡ false }
    requires new_media { 0 < new_media }
    requires new_movie { 0 < new_movie }
    requires told { CanClip media_scale movie_scale from to edits.now new_media new_movie 0 }
    ensures { IfOk result
        (λ made. IsClip media_scale movie_scale from to edits.now new_media new_movie 0 made.items) }
{
    clip_back(
        alloc,
        edits,
        media_scale,
        movie_scale,
        from,
        to,
        new_media,
        new_movie,
        0,
    )
}

/// The same pieces, each start so many ticks of the new scale further to the front of the media.
pub fn clip_back(
    alloc: Global,
    edits: &[Segment],
    media_scale: u32,
    movie_scale: u32,
    from: Frac,
    to: Frac,
    new_media: u32,
    new_movie: u32,
    back: u128,
) -> Result<Vec<Segment>, NoMemory>
    requires media { 0 < media_scale }
    requires movie { 0 < movie_scale }
    requires range { IsRange from to }
    requires short { total edits.now < 2 ^ 62 }
    requires early { list_any starts_late edits.now ≡ false }
    requires new_media { 0 < new_media }
    requires new_movie { 0 < new_movie }
    requires room { back < 2 ^ 127 }
    requires told { CanClip media_scale movie_scale from to edits.now new_media new_movie back }
    ensures { IfOk result
        (λ made. IsClip media_scale movie_scale from to edits.now new_media new_movie back made.items) }
{
    wholeness_is_division();
    let scales = Scales {
        media: media_scale,
        movie: movie_scale,
        from: from.d,
        to: to.d,
    };
    pieces(
        alloc,
        scales,
        edits,
        ticks(from, movie_scale),
        ticks(to, movie_scale),
        NewScales {
            media: new_media,
            movie: new_movie,
            back,
        },
    )
}

/// The pieces of an edit list in a range, in ticks of new scales.
fn pieces(
    alloc: Global,
    scales: Scales,
    edits: &[Segment],
    from: u128,
    to: u128,
    new: NewScales,
) -> Result<Vec<Segment>, NoMemory>
    requires unit { 0 < unit_of scales }
    requires new_media { 0 < new.media }
    requires new_movie { 0 < new.movie }
    requires room { new.back < 2 ^ 127 }
    requires segments { All IsShort edits.now }
    requires told { AllByRecursion (CanTellCut scales new) (cuts_of scales from to edits.now) }
    ensures { IfOk result
        (λ made. TellsCuts scales new (cuts_of scales from to edits.now) made.items) }
{
    let mut made = Vec::new(alloc);
    let mut begin = from;
    let mut end = to;
    for segment in edits {
        push_piece(&mut made, scales, cut_of(scales, *segment, begin, end), new)?;
        begin = behind(begin, *segment, scales.from);
        end = behind(end, *segment, scales.to);
    }
    Ok(made)
}

/// One more piece, if there is one.
fn push_piece(
    made: &mut Vec<Segment>,
    scales: Scales,
    cut: Option<Cut>,
    new: NewScales,
) -> Result<(), NoMemory>
    requires unit { 0 < unit_of scales }
    requires new_media { 0 < new.media }
    requires new_movie { 0 < new.movie }
    requires room { new.back < 2 ^ 127 }
    requires told { IfSome cut (CanTellCut scales new) }
    ensures { OnOk result
        ((all : List Segment) (left : List Cut)
        → LeadsTo scales new all made.old.items (in_front cut left)
        → LeadsTo scales new all made.new.items left) }
{
    if let Some(cut) = cut {
        made.push(told(scales, cut, new))?;
    }
    Ok(())
}

/// A piece in ticks of the new scales.
fn told(scales: Scales, cut: Cut, new: NewScales) -> Segment
    requires unit { 0 < unit_of scales }
    requires new_media { 0 < new.media }
    requires new_movie { 0 < new.movie }
    requires room { new.back < 2 ^ 127 }
    requires told { CanTellCut scales new cut }
    ensures { TellsCut scales new cut result }
{
    let tick = u64::from(scales.from) * u64::from(scales.to);
    let dur = exact(cut.length, scales.movie, tick, new.movie, 0);
    match cut.start {
        Some(start) => {
            let tick = u64::from(scales.movie) * u64::from(scales.from);
            Segment::Media {
                start: exact(start, scales.media, tick, new.media, new.back),
                dur,
            }
        }
        None => Segment::Empty { dur },
    }
}

/// So many parts of a tick of a scale, in ticks of another, and `back` ticks less.
fn exact(parts: u128, scale: u32, tick: u64, new_scale: u32, back: u128) -> u64
    requires some { 0 < scale * tick }
    requires room { back < 2 ^ 127 }
    requires exact { IsExact back parts (scale * tick) new_scale }
    ensures { (result + back) * (scale * tick) ≡ parts * new_scale }
{
    let unit = u128::from(scale) * u128::from(tick);
    let whole = parts / unit * u128::from(new_scale);
    let rest = parts % unit * u128::from(new_scale) / unit;
    (whole + rest - back) as u64
}
