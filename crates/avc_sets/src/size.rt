//! The size of pictures.
ghost use Rattle.std.specs.Prelude.{◌≡◌, ◌<◌, ◌≤◌, ◌^◌, IfOk};
ghost use Rattle.avc_units.specs.Table.{walk};
ghost use Rattle.avc_units.specs.Cursor.{Takes};
ghost use Rattle.avc_sets.specs.Size.{crop, fields_of, crop_columns, crop_rows, width, height, is_extent, adaptive, size};

use avc_units::{Bits, ElementFail, elements_in_turn, tables_in_turn};

/// How much is cut off a frame at each side, in crop units.
#[derive(Clone, Copy)]
pub(crate) struct Crop {
    pub left: u32,
    pub right: u32,
    pub top: u32,
    pub bottom: u32,
}

/// Whether pictures are frames alone, and how many samples they are wide and high.
#[derive(Clone, Copy)]
pub(crate) struct Size {
    pub frames_only: bool,
    pub width: u16,
    pub height: u16,
}

#[tactic(auto, unfolding(crate::specs::Size::crop, avc_units::specs::Table::walk))]
fn read_crop(bits: &mut Bits<'_>) -> Result<Crop, ElementFail>
    ensures { Takes (walk crop bits.old) result bits.new }
{
    elements_in_turn::<Crop>();
    if !bits.read_flag()? {
        return Ok(Crop {
            left: 0,
            right: 0,
            top: 0,
            bottom: 0,
        });
    }
    let left = bits.read_ue()?;
    let right = bits.read_ue()?;
    let top = bits.read_ue()?;
    let bottom = bits.read_ue()?;
    Ok(Crop {
        left,
        right,
        top,
        bottom,
    })
}

fn fields_of(frames_only: bool) -> u64
    ensures value { result ≡ fields_of frames_only }
    ensures few { result ≤ 2 }
{
    if frames_only { 1 } else { 2 }
}

fn crop_columns(chroma: u8) -> u64
    ensures value { result ≡ crop_columns chroma }
    ensures few { result ≤ 2 }
{
    if chroma == 0 { 1 } else { 2 }
}

fn crop_rows(chroma: u8, frames_only: bool) -> u64
    ensures value { result ≡ crop_rows chroma frames_only }
    ensures few { result ≤ 4 }
{
    (if chroma == 1 { 2 } else { 1 }) * fields_of(frames_only)
}

fn width(chroma: u8, macroblocks: u64, crop: Crop) -> u64
    requires { macroblocks ≤ 2 ^ 32 }
    ensures { result ≡ width chroma macroblocks crop }
{
    let cut = crop_columns(chroma) * (u64::from(crop.left) + u64::from(crop.right));
    (16 * macroblocks).saturating_sub(cut)
}

fn height(chroma: u8, frames_only: bool, map_units: u64, crop: Crop) -> u64
    requires { map_units ≤ 2 ^ 32 }
    ensures { result ≡ height chroma frames_only map_units crop }
{
    let cut = crop_rows(chroma, frames_only) * (u64::from(crop.top) + u64::from(crop.bottom));
    (16 * fields_of(frames_only) * map_units).saturating_sub(cut)
}

fn is_extent(samples: u64) -> bool
    ensures { result ≡ is_extent samples }
{
    1 <= samples && samples <= 65535
}

#[tactic(auto, unfolding(crate::specs::Size::adaptive, avc_units::specs::Table::walk))]
fn pass_adaptive(bits: &mut Bits<'_>, frames_only: bool) -> Result<(), ElementFail>
    ensures { Takes (walk (adaptive frames_only) bits.old) result bits.new }
{
    elements_in_turn::<()>();
    if !frames_only {
        bits.read_flag()?;
    }
    Ok(())
}

#[tactic(auto, unfolding(crate::specs::Size::size, avc_units::specs::Table::walk))]
pub(crate) fn read_size(bits: &mut Bits<'_>, chroma: u8) -> Result<Size, ElementFail>
    ensures takes { Takes (walk (size chroma) bits.old) result bits.new }
    ensures wide { IfOk result (λ s. 1 ≤ s.width) }
    ensures high { IfOk result (λ s. 1 ≤ s.height) }
{
    elements_in_turn::<Size>();
    tables_in_turn::<Crop, Size>();
    let columns = bits.read_ue()?;
    let units = bits.read_ue()?;
    let frames_only = bits.read_flag()?;
    pass_adaptive(bits, frames_only)?;
    bits.read_flag()?;
    let crop = read_crop(bits)?;
    let across = width(chroma, u64::from(columns) + 1, crop);
    let down = height(chroma, frames_only, u64::from(units) + 1, crop);
    if !is_extent(across) {
        return Err(ElementFail::Syntax);
    }
    if !is_extent(down) {
        return Err(ElementFail::Syntax);
    }
    Ok(Size {
        frames_only,
        width: across as u16,
        height: down as u16,
    })
}
