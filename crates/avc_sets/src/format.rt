//! Profiles, chroma format, bit depths and scaling lists.
ghost use Rattle.std.specs.Prelude.{◌≡◌, ◌<◌, ◌≤◌, ◌≤ℤ◌, pos, neg_ℤ, IfOk};
ghost use Rattle.avc_units.specs.Table.{walk};
ghost use Rattle.avc_units.specs.Cursor.{Takes};
ghost use Rattle.avc_sets.specs.Set.{IsWithin};
ghost use Rattle.avc_sets.specs.Format.{is_high, is_profile, profile, scale_behind, scale, scales_of, scaling_list, scaling_lists, list_lengths, scaling_matrix, format};

use avc_units::{Bits, ElementFail, elements_in_turn, tables_in_turn};
use mp_ports::Code;

/// The lengths of the scaling lists: of 4 x 4 samples and of 8 x 8 samples.
const LIST_LENGTHS: [u32; 8] = [16, 16, 16, 16, 16, 16, 64, 64];

/// The chroma format, and the bits of a sample of luma and of chroma.
#[derive(Clone, Copy)]
pub(crate) struct Format {
    pub chroma: u8,
    pub luma_depth: u8,
    pub chroma_depth: u8,
}

/// The last scale of a list and the next one, which is 0 from where the rest of the list is the last.
#[derive(Clone, Copy)]
struct Scales {
    last: u32,
    next: u32,
}

/// Whether sets of that profile have a part of their own.
pub(crate) fn is_high(profile: u8) -> bool
    ensures { result ≡ is_high profile }
{
    profile == 100 || profile == 110 || profile == 122
}

fn is_profile(profile: u8) -> bool
    ensures { result ≡ is_profile profile }
{
    profile == 66 || profile == 77 || profile == 88 || is_high(profile)
}

#[tactic(auto, unfolding(crate::specs::Format::profile, avc_units::specs::Table::walk))]
pub(crate) fn read_profile(bits: &mut Bits<'_>) -> Result<u8, ElementFail>
    ensures { Takes (walk profile bits.old) result bits.new }
{
    elements_in_turn::<u8>();
    let profile = bits.read_u(8)? as u8;
    if is_profile(profile) {
        Ok(profile)
    } else {
        Err(ElementFail::Refused(Code::SetProfile))
    }
}

fn scale_behind(last: u32, delta: i32) -> u32
    requires last { last < 256 }
    requires low { neg_ℤ (pos 128) ≤ℤ delta }
    requires high { delta ≤ℤ pos 127 }
    ensures value { result ≡ scale_behind last delta }
    ensures small { result < 256 }
{
    (last as i32 + delta + 256) as u32 % 256
}

#[tactic(auto, unfolding(crate::specs::Format::scale, avc_units::specs::Table::walk))]
fn read_scale(bits: &mut Bits<'_>, scales: Scales) -> Result<Scales, ElementFail>
    requires { scales.last < 256 }
    ensures takes { Takes (walk (scale scales) bits.old) result bits.new }
    ensures small { IfOk result (λ s. s.last < 256) }
{
    if scales.next == 0 {
        return Ok(scales);
    }
    elements_in_turn::<Scales>();
    let delta = bits.read_se_within(-128, 127)?;
    let next = scale_behind(scales.last, delta);
    let last = if next == 0 { scales.last } else { next };
    Ok(Scales { last, next })
}

fn pass_scales(bits: &mut Bits<'_>, entries: u32) -> Result<(), ElementFail>
    ensures { Takes (walk (scales_of entries (record { last = 8; next = 8 })) bits.old) result bits.new }
{
    tables_in_turn::<Scales, ()>();
    let mut scales = Scales { last: 8, next: 8 };
    for _entry in 0..entries {
        scales = match read_scale(bits, scales) {
            Ok(scales) => scales,
            Err(fail) => return Err(fail),
        };
    }
    Ok(())
}

#[tactic(auto, unfolding(crate::specs::Format::scaling_list, avc_units::specs::Table::walk))]
fn pass_scaling_list(bits: &mut Bits<'_>, entries: u32) -> Result<(), ElementFail>
    ensures { Takes (walk (scaling_list entries) bits.old) result bits.new }
{
    elements_in_turn::<()>();
    if bits.read_flag()? {
        return pass_scales(bits, entries);
    }
    Ok(())
}

fn pass_scaling_lists(bits: &mut Bits<'_>, lengths: &[u32]) -> Result<(), ElementFail>
    ensures { Takes (walk (scaling_lists lengths.now) bits.old) result bits.new }
{
    elements_in_turn::<()>();
    for &entries in lengths {
        match pass_scaling_list(bits, entries) {
            Ok(()) => {}
            Err(fail) => return Err(fail),
        }
    }
    Ok(())
}

#[tactic(auto, unfolding(crate::specs::Format::scaling_matrix, avc_units::specs::Table::walk))]
fn pass_scaling_matrix(bits: &mut Bits<'_>) -> Result<(), ElementFail>
    ensures { Takes (walk scaling_matrix bits.old) result bits.new }
{
    elements_in_turn::<()>();
    if bits.read_flag()? {
        return pass_scaling_lists(bits, &LIST_LENGTHS);
    }
    Ok(())
}

#[tactic(auto, unfolding(crate::specs::Format::format, avc_units::specs::Table::walk))]
pub(crate) fn read_format(bits: &mut Bits<'_>, profile: u8) -> Result<Format, ElementFail>
    ensures takes { Takes (walk (format profile) bits.old) result bits.new }
    ensures chroma { IfOk result (λ f. f.chroma ≤ 2) }
    ensures luma { IfOk result (λ f. IsWithin 8 14 f.luma_depth) }
    ensures depth { IfOk result (λ f. IsWithin 8 14 f.chroma_depth) }
{
    elements_in_turn::<Format>();
    if !is_high(profile) {
        return Ok(Format {
            chroma: 1,
            luma_depth: 8,
            chroma_depth: 8,
        });
    }
    let chroma = bits.read_ue_upto(3)?;
    if chroma == 3 {
        return Err(ElementFail::Refused(Code::Chroma));
    }
    let luma = bits.read_ue_upto(6)?;
    let depth = bits.read_ue_upto(6)?;
    bits.read_flag()?;
    pass_scaling_matrix(bits)?;
    Ok(Format {
        chroma: chroma as u8,
        luma_depth: 8 + luma as u8,
        chroma_depth: 8 + depth as u8,
    })
}
