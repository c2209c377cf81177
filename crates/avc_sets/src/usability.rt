//! Video usability information.
ghost use Rattle.std.specs.Prelude.{◌≡◌};
ghost use Rattle.avc_units.specs.Table.{walk};
ghost use Rattle.avc_units.specs.Cursor.{Takes};
ghost use Rattle.avc_sets.specs.Usability.{extended_ratio, aspect_ratio, overscan, colour, signal, chroma_location, timing, usability};

use avc_units::{Bits, ElementFail, elements_in_turn};

#[tactic(auto, unfolding(crate::specs::Usability::extended_ratio, avc_units::specs::Table::walk))]
fn pass_extended_ratio(bits: &mut Bits<'_>, idc: u32) -> Result<(), ElementFail>
    ensures { Takes (walk (extended_ratio idc) bits.old) result bits.new }
{
    elements_in_turn::<()>();
    if idc == 255 {
        bits.read_u(16)?;
        bits.read_u(16)?;
    }
    Ok(())
}

#[tactic(auto, unfolding(crate::specs::Usability::aspect_ratio, avc_units::specs::Table::walk))]
fn pass_aspect_ratio(bits: &mut Bits<'_>) -> Result<(), ElementFail>
    ensures { Takes (walk aspect_ratio bits.old) result bits.new }
{
    elements_in_turn::<()>();
    if bits.read_flag()? {
        let idc = bits.read_u(8)?;
        return pass_extended_ratio(bits, idc);
    }
    Ok(())
}

#[tactic(auto, unfolding(crate::specs::Usability::overscan, avc_units::specs::Table::walk))]
fn pass_overscan(bits: &mut Bits<'_>) -> Result<(), ElementFail>
    ensures { Takes (walk overscan bits.old) result bits.new }
{
    elements_in_turn::<()>();
    if bits.read_flag()? {
        bits.read_flag()?;
    }
    Ok(())
}

#[tactic(auto, unfolding(crate::specs::Usability::colour, avc_units::specs::Table::walk))]
fn pass_colour(bits: &mut Bits<'_>) -> Result<(), ElementFail>
    ensures { Takes (walk colour bits.old) result bits.new }
{
    elements_in_turn::<()>();
    if bits.read_flag()? {
        bits.read_u(8)?;
        bits.read_u(8)?;
        bits.read_u(8)?;
    }
    Ok(())
}

#[tactic(auto, unfolding(crate::specs::Usability::signal, avc_units::specs::Table::walk))]
fn pass_signal(bits: &mut Bits<'_>) -> Result<(), ElementFail>
    ensures { Takes (walk signal bits.old) result bits.new }
{
    elements_in_turn::<()>();
    if bits.read_flag()? {
        bits.read_u(3)?;
        bits.read_flag()?;
        return pass_colour(bits);
    }
    Ok(())
}

#[tactic(auto, unfolding(crate::specs::Usability::chroma_location, avc_units::specs::Table::walk))]
fn pass_chroma_location(bits: &mut Bits<'_>) -> Result<(), ElementFail>
    ensures { Takes (walk chroma_location bits.old) result bits.new }
{
    elements_in_turn::<()>();
    if bits.read_flag()? {
        bits.read_ue()?;
        bits.read_ue()?;
    }
    Ok(())
}

#[tactic(auto, unfolding(crate::specs::Usability::timing, avc_units::specs::Table::walk))]
fn read_timing(bits: &mut Bits<'_>) -> Result<Option<(u32, u32)>, ElementFail>
    ensures { Takes (walk timing bits.old) result bits.new }
{
    elements_in_turn::<Option<(u32, u32)>>();
    if !bits.read_flag()? {
        return Ok(None);
    }
    let units = bits.read_u(32)?;
    let scale = bits.read_u(32)?;
    bits.read_flag()?;
    Ok(Some((units, scale)))
}

/// The two numbers of the timing, where they are there.
#[tactic(auto, unfolding(crate::specs::Usability::usability, avc_units::specs::Table::walk))]
pub(crate) fn read_usability(bits: &mut Bits<'_>) -> Result<Option<(u32, u32)>, ElementFail>
    ensures { Takes (walk usability bits.old) result bits.new }
{
    elements_in_turn::<Option<(u32, u32)>>();
    if !bits.read_flag()? {
        return Ok(None);
    }
    pass_aspect_ratio(bits)?;
    pass_overscan(bits)?;
    pass_signal(bits)?;
    pass_chroma_location(bits)?;
    read_timing(bits)
}
