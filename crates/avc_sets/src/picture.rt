//! The picture parameter set.
ghost use Rattle.std.specs.Prelude.{◌≡◌, ◌≤◌, drop, length};
ghost use Rattle.mp_ports.specs.declared.code.Code.TheVariants.{SetSyntax};
ghost use Rattle.avc_units.specs.Bits.{bits_of};
ghost use Rattle.avc_units.specs.Table.{walk, SaysCode};
ghost use Rattle.avc_units.specs.Cursor.{Takes};
ghost use Rattle.avc_sets.specs.Picture.{one_slice_group, quantisers, picture};

use crate::Pps;
use avc_units::{Bits, ElementFail, elements_in_turn, tables_are_read};
use mp_ports::Code;

#[tactic(auto, unfolding(crate::specs::Picture::one_slice_group, avc_units::specs::Table::walk))]
fn pass_one_slice_group(bits: &mut Bits<'_>) -> Result<(), ElementFail>
    ensures { Takes (walk one_slice_group bits.old) result bits.new }
{
    elements_in_turn::<()>();
    if bits.read_ue()? != 0 {
        return Err(ElementFail::Refused(Code::SliceGroups));
    }
    Ok(())
}

#[tactic(auto, unfolding(crate::specs::Picture::quantisers, avc_units::specs::Table::walk))]
fn pass_quantisers(bits: &mut Bits<'_>) -> Result<(), ElementFail>
    ensures { Takes (walk quantisers bits.old) result bits.new }
{
    elements_in_turn::<()>();
    bits.read_se()?;
    bits.read_se()?;
    bits.read_se()?;
    bits.read_flag()?;
    bits.read_flag()?;
    Ok(())
}

#[tactic(auto, unfolding(crate::specs::Picture::picture, avc_units::specs::Table::walk))]
fn read_picture(bits: &mut Bits<'_>) -> Result<Pps, ElementFail>
    ensures { Takes (walk picture bits.old) result bits.new }
{
    elements_in_turn::<Pps>();
    let number = bits.read_ue_upto(255)?;
    let sps = bits.read_ue_upto(31)?;
    bits.read_flag()?;
    let bottom_order = bits.read_flag()?;
    pass_one_slice_group(bits)?;
    let refs0 = bits.read_ue_upto(31)?;
    let refs1 = bits.read_ue_upto(31)?;
    let weighted = bits.read_flag()?;
    let bipred = bits.read_u(2)?;
    pass_quantisers(bits)?;
    let redundant = bits.read_flag()?;
    Ok(Pps {
        number: number as u8,
        sps: sps as u8,
        bottom_order,
        refs0: refs0 as u8 + 1,
        refs1: refs1 as u8 + 1,
        weighted,
        bipred: bipred as u8,
        redundant,
    })
}

/// Reads a picture parameter set (H.264, 7.3.2.2) from a cleaned unit. The set that it names needn't exist.
///
/// `SliceGroups` for more than one slice group, `SetSyntax` where the bits end before an element, or a value is out of
/// its range.
pub fn read_pps(clean: &[u8]) -> Result<Pps, Code>
    ensures { SaysCode SetSyntax picture (bits_of (drop 1 clean.now)) result }
{
    tables_are_read::<Pps>();
    let mut bits = Bits::new(&clean[clean.len().min(1)..]);
    match read_picture(&mut bits) {
        Ok(pps) => Ok(pps),
        Err(fail) => Err(fail.code(Code::SetSyntax)),
    }
}
