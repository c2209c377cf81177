//! The sequence parameter set.
ghost use Rattle.std.specs.Prelude.{◌≡◌, ◌<◌, ◌≤◌, IfOk, drop, length};
ghost use Rattle.mp_ports.specs.declared.code.Code.TheVariants.{SetSyntax};
ghost use Rattle.avc_units.specs.Bits.{bits_of};
ghost use Rattle.avc_units.specs.Table.{walk, SaysCode};
ghost use Rattle.avc_units.specs.Cursor.{Takes};
ghost use Rattle.avc_sets.specs.Set.{IsOrder};
ghost use Rattle.avc_sets.specs.Sequence.{order, references, sequence};

use crate::Sps;
use crate::format::{Format, read_format, read_profile};
use crate::size::{Size, read_size};
use crate::usability::read_usability;
use avc_units::{Bits, ElementFail, elements_in_turn, tables_are_read, tables_in_turn};
use mp_ports::Code;

/// The type of order counts, and the bits of their low part.
#[derive(Clone, Copy)]
struct Order {
    poc_type: u8,
    poc_bits: u8,
}

#[tactic(auto, unfolding(crate::specs::Sequence::order, avc_units::specs::Table::walk))]
fn read_order(bits: &mut Bits<'_>) -> Result<Order, ElementFail>
    ensures takes { Takes (walk order bits.old) result bits.new }
    ensures order { IfOk result (λ o. IsOrder o.poc_type o.poc_bits) }
{
    elements_in_turn::<Order>();
    let poc_type = bits.read_ue_upto(2)?;
    if poc_type == 1 {
        return Err(ElementFail::Refused(Code::PocType));
    }
    if poc_type != 0 {
        return Ok(Order {
            poc_type: 2,
            poc_bits: 0,
        });
    }
    let less = bits.read_ue_upto(12)?;
    Ok(Order {
        poc_type: 0,
        poc_bits: less as u8 + 4,
    })
}

#[tactic(auto, unfolding(crate::specs::Sequence::references, avc_units::specs::Table::walk))]
fn pass_references(bits: &mut Bits<'_>) -> Result<(), ElementFail>
    ensures { Takes (walk references bits.old) result bits.new }
{
    elements_in_turn::<()>();
    bits.read_ue()?;
    bits.read_flag()?;
    Ok(())
}

#[tactic(auto, unfolding(crate::specs::Sequence::sequence, avc_units::specs::Table::walk))]
fn read_sequence(bits: &mut Bits<'_>) -> Result<Sps, ElementFail>
    ensures { Takes (walk sequence bits.old) result bits.new }
{
    elements_in_turn::<Sps>();
    tables_in_turn::<Format, Sps>();
    tables_in_turn::<Order, Sps>();
    tables_in_turn::<Size, Sps>();
    tables_in_turn::<Option<(u32, u32)>, Sps>();
    let profile = read_profile(bits)?;
    let compat = bits.read_u(8)?;
    let level = bits.read_u(8)?;
    let number = bits.read_ue_upto(31)?;
    let format = read_format(bits, profile)?;
    let frame = bits.read_ue_upto(12)?;
    let order = read_order(bits)?;
    pass_references(bits)?;
    let size = read_size(bits, format.chroma)?;
    let tick = read_usability(bits)?;
    Ok(Sps {
        profile,
        compat: compat as u8,
        level: level as u8,
        number: number as u8,
        chroma: format.chroma,
        luma_depth: format.luma_depth,
        chroma_depth: format.chroma_depth,
        frame_bits: frame as u8 + 4,
        poc_type: order.poc_type,
        poc_bits: order.poc_bits,
        frames_only: size.frames_only,
        width: size.width,
        height: size.height,
        tick,
    })
}

/// Reads a sequence parameter set (H.264, 7.3.2.1.1) from a cleaned unit.
///
/// `SetProfile` for a profile other than 66, 77, 88, 100, 110 and 122, `Chroma` for 4:4:4, `PocType` for order counts
/// of type 1, `SetSyntax` where the bits end before an element, or a value is out of its range.
pub fn read_sps(clean: &[u8]) -> Result<Sps, Code>
    ensures { SaysCode SetSyntax sequence (bits_of (drop 1 clean.now)) result }
{
    tables_are_read::<Sps>();
    let mut bits = Bits::new(&clean[clean.len().min(1)..]);
    match read_sequence(&mut bits) {
        Ok(sps) => Ok(sps),
        Err(fail) => Err(fail.code(Code::SetSyntax)),
    }
}
