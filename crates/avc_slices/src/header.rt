//! The slice header.
ghost use Rattle.std.specs.Prelude.{◌≡◌, ◌<◌, ◌≤◌, ℕ, length, option_copied, OnOk};
ghost use Rattle.avc_units.specs.Table.{walk};
ghost use Rattle.avc_units.specs.Cursor.{Takes};
ghost use Rattle.avc_slices.specs.Header.{set_of, frame, idr_number, bottom_difference, order, primary};
ghost use Rattle.avc_slices.specs.Header.{prediction, picture_part, header};

use crate::Slice;
use crate::marking::pass_marking;
use crate::references::{References, pass_direct, pass_modifications, read_references};
use crate::unit::Nal;
use crate::weights::pass_weight_table;
use avc_sets::{Pps, Sps};
use avc_units::{Bits, ElementFail, elements_in_turn, tables_in_turn};
use mp_ports::Code;

/// The low part of an order count, and how much higher that of the bottom field is.
#[derive(Clone, Copy)]
struct Order {
    lsb: u32,
    bottom: i32,
}

fn set_of(pps: &[Pps], number: u32) -> Option<&Pps>
    ensures { option_copied result ≡ set_of pps.now number }
{
    for set in pps {
        if u32::from(set.number) == number {
            return Some(set);
        }
    }
    None
}

#[tactic(auto, unfolding(crate::specs::Header::frame, avc_units::specs::Table::walk))]
fn pass_frame(bits: &mut Bits<'_>, frames_only: bool) -> Result<(), ElementFail>
    ensures takes { Takes (walk (frame frames_only) bits.old) result bits.new }
    ensures shorter { OnOk result (length bits.new ≤ length bits.old) }
{
    elements_in_turn::<()>();
    if frames_only {
        return Ok(());
    }
    if bits.read_flag()? {
        return Err(ElementFail::Refused(Code::FieldPicture));
    }
    Ok(())
}

#[tactic(auto, unfolding(crate::specs::Header::idr_number, avc_units::specs::Table::walk))]
fn read_idr_number(bits: &mut Bits<'_>, idr: bool) -> Result<u32, ElementFail>
    ensures takes { Takes (walk (idr_number idr) bits.old) result bits.new }
    ensures shorter { OnOk result (length bits.new ≤ length bits.old) }
{
    if idr {
        return bits.read_ue_upto(65535);
    }
    Ok(0)
}

#[tactic(auto, unfolding(crate::specs::Header::bottom_difference, avc_units::specs::Table::walk))]
fn read_bottom_difference(bits: &mut Bits<'_>, present: bool) -> Result<i32, ElementFail>
    ensures takes { Takes (walk (bottom_difference present) bits.old) result bits.new }
    ensures shorter { OnOk result (length bits.new ≤ length bits.old) }
{
    if present {
        return bits.read_se();
    }
    Ok(0)
}

#[tactic(auto, unfolding(crate::specs::Header::order, avc_units::specs::Table::walk))]
fn read_order(bits: &mut Bits<'_>, sps: &Sps, pps: &Pps) -> Result<Order, ElementFail>
    ensures takes { Takes (walk (order sps.now pps.now) bits.old) result bits.new }
    ensures shorter { OnOk result (length bits.new ≤ length bits.old) }
{
    elements_in_turn::<Order>();
    if sps.poc_type != 0 {
        return Ok(Order { lsb: 0, bottom: 0 });
    }
    let lsb = bits.read_u(u32::from(sps.poc_bits))?;
    let bottom = read_bottom_difference(bits, pps.bottom_order)?;
    Ok(Order { lsb, bottom })
}

#[tactic(auto, unfolding(crate::specs::Header::primary, avc_units::specs::Table::walk))]
fn pass_primary(bits: &mut Bits<'_>, present: bool) -> Result<(), ElementFail>
    ensures takes { Takes (walk (primary present) bits.old) result bits.new }
    ensures shorter { OnOk result (length bits.new ≤ length bits.old) }
{
    elements_in_turn::<()>();
    if !present {
        return Ok(());
    }
    if bits.read_ue()? != 0 {
        return Err(ElementFail::Refused(Code::Redundant));
    }
    Ok(())
}

#[tactic(auto, unfolding(crate::specs::Header::prediction, avc_units::specs::Table::walk))]
fn pass_prediction(
    bits: &mut Bits<'_>,
    nal: Nal,
    kind: u32,
    sps: &Sps,
    pps: &Pps,
) -> Result<(), ElementFail>
    ensures { (n : ℕ) → length bits.old < n
        → Takes (walk (prediction n nal kind sps.now pps.now) bits.old) result bits.new }
{
    elements_in_turn::<()>();
    tables_in_turn::<References, ()>();
    pass_direct(bits, kind)?;
    let refs = read_references(bits, kind, pps)?;
    pass_modifications(bits, kind)?;
    pass_weight_table(bits, kind, sps, pps, refs)?;
    pass_marking(bits, nal)
}

#[tactic(auto, unfolding(crate::specs::Header::picture_part, avc_units::specs::Table::walk))]
fn read_picture_part(
    bits: &mut Bits<'_>,
    nal: Nal,
    kind: u32,
    sps: &Sps,
    pps: &Pps,
) -> Result<Slice, ElementFail>
    ensures { (n : ℕ) → length bits.old < n
        → Takes (walk (picture_part n nal kind sps.now pps.now) bits.old) result bits.new }
{
    elements_in_turn::<Slice>();
    tables_in_turn::<Order, Slice>();
    let frame_num = bits.read_u(u32::from(sps.frame_bits))?;
    pass_frame(bits, sps.frames_only)?;
    let idr_id = read_idr_number(bits, nal.idr)?;
    let order = read_order(bits, sps, pps)?;
    pass_primary(bits, pps.redundant)?;
    pass_prediction(bits, nal, kind, sps, pps)?;
    Ok(Slice {
        idr: nal.idr,
        ref_idc: nal.ref_idc,
        pps: pps.number,
        frame_num,
        idr_id,
        lsb: order.lsb,
        bottom: order.bottom,
    })
}

#[tactic(auto, unfolding(crate::specs::Header::header, avc_units::specs::Table::walk))]
pub(crate) fn read_header(
    bits: &mut Bits<'_>,
    nal: Nal,
    sps: Option<&Sps>,
    pps: &[Pps],
) -> Result<Slice, ElementFail>
    ensures { (n : ℕ) → length bits.old < n
        → Takes (walk (header n nal (option_copied sps.entry) pps.now) bits.old) result bits.new }
{
    elements_in_turn::<Slice>();
    if nal.idr && nal.ref_idc == 0 {
        return Err(ElementFail::Syntax);
    }
    bits.read_ue()?;
    let kind = bits.read_ue_upto(9)? % 5;
    let number = bits.read_ue_upto(255)?;
    let Some(sps) = sps else {
        return Err(ElementFail::Refused(Code::SetMissing));
    };
    let Some(set) = set_of(pps, number) else {
        return Err(ElementFail::Refused(Code::SetMissing));
    };
    if sps.number != set.sps {
        return Err(ElementFail::Refused(Code::SetMissing));
    }
    read_picture_part(bits, nal, kind, sps, set)
}
