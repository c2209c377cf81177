//! How decoded pictures are marked as references.
ghost use Rattle.std.specs.Prelude.{◌≡◌, ◌<◌, ◌≤◌, ℕ, length, OnOk};
ghost use Rattle.avc_units.specs.Table.{walk};
ghost use Rattle.avc_units.specs.Cursor.{Takes};
ghost use Rattle.avc_slices.specs.Marking.{long_term_index, operands, operations, idr_marking};
ghost use Rattle.avc_slices.specs.Marking.{adaptive_marking, marking};

use crate::unit::Nal;
use avc_units::{Bits, ElementFail, elements_in_turn};
use mp_ports::Code;

#[tactic(auto, unfolding(crate::specs::Marking::long_term_index, avc_units::specs::Table::walk))]
fn pass_long_term_index(bits: &mut Bits<'_>, operation: u32) -> Result<(), ElementFail>
    ensures takes { Takes (walk (long_term_index operation) bits.old) result bits.new }
    ensures shorter { OnOk result (length bits.new ≤ length bits.old) }
{
    elements_in_turn::<()>();
    if operation == 3 {
        bits.read_ue()?;
    }
    Ok(())
}

#[tactic(auto, unfolding(crate::specs::Marking::operands, avc_units::specs::Table::walk))]
fn pass_operands(bits: &mut Bits<'_>, operation: u32) -> Result<(), ElementFail>
    ensures takes { Takes (walk (operands operation) bits.old) result bits.new }
    ensures shorter { OnOk result (length bits.new ≤ length bits.old) }
{
    elements_in_turn::<()>();
    if operation == 5 {
        return Err(ElementFail::Refused(Code::Marking5));
    }
    bits.read_ue()?;
    pass_long_term_index(bits, operation)
}

fn pass_operations(bits: &mut Bits<'_>) -> Result<(), ElementFail>
    ensures takes { (n : ℕ) → length bits.old < n → Takes (walk (operations n) bits.old) result bits.new }
    ensures shorter { OnOk result (length bits.new ≤ length bits.old) }
{
    elements_in_turn::<()>();
    loop {
        let operation = match bits.read_ue_upto(6) {
            Ok(operation) => operation,
            Err(fail) => return Err(fail),
        };
        if operation == 0 {
            return Ok(());
        }
        match pass_operands(bits, operation) {
            Ok(()) => {}
            Err(fail) => return Err(fail),
        }
    }
}

#[tactic(auto, unfolding(crate::specs::Marking::idr_marking, avc_units::specs::Table::walk))]
fn pass_idr_marking(bits: &mut Bits<'_>) -> Result<(), ElementFail>
    ensures takes { Takes (walk idr_marking bits.old) result bits.new }
    ensures shorter { OnOk result (length bits.new ≤ length bits.old) }
{
    elements_in_turn::<()>();
    bits.read_flag()?;
    bits.read_flag()?;
    Ok(())
}

#[tactic(auto, unfolding(crate::specs::Marking::adaptive_marking, avc_units::specs::Table::walk))]
fn pass_adaptive_marking(bits: &mut Bits<'_>) -> Result<(), ElementFail>
    ensures takes { (n : ℕ) → length bits.old < n → Takes (walk (adaptive_marking n) bits.old) result bits.new }
    ensures shorter { OnOk result (length bits.new ≤ length bits.old) }
{
    elements_in_turn::<()>();
    if bits.read_flag()? {
        return pass_operations(bits);
    }
    Ok(())
}

#[tactic(auto, unfolding(crate::specs::Marking::marking, avc_units::specs::Table::walk))]
pub(crate) fn pass_marking(bits: &mut Bits<'_>, nal: Nal) -> Result<(), ElementFail>
    ensures takes { (n : ℕ) → length bits.old < n → Takes (walk (marking n nal) bits.old) result bits.new }
    ensures shorter { OnOk result (length bits.new ≤ length bits.old) }
{
    if nal.ref_idc == 0 {
        return Ok(());
    }
    if nal.idr {
        return pass_idr_marking(bits);
    }
    pass_adaptive_marking(bits)
}
