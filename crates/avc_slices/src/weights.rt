//! The weights of a slice's references.
ghost use Rattle.std.specs.Prelude.{◌≡◌, ◌≤◌, length, OnOk};
ghost use Rattle.avc_units.specs.Table.{walk};
ghost use Rattle.avc_units.specs.Cursor.{Takes};
ghost use Rattle.avc_slices.specs.Weights.{is_weighted, has_chroma, denominators, weight, luma_weight};
ghost use Rattle.avc_slices.specs.Weights.{chroma_weights, weights, second_weights, weight_table};

use crate::references::{References, is_b, is_p};
use avc_sets::{Pps, Sps};
use avc_units::{Bits, ElementFail, elements_in_turn};

fn is_weighted(kind: u32, pps: &Pps) -> bool
    ensures { result ≡ is_weighted kind pps.now }
{
    (pps.weighted && is_p(kind)) || (pps.bipred == 1 && is_b(kind))
}

fn has_chroma(sps: &Sps) -> bool
    ensures { result ≡ has_chroma sps.now }
{
    sps.chroma != 0
}

#[tactic(auto, unfolding(crate::specs::Weights::denominators, avc_units::specs::Table::walk))]
fn pass_denominators(bits: &mut Bits<'_>, chroma: bool) -> Result<(), ElementFail>
    ensures takes { Takes (walk (denominators chroma) bits.old) result bits.new }
    ensures shorter { OnOk result (length bits.new ≤ length bits.old) }
{
    elements_in_turn::<()>();
    bits.read_ue_upto(7)?;
    if chroma {
        bits.read_ue_upto(7)?;
    }
    Ok(())
}

#[tactic(auto, unfolding(crate::specs::Weights::weight, avc_units::specs::Table::walk))]
fn pass_weight(bits: &mut Bits<'_>) -> Result<(), ElementFail>
    ensures takes { Takes (walk weight bits.old) result bits.new }
    ensures shorter { OnOk result (length bits.new ≤ length bits.old) }
{
    elements_in_turn::<()>();
    bits.read_se()?;
    bits.read_se()?;
    Ok(())
}

#[tactic(auto, unfolding(crate::specs::Weights::luma_weight, avc_units::specs::Table::walk))]
fn pass_luma_weight(bits: &mut Bits<'_>) -> Result<(), ElementFail>
    ensures takes { Takes (walk luma_weight bits.old) result bits.new }
    ensures shorter { OnOk result (length bits.new ≤ length bits.old) }
{
    elements_in_turn::<()>();
    if bits.read_flag()? {
        return pass_weight(bits);
    }
    Ok(())
}

#[tactic(auto, unfolding(crate::specs::Weights::chroma_weights, avc_units::specs::Table::walk))]
fn pass_chroma_weights(bits: &mut Bits<'_>, chroma: bool) -> Result<(), ElementFail>
    ensures takes { Takes (walk (chroma_weights chroma) bits.old) result bits.new }
    ensures shorter { OnOk result (length bits.new ≤ length bits.old) }
{
    elements_in_turn::<()>();
    if !chroma {
        return Ok(());
    }
    if bits.read_flag()? {
        pass_weight(bits)?;
        return pass_weight(bits);
    }
    Ok(())
}

fn pass_weights(bits: &mut Bits<'_>, chroma: bool, count: u32) -> Result<(), ElementFail>
    ensures takes { Takes (walk (weights chroma count) bits.old) result bits.new }
    ensures shorter { OnOk result (length bits.new ≤ length bits.old) }
{
    elements_in_turn::<()>();
    for _reference in 0..count {
        match pass_luma_weight(bits) {
            Ok(()) => {}
            Err(fail) => return Err(fail),
        }
        match pass_chroma_weights(bits, chroma) {
            Ok(()) => {}
            Err(fail) => return Err(fail),
        }
    }
    Ok(())
}

#[tactic(auto, unfolding(crate::specs::Weights::second_weights, avc_units::specs::Table::walk))]
fn pass_second_weights(
    bits: &mut Bits<'_>,
    kind: u32,
    chroma: bool,
    count: u32,
) -> Result<(), ElementFail>
    ensures takes { Takes (walk (second_weights kind chroma count) bits.old) result bits.new }
    ensures shorter { OnOk result (length bits.new ≤ length bits.old) }
{
    if is_b(kind) {
        return pass_weights(bits, chroma, count);
    }
    Ok(())
}

#[tactic(auto, unfolding(crate::specs::Weights::weight_table, avc_units::specs::Table::walk))]
pub(crate) fn pass_weight_table(
    bits: &mut Bits<'_>,
    kind: u32,
    sps: &Sps,
    pps: &Pps,
    refs: References,
) -> Result<(), ElementFail>
    ensures takes { Takes (walk (weight_table kind sps.now pps.now refs) bits.old) result bits.new }
    ensures shorter { OnOk result (length bits.new ≤ length bits.old) }
{
    elements_in_turn::<()>();
    if !is_weighted(kind, pps) {
        return Ok(());
    }
    let chroma = has_chroma(sps);
    pass_denominators(bits, chroma)?;
    pass_weights(bits, chroma, refs.first)?;
    pass_second_weights(bits, kind, chroma, refs.second)
}
