//! The references of a slice.
ghost use Rattle.std.specs.Prelude.{◌≡◌, ◌<◌, ◌≤◌, ℕ, length, OnOk};
ghost use Rattle.avc_units.specs.Table.{walk};
ghost use Rattle.avc_units.specs.Cursor.{Takes};
ghost use Rattle.avc_slices.specs.References.{is_b, is_p, is_predicted, direct, second_list, references};
ghost use Rattle.avc_slices.specs.References.{changes, modification, second_modification, modifications};

use avc_sets::Pps;
use avc_units::{Bits, ElementFail, elements_in_turn};

/// How many references stand in the first list and in the second.
#[derive(Clone, Copy)]
pub(crate) struct References {
    pub first: u32,
    pub second: u32,
}

pub(crate) fn is_b(kind: u32) -> bool
    ensures { result ≡ is_b kind }
{
    kind == 1
}

pub(crate) fn is_p(kind: u32) -> bool
    ensures { result ≡ is_p kind }
{
    kind == 0 || kind == 3
}

fn is_predicted(kind: u32) -> bool
    ensures { result ≡ is_predicted kind }
{
    is_p(kind) || is_b(kind)
}

#[tactic(auto, unfolding(crate::specs::References::direct, avc_units::specs::Table::walk))]
pub(crate) fn pass_direct(bits: &mut Bits<'_>, kind: u32) -> Result<(), ElementFail>
    ensures takes { Takes (walk (direct kind) bits.old) result bits.new }
    ensures shorter { OnOk result (length bits.new ≤ length bits.old) }
{
    elements_in_turn::<()>();
    if is_b(kind) {
        bits.read_flag()?;
    }
    Ok(())
}

#[tactic(auto, unfolding(crate::specs::References::second_list, avc_units::specs::Table::walk))]
fn read_second_list(bits: &mut Bits<'_>, kind: u32, refs1: u8) -> Result<u32, ElementFail>
    ensures takes { Takes (walk (second_list kind refs1) bits.old) result bits.new }
    ensures shorter { OnOk result (length bits.new ≤ length bits.old) }
{
    elements_in_turn::<u32>();
    if !is_b(kind) {
        return Ok(u32::from(refs1));
    }
    let less = bits.read_ue_upto(31)?;
    Ok(less + 1)
}

#[tactic(auto, unfolding(crate::specs::References::references, avc_units::specs::Table::walk))]
pub(crate) fn read_references(
    bits: &mut Bits<'_>,
    kind: u32,
    pps: &Pps,
) -> Result<References, ElementFail>
    ensures takes { Takes (walk (references kind pps.now) bits.old) result bits.new }
    ensures shorter { OnOk result (length bits.new ≤ length bits.old) }
{
    elements_in_turn::<References>();
    let kept = References {
        first: u32::from(pps.refs0),
        second: u32::from(pps.refs1),
    };
    if !is_predicted(kind) {
        return Ok(kept);
    }
    if !bits.read_flag()? {
        return Ok(kept);
    }
    let less = bits.read_ue_upto(31)?;
    let second = read_second_list(bits, kind, pps.refs1)?;
    Ok(References {
        first: less + 1,
        second,
    })
}

fn pass_changes(bits: &mut Bits<'_>) -> Result<(), ElementFail>
    ensures takes { (n : ℕ) → length bits.old < n → Takes (walk (changes n) bits.old) result bits.new }
    ensures shorter { OnOk result (length bits.new ≤ length bits.old) }
{
    elements_in_turn::<()>();
    loop {
        let operation = match bits.read_ue_upto(3) {
            Ok(operation) => operation,
            Err(fail) => return Err(fail),
        };
        if operation == 3 {
            return Ok(());
        }
        match bits.read_ue() {
            Ok(_) => {}
            Err(fail) => return Err(fail),
        }
    }
}

#[tactic(auto, unfolding(crate::specs::References::modification, avc_units::specs::Table::walk))]
fn pass_modification(bits: &mut Bits<'_>) -> Result<(), ElementFail>
    ensures takes { (n : ℕ) → length bits.old < n → Takes (walk (modification n) bits.old) result bits.new }
    ensures shorter { OnOk result (length bits.new ≤ length bits.old) }
{
    elements_in_turn::<()>();
    if bits.read_flag()? {
        return pass_changes(bits);
    }
    Ok(())
}

#[tactic(auto, unfolding(crate::specs::References::second_modification, avc_units::specs::Table::walk))]
fn pass_second_modification(bits: &mut Bits<'_>, kind: u32) -> Result<(), ElementFail>
    ensures takes { (n : ℕ) → length bits.old < n
        → Takes (walk (second_modification n kind) bits.old) result bits.new }
    ensures shorter { OnOk result (length bits.new ≤ length bits.old) }
{
    if is_b(kind) {
        return pass_modification(bits);
    }
    Ok(())
}

#[tactic(auto, unfolding(crate::specs::References::modifications, avc_units::specs::Table::walk))]
pub(crate) fn pass_modifications(bits: &mut Bits<'_>, kind: u32) -> Result<(), ElementFail>
    ensures takes { (n : ℕ) → length bits.old < n → Takes (walk (modifications n kind) bits.old) result bits.new }
    ensures shorter { OnOk result (length bits.new ≤ length bits.old) }
{
    elements_in_turn::<()>();
    if !is_predicted(kind) {
        return Ok(());
    }
    pass_modification(bits)?;
    pass_second_modification(bits, kind)
}
