//! Full boxes (ISO/IEC 14496-12, 4.2): version and flags, and tables behind them.

ghost use Rattle.std.specs.Prelude.{◌≡◌, ◌≤◌, ◌<◌, ◌^◌, length, IfOk, OnOk};
ghost use Rattle.mp_ports.specs.Checks.{first_code, placed, unless};
ghost use Rattle.mp_boxes.specs.FullBox.{HasRows, first_field, flags, full_box_checks, row_count, table_fault, version};

use crate::number::u32_in;
use mp_ports::{Bad, Code};

/// The place of the first field behind version and flags; in a table it is the number of rows.
pub const FIRST_FIELD: usize = 4;

/// The place of the first row of a table.
pub const FIRST_ROW: usize = 8;

/// The version of a full box.
pub fn version(body: &[u8]) -> u32
    requires { first_field ≤ length body.now }
    ensures { result ≡ version body.now }
{
    u32_in(body, 0) / (1 << 24)
}

/// The flags of a full box.
pub fn flags(body: &[u8]) -> u32
    requires { first_field ≤ length body.now }
    ensures { result ≡ flags body.now }
{
    u32_in(body, 0) % (1 << 24)
}

/// Whether the full box at `place` has a version of at most `newest`, and its fields as far as `end`.
///
/// `TableLength` where it has no version and flags, `BoxVersion`, `TableLength` where it ends before `end`.
pub fn check_full_box(body: &[u8], newest: u32, end: usize, place: u64) -> Result<(), Bad>
    ensures answer { result ≡ placed place (unless (first_code (full_box_checks newest end body.now)) tt) }
    ensures fields { OnOk result (first_field ≤ length body.now) }
    ensures inside { OnOk result (end ≤ length body.now) }
    ensures known { OnOk result (version body.now ≤ newest) }
{
    if body.len() < FIRST_FIELD {
        return Err(Bad::at(Code::TableLength, place));
    }
    if version(body) > newest {
        return Err(Bad::at(Code::BoxVersion, place));
    }
    if body.len() < end {
        return Err(Bad::at(Code::TableLength, place));
    }
    Ok(())
}

/// The number of rows of `width` bytes in the table at `place`, whose version is at most `newest`. They
/// are all there.
///
/// `TableLength` where it has no version and flags, `BoxVersion`, `TableLength` where it is shorter than its
/// rows.
#[tactic(auto, unfolding(crate::specs::FullBox::table_fault))]
pub fn row_count(body: &[u8], newest: u32, width: usize, place: u64) -> Result<u32, Bad>
    requires { width < 2 ^ 16 }
    ensures answer { result ≡ placed place (unless (table_fault newest width body.now) (row_count body.now)) }
    ensures count { IfOk result (λ rows. rows ≡ row_count body.now) }
    ensures whole { OnOk result (HasRows width body.now) }
{
    check_full_box(body, newest, FIRST_ROW, place)?;
    let rows = u32_in(body, FIRST_FIELD);
    if body.len() < FIRST_ROW + width * rows as usize {
        return Err(Bad::at(Code::TableLength, place));
    }
    Ok(rows)
}
