//! Boxes behind their number (ISO/IEC 14496-12, 8.5.2 and 8.7.2).

ghost use Rattle.std.specs.Prelude.{◌+◌, ◌<◌, ◌^◌, length, OnOk};
ghost use Rattle.mp_ports.specs.Checks.{Checks};
ghost use Rattle.mp_boxes.specs.Boxes.{IsContainer};
ghost use Rattle.mp_boxes.specs.Counted.{IsCounted, counted_fault};

use crate::child::check_boxes;
use crate::head::next_box;
use mp_ports::{Bad, Code};

/// Whether these boxes are so many, and each body has at least so many bytes.
fn check_number(bytes: &[u8], base: u64, count: u32, least: usize, place: u64) -> Result<(), Bad>
    requires place { base + length bytes.now < 2 ^ 64 }
    requires boxes { IsContainer base bytes.now }
    ensures { Checks result (counted_fault count least place base bytes.now) }
{
    let mut at = 0;
    let mut found = 0;
    let mut is_short = false;
    while let Ok(Some(child)) = next_box(bytes, at, base) {
        is_short = is_short | (child.len - child.head < least);
        found += 1;
        at = child.place + child.len;
    }
    if is_short | (found != count as usize) {
        return Err(Bad::at(Code::TableLength, place));
    }
    Ok(())
}

/// Whether the boxes that stand at `base` behind their number are whole, so many, and each body has at
/// least so many bytes. They are in the box at `place`.
///
/// `BoxCut` and `BoxSize` as for `check_boxes`, then `TableLength` at `place`.
pub fn check_counted(
    bytes: &[u8],
    base: u64,
    count: u32,
    least: usize,
    place: u64,
) -> Result<(), Bad>
    requires { base + length bytes.now < 2 ^ 64 }
    ensures fault { Checks result (counted_fault count least place base bytes.now) }
    ensures counted { OnOk result (IsCounted count least base bytes.now) }
{
    check_boxes(bytes, base)?;
    check_number(bytes, base, count, least, place)
}
