//! Times in header boxes, whose version says how wide they are.

ghost use Rattle.std.specs.Prelude.{◌≡◌, ◌≤◌, length, OnOk};
ghost use Rattle.mp_ports.specs.Checks.{placed};
ghost use Rattle.mp_boxes.specs.FullBox.{first_field};
ghost use Rattle.mp_headers.specs.Times.{wide_times};

use mp_boxes::{FIRST_FIELD, check_full_box, version};
use mp_ports::Bad;

/// The newest version of a header box.
const NEWEST_VERSION: u32 = 1;

/// Whether the times of the box at `base` are wide, as its version says.
///
/// `TableLength` where the body has no version and flags, `BoxVersion` where the version isn't 0 or 1.
pub fn wide_times(body: &[u8], base: u64) -> Result<bool, Bad>
    ensures answer { result ≡ placed base (wide_times body.now) }
    ensures fields { OnOk result (first_field ≤ length body.now) }
{
    check_full_box(body, NEWEST_VERSION, FIRST_FIELD, base)?;
    Ok(version(body) == 1)
}
