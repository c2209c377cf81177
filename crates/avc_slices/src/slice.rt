//! What is kept of a slice header.
ghost use Rattle.std.specs.Prelude.{◌≡◌, ◌<◌, ℕ, drop, length, slice_index, option_copied};
ghost use Rattle.mp_ports.specs.declared.code.Code.TheVariants.{SliceSyntax};
ghost use Rattle.avc_units.specs.Bits.{bits_of};
ghost use Rattle.avc_units.specs.Table.{SaysCode};
ghost use Rattle.avc_slices.specs.Unit.{nal_of};
ghost use Rattle.avc_slices.specs.Header.{header};

use crate::header::read_header;
use crate::unit::nal_of;
use avc_sets::{Pps, Sps};
use avc_units::{Bits, tables_are_read};
use mp_ports::Code;

/// What is kept of a slice header (H.264, 7.4.3). A value that isn't in the header is 0.
///
/// `pps` is the number of the picture parameter set, `idr_id` is `idr_pic_id`, `lsb` and `bottom` are
/// `pic_order_cnt_lsb` and `delta_pic_order_cnt_bottom`.
#[derive(Clone, Copy, Debug, PartialEq, Eq)]
pub struct Slice {
    pub idr: bool,
    pub ref_idc: u8,
    pub pps: u8,
    pub frame_num: u32,
    pub idr_id: u32,
    pub lsb: u32,
    pub bottom: i32,
}

/// Reads the header of a slice (H.264, 7.3.3) from a cleaned unit, by the sets that stand before it.
///
/// `SetMissing` where its picture parameter set, or the sequence parameter set that this one names,
/// isn't among them; `FieldPicture` for a field, `Redundant` for a redundant picture, `Marking5` for a
/// marking that begins the counts anew; `SliceSyntax` where the bits end before an element, or a value
/// is out of its range, or an IDR picture is no reference.
pub fn read_slice(clean: &[u8], sps: Option<&Sps>, pps: &[Pps]) -> Result<Slice, Code>
    requires { 0 < length clean.now }
    ensures { (n : ℕ) → length (bits_of (drop 1 clean.now)) < n
        → SaysCode SliceSyntax (header n (nal_of (slice_index clean.now 0)) (option_copied sps.entry) pps.now)
        (bits_of (drop 1 clean.now)) result }
{
    tables_are_read::<Slice>();
    let mut bits = Bits::new(&clean[1..]);
    match read_header(&mut bits, nal_of(clean[0]), sps, pps) {
        Ok(slice) => Ok(slice),
        Err(fail) => Err(fail.code(Code::SliceSyntax)),
    }
}
