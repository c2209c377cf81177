//! Where a picture starts.
ghost use Rattle.std.specs.Prelude.{◌≡◌};
ghost use Rattle.avc_order.specs.Picture.{starts_picture, differ_in_reference, differ_in_order};

use avc_slices::Slice;

/// Whether a slice is the first of another picture than the slice before it (H.264, 7.4.1.2.4), where
/// counts are of that type.
pub fn starts_picture(last: &Slice, this: &Slice, poc_type: u8) -> bool
    ensures { result ≡ starts_picture last.now this.now poc_type }
{
    last.frame_num != this.frame_num
        || last.pps != this.pps
        || differ_in_reference(last, this)
        || last.idr != this.idr
        || (last.idr && this.idr && last.idr_id != this.idr_id)
        || differ_in_order(last, this, poc_type)
}

fn differ_in_reference(last: &Slice, this: &Slice) -> bool
    ensures { result ≡ differ_in_reference last.now this.now }
{
    last.ref_idc != this.ref_idc && (last.ref_idc == 0 || this.ref_idc == 0)
}

fn differ_in_order(last: &Slice, this: &Slice, poc_type: u8) -> bool
    ensures { result ≡ differ_in_order last.now this.now poc_type }
{
    poc_type == 0 && (last.lsb != this.lsb || last.bottom != this.bottom)
}
