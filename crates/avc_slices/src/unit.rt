//! The first byte of a unit.
ghost use Rattle.std.specs.Prelude.{◌≡◌};
ghost use Rattle.avc_slices.specs.Unit.{nal_of};

/// Whether a slice is one of an IDR picture, and `nal_ref_idc`.
#[derive(Clone, Copy)]
pub(crate) struct Nal {
    pub idr: bool,
    pub ref_idc: u8,
}

pub(crate) fn nal_of(byte: u8) -> Nal
    ensures { result ≡ nal_of byte }
{
    Nal {
        idr: byte % 32 == 5,
        ref_idc: byte / 32 % 4,
    }
}
