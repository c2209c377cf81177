//! The heads of descriptors (ISO/IEC 14496-1, 8.3.3).

ghost use Rattle.std.specs.Prelude.{◌≡◌, ℕ, ◌+◌, ◌^◌, ◌<◌, ◌≤◌, List, length};
ghost use Rattle.mp_boxes.specs.Push.{IsPushed};
ghost use Rattle.mp_entries.specs.Descriptor.{group, length_bytes, descriptor_head, descriptor};

use mp_boxes::{pieces_may_be_cut, push_bytes};

/// The length of a descriptor whose body has `len` bytes.
pub fn descriptor_len(len: u64) -> u64
    requires { len < 2 ^ 28 }
    ensures len { (tag : ℕ) (body : List ℕ) → length body ≡ len → result ≡ length (descriptor tag body) }
    ensures most { result ≤ len + 5 }
{
    1 + length_len(len) + len
}

/// The number of bytes of a length.
#[tactic(auto, unfolding(crate::specs::Descriptor::length_bytes))]
fn length_len(len: u64) -> u64
    ensures len { result ≡ length (length_bytes len) }
    ensures most { result ≤ 4 }
{
    let mut bytes = 1;
    if len >= 1 << 7 {
        bytes += 1;
    }
    if len >= 1 << 14 {
        bytes += 1;
    }
    if len >= 1 << 21 {
        bytes += 1;
    }
    bytes
}

/// Pushes a group of 7 bits with the top bit set, where the length has so many.
fn push_group(out: &mut Vec<u8>, unit: u64, len: u64)
    requires { 0 < unit }
    ensures { IsPushed out.old out.new (group unit len) }
{
    if len < unit {
        return;
    }
    push_bytes(out, &[128 + (len / unit % 128) as u8]);
}

/// Pushes tag and length of a descriptor whose body has `len` bytes.
pub fn push_head(out: &mut Vec<u8>, tag: u8, len: u64)
    requires { len < 2 ^ 28 }
    ensures { IsPushed out.old out.new (descriptor_head tag len) }
{
    pieces_may_be_cut();
    push_bytes(out, &[tag]);
    push_group(out, 1 << 21, len);
    push_group(out, 1 << 14, len);
    push_group(out, 1 << 7, len);
    push_bytes(out, &[(len % 128) as u8]);
}
