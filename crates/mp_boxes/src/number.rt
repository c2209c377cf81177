//! Numbers at a place of a slice, most significant byte first.

ghost use Rattle.std.specs.Prelude.{◌≡◌, ◌+◌, ◌≤◌, length};
ghost use Rattle.mp_boxes.specs.Number.{u16_at, u32_at, u64_at, kind_at};

use byteorder::{BigEndian, ByteOrder};

/// The number of the two bytes at `at`.
#[tactic(auto, unfolding(crate::specs::Number::u16_at))]
pub fn u16_in(bytes: &[u8], at: usize) -> u16
    requires { at + 2 ≤ length bytes.now }
    ensures { result ≡ u16_at bytes.now at }
{
    BigEndian::read_u16(&bytes[at..])
}

/// The number of the four bytes at `at`.
#[tactic(auto, unfolding(crate::specs::Number::u32_at))]
pub fn u32_in(bytes: &[u8], at: usize) -> u32
    requires { at + 4 ≤ length bytes.now }
    ensures { result ≡ u32_at bytes.now at }
{
    BigEndian::read_u32(&bytes[at..])
}

/// The number of the eight bytes at `at`.
#[tactic(auto, unfolding(crate::specs::Number::u64_at))]
pub fn u64_in(bytes: &[u8], at: usize) -> u64
    requires { at + 8 ≤ length bytes.now }
    ensures { result ≡ u64_at bytes.now at }
{
    BigEndian::read_u64(&bytes[at..])
}

/// The four bytes at `at`, as those of a type.
#[tactic(auto, unfolding(crate::specs::Number::kind_at))]
pub fn kind_in(bytes: &[u8], at: usize) -> [u8; 4]
    requires { at + 4 ≤ length bytes.now }
    ensures { result ≡ kind_at bytes.now at }
{
    [bytes[at], bytes[at + 1], bytes[at + 2], bytes[at + 3]]
}
