//! Numbers of three bytes.

ghost use Rattle.std.specs.Prelude.{◌≡◌, ◌+◌, ◌≤◌, ◌<◌, ◌^◌, length};
ghost use Rattle.nhnt_import.specs.Number.{u24_at};

/// The number of the three bytes at `at`, most significant byte first.
#[tactic(auto, unfolding(crate::specs::Number::u24_at))]
pub(crate) fn u24_in(bytes: &[u8], at: usize) -> u32
    requires { at + 3 ≤ length bytes.now }
    ensures value { result ≡ u24_at bytes.now at }
    ensures below { result < 2 ^ 24 }
{
    u32::from(bytes[at]) * 0x0001_0000
        + u32::from(bytes[at + 1]) * 0x0100
        + u32::from(bytes[at + 2])
}
