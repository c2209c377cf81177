//! The version of a header box, by its times.

ghost use Rattle.std.specs.Prelude.{◌≡◌};
ghost use Rattle.mp_headers.specs.Version.{is_wide};

const LAST_NARROW: u64 = u32::MAX as u64 - 1;

/// Whether a header with these times is written in version 1.
pub fn is_wide(created: u64, modified: u64, duration: u64) -> bool
    ensures { result ≡ is_wide created modified duration }
{
    created > LAST_NARROW || modified > LAST_NARROW || duration > LAST_NARROW
}
