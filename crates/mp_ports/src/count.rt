//! Counts of faults and of calls.

ghost use Rattle.std.specs.Prelude.{◌≡◌};
ghost use Rattle.mp_ports.specs.Count.{after_fault};

/// Counts one more, and stays at 2^64 - 1 once there.
pub fn raise(count: &mut u64)
    ensures { count.new ≡ after_fault count.old }
{
    *count = count.saturating_add(1);
}
