//! The counted calls of an object in memory.

ghost use Rattle.std.specs.Prelude.{◌≡◌, ◌↔◌, IsTrue};
ghost use Rattle.mp_ports.specs.Calls.{CallCount, called, FailsNext};

use crate::count::raise;
use std::marker::Model;

/// How many calls there were, and which are to fail.
#[derive(Drop)]
pub(crate) struct Calls {
    failing: Vec<u64>,
    count: u64,
}

impl Model for Calls {
    ghost use Rattle.mp_ports.specs.Calls.{CallCount};

    ghost Value = { CallCount };

    ghost view = { λ c. record { count = c.count; failing = c.failing.items } };
}

impl Calls {
    /// No call yet; those with these numbers, counted from 1, are to fail.
    pub(crate) fn new(failing: Vec<u64>) -> Self
        ensures { result ≡ record { count = 0; failing = failing.items } }
    {
        Calls { failing, count: 0 }
    }

    /// Counts one more call, and says whether it is to fail.
    pub(crate) fn fails_next(&mut self) -> bool
        ensures counted { self.new ≡ called self.old }
        ensures fails { IsTrue result ↔ FailsNext self.old }
    {
        raise(&mut self.count);
        self.failing.contains(&self.count)
    }
}
