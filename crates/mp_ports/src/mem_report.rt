//! A report in memory, whose calls fail where they are told to.

ghost use Rattle.std.specs.Prelude.{◌≡◌, ◌+◌, ◌≤◌, ◌↔◌, ◌⊎◌, [], length, Some, IsOk, IsErr, OnOk, OnErr};
ghost use Rattle.mp_ports.specs.Calls.{called, FailsNext};
ghost use Rattle.mp_ports.specs.Memory.{half_of};
ghost use Rattle.mp_ports.specs.Told.{followed_by};
ghost use Rattle.mp_ports.specs.Report.{Says, FailsToSay};

use crate::calls::Calls;
use crate::count::raise;
use crate::{NoMemory, PortFault, Report};
use std::alloc::Global;
use std::marker::Model;

/// A report in memory: it tells what was said, and the calls that it is told to fail do fail.
///
/// Its calls of `say` are counted from 1.
#[derive(Drop)]
pub struct MemReport {
    calls: Calls,
    said: Vec<u8>,
    faults: u64,
}

impl Model for MemReport {
    ghost use Rattle.std.specs.Prelude.{◌-◌, Some, vec_len, vec_capacity};
    ghost use Rattle.mp_ports.specs.Memory.{MemReportState};

    ghost Value = { MemReportState };

    ghost view = { λ s. record {
      report = record { said = Some s.said.items; faults = s.faults };
      calls = s.calls;
      room = vec_capacity s.said - vec_len s.said;
    } };
}

impl MemReport {
    /// A report in which nothing is said, and whose calls of these numbers fail.
    ///
    /// It takes no memory.
    pub fn new(alloc: Global, failing: Vec<u64>) -> Self
        ensures { result ≡ record {
          report = record { said = Some []; faults = 0 };
          calls = record { count = 0; failing = failing.items };
          room = 0;
        } }
    {
        MemReport {
            calls: Calls::new(failing),
            said: Vec::new(alloc),
            faults: 0,
        }
    }

    /// Makes room for that many further said bytes, and changes nothing else.
    ///
    /// `NoMemory` only where the room that there was is less.
    pub fn reserve(&mut self, more: usize) -> Result<(), NoMemory>
        ensures ok { OnOk result (more ≤ self.new.room) }
        ensures err { OnErr result (self.new ≡ self.old) }
        ensures enough { more ≤ self.old.room → IsOk result }
        ensures grows { self.old.room ≤ self.new.room }
        ensures same { self.new ≡ record self.old { room = self.new.room } }
    {
        self.said.reserve(more)?;
        Ok(())
    }

    /// The said bytes.
    pub fn said(&self) -> &[u8]
        ensures { self.now.report.said ≡ Some result.now }
    {
        &self.said
    }
}

impl Report for MemReport {
    ghost state = { λ s. s.report };

    fn say(&mut self, piece: &[u8]) -> Result<(), PortFault>
        ensures said { OnOk result (Says self.old.report self.new.report piece.now) }
        ensures failed { OnErr result (FailsToSay self.old.report self.new.report piece.now) }
        ensures counted { self.new.calls ≡ called self.old.calls }

        // Where it is to fail, half of the piece is said; nothing only where there was no room.
        ensures fails { FailsNext self.old.calls → IsErr result }
        ensures half { FailsNext self.old.calls → length (half_of piece.now) ≤ self.old.room
            → self.new.report.said ≡ followed_by self.old.report.said (half_of piece.now) }
        ensures half_or_nothing { FailsNext self.old.calls
            → (self.new.report.said ≡ followed_by self.old.report.said (half_of piece.now))
            ⊎ (self.new.report.said ≡ self.old.report.said) }

        // Where it isn't, it fails only for want of room and memory, and says nothing then.
        ensures exact { length piece.now ≤ self.old.room
            → (IsErr result ↔ FailsNext self.old.calls) }
        ensures nothing { IsErr result → ¬ FailsNext self.old.calls
            → self.new.report.said ≡ self.old.report.said }
        ensures room { length piece.now ≤ self.old.room
            → self.old.room ≤ self.new.room + length piece.now }
    {
        if self.calls.fails_next() {
            let _ = self.said.extend_from_slice(&piece[..piece.len() / 2]);
            raise(&mut self.faults);
            return Err(PortFault);
        }
        if self.said.extend_from_slice(piece).is_err() {
            raise(&mut self.faults);
            return Err(PortFault);
        }
        Ok(())
    }
}
