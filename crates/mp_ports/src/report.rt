//! What is said to the user.

ghost use Rattle.std.specs.Prelude.{OnOk, OnErr};
ghost use Rattle.mp_ports.specs.Report.{ReportState, Says, FailsToSay};

use crate::PortFault;

/// What is said to the user, piece by piece.
///
/// What was said may be told or not. It counts the pieces that failed.
pub trait Report {
    ghost state: { Self → ReportState };

    /// Says a piece behind what was said.
    ///
    /// `PortFault` where not all of it could be said; a part from its front may stand then.
    fn say(&mut self, piece: &[u8]) -> Result<(), PortFault>
        ensures said { OnOk result (Says (state self.old) (state self.new) piece.now) }
        ensures failed { OnErr result (FailsToSay (state self.old) (state self.new) piece.now) };
}
