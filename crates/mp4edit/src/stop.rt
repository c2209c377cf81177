// Why options give no movie.
ghost use Rattle.std.specs.Prelude.{◌≡◌};
ghost use Rattle.mp4edit.specs.Reading.{of_fail, of_read};
ghost use Rattle.mp4edit.specs.Status.{ending_of};

use crate::ending::Ending;
use mp_ports::{Bad, Fail, ReadFail};

/// Why options give no movie.
#[derive(Clone, Copy, Debug, PartialEq, Eq)]
pub enum Stop {
    /// The file of the option of that number is missing.
    Missing { command: u32 },
    Bad(Bad),
    ReadFault,
    NoMemory,
}

impl Stop {
    /// How a run ends whose options give no movie.
    pub fn ending(self) -> Ending
        ensures { result ≡ ending_of self }
    {
        match self {
            Stop::Missing { command } => Ending::NoFile { command },
            Stop::Bad(bad) => Ending::Refused(bad),
            Stop::ReadFault => Ending::ReadFault,
            Stop::NoMemory => Ending::NoMemory,
        }
    }
}

/// A failure of the command of the option of that number.
pub fn of_fail(fail: Fail, command: u32) -> Stop
    ensures { result ≡ of_fail command fail }
{
    match fail {
        Fail::Bad(bad) => Stop::Bad(Bad { command, ..bad }),
        Fail::NoMemory => Stop::NoMemory,
    }
}

/// A failure to read for the option of that number.
pub fn of_read(fail: ReadFail, command: u32) -> Stop
    ensures { result ≡ of_read command fail }
{
    match fail {
        ReadFail::Bad(bad) => Stop::Bad(Bad { command, ..bad }),
        ReadFail::ReadFault => Stop::ReadFault,
        ReadFail::NoMemory => Stop::NoMemory,
    }
}
