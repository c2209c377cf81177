// How a run ends.
ghost use Rattle.std.specs.Prelude.{◌≡◌};
ghost use Rattle.mp4edit.specs.Status.{status};

use mp_ports::Bad;
use mp_words::WordKind;

/// How a run ends, and what it says of it by its status.
#[derive(Clone, Copy, Debug, PartialEq, Eq)]
pub enum Ending {
    /// The file is written, finished, and told of.
    Done,
    /// The word of that number, counted from 1, is at fault; 0 is the line.
    Words { word: u32, kind: WordKind },
    /// An input or a command is refused.
    Refused(Bad),
    /// The file of the option of that number is missing.
    NoFile { command: u32 },
    /// An open or a read failed.
    ReadFault,
    /// A create, an append or a finish failed.
    WriteFault,
    /// The report failed; the file is whole and finished.
    ReportFault,
    /// No memory was found; nothing is created.
    NoMemory,
}

impl Ending {
    /// The status with which the program ends.
    pub fn status(self) -> u8
        ensures { result ≡ status self }
    {
        match self {
            Ending::Done => 0,
            Ending::Words { .. } => 1,
            Ending::Refused(_) => 2,
            Ending::NoFile { .. } => 3,
            Ending::ReadFault => 4,
            Ending::WriteFault => 5,
            Ending::ReportFault => 6,
            Ending::NoMemory => 7,
        }
    }
}
