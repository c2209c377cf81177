//! What a call answers where it doesn't do its work.

ghost use Rattle.std.specs.Prelude.{◌≡◌};
ghost use Rattle.mp_ports.specs.Checks.{bad_at};

use crate::Code;
use thiserror::Error;

/// No memory was found.
#[derive(Clone, Copy, Debug, PartialEq, Eq, Error)]
#[error("no memory")]
pub struct NoMemory;

/// A call of the outside failed, and a count of the object that failed rose.
#[derive(Clone, Copy, Debug, PartialEq, Eq, Error)]
#[error("the outside failed")]
pub struct PortFault;

/// Why a file was not opened.
#[derive(Clone, Copy, Debug, PartialEq, Eq, Error)]
pub enum OpenFail {
    /// There is no file of that name.
    #[error("no such file")]
    Missing,
    /// The outside failed, and the count of failed reads rose.
    #[error("the file was not opened")]
    Failed,
    /// No memory was found.
    #[error("no memory")]
    NoMemory,
}

/// A refusal: why, and where.
#[derive(Clone, Copy, Debug, PartialEq, Eq)]
pub struct Bad {
    /// The reason.
    pub code: Code,
    /// The number of the option on the line, counted from 1; 0 beneath the call that reads lines.
    pub command: u32,
    /// 0 for the file that the option names, 1 for its `.media`, 2 for its `.info`.
    pub file: u32,
    /// An offset in that file in bytes, and 0 where the reason has no place.
    pub place: u64,
}

impl Bad {
    /// A refusal at a place of the file that is read.
    pub fn at(code: Code, place: u64) -> Bad
        ensures { result ≡ bad_at code place }
    {
        Bad {
            code,
            command: 0,
            file: 0,
            place,
        }
    }
}

/// A refusal, or want of memory.
#[derive(Clone, Copy, Debug, PartialEq, Eq, Error)]
pub enum Fail {
    /// The input or the command is refused.
    #[error("refused")]
    Bad(Bad),
    /// No memory was found.
    #[error("no memory")]
    NoMemory,
}

/// A refusal, a failed read, or want of memory.
#[derive(Clone, Copy, Debug, PartialEq, Eq, Error)]
pub enum ReadFail {
    /// The input is refused.
    #[error("refused")]
    Bad(Bad),
    /// A read of the folder failed, and its count of failed reads rose.
    #[error("a read failed")]
    ReadFault,
    /// No memory was found.
    #[error("no memory")]
    NoMemory,
}
