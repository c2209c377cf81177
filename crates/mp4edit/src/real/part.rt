// The name of a part: the file beside the output that is written until it is whole.
use arrayvec::ArrayString;
use std::fmt::Write;
use std::io::{self, ErrorKind};

/// How many parts may stand in one folder.
pub(super) const PARTS: u32 = 1000;

// The longest path that the system takes, in bytes.
const LONGEST: usize = 4096;

/// The path of the part of that number, in the folder of the output of that path. It stands on the
/// stack: no memory is taken once the output is created.
pub(super) fn part_name(output: &str, number: u32) -> io::Result<ArrayString<LONGEST>> {
    let mut path = ArrayString::new();
    let is_written = match output.rsplit_once('/') {
        Some((folder, _)) => write!(path, "{folder}/mp4edit-{number}.part"),
        None => write!(path, "mp4edit-{number}.part"),
    };
    match is_written {
        Ok(()) => Ok(path),
        Err(_) => Err(io::Error::from(ErrorKind::InvalidFilename)),
    }
}
