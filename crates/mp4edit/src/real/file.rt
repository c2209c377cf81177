// A file that is read.
use std::fs::OpenFile;
use std::io::{ErrorKind, Read, Seek, SeekFrom};
use std::rt::Files;
use std::{fs, io};

/// The plain file of that path, and its size in bytes.
///
/// What isn't a plain file is an error and isn't opened: to open a pipe waits for its writer, and to
/// open a device may do anything. So is a file of the kernel, which has bytes but no size.
pub(super) fn open_sized<R: Files>(rt: &R, name: &str) -> io::Result<(R::File, u64)> {
    if !fs::metadata(rt, name)?.is_file() {
        return Err(io::Error::from(ErrorKind::InvalidInput));
    }
    let mut file = above_streams(&fs::open(rt, name)?)?;
    let size = file.metadata()?.len();
    if size == 0 && file.read(&mut [0u8])? != 0 {
        return Err(io::Error::from(ErrorKind::InvalidInput));
    }
    Ok((file, size))
}

/// The same open file under a number above those of the standard streams.
///
/// A closed standard stream leaves its number free, and the next file that is opened takes it. What
/// is then said on that stream would be written into the file.
pub(super) fn above_streams<F: OpenFile>(file: &F) -> io::Result<F> {
    file.try_clone()
}

/// Fills `into` from that place on; the end of the file before it is full is an error.
pub(super) fn read_exact_from<F: Read + Seek>(
    file: &mut F,
    from: u64,
    into: &mut [u8],
) -> io::Result<()> {
    file.seek(SeekFrom::Start(from))?;
    file.read_exact(into)
}
