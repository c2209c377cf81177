//! Files in memory, and the movies or refusals that they give.

mod faults;
mod first_bytes;
mod long_files;
mod movies;
mod spellings;

use crate::read_movie;
use mp_movie::Movie;
use mp_ports::{Bad, Code, Folder, MemFile, MemFolder, OpenFail, ReadFail};
use std::alloc::{AllocError, Global};
use std::process::Abort;
use std::test;

/// The movie of a file of these bytes, where the calls of these numbers fail.
fn read_failing(
    alloc: Global,
    bytes: &[u8],
    failing: &[u64],
) -> Result<Result<Movie, ReadFail>, AllocError> {
    let mut files = Vec::new(alloc);
    files.push(MemFile {
        name: String::from_str(alloc, "a")?,
        bytes: Vec::from_slice(alloc, bytes)?,
    })?;
    let mut folder = MemFolder::new(alloc, files, Vec::from_slice(alloc, failing)?);
    match folder.open("a") {
        Ok(file) => Ok(read_movie(alloc, &mut folder, file)),
        Err(OpenFail::NoMemory) => Ok(Err(ReadFail::NoMemory)),
        Err(_) => Ok(Err(ReadFail::ReadFault)),
    }
}

/// The movie of a file of these bytes.
fn read(alloc: Global, bytes: &[u8]) -> Result<Result<Movie, ReadFail>, AllocError> {
    read_failing(alloc, bytes, &[])
}

/// What a file of these bytes is refused for, if it isn't read.
fn refusal(alloc: Global, bytes: &[u8]) -> Result<Option<Bad>, AllocError> {
    match read(alloc, bytes)? {
        Ok(_) => Ok(None),
        Err(ReadFail::Bad(bad)) => Ok(Some(bad)),
        Err(_) => Err(AllocError),
    }
}

// A file of these bytes is refused so.
fn check_refused(
    rt: &impl Abort,
    alloc: Global,
    bytes: &[u8],
    code: Code,
    place: usize,
) -> Result<(), test::Fail> {
    let wanted = Bad::at(code, place as u64);
    assert_eq!(rt; refusal(alloc, bytes)?, Some(wanted));
    Ok(())
}

/// Writes bytes over those at a place.
fn put(bytes: &mut [u8], at: usize, new: &[u8]) {
    for (i, byte) in new.iter().enumerate() {
        if let Some(old) = bytes.get_mut(at.saturating_add(i)) {
            *old = *byte;
        }
    }
}
